//! The command line as `clap` takes it.

ghost use Rattle.std.specs.Prelude.{◌≡◌, false, codes, map, IfOk};
ghost use Rattle.clap.specs.Words.{app_of, rule_of, with_subcommand};
ghost use Rattle.pump_line.specs.Leaf.{IsLeaf, argument_rule, bare_app, leaf_shape, with_leaves};
ghost use Rattle.pump_line.specs.Line.{pump_app};

use clap::{Arg, Command};
use std::alloc::{AllocError, Global};

/// An argument of a subcommand, with its name.
enum Argument<'a> {
    /// It has no dash, and has to stand on the line.
    Operand(&'a str),
    /// It is an option with a value.
    OptionValue(&'a str),
}

/// A subcommand.
struct Leaf<'a> {
    /// Its name.
    name: &'a str,
    /// Its arguments, the operands in their order.
    arguments: &'a [Argument<'a>],
}

/// The subcommands of `pump`.
const LEAVES: [Leaf<'static>; 7] = [
    Leaf {
        name: "run",
        arguments: &[
            Argument::Operand("image"),
            Argument::OptionValue("policy"),
            Argument::OptionValue("secret"),
            Argument::OptionValue("cache"),
            Argument::OptionValue("tags"),
            Argument::OptionValue("turns"),
        ],
    },
    Leaf {
        name: "shell",
        arguments: &[
            Argument::Operand("image"),
            Argument::OptionValue("policy"),
            Argument::OptionValue("secret"),
            Argument::OptionValue("cache"),
            Argument::OptionValue("tags"),
            Argument::OptionValue("history"),
        ],
    },
    Leaf {
        name: "asm",
        arguments: &[Argument::Operand("source"), Argument::Operand("image")],
    },
    Leaf {
        name: "migrate",
        arguments: &[Argument::Operand("image"), Argument::Operand("out")],
    },
    Leaf {
        name: "elf",
        arguments: &[
            Argument::Operand("elf"),
            Argument::Operand("tags"),
            Argument::Operand("image"),
        ],
    },
    Leaf {
        name: "dis",
        arguments: &[Argument::Operand("image")],
    },
    Leaf {
        name: "load",
        arguments: &[
            Argument::Operand("count"),
            Argument::OptionValue("cache"),
            Argument::OptionValue("tags"),
        ],
    },
];

/// The argument as `clap` takes it.
#[tactic(auto, using(crate::proofs::CommandLemmas::operand_made, crate::proofs::CommandLemmas::option_made))]
fn argument_of<'a>(alloc: Global, argument: &Argument<'a>) -> Arg<'a>
    ensures rule { rule_of result ≡ argument_rule argument.now }
    ensures local { result.global ≡ false }
{
    match argument {
        Argument::Operand(name) => Arg::new(alloc, *name).required(true),
        Argument::OptionValue(name) => Arg::new(alloc, *name).long(*name),
    }
}

/// The subcommand as `clap` takes it.
fn leaf_command<'a>(alloc: Global, leaf: &Leaf<'a>) -> Result<Command<'a>, AllocError>
    ensures { IfOk result (λ c. IsLeaf c leaf.now.name.now (map argument_rule leaf.now.arguments.now)) }
{
    let mut command = Command::new(alloc, leaf.name);
    for argument in leaf.arguments {
        command = command.arg(argument_of(alloc, argument))?;
    }
    Ok(command)
}

/// The command line with one subcommand more.
fn with_leaf<'a>(
    alloc: Global,
    command: Command<'a>,
    leaf: &Leaf<'a>,
) -> Result<Command<'a>, AllocError>
    ensures { IfOk result (λ c. app_of c ≡ with_subcommand (app_of command.entry) (leaf_shape leaf.now)) }
{
    command.subcommand(leaf_command(alloc, leaf)?)
}

/// The command line with these subcommands more.
fn with_leaves<'a>(
    alloc: Global,
    mut command: Command<'a>,
    leaves: &[Leaf<'a>],
) -> Result<Command<'a>, AllocError>
    ensures { IfOk result (λ c. app_of c ≡ with_leaves (app_of command.entry) leaves.now) }
{
    for leaf in leaves {
        command = with_leaf(alloc, command, leaf)?;
    }
    Ok(command)
}

/// The command line without its subcommands, one of which has to stand on it; there is no help.
fn bare_command<'a>(alloc: Global) -> Command<'a>
    ensures { app_of result ≡ bare_app (codes "pump") }
{
    Command::new(alloc, "pump")
        .disable_help_flag(true)
        .disable_help_subcommand(true)
        .subcommand_required(true)
}

/// The command line of `pump`.
pub(crate) fn pump_command<'a>(alloc: Global) -> Result<Command<'a>, AllocError>
    ensures { IfOk result (λ c. app_of c ≡ pump_app) }
{
    with_leaves(alloc, bare_command(alloc), &LEAVES)
}
