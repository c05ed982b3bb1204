//! The commands, each by its name and its operands.

ghost use Rattle.std.specs.Prelude.{◌≡◌, ◌≤◌, ◌∷◌, length};
ghost use Rattle.shell_lang.specs.Grammar.{hart_operand, place_operand, range_operands};
ghost use Rattle.shell_lang.specs.Grammar.{back_command, feed_command, plain_command, run_command, step_command, turns_command};
ghost use Rattle.shell_lang.specs.Grammar.{counts_view, hart_view, machine_view, past_command, running_command, session_command};
ghost use Rattle.shell_lang.specs.Grammar.{line_answer, words_answer};
ghost use Rattle.shell_lang.specs.Words.{words_of};

use crate::bad_command::BadCommand;
use crate::command::Command;
use crate::operands::{address, aligned, bytes, digits, number, within};
use crate::words::{next_word, no_operand, one_operand, two_operands};

/// The most bytes of a line, without its newline.
const MOST_BYTES: usize = 256;

/// The greatest number of a hart.
const LAST_HART: u32 = 7;

/// The most turns of one command.
const MOST_TURNS: u32 = 1_000_000_000;

/// The most turns that one command takes back.
const MOST_BACK: u32 = 65_536;

/// The most words of memory that one command shows.
const MOST_WORDS: u32 = 1024;

/// A hart alone.
#[tactic(auto, unfolding(crate::specs::Grammar::hart_operand))]
fn hart_operand(rest: &[u8]) -> Result<u32, BadCommand>
    ensures { result ≡ hart_operand (words_of rest.now) }
{
    let hart = number(one_operand(rest)?)?;
    within(hart, 0, LAST_HART)
}

/// The address of a word alone.
#[tactic(auto, unfolding(crate::specs::Grammar::place_operand))]
fn place_operand(rest: &[u8]) -> Result<u32, BadCommand>
    ensures { result ≡ place_operand (words_of rest.now) }
{
    let place = address(one_operand(rest)?)?;
    aligned(place)
}

/// The address of a word, and how many words from there on.
#[tactic(auto, unfolding(crate::specs::Grammar::range_operands))]
fn range_operands(rest: &[u8]) -> Result<(u32, u32), BadCommand>
    ensures { result ≡ range_operands (words_of rest.now) }
{
    let (place, count) = two_operands(rest)?;
    let place = address(place)?;
    let count = number(count)?;
    Ok((aligned(place)?, within(count, 1, MOST_WORDS)?))
}

/// A command without operands.
#[tactic(auto, unfolding(crate::specs::Grammar::plain_command))]
fn plain_command(command: Command, rest: &[u8]) -> Result<Command, BadCommand>
    ensures { result ≡ plain_command command (words_of rest.now) }
{
    no_operand(rest)?;
    Ok(command)
}

/// `step H N`
#[tactic(auto, unfolding(crate::specs::Grammar::step_command))]
fn step_command(rest: &[u8]) -> Result<Command, BadCommand>
    ensures { result ≡ step_command (words_of rest.now) }
{
    let (hart, turns) = two_operands(rest)?;
    let hart = number(hart)?;
    let turns = number(turns)?;
    Ok(Command::Step(within(hart, 0, LAST_HART)?, within(turns, 0, MOST_TURNS)?))
}

/// `run N`
#[tactic(auto, unfolding(crate::specs::Grammar::run_command))]
fn run_command(rest: &[u8]) -> Result<Command, BadCommand>
    ensures { result ≡ run_command (words_of rest.now) }
{
    let turns = number(one_operand(rest)?)?;
    Ok(Command::Run(within(turns, 0, MOST_TURNS)?))
}

/// `back N`
#[tactic(auto, unfolding(crate::specs::Grammar::back_command))]
fn back_command(rest: &[u8]) -> Result<Command, BadCommand>
    ensures { result ≡ back_command (words_of rest.now) }
{
    let turns = number(one_operand(rest)?)?;
    Ok(Command::Back(within(turns, 0, MOST_BACK)?))
}

/// `turns DIGITS`
#[tactic(auto, unfolding(crate::specs::Grammar::turns_command))]
fn turns_command(rest: &[u8]) -> Result<Command, BadCommand>
    requires { length rest.now ≤ 256 }
    ensures { result ≡ turns_command (words_of rest.now) }
{
    let harts = digits(one_operand(rest)?)?;
    Ok(Command::Turns(harts))
}

/// `feed HEX`
#[tactic(auto, unfolding(crate::specs::Grammar::feed_command))]
fn feed_command(rest: &[u8]) -> Result<Command, BadCommand>
    requires { length rest.now ≤ 256 }
    ensures { result ≡ feed_command (words_of rest.now) }
{
    let fed = bytes(one_operand(rest)?)?;
    Ok(Command::Feed(fed))
}

/// The commands that make turns, and what feeds them; `None` for any other name.
#[tactic(auto, unfolding(crate::specs::Grammar::running_command))]
fn running_command(name: &[u8], rest: &[u8]) -> Option<Result<Command, BadCommand>>
    requires { length rest.now ≤ 256 }
    ensures { result ≡ running_command name.now (words_of rest.now) }
{
    match name {
        b"step" => Some(step_command(rest)),
        b"run" => Some(run_command(rest)),
        b"turns" => Some(turns_command(rest)),
        b"feed" => Some(feed_command(rest)),
        _ => None,
    }
}

/// The command that takes turns back; `None` for any other name.
#[tactic(auto, unfolding(crate::specs::Grammar::past_command))]
fn past_command(name: &[u8], rest: &[u8]) -> Option<Result<Command, BadCommand>>
    ensures { result ≡ past_command name.now (words_of rest.now) }
{
    match name {
        b"back" => Some(back_command(rest)),
        _ => None,
    }
}

/// The commands that show a hart; `None` for any other name.
#[tactic(auto, unfolding(crate::specs::Grammar::hart_view))]
fn hart_view(name: &[u8], rest: &[u8]) -> Option<Result<Command, BadCommand>>
    ensures { result ≡ hart_view name.now (words_of rest.now) }
{
    match name {
        b"regs" => Some(hart_operand(rest).map(Command::Regs)),
        b"pc" => Some(hart_operand(rest).map(Command::Pc)),
        b"why" => Some(hart_operand(rest).map(Command::Why)),
        _ => None,
    }
}

/// The commands that show what the harts share; `None` for any other name.
#[tactic(auto, unfolding(crate::specs::Grammar::machine_view))]
fn machine_view(name: &[u8], rest: &[u8]) -> Option<Result<Command, BadCommand>>
    ensures { result ≡ machine_view name.now (words_of rest.now) }
{
    match name {
        b"mem" => Some(range_operands(rest).map(|(a, n)| Command::Mem(a, n))),
        b"tags" => Some(range_operands(rest).map(|(a, n)| Command::Tags(a, n))),
        b"dis" => Some(range_operands(rest).map(|(a, n)| Command::Dis(a, n))),
        b"blocks" => Some(plain_command(Command::Blocks, rest)),
        _ => None,
    }
}

/// The commands that tell what was counted; `None` for any other name.
#[tactic(auto, unfolding(crate::specs::Grammar::counts_view))]
fn counts_view(name: &[u8], rest: &[u8]) -> Option<Result<Command, BadCommand>>
    ensures { result ≡ counts_view name.now (words_of rest.now) }
{
    match name {
        b"stats" => Some(plain_command(Command::Stats, rest)),
        b"sweeps" => Some(plain_command(Command::Sweeps, rest)),
        _ => None,
    }
}

/// The commands that set breakpoints, start again and end; `None` for any other name.
#[tactic(auto, unfolding(crate::specs::Grammar::session_command))]
fn session_command(name: &[u8], rest: &[u8]) -> Option<Result<Command, BadCommand>>
    ensures { result ≡ session_command name.now (words_of rest.now) }
{
    match name {
        b"break" => Some(place_operand(rest).map(Command::Break)),
        b"clear" => Some(place_operand(rest).map(Command::Clear)),
        b"reset" => Some(plain_command(Command::Reset, rest)),
        b"quit" => Some(plain_command(Command::Quit, rest)),
        _ => None,
    }
}

/// The command with this name and these operands.
fn named_command(name: &[u8], rest: &[u8]) -> Result<Command, BadCommand>
    requires { length rest.now ≤ 256 }
    ensures { result ≡ words_answer (name.now ∷ words_of rest.now) }
{
    running_command(name, rest)
        .or_else(|| past_command(name, rest))
        .or_else(|| hart_view(name, rest))
        .or_else(|| machine_view(name, rest))
        .or_else(|| counts_view(name, rest))
        .or_else(|| session_command(name, rest))
        .unwrap_or(Err(BadCommand::UnknownWord))
}

/// What a line without its newline asks for, or why it is refused: the first reason of these decides. It is too long; its first
/// word is no command; the command has another number of operands; one of them is badly written; one is out of its range.
/// What depends on a machine, as how many harts it has, isn't asked here.
#[tactic(auto, unfolding(crate::specs::Grammar::line_answer))]
pub fn read_command(line: &[u8]) -> Result<Command, BadCommand>
    ensures { result ≡ line_answer line.now }
{
    if line.len() > MOST_BYTES {
        return Err(BadCommand::TooLong);
    }
    match next_word(line) {
        None => Ok(Command::Blank),
        Some((name, rest)) => named_command(name, rest),
    }
}
