//! What the words ask for.

ghost use Rattle.std.specs.Prelude.{◌≡◌, ◌≢◌, Some, None, IfOk, IfErr, option_and_then, option_map};
ghost use Rattle.clap.specs.Words.{first_of, found_of, kind_of, rows_of, subcommand_rows_of};
ghost use Rattle.pump_line.specs.Request.{disassemble_asked, disassemble_in, elf_asked, elf_in, load_asked, load_in, request_at};
ghost use Rattle.pump_line.specs.Request.{request_by, run_asked, run_in, save_asked, save_in, shell_asked, shell_in};
ghost use Rattle.pump_line.specs.Task.{AllowsHistory, AllowsRules, AllowsTags, task_in, task_of};
ghost use Rattle.pump_line.specs.Told.{task_value, text_value, texts_of};

use crate::command::pump_command;
use crate::values::{choice_from, read_cache, read_count, read_history, read_tags, read_turns};
use cache_size::CacheSize;
use clap::error::ErrorKind;
use clap::{ArgMatches, Error};
use policy_choice::Choice;
use std::alloc::{AllocError, Global};

/// What the words ask for, a case for each subcommand, but that the two which make an image of one file have one.
#[derive(Clone, Copy)]
pub enum Task<'a> {
    /// `run`
    Run(RunTask<'a>),
    /// `shell`
    Shell(ShellTask<'a>),
    /// `asm` or `migrate`
    Save(SaveTask<'a>),
    /// `elf`
    Elf(ElfTask<'a>),
    /// `dis`
    Disassemble(DisassembleTask<'a>),
    /// `load`
    Load(LoadTask),
}

/// A run that the words ask for.
#[derive(Clone, Copy)]
pub struct RunTask<'a> {
    /// The name of the image's file; it may be empty.
    pub image: &'a str,
    /// The policies that are chosen.
    pub choice: Choice,
    /// The name of the secret file, where one is given; it may be empty.
    pub secret: Option<&'a str>,
    /// How many rules are kept: 0 to 65,536 in one set, or in up to 64 sets.
    pub cache: CacheSize,
    /// The most tags that may have words: 1 to 1,048,576.
    pub tags: u32,
    /// The most turns: 1 to 1,000,000,000.
    pub turns: u64,
}

/// A session of the monitor shell that the words ask for.
#[derive(Clone, Copy)]
pub struct ShellTask<'a> {
    /// The name of the image's file; it may be empty.
    pub image: &'a str,
    /// The policies that are chosen.
    pub choice: Choice,
    /// The name of the secret file, where one is given; it may be empty.
    pub secret: Option<&'a str>,
    /// How many rules are kept: 0 to 65,536 in one set, or in up to 64 sets.
    pub cache: CacheSize,
    /// The most tags that may have words: 1 to 1,048,576.
    pub tags: u32,
    /// The most turns that can be taken back: 0 to 65,536.
    pub history: u32,
}

/// How an image is made that is saved.
#[derive(Clone, Copy, PartialEq, Eq)]
pub enum Making {
    /// A source is assembled.
    Assemble,
    /// An image of either version becomes one of version 2.
    Migrate,
}

/// An image that the words ask to be made of one file and saved.
#[derive(Clone, Copy)]
pub struct SaveTask<'a> {
    /// How it is made.
    pub making: Making,
    /// The name of the file that it is made from; it may be empty.
    pub source: &'a str,
    /// The name of the file that it goes to; it may be empty.
    pub image: &'a str,
}

/// An image that the words ask to be made of an ELF file and a tag file, and saved.
#[derive(Clone, Copy)]
pub struct ElfTask<'a> {
    /// The name of the ELF file; it may be empty.
    pub elf: &'a str,
    /// The name of the tag file; it may be empty.
    pub tags: &'a str,
    /// The name of the file that the image goes to; it may be empty.
    pub image: &'a str,
}

/// A listing of an image's words that the words ask for.
#[derive(Clone, Copy)]
pub struct DisassembleTask<'a> {
    /// The name of the image's file; it may be empty.
    pub image: &'a str,
}

/// A run of a workload, under every policy, that the words ask for.
#[derive(Clone, Copy)]
pub struct LoadTask {
    /// How many blocks the workload has: 1 to 1,000.
    pub count: u32,
    /// How many rules are kept: 0 to 65,536 in one set, or in up to 64 sets.
    pub cache: CacheSize,
    /// The most tags that may have words: 1 to 1,048,576.
    pub tags: u32,
}

/// Why words were not read.
#[derive(Clone, Copy)]
pub enum WordsEnd {
    /// They are no command line of `pump`.
    Bad,
    /// Memory ran out.
    Memory,
}

impl From<AllocError> for WordsEnd {
    ghost use Rattle.pump_line.specs.declared.task.WordsEnd.TheVariants.{Memory};

    ghost from_gives = { λ _ e. e ≡ Memory };

    fn from(_e: AllocError) -> WordsEnd {
        WordsEnd::Memory
    }
}

/// The text that a match has for an argument.
fn text_of<'a>(matches: &ArgMatches<'a>, id: &str) -> Option<&'a str>
    ensures { text_value result ≡ first_of id.now (rows_of (found_of matches.now)) }
{
    matches.get_str(id)
}

/// The run that a match of `run` asks for; `None` where a value is bad.
#[tactic(auto, unfolding(crate::specs::Request::run_in, crate::specs::Task::run_task_in))]
fn run_task<'a>(matches: &ArgMatches<'a>) -> Option<Task<'a>>
    ensures { option_map task_value result
        ≡ option_and_then task_in
        (option_map run_asked (run_in (rows_of (found_of matches.now)))) }
{
    let image = text_of(matches, "image")?;
    let choice = choice_from(text_of(matches, "policy"))?;
    let secret = text_of(matches, "secret");
    let cache = read_cache(text_of(matches, "cache"))?;
    let tags = read_tags(text_of(matches, "tags"))?;
    let turns = read_turns(text_of(matches, "turns"))?;
    Some(Task::Run(RunTask {
        image,
        choice,
        secret,
        cache,
        tags,
        turns,
    }))
}

/// The session of the shell that a match of `shell` asks for; `None` where a value is bad.
#[tactic(auto, unfolding(crate::specs::Request::shell_in, crate::specs::Task::shell_task_in))]
fn shell_task<'a>(matches: &ArgMatches<'a>) -> Option<Task<'a>>
    ensures { option_map task_value result
        ≡ option_and_then task_in
        (option_map shell_asked (shell_in (rows_of (found_of matches.now)))) }
{
    let image = text_of(matches, "image")?;
    let choice = choice_from(text_of(matches, "policy"))?;
    let secret = text_of(matches, "secret");
    let cache = read_cache(text_of(matches, "cache"))?;
    let tags = read_tags(text_of(matches, "tags"))?;
    let history = read_history(text_of(matches, "history"))?;
    Some(Task::Shell(ShellTask {
        image,
        choice,
        secret,
        cache,
        tags,
        history,
    }))
}

/// The image that a match asks to be made so and saved, by the operands that name its source and its file.
#[tactic(auto, unfolding(crate::specs::Request::save_in))]
fn save_task<'a>(
    making: Making,
    matches: &ArgMatches<'a>,
    source: &str,
    image: &str,
) -> Option<Task<'a>>
    ensures { option_map task_value result
        ≡ option_and_then task_in (option_map save_asked
        (save_in making source.now image.now (rows_of (found_of matches.now)))) }
{
    let source = text_of(matches, source)?;
    let image = text_of(matches, image)?;
    Some(Task::Save(SaveTask {
        making,
        source,
        image,
    }))
}

/// The image that a match of `elf` asks to be made and saved.
#[tactic(auto, unfolding(crate::specs::Request::elf_in))]
fn elf_task<'a>(matches: &ArgMatches<'a>) -> Option<Task<'a>>
    ensures { option_map task_value result
        ≡ option_and_then task_in
        (option_map elf_asked (elf_in (rows_of (found_of matches.now)))) }
{
    let elf = text_of(matches, "elf")?;
    let tags = text_of(matches, "tags")?;
    let image = text_of(matches, "image")?;
    Some(Task::Elf(ElfTask { elf, tags, image }))
}

/// The listing that a match of `dis` asks for.
#[tactic(auto, unfolding(crate::specs::Request::disassemble_in))]
fn disassemble_task<'a>(matches: &ArgMatches<'a>) -> Option<Task<'a>>
    ensures { option_map task_value result
        ≡ option_and_then task_in
        (option_map disassemble_asked (disassemble_in (rows_of (found_of matches.now)))) }
{
    let image = text_of(matches, "image")?;
    Some(Task::Disassemble(DisassembleTask { image }))
}

/// The run of a workload that a match of `load` asks for; `None` where a value is bad.
#[tactic(auto, unfolding(crate::specs::Request::load_in, crate::specs::Task::load_task_in))]
fn load_task<'a>(matches: &ArgMatches<'a>) -> Option<Task<'a>>
    ensures { option_map task_value result
        ≡ option_and_then task_in
        (option_map load_asked (load_in (rows_of (found_of matches.now)))) }
{
    let count = read_count(text_of(matches, "count")?)?;
    let cache = read_cache(text_of(matches, "cache"))?;
    let tags = read_tags(text_of(matches, "tags"))?;
    Some(Task::Load(LoadTask { count, cache, tags }))
}

/// What a match of the subcommand with this name asks for.
#[tactic(auto, unfolding(crate::specs::Request::request_by))]
fn task_named<'a>(name: &str, matches: &ArgMatches<'a>) -> Option<Task<'a>>
    ensures { option_map task_value result
        ≡ option_and_then task_in (request_by name.now (rows_of (found_of matches.now))) }
{
    match name {
        "run" => run_task(matches),
        "shell" => shell_task(matches),
        "asm" => save_task(Making::Assemble, matches, "source", "image"),
        "migrate" => save_task(Making::Migrate, matches, "image", "out"),
        "elf" => elf_task(matches),
        "dis" => disassemble_task(matches),
        "load" => load_task(matches),
        _ => None,
    }
}

/// What a match asks for.
fn task_matched<'a>(matches: &ArgMatches<'a>) -> Option<Task<'a>>
    ensures { option_map task_value result
        ≡ option_and_then task_in (request_at (subcommand_rows_of matches.now)) }
{
    let (name, inner) = matches.subcommand()?;
    task_named(name, inner)
}

/// Why `clap` gave no match.
fn end_of(error: &Error) -> WordsEnd
    ensures memory { kind_of error.now ≡ ErrorKind.OutOfMemory → result ≡ WordsEnd.Memory }
    ensures bad { kind_of error.now ≢ ErrorKind.OutOfMemory → result ≡ WordsEnd.Bad }
{
    match error.kind() {
        ErrorKind::OutOfMemory => WordsEnd::Memory,
        _ => WordsEnd::Bad,
    }
}

/// What the words ask for, the first being the program's name: `run IMAGE [--policy LIST] [--secret FILE] [--cache SIZE]
/// [--tags N] [--turns N]`, `shell IMAGE [--policy LIST] [--secret FILE] [--cache SIZE] [--tags N] [--history N]`, `asm SOURCE
/// IMAGE`, `migrate IMAGE OUT`, `elf ELF TAGS IMAGE`, `dis IMAGE` or `load COUNT [--cache SIZE] [--tags N]`, the options in any
/// order before or after the operand, each at most once; `asm`, `migrate`, `elf` and `dis` have none. LIST is `none`, or names
/// among `seal`, `comp`, `flow`, `heap` and `secret` with commas between, none twice; it is `none` where it isn't there. FILE
/// is the name of the file of secret bytes. SIZE is N, the rules of one set, 0 to 65,536 (1,024 where it isn't there), or SxW,
/// S sets of W ways each, 1 to 64 and 1 to 65,536, which make 65,536 rules at most. N is 1 to 10 decimal digits, as S and W
/// are, that write 1 to 1,048,576 for `--tags` (65,536), 1 to 1,000,000,000 for `--turns` (1,000,000) and 0 to 65,536 for
/// `--history` (0). COUNT is 1 to 10 decimal digits that write 1 to 1,000. So some tag may have a word in every task that
/// starts an image, and no shell asks for more than 65,536 turns to be taken back. SOURCE, IMAGE, OUT, ELF and TAGS are names
/// of files, of any text: no file is looked at. This is the project's own command line; `clap` judges its form. Any other words
/// are `Bad`. A line that runs out of memory may end as `Memory`.
pub fn read_task<'a>(alloc: Global, words: &'a Vec<String>) -> Result<Task<'a>, WordsEnd>
    ensures task { IfOk result (λ t. task_of (texts_of words.now.items) ≡ Some (task_value t)) }
    ensures tags { IfOk result (λ t. AllowsTags (task_value t)) }
    ensures rules { IfOk result (λ t. AllowsRules (task_value t)) }
    ensures history { IfOk result (λ t. AllowsHistory (task_value t)) }
    ensures bad { IfErr result (λ e. e ≡ WordsEnd.Bad
        → task_of (texts_of words.now.items) ≡ None) }
{
    let command = pump_command(alloc)?;
    match command.try_get_matches_from(words.as_slice()) {
        Ok(matches) => task_matched(&matches).ok_or(WordsEnd::Bad),
        Err(error) => Err(end_of(&error)),
    }
}
