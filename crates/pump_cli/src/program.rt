//! The program, from the words, the files, the input and the two sinks to its status.

ghost use Rattle.std.specs.Prelude.{◌≡◌, ℕ, List, Option, Some, Ok, true};
ghost use Rattle.host_io.specs.Bytes.{AreBytes, TellBytes};
ghost use Rattle.image_format.specs.Picture.{Picture};
ghost use Rattle.workload_laws.specs.Images.{image_of_workload};
ghost use Rattle.pump_line.specs.Request.{DisassembleTask, ElfTask, SaveTask};
ghost use Rattle.pump_line.specs.Task.{AllowsHistory, AllowsRules, AllowsTags, LoadTask, RunTask, disassemble, elf, load, run, save, task_of};
ghost use Rattle.pump_line.specs.Told.{texts_of, task_value};
ghost use Rattle.pump_cli.specs.Elf.{SavesElf};
ghost use Rattle.pump_cli.specs.Facts.{status_in};
ghost use Rattle.pump_cli.specs.Hidden.{DifferInSecret};
ghost use Rattle.pump_cli.specs.ListedBack.{ListsBack};
ghost use Rattle.pump_cli.specs.Migrated.{SavesMigrated};
ghost use Rattle.pump_cli.specs.Environments.{environment};
ghost use Rattle.pump_cli.specs.Program.{outcome_of_load, program};
ghost use Rattle.pump_cli.specs.Reading.{ElfFiles, elf_read, image_read};
ghost use Rattle.pump_cli.specs.Runs.{EachRun, IsOut, IsSafeRun, IsSpent, TheRun};
ghost use Rattle.pump_cli.specs.Sessions.{SessionTellsRuns, TheSession};
ghost use Rattle.pump_cli.specs.Theorem.{Headline, HeadlineOf};

use crate::cut::Cut;
use crate::dis::disassemble_task;
use crate::elf::elf_task;
use crate::load::load_task;
use crate::refusal::{Refusal, refuse};
use crate::run::run_task;
use crate::save::save_task;
use crate::shell::shell_task;
use crate::status::Status;
use host_io::{Files, Sink, Source};
use pump_line::{Making, Task, WordsEnd, read_task};
use std::alloc::Global;

/// Carries out a task.
fn do_task<F: Files, S: Source, K: Sink, L: Sink>(
    alloc: Global,
    task: Task<'_>,
    files: &mut F,
    input: &mut S,
    out: &mut K,
    err: &mut L,
) -> Result<Status, Cut>
    requires rules { AllowsRules (task_value task) }
    requires tags { AllowsTags (task_value task) }
    requires history { AllowsHistory (task_value task) }
    ensures { HeadlineOf (task_value task.entry) (status_in result)
        (environment F.tells F.held F.read_faults F.write_faults F.calls S.left S.closed S.faults
        K.taken K.faults L.taken L.faults files.old input.old out.old err.old)
        (environment F.tells F.held F.read_faults F.write_faults F.calls S.left S.closed S.faults
        K.taken K.faults L.taken L.faults files.new input.new out.new err.new) }
{
    match task {
        Task::Run(task) => run_task(alloc, task, files, input, out, err),
        Task::Shell(task) => shell_task(alloc, task, files, input, out, err),
        Task::Save(task) => save_task(alloc, task, files, input, out, err),
        Task::Elf(task) => elf_task(alloc, task, files, input, out, err),
        Task::Disassemble(task) => disassemble_task(alloc, task, files, input, out, err),
        Task::Load(task) => load_task(alloc, task, files, input, out, err),
    }
}

/// Does what the words ask for.
fn run_words<F: Files, S: Source, K: Sink, L: Sink>(
    alloc: Global,
    words: &Vec<String>,
    files: &mut F,
    input: &mut S,
    out: &mut K,
    err: &mut L,
) -> Result<Status, Cut>
    ensures { Headline
        (program (texts_of words.now.items) (F.held files.old) (S.left input.old))
        (task_of (texts_of words.now.items)) (status_in result)
        (environment F.tells F.held F.read_faults F.write_faults F.calls S.left S.closed S.faults
        K.taken K.faults L.taken L.faults files.old input.old out.old err.old)
        (environment F.tells F.held F.read_faults F.write_faults F.calls S.left S.closed S.faults
        K.taken K.faults L.taken L.faults files.new input.new out.new err.new) }
{
    match read_task(alloc, words) {
        Ok(task) => do_task(alloc, task, files, input, out, err),
        Err(WordsEnd::Bad) => refuse(err, Refusal::BadWords),
        Err(WordsEnd::Memory) => Err(Cut::Memory),
    }
}

/// The program: what the words ask for, with the files, the input and the two sinks, and the status that the process ends
/// with. The first word is the program's name. The input is read only once the image is taken: by `run` as a whole before its
/// first turn, by `shell` line by line; `asm`, `migrate`, `elf`, `dis` and `load` leave it alone. The one file that is changed is that
/// which `asm`, `migrate` or `elf` saves: it holds the one spelling of the image that is made, and a file that is refused saves nothing.
///
/// Without a fault or running out of memory the bytes and the status are those of the machine that asks the chosen policies at
/// every turn of every hart, however many rules are kept: on the whole input, or at the commands of its lines. Where some rules
/// may be kept, a run ends at the turn that would give words to more tags than may have them. `Headline` (specs/Theorem.antt) has
/// the whole guarantee, fact by fact.
///
/// A run whose turns are spent made as many as its limit says, and left a hart that is ready (`spent`); one that ends out of tag
/// numbers ran out of them (`tags_out`), as does the start of a session (`Executed`, specs/Facts.antt). Where a read of a
/// session's input fails, each line that ended before it was replied to, and nothing else was put (`replied` there).
///
/// What a run shows doesn't depend on what its secret file holds (`hides`): where secrecy is chosen, and two contents of the
/// secret file are told and within their limit, the bytes and the status that are due with the one are due with the other,
/// whatever the input is.
///
/// `load` makes the source of a workload itself, runs its image under every policy on no input, and tells in one line on standard
/// output how many turns, hits and misses there were, and its status. What is due of it is that line alone, whatever files and
/// input hold (`loads`): the source of each workload that words can ask for is assembled, so none is refused.
///
/// What `dis` lists assembles back (`lists`): where the file holds an image, whatever bytes it has, a line is due for each of the
/// image's words, with its address, the word, and a text that the assembler reads as a statement which emits just that word there.
///
/// What `migrate` saves of an image is an image of version 2 (`migrates`) that starts as the first does under each choice of
/// policies, but that 128 compartments may come to be, and that has the same events along every list of turns in which the first
/// has no split that is spent.
///
/// What `elf` saves of an ELF file and a tag file is the image that they stand for (`converts`): under each choice of policies its start has
/// at each address of the RAM the byte that the ELF file's loadable segments put there, and 0 where none lies; hart 0 starts at the ELF
/// file's entry, and all else is as the tag file has it. Both files are loaded before either is judged, and the tag file is judged first.
///
/// In such a run, and in each run that a session makes, the sentence of each chosen policy holds, whatever bytes the files hold and
/// the input gives (`safe`), and so at those that these files and this input tell of (`safe_here`): every unsealing used its key,
/// every indirect jump is a listed edge, every store lies in its compartment's permitted words, every heap access in its pointer's
/// live block.
///
/// The runs that a session makes are those of which its replies tell (`replies`): what is told are the replies to its lines; after
/// each of these the session stands where its run ends; and the reply to a line that makes turns tells the events that the run gains
/// by it, one for each of these turns, and their number. No other line adds an event; `back` takes the last turns of the run away, which
/// then ends where it did before them but for bytes fed since, and `reset` begins it anew.
pub fn pump<F: Files, S: Source, K: Sink, L: Sink>(
    alloc: Global,
    words: &Vec<String>,
    files: &mut F,
    input: &mut S,
    out: &mut K,
    err: &mut L,
) -> Status
    ensures answers { Headline
        (program (texts_of words.now.items) (F.held files.old) (S.left input.old))
        (task_of (texts_of words.now.items)) result
        (environment F.tells F.held F.read_faults F.write_faults F.calls S.left S.closed S.faults
        K.taken K.faults L.taken L.faults files.old input.old out.old err.old)
        (environment F.tells F.held F.read_faults F.write_faults F.calls S.left S.closed S.faults
        K.taken K.faults L.taken L.faults files.new input.new out.new err.new) }
    ensures safe { (held : List ℕ → Option (List ℕ)) (left : Option (List ℕ)) → TellBytes held
        → EachRun IsSafeRun (texts_of words.now.items) held left }
    ensures safe_here { EachRun IsSafeRun (texts_of words.now.items)
        (F.held files.old) (S.left input.old) }
    ensures replies { (held : List ℕ → Option (List ℕ)) (left : Option (List ℕ)) → TellBytes held
        → TheSession SessionTellsRuns (texts_of words.now.items) held left }
    ensures replies_here { TheSession SessionTellsRuns (texts_of words.now.items)
        (F.held files.old) (S.left input.old) }
    ensures hides { (task : RunTask) (held other : List ℕ → Option (List ℕ))
        (left : Option (List ℕ)) → TellBytes held
        → task_of (texts_of words.now.items) ≡ Some (run task)
        → task.choice.secret ≡ true → DifferInSecret task held other
        → program (texts_of words.now.items) other left
        ≡ program (texts_of words.now.items) held left }
    ensures spent { result ≡ Status.TurnsSpent → TheRun IsSpent (texts_of words.now.items)
        (F.held files.old) (S.left input.old) }
    ensures tags_out { result ≡ Status.TagsOut → TheRun IsOut (texts_of words.now.items)
        (F.held files.old) (S.left input.old) }
    ensures loads { (task : LoadTask) → task_of (texts_of words.now.items) ≡ Some (load task)
        → program (texts_of words.now.items) (F.held files.old) (S.left input.old)
        ≡ Some (outcome_of_load task (image_of_workload task.count)) }
    ensures lists { (task : DisassembleTask) (picture : Picture) (bytes : List ℕ)
        (held : List ℕ → Option (List ℕ)) (left : Option (List ℕ)) → AreBytes bytes
        → task_of (texts_of words.now.items) ≡ Some (disassemble task)
        → held task.image ≡ Some bytes → image_read bytes ≡ Ok picture
        → ListsBack picture (program (texts_of words.now.items) held left) }
    ensures migrates { (task : SaveTask) (picture : Picture) (bytes : List ℕ)
        → task_of (texts_of words.now.items) ≡ Some (save task) → task.making ≡ Making.Migrate
        → F.held files.old task.source ≡ Some bytes → image_read bytes ≡ Ok picture
        → SavesMigrated task bytes picture }
    ensures converts { (task : ElfTask) (picture : Picture) (contents : ElfFiles)
        → task_of (texts_of words.now.items) ≡ Some (elf task)
        → F.held files.old task.elf ≡ Some contents.elf
        → F.held files.old task.tags ≡ Some contents.tags → elf_read contents ≡ Ok picture
        → SavesElf task contents picture }
{
    match run_words(alloc, words, files, input, out, err) {
        Ok(status) => status,
        Err(cut) => cut.status(),
    }
}
