//! What is replied to a line.

ghost use Rattle.std.specs.Prelude.{◌≡◌, ◌≢◌, ℕ, List, IfOk, IfSome, IsSome, Some, [], codes, unwrap_or};
ghost use Rattle.host_io.specs.Supply.{left_in};
ghost use Rattle.pump_line.specs.Task.{task_of};
ghost use Rattle.pump_line.specs.Told.{texts_of};
ghost use Rattle.pump_cli.specs.Program.{program};
ghost use Rattle.pump_web.specs.Replies.{TellsAll, TellsFirst, due_of, image_after, saved_image};
ghost use Rattle.pump_web.specs.Replies.{told_in};

use crate::running::{files_of, image_in, run_over, source_of, taken_by};
use crate::words::words_of;
use host_io::{SureFiles, SureSink, SureSource};
use pump_cli::Status;
use std::alloc::{AllocError, Global};

/// What came of a line.
#[derive(Drop)]
pub struct Reply {
    /// How the program ended.
    pub status: Status,
    /// What it put on standard output.
    pub out: Vec<u8>,
    /// What it put on standard error.
    pub err: Vec<u8>,
    /// What the file `image` holds afterwards: no byte where nothing was saved there, since no image's file is empty.
    pub image: Vec<u8>,
}

/// What is replied to these words, over these files and this input.
fn reply_from(
    alloc: Global,
    words: &Vec<String>,
    mut files: SureFiles,
    mut input: SureSource,
) -> Result<Reply, AllocError>
    ensures due { IfOk result (λ reply. reply.status ≢ Status.Memory → IfSome
        (program (texts_of words.now.items) (told_in files.files) (Some (left_in input)))
        (λ outcome. TellsAll outcome reply.out.items reply.err.items reply.status)) }
    ensures prefix { IfOk result (λ reply. IfSome
        (program (texts_of words.now.items) (told_in files.files) (Some (left_in input)))
        (λ outcome. TellsFirst outcome reply.out.items reply.err.items)) }
    ensures saved { IfOk result (λ reply. (held : List ℕ → List ℕ)
        → told_in files.files ≡ (λ name. Some (held name)) → reply.status ≢ Status.Memory
        → Some reply.image.items
        ≡ image_after (task_of (texts_of words.now.items)) (λ name. Some (held name))) }
    ensures unsaved { IfOk result (λ reply. reply.status ≡ Status.Memory →
        Some reply.image.items ≡ told_in files.files (codes "image")) }
{
    let mut out = SureSink::new(alloc);
    let mut err = SureSink::new(alloc);
    let status = run_over(alloc, words, &mut files, &mut input, &mut out, &mut err);
    let image = image_in(alloc, &mut files)?;
    let told = taken_by(alloc, &out)?;
    let warned = taken_by(alloc, &err)?;
    Ok(Reply {
        status,
        out: told,
        err: warned,
        image,
    })
}

/// What the program does when it is called with the words of this line, where one file, `file`, holds these bytes, each other name
/// an empty file, and the input these bytes. It leaves no trace but the reply. The only error is running out of memory, which the
/// program itself tells by its status.
///
/// Something is due of every line (`told`): by the definition that `pump` is proved to meet, over these files and this input.
/// Unless memory ran out, all of it was told, with the status that is due (`due`); else the first bytes of it (`prefix`).
/// The image is what is to be saved in the file `image`, by the calls on files that are due, or no byte where nothing is (`saved`),
/// as where memory ran out (`unsaved`).
pub fn reply_to(alloc: Global, line: &str, file: &[u8], input: &[u8]) -> Result<Reply, AllocError>
    ensures told { IsSome (due_of line.now file.now input.now) }
    ensures due { IfOk result (λ reply. reply.status ≢ Status.Memory →
        IfSome (due_of line.now file.now input.now)
        (λ outcome. TellsAll outcome reply.out.items reply.err.items reply.status)) }
    ensures prefix { IfOk result (λ reply.
        IfSome (due_of line.now file.now input.now)
        (λ outcome. TellsFirst outcome reply.out.items reply.err.items)) }
    ensures saved { IfOk result (λ reply. reply.status ≢ Status.Memory →
        reply.image.items ≡ unwrap_or (saved_image line.now file.now) []) }
    ensures unsaved { IfOk result (λ reply. reply.status ≡ Status.Memory →
        reply.image.items ≡ []) }
{
    let words = words_of(alloc, line)?;
    let files = files_of(alloc, file)?;
    let source = source_of(alloc, input)?;
    reply_from(alloc, &words, files, source)
}
