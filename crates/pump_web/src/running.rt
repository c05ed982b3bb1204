//! The program over an environment in memory that has no fault.

ghost use Rattle.std.specs.Prelude.{◌≡◌, ◌≢◌, ℕ, List, IfOk, IfSome, Some, codes};
ghost use Rattle.host_io.specs.Bytes.{told_bytes};
ghost use Rattle.host_io.specs.Pieces.{PutsPrefix};
ghost use Rattle.host_io.specs.Supply.{Open, left_in};
ghost use Rattle.pump_line.specs.Task.{task_of};
ghost use Rattle.pump_line.specs.Told.{texts_of};
ghost use Rattle.pump_cli.specs.Facts.{Finishes};
ghost use Rattle.pump_cli.specs.Program.{program};
ghost use Rattle.pump_web.specs.Replies.{image_after, only_file, taken_of, told_in};

use host_io::{Files, SureFiles, SureSink, SureSource};
use pump_cli::{Status, pump};
use std::alloc::{AllocError, Global};

/// The files of which one, `file`, holds these bytes; each other name has an empty file.
pub(crate) fn files_of(alloc: Global, file: &[u8]) -> Result<SureFiles, AllocError>
    ensures { IfOk result (λ files. files.files ≡ only_file file.now) }
{
    let mut held = Vec::new(alloc);
    held.push((String::from_str(alloc, "file")?, file.to_vec(alloc)?))?;
    Ok(SureFiles::new(alloc, held))
}

/// An input of these bytes.
pub(crate) fn source_of(alloc: Global, input: &[u8]) -> Result<SureSource, AllocError>
    ensures { IfOk result (λ source. source ≡ Open input.now) }
{
    Ok(SureSource::new(input.to_vec(alloc)?))
}

/// Does what the words ask for: only running out of memory keeps it from what is due.
pub(crate) fn run_over(
    alloc: Global,
    words: &Vec<String>,
    files: &mut SureFiles,
    input: &mut SureSource,
    out: &mut SureSink,
    err: &mut SureSink,
) -> Status
    ensures due { result ≢ Status.Memory → IfSome
        (program (texts_of words.now.items) (told_in files.old.files) (Some (left_in input.old)))
        (λ outcome. Finishes outcome (taken_of out.old err.old) (taken_of out.new err.new)
        result) }
    ensures prefix { IfSome
        (program (texts_of words.now.items) (told_in files.old.files) (Some (left_in input.old)))
        (λ outcome. PutsPrefix (taken_of out.old err.old) (taken_of out.new err.new)
        outcome.pieces) }
    ensures saved { (held : List ℕ → List ℕ) → told_in files.old.files ≡ (λ name. Some (held name))
        → result ≢ Status.Memory → told_in files.new.files (codes "image")
        ≡ image_after (task_of (texts_of words.now.items)) (λ name. Some (held name)) }
    ensures unsaved { result ≡ Status.Memory →
        told_in files.new.files (codes "image") ≡ told_in files.old.files (codes "image") }
{
    pump(alloc, words, files, input, out, err)
}

/// What a sink has taken. The only error is running out of memory.
pub(crate) fn taken_by(alloc: Global, sink: &SureSink) -> Result<Vec<u8>, AllocError>
    ensures { IfOk result (λ bytes. bytes.items ≡ sink.now) }
{
    sink.bytes().to_vec(alloc)
}

/// Bytes that stand in memory are told as they are.
fn told_law(bytes: &[u8])
    ensures { told_bytes bytes.now ≡ Some bytes.now }
{}

/// What the file `image` holds. The only error is running out of memory.
pub(crate) fn image_in(alloc: Global, files: &mut SureFiles) -> Result<Vec<u8>, AllocError>
    ensures { IfOk result (λ image. told_in files.old.files (codes "image") ≡ Some image.items) }
{
    match files.load(alloc, "image", usize::MAX) {
        Ok(image) => {
            told_law(&image);
            Ok(image)
        }
        Err(_) => Err(AllocError),
    }
}
