//! What is read: the file of an image or of a source, and the whole input.

ghost use Rattle.std.specs.Prelude.{◌≡◌, ◌+◌, Ok, Err, IfOk, IfSome, IsTrue, OnOk};
ghost use Rattle.shared_terms.specs.Counts.{next_count};
ghost use Rattle.host_io.specs.Prefixes.{LosesPrefix};
ghost use Rattle.asm_emit.specs.Assembled.{image_of_source};
ghost use Rattle.image_format.specs.Reading.{image_of};
ghost use Rattle.pump_cli.specs.Early.{InputRoseBy, IsOfFile, LoadsRoseBy, ReadRoseBy};
ghost use Rattle.pump_cli.specs.Reading.{file_limit, image_or_refusal, image_read, input_limit, input_read, secret_held, secret_read, source_or_refusal, source_read, within_limit};
ghost use Rattle.pump_cli.specs.Calls.{counted_by, secret_calls};
ghost use Rattle.pump_line.specs.Told.{text_value};
ghost use Rattle.pump_cli.specs.declared.cut.Cut.{Cut};
ghost use Rattle.pump_cli.specs.declared.refusal.Refusal.{Refusal};

use crate::cut::Cut;
use crate::refusal::Refusal;
use asm_emit::assemble_source;
use asm_read::AsmEnd;
use host_io::{Files, LoadFile, ReadEnd, Source, read_to_end};
use image_format::{Image, ImageEnd, read_image};
use policy_choice::Choice;
use std::alloc::Global;

/// The most bytes of a file, and of the source of a workload.
pub(crate) const FILE_LIMIT: usize = 33_554_432;

/// The most bytes of the input.
pub(crate) const INPUT_LIMIT: usize = 16_777_216;

/// Why nothing is done.
#[derive(Clone, Copy)]
pub(crate) enum EarlyEnd {
    /// The task is refused.
    Refused(Refusal),
    /// The call is cut short.
    Cut(Cut),
}

/// The bytes of the file of this name.
#[tactic(auto, unfolding(crate::specs::Reading::file_limit))]
pub(crate) fn load_file<F: Files>(
    alloc: Global,
    files: &mut F,
    name: &str,
) -> Result<Vec<u8>, EarlyEnd>
    ensures taken { IfOk result (λ bytes. IfSome (F.held files.old name.now) (λ all.
        within_limit file_limit all ≡ Ok bytes.items)) }
    ensures refused { (refusal : Refusal) → result ≡ Err (EarlyEnd.Refused refusal) →
        IfSome (F.held files.old name.now) (λ all. within_limit file_limit all ≡ Err refusal) }
    ensures long { (refusal : Refusal) → result ≡ Err (EarlyEnd.Refused refusal)
        → refusal ≡ Refusal.TooLong }
    ensures faults { ReadRoseBy (F.read_faults files.old) (F.read_faults files.new)
        name.now result }
    ensures writes { F.write_faults files.new ≡ F.write_faults files.old }
    ensures calls { F.calls files.new ≡ next_count (F.calls files.old) }
    ensures held { F.held files.new ≡ F.held files.old }
{
    match files.load(alloc, name, FILE_LIMIT) {
        Ok(bytes) => Ok(bytes),
        Err(LoadFile::TooLong) => Err(EarlyEnd::Refused(Refusal::TooLong)),
        Err(LoadFile::Failed) => Err(EarlyEnd::Cut(Cut::ReadFailed)),
        Err(LoadFile::Memory) => Err(EarlyEnd::Cut(Cut::Memory)),
    }
}

/// The image of the file of this name.
pub(crate) fn load_image<F: Files>(
    alloc: Global,
    files: &mut F,
    name: &str,
) -> Result<Image, EarlyEnd>
    ensures taken { IfOk result (λ image. IfSome (F.held files.old name.now) (λ bytes.
        image_read bytes ≡ Ok image)) }
    ensures refused { (refusal : Refusal) → result ≡ Err (EarlyEnd.Refused refusal) →
        IfSome (F.held files.old name.now) (λ bytes. image_read bytes ≡ Err refusal) }
    ensures of_file { (refusal : Refusal) → result ≡ Err (EarlyEnd.Refused refusal) →
        IsOfFile refusal }
    ensures faults { ReadRoseBy (F.read_faults files.old) (F.read_faults files.new)
        name.now result }
    ensures writes { F.write_faults files.new ≡ F.write_faults files.old }
    ensures calls { F.calls files.new ≡ next_count (F.calls files.old) }
    ensures held { F.held files.new ≡ F.held files.old }
{
    match load_file(alloc, files, name) {
        Ok(bytes) => image_of(alloc, &bytes),
        Err(end) => Err(end),
    }
}

/// The secret bytes of a task with this choice: those of the file of this name, where secrecy is chosen and a file is named,
/// and none else.
#[tactic(auto, unfolding(crate::specs::Reading::secret_read, crate::specs::Reading::file_limit))]
pub(crate) fn load_secret<F: Files>(
    alloc: Global,
    files: &mut F,
    choice: Choice,
    name: Option<&str>,
) -> Result<Vec<u8>, EarlyEnd>
    ensures taken { IfOk result (λ secret. IfSome
        (secret_held choice (text_value name.entry) (F.held files.old)) (λ bytes.
        secret_read bytes ≡ Ok secret.items)) }
    ensures refused { (refusal : Refusal) → result ≡ Err (EarlyEnd.Refused refusal) → IfSome
        (secret_held choice (text_value name.entry) (F.held files.old)) (λ bytes.
        secret_read bytes ≡ Err refusal) }
    ensures long { (refusal : Refusal) → result ≡ Err (EarlyEnd.Refused refusal)
        → refusal ≡ Refusal.TooLong }
    ensures faults { LoadsRoseBy (secret_calls choice (text_value name.entry))
        (F.read_faults files.old) (F.read_faults files.new) result }
    ensures calls { F.calls files.new
        ≡ counted_by (secret_calls choice (text_value name.entry)) (F.calls files.old) }
    ensures writes { F.write_faults files.new ≡ F.write_faults files.old }
    ensures held { F.held files.new ≡ F.held files.old }
{
    match name {
        Some(name) if choice.secret => load_file(alloc, files, name),
        _ => Ok(Vec::new(alloc)),
    }
}

/// The image that the source in the file of this name is assembled to.
pub(crate) fn load_source<F: Files>(
    alloc: Global,
    files: &mut F,
    name: &str,
) -> Result<Image, EarlyEnd>
    ensures taken { IfOk result (λ image. IfSome (F.held files.old name.now) (λ bytes.
        source_read bytes ≡ Ok image)) }
    ensures refused { (refusal : Refusal) → result ≡ Err (EarlyEnd.Refused refusal) →
        IfSome (F.held files.old name.now) (λ bytes. source_read bytes ≡ Err refusal) }
    ensures of_file { (refusal : Refusal) → result ≡ Err (EarlyEnd.Refused refusal) →
        IsOfFile refusal }
    ensures faults { ReadRoseBy (F.read_faults files.old) (F.read_faults files.new)
        name.now result }
    ensures writes { F.write_faults files.new ≡ F.write_faults files.old }
    ensures calls { F.calls files.new ≡ next_count (F.calls files.old) }
    ensures held { F.held files.new ≡ F.held files.old }
{
    match load_file(alloc, files, name) {
        Ok(bytes) => image_of_source(alloc, &bytes),
        Err(end) => Err(end),
    }
}

/// The image that these bytes spell.
fn image_of(alloc: Global, bytes: &[u8]) -> Result<Image, EarlyEnd>
    ensures taken { IfOk result (λ image. image_or_refusal (image_of bytes.now) ≡ Ok image) }
    ensures refused { (refusal : Refusal) → result ≡ Err (EarlyEnd.Refused refusal) →
        image_or_refusal (image_of bytes.now) ≡ Err refusal }
    ensures of_file { (refusal : Refusal) → result ≡ Err (EarlyEnd.Refused refusal) →
        IsOfFile refusal }
    ensures cut { (cut : Cut) → result ≡ Err (EarlyEnd.Cut cut) → cut ≡ Cut.Memory }
{
    match read_image(alloc, bytes) {
        Ok(image) => Ok(image),
        Err(ImageEnd::Bad(error)) => Err(EarlyEnd::Refused(Refusal::BadImage(error))),
        Err(ImageEnd::Memory) => Err(EarlyEnd::Cut(Cut::Memory)),
    }
}

/// The image that a source of these bytes is assembled to.
pub(crate) fn image_of_source(alloc: Global, bytes: &[u8]) -> Result<Image, EarlyEnd>
    ensures taken { IfOk result (λ image.
        source_or_refusal (image_of_source bytes.now) ≡ Ok image) }
    ensures refused { (refusal : Refusal) → result ≡ Err (EarlyEnd.Refused refusal) →
        source_or_refusal (image_of_source bytes.now) ≡ Err refusal }
    ensures of_file { (refusal : Refusal) → result ≡ Err (EarlyEnd.Refused refusal) →
        IsOfFile refusal }
    ensures cut { (cut : Cut) → result ≡ Err (EarlyEnd.Cut cut) → cut ≡ Cut.Memory }
{
    match assemble_source(alloc, bytes) {
        Ok(image) => Ok(image),
        Err(AsmEnd::Bad(error)) => Err(EarlyEnd::Refused(Refusal::BadSource(error))),
        Err(AsmEnd::Memory) => Err(EarlyEnd::Cut(Cut::Memory)),
    }
}

/// The whole input.
#[tactic(auto, unfolding(crate::specs::Reading::input_limit))]
pub(crate) fn read_input<S: Source>(alloc: Global, input: &mut S) -> Result<Vec<u8>, EarlyEnd>
    ensures taken { IfOk result (λ fed. IfSome (S.left input.old) (λ all.
        input_read all ≡ Ok fed.items)) }
    ensures refused { (refusal : Refusal) → result ≡ Err (EarlyEnd.Refused refusal) →
        IfSome (S.left input.old) (λ all. input_read all ≡ Err refusal) }
    ensures long { (refusal : Refusal) → result ≡ Err (EarlyEnd.Refused refusal)
        → refusal ≡ Refusal.TooLong }
    ensures closed { OnOk result (IsTrue (S.closed input.new)) }
    ensures moved { LosesPrefix (S.left input.old) (S.left input.new) (input_limit + 4096) }
    ensures faults { InputRoseBy (S.faults input.old) (S.faults input.new) result }
{
    match read_to_end(alloc, input, INPUT_LIMIT) {
        Ok(fed) => Ok(fed),
        Err(ReadEnd::TooLong) => Err(EarlyEnd::Refused(Refusal::TooLong)),
        Err(ReadEnd::Failed) => Err(EarlyEnd::Cut(Cut::InputFailed)),
        Err(ReadEnd::Memory) => Err(EarlyEnd::Cut(Cut::Memory)),
    }
}
