//! A call of the program over memory, as a row tells it.

ghost use Rattle.std.specs.Prelude.{◌≡◌, ◌↔◌, IfOk, IsSome, length, vec_len};

use crate::stops::{Fault, Stop};
use asm_emit::assemble_source;
use host_io::{Files, LoadFile, MemFiles, MemSink, MemSource};
use image_format::write_image;
use pump_cli::pump;
use row_lang::{Content, File, Outcome, Row};
use std::alloc::{AllocError, Global};

/// The most bytes of a file beside the rows, and of a file of rows.
pub(crate) const FILE_LIMIT: usize = 67_108_864;

/// The file of the image that a source on this line is assembled to.
fn assembled(alloc: Global, line: u64, source: &[u8]) -> Result<Vec<u8>, Stop> {
    match assemble_source(alloc, source) {
        Ok(image) => Ok(write_image(alloc, &image)?),
        Err(end) => Err(Stop::of_source(line, end)),
    }
}

/// The bytes of the file of this name beside the rows, which a line names.
fn loaded<F: Files>(alloc: Global, beside: &mut F, line: u64, name: &str) -> Result<Vec<u8>, Stop> {
    match beside.load(alloc, name, FILE_LIMIT) {
        Ok(bytes) => Ok(bytes),
        Err(LoadFile::Memory) => Err(Stop::Memory),
        Err(_) => Err(Stop::Refused {
            line,
            fault: Fault::Beside,
        }),
    }
}

/// The bytes that a file holds, `None` where there is none.
fn bytes_of<F: Files>(alloc: Global, beside: &mut F, file: &File) -> Result<Option<Vec<u8>>, Stop> {
    match &file.content {
        None => Ok(None),
        Some(Content::Bytes(bytes)) => Ok(Some(bytes.to_vec(alloc)?)),
        Some(Content::Source(source)) => Ok(Some(assembled(alloc, file.line, source)?)),
        Some(Content::Beside(name)) => Ok(Some(loaded(alloc, beside, file.line, name.as_str())?)),
    }
}

/// The bytes that each of these files holds.
pub(crate) fn all_bytes_of<F: Files>(
    alloc: Global,
    beside: &mut F,
    files: &[File],
) -> Result<Vec<Option<Vec<u8>>>, Stop>
    ensures { IfOk result (λ all. vec_len all ≡ length files.now) }
{
    let mut all = Vec::new(alloc);
    for file in files {
        all.push(bytes_of(alloc, beside, file)?)?;
    }
    Ok(all)
}

/// The numbers of calls of files that fail, behind so many calls.
fn numbers_behind(alloc: Global, numbers: &Vec<u64>, calls: u64) -> Result<Vec<u64>, AllocError> {
    let mut behind = Vec::new(alloc);
    for number in numbers {
        behind.push(number.saturating_add(calls))?;
    }
    Ok(behind)
}

/// The files that a row tells. Each was saved by a call of its own, behind which those are counted that fail.
pub(crate) fn files_of<F: Files>(
    alloc: Global,
    beside: &mut F,
    row: &Row,
) -> Result<MemFiles, Stop> {
    let all = all_bytes_of(alloc, beside, &row.files)?;
    let saves = all.iter().filter(|bytes| bytes.is_some()).count() as u64;
    let fails = numbers_behind(alloc, &row.failing.files, saves)?;
    let mut files = MemFiles::new(alloc, Vec::new(alloc), fails);
    for (file, bytes) in row.files.iter().zip(&all) {
        if let Some(bytes) = bytes {
            if files.save(alloc, file.name.as_str(), bytes).is_err() {
                return Err(Stop::Memory);
            }
        }
    }
    Ok(files)
}

/// What is due of each call of a row, where the files that it is to leave hold these bytes.
pub(crate) fn due_of(
    alloc: Global,
    row: &Row,
    held: Vec<Option<Vec<u8>>>,
) -> Result<Outcome, AllocError>
    ensures out { IfOk result (λ due. due.out.items ≡ row.now.due.out.items) }
    ensures err { IfOk result (λ due. due.err.items ≡ row.now.due.err.items) }
    ensures status { IfOk result (λ due. due.status ≡ row.now.due.status) }
    ensures left { IfOk result (λ due. due.left ≡ row.now.due.left) }
    ensures held { IfOk result (λ due. due.held ≡ held) }
{
    Ok(Outcome {
        out: row.due.out.to_vec(alloc)?,
        err: row.due.err.to_vec(alloc)?,
        status: row.due.status,
        left: row.due.left,
        held,
    })
}

/// What the file of that name holds, where at most so many loads are planned to fail.
fn held_by<F: Files>(alloc: Global, files: &mut F, name: &str, fails: usize) -> Option<Vec<u8>> {
    for _ in 0..fails {
        if let Ok(bytes) = files.load(alloc, name, usize::MAX) {
            return Some(bytes);
        }
    }
    files.load(alloc, name, usize::MAX).ok()
}

/// What files of a row hold after a call.
fn all_held<F: Files>(
    alloc: Global,
    row: &Row,
    files: &mut F,
) -> Result<Vec<Option<Vec<u8>>>, AllocError> {
    let mut held = Vec::new(alloc);
    for file in &row.due.held {
        let fails = row.failing.files.len();
        held.push(held_by(alloc, files, file.name.as_str(), fails))?;
    }
    Ok(held)
}

/// How many bytes of the input are left, where a row asks it.
fn left_of(row: &Row, input: &MemSource) -> Option<u64>
    ensures { IsSome result ↔ IsSome row.now.due.left }
{
    match row.due.left {
        Some(_) => Some(input.left().len() as u64),
        None => None,
    }
}

/// The environment of a call.
#[derive(Drop)]
struct Environment {
    files: MemFiles,
    input: MemSource,
    out: MemSink,
    err: MemSink,
}

/// The input that a row tells.
fn input_of(alloc: Global, row: &Row) -> Result<MemSource, AllocError> {
    let bytes = row.input.bytes.to_vec(alloc)?;
    let fails = row.failing.reads.to_vec(alloc)?;
    Ok(MemSource::in_pieces(bytes, row.input.piece.get(), fails))
}

/// What a row tells, before its call.
fn environment_of(alloc: Global, row: &Row, files: MemFiles) -> Result<Environment, AllocError> {
    let out = MemSink::torn(alloc, row.failing.puts.to_vec(alloc)?);
    let err = MemSink::torn(alloc, row.failing.tells.to_vec(alloc)?);
    let input = input_of(alloc, row)?;
    Ok(Environment {
        files,
        input,
        out,
        err,
    })
}

/// Calls the program with these words. The answer is its status.
fn call(alloc: Global, words: &Vec<String>, environment: &mut Environment) -> u8 {
    let status = pump(
        alloc,
        words,
        &mut environment.files,
        &mut environment.input,
        &mut environment.out,
        &mut environment.err,
    );
    status.code()
}

/// What a call of a row left environment, with this status.
fn seen(
    alloc: Global,
    row: &Row,
    status: u8,
    environment: &mut Environment,
) -> Result<Outcome, AllocError>
    ensures status { IfOk result (λ came. came.status ≡ status) }
    ensures asked { IfOk result (λ came. IsSome came.left ↔ IsSome row.now.due.left) }
{
    let left = left_of(row, &environment.input);
    let out = environment.out.bytes().to_vec(alloc)?;
    let err = environment.err.bytes().to_vec(alloc)?;
    let held = all_held(alloc, row, &mut environment.files)?;
    Ok(Outcome {
        out,
        err,
        status,
        left,
        held,
    })
}

/// What comes of a call of the program with these words and files, and with what else the row tells.
pub(crate) fn outcome_of(
    alloc: Global,
    row: &Row,
    words: &Vec<String>,
    files: MemFiles,
) -> Result<Outcome, AllocError>
    ensures asked { IfOk result (λ came. IsSome came.left ↔ IsSome row.now.due.left) }
{
    let mut environment = environment_of(alloc, row, files)?;
    let status = call(alloc, words, &mut environment);
    seen(alloc, row, status, &mut environment)
}
