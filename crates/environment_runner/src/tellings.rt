//! Calls of the adapters, each told by a line: the call, the name of what it was made on, and what came
//! of it, with how many such calls failed so far where this one gave nothing.

ghost use Rattle.std.specs.Prelude.{◌≡◌};
ghost use Rattle.shared_terms.specs.Counts.{next_count};

use crate::stops::Stop;
use host_io::{
    Failed, Files, LoadFile, PutEnd, SaveFile, Sink, Source, StdFiles, StdSink, StdSource,
};
use std::alloc::Global;
use std::io::{Read, Write};
use std::rt::Files as FileSystem;

/// How many bytes one read may give.
const PIECE_LEN: usize = 16;

/// Tells that a call gave these bytes.
fn tell_bytes<K: Sink>(alloc: Global, call: &str, bytes: &[u8], out: &mut K) -> Result<(), Stop> {
    let count = bytes.len();
    out.put(format!(in alloc; "{call}: {count} bytes [")?.as_bytes())?;
    out.put(bytes)?;
    out.put(b"]\n")?;
    Ok(())
}

/// Tells how a call ended that gave no bytes, and how many such calls failed so far.
fn tell_end<K: Sink>(
    alloc: Global,
    call: &str,
    end: &str,
    faults: u64,
    out: &mut K,
) -> Result<(), Stop> {
    out.put(format!(in alloc; "{call}: {end}, faults so far: {faults}\n")?.as_bytes())?;
    Ok(())
}

/// Loads a file of at most `limit` bytes, and tells them, or why there are none.
pub(crate) fn tell_load<S: FileSystem + Drop, K: Sink>(
    alloc: Global,
    files: &mut StdFiles<S>,
    name: &str,
    limit: usize,
    out: &mut K,
) -> Result<(), Stop>
    ensures made { files.new.calls ≡ next_count files.old.calls }
    ensures saves { files.new.write_faults ≡ files.old.write_faults }
{
    let loaded = files.load(alloc, name, limit);
    let call = format!(in alloc; "load {name}")?;
    let faults = files.read_faults();
    match loaded {
        Ok(bytes) => tell_bytes(alloc, call.as_str(), &bytes, out),
        Err(LoadFile::Failed) => tell_end(alloc, call.as_str(), "failed", faults, out),
        Err(LoadFile::TooLong) => tell_end(alloc, call.as_str(), "too long", faults, out),
        Err(LoadFile::Memory) => Err(Stop::Memory),
    }
}

/// Saves a file, and tells whether that was done.
pub(crate) fn tell_save<S: FileSystem + Drop, K: Sink>(
    alloc: Global,
    files: &mut StdFiles<S>,
    name: &str,
    bytes: &[u8],
    out: &mut K,
) -> Result<(), Stop>
    ensures made { files.new.calls ≡ next_count files.old.calls }
    ensures loads { files.new.read_faults ≡ files.old.read_faults }
{
    let saved = files.save(alloc, name, bytes);
    let call = format!(in alloc; "save {name}")?;
    let faults = files.write_faults();
    match saved {
        Ok(()) => tell_end(alloc, call.as_str(), "done", faults, out),
        Err(SaveFile::Failed) => tell_end(alloc, call.as_str(), "failed", faults, out),
        Err(SaveFile::Memory) => Err(Stop::Memory),
    }
}

/// Reads a piece, and tells its bytes, or that the read failed.
pub(crate) fn tell_read<R: Read + Drop, K: Sink>(
    alloc: Global,
    name: &str,
    source: &mut StdSource<R>,
    out: &mut K,
) -> Result<(), Stop> {
    let mut piece = [0; PIECE_LEN];
    let read = source.read(&mut piece);
    let call = format!(in alloc; "read {name}")?;
    match read {
        Ok(count) => tell_bytes(alloc, call.as_str(), &piece[..count], out),
        Err(Failed) => tell_end(alloc, call.as_str(), "failed", source.faults(), out),
    }
}

/// Puts a piece, and tells whether that was done.
pub(crate) fn tell_put<W: Write + Drop, K: Sink>(
    alloc: Global,
    name: &str,
    sink: &mut StdSink<W>,
    piece: &[u8],
    out: &mut K,
) -> Result<(), Stop> {
    let put = sink.put(piece);
    let call = format!(in alloc; "put {name}")?;
    match put {
        Ok(()) => tell_end(alloc, call.as_str(), "done", sink.faults(), out),
        Err(PutEnd::Failed) => tell_end(alloc, call.as_str(), "failed", sink.faults(), out),
        Err(PutEnd::Memory) => Err(Stop::Memory),
    }
}
