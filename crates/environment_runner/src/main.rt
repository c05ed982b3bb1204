//! The program `environment_runner`: what the adapters over the system's files, readers and writers do
//! there, told line by line.
//!
//! No contract can say what the system gives or takes, so the gate runs this program and compares what
//! it tells. It stands beside the file `given` in a folder of its own, and removes the two files that it
//! makes there. The status is 0 where all was told, and 1 where that came to an end before.
#![tactic(auto)]

mod input;
mod stops;
mod tellings;

use host_io::{Sink, StdFiles, StdSink, StdSource};
use input::echo;
use std::alloc::Global;
use std::fs;
use std::io::BufWriter;
use std::process::ExitCode;
use std::rt::Files as FileSystem;
use stops::Stop;
use tellings::{tell_load, tell_put, tell_read, tell_save};

/// A limit that no file here passes.
const LIMIT: usize = 4096;

/// The file that is saved.
const SAVED: &str = "saved";

/// The file that a sink is over.
const PUT: &str = "put";

/// The folder that the program stands in, which is no file.
const FOLDER: &str = ".";

/// Saves a file, a shorter one over it, and one of no bytes over that. Each is loaded again.
fn tell_saves<S: FileSystem + Drop, K: Sink>(
    alloc: Global,
    files: &mut StdFiles<S>,
    out: &mut K,
) -> Result<(), Stop> {
    tell_load(alloc, files, SAVED, LIMIT, out)?;
    tell_save(alloc, files, SAVED, b"first\nand longer", out)?;
    tell_load(alloc, files, SAVED, LIMIT, out)?;
    tell_save(alloc, files, SAVED, b"short", out)?;
    tell_load(alloc, files, SAVED, LIMIT, out)?;
    tell_save(alloc, files, SAVED, b"", out)?;
    tell_load(alloc, files, SAVED, LIMIT, out)
}

/// Loads a file that was there, within a limit, at it and past it.
fn tell_limits<S: FileSystem + Drop, K: Sink>(
    alloc: Global,
    files: &mut StdFiles<S>,
    out: &mut K,
) -> Result<(), Stop> {
    tell_load(alloc, files, "given", LIMIT, out)?;
    tell_load(alloc, files, "given", 30, out)?;
    tell_load(alloc, files, "given", 29, out)?;
    tell_load(alloc, files, "given", 0, out)
}

/// Loads and saves what can't be: a file that isn't there, a folder, a file in a folder that isn't
/// there.
fn tell_faults<S: FileSystem + Drop, K: Sink>(
    alloc: Global,
    files: &mut StdFiles<S>,
    out: &mut K,
) -> Result<(), Stop> {
    tell_load(alloc, files, "missing", LIMIT, out)?;
    tell_load(alloc, files, FOLDER, LIMIT, out)?;
    tell_save(alloc, files, FOLDER, b"no folder holds bytes", out)?;
    tell_save(alloc, files, "missing/file", b"nowhere", out)?;
    tell_load(alloc, files, "missing/file", LIMIT, out)
}

/// Reads a folder, which fails each time, and a file past its end.
fn tell_reads<K: Sink>(rt: &HostRuntime, out: &mut K) -> Result<(), Stop> {
    let alloc = rt.alloc();
    let mut folder = StdSource::new(fs::open(rt, FOLDER)?);
    tell_read(alloc, FOLDER, &mut folder, out)?;
    tell_read(alloc, FOLDER, &mut folder, out)?;
    let mut given = StdSource::new(fs::open(rt, "given")?);
    tell_read(alloc, "given", &mut given, out)?;
    tell_read(alloc, "given", &mut given, out)?;
    tell_read(alloc, "given", &mut given, out)?;
    tell_read(alloc, "given", &mut given, out)
}

/// Puts on a file through a buffer, where each piece is outside once it's put, and on a file that was
/// opened to be read.
fn tell_puts<S: FileSystem + Drop, K: Sink>(
    rt: &HostRuntime,
    files: &mut StdFiles<S>,
    out: &mut K,
) -> Result<(), Stop> {
    let alloc = rt.alloc();
    let mut kept = StdSink::new(BufWriter::new(alloc, fs::create(rt, PUT)?)?);
    tell_put(alloc, PUT, &mut kept, b"one piece", out)?;
    tell_load(alloc, files, PUT, LIMIT, out)?;
    tell_put(alloc, PUT, &mut kept, b", and one more", out)?;
    tell_load(alloc, files, PUT, LIMIT, out)?;
    let mut given = StdSink::new(fs::open(rt, "given")?);
    tell_put(alloc, "given", &mut given, b"", out)?;
    tell_put(alloc, "given", &mut given, b"over it", out)?;
    tell_load(alloc, files, "given", LIMIT, out)
}

/// Puts the whole input, and reads past its end.
fn tell_input<K: Sink>(rt: &HostRuntime, out: &mut K) -> Result<(), Stop> {
    let mut input = StdSource::new(rt.stdin());
    out.put(b"the input: [")?;
    echo(&mut input, out)?;
    out.put(b"]\n")?;
    tell_read(rt.alloc(), "the input", &mut input, out)
}

/// Tells what the adapters do: on files, readers, writers and the input.
fn tell_all(rt: &HostRuntime) -> Result<(), Stop> {
    let alloc = rt.alloc();
    let mut out = StdSink::new(rt.stdout());
    let mut files = StdFiles::new(rt);
    tell_saves(alloc, &mut files, &mut out)?;
    fs::remove_file(rt, SAVED)?;
    tell_limits(alloc, &mut files, &mut out)?;
    tell_faults(alloc, &mut files, &mut out)?;
    tell_reads(rt, &mut out)?;
    tell_puts(rt, &mut files, &mut out)?;
    fs::remove_file(rt, PUT)?;
    tell_input(rt, &mut out)
}

fn main(rt: HostRuntime) -> ExitCode {
    match tell_all(&rt) {
        Ok(()) => ExitCode::SUCCESS,
        Err(_) => ExitCode::from(1),
    }
}
