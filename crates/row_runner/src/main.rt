//! The program `row_runner`: runs the rows of the files that its words name, each a call of the program `pump` over memory, and
//! tells each row that isn't as told.
//!
//! `docs/ROWS.md` describes a file of rows. What is told goes to standard output: a line for each thing that differs, with the
//! file and the line of its row, a line for each file that is refused, and last how many rows were as told. The status is 0
//! where all were, 1 where some row or file wasn't, and 2 where memory ran out or what is told could not be put.
#![tactic(auto)]

mod calls;
mod runs;
mod stops;
mod tellings;

use host_io::{StdFiles, StdSink};
use runs::run_files;
use std::alloc::Global;
use std::env;
use std::process::ExitCode;
use stops::Stop;
use tellings::{status_of, tell_tally};

/// The names of the files of rows: the words behind the program's own name.
fn names_of(alloc: Global, rt: &HostRuntime) -> Result<Vec<String>, Stop> {
    match env::args(rt) {
        Ok(words) => Ok(words.skip(1).collect::<Vec<String>>(alloc)?),
        Err(_) => Err(Stop::Memory),
    }
}

/// Runs the rows of all files, and tells how many were as told.
fn run_all(rt: &HostRuntime) -> Result<u8, Stop> {
    let alloc = rt.alloc();
    let names = names_of(alloc, rt)?;
    let mut beside = StdFiles::new(rt);
    let mut out = StdSink::new(rt.stdout());
    let tally = run_files(alloc, &names, &mut beside, &mut out)?;
    tell_tally(alloc, tally, &mut out)?;
    Ok(status_of(tally))
}

fn main(rt: HostRuntime) -> ExitCode {
    match run_all(&rt) {
        Ok(status) => ExitCode::from(status),
        Err(_) => ExitCode::from(2),
    }
}
