//! The program `pump` on the host: its words, files, standard input, output and error. What it does is `pump_cli`'s `pump`.
#![tactic(auto)]

ghost use Rattle.std.specs.Prelude.{◌≡◌, ◌≢◌, [], Err, IfErr, IfOk, MatchResult};
ghost use Rattle.std.specs.IoError.{error_kind};
ghost use Rattle.std.specs.Vec.Iter.{into_iter_items};

use host_io::{StdFiles, StdSink, StdSource};
use pump_cli::{Status, pump};
use std::alloc::Global;
use std::env::{self, Args};
use std::io::{self, ErrorKind};
use std::process::ExitCode;

/// These words as a list, in their order. The only error is running out of memory, by its status.
fn list_of(alloc: Global, words: Args) -> Result<Vec<String>, Status>
    ensures list { IfOk result (λ list. list.items ≡ into_iter_items words) }
    ensures memory { IfErr result (λ status. status ≡ Status.Memory) }
{
    words
        .collect::<Vec<String>>(alloc)
        .map_err(|_| Status::Memory)
}

/// The words that the program was called with, its name first, by what the host told of them. Words that are no text are a bad
/// command line, as no words are. The only error is running out of memory, by its status.
fn words_of(alloc: Global, told: io::Result<Args>) -> Result<Vec<String>, Status>
    ensures words { IfOk told (λ args. IfOk result (λ words. words.items ≡ into_iter_items args)) }
    ensures no_text { IfErr told (λ error. error_kind error ≢ ErrorKind.OutOfMemory
        → MatchResult result (λ words. words.items ≡ []) (λ _. ⊥)) }
    ensures no_room { IfErr told (λ error. error_kind error ≡ ErrorKind.OutOfMemory
        → result ≡ Err Status.Memory) }
    ensures memory { IfErr result (λ status. status ≡ Status.Memory) }
{
    match told {
        Ok(words) => list_of(alloc, words),
        Err(error) if error.kind() == ErrorKind::OutOfMemory => Err(Status::Memory),
        Err(_) => Ok(Vec::new(alloc)),
    }
}

fn main(rt: HostRuntime) -> ExitCode {
    let words = match words_of(rt.alloc(), env::args(&rt)) {
        Ok(words) => words,
        Err(status) => return ExitCode::from(status.code()),
    };
    let mut files = StdFiles::new(&rt);
    let mut input = StdSource::new(rt.stdin());
    let mut out = StdSink::new(rt.stdout());
    let mut err = StdSink::new(rt.stderr());
    let status = pump(
        rt.alloc(),
        &words,
        &mut files,
        &mut input,
        &mut out,
        &mut err,
    );
    ExitCode::from(status.code())
}
