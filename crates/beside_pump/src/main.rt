//! The program `beside_pump IMAGE [LIST]`: the machine of an image under a policy of one's own, which is asked at every turn.
//!
//! `Own` names the policy: one alone, or a product of several. LIST names those of the four policies that stand beside it, with
//! commas between, as `seal,heap`; without LIST there are none. The input is what the image's programs get. Standard output has the
//! bytes that they put, standard error the line of each stop. The status is 0 where each hart exited, 1 where the run ended in
//! another way, and 2, with a line that says why, where there was no run or it couldn't be told to its end.
#![tactic(auto)]

mod basis;
mod ends;
mod run;

use basis::{basis_in, no_basis};
use ends::OwnEnd;
use host_io::{Sink, StdFiles, StdSink, StdSource};
use policy_choice::All;
use policy_product::Both;
use run::run_file;
use std::env;
use std::process::ExitCode;
use taint_policy::Taint;

/// The policy.
type Own = Taint;

/// The four, of which LIST names those that are chosen, with the policy beside them.
type Chosen = Both<All, Own>;

/// Runs the image of the file that the first word names, under those of the four that the second names, if there is one.
fn run_words(rt: &HostRuntime) -> Result<bool, OwnEnd> {
    let Ok(mut words) = env::args(rt) else {
        return Err(OwnEnd::Words);
    };
    let Some(name) = words.nth(1) else {
        return Err(OwnEnd::Words);
    };
    let basis = match words.next() {
        None => no_basis(),
        Some(list) => match basis_in(list.as_bytes()) {
            None => return Err(OwnEnd::List),
            Some(basis) => basis,
        },
    };
    let mut files = StdFiles::new(rt);
    let mut input = StdSource::new(rt.stdin());
    let mut out = StdSink::new(rt.stdout());
    let mut err = StdSink::new(rt.stderr());
    run_file::<Chosen, _, _, _, _>(
        rt.alloc(),
        basis,
        &name,
        &mut files,
        &mut input,
        &mut out,
        &mut err,
    )
}

fn main(rt: HostRuntime) -> ExitCode {
    match run_words(&rt) {
        Ok(true) => ExitCode::SUCCESS,
        Ok(false) => ExitCode::from(1),
        Err(end) => {
            let mut err = StdSink::new(rt.stderr());
            let _ = err.put(end.line());
            ExitCode::from(2)
        }
    }
}
