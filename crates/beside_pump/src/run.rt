//! The run of an image under any policies that it can be started under.

ghost use Rattle.std.specs.Prelude.{◌≡◌, ◌≤◌, ℕ, List, [], Some, Ok};
ghost use Rattle.turn_steps.specs.Feeds.{tape_of};
ghost use Rattle.image_format.specs.Picture.{Picture};
ghost use Rattle.image_format.specs.Reading.{image_of};
ghost use Rattle.beside_pump.specs.Runs.{ShowsRun, course_under, has_exited, have_exited};

use crate::ends::OwnEnd;
use engine_trait::{Feed, Stop};
use host_io::{Files, Sink, Source, read_to_end};
use image_format::{Image, read_image};
use policy_choice::Basis;
use policy_trait::Policy;
use pump_loader::Whole;
use rounds::{make_rounds, stops_of};
use std::alloc::Global;
use tag_loader::start_under;

/// The most bytes of an image's file, and of the input.
const LIMIT: usize = 33_554_432;

/// The most turns of a run.
const TURNS: u64 = 1_000_000;

/// Whether the hart called the exit service.
fn has_exited(stop: Option<Stop>) -> bool
    ensures { result ≡ has_exited stop }
{
    matches!(stop, Some(Stop::Exit(_)))
}

/// Whether each of these harts called the exit service.
fn have_exited(stops: &[Option<Stop>]) -> bool
    ensures { result ≡ have_exited stops.now }
{
    for stop in stops {
        if !has_exited(*stop) {
            return false;
        }
    }
    true
}

/// Runs an image under a policy on these bytes of input, for at most a million turns, and tells whether each hart exited. The
/// image's memory has the bytes that the policy relies on.
#[tactic(auto, using(crate::proofs::ShownLemmas::cut_short))]
fn run_image<P: Policy, K: Sink, L: Sink>(
    alloc: Global,
    policy: P,
    image: &Image,
    fed: Vec<u8>,
    out: &mut K,
    err: &mut L,
) -> Result<bool, OwnEnd>
    requires { P.model.room policy ≤ image.now.ram }
    ensures { ShowsRun (record { out = K.taken out.old; err = L.taken err.old })
        (record { out = K.taken out.new; err = L.taken err.new })
        (course_under P.Tag.eq P.model policy image.now fed.items) result }
{
    let mut engine = match start_under(alloc, policy, image) {
        Ok(engine) => engine,
        Err(end) => return Err(OwnEnd::from(end)),
    };
    let mut feed = Feed::of(fed);
    match make_rounds(TURNS, &mut engine, &mut feed, out, err) {
        Ok(()) => Ok(have_exited(&stops_of(&engine))),
        Err(end) => Err(OwnEnd::from(end)),
    }
}

/// Runs the image of this file under the policies that the basis chooses, as `W`, on the whole input, and tells whether each hart
/// exited. Where file and input tell their bytes, what is put is what the machine of that image shows under these policies on that
/// input. There is no secret file.
pub(crate) fn run_file<W: Whole, F: Files, S: Source, K: Sink, L: Sink>(
    alloc: Global,
    basis: Basis,
    name: &str,
    files: &mut F,
    input: &mut S,
    out: &mut K,
    err: &mut L,
) -> Result<bool, OwnEnd>
    ensures { (bytes fed : List ℕ) (g : Picture) → F.held files.old name.now ≡ Some bytes
        → image_of bytes ≡ Ok g → S.left input.old ≡ Some fed
        → ShowsRun (record { out = K.taken out.old; err = L.taken err.old })
        (record { out = K.taken out.new; err = L.taken err.new })
        (course_under W.Tag.eq W.Policy.model (W.chosen basis [] g) g fed) result }
{
    let bytes = match files.load(alloc, name, LIMIT) {
        Ok(bytes) => bytes,
        Err(end) => return Err(OwnEnd::from(end)),
    };
    let image = match read_image(alloc, &bytes) {
        Ok(image) => image,
        Err(end) => return Err(OwnEnd::from(end)),
    };
    let policy = match W::choose(alloc, basis, &[], &image) {
        Ok(policy) => policy,
        Err(end) => return Err(OwnEnd::from(end)),
    };
    let fed = match read_to_end(alloc, input, LIMIT) {
        Ok(fed) => fed,
        Err(end) => return Err(OwnEnd::from(end)),
    };
    run_image(alloc, policy, &image, fed, out, err)
}
