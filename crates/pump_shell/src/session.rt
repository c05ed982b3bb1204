//! A session, from its setup, its image and its input.

ghost use Rattle.std.specs.Prelude.{◌≡◌, ◌+◌, ◌<◌, ◌≤◌, Err, IfOk, IfSome, IsTrue, Ok, length, true};
ghost use Rattle.cache_size.specs.Sizes.{IsCacheSize};
ghost use Rattle.host_io.specs.Prefixes.{LosesPrefix};
ghost use Rattle.engine_trait.specs.Accounts.{is_over};
ghost use Rattle.shell_turns.specs.Cuts.{PutsOut};
ghost use Rattle.shell_run.specs.Session.{fresh};
ghost use Rattle.shell_script.specs.Shell.{RepliesSoFar};
ghost use Rattle.pump_shell.specs.Ends.{NoSession, SessionCause};
ghost use Rattle.pump_shell.specs.Told.{RepliesSoFarOf, is_over_of, start_set, told_from, told_of};

use crate::ends::{SessionCut, SessionEnd};
use crate::setup::Setup;
use engine_trait::{LoadEnd, Loader};
use host_io::{Sink, Source};
use image_format::Image;
use policy_choice::All;
use pump_loader::{Hidden, RememberingLoad, Whole, remembering_load};
use shell_run::Session;
use shell_script::obey_input;
use std::alloc::Global;

/// A session from the start that a loader makes. It stays a call, so that each kind of engine has a loop of its own.
#[inline(never)]
fn run_from<L: Loader, S: Source, K: Sink>(
    alloc: Global,
    loader: L,
    input: &mut S,
    limit: usize,
    out: &mut K,
) -> Result<SessionEnd, SessionCut>
    requires { L.E.P.longest ≤ 460 }
    ensures done { IfOk result (λ end. IfSome (S.left input.old) (λ bytes.
        end ≡ (told_from L.E.P.Tag.eq L.E.P.model limit (L.start loader) bytes).end)) }
    ensures puts { IfSome (S.left input.old) (λ bytes. PutsOut (K.taken out.old) (K.taken out.new)
        (told_from L.E.P.Tag.eq L.E.P.model limit (L.start loader) bytes).pieces result) }
    ensures replied { result ≡ Err SessionCut.ReadFailed
        → RepliesSoFar L.E.P.Tag.eq L.E.P.model limit (fresh (L.start loader))
        (S.left input.old) (S.left input.new) (K.taken out.old) (K.taken out.new) }
    ensures long { result ≡ Ok SessionEnd.TooLong
        → IfSome (S.left input.old) (λ bytes. limit < length bytes) }
    ensures out_of_tags { result ≡ Ok SessionEnd.TagsOut
        → is_over (L.start loader).account ≡ true }
    ensures over { is_over (L.start loader).account ≡ true
        → NoSession input.old input.new (K.taken out.old) (K.taken out.new) result }
    ensures closed { result ≡ Ok SessionEnd.InputEnd → IsTrue (S.closed input.new) }
    ensures moved { LosesPrefix (S.left input.old) (S.left input.new) (limit + 4096) }
    ensures cause { SessionCause
        (record { input = S.faults input.old; out = K.faults out.old })
        (record { input = S.faults input.new; out = K.faults out.new }) result }
{
    let mut session = match Session::new(alloc, loader) {
        Ok(session) => session,
        Err(LoadEnd::TagsOut) => return Ok(SessionEnd::TagsOut),
        Err(LoadEnd::Memory) => return Err(SessionCut::Memory),
    };
    match obey_input(&mut session, input, limit, out) {
        Ok(end) => Ok(SessionEnd::of(end)),
        Err(cut) => Err(SessionCut::from(cut)),
    }
}

/// The same session under the policies that the setup chooses, as `W`.
fn run_whole<W: Whole, S: Source, K: Sink>(
    alloc: Global,
    setup: Setup,
    secret: &[u8],
    image: &Image,
    input: &mut S,
    limit: usize,
    out: &mut K,
) -> Result<SessionEnd, SessionCut>
    requires rules { IsCacheSize setup.cache }
    requires tags { 1 ≤ setup.tags }
    requires history { setup.history ≤ 65536 }
    requires texts { W.Policy.longest ≤ 460 }
    ensures done { IfOk result (λ end. IfSome (S.left input.old) (λ bytes. end
        ≡ (told_from W.Tag.eq W.Policy.model limit (start_set W.Tag.eq W.Policy.model
        (W.chosen setup.basis secret.now image.now) setup image.now) bytes).end)) }
    ensures puts { IfSome (S.left input.old) (λ bytes. PutsOut (K.taken out.old) (K.taken out.new)
        (told_from W.Tag.eq W.Policy.model limit (start_set W.Tag.eq W.Policy.model
        (W.chosen setup.basis secret.now image.now) setup image.now) bytes).pieces result) }
    ensures long { result ≡ Ok SessionEnd.TooLong
        → IfSome (S.left input.old) (λ bytes. limit < length bytes) }
    ensures replied { result ≡ Err SessionCut.ReadFailed
        → RepliesSoFar W.Tag.eq W.Policy.model limit (fresh (start_set W.Tag.eq W.Policy.model
        (W.chosen setup.basis secret.now image.now) setup image.now))
        (S.left input.old) (S.left input.new) (K.taken out.old) (K.taken out.new) }
    ensures out_of_tags { result ≡ Ok SessionEnd.TagsOut
        → is_over (start_set W.Tag.eq W.Policy.model
        (W.chosen setup.basis secret.now image.now) setup image.now).account ≡ true }
    ensures over { is_over (start_set W.Tag.eq W.Policy.model
        (W.chosen setup.basis secret.now image.now) setup image.now).account ≡ true
        → NoSession input.old input.new (K.taken out.old) (K.taken out.new) result }
    ensures closed { result ≡ Ok SessionEnd.InputEnd → IsTrue (S.closed input.new) }
    ensures moved { LosesPrefix (S.left input.old) (S.left input.new) (limit + 4096) }
    ensures cause { SessionCause
        (record { input = S.faults input.old; out = K.faults out.old })
        (record { input = S.faults input.new; out = K.faults out.new }) result }
{
    match remembering_load::<W>(
        alloc,
        image,
        setup.basis,
        secret,
        setup.cache,
        setup.tags,
        setup.history,
    ) {
        RememberingLoad::Asked(loader) => run_from(alloc, loader, input, limit, out),
        RememberingLoad::Kept(loader) => run_from(alloc, loader, input, limit, out),
        RememberingLoad::InSets(loader) => run_from(alloc, loader, input, limit, out),
    }
}

/// Starts the image as the setup says, with these secret bytes where secrecy is chosen, and executes the input's lines, each as
/// its newline comes, up to `quit` or to the end of the input, which ends a last line that was begun. Of an input of more than
/// `limit` bytes those lines are executed that end within them. What is replied is put on `out` line by line. Where the start
/// needs more tag numbers than there may be, the input is left alone, and nothing is put.
pub fn run_session<S: Source, K: Sink>(
    alloc: Global,
    setup: Setup,
    secret: &[u8],
    image: &Image,
    input: &mut S,
    limit: usize,
    out: &mut K,
) -> Result<SessionEnd, SessionCut>
    requires rules { IsCacheSize setup.cache }
    requires tags { 1 ≤ setup.tags }
    requires history { setup.history ≤ 65536 }

    // Where the input tells its bytes, the replies and the end are those of the definition.
    ensures done { IfOk result (λ end. IfSome (S.left input.old) (λ bytes.
        end ≡ (told_of setup secret.now image.now limit bytes).end)) }
    ensures puts { IfSome (S.left input.old) (λ bytes. PutsOut (K.taken out.old) (K.taken out.new)
        (told_of setup secret.now image.now limit bytes).pieces result) }
    ensures long { result ≡ Ok SessionEnd.TooLong
        → IfSome (S.left input.old) (λ bytes. limit < length bytes) }

    // Where a read failed, each line that ended before it was replied to, and nothing else was put.
    ensures replied { result ≡ Err SessionCut.ReadFailed
        → RepliesSoFarOf setup secret.now image.now limit
        (S.left input.old) (S.left input.new) (K.taken out.old) (K.taken out.new) }

    // A start that is out of tag numbers leaves input and output alone, whatever the input is.
    ensures out_of_tags { result ≡ Ok SessionEnd.TagsOut
        → is_over_of setup secret.now image.now ≡ true }
    ensures over { is_over_of setup secret.now image.now ≡ true
        → NoSession input.old input.new (K.taken out.old) (K.taken out.new) result }

    // What was moved out of the input stood first, and it is closed where its end was met.
    ensures closed { result ≡ Ok SessionEnd.InputEnd → IsTrue (S.closed input.new) }
    ensures moved { LosesPrefix (S.left input.old) (S.left input.new) (limit + 4096) }
    ensures cause { SessionCause
        (record { input = S.faults input.old; out = K.faults out.old })
        (record { input = S.faults input.new; out = K.faults out.new }) result }
{
    if setup.basis.choice.secret {
        return run_whole::<Hidden, S, K>(alloc, setup, secret, image, input, limit, out);
    }
    run_whole::<All, S, K>(alloc, setup, secret, image, input, limit, out)
}
