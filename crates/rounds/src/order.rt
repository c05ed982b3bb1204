//! Whose turn is next.

ghost use Rattle.std.specs.Prelude.{◌≡◌, ◌+◌, ◌-◌, ◌<◌, false, IfSome, length};
ghost use Rattle.rounds.specs.Course.{first_ready, is_stop, next_hart, next_turn, order_in, unless_stopped};

use arrayvec::ArrayVec;
use engine_trait::{Engine, MOST_HARTS, TurnEnd};

/// Of each hart, in the order of their numbers: whose turn comes after its own, while none stops.
pub(crate) type Order = ArrayVec<Option<u32>, MOST_HARTS>;

/// The first ready hart from one on.
fn first_ready<E: Engine>(engine: &E, from: u32) -> Option<u32>
    ensures first { let core = (E.standing engine.now).machine.core in
        result ≡ first_ready core from (length core.harts - from) }
    ensures hart { IfSome result (λ h. h < length (E.standing engine.now).machine.core.harts) }
    ensures few { IfSome result (λ h. h < 8) }
{
    for h in from..engine.harts() {
        let None = engine.stop(h) else {
            continue;
        };
        return Some(h);
    }
    None
}

/// The first ready hart from one on, else the first ready one of all.
#[tactic(auto, unfolding(crate::specs::Course::next_hart))]
fn next_hart<E: Engine>(engine: &E, from: u32) -> Option<u32>
    ensures next { result ≡ next_hart (E.standing engine.now).machine.core from }
    ensures hart { IfSome result (λ h. h < length (E.standing engine.now).machine.core.harts) }
    ensures few { IfSome result (λ h. h < 8) }
{
    match first_ready(engine, from) {
        Some(h) => Some(h),
        None => first_ready(engine, 0),
    }
}

/// The next turn, or none where the engine as a whole is stopped.
#[inline(always)]
fn unless_stopped<E: Engine>(engine: &E, next: Option<u32>) -> Option<u32>
    ensures { result ≡ unless_stopped (E.standing engine.now).account.halt next }
{
    if engine.stopped() { None } else { next }
}

/// The hart whose turn is next, from one on. None is where the engine as a whole is stopped, or no
/// hart is ready.
#[tactic(auto, unfolding(crate::specs::Course::next_turn))]
pub fn next_turn<E: Engine>(engine: &E, from: u32) -> Option<u32>
    ensures next { result ≡ next_turn (E.standing engine.now) from }
    ensures hart { IfSome result (λ h. h < length (E.standing engine.now).machine.core.harts) }
    ensures few { IfSome result (λ h. h < 8) }
{
    unless_stopped(engine, next_hart(engine, from))
}

/// The order of the harts that are ready now.
pub(crate) fn order_of<E: Engine>(engine: &E) -> Order
    ensures { result.items ≡ order_in (E.standing engine.now).machine.core }
{
    let mut order = ArrayVec::new();
    for h in 0..engine.harts() {
        order.push(next_hart(engine, h + 1));
    }
    order
}

/// Makes the order anew where a turn that ended so stopped a hart: no other turn changes it.
#[inline(always)]
fn renew<E: Engine>(engine: &E, end: TurnEnd, order: &mut Order)
    requires { is_stop end ≡ false
        → order.old.items ≡ order_in (E.standing engine.now).machine.core }
    ensures { order.new.items ≡ order_in (E.standing engine.now).machine.core }
{
    if let TurnEnd::Stopped(_) = end {
        order_anew(engine, order);
    }
}

/// Makes the order anew. It stays a call, since few turns stop a hart, and the room of an order would be cleared at every turn.
#[inline(never)]
fn order_anew<E: Engine>(engine: &E, order: &mut Order)
    ensures { order.new.items ≡ order_in (E.standing engine.now).machine.core }
{
    *order = order_of(engine);
}

/// The hart whose turn is next after one of hart `h` that ended so. The order is that of before the
/// turn, and then that of after it.
#[inline(always)]
pub(crate) fn next_after<E: Engine>(
    engine: &E,
    h: u32,
    end: TurnEnd,
    order: &mut Order,
) -> Option<u32>
    requires hart { h < length (E.standing engine.now).machine.core.harts }
    requires kept { is_stop end ≡ false
        → order.old.items ≡ order_in (E.standing engine.now).machine.core }
    ensures order { order.new.items ≡ order_in (E.standing engine.now).machine.core }
    ensures next { result ≡ next_turn (E.standing engine.now) (h + 1) }
{
    renew(engine, end, order);
    unless_stopped(engine, order[h as usize])
}
