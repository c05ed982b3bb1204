//! Whose turn is next.

ghost use Rattle.std.specs.Prelude.{◌≡◌, ◌<◌, IfSome, length, option_map};
ghost use Rattle.engine_trait.specs.Standing.{is_ready};
ghost use Rattle.shell_turns.specs.Order.{AreHarts, next_of, order_of};

use engine_trait::Engine;
use rounds::next_turn;

/// Whose turns a command asks for.
#[derive(Clone, Copy)]
pub enum Order<'a> {
    /// Those of one hart, while it is ready.
    Only(u32),
    /// Those of all harts, round after round, from one on, passing over harts that have stopped.
    RoundsFrom(u32),
    /// Those of the harts in a list, one after another, ready or not.
    Listed(&'a [u8]),
}

/// Whether hart `h` can have a turn: neither it nor the engine as a whole has stopped.
fn is_ready<E: Engine>(engine: &E, h: u32) -> bool
    requires { h < length (E.standing engine.now).machine.core.harts }
    ensures { result ≡ is_ready (E.standing engine.now) h }
{
    !engine.stopped() && engine.stop(h).is_none()
}

/// The hart of the next turn, and the order of those after it; `None` where no turn is next.
#[tactic(auto, unfolding(crate::specs::Order::next_of))]
pub(crate) fn next_of<'a, E: Engine>(order: Order<'a>, engine: &E) -> Option<(u32, Order<'a>)>
    requires { AreHarts (length (E.standing engine.now).machine.core.harts) (order_of order) }
    ensures next { option_map (λ next. (next.0, order_of next.1)) result
        ≡ next_of (order_of order.entry) (E.standing engine.now) }
    ensures hart { IfSome result (λ next. next.0 < length
        (E.standing engine.now).machine.core.harts) }
    ensures rest { IfSome result (λ next.
        AreHarts (length (E.standing engine.now).machine.core.harts) (order_of next.1)) }
{
    match order {
        Order::Only(h) => is_ready(engine, h).then_some((h, Order::Only(h))),
        Order::RoundsFrom(from) => {
            let h = next_turn(engine, from)?;
            Some((h, Order::RoundsFrom(h + 1)))
        }
        Order::Listed(harts) => {
            let (h, rest) = harts.split_first()?;
            Some((u32::from(*h), Order::Listed(rest)))
        }
    }
}
