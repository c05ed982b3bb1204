//! How harts stand.

ghost use Rattle.std.specs.Prelude.{◌≡◌};
ghost use Rattle.rounds.specs.Course.{hart_stops};

use arrayvec::ArrayVec;
use engine_trait::{Engine, MOST_HARTS, Stop};

/// Why each hart stopped, in the order of their numbers; `None` for one that is ready.
pub fn stops_of<E: Engine>(engine: &E) -> ArrayVec<Option<Stop>, MOST_HARTS>
    ensures { result.items ≡ hart_stops (E.standing engine.now).machine.core }
{
    let mut stops = ArrayVec::new();
    for h in 0..engine.harts() {
        stops.push(engine.stop(h));
    }
    stops
}
