//! The program over memory as a static library of one exported call, for a page whose module is made of it.
#![tactic(auto)]

ghost use Rattle.std.specs.Prelude.{◌≡◌, ◌≢◌};
ghost use Rattle.pump_web.specs.Exchange.{IsAnswered};

use std::alloc::Global;

/// Puts the bytes of the reply to a line at the head of `room`, where they fit, and answers how many there are. 0 is that memory ran
/// out for them. `pump_web::answer` says all of it; the bytes of a reply are those of `pump_web::write_reply`.
#[unsafe(no_mangle)]
pub extern "C" fn pump_answer(
    alloc: Global,
    line: &[u8],
    file: &[u8],
    input: &[u8],
    room: &mut [u8],
) -> usize
    ensures none { result ≡ 0 → room.new ≡ room.old }
    ensures replied { result ≢ 0 →
        IsAnswered line.now file.now input.now result room.old room.new }
{
    pump_web::answer(alloc, line, file, input, room)
}
