//! Replies to lines, as `docs/TOUR.md` has them.

use crate::{Reply, answer, reply_to, words_of};
use std::test::Fail;

/// Whether the reply has this status, and these bytes on the two sinks.
fn is_reply(reply: &Reply, status: u8, out: &str, err: &str) -> bool {
    reply.status.code() == status
        && reply.out.as_slice() == out.as_bytes()
        && reply.err.as_slice() == err.as_bytes()
}

/// The source of `examples/hello.s`, without its comments.
const HELLO: &str = "li a0, 65\nli a7, 1\necall\nli a0, 0\nli a7, 0\necall\n";

/// Two blanks side by side make an empty word, and so does one at the end.
#[test]
fn a_line_is_cut_at_each_blank(rt: HostRuntime) -> Result<(), Fail> {
    let words = words_of(rt.alloc(), "pump  run ")?;
    assert!(rt; words.len() == 4);
    for (word, due) in words.iter().zip(["pump", "", "run", ""].iter()) {
        assert!(rt; word.as_str() == *due);
    }
    let empty = words_of(rt.alloc(), "")?;
    assert!(rt; empty.len() == 1);
    Ok(())
}

/// A source is assembled to the image that is run, listed and stepped through.
#[test]
fn hello_is_assembled_and_run(rt: HostRuntime) -> Result<(), Fail> {
    let alloc = rt.alloc();
    let made = reply_to(alloc, "pump asm file image", HELLO.as_bytes(), b"")?;
    assert!(rt; is_reply(&made, 0, "", ""));
    let image = made.image.as_slice();
    let run = reply_to(alloc, "pump run file", image, b"")?;
    assert!(rt; is_reply(&run, 0, "A", "stop 0 exit 0\n"));
    assert!(rt; run.image.is_empty());
    let spent = reply_to(alloc, "pump run file --turns 5", image, b"")?;
    assert!(rt; is_reply(&spent, 6, "A", "turns spent\n"));
    let session = reply_to(alloc, "pump shell file", image, b"pc 0\nstep 0 3\nquit\n")?;
    assert!(rt; is_reply(&session, 0, "pc 00000000 -\nout 41\nturns 3\n", ""));
    let other = reply_to(alloc, "pump dis hello", image, b"")?;
    assert!(rt; is_reply(&other, 3, "", "pump: bad image: short at 0\n"));
    let bad = reply_to(alloc, "pump  run file", image, b"")?;
    assert!(rt; is_reply(&bad, 2, "", "pump: bad command line\n"));
    Ok(())
}

/// A reply with the status 2 and 23 bytes on standard error, and one byte of the room behind it.
const FILLED: &[u8; 56] =
    b"\x02\0\0\0\0\0\0\0\0\0\0\0\0\0\0\0\x17\0\0\0\0\0\0\0\0\0\0\0\0\0\0\0pump: bad command line\n\x07";

/// A line that is no text is refused as the empty one is, with the status 2. Room that is a byte too small is left alone.
#[test]
fn a_reply_fills_its_room(rt: HostRuntime) {
    let alloc = rt.alloc();
    let mut room = [7u8; 56];
    assert!(rt; answer(alloc, b"\xFF", b"", b"", &mut room[..54]) == 55);
    assert!(rt; room == [7u8; 56]);
    assert!(rt; answer(alloc, b"\xFF", b"", b"", &mut room) == 55);
    assert!(rt; &room == FILLED);
}
