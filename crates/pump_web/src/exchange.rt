//! A reply as bytes, in room that is lent.

ghost use Rattle.std.specs.Prelude.{◌≡◌, ◌≢◌, ◌<◌, ◌≤◌, ◌++◌, IfOk, OnOk, drop, length, take};
ghost use Rattle.pump_web.specs.Exchange.{IsAnswered, IsTextOf, RepliesTo, head_spelling, number, reply_spelling};

use crate::replies::{Reply, reply_to};
use std::alloc::{AllocError, Global};
use std::str;

/// Adds a number as eight bytes, the lowest first.
fn put_number(bytes: &mut Vec<u8>, count: u64) -> Result<(), AllocError>
    ensures { OnOk result (bytes.new.items ≡ bytes.old.items ++ number count) }
{
    bytes.extend_from_slice(&count.to_le_bytes())
}

/// The four numbers at the head of a reply.
fn head_of(alloc: Global, reply: &Reply) -> Result<Vec<u8>, AllocError>
    ensures { IfOk result (λ head. head.items ≡ head_spelling reply.now.status
        reply.now.out.items reply.now.err.items reply.now.image.items) }
{
    let mut head = Vec::new(alloc);
    put_number(&mut head, u64::from(reply.status.code()))?;
    put_number(&mut head, reply.out.len() as u64)?;
    put_number(&mut head, reply.err.len() as u64)?;
    put_number(&mut head, reply.image.len() as u64)?;
    Ok(head)
}

/// A reply as bytes: four numbers of eight bytes each, the lowest byte first, which are the number of the status and how many bytes
/// standard output, standard error and the image have; and then these, in this order. The only error is running out of memory.
#[tactic(auto, unfolding(crate::specs::Exchange::reply_spelling))]
pub fn write_reply(alloc: Global, reply: &Reply) -> Result<Vec<u8>, AllocError>
    ensures { IfOk result (λ bytes. bytes.items ≡ reply_spelling reply.now.status
        reply.now.out.items reply.now.err.items reply.now.image.items) }
{
    let mut bytes = head_of(alloc, reply)?;
    bytes.extend_from_slice(&reply.out)?;
    bytes.extend_from_slice(&reply.err)?;
    bytes.extend_from_slice(&reply.image)?;
    Ok(bytes)
}

/// The line as a text; the empty one where it is no text.
fn text_of(line: &[u8]) -> &str
    ensures { IsTextOf line.now result.now }
{
    match str::from_utf8(line) {
        Ok(text) => text,
        Err(_) => "",
    }
}

/// The bytes of the reply to a line.
fn reply_bytes(alloc: Global, line: &str, file: &[u8], input: &[u8]) -> Result<Vec<u8>, AllocError>
    ensures { IfOk result (λ bytes. RepliesTo line.now file.now input.now bytes.items) }
{
    let reply = reply_to(alloc, line, file, input)?;
    let bytes = write_reply(alloc, &reply)?;
    Ok(bytes)
}

/// Puts the bytes at the head of the room, where they fit. The answer is how many there are.
fn put_in(room: &mut [u8], bytes: &[u8]) -> usize
    ensures count { result ≡ length bytes.now }
    ensures filled { result ≤ length room.old → take result room.new ≡ bytes.now }
    ensures behind { result ≤ length room.old → drop result room.new ≡ drop result room.old }
    ensures unfit { length room.old < result → room.new ≡ room.old }
{
    let count = bytes.len();
    if count <= room.len() {
        room[..count].copy_from_slice(bytes);
    }
    count
}

/// Puts the bytes of the reply to a line at the head of the room, where they fit. The answer is how many there are, or 0 where
/// memory ran out for them; the room is then as it was, as it is where they don't fit. A line that is no text (UTF-8) is taken as
/// the empty one, which asks for nothing.
pub fn answer(alloc: Global, line: &[u8], file: &[u8], input: &[u8], room: &mut [u8]) -> usize
    ensures none { result ≡ 0 → room.new ≡ room.old }
    ensures replied { result ≢ 0 →
        IsAnswered line.now file.now input.now result room.old room.new }
{
    match reply_bytes(alloc, text_of(line), file, input) {
        Ok(bytes) => put_in(room, &bytes),
        Err(_) => 0,
    }
}
