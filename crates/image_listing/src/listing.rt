//! The words of an image, line by line.

ghost use Rattle.std.specs.Prelude.{◌≡◌, ℕ, List, Option, ◌+◌, ◌*◌, ◌^◌, ◌≤◌, ◌∷◌, [], length};
ghost use Rattle.host_io.specs.Causes.{PutCause};
ghost use Rattle.host_io.specs.Pieces.{Puts, out as piece};
ghost use Rattle.asm_show.specs.Listing.{listing_line};
ghost use Rattle.image_listing.specs.Listing.{listing, words_listed};

use asm_show::list_word;
use host_io::{PutEnd, Sink};
use image_format::Image;
use pump_words::Line;

/// Puts the line of the word at an address.
fn put_word<K: Sink>(address: u32, word: u32, out: &mut K) -> Result<(), PutEnd>
    ensures puts { (other : Option (List ℕ)) → Puts
        (record { out = K.taken out.old; err = other })
        (record { out = K.taken out.new; err = other })
        (piece (listing_line address word) ∷ []) result }
    ensures cause { PutCause (K.faults out.old) (K.faults out.new) result }
{
    let mut line = Line::new();
    list_word(address, word, &mut line);
    out.put(&line)
}

/// Puts the lines of the words from an address on.
fn put_words<K: Sink>(first: u32, words: &[u32], out: &mut K) -> Result<(), PutEnd>
    requires { first + 4 * length words.now ≤ 2 ^ 24 }
    ensures puts { (other : Option (List ℕ)) → Puts
        (record { out = K.taken out.old; err = other })
        (record { out = K.taken out.new; err = other }) (words_listed first words.now) result }
    ensures cause { PutCause (K.faults out.old) (K.faults out.new) result }
{
    let mut address = first;
    for word in words {
        put_word(address, *word, out)?;
        address += 4;
    }
    Ok(())
}

/// Puts a line for each word of the image's segments, by ascending addresses: `AAAAAAAA WWWWWWWW text`, the address and the word as
/// eight hexadecimal digits in upper case, and the statement of assembler source that stands for the word at its address. Each
/// line is one put and ends with a newline. Where a put fails or memory runs out, no more is put.
pub fn list_image<K: Sink>(image: &Image, out: &mut K) -> Result<(), PutEnd>
    ensures puts { (other : Option (List ℕ)) → Puts
        (record { out = K.taken out.old; err = other })
        (record { out = K.taken out.new; err = other }) (listing image.now) result }
    ensures cause { PutCause (K.faults out.old) (K.faults out.new) result }
{
    let _ram = image.ram(); // for the proof: no segment passes 2^24
    for i in 0..image.segment_count() {
        put_words(image.segment_address(i), image.segment_words(i), out)?;
    }
    Ok(())
}
