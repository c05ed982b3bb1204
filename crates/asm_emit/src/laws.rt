//! What holds of every assembled image. The functions do nothing.

ghost use Rattle.asm_emit.specs.Emitted.{AreMadeOfWords};
ghost use Rattle.asm_emit.specs.ImageLaws.{AreImages};

/// An image's segments, code ranges, labels and compartment ranges are those of the words that its lines emit, each with what it
/// is marked with, and its edges are those of its lines.
pub fn words_law()
    ensures { AreMadeOfWords }
{}

/// The image of a source meets each condition of the format. The source has less than 2^32 bytes, so that four bytes can count
/// its edges.
pub fn image_law()
    ensures { AreImages }
{}
