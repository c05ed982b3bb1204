//! What holds of every image file.

ghost use Rattle.std.specs.Prelude.{◌≡◌, ℕ, ◌<◌, List, length, take, Err};
ghost use Rattle.image_format.specs.Picture.{Picture};
ghost use Rattle.image_format.specs.Spelling.{IsFileOf};
ghost use Rattle.image_format.specs.Reading.{image_of};
ghost use Rattle.image_format.specs.declared.errors.ImageError.TheVariants.{Short};

/// Each proper prefix of the file of an image is refused as short, at its own length.
pub fn prefix_law()
    ensures { (bytes : List ℕ) (g : Picture) (n : ℕ) → IsFileOf bytes g → n < length bytes
        → image_of (take n bytes) ≡ Err (Short n) }
{}
