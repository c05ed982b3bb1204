//! Room for what is read, which is never more than the bytes that it is read from.
//!
//! The functions that read lists are handed `Rooms` and no allocator: a `Room` is the only thing that
//! they can make, whatever a file's count says.

ghost use Rattle.std.specs.Prelude.{◌≡◌, ℕ, ◌*◌, ◌<◌, ◌≤◌, [], ◌∷◌, ◌++◌, length, IfOk};
ghost use Rattle.std.proofs.Common.{arith};
ghost use Rattle.image_format.specs.Rooms.{HasPlacesFor};

use std::alloc::{AllocError, Global};
use std::marker::Model;

/// What is kept in memory of what is read.
pub(crate) trait Kept: Copy {
    ghost BYTES: { ℕ };

    /// The bytes that one takes in memory, and at least as many in the file.
    const BYTES: usize;

    ghost has_bytes: { 0 < BYTES };
}

impl Kept for u32 {
    ghost BYTES = { 4 };

    const BYTES: usize = size_of::<u32>();

    ghost has_bytes = { Prim.omega arith };
}

/// Makes rooms, each for what is read from bytes that are shown to it.
#[derive(Clone, Copy)]
pub(crate) struct Rooms {
    alloc: Global,
}

impl Rooms {
    /// Rooms of this memory.
    pub(crate) fn new(alloc: Global) -> Rooms
        ensures { result.alloc ≡ alloc }
    {
        Rooms { alloc }
    }

    /// A room without items, for that many of them, but for no more than lie in the bytes.
    pub(crate) fn room_for<T: Kept>(self, count: usize, bytes: &[u8]) -> Result<Room<T>, AllocError>
        ensures empty { IfOk result (λ room. room.items ≡ []) }
        ensures bounded { IfOk result (λ room. T.BYTES * room.places ≤ length bytes.now) }
        ensures enough { IfOk result (λ room. HasPlacesFor count T.BYTES (length bytes.now) room) }
    {
        Ok(Room {
            items: Vec::with_capacity(self.alloc, count.min(bytes.len() / T::BYTES))?,
        })
    }
}

/// Items that were read, and the places that were made for them at once. No other is ever made.
#[derive(Drop)]
pub(crate) struct Room<T: Kept> {
    items: Vec<T>,
}

impl<T: Kept> Model for Room<T> {
    ghost use Rattle.std.specs.Vec.{vec_capacity};
    ghost use Rattle.image_format.specs.Rooms.{RoomState};

    ghost Value = { RoomState T };

    ghost view = { λ room. record { items = room.items.items; places = vec_capacity room.items } };
}

impl<T: Kept> Room<T> {
    ghost use Rattle.std.specs.Vec.{vec_capacity};

    /// How many items there are.
    pub(crate) fn len(&self) -> usize
        ensures { result ≡ length self.now.items }
    {
        self.items.len()
    }

    /// Puts an item behind the others, at a place that isn't taken yet.
    pub(crate) fn push(&mut self, item: T)
        requires { length self.old.items < self.old.places }
        ensures items { self.new.items ≡ self.old.items ++ item ∷ [] }
        ensures places { self.new.places ≡ self.old.places }
    {
        // `insert` guarantees what a list's `push` doesn't: where a place is left, no other is made.
        let count = self.items.len();
        let _put = self.items.insert(count, item);
    }

    /// The items alone. The places of the others stay with them.
    pub(crate) fn into_items(self) -> Vec<T>
        ensures items { result.items ≡ self.items }
        ensures places { vec_capacity result ≡ self.places }
    {
        self.items
    }
}
