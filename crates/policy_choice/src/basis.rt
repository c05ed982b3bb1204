//! What a start rests on beside its image.

use crate::choice::Choice;

/// What a start rests on beside its image. Loaders, runs and their laws take it as one, and `choose` makes the policies of it.
#[derive(Clone, Copy, Debug)]
pub struct Basis {
    /// The policies that are chosen.
    pub choice: Choice,
}
