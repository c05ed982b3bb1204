//! Tags changed by one function.

use policy_trait::TagMap;

/// Small tags as those of another type, raised by a number.
#[derive(Clone, Copy)]
pub(crate) struct Raising {
    pub(crate) by: u32,
}

impl TagMap for Raising {
    ghost use Rattle.std.specs.Prelude.{◌+◌};

    type From = u8;

    type To = u64;

    ghost image = { λ raising tag. raising.by + tag };

    fn image(&self, tag: u8) -> u64 {
        u64::from(self.by) + u64::from(tag)
    }
}
