//! Secrecy at the start of an image.

use crate::policy::Secrecy;
use image_format::Image;
use policy_start::Begins;
use std::alloc::{AllocError, Global};

impl Begins for Secrecy {
    ghost use Rattle.secrecy_policy.specs.Start.{begun, secrecy_apart};

    ghost begun = { begun };

    fn begin(alloc: Global, secret: &[u8], _image: &Image) -> Result<Secrecy, AllocError> {
        Secrecy::new(alloc, secret)
    }

    ghost apart = { secrecy_apart };
}
