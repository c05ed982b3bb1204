//! Taint at the start of an image.

use crate::policy::Taint;
use image_format::Image;
use policy_start::{Begins, Quiet};
use std::alloc::{AllocError, Global};

impl Quiet for Taint {
    ghost use Rattle.taint_policy.specs.Start.{taint_offers_none};

    ghost quiet = { taint_offers_none };
}

impl Begins for Taint {
    ghost use Rattle.taint_policy.specs.Start.{begun, taint_apart};

    ghost begun = { begun };

    fn begin(_alloc: Global, _secret: &[u8], _image: &Image) -> Result<Taint, AllocError> {
        Ok(Taint)
    }

    ghost apart = { taint_apart };
}
