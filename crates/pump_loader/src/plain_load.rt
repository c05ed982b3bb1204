//! Starts of an image on the engine that asks its policy at every turn, that can be made again and again.

ghost use Rattle.std.specs.Prelude.{◌≡◌, ◌≢◌, Err, IfOk, false, true};
ghost use Rattle.engine_trait.specs.Accounts.{is_over};
ghost use Rattle.tag_loader.specs.Start.{start_standing};

use crate::whole::Whole;
use engine_trait::{LoadEnd, Loader};
use image_format::Image;
use plain_engine::Plain;
use policy_choice::Basis;
use policy_product::Nothing;
use std::alloc::{AllocError, Global};
use std::marker::{Model, PhantomData};
use tag_loader::start_under;

/// The start of an image under the policies that a basis chooses, as `W`, on the engine that asks them at every turn. It can be
/// made again and again.
#[derive(Drop)]
pub struct PlainLoad<'a, W: Whole> {
    alloc: Global,
    image: &'a Image,
    basis: Basis,
    secret: &'a [u8],
    policy: PhantomData<W>,
}

impl<'a, W: Whole> Model for PlainLoad<'a, W> {
    ghost use Rattle.pump_loader.specs.PlainLoads.{Load};

    ghost Value = { Load };

    ghost view = { λ l. record { image = l.image.now; basis = l.basis; secret = l.secret.now } };
}

impl<'a, W: Whole> PlainLoad<'a, W> {
    /// The start of this image on this basis and with these secret bytes.
    pub fn new(alloc: Global, image: &'a Image, basis: Basis, secret: &'a [u8]) -> PlainLoad<'a, W>
        ensures { result ≡ record { image = image.now; basis = basis; secret = secret.now } }
    {
        PlainLoad {
            alloc,
            image,
            basis,
            secret,
            policy: PhantomData,
        }
    }
}

/// The engine at the start of the image under what the basis chooses. The only error is running out of memory.
fn start_chosen<W: Whole>(
    alloc: Global,
    basis: Basis,
    secret: &[u8],
    image: &Image,
) -> Result<Plain<W>, AllocError>
    ensures { IfOk result (λ engine. engine
        ≡ start_standing W.Policy.model (W.chosen basis secret.now image.now) image.now) }
{
    let policy = W::choose(alloc, basis, secret, image)?;
    start_under(alloc, policy, image)
}

impl<'a, W: Whole> Loader for PlainLoad<'a, W> {
    ghost use Rattle.pump_loader.specs.PlainLoads.{start_by};

    type E = Plain<W>;

    ghost start = { start_by W.Policy.model W.chosen };

    fn load(&self) -> Result<Plain<W>, LoadEnd>
        ensures start { IfOk result (λ engine. engine ≡ start_by W.Policy.model W.chosen self.now) }
        ensures within { IfOk result
            (λ engine. is_over (start_by W.Policy.model W.chosen self.now).account ≡ false) }
        ensures out { result ≡ Err LoadEnd.TagsOut
            → is_over (start_by W.Policy.model W.chosen self.now).account ≡ true }
        // An engine without tag numbers does not run out of them.
        ensures memory { result ≢ Err LoadEnd.TagsOut }
    {
        match start_chosen(self.alloc, self.basis, self.secret, self.image) {
            Ok(engine) => Ok(engine),
            Err(_) => Err(LoadEnd::Memory),
        }
    }
}

/// The start of an image under the policy that is nothing, on the engine that asks its policy at every turn. It can be
/// made again and again. `bare_law` says what it has to do with the start under a choice of no policy.
#[derive(Drop)]
pub struct BareLoad<'a> {
    alloc: Global,
    image: &'a Image,
}

impl<'a> Model for BareLoad<'a> {
    ghost use Rattle.image_format.specs.Picture.{Picture};

    ghost Value = { Picture };

    ghost view = { λ l. l.image.now };
}

impl<'a> BareLoad<'a> {
    /// The start of this image.
    pub fn new(alloc: Global, image: &'a Image) -> BareLoad<'a>
        ensures { result ≡ image.now }
    {
        BareLoad { alloc, image }
    }
}

impl<'a> Loader for BareLoad<'a> {
    ghost use Rattle.pump_loader.specs.PlainLoads.{bare_start_of};

    type E = Plain<Nothing>;

    ghost start = { bare_start_of };

    fn load(&self) -> Result<Plain<Nothing>, LoadEnd>
        ensures start { IfOk result (λ engine. engine ≡ bare_start_of self.now) }
        ensures within { IfOk result (λ engine. is_over (bare_start_of self.now).account ≡ false) }
        ensures out { result ≡ Err LoadEnd.TagsOut
            → is_over (bare_start_of self.now).account ≡ true }
        // An engine without tag numbers does not run out of them.
        ensures memory { result ≢ Err LoadEnd.TagsOut }
    {
        match start_under(self.alloc, Nothing, self.image) {
            Ok(engine) => Ok(engine),
            Err(_) => Err(LoadEnd::Memory),
        }
    }
}
