//! Whether the machine of a session has what a command asks for.

ghost use Rattle.std.specs.Prelude.{◌≡◌};
ghost use Rattle.std.specs.List.{list_all};
ghost use Rattle.shell_run.specs.Session.{is_hart, is_place, is_range};

use crate::session::Session;
use engine_trait::{Engine, Loader};

impl<L: Loader> Session<L> {
    /// Whether the number is that of a hart.
    pub(crate) fn is_hart(&self, h: u32) -> bool
        ensures { result ≡ is_hart self.now h }
    {
        h < self.engine.harts()
    }

    /// Whether each number is that of a hart.
    pub(crate) fn are_harts(&self, harts: &[u8]) -> bool
        ensures { result ≡ list_all (is_hart self.now) harts.now }
    {
        harts.iter().all(|h| self.is_hart(u32::from(*h)))
    }

    /// Whether the address is that of a word.
    pub(crate) fn is_place(&self, address: u32) -> bool
        ensures { result ≡ is_place self.now address }
    {
        address % 4 == 0 && address < self.engine.ram()
    }

    /// Whether so many words from that address on are all there.
    pub(crate) fn is_range(&self, address: u32, count: u32) -> bool
        ensures { result ≡ is_range self.now address count }
    {
        address % 4 == 0
            && u64::from(address) + 4 * u64::from(count) <= u64::from(self.engine.ram())
    }
}
