//! Starts of an image on engines whose turns can be taken back, that can be made again and again.

ghost use Rattle.std.specs.Prelude.{◌≡◌, ◌≤◌};

use crate::load::PumpLoad;
use crate::plain_load::PlainLoad;
use crate::whole::Whole;
use engine_trait::{LoadEnd, Loader};
use plain_engine::RememberingPlain;
use pump_engine::RememberingPump;
use rule_cache::RuleStore;
use std::alloc::Global;
use std::marker::Model;
use undo_log::UndoLog;

/// The start of a `PlainLoad` on the engine whose last turns can be taken back, at most so many. It can be made again and again.
#[derive(Drop)]
pub struct RememberingPlainLoad<'a, W: Whole> {
    alloc: Global,
    load: PlainLoad<'a, W>,
    most: u32,
}

impl<'a, W: Whole> Model for RememberingPlainLoad<'a, W> {
    ghost use Rattle.pump_loader.specs.Remembering.{IsShort, Remembering};
    ghost use Rattle.pump_loader.specs.PlainLoads.{Load};

    ghost Value = { Remembering Load };

    ghost view = { λ l. record { load = l.load; most = l.most } };

    ghost invariant = { λ l. IsShort {L = Load} (record { load = l.load; most = l.most }) };
}

impl<'a, W: Whole> RememberingPlainLoad<'a, W> {
    /// The same start, with room for the records of at most `most` turns, 0 to 65,536.
    pub fn new(alloc: Global, load: PlainLoad<'a, W>, most: u32) -> RememberingPlainLoad<'a, W>
        requires { most ≤ 65536 }
        ensures { result ≡ record { load = load.entry; most = most } }
    {
        RememberingPlainLoad { alloc, load, most }
    }
}

impl<'a, W: Whole> Loader for RememberingPlainLoad<'a, W> {
    ghost use Rattle.pump_loader.specs.Remembering.{remembering_start_by};

    type E = RememberingPlain<W>;

    ghost start = { remembering_start_by W.Policy.model W.chosen };

    fn load(&self) -> Result<RememberingPlain<W>, LoadEnd> {
        let plain = self.load.load()?;
        let Ok(past) = UndoLog::new(self.alloc, self.most) else {
            return Err(LoadEnd::Memory);
        };
        Ok(RememberingPlain::new(plain, past))
    }
}

/// The start of a `PumpLoad` on the engine whose last turns can be taken back, at most so many. It can be made again and again.
#[derive(Drop)]
pub struct RememberingPumpLoad<'a, W: Whole, C: RuleStore> {
    alloc: Global,
    load: PumpLoad<'a, W, C>,
    most: u32,
}

impl<'a, W: Whole, C: RuleStore> Model for RememberingPumpLoad<'a, W, C> {
    ghost use Rattle.pump_loader.specs.Loads.{CachedLoad};
    ghost use Rattle.pump_loader.specs.Remembering.{IsShort, Remembering};

    ghost Value = { Remembering CachedLoad };

    ghost view = { λ l. record { load = l.load; most = l.most } };

    ghost invariant = { λ l. IsShort {L = CachedLoad} (record { load = l.load; most = l.most }) };
}

impl<'a, W: Whole, C: RuleStore> RememberingPumpLoad<'a, W, C> {
    /// The same start, with room for the records of at most `most` turns, 0 to 65,536.
    pub fn new(alloc: Global, load: PumpLoad<'a, W, C>, most: u32) -> RememberingPumpLoad<'a, W, C>
        requires { most ≤ 65536 }
        ensures { result ≡ record { load = load.entry; most = most } }
    {
        RememberingPumpLoad { alloc, load, most }
    }
}

impl<'a, W: Whole, C: RuleStore> Loader for RememberingPumpLoad<'a, W, C> {
    ghost use Rattle.pump_loader.specs.Remembering.{remembering_cached_by};

    type E = RememberingPump<W, W::Table, C>;

    ghost start = { remembering_cached_by W.Tag.eq W.Policy.model W.chosen };

    fn load(&self) -> Result<RememberingPump<W, W::Table, C>, LoadEnd> {
        let Ok(past) = UndoLog::new(self.alloc, self.most) else {
            return Err(LoadEnd::Memory);
        };
        let pump = self.load.start(past)?;
        Ok(RememberingPump::new(pump))
    }
}
