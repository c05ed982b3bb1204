//! Parts of taking a turn back: the policy's plan, the byte of the feed, and why the engine is stopped.

ghost use Rattle.std.specs.Prelude.{◌≡◌};
ghost use Rattle.std.specs.Option.{ForSome};
ghost use Rattle.policy_trait.specs.Model.{IsCommitted};
ghost use Rattle.turn_steps.specs.Feeds.{unread};
ghost use Rattle.engine_trait.specs.Back.{awake};
ghost use Rattle.engine_trait.specs.History.{policy_undone};

use engine_trait::{Feed, Halt};
use policy_trait::Policy;
use undo_log::Record;

/// Takes back the commit of this record's plan, if there is one, the policy's last.
pub(crate) fn uncommit_if<P: Policy>(policy: &mut P, made: &Record<u32, P::Tag>)
    requires { ForSome made.now.plan (IsCommitted P.model P.holds policy.old) }
    ensures { policy.new ≡ policy_undone P.model policy.old made.now.plan }
{
    if let Some(plan) = made.plan() {
        policy.uncommit(plan);
    }
}

/// Puts the last byte that was read back, where a turn read this one.
pub(crate) fn unread_if(feed: &mut Feed, byte: Option<u8>)
    ensures { feed.new ≡ unread byte feed.old }
{
    if let Some(_byte) = byte {
        feed.unread();
    }
}

/// Why an engine is stopped that takes a turn back: one that is out of tag numbers runs again.
pub(crate) fn awake(halt: Option<Halt>) -> Option<Halt>
    ensures { result ≡ awake halt }
{
    match halt {
        Some(Halt::Memory) => Some(Halt::Memory),
        Some(Halt::TagNumbers) | None => None,
    }
}
