//! Records of turns where tags are words, taken only where turns are remembered.

ghost use Rattle.std.specs.Prelude.{◌≡◌, ◌<◌, None, IfOk, false, length};
ghost use Rattle.std.specs.List.{All};
ghost use Rattle.tag_memory.specs.Ram.{IsPlace, ram_bytes};
ghost use Rattle.turn_steps.specs.Effects.{IsSound};
ghost use Rattle.turn_steps.specs.Looks.{is_system};
ghost use Rattle.undo_log.specs.Past.{pushed};
ghost use Rattle.engine_trait.specs.History.{bare_record, record_by, record_served};
ghost use Rattle.pump_engine.specs.Steps.{pushed_if};

use engine_trait::Core;
use policy_trait::Plan;
use std::alloc::{AllocError, Global};
use turn_steps::Look;
use undo_log::{Record, WordLog};

/// Remembers a turn of hart `h` that stops it before its effect.
#[inline(always)]
pub(crate) fn remember_stop<H: WordLog>(log: &mut H, core: &Core<u32>, h: u32)
    requires { h < length core.now.harts }
    ensures { H.past log.new ≡ pushed (H.past log.old) (bare_record core.now h) }
{
    if !log.keeps() {
        return;
    }
    log.push(core.bare_record(h));
}

/// Remembers a turn of hart `h` that carries out this instruction, none of a policy's services; `next` is the next byte of the feed.
#[inline(always)]
pub(crate) fn remember_effect<H: WordLog>(
    log: &mut H,
    core: &Core<u32>,
    h: u32,
    look: &Look,
    next: Option<u8>,
)
    requires hart { h < length core.now.harts }
    requires safe { IsSound (ram_bytes core.now.ram) look.now.effect }
    ensures { H.past log.new
        ≡ pushed (H.past log.old) (record_by look.now.group core.now next h look.now) }
{
    if !log.keeps() {
        return;
    }
    log.push(core.record(h, look, next));
}

/// Remembers a turn of hart `h` that carries out this instruction, neither an ECALL nor an EBREAK.
#[inline(always)]
pub(crate) fn remember_step<H: WordLog>(log: &mut H, core: &Core<u32>, h: u32, look: &Look)
    requires hart { h < length core.now.harts }
    requires plain { is_system look.now.group ≡ false }
    requires safe { IsSound (ram_bytes core.now.ram) look.now.effect }
    ensures { H.past log.new
        ≡ pushed (H.past log.old) (record_by look.now.group core.now None h look.now) }
{
    if !log.keeps() {
        return;
    }
    log.push(core.step_record(h, look));
}

/// The record of a turn of hart `h` whose service writes these words by this plan; `None` where it would not be kept. The only error is
/// running out of memory.
#[inline(always)]
pub(crate) fn service_record<H: WordLog>(
    log: &H,
    alloc: Global,
    core: &Core<u32>,
    h: u32,
    words: &[(u32, u32, u32)],
    plan: &Plan<H::Tag>,
) -> Result<Option<Record<u32, H::Tag>>, AllocError>
    requires hart { h < length core.now.harts }
    requires places { All (λ word. IsPlace (ram_bytes core.now.ram) word.0) words.now }
    ensures { IfOk result (λ made. pushed_if (H.past log.now) made
        ≡ pushed (H.past log.now) (record_served core.now h words.now plan.now)) }
{
    if !log.keeps() {
        return Ok(None);
    }
    let made = core.record_served(alloc, h, words, plan)?;
    Ok(Some(made))
}

/// Remembers a turn by its record, if there is one.
#[inline(always)]
pub(crate) fn push_if<H: WordLog>(log: &mut H, made: Option<Record<u32, H::Tag>>)
    ensures { H.past log.new ≡ pushed_if (H.past log.old) made }
{
    if let Some(made) = made {
        log.push(made);
    }
}
