//! The checks of an effect before it is carried out.

ghost use Rattle.std.specs.Prelude.{◌≡◌, ◌+◌, ◌%◌, nat_lt, OnOk};
ghost use Rattle.std.specs.Result.{result_err};
ghost use Rattle.rv_step.specs.Accesses.{bytes_of};
ghost use Rattle.rv_step.specs.Checks.{access_fault, jump_fault, first_fault, GoesOnToWord, IsSafe};

use crate::accesses::{Access, Width};
use crate::actions::Action;
use crate::effects::Effect;
use crate::faults::Fault;

/// The first fault of an effect in a memory of `ram` bytes: alignment of the access, then its range,
/// then alignment of the jump.
///
/// A branch that is not taken never faults.
#[inline(always)]
pub fn check(effect: &Effect, ram: u32) -> Result<(), Fault>
    ensures first { result_err result ≡ first_fault effect.now ram }
    ensures safe { OnOk result (IsSafe ram effect.now) }
    ensures to_word { GoesOnToWord effect.now → OnOk result (effect.now.next % 4 ≡ 0) }
{
    check_access(effect.access, ram)?;
    check_jump(effect)
}

#[inline(always)]
fn check_access(access: Access, ram: u32) -> Result<(), Fault>
    ensures { result_err result ≡ access_fault access ram }
{
    match access {
        Access::None => Ok(()),
        Access::Load { addr, width, .. } => {
            if addr % width.bytes() != 0 {
                Err(Fault::LoadAlign(addr))
            } else if passes_end(addr, width, ram) {
                Err(Fault::LoadRange(addr))
            } else {
                Ok(())
            }
        }
        Access::Store { addr, width, .. } => {
            if addr % width.bytes() != 0 {
                Err(Fault::StoreAlign(addr))
            } else if passes_end(addr, width, ram) {
                Err(Fault::StoreRange(addr))
            } else {
                Ok(())
            }
        }
    }
}

// Whether the access ends past a memory of `ram` bytes.
#[inline(always)]
pub(crate) fn passes_end(addr: u32, width: Width, ram: u32) -> bool
    ensures { result ≡ nat_lt ram (addr + bytes_of width) }
{
    u64::from(ram) < u64::from(addr) + u64::from(width.bytes())
}

#[inline(always)]
fn check_jump(effect: &Effect) -> Result<(), Fault>
    ensures { result_err result ≡ jump_fault effect.now }
{
    if effect.taken && effect.next % 4 != 0 {
        return Err(Fault::JumpAlign(effect.next));
    }
    Ok(())
}

// The fault of the jump of an effect that goes on to a word where it doesn't jump.
#[inline(always)]
pub(crate) fn check_next(action: &Action) -> Result<(), Fault>
    requires { GoesOnToWord action.now }
    ensures { result_err result ≡ jump_fault action.now }
{
    let next = action.next();
    if next % 4 != 0 {
        return Err(Fault::JumpAlign(next));
    }
    Ok(())
}
