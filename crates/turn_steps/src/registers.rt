//! The registers of a hart, each named by a `Register`.

ghost use Rattle.std.specs.Prelude.{◌≡◌};
ghost use Rattle.tag_memory.specs.Hart.{reg_tag, reg_value};
ghost use Rattle.turn_steps.specs.Effects.{with_tagged};

use rv_decode::Register;
use tag_memory::Hart;

/// The value of a register.
#[inline(always)]
pub(crate) fn reg<T: Copy>(hart: &Hart<T>, register: Register) -> u32
    ensures { result ≡ reg_value hart.now register }
{
    hart.reg(u32::from(register.number()))
}

/// The tag of a register.
#[inline(always)]
pub(crate) fn reg_tag<T: Copy>(hart: &Hart<T>, register: Register) -> T
    ensures { result ≡ reg_tag hart.now register }
{
    hart.reg_tag(u32::from(register.number()))
}

/// Where the tag of a register stands.
#[inline(always)]
pub(crate) fn reg_tag_at<T: Copy>(hart: &Hart<T>, register: Register) -> &T
    ensures { result.now ≡ reg_tag hart.now register }
{
    hart.reg_tag_at(u32::from(register.number()))
}

/// Writes a register's value and tag. What is written to x0 is dropped.
#[inline(always)]
pub(crate) fn set_reg<T: Copy>(hart: &mut Hart<T>, register: Register, value: u32, tag: T)
    ensures { hart.new ≡ with_tagged hart.old register value tag }
{
    let number = u32::from(register.number());
    hart.set_reg(number, value);
    hart.set_reg_tag(number, tag);
}
