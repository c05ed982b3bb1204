//! The registers and the pc of a hart, with their tags.

ghost use Rattle.std.specs.Prelude.{◌≡◌, ◌≢◌, ◌++◌, ℕ, ◌%◌, ◌<◌, IfOk, OnOk, slice_index};
ghost use Rattle.tag_memory.specs.Hart.{fresh_hart, hart_tags, moved_to, reg_tag, reg_value, with_reg, with_reg_tag};
ghost use Rattle.tag_memory.specs.Maps.{hart_by};

use crate::filled::filled;
use crate::renumbering::{number_at, renumber_all};
use std::alloc::{AllocError, Global};
use std::marker::Model;

/// The registers and the pc of one hart, with their tags. x0 is 0 and plain and drops every write. The pc is a
/// multiple of 4. Contracts see it as a `HartState`.
///
/// x0 has its place too, so that a read needs no test: each write of a value puts 0 back there, and no tag is written to it.
#[derive(Drop)]
pub struct Hart<T: Copy> {
    values: [u32; 32],
    tags: Vec<T>,
    pc: u32,
    pc_tag: T,
    plain: T,
}

impl<T: Copy> Model for Hart<T> {
    ghost use Rattle.tag_memory.specs.Hart.{HartState, IsKept, hart_of};

    ghost Value = { HartState T };

    ghost view = { λ h. hart_of h.values h.tags.items h.pc h.pc_tag h.plain };

    ghost invariant = { λ h. IsKept h.values h.tags.items h.pc h.plain };
}

impl<T: Copy> Hart<T> {
    /// A hart at `pc` whose registers are 0 and plain. The only error is running out of memory.
    pub fn new(alloc: Global, pc: u32, pc_tag: T, plain: T) -> Result<Hart<T>, AllocError>
        requires { pc % 4 ≡ 0 }
        ensures { IfOk result (λ hart. hart ≡ fresh_hart pc pc_tag plain) }
    {
        let tags = filled(alloc, plain, 32)?;
        Ok(Hart {
            values: [0; 32],
            tags,
            pc,
            pc_tag,
            plain,
        })
    }

    /// The value of register `r`, 0 for x0.
    pub fn reg(&self, r: u32) -> u32
        requires { r < 32 }
        ensures { result ≡ reg_value self.now r }
    {
        self.values[r as usize]
    }

    /// Writes register `r`; a write to x0 is dropped. Its tag and every other register stay.
    pub fn set_reg(&mut self, r: u32, value: u32)
        requires { r < 32 }
        ensures { self.new ≡ with_reg self.old r value }
    {
        self.values[r as usize] = value;
        self.values[0] = 0;
    }

    /// The tag of register `r`, plain for x0.
    pub fn reg_tag(&self, r: u32) -> T
        requires { r < 32 }
        ensures { result ≡ reg_tag self.now r }
    {
        self.tags[r as usize]
    }

    /// Where the tag of register `r` stands, which is plain for x0.
    #[inline(always)]
    pub fn reg_tag_at(&self, r: u32) -> &T
        requires { r < 32 }
        ensures { result.now ≡ reg_tag self.now r }
    {
        &self.tags[r as usize]
    }

    /// Writes the tag of register `r`; a write to x0 is dropped. Its value and every other tag stay.
    pub fn set_reg_tag(&mut self, r: u32, tag: T)
        requires { r < 32 }
        ensures { self.new ≡ with_reg_tag self.old r tag }
    {
        if r != 0 {
            self.tags[r as usize] = tag;
        }
    }

    /// The plain tag, which x0 has.
    pub fn plain(&self) -> T
        ensures { result ≡ self.now.plain }
    {
        self.plain
    }

    /// Where the plain tag stands.
    #[inline(always)]
    pub fn plain_at(&self) -> &T
        ensures { result.now ≡ self.now.plain }
    {
        &self.plain
    }

    /// The address of the next instruction, a multiple of 4.
    pub fn pc(&self) -> u32
        ensures pc { result ≡ self.now.pc }
        ensures aligned { result % 4 ≡ 0 }
    {
        self.pc
    }

    /// The tag of the pc.
    pub fn pc_tag(&self) -> T
        ensures { result ≡ self.now.pc_tag }
    {
        self.pc_tag
    }

    /// Where the tag of the pc stands.
    #[inline(always)]
    pub fn pc_tag_at(&self) -> &T
        ensures { result.now ≡ self.now.pc_tag }
    {
        &self.pc_tag
    }

    /// Writes the pc and its tag. The registers stay.
    pub fn set_pc(&mut self, pc: u32, pc_tag: T)
        requires { pc % 4 ≡ 0 }
        ensures { self.new ≡ moved_to self.old pc pc_tag }
    {
        self.pc = pc;
        self.pc_tag = pc_tag;
    }

    /// Adds the tags that stand in the hart to a list: that of the pc, then those of x1 to x31. The
    /// only error is running out of memory; the list may then have some of them.
    pub fn push_tags(&self, list: &mut Vec<T>) -> Result<(), AllocError>
        ensures { OnOk result (list.new.items ≡ list.old.items ++ hart_tags self.now) }
    {
        list.push(self.pc_tag)?;
        list.extend_from_slice(&self.tags[1..])
    }
}

impl Hart<u32> {
    /// Gives each tag, the plain one too, the number that stands at its place in `numbers`, 0 for
    /// one past its end. Values and the pc stay. It takes no memory.
    pub fn renumber(&mut self, numbers: &[u32])
        ensures { self.new ≡ hart_by (slice_index numbers.now) self.old }
    {
        renumber_all(&mut self.tags, numbers);
        self.pc_tag = number_at(numbers, self.pc_tag);
        self.plain = number_at(numbers, self.plain);
    }
}
