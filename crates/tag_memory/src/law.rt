//! What harts and memory read after each write, for callers that reason about them.

ghost use Rattle.std.specs.Prelude.{◌≡◌, ℕ, ◌%◌, ◌<◌};
ghost use Rattle.tag_memory.specs.Hart.{HartState, IsHart, IsHartOf, moved_to, reg_tag, with_reg, with_reg_tag};
ghost use Rattle.tag_memory.specs.Maps.{hart_by, ram_by};
ghost use Rattle.tag_memory.specs.Ram.{IsPlace, IsRam, IsRamOf, RamState, ram_bytes, ram_tag, with_ram_tag, with_ram_word};
ghost use Rattle.tag_memory.specs.Writes.{WritesPc, WritesTag, WritesValue, WritesWord, WritesWordTag};

/// A write to a hart changes the place that it names and no other; x0 stays 0 and plain. After each write the hart is
/// one still, with the plain tag that it had.
pub fn hart_law<T: Copy>()
    ensures value { (hart : HartState T) (r value : ℕ) → IsHart hart → r < 32
        → WritesValue hart r value (with_reg hart r value) }
    ensures tag { (hart : HartState T) (r : ℕ) (tag : T) → IsHart hart → r < 32
        → WritesTag hart r tag (with_reg_tag hart r tag) }
    ensures pc { (hart : HartState T) (pc : ℕ) (tag : T)
        → WritesPc hart pc tag (moved_to hart pc tag) }
    ensures value_keeps { (plain : T) (hart : HartState T) (r value : ℕ) → IsHartOf plain hart
        → IsHartOf plain (with_reg hart r value) }
    ensures tag_keeps { (plain : T) (hart : HartState T) (r : ℕ) (tag : T) → IsHartOf plain hart
        → IsHartOf plain (with_reg_tag hart r tag) }
    ensures pc_keeps { (plain : T) (hart : HartState T) (pc : ℕ) (tag : T) → pc % 4 ≡ 0
        → IsHartOf plain hart → IsHartOf plain (moved_to hart pc tag) }
{}

/// A write to memory changes the word or the tag that it names and no other. After each write the memory is one still,
/// with the plain tag that it had.
pub fn ram_law<T: Copy>()
    ensures word { (ram : RamState T) (address word : ℕ) → IsPlace (ram_bytes ram) address
        → WritesWord ram address word (with_ram_word ram address word) }
    ensures tag { (ram : RamState T) (address : ℕ) (tag : T) → IsRam ram
        → IsPlace (ram_bytes ram) address
        → WritesWordTag ram address tag (with_ram_tag ram address tag) }
    ensures word_keeps { (plain : T) (ram : RamState T) (address word : ℕ) → IsRamOf plain ram
        → IsRamOf plain (with_ram_word ram address word) }
    ensures tag_keeps { (plain : T) (ram : RamState T) (address : ℕ) (tag : T) → IsRamOf plain ram
        → IsRamOf plain (with_ram_tag ram address tag) }
{}

/// A change of each tag goes through what is read and what is written.
pub fn map_law<T: Copy, U: Copy>()
    ensures reg_tag { (f : T → U) (hart : HartState T) (r : ℕ)
        → reg_tag (hart_by f hart) r ≡ f (reg_tag hart r) }
    ensures with_reg { (f : T → U) (hart : HartState T) (r value : ℕ)
        → with_reg (hart_by f hart) r value ≡ hart_by f (with_reg hart r value) }
    ensures with_reg_tag { (f : T → U) (hart : HartState T) (r : ℕ) (tag : T)
        → with_reg_tag (hart_by f hart) r (f tag) ≡ hart_by f (with_reg_tag hart r tag) }
    ensures ram_tag { (f : T → U) (ram : RamState T) (address : ℕ)
        → ram_tag (ram_by f ram) address ≡ f (ram_tag ram address) }
    ensures with_ram_tag { (f : T → U) (ram : RamState T) (address : ℕ) (tag : T)
        → with_ram_tag (ram_by f ram) address (f tag) ≡ ram_by f (with_ram_tag ram address tag) }
{}
