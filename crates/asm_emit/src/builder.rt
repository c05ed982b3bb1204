//! An image that is being built, line by line.

ghost use Rattle.std.specs.Prelude.{◌≡◌, ◌+◌, ◌*◌, ◌^◌, ◌<◌, ◌≤◌, IfOk, OnOk, length, replicate};
ghost use Rattle.asm_words.specs.Emission.{words_of};
ghost use Rattle.asm_emit.specs.Draft.{empty_draft, with_addition, with_marked, with_words};
ghost use Rattle.asm_emit.specs.Kept.{HasRoom, IsProtected};
ghost use Rattle.asm_emit.specs.Seen.{draft_of};

use crate::marks::Marks;
use crate::runs::{no_rows, put_code, put_label, put_protected};
use crate::values::Addition;
use asm_words::Emission;
use image_format::{CompartmentRanges, Label, Segments, Version, WordRange};
use std::alloc::{AllocError, Global};

/// The parts of an image so far, and the marks of the next word.
#[derive(Drop)]
pub(crate) struct Builder {
    pub heap_base: u32,
    pub heap_bytes: u32,
    /// Where each hart starts.
    pub entries: Vec<u32>,
    pub segments: Segments,
    pub code: Vec<WordRange>,
    pub labels: Vec<Label>,
    /// Sources and targets, as the lines have them.
    pub edges: Vec<(u32, u32)>,
    /// In rows of the image's version.
    pub compartments: CompartmentRanges,
    pub marks: Marks,
}

impl Builder {
    /// No heap region, and each hart starts at 0.
    ///
    /// Only running out of memory is an error.
    pub fn new(alloc: Global, version: Version, harts: u32) -> Result<Builder, AllocError>
        ensures { IfOk result (λ builder. draft_of builder ≡ empty_draft version harts) }
    {
        let entries = vec![in alloc; 0; harts as usize]?;
        Ok(Builder {
            heap_base: 0,
            heap_bytes: 0,
            entries,
            segments: Segments::new(alloc),
            code: Vec::new(alloc),
            labels: Vec::new(alloc),
            edges: Vec::new(alloc),
            compartments: no_rows(alloc, version),
            marks: Marks::FIRST,
        })
    }

    /// Puts a word at an address behind those before it, with its marks.
    ///
    /// Only running out of memory is an error.
    fn put_word(&mut self, address: u32, word: u32) -> Result<(), AllocError>
        requires { IsProtected (draft_of self.old) }
        ensures { OnOk result (draft_of self.new ≡ with_marked (draft_of self.old) address word) }
    {
        self.segments.put_word(address, word)?;
        put_code(&mut self.code, self.marks.is_code, address)?;
        put_label(&mut self.labels, self.marks.label, address)?;
        put_protected(&mut self.compartments, self.marks.protection, address)?;
        self.marks.label = None;
        Ok(())
    }

    /// Puts that many words of 0 from an address on.
    ///
    /// Only running out of memory is an error.
    #[tactic(auto, using(crate::proofs::DraftLemmas::zero_put, crate::proofs::DraftLemmas::zeros_done))]
    fn put_zeros(&mut self, place: u32, count: u64) -> Result<(), AllocError>
        requires room { place + 4 * count < 2 ^ 32 }
        requires protected { IsProtected (draft_of self.old) }
        ensures { OnOk result (draft_of self.new ≡
            with_words (draft_of self.old) place (replicate count 0)) }
    {
        let mut address = place;
        for _ in 0..count {
            self.put_word(address, 0)?;
            address += 4;
        }
        Ok(())
    }

    /// Puts the words of a statement from an address on.
    ///
    /// Only running out of memory is an error.
    #[tactic(auto, unfolding(crate::specs::Draft::with_words))]
    fn put_words(&mut self, place: u32, emission: Emission) -> Result<(), AllocError>
        requires room { place + 4 * length (words_of emission) < 2 ^ 32 }
        requires protected { IsProtected (draft_of self.old) }
        ensures { OnOk result (draft_of self.new ≡
            with_words (draft_of self.old) place (words_of emission)) }
    {
        match emission {
            Emission::Nothing => Ok(()),
            Emission::One(word) => self.put_word(place, word),
            Emission::Two(first, second) => {
                self.put_word(place, first)?;
                self.put_word(place + 4, second)
            }
            Emission::Zeros(count) => self.put_zeros(place, count),
        }
    }

    /// Adds what a line at a place adds.
    ///
    /// Only running out of memory is an error.
    #[tactic(auto, unfolding(crate::specs::Draft::with_addition))]
    pub fn add(&mut self, place: u32, addition: Addition) -> Result<(), AllocError>
        requires room { HasRoom (length self.old.entries.items) place addition }
        requires protected { IsProtected (draft_of self.old) }
        ensures { OnOk result (draft_of self.new ≡
            with_addition (draft_of self.old) place addition) }
    {
        match addition {
            Addition::Nothing => {}
            Addition::Words(emission) => return self.put_words(place, emission),
            Addition::Heap { base, bytes } => {
                self.heap_base = base;
                self.heap_bytes = bytes;
            }
            Addition::Entry { hart, address } => self.entries[hart as usize] = address,
            Addition::Code => self.marks.is_code = true,
            Addition::Data => self.marks.is_code = false,
            Addition::Label(id) => self.marks.label = Some(id),
            Addition::Edge { source, target } => self.edges.push((source, target))?,
            Addition::Compartment(protection) => self.marks.protection = protection,
        }
        Ok(())
    }
}
