//! The tags of the policy of compartments.

ghost use Rattle.std.specs.Prelude.{◌≡◌};

use policy_trait::CompartmentSet;
use pump_words::Same;

/// A tag of the policy of compartments, which are numbered from 0.
#[derive(Clone, Copy, PartialEq, Eq, PartialOrd, Ord, Hash)]
pub enum CompartmentTag {
    /// The plain tag, that of each register.
    Plain,
    /// The tag of the pc.
    Pc {
        /// Whether the last instruction was a JAL or a JALR.
        jumped: bool,
        /// The compartment that owns the last instruction's word.
        owner: u32,
    },
    /// The tag of a memory word.
    Place {
        /// The compartment that owns the word.
        owner: u32,
        /// The compartments that may jump to the word.
        into: CompartmentSet,
        /// The compartments that may write the word.
        write: CompartmentSet,
    },
}

impl CompartmentTag {
    /// The same tag, its sets copied by their halves (`CompartmentSet::copied`).
    #[inline]
    pub fn copied(&self) -> CompartmentTag
        ensures { result ≡ self.now }
    {
        match self {
            CompartmentTag::Plain => CompartmentTag::Plain,
            CompartmentTag::Pc { jumped, owner } => CompartmentTag::Pc {
                jumped: *jumped,
                owner: *owner,
            },
            CompartmentTag::Place { owner, into, write } => CompartmentTag::Place {
                owner: *owner,
                into: into.copied(),
                write: write.copied(),
            },
        }
    }
}

impl Same for CompartmentTag {
    ghost use Rattle.std.proofs.Common.{rules};

    ghost same = { Prim.search rules };
}
