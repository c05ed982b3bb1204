//! Why a session ends before its commands do.

/// Why a session ends before its commands do.
#[derive(Clone, Copy, Debug, PartialEq, Eq)]
pub enum ObeyEnd {
    /// A put came to nothing, or to less than all of its bytes.
    WriteFault,
    /// Memory ran out.
    Memory,
}
