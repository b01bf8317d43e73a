//! Why a line that is sought by its place may not be found.

ghost use Rattle.std.specs.Prelude.{◌≡◌};

use sgf_tree::MemoryFault;
use std::alloc::AllocError;
use thiserror::Error;

/// Why a call that takes the place of a line failed. A cursor is unchanged then.
#[derive(Clone, Copy, Debug, PartialEq, Eq, Error)]
pub enum SeekFault {
    /// No line has this place: no node has it, or the node with it isn't a leaf.
    #[error("no line ends at {place}")]
    NoSuchLine { place: u64 },

    /// Memory was refused.
    #[error("out of memory")]
    Memory,
}

impl From<MemoryFault> for SeekFault {
    ghost use Rattle.tree_lines.specs.declared.seek.SeekFault.TheVariants.{Memory};

    ghost from_gives = { λ _ result. result ≡ Memory };

    fn from(_: MemoryFault) -> Self {
        SeekFault::Memory
    }
}

impl From<AllocError> for SeekFault {
    ghost use Rattle.tree_lines.specs.declared.seek.SeekFault.TheVariants.{Memory};

    ghost from_gives = { λ _ result. result ≡ Memory };

    fn from(_: AllocError) -> Self {
        SeekFault::Memory
    }
}
