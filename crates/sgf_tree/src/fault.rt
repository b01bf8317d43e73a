//! How reading a text may fail.

ghost use Rattle.std.specs.Prelude.{◌≡◌};

use sgf_outline::MAX_LENGTH;
use sgf_properties::MemoryFault;
use thiserror::Error;

/// Why a text wasn't read.
#[derive(Clone, Copy, Debug, PartialEq, Eq, Error)]
pub enum ReadFault {
    /// The text is longer than `MAX_LENGTH` bytes.
    #[error("the text is longer than {MAX_LENGTH} bytes")]
    TooLong,

    /// The text spells no collection (SGF FF[4], EBNF). Its first `at` bytes are the beginning of some text of the grammar, and no more of
    /// its bytes are. So if `at` is the text's length, the text ends too early.
    #[error("byte {at}: not SGF")]
    NotSgf { at: usize },

    /// Memory was refused.
    #[error("out of memory")]
    Memory,
}

impl From<MemoryFault> for ReadFault {
    ghost use Rattle.sgf_tree.specs.declared.fault.ReadFault.TheVariants.{Memory};

    ghost from_gives = { λ _ fault. fault ≡ Memory };

    fn from(_refused: MemoryFault) -> ReadFault {
        ReadFault::Memory
    }
}
