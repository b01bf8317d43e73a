//! Why a turn wasn't taken.

ghost use Rattle.std.specs.Prelude.{◌≡◌};
ghost use Rattle.go_board.specs.declared.fault.TurnFault.TheVariants.{Memory};

use crate::reason::Reason;
use board_past::MemoryFault;
use std::alloc::AllocError;
use std::error::Error;
use std::fmt;

/// Why a turn wasn't taken.
#[derive(Clone, Copy, Debug, PartialEq, Eq)]
pub enum TurnFault {
    /// The turn is illegal.
    Illegal(Reason),
    /// The turn is legal, but memory for it was refused.
    Memory,
}

impl fmt::Display for TurnFault {
    fn fmt<W: fmt::Write>(&self, f: &mut fmt::Formatter<W>) -> fmt::Result {
        match self {
            Self::Illegal(reason) => write!(f, "illegal turn: {reason}"),
            Self::Memory => f.write_str("out of memory"),
        }
    }
}

impl Error for TurnFault {}

impl From<AllocError> for TurnFault {
    ghost from_gives = { λ _ fault. fault ≡ Memory };

    fn from(_refused: AllocError) -> TurnFault {
        TurnFault::Memory
    }
}

impl From<MemoryFault> for TurnFault {
    ghost from_gives = { λ _ fault. fault ≡ Memory };

    fn from(_refused: MemoryFault) -> TurnFault {
        TurnFault::Memory
    }
}
