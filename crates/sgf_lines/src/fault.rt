//! How a run may fail.

ghost use Rattle.std.specs.Prelude.{◌≡◌};

use sgf_tree::{MAX_LENGTH, ReadFault};
use std::alloc::AllocError;
use thiserror::Error;

/// Why a run ended before it had done all that was asked.
#[derive(Clone, Copy, Debug, PartialEq, Eq, Error)]
pub enum RunFault {
    /// The source failed. Nothing was written.
    #[error("read failed")]
    Read,

    /// The source gave more than `sgf_tree::MAX_LENGTH` bytes. Nothing was written.
    #[error("input is longer than {MAX_LENGTH} bytes")]
    TooLong,

    /// The `len` bytes that the source gave spell no collection (SGF FF[4], EBNF). The first `at` bytes are the beginning of some text of
    /// the grammar, and no more of the bytes are. So if `at` is `len`, the input ends too early. Nothing was written.
    #[error("byte {at}: {}", wrong_there(*.at, *.len))]
    NotSgf { at: usize, len: usize },

    /// No line has the place that was asked for. Nothing was written.
    #[error("no line ends at {place}")]
    NoSuchLine { place: u64 },

    /// The sink failed, at a put or at the flush.
    /// It has taken the whole records of the first `lines` lines, and less than the whole record of the next, if there is one.
    #[error("write failed")]
    Write { lines: u64 },

    /// Memory was refused. The sink has taken exactly the records of the first `lines` lines, and wasn't flushed.
    #[error("out of memory")]
    Memory { lines: u64 },
}

/// What is wrong at the first fault of a text of `len` bytes, for `Display`. The program's own row is `Fault::row` of `sgfsplit_job`.
fn wrong_there(at: usize, len: usize) -> &'static str {
    if at == len {
        "input ends too early"
    } else {
        "not SGF"
    }
}

/// For memory that is refused before a line is written.
impl From<AllocError> for RunFault {
    ghost use Rattle.sgf_lines.specs.declared.fault.RunFault.TheVariants.{Memory};

    ghost from_gives = { λ _ fault. fault ≡ Memory 0 };

    fn from(_refused: AllocError) -> RunFault {
        RunFault::Memory { lines: 0 }
    }
}

impl RunFault {
    ghost use Rattle.sgf_lines.specs.Answer.{ends_too_early, unread};

    /// The fault of a run whose source gave a text of `len` bytes, if `read` refused this text.
    pub fn unread(fault: ReadFault, len: usize) -> RunFault
        ensures { result ≡ unread fault len }
    {
        match fault {
            ReadFault::TooLong => RunFault::TooLong,
            ReadFault::NotSgf { at } => RunFault::NotSgf { at, len },
            ReadFault::Memory => RunFault::Memory { lines: 0 },
        }
    }

    /// Whether the input ends too early: it is the beginning of some text of the grammar, but no whole text.
    pub fn ends_too_early(&self) -> bool
        ensures { result ≡ ends_too_early self.now }
    {
        matches!(self, RunFault::NotSgf { at, len } if at == len)
    }
}
