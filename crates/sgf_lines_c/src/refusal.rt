//! What a fault says to a caller in C.

ghost use Rattle.std.specs.Prelude.{◌≡◌};
ghost use Rattle.sgf_lines_c.specs.inner.Refusal.{refusal_of};

use crate::answer::Answer;
use crate::status::Status;
use sgf_lines::RunFault;

/// The status of a fault, the number of lines that were written before it, and the offset or the place that it names. A number that it
/// doesn't name is 0. The source is a text in memory, which never fails. The sink fails only if memory is refused for what it takes.
pub(crate) fn refused(fault: RunFault) -> (Status, Answer)
    ensures { result ≡ refusal_of fault }
{
    let (status, lines, at) = match fault {
        RunFault::TooLong => (Status::TooLong, 0, 0),
        RunFault::NotSgf { at, .. } if fault.ends_too_early() => (Status::EndsEarly, 0, at as u64),
        RunFault::NotSgf { at, .. } => (Status::NotSgf, 0, at as u64),
        RunFault::NoSuchLine { place } => (Status::NoSuchLine, 0, place),
        RunFault::Write { lines } | RunFault::Memory { lines } => (Status::OutOfMemory, lines, 0),
        RunFault::Read => (Status::OutOfMemory, 0, 0),
    };
    let bytes = 0;
    (status, Answer { lines, bytes, at })
}
