//! Counting the games, nodes and lines of a text in memory.

ghost use Rattle.sgf_lines_c.specs.CountAnswer.{IsCount};

use crate::answer::CountAnswer;
use crate::refusal::refused;
use crate::status::Status;
use sgf_lines::{SliceSource, count};
use std::alloc::Global;

/// Counts the games, nodes and lines of the collection that the text spells (SGF FF[4], EBNF). Returns the number of a `Status`.
///
/// - `Done`: `games`, `nodes` and `lines` are the counts.
/// - `NotSgf`: `at` is the offset in bytes, from 0, of the first faulty byte.
/// - `EndsEarly`: `at` is the length of the text.
/// - `TooLong`, `OutOfMemory`: every number is 0.
#[unsafe(no_mangle)]
pub extern "C" fn sgf_lines_count(alloc: Global, text: &[u8], answer: &mut CountAnswer) -> u32
    ensures { IsCount text.now answer.new result }
{
    let mut source = SliceSource::new(text);
    let (status, told) = match count(alloc, &mut source) {
        Ok(counts) => (
            Status::Done,
            CountAnswer {
                games: counts.games,
                nodes: counts.nodes,
                lines: counts.lines,
                at: 0,
            },
        ),
        Err(fault) => {
            let (status, told) = refused(fault);
            let told = CountAnswer {
                games: 0,
                nodes: 0,
                lines: 0,
                at: told.at,
            };
            (status, told)
        }
    };
    *answer = told;
    status.number()
}
