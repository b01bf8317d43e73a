//! Judging a line of a text in memory.

ghost use Rattle.std.specs.Prelude.{◌≤◌, List, ℕ, length};
ghost use Rattle.sgf_outline.specs.Spelling.{Spells};
ghost use Rattle.sgf_lines_c.specs.JudgeAnswer.{IsJudged, MAX_LENGTH, Says};

use crate::answer::JudgeAnswer;
use crate::refusal::refused;
use crate::status::Status;
use sgf_lines::{RunFault, SeekFault, judge_at};
use sgf_tree::{Outline, read_outline};
use std::alloc::Global;

/// Judges a line of the collection that the text spells (SGF FF[4], EBNF), by the Tromp-Taylor rules. The line is named by its
/// place: the offset in bytes, from 0, of the `;` of its last node. Returns the number of a `Status`.
///
/// - `Done`: the answer has the verdict.
/// - `NotSgf`: `at` is the offset in bytes, from 0, of the first faulty byte.
/// - `EndsEarly`: `at` is the length of the text.
/// - `NoSuchLine`: no line has the place; `at` is the place.
/// - `TooLong`, `OutOfMemory`: every number is 0.
#[unsafe(no_mangle)]
pub extern "C" fn sgf_lines_judge(
    alloc: Global,
    text: &[u8],
    place: u64,
    answer: &mut JudgeAnswer,
) -> u32
    ensures { IsJudged text.now place answer.new result }
{
    let (status, told) = judge_text(alloc, text, place);
    *answer = told;
    status.number()
}

/// Judges a line of the collection that a text spells.
fn judge_text(alloc: Global, text: &[u8], place: u64) -> (Status, JudgeAnswer)
    ensures { Says text.now place result.1 result.0 }
{
    match read_outline(alloc, text) {
        Ok(outline) => judge_line(alloc, &outline, place),
        Err(fault) => {
            let (status, told) = refused(RunFault::unread(fault, text.len()));
            (status, JudgeAnswer::at(told.at))
        }
    }
}

/// Judges the line of a collection that has this place.
fn judge_line(alloc: Global, outline: &Outline<'_>, place: u64) -> (Status, JudgeAnswer)
    ensures { (text : List ℕ) → length text ≤ MAX_LENGTH → Spells outline.now text → Says text place result.1 result.0 }
{
    match judge_at(alloc, outline, place) {
        Ok(verdict) => (Status::Done, JudgeAnswer::of(verdict)),
        Err(SeekFault::NoSuchLine { place }) => (Status::NoSuchLine, JudgeAnswer::at(place)),
        Err(SeekFault::Memory) => (Status::OutOfMemory, JudgeAnswer::at(0)),
    }
}
