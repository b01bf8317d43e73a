//! Splitting a text in memory into records in memory.

ghost use Rattle.std.specs.Prelude.{ℕ, List};
ghost use Rattle.sgf_lines.specs.declared.options.Options.{Options};
ghost use Rattle.sgf_lines_c.specs.SplitAnswer.{IsSplit, Says};
ghost use Rattle.sgf_lines_c.specs.inner.Running.{IsTaken};

use crate::answer::Answer;
use crate::asked::Asked;
use crate::refusal::refused;
use crate::status::Status;
use sgf_lines::{Options, SliceSource, WriteSink, split};
use std::alloc::Global;

/// Splits the collection that the text spells (SGF FF[4], EBNF). Writes the records of the lines asked for to the front of the
/// room, and returns the number of a `Status`.
///
/// - `Done`: the records are at the front of the room, and the rest of it is unchanged. `lines` is their number, `bytes` their length.
/// - `RoomTooSmall`: the same two numbers. So `bytes` is the room that the records need.
/// - `NotSgf`: `at` is the offset in bytes, from 0, of the first faulty byte.
/// - `EndsEarly`: `at` is the length of the text.
/// - `TooLong`, `UnknownForm`: every number is 0.
/// - `NoSuchLine`: `at` is the place that was asked for.
/// - `OutOfMemory`: there was memory for the records of the first `lines` lines, which may be none.
///
/// After every status except `Done` the room is unchanged.
#[unsafe(no_mangle)]
pub extern "C" fn sgf_lines_split(
    alloc: Global,
    text: &[u8],
    asked: &Asked,
    room: &mut [u8],
    answer: &mut Answer,
) -> u32
    ensures { IsSplit asked.now text.now room.old room.new answer.new result }
{
    let (status, told) = match asked.options() {
        Some(options) => split_into(alloc, text, &options, room),
        None => (
            Status::UnknownForm,
            Answer {
                lines: 0,
                bytes: 0,
                at: 0,
            },
        ),
    };
    *answer = told;
    status.number()
}

/// Writes the records of the lines that the options select to the front of the room.
fn split_into(alloc: Global, text: &[u8], options: &Options, room: &mut [u8]) -> (Status, Answer)
    ensures { Says options.now text.now room.old room.new result.1 result.0 }
{
    let mut source = SliceSource::new(text);
    let mut sink = WriteSink::new(Vec::new(alloc));
    match split(alloc, &mut source, &mut sink, options) {
        Ok(lines) => put(&sink.into_inner(), lines, room),
        Err(fault) => refused(fault),
    }
}

/// Puts the records at the front of the room. If they don't fit, the room is unchanged. `lines` is the number of records.
fn put(records: &[u8], lines: u64, room: &mut [u8]) -> (Status, Answer)
    ensures { (options : Options) (text : List ℕ) → IsTaken options text records.now lines
        → Says options text room.old room.new result.1 result.0 }
{
    let bytes = records.len();
    let told = Answer {
        lines,
        bytes: bytes as u64,
        at: 0,
    };
    if room.len() < bytes {
        return (Status::RoomTooSmall, told);
    }
    room[..bytes].copy_from_slice(records);
    (Status::Done, told)
}
