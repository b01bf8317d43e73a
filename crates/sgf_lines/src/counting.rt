//! Counting what a collection holds. No collection is made for that.

ghost use Rattle.std.specs.Prelude.{◌≡◌, ◌<◌, ◌≤◌, ◌+◌};
ghost use Rattle.sgf_lines.specs.Counts.{IsCount, IsWriting, counts_row};
ghost use Rattle.byte_streams.specs.Streams.{SourceState};
ghost use Rattle.sgf_lines.specs.inner.Running.{HasReadAll};

use crate::fault::RunFault;
use crate::form::text_row::TextRow;
use crate::run::read_all;
use byte_streams::{Sink, SinkFault, Source, put_all};
use sgf_tree::{MAX_LENGTH, read_extent};
use std::alloc::Global;

/// The counts of a collection.
#[derive(Clone, Copy, Debug, PartialEq, Eq)]
pub struct Counts {
    /// The number of games.
    pub games: u64,
    /// The number of nodes of all games, at every depth.
    pub nodes: u64,
    /// The number of lines of play.
    pub lines: u64,
}

/// Reads a source to its end, and counts the games, nodes and lines of the collection that its bytes spell (SGF FF[4], EBNF).
///
/// The faults come in this order:
///
/// 1. `Read` if the source failed, or `TooLong` if it gave too much, whichever comes first.
/// 2. `NotSgf`.
///
/// If memory was refused, `Memory { lines: 0 }` is returned in place of `Ok`, or of a fault that would have come later.
///
/// Once the source has answered that it is at its end, it is asked nothing more.
pub fn count<S: Source>(alloc: Global, source: &mut S) -> Result<Counts, RunFault>
    requires { (S.state source.old).failures < u64.MAX }
    ensures counts { IsCount (S.state source.old) (S.state source.new) result }
    ensures one_end { S.end_answers source.new ≤ S.end_answers source.old + 1 }
{
    if let Some(text) = source.give_rest(MAX_LENGTH) {
        return count_text(alloc, text);
    }
    let mut text = Vec::new(alloc);
    read_all(source, &mut text)?;
    count_text(alloc, &text)
}

/// Counts as `count` does, once a source has given all of a text. Each line ends at a leaf of its own.
fn count_text(alloc: Global, text: &[u8]) -> Result<Counts, RunFault>
    ensures { (source new_source : SourceState) → HasReadAll source new_source text.now → IsCount source new_source result }
{
    match read_extent(alloc, text) {
        Ok(extent) => Ok(Counts {
            games: extent.games as u64,
            nodes: extent.nodes as u64,
            lines: extent.leaves as u64,
        }),
        Err(fault) => Err(RunFault::unread(fault, text.len())),
    }
}

/// Writes the counts of games, nodes and lines in decimal digits, with a space between them
/// and a line feed after them. Then flushes the sink. This takes no memory.
///
/// If the sink fails, `Write { lines: 0 }` is returned, and the sink has taken a prefix of the row, perhaps all of it.
pub fn write_counts<T: Sink>(sink: &mut T, counts: &Counts) -> Result<(), RunFault>
    requires { (T.state sink.old).failures < u64.MAX }
    ensures { IsWriting (counts_row counts.now) (T.state sink.old) (T.state sink.new) result }
{
    let fault = RunFault::Write { lines: 0 };
    let mut row = TextRow::new();
    row.put(b"\n");
    row.put_number(counts.lines);
    row.put(b" ");
    row.put_number(counts.nodes);
    row.put(b" ");
    row.put_number(counts.games);
    let Ok(()) = put_all(row.text(), sink) else {
        return Err(fault);
    };
    match sink.flush() {
        Ok(()) => Ok(()),
        Err(SinkFault) => Err(fault),
    }
}
