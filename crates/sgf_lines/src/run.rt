//! A run: what a source gives is split into the records of its lines, which a sink takes.

ghost use Rattle.std.specs.Prelude.{◌≡◌, ◌<◌, ◌≤◌, ◌+◌, ℕ, List, [], length, IfOk, OnOk};
ghost use Rattle.sgf_outline.specs.declared.limit.TheConstants.{MAX_LENGTH};
ghost use Rattle.sgf_outline.specs.Spelling.{Spells};
ghost use Rattle.byte_streams.specs.Streams.{HasDelivered, SourceState};
ghost use Rattle.sgf_lines.specs.Answer.{IsRun, read_failures, write_failures};
ghost use Rattle.sgf_lines.specs.RunPlays.{IsRunWithPlays};
ghost use Rattle.judged_lines.specs.declared.over_lines.Before.TheVariants.{Unheld};
ghost use Rattle.sgf_lines.specs.inner.Running.{HasReadAll, IsReading, IsStart, MayWriteLines, WritesLines, WritesPage, page_after};

use crate::fault::RunFault;
use crate::form::LineForm;
use crate::form::gtp::GtpForm;
use crate::form::list::ListForm;
use crate::form::sgf::SgfForm;
use crate::form::text_row::TextRow;
use crate::laws::rise;
use crate::options::{Form, Options};
use byte_streams::{Sink, SinkFault, Source};
use judged_lines::{Before, OverLines, Plays};
use sgf_tree::{MAX_LENGTH, MemoryFault, Outline, read_outline};
use std::alloc::Global;
use tree_lines::{SeekFault, SequenceCursor};

/// The number of bytes that a source is asked for at once.
const CHUNK: usize = 65_536;

/// Reads a source to its end, and writes the records of the lines of the collection that
/// its bytes spell (SGF FF[4], EBNF). Returns the number of lines written.
///
/// The lines are those that follow the line with the place `options.after`; all lines if this is None. Of these the first
/// `options.limit` are written; all of them if this is None. Each is written in the form `options.form`, in file order. A record is
/// built whole before its first byte is put. After `Ok` the sink was flushed once, at the end, even if there was no record.
/// After `Read`, `TooLong`, `NotSgf` and `NoSuchLine` the sink is as it was: nothing was put, and it was not flushed.
///
/// The faults come in this order:
///
/// 1. `Read` if the source failed, or `TooLong` if it gave too much, whichever comes first.
/// 2. `NotSgf`.
/// 3. `NoSuchLine`.
/// 4. `Write` if the sink failed.
///
/// If memory was refused, `Memory` is returned in place of `Ok`, or of a fault that would have come later.
///
/// Once the source has answered that it is at its end, it is asked nothing more.
pub fn split<S: Source, T: Sink>(
    alloc: Global,
    source: &mut S,
    sink: &mut T,
    options: &Options,
) -> Result<u64, RunFault>
    requires source_countable { (S.state source.old).failures < u64.MAX }
    requires sink_countable { (T.state sink.old).failures < u64.MAX }
    ensures runs { IsRun options.now (S.state source.old) (S.state source.new) (T.state sink.old) (T.state sink.new) result }
    ensures one_end { S.end_answers source.new ≤ S.end_answers source.old + 1 }
{
    let mut plays = Plays::new();
    split_counted(alloc, source, sink, options, &mut plays)
}

/// Splits as `split` does, with the same results, and adds to `plays` the number of nodes that it played. A node is played when
/// its step is worked out, and not again for another line that shares it. `plays` must have room for `MAX_LENGTH` more.
///
/// After `Ok` the added number is that of the different nodes that are judged on the lines written. On a line these are all nodes,
/// or the nodes up to and including the first that is illegal. If the line's game isn't judged, there are none.
///
/// After `Write` or `Memory` the added number is at least that for the first `lines` lines, and at most that for these and the next
/// line. After any other fault it is 0. In the form `Form::Sgf`, which has no verdict, it is always 0.
pub fn split_counted<S: Source, T: Sink>(
    alloc: Global,
    source: &mut S,
    sink: &mut T,
    options: &Options,
    plays: &mut Plays,
) -> Result<u64, RunFault>
    requires source_countable { (S.state source.old).failures < u64.MAX }
    requires sink_countable { (T.state sink.old).failures < u64.MAX }
    requires plays_countable { plays.old + MAX_LENGTH ≤ u64.MAX }
    ensures runs { IsRunWithPlays options.now (S.state source.old) (S.state source.new)
        (T.state sink.old) (T.state sink.new) plays.old plays.new result }
    ensures one_end { S.end_answers source.new ≤ S.end_answers source.old + 1 }
{
    if let Some(text) = source.give_rest(MAX_LENGTH) {
        return split_text(alloc, text, sink, options, plays);
    }
    let mut text = Vec::new(alloc);
    read_all(source, &mut text)?;
    split_text(alloc, &text, sink, options, plays)
}

/// Splits a text as `split_counted` does, once a source has given all of it.
// Not inlined: it is called twice.
#[inline(never)]
fn split_text<T: Sink>(
    alloc: Global,
    text: &[u8],
    sink: &mut T,
    options: &Options,
    plays: &mut Plays,
) -> Result<u64, RunFault>
    requires sink_countable { (T.state sink.old).failures < u64.MAX }
    requires plays_countable { plays.old + MAX_LENGTH ≤ u64.MAX }
    ensures { (source new_source : SourceState) → HasReadAll source new_source text.now
        → IsRunWithPlays options.now source new_source (T.state sink.old) (T.state sink.new) plays.old plays.new result }
{
    let outline = match read_outline(alloc, text) {
        Ok(outline) => outline,
        Err(fault) => return Err(RunFault::unread(fault, text.len())),
    };
    let cursor = cursor_after(alloc, &outline, options.after)?;
    // There are no more lines than nodes.
    let limit = options.limit.unwrap_or(outline.nodes() as u64);
    write_in(alloc, cursor, options.form, limit, sink, plays)
}

/// Appends all that a source gives to an empty text. The buffer is this function's own, so it is zeroed only for a source that needs it.
#[inline(never)]
pub(crate) fn read_all<S: Source>(source: &mut S, text: &mut Vec<u8>) -> Result<(), RunFault>
    requires countable { (S.state source.old).failures < u64.MAX }
    requires empty { text.old.items ≡ [] }
    ensures answer { IsReading (S.state source.old) (S.state source.new) text.new.items result }
    ensures failures { (S.state source.new).failures ≡ (S.state source.old).failures + read_failures result }
    ensures one_end { S.end_answers source.new ≤ S.end_answers source.old + 1 }
{
    let mut chunk = [0u8; CHUNK];
    'read: loop {
        let Ok(count) = source.get(&mut chunk) else {
            return Err(RunFault::Read);
        };
        if MAX_LENGTH - text.len() < count {
            return Err(RunFault::TooLong);
        }
        // a source gives nothing only at its end
        if count == 0 {
            return Ok(());
        }
        text.extend_from_slice(&chunk[..count])?;
    }
}

/// A cursor after the line with the place that is asked for; before the first line if no place is asked for.
fn cursor_after<'c, 'a>(
    alloc: Global,
    outline: &'c Outline<'a>,
    after: Option<u64>,
) -> Result<SequenceCursor<'c, 'a>, RunFault>
    ensures start { (text : List ℕ) → Spells outline.now text → IsStart outline.now after result }
    ensures same { IfOk result (λ cursor. cursor.at.games ≡ outline.now) }
    ensures no_read { read_failures result ≡ 0 }
    ensures no_write { write_failures result ≡ 0 }
{
    // Places rise, so at most one line has the place.
    rise();
    let mut cursor = SequenceCursor::new(alloc, outline);
    let Some(place) = after else {
        return Ok(cursor);
    };
    match cursor.seek_after(place) {
        Ok(()) => Ok(cursor),
        Err(SeekFault::NoSuchLine { place }) => Err(RunFault::NoSuchLine { place }),
        Err(SeekFault::Memory) => Err(RunFault::Memory { lines: 0 }),
    }
}

/// Writes the records of the lines after a cursor, at most `limit`, in a form, and flushes the sink. Returns the number of lines
/// written, and adds to `plays` the number of nodes played.
fn write_in<T: Sink>(
    alloc: Global,
    cursor: SequenceCursor<'_, '_>,
    form: Form,
    limit: u64,
    sink: &mut T,
    plays: &mut Plays,
) -> Result<u64, RunFault>
    requires ready { MayWriteLines cursor.at.games (T.state sink.old) }
    requires plays_countable { plays.old + MAX_LENGTH ≤ u64.MAX }
    ensures answer { WritesPage form (page_after cursor.entry.at limit) (T.state sink.old) (T.state sink.new) plays.old plays.new result }
    ensures delivered { OnOk result (HasDelivered (T.state sink.new)) }
    ensures failures { (T.state sink.new).failures ≡ (T.state sink.old).failures + write_failures result }
{
    match form {
        Form::List => write_page::<ListForm, T>(alloc, cursor, limit, sink, plays),
        Form::Sgf => write_page::<SgfForm, T>(alloc, cursor, limit, sink, plays),
        Form::Gtp => write_page::<GtpForm, T>(alloc, cursor, limit, sink, plays),
    }
}

/// Does the same as `write_in` in the form `F`.
fn write_page<F: LineForm, T: Sink>(
    alloc: Global,
    cursor: SequenceCursor<'_, '_>,
    limit: u64,
    sink: &mut T,
    plays: &mut Plays,
) -> Result<u64, RunFault>
    requires ready { MayWriteLines cursor.at.games (T.state sink.old) }
    requires plays_countable { plays.old + MAX_LENGTH ≤ u64.MAX }
    ensures answer { WritesPage F.form (page_after cursor.entry.at limit) (T.state sink.old) (T.state sink.new) plays.old plays.new result }
    ensures delivered { OnOk result (HasDelivered (T.state sink.new)) }
    ensures failures { (T.state sink.new).failures ≡ (T.state sink.old).failures + write_failures result }
{
    let mut lines = OverLines {
        cursor,
        before: Before::Unheld,
        keeper: F::new(alloc),
    };
    let result = write_lines(&mut lines, limit, sink);
    plays.add(lines.keeper.plays());
    result
}

/// Writes the records of the next lines, at most `limit`, and flushes the sink. Returns the number of lines written.
fn write_lines<F: LineForm, T: Sink>(
    lines: &mut OverLines<'_, '_, F>,
    limit: u64,
    sink: &mut T,
) -> Result<u64, RunFault>
    requires ready { MayWriteLines lines.old.cursor.at.games (T.state sink.old) }
    requires fresh { (lines.old.before ≡ Unheld) × (F.played lines.old.keeper ≡ 0) }
    ensures answer { WritesLines F.form (page_after lines.old.cursor.at limit) (T.state sink.old) (T.state sink.new) (F.played lines.new.keeper) result }
    ensures delivered { OnOk result (HasDelivered (T.state sink.new)) }
    ensures failures { (T.state sink.new).failures ≡ (T.state sink.old).failures + write_failures result }
{
    let mut row = TextRow::new();
    let mut written = 0u64;
    'page: while written < limit {
        match lines.next() {
            Ok(true) => {}
            Ok(false) => break,
            Err(MemoryFault) => return Err(RunFault::Memory { lines: written }),
        }
        match lines.keeper.put(&lines.cursor, &mut row, sink) {
            Ok(()) => written += 1,
            Err(SinkFault) => return Err(RunFault::Write { lines: written }),
        }
    }
    match sink.flush() {
        Ok(()) => Ok(written),
        Err(SinkFault) => Err(RunFault::Write { lines: written }),
    }
}
