//! How a program uses `sgf_lines` with a text in memory: it gets the
//! records of the lines in memory, or goes over the lines itself. `sgfsplit_job_tests` tests these functions.
#![tactic(auto)]

ghost use Rattle.std.specs.Prelude.{◌≡◌, List, IfOk};
ghost use Rattle.tree_lines.specs.Lines.{Line};
ghost use Rattle.sgf_lines.specs.Record.{output};
ghost use Rattle.sgf_lines.specs.Answer.{HasPage};

use sgf_lines::laws::named;
use sgf_lines::{
    Collection, Cursor, Follower, MemoryFault, Options, Outline, RunFault, SliceSource, Verdict,
    WriteSink, judge, split,
};
use std::alloc::Global;

/// Splits the collection that the text spells (SGF FF[4]), and returns the records of the lines that
/// the options select. See `sgf_lines::split` for the faults.
pub fn records(alloc: Global, text: &[u8], options: &Options) -> Result<Vec<u8>, RunFault>
    ensures { IfOk result (λ records. (ls : List Line)
        × HasPage options.now text.now ls × (records.items ≡ output options.now.form ls)) }
{
    let mut source = SliceSource::new(text);
    let mut sink = WriteSink::new(Vec::new(alloc));
    split(alloc, &mut source, &mut sink, options)?;
    Ok(sink.into_inner())
}

/// The verdict of the first line of a collection; None if it has no line.
pub fn first_verdict(
    alloc: Global,
    collection: &Collection<'_>,
) -> Result<Option<Verdict>, MemoryFault> {
    // Each line ends in a leaf, so `judge` may be called.
    named();
    let mut cursor = Cursor::new(alloc, collection.outline());
    match cursor.next()? {
        Some(line) => Ok(Some(judge(alloc, collection, line.leaf())?)),
        None => Ok(None),
    }
}

/// The place of the first line in which the referee finds an illegal node; None if there is no such line.
pub fn first_illegal(alloc: Global, outline: &Outline<'_>) -> Result<Option<u64>, MemoryFault> {
    next_illegal(&mut Follower::new(alloc, outline))
}

/// The place of the next line in which the referee finds an illegal node; None if no such line follows. It only borrows the follower, so
/// that the follower is dropped in one place.
fn next_illegal(follower: &mut Follower<'_, '_>) -> Result<Option<u64>, MemoryFault> {
    'verdicts: while let Some(verdict) = follower.next()? {
        if let Verdict::Illegal { .. } = verdict {
            return Ok(Some(follower.line().place()));
        }
    }
    Ok(None)
}

/// The number of nodes of the longest line of a collection; 0 if it has no line.
pub fn longest_line(alloc: Global, outline: &Outline<'_>) -> Result<usize, MemoryFault> {
    let mut cursor = Cursor::new(alloc, outline);
    let mut longest = 0;
    'lines: while let Some(line) = cursor.next()? {
        longest = line.path().len().max(longest);
    }
    Ok(longest)
}
