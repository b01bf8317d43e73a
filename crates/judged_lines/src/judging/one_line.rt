//! Judging one line.

ghost use Rattle.std.specs.Prelude.{◌≡◌, ◌<◌, Some, option_map, IfErr, IfOk};
ghost use Rattle.sgf_outline.specs.Tree.{node_count};
ghost use Rattle.sgf_outline.specs.FileOrder.{IsLeaf};
ghost use Rattle.judged_lines.specs.Verdict.{IsVerdictAt, IsVerdictOf, verdict};
ghost use Rattle.tree_lines.specs.Following.{line_before};
ghost use Rattle.tree_lines.specs.Cursor.{IsSeekFault};

use crate::judging::judged::Judged;
use crate::over_lines::LineKeeper;
use crate::verdict::Verdict;
use sgf_tree::{Collection, MemoryFault, Outline};
use std::alloc::Global;
use tree_lines::{NO_FRONT, SeekFault, SequenceCursor};

/// The verdict of the line that ends in the node with the number `leaf`, from 0 in file order. The node must be a leaf (`is_leaf`).
///
/// The line is played from its root on a board of its own, by the Tromp-Taylor rules,
/// with setup by SGF FF[4]. `MemoryFault` comes only if memory was refused.
pub fn judge(
    alloc: Global,
    collection: &Collection<'_>,
    leaf: usize,
) -> Result<Verdict, MemoryFault>
    requires within { leaf < node_count collection.now }
    requires is_leaf { IsLeaf collection.now leaf }
    ensures { IfOk result (IsVerdictAt collection.now leaf) }
{
    let mut cursor = SequenceCursor::new(alloc, collection.outline());
    cursor.seek_leaf(leaf)?;
    judge_before(alloc, &cursor)
}

/// The verdict of the line before a cursor.
fn judge_before(alloc: Global, cursor: &SequenceCursor<'_, '_>) -> Result<Verdict, MemoryFault>
    requires { 0 < cursor.now.at.index }
    ensures { IfOk result (λ told. option_map verdict (line_before cursor.now.at) ≡ Some told) }
{
    // There are no more nodes than bytes, and the line has a sequence.
    let _nodes = cursor.outline().nodes();
    let _sequences = cursor.sequences();
    let _len = cursor.len();
    let mut judged = Judged::new(alloc, ());
    judged.follow(cursor, NO_FRONT)?;
    Ok(judged.verdict)
}

/// The verdict of the line with this place, the same as `judge` returns. A line's
/// place is the offset in bytes, from 0, of the `;` of its last node. (A `Collection` lends its outline.)
///
/// `NoSuchLine` comes exactly if no line has that place, unless memory was refused.
pub fn judge_at(alloc: Global, outline: &Outline<'_>, place: u64) -> Result<Verdict, SeekFault>
    ensures verdict { IfOk result (IsVerdictOf outline.now place) }
    ensures why { IfErr result (IsSeekFault outline.now place) }
{
    let mut cursor = SequenceCursor::new(alloc, outline);
    cursor.seek_after(place)?;
    Ok(judge_before(alloc, &cursor)?)
}
