//! The byte order mark.

ghost use Rattle.std.specs.Prelude.{IfOk, IfErr};
ghost use Rattle.sgf_tree.specs.inner.Progress.{IsTrueFault};
ghost use Rattle.sgf_tree.specs.inner.GamesRead.{IsByteOrderMarkRead};

use crate::fault::ReadFault;

/// The end of the UTF-8 byte order mark (EF BB BF) of a text; 0 if it has none. `NotSgf` if it begins with EF, but not with the mark.
#[tactic(auto, using(crate::proofs::ByteOrderMark::mark_none, crate::proofs::ByteOrderMark::mark_read, crate::proofs::ByteOrderMark::first_faulty, crate::proofs::ByteOrderMark::second_faulty))]
pub(crate) fn byte_order_mark_end(text: &[u8]) -> Result<usize, ReadFault>
    ensures read { IfOk result (IsByteOrderMarkRead text.now) }
    ensures fault { IfErr result (IsTrueFault text.now) }
{
    if text.is_empty() || text[0] != 0xEF {
        return Ok(0);
    }
    if text.len() < 2 || text[1] != 0xBB {
        return Err(ReadFault::NotSgf { at: 1 });
    }
    if text.len() < 3 || text[2] != 0xBF {
        return Err(ReadFault::NotSgf { at: 2 });
    }
    Ok(3)
}
