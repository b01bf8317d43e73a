//! Nodes that are a move and perhaps short properties, and nodes without properties, in place of `take_node` and `read_properties` of
//! `reader`.

ghost use Rattle.std.specs.Prelude.{◌≡◌, ◌+◌, IfOk, MatchOption};
ghost use Rattle.sgf_tree.specs.inner.NodesRead.{BeginsNode, AreNodesRead};
ghost use Rattle.sgf_tree.specs.inner.PropertiesRead.{StandsIn, ArePropertiesRead};

use crate::quick::properties::{ShortRead, short_properties};
use crate::reader::own_nodes::{NodesRead, take_node};
use sgf_outline::{TWO_MOVES, Visitor, moves_in_place};
use sgf_properties::MemoryFault;

/// Reads the node whose `;` stands where `before` ends, if a glance shows all of it, and with it the node after it, if both are written
/// like `;B[pd]`. If it returns None, nothing is read.
#[inline(always)]
pub(crate) fn near_nodes<K: Visitor>(
    text: &[u8],
    before: NodesRead,
    visitor: &mut K,
) -> Result<Option<NodesRead>, MemoryFault>
    requires { BeginsNode (K.keeps text.now visitor.old) text.now before }
    ensures { IfOk result (λ read. MatchOption read (visitor.new ≡ visitor.old)
        (AreNodesRead (K.keeps text.now visitor.old) (K.keeps text.now visitor.new) text.now before)) }
{
    let place = before.end;
    let in_place = moves_in_place(text, place);
    if in_place == TWO_MOVES {
        let end = place + 6;
        let first = take_whole(text, before, ShortRead { text_end: end, end }, visitor)?;
        let end = place + 12;
        let second = take_whole(text, first, ShortRead { text_end: end, end }, visitor)?;
        return Ok(Some(second));
    }
    let Some(read) = short_properties(text, place + 1, in_place % 64 == 63) else {
        return Ok(None);
    };
    Ok(Some(take_whole(text, before, read, visitor)?))
}

/// Takes the node whose `;` stands where `before` ends. Its properties were read, and are copied in one piece.
#[inline(always)]
fn take_whole<K: Visitor>(
    text: &[u8],
    before: NodesRead,
    properties: ShortRead,
    visitor: &mut K,
) -> Result<NodesRead, MemoryFault>
    requires begins { BeginsNode (K.keeps text.now visitor.old) text.now before }
    requires read { ArePropertiesRead (StandsIn text.now (before.end + 1) properties.text_end) text.now (before.end + 1) properties.text_end properties.end }
    ensures taken { IfOk result (AreNodesRead (K.keeps text.now visitor.old) (K.keeps text.now visitor.new) text.now before) }
    ensures end { IfOk result (λ after. after.end ≡ properties.end) }
{
    let ShortRead { text_end, end } = properties;
    let own = take_node(before.own, before.end, text_end, visitor)?;
    Ok(NodesRead { own, end })
}
