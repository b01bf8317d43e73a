//! Reading games (SGF FF[4], EBNF: Collection, GameTree, Sequence). What is kept of them is up to a visitor.

ghost use Rattle.std.specs.Prelude.{◌<◌, ◌≤◌, [], length, IfOk, IfErr, OnOk};
ghost use Rattle.sgf_outline.specs.Tree.{no_games};
ghost use Rattle.sgf_outline.specs.Machine.{Stack, opened};
ghost use Rattle.sgf_tree.specs.inner.Progress.{ComesTo, IsTrueFault};
ghost use Rattle.sgf_properties.specs.KeptLengths.{AreKeptLengths};
ghost use Rattle.sgf_outline.specs.OwnNodes.{nothing};
ghost use Rattle.sgf_outline.specs.Unclosed.{unclosed_count};
ghost use Rattle.sgf_tree.specs.inner.GamesRead.{StandsBetween, IsFaultInOpened, ReadsOwnNodes, ReadsWhole};
ghost use Rattle.sgf_tree.specs.inner.NodesRead.{BeginsNode, AreNodesRead, IsFaultInNodes};

use crate::fault::ReadFault;
use crate::quick::nodes::near_nodes;
use crate::reader::own_nodes::{NodesRead, take_node};
use crate::reader::properties::{PartRead, read_properties};
use sgf_outline::{MAX_LENGTH, OwnNodes, Segment, Visitor};
use sgf_properties::{LongValue, skip_white_space, stands_at};

/// Reads all games from `at` on, and tells `visitor` of them: Collection = GameTree { GameTree }, GameTree = `(` Sequence { GameTree } `)`.
pub(crate) fn read_games<K: Visitor>(
    text: &[u8],
    at: usize,
    visitor: &mut K,
    long: &mut Vec<LongValue>,
) -> Result<(), ReadFault>
    requires short { length text.now ≤ MAX_LENGTH }
    requires within { at ≤ length text.now }
    requires begins { StandsBetween text.now at (record { closed = no_games; unclosed = [] }) }
    requires nothing_read { K.keeps text.now visitor.old (record { closed = no_games; unclosed = [] }) nothing }
    requires long { AreKeptLengths text.now long.old.items }
    ensures read { OnOk result (ReadsWhole (K.keeps text.now visitor.new) text.now) }
    ensures fault { IfErr result (IsTrueFault text.now) }
    ensures long { OnOk result (AreKeptLengths text.now long.new.items) }
{
    let start = at;
    let mut at = at;
    let mut depth = 0usize;
    'games: while at < text.len() {
        match text[at] {
            b'(' => {
                at = read_sequence(text, at + 1, visitor, long)?;
                depth += 1;
            }
            b')' => {
                // A `)` too many is the first fault.
                if depth == 0 {
                    return Err(ReadFault::NotSgf { at });
                }
                depth -= 1;
                visitor.game_ends(depth);
                at = skip_white_space(text, at + 1);
            }
            // Before and after games, and after a sequence, only a parenthesis may come: no node after a variation, and no other text.
            _ => return Err(ReadFault::NotSgf { at }),
        }
    }
    // The text ends too early if a game is unclosed, or none has begun.
    if depth > 0 || at == start {
        return Err(ReadFault::NotSgf { at });
    }
    Ok(())
}

/// Reads the own nodes of the game whose `(` is just before `at`: Sequence = Node { Node }. Returns the offset after their white space.
fn read_sequence<K: Visitor>(
    text: &[u8],
    at: usize,
    visitor: &mut K,
    long: &mut Vec<LongValue>,
) -> Result<usize, ReadFault>
    requires short { length text.now ≤ MAX_LENGTH }
    requires within { at ≤ length text.now }
    requires opened { (k : Stack) × (ComesTo text.now at (opened k)) × (K.keeps text.now visitor.old k nothing)
        × (unclosed_count k.closed k.unclosed < at) }
    requires long { AreKeptLengths text.now long.old.items }
    ensures read { IfOk result (ReadsOwnNodes (K.keeps text.now visitor.old) (K.keeps text.now visitor.new) text.now at) }
    ensures rises { IfOk result (λ end. at < end) }
    ensures within { IfOk result (λ end. end ≤ length text.now) }
    ensures fault { IfErr result (IsFaultInOpened (K.keeps text.now visitor.old) text.now at) }
    ensures long { OnOk result (AreKeptLengths text.now long.new.items) }
{
    let start = skip_white_space(text, at);
    let own = OwnNodes {
        first: start,
        last: start,
        count: 0,
        segment: Segment { start, end: start },
    };
    let mut read = NodesRead { own, end: start };
    'nodes: while stands_at(text, read.end, b';') {
        read = read_node(text, read, visitor, long)?;
    }
    if read.own.count == 0 {
        return Err(ReadFault::NotSgf { at: read.end });
    }
    visitor.own_nodes(read.own)?;
    Ok(read.end)
}

/// Reads the node whose `;` stands where `before` ends: Node = `;` { Property }.
// A shortcut reads nearly all nodes, and perhaps the node after this one, too.
#[inline(always)]
fn read_node<K: Visitor>(
    text: &[u8],
    before: NodesRead,
    visitor: &mut K,
    long: &mut Vec<LongValue>,
) -> Result<NodesRead, ReadFault>
    requires begins { BeginsNode (K.keeps text.now visitor.old) text.now before }
    requires long { AreKeptLengths text.now long.old.items }
    ensures read { IfOk result (AreNodesRead (K.keeps text.now visitor.old) (K.keeps text.now visitor.new) text.now before) }
    ensures fault { IfErr result (IsFaultInNodes (K.keeps text.now visitor.old) text.now before) }
    ensures long { OnOk result (AreKeptLengths text.now long.new.items) }
{
    if let Some(read) = near_nodes(text, before, visitor)? {
        return Ok(read);
    }
    let own = take_node(before.own, before.end, before.end + 1, visitor)?;
    let properties = read_properties(text, own.segment, visitor, long)?;
    let PartRead { segment, end } = properties;
    let own = OwnNodes { segment, ..own };
    Ok(NodesRead { own, end })
}
