//! Putting together what is known of the own nodes of a game, one by one.

ghost use Rattle.std.specs.Prelude.{◌≡◌, ◌<◌, ◌≤◌, ◌+◌, ℕ, List, length, slice_range, IfOk};
ghost use Rattle.sgf_outline.specs.Machine.{Stack};
ghost use Rattle.sgf_outline.specs.Unclosed.{unclosed_count};
ghost use Rattle.sgf_outline.specs.OwnNodes.{Coming, CopiesNode, MayGoOn};

use sgf_outline::{OwnNodes, Visitor};
use sgf_properties::MemoryFault;

/// The own nodes of a game, as far as they were read.
#[derive(Clone, Copy)]
pub(crate) struct NodesRead {
    pub own: OwnNodes,
    /// The offset after the white space that follows them.
    pub end: usize,
}

/// Adds a node to the own nodes of a game, and tells `visitor` of it. The text of the node up to `end` is copied in one piece.
#[inline(always)]
pub(crate) fn take_node<K: Visitor>(
    own: OwnNodes,
    place: usize,
    end: usize,
    visitor: &mut K,
) -> Result<OwnNodes, MemoryFault>
    requires segment { MayGoOn own.segment place end }
    requires some { place < end }
    requires few { (text : List ℕ) × (k : Stack) × (coming : Coming) × (K.keeps text visitor.old k coming)
        × (unclosed_count k.closed k.unclosed + length coming.places ≤ place) × (own.count ≡ length coming.places) }
    ensures taken { IfOk result (λ next. next ≡ record { first = own.first; last = place; count = own.count + 1; segment = next.segment }) }
    ensures rises { IfOk result (λ next. next.segment.start ≤ next.segment.end) }
    ensures end { IfOk result (λ next. next.segment.end ≡ end) }
    ensures copied { IfOk result (λ next. (text : List ℕ) → end ≤ length text
        → CopiesNode (K.keeps text visitor.old) (K.keeps text visitor.new) text place own.segment next.segment (slice_range text place end)) }
{
    visitor.node(place)?;
    let segment = own.segment.then(place, end, visitor)?;
    Ok(OwnNodes {
        last: place,
        count: own.count + 1,
        segment,
        ..own
    })
}
