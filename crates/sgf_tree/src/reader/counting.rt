//! Counting games, nodes and leaves.

ghost use Rattle.sgf_tree.specs.inner.Counting.{IsTallyOf};

use crate::extent::Extent;
use sgf_outline::{OwnNodes, Segment, Visitor};
use sgf_properties::MemoryFault;

/// What was counted so far.
#[derive(Clone, Copy, Drop)]
pub(crate) struct Tally {
    /// All nodes are counted, but only the games that have ended, and their leaves.
    pub extent: Extent,
    /// Whether a game is unclosed and no game is below the innermost unclosed one.
    pub is_bare: bool,
}

impl Visitor for Tally {
    ghost keeps = { λ _ tally stack _. IsTallyOf stack tally };

    fn node(&mut self, _place: usize) -> Result<(), MemoryFault> {
        Ok(())
    }

    fn segment(&mut self, _segment: Segment) -> Result<(), MemoryFault> {
        Ok(())
    }

    fn own_nodes(&mut self, own: OwnNodes) -> Result<(), MemoryFault> {
        self.extent.nodes += own.count;
        self.is_bare = true;
        Ok(())
    }

    fn game_ends(&mut self, depth: usize) {
        self.extent.games += usize::from(depth == 0);
        self.extent.leaves += usize::from(self.is_bare);
        self.is_bare = false;
    }
}
