//! What a reader tells the one who keeps a part of what is read.

ghost use Rattle.std.specs.Prelude.{◌≡◌, ◌<◌, ◌≤◌, ◌+◌, ℕ, List, Some, length, slice_range, OnOk};
ghost use Rattle.std.specs.List.{flat_map};
ghost use Rattle.sgf_outline.specs.Written.{node_text};
ghost use Rattle.sgf_outline.specs.Tree.{no_games};
ghost use Rattle.sgf_outline.specs.Machine.{UnclosedGame, Stack, after_game, close};
ghost use Rattle.sgf_outline.specs.Unclosed.{unclosed_count};
ghost use Rattle.sgf_outline.specs.OwnNodes.{Coming, nothing, with_place, with_text, coming_of, AreOwnNodes, IsCopied, own_of, with_game};

use crate::layout::{OwnNodes, Segment};
use crate::limit::MAX_LENGTH;
use sgf_properties::MemoryFault;

/// Keeps a part of what a reader reads: counts, sequences, or all places too. If memory is refused, nothing is known of what is kept.
pub trait Visitor: Drop {
    // What is kept is right for the games of a stack, and for what has come of a game that isn't on the stack yet.
    ghost keeps: { List ℕ → Self → Stack → Coming → Type 0 };

    /// A node of a game comes. `place` is the offset of its `;`.
    fn node(&mut self, place: usize) -> Result<(), MemoryFault>
        requires low { place < MAX_LENGTH }
        requires few { (text : List ℕ) × (k : Stack) × (coming : Coming) × (keeps text self.old k coming)
            × (unclosed_count k.closed k.unclosed + length coming.places ≤ place) }
        ensures kept { OnOk result ((text : List ℕ) (k : Stack) (coming : Coming) → keeps text self.old k coming
            → place < length text → keeps text self.new k (with_place coming place)) };

    /// A segment of the nodes ends, and others follow.
    fn segment(&mut self, segment: Segment) -> Result<(), MemoryFault>
        requires low { segment.end ≤ MAX_LENGTH }
        requires rises { segment.start ≤ segment.end }
        ensures kept { OnOk result ((text : List ℕ) (k : Stack) (coming : Coming) → keeps text self.old k coming
            → segment.end ≤ length text
            → keeps text self.new k (with_text coming (slice_range text segment.start segment.end))) };

    /// The own nodes of a game end. Their last segment hasn't come.
    fn own_nodes(&mut self, own: OwnNodes) -> Result<(), MemoryFault>
        requires low { own.segment.end ≤ MAX_LENGTH }
        requires few { (text : List ℕ) × (k : Stack) × (g : UnclosedGame) × (AreOwnNodes own (own_of g))
            × (IsCopied (λ told. keeps text self.old k (coming_of (own_of g) told)) text own.first own.segment (flat_map node_text (own_of g)))
            × (unclosed_count k.closed k.unclosed + own.count ≤ own.segment.end) }
        ensures kept { OnOk result ((text : List ℕ) (k : Stack) (g : UnclosedGame) → AreOwnNodes own (own_of g)
            → IsCopied (λ told. keeps text self.old k (coming_of (own_of g) told)) text own.first own.segment (flat_map node_text (own_of g))
            → g.below ≡ no_games → keeps text self.new (with_game k g) nothing) };

    /// The innermost unclosed game ends. `depth` games stay unclosed.
    fn game_ends(&mut self, depth: usize)
        requires few { (text : List ℕ) × (k : Stack) × (keeps text self.old k nothing) × (length k.unclosed ≡ depth + 1)
            × (unclosed_count k.closed k.unclosed ≤ MAX_LENGTH) }
        ensures kept { (text : List ℕ) (k next : Stack) → keeps text self.old k nothing → length k.unclosed ≡ depth + 1
            → close k ≡ Some (after_game next) → keeps text self.new next nothing };
}
