//! Going over the lines after a cursor, and what is kept from line to line. A run and a `Follower` both do it by `OverLines::next`.
//! `StandsBy` says what is held of the line before the cursor. It holds after each `next`, even after a refusal.

ghost use Rattle.std.specs.Prelude.{◌≡◌, ◌≢◌, ◌+◌, ◌<◌, ℕ, None, length, slice_get, IfOk, OnErr, OnOk, MatchBool};
ghost use Rattle.sgf_outline.specs.Tree.{node_count};
ghost use Rattle.tree_lines.specs.Lines.{lines};
ghost use Rattle.tree_lines.specs.Cursor.{advanced};
ghost use Rattle.tree_lines.specs.Following.{nodes_before};
ghost use Rattle.judged_lines.specs.GoingOn.{Unheld, Held, HasFront, IsHeldOf, PlaysLine, StandsBy, next_by};
ghost use Rattle.judged_lines.specs.Keeping.{PlaysUpTo, fresh_plays};
ghost use Rattle.tree_lines.specs.Sequences.{SequencesState, RiseTo};

use sgf_tree::MemoryFault;
use tree_lines::{Front, NO_FRONT, SequenceCursor};

/// Is shown line after line, and keeps of each what the next line shares.
pub trait LineKeeper: Drop {
    // What is kept is that of the line before a cursor.
    ghost holds: { Self → SequencesState → Type 0 };

    // The number of nodes that were played.
    ghost played: { Self → ℕ };

    // How many nodes are played if so many more nodes are judged.
    ghost counts: { ℕ → ℕ };

    /// Keeps the line before the cursor. What is kept of this front of the line is there already. After a refusal of memory
    /// nothing is known of what is kept.
    fn follow(&mut self, cursor: &SequenceCursor<'_, '_>, held: Front) -> Result<(), MemoryFault>
        requires divided { RiseTo 0 cursor.now.ends (length (nodes_before cursor.now.at)) }
        requires front { HasFront cursor.now.ends held }
        requires held { IsHeldOf (holds self.old) cursor.now held }
        requires countable { played self.old + length (nodes_before cursor.now.at) < u64.MAX }
        ensures holds { OnOk result (holds self.new cursor.now) }
        ensures plays { PlaysUpTo (played self.old) (played self.new) (counts (fresh_plays (nodes_before cursor.now.at) held.nodes)) result };

    /// The number of nodes that were played.
    fn plays(&self) -> u64
        ensures { result ≡ played self.now };
}

/// What is known of the line before a cursor.
#[derive(Clone, Copy)]
pub enum Before {
    /// Nothing of that line is held, or there is no such line.
    Unheld,
    /// What is kept from line to line is held for all nodes of that line.
    Held,
    /// Memory was refused while that line was followed, so that line comes again as the next one.
    Refused,
}

/// Goes over the lines after a cursor, in file order, and shows each to its keeper.
#[derive(Drop)]
pub struct OverLines<'c, 'a, K> {
    /// It stands after the line that was shown last.
    pub cursor: SequenceCursor<'c, 'a>,
    /// What is known of that line.
    pub before: Before,
    /// It was shown that line.
    pub keeper: K,
}

impl<'c, 'a, K: LineKeeper> OverLines<'c, 'a, K> {
    /// Goes on by one line, and shows it to the keeper; false if no line is left. After a refusal of memory the same line is next,
    /// and nothing of it is held.
    pub fn next(&mut self) -> Result<bool, MemoryFault>
        requires stands { StandsBy self.old.before (nodes_before self.old.cursor.at) (K.holds self.old.keeper self.old.cursor) }
        requires countable { K.played self.old.keeper + node_count self.old.cursor.at.games < u64.MAX }
        ensures moved { IfOk result (λ found. MatchBool found
            ((self.new.before ≡ Held) × (self.new.cursor.at ≡ advanced (next_by self.old.before self.old.cursor.at)))
            ((self.new ≡ self.old) × (slice_get (lines self.old.cursor.at.games) (next_by self.old.before self.old.cursor.at).index ≡ None))) }
        ensures refused { OnErr result ((self.new.before ≢ Held)
            × (next_by self.new.before self.new.cursor.at ≡ next_by self.old.before self.old.cursor.at)) }
        ensures stands { StandsBy self.new.before (nodes_before self.new.cursor.at) (K.holds self.new.keeper self.new.cursor) }
        ensures plays { PlaysLine K.counts self.old.before self.old.cursor.at (K.played self.old.keeper) (K.played self.new.keeper) result }
    {
        // What is held already of the next line. If that line was refused, the cursor stands after it.
        let held = if let Before::Refused = self.before {
            NO_FRONT
        } else {
            let Ok(shared) = self.cursor.advance() else {
                self.before = Before::Unheld;
                return Err(MemoryFault);
            };
            let Some(shared) = shared else {
                return Ok(false);
            };
            match self.before {
                Before::Held => shared,
                _ => NO_FRONT,
            }
        };
        // The ends of the sequences rise to the number of nodes.
        let _sequences = self.cursor.sequences();
        let _nodes = self.cursor.len();
        self.before = Before::Refused;
        self.keeper.follow(&self.cursor, held)?;
        self.before = Before::Held;
        Ok(true)
    }
}
