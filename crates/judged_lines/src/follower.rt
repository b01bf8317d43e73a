//! Going over the lines of play of a collection, and judging each.

ghost use Rattle.std.specs.Prelude.{◌≡◌, ◌<◌, ◌-◌, length, IfOk};
ghost use Rattle.judged_lines.specs.Plays.{all_judged_places};
ghost use Rattle.tree_lines.specs.Following.{path_before};

use crate::judging::judged::Judged;
use crate::over_lines::{Before, LineKeeper, OverLines};
use crate::verdict::Verdict;
use sgf_tree::{MemoryFault, Outline};
use std::alloc::Global;
use std::marker::Model;
use tree_lines::{Cursor, Front, LineRef, SequenceCursor, line_with, write_path};

/// Keeps the judgement on a line, and the numbers of its nodes.
#[derive(Drop)]
struct JudgedLine {
    judged: Judged<()>,
    path: Vec<usize>,
}

impl LineKeeper for JudgedLine {
    ghost holds = { λ kept cursor. ⟦<Judged<()> as LineKeeper>⟧.holds kept.judged cursor × (kept.path.items ≡ path_before cursor.at) };

    ghost played = { λ kept. kept.judged.judge.plays };

    ghost counts = { λ count. count };

    fn follow(&mut self, cursor: &SequenceCursor<'_, '_>, held: Front) -> Result<(), MemoryFault> {
        let room = cursor.len().saturating_sub(self.path.len());
        self.path.reserve(room)?;
        write_path(cursor, held, &mut self.path);
        self.judged.follow(cursor, held)
    }

    fn plays(&self) -> u64 {
        self.judged.plays()
    }
}

/// A follower goes over lines in file order, all or those after a cursor, and judges each. Nodes that a line shares with the line before it
/// are not played again. Contracts see it as the collection, the index (from 0) of its next line, and its streak: how many lines directly
/// before that one it has judged, since it began or since memory was last refused.
#[derive(Drop)]
pub struct Follower<'c, 'a> {
    lines: OverLines<'c, 'a, JudgedLine>,
    /// How many lines it has judged, since it began or since memory was last refused.
    streak: u64,
}

impl<'c, 'a> Model for Follower<'c, 'a> {
    ghost use Rattle.judged_lines.specs.Follower.{FollowerState};
    ghost use Rattle.tree_lines.specs.Following.{path_before};
    ghost use Rattle.judged_lines.specs.inner.Followers.{follower_state_code, state_by, Follows};

    ghost Value = { FollowerState };

    ghost coded = { follower_state_code };

    ghost view = { λ f. state_by f.lines.before f.lines.cursor.at f.streak };

    ghost invariant = { λ f. Follows f.lines.before f.lines.cursor.at (⟦<JudgedLine as LineKeeper>⟧.holds f.lines.keeper f.lines.cursor) f.lines.keeper.judged.judge.plays f.streak };
}

impl<'c, 'a> Follower<'c, 'a> {
    ghost use Rattle.tree_lines.specs.Cursor.{IsLine};
    ghost use Rattle.judged_lines.specs.Follower.{GivesVerdict, LeavesFollower, lines_judged};

    /// A follower of all lines. (A `Collection` lends its outline.) This takes no memory.
    pub fn new(alloc: Global, outline: &'c Outline<'a>) -> Follower<'c, 'a>
        ensures { result ≡ record { games = outline.now; index = 0; streak = 0 } }
    {
        Follower::after(alloc, Cursor::new(alloc, outline))
    }

    /// A follower of the lines after a cursor. This takes no memory.
    pub fn after(alloc: Global, cursor: Cursor<'c, 'a>) -> Follower<'c, 'a>
        ensures { result ≡ record { games = cursor.entry.games; index = cursor.entry.index; streak = 0 } }
    {
        let (cursor, path) = cursor.into_parts();
        let judged = Judged::new(alloc, ());
        let lines = OverLines {
            cursor,
            before: Before::Unheld,
            keeper: JudgedLine { judged, path },
        };
        Follower { lines, streak: 0 }
    }

    /// Goes on by one line, and returns its verdict, the same as `judge` returns. After the last line it returns None, however
    /// often it is called. `MemoryFault` comes only if memory was refused; then the same line is next, and no line is shown.
    pub fn next(&mut self) -> Result<Option<Verdict>, MemoryFault>
        ensures verdict { IfOk result (GivesVerdict self.old) }
        ensures left { LeavesFollower self.old self.new result }
    {
        // There are no more lines than nodes, and no more nodes than bytes.
        let _nodes = self.lines.cursor.outline().nodes();
        match self.lines.next() {
            Ok(true) => {
                self.streak += 1;
                Ok(Some(self.lines.keeper.judged.verdict))
            }
            Ok(false) => Ok(None),
            Err(MemoryFault) => {
                self.streak = 0;
                self.lines.keeper.judged.judge.count_anew();
                Err(MemoryFault)
            }
        }
    }

    /// The line whose verdict `next` returned last. There must be such a verdict, and memory mustn't have been refused since then.
    pub fn line(&self) -> LineRef<'_>
        requires { 0 < self.now.streak }
        ensures { IsLine self.now.games (self.now.index - 1) result }
    {
        line_with(&self.lines.cursor, &self.lines.keeper.path)
    }

    /// The number of nodes that were played for the lines of the streak: each node that is judged on at least one of them, once. That
    /// is at most as many as these lines touch (`laws::touched` of `sgf_lines`).
    pub fn plays(&self) -> u64
        ensures { result ≡ length (all_judged_places (lines_judged self.now)) }
    {
        self.lines.keeper.plays()
    }
}
