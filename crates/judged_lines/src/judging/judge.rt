//! A judge goes along the nodes of a line, and back to the last node that the next line shares. It keeps the score of a board of its line
//! once it was asked for. Many lines may end on one board, as lines that differ in a pass or an empty node do. It is worked out once.

ghost use Rattle.std.specs.Prelude.{◌≡◌, ◌+◌, ◌<◌, IsFalse, IsTrue, OnOk, OnErr, IfOk, Some, option_copied};
ghost use Rattle.sgf_outline.specs.Tree.{Node};
ghost use Rattle.go_board.specs.State.{begun};
ghost use Rattle.judged_lines.specs.JudgedGames.{game_kind};
ghost use Rattle.judged_lines.specs.inner.Gathered.{ComesAs};

use crate::judging::root::board_size;
use crate::judging::step::{LegalStep, place_of, take_step};
use crate::verdict::Verdict;
use go_board::{Board, PrintPast, Referee, SetupOp, Size, TurnFault};
use sgf_tree::{MemoryFault, NextNode, NodeRef, SequenceNodes};
use std::alloc::Global;
use std::marker::Model;

/// Judges a line node after node, with one game. It is seen as the judgement on the line, and the number of nodes that were played.
#[derive(Drop)]
pub(crate) struct Judge {
    /// None if the game isn't judged. Each node that is legal adds one state.
    game: Option<Referee<PrintPast>>,

    /// The area scores of Black and of White on the board after the first `scored` nodes; None if they aren't known. A node that is taken
    /// need not look at them: a verdict asks whether the board is still the same, and so does the way back to fewer nodes.
    score: Option<(u32, u32)>,
    scored: usize,

    /// A buffer for what a node sets up.
    operations: Vec<SetupOp>,

    /// The verdict, if it is known already: the game isn't judged, or a node is illegal.
    ended: Option<Verdict>,

    plays: u64,
}

impl Model for Judge {
    ghost use Rattle.judged_lines.specs.inner.Judging.{Judging, IsScoreOn, judgement_of};

    ghost Value = { Judging };

    ghost view = { λ j. record { judgement = judgement_of j.ended j.game; plays = j.plays } };

    ghost invariant = { λ j. IsScoreOn j.game j.scored j.score };
}

impl Judge {
    ghost use Rattle.judged_lines.specs.declared.verdict.Verdict.TheVariants.{NotGo};
    ghost use Rattle.judged_lines.specs.Judgement.{unjudged, begun_game, after, board_in};
    ghost use Rattle.judged_lines.specs.inner.Judging.{IsDecided, IsUndecided, IsStepFrom, back, verdict_in};

    /// A judge before the first game.
    pub(crate) fn new(alloc: Global) -> Judge
        ensures { result ≡ record { judgement = unjudged NotGo; plays = 0 } }
    {
        Judge {
            game: None,
            score: None,
            scored: 0,
            operations: Vec::new(alloc),
            ended: None,
            plays: 0,
        }
    }

    /// Begins the game of a root. The root isn't taken yet. After a refusal of memory nothing is changed.
    pub(crate) fn begin(&mut self, root: &NodeRef<'_, '_>) -> Result<(), MemoryFault>
        ensures begun { OnOk result (self.new.judgement ≡ begun_game (game_kind root.now.properties)) }
        ensures plays { self.new.plays ≡ self.old.plays }
        ensures unchanged { OnErr result (self.new ≡ self.old) }
    {
        let size = match board_size(root) {
            Ok(size) => size,
            Err(verdict) => {
                self.game = None;
                self.ended = Some(verdict);
                return Ok(());
            }
        };
        match &mut self.game {
            // it begins anew in place
            Some(game) => game.reset(size).or(Err(MemoryFault))?,
            None => put_game(*self.operations.allocator(), size, &mut self.game)?,
        }
        self.score = None;
        self.ended = None;
        Ok(())
    }

    /// Takes one more node, and returns its step. `next` and `nodes` are as for `take_step`. None if the node is illegal: the verdict is
    /// known then. After a refusal of memory nothing is changed.
    #[inline(always)]
    pub(crate) fn take<'a>(
        &mut self,
        next: NextNode<'a>,
        nodes: &mut SequenceNodes<'_, 'a>,
    ) -> Result<Option<LegalStep<'a>>, MemoryFault>
        requires undecided { IsUndecided self.old.judgement }
        requires countable { self.old.plays < u64.MAX }
        ensures judged { (node : Node) → ComesAs node nodes.old.properties next.entry
            → OnOk result (self.new.judgement ≡ after self.old.judgement node) }
        ensures plays { OnOk result (self.new.plays ≡ self.old.plays + 1) }
        ensures step { (node : Node) → ComesAs node nodes.old.properties next.entry → IfOk result (IsStepFrom self.old.judgement node) }
        ensures unchanged { OnErr result (self.new ≡ self.old) }
        ensures left { nodes.new.nodes ≡ nodes.old.nodes }
    {
        let Some(game) = &mut self.game else {
            unreachable!()
        };
        match take_step(game, next, nodes, &mut self.operations) {
            Ok(step) => {
                self.plays += 1;
                Ok(Some(step))
            }
            Err(TurnFault::Illegal(reason)) => {
                self.plays += 1;
                let turn = game.turns() + 1;
                let place = place_of(&next) as u64;
                self.ended = Some(Verdict::Illegal {
                    turn,
                    place,
                    reason,
                });
                Ok(None)
            }
            Err(TurnFault::Memory) => Err(MemoryFault),
        }
    }

    /// Whether the verdict is known already, whatever nodes come.
    #[inline(always)]
    pub(crate) fn is_decided(&self) -> bool
        ensures decided { IsTrue result → IsDecided self.now.judgement }
        ensures undecided { IsFalse result → IsUndecided self.now.judgement }
    {
        self.game.is_none() || self.ended.is_some()
    }

    /// Goes back to the first `count` nodes. If one of these was illegal, nothing changes.
    #[inline(always)]
    pub(crate) fn cut_back(&mut self, count: usize)
        ensures judged { self.new.judgement ≡ back count self.old.judgement }
        ensures plays { self.new.plays ≡ self.old.plays }
    {
        if let Some(game) = &mut self.game {
            if count <= game.depth() {
                self.ended = None;
                // The score stays if the board did. Usually the newest node changed it.
                if self.score.is_some()
                    && count < self.scored
                    && !(game.newest_left_board() && game.left_board_since(count))
                {
                    self.score = None;
                }
                self.scored = self.scored.min(count);
                'undo: while count < game.depth() {
                    game.undo();
                }
            }
        }
    }

    /// The verdict of the line. `NotGo` before the first game. The area scores are kept for the next call.
    pub(crate) fn verdict(&mut self) -> Verdict
        ensures told { result ≡ verdict_in self.old.judgement }
        ensures unchanged { self.new ≡ self.old }
    {
        match (self.ended, &self.game) {
            (Some(verdict), _) => verdict,
            (None, Some(game)) => {
                let areas = match self.score {
                    Some(known) if game.left_board_since(self.scored) => known,
                    _ => game.board().score(),
                };
                self.score = Some(areas);
                self.scored = game.depth();
                Verdict::Score {
                    black: areas.0,
                    white: areas.1,
                    over: game.over(),
                }
            }
            (None, None) => Verdict::NotGo,
        }
    }

    /// The present board; None if the game isn't judged.
    pub(crate) fn board(&self) -> Option<&Board>
        ensures { option_copied result ≡ board_in self.now.judgement }
    {
        Some(self.game.as_ref()?.board())
    }

    /// Sets the number of nodes that were played to 0.
    pub(crate) fn count_anew(&mut self)
        ensures judged { self.new.judgement ≡ self.old.judgement }
        ensures plays { self.new.plays ≡ 0 }
    {
        self.plays = 0;
    }

    /// The number of nodes that were played.
    pub(crate) fn plays(&self) -> u64
        ensures { result ≡ self.now.plays }
    {
        self.plays
    }
}

/// Puts the referee of a game on a board of that size into `slot`. After a refusal of memory `slot` is unchanged.
// Not inlined: whole boards stand on its stack, and each call of `begin` would set room for them to zeros.
#[inline(never)]
fn put_game(
    alloc: Global,
    size: Size,
    slot: &mut Option<Referee<PrintPast>>,
) -> Result<(), MemoryFault>
    ensures ok { OnOk result (slot.new ≡ Some (begun size)) }
    ensures err { OnErr result (slot.new ≡ slot.old) }
{
    // No `From` can be implemented here between the faults of two other crates.
    let Ok(game) = Referee::new(alloc, size) else {
        return Err(MemoryFault);
    };
    *slot = Some(game);
    Ok(())
}
