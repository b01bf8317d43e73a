//! Judging line after line, each from the first node that it doesn't share with the line before it.

ghost use Rattle.std.specs.Prelude.{◌≡◌, ◌+◌, ◌<◌, ◌≤◌, ◌++◌, ◌∷◌, [], List, length, take, option_copied, IfOk, IsFalse, IsTrue, OnErr, OnOk};
ghost use Rattle.sgf_outline.specs.Tree.{Node};
ghost use Rattle.judged_lines.specs.JudgedGames.{GameKind};
ghost use Rattle.judged_lines.specs.Walk.{LegalNode};
ghost use Rattle.judged_lines.specs.inner.Judging.{IsDecided, IsUndecided};
ghost use Rattle.judged_lines.specs.Judgement.{IsLegalStep, begun_game, board_in};
ghost use Rattle.judged_lines.specs.Keeping.{HasJudged, HoldsVerdict};
ghost use Rattle.judged_lines.specs.inner.Keeping.{WentOn, plays_for};

use crate::judging::contents::NEEDED_NAMES;
use crate::judging::judge::Judge;
use crate::judging::step::LegalStep;
use crate::over_lines::LineKeeper;
use crate::verdict::Verdict;
use go_board::Board;
use sgf_tree::{MemoryFault, SequenceNodes};
use std::alloc::Global;
use tree_lines::{Front, SequenceCursor};

/// Is told each step that is taken on a line. Most forms need no step: their keeper is `()`, which ignores them.
pub trait StepKeeper: Drop {
    // It was told that these nodes were legal, in a game of this kind.
    ghost tells: { Self → GameKind → List LegalNode → Type 0 };

    /// Keeps what it was told of the first `held` nodes. If `held` is 0, begins a line whose game is judged on this board; None if the
    /// game isn't judged.
    fn keep(&mut self, held: usize, board: Option<&Board>) -> Result<(), MemoryFault>
        requires { held < usize.MAX }
        ensures begun { held ≡ 0 → (kind : GameKind) → option_copied board.entry ≡ board_in (begun_game kind)
            → OnOk result (tells self.new kind []) }
        ensures kept { 0 < held → (kind : GameKind) (taken : List LegalNode) → tells self.old kind taken
            → OnOk result (tells self.new kind (take held taken)) };

    /// Takes the step of one more node; `board` is the board after it.
    fn say(&mut self, step: LegalStep<'_>, board: &Board) -> Result<(), MemoryFault>
        requires { (kind : GameKind) × (before : List LegalNode) × (taken : LegalNode) × tells self.old kind before
            × IsLegalStep kind board.now step taken }
        ensures { (kind : GameKind) (before : List LegalNode) (taken : LegalNode) → tells self.old kind before
            → IsLegalStep kind board.now step.entry taken → OnOk result (tells self.new kind (before ++ taken ∷ [])) };
}

impl StepKeeper for () {
    ghost tells = { λ _ _ _. Unit {0} };

    fn keep(&mut self, held: usize, board: Option<&Board>) -> Result<(), MemoryFault> {
        Ok(())
    }

    fn say(&mut self, step: LegalStep<'_>, board: &Board) -> Result<(), MemoryFault> {
        Ok(())
    }
}

/// Judges line after line. Of the last one it keeps the judgement and the verdict, and its keeper was told the steps.
#[derive(Drop)]
pub struct Judged<K> {
    pub(crate) judge: Judge,
    /// The verdict of the last line; `NotGo` before the first line.
    pub verdict: Verdict,
    /// It was told the steps.
    pub keeper: K,
}

impl<K: StepKeeper> Judged<K> {
    /// No line is judged yet, and the keeper was told nothing.
    pub fn new(alloc: Global, keeper: K) -> Judged<K>
        ensures { ⟦<Judged<K> as LineKeeper>⟧.played result ≡ 0 }
    {
        Judged {
            judge: Judge::new(alloc),
            verdict: Verdict::NotGo,
            keeper,
        }
    }
}

impl<K: StepKeeper> LineKeeper for Judged<K> {
    ghost holds = { λ kept cursor. HoldsVerdict (K.tells kept.keeper) kept.judge.judgement kept.verdict cursor };

    ghost played = { λ kept. kept.judge.plays };

    ghost counts = { λ count. count };

    // An illegal node has no step, so the keeper is told nothing of it and of the nodes after it.
    fn follow(&mut self, cursor: &SequenceCursor<'_, '_>, held: Front) -> Result<(), MemoryFault> {
        // The ends of the sequences rise to the number of nodes.
        let _nodes = cursor.len();
        let end = cursor.sequences();
        if held.nodes == 0 {
            self.judge.begin(&cursor.root())?;
        } else {
            self.judge.cut_back(held.nodes);
        }
        self.keeper.keep(held.nodes, self.judge.board())?;
        if !self.judge.is_decided() {
            for index in held.sequences..end {
                let all = judge_sequence(cursor.nodes(index), &mut self.judge, &mut self.keeper)?;
                if !all {
                    break;
                }
            }
        }
        self.verdict = self.judge.verdict();
        Ok(())
    }

    fn plays(&self) -> u64 {
        self.judge.plays()
    }
}

/// Judges the nodes of one more sequence of a line, and tells their steps, up to the first that isn't taken. Returns whether all were
/// taken. So nothing asks before each node whether the verdict is known.
#[inline(always)]
fn judge_sequence<K: StepKeeper>(
    mut nodes: SequenceNodes<'_, '_>,
    judge: &mut Judge,
    keeper: &mut K,
) -> Result<bool, MemoryFault>
    requires known { (kind : GameKind) × (before : List Node) × HasJudged (K.tells keeper.old) kind before judge.old.judgement }
    requires undecided { IsUndecided judge.old.judgement }
    requires countable { judge.old.plays + length nodes.nodes < u64.MAX }
    ensures judged { (kind : GameKind) (before : List Node) → HasJudged (K.tells keeper.old) kind before judge.old.judgement
        → OnOk result (WentOn (K.tells keeper.new) kind before nodes.entry.nodes judge.old.plays judge.new) }
    ensures decided { IfOk result (λ all. IsFalse all → IsDecided judge.new.judgement) }
    ensures undecided { IfOk result (λ all. IsTrue all → IsUndecided judge.new.judgement) }
    ensures refused { (kind : GameKind) (before : List Node) → HasJudged (K.tells keeper.old) kind before judge.old.judgement
        → OnErr result ((judge.old.plays ≤ judge.new.plays) × (judge.new.plays ≤ judge.old.plays + plays_for kind before nodes.entry.nodes)) }
{
    // The order matters for speed: what `next` says of the node then leads straight to its step.
    'steps: while !nodes.is_empty() {
        let next = nodes.next(&NEEDED_NAMES).unwrap();
        let Some(step) = judge.take(next, &mut nodes)? else {
            return Ok(false);
        };
        keeper.say(step, judge.board().unwrap())?;
    }
    Ok(true)
}
