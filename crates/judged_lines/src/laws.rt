//! Laws of the definitions. A function here does nothing: its contract is a law, and is proved.

ghost use Rattle.std.specs.Prelude.{◌≡◌, ◌∷◌, ◌++◌, ◌+◌, ◌⊎◌, ℕ, Err, List};
ghost use Rattle.sgf_outline.specs.Tree.{Node};
ghost use Rattle.judged_lines.specs.JudgedGames.{board};
ghost use Rattle.go_board.specs.declared.reason.Reason.{Reason};
ghost use Rattle.go_board.specs.State.{State, starting};
ghost use Rattle.judged_lines.specs.Step.{step};
ghost use Rattle.judged_lines.specs.Verdict.{Illegal, score_in, verdict_by};
ghost use Rattle.judged_lines.specs.Walk.{IsAfter, HasIllegal};

pub use tree_lines::laws::named;

/// The verdict of a line on a board of a given side, from the state in which a game begins. If each node's step is
/// taken, the verdict is the score of the state after all of them. Otherwise it names the first node whose step is
/// refused in the state after the nodes before that node. The verdict then has that node's place, its reason, and the
/// number of turns made before the node, plus 1. Every list of nodes is of exactly one of these two kinds.
pub fn judged()
    ensures scored { (side : ℕ) (nodes : List Node) (state : State) → IsAfter (starting side) nodes state
        → verdict_by (board side) nodes ≡ score_in state }
    ensures illegal { (side : ℕ) (before after : List Node) (node : Node) (state : State) (reason : Reason)
        → IsAfter (starting side) before state → step state node ≡ Err reason
        → verdict_by (board side) (before ++ node ∷ after) ≡ Illegal (state.turns + 1) node.place reason }
    ensures one_of_two { (side : ℕ) (nodes : List Node)
        → ((state : State) × IsAfter (starting side) nodes state) ⊎ HasIllegal (starting side) nodes }
{}
