//! What the words of the contracts mean. Each function here does nothing: its contract is a law, and is proved.

ghost use Rattle.std.specs.Prelude.{◌≡◌, ◌≢◌, ◌↔◌, ◌∷◌, List, Option, Some, None};
ghost use Rattle.board_stones.specs.declared.stones.Cell.TheVariants.{Empty};
ghost use Rattle.board_stones.specs.declared.stones.Colour.{Colour};
ghost use Rattle.board_points.specs.declared.points.Point.{Point};
ghost use Rattle.go_board.specs.declared.reason.Reason.{Reason};
ghost use Rattle.go_board.specs.declared.reason.Reason.TheVariants.{Repeat};
ghost use Rattle.go_board.specs.declared.referee.plays.Play.{Play};
ghost use Rattle.go_board.specs.declared.referee.plays.Play.TheVariants.{Stone};
ghost use Rattle.board_stones.specs.declared.setup_op.SetupOp.{SetupOp};
ghost use Rattle.board_stones.specs.Grid.{Grid, cell_at};
ghost use Rattle.board_stones.specs.Clearing.{play};
ghost use Rattle.go_board.specs.State.{State, set_up, turned};
ghost use Rattle.go_board.specs.Reason.{Forbids, IsFirstReason, reason_of};
ghost use Rattle.board_past.specs.Past.{WasEmptied};

pub use board_stones::laws::{
    areas, clearing, colouring, listing, moving, naming, reaching, scoring, setting, unreaching,
};

/// `reason_of` returns exactly the first reason, in the order of checking, that holds of a turn, and none exactly if none holds.
pub fn reasons()
    ensures first { (state : State) (colour : Colour) (turn : Play) (reason : Reason)
        → ((reason_of state colour turn ≡ Some reason) ↔ IsFirstReason state colour turn reason) }
    ensures none { (state : State) (colour : Colour) (turn : Play)
        → ((reason_of state colour turn ≡ None) ↔ ((reason : Reason) → ¬ Forbids state colour turn reason)) }
{}

/// A stone that stays on its point can repeat a colouring of the present stretch only if that point was emptied in the stretch.
pub fn repeating()
    ensures { (state : State) (others : List Grid) (colour : Colour) (point : Point)
        → state.seen ≡ state.colouring ∷ others → cell_at state.colouring point ≡ Empty
        → cell_at (play state.colouring colour point) point ≢ Empty
        → Forbids state colour (Stone point) Repeat → WasEmptied point state.seen }
{}

/// Setups and turns don't change the side of the board.
pub fn sides()
    ensures setup { (state : State) (ops : List SetupOp) (player : Option Colour)
        → (set_up state ops player).colouring.side ≡ state.colouring.side }
    ensures turn { (state : State) (colour : Colour) (turn : Play) → (turned state colour turn).colouring.side ≡ state.colouring.side }
{}
