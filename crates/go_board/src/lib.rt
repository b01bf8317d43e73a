//! A game of Go by the Tromp-Taylor rules: a referee, who takes the turns of a game and undoes them.
//!
//! A `Referee` is seen as the list of the states that a game went through. An accepted setup or turn adds the state that the rules give. A
//! refusal changes nothing, and undo takes the newest state back. A stone that would repeat a colouring made since the last setup of stones
//! is refused (positional superko). A `Past` holds the colourings for this check; in a run it is a `PrintPast`.
//!
//! ```text
//! let mut referee = Referee::<PrintPast>::new(alloc, size)?;
//! referee.turn(Colour::Black, Play::Stone(Point { col: 3, row: 3 }))?;
//! let (black, white) = referee.score();
//! referee.undo();
//! ```
//!
//! A crate for each part stands below this one, and its types and laws are passed on from here:
//!
//! | Crate | What it has | Passed on |
//! |---|---|---|
//! | `board_points` | points, and sets of points as rows of bits | `Size`, `Point`, `Rect`, `Marks`, `point`, `rect`, `vertex`, `laws::listing`, `laws::naming` |
//! | `board_stones` | the board: stones, captures, the area score | `Board`, `Cell`, `Colour`, `SetupOp`, `Steps`, and laws |
//! | `board_past` | the colourings that a game has been through, and whether a stone repeats one | `Past`, `PrintPast`, `ListPast`, `MemoryFault` |
//!
//! A turn begins with a short way that most stones take (`Past::play_at_once`). Without it `Referee::turn_in_full` would take every turn.
//!
//! | Module | What it has |
//! |---|---|
//! | `reason`, `fault` | why a turn, or a node, is illegal; the errors |
//! | `referee` | the referee and undo; below it `plays`, `setup` and `turn` |
//! | `laws` | what follows from the definitions |
//!
//! | Rule (docs/RULES.md) | Function, and its module |
//! |---|---|
//! | reaching, capture and suicide, the area score, the colouring that a setup makes | the table of `board_stones` |
//! | `repeat` (positional superko) | the table of `board_past` |
//! | taking a turn; the reasons `over`, `turn` and `occupied`, in this order | `Referee::turn_in_full`, `Referee::reason_before_repeat` (`referee/turn`); the short way of `Referee::turn` is `Referee::play_at_once` |
//! | a pass; two passes in a row (consecutive ones) end the game | `Referee::play_pass` (`referee/turn`); `Mover::may_play`, `Referee::over` (`referee`) |
//! | how a game begins | `Referee::new`, `Referee::reset` (`referee`) |
//! | PL in a setup with stones, and passes after it; PL alone | `Referee::setup` (`referee/setup`) |
//! | a node that changes nothing | `Referee::stay` (`referee`) |
//! | undo; whether the newest call, or each call since some depth, left the board as it was | `Referee::undo`; `Referee::newest_left_board`, `Referee::left_board_since` (`referee`) |
//!
//! A referee takes memory in `new`, `setup`, `turn` and `stay`, and in `reset` only if its past can't begin anew in place. Worked
//! examples are in the crate `go_board_tests`.
#![tactic(auto)]

mod fault;
pub mod laws;
mod reason;
mod referee;

pub use board_past::{ListPast, MemoryFault, Past, PrintPast};
pub use board_points::{
    MAX_POINTS, MAX_SIDE, MAX_VERTEX_SIDE, Marks, Point, Rect, Size, Vertex, point, rect, vertex,
};
pub use board_stones::{Board, Cell, Colour, SetupOp, Steps};
pub use fault::TurnFault;
pub use reason::Reason;
pub use referee::{Play, Referee};
