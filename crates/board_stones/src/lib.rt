//! What stands on the points of a board of the game of Go, and what the Tromp-Taylor rules do to it.
//!
//! A `Board` is a square of 1 to 52 points a side, with what stands on its points. (52 is the largest side whose points SGF FF[4]
//! can name.) Playing a stone clears the opponent's groups without a liberty, and then the player's own (suicide).
//!
//! Points, and sets of points as rows of bits, are the crate `board_points`. Which turns are legal is the crate `go_board`.
//!
//! The code outside `quick` plays by the rules and can be read by itself. `quick` has faster ways to the same answers, and may be skipped.
//! Three functions outside it begin with a test that only saves work: `Board::score`, which calls a shortcut on a small board,
//! `Board::has_unreaching` and `Board::shut_stones`.
//!
//! | Module | What it has |
//! |---|---|
//! | `stones` | players and what stands on a point |
//! | `setup_op` | one operation of a setup: an area, and what its points become |
//! | `steps` | a count of work |
//! | `board` | the board: reading, setting, moves, score |
//! | `board/flood` | the flood that counts its steps |
//! | `board/regions` | sets of points by what stands on them; filling these shows the score and who reaches empty |
//! | `board/rectangles` | colouring the rectangles of a setup, and emptying sets of points |
//! | `laws` | what follows from the definitions |
//! | `quick` | shortcuts |
//!
//! | Rule (docs/RULES.md) | Function, and its module |
//! |---|---|
//! | reaching a colour | `fill` of `board_points` (`fill`), which clearing and the score use. `Board::reaching` (`board/flood`) goes point by point, and only the tests call it here |
//! | clearing a colour, which captures its groups without a liberty | `Board::clear` (`board`); which stones have none: `Board::shut_stones` (`board/regions`) |
//! | a stone: capture, then suicide | in a run `Board::clears_nothing_at_a_glance`, else `Board::find_cleared`, by `fill_if_shut` and `add_to_either` of `board_points` (`quick/group`); then `Board::place_and_clear` (`quick/capture`). The plain way is `Board::place` (`board`), which a run takes only after a setup that leaves a stone without a liberty |
//! | the area score; an empty point that reaches both colours or neither counts for nobody | `Board::score` (`board`), by `area_of` (`board/regions`), and `count_apart` of `board_points` (`rows`); shortcut below side 32: `Board::score_in_halves` (`quick`), by `count_halves` of `board_points` (`quick/halves`) |
//! | the colouring that a setup makes (AB, AW, AE), whatever stood there | `Board::colour_rectangles` (`board/rectangles`) |
//!
//! A point *reaches* a colour if a path of adjacent points of the point's own colour leads
//! from it to a point of that colour. A stone that reaches empty is *alive*: its group has a liberty.
//!
//! Nothing here takes memory but `Board::reaching`, whose marks are part of its result. Worked examples are in the crate `go_board_tests`.
#![tactic(auto)]

mod board;
pub mod laws;
mod quick;
mod setup_op;
mod steps;
mod stones;

pub use board::Board;
pub use setup_op::SetupOp;
pub use steps::Steps;
pub use stones::{Cell, Colour};
