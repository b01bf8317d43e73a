//! Turns, as plain data.

use board_points::Point;

/// A player's turn.
#[derive(Clone, Copy, Debug, PartialEq, Eq)]
pub enum Play {
    /// No stone is played.
    Pass,
    /// A stone is played on this point.
    Stone(Point),
}
