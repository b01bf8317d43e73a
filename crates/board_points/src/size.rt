//! The side of a board.

ghost use Rattle.std.specs.Prelude.{◌≡◌, ◌<◌, ◌≤◌, ◌*◌, ◌↔◌, IsSome, IfSome, ℕ};
ghost use Rattle.board_points.specs.declared.size.TheConstants.{MAX_SIDE};

use std::marker::Model;

/// The greatest side of a board: SGF FF[4] has letters for 52 columns and rows.
pub const MAX_SIDE: u8 = 52;

/// The number of rows of the largest board.
pub const MAX_ROWS: usize = MAX_SIDE as usize;

/// The number of points of the largest board.
pub const MAX_POINTS: usize = MAX_ROWS * MAX_ROWS;

/// The side of a square board, in points: 1 to `MAX_SIDE`.
#[derive(Clone, Copy, Debug, PartialEq, Eq)]
pub struct Size {
    side: u8,
}

impl Model for Size {
    ghost Value = { ℕ };

    ghost view = { λ s. s.side };

    ghost invariant = { λ s. (1 ≤ s.side) × (s.side ≤ MAX_SIDE) };

    ghost inverse = { λ side. record { side = side } };
}

impl Size {
    /// The size with this side; None unless the side is from 1 to `MAX_SIDE`.
    pub fn new(n: u8) -> Option<Size>
        ensures exists { IsSome result ↔ ((1 ≤ n) × (n ≤ MAX_SIDE)) }
        ensures value { IfSome result (λ size. size ≡ n) }
    {
        if 1 <= n && n <= MAX_SIDE {
            Some(Size { side: n })
        } else {
            None
        }
    }

    /// The number of points of a row or a column: 1 to `MAX_SIDE`.
    pub fn side(self) -> u8
        ensures value { result ≡ self }
        ensures at_least_one { 1 ≤ result }
        ensures at_most { result ≤ MAX_SIDE }
    {
        self.side
    }

    /// The number of points of the board: the square of the side.
    pub fn points(self) -> usize
        ensures value { result ≡ self * self }
        ensures at_most { result ≤ MAX_POINTS }
    {
        usize::from(self.side) * usize::from(self.side)
    }
}
