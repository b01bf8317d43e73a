//! A set of points of a board.

ghost use Rattle.std.specs.Prelude.{◌≡◌, ◌≤◌, length};
ghost use Rattle.board_points.specs.declared.size.TheConstants.{MAX_ROWS};
ghost use Rattle.board_points.specs.Marking.{Marking, marking_of, is_marked, no_marks, with_mark};
ghost use Rattle.board_points.specs.Rows.{is_set};
ghost use Rattle.board_points.specs.Point.{IsOn};

use crate::points::Point;
use crate::rows::no_rows;
use crate::size::{MAX_ROWS, Size};
use std::marker::Model;

/// A set of points of a board: a word for each row, with a bit for each column.
#[derive(Drop)]
pub struct Marks {
    size: Size,
    rows: [u64; MAX_ROWS],
}

impl Model for Marks {
    ghost Value = { Marking };

    ghost view = { λ m. marking_of m.size (is_set m.rows) };

    ghost invariant = { λ m. (length m.rows ≡ MAX_ROWS) × (m.size ≤ MAX_ROWS) };
}

impl Marks {
    /// The empty set, for a board of that size.
    pub fn none(size: Size) -> Marks
        ensures { result ≡ no_marks size }
    {
        prove!(usize::from(size.side()) <= MAX_ROWS);
        let rows = no_rows();
        Marks { size, rows }
    }

    /// Marks a point, which must be on the board.
    pub fn mark(&mut self, point: Point)
        requires { IsOn self.old.side point }
        ensures { self.new ≡ with_mark self.old point }
    {
        let row = &mut self.rows[usize::from(point.row)];
        *row |= 1 << point.col;
    }

    /// Whether a point is marked. The point must be on the board.
    pub fn has(&self, point: Point) -> bool
        requires { IsOn self.now.side point }
        ensures { result ≡ is_marked self.now point }
    {
        self.rows[usize::from(point.row)] >> point.col & 1 == 1
    }
}
