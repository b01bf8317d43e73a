//! Points and rectangles of a board, and the four neighbours of a point.

ghost use Rattle.std.specs.Prelude.{◌≡◌, ◌<◌, ◌*◌, ◌↔◌, Contains, IsTrue};
ghost use Rattle.board_points.specs.Point.{IsOn, AreAdjacent, index_of};

use crate::size::{MAX_SIDE, Size};

/// A point, by its column from the left and its row from the top, both from 0. It is on a board of side n if both are less than n.
#[derive(Clone, Copy, Debug, PartialEq, Eq)]
pub struct Point {
    /// The column, counted from 0 at the left.
    pub col: u8,
    /// The row, counted from 0 at the top.
    pub row: u8,
}

/// The upper left corner. It is the first point of a board, row by row from the top.
pub(crate) const FIRST: Point = Point { col: 0, row: 0 };

impl Point {
    /// The index of the point, from 0, in the list of all points row by row from the top, from left to right. The point must be on the
    /// board.
    pub fn index(self, size: Size) -> usize
        requires { IsOn size self }
        ensures value { result ≡ index_of size self }
        ensures within { result < size * size }
    {
        usize::from(self.row) * usize::from(size.side()) + usize::from(self.col)
    }

    /// The point with this index, counted as by `index`. The index must be less than the number of points of the board.
    pub fn of_index(index: usize, size: Size) -> Point
        requires { index < size * size }
        ensures on_board { IsOn size result }
        ensures value { index_of size result ≡ index }
    {
        let side = usize::from(size.side());
        let (col, row) = ((index % side) as u8, (index / side) as u8);
        Point { col, row }
    }

    /// Whether the point is on a board of that size.
    pub fn is_on(self, size: Size) -> bool
        ensures { IsTrue result ↔ IsOn size self }
    {
        self.col < size.side() && self.row < size.side()
    }

    /// The four points beside the point, which must be on the largest board. Those beyond the left and the upper edge are on no board.
    pub fn neighbours(self) -> [Point; 4]
        requires { IsOn MAX_SIDE self }
        ensures { (other : Point) → IsOn MAX_SIDE other → (Contains result other ↔ AreAdjacent self other) }
    {
        let Point { col, row } = self;
        let (before, above) = (col.wrapping_sub(1), row.wrapping_sub(1));
        [
            Point { col: before, row },
            Point { col: col + 1, row },
            Point { col, row: above },
            Point { col, row: row + 1 },
        ]
    }
}

/// The points from one corner to another, both included.
#[derive(Clone, Copy, Debug, PartialEq, Eq)]
pub struct Rect {
    /// The upper left corner.
    pub first: Point,
    /// The lower right corner.
    pub last: Point,
}
