//! Points as the Go Text Protocol (GTP, version 2) writes them: vertices.

ghost use Rattle.std.specs.Prelude.{◌≡◌, ◌≤◌};
ghost use Rattle.board_points.specs.Point.{IsOn};
ghost use Rattle.board_points.specs.Vertex.{vertex_of};

/// The greatest side of a board whose columns all have letters in GTP.
pub const MAX_VERTEX_SIDE: u8 = 25;

/// A point as the Go Text Protocol names it.
#[derive(Clone, Copy, Debug, PartialEq, Eq)]
pub struct Vertex {
    /// The ASCII letter of the column: A to Z without I, from the left.
    pub letter: u8,
    /// The number of the row, counted from 1 at the bottom.
    pub row: u8,
}

// A struct and a function with the same name can't be in one module.
pub(crate) mod naming {
    use crate::points::Point;
    use crate::size::Size;
    use crate::vertices::{MAX_VERTEX_SIDE, Vertex};

    /// The vertex of a point (GTP, version 2; see `Vertex`). The point must be on the board, and the side at most `MAX_VERTEX_SIDE`.
    pub fn vertex(point: Point, size: Size) -> Vertex
        requires on_board { IsOn size point }
        requires letters { size ≤ MAX_VERTEX_SIDE }
        ensures { result ≡ vertex_of point size }
    {
        let letter = b'A' + point.col + u8::from(point.col >= b'I' - b'A');
        let row = size.side() - point.row;
        Vertex { letter, row }
    }
}
