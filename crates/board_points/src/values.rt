//! The points and rectangles that property values name (SGF FF[4], "Point" and "compressed point
//! lists"). `tt` may be a pass, so callers sort out passes before they call these functions.

ghost use Rattle.std.specs.Prelude.{◌≡◌, IfSome};
ghost use Rattle.board_points.specs.Point.{IsOn, IsRectOn};
ghost use Rattle.board_points.specs.Values.{coordinate, point_of, rect_of, point_value, rect_value};

use crate::points::{Point, Rect};
use crate::size::Size;

/// The point of the board that a raw value names (SGF FF[4]): two letters, the column's first, and nothing else. None for any other value.
#[tactic(auto, unfolding(crate::specs::Values::point_value))]
pub fn point(raw: &[u8], size: Size) -> Option<Point>
    ensures value { result ≡ point_value raw.now size }
    ensures on_board { IfSome result (λ p. IsOn size p) }
{
    let [col, row] = raw else {
        return None;
    };
    point_of(*col, *row, size)
}

/// The point of the board that two letters name.
fn point_of(col: u8, row: u8, size: Size) -> Option<Point>
    ensures value { result ≡ point_of size col row }
    ensures on_board { IfSome result (λ p. IsOn size p) }
{
    let (col, row) = (coordinate_of(col, size)?, coordinate_of(row, size)?);
    Some(Point { col, row })
}

/// The column or row, from 0, that a letter names on a board of that size, if any. `a` to `z` are the first 26, `A` to `Z` the next 26.
fn coordinate_of(letter: u8, size: Size) -> Option<u8>
    ensures { result ≡ coordinate size letter }
{
    let index = match letter {
        b'a'..=b'z' => letter - b'a',
        b'A'..=b'Z' => letter - b'A' + 26,
        _ => return None,
    };
    (index < size.side()).then_some(index)
}

/// The rectangle of the board that a raw value names (SGF FF[4]). The value is a single point, which is both corners; or the upper left
/// corner, a `:` and the lower right corner. None for any other value. The corners may be equal, and the upper left one must come first.
/// Both are this project's choice.
#[tactic(auto, unfolding(crate::specs::Values::rect_value))]
pub fn rect(raw: &[u8], size: Size) -> Option<Rect>
    ensures value { result ≡ rect_value raw.now size }
    ensures on_board { IfSome result (λ r. IsRectOn size r) }
{
    match raw {
        [col, row] => {
            let only = point_of(*col, *row, size)?;
            ordered(only, only)
        }
        [col, row, b':', last_col, last_row] => {
            let first = point_of(*col, *row, size)?;
            ordered(first, point_of(*last_col, *last_row, size)?)
        }
        _ => None,
    }
}

/// The rectangle with these corners; None unless the first is the upper left one.
fn ordered(first: Point, last: Point) -> Option<Rect>
    ensures { result ≡ rect_of first last }
{
    (first.col <= last.col && first.row <= last.row).then_some(Rect { first, last })
}
