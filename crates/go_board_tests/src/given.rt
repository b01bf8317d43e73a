//! Points, sizes, numbers and checks for the tests.

ghost use Rattle.std.specs.Prelude.{◌≡◌};

use go_board::{Point, Size};
use std::process::Abort;

/// The point with this column and row, both from 0.
pub(crate) fn at(col: u8, row: u8) -> Point
    ensures column { result.col ≡ col }
    ensures row { result.row ≡ row }
{
    Point { col, row }
}

/// The size of a board of this side, which must be from 1 to 52.
pub(crate) fn size(rt: &impl Abort, side: u8) -> Size
    ensures { result ≡ side }
{
    Size::new(side).expect(rt, "the side of a board")
}

/// This must hold.
pub(crate) fn holds(rt: &impl Abort, is_so: bool, what: &str) {
    if !is_so {
        rt.panic(what)
    }
}

/// This must hold. The message has `what`, a number and the side of the board.
pub(crate) fn holds_at(rt: &impl Abort, is_so: bool, what: &str, number: u32, side: u8) {
    assert!(rt; is_so, "{what} {number} on side {side}");
}

/// The number after one in a pseudorandom sequence.
pub(crate) fn next_number(number: u64) -> u64 {
    number
        .wrapping_mul(6_364_136_223_846_793_005)
        .wrapping_add(1_442_695_040_888_963_407)
}
