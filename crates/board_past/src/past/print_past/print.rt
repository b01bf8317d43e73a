//! The print of a colouring: one number made from what stands on all its points. Usually one comparison of prints is enough to show that
//! two colourings differ. The codes of the cells (0 for empty, 1 for black, 2 for white) are the digits of a number in base 31: row by row
//! from the top, from left to right. The print is that number modulo 2^64.
//!
//! A print is linear: a stone adds its code times a power of 31. So it takes few instructions to work out what a stone changes. Whoever
//! knows that can make colourings with equal prints. A hash tells those apart. This costs only bounded time: the table of prints says why.

ghost use Rattle.std.specs.Prelude.{◌≡◌, ◌<◌, ◌≤◌, ◌+◌, ◌*◌, ◌%◌, ◌^◌, ℕ, IsTrue, slice_index};
ghost use Rattle.board_stones.specs.declared.stones.Cell.TheVariants.{Empty};
ghost use Rattle.board_points.specs.Point.{IsOn};
ghost use Rattle.board_stones.specs.Grid.{with_cell};
ghost use Rattle.board_stones.specs.Clearing.{play};
ghost use Rattle.board_stones.specs.Move.{IsMove};
ghost use Rattle.board_past.specs.inner.Print.{number_within, print_of, word_number};
ghost use Rattle.board_points.specs.Rows.{has_bit, is_set};

use crate::past::print_past::powers::{power_of, small_power};
use board_points::columns::{has_column, without_column};
use board_points::{MAX_SIDE, Point};
use board_stones::{Board, Cell, Colour};

/// The sums of some of these numbers: the number of a byte whose bits say which. Each further number is that of the next bit.
macro_rules! sums {
    ([$($sum:expr),*]) => { [$($sum),*] };
    ([$($sum:expr),*] $next:literal $($later:literal)*) => {
        sums!([$($sum,)* $($sum + $next),*] $($later)*)
    };
}

/// For each byte the number whose digits are its bits, the lowest bit first. So that bit counts 31^7, and the highest one counts 1.
const NUMBERS: [u64; 256] =
    sums!([0] 27_512_614_111 887_503_681 28_629_151 923_521 29_791 961 31 1);

/// The print of a board.
pub(crate) fn print_of(board: &Board) -> u64
    ensures { result ≡ print_of board.now }
{
    board.has_all_cells();
    let side = board.size().side();
    let base = small_power(usize::from(side));
    let mut print: u64 = 0;
    for row in 0..side {
        let black = number_of(side, board.columns_of(row, Colour::Black));
        let white = number_of(side, board.columns_of(row, Colour::White));
        print = print.wrapping_mul(base).wrapping_add(in_both(black, white));
    }
    print
}

/// The print after a point is emptied, from the print before. What stands on it, if anything, is looked at.
pub(crate) fn print_without(print: u64, board: &Board, point: Point) -> u64
    requires on_board { IsOn board.now.side point }
    requires print { print ≡ print_of board.now }
    ensures { result ≡ print_of (with_cell board.now point Empty) }
{
    board.has_all_cells();
    let weight = power_of(board.size().side(), point);
    print.wrapping_sub(match board.at(point) {
        Cell::Empty => 0,
        Cell::Black => weight,
        Cell::White => weight.wrapping_mul(2),
    })
}

/// The print after a stone is put on an empty point, from the print before; `cleared` is what it clears. Only what changes is looked at.
#[inline(always)]
pub(crate) fn print_after_clearing(
    print: u64,
    board: &Board,
    colour: Colour,
    point: Point,
    cleared: &[u64],
) -> u64
    requires stone { IsMove board.now colour point cleared.now }
    requires print { print ≡ print_of board.now }
    ensures { result ≡ print_of (play board.now colour point) }
{
    board.has_all_cells();
    let put = if has_point(cleared, point) {
        print
    } else {
        let weight = power_of(board.size().side(), point);
        print.wrapping_add(match colour {
            Colour::Black => weight,
            Colour::White => weight.wrapping_mul(2),
        })
    };
    if cleared.is_empty() {
        return put;
    }
    put.wrapping_sub(print_within(board, cleared))
}

/// What those stones of a board that stand within a set of points add to its print.
fn print_within(board: &Board, points: &[u64]) -> u64
    ensures { result ≡ number_within board.now points.now % 2 ^ 64 }
{
    board.has_all_cells();
    let side = board.size().side();
    let base = small_power(usize::from(side));
    let mut print: u64 = 0;
    for row in 0..side {
        print = print.wrapping_mul(base);
        let within = columns_in(points, row);
        if within != 0 {
            let black = number_of(side, board.columns_of(row, Colour::Black) & within);
            let white = number_of(side, board.columns_of(row, Colour::White) & within);
            print = print.wrapping_add(in_both(black, white));
        }
    }
    print
}

/// Whether a set has a point. The set may have fewer rows than the board.
pub(crate) fn has_point(rows: &[u64], point: Point) -> bool
    requires { point.col < 64 }
    ensures { result ≡ is_set rows.now point }
{
    has_column(columns_in(rows, point.row), usize::from(point.col))
}

/// The columns of a row of a set, which may have fewer rows.
pub(crate) fn columns_in(rows: &[u64], row: u8) -> u64
    ensures { result ≡ slice_index rows.now row }
{
    let row = usize::from(row);
    if row < rows.len() { rows[row] } else { 0 }
}

/// What the black and the white stones of a row add up to. The code of a white stone is 2, so their number counts twice.
fn in_both(black: u64, white: u64) -> u64
    ensures { result ≡ (black + 2 * white) % 2 ^ 64 }
{
    black.wrapping_add(white.wrapping_mul(2))
}

/// The number of a word, modulo 2^64.
fn number_of(side: u8, columns: u64) -> u64
    requires side { side ≤ MAX_SIDE }
    requires columns { (col : ℕ) → IsTrue (has_bit columns col) → col < side }
    ensures { result ≡ word_number side columns % 2 ^ 64 }
{
    if columns == 0 {
        return 0;
    }
    // a stone is often put or taken alone
    let col = columns.trailing_zeros() as usize;
    if without_column(columns, col) == 0 {
        return small_power(usize::from(side) - 1 - col);
    }
    // otherwise each byte is looked up
    let bytes = side.div_ceil(8);
    // digits 0 before the first fill up the first byte
    let mut left = columns << (8 * bytes - side);
    let mut number: u64 = 0;
    for byte in 0..bytes {
        number = number
            .wrapping_mul(small_power(8))
            .wrapping_add(NUMBERS[(left % 256) as usize]);
        left >>= 8;
    }
    number
}
