//! Sets of points of a board: a word for each row from the top, with a bit for each column. A set has as many words as the board has rows,
//! unless a function says otherwise.

ghost use Rattle.std.specs.Prelude.{◌≡◌, ◌≤◌, ◌<◌, ◌↔◌, ◌||◌, false, not, IsTrue, length, replicate, take};
ghost use Rattle.board_points.specs.Point.{Point, IsOn};
ghost use Rattle.board_points.specs.Rows.{is_set, AreRowsOf, HasNoPoint, IsDifference, count_apart};

use crate::columns::{all_columns, has_column};
use crate::points::Point;
use crate::size::MAX_ROWS;

/// `MAX_ROWS` rows without a set bit: enough for every board.
pub fn no_rows() -> [u64; MAX_ROWS]
    ensures { result ≡ replicate MAX_ROWS 0 }
{
    [0; MAX_ROWS]
}

/// Whether a set has a point. It must have the point's row.
pub fn has_point(rows: &[u64], point: Point) -> bool
    requires row { point.row < length rows.now }
    requires column { point.col < 64 }
    ensures { result ≡ is_set rows.now point }
{
    has_column(rows[usize::from(point.row)], usize::from(point.col))
}

/// Whether a set has no point. It may have any number of rows.
#[tactic(auto, using(crate::proofs::RowLemmas::row_zero))]
pub fn is_none(rows: &[u64]) -> bool
    ensures { IsTrue result ↔ ((p : Point) → is_set rows.now p ≡ false) }
{
    for row in rows {
        if *row != 0 {
            return false;
        }
    }
    true
}

/// The number of rows of a set down to the last one that has a point. It may have any number of rows.
pub fn rows_in_use(rows: &[u64]) -> usize
    ensures few { result ≤ length rows.now }
    ensures same { (p : Point) → is_set (take result rows.now) p ≡ is_set rows.now p }
{
    let mut count = rows.len();
    'rows: while count > 0 && rows[count - 1] == 0 {
        count -= 1;
    }
    count
}

/// Writes to `others` the points of a board that aren't in `rows`. Both must have as many words as the board has rows, and fewer than 64.
pub fn other_points(rows: &[u64], others: &mut [u64])
    requires few { length rows.now < 64 }
    requires same { length others.old ≡ length rows.now }
    ensures { AreRowsOf (length rows.now) (λ p. not (is_set rows.now p)) others.new }
{
    let side = rows.len();
    let all = all_columns(side);
    for row in 0..side {
        others[row] = all & !rows[row];
    }
}

/// Writes to `left` the points of `rows` that aren't in `others`. The three must have equally many words.
#[tactic(auto, using(crate::proofs::RowLemmas::difference_by_rows))]
pub fn difference(rows: &[u64], others: &[u64], left: &mut [u64])
    requires others { length others.now ≡ length rows.now }
    requires left { length left.old ≡ length rows.now }
    ensures { IsDifference rows.now others.now left.new }
{
    for row in 0..rows.len() {
        left[row] = rows[row] & !others[row];
    }
}

/// Adds the points of a set to another set, which must have at least as many words.
pub fn add_points(rows: &[u64], all: &mut [u64])
    requires { length rows.now ≤ length all.old }
    ensures both { (p : Point) → is_set all.new p ≡ (is_set all.old p || is_set rows.now p) }
    ensures rows { length all.new ≡ length all.old }
{
    for row in 0..rows.len() {
        all[row] |= rows[row];
    }
}

/// How many points of `rows` aren't in `others`. Both must have a word for each row of the board, and all points of `rows` must be on it.
pub fn count_apart(rows: &[u64], others: &[u64]) -> u32
    requires few { length rows.now ≤ MAX_ROWS }
    requires same { length others.now ≡ length rows.now }
    requires on_board { (p : Point) → IsTrue (is_set rows.now p) → IsOn (length rows.now) p }
    ensures { result ≡ count_apart (length rows.now) rows.now others.now }
{
    let mut count = 0;
    for (row, word) in rows.iter().enumerate() {
        count += (word & !others[row]).count_ones();
    }
    count
}

/// Removes all points of a set.
pub fn remove_all(rows: &mut [u64])
    ensures { HasNoPoint (length rows.old) rows.new }
{
    rows.fill(0);
}
