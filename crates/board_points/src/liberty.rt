//! Which points of a row have a liberty: an empty point beside them.

ghost use Rattle.std.specs.Prelude.{◌≡◌, ◌+◌, ◌<◌, ◌≤◌, false, ℕ, IsTrue, length};
ghost use Rattle.board_points.specs.Point.{Point, IsOn};
ghost use Rattle.board_points.specs.Linked.{HasLiberty, HaveLiberty};
ghost use Rattle.board_points.specs.inner.Look.{AreColumnsOff, IsRowAt};
ghost use Rattle.board_points.specs.Rows.{has_bit, is_set, AreOfOneBoard};
ghost use Rattle.board_points.specs.inner.Columns.{IsInOrBeside};

use crate::columns::all_columns;

/// The columns of a row that have a stone of the player (`own`) or of the opponent (`others`), and those of the 64 that have no free point
/// (`taken`): a stone is there, or the board has no such column. A row outside the board has no stones, and all columns are taken.
#[derive(Clone, Copy)]
pub(crate) struct RowStones {
    pub(crate) own: u64,
    pub(crate) others: u64,
    pub(crate) taken: u64,
}

/// The columns in which a row's point has a liberty: a point beside it that is in neither `own` nor `others`.
#[tactic(auto, using(crate::proofs::WordLemmas::columns_off))]
pub(crate) fn columns_with_liberty(own: &[u64], others: &[u64], row: usize) -> u64
    requires rows { AreOfOneBoard own.now others.now }
    requires row { row < length own.now }
    ensures from { (col : ℕ) → IsTrue (has_bit result col) → HasLiberty own.now others.now (record { col = col; row = row }) }
    ensures to { (stone : Point) → stone.row ≡ row → stone.col < 64 → HasLiberty own.now others.now stone
        → IsTrue (has_bit result stone.col) }
{
    let off = !all_columns(own.len());
    let above = row_at(own, others, off, row, 1);
    let here = row_at(own, others, off, row, 2);
    let below = row_at(own, others, off, row, 3);
    columns_beside(!above.taken, !here.taken, !below.taken)
}

/// The columns of a row whose points are beside a point of a set. The set is given by its columns above, in and below the row.
#[tactic(auto, using(crate::proofs::LinkedLemmas::beside_from, crate::proofs::LinkedLemmas::beside_to))]
pub(crate) fn columns_beside(above: u64, here: u64, below: u64) -> u64
    ensures from { (col : ℕ) → IsTrue (has_bit result col) → IsInOrBeside above here below col }
    ensures to { (col : ℕ) → col < 64 → IsInOrBeside above here below col → IsTrue (has_bit result col) }
{
    above | below | here << 1 | here >> 1
}

/// What stands on a row near the row `middle`: `i` is 0 for the second row above it, 2 for `middle`. `off` has the columns off the board.
#[tactic(auto, using(crate::proofs::GrowLemmas::row_below))]
pub(crate) fn row_at(own: &[u64], others: &[u64], off: u64, middle: usize, i: usize) -> RowStones
    requires rows { AreOfOneBoard own.now others.now }
    requires off { AreColumnsOff (length own.now) off }
    requires middle { middle < length own.now }
    requires near { i ≤ 4 }
    ensures is { IsRowAt own.now others.now middle i result }
    ensures free { (point : Point) → point.row + 2 ≡ middle + i → IsOn (length own.now) point → is_set own.now point ≡ false
        → is_set others.now point ≡ false → has_bit result.taken point.col ≡ false }
{
    // the rows down to `middle` are above the board's end
    if 2 <= middle + i && (i <= 2 || middle + i - 2 < own.len()) {
        return row_inside(own, others, off, middle + i - 2);
    }
    RowStones {
        own: 0,
        others: 0,
        taken: u64::MAX,
    }
}

/// What stands on a row of the board. `off` has the columns that the board doesn't have.
#[inline(always)]
pub(crate) fn row_inside(own: &[u64], others: &[u64], off: u64, row: usize) -> RowStones
    requires rows { AreOfOneBoard own.now others.now }
    requires off { AreColumnsOff (length own.now) off }
    requires row { row < length own.now }
    ensures is { (middle i : ℕ) → row + 2 ≡ middle + i → IsRowAt own.now others.now middle i result }
    ensures free { (point : Point) → point.row ≡ row → IsOn (length own.now) point → is_set own.now point ≡ false
        → is_set others.now point ≡ false → has_bit result.taken point.col ≡ false }
{
    let (own, others) = (own[row], others[row]);
    let taken = own | others | off;
    RowStones { own, others, taken }
}

/// Writes to `found` the stones of `own` that have an empty point beside them. This is the plain way; `quick` asks about one stone.
/// `others` has the stones of the other colour. The three must have as many words as the board has rows.
pub fn stones_with_liberty(own: &[u64], others: &[u64], found: &mut [u64])
    requires rows { AreOfOneBoard own.now others.now }
    requires found { length found.old ≡ length own.now }
    ensures { HaveLiberty own.now others.now found.new }
{
    for row in 0..own.len() {
        found[row] = own[row] & columns_with_liberty(own, others, row);
    }
}
