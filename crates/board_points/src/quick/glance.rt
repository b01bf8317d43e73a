//! A glance at the rows around a player's stone. It shows of most stones that they are alive, and that the opponent's stones beside
//! them still are. Of the others it shows nothing.

ghost use Rattle.std.specs.Prelude.{◌≡◌, ◌+◌, ◌<◌, false, ℕ, IsTrue, IsFalse, length};
ghost use Rattle.board_points.specs.Point.{Point, IsOn};
ghost use Rattle.board_points.specs.Rows.{has_bit, is_set, AreOfOneBoard};
ghost use Rattle.board_points.specs.inner.Columns.{IsOpenBeside};
ghost use Rattle.board_points.specs.inner.Look.{AreColumnsOff, IsNextRow, IsRowAt};
ghost use Rattle.board_points.specs.Glance.{LeavesAllAlive};

use crate::columns::{all_columns, has_column, with_column};
use crate::liberty::{RowStones, columns_beside, row_at, row_inside};
use crate::points::Point;

/// Whether a glance at the rows around a point shows that a player's stone there is alive, by a liberty of its own or of a stone beside it,
/// and that each stone of the opponent beside it keeps a liberty of its own. The point must be on the board of these rows.
#[inline(always)]
#[tactic(auto, using(crate::proofs::WordLemmas::columns_off))]
pub fn leaves_all_alive(own: &[u64], others: &[u64], point: Point) -> bool
    requires rows { AreOfOneBoard own.now others.now }
    requires on_board { IsOn (length own.now) point }
    ensures { IsTrue result → LeavesAllAlive own.now others.now point }
{
    if stands_apart(own, others, point) {
        return true;
    }
    let row = usize::from(point.row);
    if row < 2 || own.len() <= row + 2 {
        return alive_near_the_edge(own, others, point);
    }
    let off = !all_columns(own.len());
    let first = row_inside(own, others, off, row - 2);
    let above = row_inside(own, others, off, row - 1);
    let here = row_inside(own, others, off, row);
    let below = row_inside(own, others, off, row + 1);
    let last = row_inside(own, others, off, row + 2);
    five_rows_show_alive(own, others, point, off, first, above, here, below, last)
}

/// Whether a player's stone on a point has a free point above or below it, and no stone of the opponent beside it. This is the quickest to
/// see, and most stones stand like that.
#[inline(always)]
fn stands_apart(own: &[u64], others: &[u64], point: Point) -> bool
    requires rows { AreOfOneBoard own.now others.now }
    requires on_board { IsOn (length own.now) point }
    ensures { IsTrue result → LeavesAllAlive own.now others.now point }
{
    let row = usize::from(point.row);
    let (own_above, others_above) = next_row(own, others, row > 0, row.wrapping_sub(1));
    let (own_below, others_below) = next_row(own, others, row + 1 < own.len(), row + 1);
    let touched = columns_beside(others_above, others[row], others_below);
    let closed = own_above & own_below;
    !has_column(touched | closed, usize::from(point.col))
}

/// The columns of the player's stones and of the opponent's in the row `next`, above or below a player's stone. `there` tells whether the
/// board has this row. If not, it counts as full of the player's stones.
#[inline(always)]
fn next_row(own: &[u64], others: &[u64], there: bool, next: usize) -> (u64, u64)
    requires rows { AreOfOneBoard own.now others.now }
    requires there { IsTrue there → next < length own.now }
    ensures { (row i : ℕ) → (IsTrue there → next + 2 ≡ row + i)
        → (IsFalse there → (point : Point) → point.row + 2 ≡ row + i → is_set others.now point ≡ false)
        → IsNextRow own.now others.now row i result.0 result.1 }
{
    if there {
        return (own[next], others[next]);
    }
    (u64::MAX, 0)
}

/// The same as `leaves_all_alive`, for every point.
#[inline(never)]
#[tactic(auto, using(crate::proofs::WordLemmas::columns_off))]
fn alive_near_the_edge(own: &[u64], others: &[u64], point: Point) -> bool
    requires rows { AreOfOneBoard own.now others.now }
    requires on_board { IsOn (length own.now) point }
    ensures { IsTrue result → LeavesAllAlive own.now others.now point }
{
    let off = !all_columns(own.len());
    let row = usize::from(point.row);
    let first = row_at(own, others, off, row, 0);
    let above = row_at(own, others, off, row, 1);
    let here = row_at(own, others, off, row, 2);
    let below = row_at(own, others, off, row, 3);
    let last = row_at(own, others, off, row, 4);
    five_rows_show_alive(own, others, point, off, first, above, here, below, last)
}

/// The same as `leaves_all_alive`. The rows are those around the point, from the second one above it to the second one below it. `off` has
/// the columns that the board doesn't have.
#[inline(always)]
fn five_rows_show_alive(
    own: &[u64],
    others: &[u64],
    point: Point,
    off: u64,
    first: RowStones,
    above: RowStones,
    here: RowStones,
    below: RowStones,
    last: RowStones,
) -> bool
    requires rows { AreOfOneBoard own.now others.now }
    requires on_board { IsOn (length own.now) point }
    requires off { AreColumnsOff (length own.now) off }
    requires first { IsRowAt own.now others.now point.row 0 first }
    requires above { IsRowAt own.now others.now point.row 1 above }
    requires here { IsRowAt own.now others.now point.row 2 here }
    requires below { IsRowAt own.now others.now point.row 3 below }
    requires last { IsRowAt own.now others.now point.row 4 last }
    ensures { IsTrue result → LeavesAllAlive own.now others.now point }
{
    let col = usize::from(point.col);
    let taken = with_column(here.taken, col, true);
    // the columns of three rows whose points have no free point beside them
    let up = columns_shut(first.taken, above.taken, u64::MAX, off);
    let middle = columns_shut(above.taken, taken, below.taken, off);
    let down = columns_shut(u64::MAX, below.taken, last.taken, off);
    let in_doubt = columns_beside(above.others & up, here.others & middle, below.others & down);
    if has_column(in_doubt, col) {
        return false;
    }
    if !has_column(middle, col) {
        return true;
    }
    let friends = columns_beside(above.own & !up, here.own & !middle, below.own & !down);
    has_column(friends, col)
}

/// The columns of a row whose points have all points beside them taken. These are given by their columns above, in and below the row, and
/// `off` has the columns that the board doesn't have.
#[inline(always)]
fn columns_shut(above: u64, here: u64, below: u64, off: u64) -> u64
    requires { IsTrue (has_bit off 63) }
    ensures { (col : ℕ) → col < 64 → has_bit result col ≡ false → IsOpenBeside above here below col }
{
    above & below & (here << 1 | 1) & (here >> 1 | off)
}
