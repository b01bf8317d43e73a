//! Filling sets of points: a word for each row, with a bit for each column.

ghost use Rattle.std.specs.Prelude.{◌≡◌, ◌≢◌, ℕ, ◌+◌, ◌<◌, Bool, not, ◌&&◌, ◌||◌, IsTrue, List, length, slice_index};
ghost use Rattle.board_points.specs.inner.Fill.{IsFilledBut, IsNext, AreRowsBelow, HaveMore};
ghost use Rattle.board_points.specs.Rows.{IsWithin, has_bit, is_set, IsClosed, Grows};
ghost use Rattle.board_points.specs.inner.Columns.{IsPart, HasBeside};

use crate::columns::{with_column, without_column};

/// Adds to a set all points that a path within `region` connects to it. This is the plain way to find whole groups or areas. First each row
/// gives its points to the row below it, from the top. Then rows that can give a point to the row above them do so, from the bottom, and
/// rows that can give one downwards do so, from the top, until none can. A row that takes points gives them on at once: so a corridor is
/// followed as far as it goes up or down. All points of the set must be in the region, and both must have as many words as the board has
/// rows, fewer than 64.
pub fn fill(rows: &mut [u64], region: &[u64])
    requires { IsWithin rows.old region.now }
    ensures grows { Grows (is_set region.now) (is_set rows.old) (is_set rows.new) }
    ensures closed { IsClosed (is_set region.now) (is_set rows.new) }
{
    let (mut above, mut above_lacks, mut ups) = (0, 0, 0);
    'rows: for row in 0..rows.len() {
        let (word, lacks) = widened((rows[row] | above) & region[row], region[row]);
        rows[row] = word;
        ups = with_flag(ups, row, above_lacks & word != 0);
        above = word;
        above_lacks = lacks;
    }
    'passes: while ups != 0 {
        let downs = give_all(rows, region, ups, Direction::Up);
        ups = give_all(rows, region, downs, Direction::Down);
    }
}

/// The ways from row to row.
#[derive(Clone, Copy)]
pub(crate) enum Direction {
    Up,
    Down,
}

impl Direction {
    /// The row after a row. If the board has none, this is the number of no row.
    #[inline(always)]
    pub(crate) fn next(self, row: usize) -> usize
        requires { row < 64 }
        ensures next { result < 64 → IsNext self row result }
        ensures only { (next : ℕ) → IsNext self row next → result ≡ next }
    {
        match self {
            Direction::Up => row.wrapping_sub(1),
            Direction::Down => row + 1,
        }
    }
}

/// Each flagged row gives its points in a direction (`give`), the one farthest back first. Returns the rows that can give some back.
#[inline(always)]
fn give_all(rows: &mut [u64], region: &[u64], flags: u64, direction: Direction) -> u64
    requires within { IsWithin rows.old region.now }
    requires flags { AreRowsBelow (length region.now) flags }
    ensures filled { (first : List ℕ) → IsFilledBut region.now first rows.old direction flags 0 0 0
        → IsFilledBut region.now first rows.new direction 0 result 0 0 }
    ensures more { HaveMore rows.old rows.new 0 result }
{
    let mut waiting = flags;
    let mut back = 0;
    'flags: while waiting != 0 {
        let row = match direction {
            Direction::Up => 63 - waiting.leading_zeros() as usize,
            Direction::Down => waiting.trailing_zeros() as usize,
        };
        waiting = without_column(waiting, row);
        back = give(rows, region, row, direction, back);
    }
    back
}

/// A row gives its points to the next row in a direction, which gives those that it takes to the row after it, and so on. `back` has the
/// rows that can give points back. Returns these and those of the rows that took some that now can.
#[inline(always)]
#[tactic(auto, using(crate::proofs::GiveLemmas::has_bit_lacked))]
fn give(rows: &mut [u64], region: &[u64], first: usize, direction: Direction, back: u64) -> u64
    requires within { IsWithin rows.old region.now }
    requires first { first < length rows.old }
    ensures within { IsWithin rows.new region.now }
    ensures filled { (start : List ℕ) → (flags : ℕ)
        → IsFilledBut region.now start rows.old direction flags back first (slice_index rows.old first)
        → IsFilledBut region.now start rows.new direction flags result 0 0 }
    ensures more { HaveMore rows.old rows.new back result }
{
    let mut row = first;
    let mut given = rows[row];
    // the region has all points of the row, so `^` finds what the row lacks of it; `& !` takes longer
    let mut lacks = region[row] ^ given;
    let mut flags = back;
    'rows: loop {
        let next = direction.next(row);
        if next >= rows.len() {
            return flags;
        }
        let here = region[next] ^ rows[next];
        if here & given == 0 {
            return flags;
        }
        let (taken, left) = widened(here & given, here);
        rows[next] |= taken;
        flags = with_flag(flags, next, lacks & taken != 0);
        row = next;
        given = taken;
        lacks = left;
    }
}

/// The flagged rows, and `row` if `flag` is true. Few rows are flagged, and a branch to what flags them costs less than to do so each time.
#[inline(always)]
fn with_flag(flags: u64, row: usize, flag: bool) -> u64
    requires { row < 64 }
    ensures there { has_bit result row ≡ (has_bit flags row || flag) }
    ensures elsewhere { (other : ℕ) → other ≢ row → has_bit result other ≡ has_bit flags other }
{
    if flag { flagged(flags, row) } else { flags }
}

/// The flagged rows, and one more.
#[cold]
#[inline(never)]
fn flagged(flags: u64, row: usize) -> u64
    requires { row < 64 }
    ensures there { IsTrue (has_bit result row) }
    ensures elsewhere { (other : ℕ) → other ≢ row → has_bit result other ≡ has_bit flags other }
{
    with_column(flags, row, true)
}

/// Widens a set of columns by those of the region beside it, until there are no more. Returns them, and the columns of the region left out.
#[inline(always)]
pub(crate) fn widened(seed: u64, region: u64) -> (u64, u64)
    requires { IsPart (has_bit seed) (has_bit region) }
    ensures within { IsPart (has_bit result.0) (has_bit region) }
    ensures kept { IsPart (has_bit seed) (has_bit result.0) }
    ensures closed { HasBeside (has_bit region) (has_bit result.0) }
    ensures least { (set : ℕ → Bool) → HasBeside (has_bit region) set → IsPart (has_bit seed) set → IsPart (has_bit result.0) set }
    ensures left { (col : ℕ) → has_bit result.1 col ≡ (has_bit region col && not (has_bit result.0 col)) }
{
    // the carry of a sum finds the columns of the region that follow one of the seed without a gap
    let mut word = region & !region.wrapping_add(seed) | seed;
    let mut left = region ^ word;
    'widen: loop {
        let before = word >> 1 & left;
        if before == 0 {
            return (word, left);
        }
        word |= before;
        left ^= before;
    }
}
