//! Two sets of points in one list of words, which one filling fills: the low half of a word has a row of the one, the high half has a row
//! of the other. The board must be small enough that an empty column is left between the halves.

ghost use Rattle.std.specs.Prelude.{◌≡◌, ◌<◌, IsTrue, length};
ghost use Rattle.board_points.specs.Halves.{low_halves, high_halves, AreOnSmallBoard, ArePaired, AreOthersPaired};
ghost use Rattle.board_points.specs.Point.{Point, IsOn};
ghost use Rattle.board_points.specs.Rows.{is_set, count_apart};

use crate::columns::{all_columns, columns_left};

/// The number of columns of half a word. A board with fewer leaves an empty column between the halves.
pub const HALF: u8 = 32;

/// The most rows of such a board. Its sets take few words, which are quick to clear.
pub const FEW_ROWS: usize = HALF as usize;

/// A word's low half is its rest by this divisor, and its high half is the quotient.
const HALVES: u64 = 1 << HALF;

/// Writes two sets to `areas`, the first (`black`) to the low halves, and to `region` for each the points that aren't in the other. The
/// four must have as many words as the board has rows, fewer than 32, and all points must be on the board.
#[inline(always)]
pub fn pair_rows(black: &[u64], white: &[u64], areas: &mut [u64], region: &mut [u64])
    requires stones { AreOnSmallBoard black.now white.now }
    requires areas { length areas.old ≡ length black.now }
    requires region { length region.old ≡ length black.now }
    ensures areas { ArePaired black.now white.now areas.new }
    ensures region { AreOthersPaired black.now white.now region.new }
{
    let columns = all_columns(black.len());
    let all = columns * HALVES + columns;
    'rows: for row in 0..black.len() {
        let area = white[row] * HALVES + black[row];
        areas[row] = area;
        // the rotation exchanges the halves
        region[row] = columns_left(all, area.rotate_left(u64::BITS / 2));
    }
}

/// How many points each of two sets has that aren't in the other: first the set in the low halves (Black's area in a score), then the
/// other. So an empty point in both areas counts for nobody, as one in neither. There must be as many words as the board has rows, fewer
/// than 32, and all points must be on the board.
#[inline(always)]
pub fn count_halves(areas: &[u64]) -> (u32, u32)
    requires few { length areas.now < HALF }
    requires black_on { (p : Point) → IsTrue (is_set (low_halves areas.now) p) → IsOn (length areas.now) p }
    requires white_on { (p : Point) → IsTrue (is_set (high_halves areas.now) p) → IsOn (length areas.now) p }
    ensures black { result.0 ≡ count_apart (length areas.now) (low_halves areas.now) (high_halves areas.now) }
    ensures white { result.1 ≡ count_apart (length areas.now) (high_halves areas.now) (low_halves areas.now) }
{
    let (mut in_black, mut in_one) = (0, 0);
    'rows: for row in 0..areas.len() {
        // the points that are in one half and not in the other
        let alone = columns_left(areas[row], areas[row].rotate_left(u64::BITS / 2));
        in_one += alone.count_ones();
        in_black += (alone % HALVES).count_ones();
    }
    (in_black, in_one - in_black)
}
