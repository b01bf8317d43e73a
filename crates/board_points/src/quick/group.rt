//! The group of a stone, and whether it has a liberty. Most groups show one in the stone's row, or straight above or below it. Only if none
//! does, the whole group is filled.

ghost use Rattle.std.specs.Prelude.{◌≡◌, ◌<◌, ◌≤◌, IsTrue, IsFalse, IfNone, IfSome, length};
ghost use Rattle.board_points.specs.declared.points.Point.{Point};
ghost use Rattle.board_points.specs.Rows.{is_set, AreOfOneBoard, HasNoPoint, Grows, IsWithin};
ghost use Rattle.board_points.specs.Linked.{AddsAlive, AddsIfShut, IsLinked, HasLiberty, IsLiberty, IsShutIn, IsStone};
ghost use Rattle.board_points.specs.inner.Joined.{HasNoneAcross, HasOneAlive, IsJoined, IsRowInDoubt};

use crate::columns::{has_column, with_column};
use crate::fill::{Direction, fill, widened};
use crate::liberty::columns_with_liberty;
use crate::points::Point;
use crate::rows::{add_points, no_rows};
use crate::size::MAX_ROWS;

/// Whether the group of the stone on `from` has no liberty. `own` has the stones of its colour, `others` those of the other colour. `group`
/// must be empty. It becomes the group if so, and otherwise gets stones of it. It is quicker to ask `lives_in_row` first.
#[inline(never)]
pub fn fill_if_shut(own: &[u64], others: &[u64], from: Point, group: &mut [u64]) -> bool
    requires stone { IsStone own.now others.now from }
    requires none { HasNoPoint (length own.now) group.old }
    ensures shut { IsTrue result → IsShutIn own.now others.now from group.new }
    ensures lives { IsFalse result → (stone : Point) × IsLiberty own.now others.now from stone }
    ensures all { length group.new ≡ length own.now }
{
    !has_liberty(own, others, from, joined_in_row(own, from), group)
}

/// Adds the group of the stone on `from` to `shut` if it has no liberty. Otherwise adds the stones of it that were found to `alive`: so
/// these needn't be asked about. Returns whether it has no liberty. `shut` must have at least as many words as the board has rows.
#[inline(never)]
pub fn add_to_either(
    own: &[u64],
    others: &[u64],
    from: Point,
    shut: &mut [u64],
    alive: &mut [u64],
) -> bool
    requires stone { IsStone own.now others.now from }
    requires few { length own.now ≤ MAX_ROWS }
    requires shut { length own.now ≤ length shut.old }
    requires alive { length own.now ≤ length alive.old }
    ensures shut { AddsIfShut own.now others.now from shut.old shut.new result }
    ensures alive { AddsAlive own.now others.now alive.old alive.new }
{
    let Some(joined) = row_in_doubt(own, others, from) else {
        return false;
    };
    let mut words = no_rows();
    let group = &mut words[..own.len()];
    if has_liberty(own, others, from, joined, group) {
        add_points(group, alive);
        return false;
    }
    add_points(group, shut);
    true
}

/// Whether a stone of the row of the stone on `from`, linked to it within the row, has a liberty.
#[inline(never)]
pub fn lives_in_row(own: &[u64], others: &[u64], from: Point) -> bool
    requires stone { IsStone own.now others.now from }
    ensures { IsTrue result → (stone : Point) × IsLiberty own.now others.now from stone }
{
    row_in_doubt(own, others, from).is_none()
}

/// The stones in the row of the stone on `from` that are linked to it within the row, if none of them has a liberty.
#[inline(always)]
fn row_in_doubt(own: &[u64], others: &[u64], from: Point) -> Option<u64>
    requires stone { IsStone own.now others.now from }
    ensures lives { IfNone result ((stone : Point) × IsLiberty own.now others.now from stone) }
    ensures doubt { IfSome result (IsRowInDoubt own.now others.now from) }
{
    let row = usize::from(from.row);
    let free = columns_with_liberty(own, others, row);
    // most stones have a liberty of their own
    if has_column(free, usize::from(from.col)) {
        return None;
    }
    let joined = joined_in_row(own, from);
    if joined & free != 0 {
        return None;
    }
    Some(joined)
}

/// Whether the group of the stone on `from` has a liberty. `joined` has stones of it in the row of `from`. `group` must be empty.
/// It gets stones of the group, and all of them if none has a liberty.
fn has_liberty(own: &[u64], others: &[u64], from: Point, joined: u64, group: &mut [u64]) -> bool
    requires stone { IsStone own.now others.now from }
    requires row { IsJoined own.now from joined }
    requires none { HasNoPoint (length own.now) group.old }
    ensures lives { IsTrue result → (p : Point) × IsLiberty own.now others.now from p }
    ensures shut { IsFalse result → IsShutIn own.now others.now from group.new }
    ensures part { (stone : Point) → IsTrue (is_set group.new stone) → IsTrue (is_set own.now stone) × IsLinked (is_set own.now) from stone }
    ensures all { length group.new ≡ length own.now }
{
    let first = usize::from(from.row);
    group[first] = joined;
    if is_in_one_row(own, first, joined) {
        return joined & columns_with_liberty(own, others, first) != 0;
    }
    // most other groups have a liberty straight above or below these stones
    if lives_ahead(own, others, first, Direction::Up, group) {
        return true;
    }
    if lives_ahead(own, others, first, Direction::Down, group) {
        return true;
    }
    fill(group, own);
    some_lives(own, others, group)
}

/// Whether stones of a row are linked to none in the row above or below.
fn is_in_one_row(own: &[u64], row: usize, joined: u64) -> bool
    requires few { length own.now < 64 }
    requires row { row < length own.now }
    ensures { IsTrue result → HasNoneAcross own.now row joined }
{
    let above = if row > 0 { own[row - 1] } else { 0 };
    let below = if row + 1 < own.len() { own[row + 1] } else { 0 };
    (above | below) & joined == 0
}

/// Adds to a group stones that a row of it is linked to straight up or down, row by row. Ends at the first of these rows that has a stone
/// with a liberty, and returns whether there is one.
#[inline(always)]
fn lives_ahead(own: &[u64], others: &[u64], first: usize, way: Direction, group: &mut [u64]) -> bool
    requires rows { AreOfOneBoard own.now others.now }
    requires group { IsWithin group.old own.now }
    requires first { first < length own.now }
    ensures grows { Grows (is_set own.now) (is_set group.old) (is_set group.new) }
    ensures all { length group.new ≡ length group.old }
    ensures lives { IsTrue result → HasOneAlive own.now others.now group.new }
{
    let mut row = first;
    let mut given = group[first];
    'rows: loop {
        let next = way.next(row);
        if next >= own.len() || own[next] & given == 0 {
            return false;
        }
        let (taken, _) = widened(own[next] & given, own[next]);
        group[next] |= taken;
        if taken & columns_with_liberty(own, others, next) != 0 {
            return true;
        }
        row = next;
        given = taken;
    }
}

/// Whether a stone of a group has a liberty.
fn some_lives(own: &[u64], others: &[u64], group: &[u64]) -> bool
    requires rows { AreOfOneBoard own.now others.now }
    requires group { length group.now ≡ length own.now }
    ensures lives { IsTrue result → HasOneAlive own.now others.now group.now }
    ensures shut { IsFalse result → (stone : Point) → IsTrue (is_set group.now stone) → ¬ (HasLiberty own.now others.now stone) }
{
    'rows: for row in 0..group.len() {
        if group[row] != 0 && group[row] & columns_with_liberty(own, others, row) != 0 {
            return true;
        }
    }
    false
}

/// The columns of the stones in a stone's row that no gap divides from it, and its own column.
fn joined_in_row(own: &[u64], from: Point) -> u64
    requires row { from.row < length own.now }
    requires column { from.col < 64 }
    requires stone { IsTrue (is_set own.now from) }
    ensures { IsJoined own.now from result }
{
    let stone = with_column(0, usize::from(from.col), true);
    let (joined, _) = widened(stone, own[usize::from(from.row)]);
    joined
}
