//! What leads back from a colouring to the one before it: the point of a stone that was put, or rows.

ghost use Rattle.std.specs.Prelude.{◌≡◌, ◌≢◌, ◌+◌, ◌<◌, ◌≤◌, ℕ, IsTrue, IsFalse, length, slice_index};
ghost use Rattle.std.specs.Vec.{vec_capacity};
ghost use Rattle.board_stones.specs.declared.stones.Colour.{Colour};
ghost use Rattle.board_stones.specs.Clearing.{play};
ghost use Rattle.board_points.specs.Point.{IsOn};
ghost use Rattle.board_past.specs.inner.Changes.{after_changes, step_back, AddsRow, AreOn, KeepRows, is_full, is_fresh, is_settled};
ghost use Rattle.board_stones.specs.Move.{IsMove};

use crate::past::print_past::print::columns_in;
use board_points::columns::{all_columns, has_column, without_column};
use board_points::{MAX_ROWS, Point};
use board_stones::{Board, Cell, Colour};

/// One step in this many keeps all rows of the colouring before it. So an older colouring
/// can be worked out from the next such step, or else from the newest colouring.
pub(crate) const FULL: usize = 128;

/// The most older colourings that are kept, and the most changes, so that a count of them fits into 32 bits.
pub(crate) const MOST: usize = 0xffff_ffff;

/// The stones of a row before a step: a bit for each column.
#[derive(Clone, Copy)]
pub(crate) struct Change {
    pub row: u8,
    pub black: u64,
    pub white: u64,
}

/// What is kept of an older colouring, and of the step from it to the colouring after it, besides the step's changes.
#[derive(Clone, Copy)]
pub(crate) struct Older {
    /// The index of the first of the step's changes.
    pub start: u32,
    /// The number of the first colouring of its stretch.
    pub stretch_start: u32,
    /// The point of the stone that was played; any point if the step played none.
    pub point: Point,
    /// Whether that point is all that is kept: the step put the stone on a settled board, changed nothing else, and isn't a full one.
    pub alone: bool,
    /// What is known of the older colouring.
    pub known: Known,
}

/// What is known of an older colouring.
#[derive(Clone, Copy)]
pub(crate) enum Known {
    Nothing,
    /// Every stone of it is alive.
    Settled,
    /// The same; and neither it nor an older colouring of its stretch has a stone on the point of its step, which put one there.
    Fresh,
}

impl Known {
    /// Whether every stone is known to be alive.
    pub(crate) fn is_settled(self) -> bool
        ensures { result ≡ is_settled self }
    {
        !matches!(self, Known::Nothing)
    }

    /// Whether the step put a stone where no older colouring of the stretch has one.
    pub(crate) fn is_fresh(self) -> bool
        ensures { result ≡ is_fresh self }
    {
        matches!(self, Known::Fresh)
    }
}

/// Takes a board back by one step. `changes` are the step's changes.
pub(crate) fn step_back(board: &mut Board, kept: Older, changes: &[Change])
    requires point { IsTrue kept.alone → IsOn board.old.side kept.point }
    requires changes { AreOn board.old.side changes.now }
    ensures { board.new ≡ step_back board.old kept changes.now }
{
    if kept.alone {
        board.set(kept.point, Cell::Empty);
    } else {
        take_back(board, changes);
    }
}

/// Takes a board back by changes, the last one first.
// The first change of a row is made last, so the row's other changes don't count. This way each row is set
// once at most, however often it has changed.
pub(crate) fn take_back(board: &mut Board, changes: &[Change])
    requires { AreOn board.old.side changes.now }
    ensures { board.new ≡ after_changes board.old changes.now }
{
    board.has_all_cells();
    let mut left = all_columns(usize::from(board.size().side()));
    'each: for change in changes {
        if left == 0 {
            return;
        }
        let row = usize::from(change.row);
        if has_column(left, row) {
            board.set_row(change.row, change.black, change.white);
            left = without_column(left, row);
        }
    }
}

/// Adds a row of a board. There must be room for it.
fn keep_row(board: &Board, row: u8, changes: &mut Vec<Change>)
    requires row { row < board.now.side }
    requires room { length changes.old.items < vec_capacity changes.old }
    ensures row { AddsRow board.now row changes.old.items changes.new.items }
    ensures room { vec_capacity changes.new ≡ vec_capacity changes.old }
{
    changes.push_reserved(Change {
        row,
        black: board.columns_of(row, Colour::Black),
        white: board.columns_of(row, Colour::White),
    });
}

/// Adds the rows of a board in which another board differs; all rows if `all` is true. There must be room for all.
pub(crate) fn keep_rows(old: &Board, new: &Board, all: bool, changes: &mut Vec<Change>)
    requires side { new.now.side ≡ old.now.side }
    requires room { length changes.old.items + old.now.side ≤ vec_capacity changes.old }
    ensures { KeepRows old.now new.now all old.now.side changes.old.items changes.new.items }
{
    old.has_all_cells();
    for row in 0..old.size().side() {
        let apart = all | !old.has_same_row(new, row);
        if apart {
            keep_row(old, row, changes);
        }
    }
}

/// Adds the rows of a board that a stone changes; all rows if `all` is true. There must be room for all.
pub(crate) fn keep_played(
    board: &Board,
    point: Point,
    cleared: &[u64],
    all: bool,
    changes: &mut Vec<Change>,
)
    requires stone { (colour : Colour) × IsMove board.now colour point cleared.now }
    requires room { length changes.old.items + board.now.side ≤ vec_capacity changes.old }
    ensures { (colour : Colour) → IsMove board.now colour point cleared.now
        → KeepRows board.now (play board.now colour point) all board.now.side changes.old.items changes.new.items }
{
    board.has_all_cells();
    let rows = if all {
        board.size().side()
    } else {
        (cleared.len() as u8).max(point.row + 1)
    };
    for row in 0..rows {
        let apart = all | (row == point.row) | (columns_in(cleared, row) != 0);
        if apart {
            keep_row(board, row, changes);
        }
    }
}

/// Whether the step after `count` others keeps all rows of the colouring before it.
pub(crate) fn is_full(count: usize) -> bool
    ensures { result ≡ is_full count }
{
    count % FULL == FULL - 1
}
