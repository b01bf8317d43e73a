//! Calls of a past that ask for memory: `new`, `push` and `restart`. There are few colourings. So a `PrintPast` asks only in `new`, and in
//! the first `push`, for room for the points that are emptied. The turns and setups of `long_games` cover `play` and `set_up`, and a past
//! that needs more room.

ghost use Rattle.std.specs.Prelude.{◌≡◌, IfOk, OnOk, OnErr};
ghost use Rattle.board_past.specs.Past.{only, with_next, HaveSide};
ghost use Rattle.board_points.specs.Point.{IsOn};

use crate::seen::Seen;
use go_board::{Board, Cell, MemoryFault, Past, Point, Size};
use std::alloc::Global;

/// Adds a second colouring to a past, begins another stretch with a third colouring, and takes back that stretch.
pub fn calls<P: Past>(alloc: Global, seen: &mut Seen) {
    let Some(size) = Size::new(3) else {
        return seen.wrong("no board of side 3");
    };
    let empty = Board::empty(size);
    let black = with_stone(&empty, Point { col: 0, row: 0 }, Cell::Black);
    let white = with_stone(&empty, Point { col: 1, row: 1 }, Cell::White);
    if let Ok(mut past) = begin::<P>(alloc, &empty, seen) {
        grows(&mut past, &empty, &black, &white, seen);
    }
}

/// Adds `black` to a past of the empty board alone, begins a stretch with `white`, and takes back that stretch.
fn grows<P: Past>(past: &mut P, empty: &Board, black: &Board, white: &Board, seen: &mut Seen)
    requires past { P.held past.old ≡ only empty.now }
    requires black { black.now.side ≡ empty.now.side }
    requires white { white.now.side ≡ empty.now.side }
{
    let Ok(()) = add(past, empty, empty, black, false, seen) else {
        return;
    };
    seen.right(past.holds(empty), "a past after a push");
    let Ok(()) = add(past, empty, black, white, true, seen) else {
        return;
    };
    let holds_earlier = past.holds(empty) || past.holds(black);
    seen.right(!holds_earlier, "a stretch before a restart");
    seen.right(past.holds(white), "a stretch after a restart");
    past.pop();
    let holds_both = past.holds(empty) && past.holds(black);
    seen.right(holds_both, "a past after a pop");
    seen.right(!past.holds(white), "what was taken back");
}

/// The board with one more stone.
fn with_stone(board: &Board, point: Point, cell: Cell) -> Board
    requires { IsOn board.now.side point }
    ensures { result.side ≡ board.now.side }
{
    let mut copy = board.copy();
    copy.set(point, cell);
    copy
}

/// A past of this one colouring. If memory was refused, the past is made once more.
fn begin<P: Past>(alloc: Global, board: &Board, seen: &mut Seen) -> Result<P, MemoryFault>
    ensures { IfOk result (λ past. P.held past ≡ only board.now) }
{
    seen.call();
    if let Ok(past) = P::new(alloc, board) {
        return Ok(past);
    }
    seen.want();
    let again = P::new(alloc, board);
    seen.right(again.is_ok(), "a past asked for again");
    again
}

/// Adds a colouring to a past of one stretch, which has `first` and, as the newest, `newest`. If memory was refused, the past must be
/// unchanged, and is asked again. If `anew`, the colouring begins another stretch.
fn add<P: Past>(
    past: &mut P,
    first: &Board,
    newest: &Board,
    board: &Board,
    anew: bool,
    seen: &mut Seen,
) -> Result<(), MemoryFault>
    requires past { HaveSide board.now.side (P.held past.old) }
    requires first { HaveSide first.now.side (P.held past.old) }
    requires newest { HaveSide newest.now.side (P.held past.old) }
    ensures { OnOk result (P.held past.new ≡ with_next (P.held past.old) board.now anew) }
{
    seen.call();
    if push_or_restart(past, board, anew).is_ok() {
        return Ok(());
    }
    seen.want();
    let is_newest = past.newest().same(newest);
    seen.right(is_newest, "the newest colouring after a refused one");
    let holds_both = past.holds(first) && past.holds(newest);
    seen.right(holds_both, "a stretch after a refused colouring");
    seen.right(!past.holds(board), "a past after a refused colouring");
    let again = push_or_restart(past, board, anew);
    seen.right(again.is_ok(), "a colouring asked for again");
    again
}

/// Adds a colouring, which begins a stretch if `anew`.
fn push_or_restart<P: Past>(past: &mut P, board: &Board, anew: bool) -> Result<(), MemoryFault>
    requires { HaveSide board.now.side (P.held past.old) }
    ensures ok { OnOk result (P.held past.new ≡ with_next (P.held past.old) board.now anew) }
    ensures err { OnErr result (P.held past.new ≡ P.held past.old) }
{
    if anew {
        past.restart(board)
    } else {
        past.push(board)
    }
}
