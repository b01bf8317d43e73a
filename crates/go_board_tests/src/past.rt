//! Worked examples of a past.

ghost use Rattle.std.specs.Prelude.{◌≡◌};
ghost use Rattle.board_points.specs.Point.{IsOn};

use crate::given::{at, holds, size};
use crate::sided_past::SidedPast;
use go_board::{Board, Cell, ListPast, Past, Point, PrintPast};
use std::alloc::Global;
use std::process::Abort;

/// The board with one more stone.
fn with_stone(board: &Board, point: Point, cell: Cell) -> Board
    requires { IsOn board.now.side point }
    ensures { result.side ≡ board.now.side }
{
    let mut copy = board.copy();
    copy.set(point, cell);
    copy
}

/// If `anew`: whether the present stretch holds `white` alone. Else: whether
/// it holds `empty` and `black`, and not `white`.
fn has_alone<P: Past>(
    past: &SidedPast<P>,
    anew: bool,
    empty: &Board,
    black: &Board,
    white: &Board,
) -> bool
    requires empty { empty.now.side ≡ past.now }
    requires black { black.now.side ≡ past.now }
    requires white { white.now.side ≡ past.now }
{
    past.holds(empty) != anew && past.holds(black) != anew && past.holds(white) == anew
}

/// A new stretch hides the earlier colourings, until the stretch is taken back. The past is first of the empty board alone.
fn begins_anew<P: Past>(rt: &impl Abort, alloc: Global) {
    let empty = Board::empty(size(rt, 3));
    let mut past = SidedPast::<P>::new(rt, alloc, &empty);
    let black = with_stone(&empty, at(0, 0), Cell::Black);
    let white = with_stone(&empty, at(1, 1), Cell::White);
    past.push(rt, &black);
    holds(rt, past.holds(&empty), "the first colouring");
    past.restart(rt, &white);
    let is_alone = has_alone(&past, true, &empty, &black, &white);
    holds(rt, is_alone, "a new stretch");
    past.pop();
    let is_alone = has_alone(&past, false, &empty, &black, &white);
    holds(rt, is_alone, "the stretch before it");
    holds(rt, past.newest().same(&black), "the newest colouring");
}

/// A past that holds one colouring doesn't hold another whose print has the same low bits.
fn prints_alike<P: Past>(rt: &impl Abort, alloc: Global) {
    let empty = Board::empty(size(rt, 25));
    let inner = with_stone(&empty, at(12, 4), Cell::Black);
    let last = with_stone(&empty, at(24, 24), Cell::Black);
    let past = SidedPast::<P>::new(rt, alloc, &inner);
    holds(rt, past.holds(&inner), "what a past has");
    holds(rt, !past.holds(&last), "what a past doesn't have");
}

#[test]
fn both_pasts(rt: HostRuntime) {
    begins_anew::<ListPast>(&rt, rt.alloc());
    begins_anew::<PrintPast>(&rt, rt.alloc());
    prints_alike::<ListPast>(&rt, rt.alloc());
    prints_alike::<PrintPast>(&rt, rt.alloc());
}
