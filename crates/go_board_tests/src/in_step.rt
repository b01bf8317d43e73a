//! The same calls of both pasts. After each call, both must have the same newest colouring, and hold the same colourings.

ghost use Rattle.std.specs.Prelude.{◌≡◌};
ghost use Rattle.board_points.specs.Point.{IsOn};

use crate::given::{at, holds_at, next_number, size};
use crate::sided_past::SidedPast;
use go_board::{Board, Cell, Colour, ListPast, MAX_POINTS, MAX_SIDE, Past, Point, PrintPast};
use std::alloc::Global;
use std::process::Abort;

/// Makes the call of a past that a number stands for. Returns false if that is to play a stone, and the stone isn't added.
fn call<P: Past>(rt: &impl Abort, past: &mut SidedPast<P>, number: u64) -> bool
    ensures { past.new ≡ past.old }
{
    let board = numbered(rt, past.side(), number >> 48);
    let colour = if number >> 40 & 1 == 0 {
        Colour::Black
    } else {
        Colour::White
    };
    let point = point_at(rt, past.side(), (number >> 32) as usize % 16);
    match number >> 60 {
        0 => past.restart(rt, &board),
        1 => past.set_up(rt, colour.stone(), point),
        2..=4 => past.pop(),
        5..=9 => return past.play(rt, colour, point),
        _ => past.push(rt, &board),
    }
    true
}

/// Whether both pasts have the same newest colouring, and both or neither hold the one with this number.
fn agree(
    rt: &impl Abort,
    listed: &SidedPast<ListPast>,
    printed: &SidedPast<PrintPast>,
    number: u64,
) -> bool {
    let board = numbered(rt, listed.side(), number >> 48);
    // for the proof: `holds` needs a board of this side
    assert!(rt; printed.side() == listed.side());
    listed.newest().same(printed.newest()) && listed.holds(&board) == printed.holds(&board)
}

/// The point with an index, row by row from the top, from left to right. If the board has fewer points, counting begins again.
fn point_at(rt: &impl Abort, side: u8, index: usize) -> Point
    ensures { IsOn side result }
{
    assert!(rt; side > 0);
    let side = usize::from(side);
    let (col, row) = (index % side, index / side % side);
    at(col as u8, row as u8)
}

/// One of 64 colourings. On the largest board all of them have the same print.
fn numbered(rt: &impl Abort, side: u8, number: u64) -> Board
    ensures { result.side ≡ side }
{
    let mut board = Board::empty(size(rt, side));
    if side == MAX_SIDE {
        for group in 0..6usize {
            put_alike(rt, &mut board, group, number >> group & 1 == 1);
        }
    } else {
        put_digits(rt, &mut board, number % 64);
    }
    assert!(rt; board.size().side() == side);
    board
}

/// Puts stones on one of two sets of points that add the same to the print of the largest board; `odd` chooses one.
///
/// A black stone adds a power of 31. The five numbers 31^64 - 1, 31^128 - 1, 31^256 - 1, 31^512 - 1 and 31^1024 - 1 are divisible by 2^11,
/// 2^12, 2^13, 2^14 and 2^15. So their product is 0 modulo 2^64. Multiplied out, it is the sum of the powers 31^(64 j) with j from 0 to
/// 31: those with an odd number of set bits in j are added, and the others are subtracted.
fn put_alike(rt: &impl Abort, board: &mut Board, group: usize, odd: bool) {
    assert!(rt; group < 64);
    for j in 0..32usize {
        if (j.count_ones() % 2 == 1) == odd {
            set(rt, board, MAX_POINTS - 1 - 64 * j - group, Cell::Black);
        }
    }
}

/// Puts the digits of a number in base 3 on the first points.
fn put_digits(rt: &impl Abort, board: &mut Board, number: u64) {
    let mut left = number;
    for index in 0..4 {
        set(
            rt,
            board,
            index,
            [Cell::Empty, Cell::Black, Cell::White][(left % 3) as usize],
        );
        left /= 3;
    }
}

/// Changes what stands on the point with an index.
fn set(rt: &impl Abort, board: &mut Board, index: usize, cell: Cell) {
    let point = point_at(rt, board.size().side(), index);
    board.set(point, cell);
}

/// Makes the same calls of both pasts on boards of one side. Each call must return the same from both, and after it they must agree.
fn calls(rt: &impl Abort, alloc: Global, side: u8, count: u32) {
    let first = numbered(rt, side, 0);
    let mut listed = SidedPast::<ListPast>::new(rt, alloc, &first);
    let mut printed = SidedPast::<PrintPast>::new(rt, alloc, &first);
    let mut number = u64::from(side);
    for i in 0..count {
        let is_so = call(rt, &mut listed, number) == call(rt, &mut printed, number);
        holds_at(rt, is_so, "call", i, side);
        for _ in 0..4 {
            let is_so = agree(rt, &listed, &printed, number);
            holds_at(rt, is_so, "after call", i, side);
            number = next_number(number);
        }
    }
}

#[test]
fn pasts_in_step(rt: HostRuntime) {
    for &(side, count) in &[(1, 200), (2, 1000), (3, 1000), (4, 1000), (52, 1500)] {
        calls(&rt, rt.alloc(), side, count);
    }
}
