//! Moves one after the other, on boards whose stones are all known to have liberties. Also a move after points were set.

ghost use Rattle.board_points.specs.Point.{IsOn};

use crate::given::{holds, size};
use go_board::{Board, Cell, Colour, Point};
use std::process::Abort;

/// The point with this column and row, which must be on the board.
fn on(rt: &impl Abort, board: &Board, col: u8, row: u8) -> Point
    ensures { IsOn board.now.side result }
{
    let side = board.size().side();
    assert!(rt; col < side && row < side);
    Point { col, row }
}

/// Plays a stone on an empty point of the board.
fn play(rt: &impl Abort, board: &mut Board, colour: Colour, col: u8, row: u8) {
    let point = on(rt, board, col, row);
    assert!(rt; board.at(point) == Cell::Empty);
    board.place(colour, point);
}

/// The number of black stones on the board, and that of white ones.
fn stones(board: &Board) -> (usize, usize) {
    let (mut black, mut white) = (0usize, 0usize);
    for row in 0..board.size().side() {
        for col in 0..board.size().side() {
            match board.at(Point { col, row }) {
                Cell::Black => black = black.saturating_add(1),
                Cell::White => white = white.saturating_add(1),
                Cell::Empty => {}
            }
        }
    }
    (black, white)
}

/// So many black stones must stand on the board, and so many white ones.
fn stand(rt: &impl Abort, board: &Board, left: (usize, usize), why: &str) {
    holds(rt, stones(board) == left, why);
}

/// Moves one after the other. Each has the numbers of black and white stones that stand after it, and a word on why.
const MOVES: [(Colour, u8, u8, (usize, usize), &str); 7] = [
    (Colour::Black, 1, 0, (1, 0), "one stone"),
    (Colour::White, 0, 0, (1, 1), "one liberty is left"),
    (Colour::Black, 0, 1, (2, 0), "no liberty is left"),
    (Colour::White, 0, 0, (2, 0), "it has no liberty"),
    (Colour::White, 2, 0, (2, 1), "one liberty is left"),
    (Colour::White, 1, 1, (2, 2), "liberties are left"),
    (Colour::White, 0, 0, (1, 3), "the opponent's first"),
];

/// Stones that are set on an empty board.
const SET: [(u8, u8, Cell); 3] = [
    (0, 0, Cell::White),
    (1, 0, Cell::Black),
    (0, 1, Cell::Black),
];

#[test]
fn captures(rt: HostRuntime) {
    let mut board = Board::empty(size(&rt, 3));
    for &(colour, col, row, left, why) in &MOVES {
        play(&rt, &mut board, colour, col, row);
        stand(&rt, &board, left, why);
    }
}

#[test]
fn large_group(rt: HostRuntime) {
    let mut board = Board::empty(size(&rt, 9));
    for index in 0..80 {
        play(&rt, &mut board, Colour::Black, index % 9, index / 9);
    }
    stand(&rt, &board, (80, 0), "one liberty is left");
    play(&rt, &mut board, Colour::White, 8, 8);
    stand(&rt, &board, (0, 1), "no liberty is left");
}

#[test]
fn after_setting(rt: HostRuntime) {
    let mut board = Board::empty(size(&rt, 9));
    for &(col, row, cell) in &SET {
        board.set(on(&rt, &board, col, row), cell);
    }
    stand(&rt, &board, (2, 1), "stones that were set");
    play(&rt, &mut board, Colour::Black, 8, 8);
    stand(&rt, &board, (3, 0), "a stone far away had no liberty");
}
