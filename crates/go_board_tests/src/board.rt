//! Worked examples of reaching, clearing, scores, moves and copies.

ghost use Rattle.std.specs.Prelude.{◌≡◌, ◌<◌};

use crate::given::{at, holds, size};
use go_board::{Board, Cell, Colour, Marks, Steps};
use std::process::Abort;

/// The cell that a letter stands for: black, white or empty.
fn cell(letter: u8) -> Cell {
    match letter {
        b'B' => Cell::Black,
        b'W' => Cell::White,
        _ => Cell::Empty,
    }
}

/// A board of side 3 with these cells, row by row from the top.
fn three(rt: &impl Abort, cells: &[u8; 9]) -> Board
    ensures { result.side ≡ 3 }
{
    let mut board = Board::empty(size(rt, 3));
    for index in 0..9u8 {
        board.set(at(index % 3, index / 3), cell(cells[usize::from(index)]));
    }
    board
}

/// Whether a board of side 3 has these cells.
fn has_cells(board: &Board, cells: &[u8; 9]) -> bool
    requires { board.now.side ≡ 3 }
{
    let mut is_so = true;
    for index in 0..9u8 {
        is_so &= board.at(at(index % 3, index / 3)) == cell(cells[usize::from(index)]);
    }
    is_so
}

/// Whether on a board of side 3 the points with an `x` are marked, and no others.
fn are_marked(marks: &Marks, points: &[u8; 9]) -> bool
    requires { marks.now.side ≡ 3 }
{
    let mut is_so = true;
    for index in 0..9u8 {
        is_so &= marks.has(at(index % 3, index / 3)) == (points[usize::from(index)] == b'x');
    }
    is_so
}

/// The points that reach such a cell on one board, and the number of steps that this takes.
fn reaching(rt: &impl Abort, kind: Cell, count: u64, points: &[u8; 9]) {
    let mut steps = Steps::new();
    let marks = three(rt, b"BW.W.....").reaching(kind, &mut steps);
    holds(rt, steps.count() == count, "the number of steps");
    holds(rt, are_marked(&marks, points), "the points marked");
}

/// The board must have this score.
fn scores_so(rt: &impl Abort, board: &Board, score: (u32, u32)) {
    holds(rt, board.score() == score, "the score");
}

#[test]
fn reaching_stones(rt: HostRuntime) {
    reaching(&rt, Cell::Empty, 8, b".xxxxxxxx");
    reaching(&rt, Cell::Black, 3, b"xx.x.....");
}

#[test]
fn reaching_nothing(rt: HostRuntime) {
    let mut steps = Steps::new();
    let marks = Board::empty(size(&rt, 25)).reaching(Cell::Black, &mut steps);
    holds(&rt, steps.count() == 0, "no steps");
    holds(&rt, !marks.has(at(24, 24)), "no mark");
    steps.tick();
    holds(&rt, steps.count() == 1, "one step");
}

#[test]
fn clearing(rt: HostRuntime) {
    let mut board = three(&rt, b"BW.W.....");
    holds(&rt, board.has_unreaching(), "a stone to clear");
    board.clear(Colour::Black);
    holds(&rt, has_cells(&board, b".W.W....."), "a stone cleared");
    holds(&rt, !board.has_unreaching(), "nothing to clear");
    scores_so(&rt, &board, (0, 9));
    let all_black = three(&rt, b"BBBBBBBBB");
    holds(&rt, all_black.has_unreaching(), "a full board");
}

#[test]
fn scores(rt: HostRuntime) {
    scores_so(&rt, &Board::empty(size(&rt, 3)), (0, 0));
    scores_so(&rt, &three(&rt, b"W...B...."), (1, 1));
    scores_so(&rt, &three(&rt, b".B.BBW.WW"), (4, 3));
}

/// The only stone of a board has all its points, until there is one of the other colour.
fn one_stone(rt: &impl Abort, side: u8, points: u32)
    requires { 0 < side }
{
    let mut board = Board::empty(size(rt, side));
    board.set(at(side - 1, side - 1), Cell::Black);
    scores_so(rt, &board, (points, 0));
    board.set(at(0, 0), Cell::White);
    scores_so(rt, &board, (1, 1));
}

/// The greatest board whose rows are filled in halves of words, and the smallest one whose rows are filled in whole words.
#[test]
fn scores_by_one_stone(rt: HostRuntime) {
    one_stone(&rt, 31, 961);
    one_stone(&rt, 32, 1024);
}

#[test]
fn moves(rt: HostRuntime) {
    let mut board = three(&rt, b"B.WWW....");
    if board.at(at(1, 0)) == Cell::Empty {
        board.place(Colour::Black, at(1, 0));
    }
    is_three(&rt, &board, b"..WWW....");
    scores_so(&rt, &board, (0, 9));
    let mut single = Board::empty(size(&rt, 1));
    single.place(Colour::White, at(0, 0));
    let cell = single.at(at(0, 0));
    holds(&rt, cell == Cell::Empty, "the only point");
}

/// The board must be the one of side 3 with these cells.
fn is_three(rt: &impl Abort, board: &Board, cells: &[u8; 9]) {
    holds(rt, board.same(&three(rt, cells)), "the cells");
}

#[test]
fn copies(rt: HostRuntime) {
    let board = three(&rt, b"BW.W....B");
    let mut other = board.copy();
    holds(&rt, other.same(&board), "a copy");
    holds(&rt, other.size() == size(&rt, 3), "its size");
    other.set(at(1, 1), Cell::White);
    holds(&rt, !other.same(&board), "another copy");
    is_three(&rt, &other, b"BW.WW...B");
    let four = Board::empty(size(&rt, 4));
    holds(&rt, !board.same(&four), "another size");
}
