//! Games with captures. Both kinds of past must return the same results, and undoing must restore each board.

use crate::given::{at, holds, holds_at, next_number};
use crate::referee::{answers, begin, scores, turn, undo};
use go_board::{Colour, ListPast, Past, Play, PrintPast, Reason, Referee, TurnFault};
use std::alloc::Global;
use std::process::Abort;

/// The column or the row that a number stands for.
fn coordinate(rt: &impl Abort, number: u64, side: u8) -> u8 {
    assert!(rt; side > 0);
    ((number >> 40) % u64::from(side)) as u8
}

/// Plays the same pseudorandom stones over both pasts. Both must return the same results, and the boards must be the same.
fn play_in_step(
    rt: &impl Abort,
    listed: &mut Referee<ListPast>,
    printed: &mut Referee<PrintPast>,
    side: u8,
    tries: u32,
) {
    let mut number = u64::from(side);
    let mut colour = Colour::Black;
    for i in 0..tries {
        let col = next_number(number);
        number = next_number(col);
        let point = at(coordinate(rt, col, side), coordinate(rt, number, side));
        let stone = Play::Stone(point);
        let answer = turn(rt, printed, colour, stone);
        answers(rt, listed, colour, stone, answer);
        if answer.is_ok() {
            colour = colour.opponent();
        }
        holds_at(rt, listed.board().same(printed.board()), "try", i, side);
    }
}

/// Takes back all turns over both pasts. The boards must be the same, and the last one empty.
fn undo_in_step(
    rt: &impl Abort,
    listed: &mut Referee<ListPast>,
    printed: &mut Referee<PrintPast>,
    side: u8,
    tries: u32,
) {
    for i in 0..tries {
        holds_at(rt, listed.depth() == printed.depth(), "depth", i, side);
        if listed.depth() == 0 {
            break;
        }
        undo(rt, listed);
        undo(rt, printed);
        holds_at(rt, listed.board().same(printed.board()), "undo", i, side);
    }
    scores(rt, printed, (0, 0));
}

/// Plays the same pseudorandom stones over both pasts, and then takes all of them back.
fn same_game(rt: &impl Abort, alloc: Global, side: u8, tries: u32) {
    let mut listed = begin::<ListPast>(rt, alloc, side);
    let mut printed = begin::<PrintPast>(rt, alloc, side);
    play_in_step(rt, &mut listed, &mut printed, side, tries);
    undo_in_step(rt, &mut listed, &mut printed, side, tries);
}

/// The stones that lead to a ko. The last stone captures the one before it.
const INTO_KO: [(Colour, u8, u8); 9] = [
    (Colour::Black, 1, 0),
    (Colour::White, 2, 0),
    (Colour::Black, 0, 1),
    (Colour::White, 3, 1),
    (Colour::Black, 1, 2),
    (Colour::White, 2, 2),
    (Colour::Black, 3, 3),
    (Colour::White, 1, 1),
    (Colour::Black, 2, 1),
];

/// A turn of White has this result. If it is legal, it is taken back. The board must be as before.
fn tries<P: Past>(
    rt: &impl Abort,
    game: &mut Referee<P>,
    col: u8,
    row: u8,
    answer: Result<(), TurnFault>,
) {
    let before = game.board().copy();
    answers(rt, game, Colour::White, Play::Stone(at(col, row)), answer);
    if answer.is_ok() {
        undo(rt, game);
    }
    holds(rt, game.board().same(&before), "the board as before");
}

/// A ko: a stone is captured, and its capturer can't be captured back at once.
fn ko<P: Past>(rt: &impl Abort, alloc: Global) {
    let mut game = begin::<P>(rt, alloc, 4);
    for &(colour, col, row) in &INTO_KO {
        answers(rt, &mut game, colour, Play::Stone(at(col, row)), Ok(()));
    }
    let repeat = Err(TurnFault::Illegal(Reason::Repeat));
    tries(rt, &mut game, 1, 1, repeat);
    tries(rt, &mut game, 0, 3, Ok(()));
}

/// A board of side 9 is filled with black stones, except for its last point, while White passes. Then the eighty stones are captured at once
/// by a white stone on the last point, and an undo restores them.
fn large_capture<P: Past>(rt: &impl Abort, alloc: Global) {
    let mut game = begin::<P>(rt, alloc, 9);
    for index in 0..80u8 {
        if index > 0 {
            answers(rt, &mut game, Colour::White, Play::Pass, Ok(()));
        }
        let stone = Play::Stone(at(index % 9, index / 9));
        answers(rt, &mut game, Colour::Black, stone, Ok(()));
    }
    answers(rt, &mut game, Colour::White, Play::Stone(at(8, 8)), Ok(()));
    scores(rt, &game, (0, 81));
    undo(rt, &mut game);
    scores(rt, &game, (81, 0));
}

#[test]
fn games_with_captures(rt: HostRuntime) {
    for &(side, tries) in &[(1, 8), (2, 60), (3, 300), (9, 900), (19, 1200)] {
        same_game(&rt, rt.alloc(), side, tries);
    }
}

#[test]
fn captures_over_both_pasts(rt: HostRuntime) {
    ko::<ListPast>(&rt, rt.alloc());
    ko::<PrintPast>(&rt, rt.alloc());
    large_capture::<ListPast>(&rt, rt.alloc());
    large_capture::<PrintPast>(&rt, rt.alloc());
}
