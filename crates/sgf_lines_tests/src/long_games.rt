//! Two games, one with more turns and one with more setups than a referee and its past have room for at first. Memory may be refused
//! whenever they need more room.

use crate::referee::{Call, Shown, begin, make, undo};
use crate::seen::Seen;
use go_board::{Cell, Colour, Past, Play, Point, Reason, Rect, Referee};
use std::alloc::Global;

/// The side of the boards.
const SIDE: usize = 19;

/// The number of turns that fill sixteen rows.
const TURNS: usize = 16 * SIDE;

/// The number of setups.
const SETUPS: usize = 300;

/// The number of points in every other row, from the first to the last.
const POINTS: usize = 10 * SIDE;

/// Plays both games. The turns of the first have the name `turns`, and the setups of the second have the name `setups`.
pub fn calls<P: Past>(alloc: Global, turns: &'static str, setups: &'static str, seen: &mut Seen) {
    let Some(start) = begin::<P>(alloc, SIDE as u8, seen) else {
        return;
    };
    for is_of_turns in [true, false] {
        let name = if is_of_turns { turns } else { setups };
        if let Some(mut game) = begin::<P>(alloc, SIDE as u8, seen) {
            long_game(&mut game, &start, is_of_turns, name, seen);
        }
    }
}

/// Plays one of the games, and takes back all that was done. The game must then be like `start`, which stays at its beginning.
fn long_game<P: Past>(
    game: &mut Referee<P>,
    start: &Referee<P>,
    is_of_turns: bool,
    name: &'static str,
    seen: &mut Seen,
) {
    seen.growth(name);
    if is_of_turns {
        many_turns(game, seen);
    } else {
        many_setups(game, seen);
    }
    seen.growth("");
    for _ in 0..game.depth() {
        undo(game, seen);
    }
    let is_start = Shown::of(start).is_of(game);
    seen.right(is_start, "a long game after all undos");
}

/// The point with this number. Points are numbered row by row from 0.
fn point(number: usize) -> Point {
    Point {
        col: (number % SIDE) as u8,
        row: (number / SIDE).min(SIDE - 1) as u8,
    }
}

/// Black fills the points with odd numbers one after another, and White those with even numbers. So from the second row on, each of
/// Black's stones takes off the stone above it, and a white stone there would only repeat the board.
fn many_turns<P: Past>(game: &mut Referee<P>, seen: &mut Seen) {
    for number in 0..TURNS {
        let is_black = number % 2 == 0;
        let colour = if is_black {
            Colour::Black
        } else {
            Colour::White
        };
        play(game, colour, number ^ 1, Ok(()), seen);
        if is_black && number >= SIDE {
            let above = number - SIDE + 1;
            play(game, Colour::White, above, Err(Reason::Repeat), seen);
        }
    }
    // Black has 152 stones, and 143 points between them. White has the nine stones of the last row.
    seen.right(game.score() == (295, 9), "the score of many turns");
    for &(colour, turn, answer) in &END {
        make(game, Call::Turn(colour, turn), answer, seen);
    }
    seen.right(game.score() == (299, 11), "the score after the ko");
}

/// Plays a stone on the point with this number.
fn play<P: Past>(
    game: &mut Referee<P>,
    colour: Colour,
    number: usize,
    answer: Result<(), Reason>,
    seen: &mut Seen,
) {
    let stone = Play::Stone(point(number));
    make(game, Call::Turn(colour, stone), answer, seen);
}

/// A player, what he plays, and the result.
type Turn = (Colour, Play, Result<(), Reason>);

/// A ko in the two last rows, which White may not retake. Then Black plays where a stone was taken off in the second row.
const END: [Turn; 10] = [
    (
        Colour::Black,
        Play::Stone(Point { col: 2, row: 18 }),
        Ok(()),
    ),
    (
        Colour::White,
        Play::Stone(Point { col: 3, row: 18 }),
        Ok(()),
    ),
    (
        Colour::Black,
        Play::Stone(Point { col: 3, row: 17 }),
        Ok(()),
    ),
    (
        Colour::White,
        Play::Stone(Point { col: 4, row: 17 }),
        Ok(()),
    ),
    (Colour::Black, Play::Pass, Ok(())),
    (
        Colour::White,
        Play::Stone(Point { col: 5, row: 18 }),
        Ok(()),
    ),
    (
        Colour::Black,
        Play::Stone(Point { col: 4, row: 18 }),
        Ok(()),
    ),
    (
        Colour::White,
        Play::Stone(Point { col: 3, row: 18 }),
        Err(Reason::Repeat),
    ),
    (Colour::White, Play::Pass, Ok(())),
    (Colour::Black, Play::Stone(Point { col: 0, row: 0 }), Ok(())),
];

/// Sets up a stone on each point of every other row, first white ones, and then black ones in place of the first of them.
fn many_setups<P: Past>(game: &mut Referee<P>, seen: &mut Seen) {
    for number in 0..SETUPS {
        let cell = if number < POINTS {
            Cell::White
        } else {
            Cell::Black
        };
        let at = point(number % POINTS / SIDE * 2 * SIDE + number % SIDE);
        let area = Rect {
            first: at,
            last: at,
        };
        make(game, Call::Setup(cell, area), Ok(()), seen);
    }
    // Black has 110 stones and four rows between them, White has 80 stones and three rows.
    seen.right(game.score() == (186, 137), "the score of many setups");
}
