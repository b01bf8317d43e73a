//! Problems: a position that is set up, and short answers to it.

use crate::chance::Chance;
use crate::goban::{Goban, PASS, Player};
use crate::texts::parts::{Lists, Manner, Part, add_parts};
use crate::texts::{Text, Words};
use std::alloc::Global;

/// So many problems in a corner, with 10 to 40 stones and two to ten answers of one to eight moves.
pub(crate) fn make_problems(alloc: Global, count: usize, chance: &mut Chance) -> Lists {
    let mut problems = Lists::new(alloc);
    let mut goban = Goban::new(9);
    let mut stones: Vec<u16> = Vec::new(alloc);
    for _ in 0..count {
        let most = chance.below(30).saturating_add(10);
        problems.keep(set_stones(&mut goban, &mut stones, most, chance));
        add_problem(&mut problems, &mut goban, &stones, chance);
    }
    problems
}

/// Adds a problem with these stones, which are black and white by turns.
fn add_problem(problems: &mut Lists, goban: &mut Goban, stones: &[u16], chance: &mut Chance) {
    problems.add(Part::Stones(Player::Black));
    add_stones(problems, stones, 0);
    problems.add(Part::Stones(Player::White));
    add_stones(problems, stones, 1);
    problems.add(Part::Asked);
    for _ in 0..chance.below(9).saturating_add(2) {
        goban.set_line(9, stones);
        add_answer(problems, goban, chance);
    }
    problems.end();
}

/// Puts stones of both players near one another. Returns whether all of them were kept.
fn set_stones(goban: &mut Goban, stones: &mut Vec<u16>, most: usize, chance: &mut Chance) -> bool {
    goban.clear(9);
    stones.clear();
    let mut is_kept = true;
    let mut last = PASS;
    for i in 0..most {
        if let Some(point) = goban.play_somewhere(Player::at(i), last, true, chance) {
            is_kept &= stones.push((point % 4096) as u16).is_ok();
            last = point;
        }
    }
    is_kept
}

/// Adds every second stone, from the one with this number on.
fn add_stones(problems: &mut Lists, stones: &[u16], first: usize) {
    for (i, point) in stones.iter().enumerate() {
        if i % 2 == first {
            problems.add(Part::Stone(*point));
        }
    }
}

/// Adds an answer.
fn add_answer(problems: &mut Lists, goban: &mut Goban, chance: &mut Chance) {
    problems.add(Part::Open);
    let moves = chance.below(8).saturating_add(1);
    problems.add_moves(goban, Player::Black, moves, chance);
    if chance.once_in(2) {
        problems.add(Part::Right);
    }
    problems.add(Part::Close);
}

/// Adds problems up to about `size` bytes.
pub(crate) fn add_problems(
    text: &mut Text,
    problems: &Lists,
    words: &Words,
    size: usize,
    chance: &mut Chance,
) {
    text.keep(!problems.is_cut());
    for _ in 0..size {
        if text.len() >= size {
            break;
        }
        add_problem_game(text, problems, words, chance);
    }
}

/// Adds a problem as a game.
fn add_problem_game(text: &mut Text, problems: &Lists, words: &Words, chance: &mut Chance) {
    let side = match chance.below(3) {
        0 => 9,
        1 => 13,
        _ => 19,
    };
    let manner = Manner {
        side,
        turned: chance.below(8),
        timed: false,
        comments: 32,
        words: 8,
    };
    let number = chance.below(problems.len());
    text.add_root(side);
    add_parts(text, problems.list(number), words, manner, chance);
    text.add(b")\n");
}
