//! Texts that are rare in libraries, and hard.

use crate::chance::Chance;
use crate::goban::{Goban, PASS, Player};
use crate::texts::parts::{Lists, Manner, Part, add_parts};
use crate::texts::{Text, Words};
use std::alloc::Global;

/// The sides of the boards that have fights.
const SIDES: [usize; 3] = [9, 19, 52];

/// So many games on the boards of each side in which nobody lives: captures and kos without end. First come all those of the first side.
pub(crate) fn make_fights(alloc: Global, count: usize, moves: usize, chance: &mut Chance) -> Lists {
    let mut fights = Lists::new(alloc);
    let mut goban = Goban::new(19);
    for number in 0..count.saturating_mul(3) {
        goban.clear(SIDES[number / count.max(1) % 3]);
        add_fight(&mut fights, &mut goban, moves, chance);
        fights.end();
    }
    fights
}

/// Adds a fight. Where the simplest ko forbids a move, and before every eighth move, there is a variation: the forbidden move, which
/// would bring a position back, or else a move on the point of the move before last, which often has a stone.
fn add_fight(fights: &mut Lists, goban: &mut Goban, moves: usize, chance: &mut Chance) {
    let mut player = Player::Black;
    let mut before = PASS;
    let mut last = PASS;
    let mut open = 0usize;
    for i in 0..moves {
        let near = if chance.once_in(3) { PASS } else { last };
        let forbidden = goban.forbidden();
        let point = goban
            .play_somewhere(player, near, false, chance)
            .unwrap_or(PASS);
        if point == PASS && last == PASS {
            break;
        }
        if forbidden != PASS || i % 8 == 7 {
            let other = if forbidden != PASS { forbidden } else { before };
            branch_off(fights, player, other);
            open = open.saturating_add(1);
        }
        fights.add_move(player, point);
        player = player.other();
        before = last;
        last = point;
    }
    close(fights, open);
}

/// Ends so many variations.
fn close(fights: &mut Lists, open: usize) {
    for _ in 0..open {
        fights.add(Part::Close);
    }
}

/// Adds a variation of one move, and opens the one in which the fight goes on.
fn branch_off(fights: &mut Lists, player: Player, point: usize) {
    fights.add(Part::Open);
    fights.add_move(player, point);
    fights.add(Part::Close);
    fights.add(Part::Open);
}

/// Adds a fight of each side as a game. The board is turned another way for each of eight numbers in a row.
pub(crate) fn add_fight_games(
    text: &mut Text,
    fights: &Lists,
    words: &Words,
    number: usize,
    chance: &mut Chance,
) {
    text.keep(!fights.is_cut());
    let count = fights.len() / 3;
    let number = number % count.saturating_mul(8).max(1);
    for (i, side) in SIDES.iter().enumerate() {
        let manner = Manner {
            side: *side,
            turned: number % 8,
            timed: false,
            comments: 512,
            words: 20,
        };
        text.add_root(*side);
        let fight = fights.list(i.saturating_mul(count).saturating_add(number / 8));
        add_parts(text, fight, words, manner, chance);
        text.add(b")\n");
    }
}

/// Adds a game with so many variations of one move, after the moves of a fight.
pub(crate) fn add_wide(
    text: &mut Text,
    words: &Words,
    goban: &mut Goban,
    moves: usize,
    variations: usize,
    chance: &mut Chance,
) {
    let player = add_moves(text, words, 0, goban, moves, chance);
    for _ in 0..variations {
        text.add(b"(");
        text.add_move(player, goban.anywhere(chance), 19, 0);
        text.add(b")");
    }
    text.add(b")\n");
}

/// Adds the beginning of a game, and so many moves from an empty board. Unless `most` is 0, each has a comment of up to so many words.
/// Returns the player of the next move.
fn add_moves(
    text: &mut Text,
    words: &Words,
    most: usize,
    goban: &mut Goban,
    moves: usize,
    chance: &mut Chance,
) -> Player {
    goban.clear(19);
    text.add_root(19);
    let mut player = Player::Black;
    let mut last = PASS;
    for _ in 0..moves {
        last = goban.play_on(player, last, chance);
        text.add_move(player, last, 19, 0);
        if most > 0 {
            words.add_comment(text, most, chance);
        }
        player = player.other();
    }
    player
}

/// Adds a game with a comment of pages at each of so many moves.
pub(crate) fn add_lecture(
    text: &mut Text,
    words: &Words,
    goban: &mut Goban,
    moves: usize,
    chance: &mut Chance,
) {
    add_moves(text, words, 4000, goban, moves, chance);
    text.add(b")\n");
}
