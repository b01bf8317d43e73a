//! Whole games, and libraries of them.

ghost use Rattle.std.specs.Prelude.{◌≤◌, IfSome, length};

use crate::chance::Chance;
use crate::goban::{Goban, PASS, Player};
use crate::texts::parts::{Lists, Manner, Part, add_parts};
use crate::texts::{Text, Words};
use std::alloc::Global;

/// Games, each as the text after its root, once for each way to turn the board.
#[derive(Drop)]
pub(crate) struct Games {
    bodies: Text,
    /// Where the last node of each body begins, and where the body ends.
    ends: Vec<(usize, usize)>,
}

/// How often a body can be cut off.
const CUTS: usize = 16;

impl Games {
    /// Eight times so many games on 19 by 19 with up to `moves` moves, at least half of these.
    pub(crate) fn new(
        alloc: Global,
        count: usize,
        moves: usize,
        words: &Words,
        chance: &mut Chance,
    ) -> Games {
        let made = make_games(alloc, count, moves, chance);
        let mut games = Games {
            bodies: Text::new(alloc),
            ends: Vec::new(alloc),
        };
        games.bodies.keep(!made.is_cut());
        for number in 0..count {
            games.add_turned(number, made.list(number), words, chance);
        }
        games
    }

    /// Adds the game with this number once for each way to turn the board. Some end with two moves on the same point.
    fn add_turned(&mut self, number: usize, parts: &[Part], words: &Words, chance: &mut Chance) {
        for turned in 0..8 {
            let manner = Manner {
                side: 19,
                turned,
                timed: number % 4 == 0,
                comments: 32,
                words: 20,
            };
            // a game with variations can't go on after them
            let again = number % 10 != 9 && chance.once_in(50);
            let last = add_parts(&mut self.bodies, parts, words, manner, chance);
            if again {
                self.bodies.add(b";B[dd];W[dd]");
            }
            self.bodies.add(b")\n");
            let is_kept = self.ends.push((last, self.bodies.len())).is_ok();
            self.bodies.keep(is_kept);
        }
    }

    /// Where the last node of a body begins, and where the body ends; both 0 if there is no such body.
    fn ends(&self, number: usize) -> (usize, usize) {
        match self.ends.get(number) {
            Some(ends) => *ends,
            None => (0, 0),
        }
    }

    /// Where a body begins, where its last node begins, and where it ends.
    fn span(&self, number: usize) -> (usize, usize, usize) {
        let (_, start) = self.ends(number.wrapping_sub(1));
        let (last, end) = self.ends(number);
        (start, last, end)
    }

    /// Adds one of the games to a text, with a long header if `full` is true. Returns the place of its last node.
    pub(crate) fn add_one(&self, text: &mut Text, full: bool, chance: &mut Chance) -> usize {
        let (start, last, end) = self.span(chance.below(self.ends.len()));
        text.keep(!self.bodies.is_cut());
        text.add_root(19);
        if full {
            add_header(text, chance);
        }
        let place = text.len().wrapping_add(last).wrapping_sub(start);
        text.add(self.bodies.part(start, end));
        place
    }

    /// Adds one of the games to a text, without its last nodes: at most half of them. Up to 16 for each game, no two numbers give the
    /// same text.
    pub(crate) fn add_part(&self, text: &mut Text, number: usize, full: bool, chance: &mut Chance) {
        let count = self.ends.len().max(1);
        let cut = number / count % CUTS;
        text.keep(!self.bodies.is_cut());
        text.add(b"(;GM[1]FF[4]SZ[19]GN[Part ");
        text.add_number(cut);
        text.add(b"]");
        if full {
            add_header(text, chance);
        }
        self.add_front(text, number % count, cut);
    }

    /// Adds the front of a body, one of `CUTS`.
    fn add_front(&self, text: &mut Text, number: usize, cut: usize) {
        let (start, last, end) = self.span(number);
        let body = self.bodies.part(start, last);
        let half = body.len() / 2;
        match next_node(body, half.wrapping_add((half / CUTS).wrapping_mul(cut))) {
            Some(length) => add_closed(text, &body[..length]),
            None => text.add(self.bodies.part(start, end)),
        }
    }

    /// Adds a library of about `size` bytes. Returns the place of a line in its middle, if the line's last node is the last move.
    pub(crate) fn add_library(&self, text: &mut Text, size: usize, chance: &mut Chance) -> usize {
        let mut middle = 0;
        for _ in 0..size {
            if text.len() >= size {
                break;
            }
            let before = text.len();
            let last = self.add_one(text, true, chance);
            if before < size / 2 {
                middle = last;
            }
        }
        middle
    }
}

/// The first offset from `least` on at which a node begins that isn't the first of a variation; None if there is none.
fn next_node(body: &[u8], least: usize) -> Option<usize>
    ensures { IfSome result (λ offset. offset ≤ length body.now) }
{
    for i in least.max(1)..body.len() {
        if body[i] == b';' && body[i - 1] != b'(' {
            return Some(i);
        }
    }
    None
}

/// Adds the front of a body, and ends the variation, if one has begun, and the game. No comment has a parenthesis.
fn add_closed(text: &mut Text, front: &[u8]) {
    text.add(front);
    if front.contains(&b'(') {
        text.add(b")");
    }
    text.add(b")\n");
}

/// So many games on 19 by 19 with up to `moves` moves, at least half of these. Every tenth has a variation.
fn make_games(alloc: Global, count: usize, moves: usize, chance: &mut Chance) -> Lists {
    let mut games = Lists::new(alloc);
    let mut goban = Goban::new(19);
    let mut line: Vec<u16> = Vec::new(alloc);
    for number in 0..count {
        let length = (moves / 2).saturating_add(chance.below(moves / 2));
        games.keep(play_game(&mut goban, &mut line, length, chance));
        add_game(&mut games, &mut goban, &line, number % 10 == 9, chance);
    }
    games
}

/// Adds a game with the moves of a line. If `branches` is true, it has a variation.
fn add_game(
    games: &mut Lists,
    goban: &mut Goban,
    line: &[u16],
    branches: bool,
    chance: &mut Chance,
) {
    let branch = if branches {
        chance.below(line.len())
    } else {
        line.len()
    };
    add_line(games, line, 0, branch);
    if branch < line.len() {
        games.add(Part::Open);
        add_line(games, line, branch, line.len());
        games.add(Part::Close);
        games.add(Part::Open);
        add_variation(games, goban, line, branch, chance);
        games.add(Part::Close);
    }
    games.end();
}

/// Plays a game from an empty board. Returns whether all its moves were kept.
fn play_game(goban: &mut Goban, line: &mut Vec<u16>, length: usize, chance: &mut Chance) -> bool {
    goban.clear(19);
    line.clear();
    let mut is_kept = true;
    let mut player = Player::Black;
    let mut last = PASS;
    for _ in 0..length {
        last = goban.play_on(player, last, chance);
        is_kept &= line.push((last % 4096) as u16).is_ok();
        player = player.other();
    }
    is_kept
}

/// Adds some of the moves of a line.
fn add_line(games: &mut Lists, line: &[u16], start: usize, end: usize) {
    for (i, point) in line.iter().enumerate() {
        if start <= i && i < end {
            games.add_move(Player::at(i), usize::from(*point));
        }
    }
}

/// Adds moves that follow the first `branch` moves of a line.
fn add_variation(
    games: &mut Lists,
    goban: &mut Goban,
    line: &[u16],
    branch: usize,
    chance: &mut Chance,
) {
    goban.clear(19);
    for (i, point) in line.iter().enumerate() {
        if i < branch {
            goban.play(Player::at(i), usize::from(*point));
        }
    }
    let moves = chance.below(30).saturating_add(1);
    games.add_moves(goban, Player::at(branch), moves, chance);
}

/// What stands before each number in the rest of a root.
const HEADER: [&[u8]; 3] = [
    b"CA[UTF-8]KM[6.5]RU[Japanese]\nPB[Player ",
    b"]PW[Player ",
    b"]BR[5d]WR[4d]DT[2010-06-18]EV[Round ",
];

/// Adds the rest of a root.
fn add_header(text: &mut Text, chance: &mut Chance) {
    for words in &HEADER {
        text.add(words);
        text.add_number(chance.below(1000));
    }
    text.add(b"]RE[B+R]TM[2700]\n");
}
