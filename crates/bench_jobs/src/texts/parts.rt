//! Lists of the parts of games, and how they are written.

use crate::chance::Chance;
use crate::goban::{Goban, PASS, Player};
use crate::texts::{Text, Words};
use std::alloc::Global;

/// A part of a game.
#[derive(Clone, Copy)]
pub(crate) enum Part {
    /// A variation begins.
    Open,
    /// It ends.
    Close,
    /// A node with a move.
    Move(Player, u16),
    /// The values of AB or AW follow.
    Stones(Player),
    /// A stone of a setup.
    Stone(u16),
    /// The end of a problem's root.
    Asked,
    /// A comment on a right answer.
    Right,
}

/// Lists of parts.
#[derive(Drop)]
pub(crate) struct Lists {
    parts: Vec<Part>,
    /// Where each list ends.
    ends: Vec<usize>,
    /// Whether memory was refused, so that something is missing.
    is_cut: bool,
}

impl Lists {
    /// No lists.
    pub(crate) fn new(alloc: Global) -> Lists {
        Lists {
            parts: Vec::new(alloc),
            ends: Vec::new(alloc),
            is_cut: false,
        }
    }

    /// How many lists have ended.
    pub(crate) fn len(&self) -> usize {
        self.ends.len()
    }

    /// How many parts there are.
    pub(crate) fn parts(&self) -> usize {
        self.parts.len()
    }

    /// Adds a part to the list that hasn't ended.
    pub(crate) fn add(&mut self, part: Part) {
        let is_kept = self.parts.push(part).is_ok();
        self.keep(is_kept);
    }

    /// Notes that something is missing, unless `is_kept` is true.
    pub(crate) fn keep(&mut self, is_kept: bool) {
        self.is_cut = self.is_cut || !is_kept;
    }

    /// Whether memory was refused to the lists.
    pub(crate) fn is_cut(&self) -> bool {
        self.is_cut
    }

    /// Adds a move.
    pub(crate) fn add_move(&mut self, player: Player, point: usize) {
        self.add(Part::Move(player, (point % 4096) as u16));
    }

    /// Adds up to so many moves, the first one by this player.
    pub(crate) fn add_moves(
        &mut self,
        goban: &mut Goban,
        first: Player,
        moves: usize,
        chance: &mut Chance,
    ) {
        let mut player = first;
        let mut last = PASS;
        for _ in 0..moves {
            last = goban.play_on(player, last, chance);
            self.add_move(player, last);
            player = player.other();
        }
    }

    /// Ends a list.
    pub(crate) fn end(&mut self) {
        let is_kept = self.ends.push(self.parts.len()).is_ok();
        self.keep(is_kept);
    }

    /// A list that has ended.
    pub(crate) fn list(&self, number: usize) -> &[Part] {
        let end = match self.ends.get(number) {
            Some(end) => *end,
            None => 0,
        };
        let start = match self.ends.get(number.wrapping_sub(1)) {
            Some(start) => *start,
            None => 0,
        };
        if start <= end && end <= self.parts.len() {
            &self.parts[start..end]
        } else {
            &[]
        }
    }
}

/// How parts are written.
#[derive(Clone, Copy)]
pub(crate) struct Manner {
    pub(crate) side: usize,
    /// One of the eight ways to turn the board.
    pub(crate) turned: usize,
    /// Whether the time left is written after each move.
    pub(crate) timed: bool,
    /// One in so many moves has a comment.
    pub(crate) comments: usize,
    /// The most words of a comment.
    pub(crate) words: usize,
}

/// Adds parts to a text. Returns the place of the last node.
pub(crate) fn add_parts(
    text: &mut Text,
    parts: &[Part],
    words: &Words,
    manner: Manner,
    chance: &mut Chance,
) -> usize {
    let mut last = text.len();
    let mut until = chance.below(manner.comments);
    for part in parts {
        if let Part::Move(player, point) = *part {
            last = text.len();
            add_timed_move(text, player, usize::from(point), manner);
            if until == 0 {
                until = add_comment(text, words, manner, chance);
            }
            until = until.saturating_sub(1);
        } else {
            add_other(text, *part, manner);
        }
    }
    last
}

/// Adds a comment. Returns how many moves there are from this one to the next one with a comment.
fn add_comment(text: &mut Text, words: &Words, manner: Manner, chance: &mut Chance) -> usize {
    words.add_comment(text, manner.words, chance);
    text.add(b"\n");
    chance.below(2 * manner.comments.min(4096))
}

/// Adds a node with a move, and perhaps with the time left.
fn add_timed_move(text: &mut Text, player: Player, point: usize, manner: Manner) {
    let place = text.len();
    text.add_move(player, point, manner.side, manner.turned);
    if manner.timed {
        text.add(&[player.letter(), b'L', b'[', b'1']);
        text.add_number(place);
        text.add(b".5]");
    }
}

/// Adds a part that isn't a move.
fn add_other(text: &mut Text, part: Part, manner: Manner) {
    let bytes: &[u8] = match part {
        Part::Move(_, _) => b"",
        Part::Open => b"(",
        Part::Close => b")\n",
        Part::Stones(Player::Black) => b"AB",
        Part::Stones(Player::White) => b"AW",
        Part::Stone(point) => {
            return text.add_stone(usize::from(point), manner.side, manner.turned);
        }
        Part::Asked => b"PL[B]C[Black to play and live.]\n",
        Part::Right => b"C[RIGHT]",
    };
    text.add(bytes);
}
