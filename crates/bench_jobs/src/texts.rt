//! Texts that are made up: what all kinds of them share. Games are made up as lists of parts, since each list serves for eight games: a
//! board can be turned eight ways.
//!
//! - `parts` has such lists. `games` has whole games, `joseki` a tree of variations, `problems` setups with short answers, and
//!   `awkward` what is rare in libraries, and hard.

pub(crate) mod awkward;
pub(crate) mod games;
pub(crate) mod joseki;
pub(crate) mod parts;
pub(crate) mod problems;

use crate::chance::Chance;
use crate::goban::{PASS, Player, place};
use std::alloc::Global;

/// A text that grows.
#[derive(Drop)]
pub(crate) struct Text {
    bytes: Vec<u8>,
    /// Whether memory was refused, so that something is missing, in this text or in one before it.
    is_cut: bool,
}

impl Text {
    /// An empty text.
    pub(crate) fn new(alloc: Global) -> Text {
        Text {
            bytes: Vec::new(alloc),
            is_cut: false,
        }
    }

    /// Whether memory was refused to the text.
    pub(crate) fn is_cut(&self) -> bool {
        self.is_cut
    }

    /// The bytes.
    pub(crate) fn bytes(&self) -> &[u8] {
        &self.bytes
    }

    /// The bytes between two offsets.
    fn part(&self, start: usize, end: usize) -> &[u8] {
        if start <= end && end <= self.bytes.len() {
            &self.bytes[start..end]
        } else {
            &[]
        }
    }

    /// The number of bytes.
    pub(crate) fn len(&self) -> usize {
        self.bytes.len()
    }

    /// Empties the text.
    pub(crate) fn clear(&mut self) {
        self.bytes.clear();
    }

    /// Adds bytes.
    pub(crate) fn add(&mut self, bytes: &[u8]) {
        let is_kept = self.bytes.extend_from_slice(bytes).is_ok();
        self.keep(is_kept);
    }

    /// Notes that something is missing, unless `is_kept` is true.
    pub(crate) fn keep(&mut self, is_kept: bool) {
        self.is_cut = self.is_cut || !is_kept;
    }

    /// Adds a number below 1,000.
    pub(crate) fn add_number(&mut self, number: usize) {
        self.add(&[digit(number / 100), digit(number / 10), digit(number)]);
    }

    /// Adds the beginning of a game.
    pub(crate) fn add_root(&mut self, side: usize) {
        self.add(b"(;GM[1]FF[4]SZ[");
        self.add_number(side);
        self.add(b"]");
    }

    /// Adds a node with a move. `turned` picks one of the eight ways to turn the board.
    pub(crate) fn add_move(&mut self, player: Player, point: usize, side: usize, turned: usize) {
        if point == PASS {
            return self.add(&[b';', player.letter(), b'[', b']']);
        }
        let (col, row) = letters(point, side, turned);
        self.add(&[b';', player.letter(), b'[', col, row, b']']);
    }

    /// Adds the value of a setup property.
    pub(crate) fn add_stone(&mut self, point: usize, side: usize, turned: usize) {
        let (col, row) = letters(point, side, turned);
        self.add(&[b'[', col, row, b']']);
    }
}

/// The last digit of a number.
fn digit(number: usize) -> u8 {
    b'0' + (number % 10) as u8
}

/// The letters of a point's column and row, once the board was turned.
fn letters(point: usize, side: usize, turned: usize) -> (u8, u8) {
    let (mut col, mut row) = place(point);
    if turned % 2 == 1 {
        col = side.saturating_sub(1).saturating_sub(col);
    }
    if turned / 2 % 2 == 1 {
        row = side.saturating_sub(1).saturating_sub(row);
    }
    if turned / 4 % 2 == 1 {
        (letter(row), letter(col))
    } else {
        (letter(col), letter(row))
    }
}

/// The letter of a column or a row.
fn letter(number: usize) -> u8 {
    if number < 26 {
        b'a' + number as u8
    } else {
        b'A' + (number % 26) as u8
    }
}

/// Words for comments, some with escapes.
#[derive(Drop)]
pub(crate) struct Words {
    text: Text,
    /// Where the words end.
    ends: Vec<usize>,
}

/// Some words. None is empty.
const WORDS: [&str; 12] = [
    "sente ",
    "gote ",
    "hane ",
    "cut ",
    "ko [atari\\] ",
    "shape\n",
    "moyo ",
    "3\\:2 ",
    "ladder ",
    "reading\\\\ ",
    "thick ",
    "aji, ",
];

impl Words {
    /// So many words in a row.
    pub(crate) fn new(alloc: Global, count: usize, chance: &mut Chance) -> Words {
        let mut words = Words {
            text: Text::new(alloc),
            ends: Vec::new(alloc),
        };
        for _ in 0..count {
            words.text.add(WORDS[chance.below(12)].as_bytes());
            let is_kept = words.ends.push(words.text.len()).is_ok();
            words.text.keep(is_kept);
        }
        words
    }

    /// Where a word ends.
    fn end_of(&self, word: usize) -> usize {
        match self.ends.get(word) {
            Some(end) => *end,
            None => self.text.len(),
        }
    }

    /// Adds a comment to a text: up to so many of the words that follow one another somewhere.
    pub(crate) fn add_comment(&self, text: &mut Text, most: usize, chance: &mut Chance) {
        let first = chance.below(self.ends.len());
        let start = self.end_of(first);
        let end = self.end_of(first.saturating_add(chance.below(most)));
        text.keep(!self.text.is_cut());
        text.add(b"C[");
        text.add(self.text.part(start, end));
        text.add(b"]");
    }
}
