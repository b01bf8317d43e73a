//! A joseki dictionary: one game whose variations branch again and again, in a corner. It has each sequence in all corners.

use crate::chance::Chance;
use crate::goban::{Goban, PASS, Player};
use crate::texts::parts::{Lists, Manner, Part, add_parts};
use crate::texts::{Text, Words};
use std::alloc::Global;

/// A branch that is still open.
#[derive(Clone, Copy)]
struct Branch {
    /// How many more variations begin where it ends.
    left: usize,
    /// How many moves the line has up to its end.
    depth: usize,
}

/// A tree that grows.
#[derive(Drop)]
struct Growth {
    goban: Goban,
    /// The moves from the root up to where the tree grows.
    line: Vec<u16>,
    /// The branches on the way there, the root first.
    open: Vec<Branch>,
}

impl Growth {
    /// A tree that is a root alone.
    fn new(alloc: Global, tree: &mut Lists) -> Growth {
        let mut growth = Growth {
            goban: Goban::new(12),
            line: Vec::new(alloc),
            open: Vec::new(alloc),
        };
        growth.add(tree, 1 << 30, 0);
        growth
    }

    /// Adds a branch that is open.
    fn add(&mut self, tree: &mut Lists, left: usize, depth: usize) {
        tree.keep(self.open.push(Branch { left, depth }).is_ok());
    }

    /// Adds the end of the newest branch, if it isn't the root.
    fn close(&self, tree: &mut Lists) {
        if !self.open.is_empty() {
            tree.add(Part::Close);
        }
    }

    /// Adds a variation that begins where a branch ends. The branch stays open.
    fn go_on(&mut self, tree: &mut Lists, branch: Branch, chance: &mut Chance) {
        self.add(tree, branch.left.saturating_sub(1), branch.depth);
        self.line.truncate(branch.depth);
        self.goban.set_line(12, &self.line);
        tree.add(Part::Open);
        let moves = 1 + chance.below(4).min(3);
        add_branch(tree, &mut self.goban, &mut self.line, moves, chance);
        let depth = self.line.len();
        self.add(tree, variations_at(depth, chance), depth);
    }
}

/// How many variations begin after so many moves.
fn variations_at(depth: usize, chance: &mut Chance) -> usize {
    if depth < 40 {
        2 + chance.below(3).min(2)
    } else {
        0
    }
}

/// One list of about `parts` parts. Branches have one to four moves, and two to four variations after them.
fn make_tree(alloc: Global, parts: usize, chance: &mut Chance) -> Lists {
    let mut tree = Lists::new(alloc);
    let mut growth = Growth::new(alloc, &mut tree);
    for _ in 0..parts {
        let Some(branch) = growth.open.pop() else {
            break;
        };
        if branch.left == 0 || tree.parts() >= parts {
            growth.close(&mut tree);
        } else {
            growth.go_on(&mut tree, branch, chance);
        }
    }
    tree.end();
    tree
}

/// Adds moves that go on with the line.
fn add_branch(
    tree: &mut Lists,
    goban: &mut Goban,
    line: &mut Vec<u16>,
    moves: usize,
    chance: &mut Chance,
) {
    for _ in 0..moves {
        let last = match line.last() {
            Some(point) => usize::from(*point),
            None => PASS,
        };
        let player = Player::at(line.len());
        let point = goban.play_on(player, last, chance);
        tree.keep(line.push((point % 4096) as u16).is_ok());
        tree.add_move(player, point);
    }
}

/// Adds a dictionary of eight times about so many parts.
pub(crate) fn add_joseki(
    alloc: Global,
    text: &mut Text,
    words: &Words,
    parts: usize,
    chance: &mut Chance,
) {
    let tree = make_tree(alloc, parts, chance);
    text.keep(!tree.is_cut());
    text.add_root(19);
    for turned in 0..8 {
        let manner = Manner {
            side: 19,
            turned,
            timed: false,
            comments: 16,
            words: 20,
        };
        add_parts(text, tree.list(0), words, manner, chance);
    }
    text.add(b")\n");
}
