//! Texts with as many games, variations and nodes as there is room for at most at first, with one less, and with more. The room goes by the
//! length of a text, and these texts are short. So each of them needs more room than it is given at first. Values as long as those whose
//! lengths are kept, one byte shorter, and longer.

ghost use Rattle.std.specs.Prelude.{◌<◌};

use crate::seen::Seen;
use crate::tree::collection;
use sgf_tree::{Collection, Extent, ReadFault, read_extent};
use std::alloc::Global;

/// The number of bytes of the longest text of many nodes.
const MOST: usize = 603;

/// The number of bytes of the longest text of long values.
const LONGEST: usize = 25_000;

/// How many games, variations or nodes the texts have.
const COUNTS: [usize; 7] = [15, 16, 17, 127, 128, 129, 200];

/// What a text has many of, each a node.
#[derive(Clone, Copy, PartialEq, Eq)]
enum Many {
    /// The text is `(;)(;)..(;)`.
    Games,
    /// The text is `(;(;)(;)..(;))`.
    Variations,
    /// The text is `(;;..;)`.
    Nodes,
}

/// Reads the texts, and measures them.
pub fn calls(alloc: Global, seen: &mut Seen) {
    for &count in &COUNTS {
        seen.growth("reading games");
        reads(alloc, Many::Games, count, seen);
        seen.growth("reading variations");
        reads(alloc, Many::Variations, count, seen);
        seen.growth("reading nodes");
        reads(alloc, Many::Nodes, count, seen);
    }
    seen.growth("measuring long values");
    for &length in &[4_095, 4_096, 4_097] {
        values(alloc, length, seen);
    }
    seen.growth("");
}

/// Reads a text with so many games, variations or nodes, and measures it.
fn reads(alloc: Global, many: Many, count: usize, seen: &mut Seen)
    requires { count < 201 }
{
    let mut text = [b';'; MOST];
    let length = spell(many, count, &mut text);
    let text = front(&text, length);
    let (games, nodes, leaves) = match many {
        Many::Games => (count, count, count),
        Many::Variations => (1, count + 1, count),
        Many::Nodes => (1, count, 1),
    };
    if let Ok(collection) = collection(alloc, text, seen) {
        seen.right(collection.games() == games, "the number of games");
        seen.right(collection.nodes() == nodes, "the number of nodes");
        each_is_so(&collection, many, seen);
    }
    let extent = Extent {
        games,
        nodes,
        leaves,
    };
    measures(alloc, text, extent, false, seen);
}

/// Writes such a text, and returns its length. All bytes are `;` before.
fn spell(many: Many, count: usize, text: &mut [u8; MOST]) -> usize
    requires { count < 201 }
{
    if many == Many::Nodes {
        text[0] = b'(';
        text[(count + 1).min(MOST - 1)] = b')';
        return count + 2;
    }
    let first = if many == Many::Games { 0 } else { 2 };
    for i in first..MOST {
        text[i] = byte_of_games(i - first);
    }
    if many == Many::Games {
        return 3 * count;
    }
    text[0] = b'(';
    text[(3 * count + 2).min(MOST - 1)] = b')';
    3 * count + 3
}

/// Each node must be a game of its own, or a variation, unless it is the root of all; or go on from the one before, up to the last.
fn each_is_so(collection: &Collection<'_>, many: Many, seen: &mut Seen) {
    for i in 0..collection.nodes() {
        let place = collection.place(i);
        let last_below = collection.last_below(i);
        let is_so = match many {
            Many::Games => {
                let is_place = place == i.wrapping_mul(3).wrapping_add(1);
                collection.game_of(i) == i + 1 && last_below == i && is_place
            }
            Many::Variations => {
                let is_place = place == i.wrapping_mul(3);
                i == 0 || collection.parent(i) == Some(0) && last_below == i && is_place
            }
            Many::Nodes => {
                let is_last = i == collection.nodes() - 1;
                let is_place = place == i + 1 && last_below == collection.nodes() - 1;
                is_place && collection.is_leaf(i) == is_last
            }
        };
        seen.right(is_so, "one of many games, variations or nodes");
    }
}

/// The byte at offset `i` of `(;)(;)..(;)`.
fn byte_of_games(i: usize) -> u8 {
    match i % 3 {
        0 => b'(',
        1 => b';',
        _ => b')',
    }
}

/// The first `length` bytes, or none if there are fewer.
fn front(bytes: &[u8], length: usize) -> &[u8] {
    if length <= bytes.len() {
        &bytes[..length]
    } else {
        &[]
    }
}

/// Measures a game whose node has six values of so many bytes each.
fn values(alloc: Global, length: usize, seen: &mut Seen)
    requires { length < 4098 }
{
    let mut text = [b'x'; LONGEST];
    text[0] = b'(';
    text[1] = b';';
    text[2] = b'C';
    for i in 0..6 {
        text[(3 + i * (length + 2)).min(LONGEST - 1)] = b'[';
        text[(4 + i * (length + 2) + length).min(LONGEST - 1)] = b']';
    }
    let end = (3 + 6 * (length + 2)).min(LONGEST - 1);
    text[end] = b')';
    let text = front(&text, end + 1);
    let extent = Extent {
        games: 1,
        nodes: 1,
        leaves: 1,
    };
    measures(alloc, text, extent, length >= 4_096, seen);
}

/// Measures a text. If it has long values and memory was refused, measures it once more. Else no memory may be asked for.
fn measures(alloc: Global, text: &[u8], extent: Extent, is_long: bool, seen: &mut Seen) {
    seen.call();
    let measured = match read_extent(alloc, text) {
        Err(ReadFault::Memory) if is_long => {
            seen.want();
            read_extent(alloc, text)
        }
        measured => measured,
    };
    seen.right(measured == Ok(extent), "the extent of a text");
}
