//! The calls of `sgf_tree` that ask for memory.

use crate::seen::Seen;
use sgf_tree::{Collection, NodeRef, PropRef, ReadFault, push_text, read};
use std::alloc::Global;

/// A game of two lines, which have the places 8 and 22.
pub const TWO: &[u8] = b"(;SZ[3](;B[aa])(;B[bb];W[aa]))";

/// For each node of `TWO`: its parent, its place, whether it is a leaf, and the last node below it.
const NODES: [(Option<usize>, usize, bool, usize); 4] = [
    (None, 1, false, 3),
    (Some(0), 8, true, 1),
    (Some(0), 16, false, 3),
    (Some(2), 22, true, 3),
];

/// Raw values, and their decoded text.
const TEXTS: [(&str, &str); 9] = [
    ("a\\\nb", "ab"),
    ("a\\\r\nb", "ab"),
    ("a\tb\r\nc\\:d", "a b\nc:d"),
    ("a\r\n\n\rb", "a\n\nb"),
    ("\n\r\n", "\n\n"),
    ("\\\\\\]", "\\]"),
    ("\\\t", " "),
    ("x\\", "x"),
    ("", ""),
];

/// Makes the calls.
pub fn calls(alloc: Global, seen: &mut Seen) {
    if let Ok(two) = collection(alloc, TWO, seen) {
        seen.right(is_two(&two), "the collection read");
    }
    first_faults(alloc, seen);
    names(alloc, seen);
    texts(alloc, seen);
}

/// A game without a node is faulty at byte 1. Each proper prefix of the game of two lines ends too early.
fn first_faults(alloc: Global, seen: &mut Seen) {
    let at = faulty_byte(alloc, b"(B[aa])", seen);
    seen.right(at == Some(1), "the first fault");
    for length in 0..TWO.len() {
        let at = faulty_byte(alloc, &TWO[..length], seen);
        seen.right(at == Some(length), "where a front ends");
    }
}

/// The offset of the first faulty byte of a text, from 0; None if the text is read.
fn faulty_byte(alloc: Global, text: &[u8], seen: &mut Seen) -> Option<usize> {
    match reading(alloc, text, seen) {
        Err(ReadFault::NotSgf { at }) => Some(at),
        _ => None,
    }
}

/// Reads a text, and reads it again if memory was refused.
fn reading<'a>(
    alloc: Global,
    text: &'a [u8],
    seen: &mut Seen,
) -> Result<Collection<'a>, ReadFault> {
    seen.call();
    match read(alloc, text) {
        Err(ReadFault::Memory) => {
            seen.want();
            read(alloc, text)
        }
        answer => answer,
    }
}

/// The collection that a text spells.
pub fn collection<'a>(
    alloc: Global,
    text: &'a [u8],
    seen: &mut Seen,
) -> Result<Collection<'a>, ReadFault> {
    let collection = reading(alloc, text, seen);
    seen.right(collection.is_ok(), "a text read");
    collection
}

/// Whether the collection has exactly the nodes of `TWO`.
fn is_two(collection: &Collection<'_>) -> bool {
    for (i, (parent, place, is_leaf, last_below)) in NODES.iter().enumerate() {
        if i >= collection.nodes()
            || collection.game_of(i) != 1
            || collection.parent(i) != *parent
            || collection.place(i) != *place
            || collection.is_leaf(i) != *is_leaf
            || collection.last_below(i) != *last_below
        {
            return false;
        }
    }
    collection.games() == 1 && collection.nodes() == NODES.len()
}

/// Reads a game of one node, and appends a name and the node to a vector.
fn names(alloc: Global, seen: &mut Seen) {
    if let Ok(collection) = collection(alloc, b"(;GaMe[1])", seen) {
        let mut out = Vec::new(alloc);
        name(&collection, &mut out, seen);
    }
}

/// Appends a byte to an empty vector, then the name of the property of a node, and then the node.
fn name(collection: &Collection<'_>, out: &mut Vec<u8>, seen: &mut Seen) {
    if collection.nodes() == 0 {
        return seen.wrong("a collection without nodes");
    }
    let Some(property) = collection.node(0).first(b"GM") else {
        return seen.wrong("no property of the name");
    };
    append_text(b"x", b"", out, seen);
    append_name(&property, b"x", out, seen);
    seen.right(out.as_slice() == b"xGM".as_slice(), "a name appended");
    append_node(&collection.node(0), b"xGM", out, seen);
    seen.right(out.as_slice() == b"xGM;GM[1]".as_slice(), "a node appended");
}

/// Appends a name to a vector with these bytes. If memory was refused, the
/// vector must be unchanged, and the name is appended once more.
fn append_name(property: &PropRef<'_>, before: &[u8], out: &mut Vec<u8>, seen: &mut Seen) {
    seen.call();
    if property.push_name(out).is_err() {
        seen.want();
        seen.right(out.as_slice() == before, "a vector after a refused name");
        seen.right(property.push_name(out).is_ok(), "a name asked for again");
    }
}

/// Appends a node to a vector with these bytes. If memory was refused, the
/// vector must be unchanged, and the node is appended once more.
fn append_node(node: &NodeRef<'_, '_>, before: &[u8], out: &mut Vec<u8>, seen: &mut Seen) {
    seen.call();
    if node.push_to(out).is_err() {
        seen.want();
        seen.right(out.as_slice() == before, "a vector after a refused node");
        seen.right(node.push_to(out).is_ok(), "a node asked for again");
    }
}

/// Appends each decoded text to an empty vector, and then once more.
fn texts(alloc: Global, seen: &mut Seen) {
    for (raw, text) in TEXTS {
        let mut out = Vec::new(alloc);
        text_twice(raw.as_bytes(), text.as_bytes(), &mut out, seen);
    }
}

/// Appends a decoded text to an empty vector, and then once more.
fn text_twice(raw: &[u8], text: &[u8], out: &mut Vec<u8>, seen: &mut Seen) {
    append_text(raw, b"", out, seen);
    seen.right(out.as_slice() == text, "a decoded text");
    append_text(raw, text, out, seen);
    let (first, second) = out.as_slice().split_at(out.len() / 2);
    let is_twice = first == text && second == text;
    seen.right(is_twice, "a decoded text after another");
}

/// Appends a decoded text to a vector with these bytes. If memory was refused, the
/// vector must be unchanged, and the text is appended once more.
fn append_text(raw: &[u8], before: &[u8], out: &mut Vec<u8>, seen: &mut Seen) {
    seen.call();
    if push_text(raw, out).is_err() {
        seen.want();
        seen.right(out.as_slice() == before, "a vector after a refused text");
        seen.right(push_text(raw, out).is_ok(), "a text asked for again");
    }
}
