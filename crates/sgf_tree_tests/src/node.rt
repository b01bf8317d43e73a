//! Which nodes `NodeRef::front` and `SequenceNodes::next` recognize (no clause says that), and how the sgf form writes a node.

use sgf_tree::{Collection, NextNode, NodeRef, Outline, Properties, read};
use std::alloc::Global;
use std::process::Abort;

/// Whether `front` returns the first property, how many properties are left after it, and what the sgf form writes for the node.
type Look = (bool, usize, &'static str);

/// How many properties are left.
fn count(left: Properties<'_, '_>) -> usize {
    let mut count = 0usize;
    for _property in left {
        count = count.saturating_add(1);
    }
    count
}

/// Whether the text's first node is as wanted.
fn gives(alloc: Global, text: &str, want: Look) -> bool {
    match read(alloc, text.as_bytes()) {
        Ok(collection) => collection.nodes() > 0 && looks(alloc, &collection.node(0), want),
        Err(_) => false,
    }
}

/// Whether the node is as wanted.
fn looks(alloc: Global, node: &NodeRef<'_, '_>, want: Look) -> bool {
    let (told, left) = node.front();
    told.is_some() == want.0 && count(left) == want.1 && writes(alloc, node, want.2)
}

/// Whether the sgf form writes this for the node.
fn writes(alloc: Global, node: &NodeRef<'_, '_>, want: &str) -> bool {
    let mut text = Vec::new(alloc);
    node.push_to(&mut text).is_ok() && text.as_slice() == want.as_bytes()
}

/// Texts whose first node has a recognized move alone, and what the sgf form writes for it.
const MOVES_ALONE: [(&str, &str); 4] = [
    ("(;B[pd])", ";B[pd]"),
    ("(;B[pd];)", ";B[pd]"),
    ("(;B[pd] \n;)", ";B[pd]"),
    ("(;W[[:](;))", ";W[[:]"),
];

/// Texts whose first node has a recognized move and one more property, and what the sgf form writes for it.
const MOVES_BEFORE_ONE: [(&str, &str); 5] = [
    ("(;B[pd]BL[60])", ";B[pd]BL[60]"),
    ("(;B[pd]Cc [x])", ";B[pd]C[x]"),
    ("(;B[pd]C[x])", ";B[pd]C[x]"),
    ("(;B[pd] C[x])", ";B[pd]C[x]"),
    ("(;B[aa]AB[a] [b])", ";B[aa]AB[a][b]"),
];

/// Texts whose first node has a recognized move and two more properties, and what the sgf form writes for it.
const MOVES_BEFORE_TWO: [(&str, &str); 2] = [
    ("(;W[[:]C[x]C[y];)", ";W[[:]C[x]C[y]"),
    ("(;B[aa]C[x\\]][y] W[bb])", ";B[aa]C[x\\]][y]W[bb]"),
];

/// Texts whose first node has one property, not recognized, and what the sgf form writes for it.
const OTHERS: [(&str, &str); 10] = [
    ("(;B[pd][dp])", ";B[pd][dp]"),
    ("(;B[pd] [dp])", ";B[pd][dp]"),
    ("(;B[])", ";B[]"),
    ("(;B[p])", ";B[p]"),
    ("(;B[pdq])", ";B[pdq]"),
    ("(;B[\\d])", ";B[\\d]"),
    ("(;B[p\\]])", ";B[p\\]]"),
    ("(;AB[pd])", ";AB[pd]"),
    ("(; B[pd])", ";B[pd]"),
    ("(;B [pd])", ";B[pd]"),
];

/// Texts whose first node has two properties, the first not recognized, and what the sgf form writes for it.
const OTHER_PAIRS: [(&str, &str); 7] = [
    ("(;B[pd][dp]C[x])", ";B[pd][dp]C[x]"),
    ("(;B[pdq]C[x])", ";B[pdq]C[x]"),
    ("(;B[\\d]C[x])", ";B[\\d]C[x]"),
    ("(;AB[pd]C[x])", ";AB[pd]C[x]"),
    ("(; B[pd]C[x])", ";B[pd]C[x]"),
    ("(;GaMe[1]B[aa])", ";GM[1]B[aa]"),
    ("(;\nB[aa]PL[W]\n)", ";B[aa]PL[W]"),
];

/// For the first node of each text, `front` must return a property if `told` is true, and leave so many.
fn look_so(
    rt: &impl Abort,
    alloc: Global,
    nodes: &[(&'static str, &'static str)],
    told: bool,
    left: usize,
) {
    for &(text, form) in nodes {
        assert!(rt; gives(alloc, text, (told, left, form)), "of {text:?}");
    }
}

#[test]
fn nodes_at_a_glance(rt: HostRuntime) {
    look_so(&rt, rt.alloc(), &MOVES_ALONE, true, 0);
    look_so(&rt, rt.alloc(), &MOVES_BEFORE_ONE, true, 1);
    look_so(&rt, rt.alloc(), &MOVES_BEFORE_TWO, true, 2);
    look_so(&rt, rt.alloc(), &OTHERS, false, 1);
    look_so(&rt, rt.alloc(), &OTHER_PAIRS, false, 2);
    look_so(&rt, rt.alloc(), &[("(;)", ";")], false, 0);
}

/// The number of the root's properties, the number of their values, and the number of bytes of these values.
fn sizes(collection: &Collection<'_>) -> (usize, usize, usize) {
    let mut values = 0usize;
    let mut bytes = 0usize;
    if collection.nodes() == 0 {
        return (0, 0, 0);
    }
    let root = collection.node(0);
    for property in root.iter() {
        values = values.saturating_add(property.values());
        for value in property.iter() {
            bytes = bytes.saturating_add(value.len());
        }
    }
    (root.props(), values, bytes)
}

#[test]
fn properties_one_after_another(rt: HostRuntime) {
    let read = read(rt.alloc(), b"(;GM[1]AB[aa] [bb]\n[cc:dd]C[x\\]];B[ee])");
    assert!(rt;
        match read {
            Ok(collection) => sizes(&collection) == (3, 5, 13),
            Err(_) => false,
        }
    );
}

/// How a node should come.
#[derive(Clone, Copy)]
enum Comes<'w> {
    /// As recognized, with the same property as from `front`. The names of the other properties follow, each of two letters.
    Led(&'w str),
    /// As one without properties, at the first place.
    Empty,
    /// As unread, with the same property as from `front`.
    Unread,
}

/// Whether the text's first node comes as wanted.
fn first_comes(alloc: Global, text: &str, names: &[[u8; 2]], want: Comes<'_>) -> bool {
    match read(alloc, text.as_bytes()) {
        Ok(collection) => next_is(collection.outline(), names, want),
        Err(_) => false,
    }
}

/// Whether the first node of an outline comes so.
fn next_is(outline: &Outline<'_>, names: &[[u8; 2]], want: Comes<'_>) -> bool {
    if outline.sequences() == 0 {
        return false;
    }
    let (told, mut left) = outline.first_node(0).front();
    match (want, outline.sequence_nodes(0).next(names)) {
        (Comes::Led(others), Some(NextNode::Led { letter, value, .. })) => {
            told == Some((letter, value)) && are_named(&mut left, others.as_bytes())
        }
        (Comes::Empty, Some(NextNode::Empty { place })) => place == 1,
        (Comes::Unread, Some(NextNode::Unread { front, .. })) => front == told,
        _ => false,
    }
}

/// Whether the properties that are left have these names of two letters.
fn are_named(left: &mut Properties<'_, '_>, names: &[u8]) -> bool {
    for name in names.chunks(2) {
        let is_next = match left.next() {
            Some(property) => property.is(name),
            None => false,
        };
        if !is_next {
            return false;
        }
    }
    left.next().is_none()
}

/// The names of the properties that setups have.
const SETUP: [[u8; 2]; 4] = [*b"AB", *b"AW", *b"AE", *b"PL"];

/// Texts whose first node comes as recognized, and the names of its properties after the first.
const LED: [(&str, &str); 15] = [
    // a move alone, and what isn't a move of two bytes
    ("(;B[pd];C[0123456789])", ""),
    ("(;W[[:](;C[0123456789]))", ""),
    ("(;C[ab])(;C[0123456789])", ""),
    ("(;Z[  ];C[01234])", ""),
    // other properties
    ("(;B[pd]BL[921.325];C[012345678901234567])", "BL"),
    ("(;W[dp]WL[30]OW[3];C[012345678901234567])", "WLOW"),
    ("(;C[ab]TE[1](;C[012345678901234567]))", "TE"),
    ("(;B[pd]BL[])(;C[012345678901234567])", "BL"),
    // each of the names, and names like them
    ("(;B[pd]AR[aa:bb];C[012345678901234567])", "AR"),
    ("(;B[pd]BA[1]LP[2]PB[3];C[012345678901234567])", "BALPPB"),
    // the length of the value, and a backslash in it
    ("(;B[pd]BL[012345678901];C[012345678901234567])", "BL"),
    // further values, and white space
    ("(;B[pd] \n;C[012345678901234567])", ""),
    ("(;B[pd]BL[1]\r\n;C[012345678901234567])", "BL"),
    // the end of the text
    ("(;B[pd]BL[1];C[0123456])", "BL"),
    ("(;B[pd] ;C[0123])", ""),
];

/// Texts whose first node comes as unread.
const UNREAD: [&str; 35] = [
    // a move alone, and what isn't a move of two bytes
    "(;Z[  ];C[0123])",
    "(;B[pd][dp];C[012345678901234567])",
    "(;B[];C[012345678901234567])",
    "(;B[p];C[012345678901234567])",
    "(;B[p\\]];C[012345678901234567])",
    "(;B[\\d];C[012345678901234567])",
    "(; B[pd];C[012345678901234567])",
    "(;AB[pd];C[012345678901234567])",
    // other properties
    "(;B[pd]C[x];C[012345678901234567])",
    "(;B[pd]V[1];C[012345678901234567])",
    "(;B[pd]BLX[1];C[012345678901234567])",
    "(;B[pd]Bl[1];C[012345678901234567])",
    "(;B[pd]BLx[1];C[012345678901234567])",
    // each of the names, and names like them
    "(;B[pd]AB[aa];C[012345678901234567])",
    "(;B[pd]AW[aa];C[012345678901234567])",
    "(;B[pd]AE[aa];C[012345678901234567])",
    "(;B[pd]PL[W];C[012345678901234567])",
    "(;B[pd]BL[1]WL[2]AE[aa];C[012345678901234567])",
    // the length of the value, and a backslash in it
    "(;B[pd]BL[0123456789012];C[012345678901234567])",
    "(;B[pd]BL[\\1];C[012345678901234567])",
    "(;B[pd]BL[1\\\\2];C[012345678901234567])",
    "(;B[pd]BL[\\\\];C[012345678901234567])",
    "(;B[pd]BL[1\\\\];C[012345678901234567])",
    "(;B[pd]BL[1\\]2];C[012345678901234567])",
    "(;B[pd]BL[1\\]];C[012345678901234567])",
    // further values, and white space
    "(;B[pd]BL[1][2];C[012345678901234567])",
    "(;B[pd]BL[1] [2];C[012345678901234567])",
    "(;B[pd]BL[1]WL[2][3];C[012345678901234567])",
    "(;B[pd] BL[1];C[012345678901234567])",
    "(;B[pd]BL [1];C[012345678901234567])",
    "(;B[pd]BL[1] WL[2];C[012345678901234567])",
    // the end of the text
    "(;B[pd]BL[1];C[012345])",
    "(;B[pd] ;C[012])",
    "(;B[pd]BL[1])",
    "(;B[pd])",
];

#[test]
fn first_nodes(rt: HostRuntime) {
    for &(text, names) in &LED {
        assert!(rt;
            first_comes(rt.alloc(), text, &SETUP, Comes::Led(names)),
            "of {text:?}"
        );
    }
    for &text in &UNREAD {
        assert!(rt;
            first_comes(rt.alloc(), text, &SETUP, Comes::Unread),
            "of {text:?}"
        );
    }
}

#[test]
fn nodes_beside_other_names_or_without_properties(rt: HostRuntime) {
    let setup = "(;B[pd]AB[aa]PL[W];C[012345678901234567])";
    assert!(rt; first_comes(rt.alloc(), setup, &[], Comes::Led("ABPL")));
    assert!(rt; first_comes(rt.alloc(), setup, &[*b"AW"], Comes::Led("ABPL")));
    assert!(rt; first_comes(rt.alloc(), setup, &[*b"AW", *b"PL"], Comes::Unread));
    assert!(rt; first_comes(rt.alloc(), "(;;B[pd])", &[], Comes::Empty));
    assert!(rt; first_comes(rt.alloc(), "(;(;B[pd]))", &[], Comes::Empty));
    assert!(rt; first_comes(rt.alloc(), "(; ;B[pd])", &[], Comes::Unread));
}
