//! How many games, nodes and leaves a text has, and a text that is refused.

use sgf_tree::{Extent, ReadFault, read_extent};

/// Texts, and how many games, nodes and leaves each has.
const COUNTS: [(&str, [usize; 3]); 7] = [
    ("(;)", [1, 1, 1]),
    (" ( ; ; ) ", [1, 2, 1]),
    ("(;(;)(;;))(;)", [2, 5, 3]),
    ("(;(;(;)))", [1, 3, 1]),
    (
        "(;B[aa];W[bb];B[cc];W[dd]\n;B[ee];W[ff](;B[gg])(;B[hh]\n;W[ii]))",
        [1, 9, 2],
    ),
    ("(;B[aa];W[b\\]];B[cc]C[(;)];AW[dd][ee])", [1, 4, 1]),
    ("(;B[aa]\n[bb];W[cc]\nC[x];B[dd]\r\n;W[])", [1, 4, 1]),
];

/// Texts that are refused, and the first faulty byte of each.
const FAULTS: [(&str, usize); 4] = [
    ("", 0),
    ("(;B[aa]", 7),
    ("(;))", 3),
    ("(;B[aa];W[bb]()", 14),
];

#[test]
fn counts(rt: HostRuntime) {
    for (text, counts) in &COUNTS {
        let want = Extent {
            games: counts[0],
            nodes: counts[1],
            leaves: counts[2],
        };
        assert!(rt;
            read_extent(rt.alloc(), text.as_bytes()) == Ok(want),
            "of {text:?}"
        );
    }
}

#[test]
fn refuses(rt: HostRuntime) {
    for &(text, at) in &FAULTS {
        let want = ReadFault::NotSgf { at };
        assert!(rt;
            read_extent(rt.alloc(), text.as_bytes()) == Err(want),
            "of {text:?}"
        );
    }
}
