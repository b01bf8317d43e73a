//! Worked examples of values that name points and rectangles.

use crate::given::{holds, size};
use go_board::{Point, Rect, point, rect};

/// Each value has the side of a board, the point that it names there, and the message if that is wrong.
const POINTS: [(&str, u8, Option<Point>, &str); 11] = [
    ("aa", 1, Some(Point { col: 0, row: 0 }), "the only point"),
    ("ba", 1, None, "no column b"),
    ("a", 25, None, "one letter"),
    ("", 25, None, "no letter"),
    ("aaa", 25, None, "three letters"),
    ("aA", 25, None, "no row A"),
    ("yy", 25, Some(Point { col: 24, row: 24 }), "the last point"),
    ("tt", 19, None, "no column t"),
    ("Aa", 26, None, "no column A"),
    ("Aa", 27, Some(Point { col: 26, row: 0 }), "column A"),
    ("ZZ", 52, Some(Point { col: 51, row: 51 }), "column Z"),
];

/// Values, and the rectangle that each names on a board of side 3.
const RECTANGLES: [(&str, Option<Rect>); 7] = [
    (
        "bb",
        Some(Rect {
            first: Point { col: 1, row: 1 },
            last: Point { col: 1, row: 1 },
        }),
    ),
    (
        "aa:aa",
        Some(Rect {
            first: Point { col: 0, row: 0 },
            last: Point { col: 0, row: 0 },
        }),
    ),
    (
        "aa:ca",
        Some(Rect {
            first: Point { col: 0, row: 0 },
            last: Point { col: 2, row: 0 },
        }),
    ),
    ("ca:aa", None),
    ("ab:ba", None),
    ("aa:", None),
    ("aa:dd", None),
];

#[test]
fn points(rt: HostRuntime) {
    for &(raw, side, expected, why) in &POINTS {
        holds(&rt, point(raw.as_bytes(), size(&rt, side)) == expected, why);
    }
}

#[test]
fn rectangles(rt: HostRuntime) {
    for &(raw, expected) in &RECTANGLES {
        holds(&rt, rect(raw.as_bytes(), size(&rt, 3)) == expected, raw);
    }
}
