//! Worked examples of vertices.

use crate::given::{at, holds_at, size};
use go_board::{Vertex, vertex};

/// The column, the row and the side of the board; then the letter and the row of the vertex.
const VERTICES: [(u8, u8, u8, u8, u8); 4] = [
    (8, 8, 9, b'J', 1),
    (0, 0, 9, b'A', 9),
    (24, 24, 25, b'Z', 1),
    (24, 0, 25, b'Z', 25),
];

#[test]
fn vertices(rt: HostRuntime) {
    for &(col, above, side, letter, row) in &VERTICES {
        assert!(rt; col < side && above < side && side <= 25);
        let found = vertex(at(col, above), size(&rt, side));
        let is_so = found == Vertex { letter, row };
        holds_at(&rt, is_so, "a vertex in row", u32::from(row), side);
    }
}
