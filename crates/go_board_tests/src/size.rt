//! The sides that boards have.

use crate::given::holds;
use go_board::{MAX_SIDE, Size};

/// Sides, whether a board can have each, and the message if that is wrong.
const SIDES: [(u8, bool, &str); 6] = [
    (0, false, "side 0"),
    (1, true, "side 1"),
    (25, true, "side 25"),
    (26, true, "side 26"),
    (52, true, "side 52"),
    (53, false, "side 53"),
];

#[test]
fn sides(rt: HostRuntime) {
    for &(side, exists, what) in &SIDES {
        holds(&rt, Size::new(side).is_some() == exists, what);
    }
    assert!(rt; MAX_SIDE == 52);
}
