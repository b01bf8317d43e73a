//! One operation of a setup, as plain data.

use crate::stones::Cell;
use board_points::Rect;

/// One operation of a setup (SGF FF[4]): each point of the rectangle gets the cell, whatever stood there.
#[derive(Clone, Copy, Debug, PartialEq, Eq)]
pub struct SetupOp {
    /// What each point becomes.
    pub cell: Cell,
    /// The points that change.
    pub area: Rect,
}
