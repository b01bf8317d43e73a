//! How much a text holds.

/// How much a text holds.
#[derive(Clone, Copy, Debug, PartialEq, Eq)]
pub struct Extent {
    /// The number of games. The games below others aren't counted.
    pub games: usize,
    /// The number of nodes, at every depth.
    pub nodes: usize,
    /// The number of leaves, which are the nodes that no node follows.
    pub leaves: usize,
}
