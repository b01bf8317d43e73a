//! Judging a line of play with a referee, node after node.
//!
//! `#[inline(always)]` is on what runs for each node: a caller that needs no step has none put together, and what a node without stones
//! doesn't need drops out. `#[inline(never)]` is on what runs for few nodes. Without these, list form takes 11 to 42 % more instructions.

pub(crate) mod contents;
pub(crate) mod judge;
pub(crate) mod judged;
pub(crate) mod one_line;
pub(crate) mod root;
pub(crate) mod step;
