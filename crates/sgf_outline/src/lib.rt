//! The tree of a collection in a Smart Game Format (SGF FF[4]) text, kept as the outline of its sequences.
//!
//! A sequence is the nodes between a `(` and the next parenthesis. For each an [`Outline`] keeps, in 20 bytes, where the sequence stands in
//! the text, the number of its first node, and the sequence that it goes on from. If white space stands between parts of its nodes, or a
//! name has small letters, it keeps in 8 bytes where each segment without any is: the sgf form copies these. The nodes are found on the
//! text, one after another, and so are the properties of a node and their raw values. Going over them takes no memory.
//!
//! The crate `sgf_tree` reads a text, and tells a [`Visitor`] what comes. It makes an outline of [`Sequences`], which is such a visitor,
//! and numbers the nodes. It passes on from here what its callers need. The crate `sgf_properties` goes over properties, and decodes
//! values.
//!
//! | Module | What it has |
//! |---|---|
//! | `limit` | how long a text may be |
//! | `layout` | the own nodes of a game; which bytes the sgf form copies of them, segment by segment |
//! | `visitor` | what a reader tells the one who keeps a part of what it reads |
//! | `sequences`, `outline`, `traversal` | keeping the sequences of a collection; looking into them; going over the nodes of one |
//! | `node` | looking into a node, and writing it as the sgf form does |
//! | `quick` | shortcuts for what nearly all texts have |
//!
//! | Rule (docs/GRAMMAR.md) | Function, and its module |
//! |---|---|
//! | at most 64 MiB | `MAX_LENGTH` says how many bytes that is (`limit`); `read` of `sgf_tree` (`reader`) refuses a longer text |
//! | a node in sgf form | `NodeRef::push_to` (`node`). A run copies segments of the text instead: `Outline::push_sequence` (`outline`); where a segment ends: `Segment::then` (`layout`) |
//!
//! The same tables in `sgf_tree` and in `sgf_properties` have the other rules: which texts are SGF, and how values are decoded.
//!
//! The plain code is complete without the shortcuts in `quick`, which may be skipped: a first reader may take each call of one to find
//! nothing, as if it returned None, false or 0. Outside `quick` what a glance shows of a node (`NextNode::Led`, `NextNode::Empty`,
//! `NodeRef::front`) is there only for speed. `moves_in_place` and `near_property_close` are public for the shortcuts of `sgf_tree`.
//!
//! A reader and its visitor go on by the words of `specs/Machine.antt`, `Unclosed.antt`, `OwnNodes.antt`, `Listing.antt` and
//! `Outlining.antt`. No promise to a caller of `sgf_tree` speaks of them. Worked examples are in the crate `sgf_tree_tests`.
#![tactic(auto)]

mod layout;
mod limit;
mod node;
mod outline;
mod quick;
mod sequences;
mod traversal;
mod visitor;

pub use layout::{OwnNodes, Segment};
pub use limit::MAX_LENGTH;
pub use node::NodeRef;
pub use outline::Outline;
pub use quick::lead::{TWO_MOVES, moves_in_place};
pub use quick::properties::near_property_close;
pub use sequences::Sequences;
pub use traversal::{NextNode, SequenceNodes};
pub use visitor::Visitor;
