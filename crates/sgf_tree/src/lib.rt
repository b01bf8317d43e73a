//! Reads Smart Game Format (SGF FF[4]) texts.
//!
//! [`read`] goes over a text once. It returns the collection that the text spells, or the first byte that no text of the grammar can have
//! there. [`read_extent`] only counts the games, nodes and leaves, which is faster and takes less memory.
//!
//! An [`Outline`] ([`read_outline`]) keeps the sequences of a collection. A sequence is the nodes between a `(` and the next parenthesis.
//! The nodes are found on the text, one after another. A [`Collection`] numbers its nodes from 0 in file order. Besides its outline it
//! keeps, in 4 bytes, the place of each node, and for each sequence the last node below it. The properties of a node and their raw values
//! are read from the text again when they are asked for, one after another. Reading them takes no memory.
//!
//! Two crates stand below this one, and it passes on what its callers need of them. `sgf_outline` keeps the sequences and goes over their
//! nodes. `sgf_properties` goes over the properties of a node, and decodes values.
//!
//! ```text
//! let collection = read(alloc, text)?;
//! for i in 0..collection.nodes() {
//!     for property in collection.node(i).iter() {
//!         if property.is(b"C") {
//!             push_text(property.value(0), &mut comments)?;
//!         }
//!     }
//! }
//! ```
//!
//! | Module | What it has |
//! |---|---|
//! | `reader` | reading a text, and the first fault |
//! | `reader/games` | reading games |
//! | `reader/own_nodes`, `reader/properties` | adding nodes one by one to the own nodes of a game; reading the properties of a node |
//! | `reader/counting` | counting games, nodes and leaves |
//! | `reader/value` | reading a raw value, and keeping the lengths of long ones |
//! | `reader/byte_order_mark` | the byte order mark |
//! | `extent` | how much a text holds |
//! | `numbered`, `collection` | keeping the place of each node besides the sequences; looking into a collection by numbers of nodes |
//! | `quick` | shortcuts for what nearly all texts have |
//! | `fault` | how reading a text may fail |
//! | `laws` | what holds of all texts |
//!
//! | Rule (docs/GRAMMAR.md) | Function, and its module |
//! |---|---|
//! | Collection and GameTree; Sequence, and the `;` of a Node | `read_games`; `read_sequence` (`reader/games`) |
//! | the properties of a Node; Property | `read_properties`; `read_property` (`reader/properties`) |
//! | PropIdent: its first capital; the `[` after it | `read_properties`; `read_name` (`reader/properties`) |
//! | white space: before the first `(`; after a parenthesis; after a `;`; after a name; after a value, so before what comes next | `read_whole` (`reader`); `read_sequence`, `read_games` (`reader/games`); `read_properties`; `read_name`; `read_property` (`reader/properties`), in a run after most properties the shortcut `property_end` (`quick/properties`); all by `skip_white_space` of `sgf_properties` (`scan`), but `property_end` passes a lone line feed itself |
//! | the byte order mark: its bytes; once, before white space | `byte_order_mark_end` (`reader/byte_order_mark`); `read_whole` (`reader`) |
//! | the first fault | where these return `NotSgf`: `read_games`, `read_sequence` (`reader/games`), `read_name` (`reader/properties`), `read_value` (`reader/value`), `byte_order_mark_end` (`reader/byte_order_mark`); `reader` says why that is the first |
//! | at most 64 MiB | `read`, `read_outline`, `read_extent` (`reader`) |
//! | a node in sgf form | `NodeRef::push_to` of `sgf_outline` (`node`). A run copies segments of the text instead: `read_node` (`reader/games`) and `read_properties` find them, and `copy_capitals` (`reader/properties`) leaves small letters of names out |
//!
//! The same table in `sgf_properties` has the rules of names, raw values, decoded text, numbers, and the bytes of white space.
//!
//! The plain code is complete without the shortcuts in `quick`, which may be skipped: a first reader may take each call of one to find
//! nothing, as if it returned None, false, or the offset that it got. A shortcut ensures no more than the plain function that it stands in
//! for. From `sgf_properties` come the shortcuts `short_name_end`, `short_value_end` and `past_points`, from `sgf_outline` come
//! `moves_in_place` and `near_property_close`. Outside `quick` the lengths of long values (`long`) are there only for speed. A first reader
//! may take `long` to be empty.
//!
//! Worked examples are in the crate `sgf_tree_tests`, and those that the program shows are in `tests/`.
#![tactic(auto)]

mod collection;
mod extent;
mod fault;
pub mod laws;
mod numbered;
mod quick;
mod reader;

pub use collection::Collection;
pub use extent::Extent;
pub use fault::ReadFault;
pub use reader::{read, read_extent, read_outline};
pub use sgf_outline::{MAX_LENGTH, NextNode, NodeRef, Outline, SequenceNodes};
pub use sgf_properties::{MemoryFault, PropRef, Properties, Values, number, push_text};
