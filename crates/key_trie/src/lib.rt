//! A trie of numbered keys, each a string of bits (a crit-bit or PATRICIA trie).
//!
//! Items are numbered from 0, the oldest first, and each has a key. The keys aren't stored. A look-up descends by the bits of a key, to the
//! one item that may have that key. The caller works that item's key out, and compares. The newest item can be taken back.
//!
//! Each item has one node, of 16 bytes. It tells at which bit the item's key parts from the keys of all earlier items, and what is to be
//! found on either side of that bit. A descent skips all bits at which no keys part. Each step of it goes to a deeper bit. So a descent
//! takes at most as many steps as a key has bits, however many items there are, and whoever chose their keys. To add an item takes a
//! look-up and at most one descent more. To take the newest one back is one step.
//!
//! ```text
//! // An item comes. (The first one comes by `insert_first`.)
//! let from = trie.descend(&key, width);
//! match first_difference(&key, &key_of(trie.child(from)), words) {
//!     Some(position) => trie.insert_parted(&key, from, position),
//!     None => trie.insert_equal(),
//! }
//! ```
//!
//! | Module | What it has |
//! |---|---|
//! | `key` | what a key is; the first bit at which two keys differ |
//! | `trie` | the trie: nodes, descents, and one item more or less |
//!
//! Contracts name the keys of all items, by their numbers: the trie is one of those keys (`IsTrie`). The same nodes are a trie for all keys
//! that part where those do.
//!
//! The crate has no shortcuts of its own. As a whole it stands in for a search through all keys, one by one. Only `Trie::new` and
//! `Trie::make_room` take memory. The caller makes room before it adds an item.
#![tactic(auto)]

mod key;
mod trie;

pub use key::{Key, MAX_WIDTH, first_difference};
pub use trie::{Slot, Trie};
