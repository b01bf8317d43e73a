//! Shortcuts for what nearly all texts have: moves, short properties, and no white space. Each looks at a few bytes, most at sixteen at
//! once. The rest of the crate is complete without them, so a newcomer may skip this module. Shortcuts over names and values are in `quick`
//! of `sgf_properties`, those over moves and the properties after them in `quick` of `sgf_outline`.
//!
//! A shortcut stands in for a plain function, and ensures no more. None or false says nothing: the caller then calls the plain function.
//!
//! | Shortcut | Stands in for |
//! |---|---|
//! | `nodes`: a node is read at once that is a move and then short properties, or has no properties; or two such nodes, each a move alone, by one comparison | `take_node` and `read_properties` in `read_node` of `reader::games` |
//! | `properties`: a property with a short name and a short value is read at once | `read_property` of `reader::properties` |
//!
//! `quick` of `sgf_properties` says what the attributes for inlining gain, here and in `reader`, too.

pub(crate) mod nodes;
pub(crate) mod properties;
