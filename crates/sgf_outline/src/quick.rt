//! Shortcuts for what nearly all texts have: moves, short properties, and no white space. Each looks at a few bytes, most at sixteen at
//! once. The rest of the crate is complete without them, so a newcomer may skip this module. Shortcuts over names and values are in `quick`
//! of `sgf_properties`, those that read whole nodes in `quick` of `sgf_tree`.
//!
//! A shortcut stands in for a plain function, and ensures no more. None or false says nothing: the caller then calls the plain function.
//!
//! | Shortcut | Stands in for |
//! |---|---|
//! | `lead`: a node is recognized that is a move and then short properties, or has no properties | `SequenceNodes::next_unread` of `traversal` |
//! | `lead`: the first property of a node such as `;B[pd]` is recognized | `Properties::next` of `sgf_properties` |
//! | `lead`: one node such as `;B[pd]`, or two, are recognized by one comparison | looking at each byte; `nodes` of `sgf_tree` uses it |
//! | `properties`: a property with a name of two letters and a short value is recognized by one comparison | the same |

pub(crate) mod lead;
pub(crate) mod properties;
