//! Shortcuts for what nearly all texts have: short names and short values. Each looks at a few bytes, most at sixteen at once. One is for
//! long values. The rest of the crate is complete without them, so a newcomer may skip this module.
//!
//! A shortcut stands in for a plain function, and ensures no more than that one. If it returns None or false, nothing is known: the caller
//! then calls the plain function. A shortcut that returns an offset or a count may stop early.
//!
//! | Shortcut | Stands in for |
//! |---|---|
//! | `name`: a name of one or two capitals is recognized | `letters_end` of `scan`, `is_name_in` of `property` |
//! | `value`: a short value's end is found by one comparison | the searches of `value` |
//! | `value`: the end of a long value is looked up | the searches of `value` |
//! | `value`: four values such as `[pd]` are recognized by one comparison | reading each value |
//! | `literals`: sixteen bytes of a value are looked at together | the loop byte by byte in `text` |
//!
//! `#[inline(always)]` is on what runs for each node or property, and `#[inline(never)]`, in this crate alone, on the plain function behind
//! it, so that the loop around it stays small. Without these attributes, here, in the rest of the crate, in `sgf_outline` and in
//! `sgf_tree`, a count of a library takes 40 percent more instructions.

pub(crate) mod literals;
pub(crate) mod name;
pub(crate) mod value;
