//! Shortcuts on sets of points. The plain ways are in `fill` and `liberty`, so a first reader may skip this module.
//!
//! | Shortcut | Stands in for |
//! |---|---|
//! | `glance`: the rows around most stones show that these and the stones beside them live | finding their groups |
//! | `group`: one group, straight up and down from a stone until a liberty is found, and else the whole | filling from all stones with a liberty |
//! | `halves`: one filling fills two sets of points of a small board | two fillings |
//!
//! `#[inline(always)]` is on a glance, which becomes part of a turn, and `#[inline(never)]` on what few stones need. Without
//! such attributes list form took 2 to 7 percent more instructions.

pub mod glance;
pub mod group;
pub mod halves;
