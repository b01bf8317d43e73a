//! Worked examples of `go_board` and the crates below it: `board_points`, `board_stones` and `board_past`. They call it as any other crate does.
//!
//! They are in a crate of their own, because a crate that has tests is proved a second time together with them.
//!
//! | Module | Examples of |
//! |---|---|
//! | `size`, `values`, `vertices` | sides, values that name points and rectangles, points as the Go Text Protocol writes them |
//! | `board` | reaching, clearing, scores, moves and copies |
//! | `moves` | moves one after the other, and a move after points were set |
//! | `past` | a second stretch, and prints with the same low bits |
//! | `referee` | turns, setup, undo, another game; the messages of the faults |
//! | `captures` | games with captures over both pasts |
//! | `in_step` | the same calls of both pasts, also on many colourings with one print |
//! | `given`, `sided_past` | nothing: they have points, sizes, numbers and checks for the other modules, and a past of boards of one side |
#![tactic(auto)]

#[cfg(test)]
mod board;
#[cfg(test)]
mod captures;
#[cfg(test)]
mod given;
#[cfg(test)]
mod in_step;
#[cfg(test)]
mod moves;
#[cfg(test)]
mod past;
#[cfg(test)]
mod referee;
#[cfg(test)]
mod sided_past;
#[cfg(test)]
mod size;
#[cfg(test)]
mod values;
#[cfg(test)]
mod vertices;
