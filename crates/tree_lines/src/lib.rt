//! The lines of play of a Smart Game Format (SGF FF[4]) collection, in file order, and cursors over them.
//!
//! A line goes from the root of a game to a leaf. The lines of an earlier game come first, and in a game those of an earlier variation. The
//! *path* of a line is the numbers of its nodes, from 0 in file order. Its *place* is the offset in bytes, from 0, of the `;` of its last
//! node. No two lines of a text have the same place ([`laws::rise`]).
//!
//! A line is whole sequences of the text, one after the other, and two lines part only between sequences. So a [`SequenceCursor`] keeps the
//! sequences of the line before it, in 8 bytes each. When it goes on, it keeps the *front*, the first sequences that the next line shares,
//! and puts those down to the next leaf after it. It says how much is shared, so that its caller keeps what it knows of the front, too. It
//! shows the line by its sequences and their nodes. The sequence after the last one of a line is the first that only the next line has, and
//! the sequence that it goes on from is the last that both have.
//!
//! It needs only an outline (`Outline` of `sgf_outline`). So does a [`Cursor`], which shows each line as a [`LineRef`], with its path.
//!
//! ```text
//! let mut cursor = SequenceCursor::new(alloc, &outline);
//! while let Some(shared) = cursor.advance()? {
//!     for index in shared.sequences..cursor.sequences() {
//!         let nodes = cursor.nodes(index);
//!     }
//! }
//! ```
//!
//! | Module | What it has |
//! |---|---|
//! | `sequence_cursor` | going over the lines by their sequences |
//! | `cursor` | going over the lines by their paths; the path of the line before a cursor by sequences |
//! | `line` | what is shown of a line |
//! | `seek` | why a line may not be found |
//! | `laws` | what holds of the lines of all collections |
//!
//! | Rule (docs/OUTPUT.md) | Function, and its module |
//! |---|---|
//! | the order of the lines | `SequenceCursor::advance` (`sequence_cursor`) |
//! | `--after`, and that no line ends there | `SequenceCursor::seek_after`, by `first_from` (`sequence_cursor`) |
//! | PLACE, GAME and NODES of a row | `SequenceCursor::place`, `SequenceCursor::game`, `SequenceCursor::len` (`sequence_cursor`) |
//!
//! The tests of the program (`tests/`) and the crate `sgf_lines_tests` call these cursors, by way of the crate `sgf_lines`.
#![tactic(auto)]

mod cursor;
pub mod laws;
mod line;
mod seek;
mod sequence_cursor;

pub use cursor::{Cursor, line_with, write_path};
pub use line::LineRef;
pub use seek::SeekFault;
pub use sequence_cursor::{Front, NO_FRONT, SequenceCursor};
