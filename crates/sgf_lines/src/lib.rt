//! Judges the lines of play of a Smart Game Format (SGF FF[4]) collection, from the root of a game to a leaf, and writes them as records.
//!
//! The crate `tree_lines` has the lines and the cursors over them, and `judged_lines` judges them; this crate passes on their types. A
//! [`Cursor`] returns the lines one by one, in file order, over an outline that was read once. [`judge`] returns the verdict of a line: its
//! first illegal node, or the area score at its end (Tromp-Taylor), or that its game isn't judged. A [`Follower`] judges the lines one by
//! one, and plays shared nodes once. [`split`] writes each line as a record, a text of its own.
//!
//! ```text
//! let outline = read_outline(alloc, text)?;
//! let mut cursor = Cursor::new(alloc, &outline);
//! 'lines: while let Some(line) = cursor.next()? {
//!     // line.path(), line.leaf(), line.game(), line.place()
//! }
//!
//! let mut follower = Follower::new(alloc, &outline);
//! 'verdicts: while let Some(verdict) = follower.next()? {
//!     // follower.line().place()
//! }
//! ```
//!
//! The loops end because each pass leaves one line fewer. (`lines_in_memory` has the loops and their proofs. Here are their measures.)
//!
//! ```text
//! decreases-lines l = length (lines l.cursor.games) - l.cursor.index
//! decreases-verdicts l = length (lines l.follower.games) - l.follower.index
//! ```
//!
//! [`judge_at`] needs only the place of a line. [`judge`] needs a [`Collection`], which knows more of each node and takes more memory. The
//! node given to it must be a leaf. By [`laws::named`] the last node of each line is a leaf.
//!
//! What only saves work stands in these functions: `push_text_of` (`form/commands`) decodes a comment of one row in place, and
//! `split_counted` and `count` first ask a source for all that is left at once (`Source::give_rest`). `judged_lines` has others.
//!
//! | Module | What it has |
//! |---|---|
//! | `options`, `fault` | what a run is asked for; how it may fail |
//! | `form` | the forms in which a line is written: what each keeps of a line, and the record that it makes |
//! | `run` | splitting what a source gives into records for a sink |
//! | `counting` | the games, nodes and lines of what a source gives |
//! | `laws` | what follows from the definitions |
//!
//! | Rule (docs/OUTPUT.md, docs/RULES.md) | Function, and its module |
//! |---|---|
//! | the order of the lines | `SequenceCursor::advance` of `tree_lines` (`sequence_cursor`) |
//! | `--after`, and that no line ends there; `--limit` | `SequenceCursor::seek_after` of `tree_lines` (`sequence_cursor`); `write_lines` (`run`) |
//! | at most 64 MiB of a source | `read_all` (`run`) |
//! | whether an input ends too early | `RunFault::ends_too_early` (`fault`), which `Fault::message` of `sgfsplit_job` (`fault`) asks; where: the first fault, in the table of `sgf_tree` |
//! | PLACE, GAME and NODES of a row | `SequenceCursor::place`, `SequenceCursor::game`, `SequenceCursor::len` of `tree_lines` (`sequence_cursor`) |
//! | a row; the row of counts | `TextRow::lay_out` (`form/text_row`); `write_counts` (`counting`); the counts: `read_extent` of `sgf_tree` (`reader`) |
//! | what a node is; which games are judged; the reasons of a node; the verdict of a line; that a script stops before an illegal node | the table of `judged_lines` |
//! | which lines have no commands: not judged, or over side 25; a setup leaves a stone without a liberty | `Script::keep`; `Script::say`, `Script::text` (`form/script`) |
//! | a script; a node's commands | `Script::keep`, `Script::say`, `Script::text` (`form/script`); `push_step` (`form/commands`) |
//! | a game without variations | `SgfForm::follow` (`form/sgf`); its nodes: `Outline::push_sequence` of `sgf_outline` (`outline`); what it leaves out: `Segment::then` of `sgf_outline` (`layout`), `copy_capitals` of `sgf_tree` (`reader/properties`) |
//!
//! A run reads from a [`Source`] and writes to a [`Sink`], both of the crate `byte_streams`.
//!
//! The tests of the program (`tests/`) cover what a run writes. The crate `sgf_lines_tests` covers the other calls.
#![tactic(auto)]

mod counting;
mod fault;
mod form;
pub mod laws;
mod options;
mod run;

pub use byte_streams::{
    ArraySink, BufferedSink, ReadSource, Sink, SinkFault, SliceSource, Source, SourceFault,
    WriteSink, put_all,
};
pub use counting::{Counts, count, write_counts};
pub use fault::RunFault;
pub use judged_lines::{Follower, Plays, Reason, Verdict, judge, judge_at};
pub use options::{Form, Options};
pub use run::{split, split_counted};
pub use sgf_tree::{Collection, MAX_LENGTH, MemoryFault, Outline, ReadFault, read, read_outline};
pub use tree_lines::{Cursor, LineRef, SeekFault};
