//! Judges the lines of play of a Smart Game Format (SGF FF[4]) collection, from the root of a game to a leaf.
//!
//! The crate `tree_lines` has the lines and the cursors over them, and `go_board` has the referee. [`judge`] returns the verdict of a
//! line: its first illegal node, or the area score at its end (Tromp-Taylor), or that its game isn't judged. A [`Follower`] judges the
//! lines one by one, and plays shared nodes once.
//!
//! ```text
//! let outline = read_outline(alloc, text)?;
//! let mut follower = Follower::new(alloc, &outline);
//! 'verdicts: while let Some(verdict) = follower.next()? {
//!     // follower.line().place()
//! }
//! ```
//!
//! [`judge_at`] needs only the place of a line. [`judge`] needs a [`Collection`], which knows more of each node and takes more memory. The
//! node given to it must be a leaf. By [`laws::named`] the last node of each line is a leaf.
//!
//! What is to be kept of each line besides its verdict is kept by a [`LineKeeper`], to which [`OverLines`] shows line after line. It may
//! wrap a [`Judged`], which judges each line from the first node that the line doesn't share with the one before it, and tells a
//! [`StepKeeper`] the step of each legal node. The forms of `sgf_lines` do so.
//!
//! What only saves work: `Contents::of_lone` (`judging/contents`) returns what `SequenceNodes::next` of `sgf_outline` recognized at a
//! glance, and a judge keeps the score of its present board (`judging/judge`).
//!
//! | Module | What it has |
//! |---|---|
//! | `verdict`, `judging` | the verdict of a line; judging lines, in the modules below |
//! | `judging/one_line`, `judging/judge` | `judge` and `judge_at`: one line, by its leaf or its place; `Judge`, which goes along a line's nodes, and back, and keeps the score of its present board |
//! | `judging/judged` | judging line after line, each from the first node that it does not share with the line before it; whom each step is told |
//! | `judging/root`, `judging/contents`, `judging/step` | the board of a root's game; what a node holds, and what its values say; playing a node |
//! | `over_lines` | going over the lines that follow a cursor, and what is kept from line to line |
//! | `follower` | judging each of these lines |
//! | `plays` | the count of nodes played |
//! | `laws` | what follows from the definitions |
//!
//! | Rule (docs/RULES.md) | Function, and its module |
//! |---|---|
//! | which values are moves, stones and players; that KM, HA and others have no effect | `kind_of`; `Contents::of_lone` for a node that is recognized at a glance; `NEEDED_NAMES` says which names no such node has (`judging/contents`) |
//! | which games are judged: GM; SZ | `board_size`; `size`; of several the first counts: `game_and_side` (`judging/root`) |
//! | the first reason of a node: `mixed`, `two-moves` or `bad-setup`; then `bad-point` | `take_contents` (`judging/step`); a faulty value of a setup: `push_rectangles`, `last_player` (`judging/contents`) |
//! | which values are passes; the last value of PL, which counts | `move_value`, `last_player`, `with_values` (`judging/contents`); what PL does then: `Referee::setup` of `go_board` (`referee/setup`) |
//! | the other reasons | `Referee::reason_before_repeat` of `go_board` (`referee/turn`); for `repeat` the table of `board_past` |
//! | that nothing of a line is told from its first illegal node on | `judge_sequence` (`judging/judged`) |
//! | TURN, PLACE and REASON of the first illegal node | `Judge::take` (`judging/judge`) |
//! | the verdict of a line; `over` or `open` | `Judge::verdict` (`judging/judge`), which keeps the score of a board while no node changes it |
//!
//! The crate `sgf_lines_tests` has the tests, and the tests of the program (`tests/`) cover the verdicts.
#![tactic(auto)]

mod follower;
mod judging;
pub mod laws;
mod over_lines;
mod plays;
mod verdict;

pub use follower::Follower;
pub use go_board::Reason;
pub use judging::judged::{Judged, StepKeeper};
pub use judging::one_line::{judge, judge_at};
pub use judging::step::{Effect, LegalStep};
pub use over_lines::{Before, LineKeeper, OverLines};
pub use plays::Plays;
pub use sgf_tree::{Collection, MemoryFault, Outline};
pub use tree_lines::{Cursor, LineRef, SeekFault};
pub use verdict::Verdict;
