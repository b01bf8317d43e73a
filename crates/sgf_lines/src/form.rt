//! The forms in which a line is written, and what they keep of a line for the next line.
//!
//! | Module | What it has |
//! |---|---|
//! | `list`, `sgf`, `gtp` | the forms: what each keeps of a line, and the record that it makes |
//! | `text_row` | a text row: that of a line, alone or as a comment |
//! | `script`, `commands` | the script of a line in gtp form; the commands of a node |
//! | `pieces` | a text in pieces |

ghost use Rattle.std.specs.Prelude.{◌≡◌, ◌<◌, ℕ, Some};
ghost use Rattle.tree_lines.specs.Lines.{Line};
ghost use Rattle.sgf_lines.specs.Record.{record_of};
ghost use Rattle.sgf_lines.specs.RunPlays.{plays_in};
ghost use Rattle.sgf_lines.specs.declared.options.Form.{Form};
ghost use Rattle.tree_lines.specs.Following.{line_before};
ghost use Rattle.byte_streams.specs.Streams.{PutsAll};

use crate::form::text_row::TextRow;
use byte_streams::{Sink, SinkFault};
use judged_lines::LineKeeper;
use std::alloc::Global;
use tree_lines::SequenceCursor;

pub(crate) mod commands;
pub(crate) mod gtp;
pub(crate) mod list;
pub(crate) mod pieces;
pub(crate) mod script;
pub(crate) mod sgf;
pub(crate) mod text_row;

/// A form of records. It keeps of each line what the line's record needs.
pub(crate) trait LineForm: LineKeeper {
    // Which form it is.
    ghost form: { Form };

    /// The form before any line. This takes no memory.
    fn new(alloc: Global) -> Self
        ensures { Self.played result ≡ 0 };

    /// Puts the record of the line before the cursor, which is kept. `row` is a buffer.
    fn put<T: Sink>(
        &self,
        cursor: &SequenceCursor<'_, '_>,
        row: &mut TextRow,
        sink: &mut T,
    ) -> Result<(), SinkFault>
        requires holds { Self.holds self.now cursor.now }
        requires countable { (T.state sink.old).failures < u64.MAX }
        ensures { (line : Line) → line_before cursor.now.at ≡ Some line
            → PutsAll (T.state sink.old) (T.state sink.new) (record_of form line) result };

    // Its judged nodes are played or not, as the form says.
    ghost counts_are: { (count : ℕ) → Self.counts count ≡ plays_in form count };
}
