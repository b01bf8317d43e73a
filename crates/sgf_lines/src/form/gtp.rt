//! The gtp form: a line's record is its row as a comment, its script, and an empty row.

ghost use Rattle.std.specs.Prelude.{refl};
ghost use Rattle.sgf_lines.specs.declared.options.Form.TheVariants.{Gtp as gtp_form};

use crate::form::LineForm;
use crate::form::script::Script;
use crate::form::text_row::TextRow;
use byte_streams::{Sink, SinkFault, put_all};
use judged_lines::{Judged, LineKeeper};
use sgf_tree::MemoryFault;
use std::alloc::Global;
use tree_lines::{Front, SequenceCursor};

/// Keeps the verdict of a line, and its script.
#[derive(Drop)]
pub(crate) struct GtpForm {
    judged: Judged<Script>,
}

impl LineKeeper for GtpForm {
    ghost holds = { λ kept cursor. ⟦<Judged<Script> as LineKeeper>⟧.holds kept.judged cursor };

    ghost played = { λ kept. ⟦<Judged<Script> as LineKeeper>⟧.played kept.judged };

    ghost counts = { λ count. count };

    fn follow(&mut self, cursor: &SequenceCursor<'_, '_>, held: Front) -> Result<(), MemoryFault> {
        self.judged.follow(cursor, held)
    }

    fn plays(&self) -> u64 {
        self.judged.plays()
    }
}

impl LineForm for GtpForm {
    ghost form = { gtp_form };

    fn new(alloc: Global) -> GtpForm {
        GtpForm {
            judged: Judged::new(alloc, Script::new(alloc)),
        }
    }

    fn put<T: Sink>(
        &self,
        cursor: &SequenceCursor<'_, '_>,
        row: &mut TextRow,
        sink: &mut T,
    ) -> Result<(), SinkFault> {
        row.lay_out(cursor, self.judged.verdict);
        row.put(b"# ");
        put_all(row.text(), sink)?;
        put_all(self.judged.keeper.text(), sink)?;
        put_all(b"\n", sink)
    }

    ghost counts_are = { λ count. refl };
}
