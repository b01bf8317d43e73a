//! The sgf form: a line's record is a game without variations.

ghost use Rattle.std.specs.Prelude.{◌≡◌, ◌++◌, refl};
ghost use Rattle.std.specs.List.{concat};
ghost use Rattle.sgf_lines.specs.declared.options.Form.TheVariants.{Sgf as sgf_form};
ghost use Rattle.sgf_lines.specs.inner.Recording.{sequences_before, IsRecord, whole_record};

use crate::form::LineForm;
use crate::form::pieces::Pieces;
use crate::form::text_row::TextRow;
use byte_streams::{Sink, SinkFault, put_all};
use judged_lines::LineKeeper;
use sgf_tree::MemoryFault;
use std::alloc::Global;
use tree_lines::{Front, SequenceCursor};

/// Keeps the record of a line: a piece for the parenthesis, a piece for each sequence, and an unfinished piece for its end.
/// The next line cuts this unfinished piece off. Nothing is judged.
#[derive(Drop)]
pub(crate) struct SgfForm {
    record: Pieces,
}

impl LineKeeper for SgfForm {
    ghost holds = { λ kept cursor. (kept.record ≡ whole_record (sequences_before cursor)) × IsRecord sgf_form cursor (concat kept.record.pieces ++ kept.record.begun) };

    ghost played = { λ _. 0 };

    ghost counts = { λ _. 0 };

    fn follow(&mut self, cursor: &SequenceCursor<'_, '_>, held: Front) -> Result<(), MemoryFault> {
        let end = cursor.sequences();
        if held.sequences > 0 {
            self.record.cut_back(held.sequences + 1);
        } else {
            self.record.cut_back(0);
            self.record.make_room()?;
            self.record.push(b"(")?;
            self.record.close()?;
        }
        for index in held.sequences..end {
            self.record.push_sequence(cursor, index)?;
        }
        self.record.push(b")\n")
    }

    fn plays(&self) -> u64 {
        0
    }
}

impl LineForm for SgfForm {
    ghost form = { sgf_form };

    fn new(alloc: Global) -> SgfForm {
        SgfForm {
            record: Pieces::new(alloc),
        }
    }

    #[tactic(auto, using(crate::proofs::RunRecords::record_is))]
    fn put<T: Sink>(
        &self,
        cursor: &SequenceCursor<'_, '_>,
        row: &mut TextRow,
        sink: &mut T,
    ) -> Result<(), SinkFault> {
        put_all(self.record.text(), sink)
    }

    ghost counts_are = { λ count. refl };
}
