//! The list form: a line's record is its row.

ghost use Rattle.std.specs.Prelude.{refl};
ghost use Rattle.sgf_lines.specs.declared.options.Form.TheVariants.{List as list_form};

use crate::form::LineForm;
use crate::form::text_row::TextRow;
use byte_streams::{Sink, SinkFault, put_all};
use judged_lines::Judged;
use std::alloc::Global;
use tree_lines::SequenceCursor;

/// Keeps the verdict of a line, and no steps.
pub(crate) type ListForm = Judged<()>;

impl LineForm for ListForm {
    ghost form = { list_form };

    fn new(alloc: Global) -> ListForm {
        Judged::new(alloc, ())
    }

    fn put<T: Sink>(
        &self,
        cursor: &SequenceCursor<'_, '_>,
        row: &mut TextRow,
        sink: &mut T,
    ) -> Result<(), SinkFault> {
        row.lay_out(cursor, self.verdict);
        put_all(row.text(), sink)
    }

    ghost counts_are = { λ count. refl };
}
