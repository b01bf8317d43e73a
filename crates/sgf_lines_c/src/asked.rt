//! What a caller asks for.

ghost use Rattle.std.specs.Prelude.{◌≡◌};
ghost use Rattle.sgf_lines_c.specs.Asked.{options_of};

use sgf_lines::{Form, Options};

/// Which lines of play are written, and how: the options of a run, as a caller in C passes them.
#[repr(C)]
#[derive(Clone, Copy)]
pub struct Asked {
    /// How each line is written: 0 as a row of the list, 1 as a game (SGF FF[4]), 2 as
    /// a script (Go Text Protocol, version 2). No other number names a form.
    pub form: u32,
    /// Whether `after` counts; if not, `after` is ignored.
    pub has_after: bool,
    /// Whether `limit` counts; if not, `limit` is ignored.
    pub has_limit: bool,
    /// Keeps only the lines after the line with this place. A line's place is the offset in bytes, from 0, of the `;` of its last node.
    pub after: u64,
    /// Keeps at most this many of those lines, the first ones.
    pub limit: u64,
}

impl Asked {
    /// The options of the run; None if no form has the number `form`.
    pub(crate) fn options(&self) -> Option<Options>
        ensures { result ≡ options_of self.now }
    {
        let form = Form::numbered(self.form)?;
        Some(Options {
            form,
            after: self.has_after.then_some(self.after),
            limit: self.has_limit.then_some(self.limit),
        })
    }
}
