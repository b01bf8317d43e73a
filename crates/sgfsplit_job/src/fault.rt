//! The faults of the program. Each has an exit status and a row on standard error.

ghost use Rattle.std.specs.Prelude.{◌≡◌, ◌<◌, ◌≤◌, ◌+◌, ◌++◌, length};

use crate::short_text::ShortText;
use itoa::Buffer;
use sgf_lines::{MAX_LENGTH, RunFault};

/// Why the program ends with a status other than 0. (A mistake in the words is clap's error instead, with status 2.)
#[derive(Clone, Copy, Debug, PartialEq, Eq)]
pub enum Fault {
    /// FILE can't be opened.
    Open,
    /// A word of the command line isn't UTF-8.
    NotUtf8,
    /// The run ended before it had done all that was asked.
    Run(RunFault),
}

impl Fault {
    /// Memory was refused before anything was written.
    pub const OUT_OF_MEMORY: Fault = Fault::Run(RunFault::Memory { lines: 0 });

    ghost use Rattle.sgfsplit_job.specs.Fault.{status_of, message_of, fault_row};
    ghost use Rattle.sgfsplit_job.specs.inner.ShortText.{short_text, number_text};

    /// The exit status:
    ///
    /// - 1: the input is refused, or no line has the place that was asked for.
    /// - 2: a word isn't UTF-8.
    /// - 3: FILE can't be opened, or a read, a write or the flush failed.
    /// - 4: memory was refused.
    pub fn status(&self) -> u8
        ensures { result ≡ status_of self.now }
    {
        match self {
            Fault::Open => 3,
            Fault::NotUtf8 => 2,
            Fault::Run(RunFault::Read) => 3,
            Fault::Run(RunFault::Write { .. }) => 3,
            Fault::Run(RunFault::Memory { .. }) => 4,
            Fault::Run(RunFault::TooLong) => 1,
            Fault::Run(RunFault::NotSgf { .. }) => 1,
            Fault::Run(RunFault::NoSuchLine { .. }) => 1,
        }
    }

    /// The row on standard error, with its line feed.
    pub(crate) fn row(&self) -> ShortText
        ensures { short_text result ≡ fault_row self.now }
    {
        let (before, number, after) = self.message();
        let mut text = ShortText::new();
        text.push("sgfsplit: ");
        text.push(before);
        if let Some(number) = number {
            text.push(Buffer::new().format(number));
        }
        text.push(after);
        text.push("\n");
        text
    }

    /// The message in three parts: a text, a number or None, and another text.
    fn message(&self) -> (&'static str, Option<u64>, &'static str)
        ensures text { result.0.now ++ (number_text result.1 ++ result.2.now) ≡ message_of self.now }
        ensures short { length result.0.now + length result.2.now ≤ 40 }
    {
        match self {
            Fault::Open => ("open failed", None, ""),
            Fault::NotUtf8 => ("a word isn't UTF-8", None, ""),
            Fault::Run(RunFault::Read) => ("read failed", None, ""),
            Fault::Run(RunFault::TooLong) => (
                "input is longer than ",
                Some(MAX_LENGTH as u64),
                " bytes",
            ),
            Fault::Run(fault @ RunFault::NotSgf { at, .. }) => {
                let kind = if fault.ends_too_early() {
                    ": input ends too early"
                } else {
                    ": not SGF"
                };
                ("byte ", Some(*at as u64), kind)
            }
            Fault::Run(RunFault::NoSuchLine { place }) => ("no line ends at ", Some(*place), ""),
            Fault::Run(RunFault::Write { .. }) => ("write failed", None, ""),
            Fault::Run(RunFault::Memory { .. }) => ("out of memory", None, ""),
        }
    }
}
