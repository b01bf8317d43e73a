//! A text row, such as that of a line, alone or as a comment. It is built from its end, as the digits of a number are found last to first.

ghost use Rattle.std.specs.Prelude.{◌≡◌, ◌<◌, ◌≤◌, ◌+◌, Some, [], ◌++◌, length, codes, decimal};
ghost use Rattle.tree_lines.specs.Lines.{Line};
ghost use Rattle.sgf_lines.specs.ListRow.{verdict_text};
ghost use Rattle.tree_lines.specs.Following.{line_before};

use itoa::write_digits;
use judged_lines::Verdict;
use tree_lines::SequenceCursor;

/// The number of bytes that there is room for: five numbers of up to 20 digits, and the words of a verdict.
const ROOM: usize = 160;

/// A text row, or the end of it, which grows at its front.
#[derive(Drop)]
pub(crate) struct TextRow {
    bytes: [u8; ROOM],
    start: usize,
    ghost within: { start ≤ 160 },
}

impl TextRow {
    ghost use Rattle.sgf_lines.specs.inner.Views.{built_text, row_of};

    /// The empty text.
    pub(crate) fn new() -> TextRow
        ensures text { built_text result ≡ [] }
        ensures room { result.start ≡ 160 }
    {
        TextRow {
            bytes: [0; ROOM],
            start: ROOM,
        }
    }

    /// Becomes the row of the line before a cursor, with this verdict, and a line feed.
    pub(crate) fn lay_out(&mut self, cursor: &SequenceCursor<'_, '_>, verdict: Verdict)
        requires { 0 < length cursor.now.ends }
        ensures text { (line : Line) → line_before cursor.now.at ≡ Some line → built_text self.new ≡ row_of line verdict ++ codes "\n" }
        ensures room { 2 ≤ self.new.start }
    {
        // The bytes are kept: those before the start are never shown.
        self.start = ROOM;
        self.put(b"\n");
        self.put_verdict(verdict);
        self.put(b" ");
        self.put_number(cursor.len() as u64);
        self.put(b" ");
        self.put_number(cursor.game() as u64);
        self.put(b" ");
        self.put_number(cursor.place());
    }

    /// Puts bytes before the text.
    pub(crate) fn put(&mut self, bytes: &[u8])
        requires { length bytes.now ≤ self.old.start }
        ensures text { built_text self.new ≡ bytes.now ++ built_text self.old }
        ensures room { self.new.start + length bytes.now ≡ self.old.start }
    {
        let start = self.start - bytes.len();
        self.bytes[start..self.start].copy_from_slice(bytes);
        self.start = start;
    }

    /// Puts a number before the text, in decimal, without leading zeros.
    pub(crate) fn put_number(&mut self, number: u64)
        requires { 20 ≤ self.old.start }
        ensures text { built_text self.new ≡ decimal number ++ built_text self.old }
        ensures room { self.old.start ≤ self.new.start + 20 }
    {
        self.start = write_digits(number, &mut self.bytes, self.start);
    }

    /// Puts a verdict in words before the text.
    fn put_verdict(&mut self, verdict: Verdict)
        requires { 70 ≤ self.old.start }
        ensures text { built_text self.new ≡ verdict_text verdict ++ built_text self.old }
        ensures room { self.old.start ≤ self.new.start + 70 }
    {
        match verdict {
            Verdict::Score { black, white, over } => {
                self.put(if over { b" over" } else { b" open" });
                self.put_number(u64::from(white));
                self.put(b" ");
                self.put_number(u64::from(black));
                self.put(b"score ");
            }
            Verdict::Illegal {
                turn,
                place,
                reason,
            } => {
                self.put(reason.word().as_bytes());
                self.put(b" ");
                self.put_number(place);
                self.put(b" ");
                self.put_number(turn);
                self.put(b"illegal ");
            }
            Verdict::NotGo => self.put(b"unjudged game"),
            Verdict::BadSize => self.put(b"unjudged size"),
        }
    }

    /// The text put so far.
    pub(crate) fn text(&self) -> &[u8]
        ensures { result.now ≡ built_text self.now }
    {
        &self.bytes[self.start..]
    }
}
