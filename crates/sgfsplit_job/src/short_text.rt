//! A short text that is built without allocating memory.

ghost use Rattle.std.specs.Prelude.{◌≡◌, ◌≤◌, ◌+◌, ◌++◌, [], length};

/// The greatest length of a short text, in bytes.
const ROOM: usize = 120;

/// A text of at most `ROOM` bytes.
#[derive(Drop)]
pub(crate) struct ShortText {
    bytes: [u8; ROOM],
    length: usize,
    ghost within: { length ≤ 120 },
}

impl ShortText {
    ghost use Rattle.sgfsplit_job.specs.inner.ShortText.{short_text};

    /// The empty text.
    pub(crate) fn new() -> ShortText
        ensures { short_text result ≡ [] }
    {
        ShortText {
            bytes: [0; ROOM],
            length: 0,
        }
    }

    /// Appends a text.
    pub(crate) fn push(&mut self, text: &str)
        requires room { length (short_text self.old) + length text.now ≤ 120 }
        ensures { short_text self.new ≡ short_text self.old ++ text.now }
    {
        let end = self.length + text.len();
        self.bytes[self.length..end].copy_from_slice(text.as_bytes());
        self.length = end;
    }

    /// The bytes of the text.
    pub(crate) fn as_bytes(&self) -> &[u8]
        ensures { result.now ≡ short_text self.now }
    {
        &self.bytes[..self.length]
    }
}
