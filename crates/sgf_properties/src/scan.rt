//! Where spans of a text end, and what stands at an offset. Offsets are in bytes, from 0.

ghost use Rattle.std.specs.Prelude.{◌≡◌, ◌≢◌, false, ◌≤◌, ◌<◌, ◌+◌, length, slice_index, IsTrue};
ghost use Rattle.sgf_properties.specs.Spelling.{is_white_space, is_upper};
ghost use Rattle.sgf_properties.specs.Front.{is_letter};
ghost use Rattle.sgf_properties.specs.Offsets.{IsSpan, IsPropertyEnd};

/// The offset after the white space that begins at `at`; `at` if none is there, which is usual. White space is the bytes space, tab, line
/// feed, carriage return, vertical tab and form feed (this project's choice).
#[inline(always)]
pub fn skip_white_space(text: &[u8], at: usize) -> usize
    requires { at ≤ length text.now }
    ensures { IsSpan is_white_space text.now at result }
{
    if at < text.len() && b' ' < text[at] {
        return at;
    }
    white_space_end(text, at)
}

/// The end of the white space at `at`, found byte by byte. This is the plain way.
#[inline(never)]
fn white_space_end(text: &[u8], at: usize) -> usize
    requires { at ≤ length text.now }
    ensures { IsSpan is_white_space text.now at result }
{
    let mut end = at;
    'white_space: while end < text.len() && matches!(text[end], b' ' | b'\t'..=b'\r') {
        end += 1;
    }
    end
}

/// Whether this byte stands at the offset `at`. Past the end of the text none does.
#[inline(always)]
pub fn stands_at(text: &[u8], at: usize, byte: u8) -> bool
    ensures stands { IsTrue result → (at < length text.now) × (slice_index text.now at ≡ byte) }
    ensures other { result ≡ false → at < length text.now → slice_index text.now at ≢ byte }
{
    at < text.len() && text[at] == byte
}

/// Whether a capital, which begins a name (SGF FF[4], PropIdent), stands at the offset `at`. Past the end of the text none does.
#[inline(always)]
pub fn capital_at(text: &[u8], at: usize) -> bool
    ensures stands { IsTrue result → (at < length text.now) × IsTrue (is_upper (slice_index text.now at)) }
    ensures other { result ≡ false → at < length text.now → is_upper (slice_index text.now at) ≡ false }
{
    at < text.len() && text[at].is_ascii_uppercase()
}

/// Whether a value may be at the offset `at` (SGF FF[4], PropValue): after any white space there, a `[` comes.
#[inline(always)]
pub fn begins_value(text: &[u8], at: usize) -> bool
    requires { at ≤ length text.now }
    ensures { result ≡ false → IsPropertyEnd text.now at }
{
    stands_at(text, skip_white_space(text, at), b'[')
}

/// The offset after the letters, capitals and small ones, that begin at `at`; `at` if none is there. They are found byte by byte. This is
/// the plain way. That names may have small letters, which don't count, is this project's choice.
pub fn letters_end(text: &[u8], at: usize) -> usize
    requires { at ≤ length text.now }
    ensures { IsSpan is_letter text.now at result }
{
    let mut end = at;
    'letters: while end < text.len() && text[end].is_ascii_alphabetic() {
        end += 1;
    }
    end
}
