//! Properties with a name of one or two letters and a short value, in place of `read_properties` and `read_property` of
//! `reader::properties`.

ghost use Rattle.std.specs.Prelude.{◌≡◌, ◌<◌, ◌≤◌, ◌+◌, length, slice_index, IsTrue, IfSome};
ghost use Rattle.sgf_outline.specs.Spelling.{is_upper};
ghost use Rattle.sgf_outline.specs.Move.{IsMove};
ghost use Rattle.sgf_tree.specs.inner.PropertiesRead.{AreValuesEnded, StandsIn, IsPropertyRead, ArePropertiesRead};

use sgf_outline::near_property_close;
use sgf_properties::{capital_at, near_value_end, short_name_end, skip_white_space};

/// A property is read at a glance only if at least this many bytes are left: two letters, a `[`, 16 that may have the `]`, and one more.
const GLANCE: usize = 20;

/// How far a part of a text was read that the sgf form copies in one piece.
#[derive(Clone, Copy)]
pub(crate) struct ShortRead {
    /// The offset after the part.
    pub text_end: usize,
    /// The offset after the white space that follows the part.
    pub end: usize,
}

/// Reads at a glance the properties of a node, which begin at `at`: none, or, if `is_move`, a move and perhaps short properties, as in
/// `B[pd]BL[921.325]`. Nearly all nodes are like that.
#[inline(always)]
pub(crate) fn short_properties(text: &[u8], at: usize, is_move: bool) -> Option<ShortRead>
    requires within { at ≤ length text.now }
    requires move_stands { IsTrue is_move → IsMove text.now at }
    ensures { IfSome result (λ read. ArePropertiesRead (StandsIn text.now at read.text_end) text.now at read.text_end read.end) }
{
    let end = if is_move { at + 5 } else { at };
    if end < text.len() && b' ' < text[end] && text[end] < b'A' {
        return Some(ShortRead { text_end: end, end });
    }
    if is_move { after_move(text, at) } else { None }
}

/// Reads the properties of a node that begin with a move at `at`, if those after it are short and no white space is between them.
// The first loop reads properties such as `BL[921.325]`, and ends most nodes. The second one reads the others.
#[inline(always)]
fn after_move(text: &[u8], at: usize) -> Option<ShortRead>
    requires { IsMove text.now at }
    ensures { IfSome result (λ read. ArePropertiesRead (StandsIn text.now at read.text_end) text.now at read.text_end read.end) }
{
    let mut end = at + 5;
    'near: while let Some(close) = near_property_close(text, end) {
        end = close + 1;
        if b' ' < text[end] && text[end] < b'A' {
            return Some(ShortRead { text_end: end, end });
        }
    }
    let text_end = end;
    let end = property_end(text, text_end)?;
    let mut read = ShortRead { text_end, end };
    'properties: while capital_at(text, read.end) {
        if read.text_end < read.end {
            return None;
        }
        read = read_short_property(text, read.end)?;
    }
    Some(read)
}

/// Reads at a glance the property whose identifier begins at `start`, if it has one or two letters and one short value, as most have.
#[inline(always)]
pub(crate) fn read_short_property(text: &[u8], start: usize) -> Option<ShortRead>
    requires within { start < length text.now }
    requires capital { IsTrue (is_upper (slice_index text.now start)) }
    ensures { IfSome result (λ read. IsPropertyRead (StandsIn text.now start read.text_end) text.now start read.text_end read.end) }
{
    if text.len() - start < GLANCE {
        return None;
    }
    let bracket = short_name_end(text, start)?;
    let close = near_value_end(text, bracket + 1)?;
    let text_end = close + 1;
    let end = property_end(text, text_end)?;
    Some(ShortRead { text_end, end })
}

/// The offset after any white space at `end`, which may be the end of a property's last value. None if a value follows, or the text ends.
#[inline(always)]
fn property_end(text: &[u8], end: usize) -> Option<usize>
    requires { end ≤ length text.now }
    ensures within { IfSome result (λ next. next < length text.now) }
    ensures ended { IfSome result (AreValuesEnded text.now end) }
{
    // Usually there is no white space, or only a line feed, as in texts with a move on each line.
    let next = if end + 1 < text.len() && text[end] == b'\n' && b' ' < text[end + 1] {
        end + 1
    } else {
        skip_white_space(text, end)
    };
    (next < text.len() && text[next] != b'[').then_some(next)
}
