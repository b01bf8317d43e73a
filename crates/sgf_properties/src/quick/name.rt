//! Names of one or two capitals, in place of going over the letters of an identifier.

ghost use Rattle.std.specs.Prelude.{◌≡◌, ◌<◌, ◌≤◌, ◌+◌, length, slice_index, IsTrue, IfSome};
ghost use Rattle.sgf_properties.specs.Spelling.{is_upper};
ghost use Rattle.sgf_properties.specs.Front.{is_letter, name_in};
ghost use Rattle.sgf_properties.specs.Offsets.{IsSpan, IsBracket};

/// Whether an identifier is one or two capitals, as nearly all are. If so, the identifier itself is the name.
pub(crate) fn is_short_name(identifier: &[u8]) -> bool
    ensures { IsTrue result → name_in identifier.now ≡ identifier.now }
{
    match identifier {
        [one] => one.is_ascii_uppercase(),
        [one, other] => one.is_ascii_uppercase() && other.is_ascii_uppercase(),
        _ => false,
    }
}

/// The offset after the name whose first capital is at `at`. It is found if the name has one or two
/// letters, as nearly all have, and a `[` follows. Offsets are in bytes, from 0.
#[inline(always)]
pub fn short_name_end(text: &[u8], at: usize) -> Option<usize>
    requires within { at < length text.now }
    requires capital { IsTrue (is_upper (slice_index text.now at)) }
    ensures letters { IfSome result (IsSpan is_letter text.now at) }
    ensures capitals { IfSome result (IsSpan is_upper text.now at) }
    ensures bracket { IfSome result (IsBracket text.now) }
    ensures rises { IfSome result (λ end. at < end) }
    ensures near { IfSome result (λ end. end ≤ at + 2) }
{
    if text.len() - at > 2 {
        if text[at + 1] == b'[' {
            return Some(at + 1);
        }
        if text[at + 2] == b'[' && text[at + 1].is_ascii_uppercase() {
            return Some(at + 2);
        }
    }
    None
}
