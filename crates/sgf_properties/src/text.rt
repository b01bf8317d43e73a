//! The decoded text of a raw value (SGF FF[4], Text).

ghost use Rattle.std.specs.Prelude.{◌≡◌, ◌<◌, ◌≤◌, ◌+◌, ◌++◌, OnOk, OnErr, length, take, drop, option_to_list};
ghost use Rattle.sgf_properties.specs.Text.{text_of, spaced as spaced_rule};

use crate::fault::MemoryFault;
use crate::quick::literals::{TOGETHER, near_literals};

/// Appends the decoded text of a raw value to `out` (SGF FF[4], Text).
///
/// - A line break is CR LF, LF CR, LF or CR, and becomes an LF.
/// - A `\` before a line break is dropped, and the line break too. Before any other byte, or at the end, only the `\` is dropped.
/// - The bytes 9, 11 and 12 become a space, after a `\` too.
/// - Every other byte stays.
///
/// Three of these rules are this project's choices. A CR and an LF side by side, in either order and taken from the left, are one break. A
/// break becomes an LF. A `\` as the last byte becomes nothing. `MemoryFault` comes only if memory was refused; then `out` is unchanged.
pub fn push_text(raw: &[u8], out: &mut Vec<u8>) -> Result<(), MemoryFault>
    ensures decoded { OnOk result (out.new.items ≡ out.old.items ++ text_of raw.now) }
    ensures unchanged { OnErr result (out.new.items ≡ out.old.items) }
{
    out.reserve(raw.len())?;
    let mut rest = raw;
    while !rest.is_empty() {
        let (literal, special) = rest.split_at(literal_length(rest));
        out.extend_from_slice(literal).unwrap();
        let (byte, after) = decode_front(special);
        if let Some(byte) = byte {
            out.push(byte).unwrap();
        }
        rest = after;
    }
    Ok(())
}

/// A number of bytes at the front that stand for themselves, whatever follows: neither escapes nor white space. The next one may, too.
fn literal_length(raw: &[u8]) -> usize
    ensures within { result ≤ length raw.now }
    ensures literal { text_of raw.now ≡ take result raw.now ++ text_of (drop result raw.now) }
{
    let mut end = 0;
    'together: while raw.len() - end >= TOGETHER {
        let more = near_literals(raw, end);
        end += more;
        if more < TOGETHER {
            return end;
        }
    }
    'bytes: while end < raw.len() && !matches!(raw[end], b'\\' | b'\t'..=b'\r') {
        end += 1;
    }
    end
}

/// What the front of a raw value becomes, a byte or nothing, and the rest. This plain way decides on escapes, line breaks and white space.
fn decode_front(raw: &[u8]) -> (Option<u8>, &[u8])
    ensures decoded { text_of raw.now ≡ option_to_list result.0 ++ text_of result.1.now }
    ensures room { length (option_to_list result.0) + length result.1.now ≤ length raw.now }
    ensures shorter { 0 < length raw.now → length result.1.now < length raw.now }
{
    match raw {
        [] | [b'\\'] => (None, &[]),
        [b'\\', b'\r', b'\n', rest @ ..] | [b'\\', b'\n', b'\r', rest @ ..] => (None, rest),
        [b'\\', b'\r' | b'\n', rest @ ..] => (None, rest),
        [b'\\', byte, rest @ ..] => (Some(spaced(*byte)), rest),
        [b'\r', b'\n', rest @ ..] | [b'\n', b'\r', rest @ ..] => (Some(b'\n'), rest),
        [b'\r' | b'\n', rest @ ..] => (Some(b'\n'), rest),
        [byte, rest @ ..] => (Some(spaced(*byte)), rest),
    }
}

/// A space for a tab, a vertical tab or a form feed; any other byte stays.
fn spaced(byte: u8) -> u8
    ensures { result ≡ spaced_rule byte }
{
    match byte {
        b'\t' | 11 | 12 => b' ',
        _ => byte,
    }
}
