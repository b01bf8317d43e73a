//! Where raw values end (SGF FF[4], PropValue and Escaping): at the first `]` that no `\` escapes.

ghost use Rattle.std.specs.Prelude.{◌<◌, ◌≤◌, ◌+◌, length, IfSome, MatchOption};
ghost use Rattle.sgf_properties.specs.Offsets.{IsValueEnd, IsUnended};
ghost use Rattle.sgf_properties.specs.KeptLengths.{AreKeptLengths};
ghost use Rattle.sgf_properties.specs.inner.Searches.{SpellsNoValue, AreBackslashesBefore, AreEscapes};

use crate::quick::value::kept_end;
use memchr::memchr;

/// A long raw value, in 8 bytes. Its length is kept, so that the value's end isn't searched for again.
#[derive(Clone, Copy)]
pub struct LongValue {
    /// The number of bytes from the value's first byte to the end of the text. It is the same in each part of the text that ends there.
    pub left: u32,
    /// The number of bytes of the value, without its brackets.
    pub bytes: u32,
}

/// The offset of the `]` that ends the raw value at `at`, from a kept length or by searches. None if the text ends before it.
#[inline(never)]
#[tactic(auto, using(crate::proofs::ValueUnits::unended_none))]
pub(crate) fn far_end(text: &[u8], at: usize, long: Option<&Vec<LongValue>>) -> Option<usize>
    requires within { at ≤ length text.now }
    requires kept { IfSome long (λ kept. AreKeptLengths text.now kept.now.items) }
    ensures { MatchOption result (SpellsNoValue text.now at) (IsValueEnd text.now at) }
{
    if let Some(long) = long {
        if let Some(end) = kept_end(text, at, long) {
            return Some(end);
        }
    }
    far_value_end(text, at)
}

/// The offset of the `]` that ends the raw value at `at`, by searches (SGF FF[4], PropValue and Escaping). None if the text ends before it.
/// Offsets are in bytes, from 0. This is the plain way.
///
/// A `]` is escaped if an odd number of `\` is just before it. The `\` are counted from `start` on, which is where the value begins or an
/// escape ends: earlier bytes belong to other units.
#[inline(never)]
pub fn far_value_end(text: &[u8], at: usize) -> Option<usize>
    requires { at ≤ length text.now }
    ensures { MatchOption result (IsUnended text.now at) (λ end. IsValueEnd text.now at end) }
{
    let mut start = at;
    'brackets: while let Some(further) = memchr(b']', &text[start..]) {
        let bracket = start + further;
        let escapes = bracket - first_escape(text, start, bracket);
        if escapes % 2 == 0 {
            return Some(bracket);
        }
        start = escapes_end(text, bracket + 1);
    }
    None
}

/// The first `\` of the run of `\` just before `end`; `end` if there is none. Bytes before `at` aren't counted.
fn first_escape(text: &[u8], at: usize, end: usize) -> usize
    requires rises { at ≤ end }
    requires within { end ≤ length text.now }
    ensures { AreBackslashesBefore text.now at result end }
{
    let mut first = end;
    'escapes: while first != at && text[first - 1] == b'\\' {
        first -= 1;
    }
    first
}

/// The end of the run of escapes that begins at `at`.
fn escapes_end(text: &[u8], at: usize) -> usize
    requires { at ≤ length text.now }
    ensures { AreEscapes text.now at result }
{
    let mut end = at;
    'escapes: while text.len() - end > 1 && text[end] == b'\\' {
        end += 2;
    }
    end
}
