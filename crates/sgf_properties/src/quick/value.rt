//! Where values end, in place of the searches of `value`: short values without an escape near their end, long ones whose lengths were kept
//! when they were read, and values such as `[pd]`, by tens of which stones are set up.

ghost use Rattle.std.specs.Prelude.{◌<◌, ◌≤◌, ◌+◌, length, IsTrue, IfSome};
ghost use Rattle.sgf_properties.specs.Offsets.{IsValueEnd, IsTwoOrdinary, ArePoints, IsBracket};
ghost use Rattle.sgf_properties.specs.KeptLengths.{AreKeptLengths};

use crate::value::LongValue;
use std::simd::prelude::*;

/// The number of bytes that are compared before a search, which costs more to begin. Sizes, names and clock times are short.
pub const NEAR: usize = 16;

/// The offset of the `]` that ends the raw value at `at`, if the value is short, as most are. Offsets are in bytes, from 0.
#[inline(always)]
pub fn short_value_end(text: &[u8], at: usize) -> Option<usize>
    requires { at ≤ length text.now }
    ensures { IfSome result (IsValueEnd text.now at) }
{
    if text.len() - at < NEAR {
        return None;
    }
    near_value_end(text, at)
}

/// The same offset, where at least `NEAR` bytes are left from `at` on.
#[inline(always)]
#[tactic(auto, using(crate::proofs::NearBrackets::lowest_found))]
pub fn near_value_end(text: &[u8], at: usize) -> Option<usize>
    requires { at + NEAR ≤ length text.now }
    ensures { IfSome result (IsValueEnd text.now at) }
{
    if is_two_ordinary(text, at) {
        return Some(at + 2);
    }
    // The first `]` among the `NEAR` bytes, all compared at once.
    let found = u8x16::from_slice(&text[at..])
        .simd_eq(u8x16::splat(b']'))
        .to_bitmask();
    if found == 0 {
        return None;
    }
    let bracket = at + found.trailing_zeros() as usize;
    if bracket != at && text[bracket - 1] == b'\\' {
        return None;
    }
    Some(bracket)
}

/// Whether the raw value at the offset `at` is two bytes without an escape, as in a point. At least three bytes must be left from `at` on.
pub fn is_two_ordinary(text: &[u8], at: usize) -> bool
    requires { at + 2 < length text.now }
    ensures { IsTrue result → IsTwoOrdinary text.now at }
{
    text[at + 2] == b']'
        && text[at] != b']'
        && text[at] != b'\\'
        && text[at + 1] != b']'
        && text[at + 1] != b'\\'
}

/// The offset of the `]` that ends the raw value at `at`, if the value's length was kept.
pub(crate) fn kept_end(text: &[u8], at: usize, long: &[LongValue]) -> Option<usize>
    requires within { at ≤ length text.now }
    requires kept { AreKeptLengths text.now long.now }
    ensures { IfSome result (IsValueEnd text.now at) }
{
    let left = text.len() - at;
    let mut low = 0;
    let mut high = long.len();
    'halves: while low < high {
        let middle = low + (high - low) / 2;
        if long[middle].left as usize > left {
            low = middle + 1;
        } else {
            high = middle;
        }
    }
    if low < long.len() && long[low].left as usize == left {
        Some(at + long[low].bytes as usize)
    } else {
        None
    }
}

/// The offset after values such as `[pd]` that stand from `at` on, as far as they are found. If a `[` is at `at`, another begins there.
#[tactic(auto, using(crate::proofs::Points::points_more, crate::proofs::Points::fourth_stands))]
pub fn past_points(text: &[u8], at: usize) -> usize
    requires { at ≤ length text.now }
    ensures points { ArePoints text.now at result }
    ensures within { result ≤ length text.now }
    ensures stands { IsBracket text.now at → IsBracket text.now result }
{
    let mut end = at;
    'points: while are_four_points(text, end) {
        // The fourth one is left, so that a `[` is there.
        end += 12;
    }
    end
}

/// Whether four values such as `[pd]` stand at `at`, one after the other.
#[inline(always)]
fn are_four_points(text: &[u8], at: usize) -> bool
    requires { at ≤ length text.now }
    ensures four { IsTrue result → ArePoints text.now at (at + 16) }
    ensures within { IsTrue result → at + NEAR ≤ length text.now }
{
    // This test is cheap, and fails for most values.
    if text.len() - at < NEAR || text[at + 3] != b']' {
        return false;
    }
    // A byte is in place if it is at most so much above the least one. This wraps, so only `\` and `]` aren't ordinary.
    let least = u8x16::from_array([
        b'[', 94, 94, b']', b'[', 94, 94, b']', b'[', 94, 94, b']', b'[', 94, 94, b']',
    ]);
    let above = u8x16::from_array([
        0, 253, 253, 0, 0, 253, 253, 0, 0, 253, 253, 0, 0, 253, 253, 0,
    ]);
    let in_place = (u8x16::from_slice(&text[at..]) - least)
        .simd_le(above)
        .to_bitmask();
    in_place == 65535
}
