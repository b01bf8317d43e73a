//! Properties with a name of two letters and a short value.

ghost use Rattle.std.specs.Prelude.{◌<◌, ◌≤◌, ◌+◌, length, IfSome};
ghost use Rattle.sgf_outline.specs.Move.{IsShortProperty};

use sgf_properties::NEAR;
use std::simd::prelude::*;

/// The `]` of the first value of a property at `at`, if its name is two capitals, this value has few ordinary bytes, and the text goes on.
#[inline(always)]
pub fn near_property_close(text: &[u8], at: usize) -> Option<usize>
    requires { at ≤ length text.now }
    ensures short { IfSome result (IsShortProperty text.now at) }
    ensures goes_on { IfSome result (λ close. close + 1 < length text.now) }
{
    if text.len() - at <= NEAR || text[at] <= b' ' {
        return None;
    }
    // A byte stops a property such as `BL[921.325]` if it is at most so much above the least one. At first any byte but two capitals and a
    // `[` does, then a `]` or a `\`. This wraps: 91 comes after `Z`, and 229 bytes on is the byte before `A`. `[`, `\`, `]` are 91 to 93.
    let least = u8x16::from_array([
        91, 91, 92, 92, 92, 92, 92, 92, 92, 92, 92, 92, 92, 92, 92, 92,
    ]);
    let above = u8x16::from_array([229, 229, 254, 1, 1, 1, 1, 1, 1, 1, 1, 1, 1, 1, 1, 1]);
    let stops = (u8x16::from_slice(&text[at..]) - least)
        .simd_le(above)
        .to_bitmask();
    if stops % 8 != 0 || stops == 0 {
        return None;
    }
    let close = at + stops.trailing_zeros() as usize;
    if text[close] == b']' {
        Some(close)
    } else {
        None
    }
}
