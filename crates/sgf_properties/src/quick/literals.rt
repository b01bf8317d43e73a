//! Bytes of a value that stand for themselves, sixteen at once.

ghost use Rattle.std.specs.Prelude.{◌≤◌, ◌+◌, length};
ghost use Rattle.sgf_properties.specs.inner.Literals.{AreLiterals};

use std::simd::prelude::*;

/// The number of bytes that are looked at together.
pub(crate) const TOGETHER: usize = 16;

/// How many of the `TOGETHER` bytes at `at` come before the first `\` or control byte up to CR. The bytes before it stand for themselves.
pub(crate) fn near_literals(raw: &[u8], at: usize) -> usize
    requires { at + TOGETHER ≤ length raw.now }
    ensures at_most { result ≤ TOGETHER }
    ensures literal { AreLiterals raw.now at (at + result) }
{
    let bytes = u8x16::from_slice(&raw[at..]);
    let escapes = bytes.simd_eq(u8x16::splat(b'\\')).to_bitmask();
    let controls = bytes.simd_lt(u8x16::splat(b'\r' + 1)).to_bitmask();
    // If no bit is set, there are 64 zeros.
    let zeros = escapes.trailing_zeros().min(controls.trailing_zeros());
    TOGETHER.min(zeros as usize)
}
