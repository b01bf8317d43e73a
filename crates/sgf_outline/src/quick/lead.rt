//! Recognizing at a glance a node that is a move and then properties that don't matter to the caller, one without properties, and one that
//! begins with a lone property. Moves are recognized by one comparison of sixteen bytes, each with the least and the greatest allowed.

ghost use Rattle.std.specs.Prelude.{◌≡◌, ◌≤◌, ◌<◌, ◌+◌, ◌%◌, length, IsTrue, IfSome};
ghost use Rattle.sgf_outline.specs.Move.{IsMoveNode, EndsNode};
ghost use Rattle.sgf_outline.specs.inner.Lead.{IsLedNode, IsEmptyNode, IsLoneFront, IsOtherProperty};

use crate::quick::properties::near_property_close;
use sgf_properties::{NEAR, begins_value, is_two_ordinary, skip_white_space};
use std::simd::prelude::*;

/// What `moves_in_place` returns for two moves, one after the other.
pub const TWO_MOVES: u64 = 65535;

/// Where the node ends that the text begins with, after any white space, if it is written like `;B[pd]BL[921.325]OB[3]`: a move, and then
/// perhaps short properties whose names aren't among `names`.
#[inline(always)]
#[tactic(auto, using(crate::proofs::Leading::others_nothing, crate::proofs::Leading::others_none, crate::proofs::Leading::others_more, crate::proofs::Leading::others_end))]
pub(crate) fn led_end(text: &[u8], names: &[[u8; 2]]) -> Option<usize>
    ensures { IfSome result (IsLedNode names.now text.now) }
{
    if moves_in_place(text, 0) % 64 != 63 {
        return None;
    }
    if b' ' < text[6] && text[6] < b'A' {
        return Some(6);
    }
    let mut end = 6;
    'properties: while let Some(next) = other_property_end(text, end, names) {
        end = next;
        if b' ' < text[end] && text[end] < b'A' {
            return Some(end);
        }
    }
    let next = skip_white_space(text, end);
    (next < text.len() && text[next] < b'A').then_some(next)
}

/// Whether the text begins with a node without properties, and the next node or a parenthesis follows at once.
#[inline(always)]
pub(crate) fn is_empty_node(text: &[u8]) -> bool
    ensures { IsTrue result → IsEmptyNode text.now }
{
    text.len() > 1 && text[0] == b';' && b' ' < text[1] && text[1] < b'A'
}

/// Whether the first property of the node at the text's front is written like `B[pd]`, and has no other value. The `;` isn't looked at.
pub(crate) fn is_lone_front(text: &[u8]) -> bool
    ensures { IsTrue result → IsLoneFront text.now }
{
    text.len() > 6
        && text[1].is_ascii_uppercase()
        && text[2] == b'['
        && is_two_ordinary(text, 3)
        && !begins_value(text, 6)
}

/// Which of the bytes at `at` are as in `;B[pd];W[dd];`, all compared at once. The last of these may be any byte that ends a node.
/// The bits 13 to 15 are set too. It is 0 if fewer bytes are left than are compared.
#[inline(always)]
pub fn moves_in_place(text: &[u8], at: usize) -> u64
    requires { at ≤ length text.now }
    ensures first { result % 64 ≡ 63 → IsMoveNode text.now at }
    ensures after { result % 64 ≡ 63 → at + NEAR ≤ length text.now }
    ensures second { result ≡ TWO_MOVES → IsMoveNode text.now (at + 6) }
    ensures ends { result ≡ TWO_MOVES → EndsNode text.now (at + 12) }
{
    if text.len() - at < NEAR {
        return 0;
    }
    // A byte is in place if it is at most so much above the least one. This wraps, so only `\` and `]` aren't ordinary.
    let least = u8x16::from_array([
        b';', b'A', b'[', 94, 94, b']', b';', b'A', b'[', 94, 94, b']', 33, 0, 0, 0,
    ]);
    let above = u8x16::from_array([
        0, 25, 0, 253, 253, 0, 0, 25, 0, 253, 253, 0, 31, 255, 255, 255,
    ]);
    (u8x16::from_slice(&text[at..]) - least)
        .simd_le(above)
        .to_bitmask()
}

/// The end of the first value of the property whose name begins at `start`, if the name is two capitals and isn't among `names`, if this
/// value is short, and if the text goes on.
#[inline(always)]
fn other_property_end(text: &[u8], start: usize, names: &[[u8; 2]]) -> Option<usize>
    requires { start ≤ length text.now }
    ensures other { IfSome result (IsOtherProperty names.now text.now start) }
    ensures goes_on { IfSome result (λ end. end < length text.now) }
{
    let close = near_property_close(text, start)?;
    let name = [text[start], text[start + 1]];
    for known in names {
        if name == *known {
            return None;
        }
    }
    Some(close + 1)
}
