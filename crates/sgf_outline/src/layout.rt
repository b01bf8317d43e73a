//! What is known of the nodes of a game while they are read, and which bytes the sgf form copies of them.

ghost use Rattle.std.specs.Prelude.{◌≡◌, ◌≤◌, List, ℕ, length, slice_range, IfOk};
ghost use Rattle.sgf_outline.specs.OwnNodes.{Copies, MayGoOn};

use crate::visitor::Visitor;
use sgf_properties::MemoryFault;

/// The own nodes of a game, as they stand in the text. They are the nodes of a sequence.
#[derive(Clone, Copy)]
pub struct OwnNodes {
    /// The offset of the first `;`.
    pub first: usize,
    /// The offset of the last `;`.
    pub last: usize,
    /// How many nodes these are.
    pub count: usize,
    /// The last segment. It begins at `first` if it is the only one.
    pub segment: Segment,
}

/// A segment of a text: bytes that the sgf form copies in one piece. It writes the nodes of a sequence as the texts of their segments, one
/// after another. Between these are white space and small letters of names.
#[derive(Clone, Copy)]
pub struct Segment {
    /// The offset of its first byte.
    pub start: usize,
    /// The offset after its last byte.
    pub end: usize,
}

impl Segment {
    /// After this segment the bytes from `from` to `to` are copied. They go on with it if they begin where it ends. If not, `visitor` is
    /// told of it, and they begin the next segment.
    #[inline(always)]
    pub fn then<K: Visitor>(
        self,
        from: usize,
        to: usize,
        visitor: &mut K,
    ) -> Result<Segment, MemoryFault>
        requires { MayGoOn self from to }
        ensures rises { IfOk result (λ next. next.start ≤ next.end) }
        ensures end { IfOk result (λ next. next.end ≡ to) }
        ensures copied { IfOk result (λ next. (text : List ℕ) → to ≤ length text
            → Copies (K.keeps text visitor.old) (K.keeps text visitor.new) text self next (slice_range text from to)) }
    {
        if self.end == from {
            return Ok(Segment { end: to, ..self });
        }
        visitor.segment(self)?;
        Ok(Segment {
            start: from,
            end: to,
        })
    }
}
