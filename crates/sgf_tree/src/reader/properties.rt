//! Reading the properties of a node (SGF FF[4], EBNF: Node, Property, PropIdent), and telling a visitor what the sgf form copies of them.

ghost use Rattle.std.specs.Prelude.{◌<◌, ◌≤◌, ◌+◌, length, slice_range, IfOk, IfErr, OnOk};
ghost use Rattle.sgf_properties.specs.Front.{name_in};
ghost use Rattle.sgf_outline.specs.OwnNodes.{Copies, MayGoOn};
ghost use Rattle.sgf_tree.specs.inner.PropertiesRead.{BeginsProperty, IsNameCopied, IsPropertyRead, ArePropertiesRead, IsFaultInProperty, IsFaultInNode};
ghost use Rattle.sgf_properties.specs.KeptLengths.{AreKeptLengths};

use crate::fault::ReadFault;
use crate::quick::properties::{ShortRead, read_short_property};
use crate::reader::value::read_value;
use sgf_outline::{MAX_LENGTH, Segment, Visitor};
use sgf_properties::{
    LongValue, MemoryFault, capital_at, letters_end, short_name_end, skip_white_space, stands_at,
};

/// How far a part of a node was read.
#[derive(Clone, Copy)]
pub(crate) struct PartRead {
    /// The last segment of what the sgf form copies. It ends where the part ends.
    pub segment: Segment,
    /// The offset after the white space that follows the part.
    pub end: usize,
}

/// Reads the properties of a node, which begin at the end of `segment` or after white space there: Node = `;` { Property }.
pub(crate) fn read_properties<K: Visitor>(
    text: &[u8],
    segment: Segment,
    visitor: &mut K,
    long: &mut Vec<LongValue>,
) -> Result<PartRead, ReadFault>
    requires segment { MayGoOn segment segment.end (length text.now) }
    requires kept { AreKeptLengths text.now long.old.items }
    ensures rises { IfOk result (λ read. read.segment.start ≤ read.segment.end) }
    ensures read { IfOk result (λ read. ArePropertiesRead (Copies (K.keeps text.now visitor.old) (K.keeps text.now visitor.new) text.now segment read.segment)
        text.now segment.end read.segment.end read.end) }
    ensures fault { IfErr result (IsFaultInNode text.now segment.end) }
    ensures kept { OnOk result (AreKeptLengths text.now long.new.items) }
{
    let end = skip_white_space(text, segment.end);
    let mut read = PartRead { segment, end };
    'properties: while capital_at(text, read.end) {
        if let Some(property) = read_short_property(text, read.end) {
            let ShortRead { text_end, end } = property;
            let segment = read.segment.then(read.end, text_end, visitor)?;
            read = PartRead { segment, end };
        } else {
            read = read_property(text, read, visitor, long)?;
        }
    }
    Ok(read)
}

/// Reads the property whose identifier begins at the end of `before`, value after value: Property = PropIdent PropValue { PropValue }.
/// White space may follow each value. This is the plain way.
fn read_property<K: Visitor>(
    text: &[u8],
    before: PartRead,
    visitor: &mut K,
    long: &mut Vec<LongValue>,
) -> Result<PartRead, ReadFault>
    requires begins { BeginsProperty text.now before }
    requires kept { AreKeptLengths text.now long.old.items }
    ensures rises { IfOk result (λ read. read.segment.start ≤ read.segment.end) }
    ensures read { IfOk result (λ read. IsPropertyRead (Copies (K.keeps text.now visitor.old) (K.keeps text.now visitor.new) text.now before.segment read.segment)
        text.now before.end read.segment.end read.end) }
    ensures fault { IfErr result (IsFaultInProperty text.now before.end) }
    ensures kept { OnOk result (AreKeptLengths text.now long.new.items) }
{
    let mut read = read_name(text, before, visitor)?;
    'values: loop {
        let value_end = read_value(text, read.end, long)? + 1;
        let segment = read.segment.then(read.end, value_end, visitor)?;
        let end = skip_white_space(text, value_end);
        read = PartRead { segment, end };
        if !stands_at(text, end, b'[') {
            return Ok(read);
        }
    }
}

/// Reads the identifier (PropIdent) that begins at the end of `before`, up to the `[` after it. It may have small letters, and white space
/// may follow it. A shortcut finds the end of a short name.
#[inline(always)]
fn read_name<K: Visitor>(
    text: &[u8],
    before: PartRead,
    visitor: &mut K,
) -> Result<PartRead, ReadFault>
    requires { BeginsProperty text.now before }
    ensures read { IfOk result (IsNameCopied (K.keeps text.now visitor.old) (K.keeps text.now visitor.new) text.now before) }
    ensures fault { IfErr result (IsFaultInProperty text.now before.end) }
{
    if let Some(end) = short_name_end(text, before.end) {
        let segment = before.segment.then(before.end, end, visitor)?;
        return Ok(PartRead { segment, end });
    }
    let text_end = letters_end(text, before.end);
    let end = skip_white_space(text, text_end);
    if !stands_at(text, end, b'[') {
        return Err(ReadFault::NotSgf { at: end });
    }
    let segment = copy_capitals(text, before.end, text_end, before.segment, visitor)?;
    Ok(PartRead { segment, end })
}

/// After `segment` the capitals between two offsets are copied, and no other bytes there: the sgf form leaves small letters of names out.
fn copy_capitals<K: Visitor>(
    text: &[u8],
    from: usize,
    to: usize,
    segment: Segment,
    visitor: &mut K,
) -> Result<Segment, MemoryFault>
    requires segment { MayGoOn segment from to }
    requires within { to ≤ length text.now }
    ensures rises { IfOk result (λ next. next.start ≤ next.end) }
    ensures end { IfOk result (λ next. next.end ≤ to) }
    ensures copied { IfOk result (λ next. Copies (K.keeps text.now visitor.old) (K.keeps text.now visitor.new) text.now segment next
        (name_in (slice_range text.now from to))) }
{
    let mut segment = segment;
    let mut at = from;
    'letters: while at < to {
        if capital_at(text, at) {
            segment = segment.then(at, at + 1, visitor)?;
        }
        at += 1;
    }
    Ok(segment)
}
