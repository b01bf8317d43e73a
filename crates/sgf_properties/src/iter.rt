//! Going forward over the properties of a node, and over the values of a property.
//! All steps over a node together take time in proportion to its text, however many properties and values it has.

ghost use Rattle.std.specs.Prelude.{◌≡◌, ◌≤◌, ◌<◌, ◌∷◌, length, drop, slice_index, IsTrue, IfSome, MatchOption, List, ℕ, option_copied};
ghost use Rattle.std.specs.Iterator.{YieldsFirst, YieldsFirstRef, item_count};
ghost use Rattle.sgf_properties.specs.Property.{Property};
ghost use Rattle.sgf_properties.specs.Spelling.{is_white_space, is_upper, IsProperty};
ghost use Rattle.sgf_properties.specs.Offsets.{IsSpan};
ghost use Rattle.sgf_properties.specs.Front.{properties_in, ArePropertiesIn, values_in, AreValuesIn};
ghost use Rattle.sgf_properties.specs.inner.Iterating.{IsValueAt, IsValuesEnd, IsNoPropValue, values_left};
ghost use Rattle.sgf_properties.specs.KeptLengths.{AreKeptLengths};
ghost use Rattle.sgf_properties.specs.inner.PropertyCode.{properties_code, values_code};

use crate::property::PropRef;
use crate::quick::name::short_name_end;
use crate::quick::value::{past_points, short_value_end};
use crate::scan::{begins_value, capital_at, letters_end, skip_white_space, stands_at};
use crate::value::{LongValue, far_end};
use std::marker::Model;

/// The properties of a node that `next` hasn't taken off yet, in file order. Its calls take no memory.
#[derive(Drop)]
pub struct Properties<'c, 'a> {
    pub(crate) rest: &'a [u8],
    pub(crate) long: &'c Vec<LongValue>,
}

impl<'c, 'a> Model for Properties<'c, 'a> {
    ghost Value = { List Property };

    ghost coded = { properties_code };

    ghost view = { λ n. properties_in n.rest.now };

    ghost invariant = { λ n. ArePropertiesIn n.rest.now × AreKeptLengths n.rest.now n.long.now.items };
}

impl<'c, 'a> Properties<'c, 'a> {
    /// The properties of a node, which begin at the offset `at` in a text, in bytes from 0, perhaps after white space. Whole properties
    /// must stand there, up to the end of a node. `long` has the kept lengths of the text's long values.
    #[inline(always)]
    pub fn new(text: &'a [u8], at: usize, long: &'c Vec<LongValue>) -> Properties<'c, 'a>
        requires within { at ≤ length text.now }
        requires held { ArePropertiesIn (drop at text.now) }
        requires kept { AreKeptLengths text.now long.now.items }
        ensures { result ≡ properties_in (drop at text.now) }
    {
        let rest = &text[at..];
        Properties { rest, long }
    }
}

impl<'c, 'a> Iterator for Properties<'c, 'a> {
    type Item = PropRef<'a>;

    ghost next_gives = { YieldsFirst (λ left. left) };

    ghost remaining = { item_count (λ left. left) };

    /// Takes off the next property, and returns it. After the last one it returns None, however often it is called.
    #[inline(always)]
    fn next(&mut self) -> Option<PropRef<'a>> {
        let text = self.rest;
        let start = skip_white_space(text, 0);
        if !capital_at(text, start) {
            return None;
        }
        let (property, next) = property_at(text, start, self.long);
        self.rest = &text[next..];
        Some(property)
    }
}

/// The raw values of a property that `next` hasn't taken off yet, in file order. Its calls take no memory.
#[derive(Drop)]
pub struct Values<'a> {
    /// The first value, until it is taken off. Its end is known already.
    pub(crate) first: Option<&'a [u8]>,
    pub(crate) rest: &'a [u8],
}

impl<'a> Model for Values<'a> {
    ghost Value = { List (List ℕ) };

    ghost coded = { values_code };

    ghost view = { λ p. values_left (option_copied p.first) (values_in p.rest.now) };

    ghost invariant = { λ p. AreValuesIn p.rest.now };
}

impl<'a> Iterator for Values<'a> {
    type Item = &'a [u8];

    ghost next_gives = { YieldsFirstRef (λ left. left) };

    ghost remaining = { item_count (λ left. left) };

    /// Takes off the next raw value, and returns it: the bytes between its `[` and its `]`, a part of the text that was read.
    /// After the last one it returns None, however often it is called.
    #[inline(always)]
    fn next(&mut self) -> Option<&'a [u8]> {
        if let Some(first) = self.first {
            self.first = None;
            return Some(first);
        }
        let text = self.rest;
        let Some((start, close)) = value_at(text, 0, None) else {
            return None;
        };
        self.rest = &text[close + 1..];
        Some(&text[start..close])
    }
}

/// The first property of a text, and the offset where its values end. Its identifier begins at `start`, after white space. Whole properties
/// must stand in the text, up to the end of a node. `long` has the kept lengths of the text's long values. Offsets are in bytes, from 0.
#[inline(always)]
pub fn property_at<'a>(text: &'a [u8], start: usize, long: &Vec<LongValue>) -> (PropRef<'a>, usize)
    requires held { ArePropertiesIn text.now }
    requires kept { AreKeptLengths text.now long.now.items }
    requires white_space { IsSpan is_white_space text.now 0 start }
    requires within { start < length text.now }
    requires capital { IsTrue (is_upper (slice_index text.now start)) }
    ensures within { result.1 ≤ length text.now }
    ensures left { ArePropertiesIn (drop result.1 text.now) }
    ensures first { properties_in text.now ≡ result.0 ∷ properties_in (drop result.1 text.now) }
    ensures spelled { (property : Property) × IsProperty property text.now (drop result.1 text.now) }
{
    let end = match short_name_end(text, start) {
        Some(end) => end,
        None => letters_end(text, start),
    };
    let (from, close) = value_at(text, end, Some(long)).unwrap();
    let more = close + 1;
    let next = values_end(text, more, long);
    let property = PropRef {
        identifier: &text[start..end],
        first: &text[from..close],
        more: &text[more..],
    };
    (property, next)
}

/// Where the raw value at `at` begins, after white space and a `[`, and where its `]` is. None if no value is there. The kept lengths are
/// passed as a reference to a vector, because that is one word. Many calls pass it on, and few read it.
#[inline(always)]
fn value_at(text: &[u8], at: usize, long: Option<&Vec<LongValue>>) -> Option<(usize, usize)>
    requires within { at ≤ length text.now }
    requires kept { IfSome long (λ kept. AreKeptLengths text.now kept.now.items) }
    ensures { MatchOption result (IsNoPropValue (drop at text.now)) (λ value. IsValueAt text.now at value.0 value.1) }
{
    let bracket = skip_white_space(text, at);
    if !stands_at(text, bracket, b'[') {
        return None;
    }
    let start = bracket + 1;
    if let Some(close) = short_value_end(text, start) {
        return Some((start, close));
    }
    let close = far_end(text, start, long)?;
    Some((start, close))
}

/// The end of the values at `at`. After the first value of a property there are usually no more.
fn values_end(text: &[u8], at: usize, long: &Vec<LongValue>) -> usize
    requires within { at ≤ length text.now }
    requires kept { AreKeptLengths text.now long.now.items }
    ensures { IsValuesEnd text.now at result }
{
    if begins_value(text, at) {
        more_values_end(text, at, long)
    } else {
        at
    }
}

/// The end of the values at `at`, however many there are. A shortcut passes over points, and the loop is the plain way.
#[inline(never)]
fn more_values_end(text: &[u8], at: usize, long: &Vec<LongValue>) -> usize
    requires within { at ≤ length text.now }
    requires kept { AreKeptLengths text.now long.now.items }
    ensures { IsValuesEnd text.now at result }
{
    let mut end = past_points(text, at);
    'values: while let Some((_start, close)) = value_at(text, end, Some(long)) {
        end = close + 1;
    }
    end
}
