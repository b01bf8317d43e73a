//! A node of a collection.

ghost use Rattle.std.specs.Prelude.{◌≡◌, ◌<◌, ◌++◌, length, slice_get, find, Some, OnOk, OnErr, option_map, option_to_list, drop};
ghost use Rattle.std.specs.Str.{bytes_eq};
ghost use Rattle.sgf_outline.specs.Tree.{lone_property, Node};
ghost use Rattle.sgf_outline.specs.Written.{node_text};
ghost use Rattle.sgf_outline.specs.inner.TreeCode.{node_code};
ghost use Rattle.sgf_properties.specs.Front.{properties_in};
ghost use Rattle.sgf_outline.specs.inner.NodeText.{IsNodeIn};
ghost use Rattle.sgf_properties.specs.KeptLengths.{AreKeptLengths};

use crate::quick::lead::is_lone_front;
use sgf_properties::{LongValue, MemoryFault, PropRef, Properties, push_property};
use std::marker::Model;

/// A node, seen as its place and its properties. Only `push_to` takes memory. The properties are read from the text, so the time of a call
/// depends on how much of the node's text it goes over.
#[derive(Drop)]
pub struct NodeRef<'c, 'a> {
    pub(crate) place: u32,
    /// The text from the node's `;` on.
    pub(crate) text: &'a [u8],
    /// The kept lengths of the text's long values. A reference to the vector is smaller than a slice would be.
    pub(crate) long: &'c Vec<LongValue>,
}

impl<'c, 'a> Model for NodeRef<'c, 'a> {
    ghost Value = { Node };

    ghost coded = { node_code };

    ghost view = { λ n. record { place = n.place; properties = properties_in (drop 1 n.text.now) } };

    ghost invariant = { λ n. IsNodeIn n.text.now × AreKeptLengths n.text.now n.long.now.items };
}

impl<'c, 'a> NodeRef<'c, 'a> {
    /// Its place: the offset in bytes, from 0, of its `;` in the text.
    pub fn place(&self) -> usize
        ensures { result ≡ self.now.place }
    {
        self.place as usize
    }

    /// Its properties, in file order.
    pub fn iter(&self) -> Properties<'c, 'a>
        ensures { result ≡ self.now.properties }
    {
        Properties::new(self.text, 1, self.long)
    }

    /// If the first property is recognized at a glance, as in `;B[pd]`, this returns its letter and its raw value, and the properties after
    /// it. Otherwise it returns None and all properties. So the two parts of the result together are always all properties. The first
    /// property is recognized only if its name is one capital and its only value is two bytes without an escape.
    pub fn front(&self) -> (Option<(u8, &'a [u8])>, Properties<'c, 'a>)
        ensures { self.now.properties ≡ option_to_list (option_map (λ lone. lone_property lone.0 lone.1.now) result.0) ++ result.1 }
    {
        let text = self.text;
        if is_lone_front(text) {
            let left = Properties::new(text, 6, self.long);
            (Some((text[1], &text[3..5])), left)
        } else {
            (None, self.iter())
        }
    }

    /// The number of its properties. This goes over all of them.
    pub fn props(&self) -> usize
        ensures { result ≡ length self.now.properties }
    {
        self.iter().count()
    }

    /// Property `i`, from 0 in file order. `i` must be less than `props()`. This goes over those before it; to get all of them, use `iter`.
    pub fn prop(&self, i: usize) -> PropRef<'a>
        requires { i < length self.now.properties }
        ensures { slice_get self.now.properties i ≡ Some result }
    {
        self.iter().nth(i).unwrap()
    }

    /// The first property with this name; None if the node has none.
    pub fn first(&self, name: &[u8]) -> Option<PropRef<'a>>
        ensures { result ≡ find (λ p. bytes_eq p.name name.now) self.now.properties }
    {
        for property in self.iter() {
            if property.is(name) {
                return Some(property);
            }
        }
        None
    }

    /// Appends the node as the sgf form writes it: a `;`, and for each property its name in capitals and its raw values between brackets,
    /// as they are in the text. Nothing stands between these. `MemoryFault` comes only if memory was refused; then `out` is unchanged.
    pub fn push_to(&self, out: &mut Vec<u8>) -> Result<(), MemoryFault>
        ensures appended { OnOk result (out.new.items ≡ out.old.items ++ node_text self.now) }
        ensures unchanged { OnErr result (out.new.items ≡ out.old.items) }
    {
        let before = out.len();
        out.push(b';')?;
        for property in self.iter() {
            if push_property(&property, out).is_err() {
                out.truncate(before);
                return Err(MemoryFault);
            }
        }
        Ok(())
    }
}
