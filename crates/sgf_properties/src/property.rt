//! A property of a node.

ghost use Rattle.std.specs.Prelude.{◌≡◌, ◌<◌, ◌↔◌, ◌∷◌, ◌++◌, ℕ, List, length, slice_get, Some, IsTrue, OnOk, OnErr};
ghost use Rattle.sgf_properties.specs.Property.{values, Property};
ghost use Rattle.sgf_properties.specs.Front.{name_in, values_in, AreValuesIn};
ghost use Rattle.sgf_properties.specs.inner.Iterating.{BeginsName};
ghost use Rattle.sgf_properties.specs.inner.PropertyCode.{property_code};

use crate::fault::MemoryFault;
use crate::iter::Values;
use crate::quick::name::is_short_name;
use std::marker::Model;

/// A property, seen as its name and its raw values. Only `push_name` takes memory.
#[derive(Drop)]
pub struct PropRef<'a> {
    pub(crate) identifier: &'a [u8],
    pub(crate) first: &'a [u8],
    pub(crate) more: &'a [u8],
}

impl<'a> Model for PropRef<'a> {
    ghost Value = { Property };

    ghost coded = { property_code };

    ghost view = { λ p. record { name = name_in p.identifier.now; first = p.first.now; more = values_in p.more.now } };

    ghost invariant = { λ p. AreValuesIn p.more.now × BeginsName p.identifier.now };
}

impl<'a> PropRef<'a> {
    /// The first letter of its name. It is enough to tell most names apart.
    pub fn initial(&self) -> u8
        ensures { (rest : List ℕ) × (self.now.name ≡ result ∷ rest) }
    {
        self.identifier[0]
    }

    /// Whether its name is `name`. The name is the capitals of the identifier, so `GaMe` has the name `GM` (this project's choice).
    #[inline(always)]
    pub fn is(&self, name: &[u8]) -> bool
        ensures { IsTrue result ↔ (self.now.name ≡ name.now) }
    {
        if is_short_name(self.identifier) {
            self.identifier == name
        } else {
            is_name_in(self.identifier, name)
        }
    }

    /// Appends its name. `MemoryFault` comes only if memory was refused; then `out` is unchanged.
    pub fn push_name(&self, out: &mut Vec<u8>) -> Result<(), MemoryFault>
        ensures appended { OnOk result (out.new.items ≡ out.old.items ++ self.now.name) }
        ensures unchanged { OnErr result (out.new.items ≡ out.old.items) }
    {
        let identifier = self.identifier;
        out.reserve(identifier.len())?;
        for letter in identifier {
            if letter.is_ascii_uppercase() {
                out.push(*letter).unwrap();
            }
        }
        Ok(())
    }

    /// Its raw values in file order, one after another.
    pub fn iter(&self) -> Values<'a>
        ensures { result ≡ values self.now }
    {
        Values {
            first: Some(self.first),
            rest: self.more,
        }
    }

    /// The number of its values, at least 1. This goes over all of them.
    #[tactic(auto, using(crate::proofs::Iterating::count_values_held))]
    pub fn values(&self) -> usize
        ensures { result ≡ length (values self.now) }
    {
        self.iter().count()
    }

    /// Raw value `i`, from 0 in file order: the bytes between its `[` and its `]`. `i` must be less than `values()`. The bytes are a part
    /// of the text that was read, and live as long as it does. This goes over the values before it; to get all of them, use `iter`.
    pub fn value(&self, i: usize) -> &'a [u8]
        requires { i < length (values self.now) }
        ensures { slice_get (values self.now) i ≡ Some result.now }
    {
        self.iter().nth(i).unwrap()
    }
}

/// Whether the capitals of an identifier are this name. This is the plain way.
#[inline(never)]
#[tactic(auto, using(crate::proofs::Names::filter_other))]
fn is_name_in(identifier: &[u8], name: &[u8]) -> bool
    ensures { IsTrue result ↔ (name_in identifier.now ≡ name.now) }
{
    let mut matched = 0;
    for letter in identifier {
        if letter.is_ascii_uppercase() {
            if matched == name.len() || name[matched] != *letter {
                return false;
            }
            matched += 1;
        }
    }
    matched == name.len()
}
