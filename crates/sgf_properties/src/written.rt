//! Writing a property as the sgf form does, part by part.

#![tactic(auto, using(crate::proofs::GoingOn::goes_on_on))]

ghost use Rattle.std.specs.Prelude.{◌≡◌, ◌++◌, OnOk, OnErr};
ghost use Rattle.sgf_properties.specs.Written.{property_text, GoesOn};

use crate::fault::MemoryFault;
use crate::property::PropRef;

/// Appends a property as the sgf form writes it: its name in capitals, and its raw values between brackets, as they are in the text.
/// Nothing stands between these parts (this project's choice). `MemoryFault` comes only if memory was refused; then `out` is unchanged.
pub fn push_property(property: &PropRef<'_>, out: &mut Vec<u8>) -> Result<(), MemoryFault>
    ensures appended { OnOk result (out.new.items ≡ out.old.items ++ property_text property.now) }
    ensures unchanged { OnErr result (out.new.items ≡ out.old.items) }
{
    let before = out.len();
    let pushed = push_parts(property, out);
    if pushed.is_err() {
        out.truncate(before);
    }
    pushed
}

/// The same, but a refusal of memory may leave some of the parts appended.
fn push_parts(property: &PropRef<'_>, out: &mut Vec<u8>) -> Result<(), MemoryFault>
    ensures appended { OnOk result (out.new.items ≡ out.old.items ++ property_text property.now) }
    ensures goes_on { GoesOn out.old.items out.new.items }
{
    property.push_name(out)?;
    for value in property.iter() {
        out.push(b'[')?;
        out.extend_from_slice(value)?;
        out.push(b']')?;
    }
    Ok(())
}
