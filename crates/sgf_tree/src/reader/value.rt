//! Reading raw values (SGF FF[4], PropValue). The end of a long one is searched for once: its length is kept for later steps over it.

ghost use Rattle.std.specs.Prelude.{IfOk, IfErr};
ghost use Rattle.sgf_properties.specs.Offsets.{IsBracket};
ghost use Rattle.sgf_tree.specs.inner.PropertiesRead.{MayReadValue, AreValuesRead, IsFaultInValues};

use crate::fault::ReadFault;
use sgf_properties::{LongValue, far_value_end, past_points, short_value_end};

/// The least length in bytes of a value whose length is kept. A search over these costs more than a look-up. Few comments are as long.
const LONG: usize = 4096;

/// Reads the value whose `[` is at `at`, and keeps its length if the value is long. Returns the offset of its `]`.
// A shortcut passes over points, if such values begin there, and the value after them is read. Another one reads a short value.
pub(crate) fn read_value(
    text: &[u8],
    at: usize,
    long: &mut Vec<LongValue>,
) -> Result<usize, ReadFault>
    requires may { MayReadValue text.now at long.old.items }
    requires stands { IsBracket text.now at }
    ensures read { IfOk result (AreValuesRead text.now at long.new.items) }
    ensures fault { IfErr result (IsFaultInValues text.now at) }
{
    let start = past_points(text, at) + 1;
    if let Some(end) = short_value_end(text, start) {
        return Ok(end);
    }
    let Some(end) = far_value_end(text, start) else {
        return Err(ReadFault::NotSgf { at: text.len() });
    };
    if end - start >= LONG {
        let (left, bytes) = ((text.len() - start) as u32, (end - start) as u32);
        if long.push(LongValue { left, bytes }).is_err() {
            return Err(ReadFault::Memory);
        }
    }
    Ok(end)
}
