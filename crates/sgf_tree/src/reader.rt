//! Reading a text.
//!
//! The reader goes over the text once, and tells a visitor what comes. `read_outline` keeps the sequences, `read` keeps the place of each
//! node too, and `read_extent` only counts. The length of each long value is kept in a vector.
//!
//! The reader goes from each byte to the next, and never back. It stops at the first byte that can't come next. The bytes before this byte
//! are the beginning of a valid text, so its offset is the place of the first fault. If the text ends where no valid text can end, the
//! place is the text's length. So the place is known when the reader stops, without a further search. Some parts of the reader skip ahead,
//! such as the search for the end of a value. If such a part finds nothing, the place is the text's length.
//!
//! The plain way goes from `read_whole` to `read_games`, `read_sequence`, `read_node` (`games`), `read_properties`, `read_property`,
//! `read_name` (`properties`) and `read_value` (`value`).

ghost use Rattle.std.specs.Prelude.{◌≡◌, ◌<◌, ◌≤◌, ◌↔◌, [], length, Err, IfOk, IfErr, OnOk};
ghost use Rattle.sgf_outline.specs.Tree.{no_games};
ghost use Rattle.sgf_outline.specs.Spelling.{Spells};
ghost use Rattle.sgf_tree.specs.Refusal.{IsFaultyWhereNotSgf};
ghost use Rattle.sgf_tree.specs.Extent.{HasExtent};
ghost use Rattle.sgf_tree.specs.inner.Progress.{IsTrueFault};
ghost use Rattle.sgf_properties.specs.KeptLengths.{AreKeptLengths};
ghost use Rattle.sgf_outline.specs.OwnNodes.{nothing};
ghost use Rattle.sgf_outline.specs.Unclosed.{whole};
ghost use Rattle.sgf_tree.specs.inner.GamesRead.{ReadsWhole};

mod byte_order_mark;
mod counting;
mod games;
pub(crate) mod own_nodes;
pub(crate) mod properties;
mod value;

use crate::collection::Collection;
use crate::extent::Extent;
use crate::fault::ReadFault;
use crate::numbered::Numbered;
use crate::reader::byte_order_mark::byte_order_mark_end;
use crate::reader::counting::Tally;
use crate::reader::games::read_games;
use sgf_outline::{MAX_LENGTH, Outline, Sequences, Visitor};
use sgf_properties::{LongValue, skip_white_space};
use std::alloc::Global;

/// Reads the collection that a text spells (SGF FF[4], EBNF). The collection refers to the text.
///
/// - `TooLong`: the text is longer than `MAX_LENGTH` bytes. No memory is taken for it.
/// - `NotSgf`: the text spells no collection. `at` is the offset in bytes, from 0, of its first fault.
/// - `Memory`: memory was refused. This may come in place of a collection or of `NotSgf`.
pub fn read<'a>(alloc: Global, text: &'a [u8]) -> Result<Collection<'a>, ReadFault>
    ensures too_long { (result ≡ Err ReadFault.TooLong) ↔ (MAX_LENGTH < length text.now) }
    ensures spelled { IfOk result (λ c. Spells c text.now) }
    ensures not_sgf { IfErr result (IsFaultyWhereNotSgf text.now) }
{
    if text.len() > MAX_LENGTH {
        return Err(ReadFault::TooLong);
    }
    let mut nodes = Numbered::with_room(alloc, text.len())?;
    let mut long = Vec::new(alloc);
    read_whole(text, &mut nodes, &mut long)?;
    let Numbered {
        sequences,
        places,
        last_nodes,
    } = nodes;
    Ok(Collection {
        outline: Outline::new(text, sequences, long),
        places,
        last_nodes,
    })
}

/// Reads the outline of the collection that a text spells, which knows its sequences. It takes less memory than a collection. The outline
/// refers to the text. The faults are those of `read`.
pub fn read_outline<'a>(alloc: Global, text: &'a [u8]) -> Result<Outline<'a>, ReadFault>
    ensures too_long { (result ≡ Err ReadFault.TooLong) ↔ (MAX_LENGTH < length text.now) }
    ensures spelled { IfOk result (λ c. Spells c text.now) }
    ensures not_sgf { IfErr result (IsFaultyWhereNotSgf text.now) }
{
    if text.len() > MAX_LENGTH {
        return Err(ReadFault::TooLong);
    }
    let mut sequences = Sequences::with_room(alloc, text.len())?;
    let mut long = Vec::new(alloc);
    read_whole(text, &mut sequences, &mut long)?;
    Ok(Outline::new(text, sequences, long))
}

/// Counts the games, nodes and leaves of the collection that a text spells (SGF FF[4], EBNF). Nothing is kept, so this is faster than
/// `read`. Memory is asked for only if the text has long values. The faults are those of `read`.
pub fn read_extent(alloc: Global, text: &[u8]) -> Result<Extent, ReadFault>
    ensures too_long { (result ≡ Err ReadFault.TooLong) ↔ (MAX_LENGTH < length text.now) }
    ensures measured { IfOk result (HasExtent text.now) }
    ensures not_sgf { IfErr result (IsFaultyWhereNotSgf text.now) }
{
    if text.len() > MAX_LENGTH {
        return Err(ReadFault::TooLong);
    }
    let mut tally = Tally {
        extent: Extent {
            games: 0,
            nodes: 0,
            leaves: 0,
        },
        is_bare: false,
    };
    let mut long = Vec::new(alloc);
    read_whole(text, &mut tally, &mut long)?;
    Ok(tally.extent)
}

/// Reads a whole text, and tells `visitor` what comes. A byte order mark may stand once, at the very start, before any white space.
#[tactic(auto, using(crate::proofs::ByteOrderMark::games_begin))]
fn read_whole<K: Visitor>(
    text: &[u8],
    visitor: &mut K,
    long: &mut Vec<LongValue>,
) -> Result<(), ReadFault>
    requires short { length text.now ≤ MAX_LENGTH }
    requires nothing_read { K.keeps text.now visitor.old (whole no_games) nothing }
    requires nothing_kept { long.old.items ≡ [] }
    ensures read { OnOk result (ReadsWhole (K.keeps text.now visitor.new) text.now) }
    ensures fault { IfErr result (IsTrueFault text.now) }
    ensures kept { OnOk result (AreKeptLengths text.now long.new.items) }
{
    let mark = byte_order_mark_end(text)?;
    read_games(text, skip_white_space(text, mark), visitor, long)
}
