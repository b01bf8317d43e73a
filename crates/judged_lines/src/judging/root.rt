//! Which games are judged: games of Go, on a square board of a size that boards can have (SGF FF[4], GM and SZ).

ghost use Rattle.std.specs.Prelude.{◌≡◌, codes, option_copied};
ghost use Rattle.judged_lines.specs.NodeContents.{first_value};
ghost use Rattle.judged_lines.specs.JudgedGames.{side_of, game_kind};
ghost use Rattle.judged_lines.specs.inner.Judging.{size_said};

use crate::verdict::Verdict;
use go_board::{MAX_SIDE, Size};
use sgf_tree::{NodeRef, number};

/// The side of a board if there is no SZ.
const USUAL_SIDE: i64 = 19;

/// Returns the size of the board of a root's game. If the game isn't judged, returns the verdict of each of its lines. The game is Go if it
/// has no GM, or if the value is the number 1. If it isn't Go, the verdict is `NotGo`, even if its size is faulty.
pub(crate) fn board_size(root: &NodeRef<'_, '_>) -> Result<Size, Verdict>
    ensures { result ≡ size_said (game_kind root.now.properties) }
{
    let (game, side) = game_and_side(root);
    if let Some(raw) = game {
        if number(raw) != Some(1) {
            return Err(Verdict::NotGo);
        }
    }
    size(side).ok_or(Verdict::BadSize)
}

/// The first values of a root's first GM and of its first SZ. Both are found in one pass over the properties, which ends at the later one.
fn game_and_side<'a>(root: &NodeRef<'_, 'a>) -> (Option<&'a [u8]>, Option<&'a [u8]>)
    ensures game { option_copied result.0 ≡ first_value (codes "GM") root.now.properties }
    ensures side { option_copied result.1 ≡ first_value (codes "SZ") root.now.properties }
{
    let mut game = None;
    let mut side = None;
    for property in root.iter() {
        match property.initial() {
            b'G' if game.is_none() && property.is(b"GM") => game = Some(property.value(0)),
            b'S' if side.is_none() && property.is(b"SZ") => side = Some(property.value(0)),
            _ => {}
        }
        if game.is_some() && side.is_some() {
            break;
        }
    }
    (game, side)
}

/// The size that SZ gives: 19 if there is no SZ, or its value if this is the side of a board. None for any other value.
fn size(value: Option<&[u8]>) -> Option<Size>
    ensures { result ≡ side_of (option_copied value.entry) }
{
    let side = match value {
        None => USUAL_SIDE,
        Some(raw) => number(raw)?,
    };
    if 1 <= side && side <= i64::from(MAX_SIDE) {
        Size::new(side as u8)
    } else {
        None
    }
}
