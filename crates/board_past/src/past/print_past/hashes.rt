//! Hashes of colourings: 64 bits of the SHA-512 of a board's rows. They tell colourings apart that have one print and one stretch.
//!
//! A print is a sum, so whoever writes a record can make many colourings with one print that part from one another at as many places of
//! the board. Nobody can do that with this hash. It takes far longer to work out than a print. So it stands behind the print in a key,
//! and keys have it only once a descent by a key without it got long (`table`).
//!
//! Hashes of past colourings are kept, so that none is worked out twice. This takes memory only once keys have hashes. If memory is
//! refused, a hash isn't kept, and is worked out again.

ghost use Rattle.std.specs.Prelude.{◌≡◌, ◌≢◌, ℕ, ◌<◌, ◌≤◌, ◌^◌, ◌∷◌, ◌++◌, List, OnOk, length};
ghost use Rattle.std.specs.Int.{w64, from_be_bytes};
ghost use Rattle.sha2.specs.Hashers.{Holds512};
ghost use Rattle.board_stones.specs.Grid.{Grid};
ghost use Rattle.board_past.specs.Past.{Held};
ghost use Rattle.board_past.specs.inner.Changes.{IsNumber};
ghost use Rattle.board_past.specs.inner.Hash.{columns_bytes, hash_of, HasHashes};

use board_points::MAX_SIDE;
use board_stones::{Board, Colour};
use sha2::{Digest, Sha512};

/// The hash of the colouring with this number; 0 if it isn't kept. `kept` has for each of the oldest colourings its hash, or 0.
pub(crate) fn kept_hash(kept: &Vec<u64>, number: usize) -> u64
    ensures { (held : List Held) (grid : Grid) → HasHashes held kept.now.items → IsNumber held number grid → result ≢ 0 → result ≡ hash_of grid }
{
    if number < kept.len() { kept[number] } else { 0 }
}

/// Keeps the hash of the colouring with this number, if it isn't 0, and if memory isn't refused.
pub(crate) fn keep_hash(kept: &mut Vec<u64>, number: usize, hash: u64)
    requires { number < 2 ^ 32 }
    ensures { (held : List Held) → number < length held → HasHashes held kept.old.items
        → ((grid : Grid) → IsNumber held number grid → hash ≢ 0 → hash ≡ hash_of grid) → HasHashes held kept.new.items }
{
    if hash == 0 {
        return;
    }
    let len = kept.len();
    if number >= len {
        if kept.reserve(number + 1 - len).is_err() {
            return;
        }
        'each: for _ in len..number + 1 {
            kept.push_reserved(0);
        }
    }
    kept[number] = hash;
}

/// Forgets the hashes of all colourings but the oldest `count`.
pub(crate) fn forget_hashes(kept: &mut Vec<u64>, count: usize)
    ensures some { (newest : Held) (older : List Held) → HasHashes (newest ∷ older) kept.old.items → count ≡ length older
        → HasHashes older kept.new.items }
    ensures none { count ≡ 0 → (held : List Held) → HasHashes held kept.new.items }
{
    kept.truncate(count);
}

/// The hash of a board.
pub(crate) fn hash_of(board: &Board) -> u64
    ensures { result ≡ hash_of board.now }
{
    let side = board.size().side();
    let mut hasher = Sha512::new();
    for row in 0..side {
        add_columns(&mut hasher, side, board.columns_of(row, Colour::Black));
        add_columns(&mut hasher, side, board.columns_of(row, Colour::White));
    }
    let digest = hasher.finalize();
    u64::from_be_bytes([
        digest[0], digest[1], digest[2], digest[3], digest[4], digest[5], digest[6], digest[7],
    ])
}

/// Adds the columns of a row to the message, 8 to a byte. The row has `side` columns.
fn add_columns(hasher: &mut Sha512, side: u8, columns: u64)
    requires { side ≤ MAX_SIDE }
    ensures { (message : List ℕ) → Holds512 hasher.old message → Holds512 hasher.new (message ++ columns_bytes side columns) }
{
    let bytes = columns.to_le_bytes();
    let count = usize::from(side.div_ceil(8));
    hasher.update(&bytes[..count]);
}
