//! Sets of columns of a row: a word with a bit for each column. Columns are counted from 0 at the left, and the bit of column 0 is the
//! lowest. A word has 64 bits, so a column must be less than 64.

ghost use Rattle.std.specs.Prelude.{◌≡◌, ◌≢◌, ◌<◌, ◌≤◌, ◌||◌, ◌&&◌, false, not, nat_le, ℕ, IsTrue};
ghost use Rattle.board_points.specs.Rows.{has_bit, AreAllColumns};

/// Whether a word has the bit of a column.
pub fn has_column(word: u64, col: usize) -> bool
    requires { col < 64 }
    ensures { result ≡ has_bit word col }
{
    word >> col & 1 == 1
}

/// The word, with the bit of a column set if `set` is true.
#[tactic(auto, using(crate::proofs::ColumnLemmas::set_bit_there, crate::proofs::ColumnLemmas::set_bit_elsewhere))]
pub fn with_column(word: u64, col: usize, set: bool) -> u64
    requires { col < 64 }
    ensures there { has_bit result col ≡ (has_bit word col || set) }
    ensures elsewhere { (other : ℕ) → other ≢ col → has_bit result other ≡ has_bit word other }
{
    if set { word | 1 << col } else { word }
}

/// The word without the bit of a column.
pub fn without_column(word: u64, col: usize) -> u64
    requires { col < 64 }
    ensures there { has_bit result col ≡ false }
    ensures elsewhere { (other : ℕ) → other ≢ col → has_bit result other ≡ has_bit word other }
{
    word & !(1 << col)
}

/// All columns of a row that has `side` columns. There must be fewer than 64.
pub fn all_columns(side: usize) -> u64
    requires { side < 64 }
    ensures { AreAllColumns side result }
{
    (1 << side) - 1
}

/// The columns of `all` that aren't in `word`.
pub fn columns_left(all: u64, word: u64) -> u64
    ensures within { (col : ℕ) → col < 64 → has_bit result col ≡ (has_bit all col && not (has_bit word col)) }
    ensures off { (col : ℕ) → IsTrue (has_bit result col) → IsTrue (has_bit all col) }
{
    all & !word
}

/// The columns from one to another, both included. The first must not be after the last, and the last must be less than 63.
#[tactic(auto, using(std::proofs::lemmas::Nat::pow_below, crate::proofs::ColumnLemmas::column_word))]
pub fn columns_between(first: u8, last: u8) -> u64
    requires ordered { first ≤ last }
    requires few { last < 63 }
    ensures { (col : ℕ) → has_bit result col ≡ (nat_le first col && nat_le col last) }
{
    (1 << last + 1) - (1 << first)
}
