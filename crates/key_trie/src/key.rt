//! What a trie looks items up by: a string of bits.

ghost use Rattle.std.specs.Prelude.{◌≡◌, ◌≢◌, ℕ, ◌+◌, ◌*◌, ◌<◌, ◌≤◌, ◌==◌, Bool, MatchOption};
ghost use Rattle.std.specs.Int.{bit_at};
ghost use Rattle.key_trie.specs.Key.{Agree};

/// The most bits that a key may have.
pub const MAX_WIDTH: u32 = 65_535;

/// The bits of a word.
const WORD: u32 = 64;

/// A key: a string of bits. Their positions are numbered from 0.
pub trait Key {
    /// The bit at each position, as contracts see it. Behind the key's end it may be any.
    ghost bits: { Self → ℕ → Bool };

    /// The bit at a position.
    fn bit(&self, position: u32) -> bool
        ensures { result ≡ bits self.now position };

    /// A word of 64 bits. Word 0 has the bits at the positions 0 to 63, and its lowest bit is that at position 0.
    fn word(&self, index: u32) -> u64
        ensures { (col : ℕ) → col < 64 → (bit_at result col == 1) ≡ bits self.now (64 * index + col) };
}

/// The first position where two keys differ, before the end of the word number `count`; None if they are the same so far. It takes at most
/// `count` words of each.
pub fn first_difference<K: Key>(one: &K, other: &K, count: u32) -> Option<u32>
    requires { 64 * count ≤ MAX_WIDTH }
    ensures { MatchOption result (Agree (K.bits one.now) (K.bits other.now) (64 * count))
        (λ position. (position < 64 * count) × Agree (K.bits one.now) (K.bits other.now) position × (K.bits one.now position ≢ K.bits other.now position)) }
{
    'words: for index in 0..count {
        let apart = one.word(index) ^ other.word(index);
        if apart != 0 {
            return Some(WORD * index + apart.trailing_zeros());
        }
    }
    None
}
