//! What a colouring is looked up by in a trie, as a string of bits: first its print, then the number of the first colouring of its stretch,
//! then its hash, if keys have hashes, then what stands on each row. So colourings with another print, and those of other stretches, part
//! from it at the first bits. With hashes, those with its print and its stretch part from it at bits that nobody can choose.

ghost use Rattle.std.specs.Prelude.{◌≡◌};
ghost use Rattle.board_past.specs.inner.Key.{key_bits, bits_of};

use board_points::MAX_ROWS;
use board_points::columns::has_column;
use board_stones::{Board, Colour};
use key_trie::Key;

/// The bits of a word.
pub(crate) const WORD: u32 = 64;

/// The bits that are known without the board: the print, and the start of the stretch.
pub(crate) const FRONT: u32 = 2 * WORD;

/// The bits before those of the board: the front, and the hash.
pub(crate) const HEAD: u32 = FRONT + WORD;

/// All bits of a key: behind the head, a row of the largest board has a word for Black and one for White.
pub(crate) const WIDTH: u32 = HEAD + 2 * WORD * MAX_ROWS as u32;

/// The key of a colouring.
#[derive(Drop)]
pub(crate) struct ColouringKey<'a> {
    /// The number of the first colouring of its stretch.
    start: u64,
    print: u64,
    hash: u64,
    board: &'a Board,
}

impl<'a> ColouringKey<'a> {
    /// The key of a colouring, from the number of the first colouring of its stretch, its print, its hash and its board.
    pub(crate) fn new(start: usize, print: u64, hash: u64, board: &'a Board) -> ColouringKey<'a>
        ensures { bits_of result ≡ key_bits start print hash board.now }
    {
        ColouringKey {
            start: start as u64,
            print,
            hash,
            board,
        }
    }

    /// The bit at a position.
    #[inline(never)]
    fn later_bit(&self, position: u32) -> bool
        ensures { result ≡ bits_of self.now position }
    {
        has_column(self.word(position / WORD), (position % WORD) as usize)
    }
}

impl<'a> Key for ColouringKey<'a> {
    ghost bits = { bits_of };

    #[inline(always)]
    fn bit(&self, position: u32) -> bool {
        // nearly all nodes of a trie stand at bits of the print
        if position < WORD {
            return has_column(self.print, position as usize);
        }
        self.later_bit(position)
    }

    fn word(&self, index: u32) -> u64 {
        match index {
            0 => return self.print,
            1 => return self.start,
            2 => return self.hash,
            _ => {}
        }
        let row = (index - 3) / 2;
        if row >= u32::from(self.board.size().side()) {
            return 0;
        }
        let colour = if index % 2 == 1 {
            Colour::Black
        } else {
            Colour::White
        };
        self.board.columns_of(row as u8, colour)
    }
}
