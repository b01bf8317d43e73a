//! The table by which colourings are looked up.
//!
//! Once `link` has put all colourings into a trie of keys (see `key`, and the crate `key_trie`), a look-up descends this trie by the bits
//! of the colouring that is looked up. It ends at one past colouring, and compares with that one alone: first by the print (`gap`). If that
//! colouring has the print and is one of the newest, the boards are compared, which answers a ko at once (`Colourings::has_near`). If this
//! doesn't tell, another descent goes on by the start of the stretch and the rows, and the two keys are compared to their ends
//! (`gap_by_key`). So a look-up costs at most four descents, and two past colourings worked out, whatever was played before. It also tells
//! where the new colouring comes in. To put a colouring into the trie that wasn't looked up costs at most two colourings worked out, its
//! own and that at the end of its descent, and this only if they have the same print and the same stretch. To take one out is one step.
//!
//! A descent passes a node at each position of the key where past colourings part from the one that is looked up. It passes at most 64 in
//! the print, and 26 in the start of the stretch: that is below 2^26, since no input has more bytes. On the board it passes hardly any,
//! unless someone makes very many colourings of one print and one stretch, each of which parts from the others at another point. Once a
//! descent passes more than `MOST_PASSED` nodes, keys have hashes, for the rest of the game: all colourings are put into the trie anew, and
//! those of one print and one stretch part in the hash, which nobody can choose. To have them part at one bit more, one has to try twice as
//! many boards. So a descent passes some 50 nodes there at most, after 2^50 boards tried, and goes on into the rows only if two hashes are
//! equal. No proof rests on that. So no descent gets longer with more colourings, or with more of them that have one print.
//!
//! With hashes, a look-up that goes on by the rows works out two hashes more at most: that of its own colouring, and that of the past one,
//! if it isn't kept (`hashes`). For this hash the past colouring is worked out once more. To put a colouring in costs as much for each of
//! the two.
//!
//! In most games the newest colourings answer all that is asked (`Colourings::look_back`). So the table sleeps at first: it has no prints,
//! and a stone that is played at once costs nothing here. `wake` works the prints out, once a game, one for each colouring. A setup
//! after other steps wakes it, too. From then on the table has those of all colourings.

ghost use Rattle.std.specs.Prelude.{◌≡◌, ◌+◌, ◌*◌, ◌^◌, ◌<◌, ◌≤◌, [], ◌∷◌, List, ℕ, length, false, IsTrue, IsFalse, IfNone, IfSome, IfOk, IfErr, OnOk, Contains};
ghost use Rattle.board_stones.specs.Grid.{Grid};
ghost use Rattle.board_past.specs.Past.{Held, all_of, present_stretch, with_next, HaveSide};
ghost use Rattle.board_past.specs.inner.Changes.{IsNumber};
ghost use Rattle.board_past.specs.inner.Key.{bits_of, hash_in_key, keys_of};
ghost use Rattle.board_past.specs.inner.Print.{print_of};
ghost use Rattle.board_past.specs.inner.Table.{GrowsTable, HasRoomForNext, HasUnlinked, IsAsleepTable, IsAwakeTable, IsGap, IsFirstApart, IsPrintOfNext, IsTable, LinksNext};
ghost use Rattle.key_trie.specs.Key.{Agree};
ghost use Rattle.key_trie.specs.Trie.{item_count, nodes_of, capacity_of};
ghost use Rattle.std.specs.Vec.{vec_capacity};

use crate::fault::MemoryFault;
use crate::past::print_past::colourings::Colourings;
use crate::past::print_past::hashes::{forget_hashes, hash_of, keep_hash, kept_hash};
use crate::past::print_past::key::{ColouringKey, FRONT, HEAD, WIDTH, WORD};
use board_points::columns::has_column;
use board_stones::Board;
use key_trie::{Key, Slot, Trie, first_difference};
use std::alloc::Global;

/// The number of colourings that a new table has room for.
const FIRST_ROOM: usize = 256;

/// The most nodes that a descent passes before keys get hashes: 64 in the print, 26 in the start of the stretch, and some on the board.
/// Only a game that was made for it comes near.
const MOST_PASSED: u32 = 128;

/// The prints of colourings, oldest first, and a trie of their keys. Most colourings are never looked up, and no look-up comes before
/// they are taken back. So a colouring is put into the trie only when a look-up comes. There is always room for all of them, so this
/// takes no memory.
#[derive(Drop)]
pub(crate) struct Table {
    /// The prints of all colourings; none while the table sleeps.
    prints: Vec<u64>,
    /// The trie of the oldest colourings. The newest ones may not be in it yet.
    trie: Trie,
    /// Whether keys have hashes.
    hashed: bool,
    /// For each of the oldest colourings its hash; 0 if that isn't kept.
    hashes: Vec<u64>,
    /// While the table sleeps, how many colourings it has room for; 0 once it is awake.
    pub room_asleep: usize,
}

/// Where a colouring comes into the trie.
#[derive(Clone, Copy)]
pub(crate) struct Gap {
    slot: Slot,
    /// The position of the bit where it parts from the others.
    position: u32,
    /// That bit.
    bit: bool,
    /// The colouring's hash; 0 if it wasn't worked out.
    hash: u64,
}

impl Table {
    /// The table of one colouring. It sleeps.
    pub(crate) fn new(alloc: Global) -> Result<Table, MemoryFault>
        ensures { IfOk result (λ table. (first : Held) → IsTable (first ∷ []) table) }
    {
        let prints = Vec::with_capacity(alloc, FIRST_ROOM)?;
        let trie = Trie::new(alloc)?;
        Ok(Table {
            room_asleep: room_of_both(&prints, &trie),
            prints,
            trie,
            hashed: false,
            hashes: Vec::new(alloc),
        })
    }

    /// Whether the table has the prints of all colourings. If not, it has none.
    pub(crate) fn is_awake(&self) -> bool
        ensures awake { (one : Held) (older : List Held) → IsTable (one ∷ older) self.now → IsTrue result → IsAwakeTable (one ∷ older) self.now }
        ensures asleep { (held : List Held) → IsTable held self.now → IsFalse result → IsAsleepTable held self.now }
        ensures room { IsTrue result → self.now.room_asleep ≡ 0 }
    {
        self.room_asleep == 0
    }

    /// The newest print. The table must be awake.
    pub(crate) fn newest(&self) -> u64
        requires { 0 < length self.now.prints.items }
        ensures { (newest : Held) (older : List Held) → IsAwakeTable (newest ∷ older) self.now → result ≡ print_of newest.colouring }
    {
        self.prints[self.prints.len() - 1]
    }

    /// Works out the prints of all colourings, if the table sleeps. This takes no memory, since there is room for them.
    pub(crate) fn wake(&mut self, past: &Colourings)
        requires { IsTable (all_of past.now) self.old }
        ensures { IsAwakeTable (all_of past.now) self.new }
    {
        if !self.prints.is_empty() {
            return;
        }
        'each: for _ in 0..past.len() {
            self.prints.push_reserved(0);
        }
        past.write_prints(&mut self.prints);
        self.room_asleep = 0;
    }

    /// Makes room for one more colouring than these; `count` is how many there are.
    #[inline(always)]
    pub(crate) fn reserve(&mut self, count: usize) -> Result<(), MemoryFault>
        requires { (held : List Held) × IsTable held self.old × (count ≡ length held) }
        ensures asleep { (held : List Held) → IsAsleepTable held self.old → IsAsleepTable held self.new }
        ensures awake { (held : List Held) → IsAwakeTable held self.old → IsAwakeTable held self.new }
        ensures trie { nodes_of self.new.trie ≡ nodes_of self.old.trie }
        ensures hashed { self.new.hashed ≡ self.old.hashed }
        ensures room { self.old.room_asleep ≤ self.new.room_asleep }
        ensures ok { (held : List Held) → count ≡ length held → OnOk result (HasRoomForNext held self.new) }
    {
        if count < self.room_asleep {
            return Ok(());
        }
        self.grow(count)?;
        if !self.is_awake() {
            self.room_asleep = room_of_both(&self.prints, &self.trie);
        }
        Ok(())
    }

    /// Makes room in the trie and for prints, for one more colouring than these.
    #[inline(never)]
    fn grow(&mut self, count: usize) -> Result<(), MemoryFault>
        requires most { capacity_of self.old.trie < 2 ^ 32 }
        requires prints { length self.old.prints.items ≤ count }
        requires room { count ≤ capacity_of self.old.trie }
        ensures grows { GrowsTable self.old self.new }
        ensures trie { OnOk result (count < capacity_of self.new.trie) }
        ensures prints { OnOk result (count < vec_capacity self.new.prints) }
    {
        if count >= self.trie.capacity() {
            self.trie.make_room()?;
        }
        if count >= self.prints.capacity() {
            self.prints.reserve(count + 1 - self.prints.len())?;
        }
        Ok(())
    }

    /// Adds a colouring, for which there must be room. `print` is its print, None if the table sleeps. With a gap, it goes into the trie.
    #[inline(always)]
    pub(crate) fn push(&mut self, print: Option<u64>, gap: Option<Gap>)
        requires table { (held : List Held) × (next : Held) × IsPrintOfNext held self.old next print
            × IfSome gap (IsGap held self.old next) × HasRoomForNext held self.old }
        ensures table { (held : List Held) (next : Held) → IsPrintOfNext held self.old next print → IfSome gap (IsGap held self.old next)
            → HasRoomForNext held self.old → IsTable (next ∷ held) self.new }
        ensures room { self.new.room_asleep ≡ self.old.room_asleep }
    {
        let Some(print) = print else {
            return;
        };
        self.prints.push_reserved(print);
        let Some(gap) = gap else {
            return;
        };
        self.trie.insert(gap.slot, gap.position, gap.bit);
        keep_hash(&mut self.hashes, self.prints.len() - 1, gap.hash);
    }

    /// Takes back the newest colouring.
    pub(crate) fn pop(&mut self)
        requires { (newest : Held) × (older : List Held) × IsTable (newest ∷ older) self.old }
        ensures { (newest : Held) (older : List Held) → IsTable (newest ∷ older) self.old → IsTable older self.new }
    {
        if self.prints.is_empty() {
            return;
        }
        let _ = self.prints.pop();
        forget_hashes(&mut self.hashes, self.prints.len());
        if self.trie.len() > self.prints.len() {
            self.trie.take_back();
        }
    }

    /// Replaces all colourings by one. The table sleeps then.
    pub(crate) fn reset(&mut self)
        requires { (held : List Held) × IsTable held self.old × (0 < length held) }
        ensures { (first : Held) → IsTable (first ∷ []) self.new }
    {
        self.trie.clear();
        self.prints.clear();
        self.hashed = false;
        forget_hashes(&mut self.hashes, 0);
        self.room_asleep = room_of_both(&self.prints, &self.trie);
    }

    /// Where a colouring with this print comes in; the number of one that has it, if any has. Puts all colourings into the trie first.
    pub(crate) fn gap(&mut self, past: &Colourings, print: u64) -> Result<Gap, usize>
        requires { IsAwakeTable (all_of past.now) self.old }
        ensures table { IsAwakeTable (all_of past.now) self.new }
        ensures all { item_count self.new.trie ≡ length self.new.prints.items }
        ensures gap { IfOk result (λ gap. (next : Held) → print_of next.colouring ≡ print → IsGap (all_of past.now) self.new next gap) }
        ensures near { IfErr result (λ near. near < length (all_of past.now)) }
    {
        self.link(past);
        let key = ColouringKey::new(0, print, 0, past.newest());
        let from = self.trie.descend(&key, WORD);
        let near = self.trie.child(from) as usize;
        let apart = print ^ self.prints[near];
        if apart == 0 {
            return Err(near);
        }
        let position = apart.trailing_zeros();
        Ok(Gap {
            slot: self.trie.opening(&key, from, position),
            position,
            bit: key.bit(position),
            hash: 0,
        })
    }

    /// Where a colouring comes in that goes on with the present stretch, by all bits of its key; None if the stretch has it. `print` is its
    /// print. The trie must have all colourings. A run asks this last, if nothing before decides positional superko.
    pub(crate) fn gap_by_key(&mut self, past: &Colourings, board: &Board, print: u64) -> Option<Gap>
        requires table { IsAwakeTable (all_of past.now) self.old }
        requires all { item_count self.old.trie ≡ length self.old.prints.items }
        requires side { HaveSide board.now.side past.now }
        requires print { print ≡ print_of board.now }
        ensures table { IsAwakeTable (all_of past.now) self.new }
        ensures gap { IfSome result (IsGap (all_of past.now) self.new (with_next past.now board.now false).newest) }
        ensures has { IfNone result (Contains (present_stretch past.now) board.now) }
    {
        let start = past.stretch_start();
        if self.hash_if_deep(&ColouringKey::new(start, print, 0, board)) {
            self.link(past);
        }
        board.has_all_cells();
        let hash = if self.hashed { hash_of(board) } else { 0 };
        let key = ColouringKey::new(start, print, hash, board);
        let from = self.trie.descend(&key, WIDTH);
        let near = self.trie.child(from) as usize;
        match self.first_apart(past, &key, near) {
            Some(position) => Some(Gap {
                slot: self.trie.opening(&key, from, position),
                position,
                bit: key.bit(position),
                hash,
            }),
            None => None,
        }
    }

    /// The first position where a key differs from that of the colouring `near`. Rows are compared only if the heads don't differ.
    fn first_apart(&mut self, past: &Colourings, key: &ColouringKey<'_>, near: usize) -> Option<u32>
        requires table { IsAwakeTable (all_of past.now) self.old }
        requires number { near < length (all_of past.now) }
        ensures table { IsAwakeTable (all_of past.now) self.new }
        ensures rest { self.new ≡ record self.old { hashes = self.new.hashes } }
        ensures apart { IsFirstApart (bits_of key.now) (keys_of self.old.hashed (all_of past.now) near) result }
        ensures cells { IfNone result ((grid : Grid) × IsNumber (all_of past.now) near grid × (length grid.cells ≡ grid.side * grid.side)) }
    {
        let hash = self.take_hash(past, near);
        let head = self.key_of(past, near, hash, past.newest());
        let position = first_difference(key, &head, HEAD / WORD);
        if position.is_some() {
            return position;
        }
        let board = past.board_at(near);
        board.has_all_cells();
        let whole = self.key_of(past, near, hash, &board);
        first_difference(key, &whole, WIDTH / WORD)
    }

    /// What stands for its hash in the key of the colouring with this number. A hash that is worked out is kept.
    fn take_hash(&mut self, past: &Colourings, number: usize) -> u64
        requires table { IsAwakeTable (all_of past.now) self.old }
        requires number { number < length (all_of past.now) }
        ensures table { IsAwakeTable (all_of past.now) self.new }
        ensures rest { self.new ≡ record self.old { hashes = self.new.hashes } }
        ensures hash { (grid : Grid) → IsNumber (all_of past.now) number grid → result ≡ hash_in_key self.old.hashed grid }
    {
        if !self.hashed {
            return 0;
        }
        let known = kept_hash(&self.hashes, number);
        if known != 0 {
            return known;
        }
        let hash = hash_of(&past.board_at(number));
        keep_hash(&mut self.hashes, number, hash);
        hash
    }

    /// Gives keys hashes and empties the trie, if keys have none and a descent by this key passes too many nodes. Returns whether it did.
    fn hash_if_deep(&mut self, key: &ColouringKey<'_>) -> bool
        requires table { (held : List Held) × IsAwakeTable held self.old }
        requires some { 0 < item_count self.old.trie }
        ensures table { (held : List Held) → IsAwakeTable held self.old → IsAwakeTable held self.new }
        ensures prints { self.new.prints.items ≡ self.old.prints.items }
        ensures hashed { IsTrue result → IsFalse self.old.hashed × IsTrue self.new.hashed }
        ensures unchanged { IsFalse result → self.new ≡ self.old }
    {
        if self.hashed || !self.trie.passes(key, WIDTH, MOST_PASSED) {
            return false;
        }
        self.trie.clear();
        self.hashed = true;
        true
    }

    /// The front of the key of the colouring with this number, and for its rest a hash and the bits of a board.
    fn key_of<'a>(
        &self,
        past: &Colourings,
        number: usize,
        hash: u64,
        board: &'a Board,
    ) -> ColouringKey<'a>
        requires table { IsAwakeTable (all_of past.now) self.now }
        requires number { number < length (all_of past.now) }
        ensures front { Agree (bits_of result) (keys_of self.now.hashed (all_of past.now) number) FRONT }
        ensures head { ((grid : Grid) → IsNumber (all_of past.now) number grid → hash ≡ hash_in_key self.now.hashed grid)
            → Agree (bits_of result) (keys_of self.now.hashed (all_of past.now) number) HEAD }
        ensures whole { IsNumber (all_of past.now) number board.now → hash ≡ hash_in_key self.now.hashed board.now
            → bits_of result ≡ keys_of self.now.hashed (all_of past.now) number }
    {
        ColouringKey::new(past.start_at(number), self.prints[number], hash, board)
    }

    /// Puts all colourings into the trie.
    #[inline(never)]
    pub(crate) fn link(&mut self, past: &Colourings)
        requires { IsAwakeTable (all_of past.now) self.old }
        ensures table { IsAwakeTable (all_of past.now) self.new }
        ensures all { item_count self.new.trie ≡ length self.new.prints.items }
    {
        'each: while self.trie.len() < self.prints.len() {
            self.link_next(past);
        }
    }

    /// Puts the oldest colouring that isn't there yet into the trie, or takes all out and lets keys have hashes.
    fn link_next(&mut self, past: &Colourings)
        requires unlinked { HasUnlinked (all_of past.now) self.old }
        ensures { LinksNext (all_of past.now) self.old self.new }
    {
        let number = self.trie.len();
        if number == 0 {
            self.trie.insert_first();
            return;
        }
        let key = self.key_of(past, number, 0, past.newest());
        let from = self.trie.descend(&key, FRONT);
        let near = self.trie.child(from) as usize;
        let other = self.key_of(past, near, 0, past.newest());
        match first_difference(&key, &other, FRONT / WORD) {
            Some(position) => self.trie.insert_parted(&key, from, position),
            None => self.link_by_key(past),
        }
    }

    /// The same, by all bits of the keys.
    fn link_by_key(&mut self, past: &Colourings)
        requires unlinked { HasUnlinked (all_of past.now) self.old }
        requires some { 0 < item_count self.old.trie }
        ensures { LinksNext (all_of past.now) self.old self.new }
    {
        let next = self.trie.len();
        let board = past.board_at(next);
        let hash = self.take_hash(past, next);
        let key = self.key_of(past, next, hash, &board);
        if self.hash_if_deep(&key) {
            return;
        }
        let from = self.trie.descend(&key, WIDTH);
        let near = self.trie.child(from) as usize;
        match self.first_apart(past, &key, near) {
            Some(position) => self.trie.insert_parted(&key, from, position),
            None => self.trie.insert_equal(),
        }
    }
}

/// How many colourings have room in both: the least of the two rooms.
fn room_of_both(prints: &Vec<u64>, trie: &Trie) -> usize
    ensures prints { result ≤ vec_capacity prints.now }
    ensures trie { result ≤ capacity_of trie.now }
    ensures least { (count : ℕ) → count ≤ vec_capacity prints.now → count ≤ capacity_of trie.now → count ≤ result }
{
    trie.capacity().min(prints.capacity())
}
