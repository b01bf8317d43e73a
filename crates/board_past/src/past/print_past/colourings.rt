//! Past colourings. The newest is kept whole. Of an older one, only what leads back to it from the colouring after it is kept: mostly the
//! point of a stone.

ghost use Rattle.std.specs.Prelude.{◌≡◌, ◌+◌, ◌-◌, ◌*◌, ◌^◌, ◌<◌, ◌≤◌, ◌↔◌, ◌∷◌, [], false, IsFalse, IsTrue, IfOk, IfSome, Contains, MatchOption, OnOk, OnErr, length, replicate, ◌==◌, reverse};
ghost use Rattle.std.specs.Vec.{vec_capacity};
ghost use Rattle.board_stones.specs.Clearing.{has_unreaching, play};
ghost use Rattle.board_past.specs.Past.{all_of, newest_grid, only, present_stretch, with_next, PastColourings};
ghost use Rattle.board_past.specs.inner.Changes.{is_full, is_settled, HasRoom, IsKnown, IsNumber, held_before, IsPast};
ghost use Rattle.board_past.specs.inner.Print.{prints_of};
ghost use Rattle.board_stones.specs.Move.{IsEmptyOnSettled, IsMove};
ghost use Rattle.board_past.specs.inner.Key.{start_of, since};

use crate::fault::MemoryFault;
use crate::past::print_past::changes::{
    Change, FULL, Known, MOST, Older, is_full, keep_played, keep_rows, step_back, take_back,
};
use crate::past::print_past::print::{has_point, print_of, print_without};
use board_points::rows::rows_in_use;
use board_points::{MAX_ROWS, Point};
use board_stones::{Board, Cell, Colour};
use std::alloc::Global;
use std::marker::Model;

/// The number of older colourings that a new past has room for.
const FIRST_OLDER: usize = 256;

/// The most colourings that a look back goes over. With 32 it decides nearly all that games ask.
const LOOK_BACK: usize = 32;

/// The most rows that a look back compares and takes back in all, so that no board makes it long: those of 32 boards of side 19.
const ROWS_IN_ALL: usize = 608;

/// The colourings of a past, numbered from 0 in the order in which they were added.
#[derive(Drop)]
pub(crate) struct Colourings {
    newest: Board,
    /// The number of the first colouring of the present stretch.
    stretch_start: usize,
    /// What is kept of the older colourings, oldest first. There is room up to the next full step, so that the steps before it needn't ask.
    older: Vec<Older>,
    /// Their changes, oldest first.
    changes: Vec<Change>,
}

impl Model for Colourings {
    ghost Value = { PastColourings };

    ghost view = { λ p. record {
      newest = record { colouring = p.newest; begins = p.stretch_start == length (reverse p.older.items) };
      older = held_before p.newest (reverse p.older.items) p.changes.items;
    } };

    ghost invariant = { λ p. IsPast p.newest p.stretch_start p.older.items p.changes.items
        × HasRoom (length p.older.items) (vec_capacity p.older) };
}

impl Colourings {
    /// This one colouring, which begins a stretch.
    pub(crate) fn new(alloc: Global, board: &Board) -> Result<Colourings, MemoryFault>
        ensures { IfOk result (λ past. past ≡ only board.now) }
    {
        Ok(Colourings {
            newest: board.copy(),
            stretch_start: 0,
            older: Vec::with_capacity(alloc, FIRST_OLDER)?,
            changes: Vec::with_capacity(alloc, FIRST_OLDER)?,
        })
    }

    /// The newest colouring.
    pub(crate) fn newest(&self) -> &Board
        ensures { result.now ≡ newest_grid self.now }
    {
        &self.newest
    }

    /// The number of colourings, one more than there are steps. The next colouring gets this number.
    pub(crate) fn len(&self) -> usize
        ensures { result ≡ length (all_of self.now) }
    {
        self.older.len() + 1
    }

    /// Whether the newest steps show that a stone brings no colouring of the present stretch back; `cleared` is what the stone clears.
    /// False says nothing. If the newest steps only put stones, no earlier colouring has a stone where the newest has none, so none has the
    /// stone that is played. No colouring before a fresh stone has that stone. At most `LOOK_BACK` steps are gone over.
    pub(crate) fn newest_steps_show_new(&self, point: Point, cleared: &[u64]) -> bool
        requires stone { (colour : Colour) × IsMove (newest_grid self.now) colour point cleared.now }
        ensures { (colour : Colour) → IsMove (newest_grid self.now) colour point cleared.now → IsTrue result
            → ¬ Contains (present_stretch self.now) (play (newest_grid self.now) colour point) }
    {
        self.newest.has_all_cells();
        if has_point(cleared, point) {
            return false;
        }
        let mut number = self.older.len();
        'each: for _ in 0..LOOK_BACK {
            if number == self.stretch_start {
                return true;
            }
            number -= 1;
            let step = self.older[number];
            if step.known.is_fresh() && !has_point(cleared, step.point) {
                return true;
            }
            if !step.alone {
                return false;
            }
        }
        false
    }

    /// The number of the first colouring of the present stretch, which the last setup of stones began, or the game. Only the colourings
    /// from it on count for positional superko.
    pub(crate) fn stretch_start(&self) -> usize
        ensures below { result < length (all_of self.now) }
        ensures start { result ≡ start_of (all_of self.now) }
    {
        self.stretch_start
    }

    /// The number of the first colouring of the stretch of the colouring with this number.
    pub(crate) fn start_at(&self, number: usize) -> usize
        requires { number < length (all_of self.now) }
        ensures { result ≡ start_of (since number (all_of self.now)) }
    {
        if number == self.older.len() {
            return self.stretch_start;
        }
        self.older[number].stretch_start as usize
    }

    /// Whether the colouring with this number is the same as the board's.
    pub(crate) fn is_at(&self, number: usize, board: &Board) -> bool
        requires { number < length (all_of self.now) }
        ensures { IsTrue result ↔ IsNumber (all_of self.now) number board.now }
    {
        board.same(&self.board_at(number))
    }

    /// Whether the colouring with this number is of the present stretch, one of the newest, and the same as the board's. False says
    /// nothing.
    // Apart from its caller: a whole board stands on its stack, and each look-up would set room for it to zeros.
    pub(crate) fn has_near(&self, number: usize, board: &Board) -> bool
        requires { number < length (all_of self.now) }
        ensures { IsTrue result → Contains (present_stretch self.now) board.now }
    {
        if number < self.stretch_start() || self.len() - number > LOOK_BACK {
            return false;
        }
        self.is_at(number, board)
    }

    /// The board of the colouring with this number. It is worked out in at most `FULL` steps. If a full step follows the colouring, they go
    /// back from the next one; if not, from the newest colouring.
    pub(crate) fn board_at(&self, number: usize) -> Board
        requires { number < length (all_of self.now) }
        ensures { IsNumber (all_of self.now) number result }
    {
        let mut board = self.newest.copy();
        board.has_all_cells();
        let mut at = self.older.len();
        let mut end = self.changes.len();
        // the colouring after the next full step, whose changes lead back from any board
        let from = number - number % FULL + FULL;
        if from < at {
            at = from - 1;
            end = self.older[from].start as usize;
            let start = self.older[at].start as usize;
            take_back(&mut board, &self.changes[start..end]);
            end = start;
        }
        'each: while number < at {
            at -= 1;
            let kept = self.older[at];
            step_back(&mut board, kept, &self.changes[kept.start as usize..end]);
            end = kept.start as usize;
        }
        board
    }

    /// Compares a board with the newest colourings of the present stretch, the newest first. Returns whether the stretch has it; None if
    /// these don't tell. If the board has a fresh stone, no colouring before that stone equals it. At most `LOOK_BACK` colourings are gone
    /// over, and fewer if the board is large or if a step kept many rows (`ROWS_IN_ALL`).
    pub(crate) fn look_back(&self, made: &Board) -> Option<bool>
        requires { made.now.side ≡ (newest_grid self.now).side }
        ensures { IfSome result (λ has. IsTrue has ↔ Contains (present_stretch self.now) made.now) }
    {
        let mut past = self.newest.copy();
        let mut at = self.older.len();
        let mut end = self.changes.len();
        let side = usize::from(past.size().side());
        let mut rows = ROWS_IN_ALL;
        'each: for _ in 0..LOOK_BACK {
            if past.same(made) {
                return Some(true);
            }
            if at == self.stretch_start {
                return Some(false);
            }
            at -= 1;
            let kept = self.older[at];
            if kept.known.is_fresh() && made.at(kept.point) != Cell::Empty {
                return Some(false);
            }
            step_back(&mut past, kept, &self.changes[kept.start as usize..end]);
            let cost = side + (end - kept.start as usize);
            rows = rows.checked_sub(cost)?;
            end = kept.start as usize;
        }
        None
    }

    /// Writes the prints of all colourings, oldest first. This works each colouring out once, from the one after it.
    pub(crate) fn write_prints(&self, prints: &mut [u64])
        requires { length prints.old ≡ length (all_of self.now) }
        ensures { reverse prints.new ≡ prints_of (all_of self.now) }
    {
        let mut past = self.newest.copy();
        let mut at = self.older.len();
        let mut end = self.changes.len();
        let mut print = print_of(&past);
        prints[at] = print;
        'each: while at > 0 {
            at -= 1;
            let kept = self.older[at];
            if kept.alone {
                print = print_without(print, &past, kept.point);
                past.set(kept.point, Cell::Empty);
            } else {
                take_back(&mut past, &self.changes[kept.start as usize..end]);
                print = print_of(&past);
            }
            end = kept.start as usize;
            prints[at] = print;
        }
    }

    /// Adds a colouring, which begins a stretch or continues the present one. After a refusal nothing is changed.
    pub(crate) fn add(&mut self, board: &Board, begins: bool) -> Result<(), MemoryFault>
        requires side { (newest_grid self.old).side ≡ board.now.side }
        requires few { length (all_of self.old) ≤ MOST }
        ensures ok { OnOk result (self.new ≡ with_next self.old board.now begins) }
        ensures err { OnErr result (self.new ≡ self.old) }
    {
        self.newest.has_all_cells();
        board.has_all_cells();
        make_room(&mut self.older, &mut self.changes)?;
        let known = if self.newest.is_settled() {
            Known::Settled
        } else {
            Known::Nothing
        };
        let kept = Older {
            start: self.changes.len() as u32,
            stretch_start: self.stretch_start as u32,
            point: Point { col: 0, row: 0 },
            alone: false,
            known,
        };
        let all = is_full(self.older.len());
        keep_rows(&self.newest, board, all, &mut self.changes);
        let next = self.older.len() + 1;
        let stretch_start = if begins { next } else { self.stretch_start };
        self.older.push_reserved(kept);
        self.newest = board.copy();
        self.stretch_start = stretch_start;
        Ok(())
    }

    /// What a stone on an empty point clears, by capture or else by suicide (`Board::find_cleared`); None if that is nothing. The rows
    /// are written to `words`, which must be 0. Those below the last stone that is cleared are left out.
    pub(crate) fn find_cleared<'a>(
        &mut self,
        colour: Colour,
        point: Point,
        words: &'a mut [u64; MAX_ROWS],
    ) -> Option<&'a [u64]>
        requires stone { IsEmptyOnSettled (newest_grid self.old) point }
        requires none { words.old ≡ replicate MAX_ROWS 0 }
        ensures stone { MatchOption result (IsMove (newest_grid self.old) colour point [])
            (λ cleared. IsMove (newest_grid self.old) colour point cleared.now) }
        ensures unchanged { self.new ≡ self.old }
    {
        let cleared = &mut words[..usize::from(self.newest.size().side())];
        if self.newest.find_cleared(colour, point, cleared) {
            Some(&cleared[..rows_in_use(cleared)])
        } else {
            None
        }
    }

    /// Adds the colouring that a stone makes, to the present stretch; `cleared` is what the stone clears, and `known` what is known of the
    /// colouring before. After a refusal nothing is changed.
    #[inline(always)]
    pub(crate) fn add_stone(
        &mut self,
        colour: Colour,
        point: Point,
        cleared: &[u64],
        known: Known,
    ) -> Result<(), MemoryFault>
        requires stone { IsMove (newest_grid self.old) colour point cleared.now }
        requires known { IsKnown self.old colour point known }
        requires few { length (all_of self.old) ≤ MOST }
        ensures ok { OnOk result (self.new ≡ with_next self.old (play (newest_grid self.old) colour point) false) }
        ensures err { OnErr result (self.new ≡ self.old) }
    {
        self.newest.has_all_cells();
        let full = is_full(self.older.len());
        if cleared.is_empty() && known.is_settled() && !full {
            self.add_lone_stone(colour, point, known);
            return Ok(());
        }
        make_room(&mut self.older, &mut self.changes)?;
        let kept = Older {
            start: self.changes.len() as u32,
            stretch_start: self.stretch_start as u32,
            point,
            alone: false,
            known,
        };
        keep_played(&self.newest, point, cleared, full, &mut self.changes);
        self.newest.place_and_clear(colour, point, cleared);
        self.older.push_reserved(kept);
        Ok(())
    }

    /// Adds the colouring that a stone makes that clears nothing, and keeps its point alone. The newest colouring must be settled, and the
    /// next step must not be a full one. `known` is as in `add_stone`. This takes no memory.
    #[inline(always)]
    pub(crate) fn add_lone_stone(&mut self, colour: Colour, point: Point, known: Known)
        requires stone { IsMove (newest_grid self.old) colour point [] }
        requires settled { IsTrue (is_settled known) }
        requires known { IsKnown self.old colour point known }
        requires few { length (all_of self.old) ≤ MOST }
        requires not_full { IsFalse (is_full (length self.old.older)) }
        ensures { self.new ≡ with_next self.old (play (newest_grid self.old) colour point) false }
    {
        self.newest.has_all_cells();
        let kept = Older {
            start: self.changes.len() as u32,
            stretch_start: self.stretch_start as u32,
            point,
            alone: true,
            known,
        };
        self.newest.place_and_clear(colour, point, &[]);
        self.older.push_reserved(kept);
    }

    /// Takes back the newest colouring.
    pub(crate) fn pop(&mut self)
        requires { 0 < length self.old.older }
        ensures { self.old.older ≡ self.new.newest ∷ self.new.older }
    {
        let kept = self.older.pop().unwrap();
        let start = kept.start as usize;
        step_back(&mut self.newest, kept, &self.changes[start..]);
        self.newest.set_settled(kept.known.is_settled());
        self.changes.truncate(start);
        self.stretch_start = kept.stretch_start as usize;
    }

    /// Takes the newest colouring back if only the point of a stone is kept of its step. Returns whether it did. Quicker than `pop`.
    #[inline(always)]
    pub(crate) fn pop_lone_stone(&mut self) -> bool
        requires { 0 < length self.old.older }
        ensures taken_back { IsTrue result → self.old.older ≡ self.new.newest ∷ self.new.older }
        ensures settled { IsTrue result → has_unreaching (newest_grid self.new) ≡ false }
        ensures not_full { IsTrue result → IsFalse (is_full (length self.new.older)) }
        ensures unchanged { IsFalse result → self.new ≡ self.old }
    {
        let kept = *self.older.last().unwrap();
        if !kept.alone {
            return false;
        }
        let _ = self.older.pop();
        self.newest.set(kept.point, Cell::Empty);
        self.newest.set_settled(true);
        true
    }

    /// Forgets all colourings, and then holds this one alone, which begins a stretch.
    pub(crate) fn reset(&mut self, board: &Board)
        ensures { self.new ≡ only board.now }
    {
        self.newest = board.copy();
        self.stretch_start = 0;
        self.older.clear();
        self.changes.clear();
    }
}

/// Makes room for the older colourings up to the next full step, if this step is one, and for all rows of a colouring. There are at most
/// `MOST` changes.
fn make_room(older: &mut Vec<Older>, changes: &mut Vec<Change>) -> Result<(), MemoryFault>
    requires { HasRoom (length older.old.items) (vec_capacity older.old) }
    ensures items { older.new.items ≡ older.old.items }
    ensures kept { HasRoom (length older.new.items) (vec_capacity older.new) }
    ensures next { OnOk result (HasRoom (length older.new.items + 1) (vec_capacity older.new)) }
    ensures ok { OnOk result (length older.new.items < vec_capacity older.new) }
    ensures changes { changes.new.items ≡ changes.old.items }
    ensures rows { OnOk result (length changes.new.items + MAX_ROWS ≤ vec_capacity changes.new) }
    ensures few_rows { OnOk result (length changes.new.items + MAX_ROWS ≤ MOST) }
{
    if is_full(older.len()) {
        older.reserve(FULL)?;
    }
    if are_most(changes.len() + MAX_ROWS) {
        return Err(MemoryFault);
    }
    Ok(changes.reserve(MAX_ROWS)?)
}

/// Whether so many changes are the most that are kept.
fn are_most(count: usize) -> bool
    ensures { IsTrue result ↔ 2 ^ 32 - 1 ≤ count }
{
    count >= MOST
}
