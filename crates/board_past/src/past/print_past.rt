//! The past of a run, and how it finds a stone that repeats a colouring (positional superko).
//!
//! A colouring can come back only by a stone on a point that was emptied before, or by suicide. So most stones are played without a look-up
//! (`may_repeat`). For any other one, the newest steps are gone over (`decide_by_newest`). Nearly always they tell. If they only put
//! stones, no earlier colouring has the stone that is played. No colouring before a fresh stone has that stone. If the steps don't tell,
//! the newest colourings are compared one by one, as long as no look-up was needed before in the game. Then a table of prints and a trie of
//! keys decide, for all colourings at once (`play_by_print`). On a board with a stone that isn't alive, which only a setup makes, one
//! colouring is compared (`play_on_copy`). `ListPast` is the plainest past.
//!
//! | Module | What it has |
//! |---|---|
//! | `colourings`, `changes` | past colourings as what leads back to them, a point or rows; the look back over the newest ones |
//! | `emptied` | the points that were emptied, where a colouring can come back |
//! | `print`, `powers` | the print of a colouring, a number in base 31; the powers that it is made from |
//! | `table` | how a past colouring is looked up if the newest ones don't tell, and what that costs |
//! | `key`, `hashes` | a colouring as a key, which is a string of bits; hashes that are part of keys. The crate `key_trie` has the trie of keys |

mod changes;
mod colourings;
mod emptied;
mod hashes;
mod key;
mod powers;
mod print;
mod table;

ghost use Rattle.std.specs.Prelude.{◌≡◌, ◌≢◌, ℕ, ◌<◌, ◌↔◌, ◌∷◌, List, false, IsTrue, IfSome, IfNone, OnOk, OnErr, Contains, length, IsFalse};
ghost use Rattle.board_stones.specs.declared.stones.Cell.TheVariants.{Empty};
ghost use Rattle.board_points.specs.declared.points.Point.{Point};
ghost use Rattle.board_stones.specs.declared.stones.Colour.{Colour};
ghost use Rattle.board_points.specs.Point.{IsOn};
ghost use Rattle.board_stones.specs.Grid.{cell_at};
ghost use Rattle.board_stones.specs.Clearing.{has_unreaching, play};
ghost use Rattle.board_past.specs.Past.{all_of, newest_grid, with_next, present_stretch, HaveSide, PastColourings, IsPlayed};
ghost use Rattle.board_past.specs.inner.Changes.{IsFreshStone, IsKnown};
ghost use Rattle.board_past.specs.inner.Emptied.{ArePlayedAtOnce, IsPrintPast};
ghost use Rattle.board_stones.specs.Move.{IsMove, IsEmptyOnSettled, Clears};
ghost use Rattle.board_past.specs.inner.Print.{print_of, IsPrintedMove};
ghost use Rattle.board_points.specs.Rows.{is_set};
ghost use Rattle.board_past.specs.inner.Table.{IsAwakeTable, IsGap, IsPrintOfNext};

use crate::fault::MemoryFault;
use crate::past::Past;
use crate::past::print_past::changes::{FULL, Known};
use crate::past::print_past::colourings::Colourings;
use crate::past::print_past::emptied::Emptied;
use crate::past::print_past::print::{has_point, print_after_clearing, print_of};
use crate::past::print_past::table::{Gap, Table};
use board_points::rows::{add_points, no_rows};
use board_points::{MAX_ROWS, Point};
use board_stones::{Board, Colour, SetupOp};
use std::alloc::Global;
use std::marker::Model;

/// Whether a stone was played: not if it would repeat a colouring. `MemoryFault` comes only if memory was refused; nothing is changed then.
type Played = Result<bool, MemoryFault>;

/// A past that keeps the newest colouring whole. Of each older one it keeps what leads back to it. A colouring is looked up only in the
/// present stretch, and only if a stone may repeat one. At first it is looked for among the newest colourings. Once these haven't told in a
/// game, or stones were set up after other steps, it is looked up by its print, a 64-bit number made from what stands on all its points. If
/// two prints are equal, all points are compared, or hashes, if very many colourings have that print. A colouring that only adds one stone
/// to the one before it takes 12 bytes. Room for its print and for a node of the trie, 24 bytes, is kept beside.
#[derive(Drop)]
pub struct PrintPast {
    colourings: Colourings,
    /// The table by which colourings are looked up.
    table: Table,
    /// The points that were emptied. A stone that stays can bring a colouring back only on one of these.
    emptied: Emptied,
    /// A stone is played at once only if there are fewer steps than this. Then the newest colouring is settled, the table sleeps and has
    /// room, and the next step isn't a full one: one comparison tells it all. It is 0 if the newest isn't settled, or the table is awake.
    at_once_below: usize,
}

impl Model for PrintPast {
    ghost Value = { PastColourings };

    ghost view = { λ p. p.colourings };

    ghost invariant = { λ p. IsPrintPast p.colourings p.table p.emptied p.at_once_below };
}

impl Past for PrintPast {
    ghost held = { λ past. past };

    fn new(alloc: Global, board: &Board) -> Result<PrintPast, MemoryFault> {
        let colourings = Colourings::new(alloc, board)?;
        let table = Table::new(alloc)?;
        Ok(PrintPast {
            at_once_below: at_once_below(&colourings, &table),
            colourings,
            table,
            emptied: Emptied::new(alloc),
        })
    }

    /// Compares all colourings of the stretch, one by one. A run asks this of a stretch of one colouring alone.
    fn holds(&self, board: &Board) -> bool {
        let start = self.colourings.stretch_start();
        'each: for number in (start..self.colourings.len()).rev() {
            if self.colourings.is_at(number, board) {
                return true;
            }
        }
        false
    }

    fn newest(&self) -> &Board {
        self.colourings.newest()
    }

    fn push(&mut self, board: &Board) -> Result<(), MemoryFault> {
        self.add(board, false)
    }

    /// First wakes the table and puts the colourings of the present stretch into the trie, if there are several. After the setup this would
    /// cost more: to work out a colouring, one goes back over later ones, and a setup may have changed all rows.
    fn restart(&mut self, board: &Board) -> Result<(), MemoryFault> {
        if self.colourings.stretch_start() + 1 < self.colourings.len() {
            self.at_once_below = 0;
            self.table.wake(&self.colourings);
            self.table.link(&self.colourings);
        }
        self.add(board, true)
    }

    /// Finds captures and suicide near the stone (`find_cleared`), unless a glance shows that there are none. It glances only if
    /// `play_at_once` would have stopped before its glance. The plain ways are `Past::play` and `Board::place`; `play_on_copy` takes the
    /// second.
    fn play(&mut self, colour: Colour, point: Point) -> Result<bool, MemoryFault> {
        let newest = self.colourings.newest();
        if !newest.is_settled() {
            return self.play_on_copy(colour, point);
        }
        let unseen = self.colourings.len() > self.at_once_below || self.may_repeat(point);
        if unseen && newest.clears_nothing_at_a_glance(colour, point) {
            return self.play_clearing(colour, point, &[]);
        }
        self.play_in_doubt(colour, point)
    }

    /// Plays most stones. A table that is awake needs prints, so it answers false then.
    #[inline(always)]
    fn play_at_once(&mut self, colour: Colour, point: Point) -> bool {
        if self.colourings.len() > self.at_once_below || self.may_repeat(point) {
            return false;
        }
        let newest = self.colourings.newest();
        if !newest.clears_nothing_at_a_glance(colour, point) {
            return false;
        }
        self.colourings.add_lone_stone(colour, point, Known::Fresh);
        true
    }

    /// As `Past::set_up`; then works out whether the board is settled.
    fn set_up(&mut self, ops: &[SetupOp]) -> Result<(), MemoryFault> {
        let mut made = self.newest().copy();
        made.colour_rectangles(ops);
        made.work_settled_out();
        self.restart(&made)
    }

    /// Most steps put a stone, and no more.
    fn pop(&mut self) {
        if self.at_once_below == 0 {
            return self.pop_in_full();
        }
        if !self.colourings.pop_lone_stone() {
            return self.pop_in_full();
        }
        // so the table sleeps, and has nothing of the colouring
        self.emptied.go_back(self.colourings.len() as u32);
    }

    fn reset(&mut self, _alloc: Global, board: &Board) -> Result<(), MemoryFault> {
        self.colourings.reset(board);
        self.table.reset();
        self.emptied.clear();
        self.at_once_below = at_once_below(&self.colourings, &self.table);
        Ok(())
    }
}

impl PrintPast {
    /// Adds a colouring, which begins a stretch or continues the present one.
    fn add(&mut self, board: &Board, begins: bool) -> Result<(), MemoryFault>
        requires { HaveSide board.now.side self.old }
        ensures ok { OnOk result (self.new ≡ with_next self.old board.now begins) }
        ensures err { OnErr result (self.new ≡ self.old) }
    {
        let print = if self.table.is_awake() {
            Some(print_of(board))
        } else {
            None
        };
        let number = self.colourings.len();
        let newest = self.colourings.newest();
        newest.has_all_cells();
        let mut stones = no_rows();
        add_points(newest.rows_of(Colour::Black), &mut stones);
        add_points(newest.rows_of(Colour::White), &mut stones);
        self.emptied.reserve(stones.len())?;
        self.table.reserve(number)?;
        self.colourings.add(board, begins)?;
        self.emptied.add(&stones, number as u32);
        self.table.push(print, None);
        self.at_once_below = at_once_below(&self.colourings, &self.table);
        Ok(())
    }

    /// The same as `pop`, for every step.
    #[inline(never)]
    fn pop_in_full(&mut self)
        requires { 0 < length self.old.older }
        ensures { self.old.older ≡ self.new.newest ∷ self.new.older }
    {
        self.table.pop();
        self.colourings.pop();
        self.emptied.go_back(self.colourings.len() as u32);
        self.at_once_below = at_once_below(&self.colourings, &self.table);
    }

    /// The same as `play`, on a settled board, for a stone that may capture or be suicide: a glance doesn't rule it out.
    #[inline(never)]
    fn play_in_doubt(&mut self, colour: Colour, point: Point) -> Played
        requires one_side { HaveSide (newest_grid self.old).side self.old }
        requires stone { IsEmptyOnSettled (newest_grid self.old) point }
        ensures { IsPlayed colour point self.old self.new result }
    {
        let mut words = no_rows();
        match self.colourings.find_cleared(colour, point, &mut words) {
            Some(cleared) => self.play_clearing(colour, point, cleared),
            None => self.play_clearing(colour, point, &[]),
        }
    }

    /// The same as `play`, on a settled board; `cleared` is what the stone clears.
    #[inline(always)]
    fn play_clearing(&mut self, colour: Colour, point: Point, cleared: &[u64]) -> Played
        requires one_side { HaveSide (newest_grid self.old).side self.old }
        requires stone { IsMove (newest_grid self.old) colour point cleared.now }
        requires settled { has_unreaching (newest_grid self.old) ≡ false }
        ensures { IsPlayed colour point self.old self.new result }
    {
        self.newest().has_all_cells();
        if self.may_repeat(point) | has_point(cleared, point) {
            return self.play_asked(colour, point, cleared);
        }
        self.play_new(colour, point, cleared, Known::Fresh)
    }

    /// Whether a stone that stays may bring a colouring of the present stretch back: it is put on a point that was emptied.
    #[inline(always)]
    fn may_repeat(&self, point: Point) -> bool
        requires one_side { HaveSide (newest_grid self.now).side self.now }
        requires on_board { IsOn (newest_grid self.now).side point }
        requires empty { cell_at (newest_grid self.now) point ≡ Empty }
        ensures { (colour : Colour) (cleared : List ℕ) → Clears (newest_grid self.now) colour point cleared → IsFalse (is_set cleared point)
            → IsFalse result → IsFreshStone (with_next self.now (play (newest_grid self.now) colour point) false) point }
    {
        self.colourings.newest().has_all_cells();
        board_points::rows::has_point(&self.emptied.rows, point)
    }

    /// The same as `play_clearing`, for a stone that may bring a colouring back. Positional superko decides whether it may be played.
    #[inline(never)]
    fn play_asked(&mut self, colour: Colour, point: Point, cleared: &[u64]) -> Played
        requires one_side { HaveSide (newest_grid self.old).side self.old }
        requires stone { IsMove (newest_grid self.old) colour point cleared.now }
        requires settled { has_unreaching (newest_grid self.old) ≡ false }
        ensures { IsPlayed colour point self.old self.new result }
    {
        match self.decide_by_newest(colour, point, cleared) {
            Some(true) => Ok(false),
            Some(false) => self.play_new(colour, point, cleared, Known::Settled),
            None => self.play_by_print(colour, point, cleared),
        }
    }

    /// Whether the present stretch has the colouring that a stone makes, if the newest colourings tell; None if they don't. If the table is
    /// awake, only the newest steps are looked at, since the table tells sooner than a look back.
    fn decide_by_newest(&self, colour: Colour, point: Point, cleared: &[u64]) -> Option<bool>
        requires stone { IsMove (newest_grid self.now) colour point cleared.now }
        ensures { IfSome result (λ has. IsTrue has ↔ Contains (present_stretch self.now) (play (newest_grid self.now) colour point)) }
    {
        if self.colourings.newest_steps_show_new(point, cleared) {
            return Some(false);
        }
        if self.table.is_awake() {
            return None;
        }
        let mut made = self.newest().copy();
        made.place_and_clear(colour, point, cleared);
        self.colourings.look_back(&made)
    }

    /// Plays a stone that brings no colouring back; `cleared` is what it clears. `known` is what is known of the colouring before it.
    #[inline(always)]
    fn play_new(&mut self, colour: Colour, point: Point, cleared: &[u64], known: Known) -> Played
        requires stone { IsMove (newest_grid self.old) colour point cleared.now }
        requires never { ¬ Contains (present_stretch self.old) (play (newest_grid self.old) colour point) }
        requires known { IsKnown self.old colour point known }
        ensures { IsPlayed colour point self.old self.new result }
    {
        let print = if self.table.is_awake() {
            let newest = self.colourings.newest();
            newest.has_all_cells();
            Some(print_after_clearing(self.table.newest(), newest, colour, point, cleared))
        } else {
            None
        };
        add_stone(
            &mut self.colourings,
            &mut self.table,
            &mut self.emptied,
            colour,
            point,
            cleared,
            known,
            print,
            None,
        )?;
        if print.is_none() && self.colourings.len() > self.at_once_below {
            self.at_once_below = at_once_below(&self.colourings, &self.table);
        }
        Ok(true)
    }

    /// The same as `play_asked`. Wakes the table and looks the colouring up. A new one goes into the trie at once.
    #[inline(never)]
    fn play_by_print(&mut self, colour: Colour, point: Point, cleared: &[u64]) -> Played
        requires one_side { HaveSide (newest_grid self.old).side self.old }
        requires stone { IsMove (newest_grid self.old) colour point cleared.now }
        requires settled { has_unreaching (newest_grid self.old) ≡ false }
        ensures { IsPlayed colour point self.old self.new result }
    {
        self.at_once_below = 0;
        self.table.wake(&self.colourings);
        let past = &self.colourings;
        let newest = past.newest();
        newest.has_all_cells();
        let print = print_after_clearing(self.table.newest(), newest, colour, point, cleared);
        let Some(gap) = gap_of_stone(past, &mut self.table, colour, point, cleared, print) else {
            return Ok(false);
        };
        add_stone(
            &mut self.colourings,
            &mut self.table,
            &mut self.emptied,
            colour,
            point,
            cleared,
            Known::Settled,
            Some(print),
            Some(gap),
        )?;
        Ok(true)
    }

    /// The same as `play`, the plain way on a copy, for boards that aren't settled. Only a setup makes these, so one colouring is compared.
    #[inline(never)]
    fn play_on_copy(&mut self, colour: Colour, point: Point) -> Played
        requires one_side { HaveSide (newest_grid self.old).side self.old }
        requires on_board { IsOn (newest_grid self.old).side point }
        requires empty { cell_at (newest_grid self.old) point ≡ Empty }
        ensures { IsPlayed colour point self.old self.new result }
    {
        let mut made = self.newest().copy();
        made.place(colour, point);
        made.set_settled(true);
        if self.holds(&made) {
            return Ok(false);
        }
        self.add(&made, false)?;
        Ok(true)
    }
}

/// A number of steps below which a stone may be played at once. It stays right while stones are played, and lone stones are taken back.
fn at_once_below(past: &Colourings, table: &Table) -> usize
    ensures { ArePlayedAtOnce past.now table.now result }
{
    if !past.newest().is_settled() {
        return 0;
    }
    let room = table.room_asleep.saturating_sub(1);
    // before the next full step, `past` has room for each step, and keeps only the point of a lone stone
    let steps = past.len() - 1;
    room.min(steps - steps % FULL + (FULL - 1))
}

/// Adds the colouring that a stone makes; `cleared` and `known` are as in `play_new`. `print` is the colouring's print, or None if the
/// table sleeps. Puts the colouring into the trie if its gap there is known. After a refusal nothing is changed.
// No method: between its steps the invariant of `PrintPast` doesn't hold.
#[inline(always)]
fn add_stone(
    past: &mut Colourings,
    table: &mut Table,
    emptied: &mut Emptied,
    colour: Colour,
    point: Point,
    cleared: &[u64],
    known: Known,
    print: Option<u64>,
    gap: Option<Gap>,
) -> Result<(), MemoryFault>
    requires past { (below : ℕ) × IsPrintPast past.old table.old emptied.old below }
    requires stone { IsMove (newest_grid past.old) colour point cleared.now }
    requires known { IsKnown past.old colour point known }
    requires print { IsPrintOfNext (all_of past.old) table.old (with_next past.old (play (newest_grid past.old) colour point) false).newest print }
    requires gap { IfSome gap (IsGap (all_of past.old) table.old (with_next past.old (play (newest_grid past.old) colour point) false).newest) }
    ensures ok { OnOk result (past.new ≡ with_next past.old (play (newest_grid past.old) colour point) false) }
    ensures err { OnErr result (past.new ≡ past.old) }
    ensures past { (below : ℕ) → IsPrintPast past.old table.old emptied.old below → IsPrintPast past.new table.new emptied.new below }
{
    past.newest().has_all_cells();
    let number = past.len();
    emptied.reserve(cleared.len())?;
    table.reserve(number)?;
    past.add_stone(colour, point, cleared, known)?;
    emptied.add(cleared, number as u32);
    table.push(print, gap);
    Ok(())
}

/// Where the colouring that a stone makes comes into the trie, which gets all colourings first; None if the present stretch has it, so that
/// positional superko forbids the stone. `print` is the colouring's print. All points are looked at only if another colouring has it.
fn gap_of_stone(
    past: &Colourings,
    table: &mut Table,
    colour: Colour,
    point: Point,
    cleared: &[u64],
    print: u64,
) -> Option<Gap>
    requires table { IsAwakeTable (all_of past.now) table.old }
    requires one_side { HaveSide (newest_grid past.now).side past.now }
    requires stone { IsPrintedMove (newest_grid past.now) colour point cleared.now print }
    ensures table { IsAwakeTable (all_of past.now) table.new }
    ensures gap { IfSome result (IsGap (all_of past.now) table.new (with_next past.now (play (newest_grid past.now) colour point) false).newest) }
    ensures has { IfNone result (Contains (present_stretch past.now) (play (newest_grid past.now) colour point)) }
{
    let near = match table.gap(past, print) {
        Ok(gap) => return Some(gap),
        Err(near) => near,
    };
    let mut made = past.newest().copy();
    made.place_and_clear(colour, point, cleared);
    if past.has_near(near, &made) {
        return None;
    }
    table.gap_by_key(past, &made, print)
}
