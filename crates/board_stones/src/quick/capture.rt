//! What a stone clears, as rows of bits: nothing, the groups that it captures, or its own group (suicide). `Board::place` is the plain way.

ghost use Rattle.std.specs.Prelude.{◌≡◌, ◌↔◌, [], false, IsTrue, IsFalse, length};
ghost use Rattle.board_stones.specs.declared.stones.Cell.TheVariants.{Empty};
ghost use Rattle.board_points.specs.declared.points.Point.{Point};
ghost use Rattle.board_points.specs.Point.{IsOn};
ghost use Rattle.board_stones.specs.Colour.{stone_of};
ghost use Rattle.board_stones.specs.Grid.{cell_at};
ghost use Rattle.board_stones.specs.Clearing.{has_unreaching, play};
ghost use Rattle.board_stones.specs.Reaching.{Reaches};
ghost use Rattle.board_stones.specs.inner.Groups.{ReachesIfStone, AddsShut, AreShutGroups, AreClearedOrReachBeside, ReachBeside};
ghost use Rattle.board_stones.specs.Move.{IsEmptyOnSettled, IsMove, Clears};
ghost use Rattle.board_points.specs.Rows.{is_set, HasNoPoint};

use crate::board::Board;
use crate::stones::{Cell, Colour};
use board_points::Point;
use board_points::columns::has_column;
use board_points::quick::glance::leaves_all_alive;
use board_points::quick::group::{add_to_either, fill_if_shut, lives_in_row};
use board_points::rows::{has_point, no_rows, remove_all};

impl Board {
    /// Whether a glance at the rows around an empty point shows that a stone there captures nothing, and isn't suicide. It shows this of
    /// most stones, and of the others nothing.
    #[inline(always)]
    pub fn clears_nothing_at_a_glance(&self, colour: Colour, point: Point) -> bool
        requires on_board { IsOn self.now.side point }
        requires settled { has_unreaching self.now ≡ false }
        ensures { IsTrue result → Clears self.now colour point [] }
    {
        self.has_all_cells();
        let own = self.rows_of(colour);
        let others = self.rows_of(colour.opponent());
        leaves_all_alive(own, others, point)
    }

    /// Finds what a stone on an empty point clears, by capture or else by suicide. `cleared` must have no points. If the stone clears
    /// something, `cleared` becomes that; if not, false is returned, and what is in `cleared` says nothing. Before the move every stone on
    /// the board must reach empty. So after it only the stone's own group and the groups beside the stone can be without a liberty. The
    /// stone is put on the board for this search, and removed again.
    pub fn find_cleared(&mut self, colour: Colour, point: Point, cleared: &mut [u64]) -> bool
        requires stone { IsEmptyOnSettled self.old point }
        requires none { HasNoPoint self.old.side cleared.old }
        ensures cleared { IsTrue result → Clears self.old colour point cleared.new }
        ensures none { IsFalse result → Clears self.old colour point [] }
        ensures unchanged { self.new ≡ self.old }
    {
        self.has_all_cells();
        self.add(colour, point);
        let mut some = self.find_shut_beside(colour.opponent(), point, cleared);
        if !some && self.may_be_shut(colour, point) {
            // a search that found a liberty left stones here
            remove_all(cleared);
            some = self.find_shut(colour, point, cleared);
        }
        self.set(point, Cell::Empty);
        self.set_settled(true);
        some
    }

    /// Whether a group of a colour beside a point has no liberty. If so, `shut` becomes all such groups. It must be empty.
    fn find_shut_beside(&self, colour: Colour, point: Point, shut: &mut [u64]) -> bool
        requires on_board { IsOn self.now.side point }
        requires none { HasNoPoint self.now.side shut.old }
        ensures shut { IsTrue result → AreShutGroups self.now colour shut.new }
        ensures some { IsTrue result → (stone : Point) × IsTrue (is_set shut.new stone) }
        ensures beside { IsTrue result → AreClearedOrReachBeside self.now colour point shut.new }
        ensures lives { IsFalse result → ReachBeside self.now colour point }
        ensures all { length shut.new ≡ self.now.side }
    {
        self.has_all_cells();
        let mut doubted = None;
        for at in point.neighbours() {
            // most of these points have no such stone, or one that lives by a stone in its row
            if self.may_be_shut(colour, at) {
                if doubted.is_some() {
                    return self.find_shut_among(colour, point, shut);
                }
                doubted = Some(at);
            }
        }
        match doubted {
            Some(at) => self.find_shut(colour, at, shut),
            None => false,
        }
    }

    /// Adds to `shut` the groups of a colour that are beside a point and have no liberty. Returns whether there are any. No group is filled
    /// twice: stones that a search has found aren't asked about again, whether their group is shut or not.
    #[inline(never)]
    fn find_shut_among(&self, colour: Colour, point: Point, shut: &mut [u64]) -> bool
        requires on_board { IsOn self.now.side point }
        requires shut { AreShutGroups self.now colour shut.old }
        ensures adds { AddsShut self.now colour shut.old shut.new result }
        ensures beside { AreClearedOrReachBeside self.now colour point shut.new }
    {
        self.has_all_cells();
        let own = self.rows_of(colour);
        let others = self.rows_of(colour.opponent());
        let mut words = no_rows();
        let alive = &mut words[..own.len()];
        let mut some = false;
        for at in point.neighbours() {
            if self.has_stone(colour, at) && !has_point(shut, at) && !has_point(alive, at) {
                some |= add_to_either(own, others, at, shut, alive);
            }
        }
        some
    }

    /// Whether a point has a stone of a colour, and no stone in its row shows that it lives.
    #[inline(always)]
    fn may_be_shut(&self, colour: Colour, point: Point) -> bool
        ensures stone { IsTrue result → IsOn self.now.side point × (cell_at self.now point ≡ stone_of colour) }
        ensures lives { IsFalse result → IsOn self.now.side point → ReachesIfStone self.now colour point }
    {
        self.has_all_cells();
        self.has_stone(colour, point)
            && !lives_in_row(self.rows_of(colour), self.rows_of(colour.opponent()), point)
    }

    /// Whether the group of the stone on a point has no liberty. If so, `shut` becomes the group. It must be empty.
    #[inline(always)]
    fn find_shut(&self, colour: Colour, point: Point, shut: &mut [u64]) -> bool
        requires on_board { IsOn self.now.side point }
        requires stone { cell_at self.now point ≡ stone_of colour }
        requires none { HasNoPoint self.now.side shut.old }
        ensures shut { IsTrue result → AreShutGroups self.now colour shut.new }
        ensures here { IsTrue result → IsTrue (is_set shut.new point) }
        ensures lives { IsFalse result → Reaches self.now Empty point }
        ensures all { length shut.new ≡ self.now.side }
    {
        self.has_all_cells();
        let others = self.rows_of(colour.opponent());
        fill_if_shut(self.rows_of(colour), others, point, shut)
    }

    /// Whether a point is on the board and has a stone of a colour.
    fn has_stone(&self, colour: Colour, point: Point) -> bool
        ensures { IsTrue result ↔ (IsOn self.now.side point × (cell_at self.now point ≡ stone_of colour)) }
    {
        point.is_on(self.size())
            && has_column(self.columns_of(point.row, colour), usize::from(point.col))
    }

    /// Places a stone on an empty point; `cleared` is what it clears. After that every stone reaches empty.
    pub fn place_and_clear(&mut self, colour: Colour, point: Point, cleared: &[u64])
        requires { IsMove self.old colour point cleared.now }
        ensures { self.new ≡ play self.old colour point }
    {
        self.has_all_cells();
        self.add(colour, point);
        self.empty_set(cleared);
        self.set_settled(true);
    }
}
