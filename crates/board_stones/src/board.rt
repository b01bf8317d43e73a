//! The board: reading and setting points, moves and the score (Tromp-Taylor).

ghost use Rattle.std.specs.Prelude.{◌≡◌, IsTrue, false, ◌*◌, ◌<◌, ◌≤◌, ◌↔◌, ℕ, length};
ghost use Rattle.board_stones.specs.declared.stones.Cell.TheVariants.{Empty};
ghost use Rattle.board_stones.specs.declared.stones.Colour.TheVariants.{Black, White};
ghost use Rattle.board_points.specs.declared.points.Point.{Point};
ghost use Rattle.board_stones.specs.Clearing.{has_unreaching, clear, play};
ghost use Rattle.board_stones.specs.Grid.{Grid, cell_at, with_cell, empty_grid, with_row};
ghost use Rattle.board_points.specs.Point.{IsOn};
ghost use Rattle.board_stones.specs.Colour.{same_cell, stone_of};
ghost use Rattle.board_stones.specs.Score.{score_of};
ghost use Rattle.board_points.specs.Rows.{has_bit, AreRowsOf};
ghost use Rattle.board_stones.specs.inner.Regions.{AreStones, grid_with, with_columns};

mod flood;
mod rectangles;
pub(crate) mod regions;

use crate::stones::{Cell, Colour};
use board_points::columns::{columns_left, has_column, with_column};
use board_points::quick::halves::HALF;
use board_points::rows::{count_apart, is_none, no_rows};
use board_points::{MAX_POINTS, MAX_ROWS, Point, Size};
use std::marker::Model;

/// A square board, and what stands on its points.
#[derive(Drop)]
pub struct Board {
    size: Size,
    /// The points with a black stone: a word for each row, with a bit for each column.
    black: [u64; MAX_ROWS],
    /// The points with a white stone.
    white: [u64; MAX_ROWS],
    /// Whether every stone is known to be alive. `quick` and `has_unreaching` use it. A change of a point clears it. After a
    /// move `place_and_clear` sets it, after a setup `PrintPast` works it out.
    settled: bool,
}

impl Model for Board {
    ghost Value = { Grid };

    ghost view = { λ b. grid_with b.size b.black b.white };

    ghost invariant = { λ b. AreStones b.size b.black b.white
        × (IsTrue b.settled → has_unreaching (grid_with b.size b.black b.white) ≡ false) };
}

impl Board {
    /// The board of that size without stones.
    pub fn empty(size: Size) -> Board
        ensures { result ≡ empty_grid size }
    {
        prove!(usize::from(size.side()) <= MAX_ROWS);
        Board {
            size,
            black: no_rows(),
            white: no_rows(),
            settled: true,
        }
    }

    /// The board's size.
    pub fn size(&self) -> Size
        ensures { result ≡ self.now.side }
    {
        self.size
    }

    /// For proofs: every point has a cell, and the board is no larger than the largest one.
    #[tactic(auto, using(crate::proofs::StoneRowsLemmas::all_cells))]
    pub fn has_all_cells(&self)
        ensures all { length self.now.cells ≡ self.now.side * self.now.side }
        ensures few { self.now.side ≤ MAX_ROWS }
        ensures few_points { self.now.side * self.now.side ≤ MAX_POINTS }
    {
        prove!(self.size.points() <= MAX_POINTS);
    }

    /// What stands on a point, which must be on the board.
    #[tactic(auto, using(crate::proofs::GridLemmas::grid_rules))]
    pub fn at(&self, point: Point) -> Cell
        requires { IsOn self.now.side point }
        ensures { result ≡ cell_at self.now point }
    {
        let row = usize::from(point.row);
        let col = usize::from(point.col);
        // both words are read before either is tested, so that one test tells whether the point is empty
        let (black, white) = (self.black[row], self.white[row]);
        if has_column(black, col) {
            Cell::Black
        } else if has_column(white, col) {
            Cell::White
        } else {
            Cell::Empty
        }
    }

    /// The points with a stone of a colour.
    pub fn rows_of(&self, colour: Colour) -> &[u64]
        ensures are { AreRowsOf self.now.side (λ p. same_cell (cell_at self.now p) (stone_of colour)) result.now }
        ensures rows { length result.now ≡ self.now.side }
    {
        let side = usize::from(self.size.side());
        match colour {
            Colour::Black => &self.black[..side],
            Colour::White => &self.white[..side],
        }
    }

    /// The columns of a row that have a stone of a colour, as a word with a bit for each column.
    pub fn columns_of(&self, row: u8, colour: Colour) -> u64
        requires { row < self.now.side }
        ensures within { (col : ℕ) → col < self.now.side → has_bit result col
            ≡ same_cell (cell_at self.now (record { col = col; row = row })) (stone_of colour) }
        ensures off { (col : ℕ) → IsTrue (has_bit result col) → col < self.now.side }
    {
        self.rows_of(colour)[usize::from(row)]
    }

    /// Changes what stands on one point, and on no other. The point must be on the board. Nothing is cleared.
    #[tactic(auto, using(crate::proofs::StoneRowsLemmas::one_coloured))]
    pub fn set(&mut self, point: Point, cell: Cell)
        requires { IsOn self.old.side point }
        ensures { self.new ≡ with_cell self.old point cell }
    {
        self.has_all_cells();
        let column = with_column(0, usize::from(point.col), true);
        self.colour_columns(point.row, column, cell);
    }

    /// Puts a stone on an empty point, which must be on the board. Nothing is cleared. This is quicker than `set`.
    pub(crate) fn add(&mut self, colour: Colour, point: Point)
        requires on_board { IsOn self.old.side point }
        requires empty { cell_at self.old point ≡ Empty }
        ensures { self.new ≡ with_cell self.old point (stone_of colour) }
    {
        self.has_all_cells();
        let row = usize::from(point.row);
        let column = with_column(0, usize::from(point.col), true);
        match colour {
            Colour::Black => self.black[row] |= column,
            Colour::White => self.white[row] |= column,
        }
        self.settled = false;
    }

    /// Colours the points of a row that are in a set of columns. Nothing is cleared.
    pub(crate) fn colour_columns(&mut self, row: u8, columns: u64, cell: Cell)
        requires row { row < self.old.side }
        requires columns { (col : ℕ) → IsTrue (has_bit columns col) → col < self.old.side }
        ensures { self.new ≡ with_columns self.old row columns cell }
    {
        let row = usize::from(row);
        let black = if cell == Cell::Black { columns } else { 0 };
        let white = if cell == Cell::White { columns } else { 0 };
        self.black[row] = self.black[row] & !columns | black;
        self.white[row] = self.white[row] & !columns | white;
        self.settled = false;
    }

    /// Changes what stands in a row. A column that is in both words gets a white stone. Nothing is cleared.
    pub fn set_row(&mut self, row: u8, black: u64, white: u64)
        requires row { row < self.old.side }
        requires black { (col : ℕ) → IsTrue (has_bit black col) → col < self.old.side }
        requires white { (col : ℕ) → IsTrue (has_bit white col) → col < self.old.side }
        ensures { self.new ≡ with_row self.old row black white }
    {
        let row = usize::from(row);
        self.black[row] = columns_left(black, white);
        self.white[row] = white;
        self.settled = false;
    }

    /// Whether two boards have the same side and the same colouring.
    pub fn same(&self, other: &Board) -> bool
        ensures { IsTrue result ↔ (self.now ≡ other.now) }
    {
        if self.size != other.size {
            return false;
        }
        let side = usize::from(self.size.side());
        self.black[..side] == other.black[..side] && self.white[..side] == other.white[..side]
    }

    /// Whether a row is the same as on another board of the same size.
    pub fn has_same_row(&self, other: &Board, row: u8) -> bool
        requires side { other.now.side ≡ self.now.side }
        requires row { row < self.now.side }
        ensures { IsTrue result → (col : ℕ) → col < self.now.side
            → cell_at self.now (record { col = col; row = row }) ≡ cell_at other.now (record { col = col; row = row }) }
    {
        self.columns_of(row, Colour::Black) == other.columns_of(row, Colour::Black)
            && self.columns_of(row, Colour::White) == other.columns_of(row, Colour::White)
    }

    /// A board with the same side and the same colouring.
    pub fn copy(&self) -> Board
        ensures { result ≡ self.now }
    {
        Board { ..*self }
    }

    /// Whether every stone is known to reach empty. If this is false, nothing is known.
    pub fn is_settled(&self) -> bool
        ensures { IsTrue result → has_unreaching self.now ≡ false }
    {
        self.settled
    }

    /// Sets what `is_settled` returns. It may be true only if every stone reaches empty. The view doesn't change.
    pub fn set_settled(&mut self, settled: bool)
        requires { IsTrue settled → has_unreaching self.old ≡ false }
        ensures { self.new ≡ self.old }
    {
        self.settled = settled;
    }

    /// Works out whether every stone reaches empty, if it isn't known. The view doesn't change.
    pub fn work_settled_out(&mut self)
        ensures { self.new ≡ self.old }
    {
        self.settled = !self.has_unreaching();
    }

    /// Clears a colour (Tromp-Taylor): captures its groups without a liberty. Empties all points of the colour that don't reach empty,
    /// each tested on the board as it was.
    pub fn clear(&mut self, colour: Colour)
        ensures value { self.new ≡ clear self.old colour }
        ensures side { self.new.side ≡ self.old.side }
    {
        let mut words = no_rows();
        let shut = &mut words[..usize::from(self.size.side())];
        self.shut_stones(colour, shut);
        self.empty_set(shut);
    }

    /// Makes a whole move (Tromp-Taylor). The point, which must be empty and on the board, takes the player's colour. Then the opponent's
    /// colour is cleared, which is capture, and then the player's own, which is suicide. This is the plain way. `PrintPast` finds what a
    /// stone clears near the stone alone (`find_cleared`).
    pub fn place(&mut self, colour: Colour, point: Point)
        requires on_board { IsOn self.old.side point }
        requires empty { cell_at self.old point ≡ Empty }
        ensures value { self.new ≡ play self.old colour point }
        ensures side { self.new.side ≡ self.old.side }
    {
        self.set(point, colour.stone());
        self.clear(colour.opponent());
        self.clear(colour);
    }

    /// The area scores of Black and of White, in points (Tromp-Taylor): a player's points, and the empty points that reach her colour and
    /// not the other's. An empty point that reaches both or neither counts for nobody. After the first test, which is a shortcut for small
    /// boards (`count_halves` counts there), this is the plain way.
    pub fn score(&self) -> (u32, u32)
        ensures black { result.0 ≡ score_of self.now Black }
        ensures white { result.1 ≡ score_of self.now White }
    {
        if self.size.side() < HALF {
            return self.score_in_halves();
        }
        let side = usize::from(self.size.side());
        let (mut black_words, mut white_words) = (no_rows(), no_rows());
        let black = &mut black_words[..side];
        let white = &mut white_words[..side];
        self.area_of(Colour::Black, black);
        self.area_of(Colour::White, white);
        (count_apart(black, white), count_apart(white, black))
    }

    /// Whether some stone doesn't reach empty. A setup can leave such a stone.
    pub fn has_unreaching(&self) -> bool
        ensures { result ≡ has_unreaching self.now }
    {
        if self.settled {
            return false;
        }
        let mut words = no_rows();
        let shut = &mut words[..usize::from(self.size.side())];
        self.shut_stones(Colour::Black, shut);
        let black_reach = is_none(shut);
        self.shut_stones(Colour::White, shut);
        !(black_reach & is_none(shut))
    }
}
