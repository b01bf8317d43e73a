//! Shortcuts. Each stands in for plain code and ensures no more than that code does, so a first reader may skip this module.
//!
//! | Shortcut | Stands in for |
//! |---|---|
//! | `score_in_halves`: on a small board, one filling finds the areas of both colours | `Board::score` |
//! | `clears_nothing_at_a_glance` (`capture`): the rows around most stones show that these clear nothing | `Board::place` |
//! | `find_cleared` (`capture`): only a stone's group and the groups beside it can be left without a liberty | `Board::place` |
//!
//! Most stones clear nothing and can't repeat a colouring. `#[inline(always)]` stands on the functions that such a stone goes
//! through: as it is known there that nothing is cleared, most of their code drops out. `#[inline(never)]` stands on those that it doesn't
//! reach, so that their rows and registers stay off its way. Without most of these attributes games take 2 to 8 % more instructions.

ghost use Rattle.std.specs.Prelude.{◌≡◌, ◌<◌};
ghost use Rattle.board_stones.specs.declared.stones.Colour.TheVariants.{Black, White};
ghost use Rattle.board_stones.specs.Score.{score_of};

mod capture;

use crate::board::Board;
use crate::stones::Colour;
use board_points::fill::fill;
use board_points::quick::halves::{FEW_ROWS, HALF, count_halves, pair_rows};

impl Board {
    /// The area scores of Black and of White (`score`) on a board so small that the rows of both fit in the halves of words, with an empty
    /// column between them. The low half of a word has a row for Black, the high half for White. So one filling finds both areas.
    pub(crate) fn score_in_halves(&self) -> (u32, u32)
        requires { self.now.side < HALF }
        ensures black { result.0 ≡ score_of self.now Black }
        ensures white { result.1 ≡ score_of self.now White }
    {
        let side = usize::from(self.size().side());
        let (mut area_words, mut region_words) = ([0; FEW_ROWS], [0; FEW_ROWS]);
        let areas = &mut area_words[..side];
        let region = &mut region_words[..side];
        let white = self.rows_of(Colour::White);
        pair_rows(self.rows_of(Colour::Black), white, areas, region);
        fill(areas, region);
        count_halves(areas)
    }
}
