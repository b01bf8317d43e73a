//! Sets of a board's points by what stands on them, as rows of words. Filling these shows what reaches what.

ghost use Rattle.std.specs.Prelude.{◌≡◌, length};
ghost use Rattle.board_stones.specs.declared.stones.Cell.TheVariants.{Empty};
ghost use Rattle.board_stones.specs.Colour.{stone_of};
ghost use Rattle.board_stones.specs.inner.Groups.{is_shut};
ghost use Rattle.board_points.specs.Rows.{AreRowsOf};
ghost use Rattle.board_stones.specs.inner.Regions.{reaches_through_own};

use crate::board::Board;
use crate::stones::Colour;
use board_points::fill::fill;
use board_points::liberty::stones_with_liberty;
use board_points::rows::{difference, is_none, no_rows, other_points};

impl Board {
    /// Writes to `area` the points of a colour, and the empty points that reach it.
    pub(crate) fn area_of(&self, colour: Colour, area: &mut [u64])
        requires { length area.old ≡ self.now.side }
        ensures are { AreRowsOf self.now.side (reaches_through_own self.now Empty (stone_of colour)) area.new }
        ensures rows { length area.new ≡ self.now.side }
    {
        let mut words = no_rows();
        let region = &mut words[..usize::from(self.size().side())];
        area.copy_from_slice(self.rows_of(colour));
        other_points(self.rows_of(colour.opponent()), region);
        fill(area, region);
    }

    /// Writes to `shut` the stones of a colour that don't reach empty.
    pub(crate) fn shut_stones(&self, colour: Colour, shut: &mut [u64])
        requires { length shut.old ≡ self.now.side }
        ensures shut { AreRowsOf self.now.side (is_shut self.now colour) shut.new }
        ensures rows { length shut.new ≡ self.now.side }
    {
        let own = self.rows_of(colour);
        let others = self.rows_of(colour.opponent());
        let mut words = no_rows();
        let reached = &mut words[..usize::from(self.size().side())];
        stones_with_liberty(own, others, reached);
        // usually each stone has an empty point beside it; then nothing is filled
        difference(own, reached, shut);
        if is_none(shut) {
            return;
        }
        fill(reached, own);
        difference(own, reached, shut);
    }
}
