//! Which points reach a colour (Tromp-Taylor), by a flood from the points of that colour.

ghost use Rattle.std.specs.Prelude.{◌≡◌, ◌*◌, ◌+◌, ◌≤◌, ◌↔◌, IsTrue, length};
ghost use Rattle.board_points.specs.declared.points.Point.{Point};
ghost use Rattle.board_points.specs.Point.{IsOn};
ghost use Rattle.board_points.specs.Marking.{is_marked, marked_count};
ghost use Rattle.board_stones.specs.Reaching.{Reaches};

use crate::board::Board;
use crate::steps::Steps;
use crate::stones::Cell;
use board_points::{Marks, Point, Search};

impl Board {
    /// The points that reach a colour (Tromp-Taylor); points of that colour are among them. Adds one step for each marked point: at most as
    /// many as the board has points. The count of steps must have room for that. This is the plain way, point by point. Clearing and the
    /// score fill whole rows instead, so in this repository only tests call it.
    pub fn reaching(&self, target: Cell, steps: &mut Steps) -> Marks
        requires { steps.old + self.now.side * self.now.side ≤ u64.MAX }
        ensures side { result.side ≡ self.now.side }
        ensures marks { (point : Point) → IsOn self.now.side point → (IsTrue (is_marked result point) ↔ Reaches self.now target point) }
        ensures all { length result.marks ≡ self.now.side * self.now.side }
        ensures at_most { marked_count result ≤ self.now.side * self.now.side }
        ensures steps { steps.new ≡ steps.old + marked_count result }
    {
        let mut search = Search::new(self.size());
        for index in 0..self.size().points() {
            let point = Point::of_index(index, self.size());
            search.offer(point, self.at(point) == target);
        }
        self.has_all_cells();
        while let Some(point) = search.take_one() {
            steps.tick();
            let own = self.at(point);
            for to in point.neighbours() {
                // a neighbour reaches the colour through the point if that has the colour, or if both have the same colour
                let through = to.is_on(self.size()) && (own == target || self.at(to) == own);
                search.offer(to, through);
            }
        }
        search.into_marks()
    }
}
