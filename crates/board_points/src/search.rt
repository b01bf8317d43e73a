//! The worklist of a flood.

ghost use Rattle.std.specs.Prelude.{◌≡◌, ◌*◌, ◌≤◌, length, take, ◌++◌, ◌∷◌, [], IsTrue, IfSome, IfNone};
ghost use Rattle.board_points.specs.declared.size.TheConstants.{MAX_POINTS};
ghost use Rattle.board_points.specs.Search.{Searched, IsSound, Finds, nothing_found};
ghost use Rattle.board_points.specs.Point.{IsOn};
ghost use Rattle.board_points.specs.Marking.{is_marked};

use crate::marks::Marks;
use crate::points::{FIRST, Point};
use crate::size::{MAX_POINTS, Size};
use std::marker::Model;

/// The points that a search found, and those of them that wait for a closer look.
#[derive(Drop)]
pub struct Search {
    marks: Marks,
    points: [Point; MAX_POINTS],
    /// How many points wait, at the front of `points`.
    waiting: usize,
}

impl Model for Search {
    ghost Value = { Searched };

    ghost view = { λ s. record { marking = s.marks; waiting = take s.waiting s.points } };

    ghost invariant = { λ s. (length s.points ≡ MAX_POINTS) × (s.waiting ≤ MAX_POINTS) × (s.marks.side * s.marks.side ≤ MAX_POINTS)
        × IsSound (record { marking = s.marks; waiting = take s.waiting s.points }) };
}

impl Search {
    /// A search that has found nothing yet.
    pub fn new(size: Size) -> Search
        ensures { result ≡ nothing_found size }
    {
        prove!(size.points() <= MAX_POINTS);
        Search {
            marks: Marks::none(size),
            points: [FIRST; MAX_POINTS],
            waiting: 0,
        }
    }

    /// Adds a point if it is wanted and wasn't found before. A wanted point must be on the board.
    pub fn offer(&mut self, point: Point, wanted: bool)
        requires { IsTrue wanted → IsOn self.old.marking.side point }
        ensures { Finds (λ p. IsTrue wanted × (p ≡ point)) self.old self.new }
    {
        if wanted && !self.marks.has(point) {
            self.marks.mark(point);
            self.points[self.waiting] = point;
            self.waiting += 1;
        }
    }

    /// Takes a point that waits; None if none does.
    pub fn take_one(&mut self) -> Option<Point>
        ensures taken { IfSome result (λ p. self.old.waiting ≡ self.new.waiting ++ p ∷ []) }
        ensures on_grid { IfSome result (IsOn self.old.marking.side) }
        ensures marked { IfSome result (λ p. IsTrue (is_marked self.old.marking p)) }
        ensures none_waits { IfNone result (self.old.waiting ≡ []) }
        ensures marking { self.new.marking ≡ self.old.marking }
    {
        if self.waiting == 0 {
            return None;
        }
        self.waiting -= 1;
        Some(self.points[self.waiting])
    }

    /// The points found, as a set.
    pub fn into_marks(self) -> Marks
        ensures { result ≡ self.marking }
    {
        let Search { marks, .. } = self;
        marks
    }
}
