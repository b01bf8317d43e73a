//! A past whose boards all have one side. Its calls ask for a board of this side, or for a point on it, and for nothing else.

ghost use Rattle.std.specs.Prelude.{◌≡◌, ◌≤◌, length};
ghost use Rattle.board_past.specs.Past.{HaveSide};
ghost use Rattle.board_points.specs.Point.{IsOn};

use go_board::{Board, Cell, Colour, Past, Point, Rect, SetupOp};
use std::alloc::Global;
use std::marker::Model;
use std::process::Abort;

/// A past, and the side of its boards.
#[derive(Drop)]
pub(crate) struct SidedPast<P: Past> {
    past: P,
    side: u8,
    /// So many colourings can be taken back, or more.
    depth: usize,
}

impl<P: Past> Model for SidedPast<P> {
    ghost use Rattle.std.specs.Prelude.{ℕ, ◌≤◌, length};
    ghost use Rattle.board_past.specs.Past.{HaveSide};

    ghost Value = { ℕ };

    ghost view = { λ k. k.side };

    ghost invariant = { λ k. HaveSide k.side (P.held k.past) × (k.depth ≤ length (P.held k.past).older) };
}

impl<P: Past> SidedPast<P> {
    /// A past of this one colouring.
    pub(crate) fn new(rt: &impl Abort, alloc: Global, board: &Board) -> SidedPast<P>
        ensures { result ≡ board.now.side }
    {
        let Ok(past) = P::new(alloc, board) else {
            panic!(rt; "no past")
        };
        SidedPast {
            past,
            side: board.size().side(),
            depth: 0,
        }
    }

    /// The side of the boards.
    pub(crate) fn side(&self) -> u8
        ensures { result ≡ self.now }
    {
        self.side
    }

    /// The newest colouring.
    pub(crate) fn newest(&self) -> &Board {
        self.past.newest()
    }

    /// Whether the present stretch has this colouring.
    pub(crate) fn holds(&self, board: &Board) -> bool
        requires { board.now.side ≡ self.now }
    {
        self.past.holds(board)
    }

    /// Adds a colouring to the present stretch.
    pub(crate) fn push(&mut self, rt: &impl Abort, board: &Board)
        requires { board.now.side ≡ self.old }
        ensures { self.new ≡ self.old }
    {
        let Ok(()) = self.past.push(board) else {
            panic!(rt; "no push")
        };
        self.depth = self.depth.saturating_add(1);
    }

    /// Adds a colouring that begins a stretch.
    pub(crate) fn restart(&mut self, rt: &impl Abort, board: &Board)
        requires { board.now.side ≡ self.old }
        ensures { self.new ≡ self.old }
    {
        let Ok(()) = self.past.restart(board) else {
            panic!(rt; "no restart")
        };
        self.depth = self.depth.saturating_add(1);
    }

    /// Takes back the newest colouring, if `depth` isn't 0.
    pub(crate) fn pop(&mut self)
        ensures { self.new ≡ self.old }
    {
        if self.depth > 0 {
            self.past.pop();
            self.depth -= 1;
        }
    }

    /// Plays a stone, if its point is empty, and returns whether the past has one colouring more. That one isn't counted in `depth`.
    pub(crate) fn play(&mut self, rt: &impl Abort, colour: Colour, point: Point) -> bool
        requires { IsOn self.old point }
        ensures { self.new ≡ self.old }
    {
        assert!(rt; self.past.newest().size().side() == self.side);
        if self.past.newest().at(point) != Cell::Empty {
            return false;
        }
        let Ok(added) = self.past.play(colour, point) else {
            panic!(rt; "no play")
        };
        assert!(rt; self.past.newest().size().side() == self.side);
        added
    }

    /// Colours one point of the newest colouring. What comes of it begins a stretch, and isn't counted in `depth`.
    pub(crate) fn set_up(&mut self, rt: &impl Abort, cell: Cell, point: Point)
        requires { IsOn self.old point }
        ensures { self.new ≡ self.old }
    {
        assert!(rt; self.past.newest().size().side() == self.side);
        let area = Rect {
            first: point,
            last: point,
        };
        assert!(rt; self.past.set_up(&[SetupOp { cell, area }]).is_ok());
        assert!(rt; self.past.newest().size().side() == self.side);
    }
}
