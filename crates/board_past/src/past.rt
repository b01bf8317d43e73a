//! The colourings that a game has been through, which positional superko forbids to repeat.
//!
//! | Module | What it has |
//! |---|---|
//! | `print_past` | the past of every run, `PrintPast`. Its head tells how a repetition is found |
//! | `list_past` | the plainest past, `ListPast`: it keeps all colourings as they are, and compares them one by one. The tests hold both side by side |

mod list_past;
mod print_past;

ghost use Rattle.std.specs.Prelude.{◌≡◌, ◌<◌, ◌↔◌, ◌∷◌, true, false, All, fold, length, IsTrue, IsFalse, IfOk, OnOk, OnErr, Contains};
ghost use Rattle.board_stones.specs.declared.stones.Cell.TheVariants.{Empty};
ghost use Rattle.board_points.specs.Point.{IsOn, IsRectOn};
ghost use Rattle.board_stones.specs.Grid.{cell_at};
ghost use Rattle.board_stones.specs.Clearing.{play};
ghost use Rattle.board_stones.specs.Rectangle.{with_rectangle};
ghost use Rattle.board_past.specs.Past.{PastColourings, newest_grid, only, with_next, present_stretch, HaveSide, IsPlayed};

use crate::fault::MemoryFault;
use board_points::Point;
use board_stones::{Board, Colour, SetupOp};
pub use list_past::ListPast;
pub use print_past::PrintPast;
use std::alloc::Global;

/// The colourings that a game has been through, at least one. Some of them begin a stretch. The present stretch is the newest of these, and
/// all colourings after it. The boards given to `holds`, `push` and `restart` must have the size of these colourings. A call that fails
/// with `MemoryFault` leaves the past unchanged.
pub trait Past: Drop {
    /// The colourings, as contracts see them.
    ghost held: { Self → PastColourings };

    /// A past of this one colouring, which begins a stretch.
    fn new(alloc: Global, board: &Board) -> Result<Self, MemoryFault>
        ensures { IfOk result (λ past. held past ≡ only board.now) };

    /// Forgets all colourings, and then holds that of `board` alone, which begins a stretch. The board may
    /// have another size than before. A past that can do this in place takes less time than a new one.
    fn reset(&mut self, alloc: Global, board: &Board) -> Result<(), MemoryFault>
        ensures ok { OnOk result (held self.new ≡ only board.now) }
        ensures err { OnErr result (held self.new ≡ held self.old) }
    {
        *self = Self::new(alloc, board)?;
        Ok(())
    }

    /// Whether the present stretch has this colouring.
    fn holds(&self, board: &Board) -> bool
        requires { HaveSide board.now.side (held self.now) }
        ensures { IsTrue result ↔ Contains (present_stretch (held self.now)) board.now };

    /// The newest colouring.
    fn newest(&self) -> &Board
        ensures { result.now ≡ newest_grid (held self.now) };

    /// Adds a colouring to the present stretch.
    fn push(&mut self, board: &Board) -> Result<(), MemoryFault>
        requires { HaveSide board.now.side (held self.old) }
        ensures ok { OnOk result (held self.new ≡ with_next (held self.old) board.now false) }
        ensures err { OnErr result (held self.new ≡ held self.old) };

    /// Adds a colouring that begins a stretch.
    fn restart(&mut self, board: &Board) -> Result<(), MemoryFault>
        requires { HaveSide board.now.side (held self.old) }
        ensures ok { OnOk result (held self.new ≡ with_next (held self.old) board.now true) }
        ensures err { OnErr result (held self.new ≡ held self.old) };

    /// Plays a stone on an empty point of the newest colouring, with its captures or its suicide (Tromp-Taylor). Adds the colouring that
    /// this makes to the present stretch, unless the stretch has it already (positional superko). Returns whether it was added. This fails
    /// with `MemoryFault` only if the stretch doesn't have the colouring. This body is the plain way; `PrintPast` has its own.
    fn play(&mut self, colour: Colour, point: Point) -> Result<bool, MemoryFault>
        requires one_side { HaveSide (newest_grid (held self.old)).side (held self.old) }
        requires on_board { IsOn (newest_grid (held self.old)).side point }
        requires empty { cell_at (newest_grid (held self.old)) point ≡ Empty }
        ensures { IsPlayed colour point (held self.old) (held self.new) result }
    {
        let mut made = self.newest().copy();
        made.place(colour, point);
        if self.holds(&made) {
            return Ok(false);
        }
        self.push(&made)?;
        Ok(true)
    }

    /// Plays a stone as `play` does, if a short look shows that it clears nothing and that the colouring is new, and if no memory is
    /// needed. Returns whether it was played. False says nothing, and then nothing is changed. A past without this shortcut answers false.
    fn play_at_once(&mut self, colour: Colour, point: Point) -> bool
        requires one_side { HaveSide (newest_grid (held self.old)).side (held self.old) }
        requires on_board { IsOn (newest_grid (held self.old)).side point }
        requires empty { cell_at (newest_grid (held self.old)) point ≡ Empty }
        ensures played { IsTrue result → held self.new
            ≡ with_next (held self.old) (play (newest_grid (held self.old)) colour point) false }
        ensures new { IsTrue result → ¬ Contains (present_stretch (held self.old)) (play (newest_grid (held self.old)) colour point) }
        ensures unchanged { IsFalse result → held self.new ≡ held self.old }
    {
        let _ = (colour, point);
        false
    }

    /// Colours rectangles of the newest colouring, in order, whatever stood there. Adds the result, which begins a stretch.
    fn set_up(&mut self, ops: &[SetupOp]) -> Result<(), MemoryFault>
        requires one_side { HaveSide (newest_grid (held self.old)).side (held self.old) }
        requires areas { All (λ op. IsRectOn (newest_grid (held self.old)).side op.area) ops.now }
        ensures ok { OnOk result (held self.new
            ≡ with_next (held self.old) (fold with_rectangle (newest_grid (held self.old)) ops.now) true) }
        ensures err { OnErr result (held self.new ≡ held self.old) }
    {
        let mut made = self.newest().copy();
        made.colour_rectangles(ops);
        self.restart(&made)
    }

    /// Takes back the newest colouring. There must be at least two.
    fn pop(&mut self)
        requires { 0 < length (held self.old).older }
        ensures { (held self.old).older ≡ (held self.new).newest ∷ (held self.new).older };
}
