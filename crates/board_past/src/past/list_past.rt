//! The plain past: all colourings in one vector. Positional superko compares with each of them.

ghost use Rattle.std.specs.Prelude.{◌↔◌, IsTrue, Contains, reverse, ◌≡◌, OnOk, OnErr};
ghost use Rattle.board_past.specs.Past.{stretch_of, Held, PastColourings, with_next};

use crate::fault::MemoryFault;
use crate::past::Past;
use board_stones::Board;
use std::alloc::Global;
use std::marker::Model;

/// A past that keeps each colouring whole, and compares colourings one by one.
#[derive(Drop)]
pub struct ListPast {
    newest: Kept,
    /// The colourings before the newest, oldest first.
    older: Vec<Kept>,
}

/// A colouring, and whether it begins a stretch.
#[derive(Drop)]
struct Kept {
    board: Board,
    begins: bool,
}

impl Model for Kept {
    ghost Value = { Held };

    ghost view = { λ k. record { colouring = k.board; begins = k.begins } };
}

impl Model for ListPast {
    ghost Value = { PastColourings };

    ghost view = { λ p. record { newest = p.newest; older = reverse p.older.items } };
}

impl Past for ListPast {
    ghost held = { λ past. past };

    fn new(alloc: Global, board: &Board) -> Result<ListPast, MemoryFault> {
        Ok(ListPast {
            newest: Kept {
                board: board.copy(),
                begins: true,
            },
            older: Vec::new(alloc),
        })
    }

    // The newest counts, too: so suicide of one stone is a repetition.
    fn holds(&self, board: &Board) -> bool {
        self.newest.board.same(board) || !self.newest.begins && stretch_has(&self.older, board)
    }

    fn newest(&self) -> &Board {
        &self.newest.board
    }

    fn push(&mut self, board: &Board) -> Result<(), MemoryFault> {
        self.add(board, false)
    }

    fn restart(&mut self, board: &Board) -> Result<(), MemoryFault> {
        self.add(board, true)
    }

    fn pop(&mut self) {
        self.newest = self.older.pop().unwrap();
    }
}

impl ListPast {
    /// Adds a colouring, which begins a stretch or continues the present one.
    fn add(&mut self, board: &Board, begins: bool) -> Result<(), MemoryFault>
        ensures ok { OnOk result (self.new ≡ with_next self.old board.now begins) }
        ensures err { OnErr result (self.new ≡ self.old) }
    {
        self.older.push(Kept {
            board: self.newest.board.copy(),
            begins: self.newest.begins,
        })?;
        self.newest = Kept {
            board: board.copy(),
            begins,
        };
        Ok(())
    }
}

/// Whether this board's colouring is in the newest stretch of these colourings, which are listed oldest first. A setup of stones begins a
/// stretch, so the colourings before it don't count (positional superko).
fn stretch_has(older: &[Kept], board: &Board) -> bool
    ensures { IsTrue result ↔ Contains (stretch_of (reverse older.now)) board.now }
{
    for i in (0..older.len()).rev() {
        let kept = &older[i];
        if kept.board.same(board) {
            return true;
        }
        if kept.begins {
            return false;
        }
    }
    false
}
