//! The points that were emptied since the game began, as far as the present colourings go. A stone that stays can bring a colouring back
//! only on one of these points. Taking a colouring back takes out the points that its step emptied first.

ghost use Rattle.std.specs.Prelude.{◌≡◌, ◌+◌, ◌≤◌, ◌||◌, List, [], ◌∷◌, length, IsFalse, OnOk};
ghost use Rattle.std.specs.Vec.{vec_capacity};
ghost use Rattle.board_points.specs.declared.points.Point.{Point};
ghost use Rattle.board_past.specs.Past.{Held};
ghost use Rattle.board_past.specs.inner.Emptied.{HasEmptied, IsEmptied};
ghost use Rattle.board_points.specs.Rows.{is_set};

use crate::fault::MemoryFault;
use board_points::MAX_ROWS;
use board_points::rows::no_rows;
use std::alloc::Global;

/// A row of the set as it was before a step.
#[derive(Clone, Copy)]
pub(crate) struct OldRow {
    pub word: u64,
    /// The number of the colouring that the step added.
    pub number: u32,
    pub row: u8,
}

/// A set that has every point that was emptied in the present stretch, or in an earlier one, and perhaps others.
#[derive(Drop)]
pub(crate) struct Emptied {
    /// A word for each row, with a bit for each column.
    pub rows: [u64; MAX_ROWS],
    /// The rows as they were before they got points, oldest first. A point is added once, so there are no more of these than points.
    log: Vec<OldRow>,
}

impl Emptied {
    /// The set of one colouring: no points.
    pub(crate) fn new(alloc: Global) -> Emptied
        ensures { (first : Held) → IsEmptied (first ∷ []) result }
    {
        Emptied {
            rows: no_rows(),
            log: Vec::new(alloc),
        }
    }

    /// Takes all points out.
    pub(crate) fn clear(&mut self)
        ensures { (first : Held) → IsEmptied (first ∷ []) self.new }
    {
        self.rows = no_rows();
        self.log.clear();
    }

    /// Makes room for the points of that many rows.
    pub(crate) fn reserve(&mut self, rows: usize) -> Result<(), MemoryFault>
        ensures emptied { (held : List Held) → IsEmptied held self.old → IsEmptied held self.new }
        ensures ok { OnOk result (length self.new.log.items + rows ≤ vec_capacity self.new.log) }
    {
        Ok(self.log.reserve(rows)?)
    }

    /// Adds points that the step to the colouring with this number empties.
    pub(crate) fn add(&mut self, points: &[u64], number: u32)
        requires emptied { (held : List Held) × IsEmptied held self.old }
        requires few { length points.now ≤ MAX_ROWS }
        requires room { length self.old.log.items + length points.now ≤ vec_capacity self.old.log }
        ensures both { (p : Point) → is_set self.new.rows p ≡ (is_set self.old.rows p || is_set points.now p) }
        ensures emptied { (next newest : Held) (older : List Held) → IsEmptied (newest ∷ older) self.old → number ≡ length (newest ∷ older)
            → (IsFalse next.begins → HasEmptied (is_set points.now) newest.colouring next.colouring)
            → IsEmptied (next ∷ newest ∷ older) self.new }
    {
        'each: for row in 0..points.len() {
            let old = self.rows[row];
            let word = old | points[row];
            if word != old {
                self.log.push_reserved(OldRow {
                    word: old,
                    number,
                    row: row as u8,
                });
                self.rows[row] = word;
            }
        }
    }

    /// Takes out the points that the step to the colouring with this number emptied first.
    pub(crate) fn go_back(&mut self, number: u32)
        requires { (held : List Held) × IsEmptied held self.old }
        ensures { (newest : Held) (older : List Held) → IsEmptied (newest ∷ older) self.old → number ≡ length older
            → IsEmptied older self.new }
    {
        'each: while !self.log.is_empty() && self.log[self.log.len() - 1].number >= number {
            let last = self.log.pop().unwrap();
            self.rows[usize::from(last.row)] = last.word;
        }
    }
}
