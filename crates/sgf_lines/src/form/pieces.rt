//! A text in pieces. It is kept because the next line shares some of the pieces.

ghost use Rattle.std.specs.Prelude.{◌≡◌, ◌<◌, ◌≤◌, ◌++◌, [], length, slice_get, IfSome, OnOk, OnErr};
ghost use Rattle.std.specs.List.{concat, flat_map};
ghost use Rattle.sgf_lines.specs.Record.{node_text};
ghost use Rattle.sgf_lines.specs.inner.Scripting.{IsPlayable, step_script};
ghost use Rattle.sgf_lines.specs.inner.Recording.{sequences_before};
ghost use Rattle.sgf_lines.specs.inner.Pieces.{no_pieces, pushed, closed, cut};

use crate::form::commands::push_step;
use go_board::{Board, MAX_VERTEX_SIDE};
use judged_lines::LegalStep;
use sgf_tree::MemoryFault;
use std::alloc::Global;
use std::marker::Model;
use tree_lines::SequenceCursor;

/// The number of bytes that there is room for at once.
const FIRST_BYTES: usize = 4_096;

/// The number of pieces that there is room for at once.
const FIRST_PIECES: usize = 256;

/// A text of pieces, one after the other, and an unfinished piece after them. It can be cut back to any number of its first pieces.
#[derive(Drop)]
pub(crate) struct Pieces {
    text: Vec<u8>,

    /// The offset at which each piece ends.
    ends: Vec<usize>,
}

impl Model for Pieces {
    ghost use Rattle.sgf_lines.specs.inner.Pieces.{PiecesState, pieces_from, rest_from, AreEnds};

    ghost Value = { PiecesState };

    ghost view = { λ s. record { pieces = pieces_from 0 s.ends.items s.text.items; begun = rest_from 0 s.ends.items s.text.items } };

    ghost invariant = { λ s. AreEnds s.ends.items s.text.items };
}

impl Pieces {
    /// A text without finished pieces. The unfinished piece is empty.
    pub(crate) fn new(alloc: Global) -> Pieces
        ensures { result ≡ no_pieces }
    {
        Pieces {
            text: Vec::new(alloc),
            ends: Vec::new(alloc),
        }
    }

    /// Makes room for the text of a usual game at once: otherwise it would be moved again and again while it grows.
    pub(crate) fn make_room(&mut self) -> Result<(), MemoryFault>
        ensures { self.new ≡ self.old }
    {
        self.text.reserve(FIRST_BYTES)?;
        self.ends.reserve(FIRST_PIECES)?;
        Ok(())
    }

    /// The number of pieces.
    pub(crate) fn count(&self) -> usize
        ensures { result ≡ length self.now.pieces }
    {
        self.ends.len()
    }

    /// Appends to the unfinished piece a sequence of the line before a cursor, as the sgf form writes it, and finishes the piece.
    pub(crate) fn push_sequence(
        &mut self,
        cursor: &SequenceCursor<'_, '_>,
        index: usize,
    ) -> Result<(), MemoryFault>
        requires { index < length cursor.now.ends }
        ensures { OnOk result (IfSome (slice_get (sequences_before cursor.now) index)
            (λ nodes. self.new ≡ closed (pushed self.old (flat_map node_text nodes)))) }
    {
        cursor.push_sequence(index, &mut self.text)?;
        self.close()
    }

    /// Appends to the unfinished piece.
    pub(crate) fn push(&mut self, bytes: &[u8]) -> Result<(), MemoryFault>
        ensures pushed { OnOk result (self.new ≡ pushed self.old bytes.now) }
        ensures unchanged { OnErr result (self.new ≡ self.old) }
    {
        self.text.extend_from_slice(bytes)?;
        Ok(())
    }

    /// Appends to the unfinished piece what a legal step adds to a script. `grid` is the board after it. Refused memory leaves no pieces.
    pub(crate) fn push_step(&mut self, step: LegalStep<'_>, grid: &Board) -> Result<(), MemoryFault>
        requires letters { grid.now.side ≤ MAX_VERTEX_SIDE }
        requires playable { IsPlayable grid.now.side step.effect }
        ensures pushed { OnOk result (self.new ≡ pushed self.old (step_script grid.now step.entry)) }
        ensures refused { OnErr result (self.new.pieces ≡ []) }
    {
        match push_step(step, grid, &mut self.text) {
            Ok(()) => Ok(()),
            Err(fault) => {
                self.ends.clear();
                Err(fault)
            }
        }
    }

    /// Finishes the unfinished piece, and begins an empty one.
    pub(crate) fn close(&mut self) -> Result<(), MemoryFault>
        ensures closed { OnOk result (self.new ≡ closed self.old) }
        ensures unchanged { OnErr result (self.new ≡ self.old) }
    {
        self.ends.push(self.text.len())?;
        Ok(())
    }

    /// Goes back to the first `count` pieces, or to all if there are fewer. The unfinished piece is empty then.
    pub(crate) fn cut_back(&mut self, count: usize)
        ensures { self.new ≡ cut count self.old }
    {
        self.ends.truncate(count);
        let end = self.ends.last().copied().unwrap_or(0);
        self.text.truncate(end);
    }

    /// The whole text.
    pub(crate) fn text(&self) -> &[u8]
        ensures { result.now ≡ concat self.now.pieces ++ self.now.begun }
    {
        &self.text
    }
}
