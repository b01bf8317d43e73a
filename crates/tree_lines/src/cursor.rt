//! Going over the lines of play of a collection.

ghost use Rattle.std.specs.Prelude.{◌≡◌, ◌-◌, ◌<◌, ◌≤◌, length, take, vec_capacity, IfOk, IfErr, OnOk, OnErr};
ghost use Rattle.tree_lines.specs.Cursor.{IsLine};
ghost use Rattle.tree_lines.specs.Following.{nodes_before, path_before};
ghost use Rattle.tree_lines.specs.Sequences.{nodes_in};

use crate::line::LineRef;
use crate::seek::SeekFault;
use crate::sequence_cursor::{Front, NO_FRONT, SequenceCursor};
use sgf_tree::{MemoryFault, Outline};
use std::alloc::Global;
use std::marker::Model;

/// A cursor over the lines of a collection, in file order: the lines of an earlier game or variation come first.
/// Contracts see it as the collection and the index of its next line, from 0.
#[derive(Drop)]
pub struct Cursor<'c, 'a> {
    sequences: SequenceCursor<'c, 'a>,
    /// The numbers of the nodes of the line before the cursor, the root's first; none before the first line.
    path: Vec<usize>,
}

impl<'c, 'a> Model for Cursor<'c, 'a> {
    ghost use Rattle.std.specs.Prelude.{◌≡◌};
    ghost use Rattle.tree_lines.specs.Cursor.{CursorState};
    ghost use Rattle.tree_lines.specs.Following.{path_before};
    ghost use Rattle.tree_lines.specs.inner.Standing.{cursor_state_code};

    ghost Value = { CursorState };

    ghost coded = { cursor_state_code };

    ghost view = { λ s. s.sequences.at };

    ghost invariant = { λ s. s.path.items ≡ path_before s.sequences.at };
}

impl<'c, 'a> Cursor<'c, 'a> {
    ghost use Rattle.std.specs.Borrow.{sem};
    ghost use Rattle.tree_lines.specs.Cursor.{GivesLine, LeavesCursor, IsAfterPlace, IsSeekFault};
    ghost use Rattle.tree_lines.specs.Lending.{OnceReturned};

    /// A cursor before the first line. (A `Collection` lends its outline.) This takes no memory.
    pub fn new(alloc: Global, outline: &'c Outline<'a>) -> Cursor<'c, 'a>
        ensures { result ≡ record { games = outline.now; index = 0 } }
    {
        Cursor {
            sequences: SequenceCursor::new(alloc, outline),
            path: Vec::new(alloc),
        }
    }

    /// Moves on by one line, and returns that line. After the last line it returns None, however often it is called.
    /// `MemoryFault` comes only if memory was refused; then the cursor is unchanged.
    pub fn next<'l>(&'l mut self) -> Result<Option<LineRef<'l>>, MemoryFault>
        ensures* goes_on { sem 𝓛 (OnceReturned self.entry (LeavesCursor self.entry.now result)) }
        ensures line { IfOk result (GivesLine self.old) }
    {
        let room = self.sequences.next_len().saturating_sub(self.path.len());
        self.path.reserve(room)?;
        let Some(shared) = self.sequences.advance()? else {
            return Ok(None);
        };
        write_path(&self.sequences, shared, &mut self.path);
        Ok(Some(line_with(&self.sequences, &self.path)))
    }

    /// Moves the cursor to just after the line with this place, wherever it was before. A line's place is the offset in bytes, from 0, of
    /// the `;` of its last node. `NoSuchLine` comes exactly if no line has that place, unless memory was refused. After a refusal the
    /// cursor is unchanged.
    pub fn seek_after(&mut self, place: u64) -> Result<(), SeekFault>
        ensures sought { OnOk result (IsAfterPlace place self.old self.new) }
        ensures why { IfErr result (IsSeekFault self.old.games place) }
        ensures unchanged { OnErr result (self.new ≡ self.old) }
    {
        let alloc = *self.path.allocator();
        let mut sequences = SequenceCursor::new(alloc, self.sequences.outline());
        sequences.seek_after(place)?;
        self.path.reserve(sequences.len())?;
        write_path(&sequences, NO_FRONT, &mut self.path);
        self.sequences = sequences;
        Ok(())
    }

    /// The cursor by sequences that stands at the same line, and the numbers of the nodes of the line before it, from 0 in file order, the
    /// root's first; none before the first line. This takes no memory.
    pub fn into_parts(self) -> (SequenceCursor<'c, 'a>, Vec<usize>)
        ensures at { result.0.at ≡ self.entry }
        ensures path { result.1.items ≡ path_before self.entry }
    {
        (self.sequences, self.path)
    }
}

/// The line before a cursor. There must be such a line, and `path` must list the numbers of its nodes, from 0 in file order, the root's
/// first.
pub fn line_with<'l>(sequences: &SequenceCursor<'_, '_>, path: &'l [usize]) -> LineRef<'l>
    requires some { 0 < sequences.now.at.index }
    requires path { path.now ≡ path_before sequences.now.at }
    ensures { IsLine sequences.now.at.games (sequences.now.at.index - 1) result }
{
    // The line has a sequence, and a sequence has a node.
    let _sequences = sequences.sequences();
    let (game, place) = (sequences.game(), sequences.place());
    LineRef { path, game, place }
}

/// Makes `path` the numbers of the nodes of the line before a cursor, from 0 in file order, the root's first; none before the first line.
/// It must begin with the nodes of `front`, the first sequences of that line: it is cut back to these, and the nodes after them are
/// appended. It must have room for all nodes of the line (`SequenceCursor::len`). So this takes no memory.
pub fn write_path(sequences: &SequenceCursor<'_, '_>, front: Front, path: &mut Vec<usize>)
    requires within { front.sequences ≤ length sequences.now.ends }
    requires count { front.nodes ≡ nodes_in sequences.now.ends front.sequences }
    requires held { take front.nodes path.old.items ≡ take front.nodes (path_before sequences.now.at) }
    requires room { length (nodes_before sequences.now.at) ≤ vec_capacity path.old }
    ensures { path.new.items ≡ path_before sequences.now.at }
{
    path.truncate(front.nodes);
    let count = sequences.sequences();
    for index in front.sequences..count {
        let (first, end) = sequences.numbers(index);
        for number in first..end {
            path.push(number).unwrap();
        }
    }
}
