//! Going over the lines of play of a collection, sequence by sequence. A sequence is the nodes between a `(` and the next parenthesis. A
//! line is whole sequences, so a cursor goes over a game without variations in one step, however many nodes it has.

ghost use Rattle.std.specs.Prelude.{◌≡◌, ◌+◌, ◌-◌, ◌<◌, ◌≤◌, ◌++◌, None, Some, [], length, slice_get, option_map, IfOk, IfErr, IfSome, IfNone, OnOk, OnErr, MatchOption};
ghost use Rattle.std.specs.List.{flat_map, range_with_len};
ghost use Rattle.sgf_outline.specs.Tree.{node_count};
ghost use Rattle.sgf_outline.specs.declared.limit.TheConstants.{MAX_LENGTH};
ghost use Rattle.sgf_outline.specs.FileOrder.{nodes_at, IsLeaf, PlacesRise, sequence_starts, sequence_start, sequence_end, sequence_numbers};
ghost use Rattle.sgf_outline.specs.Written.{node_text};
ghost use Rattle.tree_lines.specs.Lines.{lines, place_of};
ghost use Rattle.tree_lines.specs.Cursor.{advanced, IsAfterPlace, IsSeekFault};
ghost use Rattle.tree_lines.specs.Following.{line_before, nodes_before, path_before, lines_before};
ghost use Rattle.tree_lines.specs.Sequences.{RiseTo, SharesFront, sequences_of, parts_from};
ghost use Rattle.tree_lines.specs.inner.Parts.{part_numbers, parts_of, AreParts, IsEndSearch, IsFrontUpTo, IsWayTo, MeasuresTo, IsFirstFrom};

use crate::seek::SeekFault;
use sgf_tree::{MemoryFault, NodeRef, Outline, SequenceNodes};
use std::alloc::Global;
use std::marker::Model;

/// The first sequences of a line.
#[derive(Clone, Copy)]
pub struct Front {
    /// How many sequences these are.
    pub sequences: usize,
    /// How many nodes they have.
    pub nodes: usize,
}

/// The front without any sequence.
pub const NO_FRONT: Front = Front {
    sequences: 0,
    nodes: 0,
};

/// A cursor over the lines of a collection, in file order, by their sequences. Contracts see it as the collection, the index of its
/// next line, from 0, and how many nodes the line before it has up to the end of each of its sequences.
#[derive(Drop)]
pub struct SequenceCursor<'c, 'a> {
    outline: &'c Outline<'a>,
    /// The sequence at which the search for the next leaf begins.
    next: usize,
    /// The numbers of the sequences from the root to the last leaf before the sequence `next`; none before the first line.
    path: Vec<u32>,
    /// How many nodes these sequences have.
    nodes: usize,
}

impl<'c, 'a> Model for SequenceCursor<'c, 'a> {
    ghost use Rattle.tree_lines.specs.Following.{lines_before};
    ghost use Rattle.tree_lines.specs.Sequences.{SequencesState};
    ghost use Rattle.tree_lines.specs.inner.Parts.{sequences_state_code, first_of, part_ends, parts_of, IsCursorKept};

    ghost Value = { SequencesState };

    ghost coded = { sequences_state_code };

    ghost view = { λ s. record {
      at = record { games = s.outline.now; index = lines_before s.outline.now (first_of s.outline.now s.next) };
      ends = part_ends (parts_of s.outline.now 0 s.path.items);
    } };

    ghost invariant = { λ s. IsCursorKept s.outline.now s.next s.path.items s.nodes };
}

impl<'c, 'a> SequenceCursor<'c, 'a> {
    /// A cursor before the first line of a collection, given by its outline. This takes no memory.
    pub fn new(alloc: Global, outline: &'c Outline<'a>) -> SequenceCursor<'c, 'a>
        ensures { result ≡ record { at = record { games = outline.now; index = 0 }; ends = [] } }
    {
        SequenceCursor {
            outline,
            next: 0,
            path: Vec::new(alloc),
            nodes: 0,
        }
    }

    /// Moves the cursor to just after the line with this place, wherever it was before. A line's place is the offset in bytes, from 0, of
    /// the `;` of its last node. `NoSuchLine` comes exactly if no node has this place, or if the node isn't a leaf, unless memory was
    /// refused. After a refusal the cursor is unchanged.
    #[tactic(auto, using(crate::proofs::SequenceCursors::no_such_line, crate::proofs::SequenceCursors::found))]
    pub fn seek_after(&mut self, place: u64) -> Result<(), SeekFault>
        ensures sought { OnOk result (IsAfterPlace place self.old.at self.new.at) }
        ensures why { IfErr result (IsSeekFault self.old.at.games place) }
        ensures unchanged { OnErr result (self.new ≡ self.old) }
    {
        // Places rise in file order.
        let _nodes = self.outline.nodes();
        let sequence = first_from(self.outline, place);
        if sequence < self.outline.sequences()
            && self.outline.last_place(sequence) as u64 == place
            && self.outline.ends_in_leaf(sequence)
        {
            return Ok(self.seek_end(sequence)?);
        }
        Err(SeekFault::NoSuchLine { place })
    }

    /// Moves the cursor to just after the line that ends in the node with the number `leaf`, from 0 in file order. The node must be a
    /// leaf. `MemoryFault` comes only if memory was refused; then the cursor is unchanged.
    pub fn seek_leaf(&mut self, leaf: usize) -> Result<(), MemoryFault>
        requires within { leaf < node_count self.old.at.games }
        requires is_leaf { IsLeaf self.old.at.games leaf }
        ensures sought { OnOk result (self.new.at ≡ record { games = self.old.at.games; index = lines_before self.old.at.games (leaf + 1) }) }
        ensures unchanged { OnErr result (self.new ≡ self.old) }
    {
        let sequence = self.outline.sequence_of(leaf);
        self.seek_end(sequence)
    }

    /// Moves the cursor to just after the line that ends with a sequence. After a refusal of memory the cursor is unchanged.
    #[tactic(auto, using(crate::proofs::SequenceStarts::fewer, crate::proofs::SequenceCursors::games_are))]
    fn seek_end(&mut self, sequence: usize) -> Result<(), MemoryFault>
        requires within { sequence < length (sequence_starts self.old.at.games) }
        requires is_leaf { IsLeaf self.old.at.games (sequence_end self.old.at.games sequence - 1) }
        ensures sought { OnOk result (self.new.at ≡ record { games = self.old.at.games; index = lines_before self.old.at.games (sequence_end self.old.at.games sequence) }) }
        ensures unchanged { OnErr result (self.new ≡ self.old) }
    {
        // There are no more nodes than bytes.
        let _nodes = self.outline.nodes();
        let line = measure(self.outline, sequence);
        self.path.resize(line.sequences, 0)?;
        fill_path(self.outline, sequence, line, &mut self.path);
        self.nodes = line.nodes;
        self.next = sequence + 1;
        Ok(())
    }

    /// Moves on by one line, and returns the front that this line shares with the line before it. If no line is left, it returns None, and
    /// the cursor is unchanged. `MemoryFault` comes only if memory was refused; then the cursor is unchanged, too.
    // Inlined: each form calls it once for each line. Else sgf form takes 3 percent more instructions.
    #[inline(always)]
    #[tactic(auto, using(crate::proofs::SequenceStarts::fewer, crate::proofs::SequenceCursors::no_more))]
    pub fn advance(&mut self) -> Result<Option<Front>, MemoryFault>
        ensures moved { IfOk result (λ shared. MatchOption shared (self.new ≡ self.old) (λ _. self.new.at ≡ advanced self.old.at)) }
        ensures none_left { IfOk result (λ shared. IfNone shared (slice_get (lines self.old.at.games) self.old.at.index ≡ None)) }
        ensures shared { IfOk result (λ shared. IfSome shared (SharesFront self.old self.new)) }
        ensures unchanged { OnErr result (self.new ≡ self.old) }
    {
        let Some(leaf) = next_end(self.outline, self.next) else {
            return Ok(None);
        };
        let outer = self.outline.sequence_outer(self.next);
        let front = front_up_to(self.outline, &self.path, self.nodes, outer);
        let (first, end) = (self.next, leaf + 1);
        let path = &mut self.path;
        let room = (front.sequences + (end - first)).saturating_sub(path.len());
        path.reserve(room)?;
        path.truncate(front.sequences);
        for sequence in first..end {
            path.push(sequence as u32).unwrap();
        }
        let count = self.outline.sequence_end(leaf) - self.outline.sequence_start(first);
        self.nodes = front.nodes + count;
        self.next = end;
        Ok(Some(front))
    }

    /// The number of nodes of the next line; 0 if no line is left.
    pub fn next_len(&self) -> usize
        ensures { result ≡ length (nodes_before (advanced self.now.at)) }
    {
        let Some(leaf) = next_end(self.outline, self.next) else {
            return 0;
        };
        let first = self.outline.sequence_start(self.next);
        let outer = self.outline.sequence_outer(self.next);
        let front = front_up_to(self.outline, &self.path, self.nodes, outer);
        front.nodes + (self.outline.sequence_end(leaf) - first)
    }

    /// The outline of the collection that the cursor goes over.
    pub fn outline(&self) -> &'c Outline<'a>
        ensures { result.now ≡ self.now.at.games }
    {
        self.outline
    }

    /// The number of sequences of the line before the cursor; 0 before the first line.
    #[tactic(auto, using(crate::proofs::SequenceCursors::divided, crate::proofs::SequenceCursors::as_many_parts))]
    pub fn sequences(&self) -> usize
        ensures count { result ≡ length self.now.ends }
        ensures divided { RiseTo 0 self.now.ends (length (nodes_before self.now.at)) }
        ensures some { 0 < self.now.at.index → 0 < result }
    {
        self.path.len()
    }

    /// The number of nodes of the line before the cursor; 0 before the first line. It is at most the node count of the collection.
    pub fn len(&self) -> usize
        ensures nodes { result ≡ length (nodes_before self.now.at) }
        ensures short { result ≤ node_count self.now.at.games }
        ensures small { result < usize.MAX }
    {
        // There are no more nodes than bytes.
        let _nodes = self.outline.nodes();
        self.nodes
    }

    /// The number that a sequence of the line before the cursor has in the collection. Both count from 0; the root's sequence comes first.
    #[tactic(auto, using(crate::proofs::SequenceCursors::part_there, crate::proofs::SequenceCursors::as_many_parts, crate::proofs::SequenceCursors::sequence_nodes, crate::proofs::SequenceCursors::part_path))]
    fn sequence(&self, index: usize) -> usize
        requires { index < length self.now.ends }
        ensures within { result < length (sequence_starts self.now.at.games) }
        ensures nodes { Some (nodes_at self.now.at.games (sequence_numbers self.now.at.games result)) ≡ slice_get (sequences_of self.now.ends (nodes_before self.now.at)) index }
        ensures path { Some (sequence_numbers self.now.at.games result) ≡ slice_get (parts_from 0 self.now.ends (path_before self.now.at)) index }
    {
        self.path[index] as usize
    }

    /// The number of the first node of a sequence of the line before the cursor, and the number after that of its last node. Nodes are
    /// numbered from 0 in file order. Sequences of the line are counted from 0, the root's first, and `index` must be less than their
    /// number.
    pub fn numbers(&self, index: usize) -> (usize, usize)
        requires { index < length self.now.ends }
        ensures nodes { Some (nodes_at self.now.at.games (range_with_len result.0 (result.1 - result.0))) ≡ slice_get (sequences_of self.now.ends (nodes_before self.now.at)) index }
        ensures path { Some (range_with_len result.0 (result.1 - result.0)) ≡ slice_get (parts_from 0 self.now.ends (path_before self.now.at)) index }
        ensures some { result.0 < result.1 }
        ensures within { result.1 ≤ node_count self.now.at.games }
    {
        let sequence = self.sequence(index);
        (
            self.outline.sequence_start(sequence),
            self.outline.sequence_end(sequence),
        )
    }

    /// Appends the nodes of a sequence of the line before the cursor as the sgf form writes them. Sequences are counted as in `numbers`.
    /// `MemoryFault` comes only if memory was refused; then `out` is unchanged.
    pub fn push_sequence(&self, index: usize, out: &mut Vec<u8>) -> Result<(), MemoryFault>
        requires { index < length self.now.ends }
        ensures appended { OnOk result (IfSome (slice_get (sequences_of self.now.ends (nodes_before self.now.at)) index)
            (λ nodes. out.new.items ≡ out.old.items ++ flat_map node_text nodes)) }
        ensures unchanged { OnErr result (out.new.items ≡ out.old.items) }
    {
        self.outline.push_sequence(self.sequence(index), out)
    }

    /// The nodes of a sequence of the line before the cursor, one after another. Sequences are counted as in `numbers`.
    pub fn nodes(&self, index: usize) -> SequenceNodes<'c, 'a>
        requires { index < length self.now.ends }
        ensures { Some result.nodes ≡ slice_get (sequences_of self.now.ends (nodes_before self.now.at)) index }
    {
        self.outline.sequence_nodes(self.sequence(index))
    }

    /// The root of the line before the cursor. There must be such a line.
    #[tactic(auto, using(crate::proofs::SequenceCursors::part_there, crate::proofs::SequenceCursors::root_is))]
    pub fn root(&self) -> NodeRef<'_, 'a>
        requires { 0 < length self.now.ends }
        ensures { slice_get (nodes_before self.now.at) 0 ≡ Some result }
    {
        self.outline.first_node(self.path[0] as usize)
    }

    /// The number of the game of the line before the cursor, from 1. There must be such a line.
    #[tactic(auto, using(crate::proofs::SequenceCursors::part_there, crate::proofs::SequenceCursors::game_is))]
    pub fn game(&self) -> usize
        requires { 0 < length self.now.ends }
        ensures { option_map (λ line. line.game_number) (line_before self.now.at) ≡ Some result }
    {
        self.outline.game_of(self.path[0] as usize)
    }

    /// The place of the line before the cursor: the offset in bytes, from 0, of the `;` of its last node. There must be such a line.
    #[tactic(auto, using(crate::proofs::SequenceCursors::one_before, crate::proofs::SequenceCursors::last_there, crate::proofs::SequenceCursors::place_is))]
    pub fn place(&self) -> u64
        requires { 0 < length self.now.ends }
        ensures { option_map place_of (line_before self.now.at) ≡ Some result }
    {
        self.outline.last_place(self.next - 1) as u64
    }
}

/// The first sequence from the sequence `from` on with which a line ends; None if there is none.
fn next_end(outline: &Outline<'_>, from: usize) -> Option<usize>
    ensures first { IsEndSearch outline.now from result }
    ensures small { IfSome result (λ sequence. sequence < usize.MAX) }
    ensures few { IfSome result (λ sequence. node_count outline.now ≤ MAX_LENGTH) }
{
    // There are no more nodes than bytes.
    let _nodes = outline.nodes();
    for sequence in from..outline.sequences() {
        if outline.ends_in_leaf(sequence) {
            return Some(sequence);
        }
    }
    None
}

/// The first sequences of a line of `nodes` nodes, up to and including `outer`; none if it is None. The search begins at the line's end.
fn front_up_to(outline: &Outline<'_>, path: &[u32], nodes: usize, outer: Option<usize>) -> Front
    requires parts { AreParts outline.now 0 (parts_of outline.now 0 path.now) }
    requires count { nodes ≡ length (part_numbers outline.now (parts_of outline.now 0 path.now)) }
    ensures { IsFrontUpTo (parts_of outline.now 0 path.now) outer result }
{
    let Some(outer) = outer else {
        return NO_FRONT;
    };
    let mut sequences = path.len();
    let mut nodes = nodes;
    while sequences > 0 && path[sequences - 1] as usize != outer {
        sequences -= 1;
        let passed = path[sequences] as usize;
        nodes -= outline.sequence_end(passed) - outline.sequence_start(passed);
    }
    Front { sequences, nodes }
}

/// The first sequence whose last node isn't before a place; the number of sequences, if all of them are.
fn first_from(outline: &Outline<'_>, place: u64) -> usize
    requires { PlacesRise outline.now }
    ensures { IsFirstFrom outline.now place result }
{
    let mut low = 0;
    let mut high = outline.sequences();
    while low < high {
        let middle = low + (high - low) / 2;
        if (outline.last_place(middle) as u64) < place {
            low = middle + 1;
        } else {
            high = middle;
        }
    }
    low
}

/// How many sequences and nodes stand from the root to the end of a sequence.
#[tactic(auto, using(crate::proofs::SequenceStarts::fewer, crate::proofs::SequenceClimbing::measure_begins, crate::proofs::SequenceClimbing::measure_fits))]
fn measure(outline: &Outline<'_>, last: usize) -> Front
    requires within { last < length (sequence_starts outline.now) }
    requires few { node_count outline.now ≤ MAX_LENGTH }
    ensures { MeasuresTo outline.now last result }
{
    let mut sequences = 0;
    let mut nodes = 0;
    let mut sequence = Some(last);
    while let Some(number) = sequence {
        sequences += 1;
        nodes += outline.sequence_end(number) - outline.sequence_start(number);
        sequence = outline.sequence_outer(number);
    }
    Front { sequences, nodes }
}

/// Fills `path` with the numbers of the sequences from the root to the end of a sequence. `line` is the measure of the line to there.
#[tactic(auto, using(crate::proofs::SequenceStarts::fewer, crate::proofs::SequenceClimbing::fills, crate::proofs::SequenceClimbing::room_for, crate::proofs::SequenceClimbing::fill_begins))]
fn fill_path(outline: &Outline<'_>, last: usize, line: Front, path: &mut [u32])
    requires within { last < length (sequence_starts outline.now) }
    requires few { node_count outline.now ≤ MAX_LENGTH }
    requires measured { MeasuresTo outline.now last line }
    requires room { line.sequences ≡ length path.old }
    ensures { IsWayTo outline.now last path.new line.nodes }
{
    let mut room = line.sequences;
    let mut sequence = Some(last);
    while let Some(number) = sequence {
        room -= 1;
        path[room] = number as u32;
        sequence = outline.sequence_outer(number);
    }
}
