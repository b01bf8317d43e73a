//! The outline of a collection: its sequences in file order, numbered from 0.

#![tactic(auto, using(crate::proofs::Outlined::table_length))]

ghost use Rattle.std.specs.Prelude.{◌≡◌, ◌-◌, ◌<◌, ◌≤◌, ◌++◌, ◌↔◌, ℕ, [], Some, None, length, IsTrue, OnOk, OnErr, MatchOption};
ghost use Rattle.std.specs.List.{flat_map};
ghost use Rattle.sgf_outline.specs.declared.limit.TheConstants.{MAX_LENGTH};
ghost use Rattle.sgf_outline.specs.Tree.{game_count, node_count, Games};
ghost use Rattle.sgf_outline.specs.Written.{node_text};
ghost use Rattle.sgf_outline.specs.FileOrder.{node_at, nodes_at, place_at, parent_at, IsLeaf, game_of, PlacesRise};
ghost use Rattle.sgf_outline.specs.FileOrder.{sequence_starts, sequence_start, sequence_end, sequence_numbers};
ghost use Rattle.sgf_properties.specs.Written.{GoesOn};
ghost use Rattle.sgf_properties.specs.KeptLengths.{AreKeptLengths};
ghost use Rattle.sgf_outline.specs.inner.TreeCode.{games_code};
ghost use Rattle.sgf_outline.specs.Machine.{games_in};
ghost use Rattle.sgf_outline.specs.Outlining.{IsOutlined};

use crate::node::NodeRef;
use crate::sequences::Sequences;
use crate::traversal::SequenceNodes;
use sgf_properties::{LongValue, MemoryFault};
use std::marker::Model;

/// The sequences of the collection that a text spells (SGF FF[4], EBNF). A sequence has the nodes between a `(` and the next
/// parenthesis. It refers to the text, and doesn't copy names or values. Only `push_sequence` takes memory.
#[derive(Drop)]
pub struct Outline<'a> {
    pub(crate) text: &'a [u8],
    sequences: Sequences,
    /// The long values, in file order. So a binary search finds the one at a given offset.
    pub(crate) long: Vec<LongValue>,
}

impl<'a> Model for Outline<'a> {
    ghost Value = { Games };

    ghost coded = { games_code };

    ghost view = { λ c. games_in c.text.now };

    ghost invariant = { λ c. IsOutlined c.text.now c.sequences × AreKeptLengths c.text.now c.long.items };
}

impl<'a> Outline<'a> {
    /// The outline of the collection that the text spells. The table must hold its sequences.
    pub fn new(text: &'a [u8], sequences: Sequences, long: Vec<LongValue>) -> Outline<'a>
        requires outlined { IsOutlined text.now sequences }
        requires kept { AreKeptLengths text.now long.items }
        ensures { result ≡ games_in text.now }
    {
        Outline {
            text,
            sequences,
            long,
        }
    }

    /// The number of games. The games below others aren't counted.
    pub fn games(&self) -> usize
        ensures { result ≡ game_count self.now }
    {
        self.sequences.games as usize
    }

    /// The number of nodes of all games, at every depth. Their places rise in file order, and are less than `MAX_LENGTH`.
    pub fn nodes(&self) -> usize
        ensures count { result ≡ node_count self.now }
        ensures few { result ≤ MAX_LENGTH }
        ensures places_rise { PlacesRise self.now }
        ensures places_within { (i p : ℕ) → place_at self.now i ≡ Some p → p < MAX_LENGTH }
    {
        self.sequences.nodes as usize
    }

    /// The number of sequences. There are no more than nodes.
    pub fn sequences(&self) -> usize
        ensures count { result ≡ length (sequence_starts self.now) }
        ensures few { result ≤ node_count self.now }
    {
        self.sequences.table.len()
    }

    /// The number of the first node of sequence `i`, from 0 in file order. `i` must be less than `sequences()`, here and further down.
    pub fn sequence_start(&self, i: usize) -> usize
        requires { i < length (sequence_starts self.now) }
        ensures { result ≡ sequence_start self.now i }
    {
        self.sequences.table[i].number as usize
    }

    /// The number after that of the last node of sequence `i`. It is the number of the first node of the next sequence, or `nodes()`.
    pub fn sequence_end(&self, i: usize) -> usize
        requires { i < length (sequence_starts self.now) }
        ensures end { result ≡ sequence_end self.now i }
        ensures some { sequence_start self.now i < result }
        ensures within { result ≤ node_count self.now }
    {
        if i < self.sequences.table.len() - 1 {
            self.sequences.table[i + 1].number as usize
        } else {
            self.sequences.nodes as usize
        }
    }

    /// The number of the sequence that sequence `i` goes on from, which ends with the parent of its first node. None if `i` begins a game.
    pub fn sequence_outer(&self, i: usize) -> Option<usize>
        requires { i < length (sequence_starts self.now) }
        ensures { MatchOption result (parent_at self.now (sequence_start self.now i) ≡ Some None)
            (λ outer. (outer < i) × (parent_at self.now (sequence_start self.now i) ≡ Some (Some (sequence_end self.now outer - 1)))) }
    {
        let outer = self.sequences.table[i].outer()?;
        Some(outer as usize)
    }

    /// Whether the last node of sequence `i` is a leaf.
    pub fn ends_in_leaf(&self, i: usize) -> bool
        requires { i < length (sequence_starts self.now) }
        ensures { IsTrue result ↔ IsLeaf self.now (sequence_end self.now i - 1) }
    {
        i == self.sequences() - 1 || self.sequence_outer(i + 1) != Some(i)
    }

    /// The place of the last node of sequence `i`: the offset in bytes, from 0, of its `;` in the text.
    pub fn last_place(&self, i: usize) -> usize
        requires { i < length (sequence_starts self.now) }
        ensures { place_at self.now (sequence_end self.now i - 1) ≡ Some result }
    {
        self.sequences.table[i].last as usize
    }

    /// The number, from 1, of the game that has sequence `i`. This goes over the sequences above it.
    pub fn game_of(&self, i: usize) -> usize
        requires { i < length (sequence_starts self.now) }
        ensures { result ≡ game_of self.now (sequence_start self.now i) }
    {
        let mut at = i;
        'climb: while let Some(outer) = self.sequence_outer(at) {
            at = outer;
        }
        self.sequences.table[at].game() as usize
    }

    /// The number of the sequence that has node `number`, which must be less than `nodes()`.
    pub fn sequence_of(&self, number: usize) -> usize
        requires { number < node_count self.now }
        ensures within { result < length (sequence_starts self.now) }
        ensures start { sequence_start self.now result ≤ number }
        ensures end { number < sequence_end self.now result }
    {
        let mut low = 0;
        let mut high = self.sequences();
        'halves: while high - low > 1 {
            let middle = low + (high - low) / 2;
            if self.sequence_start(middle) <= number {
                low = middle;
            } else {
                high = middle;
            }
        }
        low
    }

    /// The first node of sequence `i`.
    pub fn first_node(&self, i: usize) -> NodeRef<'_, 'a>
        requires { i < length (sequence_starts self.now) }
        ensures { node_at self.now (sequence_start self.now i) ≡ Some result }
    {
        self.node_at(self.sequences.table[i].first)
    }

    /// The node with this place.
    pub fn node_at(&self, place: u32) -> NodeRef<'_, 'a>
        requires { (i : ℕ) × (place_at self.now i ≡ Some place) }
        ensures { (i : ℕ) → place_at self.now i ≡ Some place → node_at self.now i ≡ Some result }
    {
        NodeRef {
            place,
            text: &self.text[place as usize..],
            long: &self.long,
        }
    }

    /// The nodes of sequence `i`, one after another.
    pub fn sequence_nodes(&self, i: usize) -> SequenceNodes<'_, 'a>
        requires { i < length (sequence_starts self.now) }
        ensures { result ≡ record { properties = []; nodes = nodes_at self.now (sequence_numbers self.now i) } }
    {
        SequenceNodes {
            text: self.text,
            long: &self.long,
            at: self.sequences.table[i].first as usize,
            number: self.sequence_start(i),
            end: self.sequence_end(i),
        }
    }

    /// No nodes.
    pub fn no_nodes(&self) -> SequenceNodes<'_, 'a>
        ensures { result ≡ record { properties = []; nodes = [] } }
    {
        SequenceNodes {
            text: self.text,
            long: &self.long,
            at: self.text.len(),
            number: 0,
            end: 0,
        }
    }

    /// Appends the nodes of sequence `i` to `out` in sgf form, copied from the text in segments. If memory is refused, `out` is unchanged.
    pub fn push_sequence(&self, i: usize, out: &mut Vec<u8>) -> Result<(), MemoryFault>
        requires { i < length (sequence_starts self.now) }
        ensures appended { OnOk result (out.new.items
            ≡ out.old.items ++ flat_map node_text (nodes_at self.now (sequence_numbers self.now i))) }
        ensures unchanged { OnErr result (out.new.items ≡ out.old.items) }
    {
        let before = out.len();
        let sequence = &self.sequences.table[i];
        if sequence.is_written() {
            let written = &self.text[sequence.first as usize..sequence.end as usize];
            return Ok(out.extend_from_slice(written)?);
        }
        let mut at = sequence.end as usize;
        'segments: loop {
            let segment = &self.sequences.segments[at];
            let copied = &self.text[segment.start() as usize..segment.end as usize];
            if out.extend_from_slice(copied).is_err() {
                out.truncate(before);
                return Err(MemoryFault);
            }
            if segment.is_last() {
                return Ok(());
            }
            at += 1;
        }
    }
}
