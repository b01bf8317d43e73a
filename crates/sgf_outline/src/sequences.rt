//! The sequences of a collection in file order, in 20 bytes each. A sequence has the nodes between a `(` and the next parenthesis.

ghost use Rattle.std.specs.Prelude.{◌≡◌, ◌≤◌, ◌↔◌, ◌+◌, ◌/◌, min, ◌++◌, ◌∷◌, [], ℕ, List, None, length, IfOk, IsTrue, OnOk};
ghost use Rattle.sgf_outline.specs.OwnNodes.{nothing};
ghost use Rattle.sgf_outline.specs.Unclosed.{whole};
ghost use Rattle.sgf_outline.specs.Outlining.{outer_by, game_by, is_written_by, start_by, is_last_by, HoldsSequences};
ghost use Rattle.sgf_outline.specs.Tree.{no_games};

use crate::layout::{OwnNodes, Segment};
use crate::limit::MAX_LENGTH;
use crate::visitor::Visitor;
use sgf_properties::MemoryFault;
use std::alloc::Global;

/// The most sequences that there is room for at once. Most texts have one game and few variations, so the table seldom grows.
const ROOM_FOR_SEQUENCES: usize = 16;

/// The bytes of a short game or variation, such as `(;B[pd])`. Few have fewer.
const SEQUENCE_BYTES: usize = 8;

/// The numbers of sequences and of games are less than this. It is the flag of a sequence that begins a game of the collection.
const ROOT: u32 = 1 << 30;

/// The flag of a sequence that the sgf form copies in one piece.
const WRITTEN: u32 = 1 << 31;

/// A sequence.
#[derive(Clone, Copy)]
pub(crate) struct Sequence {
    /// The offset of its first `;`.
    pub first: u32,
    /// The offset of its last `;`.
    pub last: u32,
    /// The offset after the text of its last node, if the sgf form copies it in one piece; else the index of its first segment.
    pub end: u32,
    /// The number of its first node.
    pub number: u32,
    /// The sequence that it goes on from, by number, or the game that it begins, plus its flags. As fields, these would take 4 bytes more.
    pub outer_and_flags: u32,
}

impl Sequence {
    /// The number of the sequence that it goes on from, which ends with the parent of its first node. None if it begins a game of the
    /// collection.
    pub(crate) fn outer(&self) -> Option<u32>
        ensures { result ≡ outer_by self.now }
    {
        if self.outer_and_flags / ROOT % 2 == 1 {
            None
        } else {
            Some(self.outer_and_flags % ROOT)
        }
    }

    /// The number, from 1, of the game that it begins.
    pub(crate) fn game(&self) -> u32
        requires { outer_by self.now ≡ None }
        ensures { result ≡ game_by self.now }
    {
        self.outer_and_flags % ROOT
    }

    /// Whether the sgf form writes it as it stands in the text. False says nothing.
    pub(crate) fn is_written(&self) -> bool
        ensures { result ≡ is_written_by self.now }
    {
        self.outer_and_flags / WRITTEN == 1
    }
}

/// The flag of the last segment of a sequence. Places are less than this.
const LAST: u32 = 1 << 31;

/// A segment of a sequence that has others, in 8 bytes.
#[derive(Clone, Copy)]
pub(crate) struct KeptSegment {
    /// The offset of its first byte, plus the flag if it is the last one of its sequence.
    pub start_and_flag: u32,
    /// The offset after its last byte.
    pub end: u32,
}

impl KeptSegment {
    /// The offset of its first byte.
    pub(crate) fn start(&self) -> u32
        ensures { result ≡ start_by self.now }
    {
        self.start_and_flag % LAST
    }

    /// Whether it is the last one of its sequence.
    pub(crate) fn is_last(&self) -> bool
        ensures { result ≡ is_last_by self.now }
    {
        self.start_and_flag / LAST == 1
    }
}

/// The sequences of the games that were read.
#[derive(Drop)]
pub struct Sequences {
    pub(crate) table: Vec<Sequence>,
    /// The segments of the sequences that the sgf form doesn't copy in one piece, in file order.
    pub(crate) segments: Vec<KeptSegment>,
    /// How many of them are of sequences in the table.
    begun: u32,
    /// The number of nodes.
    pub(crate) nodes: u32,
    /// The number of games that have ended. The games below others aren't counted.
    pub(crate) games: u32,
    /// The number of the sequence that the innermost unclosed game begins with.
    pub innermost: Option<u32>,
}

impl Sequences {
    /// No sequences, with room for those of a usual game in a text of so many bytes. So those of a short text take little memory.
    pub fn with_room(alloc: Global, bytes: usize) -> Result<Sequences, MemoryFault>
        ensures { IfOk result (λ sequences. (text : List ℕ) → HoldsSequences text sequences (whole no_games) nothing) }
    {
        Ok(Sequences {
            table: Vec::with_capacity(alloc, first_room(bytes))?,
            segments: Vec::new(alloc),
            begun: 0,
            nodes: 0,
            games: 0,
            innermost: None,
        })
    }

    /// Keeps one more segment, with the flag of the last one of a sequence or none.
    fn push_segment(&mut self, segment: Segment, flag: u32) -> Result<(), MemoryFault>
        requires low { segment.end ≤ MAX_LENGTH }
        requires rises { segment.start ≤ segment.end }
        requires flag { flag ≤ LAST }
        ensures kept { OnOk result (self.new ≡ record self.old { segments = self.new.segments }) }
        ensures few { OnOk result (length self.new.segments.items ≤ MAX_LENGTH) }
        ensures pushed { OnOk result (self.new.segments.items
            ≡ self.old.segments.items ++ record { start_and_flag = segment.start + flag; end = segment.end } ∷ []) }
    {
        if are_most(self.segments.len()) {
            return Err(MemoryFault);
        }
        self.segments.push(KeptSegment {
            start_and_flag: segment.start as u32 + flag,
            end: segment.end as u32,
        })?;
        Ok(())
    }
}

impl Visitor for Sequences {
    ghost keeps = { λ text sequences stack coming. HoldsSequences text sequences stack coming };

    fn node(&mut self, _place: usize) -> Result<(), MemoryFault> {
        Ok(())
    }

    fn segment(&mut self, segment: Segment) -> Result<(), MemoryFault> {
        self.push_segment(segment, 0)?;
        Ok(())
    }

    fn own_nodes(&mut self, own: OwnNodes) -> Result<(), MemoryFault> {
        let number = self.table.len() as u32;
        let outer = match self.innermost {
            Some(outer) => outer,
            None => self.games + 1 + ROOT,
        };
        // If the nodes are one segment, the sgf form writes them as they stand in the text.
        let (end, written) = if own.segment.start == own.first {
            (own.segment.end as u32, WRITTEN)
        } else {
            self.push_segment(own.segment, LAST)?;
            (self.begun, 0)
        };
        self.table.push(Sequence {
            first: own.first as u32,
            last: own.last as u32,
            end,
            number: self.nodes,
            outer_and_flags: outer + written,
        })?;
        self.begun = self.segments.len() as u32;
        self.nodes += own.count as u32;
        self.innermost = Some(number);
        Ok(())
    }

    fn game_ends(&mut self, depth: usize) {
        if let Some(innermost) = self.innermost {
            self.innermost = self.table[innermost as usize].outer();
        }
        self.games += u32::from(depth == 0);
    }
}

/// How many sequences of a text of so many bytes there is room for at first.
fn first_room(bytes: usize) -> usize
    ensures { result ≡ min 16 (bytes / 8 + 1) }
{
    ROOM_FOR_SEQUENCES.min(bytes / SEQUENCE_BYTES + 1)
}

/// Whether so many segments are the most that are kept. No text has more: a segment has at least one byte.
#[inline(always)]
fn are_most(segments: usize) -> bool
    ensures { IsTrue result ↔ MAX_LENGTH ≤ segments }
{
    segments >= MAX_LENGTH
}
