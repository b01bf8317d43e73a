//! The nodes of a collection by number: besides its sequences, the place of each node in 4 bytes, and the last node below each sequence.

ghost use Rattle.std.specs.Prelude.{◌≡◌, ◌+◌, ◌/◌, min, ℕ, List, IfOk, vec_capacity};
ghost use Rattle.sgf_outline.specs.OwnNodes.{nothing};
ghost use Rattle.sgf_outline.specs.Tree.{no_games};
ghost use Rattle.sgf_outline.specs.Unclosed.{whole};
ghost use Rattle.sgf_tree.specs.inner.Placing.{HoldsNodes};

use sgf_outline::{OwnNodes, Segment, Sequences, Visitor};
use sgf_properties::MemoryFault;
use std::alloc::Global;

/// The most nodes that there is room for at once. Most games have fewer. Without room, nodes would be moved each time their vector grows.
const ROOM_FOR_NODES: usize = 128;

/// The bytes of a short node, such as `;B[pd]`. Few nodes have fewer.
const NODE_BYTES: usize = 6;

/// The nodes of the games that were read, numbered from 0.
#[derive(Drop)]
pub(crate) struct Numbered {
    pub sequences: Sequences,
    /// The places of the nodes, in file order.
    pub places: Vec<u32>,
    /// For each sequence the greatest number among its nodes and the nodes below them; 0 as long as its game is unclosed.
    pub last_nodes: Vec<u32>,
}

impl Numbered {
    /// No nodes, with room for those of a usual game in a text of so many bytes. So those of a short text take little memory.
    pub(crate) fn with_room(alloc: Global, bytes: usize) -> Result<Numbered, MemoryFault>
        ensures none { IfOk result (λ nodes. (text : List ℕ) → HoldsNodes text nodes (whole no_games) nothing) }
        ensures room { IfOk result (λ nodes. vec_capacity nodes.places ≡ min 128 (bytes / 6 + 1)) }
    {
        let room = ROOM_FOR_NODES.min(bytes / NODE_BYTES + 1);
        Ok(Numbered {
            sequences: Sequences::with_room(alloc, bytes)?,
            places: Vec::with_capacity(alloc, room)?,
            last_nodes: Vec::new(alloc),
        })
    }
}

impl Visitor for Numbered {
    ghost keeps = { λ text nodes stack coming. HoldsNodes text nodes stack coming };

    fn node(&mut self, place: usize) -> Result<(), MemoryFault> {
        self.places.push(place as u32)?;
        Ok(())
    }

    fn segment(&mut self, segment: Segment) -> Result<(), MemoryFault> {
        self.sequences.segment(segment)
    }

    fn own_nodes(&mut self, own: OwnNodes) -> Result<(), MemoryFault> {
        self.last_nodes.push(0)?;
        self.sequences.own_nodes(own)
    }

    fn game_ends(&mut self, depth: usize) {
        if let Some(innermost) = self.sequences.innermost {
            self.last_nodes[innermost as usize] = (self.places.len() - 1) as u32;
        }
        self.sequences.game_ends(depth);
    }
}
