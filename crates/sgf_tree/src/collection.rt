//! A collection that was read: its nodes in file order, numbered from 0.

ghost use Rattle.std.specs.Prelude.{◌≡◌, ◌-◌, ◌<◌, ◌↔◌, ℕ, Some, IsTrue};
ghost use Rattle.sgf_outline.specs.declared.limit.TheConstants.{MAX_LENGTH};
ghost use Rattle.sgf_outline.specs.Tree.{game_count, node_count, Games};
ghost use Rattle.sgf_outline.specs.FileOrder.{node_at, place_at, parent_at, IsLeaf, game_of, IsLastBelow, PlacesRise, ordered_nodes};
ghost use Rattle.sgf_outline.specs.inner.TreeCode.{games_code};
ghost use Rattle.sgf_tree.specs.inner.GamesRead.{lasts};
ghost use Rattle.sgf_tree.specs.inner.Placing.{ordered_places};

use sgf_outline::{NodeRef, Outline};
use std::marker::Model;

/// The collection that a text spells (SGF FF[4], EBNF). It refers to the text, and doesn't copy names or values.
#[derive(Drop)]
pub struct Collection<'a> {
    pub(crate) outline: Outline<'a>,
    /// The places of the nodes.
    pub(crate) places: Vec<u32>,
    /// For each sequence the greatest number among its nodes and the nodes below them.
    pub(crate) last_nodes: Vec<u32>,
}

impl<'a> Model for Collection<'a> {
    ghost Value = { Games };

    ghost coded = { games_code };

    ghost view = { λ c. c.outline };

    ghost invariant = { λ c. (c.places.items ≡ ordered_places (ordered_nodes c.outline)) × (c.last_nodes.items ≡ lasts 0 c.outline) };
}

impl<'a> Collection<'a> {
    /// Its outline, which knows its sequences.
    pub fn outline(&self) -> &Outline<'a>
        ensures { result.now ≡ self.now }
    {
        &self.outline
    }

    /// The number of games. The games below others aren't counted.
    pub fn games(&self) -> usize
        ensures { result ≡ game_count self.now }
    {
        self.outline.games()
    }

    /// The number of nodes of all games, at every depth. Their places rise in file order, and are less than `MAX_LENGTH`.
    pub fn nodes(&self) -> usize
        ensures count { result ≡ node_count self.now }
        ensures places_rise { PlacesRise self.now }
        ensures places_within { (i p : ℕ) → place_at self.now i ≡ Some p → p < MAX_LENGTH }
    {
        self.outline.nodes()
    }

    /// Node `i`, from 0 in file order. `i` must be less than `nodes()`, here and in the calls below.
    pub fn node(&self, i: usize) -> NodeRef<'_, 'a>
        requires { i < node_count self.now }
        ensures { node_at self.now i ≡ Some result }
    {
        self.outline.node_at(self.places[i])
    }

    /// The number of the parent of node `i`, which is the node before it on its line. None if node `i` is the root of a game.
    pub fn parent(&self, i: usize) -> Option<usize>
        requires { i < node_count self.now }
        ensures { parent_at self.now i ≡ Some result }
    {
        let sequence = self.outline.sequence_of(i);
        if self.outline.sequence_start(sequence) < i {
            return Some(i - 1);
        }
        let outer = self.outline.sequence_outer(sequence)?;
        Some(self.outline.sequence_end(outer) - 1)
    }

    /// Whether no node follows node `i` on a line.
    #[tactic(auto, using(crate::proofs::Leaves::leaf_last, crate::proofs::Leaves::last_leaf))]
    pub fn is_leaf(&self, i: usize) -> bool
        requires { i < node_count self.now }
        ensures { IsTrue result ↔ IsLeaf self.now i }
    {
        self.last_below(i) == i
    }

    /// The place of node `i`: the offset in bytes, from 0, of its `;` in the text.
    #[tactic(auto, using(crate::proofs::PlacesKept::places_count, crate::proofs::PlacesKept::place_kept))]
    pub fn place(&self, i: usize) -> usize
        requires { i < node_count self.now }
        ensures { place_at self.now i ≡ Some result }
    {
        self.places[i] as usize
    }

    /// The number, from 1, of the game that has node `i`.
    pub fn game_of(&self, i: usize) -> usize
        requires { i < node_count self.now }
        ensures { result ≡ game_of self.now i }
    {
        self.outline.game_of(self.outline.sequence_of(i))
    }

    /// The greatest number among node `i` and the nodes below it.
    pub fn last_below(&self, i: usize) -> usize
        requires { i < node_count self.now }
        ensures { IsLastBelow self.now i result }
    {
        self.last_nodes[self.outline.sequence_of(i)] as usize
    }
}
