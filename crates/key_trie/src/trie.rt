//! The trie: nodes, descents, and one item more or less.

ghost use Rattle.std.specs.Prelude.{◌≡◌, ℕ, ◌+◌, ◌-◌, ◌*◌, ◌<◌, ◌≤◌, ◌^◌, min, ◌↔◌, Bool, length, IsTrue, IfOk, MatchOption, OnOk, OnErr};
ghost use Rattle.std.specs.Vec.{vec_capacity};
ghost use Rattle.key_trie.specs.Key.{Agree};
ghost use Rattle.key_trie.specs.Trie.{nodes_of, item_count, capacity_of, child_of, IsIn, child_at, HasRoom, IsTrie, IsWayTo, Passes, IsParting, IsOpening, with_named, without_newest};

use crate::key::{Key, MAX_WIDTH};
use std::alloc::{AllocError, Global};

/// The number of items that a new trie has room for.
const FIRST_ROOM: usize = 256;

/// The most items that a trie has: each number of an item is below 2^32.
const MOST: usize = 0xffff_ffff;

/// A side of a node, for the bits that are clear or for those that are set. It names a node below, or an item.
#[derive(Clone, Copy)]
pub struct Slot {
    pub(crate) node: u32,
    pub(crate) side: bool,
}

/// Where each descent begins.
const ROOT: Slot = Slot {
    node: 0,
    side: false,
};

/// The node of an item: where the item parted from all earlier items, and what is to be found from there on.
#[derive(Clone, Copy)]
struct Node {
    /// 1 more than the position of the bit; 0 if the item parted nowhere: the first item, and one that equals an earlier item.
    depth: u16,
    /// Whether the slot that named this node, when it was added, is that of the set bits.
    up_side: bool,
    /// The node of that slot; this node's own number if no slot named it.
    up: u32,
    /// What is to be found if the bit is clear. It is the number of a node if that node is deeper, and otherwise of an item.
    off: u32,
    /// The same if the bit is set.
    on: u32,
}

/// A trie of items with keys, numbered from 0.
#[derive(Drop)]
pub struct Trie {
    nodes: Vec<Node>,
}

impl Trie {
    /// A trie of no items, with room for 256. `AllocError` comes if memory for it was refused.
    pub fn new(alloc: Global) -> Result<Trie, AllocError>
        ensures trie { IfOk result (λ trie. (width : ℕ) (keys : ℕ → ℕ → Bool) → IsTrie width keys trie) }
        ensures none { IfOk result (λ trie. item_count trie ≡ 0) }
        ensures room { IfOk result (λ trie. (256 ≤ capacity_of trie) × (capacity_of trie < 2 ^ 32)) }
    {
        Ok(Trie {
            nodes: Vec::with_capacity(alloc, FIRST_ROOM)?,
        })
    }

    /// The number of items. The next item gets this number.
    pub fn len(&self) -> usize
        ensures { result ≡ item_count self.now }
    {
        self.nodes.len()
    }

    /// The number of items that there is room for, those in the trie included.
    pub fn capacity(&self) -> usize
        ensures { result ≡ capacity_of self.now }
    {
        self.nodes.capacity()
    }

    /// Makes room for more items: for twice as many and 256 more, but for 2^32 - 1 at most. `AllocError` comes if memory for this was
    /// refused, and if there is room for the most already. Then nothing is changed.
    pub fn make_room(&mut self) -> Result<(), AllocError>
        requires { capacity_of self.old < 2 ^ 32 }
        ensures items { nodes_of self.new ≡ nodes_of self.old }
        ensures ok { OnOk result (capacity_of self.old < capacity_of self.new) }
        ensures err { OnErr result (capacity_of self.new ≡ capacity_of self.old) }
        ensures most { capacity_of self.new < 2 ^ 32 }
    {
        let Some(wanted) = more_room(self.nodes.capacity()) else {
            return Err(AllocError);
        };
        self.nodes.reserve_exact(wanted - self.nodes.len())?;
        Ok(())
    }

    /// Forgets all items. The room stays.
    pub fn clear(&mut self)
        ensures trie { (width : ℕ) (keys : ℕ → ℕ → Bool) → IsTrie width keys self.new }
        ensures none { item_count self.new ≡ 0 }
        ensures room { capacity_of self.new ≡ capacity_of self.old }
    {
        self.nodes.clear();
    }

    /// What a slot names: the number of a node, which is also that of its item.
    pub fn child(&self, slot: Slot) -> u32
        requires { IsIn self.now slot }
        ensures { result ≡ child_at self.now slot }
    {
        child(&self.nodes, slot)
    }

    /// The slot where the descent by the bits of a key ends, before the position `end`. The descent takes at most `end` steps.
    pub fn descend<K: Key>(&self, key: &K, end: u32) -> Slot
        requires trie { (width : ℕ) × (keys : ℕ → ℕ → Bool) × IsTrie width keys self.now }
        requires some { 0 < item_count self.now }
        ensures there { IsIn self.now result }
        ensures way { (width : ℕ) (keys : ℕ → ℕ → Bool) → IsTrie width keys self.now → IsWayTo keys self.now (K.bits key.now) end result }
    {
        let nodes = self.nodes.as_slice();
        let mut slot = ROOT;
        let mut depth: u32 = 0;
        let mut below = child(nodes, slot);
        let mut deeper = u32::from(nodes[below as usize].depth);
        'down: while depth < deeper && deeper <= end {
            slot = Slot {
                node: below,
                side: key.bit(deeper - 1),
            };
            depth = deeper;
            below = child(nodes, slot);
            deeper = u32::from(nodes[below as usize].depth);
        }
        slot
    }

    /// Whether the descent by the bits of a key passes at least `count` nodes before the position `end`. This takes at most `count` steps.
    pub fn passes<K: Key>(&self, key: &K, end: u32, count: u32) -> bool
        requires trie { (width : ℕ) × (keys : ℕ → ℕ → Bool) × IsTrie width keys self.now }
        requires some { 0 < item_count self.now }
        ensures { IsTrue result ↔ Passes self.now (K.bits key.now) end count }
    {
        let nodes = self.nodes.as_slice();
        let mut depth: u32 = 0;
        let mut below = child(nodes, ROOT);
        'down: for _ in 0..count {
            let deeper = u32::from(nodes[below as usize].depth);
            if deeper <= depth || deeper > end {
                return false;
            }
            let slot = Slot {
                node: below,
                side: key.bit(deeper - 1),
            };
            depth = deeper;
            below = child(nodes, slot);
        }
        true
    }

    /// The slot where an item comes in that parts at a position. Up to that position, the item has the bits of `key`; `from` is where the
    /// descent by them ends before some position behind. This takes at most one descent.
    pub fn opening<K: Key>(&self, key: &K, from: Slot, position: u32) -> Slot
        requires trie { (width : ℕ) × (keys : ℕ → ℕ → Bool) × IsTrie width keys self.now }
        requires from { IsIn self.now from }
        ensures there { IsIn self.now result }
        ensures opening { (width : ℕ) (keys : ℕ → ℕ → Bool) (bits : ℕ → Bool) (end : ℕ) → IsTrie width keys self.now
            → IsWayTo keys self.now (K.bits key.now) end from → position < end → Agree (K.bits key.now) bits (position + 1)
            → IsParting (item_count self.now) keys bits (child_at self.now from) position
            → IsOpening keys self.now bits result position }
    {
        // mostly the item parts from the others behind all positions of the descent
        if u32::from(self.nodes[from.node as usize].depth) <= position {
            return from;
        }
        self.descend(key, position)
    }

    /// Adds the first item. There must be room for it.
    pub fn insert_first(&mut self)
        requires none { item_count self.old ≡ 0 }
        requires room { 0 < capacity_of self.old }
        ensures trie { (width : ℕ) (keys : ℕ → ℕ → Bool) → IsTrie width keys self.new }
        ensures one { item_count self.new ≡ 1 }
        ensures room { capacity_of self.new ≡ capacity_of self.old }
    {
        self.nodes.push_reserved(lone_node(0));
    }

    /// Adds an item whose key equals that of an earlier one. There must be room for it.
    pub fn insert_equal(&mut self)
        requires some { 0 < item_count self.old }
        requires room { HasRoom self.old }
        ensures trie { (width : ℕ) (keys : ℕ → ℕ → Bool) (item : ℕ) → IsTrie width keys self.old → item < item_count self.old
            → Agree (keys item) (keys (item_count self.old)) width → IsTrie width keys self.new }
        ensures more { item_count self.new ≡ item_count self.old + 1 }
        ensures room { capacity_of self.new ≡ capacity_of self.old }
    {
        let number = self.nodes.len() as u32;
        self.nodes.push_reserved(lone_node(number));
    }

    /// Adds an item that parts from the others at a position. Up to that position, the item has the bits of `key`; `from` is where the
    /// descent by them ends before some position behind. There must be room for it. This takes at most one descent.
    pub fn insert_parted<K: Key>(&mut self, key: &K, from: Slot, position: u32)
        requires trie { (width : ℕ) × (keys : ℕ → ℕ → Bool) × IsTrie width keys self.old }
        requires from { IsIn self.old from }
        requires room { HasRoom self.old }
        requires within { position < MAX_WIDTH }
        ensures trie { (width : ℕ) (keys : ℕ → ℕ → Bool) (end : ℕ) → IsTrie width keys self.old → position < width
            → IsWayTo keys self.old (K.bits key.now) end from → position < end → Agree (K.bits key.now) (keys (item_count self.old)) (position + 1)
            → IsParting (item_count self.old) keys (keys (item_count self.old)) (child_at self.old from) position → IsTrie width keys self.new }
        ensures more { item_count self.new ≡ item_count self.old + 1 }
        ensures room { capacity_of self.new ≡ capacity_of self.old }
    {
        let slot = self.opening(key, from, position);
        self.insert(slot, position, key.bit(position));
    }

    /// Adds an item at a slot. It parts there from the others at a position, where it has that bit. There must be room for it.
    pub fn insert(&mut self, slot: Slot, position: u32, bit: bool)
        requires slot { IsIn self.old slot }
        requires room { HasRoom self.old }
        requires within { position < MAX_WIDTH }
        ensures trie { (width : ℕ) (keys : ℕ → ℕ → Bool) → IsTrie width keys self.old → position < width
            → IsOpening keys self.old (keys (item_count self.old)) slot position → keys (item_count self.old) position ≡ bit
            → IsTrie width keys self.new }
        ensures more { item_count self.new ≡ item_count self.old + 1 }
        ensures room { capacity_of self.new ≡ capacity_of self.old }
    {
        let number = self.nodes.len() as u32;
        let below = self.child(slot);
        name(&mut self.nodes, slot, number);
        self.nodes.push_reserved(Node {
            depth: position as u16 + 1,
            up_side: slot.side,
            up: slot.node,
            off: if bit { below } else { number },
            on: if bit { number } else { below },
        });
    }

    /// Takes the newest item back. The slot that named its node names again what it named before.
    pub fn take_back(&mut self)
        requires trie { (width : ℕ) × (keys : ℕ → ℕ → Bool) × IsTrie width keys self.old }
        requires some { 0 < item_count self.old }
        requires few { item_count self.old ≤ 2 ^ 32 }
        ensures back { nodes_of self.new ≡ without_newest (nodes_of self.old) }
        ensures trie { (width : ℕ) (keys : ℕ → ℕ → Bool) → IsTrie width keys self.old → IsTrie width keys self.new }
        ensures fewer { item_count self.old ≡ item_count self.new + 1 }
        ensures room { capacity_of self.new ≡ capacity_of self.old }
    {
        let last = self.nodes.pop().unwrap();
        let own = self.nodes.len() as u32;
        if last.up == own {
            return;
        }
        let slot = Slot {
            node: last.up,
            side: last.up_side,
        };
        let below = if last.off == own { last.on } else { last.off };
        name(&mut self.nodes, slot, below);
    }
}

/// The node of an item that parted nowhere.
fn lone_node(number: u32) -> Node
    ensures depth { result.depth ≡ 0 }
    ensures up { result.up ≡ number }
    ensures off { result.off ≡ number }
{
    Node {
        depth: 0,
        up_side: false,
        up: number,
        off: number,
        on: number,
    }
}

/// What a slot names.
fn child(nodes: &[Node], slot: Slot) -> u32
    requires { slot.node < length nodes.now }
    ensures { result ≡ child_of nodes.now slot.node slot.side }
{
    let node = nodes[slot.node as usize];
    if slot.side { node.on } else { node.off }
}

/// Lets a slot name something else.
fn name(nodes: &mut Vec<Node>, slot: Slot, child: u32)
    requires { slot.node < length nodes.old.items }
    ensures named { nodes.new.items ≡ with_named nodes.old.items slot.node slot.side child }
    ensures room { vec_capacity nodes.new ≡ vec_capacity nodes.old }
{
    let node = &mut nodes[slot.node as usize];
    if slot.side {
        node.on = child;
    } else {
        node.off = child;
    }
}

/// How many items there is to be room for next; None if there is room for the most already.
#[inline(always)]
fn more_room(room: usize) -> Option<usize>
    requires { room < 2 ^ 32 }
    ensures { MatchOption result (room + 1 ≡ 2 ^ 32) (λ wanted. (room < wanted) × (wanted ≡ min (2 ^ 32 - 1) (2 * room + 256))) }
{
    if room >= MOST {
        return None;
    }
    Some(MOST.min(2 * room + FIRST_ROOM))
}
