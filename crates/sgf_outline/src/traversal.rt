//! Going over the nodes of a sequence, and over the properties of those that aren't recognized at a glance. No place of a node is kept: the
//! next node is where the properties of the node before it end.

ghost use Rattle.std.specs.Prelude.{◌≡◌, ◌==◌, ◌<◌, ◌∷◌, [], ℕ, List, length, MatchOption, drop};
ghost use Rattle.sgf_outline.specs.Tree.{Node};
ghost use Rattle.sgf_outline.specs.Traversal.{IsTakenOff};
ghost use Rattle.sgf_outline.specs.NodesLeft.{NodesLeft};
ghost use Rattle.sgf_outline.specs.inner.TreeCode.{nodes_left_code};
ghost use Rattle.sgf_outline.specs.Machine.{games_in};
ghost use Rattle.sgf_properties.specs.Front.{properties_in};
ghost use Rattle.sgf_properties.specs.KeptLengths.{AreKeptLengths};
ghost use Rattle.sgf_outline.specs.inner.Traversing.{nodes_between, IsTraversal};

use crate::quick::lead::{is_empty_node, is_lone_front, led_end};
use sgf_properties::{LongValue, PropRef, capital_at, property_at, skip_white_space};
use std::marker::Model;

/// A node that `SequenceNodes::next` took off.
#[derive(Clone, Copy)]
pub enum NextNode<'a> {
    /// It is recognized at a glance. Its first property has this letter as its name, and this raw value and no other one. Each property
    /// after it has a name of two letters that isn't among the caller's names. None of its properties are left.
    Led {
        /// The offset in bytes, from 0, of its `;`. So are the places below.
        place: usize,
        letter: u8,
        /// Two bytes.
        value: &'a [u8],
    },
    /// It has no properties, and the next node or a parenthesis follows at once.
    Empty {
        place: usize,
    },
    /// Any node. If its first property is recognized at a glance, `front` is the letter that is its name, and its only raw value. The other
    /// properties, or all of them, are left.
    Unread {
        place: usize,
        front: Option<(u8, &'a [u8])>,
    },
}

/// What is left of a sequence: the properties of the node that `next` took off last, as far as `next_property` hasn't taken them off yet,
/// and the nodes after it, in file order. Its calls take no memory.
#[derive(Drop)]
pub struct SequenceNodes<'c, 'a> {
    pub(crate) text: &'a [u8],
    pub(crate) long: &'c Vec<LongValue>,
    /// Where the properties begin that are left; if none is left, where the next node is. No white space is there.
    pub(crate) at: usize,
    /// The number of the next node.
    pub(crate) number: usize,
    /// The number after that of the sequence's last node.
    pub(crate) end: usize,
}

impl<'c, 'a> Model for SequenceNodes<'c, 'a> {
    ghost Value = { NodesLeft };

    ghost coded = { nodes_left_code };

    ghost view = { λ w. record {
      properties = properties_in (drop w.at w.text.now);
      nodes = nodes_between (games_in w.text.now) w.number w.end;
    } };

    ghost invariant = { λ w. IsTraversal w.text.now w.at w.number w.end × AreKeptLengths w.text.now w.long.now.items };
}

impl<'c, 'a> SequenceNodes<'c, 'a> {
    /// Whether no node is left.
    #[inline(always)]
    #[tactic(auto, using(crate::proofs::Traversing::between_some, crate::proofs::Traversing::between_none))]
    pub fn is_empty(&self) -> bool
        ensures { result ≡ (length self.now.nodes == 0) }
    {
        self.number == self.end
    }

    /// Takes off the next node, and drops the properties that are left of the node before it. None if no node is left; then nothing
    /// changes.
    ///
    /// The node comes as `Led` only if the name of its first property is one capital, whose only value is two bytes without an escape,
    /// and if each property after it has a name of two capitals that isn't among `names`, and one value of at most 12 bytes, none of which
    /// is a `]` or a `\`. Nothing may stand between these parts. White space may follow the last of them. At least 16 bytes of text must
    /// be left from the node's `;` on, and 17 from the name of each property after the first. So a caller that looks only for names of
    /// one letter and for these names needn't go over the properties of `;B[pd]BL[921.325]OB[3]`.
    #[inline(always)]
    pub fn next(&mut self, names: &[[u8; 2]]) -> Option<NextNode<'a>>
        ensures { MatchOption result ((self.old.nodes ≡ []) × (self.new ≡ self.old))
            (λ next. (node : Node) × (self.old.nodes ≡ node ∷ self.new.nodes) × IsTakenOff names.now node self.new.properties next) }
    {
        if self.number == self.end {
            return None;
        }
        let place = self.at;
        let text = &self.text[place..];
        if let Some(end) = led_end(text, names) {
            self.number += 1;
            self.at = place + end;
            return Some(NextNode::Led {
                place,
                letter: text[1],
                value: &text[3..5],
            });
        }
        if is_empty_node(text) {
            self.number += 1;
            self.at = place + 1;
            return Some(NextNode::Empty { place });
        }
        Some(self.next_unread())
    }

    /// The same for a node that isn't recognized. There must be a node. This is the plain way. It also looks for a lone property in front.
    fn next_unread(&mut self) -> NextNode<'a>
        requires { 0 < length self.old.nodes }
        ensures { (node : Node) × (self.old.nodes ≡ node ∷ self.new.nodes)
            × ((names : List (List ℕ)) → IsTakenOff names node self.new.properties result) }
    {
        'left: while let Some(_property) = self.next_property() {}
        let place = self.at;
        let text = self.text;
        self.number += 1;
        let node = &text[place..];
        if is_lone_front(node) {
            self.at = skip_white_space(text, place + 6);
            let front = Some((node[1], &node[3..5]));
            return NextNode::Unread { place, front };
        }
        self.at = skip_white_space(text, place + 1);
        NextNode::Unread { place, front: None }
    }

    /// Takes off the next property that is left of the node that was taken off last. None if none is left; then nothing changes.
    #[inline(always)]
    pub fn next_property(&mut self) -> Option<PropRef<'a>>
        ensures { MatchOption result ((self.old.properties ≡ []) × (self.new ≡ self.old))
            (λ property. (self.old.properties ≡ property ∷ self.new.properties) × (self.new.nodes ≡ self.old.nodes)) }
    {
        let text = &self.text[self.at..];
        if !capital_at(text, 0) {
            return None;
        }
        let (property, end) = property_at(text, 0, self.long);
        self.at = skip_white_space(self.text, self.at + end);
        Some(property)
    }
}
