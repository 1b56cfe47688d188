// Lists of nodes.
ghost use Rattle.std.specs.Prelude.{◌≡◌, ◌≤◌, ℕ, false, ◌++◌, ◌∷◌, [], length, take, slice_get};
ghost use Rattle.std.specs.List.{All};
ghost use Rattle.ld_table.specs.Words.{is_in, with_one};
ghost use Rattle.ld_ids.specs.Id.{IsNode};
ghost use Rattle.ld_ids.specs.Set.{members};
ghost use Rattle.ld_copyset.specs.Copyset.{AreDistinct};

use arrayvec::ArrayVec;
use ld_ids::{NodeId, NodeSet};
use std::marker::Model;

/// Distinct nodes, in an order that tells something. It takes no memory.
#[derive(Drop)]
pub struct NodeList {
    numbers: ArrayVec<u8, 16>,
}

impl Model for NodeList {
    ghost use Rattle.std.specs.Prelude.{List, ℕ};
    ghost use Rattle.std.specs.List.{All};
    ghost use Rattle.ld_ids.specs.Id.{IsNode};
    ghost use Rattle.ld_copyset.specs.Copyset.{AreDistinct};

    ghost Value = { List ℕ };

    ghost view = { λ list. list.numbers.items };

    ghost invariant = { λ list. record { nodes : All IsNode list.numbers.items; distinct : AreDistinct list.numbers.items } };
}

impl NodeList {
    /// No nodes.
    pub fn empty() -> NodeList
        ensures { result ≡ [] }
    {
        NodeList {
            numbers: ArrayVec::new(),
        }
    }

    /// How many there are.
    pub fn len(&self) -> usize
        ensures count { result ≡ length self.now }
        ensures bound { result ≤ 16 }
    {
        self.numbers.as_slice().len()
    }

    /// The node at the place, counted from 0; None exactly where the place is not below the number of nodes.
    pub fn nth(&self, place: usize) -> Option<NodeId>
        ensures node { result ≡ slice_get self.now place }
        ensures nodes { All IsNode self.now }
        ensures distinct { AreDistinct self.now }
    {
        let number = self.numbers.as_slice().get(place)?;
        NodeId::new(*number)
    }

    /// Whether the node is there.
    pub fn has(&self, node: NodeId) -> bool
        ensures { result ≡ is_in node self.now }
    {
        self.numbers.as_slice().contains(&node.number())
    }

    /// Adds a node at the end that isn't there yet.
    pub fn push(&mut self, node: NodeId)
        requires { is_in node self.old ≡ false }
        ensures { self.new ≡ self.old ++ node ∷ [] }
    {
        self.numbers.push(node.number());
    }

    /// Adds a node at the end, where it isn't there.
    pub fn add(&mut self, node: NodeId)
        ensures { self.new ≡ with_one node self.old }
    {
        if !self.has(node) {
            self.push(node);
        }
    }

    /// The same nodes as a set.
    pub fn to_set(&self) -> NodeSet
        ensures { (node : ℕ) → is_in node (members result) ≡ is_in node self.now }
    {
        let mut set = NodeSet::empty();
        'nodes: for place in 0..self.len() {
            if let Some(node) = self.nth(place) {
                set = set.with(node);
            }
        }
        set
    }

    /// Keeps so many, from the first one on.
    pub fn truncate(&mut self, count: usize)
        ensures { self.new ≡ take count self.old }
    {
        self.numbers.truncate(count);
    }
}
