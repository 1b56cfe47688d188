// Sets of nodes, and what is said of one log.
ghost use Rattle.std.specs.Prelude.{◌≡◌, ◌≤◌, ◌<◌, ◌+◌, ◌-◌, ◌^◌, ◌==◌, ◌&&◌, ◌||◌, not, ℕ, length, Bool, true, false};
ghost use Rattle.std.specs.List.{slice_get};
ghost use Rattle.std.specs.List.Sorted.{IsStrictlySortedBy};
ghost use Rattle.std.specs.Ordering.{nat_cmp};
ghost use Rattle.ld_table.specs.Words.{is_in};
ghost use Rattle.ld_ids.specs.Id.{IsNode};
ghost use Rattle.ld_ids.specs.Set.{no_nodes, with_node, without_node, has_node, members, share, set_bits, bits_set, IsSet, IsSubset};

use crate::{LogId, NodeId};
use std::marker::Model;

/// A set of nodes. It is seen as 16 flags, the first one for node 1.
#[derive(Clone, Copy, Debug, PartialEq, Eq)]
pub struct NodeSet {
    has: [bool; 16],
}

impl Model for NodeSet {
    ghost use Rattle.std.specs.Prelude.{List, Bool};
    ghost use Rattle.ld_ids.specs.Set.{IsSet};

    ghost Value = { List Bool };

    ghost view = { λ set. set.has };

    ghost invariant = { λ set. IsSet set.has };

    ghost inverse = { λ flags. record { has = flags } };
}

impl NodeSet {
    /// No nodes.
    pub fn empty() -> NodeSet
        ensures { result ≡ no_nodes }
    {
        NodeSet { has: [false; 16] }
    }

    /// The set with this node.
    pub fn with(&self, node: NodeId) -> NodeSet
        ensures flags { result ≡ with_node node self.now }
        ensures members { (n : ℕ) → is_in n (members result) ≡ ((n == node) || is_in n (members self.now)) }
    {
        let mut has = self.has;
        has[usize::from(node.number()) - 1] = true;
        NodeSet { has }
    }

    /// The set without this node.
    pub fn without(&self, node: NodeId) -> NodeSet
        ensures flags { result ≡ without_node node self.now }
        ensures members { (n : ℕ) → is_in n (members result) ≡ (not (n == node) && is_in n (members self.now)) }
    {
        let mut has = self.has;
        has[usize::from(node.number()) - 1] = false;
        NodeSet { has }
    }

    /// Whether the node is there.
    pub fn has(&self, node: NodeId) -> bool
        ensures flag { result ≡ has_node node self.now }
        ensures member { result ≡ is_in node (members self.now) }
        ensures set { IsSet self.now }
    {
        self.has[usize::from(node.number()) - 1]
    }

    /// How many nodes there are.
    pub fn len(&self) -> usize
        ensures count { result ≡ length (members self.now) }
        ensures bound { result ≤ 16 }
        ensures set { IsSet self.now }
    {
        let mut count = 0;
        for there in &self.has {
            if *there {
                count += 1;
            }
        }
        count
    }

    /// Whether some node is in both sets.
    pub fn meets(&self, other: &NodeSet) -> bool
        ensures { result ≡ share self.now other.now }
    {
        for index in 0..16 {
            if self.has[index] && other.has[index] {
                return true;
            }
        }
        false
    }

    /// The node at the offset, counted from 0, among the set's nodes in rising order; None exactly
    /// where the offset is not below the number of nodes.
    pub fn nth(&self, place: usize) -> Option<NodeId>
        ensures node { result ≡ slice_get (members self.now) place }
        ensures set { IsSet self.now }
    {
        let mut left = place;
        for index in 0..16u8 {
            if self.has[usize::from(index)] {
                if left == 0 {
                    return NodeId::new(index + 1);
                }
                left -= 1;
            }
        }
        None
    }

    /// The set as a number: bit n - 1 for node n.
    pub fn bits(&self) -> u16
        ensures bits { result ≡ set_bits self.now }
        ensures back { bits_set result ≡ self.now }
    {
        let mut bits = 0;
        for index in 0..16 {
            bits = bits * 2 + u16::from(self.has[15 - index]);
        }
        bits
    }

    /// The set that a number gives: node n is there where bit n - 1 is.
    pub fn from_bits(bits: u16) -> NodeSet
        ensures flags { result ≡ bits_set bits }
        ensures back { set_bits result ≡ bits }
    {
        let mut has = [false; 16];
        let mut left = bits;
        for index in 0..16 {
            has[index] = left % 2 == 1;
            left /= 2;
        }
        NodeSet { has }
    }
}

/// Two subsets of a set of n nodes share a node, where one has n - r + 1 nodes or more, and the other r or more.
pub fn subsets_meet(all: &NodeSet, one: &NodeSet, other: &NodeSet)
    ensures { (r : ℕ) → r ≤ length (members all.now) → IsSubset one.now all.now → IsSubset other.now all.now →
        length (members all.now) - r + 1 ≤ length (members one.now) → r ≤ length (members other.now) → share one.now other.now ≡ true }
{
    let _all = &all.has;
    let _one = &one.has;
    let _other = &other.has;
}

/// What is said of one log.
#[derive(Clone, Copy, Debug, PartialEq, Eq)]
pub struct Spec {
    /// The log's number.
    pub log: LogId,
    /// The log's nodes.
    pub set: NodeSet,
    /// The replication factor: on how many of its nodes a record is stored, at least 1 and at most
    /// all of them.
    pub r: u8,
    /// How many of its nodes are asked to store a record beyond the replication factor, at most 3.
    pub extras: u8,
}
