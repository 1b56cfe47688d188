// The nodes that said last that they are lost.
ghost use Rattle.std.specs.Prelude.{◌≡◌, [], filter, List, ℕ};
ghost use Rattle.ld_table.specs.Table.{find};
ghost use Rattle.ld_ids.specs.Set.{members};
ghost use Rattle.ld_msg.specs.Reader.{missed_by, missing_with};
ghost use Rattle.ld_gap.specs.Slots.{with_slot};
ghost use Rattle.ld_reader.specs.Rounds.{shared_out};

use crate::senders::Senders;
use ld_ids::{NodeId, NodeSet};
use ld_msg::Body;
use std::marker::Model;

/// The nodes whose last answer was that they are lost, each with the epoch that was asked. It is
/// seen as a table by node.
#[derive(Drop)]
pub struct Missing {
    epochs: [Option<u32>; 16],
}

impl Model for Missing {
    ghost use Rattle.std.specs.Prelude.{List, ℕ, length, ◌≡◌};
    ghost use Rattle.ld_gap.specs.Slots.{filled};

    ghost Value = { List (ℕ × ℕ) };

    ghost view = { λ missing. filled missing.epochs };

    ghost invariant = { λ missing. length missing.epochs ≡ 16 };
}

/// What was noted of a node before an answer of it changed that.
#[derive(Drop)]
pub struct Missed {
    pub node: NodeId,
    pub epoch: Option<u32>,
}

impl Missing {
    /// No nodes.
    #[tactic(auto, unfolding(ld_gap::specs::Slots::filled_from))]
    pub fn nobody() -> Missing
        ensures { result ≡ [] }
    {
        Missing { epochs: [None; 16] }
    }

    // The epoch that was noted for the node.
    fn epoch_of(&self, node: NodeId) -> Option<u32>
        ensures { result ≡ find node self.now }
    {
        self.epochs[usize::from(node.number()) - 1]
    }

    /// Notes an epoch for the node, or nothing, and gives back what was noted for it.
    pub fn exchange(&mut self, node: NodeId, epoch: Option<u32>) -> Option<u32>
        ensures now { self.new ≡ with_slot node epoch self.old }
        ensures back { with_slot node result self.new ≡ self.old }
    {
        let index = usize::from(node.number()) - 1;
        let before = self.epochs[index];
        self.epochs[index] = epoch;
        before
    }

    // Whether the node's last answer was that it is lost for the epoch.
    fn has_missed(&self, node: NodeId, epoch: u32) -> bool
        ensures { result ≡ missed_by self.now epoch node }
    {
        self.epoch_of(node) == Some(epoch)
    }

    /// The nodes of a set, of which one alone is to send each payload of an epoch: none that is lost
    /// for it. None exactly where none would be left.
    pub fn senders(&self, set: &NodeSet, epoch: u32) -> Option<Senders>
        ensures { result ≡ shared_out set.now (filter (missed_by self.now epoch) (members set.now)) }
    {
        let mut excluded = NodeSet::empty();
        let mut count = 0;
        let mut place = set.len();
        'places: while place > 0 {
            place -= 1;
            if let Some(node) = set.nth(place) {
                if self.has_missed(node, epoch) {
                    excluded = excluded.with(node);
                    count += 1;
                }
            }
        }
        if count < set.len() {
            Some(Senders::new(set, &excluded))
        } else {
            None
        }
    }
}

/// The epoch for which an answer says that its node is lost.
pub fn lost_epoch(body: &Body) -> Option<u32>
    ensures { (node : ℕ) (missing : List (ℕ × ℕ)) → with_slot node result missing ≡ missing_with missing node body.now }
{
    match body {
        Body::LostHere { number, .. } => Some(number.home().0),
        _ => None,
    }
}
