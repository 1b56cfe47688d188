// The nodes of a round of which one alone sends each payload.
ghost use Rattle.std.specs.Prelude.{◌≡◌, true, Some};
ghost use Rattle.ld_ids.specs.Set.{IsSubset};
ghost use Rattle.ld_msg.specs.Bounds.{share_out};
ghost use Rattle.ld_msg.specs.Choice.{sender};
ghost use Rattle.ld_msg.specs.Reader.{round_ask};
ghost use Rattle.ld_reader.specs.Rounds.{IsShared};

use ld_ids::{NodeId, NodeSet};
use ld_lsn::Lsn;
use ld_msg::Body;
use std::marker::Model;

/// The nodes that are asked in a round, and those of them that are not to send a payload. Some are
/// left.
#[derive(Clone, Copy)]
pub struct Senders {
    set: NodeSet,
    excluded: NodeSet,
}

impl Model for Senders {
    ghost use Rattle.ld_msg.specs.Reader.{Senders};
    ghost use Rattle.ld_reader.specs.Rounds.{IsShared};

    ghost Value = { Senders };

    ghost view = { λ a. record { set = a.set; excluded = a.excluded } };

    ghost invariant = { λ a. IsShared a.set a.excluded };

    ghost inverse = { λ a. record { set = a.set; excluded = a.excluded } };
}

impl Senders {
    /// Of the nodes of the set, those that are left.
    pub fn new(set: &NodeSet, excluded: &NodeSet) -> Senders
        requires subset { IsSubset excluded.now set.now }
        requires left { share_out excluded.now set.now ≡ true }
        ensures { result ≡ record { set = set.now; excluded = excluded.now } }
    {
        let _set = set.len();
        let _excluded = excluded.len();
        Senders {
            set: *set,
            excluded: *excluded,
        }
    }

    /// The node that is to send the payload of a number.
    pub fn sender(&self, number: Lsn) -> Option<NodeId>
        ensures { result ≡ sender self.now.set self.now.excluded number }
    {
        ld_copyset::sender(&self.set, &self.excluded, number)
    }

    /// What each of the nodes is asked in the round.
    pub fn ask(&self, round: u32, from: Lsn) -> Body
        ensures ask { result ≡ round_ask (Some self.now) round from }
        ensures shared { IsShared self.now.set self.now.excluded }
    {
        Body::ReadOne {
            round,
            from,
            set: self.set,
            excluded: self.excluded,
        }
    }
}
