// Items of a plan that are being stored.
ghost use Rattle.std.specs.Prelude.{◌≡◌, []};
ghost use Rattle.ld_recovery.specs.Planning.{lacks, settled_one};

use ld_copyset::NodeList;
use ld_ids::NodeId;
use ld_lsn::Lsn;
use ld_msg::What;
use std::marker::Model;

/// What is to stand under a number, and the nodes that stored it or trimmed it away.
#[derive(Drop)]
pub struct Planned {
    number: Lsn,
    what: What,
    settled: NodeList,
}

impl Model for Planned {
    ghost use Rattle.std.specs.Prelude.{ℕ};
    ghost use Rattle.ld_msg.specs.Sequencer.{Planned};

    ghost Value = { ℕ × Planned };

    ghost view = { λ p. (p.number, record { what = p.what; settled = p.settled }) };
}

impl Planned {
    /// An item that no node has settled.
    pub fn new(number: Lsn, what: What) -> Planned
        ensures { result ≡ (number, record { what = what; settled = [] }) }
    {
        Planned {
            number,
            what,
            settled: NodeList::empty(),
        }
    }

    /// Its number.
    pub fn number(&self) -> Lsn
        ensures { result ≡ self.now.0 }
    {
        self.number
    }

    /// What is to stand there.
    pub fn what(&self) -> &What
        ensures { result.now ≡ self.now.1.what }
    {
        &self.what
    }

    /// Whether fewer nodes than so many have settled it.
    pub fn lacks(&self, factor: u8) -> bool
        ensures { result ≡ lacks factor self.now }
    {
        self.settled.len() < usize::from(factor)
    }

    /// The nodes that have settled it.
    pub fn settled(&self) -> &NodeList
        ensures { result.now ≡ self.now.1.settled }
    {
        &self.settled
    }

    /// The node settled it; each node counts once.
    pub fn settle(&mut self, node: NodeId)
        ensures { self.new ≡ settled_one node self.old }
    {
        self.settled.add(node);
    }
}
