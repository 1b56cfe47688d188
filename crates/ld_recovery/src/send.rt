// Messages of a sequencer to nodes.
ghost use Rattle.std.specs.Prelude.{◌≡◌, ◌++◌, ◌∷◌, ◌&&◌, not, [], IfOk, OnOk, OnErr};
ghost use Rattle.ld_table.specs.Words.{is_in, without};
ghost use Rattle.ld_ids.specs.Set.{members};
ghost use Rattle.ld_msg.specs.declared.msg.What.TheVariants.{Rec};
ghost use Rattle.ld_msg.specs.declared.msg.Body.TheVariants.{Store, Clean, DigestAsk};
ghost use Rattle.ld_msg.specs.Bounds.{Is64, IsEpoch};
ghost use Rattle.ld_msg.specs.Sequencer.{to_each, digest_asks};
ghost use Rattle.ld_node_bounds.specs.Messages.{AreMessages};
ghost use Rattle.ld_recovery.specs.Sending.{sent, told, number_told, what_of, IsNotice, BeginsWith};

use ld_copyset::NodeList;
use ld_digest::Told;
use ld_ids::{LogId, NoMemory, NodeId, NodeSet, Payload};
use ld_lsn::Lsn;
use ld_msg::{Body, Msg, Outbox, Summary, What, Who};
use std::alloc::Global;

/// The sequencer of an epoch of a log, as its messages name it.
#[derive(Clone, Copy)]
pub struct Sender {
    pub log: LogId,
    pub epoch: u32,
}

impl Sender {
    /// Sends a message to the node. Without memory nothing is sent.
    fn send(&self, node: NodeId, body: Body, out: &mut Outbox) -> Result<(), NoMemory>
        ensures sent { OnOk result (out.new ≡ out.old ++ sent self.now ((node, body) ∷ [])) }
        ensures unsent { OnErr result (out.new ≡ out.old) }
    {
        out.push(Msg {
            from: Who::Sequencer(self.epoch),
            to: Who::Node(node),
            log: self.log,
            body,
        })
    }

    /// Asks each node that isn't whole for its next page. Without memory nothing is sent.
    #[tactic(auto, using(crate::proofs::Begins::back_rules))]
    pub fn ask_for_digest(&self, told: &[Told], out: &mut Outbox) -> Result<(), NoMemory>
        ensures sent { OnOk result (out.new ≡ out.old ++ sent self.now (digest_asks told.now)) }
        ensures unsent { OnErr result (out.new ≡ out.old) }
    {
        let count = out.len();
        let asked = self.ask_each(told, out);
        if asked.is_err() {
            out.truncate(count);
        }
        asked
    }

    /// Asks each node that isn't whole for its next page. Without memory some may have been asked.
    #[tactic(auto, using(crate::proofs::Begins::begin_rules))]
    fn ask_each(&self, told: &[Told], out: &mut Outbox) -> Result<(), NoMemory>
        ensures sent { OnOk result (out.new ≡ out.old ++ sent self.now (digest_asks told.now)) }
        ensures begins { OnErr result (BeginsWith out.old out.new) }
    {
        for one in told {
            self.ask_one(one, out)?;
        }
        Ok(())
    }

    /// Asks a node that isn't whole for its next page. Without memory nothing is sent.
    pub fn ask_one(&self, told: &Told, out: &mut Outbox) -> Result<(), NoMemory>
        ensures sent { OnOk result (out.new ≡ out.old ++ sent self.now (digest_asks (told.now ∷ []))) }
        ensures unsent { OnErr result (out.new ≡ out.old) }
    {
        if told.is_whole() {
            return Ok(());
        }
        self.ask(told.node(), told.asked(), out)
    }

    /// Asks the node for its page from a number on. Without memory nothing is sent.
    pub fn ask(&self, node: NodeId, from: Lsn, out: &mut Outbox) -> Result<(), NoMemory>
        ensures sent { OnOk result (out.new ≡ out.old ++ sent self.now ((node, DigestAsk from) ∷ [])) }
        ensures unsent { OnErr result (out.new ≡ out.old) }
    {
        self.send(node, Body::DigestAsk { from }, out)
    }

    /// Tells all nodes of the set how an epoch is closed. Without memory nothing is sent.
    pub fn tell_clean(
        &self,
        set: &NodeSet,
        epoch: u32,
        summary: &Summary,
        out: &mut Outbox,
    ) -> Result<(), NoMemory>
        ensures sent { OnOk result (out.new ≡ out.old ++ sent self.now (to_each (Clean epoch summary.now) (members set.now))) }
        ensures unsent { OnErr result (out.new ≡ out.old) }
    {
        let notice = Notice::Clean {
            epoch,
            summary: *summary,
        };
        self.tell(set, &notice, out)
    }

    /// Tells all nodes of the set, in their order. Without memory nothing is sent. Behind messages it sends messages.
    #[tactic(auto, using(crate::proofs::Begins::back_rules, crate::proofs::Notices::notice_rules))]
    pub fn tell(&self, set: &NodeSet, notice: &Notice, out: &mut Outbox) -> Result<(), NoMemory>
        ensures sent { OnOk result (out.new ≡ out.old ++ sent self.now (to_each (told notice.now) (members set.now))) }
        ensures unsent { OnErr result (out.new ≡ out.old) }
        ensures messages { IsNotice notice.now → IsEpoch self.now.epoch → AreMessages out.old → AreMessages out.new }
    {
        let _ = (self.log.number(), set.len(), notice.body());
        let count = out.len();
        match self.tell_each(set, notice, out) {
            Ok(()) => Ok(()),
            Err(_) => {
                out.truncate(count);
                Err(NoMemory)
            }
        }
    }

    /// Tells all nodes of the set, in their order. Without memory some may have been told.
    #[tactic(auto, using(crate::proofs::Begins::begin_rules))]
    fn tell_each(&self, set: &NodeSet, notice: &Notice, out: &mut Outbox) -> Result<(), NoMemory>
        ensures sent { OnOk result (out.new ≡ out.old ++ sent self.now (to_each (told notice.now) (members set.now))) }
        ensures begins { OnErr result (BeginsWith out.old out.new) }
    {
        'nodes: for place in 0..set.len() {
            if let Some(node) = set.nth(place) {
                self.send(node, notice.body(), out)?;
            }
        }
        Ok(())
    }

    /// Sends an item with a last known good offset to each of the nodes, in their order. Without memory some may have been sent.
    pub fn send_item(
        &self,
        alloc: Global,
        number: Lsn,
        lng: u32,
        what: &What,
        nodes: &NodeList,
        out: &mut Outbox,
    ) -> Result<(), NoMemory>
        ensures sent { OnOk result (out.new ≡ out.old ++ sent self.now (to_each (Store number lng what.now) nodes.now)) }
        ensures begins { OnErr result (BeginsWith out.old out.new) }
    {
        self.send_each(alloc, number, lng, &Stored::Item(what), nodes, out)
    }

    /// Sends an item with a last known good offset to each node of the set that is in neither list, in their order. Without
    /// memory some may have been sent.
    #[tactic(auto, using(crate::proofs::Begins::begin_rules))]
    pub(crate) fn send_left(
        &self,
        alloc: Global,
        number: Lsn,
        lng: u32,
        what: &What,
        left: &Left,
        out: &mut Outbox,
    ) -> Result<(), NoMemory>
        ensures sent { OnOk result (out.new ≡ out.old ++ sent self.now (to_each (Store number lng what.now) (without left.now.settled.now (without left.now.lost.now (members left.now.set.now))))) }
        ensures begins { OnErr result (BeginsWith out.old out.new) }
    {
        'nodes: for place in 0..left.set.len() {
            if let Some(node) = left.set.nth(place) {
                if left.has(node) {
                    let what = what.copy(alloc)?;
                    self.send(node, Body::Store { number, lng, what }, out)?;
                }
            }
        }
        Ok(())
    }

    /// Sends a record with a last known good offset to each of the nodes, in their order. Without memory some may have been sent.
    pub fn send_record(
        &self,
        alloc: Global,
        number: Lsn,
        lng: u32,
        payload: &Payload,
        nodes: &NodeList,
        out: &mut Outbox,
    ) -> Result<(), NoMemory>
        ensures sent { OnOk result (out.new ≡ out.old ++ sent self.now (to_each (Store number lng (Rec payload.now)) nodes.now)) }
        ensures begins { OnErr result (BeginsWith out.old out.new) }
    {
        self.send_each(alloc, number, lng, &Stored::Record(payload), nodes, out)
    }

    /// Sends a store to each of the nodes, in their order. Without memory some may have been sent.
    #[tactic(auto, using(crate::proofs::Begins::begin_rules))]
    fn send_each(
        &self,
        alloc: Global,
        number: Lsn,
        lng: u32,
        stored: &Stored,
        nodes: &NodeList,
        out: &mut Outbox,
    ) -> Result<(), NoMemory>
        ensures sent { OnOk result (out.new ≡ out.old ++ sent self.now (to_each (Store number lng (what_of stored.now)) nodes.now)) }
        ensures begins { OnErr result (BeginsWith out.old out.new) }
    {
        'nodes: for place in 0..nodes.len() {
            if let Some(node) = nodes.nth(place) {
                let what = stored.copy(alloc)?;
                self.send(node, Body::Store { number, lng, what }, out)?;
            }
        }
        Ok(())
    }
}

/// The nodes of a set, without those that are lost and those that have settled an item.
#[derive(Clone, Copy)]
pub(crate) struct Left<'a> {
    pub(crate) set: &'a NodeSet,
    pub(crate) lost: &'a NodeList,
    pub(crate) settled: &'a NodeList,
}

impl<'a> Left<'a> {
    // Whether a node of the set is among them.
    fn has(&self, node: NodeId) -> bool
        ensures { result ≡ (not (is_in node self.now.lost.now) && not (is_in node self.now.settled.now)) }
    {
        !self.lost.has(node) && !self.settled.has(node)
    }
}

/// What all nodes of a set are told.
#[derive(Clone, Copy)]
pub enum Notice {
    /// How an epoch is closed.
    Clean { epoch: u32, summary: Summary },
    /// Readers may have all up to the number.
    Release(Lsn),
    /// All up to the number may go.
    Trim(Lsn),
}

impl Notice {
    /// As a message says it.
    fn body(&self) -> Body
        ensures value { result ≡ told self.now }
        ensures number { Is64 (number_told self.now) }
    {
        match self {
            Notice::Clean { epoch, summary } => Body::Clean {
                epoch: *epoch,
                summary: *summary,
            },
            Notice::Release(released) => {
                let _ = released.value();
                Body::Release {
                    released: *released,
                }
            }
            Notice::Trim(trim) => {
                let _ = trim.value();
                Body::Trim { trim: *trim }
            }
        }
    }
}

/// What a store carries, as its owner holds it.
#[derive(Clone, Copy)]
pub(crate) enum Stored<'a> {
    Item(&'a What),
    Record(&'a Payload),
}

impl<'a> Stored<'a> {
    /// As a message carries it.
    fn copy(&self, alloc: Global) -> Result<What, NoMemory>
        ensures { IfOk result (λ what. what ≡ what_of self.now) }
    {
        match self {
            Stored::Item(what) => what.copy(alloc),
            Stored::Record(payload) => Ok(What::Rec(payload.copy(alloc)?)),
        }
    }
}
