// What a sequencer does for its own epoch.
ghost use Rattle.std.specs.Prelude.{◌≡◌, ◌≤◌, ◌<◌, ◌+◌, ◌-◌, ◌^◌, ◌++◌, ◌&&◌, ◌==◌, length, take, IfOk, IfErr, OnOk, OnErr, None, is_some, nat_lt, if◌then◌else◌};
ghost use Rattle.ld_ids.specs.Set.{members};
ghost use Rattle.ld_lsn.specs.Number.{numbered};
ghost use Rattle.ld_ids.specs.Choice.{nodes_of};
ghost use Rattle.ld_msg.specs.declared.msg.Body.TheVariants.{Release, Trim};
ghost use Rattle.ld_msg.specs.Sequencer.{released_of, appending, Numbered, appended, first_stores, next_esn, to_each, does_nothing, by_stored, by_lost, by_clean, preempt as preempts, on_retry, acted_messages, payload_limit};
ghost use Rattle.ld_msg.specs.Bounds.{IsEpoch};
ghost use Rattle.ld_node_bounds.specs.Messages.{AreMessages};
ghost use Rattle.ld_sequencer.specs.Appends.{pushed, next_place, all_acked};
ghost use Rattle.ld_sequencer.specs.Looks.{shows};
ghost use Rattle.ld_sequencer.specs.Own.{Own, IsNow, IsKept, new_own, spec_of, sequencer_of, sent_by, append_fault, trim_fault, answered, heard, released_above, with_lce, preempted_as, raised_own, pending, Does};
ghost use Rattle.ld_recovery.specs.Sending.{BeginsWith};

use crate::Row;
use crate::fault::SequencerFault;
use crate::origin::Origin;
use ld_copyset::{NodeList, choose_for};
use ld_ids::{NoMemory, NodeId, Payload, Spec};
use ld_lsn::Lsn;
use ld_msg::{Body, Msg, Outbox, Summary, Who};
use ld_recovery::{Notice, Sender};
use std::alloc::Global;
use std::marker::Model;

/// The greatest length of a payload, in bytes.
const PAYLOAD_LIMIT: usize = 65_535;

/// How many appends may wait.
const WINDOW_LIMIT: usize = 128;

/// What a call of a sequencer learnt.
#[derive(Clone, Copy)]
pub struct Learnt {
    /// The append that was acknowledged.
    pub acked: Option<Lsn>,
    /// The epoch of the sequencer that preempts this one.
    pub preempted: Option<u32>,
}

impl Learnt {
    /// Nothing.
    pub fn nothing() -> Learnt
        ensures acked { result.acked ≡ None }
        ensures preempted { result.preempted ≡ None }
    {
        Learnt {
            acked: None,
            preempted: None,
        }
    }
}

/// A sequencer without the recovery of earlier epochs: the appends of its epoch, who stored them, what is released, and
/// who preempted it. It is seen as the sequencer of a log that recovers no epoch.
#[derive(Drop)]
pub struct OwnEpoch {
    origin: Origin,
    row: Row,
    lce: u32,
    lost: NodeList,
    preempted: Option<u32>,
}

impl Model for OwnEpoch {
    ghost use Rattle.ld_sequencer.specs.Own.{Own};

    ghost Value = { Own };

    ghost view = { λ o. record { origin = o.origin; row = o.row; lce = o.lce; lost = o.lost; preempted = o.preempted } };
}

impl OwnEpoch {
    /// The sequencer of this epoch of a log, for which this is fixed, with no append yet. All epochs up to `lce` are closed.
    pub fn new(
        alloc: Global,
        origin: &Origin,
        spec: &Spec,
        epoch: u32,
        lce: u32,
    ) -> Result<OwnEpoch, NoMemory>
        requires { 1 ≤ spec.now.r }
        ensures { IfOk result (λ own. own ≡ new_own origin.now spec.now epoch lce) }
    {
        let row = Row::new(alloc, spec, epoch)?;
        Ok(OwnEpoch {
            origin: *origin,
            row,
            lce,
            lost: NodeList::empty(),
            preempted: None,
        })
    }

    /// What doesn't change of its log.
    pub fn origin(&self) -> &Origin
        ensures { result.now ≡ self.now.origin }
    {
        &self.origin
    }

    /// What is fixed for its epoch.
    pub fn spec(&self) -> &Spec
        ensures { result.now ≡ spec_of self.now }
    {
        self.row.spec()
    }

    /// The last closed epoch that it knows of.
    pub fn lce(&self) -> u32
        ensures { result ≡ self.now.lce }
    {
        self.lce
    }

    /// Whether a greater epoch's sequencer preempted it.
    pub fn is_preempted(&self) -> bool
        ensures { result ≡ is_some self.now.preempted }
    {
        self.preempted.is_some()
    }

    /// Its epoch.
    pub fn epoch(&self) -> u32
        ensures { result ≡ (sequencer_of self.now).epoch }
    {
        self.row.epoch()
    }

    /// The greatest number such that readers may have all up to it: before all earlier epochs are closed the end of the
    /// last closed one, and from then on the last of its own numbers such that it and all below are acknowledged.
    #[tactic(auto, using(crate::proofs::Replies::released_rules))]
    pub fn released(&self) -> Lsn
        ensures { result ≡ released_of (sequencer_of self.now) }
    {
        let epoch = self.row.epoch();
        if self.lce < epoch && self.lce + 1 < epoch {
            Lsn::epoch_end(self.lce)
        } else {
            Lsn::new(epoch, self.row.lng())
        }
    }

    /// Whether each append is acknowledged, and all epochs before its own are closed.
    pub fn settled(&self) -> bool
        ensures { result ≡ (all_acked (spec_of self.now) self.now.row.appends && (self.now.lce + 1 == self.now.row.epoch)) }
    {
        self.row.is_acked() && self.lce < self.row.epoch() && self.lce + 1 == self.row.epoch()
    }

    /// Numbers the payload and sends it to as many nodes of its epoch as are to store it, and some more as was fixed for it. It is refused
    /// with `PayloadTooLong` and its length exactly above 65,535 bytes, then with `Preempted` and the greater epoch exactly
    /// where one was learnt, then with `EpochFull` exactly where the next offset is 2^32-1, then with `WindowFull` exactly
    /// where 128 appends wait, and then when out of memory. A refused append has changed nothing and sent nothing. Behind
    /// messages it sends messages, and so does each other call.
    #[tactic(auto, using(crate::proofs::Begins::back_rules, crate::proofs::Bounded::message_rules))]
    pub fn append(
        &mut self,
        alloc: Global,
        payload: Payload,
        out: &mut Outbox,
    ) -> Result<Lsn, SequencerFault>
        ensures number { IfOk result (λ number. number ≡ numbered (sequencer_of self.old).epoch (next_esn (sequencer_of self.old))) }
        ensures taken { OnOk result (appending (sequencer_of self.old) payload ≡ Numbered) }
        ensures now { OnOk result (IsNow self.old self.new (appended (sequencer_of self.old) payload)) }
        ensures out { OnOk result (out.new ≡ out.old ++ sent_by self.old (first_stores (sequencer_of self.old) payload)) }
        ensures refused { IfErr result (λ fault. fault ≡ append_fault (length payload) (appending (sequencer_of self.old) payload)) }
        ensures same { OnErr result (self.new ≡ self.old) }
        ensures unsent { OnErr result (out.new ≡ out.old) }
        ensures messages { IsEpoch (sequencer_of self.old).epoch → AreMessages out.old → AreMessages out.new }
    {
        self.check(&payload)?;
        let _ = (self.spec().log.number(), self.spec().set.len());
        let count = out.len();
        match self.add(alloc, payload, out) {
            Ok(number) => Ok(number),
            Err(_) => {
                out.truncate(count);
                Err(SequencerFault::NoMemory)
            }
        }
    }

    /// Tells all nodes of the configuration that all up to the number may go. It is refused with `PastReleased` and the released
    /// number exactly where the number is above it, and then when out of memory. A refused trim has sent nothing.
    pub fn trim(&self, lsn: Lsn, out: &mut Outbox) -> Result<(), SequencerFault>
        ensures within { OnOk result (lsn ≤ released_of (sequencer_of self.now)) }
        ensures out { OnOk result (out.new ≡ out.old ++ sent_by self.now (to_each (Trim lsn) (members self.now.origin.nodes))) }
        ensures refused { IfErr result (λ fault. fault ≡ trim_fault (released_of (sequencer_of self.now)) lsn) }
        ensures unsent { OnErr result (out.new ≡ out.old) }
        ensures messages { IsEpoch (sequencer_of self.now).epoch → AreMessages out.old → AreMessages out.new }
    {
        let released = self.released();
        if lsn > released {
            return Err(SequencerFault::PastReleased(released));
        }
        self.sender()
            .tell(&self.origin.nodes, &Notice::Trim(lsn), out)?;
        Ok(())
    }

    /// Takes a node's answer. An append is acknowledged by it where as many of its epoch's nodes as the epoch's factor says have
    /// stored it now, and hadn't before. A seal of a greater epoch preempts it, and so does word that its own epoch is closed.
    /// A node may be lost for its epoch. Where the released number rises all nodes of its epoch are told so. A preempted sequencer ignores all
    /// answers, and so it does messages that are no node's. Without memory nothing is sent, and it isn't to be used again.
    #[tactic(auto, using(crate::proofs::Kept::kept_rules))]
    pub fn on_reply(&mut self, msg: &Msg, out: &mut Outbox) -> Result<Learnt, NoMemory>
        ensures does { IfOk result (λ report. Does self.old self.new report (heard self.old msg.now.from msg.now.body)) }
        ensures out { OnOk result (out.new ≡ out.old ++ sent_by self.old (acted_messages (sequencer_of self.old) (heard self.old msg.now.from msg.now.body))) }
        ensures kept { IsKept self.old self.new }
        ensures unsent { OnErr result (out.new ≡ out.old) }
        ensures messages { IsEpoch (sequencer_of self.old).epoch → AreMessages out.old → AreMessages out.new }
    {
        let Who::Node(node) = msg.from else {
            return Ok(Learnt::nothing());
        };
        let released = self.released();
        let report = self.hear(node, &msg.body);
        self.tell_released(released, out)?;
        Ok(report)
    }

    /// Sends each append that isn't acknowledged once more, in its next wave, to the nodes chosen that haven't stored it. A
    /// preempted sequencer sends nothing. Without memory nothing is sent, and it isn't to be used again.
    #[tactic(auto, using(crate::proofs::Replies::retry_rules))]
    pub fn retry(&mut self, alloc: Global, out: &mut Outbox) -> Result<(), NoMemory>
        ensures now { OnOk result (IsNow self.old self.new (on_retry (shows (spec_of self.old)) (sequencer_of self.old)).sequencer) }
        ensures out { OnOk result (out.new ≡ out.old ++ sent_by self.old (acted_messages (sequencer_of self.old) (on_retry (shows (spec_of self.old)) (sequencer_of self.old)))) }
        ensures unsent { OnErr result (out.new ≡ out.old) }
        ensures messages { IsEpoch (sequencer_of self.old).epoch → AreMessages out.old → AreMessages out.new }
    {
        if self.preempted.is_none() {
            self.raise();
            self.send(alloc, out)?;
        }
        Ok(())
    }

    /// Each append that isn't acknowledged goes to its next wave.
    pub fn raise(&mut self)
        ensures { self.new ≡ raised_own self.old }
    {
        self.row.raise();
    }

    /// Sends each append that isn't acknowledged to those nodes of its wave's choice that haven't stored it. Without memory
    /// nothing is sent. Behind messages it sends messages.
    pub fn send(&self, alloc: Global, out: &mut Outbox) -> Result<(), NoMemory>
        ensures sent { OnOk result (out.new ≡ out.old ++ sent_by self.now (pending self.now)) }
        ensures unsent { OnErr result (out.new ≡ out.old) }
        ensures messages { IsEpoch (sequencer_of self.now).epoch → AreMessages out.old → AreMessages out.new }
    {
        self.row.send(alloc, &self.lost, out)
    }

    /// The same behind other messages of the call. Without memory the first `count` messages alone are left.
    #[tactic(auto, using(crate::proofs::Bounded::message_rules))]
    pub fn send_behind(&self, alloc: Global, count: usize, out: &mut Outbox) -> Result<(), NoMemory>
        ensures sent { OnOk result (out.new ≡ out.old ++ sent_by self.now (pending self.now)) }
        ensures left { OnErr result (out.new ≡ take count out.old) }
        ensures messages { IsEpoch (sequencer_of self.now).epoch → AreMessages out.old → AreMessages out.new }
    {
        match self.send(alloc, out) {
            Ok(()) => Ok(()),
            Err(_) => {
                out.truncate(count);
                Err(NoMemory)
            }
        }
    }

    /// All epochs up to this one are closed. Where the released number rises all nodes of its epoch are told so. Without memory
    /// nothing is sent.
    pub fn close_through(&mut self, lce: u32, out: &mut Outbox) -> Result<(), NoMemory>
        ensures now { self.new ≡ with_lce self.old lce }
        ensures out { OnOk result (out.new ≡ out.old ++ sent_by self.old (released_above (released_of (sequencer_of self.old)) (with_lce self.old lce))) }
        ensures unsent { OnErr result (out.new ≡ out.old) }
        ensures messages { IsEpoch (sequencer_of self.old).epoch → AreMessages out.old → AreMessages out.new }
    {
        let released = self.released();
        self.lce = lce;
        self.tell_released(released, out)
    }

    /// The sequencer of this greater epoch preempts it.
    pub fn preempt(&mut self, by: u32)
        ensures { self.new ≡ preempted_as self.old by }
    {
        self.preempted = Some(by);
    }

    /// What a node's answer does.
    #[tactic(auto, using(crate::proofs::Replies::reply_rules))]
    fn hear(&mut self, node: NodeId, body: &Body) -> Learnt
        ensures { Does self.old self.new result (answered self.old node body.now) }
    {
        if self.preempted.is_some() {
            return Learnt::nothing();
        }
        match body {
            Body::Stored { number } => self.count(node, *number),
            Body::SealedHere { sealed, .. } => self.seal(*sealed),
            Body::LostHere { number, .. } => self.lose(node, *number),
            Body::CleanHere { number, summary } => self.clean(*number, summary),
            _ => Learnt::nothing(),
        }
    }

    /// A node stored what has the number. One that isn't of the epoch's set counts for nothing.
    #[tactic(auto, using(crate::proofs::Replies::count_rules))]
    fn count(&mut self, node: NodeId, number: Lsn) -> Learnt
        ensures { Does self.old self.new result (by_stored (does_nothing (sequencer_of self.old)) node number) }
    {
        if number.epoch() != self.row.epoch() {
            return Learnt::nothing();
        }
        if !self.row.spec().set.has(node) {
            return Learnt::nothing();
        }
        let is_acked = self.row.stored(node, number);
        Learnt {
            acked: if is_acked { Some(number) } else { None },
            preempted: None,
        }
    }

    /// A node is sealed by the sequencer of an epoch.
    #[tactic(auto, using(crate::proofs::Replies::seal_rules))]
    fn seal(&mut self, sealed: u32) -> Learnt
        ensures { Does self.old self.new result (if nat_lt (sequencer_of self.old).epoch sealed then preempts (does_nothing (sequencer_of self.old)) sealed else does_nothing (sequencer_of self.old)) }
    {
        if sealed <= self.row.epoch() {
            return Learnt::nothing();
        }
        self.preempt(sealed);
        Learnt {
            acked: None,
            preempted: Some(sealed),
        }
    }

    /// A node is lost for the number's epoch.
    #[tactic(auto, using(crate::proofs::Replies::lose_rules))]
    fn lose(&mut self, node: NodeId, number: Lsn) -> Learnt
        ensures { Does self.old self.new result (by_lost (shows (spec_of self.old)) (does_nothing (sequencer_of self.old)) node number) }
    {
        if number.home().0 == self.row.epoch() {
            self.lost.add(node);
        }
        Learnt::nothing()
    }

    /// The number's epoch is closed by the sequencer of this ballot.
    #[tactic(auto, using(crate::proofs::Replies::clean_rules))]
    fn clean(&mut self, number: Lsn, summary: &Summary) -> Learnt
        ensures { Does self.old self.new result (by_clean (shows (spec_of self.old)) (does_nothing (sequencer_of self.old)) number summary.now) }
    {
        if number.home().0 != self.row.epoch() {
            return Learnt::nothing();
        }
        self.preempt(summary.ballot);
        Learnt {
            acked: None,
            preempted: Some(summary.ballot),
        }
    }

    /// Whether the append is taken.
    #[tactic(auto, unfolding(ld_msg::specs::Sequencer::appending))]
    fn check(&self, payload: &Payload) -> Result<(), SequencerFault>
        ensures ok { OnOk result (appending (sequencer_of self.now) payload.now ≡ Numbered) }
        ensures room { OnOk result (length self.now.row.appends < 128) }
        ensures place { OnOk result (next_place self.now.row ≤ 2 ^ 32 - 2) }
        ensures short { OnOk result (length payload.now ≤ payload_limit) }
        ensures err { IfErr result (λ fault. fault ≡ append_fault (length payload.now) (appending (sequencer_of self.now) payload.now)) }
    {
        if payload.len() > PAYLOAD_LIMIT {
            return Err(SequencerFault::PayloadTooLong(payload.len()));
        }
        if let Some(by) = self.preempted {
            return Err(SequencerFault::Preempted(by));
        }
        if self.row.next_place() == u32::MAX {
            return Err(SequencerFault::EpochFull);
        }
        if self.row.len() >= WINDOW_LIMIT {
            return Err(SequencerFault::WindowFull);
        }
        Ok(())
    }

    /// Sends the next append and lets it wait. Without memory nothing waits, and some may have been sent.
    #[tactic(auto, using(crate::proofs::Begins::back_rules))]
    fn add(&mut self, alloc: Global, payload: Payload, out: &mut Outbox) -> Result<Lsn, NoMemory>
        requires room { length self.old.row.appends < 128 }
        requires place { next_place self.old.row ≤ 2 ^ 32 - 2 }
        requires short { length payload ≤ payload_limit }
        ensures number { IfOk result (λ number. number ≡ numbered self.old.row.epoch (next_place self.old.row)) }
        ensures now { OnOk result (self.new ≡ record self.old { row = pushed self.old.row payload }) }
        ensures out { OnOk result (out.new ≡ out.old ++ sent_by self.old (first_stores (sequencer_of self.old) payload)) }
        ensures same { OnErr result (self.new ≡ self.old) }
        ensures begins { OnErr result (BeginsWith out.old out.new) }
    {
        let number = Lsn::new(self.row.epoch(), self.row.next_place());
        let nodes = choose_for(self.row.spec(), number, 0, &self.lost.to_set());
        self.sender()
            .send_record(alloc, number, self.row.lng(), &payload, &nodes, out)?;
        self.row.push(payload)?;
        Ok(number)
    }

    /// Tells all nodes of its epoch the released number. Without memory nothing is sent.
    pub(crate) fn tell(&self, out: &mut Outbox) -> Result<(), NoMemory>
        ensures sent { OnOk result (out.new ≡ out.old ++ sent_by self.now (to_each (Release (released_of (sequencer_of self.now))) (nodes_of self.now.row.spec))) }
        ensures unsent { OnErr result (out.new ≡ out.old) }
        ensures messages { IsEpoch (sequencer_of self.now).epoch → AreMessages out.old → AreMessages out.new }
    {
        let released = self.released();
        self.sender()
            .tell(&self.row.spec().set, &Notice::Release(released), out)
    }

    /// As its messages name it.
    fn sender(&self) -> Sender
        ensures log { result.log ≡ self.now.row.spec.log }
        ensures epoch { result.epoch ≡ self.now.row.epoch }
    {
        Sender {
            log: self.row.spec().log,
            epoch: self.row.epoch(),
        }
    }

    /// Tells all nodes of its epoch the released number, where it is above this one. Without memory nothing is sent.
    fn tell_released(&self, before: Lsn, out: &mut Outbox) -> Result<(), NoMemory>
        ensures sent { OnOk result (out.new ≡ out.old ++ sent_by self.now (released_above before self.now)) }
        ensures unsent { OnErr result (out.new ≡ out.old) }
        ensures messages { IsEpoch (sequencer_of self.now).epoch → AreMessages out.old → AreMessages out.new }
    {
        if self.released() > before {
            self.tell(out)?;
        }
        Ok(())
    }
}
