// The appends that wait.
ghost use Rattle.std.specs.Prelude.{◌≡◌, ◌<◌, ◌≤◌, ◌+◌, ◌-◌, ◌^◌, ℕ, length, ◌++◌, map, drop, set, slice_get, Some, None, IfSome, IfNone, IfOk, OnOk, OnErr};
ghost use Rattle.ld_table.specs.Table.{find};
ghost use Rattle.ld_msg.specs.declared.msg.Who.TheVariants.{Sequencer as of_sequencer};
ghost use Rattle.ld_msg.specs.Network.{posted};
ghost use Rattle.ld_msg.specs.Bounds.{IsEpoch};
ghost use Rattle.ld_msg.specs.Sequencer.{append_stores, payload_limit};
ghost use Rattle.ld_node_bounds.specs.Messages.{AreMessages};
ghost use Rattle.ld_lsn.specs.Number.{numbered};
ghost use Rattle.ld_window.specs.Flags.{leading};
ghost use Rattle.ld_appender.specs.Waiting.{Waiting, with_stored, is_enough};
ghost use Rattle.ld_sequencer.specs.Appends.{empty_row, next_place, pushed, stores, acks, raises, flags_after, raised_one, all_acked};
ghost use Rattle.ld_recovery.specs.Sending.{BeginsWith};

use crate::round::Round;
use ld_appender::{Pending, Progress};
use ld_copyset::NodeList;
use ld_ids::{NoMemory, NodeId, Payload, Spec};
use ld_lsn::Lsn;
use ld_msg::Outbox;
use ld_window::Window;
use std::alloc::Global;
use std::collections::VecDeque;
use std::marker::Model;

/// How many numbers may stand above the last one such that it and all below are acknowledged.
const LIMIT: u32 = 128;

/// The appends of an epoch from the first one on that isn't acknowledged, in the order of their numbers.
#[derive(Drop)]
pub struct Row {
    spec: Spec,
    epoch: u32,
    window: Window,
    waiting: VecDeque<Pending>,
}

impl Model for Row {
    ghost use Rattle.ld_sequencer.specs.Appends.{Row, shown, IsInStep};

    ghost Value = { Row };

    ghost view = { λ row. shown row.spec row.epoch row.window row.waiting.items };

    ghost invariant = { λ row. IsInStep row.spec.r row.window row.waiting.items };
}

impl Row {
    /// No append yet, in an epoch of a log.
    pub fn new(alloc: Global, spec: &Spec, epoch: u32) -> Result<Row, NoMemory>
        requires { 1 ≤ spec.now.r }
        ensures { IfOk result (λ row. row ≡ empty_row spec.now epoch) }
    {
        let window = Window::with(alloc, LIMIT)?;
        Ok(Row {
            spec: *spec,
            epoch,
            window,
            waiting: VecDeque::new(alloc),
        })
    }

    /// What is fixed for the epoch.
    pub fn spec(&self) -> &Spec
        ensures { result.now ≡ self.now.spec }
    {
        &self.spec
    }

    /// The epoch.
    pub fn epoch(&self) -> u32
        ensures { result ≡ self.now.epoch }
    {
        self.epoch
    }

    /// The greatest offset such that it and all below are acknowledged, 0 where the first isn't.
    pub fn lng(&self) -> u32
        ensures { result ≡ self.now.lng }
    {
        self.window.lng()
    }

    /// How many wait.
    #[tactic(auto, using(crate::proofs::Rows::row_rules))]
    pub fn len(&self) -> usize
        ensures { result ≡ length self.now.appends }
    {
        self.waiting.len()
    }

    /// Whether each append is acknowledged.
    pub fn is_acked(&self) -> bool
        ensures { result ≡ all_acked self.now.spec self.now.appends }
    {
        self.waiting.len() == 0
    }

    /// The offset that the next append gets.
    #[tactic(auto, using(crate::proofs::Rows::row_rules))]
    pub fn next_place(&self) -> u32
        ensures { result ≡ next_place self.now }
    {
        self.window.lng() + self.waiting.len() as u32 + 1
    }

    /// The next append waits; no node has stored it. Without memory nothing changes.
    #[tactic(auto, using(crate::proofs::Rows::push_rules))]
    pub fn push(&mut self, payload: Payload) -> Result<(), NoMemory>
        requires room { length self.old.appends < 128 }
        requires place { next_place self.old ≤ 2 ^ 32 - 2 }
        requires short { length payload ≤ payload_limit }
        ensures ok { OnOk result (self.new ≡ pushed self.old payload) }
        ensures err { OnErr result (self.new ≡ self.old) }
    {
        let esn = self.next_place();
        let pending = Pending::new(Lsn::new(self.epoch, esn), payload, self.spec.r);
        self.waiting.push_back(pending)?;
        let _ = self.window.push(esn);
        Ok(())
    }

    /// A node stored what has the number. Answers whether that acknowledges it: whether it waits and as many nodes as
    /// the epoch's factor says have stored it now, and hadn't before.
    #[tactic(auto, using(crate::proofs::Rows::row_rules))]
    pub fn stored(&mut self, node: NodeId, number: Lsn) -> bool
        ensures row { self.new ≡ stores self.old node number (find number self.old.appends) }
        ensures acked { result ≡ acks self.old.spec node (find number self.old.appends) }
    {
        match self.place_of(number) {
            Some(place) => self.count(place, node),
            None => false,
        }
    }

    /// Each append that isn't acknowledged goes to its next wave.
    #[tactic(auto, using(crate::proofs::Waves::wave_rules))]
    pub fn raise(&mut self)
        ensures { self.new ≡ raises self.old }
    {
        raise_all(&mut self.waiting);
    }

    /// Sends each append that isn't acknowledged, in the order of their numbers, to those nodes of its wave's choice that
    /// haven't stored it; nodes that are lost are chosen only where too few others are left. Without memory nothing is sent.
    /// Behind messages it sends messages.
    #[tactic(auto, using(crate::proofs::Begins::back_rules, crate::proofs::Bounded::message_rules))]
    pub fn send(&self, alloc: Global, lost: &NodeList, out: &mut Outbox) -> Result<(), NoMemory>
        ensures sent { OnOk result (out.new ≡ out.old ++ posted (of_sequencer self.now.epoch) self.now.spec.log (append_stores self.now.spec lost.now self.now.lng self.now.appends)) }
        ensures unsent { OnErr result (out.new ≡ out.old) }
        ensures messages { IsEpoch self.now.epoch → AreMessages out.old → AreMessages out.new }
    {
        let _ = (self.spec.log.number(), self.spec.set.len());
        let count = out.len();
        match self.send_each(alloc, lost, out) {
            Ok(()) => Ok(()),
            Err(_) => {
                out.truncate(count);
                Err(NoMemory)
            }
        }
    }

    /// Sends each append that isn't acknowledged. Without memory some may have been sent.
    fn send_each(&self, alloc: Global, lost: &NodeList, out: &mut Outbox) -> Result<(), NoMemory>
        ensures sent { OnOk result (out.new ≡ out.old ++ posted (of_sequencer self.now.epoch) self.now.spec.log (append_stores self.now.spec lost.now self.now.lng self.now.appends)) }
        ensures begins { OnErr result (BeginsWith out.old out.new) }
    {
        let lng = self.window.lng();
        let round = Round {
            spec: self.spec,
            epoch: self.epoch,
            lng,
            excluded: lost.to_set(),
        };
        let first = Lsn::new(self.epoch, lng + 1).value();
        'waiting: for place in 0..self.waiting.len() {
            let number = Lsn::from_u64(first + place as u64);
            round.send(alloc, number, &self.waiting[place], out)?;
        }
        Ok(())
    }

    /// The offset of a number among those that wait.
    #[tactic(auto, using(crate::proofs::Rows::row_rules))]
    fn place_of(&self, number: Lsn) -> Option<usize>
        ensures some { IfSome result (λ i. (i < length self.now.appends) × (number ≡ numbered self.now.epoch (self.now.lng + 1) + i)) }
        ensures none { IfNone result (find number self.now.appends ≡ None) }
    {
        let first = Lsn::new(self.epoch, self.window.lng() + 1).value();
        let value = number.value();
        if value < first || self.waiting.len() as u64 <= value - first {
            return None;
        }
        Some((value - first) as usize)
    }

    /// A node stored the append of this offset.
    fn count(&mut self, place: usize, node: NodeId) -> bool
        requires { place < length self.old.appends }
        ensures row { (number : ℕ) → number ≡ numbered self.old.epoch (self.old.lng + 1) + place → self.new ≡ stores self.old node number (find number self.old.appends) }
        ensures acked { (number : ℕ) → number ≡ numbered self.old.epoch (self.old.lng + 1) + place → result ≡ acks self.old.spec node (find number self.old.appends) }
    {
        let lng = self.window.lng();
        let (was, is) = store_at(&mut self.waiting, place, node);
        mark(&mut self.window, lng, place as u32, is);
        drop_first(&mut self.waiting, self.window.lng() - lng);
        is && !was
    }
}

/// A node stored the append of this offset. Answers whether enough nodes had before, and have now.
fn store_at(waiting: &mut VecDeque<Pending>, place: usize, node: NodeId) -> (bool, bool)
    requires { place < length waiting.old.items }
    ensures { (w : Waiting) → slice_get waiting.old.items place ≡ Some w → (waiting.new.items ≡ set waiting.old.items place (with_stored w node)) × (result.0 ≡ is_enough w) × (result.1 ≡ is_enough (with_stored w node)) }
{
    let pending = &mut waiting[place];
    let was = pending.progress() == Progress::Done;
    let is = pending.stored(node) == Progress::Done;
    (was, is)
}

/// Each one that isn't stored often enough goes to its next wave.
fn raise_all(waiting: &mut VecDeque<Pending>)
    ensures { waiting.new.items ≡ map raised_one waiting.old.items }
{
    'waiting: for place in 0..waiting.len() {
        raise_at(waiting, place);
    }
}

/// The one of this offset goes to its next wave, where it isn't stored often enough.
fn raise_at(waiting: &mut VecDeque<Pending>, place: usize)
    requires { place < length waiting.old.items }
    ensures len { length waiting.new.items ≡ length waiting.old.items }
    ensures items { (w : Waiting) → slice_get waiting.old.items place ≡ Some w → waiting.new.items ≡ set waiting.old.items place (raised_one w) }
{
    let pending = &mut waiting[place];
    if pending.progress() == Progress::More {
        pending.raise();
    }
}

/// Marks the number of a place above the last one such that it and all below are stored, where it is stored.
fn mark(window: &mut Window, lng: u32, place: u32, is_stored: bool)
    requires lng { lng ≡ leading window.old }
    requires place { lng + place < length window.old }
    requires small { length window.old ≤ 2 ^ 32 - 2 }
    ensures { window.new ≡ flags_after is_stored (lng + place) window.old }
{
    if is_stored {
        window.stored(lng + place + 1);
    }
}

/// Takes the first ones out.
fn drop_first(waiting: &mut VecDeque<Pending>, count: u32)
    requires { count ≤ length waiting.old.items }
    ensures { waiting.new.items ≡ drop count waiting.old.items }
{
    'first: for _ in 0..count {
        waiting.pop_front();
    }
}
