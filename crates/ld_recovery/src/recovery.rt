// The recovery of an epoch.
ghost use Rattle.std.specs.Prelude.{◌≡◌, ◌≤◌, ◌<◌, ◌+◌, ◌-◌, ◌^◌, ◌++◌, [], ℕ, Bool, true, nat_le, if◌then◌else◌, Some, None, IfOk, OnOk, OnErr};
ghost use Rattle.ld_ids.specs.declared.set.Spec.{Spec as Config};
ghost use Rattle.ld_msg.specs.declared.msg.Summary.{Summary as Told};
ghost use Rattle.ld_msg.specs.declared.msg.Body.TheVariants.{Stored, SealedHere, LostHere, CleanHere, TrimmedHere, DigestPage};
ghost use Rattle.ld_msg.specs.Register.{Granted};
ghost use Rattle.ld_node_bounds.specs.Messages.{AreMessages};
ghost use Rattle.ld_recovery.specs.Stages.{IsOf};
ghost use Rattle.ld_msg.specs.Bounds.{IsLng, IsMessage, IsSummary, IsPage};
ghost use Rattle.ld_lsn.specs.Number.{epoch_of};
ghost use Rattle.ld_msg.specs.Digest.{no_digest};
ghost use Rattle.ld_msg.specs.Sequencer.{digest_asks};
ghost use Rattle.ld_recovery.specs.Recovering.{Goes, is_going, started, is_spent_in, spends, replied, reply_messages, sender_of, losing, loss_messages, retried, retry_messages, Closing, closed_by, close_messages, messages, ending_behind, IsReply, IsRecovery, IsClosing};
ghost use Rattle.ld_recovery.specs.States.{state_of, answer_of, is_epoch_answer, shown_ending, ended_state, IsEnding, IsTold};
ghost use Rattle.ld_recovery.specs.declared.state.State.TheVariants as states;

use crate::send::Sender;
use crate::stage::{Scope, Stage};
use crate::state::{Answer, State};
use ld_copyset::NodeList;
use ld_digest::{Digest, Page};
use ld_ids::{NoMemory, NodeId, Spec};
use ld_lsn::Lsn;
use ld_msg::{Body, Msg, Outbox, Summary, Who};
use std::alloc::Global;
use std::marker::Model;

/// How a recovery ended, where it did.
#[derive(Clone, Copy)]
pub(crate) enum Ending {
    Goes,
    Done(Summary),
    Gone(u32),
    Preempted(u32),
}

impl Ending {
    // The state of a recovery that ended so, where it did.
    fn state(&self) -> Option<State>
        ensures { result ≡ ended_state self.now }
    {
        match self {
            Ending::Goes => None,
            Ending::Done(summary) => Some(State::Done(*summary)),
            Ending::Gone(lce) => Some(State::Gone(*lce)),
            Ending::Preempted(by) => Some(State::Preempted(*by)),
        }
    }
}

/// The recovery of an epoch by the sequencer of a later one: the nodes are sealed and tell what they have; from what
/// enough of them told a plan is made and stored; once it is stored the epoch is to be closed in the register. Where each
/// node has told all or is lost, and it isn't enough, the digest is spent: a look at the register decides whether a plan is
/// made that says what is lost.
#[derive(Drop)]
pub struct Recovery {
    spec: Spec,
    epoch: u32,
    ballot: u32,
    lost: NodeList,
    stage: Stage,
    ending: Ending,
}

impl Model for Recovery {
    ghost use Rattle.std.specs.Prelude.{◌≡◌, ◌≤◌, ◌<◌, ◌-◌, ◌^◌};
    ghost use Rattle.ld_recovery.specs.Recovering.{Recovering};
    ghost use Rattle.ld_recovery.specs.Stages.{shown, IsOf};
    ghost use Rattle.ld_recovery.specs.States.{shown_ending, IsEnding};
    ghost use Rattle.ld_sequencer_bounds.specs.Sequencers.{IsStage, IsNamed};

    ghost Value = { Recovering };

    ghost view = { λ a. record { ballot = a.ballot; recovery = record { epoch = a.epoch; spec = a.spec; lost = a.lost; stage = shown a.stage }; ending = shown_ending a.ending } };

    ghost invariant = { λ a. IsOf a.spec a.epoch a.ballot a.stage × (1 ≤ a.spec.r) × (1 ≤ a.epoch) × (a.epoch < a.ballot) × (a.ballot ≤ 2 ^ 32 - 2) × IsEnding a.epoch a.ending × IsStage a.epoch (shown a.stage) × IsNamed a.spec };
}

impl Recovery {
    /// Begins to recover the epoch of the log, with what was fixed for it, by the sequencer of a later one: all its nodes are
    /// asked for what they have.
    /// Without memory nothing is sent. Behind messages it sends messages.
    pub fn start(
        alloc: Global,
        spec: &Spec,
        epoch: u32,
        ballot: u32,
        out: &mut Outbox,
    ) -> Result<Recovery, NoMemory>
        requires factor { 1 ≤ spec.now.r }
        requires epoch { 1 ≤ epoch }
        requires later { epoch < ballot }
        requires ballot { ballot ≤ 2 ^ 32 - 2 }
        ensures value { IfOk result (λ recovery. recovery ≡ started spec.now epoch ballot) }
        ensures sent { OnOk result (out.new ≡ out.old ++ messages (started spec.now epoch ballot) (digest_asks (no_digest spec.now epoch))) }
        ensures unsent { OnErr result (out.new ≡ out.old) }
        ensures messages { AreMessages out.old → AreMessages out.new }
    {
        let _ = (spec.log.number(), spec.set.len());
        let digest = Digest::new(alloc, spec, epoch)?;
        let sender = Sender {
            log: spec.log,
            epoch: ballot,
        };
        sender.ask_for_digest(digest.told(), out)?;
        Ok(Recovery {
            spec: *spec,
            epoch,
            ballot,
            lost: NodeList::empty(),
            stage: Stage::Seals(digest),
            ending: Ending::Goes,
        })
    }

    /// The epoch that is recovered.
    pub fn epoch(&self) -> u32
        ensures { result ≡ self.now.recovery.epoch }
    {
        self.epoch
    }

    /// What was fixed for the epoch that is recovered.
    pub fn spec(&self) -> &Spec
        ensures { result.now ≡ self.now.recovery.spec }
    {
        &self.spec
    }

    /// Where it stands. A summary that it is closing or done with is one that the register takes for its epoch; one that it
    /// is closing with names its ballot.
    pub fn state(&self) -> State
        ensures value { result ≡ state_of self.now }
        ensures holds { IsRecovery self.now }
        ensures closing { (summary : Told) (short : Bool) → result ≡ states.Closing summary short → IsClosing self.now summary short }
        ensures done { (summary : Told) → result ≡ states.Done summary → IsSummary self.now.recovery.epoch summary }
    {
        self.ending.state().unwrap_or(self.stage.state())
    }

    /// Whether the digest is spent: each node has told all or is lost, and it isn't enough. The register is to be looked at
    /// then, and where the epoch is open and the recovery's ballot the greatest one, `lose` is called.
    pub fn spent(&self) -> bool
        ensures { result ≡ is_spent_in self.now }
    {
        self.goes_on() && self.stage.spent(&self.spec)
    }

    /// Whether a node's message would leave the digest spent: a page that is taken, or word that a node is lost. Then
    /// `on_reply` takes it, sends nothing and waits.
    pub fn spends(&self, msg: &Msg) -> bool
        requires { IsMessage msg.now }
        ensures { result ≡ spends self.now (sender_of msg.now.from) msg.now.body }
    {
        match msg.from {
            Who::Node(node) => self.goes_on() && self.spent_by(node, &msg.body),
            _ => false,
        }
    }

    // Whether a node's message would leave the digest of a recovery that goes on spent.
    fn spent_by(&self, node: NodeId, body: &Body) -> bool
        ensures { self.now.ending ≡ Goes → result ≡ spends self.now node body.now }
    {
        match body {
            Body::LostHere { number, .. } => {
                let (epoch, _) = number.home();
                self.epoch == epoch && self.stage.spent_by_loss(&self.spec, node)
            }
            Body::DigestPage { from, upto, .. } => {
                self.epoch == from.epoch()
                    && self.stage.spent_by_page(&self.spec, node, *from, *upto)
            }
            _ => false,
        }
    }

    /// What has been told is planned as what is lost, and the plan is sent to all nodes that aren't lost. The digest is
    /// spent, the epoch is open, and the recovery's ballot is the greatest one. Without memory nothing is sent, and the
    /// recovery isn't used again. Behind messages it sends messages.
    pub fn lose(&mut self, alloc: Global, out: &mut Outbox) -> Result<(), NoMemory>
        requires { is_spent_in self.old ≡ true }
        ensures value { OnOk result (self.new ≡ losing self.old) }
        ensures sent { OnOk result (out.new ≡ out.old ++ loss_messages self.old) }
        ensures unsent { OnErr result (out.new ≡ out.old) }
        ensures messages { AreMessages out.old → AreMessages out.new }
    {
        let sender = self.sender();
        let scope = Scope {
            spec: &self.spec,
            sender: &sender,
            epoch: self.epoch,
            lost: &self.lost,
        };
        self.stage.lose(alloc, &scope, out)?;
        Ok(())
    }

    /// A node's message comes. A recovery that has ended ignores it, and so does any of what doesn't speak of its epoch, but
    /// for a seal of a greater ballot and a close of the sequencer's own epoch, which preempt. Other messages than a node's
    /// replies do nothing. A message that leaves the digest spent is taken, and nothing is sent. Without memory nothing is
    /// sent, and the recovery isn't used again. Behind messages it sends messages.
    pub fn on_reply(&mut self, alloc: Global, msg: &Msg, out: &mut Outbox) -> Result<(), NoMemory>
        requires { IsMessage msg.now }
        ensures value { OnOk result (self.new ≡ replied self.old (sender_of msg.now.from) msg.now.body) }
        ensures sent { OnOk result (out.new ≡ out.old ++ reply_messages self.old (sender_of msg.now.from) msg.now.body) }
        ensures done { OnOk result ((summary : Told) → state_of self.new ≡ states.Done summary → IsTold self.old msg.now.body summary) }
        ensures unsent { OnErr result (out.new ≡ out.old) }
        ensures messages { AreMessages out.old → AreMessages out.new }
    {
        if !self.goes_on() {
            return Ok(());
        }
        match msg.from {
            Who::Node(node) => self.reply(alloc, node, &msg.body, out),
            _ => Ok(()),
        }
    }

    // A node's message comes to a recovery that goes on.
    fn reply(
        &mut self,
        alloc: Global,
        node: NodeId,
        body: &Body,
        out: &mut Outbox,
    ) -> Result<(), NoMemory>
        requires going { self.old.ending ≡ Goes }
        requires reply { IsReply body.now }
        ensures value { OnOk result (self.new ≡ replied self.old node body.now) }
        ensures sent { OnOk result (out.new ≡ out.old ++ reply_messages self.old node body.now) }
        ensures unsent { OnErr result (out.new ≡ out.old) }
        ensures messages { AreMessages out.old → AreMessages out.new }
    {
        match body {
            Body::Stored { number } => {
                self.on_stored(*number, node);
                Ok(())
            }
            Body::SealedHere { number, sealed } => {
                self.on_sealed(*number, *sealed, node);
                Ok(())
            }
            Body::LostHere { number, .. } => self.on_lost(alloc, *number, node, out),
            Body::CleanHere { number, summary } => self.on_clean(*number, summary, node, out),
            Body::TrimmedHere { number, trim } => {
                self.on_trimmed(*number, *trim, node);
                Ok(())
            }
            Body::DigestPage {
                from,
                upto,
                trim,
                lng,
                entries,
            } => {
                let page = Page {
                    from: *from,
                    upto: *upto,
                    trim: *trim,
                    lng: *lng,
                    entries,
                };
                self.on_page(alloc, node, &page, out)
            }
            _ => Ok(()),
        }
    }

    fn on_stored(&mut self, number: Lsn, node: NodeId)
        requires { self.old.ending ≡ Goes }
        ensures value { self.new ≡ replied self.old node (Stored number) }
        ensures quiet { reply_messages self.old node (Stored number) ≡ [] }
    {
        if !self.spec.set.has(node) {
            return;
        }
        if number.epoch() == self.epoch {
            self.stage.store(self.ballot, &self.lost, number, node);
        }
    }

    fn on_trimmed(&mut self, number: Lsn, trim: Lsn, node: NodeId)
        requires { self.old.ending ≡ Goes }
        ensures value { self.new ≡ replied self.old node (TrimmedHere number trim) }
        ensures quiet { reply_messages self.old node (TrimmedHere number trim) ≡ [] }
    {
        if !self.spec.set.has(node) {
            return;
        }
        if number.epoch() == self.epoch {
            self.stage.trim(self.ballot, &self.lost, trim, node);
        }
    }

    fn on_sealed(&mut self, number: Lsn, sealed: u32, node: NodeId)
        requires { self.old.ending ≡ Goes }
        ensures value { self.new ≡ replied self.old node (SealedHere number sealed) }
        ensures quiet { reply_messages self.old node (SealedHere number sealed) ≡ [] }
    {
        let _ = (number, node);
        if self.ballot < sealed {
            self.ending = Ending::Preempted(sealed);
        }
    }

    fn on_lost(
        &mut self,
        alloc: Global,
        number: Lsn,
        node: NodeId,
        out: &mut Outbox,
    ) -> Result<(), NoMemory>
        requires { self.old.ending ≡ Goes }
        ensures value { OnOk result ((round generation end : ℕ) → self.new ≡ replied self.old node (LostHere number round generation end)) }
        ensures sent { OnOk result ((round generation end : ℕ) → out.new ≡ out.old ++ reply_messages self.old node (LostHere number round generation end)) }
        ensures unsent { OnErr result (out.new ≡ out.old) }
        ensures messages { AreMessages out.old → AreMessages out.new }
    {
        let (epoch, _) = number.home();
        if epoch == self.epoch {
            self.lost.add(node);
            let sender = self.sender();
            let scope = Scope {
                spec: &self.spec,
                sender: &sender,
                epoch: self.epoch,
                lost: &self.lost,
            };
            self.stage.lose_node(alloc, &scope, node, out)?;
        }
        Ok(())
    }

    fn on_clean(
        &mut self,
        number: Lsn,
        summary: &Summary,
        node: NodeId,
        out: &mut Outbox,
    ) -> Result<(), NoMemory>
        requires going { self.old.ending ≡ Goes }
        requires summary { IsSummary (epoch_of number) summary.now }
        ensures value { OnOk result (self.new ≡ replied self.old node (CleanHere number summary.now)) }
        ensures sent { OnOk result (out.new ≡ out.old ++ reply_messages self.old node (CleanHere number summary.now)) }
        ensures unsent { OnErr result (out.new ≡ out.old) }
        ensures messages { AreMessages out.old → AreMessages out.new }
    {
        let (epoch, _) = number.home();
        if epoch == self.ballot {
            self.ending = Ending::Preempted(summary.ballot);
            return Ok(());
        }
        if epoch == self.epoch {
            let sender = self.sender();
            sender.tell_clean(&self.spec.set, epoch, summary, out)?;
            self.ending = Ending::Done(*summary);
        }
        Ok(())
    }

    fn on_page(
        &mut self,
        alloc: Global,
        node: NodeId,
        page: &Page,
        out: &mut Outbox,
    ) -> Result<(), NoMemory>
        requires going { self.old.ending ≡ Goes }
        requires page { IsPage page.now.from page.now.upto page.now.entries.now }
        requires lng { IsLng page.now.lng }
        ensures value { OnOk result (self.new ≡ replied self.old node (DigestPage page.now.from page.now.upto page.now.trim page.now.lng page.now.entries.now)) }
        ensures sent { OnOk result (out.new ≡ out.old ++ reply_messages self.old node (DigestPage page.now.from page.now.upto page.now.trim page.now.lng page.now.entries.now)) }
        ensures unsent { OnErr result (out.new ≡ out.old) }
        ensures messages { AreMessages out.old → AreMessages out.new }
    {
        if page.from.epoch() == self.epoch {
            let sender = self.sender();
            let scope = Scope {
                spec: &self.spec,
                sender: &sender,
                epoch: self.epoch,
                lost: &self.lost,
            };
            let _ = page.trim.value();
            self.stage.take_page(alloc, &scope, node, page, out)?;
        }
        Ok(())
    }

    /// What is still wanted is asked for again: a page of each node that isn't whole, or, in a new wave, each item that has
    /// too few nodes; a plan that is ready is to be closed then. A recovery whose digest is spent, that is closing or has
    /// ended sends nothing. Without memory nothing is sent, and the recovery isn't used again. Behind messages it sends
    /// messages.
    pub fn retry(&mut self, alloc: Global, out: &mut Outbox) -> Result<(), NoMemory>
        ensures value { OnOk result (self.new ≡ retried self.old) }
        ensures sent { OnOk result (out.new ≡ out.old ++ retry_messages self.old) }
        ensures unsent { OnErr result (out.new ≡ out.old) }
        ensures messages { AreMessages out.old → AreMessages out.new }
    {
        if self.goes_on() {
            let sender = self.sender();
            self.stage.try_again(alloc, &sender, &self.lost, out)?;
        }
        Ok(())
    }

    /// The register's answer to the close. The recovery is closing. Without memory nothing is sent. Behind messages it sends
    /// messages.
    pub fn closed(&mut self, answer: Answer, out: &mut Outbox) -> Result<(), NoMemory>
        requires closing { (summary : Told) × (short : Bool) × Closing self.old summary short }
        requires answer { is_epoch_answer answer ≡ true }
        ensures value { (summary : Told) (short : Bool) → Closing self.old summary short → OnOk result (self.new ≡ closed_by self.old summary (answer_of answer)) }
        ensures sent { (summary : Told) (short : Bool) → Closing self.old summary short → OnOk result (out.new ≡ out.old ++ close_messages self.old summary (answer_of answer)) }
        ensures unsent { OnErr result (out.new ≡ out.old) }
        ensures messages { AreMessages out.old → AreMessages out.new }
    {
        match answer {
            Answer::Taken => self.done(out),
            Answer::Behind(lce) => {
                self.ending = behind(self.ballot, lce);
                Ok(())
            }
            Answer::Overtaken(epoch) => {
                self.ending = Ending::Preempted(epoch);
                Ok(())
            }
            Answer::Failed => Ok(()),
        }
    }

    // The epoch is closed as planned.
    fn done(&mut self, out: &mut Outbox) -> Result<(), NoMemory>
        requires { (summary : Told) × (short : Bool) × Closing self.old summary short }
        ensures value { (summary : Told) (short : Bool) → Closing self.old summary short → OnOk result (self.new ≡ closed_by self.old summary Granted) }
        ensures sent { (summary : Told) (short : Bool) → Closing self.old summary short → OnOk result (out.new ≡ out.old ++ close_messages self.old summary Granted) }
        ensures unsent { OnErr result (out.new ≡ out.old) }
        ensures messages { AreMessages out.old → AreMessages out.new }
    {
        if let Some(summary) = self.stage.summary() {
            let sender = self.sender();
            sender.tell_clean(&self.spec.set, self.epoch, &summary, out)?;
            self.ending = Ending::Done(summary);
        }
        Ok(())
    }

    // Whether it hasn't ended.
    fn goes_on(&self) -> bool
        ensures { result ≡ is_going self.now.ending }
    {
        match self.ending {
            Ending::Goes => true,
            Ending::Done(_) => false,
            Ending::Gone(_) => false,
            Ending::Preempted(_) => false,
        }
    }

    fn sender(&self) -> Sender
        ensures log { result.log ≡ self.now.recovery.spec.log }
        ensures epoch { result.epoch ≡ self.now.ballot }
    {
        Sender {
            log: self.spec.log,
            epoch: self.ballot,
        }
    }
}

// How a recovery ends where the register's last closed epoch is another one than the one before.
fn behind(ballot: u32, lce: u32) -> Ending
    requires { lce ≤ 2 ^ 32 - 2 }
    ensures ending { shown_ending result ≡ ending_behind lce (if nat_le ballot lce then Some (lce + 1) else None) }
    ensures open { (epoch : ℕ) → IsEnding epoch result }
{
    if ballot <= lce {
        Ending::Preempted(lce + 1)
    } else {
        Ending::Gone(lce)
    }
}
