// A log's sequencer.
ghost use Rattle.std.specs.Option.{unwrap_or};
ghost use Rattle.std.specs.Prelude.{◌≡◌, ◌⊎◌, ◌≤◌, ◌++◌, [], ◌∷◌, ℕ, true, false, length, is_some, nat_lt, if◌then◌else◌, None, Some, IfOk, IfErr, OnOk, OnErr, IsErrOf};
ghost use Rattle.ld_io.specs.Causes.{Rose};
ghost use Rattle.ld_ids.specs.Set.{members};
ghost use Rattle.ld_ids.specs.declared.set.Spec.{Spec as Fixed};
ghost use Rattle.ld_node_bounds.specs.Messages.{AreMessages};
ghost use Rattle.ld_lsn.specs.Number.{numbered};
ghost use Rattle.ld_msg.specs.Bounds.{IsMessage};
ghost use Rattle.ld_msg.specs.declared.msg.Body.TheVariants.{Trim};
ghost use Rattle.ld_msg.specs.Register.{Register as Contents, Answer as Ends, View, is_crowded};
ghost use Rattle.ld_msg.specs.Sequencer.{released_of, appending, Numbered, appended, first_stores, next_esn, to_each};
ghost use Rattle.ld_register.specs.Bounds.{IsSpec, IsSpecFor};
ghost use Rattle.ld_register.specs.Calls.{ChangedOrNot, IsGrant, Keeps, is_full, close_length};
ghost use Rattle.ld_register.specs.declared.fault.RegisterFault.TheVariants as registers;
ghost use Rattle.ld_sequencer.specs.declared.fault.SequencerFault.TheVariants as faults;
ghost use Rattle.ld_sequencer.specs.Looks.{shows};
ghost use Rattle.ld_sequencer.specs.Own.{append_fault, trim_fault, listed};
ghost use Rattle.ld_sequencer.specs.Register.{after_tries};
ghost use Rattle.ld_sequencer.specs.declared.fault.CloseFault.TheVariants as unclosed;
ghost use Rattle.ld_sequencer.specs.Whole.{as_now, sent_as, looks_of, pending_stores, raised_whole, reply_acts, retry_acts, spends_by, tried, called_by, Acted, ActedBy, IsCaused, IsFresh, IsRefused, Unlooked, Unseen, IsActive, is_settled};

use crate::fault::SequencerFault;
use crate::look::look_at;
use crate::origin::Origin;
use crate::own::OwnEpoch;
use crate::report::{Report, lacks_memory};
use crate::start::{next_recovery, send_all};
use ld_ids::{NoMemory, Payload, Spec};
use ld_lsn::Lsn;
use ld_msg::{Msg, Outbox};
use ld_recovery::Recovery;
use ld_register::{Grant, Register};
use std::alloc::Global;
use std::marker::Model;

/// A log's sequencer: its own epoch, and the recovery of the first epoch before it that isn't closed.
#[derive(Drop)]
pub struct Sequencer {
    pub(crate) own: OwnEpoch,
    pub(crate) recovery: Option<Recovery>,
}

impl Model for Sequencer {
    ghost use Rattle.ld_sequencer.specs.Whole.{Whole, joined, AreOne};

    ghost Value = { Whole };

    ghost view = { λ s. joined s.own s.recovery };

    ghost invariant = { λ s. AreOne s.own s.recovery };
}

impl Sequencer {
    /// What is fixed for its epoch.
    pub fn spec(&self) -> &Spec
        ensures { result.now ≡ self.now.sequencer.spec }
    {
        self.own.spec()
    }

    /// Its epoch.
    pub fn epoch(&self) -> u32
        ensures { result ≡ self.now.sequencer.epoch }
    {
        self.own.epoch()
    }

    /// The greatest number such that readers may have all up to it: before all earlier epochs are closed the end of the
    /// last closed one, and from then on the last of its own numbers such that it and all below are acknowledged.
    pub fn released(&self) -> Lsn
        ensures { result ≡ released_of self.now.sequencer }
    {
        self.own.released()
    }

    /// Whether nothing is left to be done: each append is acknowledged, and all epochs before its own are closed.
    pub fn settled(&self) -> bool
        ensures { result ≡ is_settled self.now }
    {
        self.own.settled()
    }

    /// Numbers the payload and sends it to as many nodes of its epoch as are to store it, and some more as was fixed for it. It is refused
    /// with `PayloadTooLong` and its length exactly above 65,535 bytes, then with `Preempted` and the greater epoch exactly
    /// where one was learnt, then with `EpochFull` exactly where the next offset is 2^32-1, then with `WindowFull` exactly
    /// where 128 appends wait, and then when out of memory. A refused append has changed nothing and sent nothing.
    #[tactic(auto, unfolding(ld_msg::specs::Sequencer::appending))]
    pub fn append(
        &mut self,
        alloc: Global,
        payload: Payload,
        out: &mut Outbox,
    ) -> Result<Lsn, SequencerFault>
        ensures number { IfOk result (λ number. number ≡ numbered self.old.sequencer.epoch (next_esn self.old.sequencer)) }
        ensures taken { OnOk result (appending self.old.sequencer payload ≡ Numbered) }
        ensures now { OnOk result (self.new ≡ as_now self.old (appended self.old.sequencer payload)) }
        ensures out { OnOk result (out.new ≡ out.old ++ sent_as self.old (first_stores self.old.sequencer payload)) }
        ensures refused { IfErr result (λ fault. fault ≡ append_fault (length payload) (appending self.old.sequencer payload)) }
        ensures same { OnErr result (self.new ≡ self.old) }
        ensures unsent { OnErr result (out.new ≡ out.old) }
        ensures messages { AreMessages out.old → AreMessages out.new }
    {
        self.own.append(alloc, payload, out)
    }

    /// Tells all nodes of the configuration that all up to the number may go. It is refused with `PastReleased` and the released
    /// number exactly where the number is above it, and then when out of memory. A refused trim has sent nothing.
    pub fn trim(&self, lsn: Lsn, out: &mut Outbox) -> Result<(), SequencerFault>
        ensures within { OnOk result (lsn ≤ released_of self.now.sequencer) }
        ensures out { OnOk result (out.new ≡ out.old ++ sent_as self.now (to_each (Trim lsn) (members self.now.origin.nodes))) }
        ensures refused { IfErr result (λ fault. fault ≡ trim_fault (released_of self.now.sequencer) lsn) }
        ensures unsent { OnErr result (out.new ≡ out.old) }
        ensures messages { AreMessages out.old → AreMessages out.new }
    {
        self.own.trim(lsn, out)
    }

    /// Takes a node's message. An append of its own is acknowledged by it where as many nodes of its epoch as the epoch's factor
    /// says have stored it now, and hadn't before. A seal of a greater epoch preempts it, and so does word that its own epoch
    /// is closed. What speaks of the epoch that is recovered goes to the recovery. Once its plan is stored the epoch is closed
    /// in the register, all its nodes are told so, and the next epoch is recovered, up to its own, with what the register
    /// shows of it; where another sequencer closed it, the recovery goes on behind the last closed epoch, or the sequencer is
    /// preempted, where that isn't before its own. A plan that each node of the epoch stored, unless it is lost, closes it too:
    /// short, which the register takes only as long as no greater epoch was handed out; the sequencer is preempted by that one
    /// otherwise. A close for which the register fails or is full is reported, with all else of the call done, and tried again
    /// by a retry alone; it is reported as failed only where the register's count of faults rose in the call, which else stays
    /// as it was. Where the released number rises all nodes of its epoch are told so. A preempted sequencer ignores all
    /// messages, and so it does those that are no node's.
    ///
    /// Where each node of the recovered epoch has told all that it has or is lost, and that isn't enough, the register is
    /// looked at in that same step: the epoch is closed as if word came so; or the sequencer is preempted by a greater epoch
    /// than its own; or else a plan is made that says what is lost. Where the register doesn't answer, the call is refused
    /// with `Register`, and `Failed` or `Damaged` as below: the rest of the call has been done, and a retry looks again.
    ///
    /// Where word comes that the recovered epoch is closed, and the next one is before its own, the register is looked at
    /// first. Where it doesn't answer, the call is refused with `Register`, and `Failed`, only where the count of faults rose,
    /// or `Damaged` and an offset: nothing has been done and nothing sent.
    ///
    /// It is refused with `Register` and `LogLimit` exactly where 64 other logs are held, and with `Register`, `Damaged` and a
    /// place where the register's bytes are no journal from there on: then all has been done but the close, which a retry
    /// tries again, and the register holds what it held. At `NoMemory` nothing is sent, and it isn't to be used again.
    ///
    /// Whatever the register answers, what a crash may leave of it is what it might leave before, with the close that was
    /// tried made or not.
    pub fn on_reply<G: Register>(
        &mut self,
        alloc: Global,
        msg: &Msg,
        reg: &mut G,
        out: &mut Outbox,
    ) -> Result<Report, SequencerFault>
        requires { IsMessage msg.now }
        ensures exact { (c : Contents) → G.tells reg.old c
            → IfOk result (λ report. Acted self.old self.new report out.old out.new (called_by self.old c (reply_acts (looks_of self.old c) self.old msg.now.from msg.now.body)).acts × G.tells reg.new (called_by self.old c (reply_acts (looks_of self.old c) self.old msg.now.from msg.now.body)).register) }
        ensures acted { IfOk result (λ report. ActedBy self.old self.new report out.old out.new (λ looks. reply_acts looks self.old msg.now.from msg.now.body)) }
        ensures held { (c : Contents) → G.holds reg.old c
            → IfOk result (λ report. (is_some report.register ≡ true) ⊎ (Acted self.old self.new report out.old out.new (called_by self.old c (reply_acts (looks_of self.old c) self.old msg.now.from msg.now.body)).acts × G.holds reg.new (called_by self.old c (reply_acts (looks_of self.old c) self.old msg.now.from msg.now.body)).register)) }
        ensures failed { IfOk result (λ report. report.register ≡ Some unclosed.Failed → Rose (G.faults reg.old) (G.faults reg.new)) }
        ensures full { G.told reg.old → IfOk result (λ report. report.register ≡ Some unclosed.Full → (c : Contents) × G.holds reg.old c × G.holds reg.new c × (is_full c close_length ≡ true)) }
        ensures steady { IfOk result (λ report. (report.register ≡ Some unclosed.Failed) ⊎ (G.faults reg.new ≡ G.faults reg.old)) }
        ensures unfailed { IfErr result (λ fault. (fault ≡ faults.NoMemory) ⊎ (fault ≡ faults.Register registers.Failed) ⊎ (G.faults reg.new ≡ G.faults reg.old)) }
        ensures unseen { IsErrOf result (faults.Register registers.Failed) → Rose (G.faults reg.old) (G.faults reg.new) }
        ensures refused { IfErr result (λ fault. Unseen self.old self.new fault out.old out.new msg.now.body ⊎ Unlooked self.old self.new fault out.old out.new self.old.sequencer [] (λ looks. reply_acts looks self.old msg.now.from msg.now.body) ⊎ ((looks : ℕ → View) → IsRefused self.old self.new fault out.old out.new (reply_acts looks self.old msg.now.from msg.now.body))) }
        ensures caused { G.told reg.old → IfErr result (λ fault. (fault ≡ faults.Register registers.Failed) ⊎ IsCaused (G.holds reg.old) (G.damaged reg.old) self.old.sequencer.log fault) }
        ensures crowded { (c : Contents) → G.tells reg.old c
            → IfErr result (λ fault. (fault ≡ faults.NoMemory) ⊎ ((fault ≡ faults.Register registers.LogLimit) × (is_crowded c self.old.sequencer.log ≡ true) × G.tells reg.new c)) }
        ensures room { (c : Contents) → G.tells reg.old c → OnOk result (((reply_acts (looks_of self.old c) self.old msg.now.from msg.now.body).tries ≡ []) ⊎ (is_crowded c self.old.sequencer.log ≡ false)) }
        ensures told { G.told reg.old → G.told reg.new }
        ensures done_or_not { (looks : ℕ → View) → G.told reg.old → ChangedOrNot (G.may_hold reg.old) (G.may_hold reg.new) (λ c. after_tries c self.old.sequencer.log (reply_acts looks self.old msg.now.from msg.now.body).tries) }
        ensures keeps { IfErr result (λ fault. (fault ≡ faults.NoMemory) ⊎ (fault ≡ faults.Register registers.Failed) ⊎ Keeps (G.holds reg.old) (G.holds reg.new) (G.may_hold reg.old) (G.may_hold reg.new)) }
        ensures itself { G.identity reg.new ≡ G.identity reg.old }
        ensures counts { G.faults reg.old ≤ G.faults reg.new }
        ensures unsent { IsErrOf result faults.NoMemory → out.new ≡ out.old }
        ensures messages { AreMessages out.old → AreMessages out.new }
    {
        if self.spends(msg) {
            return self.spend(alloc, msg, reg, out);
        }
        let epoch = self.epoch_begun(&msg.body);
        let origin = *self.own.origin();
        let next = look_at(alloc, self.own.spec().log, &origin.first, epoch, reg)?;
        self.take(alloc, msg, &next, reg, out)
    }

    /// Takes a message that leaves the recovery with no spent digest. `next` is shown of the epoch whose recovery it begins,
    /// where it begins one.
    fn take<G: Register>(
        &mut self,
        alloc: Global,
        msg: &Msg,
        next: &Spec,
        reg: &mut G,
        out: &mut Outbox,
    ) -> Result<Report, SequencerFault>
        requires message { IsMessage msg.now }
        requires next { IsSpecFor self.old.sequencer.log next.now }
        requires quiet { spends_by self.old msg.now.from msg.now.body ≡ false }
        ensures exact { (c : Contents) → G.tells reg.old c
            → IfOk result (λ report. Acted self.old self.new report out.old out.new (called_by self.old c (reply_acts (shows next.now) self.old msg.now.from msg.now.body)).acts × G.tells reg.new (called_by self.old c (reply_acts (shows next.now) self.old msg.now.from msg.now.body)).register) }
        ensures acted { IfOk result (λ report. (s : Fixed) × IsSpecFor self.old.sequencer.log s × (d : Ends) × Acted self.old self.new report out.old out.new (tried (shows s) (reply_acts (shows next.now) self.old msg.now.from msg.now.body) d)) }
        ensures held { (c : Contents) → G.holds reg.old c
            → IfOk result (λ report. (is_some report.register ≡ true) ⊎ (Acted self.old self.new report out.old out.new (called_by self.old c (reply_acts (shows next.now) self.old msg.now.from msg.now.body)).acts × G.holds reg.new (called_by self.old c (reply_acts (shows next.now) self.old msg.now.from msg.now.body)).register)) }
        ensures failed { IfOk result (λ report. report.register ≡ Some unclosed.Failed → Rose (G.faults reg.old) (G.faults reg.new)) }
        ensures full { G.told reg.old → IfOk result (λ report. report.register ≡ Some unclosed.Full → (c : Contents) × G.holds reg.old c × G.holds reg.new c × (is_full c close_length ≡ true)) }
        ensures steady { IfOk result (λ report. (report.register ≡ Some unclosed.Failed) ⊎ (G.faults reg.new ≡ G.faults reg.old)) }
        ensures unfailed { IfErr result (λ fault. (fault ≡ faults.NoMemory) ⊎ (G.faults reg.new ≡ G.faults reg.old)) }
        ensures refused { IfErr result (λ fault. IsRefused self.old self.new fault out.old out.new (reply_acts (shows next.now) self.old msg.now.from msg.now.body)) }
        ensures caused { G.told reg.old → IfErr result (IsCaused (G.holds reg.old) (G.damaged reg.old) self.old.sequencer.log) }
        ensures crowded { (c : Contents) → G.tells reg.old c
            → IfErr result (λ fault. (fault ≡ faults.NoMemory) ⊎ ((fault ≡ faults.Register registers.LogLimit) × (is_crowded c self.old.sequencer.log ≡ true) × G.tells reg.new c)) }
        ensures room { (c : Contents) → G.tells reg.old c → OnOk result (((reply_acts (shows next.now) self.old msg.now.from msg.now.body).tries ≡ []) ⊎ (is_crowded c self.old.sequencer.log ≡ false)) }
        ensures told { G.told reg.old → G.told reg.new }
        ensures done_or_not { G.told reg.old → ChangedOrNot (G.may_hold reg.old) (G.may_hold reg.new) (λ c. after_tries c self.old.sequencer.log (reply_acts (shows next.now) self.old msg.now.from msg.now.body).tries) }
        ensures keeps { IfErr result (λ fault. (fault ≡ faults.NoMemory) ⊎ Keeps (G.holds reg.old) (G.holds reg.new) (G.may_hold reg.old) (G.may_hold reg.new)) }
        ensures itself { G.identity reg.new ≡ G.identity reg.old }
        ensures counts { G.faults reg.old ≤ G.faults reg.new }
        ensures unsent { IsErrOf result faults.NoMemory → out.new ≡ out.old }
        ensures messages { AreMessages out.old → AreMessages out.new }
    {
        let was_closing = self.closing().is_some();
        let report = self.hear(alloc, msg, next, out)?;
        if was_closing {
            return Ok(report);
        }
        match self.closing() {
            Some(due) => self.close(alloc, &due, reg, out),
            None => Ok(report),
        }
    }

    /// Sends again what is still wanted: what the recovery waits for, or its close is tried again in the register, or the
    /// register is looked at again for what couldn't be seen, and each append that isn't acknowledged, in its next wave, to
    /// the nodes chosen that haven't stored it. A preempted sequencer does nothing.
    ///
    /// The register's answer to a close or a look does what it does in `on_reply`, and so do its refusals: then all has been
    /// done but the close or the look, and the register holds what it held. At `NoMemory` nothing is sent, and it isn't to be
    /// used again. What a crash may leave of the register is as it is there.
    pub fn retry<G: Register>(
        &mut self,
        alloc: Global,
        reg: &mut G,
        out: &mut Outbox,
    ) -> Result<Report, SequencerFault>
        ensures exact { (c : Contents) → G.tells reg.old c
            → IfOk result (λ report. Acted self.old self.new report out.old out.new (called_by self.old c (retry_acts (looks_of self.old c) self.old)).acts × G.tells reg.new (called_by self.old c (retry_acts (looks_of self.old c) self.old)).register) }
        ensures acted { IfOk result (λ report. ActedBy self.old self.new report out.old out.new (λ looks. retry_acts looks self.old)) }
        ensures held { (c : Contents) → G.holds reg.old c
            → IfOk result (λ report. (is_some report.register ≡ true) ⊎ (Acted self.old self.new report out.old out.new (called_by self.old c (retry_acts (looks_of self.old c) self.old)).acts × G.holds reg.new (called_by self.old c (retry_acts (looks_of self.old c) self.old)).register)) }
        ensures failed { IfOk result (λ report. report.register ≡ Some unclosed.Failed → Rose (G.faults reg.old) (G.faults reg.new)) }
        ensures full { G.told reg.old → IfOk result (λ report. report.register ≡ Some unclosed.Full → (c : Contents) × G.holds reg.old c × G.holds reg.new c × (is_full c close_length ≡ true)) }
        ensures steady { IfOk result (λ report. (report.register ≡ Some unclosed.Failed) ⊎ (G.faults reg.new ≡ G.faults reg.old)) }
        ensures unfailed { IfErr result (λ fault. (fault ≡ faults.NoMemory) ⊎ (fault ≡ faults.Register registers.Failed) ⊎ (G.faults reg.new ≡ G.faults reg.old)) }
        ensures unseen { IsErrOf result (faults.Register registers.Failed) → Rose (G.faults reg.old) (G.faults reg.new) }
        ensures refused { IfErr result (λ fault. Unlooked self.old self.new fault out.old out.new (raised_whole self.old).sequencer (pending_stores (raised_whole self.old)) (λ looks. retry_acts looks self.old) ⊎ ((looks : ℕ → View) → IsRefused self.old self.new fault out.old out.new (retry_acts looks self.old))) }
        ensures caused { G.told reg.old → IfErr result (λ fault. (fault ≡ faults.Register registers.Failed) ⊎ IsCaused (G.holds reg.old) (G.damaged reg.old) self.old.sequencer.log fault) }
        ensures crowded { (c : Contents) → G.tells reg.old c
            → IfErr result (λ fault. (fault ≡ faults.NoMemory) ⊎ ((fault ≡ faults.Register registers.LogLimit) × (is_crowded c self.old.sequencer.log ≡ true) × G.tells reg.new c)) }
        ensures room { (c : Contents) → G.tells reg.old c → OnOk result (((retry_acts (looks_of self.old c) self.old).tries ≡ []) ⊎ (is_crowded c self.old.sequencer.log ≡ false)) }
        ensures told { G.told reg.old → G.told reg.new }
        ensures done_or_not { (looks : ℕ → View) → G.told reg.old → ChangedOrNot (G.may_hold reg.old) (G.may_hold reg.new) (λ c. after_tries c self.old.sequencer.log (retry_acts looks self.old).tries) }
        ensures keeps { IfErr result (λ fault. (fault ≡ faults.NoMemory) ⊎ (fault ≡ faults.Register registers.Failed) ⊎ Keeps (G.holds reg.old) (G.holds reg.new) (G.may_hold reg.old) (G.may_hold reg.new)) }
        ensures itself { G.identity reg.new ≡ G.identity reg.old }
        ensures counts { G.faults reg.old ≤ G.faults reg.new }
        ensures unsent { IsErrOf result faults.NoMemory → out.new ≡ out.old }
        ensures messages { AreMessages out.old → AreMessages out.new }
    {
        if self.own.is_preempted() {
            return Ok(Report::nothing());
        }
        let count = out.len();
        self.own.raise();
        let report = self.retry_recovery(alloc, reg, out);
        if lacks_memory(&report) {
            return Err(SequencerFault::NoMemory);
        }
        self.own.send_behind(alloc, count, out)?;
        report
    }

    /// The sequencer of an epoch that was handed out, for which this is fixed. Without memory nothing is sent.
    #[tactic(auto, using(crate::proofs::Bounded::message_rules))]
    pub(crate) fn start(
        alloc: Global,
        origin: &Origin,
        spec: &Spec,
        grant: Grant,
        out: &mut Outbox,
    ) -> Result<Sequencer, NoMemory>
        requires spec { IsSpec spec.now }
        requires first { IsSpecFor spec.now.log origin.now.first }
        requires grant { IsGrant spec.now.log grant }
        ensures active { IfOk result (λ sequencer. IsActive origin.now spec.now (shows (unwrap_or grant.next origin.now.first)) grant sequencer out.old out.new) }
        ensures unsent { OnErr result (out.new ≡ out.old) }
        ensures messages { AreMessages out.old → AreMessages out.new }
    {
        let own = OwnEpoch::new(alloc, origin, spec, grant.epoch, grant.lce)?;
        let mut asks = Outbox::empty(alloc);
        let next = grant.next.unwrap_or(origin.first);
        let recovery = next_recovery(alloc, &next, grant.epoch, grant.lce, &mut asks)?;
        send_all(asks, out)?;
        Ok(Sequencer { own, recovery })
    }

    /// What a message that leaves the recovery with no spent digest does without a close. `next` is shown of the epoch whose
    /// recovery it begins, where it begins one.
    fn hear(
        &mut self,
        alloc: Global,
        msg: &Msg,
        next: &Spec,
        out: &mut Outbox,
    ) -> Result<Report, NoMemory>
        requires message { IsMessage msg.now }
        requires next { IsSpecFor self.old.sequencer.log next.now }
        requires quiet { spends_by self.old msg.now.from msg.now.body ≡ false }
        ensures acted { IfOk result (λ report. Acted self.old self.new report out.old out.new (reply_acts (shows next.now) self.old msg.now.from msg.now.body)) }
        ensures fresh { IsFresh self.old (reply_acts (shows next.now) self.old msg.now.from msg.now.body) }
        ensures failed { IfOk result (λ report. report.register ≡ None) }
        ensures unsent { OnErr result (out.new ≡ out.old) }
        ensures messages { AreMessages out.old → AreMessages out.new }
    {
        if self.is_for_recovery(&msg.body) {
            return self.hear_for_recovery(alloc, msg, next, out);
        }
        let before = self.released();
        let learnt = self.own.on_reply(msg, out)?;
        Ok(Report {
            acked: learnt.acked,
            closed: None,
            preempted: learnt.preempted,
            register: None,
            released: self.risen(before),
        })
    }

    /// The released number, where it rose above this one.
    pub(crate) fn risen(&self, before: Lsn) -> Option<Lsn>
        ensures { listed result ≡ (if nat_lt before (released_of self.now.sequencer) then released_of self.now.sequencer ∷ [] else []) }
    {
        let released = self.released();
        if released > before {
            Some(released)
        } else {
            None
        }
    }
}
