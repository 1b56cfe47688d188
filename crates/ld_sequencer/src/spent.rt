// What a sequencer does where the nodes of the recovered epoch have told all that they can.
ghost use Rattle.std.specs.Prelude.{◌≡◌, ◌⊎◌, ◌≤◌, ◌+◌, ◌++◌, [], ℕ, true, false, is_some, None, Some, Ok, IfOk, IfErr, OnOk, OnErr, IsErrOf};
ghost use Rattle.ld_io.specs.Causes.{Rose};
ghost use Rattle.ld_ids.specs.declared.set.Spec.{Spec as Fixed};
ghost use Rattle.ld_node_bounds.specs.Messages.{AreMessages};
ghost use Rattle.ld_msg.specs.Bounds.{IsMessage, IsSummary};
ghost use Rattle.ld_msg.specs.declared.msg.Body.TheVariants.{Clean};
ghost use Rattle.ld_msg.specs.Register.{Register as Contents, View, is_crowded};
ghost use Rattle.ld_msg.specs.Sequencer.{recovered_nodes, to_each};
ghost use Rattle.ld_register.specs.Bounds.{IsSpecFor};
ghost use Rattle.ld_register.specs.Calls.{ChangedOrNot, Keeps, is_full, close_length};
ghost use Rattle.ld_register.specs.declared.fault.RegisterFault.TheVariants as registers;
ghost use Rattle.ld_sequencer.specs.declared.fault.SequencerFault.TheVariants as faults;
ghost use Rattle.ld_sequencer.specs.declared.fault.CloseFault.TheVariants as unclosed;
ghost use Rattle.ld_sequencer.specs.Register.{after_tries};
ghost use Rattle.ld_sequencer.specs.Looks.{is_counted, looks_with, sees, MayBeSeen};
ghost use Rattle.ld_sequencer.specs.Whole.{called_by, counted, is_spent_now, looked_acts, looks_of, recovery_acts, reply_acts, sent_as, spends_by, Acted, ActedBy, IsCaused, IsRefused, Unlooked, Unseen};

use crate::Sequencer;
use crate::fault::SequencerFault;
use crate::look::{Seen, is_counted, see};
use crate::report::Report;
use ld_ids::{NoMemory, Spec};
use ld_msg::{Msg, Outbox, Summary};
use ld_recovery::{Notice, Sender};
use ld_register::Register;
use std::alloc::Global;

impl Sequencer {
    /// Whether a message leaves the recovery with a spent digest, by what it tells.
    pub(crate) fn spends(&self, msg: &Msg) -> bool
        requires { IsMessage msg.now }
        ensures { result ≡ spends_by self.now msg.now.from msg.now.body }
    {
        match &self.recovery {
            Some(recovery) => self.is_for_recovery(&msg.body) && recovery.spends(msg),
            None => false,
        }
    }

    /// Whether the recovery has a spent digest.
    pub(crate) fn is_spent(&self) -> bool
        ensures { result ≡ is_spent_now self.now }
    {
        match &self.recovery {
            Some(recovery) => recovery.spent(),
            None => false,
        }
    }

    /// Takes a message that leaves the recovery with a spent digest: what the register shows of the recovered epoch is done.
    /// Where it doesn't answer, what the message tells goes into the recovery.
    pub(crate) fn spend<G: Register>(
        &mut self,
        alloc: Global,
        msg: &Msg,
        reg: &mut G,
        out: &mut Outbox,
    ) -> Result<Report, SequencerFault>
        requires message { IsMessage msg.now }
        requires spends { spends_by self.old msg.now.from msg.now.body ≡ true }
        ensures exact { (c : Contents) → G.tells reg.old c
            → IfOk result (λ report. Acted self.old self.new report out.old out.new (called_by self.old c (reply_acts (looks_of self.old c) self.old msg.now.from msg.now.body)).acts × G.tells reg.new (called_by self.old c (reply_acts (looks_of self.old c) self.old msg.now.from msg.now.body)).register) }
        ensures acted { IfOk result (λ report. ActedBy self.old self.new report out.old out.new (λ looks. reply_acts looks self.old msg.now.from msg.now.body)) }
        ensures held { (c : Contents) → G.holds reg.old c
            → IfOk result (λ report. (is_some report.register ≡ true) ⊎ (Acted self.old self.new report out.old out.new (called_by self.old c (reply_acts (looks_of self.old c) self.old msg.now.from msg.now.body)).acts × G.holds reg.new (called_by self.old c (reply_acts (looks_of self.old c) self.old msg.now.from msg.now.body)).register)) }
        ensures failed { IfOk result (λ report. report.register ≡ Some unclosed.Failed → Rose (G.faults reg.old) (G.faults reg.new)) }
        ensures full { G.told reg.old → IfOk result (λ report. report.register ≡ Some unclosed.Full → (c : Contents) × G.holds reg.old c × G.holds reg.new c × (is_full c close_length ≡ true)) }
        ensures steady { IfOk result (λ report. (report.register ≡ Some unclosed.Failed) ⊎ (G.faults reg.new ≡ G.faults reg.old)) }
        ensures unfailed { IfErr result (λ fault. (fault ≡ faults.NoMemory) ⊎ (fault ≡ faults.Register registers.Failed) ⊎ (G.faults reg.new ≡ G.faults reg.old)) }
        ensures unseen { IsErrOf result (faults.Register registers.Failed) → Rose (G.faults reg.old) (G.faults reg.new) }
        ensures refused { IfErr result (λ fault. Unseen self.old self.new fault out.old out.new msg.now.body ⊎ Unlooked self.old self.new fault out.old out.new self.old.sequencer [] (λ looks. reply_acts looks self.old msg.now.from msg.now.body) ⊎ ((looks : ℕ → View) → IsRefused self.old self.new fault out.old out.new (reply_acts looks self.old msg.now.from msg.now.body))) }
        ensures caused { G.told reg.old → IfErr result (λ fault. (fault ≡ faults.Register registers.Failed) ⊎ IsCaused (G.holds reg.old) (G.damaged reg.old) self.old.sequencer.log fault) }
        ensures crowded { (c : Contents) → G.tells reg.old c
            → IfErr result (λ fault. (fault ≡ faults.NoMemory) ⊎ ((fault ≡ faults.Register registers.LogLimit) × (is_crowded c self.old.sequencer.log ≡ true) × G.tells reg.new c)) }
        ensures room { (c : Contents) → G.tells reg.old c → OnOk result (((reply_acts (looks_of self.old c) self.old msg.now.from msg.now.body).tries ≡ []) ⊎ (is_crowded c self.old.sequencer.log ≡ false)) }
        ensures told { G.told reg.old → G.told reg.new }
        ensures done_or_not { (looks : ℕ → View) → G.told reg.old → ChangedOrNot (G.may_hold reg.old) (G.may_hold reg.new) (λ c. after_tries c self.old.sequencer.log (reply_acts looks self.old msg.now.from msg.now.body).tries) }
        ensures keeps { IfErr result (λ fault. (fault ≡ faults.NoMemory) ⊎ (fault ≡ faults.Register registers.Failed) ⊎ Keeps (G.holds reg.old) (G.holds reg.new) (G.may_hold reg.old) (G.may_hold reg.new)) }
        ensures itself { G.identity reg.new ≡ G.identity reg.old }
        ensures counts { G.faults reg.old ≤ G.faults reg.new }
        ensures unsent { IsErrOf result faults.NoMemory → out.new ≡ out.old }
        ensures messages { AreMessages out.old → AreMessages out.new }
    {
        let origin = *self.own.origin();
        let own = self.own.epoch();
        let log = self.own.spec().log;
        let seen = see(alloc, log, &origin.first, self.own.lce() + 1, own, reg);
        self.count(alloc, msg, is_counted(own, &seen), out)?;
        match seen {
            Ok(seen) => Ok(self.learn(alloc, &seen, out)?),
            Err(fault) => Err(fault),
        }
    }

    /// A digest stays spent only where the register couldn't be looked at: what it shows of the recovered epoch now is done.
    /// Where it doesn't answer, nothing is done.
    pub(crate) fn look_again<G: Register>(
        &mut self,
        alloc: Global,
        reg: &mut G,
        out: &mut Outbox,
    ) -> Result<Report, SequencerFault>
        requires { is_spent_now self.old ≡ true }
        ensures exact { (c : Contents) → G.tells reg.old c
            → IfOk result (λ report. Acted self.old self.new report out.old out.new (called_by self.old c (recovery_acts (looks_of self.old c) self.old)).acts × G.tells reg.new (called_by self.old c (recovery_acts (looks_of self.old c) self.old)).register) }
        ensures acted { IfOk result (λ report. ActedBy self.old self.new report out.old out.new (λ looks. recovery_acts looks self.old)) }
        ensures held { (c : Contents) → G.holds reg.old c
            → IfOk result (λ report. (is_some report.register ≡ true) ⊎ (Acted self.old self.new report out.old out.new (called_by self.old c (recovery_acts (looks_of self.old c) self.old)).acts × G.holds reg.new (called_by self.old c (recovery_acts (looks_of self.old c) self.old)).register)) }
        ensures failed { IfOk result (λ report. report.register ≡ Some unclosed.Failed → Rose (G.faults reg.old) (G.faults reg.new)) }
        ensures full { G.told reg.old → IfOk result (λ report. report.register ≡ Some unclosed.Full → (c : Contents) × G.holds reg.old c × G.holds reg.new c × (is_full c close_length ≡ true)) }
        ensures steady { IfOk result (λ report. (report.register ≡ Some unclosed.Failed) ⊎ (G.faults reg.new ≡ G.faults reg.old)) }
        ensures unfailed { IfErr result (λ fault. (fault ≡ faults.NoMemory) ⊎ (fault ≡ faults.Register registers.Failed) ⊎ (G.faults reg.new ≡ G.faults reg.old)) }
        ensures unseen { IsErrOf result (faults.Register registers.Failed) → Rose (G.faults reg.old) (G.faults reg.new) }
        ensures refused { IfErr result (λ fault. Unlooked self.old self.new fault out.old out.new self.old.sequencer [] (λ looks. recovery_acts looks self.old) ⊎ ((looks : ℕ → View) → IsRefused self.old self.new fault out.old out.new (recovery_acts looks self.old))) }
        ensures caused { G.told reg.old → IfErr result (λ fault. (fault ≡ faults.Register registers.Failed) ⊎ IsCaused (G.holds reg.old) (G.damaged reg.old) self.old.sequencer.log fault) }
        ensures crowded { (c : Contents) → G.tells reg.old c
            → IfErr result (λ fault. (fault ≡ faults.NoMemory) ⊎ ((fault ≡ faults.Register registers.LogLimit) × (is_crowded c self.old.sequencer.log ≡ true) × G.tells reg.new c)) }
        ensures room { (c : Contents) → G.tells reg.old c → OnOk result (((recovery_acts (looks_of self.old c) self.old).tries ≡ []) ⊎ (is_crowded c self.old.sequencer.log ≡ false)) }
        ensures told { G.told reg.old → G.told reg.new }
        ensures done_or_not { (looks : ℕ → View) → G.told reg.old → ChangedOrNot (G.may_hold reg.old) (G.may_hold reg.new) (λ c. after_tries c self.old.sequencer.log (recovery_acts looks self.old).tries) }
        ensures keeps { IfErr result (λ fault. (fault ≡ faults.NoMemory) ⊎ (fault ≡ faults.Register registers.Failed) ⊎ Keeps (G.holds reg.old) (G.holds reg.new) (G.may_hold reg.old) (G.may_hold reg.new)) }
        ensures itself { G.identity reg.new ≡ G.identity reg.old }
        ensures counts { G.faults reg.old ≤ G.faults reg.new }
        ensures unsent { IsErrOf result faults.NoMemory → out.new ≡ out.old }
        ensures messages { AreMessages out.old → AreMessages out.new }
    {
        let origin = *self.own.origin();
        let own = self.own.epoch();
        let log = self.own.spec().log;
        let seen = see(alloc, log, &origin.first, self.own.lce() + 1, own, reg)?;
        Ok(self.learn(alloc, &seen, out)?)
    }

    /// What a message tells goes into the recovery, whose digest is then spent, where that is due.
    fn count(
        &mut self,
        alloc: Global,
        msg: &Msg,
        is_due: bool,
        out: &mut Outbox,
    ) -> Result<(), NoMemory>
        requires message { IsMessage msg.now }
        requires spends { spends_by self.old msg.now.from msg.now.body ≡ true }
        ensures now { is_due ≡ true → OnOk result (self.new ≡ counted self.old msg.now.from msg.now.body) }
        ensures idle { is_due ≡ false → self.new ≡ self.old }
        ensures unsent { out.new ≡ out.old }
    {
        if !is_due {
            return Ok(());
        }
        if let Some(mut recovery) = self.recovery.take() {
            recovery.on_reply(alloc, msg, out)?;
            self.recovery = Some(recovery);
        }
        Ok(())
    }

    /// What was seen of the recovered epoch is done: another sequencer closed it, its plan says what is lost, or a greater
    /// epoch's sequencer preempts this one. A digest that is planned is spent.
    fn learn(&mut self, alloc: Global, seen: &Seen, out: &mut Outbox) -> Result<Report, NoMemory>
        requires recovery { is_some self.old.sequencer.recovery ≡ true }
        requires seen { MayBeSeen self.old.sequencer.log (self.old.sequencer.lce + 1) seen.now }
        requires spent { is_counted self.old.sequencer.epoch (Ok seen.now) ≡ true → is_spent_now self.old ≡ true }
        ensures acted { (first : Fixed) → IfOk result (λ report. Acted self.old self.new report out.old out.new (looked_acts (looks_with first seen.now) self.old)) }
        ensures quiet { IfOk result (λ report. report.register ≡ None) }
        ensures unsent { OnErr result (out.new ≡ out.old) }
        ensures messages { AreMessages out.old → AreMessages out.new }
    {
        match seen {
            Seen::Closed(summary, next) => self.pass(alloc, summary, next, out),
            Seen::Open(kept) => {
                if *kept == self.own.epoch() {
                    self.lose(alloc, out)
                } else {
                    Ok(self.give_way(*kept))
                }
            }
        }
    }

    /// The recovered epoch was closed with this summary: its nodes are told so, and the next one is recovered.
    fn pass(
        &mut self,
        alloc: Global,
        summary: &Summary,
        next: &Spec,
        out: &mut Outbox,
    ) -> Result<Report, NoMemory>
        requires recovery { is_some self.old.sequencer.recovery ≡ true }
        requires summary { IsSummary (self.old.sequencer.lce + 1) summary.now }
        requires next { IsSpecFor self.old.sequencer.log next.now }
        ensures acted { IfOk result (λ report. Acted self.old self.new report out.old out.new (looked_acts (sees 0 (Some summary.now) next.now) self.old)) }
        ensures quiet { IfOk result (λ report. report.register ≡ None) }
        ensures unsent { OnErr result (out.new ≡ out.old) }
        ensures messages { AreMessages out.old → AreMessages out.new }
    {
        let before = self.released();
        let epoch = self.own.lce() + 1;
        let count = out.len();
        self.tell_clean(epoch, summary, out)?;
        self.go_on_behind(alloc, count, epoch, next, out)?;
        Ok(Report {
            acked: None,
            closed: None,
            preempted: None,
            register: None,
            released: self.risen(before),
        })
    }

    /// The nodes of the recovered epoch are told how it is closed.
    fn tell_clean(&self, epoch: u32, summary: &Summary, out: &mut Outbox) -> Result<(), NoMemory>
        requires epoch { epoch ≡ self.now.sequencer.lce + 1 }
        requires summary { IsSummary epoch summary.now }
        ensures sent { OnOk result (out.new ≡ out.old ++ sent_as self.now (to_each (Clean epoch summary.now) (recovered_nodes self.now.sequencer.recovery))) }
        ensures unsent { OnErr result (out.new ≡ out.old) }
        ensures messages { AreMessages out.old → AreMessages out.new }
    {
        match &self.recovery {
            Some(recovery) => {
                let sender = Sender {
                    log: self.own.spec().log,
                    epoch: self.own.epoch(),
                };
                let notice = Notice::Clean {
                    epoch,
                    summary: *summary,
                };
                sender.tell(&recovery.spec().set, &notice, out)
            }
            None => Ok(()),
        }
    }

    /// The plan of a spent digest says what is lost, and is sent.
    fn lose(&mut self, alloc: Global, out: &mut Outbox) -> Result<Report, NoMemory>
        requires { is_spent_now self.old ≡ true }
        ensures acted { (first : Fixed) → IfOk result (λ report. Acted self.old self.new report out.old out.new (looked_acts (sees self.old.sequencer.epoch None first) self.old)) }
        ensures quiet { IfOk result (λ report. report.register ≡ None) }
        ensures unsent { OnErr result (out.new ≡ out.old) }
        ensures messages { AreMessages out.old → AreMessages out.new }
    {
        if let Some(mut recovery) = self.recovery.take() {
            recovery.lose(alloc, out)?;
            self.recovery = Some(recovery);
        }
        Ok(Report::nothing())
    }
}
