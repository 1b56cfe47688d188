// What a sequencer does for the recovery of earlier epochs.
ghost use Rattle.std.specs.Prelude.{◌≡◌, ◌≢◌, ◌⊎◌, ◌≤◌, ◌+◌, ◌-◌, ◌^◌, ◌++◌, ◌==◌, ◌&&◌, [], ℕ, List, true, false, is_some, if◌then◌else◌, take, None, Some, Ok, IfOk, IfErr, IfSome, OnOk, OnErr, IsErrOf};
ghost use Rattle.ld_io.specs.Causes.{Rose};
ghost use Rattle.ld_ids.specs.declared.set.Spec.{Spec as Fixed};
ghost use Rattle.ld_node_bounds.specs.Messages.{AreMessages};
ghost use Rattle.ld_msg.specs.Bounds.{IsMessage, IsSummary};
ghost use Rattle.ld_msg.specs.declared.msg.Msg.{Msg as Sent};
ghost use Rattle.ld_msg.specs.Register.{Register as Contents, Answer as Ends, View, Granted, Behind, is_crowded};
ghost use Rattle.ld_msg.specs.Sequencer.{does_nothing, goes_on, preempt as preempts, acted_messages};
ghost use Rattle.ld_register.specs.Bounds.{IsSpecFor};
ghost use Rattle.ld_register.specs.Calls.{ChangedOrNot, Keeps, is_full, close_length};
ghost use Rattle.ld_register.specs.declared.fault.RegisterFault.TheVariants as registers;
ghost use Rattle.ld_sequencer.specs.declared.fault.SequencerFault.TheVariants as faults;
ghost use Rattle.ld_sequencer.specs.Looks.{shows};
ghost use Rattle.ld_sequencer.specs.Register.{after_tries, closes_due, left_by_due};
ghost use Rattle.ld_sequencer.specs.declared.fault.CloseFault.TheVariants as unclosed;
ghost use Rattle.ld_sequencer.specs.Whole.{as_now, sent_as, closed_acts, closing_of, due_acts, is_for_recovery, is_spent_now, spends_by, epoch_begun, epoch_behind, looks_of, reply_acts, recovery_acts, tried, called_by, Acted, ActedBy, IsCaused, IsRefused, IsUntimely, Unlooked};

use crate::Sequencer;
use crate::close::{Due, close};
use crate::earlier::is_of_earlier;
use crate::fault::SequencerFault;
use crate::look::behind;
use crate::report::{Report, lacks_memory};
use crate::start::{next_recovery, send_all};
use ld_ids::{NoMemory, Spec};
use ld_lsn::Lsn;
use ld_msg::{Body, Msg, Outbox};
use ld_recovery::{Answer, State};
use ld_register::Register;
use std::alloc::Global;

impl Sequencer {
    /// What a message for the recovery does without a close.
    pub(crate) fn hear_for_recovery(
        &mut self,
        alloc: Global,
        msg: &Msg,
        next: &Spec,
        out: &mut Outbox,
    ) -> Result<Report, NoMemory>
        requires message { IsMessage msg.now }
        requires next { IsSpecFor self.old.sequencer.log next.now }
        requires recovery { is_for_recovery self.old msg.now.body ≡ true }
        requires quiet { spends_by self.old msg.now.from msg.now.body ≡ false }
        ensures acted { IfOk result (λ report. Acted self.old self.new report out.old out.new (reply_acts (shows next.now) self.old msg.now.from msg.now.body)) }
        ensures failed { IfOk result (λ report. report.register ≡ None) }
        ensures unsent { OnErr result (out.new ≡ out.old) }
        ensures messages { AreMessages out.old → AreMessages out.new }
    {
        let before = self.released();
        let Some(mut recovery) = self.recovery.take() else {
            return Ok(Report::nothing());
        };
        let count = out.len();
        recovery.on_reply(alloc, msg, out)?;
        if let State::Done(_) = recovery.state() {
            self.go_on_behind(alloc, count, recovery.epoch(), next, out)?;
            return Ok(Report {
                acked: None,
                closed: None,
                preempted: None,
                register: None,
                released: self.risen(before),
            });
        }
        self.recovery = Some(recovery);
        Ok(Report::nothing())
    }

    /// Whether a message is for the recovery.
    pub(crate) fn is_for_recovery(&self, body: &Body) -> bool
        ensures { result ≡ is_for_recovery self.now body.now }
    {
        !self.own.is_preempted() && self.recovery.is_some() && is_of_earlier(self.own.epoch(), body)
    }

    /// The epoch whose recovery begins with word that the recovered one is closed.
    pub(crate) fn epoch_begun(&self, body: &Body) -> Option<u32>
        ensures { result ≡ epoch_begun self.now body.now }
    {
        match body {
            Body::CleanHere { number, .. } => self.epoch_behind(*number),
            _ => None,
        }
    }

    /// The epoch behind the recovered one, where the number is of that one.
    fn epoch_behind(&self, number: Lsn) -> Option<u32>
        ensures { result ≡ (if is_some self.now.sequencer.preempted then None else epoch_behind self.now.sequencer.epoch number self.now.sequencer.recovery) }
    {
        if self.own.is_preempted() {
            return None;
        }
        match &self.recovery {
            Some(recovery) if number.home().0 == recovery.epoch() => {
                behind(recovery.epoch(), self.own.epoch())
            }
            _ => None,
        }
    }

    /// All epochs up to this one are closed: where the released number rises all nodes of its epoch are told so, and the
    /// recovery of the next epoch begins, with what is shown of it, where that is before its own. It recovers none at the
    /// moment. Without memory nothing is sent.
    pub(crate) fn go_on(
        &mut self,
        alloc: Global,
        lce: u32,
        next: &Spec,
        out: &mut Outbox,
    ) -> Result<(), NoMemory>
        requires lce { lce ≤ 2 ^ 32 - 2 }
        requires next { IsSpecFor self.old.sequencer.log next.now }
        ensures now { OnOk result (self.new ≡ as_now self.old (goes_on (shows next.now) (does_nothing self.old.sequencer) lce).sequencer) }
        ensures out { OnOk result (out.new ≡ out.old ++ sent_as self.old (acted_messages self.old.sequencer (goes_on (shows next.now) (does_nothing self.old.sequencer) lce))) }
        ensures unsent { OnErr result (out.new ≡ out.old) }
        ensures messages { AreMessages out.old → AreMessages out.new }
    {
        let count = out.len();
        self.recovery = None;
        self.own.close_through(lce, out)?;
        match next_recovery(alloc, next, self.own.epoch(), lce, out) {
            Ok(recovery) => {
                self.recovery = recovery;
                Ok(())
            }
            Err(_) => {
                out.truncate(count);
                Err(NoMemory)
            }
        }
    }

    /// The same behind other messages of the call. Without memory the first `count` messages alone are left.
    #[tactic(auto, using(crate::proofs::Bounded::message_rules))]
    pub(crate) fn go_on_behind(
        &mut self,
        alloc: Global,
        count: usize,
        lce: u32,
        next: &Spec,
        out: &mut Outbox,
    ) -> Result<(), NoMemory>
        requires lce { lce ≤ 2 ^ 32 - 2 }
        requires next { IsSpecFor self.old.sequencer.log next.now }
        ensures now { OnOk result (self.new ≡ as_now self.old (goes_on (shows next.now) (does_nothing self.old.sequencer) lce).sequencer) }
        ensures out { OnOk result (out.new ≡ out.old ++ sent_as self.old (acted_messages self.old.sequencer (goes_on (shows next.now) (does_nothing self.old.sequencer) lce))) }
        ensures left { OnErr result (out.new ≡ take count out.old) }
        ensures messages { AreMessages out.old → AreMessages out.new }
    {
        match self.go_on(alloc, lce, next, out) {
            Ok(()) => Ok(()),
            Err(_) => {
                out.truncate(count);
                Err(NoMemory)
            }
        }
    }

    /// Tries the close that is due.
    pub(crate) fn close<G: Register>(
        &mut self,
        alloc: Global,
        due: &Due,
        reg: &mut G,
        out: &mut Outbox,
    ) -> Result<Report, SequencerFault>
        requires due { closing_of self.old ≡ Some due.now }
        requires summary { IsSummary due.now.epoch due.now.summary }
        ensures exact { (c : Contents) → G.tells reg.old c
            → IfOk result (λ report. Acted self.old self.new report out.old out.new (closed_acts (looks_of self.old c) self.old due.now.epoch due.now.summary (closes_due c self.old.sequencer.log due.now).answer) × (is_crowded c self.old.sequencer.log ≡ false) × G.tells reg.new (closes_due c self.old.sequencer.log due.now).register) }
        ensures acted { IfOk result (λ report. (s : Fixed) × IsSpecFor self.old.sequencer.log s × (d : Ends) × Acted self.old self.new report out.old out.new (closed_acts (shows s) self.old due.now.epoch due.now.summary d)) }
        ensures held { (c : Contents) → G.holds reg.old c
            → IfOk result (λ report. (is_some report.register ≡ true) ⊎ (Acted self.old self.new report out.old out.new (closed_acts (looks_of self.old c) self.old due.now.epoch due.now.summary (closes_due c self.old.sequencer.log due.now).answer) × G.holds reg.new (closes_due c self.old.sequencer.log due.now).register)) }
        ensures failed { IfOk result (λ report. report.register ≡ Some unclosed.Failed → Rose (G.faults reg.old) (G.faults reg.new)) }
        ensures full { G.told reg.old → IfOk result (λ report. report.register ≡ Some unclosed.Full → (c : Contents) × G.holds reg.old c × G.holds reg.new c × (is_full c close_length ≡ true)) }
        ensures steady { IfOk result (λ report. (report.register ≡ Some unclosed.Failed) ⊎ (G.faults reg.new ≡ G.faults reg.old)) }
        ensures unfailed { IfErr result (λ fault. (fault ≡ faults.NoMemory) ⊎ (G.faults reg.new ≡ G.faults reg.old)) }
        ensures refused { IfErr result (λ fault. (fault ≡ faults.NoMemory) ⊎ (IsUntimely fault × (self.new ≡ self.old) × (out.new ≡ out.old))) }
        ensures caused { G.told reg.old → IfErr result (IsCaused (G.holds reg.old) (G.damaged reg.old) self.old.sequencer.log) }
        ensures crowded { (c : Contents) → G.tells reg.old c
            → IfErr result (λ fault. (fault ≡ faults.NoMemory) ⊎ ((fault ≡ faults.Register registers.LogLimit) × (is_crowded c self.old.sequencer.log ≡ true) × G.tells reg.new c)) }
        ensures told { G.told reg.old → G.told reg.new }
        ensures done_or_not { G.told reg.old → ChangedOrNot (G.may_hold reg.old) (G.may_hold reg.new) (λ c. left_by_due c self.old.sequencer.log due.now) }
        ensures keeps { IfErr result (λ fault. (fault ≡ faults.NoMemory) ⊎ Keeps (G.holds reg.old) (G.holds reg.new) (G.may_hold reg.old) (G.may_hold reg.new)) }
        ensures itself { G.identity reg.new ≡ G.identity reg.old }
        ensures counts { G.faults reg.old ≤ G.faults reg.new }
        ensures unsent { IsErrOf result faults.NoMemory → out.new ≡ out.old }
        ensures messages { AreMessages out.old → AreMessages out.new }
    {
        let origin = *self.own.origin();
        let log = self.own.spec().log;
        let tried = close(alloc, reg, log, &origin.first, due)?;
        Ok(self.after_close(alloc, tried, due, out)?)
    }

    /// The epoch is closed as it was to be.
    pub(crate) fn finish(
        &mut self,
        alloc: Global,
        due: &Due,
        next: &Spec,
        out: &mut Outbox,
    ) -> Result<Report, NoMemory>
        requires next { IsSpecFor self.old.sequencer.log next.now }
        requires due { closing_of self.old ≡ Some due.now }
        ensures acted { IfOk result (λ report. Acted self.old self.new report out.old out.new (closed_acts (shows next.now) self.old due.now.epoch due.now.summary Granted)) }
        ensures failed { IfOk result (λ report. report.register ≡ None) }
        ensures unsent { OnErr result (out.new ≡ out.old) }
        ensures messages { AreMessages out.old → AreMessages out.new }
    {
        let before = self.released();
        let count = out.len();
        match self.recovery.take() {
            Some(mut recovery) => recovery.closed(Answer::Taken, out)?,
            None => {}
        }
        self.go_on_behind(alloc, count, due.epoch, next, out)?;
        Ok(Report {
            acked: None,
            closed: Some(Lsn::new(due.epoch, due.summary.end)),
            preempted: None,
            register: None,
            released: self.risen(before),
        })
    }

    /// The last closed epoch is this one, and not the one before that which is to be closed.
    pub(crate) fn fall_behind(
        &mut self,
        alloc: Global,
        lce: u32,
        next: &Spec,
        due: &Due,
        out: &mut Outbox,
    ) -> Result<Report, NoMemory>
        requires next { IsSpecFor self.old.sequencer.log next.now }
        requires lce { lce ≤ 2 ^ 32 - 2 }
        ensures acted { IfOk result (λ report. Acted self.old self.new report out.old out.new (closed_acts (shows next.now) self.old due.now.epoch due.now.summary (Behind lce))) }
        ensures failed { IfOk result (λ report. report.register ≡ None) }
        ensures unsent { OnErr result (out.new ≡ out.old) }
        ensures messages { AreMessages out.old → AreMessages out.new }
    {
        let _ = due;
        if self.own.epoch() <= lce {
            return Ok(self.give_way(lce + 1));
        }
        let before = self.released();
        self.go_on(alloc, lce, next, out)?;
        Ok(Report {
            acked: None,
            closed: None,
            preempted: None,
            register: None,
            released: self.risen(before),
        })
    }

    /// The sequencer of this greater epoch preempts it.
    pub(crate) fn give_way(&mut self, by: u32) -> Report
        ensures acted { (out : List Sent) → Acted self.old self.new result out out (preempts (does_nothing self.old.sequencer) by) }
        ensures failed { result.register ≡ None }
    {
        self.own.preempt(by);
        Report {
            acked: None,
            closed: None,
            preempted: Some(by),
            register: None,
            released: None,
        }
    }

    /// Looks at the recovered epoch in the register, where its digest is spent, or else asks again for what the recovery waits
    /// for, and tries the close that is due then.
    pub(crate) fn retry_recovery<G: Register>(
        &mut self,
        alloc: Global,
        reg: &mut G,
        out: &mut Outbox,
    ) -> Result<Report, SequencerFault>
        requires { self.old.sequencer.preempted ≡ None }
        ensures exact { (c : Contents) → G.tells reg.old c
            → IfOk result (λ report. Acted self.old self.new report out.old out.new (called_by self.old c (recovery_acts (looks_of self.old c) self.old)).acts × G.tells reg.new (called_by self.old c (recovery_acts (looks_of self.old c) self.old)).register) }
        ensures acted { IfOk result (λ report. ActedBy self.old self.new report out.old out.new (λ looks. recovery_acts looks self.old)) }
        ensures held { (c : Contents) → G.holds reg.old c
            → IfOk result (λ report. (is_some report.register ≡ true) ⊎ (Acted self.old self.new report out.old out.new (called_by self.old c (recovery_acts (looks_of self.old c) self.old)).acts × G.holds reg.new (called_by self.old c (recovery_acts (looks_of self.old c) self.old)).register)) }
        ensures failed { IfOk result (λ report. report.register ≡ Some unclosed.Failed → Rose (G.faults reg.old) (G.faults reg.new)) }
        ensures full { G.told reg.old → IfOk result (λ report. report.register ≡ Some unclosed.Full → (c : Contents) × G.holds reg.old c × G.holds reg.new c × (is_full c close_length ≡ true)) }
        ensures steady { IfOk result (λ report. (report.register ≡ Some unclosed.Failed) ⊎ (G.faults reg.new ≡ G.faults reg.old)) }
        ensures unfailed { IfErr result (λ fault. (fault ≡ faults.NoMemory) ⊎ (fault ≡ faults.Register registers.Failed) ⊎ (G.faults reg.new ≡ G.faults reg.old)) }
        ensures unseen { IsErrOf result (faults.Register registers.Failed) → Rose (G.faults reg.old) (G.faults reg.new) }
        ensures refused { IfErr result (λ fault. Unlooked self.old self.new fault out.old out.new self.old.sequencer [] (λ looks. recovery_acts looks self.old) ⊎ ((looks : ℕ → View) → IsRefused self.old self.new fault out.old out.new (recovery_acts looks self.old))) }
        ensures caused { G.told reg.old → IfErr result (λ fault. (fault ≡ faults.Register registers.Failed) ⊎ IsCaused (G.holds reg.old) (G.damaged reg.old) self.old.sequencer.log fault) }
        ensures crowded { (c : Contents) → G.tells reg.old c
            → IfErr result (λ fault. (fault ≡ faults.NoMemory) ⊎ ((fault ≡ faults.Register registers.LogLimit) × (is_crowded c self.old.sequencer.log ≡ true) × G.tells reg.new c)) }
        ensures room { (c : Contents) → G.tells reg.old c → OnOk result (((recovery_acts (looks_of self.old c) self.old).tries ≡ []) ⊎ (is_crowded c self.old.sequencer.log ≡ false)) }
        ensures told { G.told reg.old → G.told reg.new }
        ensures done_or_not { (looks : ℕ → View) → G.told reg.old → ChangedOrNot (G.may_hold reg.old) (G.may_hold reg.new) (λ c. after_tries c self.old.sequencer.log (recovery_acts looks self.old).tries) }
        ensures keeps { IfErr result (λ fault. (fault ≡ faults.NoMemory) ⊎ (fault ≡ faults.Register registers.Failed) ⊎ Keeps (G.holds reg.old) (G.holds reg.new) (G.may_hold reg.old) (G.may_hold reg.new)) }
        ensures itself { G.identity reg.new ≡ G.identity reg.old }
        ensures counts { G.faults reg.old ≤ G.faults reg.new }
        ensures unsent { IsErrOf result faults.NoMemory → out.new ≡ out.old }
        ensures messages { AreMessages out.old → AreMessages out.new }
    {
        let _ = self.own.origin();
        if self.is_spent() {
            return self.look_again(alloc, reg, out);
        }
        let count = out.len();
        let mut sends = Outbox::empty(alloc);
        self.try_again(alloc, &mut sends)?;
        let report = self.close_due(alloc, reg, out);
        if lacks_memory(&report) {
            return Err(SequencerFault::NoMemory);
        }
        match send_all(sends, out) {
            Ok(()) => report,
            Err(_) => {
                out.truncate(count);
                Err(SequencerFault::NoMemory)
            }
        }
    }

    /// Tries the close that is due, where one is.
    fn close_due<G: Register>(
        &mut self,
        alloc: Global,
        reg: &mut G,
        out: &mut Outbox,
    ) -> Result<Report, SequencerFault>
        ensures exact { (c : Contents) → G.tells reg.old c
            → IfOk result (λ report. Acted self.old self.new report out.old out.new (called_by self.old c (due_acts self.old)).acts × G.tells reg.new (called_by self.old c (due_acts self.old)).register) }
        ensures acted { IfOk result (λ report. (s : Fixed) × IsSpecFor self.old.sequencer.log s × (d : Ends) × Acted self.old self.new report out.old out.new (tried (shows s) (due_acts self.old) d)) }
        ensures held { (c : Contents) → G.holds reg.old c
            → IfOk result (λ report. (is_some report.register ≡ true) ⊎ (Acted self.old self.new report out.old out.new (called_by self.old c (due_acts self.old)).acts × G.holds reg.new (called_by self.old c (due_acts self.old)).register)) }
        ensures failed { IfOk result (λ report. report.register ≡ Some unclosed.Failed → Rose (G.faults reg.old) (G.faults reg.new)) }
        ensures full { G.told reg.old → IfOk result (λ report. report.register ≡ Some unclosed.Full → (c : Contents) × G.holds reg.old c × G.holds reg.new c × (is_full c close_length ≡ true)) }
        ensures steady { IfOk result (λ report. (report.register ≡ Some unclosed.Failed) ⊎ (G.faults reg.new ≡ G.faults reg.old)) }
        ensures unfailed { IfErr result (λ fault. (fault ≡ faults.NoMemory) ⊎ (G.faults reg.new ≡ G.faults reg.old)) }
        ensures refused { IfErr result (λ fault. (fault ≡ faults.NoMemory) ⊎ (IsUntimely fault × ((due_acts self.old).tries ≢ []) × (self.new ≡ self.old) × (out.new ≡ out.old))) }
        ensures caused { G.told reg.old → IfErr result (IsCaused (G.holds reg.old) (G.damaged reg.old) self.old.sequencer.log) }
        ensures crowded { (c : Contents) → G.tells reg.old c
            → IfErr result (λ fault. (fault ≡ faults.NoMemory) ⊎ ((fault ≡ faults.Register registers.LogLimit) × (is_crowded c self.old.sequencer.log ≡ true) × G.tells reg.new c)) }
        ensures room { (c : Contents) → G.tells reg.old c → OnOk result (((due_acts self.old).tries ≡ []) ⊎ (is_crowded c self.old.sequencer.log ≡ false)) }
        ensures told { G.told reg.old → G.told reg.new }
        ensures done_or_not { G.told reg.old → ChangedOrNot (G.may_hold reg.old) (G.may_hold reg.new) (λ c. after_tries c self.old.sequencer.log (due_acts self.old).tries) }
        ensures keeps { IfErr result (λ fault. (fault ≡ faults.NoMemory) ⊎ Keeps (G.holds reg.old) (G.holds reg.new) (G.may_hold reg.old) (G.may_hold reg.new)) }
        ensures itself { G.identity reg.new ≡ G.identity reg.old }
        ensures counts { G.faults reg.old ≤ G.faults reg.new }
        ensures unsent { IsErrOf result faults.NoMemory → out.new ≡ out.old }
        ensures messages { AreMessages out.old → AreMessages out.new }
    {
        let _ = self.own.origin();
        match self.closing() {
            Some(due) => self.close(alloc, &due, reg, out),
            None => Ok(Report::nothing()),
        }
    }

    /// Asks again for what the recovery waits for. Its digest isn't spent.
    fn try_again(&mut self, alloc: Global, out: &mut Outbox) -> Result<(), NoMemory>
        requires { is_spent_now self.old ≡ false }
        ensures now { (looks : ℕ → View) → OnOk result (self.new ≡ as_now self.old (recovery_acts looks self.old).sequencer) }
        ensures out { (looks : ℕ → View) → OnOk result (out.new ≡ out.old ++ sent_as self.old ((recovery_acts looks self.old).asks ++ (recovery_acts looks self.old).stores)) }
        ensures unsent { OnErr result (out.new ≡ out.old) }
        ensures messages { AreMessages out.old → AreMessages out.new }
    {
        if let Some(mut recovery) = self.recovery.take() {
            recovery.retry(alloc, out)?;
            self.recovery = Some(recovery);
        }
        Ok(())
    }

    /// The close that is due: the plan of the recovered epoch is stored.
    pub(crate) fn closing(&self) -> Option<Due>
        ensures closing { result ≡ closing_of self.now }
        ensures summary { IfSome result (λ due. IsSummary due.epoch due.summary) }
    {
        match &self.recovery {
            Some(recovery) => match recovery.state() {
                State::Closing(summary, short) => Some(Due {
                    epoch: recovery.epoch(),
                    summary,
                    short,
                }),
                _ => None,
            },
            None => None,
        }
    }
}
