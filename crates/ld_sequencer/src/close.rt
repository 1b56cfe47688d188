// The close of an epoch in the register.
ghost use Rattle.std.specs.Prelude.{◌≡◌, ◌⊎◌, ◌≤◌, Some, true, false, IfOk, IfErr, OnErr};
ghost use Rattle.ld_io.specs.Causes.{Rose};
ghost use Rattle.ld_node_bounds.specs.Messages.{AreMessages};
ghost use Rattle.ld_msg.specs.Bounds.{IsSummary};
ghost use Rattle.ld_msg.specs.Register.{Register as Contents, Fails, is_crowded};
ghost use Rattle.ld_register.specs.Calls.{ChangedOrNot, Keeps, is_full, close_length};
ghost use Rattle.ld_register.specs.declared.fault.RegisterFault.TheVariants as registers;
ghost use Rattle.ld_sequencer.specs.declared.fault.SequencerFault.TheVariants as faults;
ghost use Rattle.ld_sequencer.specs.declared.fault.CloseFault.TheVariants as unclosed;
ghost use Rattle.ld_register.specs.Bounds.{IsSpecFor};
ghost use Rattle.ld_sequencer.specs.Looks.{shows};
ghost use Rattle.ld_sequencer.specs.Register.{closes_due, left_by_due, answer_of, fault_in, is_epoch_answer, next_in, IsAnswer};
ghost use Rattle.ld_sequencer.specs.Whole.{closed_acts, closing_of, Acted, IsCaused, IsUntimely};

use crate::Sequencer;
use crate::fault::{CloseFault, SequencerFault};
use crate::report::Report;
use ld_ids::{LogId, NoMemory, Spec};
use ld_msg::{Outbox, Summary};
use ld_register::{Register, RegisterFault};
use std::alloc::Global;

/// A close that is due: of the recovered epoch, with a summary. A short one counts only as long as its sequencer's epoch is
/// the greatest that was handed out.
#[derive(Clone, Copy)]
pub(crate) struct Due {
    pub(crate) epoch: u32,
    pub(crate) summary: Summary,
    pub(crate) short: bool,
}

/// What the register answered to a close.
#[derive(Clone, Copy)]
pub(crate) enum Tried {
    /// The epoch is closed, and this is shown of the one behind it.
    Taken(Spec),
    /// The last closed epoch is this one, and not the one before; and this is shown of the one behind it.
    Behind(u32, Spec),
    /// It was to be closed short, and this greater epoch was handed out.
    Overtaken(u32),
    /// The close isn't known to be made.
    Unclosed(CloseFault),
}

/// Closes the log's epoch in the register, and tells what is shown of the next one: `first`, where nothing was fixed for it.
/// A short close is taken only as long as no greater epoch was handed out than its sequencer's.
/// The close isn't known to be made where a call of the register failed, which its count of faults tells, or where the
/// register's journal is full. It is refused with `LogLimit` exactly where 64 other logs are held,
/// with `Damaged` and a place where the register's bytes are no journal from there on, and when out of memory.
pub(crate) fn close<G: Register>(
    alloc: Global,
    reg: &mut G,
    log: LogId,
    first: &Spec,
    due: &Due,
) -> Result<Tried, SequencerFault>
    requires summary { IsSummary due.now.epoch due.now.summary }
    requires first { IsSpecFor log first.now }
    ensures exact { (c : Contents) → G.tells reg.old c
        → IfOk result (λ tried. IsAnswer first.now c log due.now tried × (is_crowded c log ≡ false) × G.tells reg.new (closes_due c log due.now).register) }
    ensures crowded { (c : Contents) → G.tells reg.old c
        → IfErr result (λ fault. ((fault ≡ faults.NoMemory) ⊎ ((fault ≡ faults.Register registers.LogLimit) × (is_crowded c log ≡ true))) × G.tells reg.new c) }
    ensures held { (c : Contents) → G.holds reg.old c
        → IfOk result (λ tried. (answer_of tried ≡ Fails) ⊎ (IsAnswer first.now c log due.now tried × G.holds reg.new (closes_due c log due.now).register)) }
    ensures failed { IfOk result (λ tried. fault_in tried ≡ Some unclosed.Failed → Rose (G.faults reg.old) (G.faults reg.new)) }
    ensures full { G.told reg.old → IfOk result (λ tried. fault_in tried ≡ Some unclosed.Full → (c : Contents) × G.holds reg.old c × G.holds reg.new c × (is_full c close_length ≡ true)) }
    ensures steady { IfOk result (λ tried. (fault_in tried ≡ Some unclosed.Failed) ⊎ (G.faults reg.new ≡ G.faults reg.old)) }
    ensures unfailed { OnErr result (G.faults reg.new ≡ G.faults reg.old) }
    ensures bound { IfOk result (λ tried. is_epoch_answer tried ≡ true) }
    ensures next { IfOk result (λ tried. IsSpecFor log (next_in first.now tried)) }
    ensures refused { IfErr result (λ fault. (fault ≡ faults.NoMemory) ⊎ IsUntimely fault) }
    ensures caused { G.told reg.old → IfErr result (IsCaused (G.holds reg.old) (G.damaged reg.old) log) }
    ensures told { G.told reg.old → G.told reg.new }
    ensures done_or_not { G.told reg.old → ChangedOrNot (G.may_hold reg.old) (G.may_hold reg.new) (λ c. left_by_due c log due.now) }
    ensures keeps { OnErr result (Keeps (G.holds reg.old) (G.holds reg.new) (G.may_hold reg.old) (G.may_hold reg.new)) }
    ensures itself { G.identity reg.new ≡ G.identity reg.old }
    ensures counts { G.faults reg.old ≤ G.faults reg.new }
{
    match reg.close(alloc, log, due.epoch, &due.summary, due.short) {
        Ok(next) => Ok(Tried::Taken(next.unwrap_or(*first))),
        Err(RegisterFault::Behind { lce, next }) => Ok(Tried::Behind(lce, next.unwrap_or(*first))),
        Err(RegisterFault::Overtaken(kept)) => Ok(Tried::Overtaken(kept)),
        Err(RegisterFault::Failed) => Ok(Tried::Unclosed(CloseFault::Failed)),
        Err(RegisterFault::Full) => Ok(Tried::Unclosed(CloseFault::Full)),
        Err(fault) => Err(SequencerFault::from(fault)),
    }
}

impl Sequencer {
    /// What the register's answer to a close does.
    pub(crate) fn after_close(
        &mut self,
        alloc: Global,
        tried: Tried,
        due: &Due,
        out: &mut Outbox,
    ) -> Result<Report, NoMemory>
        requires due { closing_of self.old ≡ Some due.now }
        requires bound { is_epoch_answer tried ≡ true }
        requires next { IsSpecFor self.old.sequencer.log (next_in self.old.origin.first tried) }
        ensures acted { IfOk result (λ report. Acted self.old self.new report out.old out.new (closed_acts (shows (next_in self.old.origin.first tried)) self.old due.now.epoch due.now.summary (answer_of tried))) }
        ensures failed { IfOk result (λ report. report.register ≡ fault_in tried) }
        ensures unsent { OnErr result (out.new ≡ out.old) }
        ensures messages { AreMessages out.old → AreMessages out.new }
    {
        match tried {
            Tried::Taken(next) => self.finish(alloc, due, &next, out),
            Tried::Behind(lce, next) => self.fall_behind(alloc, lce, &next, due, out),
            Tried::Overtaken(kept) => Ok(self.give_way(kept)),
            Tried::Unclosed(fault) => Ok(Report {
                acked: None,
                closed: None,
                preempted: None,
                register: Some(fault),
                released: None,
            }),
        }
    }
}
