// What the register shows of an epoch whose recovery begins, and of one whose nodes have told all that they can.
ghost use Rattle.std.specs.Prelude.{◌≡◌, ◌⊎◌, ◌≤◌, ◌-◌, ◌^◌, ℕ, true, is_some, IfOk, IfErr, OnOk, OnErr, IsErrOf};
ghost use Rattle.ld_io.specs.Causes.{Rose};
ghost use Rattle.ld_msg.specs.Register.{Register as Contents, look as looks};
ghost use Rattle.ld_register.specs.Bounds.{IsSpecFor};
ghost use Rattle.ld_register.specs.Calls.{Keeps};
ghost use Rattle.ld_register.specs.declared.fault.RegisterFault.TheVariants as registers;
ghost use Rattle.ld_sequencer.specs.declared.fault.SequencerFault.TheVariants as faults;
ghost use Rattle.ld_sequencer.specs.Looks.{behind, is_counted, IsSeen, IsShown, MayBeSeen};
ghost use Rattle.ld_sequencer.specs.Register.{MayCome};

use crate::fault::SequencerFault;
use ld_ids::{LogId, Spec};
use ld_msg::Summary;
use ld_register::Register;
use std::alloc::Global;

/// What the register shows of a recovered epoch.
#[derive(Clone, Copy)]
pub(crate) enum Seen {
    /// It is closed with this summary, and this is shown of the epoch behind it.
    Closed(Summary, Spec),
    /// It isn't closed, and this is the greatest epoch that was handed out.
    Open(u32),
}

/// What the register shows of the log's epoch: `first`, where nothing was fixed for it, or where there is no epoch. The
/// register is looked at where there is one.
pub(crate) fn look_at<G: Register>(
    alloc: Global,
    log: LogId,
    first: &Spec,
    epoch: Option<u32>,
    reg: &mut G,
) -> Result<Spec, SequencerFault>
    requires { IsSpecFor log first.now }
    ensures exact { (c : Contents) → G.tells reg.old c → IfOk result (IsShown (looks first.now c log) epoch) × IfErr result (λ fault. fault ≡ faults.NoMemory) × G.tells reg.new c }
    ensures held { (c : Contents) → G.holds reg.old c → IfOk result (λ next. IsShown (looks first.now c log) epoch next × G.holds reg.new c) }
    ensures next { IfOk result (IsSpecFor log) }
    ensures due { OnErr result (is_some epoch ≡ true) }
    ensures free { IfErr result (λ fault. (fault ≡ faults.NoMemory) ⊎ MayCome fault) }
    ensures failed { IsErrOf result (faults.Register registers.Failed) → Rose (G.faults reg.old) (G.faults reg.new) }
    ensures damaged { (place : ℕ) → IsErrOf result (faults.Register (registers.Damaged place)) → G.told reg.old → G.damaged reg.old place }
    ensures steady { IsErrOf result (faults.Register registers.Failed) ⊎ (G.faults reg.new ≡ G.faults reg.old) }
    ensures told { G.told reg.old → G.told reg.new }
    ensures same { (c : Contents) → G.may_hold reg.new c → G.may_hold reg.old c }
    ensures held_before { G.told reg.old → OnOk result ((c : Contents) → G.holds reg.new c → G.holds reg.old c) }
    ensures damaged_before { G.told reg.old → OnOk result ((place : ℕ) → G.damaged reg.new place → G.damaged reg.old place) }
    ensures keeps { IsErrOf result (faults.Register registers.Failed) ⊎ Keeps (G.holds reg.old) (G.holds reg.new) (G.may_hold reg.old) (G.may_hold reg.new) }
    ensures itself { G.identity reg.new ≡ G.identity reg.old }
    ensures counts { G.faults reg.old ≤ G.faults reg.new }
{
    let Some(epoch) = epoch else {
        return Ok(*first);
    };
    let view = reg.look(alloc, log, epoch)?;
    Ok(view.spec.unwrap_or(*first))
}

/// What the register shows of the log's epoch, which the sequencer of this later one recovers. Where it is closed, what is
/// shown of the epoch behind it is `first` where nothing was fixed for that one, or where that isn't before the sequencer's.
pub(crate) fn see<G: Register>(
    alloc: Global,
    log: LogId,
    first: &Spec,
    epoch: u32,
    own: u32,
    reg: &mut G,
) -> Result<Seen, SequencerFault>
    requires first { IsSpecFor log first.now }
    requires epoch { epoch ≤ 2 ^ 32 - 2 }
    ensures exact { (c : Contents) → G.tells reg.old c → IfOk result (IsSeen (looks first.now c log) epoch own) × IfErr result (λ fault. fault ≡ faults.NoMemory) × G.tells reg.new c }
    ensures held { (c : Contents) → G.holds reg.old c → IfOk result (λ seen. IsSeen (looks first.now c log) epoch own seen × G.holds reg.new c) }
    ensures bounds { IfOk result (MayBeSeen log epoch) }
    ensures free { IfErr result (λ fault. (fault ≡ faults.NoMemory) ⊎ MayCome fault) }
    ensures failed { IsErrOf result (faults.Register registers.Failed) → Rose (G.faults reg.old) (G.faults reg.new) }
    ensures damaged { (place : ℕ) → IsErrOf result (faults.Register (registers.Damaged place)) → G.told reg.old → G.damaged reg.old place }
    ensures steady { IsErrOf result (faults.Register registers.Failed) ⊎ (G.faults reg.new ≡ G.faults reg.old) }
    ensures told { G.told reg.old → G.told reg.new }
    ensures same { (c : Contents) → G.may_hold reg.new c → G.may_hold reg.old c }
    ensures keeps { IsErrOf result (faults.Register registers.Failed) ⊎ Keeps (G.holds reg.old) (G.holds reg.new) (G.may_hold reg.old) (G.may_hold reg.new) }
    ensures itself { G.identity reg.new ≡ G.identity reg.old }
    ensures counts { G.faults reg.old ≤ G.faults reg.new }
{
    let view = reg.look(alloc, log, epoch)?;
    match view.summary {
        Some(summary) => {
            let next = look_at(alloc, log, first, behind(epoch, own), reg)?;
            Ok(Seen::Closed(summary, next))
        }
        None => Ok(Seen::Open(view.epoch)),
    }
}

/// The epoch behind a recovered one, where that is before the sequencer's own.
pub(crate) fn behind(recovered: u32, own: u32) -> Option<u32>
    ensures { result ≡ behind recovered own }
{
    if recovered < own && recovered + 1 < own {
        Some(recovered + 1)
    } else {
        None
    }
}

/// Whether what a node told is to go into the recovery by what was seen then: where the sequencer of this epoch plans it, or
/// looks again at a retry.
pub(crate) fn is_counted(own: u32, seen: &Result<Seen, SequencerFault>) -> bool
    ensures { result ≡ is_counted own seen.now }
{
    match seen {
        Ok(seen) => match seen {
            Seen::Closed(_, _) => false,
            Seen::Open(kept) => *kept == own,
        },
        Err(_) => true,
    }
}
