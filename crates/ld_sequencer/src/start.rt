// How a sequencer begins.
ghost use Rattle.std.specs.Prelude.{◌≡◌, ◌≢◌, ◌⊎◌, ◌≤◌, ◌<◌, ◌+◌, ◌-◌, ◌^◌, ◌++◌, ℕ, true, IfOk, IfErr, OnOk, OnErr, IsErrOf, IsErrAnd};
ghost use Rattle.ld_io.specs.Causes.{Rose};
ghost use Rattle.ld_ids.specs.declared.set.Spec.{Spec as Fixed};
ghost use Rattle.ld_node_bounds.specs.Messages.{AreMessages};
ghost use Rattle.ld_msg.specs.Bounds.{IsEpoch};
ghost use Rattle.ld_msg.specs.Register.{Register as Contents};
ghost use Rattle.ld_register.specs.Bounds.{IsSpec, IsSpecFor};
ghost use Rattle.ld_register.specs.Calls.{activated, after_activate, ChangedOrNot, IsFree, IsGrant, Keeps};
ghost use Rattle.ld_register.specs.declared.register.Grant.{Grant};
ghost use Rattle.ld_register.specs.declared.fault.RegisterFault.TheVariants as registers;
ghost use Rattle.ld_sequencer.specs.declared.fault.SequencerFault.TheVariants as faults;
ghost use Rattle.ld_sequencer.specs.Looks.{shows, IsForeseen};
ghost use Rattle.ld_sequencer.specs.Register.{MayCome};
ghost use Rattle.ld_recovery.specs.Sending.{BeginsWith};
ghost use Rattle.ld_sequencer.specs.Whole.{origin_of, recovery_behind, asks_behind, looks_after, Activates, IsActive};

use crate::Sequencer;
use crate::fault::SequencerFault;
use crate::origin::Origin;
use ld_ids::{NoMemory, NodeSet, Spec};
use ld_msg::Outbox;
use ld_recovery::Recovery;
use ld_register::{Grant, Register, RegisterFault, View};
use std::alloc::Global;

/// The greatest epoch.
const GREATEST_EPOCH: u32 = 4_294_967_294;

impl Sequencer {
    /// Gets the log's next epoch from the register, with these nodes, factor and extras fixed for it. The recovery of the
    /// first epoch that isn't closed begins, where that is before its own: all nodes that the register shows of it are asked
    /// for what they have. `nodes` are all nodes of the configuration, and `first` counts for an epoch for which the register
    /// shows nothing.
    ///
    /// It is refused with `Register` as the register refuses the activation, and when out of memory. Of a register that tells
    /// what it holds that is with `Failed` only where its count of faults rose, with `Damaged` and an offset only where its
    /// bytes are no journal from there on, and else just as what it holds says. A refused activation has sent nothing, and
    /// when out of memory no epoch is handed out by a register that holds to what it holds. Behind messages an activation sends
    /// messages, and so does each other call, however it ends: a frame can be made of each.
    pub fn activate<G: Register>(
        alloc: Global,
        nodes: &NodeSet,
        first: &Spec,
        spec: &Spec,
        reg: &mut G,
        out: &mut Outbox,
    ) -> Result<Sequencer, SequencerFault>
        requires spec { IsSpec spec.now }
        requires first { IsSpecFor spec.now.log first.now }
        ensures exact { (c : Contents) → G.tells reg.old c
            → (IsErrOf result faults.NoMemory × G.tells reg.new c) ⊎ (Activates (origin_of nodes.now first.now) spec.now (looks_after first.now spec.now c) out.old out.new result (activated c spec.now) × G.tells reg.new (after_activate c spec.now)) }
        ensures held { (c : Contents) → G.holds reg.old c
            → IsErrAnd result MayCome ⊎ (IsErrOf result faults.NoMemory × G.holds reg.new c) ⊎ (Activates (origin_of nodes.now first.now) spec.now (looks_after first.now spec.now c) out.old out.new result (activated c spec.now) × G.holds reg.new (after_activate c spec.now)) }
        ensures active { IfOk result (λ sequencer. (grant : Grant) × IsEpoch grant.epoch × (next : Fixed) × IsSpecFor spec.now.log next × IsActive (origin_of nodes.now first.now) spec.now (shows next) grant sequencer out.old out.new) }
        ensures unsent { OnErr result (out.new ≡ out.old) }
        ensures memory { IfErr result (λ fault. fault ≢ faults.Register registers.NoMemory) }
        ensures whole { G.told reg.old → IsErrOf result faults.NoMemory ⊎ IsErrAnd result MayCome ⊎ ((c : Contents) × G.holds reg.old c) }
        ensures damaged { (place : ℕ) → IsErrOf result (faults.Register (registers.Damaged place)) → G.told reg.old → G.damaged reg.old place }
        ensures failed { IsErrOf result (faults.Register registers.Failed) → Rose (G.faults reg.old) (G.faults reg.new) }
        ensures steady { IsErrOf result (faults.Register registers.Failed) ⊎ (G.faults reg.new ≡ G.faults reg.old) }
        ensures told { G.told reg.old → G.told reg.new }
        ensures done_or_not { G.told reg.old → ChangedOrNot (G.may_hold reg.old) (G.may_hold reg.new) (λ c. after_activate c spec.now) }
        ensures itself { G.identity reg.new ≡ G.identity reg.old }
        ensures counts { G.faults reg.old ≤ G.faults reg.new }
        ensures messages { AreMessages out.old → AreMessages out.new }
    {
        let expected = foresee(alloc, spec, reg)?;
        let origin = Origin {
            nodes: *nodes,
            first: *first,
        };
        let count = out.len();
        let sequencer = Sequencer::start(alloc, &origin, spec, expected, out)?;
        match reg.activate(alloc, spec) {
            Ok(grant) if is_same(grant, expected) => Ok(sequencer),
            Ok(grant) => {
                out.truncate(count);
                Ok(Sequencer::start(alloc, &origin, spec, grant, out)?)
            }
            Err(fault) => {
                out.truncate(count);
                Err(SequencerFault::from(fault))
            }
        }
    }
}

/// The recovery of the first epoch that isn't closed, with what is shown of it, where that is before the sequencer's own: all
/// its nodes are asked for what they have. Without memory none is asked.
#[tactic(auto, using(crate::proofs::Serving::begin_rules))]
pub(crate) fn next_recovery(
    alloc: Global,
    next: &Spec,
    epoch: u32,
    lce: u32,
    out: &mut Outbox,
) -> Result<Option<Recovery>, NoMemory>
    requires copies { 1 ≤ next.now.r }
    requires epoch { IsEpoch epoch }
    requires lce { lce ≤ 2 ^ 32 - 2 }
    ensures value { IfOk result (λ recovery. recovery ≡ recovery_behind next.now epoch lce) }
    ensures sent { OnOk result (out.new ≡ out.old ++ asks_behind next.now epoch lce) }
    ensures unsent { OnErr result (out.new ≡ out.old) }
    ensures messages { AreMessages out.old → AreMessages out.new }
{
    if lce + 1 < epoch {
        return Ok(Some(Recovery::start(alloc, next, lce + 1, epoch, out)?));
    }
    Ok(None)
}

/// The grant that a register is to give next with this.
fn foresee<G: Register>(alloc: Global, spec: &Spec, reg: &mut G) -> Result<Grant, RegisterFault>
    requires { IsSpec spec.now }
    ensures exact { (c : Contents) → G.tells reg.old c → IfOk result (IsForeseen c spec.now) × IfErr result (λ fault. fault ≡ registers.NoMemory) × G.tells reg.new c }
    ensures held { (c : Contents) → G.holds reg.old c → IfOk result (λ expected. IsForeseen c spec.now expected × G.holds reg.new c) }
    ensures bounds { IfOk result (IsGrant spec.now.log) }
    ensures free { OnErr result (IsFree result) }
    ensures whole { G.told reg.old → IsFree result ⊎ ((c : Contents) × G.holds reg.old c × G.holds reg.new c) }
    ensures damaged { (place : ℕ) → IsErrOf result (registers.Damaged place) → G.told reg.old → G.damaged reg.old place }
    ensures failed { IsErrOf result registers.Failed → Rose (G.faults reg.old) (G.faults reg.new) }
    ensures steady { IsErrOf result registers.Failed ⊎ (G.faults reg.new ≡ G.faults reg.old) }
    ensures told { G.told reg.old → G.told reg.new }
    ensures same { (c : Contents) → G.may_hold reg.new c → G.may_hold reg.old c }
    ensures keeps { IsErrOf result registers.Failed ⊎ Keeps (G.holds reg.old) (G.holds reg.new) (G.may_hold reg.old) (G.may_hold reg.new) }
    ensures itself { G.identity reg.new ≡ G.identity reg.old }
    ensures counts { G.faults reg.old ≤ G.faults reg.new }
{
    let view = reg.look(alloc, spec.log, 0)?;
    if view.lce < view.epoch {
        let behind = reg.look(alloc, spec.log, view.lce + 1)?;
        return Ok(next_grant(&view, behind.spec));
    }
    Ok(next_grant(&view, Some(*spec)))
}

/// The grant that a register is to give next, which tells this of the epoch behind the last closed one.
fn next_grant(view: &View, next: Option<Spec>) -> Grant
    requires lce { view.now.lce ≤ 2 ^ 32 - 2 }
    ensures epoch { IsEpoch result.epoch }
    ensures above { view.now.epoch < 2 ^ 32 - 2 → result.epoch ≡ view.now.epoch + 1 }
    ensures lce { result.lce ≡ view.now.lce }
    ensures next { result.next ≡ next }
{
    let epoch = if view.epoch < GREATEST_EPOCH {
        view.epoch + 1
    } else {
        GREATEST_EPOCH
    };
    Grant {
        epoch,
        lce: view.lce,
        next,
    }
}

/// Whether a grant is as expected.
fn is_same(grant: Grant, expected: Grant) -> bool
    ensures yes { result ≡ true → grant ≡ expected }
    ensures no { grant ≡ expected → result ≡ true }
{
    grant == expected
}

/// Sends these. Without memory nothing is sent.
#[tactic(auto, using(crate::proofs::Begins::back_rules, crate::proofs::Bounded::message_rules))]
pub(crate) fn send_all(asks: Outbox, out: &mut Outbox) -> Result<(), NoMemory>
    ensures sent { OnOk result (out.new ≡ out.old ++ asks) }
    ensures unsent { OnErr result (out.new ≡ out.old) }
    ensures messages { AreMessages asks → AreMessages out.old → AreMessages out.new }
{
    let count = out.len();
    let sent = add_all(asks, out);
    if sent.is_err() {
        out.truncate(count);
    }
    sent
}

/// Sends these. Without memory some may have been sent.
#[tactic(auto, using(crate::proofs::Begins::back_rules))]
fn add_all(asks: Outbox, out: &mut Outbox) -> Result<(), NoMemory>
    ensures sent { OnOk result (out.new ≡ out.old ++ asks) }
    ensures begins { OnErr result (BeginsWith out.old out.new) }
{
    'asks: for ask in asks.into_vec() {
        out.push(ask)?;
    }
    Ok(())
}
