// What a tick makes a node do.
ghost use Rattle.std.specs.Prelude.{◌≡◌, ◌≢◌, ◌⊎◌, ◌≤◌, ℕ, List, [], IfOk, IfErr, IfSome, OnOk, IsErrOf, Err, None};
ghost use Rattle.ld_io.specs.Causes.{Rose};
ghost use Rattle.ld_ids.specs.Id.{IsLog};
ghost use Rattle.ld_ids.specs.Set.{members};
ghost use Rattle.ld_msg.specs.Bounds.{IsEpoch, IsSummary};
ghost use Rattle.ld_msg.specs.Register.{Register as Contents};
ghost use Rattle.ld_op.specs.Plain.{log_of};
ghost use Rattle.ld_op.specs.Ticks.{tick_with, lost_tick, lowest_unclean, refill_tick};
ghost use Rattle.ld_register.specs.declared.fault.RegisterFault.{RegisterFault as Refusal};
ghost use Rattle.ld_register.specs.declared.fault.RegisterFault.TheVariants as faults;
ghost use Rattle.ld_store.specs.Well.{IsWell};
ghost use Rattle.ld_node.specs.Changes.{AreChanges};
ghost use Rattle.ld_node.specs.declared.tick.Ticked.TheVariants as answers;
ghost use Rattle.ld_node.specs.Looks.{seen, IsStep, IsOfLook, AskMessages};

use crate::NodeFault;
use ld_ids::{LogId, NoMemory, NodeId, NodeSet};
use ld_msg::{Outbox, Replies, Summary};
use ld_op::{Op, Plain};
use ld_register::Register;
use std::alloc::Global;

/// What a tick made a node do for a log.
#[derive(Drop)]
pub enum Ticked {
    /// This epoch of the log, which is closed in the register, is clean here now.
    Cleaned(u32),
    /// What was lost of the log is there again: the node isn't lost for it any more.
    Rebuilt,
    /// It asks the other nodes for what is missing here.
    Asked(Replies),
    /// Nothing.
    Nothing,
}

/// The op that a node keeps at a tick, and then its answer.
#[derive(Drop)]
pub(crate) struct Step {
    pub(crate) op: Option<Op>,
    pub(crate) ticked: Ticked,
}

/// Looks at the register for the lowest epoch that isn't clean here, and says what the node does by that.
pub(crate) fn look<G: Register>(
    alloc: Global,
    id: NodeId,
    log: LogId,
    nodes: &NodeSet,
    plain: &Plain,
    reg: &mut G,
) -> Result<Step, NodeFault>
    requires log { IsLog log }
    requires well { IsWell plain.now.state }
    ensures step { (c : Contents) → G.holds reg.old c → IfOk result (λ step. IsStep id log (members nodes.now) step (seen (log_of plain.now.state log) c log)) }
    ensures holds { (c : Contents) → G.holds reg.old c → IsErrOf result (NodeFault.Register faults.Failed) ⊎ G.holds reg.new c }
    ensures tells { (c : Contents) → G.tells reg.old c → G.tells reg.new c }
    ensures foretold { (c : Contents) → G.tells reg.old c → IfErr result (λ fault. fault ≡ NodeFault.NoMemory) }
    ensures change { IfOk result (λ step. AreChanges step.op) }
    ensures messages { IfOk result (λ step. AskMessages step.ticked) }
    ensures told { G.told reg.old → G.told reg.new }
    ensures settled { G.told reg.old → OnOk result ((c : Contents) → G.may_hold reg.new c → G.holds reg.new c) }
    ensures same { (c : Contents) → G.may_hold reg.new c → G.may_hold reg.old c }
    ensures register { (fault : Refusal) → IsErrOf result (NodeFault.Register fault) → IsOfLook fault }
    ensures register_failed { IsErrOf result (NodeFault.Register faults.Failed) → Rose (G.faults reg.old) (G.faults reg.new) }
    ensures register_damaged { (place : ℕ) → IsErrOf result (NodeFault.Register (faults.Damaged place)) → G.told reg.old → G.damaged reg.old place }
    ensures disk { result ≢ Err NodeFault.Disk }
    ensures full { result ≢ Err NodeFault.Full }
    ensures needs_load { result ≢ Err NodeFault.NeedsLoad }
    ensures damaged { (place : ℕ) → result ≢ Err (NodeFault.Damaged place) }
    ensures itself { G.identity reg.new ≡ G.identity reg.old }
    ensures counts { G.faults reg.old ≤ G.faults reg.new }
    ensures register_steady { IsErrOf result (NodeFault.Register faults.Failed) ⊎ (G.faults reg.new ≡ G.faults reg.old) }
{
    let epoch = ld_rebuild::lowest_unclean(plain, log);
    let view = reg.look(alloc, log, epoch)?;
    let step = by_shown(alloc, id, log, nodes, plain, epoch, view.summary)?;
    Ok(step)
}

/// What a node does by the summary that was shown of its lowest epoch that isn't clean.
fn by_shown(
    alloc: Global,
    id: NodeId,
    log: LogId,
    nodes: &NodeSet,
    plain: &Plain,
    epoch: u32,
    shown: Option<Summary>,
) -> Result<Step, NoMemory>
    requires log { IsLog log }
    requires well { IsWell plain.now.state }
    requires lowest { epoch ≡ lowest_unclean (log_of plain.now.state log) }
    requires shown { IfSome shown (λ y. IsEpoch epoch × IsSummary epoch y) }
    ensures step { IfOk result (λ step. IsStep id log (members nodes.now) step (tick_with (log_of plain.now.state log) shown)) }
    ensures change { IfOk result (λ step. AreChanges step.op) }
    ensures messages { IfOk result (λ step. AskMessages step.ticked) }
{
    match shown {
        Some(summary) => Ok(Step {
            op: Some(Op::Clean {
                log,
                epoch,
                summary,
            }),
            ticked: Ticked::Cleaned(epoch),
        }),
        None => refill(alloc, id, log, nodes, plain, epoch),
    }
}

/// What a node does where no closed epoch waits to be cleaned here: where it is lost it asks for what is missing.
fn refill(
    alloc: Global,
    id: NodeId,
    log: LogId,
    nodes: &NodeSet,
    plain: &Plain,
    epoch: u32,
) -> Result<Step, NoMemory>
    requires log { IsLog log }
    requires well { IsWell plain.now.state }
    requires lowest { epoch ≡ lowest_unclean (log_of plain.now.state log) }
    ensures step { IfOk result (λ step. IsStep id log (members nodes.now) step (lost_tick (log_of plain.now.state log))) }
    ensures change { IfOk result (λ step. AreChanges step.op) }
    ensures messages { IfOk result (λ step. AskMessages step.ticked) }
{
    if !plain.is_lost(log) {
        return Ok(quiet());
    }
    if plain.first_missing(log).is_none() {
        return Ok(refilled(log, plain.lost_to(log) < epoch));
    }
    let _node = id.number();
    let _there = nodes.has(id);
    let mut asks = Outbox::empty(alloc);
    ld_rebuild::asks(alloc, plain, id, log, nodes, &mut asks)?;
    Ok(Step {
        op: None,
        ticked: Ticked::Asked(Replies::new(asks.into_vec())),
    })
}

/// What a node does where nothing is missing: it is lost no more, once all lost epochs are clean.
fn refilled(log: LogId, all_clean: bool) -> Step
    requires log { IsLog log }
    ensures step { (id : ℕ) (nodes : List ℕ) → IsStep id log nodes result (refill_tick all_clean []) }
    ensures change { AreChanges result.op }
    ensures messages { AskMessages result.ticked }
{
    if !all_clean {
        return quiet();
    }
    Step {
        op: Some(Op::Refilled { log }),
        ticked: Ticked::Rebuilt,
    }
}

/// Nothing is done.
fn quiet() -> Step
    ensures op { result.op ≡ None }
    ensures answer { result.ticked ≡ answers.Nothing }
    ensures messages { AskMessages result.ticked }
{
    Step {
        op: None,
        ticked: Ticked::Nothing,
    }
}
