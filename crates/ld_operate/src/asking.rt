// An ask of a node, and its answer.
ghost use Rattle.std.specs.Prelude.{◌≡◌, ◌≢◌, ◌≤◌, List, ℕ, true, Err, IfOk, IfErr, IfNone};
ghost use Rattle.ld_config.specs.declared.config.Config.{Config as Settings};
ghost use Rattle.ld_machine.specs.Config.{has_log};
ghost use Rattle.ld_machine.specs.Disk.{Node};
ghost use Rattle.ld_wire.specs.declared.fault.WireFault.{WireFault as FrameFault};
ghost use Rattle.ld_dial.specs.Far.{Far, is_up_in, CountsFault, Sends};
ghost use Rattle.ld_operate.specs.Asked.{asks};
ghost use Rattle.ld_operate.specs.Heard.{IsBroken, AreLater, IsAskStop, IsHeard, TakesNext, Faces};

use crate::stop::{LookStop, StatusStop};
use ld_dial::{Fault, Nodes};
use ld_ids::{LogId, NodeId};
use ld_lsn::Lsn;
use ld_msg::{Body, Msg, Who};
use std::alloc::Global;

/// Asks the present node what stands at a number of a log, as the first reader does in its first round. None where it is
/// silent: where a call failed, or it has ended.
pub(crate) fn ask<N: Nodes>(
    alloc: Global,
    log: LogId,
    node: NodeId,
    from: Lsn,
    nodes: &mut N,
) -> Result<Option<Body>, StatusStop>
    requires { 1 ≤ from }
    ensures silent { IfOk result (λ answer. IfNone answer (IsBroken (N.faults nodes.old) (N.faults nodes.new) (N.endings nodes.old) (N.endings nodes.new))) }
    ensures later { AreLater (N.faults nodes.old) (N.faults nodes.new) (N.endings nodes.old) (N.endings nodes.new) }
    ensures cause { IfErr result (IsAskStop (N.off nodes.new)) }
    ensures quiet { N.silent nodes.old ≡ true → N.silent nodes.new ≡ true }
    ensures told { (c : Settings) (all : List (ℕ × Node)) → Faces (N.tells nodes.old c) all node → is_up_in all node ≡ true → has_log c log ≡ true
        → IsHeard (N.tells nodes.new c) (N.silent nodes.new) all node log from result }
{
    match send(alloc, log, node, from, nodes) {
        Ok(()) => take(alloc, nodes),
        Err(Fault::Link) => Ok(None),
        Err(Fault::BadFrame(_)) => unreachable!(),
        Err(Fault::NoMemory) => Err(StatusStop::Look(LookStop::NoMemory)),
    }
}

/// Sends such an ask to the present node.
fn send<N: Nodes>(
    alloc: Global,
    log: LogId,
    node: NodeId,
    from: Lsn,
    nodes: &mut N,
) -> Result<(), Fault>
    requires { 1 ≤ from }
    ensures counts { CountsFault (N.faults nodes.old) (N.faults nodes.new) result }
    ensures sent { (c : Settings) (far : Far) → N.tells nodes.old c far → Sends c far (asks node log from) (N.silent nodes.new) (N.tells nodes.new c) result }
    ensures silent { N.silent nodes.old ≡ true → N.silent nodes.new ≡ true }
    ensures endings { N.endings nodes.new ≡ N.endings nodes.old }
    ensures unheard { (fault : FrameFault) → result ≢ Err (Fault.BadFrame fault) }
{
    let _ = log.number();
    let _ = node.number();
    let _ = from.value();
    let message = Msg {
        from: Who::Reader(0),
        to: Who::Node(node),
        log,
        body: Body::ReadAsk { round: 1, from },
    };
    nodes.send(alloc, &message)
}

/// Takes the next answer of the present node. None where it is silent: where a call failed, or it has ended.
fn take<N: Nodes>(alloc: Global, nodes: &mut N) -> Result<Option<Body>, StatusStop>
    ensures silent { IfOk result (λ answer. IfNone answer (IsBroken (N.faults nodes.old) (N.faults nodes.new) (N.endings nodes.old) (N.endings nodes.new))) }
    ensures later { AreLater (N.faults nodes.old) (N.faults nodes.new) (N.endings nodes.old) (N.endings nodes.new) }
    ensures cause { IfErr result (IsAskStop (N.off nodes.new)) }
    ensures quiet { N.silent nodes.new ≡ N.silent nodes.old }
    ensures taken { (c : Settings) (far : Far) → N.tells nodes.old c far → TakesNext far (N.tells nodes.new c) result }
{
    match nodes.receive(alloc) {
        Ok(Some(message)) => {
            let Msg { body, .. } = message;
            Ok(Some(body))
        }
        Ok(None) => Ok(None),
        Err(Fault::Link) => Ok(None),
        Err(Fault::BadFrame(fault)) => Err(StatusStop::BadFrame(fault)),
        Err(Fault::NoMemory) => Err(StatusStop::Look(LookStop::NoMemory)),
    }
}
