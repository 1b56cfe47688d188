// Asks of a node to the others.
ghost use Rattle.std.specs.Prelude.{◌≡◌, ◌≢◌, ◌≤◌, ◌⊎◌, ◌&&◌, ◌==◌, [], ℕ, List, Option, IfOk, IfErr, IfSome, MatchOption, None, Some, Err, true, false};
ghost use Rattle.ld_config.specs.declared.config.Config.{Config as Settings};
ghost use Rattle.ld_msg.specs.declared.msg.Who.TheVariants as whos;
ghost use Rattle.ld_msg.specs.Bounds.{IsMessage};
ghost use Rattle.ld_machine.specs.Disk.{Node as Place};
ghost use Rattle.ld_wire.specs.declared.fault.WireFault.{WireFault as FrameFault};
ghost use Rattle.ld_dial.specs.Far.{Far};
ghost use Rattle.ld_mend.specs.Course.{is_node, answers_to, node_of, ToldAs, Faces, TakesOwn, Fetched, IsHushed};
ghost use Rattle.ld_mend.specs.Stops.{IsFetchStop};

use crate::Stop;
use ld_dial::{Fault, Nodes};
use ld_ids::{LogId, NodeId, NodeSet};
use ld_msg::{Msg, Who};
use std::alloc::Global;

/// Whether it is this node.
fn is_node(who: &Who, node: NodeId) -> bool
    ensures { result ≡ is_node node who.now }
{
    match who {
        Who::Node(number) => *number == node,
        _ => false,
    }
}

/// The message, where it comes of the one node, is for the other one, and of the log.
fn own(from: NodeId, to: NodeId, log: LogId, message: Msg) -> Option<Msg>
    ensures { MatchOption result (answers_to from to log message ≡ false) (λ answer. (answer ≡ message) × (answers_to from to log message ≡ true)) }
{
    if is_node(&message.from, from) && is_node(&message.to, to) && message.log == log {
        return Some(message);
    }
    None
}

/// Takes the next answer of the present node to the one that asked. None where a call failed, where the node has ended, and
/// where what it sent isn't such an answer.
fn take<N: Nodes>(
    alloc: Global,
    from: NodeId,
    to: NodeId,
    log: LogId,
    nodes: &mut N,
) -> Result<Option<Msg>, Stop>
    ensures message { IfOk result (λ answer. IfSome answer (λ m. IsMessage m × (answers_to from to log m ≡ true))) }
    ensures taken { (c : Settings) (far : Far) → N.tells nodes.old c far → TakesOwn far (N.tells nodes.new c) from to log result }
    ensures silent { N.silent nodes.new ≡ N.silent nodes.old }
    ensures cause { IfErr result (IsFetchStop (N.off nodes.new)) }
{
    match nodes.receive(alloc) {
        Ok(Some(message)) => Ok(own(from, to, log, message)),
        Ok(None) => Ok(None),
        Err(Fault::Link) => Ok(None),
        Err(Fault::BadFrame(fault)) => Err(Stop::BadFrame(fault)),
        Err(Fault::NoMemory) => Err(Stop::NoMemory),
    }
}

/// Hands an ask to the present node, for which it is, and takes its answer.
fn exchange<N: Nodes>(
    alloc: Global,
    id: NodeId,
    node: NodeId,
    ask: &Msg,
    nodes: &mut N,
) -> Result<Option<Msg>, Stop>
    requires { IsMessage ask.now }
    ensures message { IfOk result (λ answer. IfSome answer (λ m. IsMessage m × (answers_to node id ask.now.log m ≡ true))) }
    ensures told { (c : Settings) (ns : List (ℕ × Place)) → ask.now.to ≡ whos.Node node → ask.now.from ≡ whos.Node id → Faces (N.tells nodes.old c) ns node
        → (N.silent nodes.new ≡ true) ⊎ Fetched c (N.tells nodes.new c) (Some ns) ask.now result }
    ensures silent { N.silent nodes.old ≡ true → N.silent nodes.new ≡ true }
    ensures cause { IfErr result (IsFetchStop (N.off nodes.new)) }
{
    match nodes.send(alloc, ask) {
        Ok(()) => take(alloc, node, id, ask.log, nodes),
        Err(Fault::Link) => Ok(None),
        Err(Fault::BadFrame(_)) => unreachable!(),
        Err(Fault::NoMemory) => Err(Stop::NoMemory),
    }
}

/// Dials the node that an ask is for, unless it couldn't be dialed before, hands it the ask, and takes its answer.
fn reach<N: Nodes>(
    alloc: Global,
    id: NodeId,
    node: NodeId,
    ask: &Msg,
    gone: &mut NodeSet,
    nodes: &mut N,
) -> Result<Option<Msg>, Stop>
    requires { IsMessage ask.now }
    ensures message { IfOk result (λ answer. IfSome answer (λ m. IsMessage m × (answers_to node id ask.now.log m ≡ true))) }
    ensures told { (c : Settings) (far : Option (List (ℕ × Place))) → ask.now.to ≡ whos.Node node → ask.now.from ≡ whos.Node id → ToldAs (N.tells nodes.old c) far
        → IsHushed (N.silent nodes.new) far ⊎ Fetched c (N.tells nodes.new c) far ask.now result }
    ensures silent { N.silent nodes.old ≡ true → N.silent nodes.new ≡ true }
    ensures cause { IfErr result (IsFetchStop (N.off nodes.new)) }
{
    if gone.has(node) {
        return Ok(None);
    }
    match nodes.dial(node) {
        Ok(()) => exchange(alloc, id, node, ask, nodes),
        Err(_) => {
            *gone = gone.with(node);
            Ok(None)
        }
    }
}

/// Hands an ask of this node to the one that it is for, and takes the answer. None where that node couldn't be dialed, now or
/// before, where a call failed, where it has ended, and where it sent something else. It stops with `BadFrame` where what the
/// node sent begins no frame, and with `NoMemory`.
pub(crate) fn fetch<N: Nodes>(
    alloc: Global,
    id: NodeId,
    ask: &Msg,
    gone: &mut NodeSet,
    nodes: &mut N,
) -> Result<Option<Msg>, Stop>
    requires { IsMessage ask.now }
    ensures message { IfOk result (λ answer. IfSome answer (λ m. IsMessage m × (answers_to (node_of ask.now.to) id ask.now.log m ≡ true))) }
    ensures told { (c : Settings) (far : Option (List (ℕ × Place))) → ask.now.from ≡ whos.Node id → ToldAs (N.tells nodes.old c) far
        → IsHushed (N.silent nodes.new) far ⊎ Fetched c (N.tells nodes.new c) far ask.now result }
    ensures silent { N.silent nodes.old ≡ true → N.silent nodes.new ≡ true }
    ensures cause { IfErr result (IsFetchStop (N.off nodes.new)) }
{
    match &ask.to {
        Who::Node(node) => reach(alloc, id, *node, ask, gone, nodes),
        _ => Ok(None),
    }
}
