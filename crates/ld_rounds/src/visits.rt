// A round: each node is visited, and what waits for it is sent.
ghost use Rattle.std.specs.Prelude.{◌≡◌, ◌≢◌, ◌≤◌, ◌+◌, ◌⊎◌, ◌∷◌, [], ℕ, List, Option, None, Err, Some, true, false, set, IsTrue, IfOk, IfErr, IfSome, MatchResult};
ghost use Rattle.ld_ids.specs.Set.{members};
ghost use Rattle.ld_config.specs.declared.config.Config.{Config};
ghost use Rattle.ld_config.specs.Bounds.{IsInBounds};
ghost use Rattle.ld_machine.specs.Config.{has_node};
ghost use Rattle.ld_msg.specs.declared.msg.Msg.{Msg as Message};
ghost use Rattle.ld_msg.specs.declared.msg.Who.TheVariants.{Node};
ghost use Rattle.ld_msg.specs.Bounds.{IsMessage};
ghost use Rattle.ld_node_bounds.specs.Messages.{AreMessages};
ghost use Rattle.ld_machine.specs.State.{State};
ghost use Rattle.ld_wire.specs.declared.fault.WireFault.{WireFault as FrameFault};
ghost use Rattle.ld_dial.specs.Far.{Far, KeepsFrame};
ghost use Rattle.ld_rounds.specs.Queued.{queue_of, TakesUpTo};
ghost use Rattle.ld_rounds.specs.Telling.{HasTold, IsTelling, is_of, is_answered, missed_by};
ghost use Rattle.ld_rounds.specs.Listening.{Writes, is_cut, listens_on, end_then, ends_by, still_due, unsent_by, due_with, due_of};
ghost use Rattle.ld_rounds.specs.Drives.{Driver, AreOfConfig, Holds, GoesOn, AllTaken, WithNode, Answering, IsBroken, AreLater, counted};
ghost use Rattle.ld_rounds.specs.Rounds.{IsDelivered, IsReminded, RemindEnd, Visiting, VisitEnd, IsVisiting, IsVisit, AreVisits, VisitsEnd};
ghost use Rattle.ld_rounds.specs.Acts.{IsDriverOf};
ghost use Rattle.ld_rounds.specs.Ends.{IsSaid};
ghost use Rattle.ld_rounds.specs.Endings.{IsEnding, IsLater, IsOffAs, EndsOff};
ghost use Rattle.ld_rounds.specs.Output.{WritesFault};

use crate::{Actor, Ended, Heard, Queues, write_lines};
use ld_dial::{Fault, Nodes};
use ld_ids::{NodeId, NodeSet};
use ld_io::Sink;
use ld_msg::{Body, Msg, Who};
use std::alloc::Global;

/// Whether a node answers a message of this kind.
fn is_answered(message: &Msg) -> bool
    ensures { result ≡ is_answered message.now.body }
{
    match &message.body {
        Body::Store { .. } => true,
        Body::DigestAsk { .. } => true,
        Body::ReadAsk { .. } => true,
        Body::ReadOne { .. } => true,
        _ => false,
    }
}

/// Whether the message comes of the node.
fn is_of(message: &Msg, node: NodeId) -> bool
    ensures { result ≡ is_of node message.now.from }
{
    match &message.from {
        Who::Node(sender) => *sender == node,
        _ => false,
    }
}

/// What comes of a fault: where the link failed the drive goes on with another node, and else it ends.
fn missed(fault: Fault) -> Result<bool, Ended>
    ensures value { result ≡ missed_by fault }
    ensures cause { (before : ℕ) (now : ℕ) (old : Option (List ℕ)) (new : Option (List ℕ)) → IfErr result (IsEnding before now old new) }
    ensures off { (before : Option FrameFault) (off : Option FrameFault) → KeepsFrame before off (Err fault) → IfErr result (IsOffAs off) }
    ensures unheard { ((frame : FrameFault) → fault ≢ Fault.BadFrame frame) → (off : Option FrameFault) → IfErr result (IsOffAs off) }
{
    match fault {
        Fault::Link => Ok(false),
        Fault::BadFrame(fault) => Err(Ended::BadFrame(fault)),
        Fault::NoMemory => Err(Ended::NoMemory),
    }
}

/// What an actor did: its messages wait for their nodes, and its lines are written.
pub fn tell<O: Sink>(
    alloc: Global,
    heard: Heard,
    queues: &mut Queues,
    out: &mut O,
) -> Result<(), Ended>
    requires { AreMessages heard.sends }
    ensures told { MatchResult result
        (λ _. HasTold heard queues.old queues.new (Some (O.written out.old)) (Some (O.written out.new)))
        (IsTelling heard queues.old queues.new (Some (O.written out.old)) (Some (O.written out.new))) }
    ensures cause { IfErr result (λ ended. (heard.end ≡ Some ended) ⊎ WritesFault (O.faults out.old) (O.faults out.new) ended) }
    ensures off { IfSome heard.end (IsSaid heard.lines.items) → (off : Option FrameFault) → IfErr result (IsOffAs off) }
    ensures ending { IfSome heard.end (IsSaid heard.lines.items) → IfErr result (IsEnding (O.faults out.old) (O.faults out.new) (Some (O.written out.old)) (Some (O.written out.new))) }
    ensures later { IsLater (O.faults out.old) (O.faults out.new) (Some (O.written out.old)) (Some (O.written out.new)) }
{
    let Heard { lines, sends, end } = heard;
    queues.push(sends)?;
    write_lines(alloc, &lines, out)?;
    match end {
        Some(end) => Err(end),
        None => Ok(()),
    }
}

/// Takes one answer of the present node, where so many others are due behind it. Where none is, the node is reminded of what
/// is closed. An answer of another node, for another actor or of another log does nothing. False where the node fails or has
/// ended: then no other is due.
fn listen<A: Actor, N: Nodes, O: Sink>(
    alloc: Global,
    node: NodeId,
    due: u32,
    actor: &mut A,
    nodes: &mut N,
    queues: &mut Queues,
    out: &mut O,
) -> Result<bool, Ended>
    ensures held { (who : Driver) → IsDriverOf who (A.own actor.old) → (c : Config) (first : ℕ) (s : State) (far : Far) → IsInBounds c → has_node c node ≡ true
        → Answering (N.tells nodes.old) c node (due + 1) far → Holds (A.stands actor.old) c first s far queues.old
        → (N.silent nodes.new ≡ true) ⊎ GoesOn who (IsBroken (N.faults nodes.old) (N.faults nodes.new) (N.endings nodes.old) (N.endings nodes.new)) (Visiting c first node) (VisitEnd c first node) (A.stands actor.new) (Answering (N.tells nodes.new) c node (still_due due result)) c first s queues.new (Some (O.written out.old)) (Some (O.written out.new)) result }
    ensures silent { N.silent nodes.old ≡ true → N.silent nodes.new ≡ true }
    ensures itself { A.own actor.new ≡ A.own actor.old }
    ensures since { A.since actor.old actor.new }
    ensures cause { IfErr result (IsEnding (O.faults out.old) (O.faults out.new) (Some (O.written out.old)) (Some (O.written out.new))) }
    ensures wrote { Writes (Some (O.written out.old)) (Some (O.written out.new)) result }
    ensures off { IfErr result (IsOffAs (N.off nodes.new)) }
    ensures ended { N.off nodes.old ≡ None → EndsOff (N.off nodes.new) result }
    ensures later { IsLater (O.faults out.old) (O.faults out.new) (Some (O.written out.old)) (Some (O.written out.new)) }
    ensures counts { AreLater (N.faults nodes.old) (N.faults nodes.new) (N.endings nodes.old) (N.endings nodes.new) }
    ensures broken { IfOk result (λ on. on ≡ false → IsBroken (N.faults nodes.old) (N.faults nodes.new) (N.endings nodes.old) (N.endings nodes.new)) }
{
    let next = match nodes.receive(alloc) {
        Ok(next) => next,
        Err(fault) => return missed(fault),
    };
    let Some(answer) = next else {
        return Ok(false);
    };
    if !is_its(&answer, node, actor) {
        return Ok(true);
    }
    take(alloc, &answer, actor, queues, out)?;
    if due > 0 {
        return Ok(true);
    }
    remind(alloc, node, &answer, actor, nodes)
}

/// Whether the answer is of the node and for the actor.
fn is_its<A: Actor>(answer: &Msg, node: NodeId, actor: &A) -> bool
    ensures heard { IsTrue result → A.hears actor.now answer.now }
    ensures taken { (c : Config) (s : State) → A.stands actor.now c s → is_of node answer.now.from ≡ true → result ≡ (A.own actor.now).takes s answer.now }
{
    is_of(answer, node) && actor.is_for(answer)
}

/// The actor takes an answer that is for it.
fn take<A: Actor, O: Sink>(
    alloc: Global,
    answer: &Msg,
    actor: &mut A,
    queues: &mut Queues,
    out: &mut O,
) -> Result<(), Ended>
    requires message { IsMessage answer.now }
    requires hears { A.hears actor.old answer.now }
    ensures held { (who : Driver) (y : ℕ) (c : Config) (first : ℕ) (s : State) (far : Far) (rest : List Message) → IsInBounds c
        → is_of y answer.now.from ≡ true → who.takes s answer.now ≡ true → far.answers ≡ answer.now ∷ rest → Holds (A.stands actor.old) c first s far queues.old
        → GoesOn who ⊥ (IsDelivered first answer.now) (VisitEnd c first y) (A.stands actor.new) (λ now. now ≡ record far { answers = rest }) c first s queues.new (Some (O.written out.old)) (Some (O.written out.new)) result }
    ensures itself { A.own actor.new ≡ A.own actor.old }
    ensures since { A.since actor.old actor.new }
    ensures cause { IfErr result (IsEnding (O.faults out.old) (O.faults out.new) (Some (O.written out.old)) (Some (O.written out.new))) }
    ensures wrote { Writes (Some (O.written out.old)) (Some (O.written out.new)) result }
    ensures off { (off : Option FrameFault) → IfErr result (IsOffAs off) }
    ensures later { IsLater (O.faults out.old) (O.faults out.new) (Some (O.written out.old)) (Some (O.written out.new)) }
{
    let Ok(heard) = actor.hear(alloc, answer) else {
        return Err(Ended::NoMemory);
    };
    tell(alloc, heard, queues, out)
}

/// Tells the present node, which sent this answer, what the register says of the epochs of the log, one after the other from
/// the first one on, where the answer told the actor to wait for a number of a closed epoch: a look and a frame for each
/// closed epoch, and one look more. The node answers none of them. False where the node fails.
fn remind<A: Actor, N: Nodes>(
    alloc: Global,
    node: NodeId,
    answer: &Msg,
    actor: &mut A,
    nodes: &mut N,
) -> Result<bool, Ended>
    requires { IsMessage answer.now }
    // What each of them does at the node is a tick of it, where it didn't know the epoch, and else nothing.
    ensures held { (who : Driver) → IsDriverOf who (A.own actor.old) → (c : Config) (first : ℕ) (s : State) (far : Far) (queues : List (List Message)) (written : Option (List ℕ)) → IsInBounds c → has_node c node ≡ true
        → is_of node answer.now.from ≡ true → WithNode (N.tells nodes.old) c node far → Holds (A.stands actor.old) c first s far queues
        → (N.silent nodes.new ≡ true) ⊎ GoesOn who ⊥ (IsReminded node answer.now) (RemindEnd node answer.now) (A.stands actor.new) (WithNode (N.tells nodes.new) c node) c first s queues written written result }
    ensures silent { N.silent nodes.old ≡ true → N.silent nodes.new ≡ true }
    ensures itself { A.own actor.new ≡ A.own actor.old }
    ensures since { A.since actor.old actor.new }
    ensures cause { (before : ℕ) (now : ℕ) (old : Option (List ℕ)) (new : Option (List ℕ)) → IfErr result (IsEnding before now old new) }
    ensures off { IfErr result (IsOffAs (N.off nodes.new)) }
    ensures ended { N.off nodes.old ≡ None → EndsOff (N.off nodes.new) result }
    ensures counts { AreLater (N.faults nodes.old) (N.faults nodes.new) (N.endings nodes.old) (N.endings nodes.new) }
    ensures broken { IfOk result (λ on. on ≡ false → IsBroken (N.faults nodes.old) (N.faults nodes.new) (N.endings nodes.old) (N.endings nodes.new)) }
{
    'epochs: for before in 0..u32::MAX {
        let Ok(next) = actor.reminder(alloc, answer, before + 1) else {
            return Err(Ended::NoMemory);
        };
        let Some(reminder) = next else {
            return Ok(true);
        };
        match nodes.send(alloc, &reminder) {
            Ok(()) => {}
            Err(fault) => return missed(fault),
        }
    }
    Ok(true)
}

/// Whether a drive ends by it at once, with answers still due.
fn is_cut(ended: Ended) -> bool
    ensures { result ≡ is_cut ended }
{
    match ended {
        Ended::NoMemory => true,
        Ended::Write => true,
        Ended::BadFrame(_) => true,
        _ => false,
    }
}

/// Whether to listen on. Where the actor ended its drive that is kept, where nothing is kept yet, and what is due is still
/// taken.
fn listens_on(end: &mut Option<Ended>, listened: Result<bool, Ended>) -> Result<bool, Ended>
    ensures on { result ≡ listens_on listened }
    ensures end { end.new ≡ end_then end.old listened }
{
    match listened {
        Ok(is_on) => Ok(is_on),
        Err(ended) => {
            if is_cut(ended) {
                return Err(ended);
            }
            if end.is_none() {
                *end = Some(ended);
            }
            Ok(true)
        }
    }
}

/// How it ends, where it does, and else whether it goes on.
fn ends_by(end: Option<Ended>, is_on: bool) -> Result<bool, Ended>
    ensures { result ≡ ends_by end is_on }
{
    match end {
        Some(ended) => Err(ended),
        None => Ok(is_on),
    }
}

/// Takes so many answers of the present node. Where the actor ends its drive by one of them the others are still taken, since
/// the node may have answered by then, and it ends so after them. False where the node fails or has ended.
fn listen_all<A: Actor, N: Nodes, O: Sink>(
    alloc: Global,
    node: NodeId,
    due: u32,
    actor: &mut A,
    nodes: &mut N,
    queues: &mut Queues,
    out: &mut O,
) -> Result<bool, Ended>
    ensures held { (who : Driver) → IsDriverOf who (A.own actor.old) → (c : Config) (first : ℕ) (s : State) (far : Far) → IsInBounds c → has_node c node ≡ true
        → Answering (N.tells nodes.old) c node due far → Holds (A.stands actor.old) c first s far queues.old
        → (N.silent nodes.new ≡ true) ⊎ GoesOn who (IsBroken (N.faults nodes.old) (N.faults nodes.new) (N.endings nodes.old) (N.endings nodes.new)) (Visiting c first node) (VisitEnd c first node) (A.stands actor.new) (WithNode (N.tells nodes.new) c node) c first s queues.new (Some (O.written out.old)) (Some (O.written out.new)) result }
    ensures silent { N.silent nodes.old ≡ true → N.silent nodes.new ≡ true }
    ensures itself { A.own actor.new ≡ A.own actor.old }
    ensures since { A.since actor.old actor.new }
    ensures cause { IfErr result (IsEnding (O.faults out.old) (O.faults out.new) (Some (O.written out.old)) (Some (O.written out.new))) }
    ensures off { IfErr result (IsOffAs (N.off nodes.new)) }
    ensures ended { N.off nodes.old ≡ None → EndsOff (N.off nodes.new) result }
    ensures later { IsLater (O.faults out.old) (O.faults out.new) (Some (O.written out.old)) (Some (O.written out.new)) }
    ensures counts { AreLater (N.faults nodes.old) (N.faults nodes.new) (N.endings nodes.old) (N.endings nodes.new) }
    ensures broken { IfOk result (λ on. on ≡ false → IsBroken (N.faults nodes.old) (N.faults nodes.new) (N.endings nodes.old) (N.endings nodes.new)) }
{
    let mut end = None;
    let mut left = due;
    'answers: while left > 0 {
        left -= 1;
        let listened = listen(alloc, node, left, actor, nodes, queues, out);
        let is_on = listens_on(&mut end, listened)?;
        if !is_on {
            return ends_by(end, false);
        }
    }
    ends_by(end, true)
}

/// Sends a message to the present node. How many answers are due by it: one where a node answers such a message, and else
/// none. Nothing where the link failed.
fn send_one<A: Actor, N: Nodes>(
    alloc: Global,
    node: NodeId,
    message: &Msg,
    actor: &A,
    nodes: &mut N,
) -> Result<Option<u32>, Ended>
    requires { IsMessage message.now }
    ensures held { (who : Driver) (c : Config) (first : ℕ) (s : State) (far : Far) (queues : List (List Message)) (rest : List Message) (due : ℕ) (written : Option (List ℕ)) → IsInBounds c
        → Answering (N.tells nodes.old) c node due far → Holds (A.stands actor.now) c first s far queues → queue_of queues node ≡ message.now ∷ rest
        → (N.silent nodes.new ≡ true) ⊎ GoesOn who (IsBroken (N.faults nodes.old) (N.faults nodes.new) (N.endings nodes.old) (N.endings nodes.new)) (Visiting c first node) (VisitEnd c first node) (A.stands actor.now) (Answering (N.tells nodes.new) c node (due_with due result)) c first s (set queues node rest) written written result }
    ensures few { IfOk result (λ due. IfSome due (λ n. n ≤ 1)) }
    ensures silent { N.silent nodes.old ≡ true → N.silent nodes.new ≡ true }
    ensures cause { (before : ℕ) (now : ℕ) (old : Option (List ℕ)) (new : Option (List ℕ)) → IfErr result (IsEnding before now old new) }
    ensures off { IfErr result (IsOffAs (N.off nodes.new)) }
    ensures same { N.off nodes.new ≡ N.off nodes.old }
    ensures counts { AreLater (N.faults nodes.old) (N.faults nodes.new) (N.endings nodes.old) (N.endings nodes.new) }
    ensures broken { IfOk result (λ due. due ≡ None → IsBroken (N.faults nodes.old) (N.faults nodes.new) (N.endings nodes.old) (N.endings nodes.new)) }
{
    let _ = node.number();
    match nodes.send(alloc, message) {
        Ok(()) => {}
        Err(fault) => return unsent(fault),
    }
    if is_answered(message) {
        return Ok(Some(1));
    }
    Ok(Some(0))
}

/// What comes of a fault of a message that was to be sent: where the link failed nothing, and else the drive ends.
fn unsent(fault: Fault) -> Result<Option<u32>, Ended>
    ensures value { result ≡ unsent_by fault }
    ensures cause { (before : ℕ) (now : ℕ) (old : Option (List ℕ)) (new : Option (List ℕ)) → IfErr result (IsEnding before now old new) }
    ensures unheard { ((frame : FrameFault) → fault ≢ Fault.BadFrame frame) → (off : Option FrameFault) → IfErr result (IsOffAs off) }
    ensures none { IfOk result (λ due. due ≡ None) }
{
    match fault {
        Fault::Link => Ok(None),
        Fault::BadFrame(frame) => Err(Ended::BadFrame(frame)),
        Fault::NoMemory => Err(Ended::NoMemory),
    }
}

/// How many answers are due by what was sent, and whether no call failed.
struct Sent {
    due: u32,
    is_whole: bool,
}

/// Sends up to so many of the messages that wait for the present node, the first ones first. It sends no more where a call
/// failed: what was sent before may still be answered. While it sends no answer is taken, so that the answers of all of them
/// have to find room on the way: at most 128 may be due.
fn send_some<A: Actor, N: Nodes>(
    alloc: Global,
    node: NodeId,
    most: u32,
    actor: &A,
    nodes: &mut N,
    queues: &mut Queues,
) -> Result<Sent, Ended>
    requires { most ≤ 128 }
    ensures held { (who : Driver) (c : Config) (first : ℕ) (s : State) (far : Far) (written : Option (List ℕ)) → IsInBounds c
        → WithNode (N.tells nodes.old) c node far → Holds (A.stands actor.now) c first s far queues.old
        → (N.silent nodes.new ≡ true) ⊎ GoesOn who (IsBroken (N.faults nodes.old) (N.faults nodes.new) (N.endings nodes.old) (N.endings nodes.new)) (Visiting c first node) (VisitEnd c first node) (A.stands actor.now) (Answering (N.tells nodes.new) c node (due_of result)) c first s queues.new written written result }
    // No more of them than that are taken out of the queue.
    ensures few { TakesUpTo most queues.old node queues.new }
    ensures silent { N.silent nodes.old ≡ true → N.silent nodes.new ≡ true }
    ensures cause { (before : ℕ) (now : ℕ) (old : Option (List ℕ)) (new : Option (List ℕ)) → IfErr result (IsEnding before now old new) }
    ensures off { IfErr result (IsOffAs (N.off nodes.new)) }
    ensures same { N.off nodes.new ≡ N.off nodes.old }
    ensures counts { AreLater (N.faults nodes.old) (N.faults nodes.new) (N.endings nodes.old) (N.endings nodes.new) }
    ensures broken { IfOk result (λ sent. sent.is_whole ≡ false → IsBroken (N.faults nodes.old) (N.faults nodes.new) (N.endings nodes.old) (N.endings nodes.new)) }
{
    let mut due = 0;
    'messages: for _ in 0..most {
        let Some(message) = queues.next(node) else {
            return Ok(Sent {
                due,
                is_whole: true,
            });
        };
        let Some(answers) = send_one(alloc, node, &message, actor, nodes)? else {
            return Ok(Sent {
                due,
                is_whole: false,
            });
        };
        due += answers;
    }
    Ok(Sent {
        due,
        is_whole: true,
    })
}

/// Sends up to as many of the messages that wait for the present node as the queues tell, and then takes the answers that are
/// due by them. False where the node fails or has ended.
fn exchange<A: Actor, N: Nodes, O: Sink>(
    alloc: Global,
    node: NodeId,
    actor: &mut A,
    nodes: &mut N,
    queues: &mut Queues,
    out: &mut O,
) -> Result<bool, Ended>
    ensures held { (who : Driver) → IsDriverOf who (A.own actor.old) → (c : Config) (first : ℕ) (s : State) (far : Far) → IsInBounds c → has_node c node ≡ true
        → WithNode (N.tells nodes.old) c node far → Holds (A.stands actor.old) c first s far queues.old
        → (N.silent nodes.new ≡ true) ⊎ GoesOn who (IsBroken (N.faults nodes.old) (N.faults nodes.new) (N.endings nodes.old) (N.endings nodes.new)) (Visiting c first node) (VisitEnd c first node) (A.stands actor.new) (WithNode (N.tells nodes.new) c node) c first s queues.new (Some (O.written out.old)) (Some (O.written out.new)) result }
    ensures silent { N.silent nodes.old ≡ true → N.silent nodes.new ≡ true }
    ensures itself { A.own actor.new ≡ A.own actor.old }
    ensures since { A.since actor.old actor.new }
    ensures cause { IfErr result (IsEnding (O.faults out.old) (O.faults out.new) (Some (O.written out.old)) (Some (O.written out.new))) }
    ensures off { IfErr result (IsOffAs (N.off nodes.new)) }
    ensures ended { N.off nodes.old ≡ None → EndsOff (N.off nodes.new) result }
    ensures later { IsLater (O.faults out.old) (O.faults out.new) (Some (O.written out.old)) (Some (O.written out.new)) }
    ensures counts { AreLater (N.faults nodes.old) (N.faults nodes.new) (N.endings nodes.old) (N.endings nodes.new) }
    ensures broken { IfOk result (λ on. on ≡ false → IsBroken (N.faults nodes.old) (N.faults nodes.new) (N.endings nodes.old) (N.endings nodes.new)) }
{
    let most = queues.in_flight();
    let Sent { due, is_whole } = send_some(alloc, node, most, actor, nodes, queues)?;
    let is_on = listen_all(alloc, node, due, actor, nodes, queues, out)?;
    if is_whole {
        return Ok(is_on);
    }
    Ok(false)
}

/// Visits a node, where messages wait for it: it is dialed, and gets up to as many of them as the queues tell, whose answers
/// are taken then, and so on until none waits. Messages and answers are taken each once, and in the order in which it waits.
/// What its answers make wait for it is sent in the same visit. Where it can't be reached, fails or ends, what waits for it is
/// dropped.
pub fn visit<A: Actor, N: Nodes, O: Sink>(
    alloc: Global,
    node: NodeId,
    actor: &mut A,
    nodes: &mut N,
    queues: &mut Queues,
    out: &mut O,
) -> Result<(), Ended>
    // Where the nodes tell what stands there: what was delivered, heard and lost are steps of the written machine from any
    // state that the drive represents, and the lines that were written are the actor's lines of those steps. Each message
    // that was delivered or lost is to this node or an answer of it, and was so in its turn: it was new, and none before it was
    // new and waited for the node too, or was new and an answer too. A message to it is lost only where a call of the nodes
    // failed or a node had ended in this visit, and an answer only where the actor doesn't take it. Right behind an answer by
    // which it tells its actor to wait the node may be ticked, where the actor tells nodes of a log's closed epochs. Where it
    // goes on nothing waits for the node, and no answer is to be taken.
    ensures held { (who : Driver) → IsDriverOf who (A.own actor.old) → (c : Config) (first : ℕ) (s : State) (far : Far) → IsInBounds c → has_node c node ≡ true
        → AllTaken (N.tells nodes.old c) far → Holds (A.stands actor.old) c first s far queues.old
        → (N.silent nodes.new ≡ true) ⊎ GoesOn who (IsBroken (N.faults nodes.old) (N.faults nodes.new) (N.endings nodes.old) (N.endings nodes.new)) (IsVisit c first node (counted (N.faults nodes.old) (N.faults nodes.new) (N.endings nodes.old) (N.endings nodes.new))) (λ e. IsVisiting c first node (counted (N.faults nodes.old) (N.faults nodes.new) (N.endings nodes.old) (N.endings nodes.new))) (A.stands actor.new) (AllTaken (N.tells nodes.new c)) c first s queues.new (Some (O.written out.old)) (Some (O.written out.new)) result }
    ensures silent { N.silent nodes.old ≡ true → N.silent nodes.new ≡ true }
    ensures itself { A.own actor.new ≡ A.own actor.old }
    ensures since { A.since actor.old actor.new }
    ensures cause { IfErr result (IsEnding (O.faults out.old) (O.faults out.new) (Some (O.written out.old)) (Some (O.written out.new))) }
    ensures off { IfErr result (IsOffAs (N.off nodes.new)) }
    ensures ended { N.off nodes.old ≡ None → EndsOff (N.off nodes.new) result }
    ensures later { IsLater (O.faults out.old) (O.faults out.new) (Some (O.written out.old)) (Some (O.written out.new)) }
    ensures counts { AreLater (N.faults nodes.old) (N.faults nodes.new) (N.endings nodes.old) (N.endings nodes.new) }
    ensures emptied { IfOk result (λ _. queue_of queues.new node ≡ []) }
{
    if !queues.has(node) {
        return Ok(());
    }
    match nodes.dial(node) {
        Ok(()) => {}
        Err(_) => {
            queues.drop_all(node);
            return Ok(());
        }
    }
    'frames: for _ in 0..u64::MAX {
        if !exchange(alloc, node, actor, nodes, queues, out)? {
            queues.drop_all(node);
            return Ok(());
        }
        let waits = queues.has(node);
        if !waits {
            return Ok(());
        }
    }
    // So many messages are more than any memory holds.
    Err(Ended::NoMemory)
}

/// Visits the nodes of a set in rising order. In each visit the messages that wait for its node are taken, and the answers that
/// are due, each once and in the order in which it waits.
pub fn round<A: Actor, N: Nodes, O: Sink>(
    alloc: Global,
    set: &NodeSet,
    actor: &mut A,
    nodes: &mut N,
    queues: &mut Queues,
    out: &mut O,
) -> Result<(), Ended>
    // Where the nodes tell what stands there: what was delivered, heard and lost are steps of the written machine from any
    // state that the drive represents, and the lines that were written are the actor's lines of those steps. They are visits
    // of the set's nodes, one after the other, the last one in part where it ends. Each message that was delivered or lost in
    // a visit is to its node or an answer of it, and was so in its turn. A message to a node is lost only in a visit of it in
    // which a call of the nodes failed or a node had ended, and an answer only where the actor doesn't take it. Each whole
    // visit leads to a state in which nothing waits for its node, and no answer is to be taken.
    ensures held { (who : Driver) → IsDriverOf who (A.own actor.old) → (c : Config) (first : ℕ) (s : State) (far : Far) → IsInBounds c → AreOfConfig c (members set.now)
        → AllTaken (N.tells nodes.old c) far → Holds (A.stands actor.old) c first s far queues.old
        → (N.silent nodes.new ≡ true) ⊎ GoesOn who (IsBroken (N.faults nodes.old) (N.faults nodes.new) (N.endings nodes.old) (N.endings nodes.new)) (AreVisits c first (members set.now) (counted (N.faults nodes.old) (N.faults nodes.new) (N.endings nodes.old) (N.endings nodes.new))) (VisitsEnd c first (members set.now) (counted (N.faults nodes.old) (N.faults nodes.new) (N.endings nodes.old) (N.endings nodes.new))) (A.stands actor.new) (AllTaken (N.tells nodes.new c)) c first s queues.new (Some (O.written out.old)) (Some (O.written out.new)) result }
    ensures silent { N.silent nodes.old ≡ true → N.silent nodes.new ≡ true }
    ensures itself { A.own actor.new ≡ A.own actor.old }
    ensures since { A.since actor.old actor.new }
    ensures cause { IfErr result (IsEnding (O.faults out.old) (O.faults out.new) (Some (O.written out.old)) (Some (O.written out.new))) }
    ensures off { IfErr result (IsOffAs (N.off nodes.new)) }
    ensures ended { N.off nodes.old ≡ None → EndsOff (N.off nodes.new) result }
    ensures later { IsLater (O.faults out.old) (O.faults out.new) (Some (O.written out.old)) (Some (O.written out.new)) }
    ensures counts { AreLater (N.faults nodes.old) (N.faults nodes.new) (N.endings nodes.old) (N.endings nodes.new) }
{
    let mut place = 0;
    'nodes: while let Some(node) = set.nth(place) {
        visit(alloc, node, actor, nodes, queues, out)?;
        place += 1;
    }
    Ok(())
}
