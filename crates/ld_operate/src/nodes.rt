// What each node says of a log.
ghost use Rattle.std.specs.Prelude.{◌≡◌, ◌≤◌, ◌+◌, ◌-◌, ◌^◌, ◌++◌, true, false, None, if◌then◌else◌, OnOk, IfOk, IfErr, IfNone, MatchOption};
ghost use Rattle.ld_ids.specs.Set.{members};
ghost use Rattle.ld_operate.specs.Asked.{answers_text, said_text};
ghost use Rattle.ld_operate.specs.Heard.{IsBroken, AreLater, IsNodeStop, Unheard, HeardPoints, HeardOrNot, HeardStates, Heard, HeardAll};

use crate::answers::{points_line, silent_line, state_line, trim_told};
use crate::asking::ask;
use crate::output::write_all;
use crate::stop::{LookStop, StatusStop};
use ld_dial::Nodes;
use ld_ids::{LogId, NodeId, NodeSet};
use ld_io::Sink;
use ld_lsn::Lsn;
use std::alloc::Global;

/// Writes a line.
pub(crate) fn write<O: Sink>(out: &mut O, line: &[u8]) -> Result<(), StatusStop>
    ensures written { OnOk result (O.written out.new ≡ O.written out.old ++ line.now) }
    ensures cause { IfErr result (IsNodeStop (O.faults out.old) (O.faults out.new) None) }
    ensures later { O.faults out.old ≤ O.faults out.new }
{
    match write_all(out, line) {
        Ok(()) => Ok(()),
        Err(_) => Err(StatusStop::Look(LookStop::Write)),
    }
}

/// Asks the present node for its trim point and its released number of a log, and writes their line. Says the trim point; none
/// where the node is silent, and then nothing is written.
fn show_points<N: Nodes, O: Sink>(
    alloc: Global,
    json: bool,
    log: LogId,
    node: NodeId,
    nodes: &mut N,
    out: &mut O,
) -> Result<Option<Lsn>, StatusStop>
    ensures heard { IfOk result (λ trim. MatchOption trim (Unheard (N.tells nodes.old) (N.silent nodes.new) log node (O.written out.old) (O.written out.new)) (HeardPoints json (N.tells nodes.old) (N.tells nodes.new) (N.silent nodes.new) log node (O.written out.old) (O.written out.new))) }
    ensures broken { IfOk result (λ trim. IfNone trim (IsBroken (N.faults nodes.old) (N.faults nodes.new) (N.endings nodes.old) (N.endings nodes.new))) }
    ensures later { AreLater (N.faults nodes.old) (N.faults nodes.new) (N.endings nodes.old) (N.endings nodes.new) }
    ensures output { O.faults out.old ≤ O.faults out.new }
    ensures quiet { N.silent nodes.old ≡ true → N.silent nodes.new ≡ true }
    ensures cause { IfErr result (IsNodeStop (O.faults out.old) (O.faults out.new) (N.off nodes.new)) }
{
    let first = match ask(alloc, log, node, Lsn::new(0, 1), nodes)? {
        Some(first) => first,
        None => return Ok(None),
    };
    let second = match ask(alloc, log, node, Lsn::new(u32::MAX, 1), nodes)? {
        Some(second) => second,
        None => return Ok(None),
    };
    let mut line = Vec::new(alloc);
    points_line(&mut line, json, node, &first, &second)?;
    write(out, &line)?;
    Ok(Some(trim_told(&first)))
}

/// Asks the present node how an epoch of a log stands there, and writes its line. False where the node is silent, and then
/// nothing is written.
fn show_state<N: Nodes, O: Sink>(
    alloc: Global,
    json: bool,
    log: LogId,
    node: NodeId,
    epoch: u32,
    nodes: &mut N,
    out: &mut O,
) -> Result<bool, StatusStop>
    ensures heard { IfOk result (HeardOrNot json (N.tells nodes.old) (N.tells nodes.new) (N.silent nodes.new) log node epoch (O.written out.old) (O.written out.new)) }
    ensures broken { IfOk result (λ answered. answered ≡ false → IsBroken (N.faults nodes.old) (N.faults nodes.new) (N.endings nodes.old) (N.endings nodes.new)) }
    ensures later { AreLater (N.faults nodes.old) (N.faults nodes.new) (N.endings nodes.old) (N.endings nodes.new) }
    ensures output { O.faults out.old ≤ O.faults out.new }
    ensures quiet { N.silent nodes.old ≡ true → N.silent nodes.new ≡ true }
    ensures cause { IfErr result (IsNodeStop (O.faults out.old) (O.faults out.new) (N.off nodes.new)) }
{
    let answer = match ask(alloc, log, node, Lsn::new(epoch, u32::MAX), nodes)? {
        Some(answer) => answer,
        None => return Ok(false),
    };
    let mut line = Vec::new(alloc);
    state_line(&mut line, json, node, epoch, &answer)?;
    write(out, &line)?;
    Ok(true)
}

/// Asks the present node how the epochs of a log from one to another stand there, of which those are left out that it has
/// trimmed whole, and writes a line for each. False where the node fell silent.
fn show_states<N: Nodes, O: Sink>(
    alloc: Global,
    json: bool,
    log: LogId,
    node: NodeId,
    trim: Lsn,
    first: u32,
    last: u32,
    nodes: &mut N,
    out: &mut O,
) -> Result<bool, StatusStop>
    requires { last ≤ 2 ^ 32 - 2 }
    ensures heard { IfOk result (HeardStates json (N.tells nodes.old) (N.tells nodes.new) (N.silent nodes.new) log node trim first (last + 1 - first) (O.written out.old) (O.written out.new)) }
    ensures broken { IfOk result (λ whole. whole ≡ false → IsBroken (N.faults nodes.old) (N.faults nodes.new) (N.endings nodes.old) (N.endings nodes.new)) }
    ensures later { AreLater (N.faults nodes.old) (N.faults nodes.new) (N.endings nodes.old) (N.endings nodes.new) }
    ensures output { O.faults out.old ≤ O.faults out.new }
    ensures quiet { N.silent nodes.old ≡ true → N.silent nodes.new ≡ true }
    ensures cause { IfErr result (IsNodeStop (O.faults out.old) (O.faults out.new) (N.off nodes.new)) }
{
    for epoch in first..last + 1 {
        if trim.value() < Lsn::new(epoch, u32::MAX).value() {
            let answered = show_state(alloc, json, log, node, epoch, nodes, out)?;
            if !answered {
                return Ok(false);
            }
        }
    }
    Ok(true)
}

/// Dials a node and writes what it answers. False where it is silent.
fn show_answers<N: Nodes, O: Sink>(
    alloc: Global,
    json: bool,
    log: LogId,
    node: NodeId,
    first: u32,
    last: u32,
    nodes: &mut N,
    out: &mut O,
) -> Result<bool, StatusStop>
    requires { last ≤ 2 ^ 32 - 2 }
    ensures heard { IfOk result (Heard (answers_text json) (N.tells nodes.old) (N.tells nodes.new) (N.silent nodes.new) log node first (last + 1 - first) (O.written out.old) (O.written out.new)) }
    ensures broken { IfOk result (λ whole. whole ≡ false → IsBroken (N.faults nodes.old) (N.faults nodes.new) (N.endings nodes.old) (N.endings nodes.new)) }
    ensures later { AreLater (N.faults nodes.old) (N.faults nodes.new) (N.endings nodes.old) (N.endings nodes.new) }
    ensures output { O.faults out.old ≤ O.faults out.new }
    ensures quiet { N.silent nodes.old ≡ true → N.silent nodes.new ≡ true }
    ensures cause { IfErr result (IsNodeStop (O.faults out.old) (O.faults out.new) (N.off nodes.new)) }
{
    match nodes.dial(node) {
        Ok(()) => {}
        Err(_) => return Ok(false),
    }
    let trim = match show_points(alloc, json, log, node, nodes, out)? {
        Some(trim) => trim,
        None => return Ok(false),
    };
    show_states(alloc, json, log, node, trim, first, last, nodes, out)
}

/// Dials a node and writes what it says of a log. False where it is silent.
fn show_node<N: Nodes, O: Sink>(
    alloc: Global,
    json: bool,
    log: LogId,
    node: NodeId,
    first: u32,
    last: u32,
    nodes: &mut N,
    out: &mut O,
) -> Result<bool, StatusStop>
    requires { last ≤ 2 ^ 32 - 2 }
    ensures heard { IfOk result (Heard (said_text json) (N.tells nodes.old) (N.tells nodes.new) (N.silent nodes.new) log node first (last + 1 - first) (O.written out.old) (O.written out.new)) }
    ensures broken { IfOk result (λ whole. whole ≡ false → IsBroken (N.faults nodes.old) (N.faults nodes.new) (N.endings nodes.old) (N.endings nodes.new)) }
    ensures later { AreLater (N.faults nodes.old) (N.faults nodes.new) (N.endings nodes.old) (N.endings nodes.new) }
    ensures output { O.faults out.old ≤ O.faults out.new }
    ensures quiet { N.silent nodes.old ≡ true → N.silent nodes.new ≡ true }
    ensures cause { IfErr result (IsNodeStop (O.faults out.old) (O.faults out.new) (N.off nodes.new)) }
{
    if show_answers(alloc, json, log, node, first, last, nodes, out)? {
        return Ok(true);
    }
    let mut line = Vec::new(alloc);
    silent_line(&mut line, json, node)?;
    write(out, &line)?;
    Ok(false)
}

/// Whether it was so of all before, and of this one.
pub(crate) fn both(whole: bool, answered: bool) -> bool
    ensures { result ≡ (if answered then whole else false) }
{
    if answered { whole } else { false }
}

/// Dials each node of a set, rising, and writes what it says of a log. False where one is silent.
pub(crate) fn show_nodes<N: Nodes, O: Sink>(
    alloc: Global,
    json: bool,
    set: &NodeSet,
    log: LogId,
    first: u32,
    last: u32,
    nodes: &mut N,
    out: &mut O,
) -> Result<bool, StatusStop>
    requires { last ≤ 2 ^ 32 - 2 }
    ensures heard { IfOk result (HeardAll json (N.tells nodes.old) (N.tells nodes.new) (N.silent nodes.new) log first (last + 1 - first) (members set.now) (O.written out.old) (O.written out.new)) }
    ensures broken { IfOk result (λ whole. whole ≡ false → IsBroken (N.faults nodes.old) (N.faults nodes.new) (N.endings nodes.old) (N.endings nodes.new)) }
    ensures later { AreLater (N.faults nodes.old) (N.faults nodes.new) (N.endings nodes.old) (N.endings nodes.new) }
    ensures output { O.faults out.old ≤ O.faults out.new }
    ensures quiet { N.silent nodes.old ≡ true → N.silent nodes.new ≡ true }
    ensures cause { IfErr result (IsNodeStop (O.faults out.old) (O.faults out.new) (N.off nodes.new)) }
{
    let mut whole = true;
    for place in 0..set.len() {
        let Some(node) = set.nth(place) else {
            unreachable!();
        };
        let answered = show_node(alloc, json, log, node, first, last, nodes, out)?;
        whole = both(whole, answered);
    }
    Ok(whole)
}
