// How far each node has trimmed a log.
ghost use Rattle.std.specs.Prelude.{◌≡◌, ◌≤◌, ◌++◌, true, false, OnOk, IfOk, IfErr};
ghost use Rattle.ld_operate.specs.Heard.{IsBroken, AreLater, IsAskStop, IsNodeStop};
ghost use Rattle.ld_operate.specs.Trims.{trim_line, has_told, has_trimmed, is_behind, HearsTrim, HearsOn, HeardTrim, HasTrims};

use crate::answers::{silent_line, trim_told};
use crate::asking::ask;
use crate::nodes::{both, write};
use crate::parts::{labelled, labelled_lsn, word};
use crate::stop::StatusStop;
use ld_config::Config;
use ld_dial::Nodes;
use ld_ids::{LogId, NoMemory, NodeId};
use ld_io::Sink;
use ld_lsn::Lsn;
use std::alloc::Global;

/// How many milliseconds pass before a node that is behind is asked again: before the second ask, and before the third one.
const PAUSES: (u32, u32) = (20, 400);

/// The line of what a node told for its trim point, or that it is silent.
#[tactic(auto, unfolding(crate::specs::Trims::trim_line))]
fn trim_line(out: &mut Vec<u8>, node: NodeId, trim: &Option<Lsn>) -> Result<(), NoMemory>
    ensures { OnOk result (out.new.items ≡ out.old.items ++ trim_line node trim.now) }
{
    let Some(trim) = trim else {
        return silent_line(out, false, node);
    };
    labelled(out, b"node ", u32::from(node.number()))?;
    labelled_lsn(out, b" trim ", *trim)?;
    word(out, b"\n")
}

/// Whether it told that all up to a number is trimmed there.
fn has_trimmed(upto: Lsn, trim: &Option<Lsn>) -> bool
    ensures { result ≡ has_trimmed upto trim.now }
{
    match trim {
        None => false,
        Some(trim) => upto.value() <= trim.value(),
    }
}

/// Whether it told that not all up to a number is trimmed there.
fn is_behind(upto: Lsn, trim: &Option<Lsn>) -> bool
    ensures { result ≡ is_behind upto trim.now }
{
    match trim {
        None => false,
        Some(trim) => trim.value() < upto.value(),
    }
}

/// Dials a node and asks it for its trim point of a log. None where it is silent.
fn ask_trim<N: Nodes>(
    alloc: Global,
    log: LogId,
    node: NodeId,
    nodes: &mut N,
) -> Result<Option<Lsn>, StatusStop>
    ensures heard { IfOk result (HearsTrim (N.tells nodes.old) (N.tells nodes.new) (N.silent nodes.new) log node) }
    ensures broken { IfOk result (λ trim. has_told trim ≡ false → IsBroken (N.faults nodes.old) (N.faults nodes.new) (N.endings nodes.old) (N.endings nodes.new)) }
    ensures later { AreLater (N.faults nodes.old) (N.faults nodes.new) (N.endings nodes.old) (N.endings nodes.new) }
    ensures quiet { N.silent nodes.old ≡ true → N.silent nodes.new ≡ true }
    ensures cause { IfErr result (IsAskStop (N.off nodes.new)) }
{
    match nodes.dial(node) {
        Ok(()) => {}
        Err(_) => return Ok(None),
    }
    match ask(alloc, log, node, Lsn::new(0, 1), nodes)? {
        Some(answer) => Ok(Some(trim_told(&answer))),
        None => Ok(None),
    }
}

/// Where what a node told is behind a number, asks it again for its trim point of a log, so many milliseconds later: by then it may
/// have taken a trim that was under way. Else that is the answer.
fn ask_again<N: Nodes>(
    alloc: Global,
    log: LogId,
    node: NodeId,
    upto: Lsn,
    told: Option<Lsn>,
    pause: u32,
    nodes: &mut N,
) -> Result<Option<Lsn>, StatusStop>
    ensures heard { IfOk result (HearsOn (N.tells nodes.old) (N.tells nodes.new) (N.silent nodes.new) log node told) }
    ensures broken { IfOk result (λ trim. has_told told ≡ true → has_told trim ≡ false → IsBroken (N.faults nodes.old) (N.faults nodes.new) (N.endings nodes.old) (N.endings nodes.new)) }
    ensures kept { IfOk result (λ trim. is_behind upto told ≡ false → trim ≡ told) }
    ensures later { AreLater (N.faults nodes.old) (N.faults nodes.new) (N.endings nodes.old) (N.endings nodes.new) }
    ensures quiet { N.silent nodes.old ≡ true → N.silent nodes.new ≡ true }
    ensures cause { IfErr result (IsAskStop (N.off nodes.new)) }
{
    if !is_behind(upto, &told) {
        return Ok(told);
    }
    nodes.rest(pause);
    ask_trim(alloc, log, node, nodes)
}

/// What a node tells for its trim point of a log, which is asked up to three times until that isn't behind a number. None where
/// it is silent at one of them.
fn last_trim<N: Nodes>(
    alloc: Global,
    log: LogId,
    node: NodeId,
    upto: Lsn,
    nodes: &mut N,
) -> Result<Option<Lsn>, StatusStop>
    ensures heard { IfOk result (HearsTrim (N.tells nodes.old) (N.tells nodes.new) (N.silent nodes.new) log node) }
    ensures broken { IfOk result (λ trim. has_told trim ≡ false → IsBroken (N.faults nodes.old) (N.faults nodes.new) (N.endings nodes.old) (N.endings nodes.new)) }
    ensures later { AreLater (N.faults nodes.old) (N.faults nodes.new) (N.endings nodes.old) (N.endings nodes.new) }
    ensures quiet { N.silent nodes.old ≡ true → N.silent nodes.new ≡ true }
    ensures cause { IfErr result (IsAskStop (N.off nodes.new)) }
{
    let first = ask_trim(alloc, log, node, nodes)?;
    let second = ask_again(alloc, log, node, upto, first, PAUSES.0, nodes)?;
    ask_again(alloc, log, node, upto, second, PAUSES.1, nodes)
}

/// Asks a node for its trim point of a log and writes its line. True where it has trimmed all up to a number.
fn tell_trim<N: Nodes, O: Sink>(
    alloc: Global,
    log: LogId,
    node: NodeId,
    upto: Lsn,
    nodes: &mut N,
    out: &mut O,
) -> Result<bool, StatusStop>
    ensures heard { IfOk result (HeardTrim (N.tells nodes.old) (N.tells nodes.new) (N.silent nodes.new) (IsBroken (N.faults nodes.old) (N.faults nodes.new) (N.endings nodes.old) (N.endings nodes.new)) log upto node (O.written out.old) (O.written out.new)) }
    ensures later { AreLater (N.faults nodes.old) (N.faults nodes.new) (N.endings nodes.old) (N.endings nodes.new) }
    ensures output { O.faults out.old ≤ O.faults out.new }
    ensures quiet { N.silent nodes.old ≡ true → N.silent nodes.new ≡ true }
    ensures cause { IfErr result (IsNodeStop (O.faults out.old) (O.faults out.new) (N.off nodes.new)) }
{
    let trim = last_trim(alloc, log, node, upto, nodes)?;
    let mut line = Vec::new(alloc);
    trim_line(&mut line, node, &trim)?;
    write(out, &line)?;
    Ok(has_trimmed(upto, &trim))
}

/// Asks each node of the configuration, rising, how far it has trimmed a log, and writes a line of each: `node N trim LSN`, or
/// `node N silent` where a call of it fails, or it has ended. A node whose answer is below `upto` is dialed and asked again 20
/// milliseconds later, and where it still is 400 milliseconds after that, since a trim that was sent to it may be under way; its
/// line tells the last of these asks, and is written before the next node is asked. True where each of them answered, and has
/// trimmed all up to `upto`, with that number or above it; then none of them has what was trimmed.
///
/// It changes nothing at the nodes. It ends with `BadFrame` where what a node sent begins no frame, with `Look(Write)` where the
/// output failed, and when out of memory, and with no other one.
pub fn tell_trims<N: Nodes, O: Sink>(
    alloc: Global,
    config: &Config,
    log: LogId,
    upto: Lsn,
    nodes: &mut N,
    out: &mut O,
) -> Result<bool, StatusStop>
    // What is written is the text of what each node told, and the answer says whether all have trimmed so far. Where the nodes
    // tell what stands there, and of a log of the configuration, those are the trim points of the written machine's nodes, and
    // they stand as before. A node is silent only where a call of it failed, or it had ended.
    ensures trims { IfOk result (HasTrims (N.tells nodes.old) (N.tells nodes.new) (N.silent nodes.new) (IsBroken (N.faults nodes.old) (N.faults nodes.new) (N.endings nodes.old) (N.endings nodes.new)) config.now log upto (O.written out.old) (O.written out.new)) }
    // Why it ends with an error.
    ensures cause { IfErr result (IsNodeStop (O.faults out.old) (O.faults out.new) (N.off nodes.new)) }
    ensures quiet { N.silent nodes.old ≡ true → N.silent nodes.new ≡ true }
    ensures later { AreLater (N.faults nodes.old) (N.faults nodes.new) (N.endings nodes.old) (N.endings nodes.new) }
    ensures output { O.faults out.old ≤ O.faults out.new }
{
    let mut done = true;
    for place in 0..config.nodes.len() {
        let Some(node) = config.nodes.nth(place) else {
            unreachable!();
        };
        let trimmed = tell_trim(alloc, log, node, upto, nodes, out)?;
        done = both(done, trimmed);
    }
    Ok(done)
}
