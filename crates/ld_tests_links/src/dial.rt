// Frames over a link in memory.
ghost use Rattle.std.specs.Prelude.{IfSome};
ghost use Rattle.ld_msg.specs.Bounds.{IsMessage};

use crate::link::link_to_two;
use crate::wire::is_spelled;
use ld_dial::{Fault, Framed, Nodes};
use ld_ids::{LogId, NodeId};
use ld_io::{Failed, NoMemory};
use ld_link::{Link, MemLink};
use ld_lsn::Lsn;
use ld_msg::{Body, Msg, Who};
use ld_wire::WireFault;
use std::alloc::Global;
use std::test::Fail;

/// A reader's ask of round 1 for log 1 at node 1, from number 1 on.
const ASK: [u8; 31] = [
    0, 0, 0, 27, 12, 2, 0, 0, 0, 0, 0, 0, 0, 0, 1, 0, 0, 0, 1, 0, 0, 0, 1, 0, 0, 0, 0, 0, 0, 0, 1,
];

/// That the log has nothing from number 1 on.
const ENDED: [u8; 40] = [
    0, 0, 0, 36, 19, 0, 0, 0, 0, 1, 2, 0, 0, 0, 0, 0, 0, 0, 1, 0, 0, 0, 1, 0, 0, 0, 0, 0, 0, 0, 1,
    0, 0, 0, 0, 0, 0, 0, 1, 0,
];

fn ask() -> Option<Msg>
    ensures { IfSome result IsMessage }
{
    let (Some(node), Some(log)) = (NodeId::new(1), LogId::new(1)) else {
        return None;
    };
    Some(Msg {
        from: Who::Reader(0),
        to: Who::Node(node),
        log,
        body: Body::ReadAsk {
            round: 1,
            from: Lsn::new(0, 1),
        },
    })
}

/// Nodes of which one is present, that sends these bytes; the calls with these numbers fail, of which 0 is done.
fn one_node(alloc: Global, bytes: &[u8], fails: &[u64]) -> Result<Framed<MemLink>, NoMemory> {
    let mut link = link_to_two(alloc, bytes, 100, fails)?;
    let _ = link.next_peer();
    Ok(Framed::new(alloc, link))
}

/// Sends the ask.
pub(crate) fn sends<N: Nodes>(alloc: Global, nodes: &mut N) -> Result<(), Fault> {
    match ask() {
        Some(message) => nodes.send(alloc, &message),
        None => Err(Fault::NoMemory),
    }
}

/// Takes an answer, and says whether it was the end of the log.
pub(crate) fn takes_end<N: Nodes>(alloc: Global, nodes: &mut N) -> Result<Option<bool>, Fault> {
    match nodes.receive(alloc) {
        Ok(Some(message)) => Ok(Some(is_spelled(alloc, &message, &ENDED))),
        Ok(None) => Ok(None),
        Err(fault) => Err(fault),
    }
}

/// Dials node 1.
pub(crate) fn dials<N: Nodes>(nodes: &mut N) -> Result<(), Failed> {
    match NodeId::new(1) {
        Some(node) => nodes.dial(node),
        None => Ok(()),
    }
}

/// Whether a message is its frame, and an answer is taken of one, once, and then the node has ended.
fn talk(alloc: Global) -> Result<[bool; 5], NoMemory> {
    let mut nodes = one_node(alloc, &ENDED, &[])?;
    let sent = sends(alloc, &mut nodes) == Ok(());
    let taken = takes_end(alloc, &mut nodes) == Ok(Some(true));
    let ended = takes_end(alloc, &mut nodes) == Ok(None);
    let counted = nodes.endings() == 1;
    let link = nodes.into_link();
    Ok([
        sent,
        taken,
        ended,
        counted,
        link.sent(0) == Some(ASK.as_slice()),
    ])
}

#[test]
fn a_message_is_a_frame_and_so_is_an_answer(rt: HostRuntime) -> Result<(), Fail> {
    assert_eq!(rt; talk(rt.alloc())?, [true; 5]);
    Ok(())
}

/// Whether what is no frame is told, and told again, until the next dial, which reaches no node in memory.
fn told_again(alloc: Global) -> Result<[bool; 4], NoMemory> {
    let mut nodes = one_node(alloc, &[0, 0, 0, 1, 200], &[])?;
    let told = Err(Fault::BadFrame(WireFault::BadKind(200)));
    let first = takes_end(alloc, &mut nodes) == told;
    let again = takes_end(alloc, &mut nodes) == told;
    let dialed = dials(&mut nodes) == Err(Failed);
    Ok([
        first,
        again,
        dialed,
        takes_end(alloc, &mut nodes) == Ok(None),
    ])
}

#[test]
fn what_is_no_frame_is_told_until_the_next_dial(rt: HostRuntime) -> Result<(), Fail> {
    assert_eq!(rt; told_again(rt.alloc())?, [true; 4]);
    Ok(())
}

/// Whether a write and a read that fail are faults of the link, and both are counted.
fn failed_calls(alloc: Global) -> Result<[bool; 3], NoMemory> {
    let mut nodes = one_node(alloc, &ENDED, &[1, 2])?;
    Ok([
        sends(alloc, &mut nodes) == Err(Fault::Link),
        takes_end(alloc, &mut nodes) == Err(Fault::Link),
        nodes.failures() == 2,
    ])
}

#[test]
fn a_failed_call_is_the_links(rt: HostRuntime) -> Result<(), Fail> {
    assert_eq!(rt; failed_calls(rt.alloc())?, [true; 3]);
    Ok(())
}
