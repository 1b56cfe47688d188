// A sequencer's own epoch against answers as nodes give them.
mod samples;
mod steps;
mod whole;

ghost use Rattle.std.specs.Prelude.{◌≡◌};

use crate::sequencer::samples::{one_byte, set_of};
use ld_ids::{LogId, NoMemory, NodeId, Spec};
use ld_lsn::Lsn;
use ld_msg::{Body, Msg, Outbox, Who};
use ld_sequencer::{Origin, OwnEpoch, SequencerFault};
use std::alloc::Global;
use std::test::Fail;

// A log of three nodes that stores on two of them.
fn three_nodes(log: LogId) -> Spec
    ensures { result.r ≡ 2 }
{
    let set = set_of(&[1, 2, 3]);
    Spec {
        log,
        set,
        r: 2,
        extras: 0,
    }
}

// The sequencer of epoch 3 of that log, with four nodes in its configuration, that knows this epoch as the last closed one.
fn starts(alloc: Global, log: LogId, lce: u32) -> Result<OwnEpoch, NoMemory> {
    let spec = three_nodes(log);
    let nodes = set_of(&[1, 2, 3, 4]);
    let origin = Origin { nodes, first: spec };
    OwnEpoch::new(alloc, &origin, &spec, 3, lce)
}

// A message of a node to the sequencer of epoch 3.
fn from_node(log: LogId, number: u8, body: Body) -> Msg {
    let from = match NodeId::new(number) {
        Some(node) => Who::Node(node),
        None => Who::Reader(0),
    };
    Msg {
        from,
        to: Who::Sequencer(3),
        log,
        body,
    }
}

// A node stored what has this offset of the epoch.
fn stored(log: LogId, node: u8, epoch: u32, esn: u32) -> Msg {
    let number = Lsn::new(epoch, esn);
    from_node(log, node, Body::Stored { number })
}

// What the sequencer of epoch 3 comes to: of an append and of the nodes that then store it, the number where it is acknowledged; how many messages it sends,
// and what is released.
fn acked(alloc: Global, log: LogId, nodes: [u8; 4]) -> Result<([u64; 4], usize, u64), NoMemory> {
    let mut out = Outbox::empty(alloc);
    let mut own = starts(alloc, log, 2)?;
    let Ok(_) = own.append(alloc, one_byte(alloc)?, &mut out) else {
        return Err(NoMemory);
    };
    let mut acked = [0; 4];
    let mut place = 0usize;
    'nodes: for node in nodes {
        let learnt = own.on_reply(&stored(log, node, 3, 1), &mut out)?;
        if let (Some(number), true) = (learnt.acked, place < 4) {
            acked[place] = number.value();
        }
        place = place.saturating_add(1);
    }
    Ok((acked, out.len(), own.released().value()))
}

#[test]
fn an_append_is_acknowledged_at_the_second_node_of_its_set(rt: HostRuntime) -> Result<(), Fail> {
    let log = LogId::new(1).expect(&rt, "a log");
    let number = Lsn::new(3, 1).value();
    // two stores, and three times the word that it is released; a stranger acknowledges nothing, nor does a node that stored it already
    assert_eq!(rt;
        acked(rt.alloc(), log, [1, 4, 1, 3])?,
        ([0, 0, 0, number], 5, number)
    );
    Ok(())
}

// Which epoch preempts the sequencer where a node says so, and how its next append ends.
fn preempted(
    alloc: Global,
    log: LogId,
) -> Result<(Option<u32>, Result<Lsn, SequencerFault>), NoMemory> {
    let mut out = Outbox::empty(alloc);
    let mut own = starts(alloc, log, 2)?;
    let number = Lsn::new(3, 1);
    let greater = from_node(log, 1, Body::SealedHere { number, sealed: 5 });
    let learnt = own.on_reply(&greater, &mut out)?;
    Ok((
        learnt.preempted,
        own.append(alloc, one_byte(alloc)?, &mut out),
    ))
}

#[test]
fn a_greater_seal_preempts(rt: HostRuntime) -> Result<(), Fail> {
    let log = LogId::new(1).expect(&rt, "a log");
    let refused = Err(SequencerFault::Preempted(5));
    assert!(rt; preempted(rt.alloc(), log) == Ok((Some(5), refused)));
    Ok(())
}

// What is released once the epochs before are closed, and how many messages a trim and that send.
fn closes_through(alloc: Global, log: LogId) -> Result<(u64, usize), NoMemory> {
    let mut out = Outbox::empty(alloc);
    let mut own = starts(alloc, log, 1)?;
    let Ok(()) = own.trim(Lsn::new(2, 0), &mut out) else {
        return Err(NoMemory);
    };
    own.close_through(2, &mut out)?;
    Ok((own.released().value(), out.len()))
}

#[test]
fn what_is_released_rises_once_earlier_epochs_are_closed(rt: HostRuntime) -> Result<(), Fail> {
    let log = LogId::new(1).expect(&rt, "a log");
    // a trim to each of the four nodes, and the word of what is released to the three of the epoch
    assert_eq!(rt;
        closes_through(rt.alloc(), log)?,
        (Lsn::new(3, 0).value(), 7)
    );
    Ok(())
}

// How many messages an append and a retry of it send.
fn retried(alloc: Global, log: LogId) -> Result<usize, NoMemory> {
    let mut out = Outbox::empty(alloc);
    let mut own = starts(alloc, log, 2)?;
    let Ok(_) = own.append(alloc, one_byte(alloc)?, &mut out) else {
        return Err(NoMemory);
    };
    own.retry(alloc, &mut out)?;
    Ok(out.len())
}

#[test]
fn a_retry_sends_to_those_that_have_not_stored(rt: HostRuntime) -> Result<(), Fail> {
    let log = LogId::new(1).expect(&rt, "a log");
    assert_eq!(rt; retried(rt.alloc(), log)?, 4);
    Ok(())
}
