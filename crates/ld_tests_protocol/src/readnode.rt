// Answers as tables: what a node has, where it is asked, what it says.
#![tactic(auto, unfolding(ld_op::specs::Plain::op_length))]

use crate::kept::{keep_close, keep_entry, keep_trim};
use crate::nodes::nodes;
use ld_ids::{LogId, NoMemory, NodeId, Payload};
use ld_lsn::Lsn;
use ld_msg::{Body, Msg, What, Who};
use ld_op::{DraftBody, Plain, Pointed, Said};
use ld_readnode::{answer, answer_one, digest};
use std::alloc::Global;
use std::test::Fail;

// The greatest offset of an epoch.
const LAST: u32 = 4_294_967_295;

// A node that keeps records at the first offsets of epoch 1.
fn filled(alloc: Global, log: LogId, places: u32) -> Result<Plain, NoMemory> {
    let mut plain = Plain::new(alloc);
    for esn in 1..=places {
        let payload = Payload::new(Vec::from_slice(alloc, &[7])?);
        keep_entry(alloc, &mut plain, log, esn, What::Rec(payload), 0)?;
    }
    Ok(plain)
}

// What a draft says: one letter, the offset of epoch 1 that it names, and how many entries it gives.
fn shown(body: &DraftBody) -> (u8, u32, usize) {
    match body.said() {
        Said::Page {
            upto,
            clean: true,
            entries,
            ..
        } => (b'c', upto.esn(), entries.len()),
        Said::Page { upto, entries, .. } => (b'p', upto.esn(), entries.len()),
        Said::Digest { upto, entries, .. } => (b'd', upto.esn(), entries.len()),
        Said::Whole(body) => shown_whole(body),
    }
}

fn shown_whole(body: &Body) -> (u8, u32, usize) {
    match body {
        Body::ReadTrim { trim, .. } => (b't', trim.esn(), 0),
        Body::ReadEnded {
            end,
            loss: true,
            ..
        } => (b'g', end.esn(), 0),
        Body::ReadEnded { end, .. } => (b'e', end.esn(), 0),
        Body::ReadWait { released, .. } => (b'w', released.esn(), 0),
        _ => (b'x', 0, 0),
    }
}

// What the node says to a reader that asks from an offset of epoch 1, where all up to another offset of it is released.
fn reads(
    alloc: Global,
    plain: &Plain,
    log: LogId,
    node: NodeId,
    released: u32,
    from: u32,
) -> Result<(u8, u32, usize), NoMemory> {
    let msg = Msg {
        from: Who::Reader(0),
        to: Who::Node(node),
        log,
        body: Body::ReadAsk {
            round: 1,
            from: Lsn::new(1, from),
        },
    };
    let reply = answer(alloc, plain, Lsn::new(1, released), &msg)?;
    Ok(shown(reply.body()))
}

// What the node says to a sequencer that asks for its digest from an offset of epoch 1.
fn tells(
    alloc: Global,
    plain: &Plain,
    log: LogId,
    node: NodeId,
    from: u32,
) -> Result<(u8, u32, usize), NoMemory> {
    let msg = Msg {
        from: Who::Sequencer(2),
        to: Who::Node(node),
        log,
        body: Body::DigestAsk {
            from: Lsn::new(1, from),
        },
    };
    let reply = digest(alloc, plain, &msg)?;
    Ok(shown(reply.body()))
}

fn is_record(entry: &&Pointed) -> bool {
    entry.place().is_some()
}

// How many payloads are in the page that a node gives to a reader of one copy of two from the first offset of epoch 1 on, where the
// nodes from 1 up to another are excluded.
fn payloads(
    alloc: Global,
    plain: &Plain,
    log: LogId,
    node: NodeId,
    excluded: u8,
) -> Result<usize, NoMemory> {
    let msg = Msg {
        from: Who::Reader(0),
        to: Who::Node(node),
        log,
        body: Body::ReadOne {
            round: 1,
            from: Lsn::new(1, 1),
            set: nodes(1, 2),
            excluded: nodes(1, excluded),
        },
    };
    let reply = answer_one(alloc, plain, node, Lsn::new(1, 3), &msg)?;
    match reply.body().said() {
        Said::Page { entries, .. } => Ok(entries.as_slice().iter().filter(is_record).count()),
        _ => Ok(0),
    }
}

// How many of three payloads the first node gives, the second one, and the second one where the first is excluded.
fn shared(alloc: Global, log: LogId, one: NodeId, two: NodeId) -> Result<[usize; 3], NoMemory> {
    let plain = filled(alloc, log, 3)?;
    Ok([
        payloads(alloc, &plain, log, one, 0)?,
        payloads(alloc, &plain, log, two, 0)?,
        payloads(alloc, &plain, log, two, 1)?,
    ])
}

#[test]
fn each_payload_comes_from_one_node(rt: HostRuntime) -> Result<(), Fail> {
    let log = LogId::new(1).expect(&rt, "a log");
    let one = NodeId::new(1).expect(&rt, "a node");
    let two = NodeId::new(2).expect(&rt, "a node");
    assert_eq!(rt; shared(rt.alloc(), log, one, two)?, [2, 1, 3]);
    Ok(())
}

// What the node says to readers, given by the offset that is released and the one that is asked from.
fn reads_each(
    alloc: Global,
    plain: &Plain,
    log: LogId,
    node: NodeId,
    asks: &[(u32, u32)],
) -> Result<Vec<(u8, u32, usize)>, NoMemory> {
    let mut all = Vec::new(alloc);
    for (released, from) in asks {
        all.push(reads(alloc, plain, log, node, *released, *from)?)?;
    }
    Ok(all)
}

// The same of a node with 65 records in an open epoch.
fn open(
    alloc: Global,
    log: LogId,
    node: NodeId,
    asks: &[(u32, u32)],
) -> Result<Vec<(u8, u32, usize)>, NoMemory> {
    let plain = filled(alloc, log, 65)?;
    reads_each(alloc, &plain, log, node, asks)
}

#[test]
fn an_open_epoch_is_served_as_far_as_it_is_released_in_pages_of_64(
    rt: HostRuntime,
) -> Result<(), Fail> {
    let log = LogId::new(1).expect(&rt, "a log");
    let node = NodeId::new(1).expect(&rt, "a node");
    let asks = [(0, 1), (2, 1), (2, 3), (64, 1), (65, 1), (65, 65)];
    let all = open(rt.alloc(), log, node, &asks)?;
    assert!(rt;
        all.as_slice()
            == [
                (b'w', 0, 0),
                (b'p', 2, 2),
                (b'w', 2, 0),
                (b'p', 64, 64),
                (b'p', 64, 64),
                (b'p', 65, 1)
            ]
            .as_slice()
    );
    Ok(())
}

// The digest of a node with 65 records, asked for from the offsets 1 and 65.
fn digests(alloc: Global, log: LogId, node: NodeId) -> Result<[(u8, u32, usize); 2], NoMemory> {
    let plain = filled(alloc, log, 65)?;
    Ok([
        tells(alloc, &plain, log, node, 1)?,
        tells(alloc, &plain, log, node, 65)?,
    ])
}

#[test]
fn a_digest_comes_in_pages_of_64(rt: HostRuntime) -> Result<(), Fail> {
    let log = LogId::new(1).expect(&rt, "a log");
    let node = NodeId::new(1).expect(&rt, "a node");
    assert!(rt; digests(rt.alloc(), log, node)? == [(b'd', 64, 64), (b'd', LAST, 1)]);
    Ok(())
}

// What a node says to readers that closed the epoch at the offset 5 and trimmed it up to 2 of 3 records.
fn closed(alloc: Global, log: LogId, node: NodeId) -> Result<[(u8, u32, usize); 3], NoMemory> {
    let mut plain = filled(alloc, log, 3)?;
    keep_trim(alloc, &mut plain, log, 2)?;
    keep_close(alloc, &mut plain, log, 1, 5, false)?;
    Ok([
        reads(alloc, &plain, log, node, 0, 1)?,
        reads(alloc, &plain, log, node, 0, 3)?,
        reads(alloc, &plain, log, node, 0, 5)?,
    ])
}

#[test]
fn a_clean_epoch_is_served_from_its_trim_up_to_its_bridge(rt: HostRuntime) -> Result<(), Fail> {
    let log = LogId::new(1).expect(&rt, "a log");
    let node = NodeId::new(1).expect(&rt, "a node");
    assert!(rt; closed(rt.alloc(), log, node)? == [(b't', 2, 0), (b'c', 4, 1), (b'e', 5, 0)]);
    Ok(())
}

// What a node says to readers that keeps a plug and a bridge and closed the epoch with a loss.
fn plugged(alloc: Global, log: LogId, node: NodeId) -> Result<[(u8, u32, usize); 2], NoMemory> {
    let mut plain = Plain::new(alloc);
    keep_entry(alloc, &mut plain, log, 1, What::Plug, 0)?;
    keep_entry(alloc, &mut plain, log, 2, What::Bridge, 0)?;
    keep_close(alloc, &mut plain, log, 1, 5, true)?;
    Ok([
        reads(alloc, &plain, log, node, 0, 1)?,
        reads(alloc, &plain, log, node, 0, 5)?,
    ])
}

#[test]
fn a_plug_is_read_and_a_bridge_is_not(rt: HostRuntime) -> Result<(), Fail> {
    let log = LogId::new(1).expect(&rt, "a log");
    let node = NodeId::new(1).expect(&rt, "a node");
    assert!(rt; plugged(rt.alloc(), log, node)? == [(b'c', 4, 1), (b'g', 5, 0)]);
    Ok(())
}
