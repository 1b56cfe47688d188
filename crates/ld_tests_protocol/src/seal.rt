// Decisions as tables: what a node has, what comes, what it makes of it.
#![tactic(auto, unfolding(ld_op::specs::Plain::op_length))]

ghost use Rattle.std.specs.Prelude.{◌<◌, ◌^◌, length, IfOk};
ghost use Rattle.ld_op.specs.Plain.{what_length};

use ld_ids::{LogId, NoMemory, NodeId, Payload};
use ld_lsn::Lsn;
use ld_msg::{Body, Entry, Msg, Summary, What, Who};
use ld_op::{Op, Plain};
use ld_seal::{Decision, on_digest, on_store};
use std::alloc::Global;
use std::test::Fail;

// A decision, as one letter.
fn letter(decision: Decision) -> u8 {
    match decision {
        Decision::Lost(_, _) => b'l',
        Decision::Clean(_) => b'c',
        Decision::Trimmed(_) => b't',
        Decision::Sealed(_) => b's',
        Decision::Same => b'=',
        Decision::Take => b'+',
        Decision::Compare(_) => b'?',
    }
}

// What the node makes of a hole at an offset of epoch 1 from the sequencer of the epoch `ballot`.
fn stores(plain: &Plain, log: LogId, node: NodeId, ballot: u32, esn: u32) -> u8 {
    stores_what(plain, log, node, ballot, esn, What::Hole)
}

// What the node makes of anything else there.
fn stores_what(plain: &Plain, log: LogId, node: NodeId, ballot: u32, esn: u32, what: What) -> u8 {
    letter(decision(plain, log, node, ballot, esn, what))
}

// The same, whole.
fn decision(
    plain: &Plain,
    log: LogId,
    node: NodeId,
    ballot: u32,
    esn: u32,
    what: What,
) -> Decision {
    let msg = Msg {
        from: Who::Sequencer(ballot),
        to: Who::Node(node),
        log,
        body: Body::Store {
            number: Lsn::new(1, esn),
            lng: 0,
            what,
        },
    };
    on_store(plain, &msg)
}

// What the node makes of an ask for its digest of epoch 1 from the sequencer of the epoch `ballot`.
fn asks(plain: &Plain, log: LogId, node: NodeId, ballot: u32) -> u8 {
    let msg = Msg {
        from: Who::Sequencer(ballot),
        to: Who::Node(node),
        log,
        body: Body::DigestAsk {
            from: Lsn::new(1, 1),
        },
    };
    letter(on_digest(plain, &msg))
}

// The node keeps a hole at the offset 4 of epoch 1, of ballot 2.
fn keep_hole(alloc: Global, plain: &mut Plain, log: LogId) -> Result<(), NoMemory> {
    keep_what(alloc, plain, log, What::Hole)
}

// The node keeps anything else there.
fn keep_what(alloc: Global, plain: &mut Plain, log: LogId, what: What) -> Result<(), NoMemory>
    requires { what_length what < 2 ^ 32 }
{
    keep_at(alloc, plain, log, what, 0)
}

// The node keeps a record there, whose op stands from an offset of the disk on.
fn keep_record(
    alloc: Global,
    plain: &mut Plain,
    log: LogId,
    bytes: &[u8],
    at: u32,
) -> Result<(), NoMemory>
    requires { length bytes.now < 2 ^ 16 }
{
    let what = record(alloc, bytes)?;
    keep_at(alloc, plain, log, what, at)
}

// The node keeps anything there, whose op stands from an offset of the disk on.
fn keep_at(
    alloc: Global,
    plain: &mut Plain,
    log: LogId,
    what: What,
    at: u32,
) -> Result<(), NoMemory>
    requires { what_length what < 2 ^ 32 }
{
    let entry = Entry {
        number: Lsn::new(1, 4),
        ballot: 2,
        what,
    };
    let op = Op::Accept { log, lng: 0, entry };
    plain.room(alloc, &op)?;
    plain.apply(op, u64::from(at));
    Ok(())
}

// The node is sealed by epoch 2.
fn keep_seal(alloc: Global, plain: &mut Plain, log: LogId) -> Result<(), NoMemory> {
    let op = Op::Seal { log, ballot: 2 };
    plain.room(alloc, &op)?;
    plain.apply(op, 0);
    Ok(())
}

// The node trims all up to the offset 3 of epoch 1.
fn keep_trim(alloc: Global, plain: &mut Plain, log: LogId) -> Result<(), NoMemory> {
    let trim = Lsn::new(1, 3);
    let op = Op::Trim { log, trim };
    plain.room(alloc, &op)?;
    plain.apply(op, 0);
    Ok(())
}

// Epoch 1 is clean on the node, with its bridge at the offset 5.
fn keep_close(alloc: Global, plain: &mut Plain, log: LogId) -> Result<(), NoMemory> {
    let summary = Summary {
        ballot: 2,
        lng: 0,
        trim: Lsn::from_u64(0),
        end: 5,
        loss: false,
    };
    let op = Op::Clean {
        log,
        epoch: 1,
        summary,
    };
    plain.room(alloc, &op)?;
    plain.apply(op, 0);
    Ok(())
}

// What a node makes of a hole at the offset 3 of epoch 1 at first, once it is sealed, and once it is trimmed; and of one at the offset 4
// before it has it, with it, and once the epoch is clean.
fn stored(alloc: Global, log: LogId, node: NodeId) -> Result<[u8; 6], NoMemory> {
    let mut plain = Plain::new(alloc);
    let first = stores(&plain, log, node, 1, 3);
    keep_seal(alloc, &mut plain, log)?;
    let sealed = stores(&plain, log, node, 1, 3);
    keep_trim(alloc, &mut plain, log)?;
    let trimmed = stores(&plain, log, node, 1, 3);
    let behind = stores(&plain, log, node, 2, 4);
    keep_hole(alloc, &mut plain, log)?;
    let again = stores(&plain, log, node, 2, 4);
    keep_close(alloc, &mut plain, log)?;
    let clean = stores(&plain, log, node, 3, 4);
    Ok([first, sealed, trimmed, behind, again, clean])
}

#[test]
fn stores_by_what_is_sealed_trimmed_stored_and_clean(rt: HostRuntime) -> Result<(), Fail> {
    let log = LogId::new(1).expect(&rt, "a log");
    let node = NodeId::new(1).expect(&rt, "a node");
    assert_eq!(rt;
        stored(rt.alloc(), log, node)?,
        [b'+', b's', b't', b'+', b'=', b'c']
    );
    Ok(())
}

// What a node that has a plug makes of a plug, of a hole, and of a plug of another ballot.
fn plugged(alloc: Global, log: LogId, node: NodeId) -> Result<[u8; 3], NoMemory> {
    let mut plain = Plain::new(alloc);
    keep_what(alloc, &mut plain, log, What::Plug)?;
    Ok([
        stores_what(&plain, log, node, 2, 4, What::Plug),
        stores_what(&plain, log, node, 2, 4, What::Hole),
        stores_what(&plain, log, node, 3, 4, What::Plug),
    ])
}

#[test]
fn a_plug_is_the_same_as_a_plug_alone(rt: HostRuntime) -> Result<(), Fail> {
    let log = LogId::new(1).expect(&rt, "a log");
    let node = NodeId::new(1).expect(&rt, "a node");
    assert_eq!(rt; plugged(rt.alloc(), log, node)?, [b'=', b'+', b'+']);
    Ok(())
}

// A record of these bytes.
fn record(alloc: Global, bytes: &[u8]) -> Result<What, NoMemory>
    requires { length bytes.now < 2 ^ 16 }
    ensures { IfOk result (λ what. what_length what < 2 ^ 32) }
{
    Ok(What::Rec(Payload::new(Vec::from_slice(alloc, bytes)?)))
}

// Where the node finds what a record at the offset 4 is to be compared with, 0 where it takes it, and 1 otherwise.
fn compares(
    alloc: Global,
    plain: &Plain,
    log: LogId,
    node: NodeId,
    ballot: u32,
    bytes: &[u8],
) -> Result<u64, NoMemory>
    requires { length bytes.now < 2 ^ 16 }
{
    let what = record(alloc, bytes)?;
    match decision(plain, log, node, ballot, 4, what) {
        Decision::Compare(place) => Ok(place.at),
        Decision::Take => Ok(0),
        _ => Ok(1),
    }
}

// Where a node that has the record `abc` from the offset 100 of its disk on compares these: itself, others of its length, a shorter and a
// longer one, and itself of another ballot.
fn compared(alloc: Global, log: LogId, node: NodeId) -> Result<[u64; 5], NoMemory> {
    let mut plain = Plain::new(alloc);
    keep_record(alloc, &mut plain, log, b"abc", 100)?;
    Ok([
        compares(alloc, &plain, log, node, 2, b"abc")?,
        compares(alloc, &plain, log, node, 2, b"xyz")?,
        compares(alloc, &plain, log, node, 2, b"ab")?,
        compares(alloc, &plain, log, node, 2, b"abcd")?,
        compares(alloc, &plain, log, node, 3, b"abc")?,
    ])
}

#[test]
fn a_record_of_the_same_ballot_and_length_is_compared_where_it_stands(
    rt: HostRuntime,
) -> Result<(), Fail> {
    let log = LogId::new(1).expect(&rt, "a log");
    let node = NodeId::new(1).expect(&rt, "a node");
    // Behind the op's nine bytes, the entry's thirteen and the two of the payload's length.
    assert_eq!(rt; compared(rt.alloc(), log, node)?, [124, 124, 0, 0, 0]);
    Ok(())
}

// What a node makes of asks of the epoch 2 at first, of the epochs 1 to 3 once epoch 2 sealed it, and of epoch 3 once epoch 1 is clean.
fn asked(alloc: Global, log: LogId, node: NodeId) -> Result<[u8; 5], NoMemory> {
    let mut plain = Plain::new(alloc);
    let first = asks(&plain, log, node, 2);
    keep_seal(alloc, &mut plain, log)?;
    let below = asks(&plain, log, node, 1);
    let same = asks(&plain, log, node, 2);
    let above = asks(&plain, log, node, 3);
    keep_close(alloc, &mut plain, log)?;
    let clean = asks(&plain, log, node, 3);
    Ok([first, below, same, above, clean])
}

#[test]
fn asks_by_the_greatest_seal(rt: HostRuntime) -> Result<(), Fail> {
    let log = LogId::new(1).expect(&rt, "a log");
    let node = NodeId::new(1).expect(&rt, "a node");
    assert_eq!(rt;
        asked(rt.alloc(), log, node)?,
        [b'+', b's', b'=', b'+', b'c']
    );
    Ok(())
}
