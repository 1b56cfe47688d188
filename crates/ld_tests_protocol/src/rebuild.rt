// A node that was wiped, and lost epochs 1 and 2 of a log.
#![tactic(auto, unfolding(ld_op::specs::Plain::op_length))]

ghost use Rattle.std.specs.Prelude.{◌≡◌, ◌<◌, ◌^◌, true};
ghost use Rattle.ld_op.specs.Plain.{op_length, entries_length, what_length};
ghost use Rattle.ld_op.specs.Rising.{IsRising};

use ld_ids::{LogId, NoMemory, NodeId, NodeSet, Payload};
use ld_lsn::Lsn;
use ld_msg::{Body, Entries, Entry, Msg, Outbox, Summary, What, Who};
use ld_op::{Epochs, Op, Plain};
use ld_rebuild::{asks, is_full, on_page};
use std::alloc::Global;
use std::test::Fail;

// Applies an op.
fn keep(alloc: Global, plain: &mut Plain, op: Op) -> Result<(), NoMemory>
    requires rises { IsRising op }
    requires fits { op_length op < 2 ^ 64 }
{
    plain.room(alloc, &op)?;
    plain.apply(op, 0);
    Ok(())
}

// A node that lost the log's epochs up to 2, under generation 2.
fn wiped(alloc: Global, log: LogId) -> Result<Plain, NoMemory> {
    let mut epochs = Vec::new(alloc);
    epochs.push((log, 2))?;
    let mut plain = Plain::new(alloc);
    keep(
        alloc,
        &mut plain,
        Op::Format {
            generation: 2,
            epochs: Epochs::new(epochs),
        },
    )?;
    Ok(plain)
}

// An epoch is clean on the node, closed by epoch 3 without a trim.
fn keep_close(
    alloc: Global,
    plain: &mut Plain,
    log: LogId,
    epoch: u32,
    end: u32,
) -> Result<(), NoMemory> {
    let summary = Summary {
        ballot: 3,
        lng: 0,
        trim: Lsn::from_u64(0),
        end,
        loss: false,
    };
    let op = Op::Clean {
        log,
        epoch,
        summary,
    };
    keep(alloc, plain, op)
}

// An answer of node `from` to node `to`.
fn answer(log: LogId, from: NodeId, to: NodeId, body: Body) -> Msg {
    Msg {
        from: Who::Node(from),
        to: Who::Node(to),
        log,
        body,
    }
}

// A page of the offsets 1 to 9 of epoch 1 with a record at the offset 1.
fn page(alloc: Global, clean: bool) -> Result<Body, NoMemory> {
    page_of(alloc, clean, What::Rec(Payload::new(Vec::new(alloc))))
}

// A page of them with anything else there.
fn page_of(alloc: Global, clean: bool, what: What) -> Result<Body, NoMemory> {
    let mut entries = Vec::new(alloc);
    entries.push(Entry {
        number: Lsn::new(1, 1),
        ballot: 1,
        what,
    })?;
    Ok(Body::ReadPage {
        round: 0,
        from: Lsn::new(1, 1),
        upto: Lsn::new(1, 9),
        clean,
        entries: Entries::new(entries),
    })
}

// A trim to the offset 1 of epoch 1.
fn trimmed() -> Body {
    Body::ReadTrim {
        round: 0,
        from: Lsn::new(1, 1),
        trim: Lsn::new(1, 1),
    }
}

// What the node makes of an answer, of which it takes entries: `r` for entries, `t` for a trim, `n` for nothing.
fn takes(alloc: Global, plain: &mut Plain, msg: &Msg) -> Result<u8, NoMemory> {
    match on_page(alloc, plain, msg)? {
        Some(op) => {
            let found = letter(&op);
            take(alloc, plain, msg.log, op)?;
            Ok(found)
        }
        None => Ok(b'n'),
    }
}

// An op, as one letter.
fn letter(op: &Op) -> u8 {
    match op {
        Op::Refill { .. } => b'r',
        Op::Trim { .. } => b't',
        _ => b'?',
    }
}

// Takes the entry of an op, where it is one.
fn take(alloc: Global, plain: &mut Plain, log: LogId, op: Op) -> Result<(), NoMemory> {
    match op {
        Op::Refill { entries, .. } => take_one(alloc, plain, log, entries),
        _ => Ok(()),
    }
}

fn take_one(
    alloc: Global,
    plain: &mut Plain,
    log: LogId,
    entries: Entries,
) -> Result<(), NoMemory> {
    if !is_one(&entries) {
        return Ok(());
    }
    keep(alloc, plain, Op::Refill { log, entries })
}

// Whether it is one entry, with a payload of a few bytes where it is a record.
fn is_one(entries: &Entries) -> bool
    ensures { result ≡ true → entries_length entries.now < 2 ^ 32 }
{
    match entries.as_slice() {
        [entry] => is_short(&entry.what),
        _ => false,
    }
}

fn is_short(what: &What) -> bool
    ensures { result ≡ true → what_length what.now < 2 ^ 17 }
{
    match what {
        What::Rec(payload) => payload.len() < 65536,
        What::Hole => true,
        What::Bridge => true,
        What::Plug => true,
        What::Withheld => true,
    }
}

// The node trims all up to the offset 1 of epoch 1.
fn keep_trim(alloc: Global, plain: &mut Plain, log: LogId) -> Result<(), NoMemory> {
    let trim = Lsn::new(1, 1);
    keep(alloc, plain, Op::Trim { log, trim })
}

// The node's asks of the others of a set.
fn ask(
    alloc: Global,
    plain: &Plain,
    node: NodeId,
    log: LogId,
    set: &NodeSet,
) -> Result<usize, NoMemory> {
    let mut out = Outbox::empty(alloc);
    asks(alloc, plain, node, log, set, &mut out)?;
    Ok(out.len())
}

// How many others a wiped node asks at first, and once each of its epochs is closed, and whether it is full then.
fn asked(
    alloc: Global,
    log: LogId,
    node: NodeId,
    set: &NodeSet,
) -> Result<([usize; 3], bool), NoMemory> {
    let mut plain = wiped(alloc, log)?;
    let first = ask(alloc, &plain, node, log, set)?;
    keep_close(alloc, &mut plain, log, 1, 2)?;
    let second = ask(alloc, &plain, node, log, set)?;
    keep_close(alloc, &mut plain, log, 2, 1)?;
    let third = ask(alloc, &plain, node, log, set)?;
    Ok(([first, second, third], is_full(&plain, log)))
}

#[test]
fn a_wiped_node_asks_all_others(rt: HostRuntime) -> Result<(), Fail> {
    let log = LogId::new(1).expect(&rt, "a log");
    let one = NodeId::new(1).expect(&rt, "a node");
    let two = NodeId::new(2).expect(&rt, "a node");
    let three = NodeId::new(3).expect(&rt, "a node");
    let set = NodeSet::empty().with(one).with(two).with(three);
    assert!(rt; asked(rt.alloc(), log, two, &set)? == ([0, 2, 2], false));
    Ok(())
}

// A wiped node both of whose epochs are closed.
fn closed(alloc: Global, log: LogId) -> Result<Plain, NoMemory> {
    let mut plain = wiped(alloc, log)?;
    keep_close(alloc, &mut plain, log, 1, 2)?;
    keep_close(alloc, &mut plain, log, 2, 1)?;
    Ok(plain)
}

// What it takes of a page, and whether it is full then.
fn fills(alloc: Global, plain: &mut Plain, msg: &Msg) -> Result<(u8, bool), NoMemory> {
    let taken = takes(alloc, plain, msg)?;
    Ok((taken, is_full(plain, msg.log)))
}

// The same of a page of another node that isn't clean, of one that is, and of that once more.
fn refilled(
    alloc: Global,
    log: LogId,
    one: NodeId,
    two: NodeId,
) -> Result<[(u8, bool); 3], NoMemory> {
    let mut plain = closed(alloc, log)?;
    let open = answer(log, one, two, page(alloc, false)?);
    let clean = answer(log, one, two, page(alloc, true)?);
    Ok([
        fills(alloc, &mut plain, &open)?,
        fills(alloc, &mut plain, &clean)?,
        fills(alloc, &mut plain, &clean)?,
    ])
}

#[test]
fn a_clean_page_refills_once(rt: HostRuntime) -> Result<(), Fail> {
    let log = LogId::new(1).expect(&rt, "a log");
    let one = NodeId::new(1).expect(&rt, "a node");
    let two = NodeId::new(2).expect(&rt, "a node");
    let all = refilled(rt.alloc(), log, one, two)?;
    assert!(rt; all == [(b'n', false), (b'r', true), (b'n', true)]);
    Ok(())
}

// The same of a page with a plug.
fn plugged(alloc: Global, log: LogId, one: NodeId, two: NodeId) -> Result<(u8, bool), NoMemory> {
    let mut plain = closed(alloc, log)?;
    let msg = answer(log, one, two, page_of(alloc, true, What::Plug)?);
    fills(alloc, &mut plain, &msg)
}

#[test]
fn a_plug_is_refilled(rt: HostRuntime) -> Result<(), Fail> {
    let log = LogId::new(1).expect(&rt, "a log");
    let one = NodeId::new(1).expect(&rt, "a node");
    let two = NodeId::new(2).expect(&rt, "a node");
    assert!(rt; plugged(rt.alloc(), log, one, two)? == (b'r', true));
    Ok(())
}

// What a wiped node takes of a trim, and of it once more.
fn trims(alloc: Global, log: LogId, one: NodeId, two: NodeId) -> Result<[u8; 2], NoMemory> {
    let mut plain = wiped(alloc, log)?;
    let msg = answer(log, one, two, trimmed());
    let first = takes(alloc, &mut plain, &msg)?;
    keep_trim(alloc, &mut plain, log)?;
    Ok([first, takes(alloc, &mut plain, &msg)?])
}

#[test]
fn a_trim_above_the_nodes_is_taken(rt: HostRuntime) -> Result<(), Fail> {
    let log = LogId::new(1).expect(&rt, "a log");
    let one = NodeId::new(1).expect(&rt, "a node");
    let two = NodeId::new(2).expect(&rt, "a node");
    assert_eq!(rt; trims(rt.alloc(), log, one, two)?, [b't', b'n']);
    Ok(())
}
