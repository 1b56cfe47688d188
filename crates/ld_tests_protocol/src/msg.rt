// Messages are copied whole.
use ld_ids::{LogId, NoMemory, NodeId, Payload};
use ld_lsn::Lsn;
use ld_msg::{Body, Entries, Entry, Msg, Outbox, What, Who};
use std::alloc::Global;
use std::test::Fail;

/// A page of a record and a hole.
fn sample(alloc: Global, node: NodeId, log: LogId) -> Result<Msg, NoMemory> {
    let mut entries = Entries::empty(alloc);
    entries.push(Entry {
        number: Lsn::new(1, 1),
        ballot: 2,
        what: What::Rec(Payload::new(Vec::from_slice(alloc, b"hi")?)),
    })?;
    entries.push(Entry {
        number: Lsn::new(1, 2),
        ballot: 2,
        what: What::Hole,
    })?;
    Ok(Msg {
        from: Who::Node(node),
        to: Who::Reader(7),
        log,
        body: Body::ReadPage {
            round: 3,
            from: Lsn::new(1, 1),
            upto: Lsn::new(1, 9),
            clean: true,
            entries,
        },
    })
}

/// Whether it is the sample, by its sender, its round, its last number and its record.
fn is_sample(message: &Msg, node: NodeId) -> bool {
    let is_sent = match message.from {
        Who::Node(from) => from == node,
        _ => false,
    };
    match &message.body {
        Body::ReadPage {
            round,
            upto,
            entries,
            ..
        } => { is_sent && *round == 3 && *upto == Lsn::new(1, 9) && is_page(entries.as_slice()) }
        _ => false,
    }
}

/// Whether these are a record and something else.
fn is_page(entries: &[Entry]) -> bool {
    match entries {
        [one, other] => match (&one.what, &other.what) {
            (What::Rec(payload), What::Hole) => payload.bytes() == b"hi".as_slice(),
            _ => false,
        },
        _ => false,
    }
}

/// Whether a copy is the sample, and how many of a copied outbox of both are it.
fn copied(alloc: Global, node: NodeId, log: LogId) -> Result<(bool, usize, bool), NoMemory> {
    let message = sample(alloc, node, log)?;
    let copy = message.copy(alloc)?;
    let same = is_sample(&copy, node);
    let mut outbox = Outbox::empty(alloc);
    outbox.push(copy)?;
    outbox.push(message)?;
    let again = outbox.copy(alloc)?;
    let both = match again.as_slice() {
        [one, other] => is_sample(one, node) && is_sample(other, node),
        _ => false,
    };
    Ok((same, again.len(), both))
}

#[test]
fn copies_equal_what_they_copy(rt: HostRuntime) -> Result<(), Fail> {
    let node = NodeId::new(4).expect(&rt, "a node");
    let log = LogId::new(9).expect(&rt, "a log");
    assert_eq!(rt; copied(rt.alloc(), node, log)?, (true, 2, true));
    Ok(())
}
