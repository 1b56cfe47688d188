// Digests of pages as nodes give them.
use crate::nodes::nodes;
use ld_digest::{Added, Digest, Page};
use ld_ids::{LogId, NoMemory, NodeId, Spec};
use ld_lsn::Lsn;
use ld_msg::Entries;
use std::alloc::Global;
use std::test::Fail;

// The greatest offset of an epoch.
const LAST: u32 = 4_294_967_295;

// Nothing is told of epoch 1 of a log of five nodes, with each record on three of them.
fn nothing_told(alloc: Global, log: LogId) -> Result<Digest, NoMemory> {
    let spec = Spec {
        log,
        set: nodes(1, 5),
        r: 3,
        extras: 0,
    };
    Digest::new(alloc, &spec, 1)
}

// What a node's page without entries leads to, from an offset of epoch 1 up to another, with a last known good offset: the offset to
// ask on from, 1 where the node is whole, 0 where the page is ignored.
fn adds(
    alloc: Global,
    digest: &mut Digest,
    node: NodeId,
    from: u32,
    upto: u32,
    lng: u32,
) -> Result<u32, NoMemory> {
    let entries = Entries::empty(alloc);
    let page = Page {
        from: Lsn::new(1, from),
        upto: Lsn::new(1, upto),
        trim: Lsn::from_u64(0),
        lng: lng.min(LAST - 1),
        entries: &entries,
    };
    match digest.add(alloc, node, &page)? {
        Added::Ask(next) => Ok(next.esn()),
        Added::Whole => Ok(1),
        Added::Ignored => Ok(0),
    }
}

// What a row leads to: a node's page, the loss of a node where its page begins at 0, and where there is no node that all are asked
// anew; 0 for the two.
fn comes(alloc: Global, digest: &mut Digest, row: &(u8, u32, u32, u32)) -> Result<u32, NoMemory> {
    let (number, from, upto, lng) = *row;
    match NodeId::new(number) {
        Some(node) if from == 0 => {
            digest.lost(node);
            Ok(0)
        }
        Some(node) => adds(alloc, digest, node, from, upto, lng),
        None => {
            digest.ask_anew();
            Ok(0)
        }
    }
}

// What each row leads to, and behind it `e` where the digest is enough, `s` where it is spent, `-` otherwise.
fn told(
    alloc: Global,
    digest: &mut Digest,
    rows: &[(u8, u32, u32, u32)],
) -> Result<Vec<(u32, u8)>, NoMemory> {
    let mut all = Vec::new(alloc);
    for row in rows {
        let led = comes(alloc, digest, row)?;
        let found = if digest.enough() {
            b'e'
        } else if digest.spent() {
            b's'
        } else {
            b'-'
        };
        all.push((led, found))?;
    }
    Ok(all)
}

// The same, where nothing was told before.
fn told_first(
    alloc: Global,
    log: LogId,
    rows: &[(u8, u32, u32, u32)],
) -> Result<Vec<(u32, u8)>, NoMemory> {
    let mut digest = nothing_told(alloc, log)?;
    told(alloc, &mut digest, rows)
}

#[test]
fn three_whole_nodes_of_five_are_enough(rt: HostRuntime) -> Result<(), Fail> {
    let log = LogId::new(1).expect(&rt, "a log");
    let rows = [
        (1, 1, 64, 0),
        (1, 1, 64, 0),
        (1, 65, LAST, 0),
        (1, 65, LAST, 0),
        (6, 1, LAST, 0),
        (2, 1, LAST, 0),
        (3, 1, LAST, 0),
        (3, 0, 0, 0),
    ];
    let all = told_first(rt.alloc(), log, &rows)?;
    assert!(rt;
        all.as_slice()
            == [
                (65, b'-'),
                (0, b'-'),
                (1, b'-'),
                (0, b'-'),
                (0, b'-'),
                (1, b'-'),
                (1, b'e'),
                (0, b'-')
            ]
            .as_slice()
    );
    Ok(())
}

#[test]
fn nodes_are_asked_on_past_what_is_known_good(rt: HostRuntime) -> Result<(), Fail> {
    let log = LogId::new(1).expect(&rt, "a log");
    // at a retry node 1 is asked anew too
    let rows = [
        (1, 1, 64, 0),
        (2, 1, 64, 100),
        (0, 0, 0, 0),
        (1, 101, LAST, 0),
    ];
    let all = told_first(rt.alloc(), log, &rows)?;
    assert!(rt; all.as_slice() == [(65, b'-'), (101, b'-'), (0, b'-'), (1, b'-')].as_slice());
    Ok(())
}

// Whether a digest with one node to be asked is spent by its loss, by a page that isn't its last one, by one that isn't its next
// one and by its last one.
fn spends(alloc: Global, log: LogId, five: NodeId) -> Result<[bool; 4], NoMemory> {
    let mut digest = nothing_told(alloc, log)?;
    told(
        alloc,
        &mut digest,
        &[(1, 1, LAST, 0), (2, 0, 0, 0), (3, 0, 0, 0), (4, 0, 0, 0)],
    )?;
    Ok([
        digest.spent_by_loss(five),
        digest.spent_by_page(five, Lsn::new(1, 1), Lsn::new(1, 64)),
        digest.spent_by_page(five, Lsn::new(1, 2), Lsn::new(1, LAST)),
        digest.spent_by_page(five, Lsn::new(1, 1), Lsn::new(1, LAST)),
    ])
}

#[test]
fn a_digest_is_spent_by_the_last_word_of_the_last_node(rt: HostRuntime) -> Result<(), Fail> {
    let log = LogId::new(1).expect(&rt, "a log");
    let five = NodeId::new(5).expect(&rt, "a node");
    assert_eq!(rt; spends(rt.alloc(), log, five)?, [true, false, false, true]);
    Ok(())
}

#[test]
fn a_digest_is_spent_once_no_node_may_tell_more(rt: HostRuntime) -> Result<(), Fail> {
    let log = LogId::new(1).expect(&rt, "a log");
    let rows = [
        (1, 1, LAST, 0),
        (2, 0, 0, 0),
        (3, 0, 0, 0),
        (4, 0, 0, 0),
        (5, 1, LAST, 0),
    ];
    let all = told_first(rt.alloc(), log, &rows)?;
    assert!(rt;
        all.as_slice() == [(1, b'-'), (0, b'-'), (0, b'-'), (0, b'-'), (1, b's')].as_slice()
    );
    Ok(())
}
