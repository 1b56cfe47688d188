// Plans of digests.
ghost use Rattle.std.specs.Prelude.{IfOk};
ghost use Rattle.ld_digest.specs.Gathering.{AreInPlace};

use crate::nodes::nodes;
use ld_digest::{Digest, Page};
use ld_ids::{LogId, NoMemory, NodeId, Payload, Spec};
use ld_lsn::Lsn;
use ld_msg::{Entries, Entry, What};
use ld_plan::plan;
use std::alloc::Global;
use std::test::Fail;

// The greatest offset of an epoch.
const LAST: u32 = 4_294_967_295;

// Nothing is told of epoch 1 of a log on three nodes, with each record on two of them.
fn nothing_told(alloc: Global, log: LogId) -> Result<Digest, NoMemory> {
    let spec = Spec {
        log,
        set: nodes(1, 3),
        r: 2,
        extras: 0,
    };
    Digest::new(alloc, &spec, 1)
}

// Records of epoch 1: the offset, the ballot, and the payload's one byte of each.
fn records(alloc: Global, list: &[(u32, u32, u8)]) -> Result<Entries, NoMemory>
    ensures { IfOk result (λ entries. AreInPlace entries) }
{
    let mut entries = Entries::empty(alloc);
    for (esn, ballot, byte) in list {
        if *esn < LAST {
            let payload = Payload::new(Vec::from_slice(alloc, &[*byte])?);
            entries.push(Entry {
                number: Lsn::new(1, *esn),
                ballot: *ballot,
                what: What::Rec(payload),
            })?;
        }
    }
    Ok(entries)
}

// A node tells all that it has: a trim to an offset of epoch 1, a last known good offset, and records.
fn tells(
    alloc: Global,
    digest: &mut Digest,
    number: u8,
    trim: u32,
    lng: u32,
    list: &[(u32, u32, u8)],
) -> Result<(), NoMemory> {
    let entries = records(alloc, list)?;
    let page = Page {
        from: Lsn::new(1, 1),
        upto: Lsn::new(1, LAST),
        trim: Lsn::new(1, trim),
        lng: lng.min(LAST - 1),
        entries: &entries,
    };
    if let Some(node) = NodeId::new(number) {
        digest.add(alloc, node, &page)?;
    }
    Ok(())
}

// What the plan has at each of its offsets, one number each: a record's first byte, 100 for a hole, 101 for a bridge, 102 for
// a plug. Nothing, where a node is left that may still tell.
fn planned(alloc: Global, digest: &Digest) -> Result<Vec<u8>, NoMemory> {
    let mut all = Vec::new(alloc);
    let loss = digest.spent();
    if !loss && !digest.enough() {
        return Ok(all);
    }
    let plan = plan(alloc, digest, loss)?;
    for item in plan.items.as_slice() {
        let code = match &item.what {
            What::Rec(payload) => payload.bytes().first().copied().unwrap_or(0),
            What::Hole => 100,
            What::Bridge => 101,
            What::Plug => 102,
            What::Withheld => 103,
        };
        all.push(code)?;
    }
    Ok(all)
}

// The plan of what the first node tells, a last known good offset and records, and of what the second one tells, a trim and records.
fn plan_of_two(
    alloc: Global,
    log: LogId,
    lng: u32,
    first: &[(u32, u32, u8)],
    trim: u32,
    second: &[(u32, u32, u8)],
) -> Result<Vec<u8>, NoMemory> {
    let mut digest = nothing_told(alloc, log)?;
    tells(alloc, &mut digest, 1, 0, lng, first)?;
    tells(alloc, &mut digest, 2, trim, 0, second)?;
    planned(alloc, &digest)
}

#[test]
fn a_lone_record_is_kept_and_the_gap_before_it_is_a_hole(rt: HostRuntime) -> Result<(), Fail> {
    let log = LogId::new(1).expect(&rt, "a log");
    let all = plan_of_two(rt.alloc(), log, 0, &[(1, 1, 1), (3, 1, 3)], 0, &[(1, 1, 1)])?;
    assert!(rt; all.as_slice() == [1, 100, 3, 101].as_slice());
    Ok(())
}

#[test]
fn trimmed_numbers_are_not_planned(rt: HostRuntime) -> Result<(), Fail> {
    let log = LogId::new(1).expect(&rt, "a log");
    let all = plan_of_two(rt.alloc(), log, 0, &[(1, 1, 1), (3, 1, 3)], 3, &[])?;
    assert!(rt; all.as_slice() == [101].as_slice());
    Ok(())
}

#[test]
fn what_is_known_good_is_not_planned(rt: HostRuntime) -> Result<(), Fail> {
    let log = LogId::new(1).expect(&rt, "a log");
    let all = plan_of_two(rt.alloc(), log, 2, &[(2, 1, 2), (3, 1, 3)], 0, &[])?;
    assert!(rt; all.as_slice() == [3, 101].as_slice());
    Ok(())
}

#[test]
fn the_greatest_ballot_decides(rt: HostRuntime) -> Result<(), Fail> {
    let log = LogId::new(1).expect(&rt, "a log");
    let all = plan_of_two(rt.alloc(), log, 0, &[(1, 1, 7)], 0, &[(1, 2, 9)])?;
    assert!(rt; all.as_slice() == [9, 101].as_slice());
    Ok(())
}

// How many items are planned while the third node may still tell, and the plan once it and the second one are lost.
fn plan_of_one(
    alloc: Global,
    log: LogId,
    two: NodeId,
    three: NodeId,
) -> Result<(usize, Vec<u8>), NoMemory> {
    let mut digest = nothing_told(alloc, log)?;
    tells(alloc, &mut digest, 1, 0, 0, &[(1, 1, 1), (3, 1, 3)])?;
    digest.lost(two);
    let early = planned(alloc, &digest)?.len();
    digest.lost(three);
    Ok((early, planned(alloc, &digest)?))
}

#[test]
fn where_two_nodes_are_lost_a_gap_is_a_plug(rt: HostRuntime) -> Result<(), Fail> {
    let log = LogId::new(1).expect(&rt, "a log");
    let two = NodeId::new(2).expect(&rt, "a node");
    let three = NodeId::new(3).expect(&rt, "a node");
    let (early, all) = plan_of_one(rt.alloc(), log, two, three)?;
    assert!(rt; early == 0 && all.as_slice() == [1, 102, 3, 101].as_slice());
    Ok(())
}
