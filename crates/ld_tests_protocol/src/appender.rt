// One append.
use ld_appender::{Pending, Progress};
use ld_ids::{NodeId, Payload};
use ld_lsn::Lsn;
use std::alloc::Global;
use std::test::Fail;

/// Whether an append to two nodes is done after each answer, the first node's, its answer to the second wave, the other's and the
/// first one's again; the wave, and whether each has it after the second answer.
fn counted(alloc: Global, one: NodeId, other: NodeId) -> ([bool; 4], u32, [bool; 2]) {
    let mut pending = Pending::new(Lsn::new(1, 1), Payload::new(Vec::new(alloc)), 2);
    let first = pending.stored(one) == Progress::Done;
    pending.raise();
    let second = pending.stored(one) == Progress::Done;
    let has = [pending.has(one), pending.has(other)];
    let third = pending.stored(other) == Progress::Done;
    let fourth = pending.stored(one) == Progress::Done;
    ([first, second, third, fourth], pending.wave(), has)
}

#[test]
fn a_node_counts_once(rt: HostRuntime) -> Result<(), Fail> {
    let one = NodeId::new(3).expect(&rt, "a node");
    let other = NodeId::new(1).expect(&rt, "a node");
    assert!(rt; counted(rt.alloc(), one, other) == ([false, false, true, true], 1, [true, false]));
    Ok(())
}
