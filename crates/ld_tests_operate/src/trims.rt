// How far each node has trimmed a log.
use crate::filling::{log_one, new_register, sink};
use crate::status::{config, one, three};
use ld_dial::Nodes;
use ld_ids::NoMemory;
use ld_io::MemSink;
use ld_lsn::Lsn;
use ld_operate::{StatusStop, tell_trims};
use std::alloc::Global;
use std::test::Fail;

/// Of three nodes, of which node 2 isn't up, and the others have trimmed nothing.
const OF_THREE: &[u8] = b"node 1 trim e0n0
node 2 silent
node 3 trim e0n0
";

/// Of one node, which has trimmed the epochs before the fifth.
const OF_ONE: &[u8] = b"node 1 trim e5n0
";

/// How it ends for a number of an epoch.
fn trims<N: Nodes>(
    alloc: Global,
    nodes_text: &[u8],
    epoch: u32,
    esn: u32,
    nodes: &mut N,
    out: &mut MemSink,
) -> Result<Result<bool, StatusStop>, NoMemory> {
    let config = config(alloc, nodes_text)?;
    let upto = Lsn::new(epoch, esn);
    Ok(tell_trims(alloc, &config, log_one()?, upto, nodes, out))
}

/// Whether it ends so for three nodes, with their lines.
fn of_three(alloc: Global, wanted: bool) -> Result<bool, NoMemory> {
    let mut reg = new_register(alloc)?;
    let mut nodes = three(alloc, &mut reg)?;
    let mut out = sink(alloc, 1000, 100)?;
    let text = br#"{"nodes":[1,2,3],"logs":[{"id":1,"set":[1,2,3],"r":2}]}"#;
    let done = trims(alloc, text, 0, 1, &mut nodes, &mut out)?;
    Ok(done == Ok(wanted) && out.bytes() == OF_THREE)
}

/// Whether it ends so for one node and a number of its fifth epoch, with its line.
fn of_one(alloc: Global, esn: u32, wanted: bool) -> Result<bool, NoMemory> {
    let mut reg = new_register(alloc)?;
    let mut nodes = one(alloc, &mut reg)?;
    let mut out = sink(alloc, 1000, 100)?;
    let text = br#"{"nodes":[1],"logs":[{"id":1,"set":[1],"r":1}]}"#;
    let done = trims(alloc, text, 5, esn, &mut nodes, &mut out)?;
    Ok(done == Ok(wanted) && out.bytes() == OF_ONE)
}

#[test]
fn a_node_that_is_silent_or_has_trimmed_less(rt: HostRuntime) -> Result<(), Fail> {
    assert_eq!(rt; of_three(rt.alloc(), false)?, true);
    Ok(())
}

#[test]
fn a_node_that_has_trimmed_so_far(rt: HostRuntime) -> Result<(), Fail> {
    assert_eq!(rt; of_one(rt.alloc(), 0, true)?, true);
    Ok(())
}

#[test]
fn a_node_that_has_trimmed_one_number_less(rt: HostRuntime) -> Result<(), Fail> {
    assert_eq!(rt; of_one(rt.alloc(), 1, false)?, true);
    Ok(())
}
