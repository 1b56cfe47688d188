// A node on a disk in memory, beside a register on another one: what it does by what the register shows.
ghost use Rattle.std.specs.Prelude.{◌≤◌};
ghost use Rattle.ld_msg.specs.Bounds.{IsSummary};

use crate::node::give_store;
use crate::node::samples::{
    drawn, formatted, formatted_by, loaded, log_of, new_disk, new_register, node_of, spec,
};
use ld_disk::{Disk, Fault};
use ld_lsn::Lsn;
use ld_msg::Summary;
use ld_node::{Node, NodeFault, Ticked};
use ld_register::{Register, RegisterFault};
use std::alloc::Global;
use std::test::Fail;

/// Which epoch a tick of the log cleaned, 0 where it did nothing.
fn cleaned<D: Disk, R: Register>(
    alloc: Global,
    node: &mut Node<D>,
    log: u32,
    reg: &mut R,
) -> Result<u32, NodeFault> {
    if node.is_blank() {
        return Err(NodeFault::Full);
    }
    match &node.tick(alloc, log_of(log)?, reg)? {
        Ticked::Cleaned(epoch) => Ok(*epoch),
        Ticked::Nothing => Ok(0),
        _ => Err(NodeFault::Full),
    }
}

/// How many nodes a tick of log 1 asks for what is missing.
fn asked<D: Disk, R: Register>(
    alloc: Global,
    node: &mut Node<D>,
    reg: &mut R,
) -> Result<usize, NodeFault> {
    if node.is_blank() {
        return Err(NodeFault::Full);
    }
    match &node.tick(alloc, log_of(1)?, reg)? {
        Ticked::Asked(asks) => Ok(asks.len()),
        _ => Ok(0),
    }
}

/// Whether a tick of log 1 finds that all that was lost is there again.
fn rebuilt<D: Disk, R: Register>(
    alloc: Global,
    node: &mut Node<D>,
    reg: &mut R,
) -> Result<bool, NodeFault> {
    if node.is_blank() {
        return Err(NodeFault::Full);
    }
    Ok(matches!(&node.tick(alloc, log_of(1)?, reg)?, Ticked::Rebuilt))
}

/// In how many epochs of log 1 a node takes the place of node 2.
fn replaced<D: Disk, R: Register>(
    alloc: Global,
    node: &Node<D>,
    reg: &mut R,
) -> Result<u32, NodeFault> {
    node.replace(alloc, log_of(1)?, node_of(2)?, reg)
}

fn summary_to(end: u32) -> Summary
    requires { 1 ≤ end }
    ensures { IsSummary 1 result }
{
    Summary {
        ballot: 2,
        lng: 0,
        trim: Lsn::from_u64(0),
        end,
        loss: false,
    }
}

/// Hands out epoch 1 of log 1, and closes it with this end.
fn close<R: Register>(alloc: Global, reg: &mut R, end: u32) -> Result<(), RegisterFault>
    requires { 1 ≤ end }
{
    let _ = reg.activate(alloc, &spec()?)?;
    let _ = reg.close(alloc, log_of(1)?, 1, &summary_to(end), false)?;
    Ok(())
}

/// Which epoch a tick of log 1 cleans before it is closed, and after.
fn cleans(alloc: Global) -> Result<[u32; 2], NodeFault> {
    let mut reg = new_register(alloc)?;
    let mut node = formatted(alloc)?;
    let before = cleaned(alloc, &mut node, 1, &mut reg)?;
    close(alloc, &mut reg, 2)?;
    Ok([before, cleaned(alloc, &mut node, 1, &mut reg)?])
}

#[test]
fn a_tick_cleans_what_is_closed(rt: HostRuntime) -> Result<(), Fail> {
    assert!(rt; cleans(rt.alloc()) == Ok([0, 1]));
    Ok(())
}

/// What a tick of log 2, which isn't known, and one of log 1 do where the register's next call fails.
fn looks(alloc: Global) -> Result<[Result<u32, NodeFault>; 2], NodeFault> {
    let mut node = formatted(alloc)?;
    let mut reg = new_register(alloc)?;
    reg.arm(Fault::FailAt(1));
    let first = cleaned(alloc, &mut node, 2, &mut reg);
    Ok([first, cleaned(alloc, &mut node, 1, &mut reg)])
}

#[test]
fn a_tick_looks_only_for_known_logs(rt: HostRuntime) -> Result<(), Fail> {
    let failed = NodeFault::Register(RegisterFault::Failed);
    assert!(rt; looks(rt.alloc()) == Ok([Ok(0), Err(failed)]));
    Ok(())
}

/// How many nodes a lost node asks once it has cleaned an epoch with a record in it.
fn asks(alloc: Global) -> Result<usize, NodeFault> {
    let mut reg = new_register(alloc)?;
    close(alloc, &mut reg, 2)?;
    let mut node = formatted_by(alloc, &mut reg)?;
    let _ = cleaned(alloc, &mut node, 1, &mut reg)?;
    asked(alloc, &mut node, &mut reg)
}

#[test]
fn a_lost_node_asks_all_others(rt: HostRuntime) -> Result<(), Fail> {
    assert!(rt; asks(rt.alloc()) == Ok(2));
    Ok(())
}

/// In how many epochs a lost node takes a place before it is rebuilt, after that, and once more; and whether it was rebuilt.
fn takes_places(alloc: Global) -> Result<([u32; 3], bool), NodeFault> {
    let mut reg = new_register(alloc)?;
    close(alloc, &mut reg, 1)?;
    let mut node = formatted_by(alloc, &mut reg)?;
    let _ = cleaned(alloc, &mut node, 1, &mut reg)?;
    let before = replaced(alloc, &node, &mut reg)?;
    let is = rebuilt(alloc, &mut node, &mut reg)?;
    let after = replaced(alloc, &node, &mut reg)?;
    Ok(([before, after, replaced(alloc, &node, &mut reg)?], is))
}

#[test]
fn a_node_takes_a_place_once_it_is_rebuilt(rt: HostRuntime) -> Result<(), Fail> {
    assert!(rt; takes_places(rt.alloc()) == Ok(([0, 1, 0], true)));
    Ok(())
}

/// Why a node whose disk fails takes no record, why it takes none afterwards, and why it doesn't tick.
fn refused(alloc: Global) -> Result<[Option<NodeFault>; 3], NodeFault> {
    let mut reg = new_register(alloc)?;
    let mut node = formatted(alloc)?;
    node.arm(Fault::FailAt(2));
    let first = give_store(alloc, &mut node).err();
    let second = give_store(alloc, &mut node).err();
    Ok([first, second, cleaned(alloc, &mut node, 1, &mut reg).err()])
}

#[test]
fn a_node_whose_disk_failed_has_to_be_loaded_again(rt: HostRuntime) -> Result<(), Fail> {
    let faults = [
        Some(NodeFault::Disk),
        Some(NodeFault::NeedsLoad),
        Some(NodeFault::NeedsLoad),
    ];
    assert!(rt; refused(rt.alloc()) == Ok(faults));
    Ok(())
}

/// How a format ends whose disk fails, and the generation of the next one.
fn drawn_again(alloc: Global) -> Result<(Option<NodeFault>, u32), NodeFault> {
    let mut reg = new_register(alloc)?;
    let mut node = loaded(alloc, new_disk(alloc)?)?;
    node.arm(Fault::FailAt(1));
    let failed = drawn(alloc, &mut node, &mut reg).err();
    let mut again = loaded(alloc, node.into_disk())?;
    Ok((failed, drawn(alloc, &mut again, &mut reg)?))
}

#[test]
fn a_format_that_fails_has_drawn(rt: HostRuntime) -> Result<(), Fail> {
    assert!(rt; drawn_again(rt.alloc()) == Ok((Some(NodeFault::Disk), 2)));
    Ok(())
}
