// The disks, registers and nodes that tests begin with.
ghost use Rattle.std.specs.Prelude.{◌≡◌, IfOk};
ghost use Rattle.ld_register.specs.Bounds.{IsSpec};

use ld_config::{Config, Specs};
use ld_disk::{Disk, MemDisk};
use ld_ids::{LogId, NoMemory, NodeId, NodeSet, Spec};
use ld_node::{Node, NodeFault};
use ld_register::{DiskRegister, Register};
use std::alloc::Global;

pub(crate) fn log_of(number: u32) -> Result<LogId, NoMemory>
    ensures { IfOk result (λ log. log ≡ number) }
{
    match LogId::new(number) {
        Some(log) => Ok(log),
        None => Err(NoMemory),
    }
}

pub(crate) fn node_of(number: u8) -> Result<NodeId, NoMemory>
    ensures { IfOk result (λ node. node ≡ number) }
{
    match NodeId::new(number) {
        Some(node) => Ok(node),
        None => Err(NoMemory),
    }
}

pub(crate) fn new_disk(alloc: Global) -> Result<MemDisk, NoMemory> {
    match MemDisk::new(alloc) {
        Ok(disk) => Ok(disk),
        Err(_) => Err(NoMemory),
    }
}

pub(crate) fn new_register(alloc: Global) -> Result<DiskRegister<MemDisk>, NoMemory> {
    Ok(DiskRegister::new(alloc, new_disk(alloc)?))
}

/// Log 1 on node 2 alone.
pub(crate) fn spec() -> Result<Spec, NoMemory>
    ensures { IfOk result IsSpec }
{
    let log = log_of(1)?;
    let set = NodeSet::empty().with(node_of(2)?);
    if set.len() == 0 || log.number() == 0 {
        return Err(NoMemory);
    }
    Ok(Spec {
        log,
        set,
        r: 1,
        extras: 0,
    })
}

/// Three nodes and log 1.
pub(crate) fn config(alloc: Global) -> Result<Config, NoMemory> {
    let nodes = NodeSet::empty()
        .with(node_of(1)?)
        .with(node_of(2)?)
        .with(node_of(3)?);
    let mut logs = Specs::new(alloc);
    logs.push(spec()?)?;
    Ok(Config { nodes, logs })
}

/// Node 1 on a disk.
pub(crate) fn loaded(alloc: Global, disk: MemDisk) -> Result<Node<MemDisk>, NodeFault> {
    let config = config(alloc)?;
    match Node::load(alloc, node_of(1)?, disk, &config) {
        Ok(node) => Ok(node),
        Err((_disk, fault)) => Err(fault),
    }
}

/// The generation under which a blank node is formatted.
pub(crate) fn drawn<D: Disk, R: Register>(
    alloc: Global,
    node: &mut Node<D>,
    reg: &mut R,
) -> Result<u32, NodeFault> {
    if !node.is_blank() {
        return Err(NodeFault::Full);
    }
    let drawn = node.format(alloc, reg)?;
    Ok(drawn.gen_)
}

/// Node 1, formatted by this register.
pub(crate) fn formatted_by<R: Register>(
    alloc: Global,
    reg: &mut R,
) -> Result<Node<MemDisk>, NodeFault> {
    let mut node = loaded(alloc, new_disk(alloc)?)?;
    let _ = drawn(alloc, &mut node, reg)?;
    Ok(node)
}

/// Node 1, formatted by a register of its own.
pub(crate) fn formatted(alloc: Global) -> Result<Node<MemDisk>, NodeFault> {
    let mut reg = new_register(alloc)?;
    formatted_by(alloc, &mut reg)
}
