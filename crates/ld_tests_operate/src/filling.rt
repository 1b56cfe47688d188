// A register that has something to tell, and a sink for the lines.
ghost use Rattle.std.specs.Prelude.{◌≤◌, ◌-◌, ◌^◌, IfOk};
ghost use Rattle.ld_msg.specs.Bounds.{IsSummary};
ghost use Rattle.ld_register.specs.Bounds.{IsSpec};

use ld_disk::MemDisk;
use ld_ids::{LogId, NoMemory, NodeId, NodeSet, Spec};
use ld_io::MemSink;
use ld_lsn::Lsn;
use ld_msg::Summary;
use ld_register::{DiskRegister, Register};
use std::alloc::Global;

/// Log 1.
pub(crate) fn log_one() -> Result<LogId, NoMemory> {
    match LogId::new(1) {
        Some(log) => Ok(log),
        None => Err(NoMemory),
    }
}

pub(crate) fn node_of(number: u8) -> Result<NodeId, NoMemory> {
    match NodeId::new(number) {
        Some(node) => Ok(node),
        None => Err(NoMemory),
    }
}

/// Log 1 on nodes 1 to 3, with factor 2.
fn spec() -> Result<Spec, NoMemory>
    ensures { IfOk result IsSpec }
{
    let log = log_one()?;
    let _ = log.number();
    let set = NodeSet::from_bits(7);
    if set.len() < 2 {
        return Err(NoMemory);
    }
    Ok(Spec {
        log,
        set,
        r: 2,
        extras: 0,
    })
}

/// A summary of an epoch that sequencer 5 closed before its first record.
pub(crate) fn summary(epoch: u32) -> Summary
    requires { epoch ≤ 4 }
    ensures { IsSummary epoch result }
{
    Summary {
        ballot: 5,
        lng: 0,
        trim: Lsn::from_u64(0),
        end: 1,
        loss: false,
    }
}

/// A register on a new disk.
pub(crate) fn new_register(alloc: Global) -> Result<DiskRegister<MemDisk>, NoMemory> {
    match MemDisk::new(alloc) {
        Ok(disk) => Ok(DiskRegister::new(alloc, disk)),
        Err(_) => Err(NoMemory),
    }
}

fn activate<G: Register>(alloc: Global, reg: &mut G) -> Result<(), NoMemory> {
    match reg.activate(alloc, &spec()?) {
        Ok(_) => Ok(()),
        Err(_) => Err(NoMemory),
    }
}

fn close<G: Register>(alloc: Global, reg: &mut G, epoch: u32) -> Result<(), NoMemory>
    requires { epoch ≤ 4 }
{
    match reg.close(alloc, log_one()?, epoch, &summary(epoch), false) {
        Ok(_) => Ok(()),
        Err(_) => Err(NoMemory),
    }
}

fn swap<G: Register>(alloc: Global, reg: &mut G) -> Result<(), NoMemory> {
    match reg.swap(alloc, log_one()?, 4, node_of(2)?, node_of(4)?) {
        Ok(_) => Ok(()),
        Err(_) => Err(NoMemory),
    }
}

/// Five epochs of log 1 are handed out, four of them are closed, and in those node 4 takes the place of node 2.
pub(crate) fn fill<G: Register>(alloc: Global, reg: &mut G) -> Result<(), NoMemory> {
    for _ in 0..5 {
        activate(alloc, reg)?;
    }
    for epoch in 1..5 {
        close(alloc, reg, epoch)?;
    }
    swap(alloc, reg)
}

/// A sink of so much room, whose call of this number fails, from 0 on.
pub(crate) fn sink(alloc: Global, room: usize, fails: u64) -> Result<MemSink, NoMemory> {
    let mut calls = Vec::new(alloc);
    calls.push(fails)?;
    match MemSink::new(alloc, room, calls) {
        Ok(sink) => Ok(sink),
        Err(_) => Err(NoMemory),
    }
}
