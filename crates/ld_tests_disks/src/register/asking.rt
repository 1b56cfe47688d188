// What tests ask of a register, and what they look for in its answers.
ghost use Rattle.std.specs.Prelude.{IfOk};
ghost use Rattle.ld_msg.specs.Bounds.{IsSummary};
ghost use Rattle.ld_register.specs.Bounds.{IsSpec};

use ld_disk::MemDisk;
use ld_ids::{LogId, NodeId, NodeSet, Spec};
use ld_lsn::Lsn;
use ld_msg::Summary;
use ld_register::{DiskRegister, Grant, Register, RegisterFault, View};
use std::alloc::Global;

/// A new disk in memory.
pub(crate) fn new_disk(alloc: Global) -> Result<MemDisk, RegisterFault> {
    match MemDisk::new(alloc) {
        Ok(disk) => Ok(disk),
        Err(_) => Err(RegisterFault::NoMemory),
    }
}

/// A register on a new disk.
pub(crate) fn new_register(alloc: Global) -> Result<DiskRegister<MemDisk>, RegisterFault> {
    Ok(DiskRegister::new(alloc, new_disk(alloc)?))
}

/// The register on its disk after a restart, to be loaded again.
pub(crate) fn again(alloc: Global, register: DiskRegister<MemDisk>) -> DiskRegister<MemDisk> {
    let mut disk = register.into_disk();
    disk.restart();
    DiskRegister::new(alloc, disk)
}

fn log_of(number: u32) -> Result<LogId, RegisterFault> {
    match LogId::new(number) {
        Some(log) => Ok(log),
        None => Err(RegisterFault::NoMemory),
    }
}

fn node_of(number: u8) -> Result<NodeId, RegisterFault> {
    match NodeId::new(number) {
        Some(node) => Ok(node),
        None => Err(RegisterFault::NoMemory),
    }
}

/// A summary of epoch 1 with ballot 2.
fn summary(loss: bool) -> Summary
    ensures { IsSummary 1 result }
{
    Summary {
        ballot: 2,
        lng: 0,
        trim: Lsn::from_u64(0),
        end: 1,
        loss,
    }
}

/// A log with the nodes of a set of this number, and factor 1.
pub(crate) fn spec_over(log: u32, bits: u16) -> Result<Spec, RegisterFault>
    ensures { IfOk result IsSpec }
{
    let log = log_of(log)?;
    let _ = log.number();
    let set = NodeSet::from_bits(bits);
    if set.len() == 0 {
        return Err(RegisterFault::NoMemory);
    }
    Ok(Spec {
        log,
        set,
        r: 1,
        extras: 2,
    })
}

/// The nodes of a set of this number as they are fixed for an epoch of log 1, and nothing for the number 0.
pub(crate) fn fixed_over(bits: u16) -> Result<Option<Spec>, RegisterFault> {
    if bits == 0 {
        return Ok(None);
    }
    Ok(Some(spec_over(1, bits)?))
}

/// The epoch that an activation of the log hands out.
pub(crate) fn epoch<R: Register>(
    alloc: Global,
    register: &mut R,
    log: u32,
) -> Result<u32, RegisterFault> {
    let grant = register.activate(alloc, &spec_over(log, 5)?)?;
    Ok(grant.epoch)
}

/// Whether an activation of log 1 over the set of this number hands out an epoch, and tells which set is fixed for the
/// next one to be closed.
pub(crate) fn grants<R: Register>(
    alloc: Global,
    register: &mut R,
    bits: u16,
    epoch: u32,
    next: u16,
) -> Result<bool, RegisterFault> {
    let grant = register.activate(alloc, &spec_over(1, bits)?)?;
    let expected = Grant {
        epoch,
        lce: 0,
        next: fixed_over(next)?,
    };
    Ok(grant == expected)
}

/// Closes epoch 1 of log 1 with ballot 2.
pub(crate) fn close<R: Register>(
    alloc: Global,
    register: &mut R,
    short: bool,
) -> Result<(), RegisterFault> {
    let _ = register.close(alloc, log_of(1)?, 1, &summary(true), short)?;
    Ok(())
}

/// Whether a close of epoch 1 of log 1 tells that the set of this number is fixed for epoch 2.
pub(crate) fn closes_before<R: Register>(
    alloc: Global,
    register: &mut R,
    bits: u16,
) -> Result<bool, RegisterFault> {
    let next = register.close(alloc, log_of(1)?, 1, &summary(false), false)?;
    Ok(next == fixed_over(bits)?)
}

/// The generation that a draw hands out, and how many logs have an epoch.
pub(crate) fn drawn<R: Register>(
    alloc: Global,
    register: &mut R,
) -> Result<(u32, usize), RegisterFault> {
    let drawn = register.draw(alloc, node_of(1)?)?;
    Ok((drawn.gen_, drawn.epochs.as_slice().len()))
}

/// In how many epochs of log 1 node 2 takes the place of node 1.
pub(crate) fn swap<R: Register>(alloc: Global, register: &mut R) -> Result<u32, RegisterFault> {
    register.swap(alloc, log_of(1)?, 9, node_of(1)?, node_of(2)?)
}

/// What is shown of log 1 and its epoch 1.
fn view<R: Register>(alloc: Global, register: &mut R) -> Result<View, RegisterFault> {
    register.look(alloc, log_of(1)?, 1)
}

/// Whether the epoch is closed as the tests close it, or isn't closed.
fn is_closed(summary: Option<Summary>, closed: bool) -> bool {
    match summary {
        Some(it) => {
            closed
                && it.ballot == 2
                && it.lng == 0
                && it.trim.value() == 0
                && it.end == 1
                && !it.loss
        }
        None => !closed,
    }
}

/// Whether this is shown of log 1 and its epoch 1, which is closed or not.
pub(crate) fn shows<R: Register>(
    alloc: Global,
    register: &mut R,
    lce: u32,
    bits: u16,
) -> Result<bool, RegisterFault> {
    let view = view(alloc, register)?;
    let is_fixed = view.spec == fixed_over(bits)?;
    let is_closed = is_closed(view.summary, lce == 1);
    Ok(is_fixed && is_closed && view.epoch == 1 && view.lce == lce && view.swaps == 0)
}

/// Whether the set of this number is shown as fixed for an epoch of log 1.
pub(crate) fn fixes<R: Register>(
    alloc: Global,
    register: &mut R,
    e: u32,
    bits: u16,
) -> Result<bool, RegisterFault> {
    let view = register.look(alloc, log_of(1)?, e)?;
    Ok(view.spec == fixed_over(bits)?)
}

/// How many swaps of log 1 are shown, and whether the set of this number is shown as fixed for an epoch.
pub(crate) fn swaps<R: Register>(
    alloc: Global,
    register: &mut R,
    e: u32,
    bits: u16,
) -> Result<(u32, bool), RegisterFault> {
    let view = register.look(alloc, log_of(1)?, e)?;
    Ok((view.swaps, view.spec == fixed_over(bits)?))
}

/// What is shown of whether anything is lost in an epoch of log 1: 0 where the epoch isn't closed, 1 where nothing is
/// lost, else 2.
pub(crate) fn loss<R: Register>(
    alloc: Global,
    register: &mut R,
    e: u32,
) -> Result<u32, RegisterFault> {
    let view = register.look(alloc, log_of(1)?, e)?;
    match view.summary {
        Some(summary) => Ok(if summary.loss { 2 } else { 1 }),
        None => Ok(0),
    }
}

/// A change of a register of whose log 1 one epoch was handed out.
#[derive(Clone, Copy)]
pub(crate) enum Change {
    Activation,
    Close,
    Draw,
}

/// The changes, and what is told afterwards where the change wasn't made, and where it was.
pub(crate) const CHANGES: [(Change, u32, u32); 3] = [
    (Change::Activation, 2, 3),
    (Change::Close, 0, 1),
    (Change::Draw, 1, 2),
];

/// Makes a change.
pub(crate) fn make<R: Register>(
    alloc: Global,
    register: &mut R,
    change: Change,
) -> Result<(), RegisterFault> {
    match change {
        Change::Activation => {
            let _ = epoch(alloc, register, 1)?;
        }
        Change::Close => {
            close(alloc, register, false)?;
        }
        Change::Draw => {
            let _ = drawn(alloc, register)?;
        }
    }
    Ok(())
}

/// What is told of a change: the next epoch, the last closed one, or the next generation.
pub(crate) fn told<R: Register>(
    alloc: Global,
    register: &mut R,
    change: Change,
) -> Result<u32, RegisterFault> {
    match change {
        Change::Activation => epoch(alloc, register, 1),
        Change::Close => {
            let view = view(alloc, register)?;
            Ok(view.lce)
        }
        Change::Draw => {
            let (generation, _) = drawn(alloc, register)?;
            Ok(generation)
        }
    }
}
