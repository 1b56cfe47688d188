// Stores on disks in memory: what an op leaves on the disk, and what a load finds after a crash.
mod group;
mod payload;
mod segment;
mod version;

ghost use Rattle.std.specs.Prelude.{◌≡◌, ◌≤◌, ◌<◌, ◌-◌, ◌^◌, IfOk, false};
ghost use Rattle.ld_op.specs.Bounds.{IsOp};
ghost use Rattle.ld_store.specs.Ops.{is_format};

use ld_disk::{Disk, Fault, MemDisk, Picture};
use ld_ids::{LogId, NoMemory, Payload};
use ld_lsn::Lsn;
use ld_msg::{Entries, Entry, Summary, What};
use ld_op::{Epochs, Op, Plain};
use ld_store::{Store, StoreFault};
use std::alloc::Global;
use std::test::Fail;

pub(crate) const PICTURES: [Picture; 3] = [Picture::Old, Picture::New, Picture::Byte(7)];

pub(crate) fn loaded(alloc: Global, disk: MemDisk) -> Result<Store<MemDisk>, StoreFault> {
    match Store::load(alloc, disk) {
        Ok(store) => Ok(store),
        Err((_, fault)) => Err(fault),
    }
}

pub(crate) fn new_disk(alloc: Global) -> Result<MemDisk, StoreFault> {
    match MemDisk::new(alloc) {
        Ok(disk) => Ok(disk),
        Err(_) => Err(StoreFault::NoMemory),
    }
}

pub(crate) fn first_log() -> Result<LogId, StoreFault> {
    match LogId::new(1) {
        Some(log) => Ok(log),
        None => Err(StoreFault::NoMemory),
    }
}

/// Formats a blank store under generation 1 before any log had an epoch.
fn format<D: Disk>(alloc: Global, store: &mut Store<D>) -> Result<(), StoreFault> {
    if !store.is_blank() {
        return Err(StoreFault::Full);
    }
    store.format(alloc, 1, Epochs::new(Vec::new(alloc)))
}

pub(crate) fn formatted(alloc: Global) -> Result<Store<MemDisk>, StoreFault> {
    let mut store = loaded(alloc, new_disk(alloc)?)?;
    format(alloc, &mut store)?;
    Ok(store)
}

/// Formats a blank store that is lost up to epoch 3 of a log.
fn format_lost<D: Disk>(alloc: Global, store: &mut Store<D>, log: LogId) -> Result<(), StoreFault> {
    if !store.is_blank() {
        return Err(StoreFault::Full);
    }
    let mut list = Vec::new(alloc);
    if list.push((log, 3)).is_err() {
        return Err(StoreFault::NoMemory);
    }
    store.format(alloc, 1, Epochs::new(list))
}

/// Keeps an op in a formatted store.
pub(crate) fn keep<D: Disk>(alloc: Global, store: &mut Store<D>, op: Op) -> Result<(), StoreFault>
    requires { IsOp op × (is_format op ≡ false) }
{
    if store.is_blank() {
        return Err(StoreFault::Full);
    }
    store.apply(alloc, op)
}

/// The op of a store under an offset of epoch 1.
pub(crate) fn accept(alloc: Global, log: LogId, esn: u32) -> Result<Op, NoMemory>
    requires { (1 ≤ esn) × (esn < 2 ^ 32 - 1) }
    ensures { IfOk result (λ op. IsOp op × (is_format op ≡ false)) }
{
    let mut bytes = Vec::new(alloc);
    bytes.push(9)?;
    Ok(Op::Accept {
        log,
        lng: 0,
        entry: Entry {
            number: Lsn::new(1, esn),
            ballot: 1,
            what: What::Rec(Payload::new(bytes)),
        },
    })
}

/// What is looked at of a plain state: of one log, its offset 1 and its epoch 1.
#[derive(Clone, Copy, Debug, PartialEq, Eq)]
struct Seen {
    generation: u32,
    sealed: u32,
    trim: u64,
    has_entry: bool,
    is_clean: bool,
    is_lost: bool,
}

fn shown(plain: &Plain, log: LogId) -> Seen {
    Seen {
        generation: plain.generation(),
        sealed: plain.sealed(log),
        trim: plain.trim(log).value(),
        has_entry: plain.entry(log, Lsn::new(1, 1)).is_some(),
        is_clean: plain.summary(log, 1).is_some(),
        is_lost: plain.is_lost(log),
    }
}

const BLANK: Seen = Seen {
    generation: 0,
    sealed: 0,
    trim: 0,
    has_entry: false,
    is_clean: false,
    is_lost: false,
};

const LOST: Seen = Seen {
    generation: 1,
    is_lost: true,
    ..BLANK
};

/// One op of each kind but a format.
fn change(alloc: Global, log: LogId, kind: u64) -> Result<Op, NoMemory>
    ensures { IfOk result (λ op. IsOp op × (is_format op ≡ false)) }
{
    match kind {
        2 => accept(alloc, log, 1),
        3 => Ok(Op::Seal { log, ballot: 5 }),
        4 => Ok(Op::Clean {
            log,
            epoch: 1,
            summary: Summary {
                ballot: 2,
                lng: 0,
                trim: Lsn::from_u64(0),
                end: 1,
                loss: true,
            },
        }),
        5 => Ok(Op::Trim {
            log,
            trim: Lsn::new(1, 1),
        }),
        6 => refill(alloc, log),
        _ => Ok(Op::Refilled { log }),
    }
}

/// The op that puts one entry in again.
fn refill(alloc: Global, log: LogId) -> Result<Op, NoMemory>
    ensures { IfOk result (λ op. IsOp op × (is_format op ≡ false)) }
{
    let mut list = Vec::new(alloc);
    list.push(Entry {
        number: Lsn::new(1, 1),
        ballot: 4,
        what: What::Hole,
    })?;
    Ok(Op::Refill {
        log,
        entries: Entries::new(list),
    })
}

/// What each op makes of a store that is lost, by its first byte; a format's of a blank one.
fn shown_after(kind: u64) -> Seen {
    match kind {
        1 => LOST,
        2 => Seen {
            sealed: 1,
            has_entry: true,
            ..LOST
        },
        3 => Seen { sealed: 5, ..LOST },
        4 => Seen {
            is_clean: true,
            ..LOST
        },
        5 => Seen {
            trim: 4_294_967_297,
            ..LOST
        },
        6 => Seen {
            has_entry: true,
            ..LOST
        },
        _ => Seen {
            is_lost: false,
            ..LOST
        },
    }
}

/// Makes the change of a kind, 1 a format of a store that is lost and the others an op.
fn make<D: Disk>(alloc: Global, store: &mut Store<D>, kind: u64) -> Result<(), StoreFault> {
    let log = first_log()?;
    if kind == 1 {
        return format_lost(alloc, store, log);
    }
    let op = change(alloc, log, kind)?;
    keep(alloc, store, op)
}

/// What is seen after a crash in the k-th writing call of a change's record, a restart and a load.
fn seen_after(alloc: Global, kind: u64, k: u64, picture: Picture) -> Result<Seen, StoreFault> {
    let mut store = loaded(alloc, new_disk(alloc)?)?;
    if kind != 1 {
        make(alloc, &mut store, 1)?;
    }
    store.arm(Fault::CrashAt(k, picture));
    let _ = make(alloc, &mut store, kind);
    let mut disk = store.into_disk();
    disk.restart();
    let store = loaded(alloc, disk)?;
    Ok(shown(store.index(), first_log()?))
}

#[test]
fn each_op_is_there_or_is_not(rt: HostRuntime) -> Result<(), Fail> {
    for kind in 1..8 {
        let before = if kind == 1 { BLANK } else { LOST };
        // The record has four writing calls, and the load one: the ninth doesn't come.
        for k in [1, 2, 3, 4, 9] {
            for picture in PICTURES {
                let is_there = k == 9 || (k >= 3 && picture == Picture::New);
                let expected = if is_there { shown_after(kind) } else { before };
                assert_eq!(rt; seen_after(rt.alloc(), kind, k, picture)?, expected);
            }
        }
    }
    Ok(())
}

/// The bytes that a format leaves on a disk, and a 9 where there are less.
fn format_bytes(alloc: Global) -> Result<[u8; 14], Fail> {
    let mut disk = formatted(alloc)?.into_disk();
    let mut bytes = [9; 14];
    let _ = disk.read(0, &mut bytes)?;
    Ok(bytes)
}

#[test]
fn a_format_is_one_record(rt: HostRuntime) -> Result<(), Fail> {
    assert_eq!(rt;
        format_bytes(rt.alloc())?,
        [1, 0, 0, 0, 7, 10, 2, 0, 0, 0, 1, 0, 0, 9]
    );
    Ok(())
}

/// Seals log 1 under ballot 5.
fn seal<D: Disk>(alloc: Global, store: &mut Store<D>) -> Result<(), StoreFault> {
    let log = first_log()?;
    keep(alloc, store, Op::Seal { log, ballot: 5 })
}

/// The faults of a seal whose disk fails, of the next one, and of one once the store is loaded again.
fn faults_of_seals(alloc: Global) -> Result<[Option<StoreFault>; 3], StoreFault> {
    let mut store = formatted(alloc)?;
    store.arm(Fault::FailAt(2));
    let failed = seal(alloc, &mut store).err();
    let next = seal(alloc, &mut store).err();
    let mut again = loaded(alloc, store.into_disk())?;
    Ok([failed, next, seal(alloc, &mut again).err()])
}

#[test]
fn a_failed_disk_has_to_be_loaded_again(rt: HostRuntime) -> Result<(), Fail> {
    assert_eq!(rt;
        faults_of_seals(rt.alloc())?,
        [Some(StoreFault::Disk), Some(StoreFault::NeedsLoad), None]
    );
    Ok(())
}

/// Has a store accept so many entries.
pub(crate) fn fill<D: Disk>(
    alloc: Global,
    store: &mut Store<D>,
    count: u32,
) -> Result<(), StoreFault>
    requires { count < 2 ^ 32 - 1 }
{
    let log = first_log()?;
    for esn in 1..=count {
        let op = accept(alloc, log, esn)?;
        keep(alloc, store, op)?;
    }
    Ok(())
}

/// Whether a store holds an entry at the offset.
pub(crate) fn has<D: Disk>(store: &Store<D>, esn: u32) -> Result<bool, StoreFault> {
    let log = first_log()?;
    Ok(store.index().entry(log, Lsn::new(1, esn)).is_some())
}

/// Whether the first, the last and another one behind it of 2,000 entries are loaded again.
fn loads_many(alloc: Global) -> Result<[bool; 3], StoreFault> {
    let mut store = formatted(alloc)?;
    fill(alloc, &mut store, 2_000)?;
    let again = loaded(alloc, store.into_disk())?;
    Ok([has(&again, 1)?, has(&again, 2_000)?, has(&again, 2_001)?])
}

#[test]
fn many_accepts_are_loaded_again(rt: HostRuntime) -> Result<(), Fail> {
    assert_eq!(rt; loads_many(rt.alloc())?, [true, true, false]);
    Ok(())
}
