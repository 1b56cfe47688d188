// Ops that are staged and committed together: their bytes, what a crash leaves of them, and what is read before.
ghost use Rattle.std.specs.Prelude.{◌≤◌, ◌<◌, ◌-◌, ◌^◌};

use crate::store::payload::read;
use crate::store::{PICTURES, accept, fill, first_log, formatted, has, keep, loaded};
use ld_disk::{Disk, Fault, MemDisk, Picture};
use ld_store::{Store, StoreFault};
use std::alloc::Global;
use std::test::Fail;

/// Has a store stage one entry.
fn stage_one<D: Disk>(alloc: Global, store: &mut Store<D>, esn: u32) -> Result<(), StoreFault>
    requires { (1 ≤ esn) × (esn < 2 ^ 32 - 1) }
{
    if store.is_blank() {
        return Err(StoreFault::Full);
    }
    let log = first_log()?;
    let op = accept(alloc, log, esn)?;
    store.stage(alloc, op)
}

/// Has a store accept so many entries, in groups of at most this size.
fn fill_in_groups<D: Disk>(
    alloc: Global,
    store: &mut Store<D>,
    count: u32,
    size: u32,
) -> Result<(), StoreFault>
    requires count { count < 2 ^ 32 - 1 }
    requires size { 0 < size }
{
    for esn in 1..=count {
        stage_one(alloc, store, esn)?;
        if esn % size == 0 {
            store.commit()?;
        }
    }
    store.commit()
}

/// The first bytes of a disk, and how many it has.
fn bytes_of(disk: MemDisk) -> Result<([u8; 8192], u64), Fail> {
    let mut disk = disk;
    let mut bytes = [0; 8192];
    let _ = disk.read(0, &mut bytes)?;
    let length = disk.len()?;
    Ok((bytes, length))
}

/// Whether entries in groups of this size leave the bytes that they leave one by one, over a switch.
fn leaves_the_same(alloc: Global, size: u32) -> Result<bool, Fail>
    requires { 0 < size }
{
    let mut single = formatted(alloc)?;
    fill(alloc, &mut single, 100)?;
    let mut grouped = formatted(alloc)?;
    fill_in_groups(alloc, &mut grouped, 100, size)?;
    let (one, length) = bytes_of(single.into_disk())?;
    let (other, other_length) = bytes_of(grouped.into_disk())?;
    Ok(length == other_length && &one[..] == &other[..])
}

#[test]
fn groups_leave_the_bytes_of_single_ops(rt: HostRuntime) -> Result<(), Fail> {
    for size in [1, 7, 64, 200] {
        assert!(rt; leaves_the_same(rt.alloc(), size)?);
    }
    Ok(())
}

/// Has a store accept three entries behind so many, in one group.
fn accept_three<D: Disk>(alloc: Global, store: &mut Store<D>, count: u32) -> Result<(), StoreFault>
    requires { count < 2 ^ 32 - 4 }
{
    stage_one(alloc, store, count + 1)?;
    stage_one(alloc, store, count + 2)?;
    stage_one(alloc, store, count + 3)?;
    store.commit()
}

/// Which of three entries are there after a crash in the k-th writing call of their group, a restart and a load.
fn left_after(alloc: Global, count: u32, k: u64, picture: Picture) -> Result<[bool; 3], StoreFault>
    requires { count < 2 ^ 32 - 4 }
{
    let mut store = formatted(alloc)?;
    fill(alloc, &mut store, count)?;
    store.arm(Fault::CrashAt(k, picture));
    let _ = accept_three(alloc, &mut store, count);
    let mut disk = store.into_disk();
    disk.restart();
    let again = loaded(alloc, disk)?;
    Ok([
        has(&again, count + 1)?,
        has(&again, count + 2)?,
        has(&again, count + 3)?,
    ])
}

/// Whether the gate that is written by the last but one of so many calls is open, after a crash in the k-th.
fn is_open(calls: u64, k: u64, picture: Picture) -> bool {
    calls < k || (calls <= k.saturating_add(1) && picture == Picture::New)
}

#[test]
fn a_crash_leaves_all_of_a_group_or_none(rt: HostRuntime) -> Result<(), Fail> {
    // The first record is one writing call and each other one two; then come a sync, the gate and a sync. The load makes one
    // more, so the fourteenth doesn't come.
    for k in [1, 2, 3, 4, 5, 6, 7, 8, 14] {
        for picture in PICTURES {
            let all = is_open(8, k, picture);
            assert_eq!(rt; left_after(rt.alloc(), 9, k, picture)?, [all, all, all]);
        }
    }
    Ok(())
}

#[test]
fn a_group_ends_before_a_switch(rt: HostRuntime) -> Result<(), Fail> {
    // The format and 62 entries leave room for one more: it is one call, and three make it durable. Six of a switch follow, one
    // and two of the other records, and the three that make these durable. The twentieth doesn't come.
    for k in [1, 2, 3, 4, 5, 6, 9, 10, 11, 13, 14, 15, 16, 20] {
        for picture in PICTURES {
            let first = is_open(4, k, picture);
            let others = is_open(16, k, picture);
            assert_eq!(rt;
                left_after(rt.alloc(), 62, k, picture)?,
                [first, others, others]
            );
        }
    }
    Ok(())
}

/// Whether the payloads of nine staged entries are read before they are durable, and the fault of an op that is to be durable
/// at once.
fn among_staged(alloc: Global) -> Result<(bool, Option<StoreFault>), StoreFault> {
    let mut store = formatted(alloc)?;
    for esn in 1..=9 {
        stage_one(alloc, &mut store, esn)?;
    }
    let bytes = read(alloc, &mut store)?;
    let log = first_log()?;
    let op = accept(alloc, log, 10)?;
    let fault = keep(alloc, &mut store, op).err();
    Ok((&bytes[..] == [9, 9, 9, 9, 9, 9, 9, 9, 9].as_slice(), fault))
}

#[test]
fn what_is_staged_is_read(rt: HostRuntime) -> Result<(), Fail> {
    assert_eq!(rt;
        among_staged(rt.alloc())?,
        (true, Some(StoreFault::NoMemory))
    );
    Ok(())
}
