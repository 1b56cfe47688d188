// Journals of the first version, and records out of place.
ghost use Rattle.std.specs.Prelude.{◌<◌, ◌^◌};

use crate::store::{PICTURES, first_log, loaded, new_disk};
use ld_disk::{Disk, Fault, MemDisk, Picture};
use ld_store::{Store, StoreFault};
use std::alloc::Global;
use std::test::Fail;

// A store of the first version: its format under generation 1.
const OLDER: &[u8] = &[1, 0, 0, 0, 6, 1, 0, 0, 0, 1, 0, 0];
// The same with a mark.
const MARKED: &[u8] = &[1, 0, 0, 0, 6, 1, 0, 0, 0, 1, 0, 1, 0, 0, 0, 2, 11, 2, 0];

/// A disk that holds the bytes.
fn disk_with(alloc: Global, bytes: &[u8]) -> Result<MemDisk, Fail> {
    let mut disk = new_disk(alloc)?;
    disk.reserve(bytes.len() as u64, 2)?;
    disk.write_at(0, bytes)?;
    disk.sync()?;
    Ok(disk)
}

/// Whether a disk holds the bytes.
fn holds(disk: &mut MemDisk, bytes: &[u8]) -> Result<bool, Fail> {
    let mut read = [9; 64];
    let count = disk.read(0, &mut read)?;
    Ok(&read[..count] == bytes)
}

/// Whether a load of a disk that holds the bytes is a store of generation 1, and leaves the mark on it.
fn is_marked(alloc: Global, before: &[u8]) -> Result<bool, Fail> {
    let store = loaded(alloc, disk_with(alloc, before)?)?;
    let is_formatted = store.index().generation() == 1;
    let mut disk = store.into_disk();
    let same = holds(&mut disk, MARKED)?;
    Ok(is_formatted && same)
}

#[test]
fn a_journal_of_the_first_version_is_marked_once(rt: HostRuntime) -> Result<(), Fail> {
    for before in [OLDER, MARKED] {
        assert!(rt; is_marked(rt.alloc(), before)?);
    }
    Ok(())
}

/// Whether a store of the first version is marked by a load after one that a crash in its k-th writing call cut short.
fn is_marked_after(alloc: Global, k: u64, picture: Picture) -> Result<bool, Fail> {
    let mut disk = disk_with(alloc, OLDER)?;
    disk.arm(Fault::CrashAt(k, picture));
    let mut disk = match Store::load(alloc, disk) {
        Ok(store) => store.into_disk(),
        Err((disk, _)) => disk,
    };
    disk.restart();
    let store = loaded(alloc, disk)?;
    let is_formatted = store.index().generation() == 1;
    let mut disk = store.into_disk();
    let same = holds(&mut disk, MARKED)?;
    Ok(is_formatted && same)
}

#[test]
fn a_mark_that_is_cut_short_comes_with_the_next_load(rt: HostRuntime) -> Result<(), Fail> {
    // A sync, the four calls of the mark, and the sync of the next load: the seventh doesn't come.
    for k in [1, 2, 3, 4, 5, 7] {
        for picture in PICTURES {
            assert!(rt; is_marked_after(rt.alloc(), k, picture)?);
        }
    }
    Ok(())
}

/// Whether a load of a disk that holds the bytes finds them damaged from this offset on.
fn is_damaged_at(alloc: Global, bytes: &[u8], place: u64) -> Result<bool, Fail> {
    let disk = disk_with(alloc, bytes)?;
    Ok(loaded(alloc, disk).err() == Some(StoreFault::Damaged(place)))
}

// A mark alone.
const MARK: &[u8] = &[1, 0, 0, 0, 2, 11, 2, 0];

// A store of the first version with two marks.
const TWO_MARKS: &[u8] = &[
    1, 0, 0, 0, 6, 1, 0, 0, 0, 1, 0, 1, 0, 0, 0, 2, 11, 2, 1, 0, 0, 0, 2, 11, 2, 0,
];

// A store of the second version with a mark.
const NEWER_MARKED: &[u8] = &[1, 0, 0, 0, 7, 10, 2, 0, 0, 0, 1, 0, 1, 0, 0, 0, 2, 11, 2, 0];

// A format of the second version in a store of the first.
const NEWER_IN_OLDER: &[u8] = &[
    1, 0, 0, 0, 6, 1, 0, 0, 0, 1, 0, 1, 0, 0, 0, 7, 10, 2, 0, 0, 0, 1, 0, 0,
];

#[test]
fn records_out_of_place_are_damage(rt: HostRuntime) -> Result<(), Fail> {
    for (bytes, place) in [
        (MARK, 0),
        (TWO_MARKS, 18),
        (NEWER_MARKED, 12),
        (NEWER_IN_OLDER, 11),
    ] {
        assert!(rt; is_damaged_at(rt.alloc(), bytes, place)?);
    }
    Ok(())
}

/// The fault of a load of a disk that holds the byte 1, an open gate, and nothing behind it.
fn fault_of_a_gate(alloc: Global) -> Result<Option<StoreFault>, Fail> {
    let mut disk = new_disk(alloc)?;
    disk.reserve(1, 1)?;
    disk.write_at(0, &[1])?;
    Ok(loaded(alloc, disk).err())
}

#[test]
fn an_open_gate_alone_is_damaged(rt: HostRuntime) -> Result<(), Fail> {
    assert_eq!(rt; fault_of_a_gate(rt.alloc())?, Some(StoreFault::Damaged(0)));
    Ok(())
}

// A seal of log 1 under ballot 5, and the gate behind it.
const SEALED: [u8; 15] = [1, 0, 0, 0, 9, 3, 0, 0, 0, 1, 0, 0, 0, 5, 0];

/// A disk of the first version with a format and so many seals.
fn sealed_disk(alloc: Global, seals: u64) -> Result<MemDisk, Fail>
    requires { seals < 2 ^ 16 }
{
    let mut disk = disk_with(alloc, OLDER)?;
    for k in 0..seals {
        let at = 11 + 14 * k;
        disk.reserve(at + 15, 1)?;
        disk.write_at(at, &SEALED)?;
    }
    disk.reserve(0, 1)?;
    disk.sync()?;
    Ok(disk)
}

/// What is looked at once such a disk was loaded: the generation, the ballot that seals the log, and what stands behind
/// the first segment's records.
fn loaded_sealed(alloc: Global, disk: MemDisk) -> Result<(u32, u32, MemDisk), Fail> {
    let store = loaded(alloc, disk)?;
    let log = first_log()?;
    let generation = store.index().generation();
    let sealed = store.index().sealed(log);
    Ok((generation, sealed, store.into_disk()))
}

/// Whether the head stands at an offset of the disk, and a Base of the first version 49 bytes on.
fn is_switched(disk: &mut MemDisk, at: u64) -> Result<bool, Fail>
    requires { at < 2 ^ 16 }
{
    let mut head = [0; 6];
    let mut base = [0; 6];
    let count = disk.read(at, &mut head)?;
    let more = disk.read(at + 49, &mut base)?;
    Ok(count == 6 && more == 6 && head == [1, 0, 0, 0, 9, 8] && base[0] == 1 && base[5] == 9)
}

/// Whether a full segment of the first version is marked in a new one by a load, and that one is loaded in one writing
/// call.
fn is_marked_behind(alloc: Global, k: u64, picture: Picture) -> Result<bool, Fail> {
    let mut disk = sealed_disk(alloc, 64)?;
    disk.arm(Fault::CrashAt(k, picture));
    let mut disk = match Store::load(alloc, disk) {
        Ok(store) => store.into_disk(),
        Err((disk, _)) => disk,
    };
    disk.restart();
    let (generation, sealed, mut disk) = loaded_sealed(alloc, disk)?;
    let same = is_switched(&mut disk, 907)?;
    disk.arm(Fault::FailAt(2));
    let (again, ballot, _) = loaded_sealed(alloc, disk)?;
    Ok(generation == 1 && sealed == 5 && same && again == 1 && ballot == 5)
}

#[test]
fn a_full_journal_of_the_first_version_is_marked_in_a_new_segment(
    rt: HostRuntime,
) -> Result<(), Fail> {
    // A sync, six calls of the switch and four of the mark: the fourteenth doesn't come.
    for k in [1, 2, 3, 4, 5, 6, 7, 8, 9, 10, 11, 14] {
        for picture in PICTURES {
            assert!(rt; is_marked_behind(rt.alloc(), k, picture)?);
        }
    }
    Ok(())
}
