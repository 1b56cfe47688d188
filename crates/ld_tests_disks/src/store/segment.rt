// Later segments: what a crash in a switch leaves, space that is used again, and what a head and a Base name.
ghost use Rattle.std.specs.Prelude.{◌≤◌, ◌<◌, ◌-◌, ◌^◌};

use crate::store::payload::read;
use crate::store::{PICTURES, accept, fill, first_log, formatted, has, keep, loaded};
use ld_disk::{Disk, Fault, MemDisk, Picture};
use ld_layout::Growth;
use ld_lsn::Lsn;
use ld_op::Op;
use ld_store::{Store, StoreFault};
use std::alloc::Global;
use std::test::Fail;

/// A formatted store that has accepted so many entries.
fn filled(alloc: Global, count: u32) -> Result<Store<MemDisk>, StoreFault>
    requires { count < 2 ^ 32 - 1 }
{
    let mut store = formatted(alloc)?;
    fill(alloc, &mut store, count)?;
    Ok(store)
}

/// Has a store accept one entry more.
fn accept_one<D: Disk>(alloc: Global, store: &mut Store<D>, esn: u32) -> Result<(), StoreFault>
    requires { (1 ≤ esn) × (esn < 2 ^ 32 - 1) }
{
    let log = first_log()?;
    let op = accept(alloc, log, esn)?;
    keep(alloc, store, op)
}

/// Whether the first nine entries hold what was kept, one byte 9 each.
fn holds_nine<D: Disk>(alloc: Global, store: &mut Store<D>) -> Result<bool, StoreFault> {
    let bytes = read(alloc, store)?;
    Ok(&bytes[..] == [9, 9, 9, 9, 9, 9, 9, 9, 9].as_slice())
}

/// What a load finds after a crash.
#[derive(Clone, Copy, Debug, PartialEq, Eq)]
struct Left {
    /// The entries that were kept before, with their payloads.
    holds_old: bool,
    /// The new one.
    has_new: bool,
}

fn left_of<D: Disk>(alloc: Global, store: &mut Store<D>, count: u32) -> Result<Left, StoreFault>
    requires { count < 2 ^ 32 - 1 }
{
    let has_last = has(store, count)?;
    let has_new = has(store, count + 1)?;
    Ok(Left {
        holds_old: has_last && holds_nine(alloc, store)?,
        has_new,
    })
}

/// What is left after a crash in the k-th writing call of the entry behind so many, a restart and a load.
fn left_after(alloc: Global, count: u32, k: u64, picture: Picture) -> Result<Left, StoreFault>
    requires { count < 2 ^ 32 - 2 }
{
    let mut store = filled(alloc, count)?;
    store.arm(Fault::CrashAt(k, picture));
    let _ = accept_one(alloc, &mut store, count + 1);
    let mut disk = store.into_disk();
    disk.restart();
    let mut again = loaded(alloc, disk)?;
    left_of(alloc, &mut again, count)
}

/// Whether the entry is there exactly where the gate of its record, the last but one of the calls, was written and isn't
/// shown as it was before.
fn left_by(calls: u64, k: u64, picture: Picture) -> Left {
    Left {
        holds_old: true,
        has_new: calls < k || (calls <= k.saturating_add(1) && picture == Picture::New),
    }
}

#[test]
fn a_crash_in_a_first_switch_leaves_the_op_or_not(rt: HostRuntime) -> Result<(), Fail> {
    // The format and 63 entries fill the first segment: six writing calls come before the record's four. The load makes one
    // more, so the fourteenth doesn't come.
    for k in [1, 2, 3, 4, 5, 6, 7, 8, 9, 10, 14] {
        for picture in PICTURES {
            assert_eq!(rt;
                left_after(rt.alloc(), 63, k, picture)?,
                left_by(10, k, picture)
            );
        }
    }
    Ok(())
}

#[test]
fn a_crash_in_a_later_switch_leaves_the_op_or_not(rt: HostRuntime) -> Result<(), Fail> {
    // 64 entries more fill the second segment: seven writing calls come before the record's four.
    for k in [1, 2, 3, 4, 5, 6, 7, 8, 9, 10, 11, 14] {
        for picture in PICTURES {
            assert_eq!(rt;
                left_after(rt.alloc(), 127, k, picture)?,
                left_by(11, k, picture)
            );
        }
    }
    Ok(())
}

/// Trims the log up to an offset of epoch 1.
fn trim_to<D: Disk>(alloc: Global, store: &mut Store<D>, esn: u32) -> Result<(), StoreFault>
    requires { esn < 2 ^ 32 - 1 }
{
    let log = first_log()?;
    keep(
        alloc,
        store,
        Op::Trim {
            log,
            trim: Lsn::new(1, esn),
        },
    )
}

/// Accepts so many entries, and trims all but the last eight.
fn fill_and_trim<D: Disk>(alloc: Global, store: &mut Store<D>, count: u32) -> Result<(), StoreFault>
    requires { count < 2 ^ 32 - 1 }
{
    for esn in 1..=count {
        accept_one(alloc, store, esn)?;
        if esn > 8 {
            trim_to(alloc, store, esn - 8)?;
        }
    }
    Ok(())
}

/// How long the disk is behind so many entries of which eight are left, and whether the last of them is loaded again.
fn length_behind(alloc: Global, count: u32) -> Result<(u64, bool), Fail>
    requires { count < 2 ^ 32 - 1 }
{
    let mut store = formatted(alloc)?;
    fill_and_trim(alloc, &mut store, count)?;
    let mut disk = store.into_disk();
    let length = disk.len()?;
    let again = loaded(alloc, disk)?;
    let is_there = has(&again, count)?;
    Ok((length, is_there))
}

#[test]
fn a_trimmed_log_takes_its_space_again(rt: HostRuntime) -> Result<(), Fail> {
    // Some thirty segments of 128 KB each were begun, and no more than three areas are live at once.
    let (length, is_there) = length_behind(rt.alloc(), 1_000)?;
    assert!(rt; length < 500_000 && is_there);
    Ok(())
}

/// From which offset on a load finds a disk damaged that was switched once, after a byte was written over; 0 where it
/// doesn't. Its head stands at 1902, its slots begin at 1917 and its Base at 1951.
fn damaged_behind(alloc: Global, at: u64, byte: u8) -> Result<u64, Fail>
    requires { at < 2 ^ 16 }
{
    let mut disk = filled(alloc, 64)?.into_disk();
    disk.reserve(at + 1, 2)?;
    disk.write_at(at, &[byte])?;
    disk.sync()?;
    Ok(place_of(loaded(alloc, disk).err()))
}

/// The offset of a damage, 0 of nothing, and 1 of another fault.
fn place_of(fault: Option<StoreFault>) -> u64 {
    match fault {
        Some(StoreFault::Damaged(place)) => place,
        Some(_) => 1,
        None => 0,
    }
}

#[test]
fn what_a_head_names_is_damaged_or_not(rt: HostRuntime) -> Result<(), Fail> {
    for (at, byte, place) in [
        // The other slot's number is no matter.
        (1_936, 9, 0),
        // No slot is open.
        (1_917, 0, 1_917),
        // No Base stands there, or one of the first version.
        (1_951, 0, 1_951),
        (1_956, 9, 1_951),
        // The head names an offset within the first segment, where no slot is open.
        (1_915, 9, 1_801),
        // One behind the disk's end.
        (1_912, 1, 16_779_133),
        // One behind the limit.
        (1_908, 255, 18_374_686_479_671_625_597),
    ] {
        assert_eq!(rt; damaged_behind(rt.alloc(), at, byte)?, place);
    }
    Ok(())
}

/// Writes the slots of a disk that was switched once to another offset too, and has the head name that.
fn move_slots(disk: &mut MemDisk, place: u64) -> Result<(), Fail>
    requires { (2_000 ≤ place) × (place < 2 ^ 32) }
{
    let mut slots = [0; 34];
    let count = disk.read(1_917, &mut slots)?;
    disk.reserve(place + 34, 3)?;
    disk.write_at(place, &slots[..count])?;
    disk.write_at(1_908, &place.to_be_bytes())?;
    disk.sync()?;
    Ok(())
}

/// Has a store that accepted 64 entries accept the next 66; a second switch comes before the 128th.
fn fill_on<D: Disk>(alloc: Global, store: &mut Store<D>) -> Result<(), StoreFault> {
    for esn in 65..=130 {
        accept_one(alloc, store, esn)?;
    }
    Ok(())
}

/// The byte of a disk at an offset.
fn byte_at(disk: &mut MemDisk, place: u64) -> Result<u8, Fail> {
    let mut byte = [9];
    let _ = disk.read(place, &mut byte)?;
    Ok(byte[0])
}

/// The gates of the other slot, at an offset and where it was before, once a store whose head names another offset was
/// loaded and switched again, and whether the next load has its last entry.
fn gates_moved(alloc: Global, place: u64) -> Result<(u8, u8, bool), Fail>
    requires { (2_000 ≤ place) × (place < 2 ^ 32) }
{
    let mut disk = filled(alloc, 64)?.into_disk();
    move_slots(&mut disk, place)?;
    let mut store = loaded(alloc, disk)?;
    fill_on(alloc, &mut store)?;
    let mut disk = store.into_disk();
    let moved = byte_at(&mut disk, place + 17)?;
    let before = byte_at(&mut disk, 1_934)?;
    let again = loaded(alloc, disk)?;
    Ok((moved, before, has(&again, 130)?))
}

#[test]
fn slots_are_read_and_written_where_the_head_names_them(rt: HostRuntime) -> Result<(), Fail> {
    // Behind the areas of both later segments.
    assert_eq!(rt; gates_moved(rt.alloc(), 1_000_000)?, (1, 0, true));
    Ok(())
}

/// The first byte of the Base behind the first switch, and whether the last entry, and one more, are loaded again, of a store
/// whose next segments' room grows in this way.
fn grown(alloc: Global, grows: Growth) -> Result<(u8, bool, bool), Fail> {
    let mut store = formatted(alloc)?;
    store.grow(grows);
    fill(alloc, &mut store, 64)?;
    let mut disk = store.into_disk();
    let kind = byte_at(&mut disk, 1_956)?;
    let mut again = loaded(alloc, disk)?;
    let has_last = has(&again, 64)? && holds_nine(alloc, &mut again)?;
    accept_one(alloc, &mut again, 65)?;
    let more = loaded(alloc, again.into_disk())?;
    Ok((kind, has_last, has(&more, 65)?))
}

#[test]
fn a_base_tells_how_its_segment_grows(rt: HostRuntime) -> Result<(), Fail> {
    for (grows, kind) in [(Growth::Still, 13), (Growth::Based, 14), (Growth::Wide, 15)] {
        assert_eq!(rt; grown(rt.alloc(), grows)?, (kind, true, true));
    }
    Ok(())
}

/// From which offset on a load finds such a disk damaged, after a number of eight bytes was written over at an offset: the
/// disk's length and one, less this; 0 where it doesn't.
fn damaged_past(alloc: Global, at: u64, less: u64) -> Result<u64, Fail>
    requires { at < 2 ^ 16 }
{
    let mut disk = filled(alloc, 64)?.into_disk();
    let number = disk.len()?.saturating_add(1).saturating_sub(less);
    disk.reserve(at + 8, 2)?;
    disk.write_at(at, &number.to_be_bytes())?;
    disk.sync()?;
    Ok(place_of(loaded(alloc, disk).err()))
}

#[test]
fn a_base_that_names_a_place_past_the_end_is_damaged(rt: HostRuntime) -> Result<(), Fail> {
    for (at, less, place) in [
        // The offset of the first entry's payload, which has one byte.
        (2_009, 2, 0),
        (2_009, 1, 1_951),
        // The length of the area that begins at 0.
        (3_457, 1, 0),
        (3_457, 0, 1_951),
    ] {
        assert_eq!(rt; damaged_past(rt.alloc(), at, less)?, place);
    }
    Ok(())
}
