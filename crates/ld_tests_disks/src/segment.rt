// Which slot counts, what one says, and what is read of a disk after the calls of a switch, or a part of them.
ghost use Rattle.std.specs.Prelude.{◌≡◌, ◌≤◌, ◌<◌, ◌+◌, ◌^◌};
ghost use Rattle.ld_layout.specs.LaidOut.{gate_behind};
ghost use Rattle.ld_segment.specs.Plans.{IsReady};

use ld_disk::{Disk, MemDisk, Picture};
use ld_journal::JournalFault;
use ld_layout::{Areas, Growth, LIMIT, Layout, Segment};
use ld_op::{Plain, Version};
use ld_segment::{Plan, Slot, current, read_later, says, write_op};
use std::alloc::Global;
use std::test::Fail;

// A disk whose first segment holds no record but the head, once an index without logs was put behind it, and a record of two
// bytes behind that.
const SWITCHED: [u8; 73] = [
    1, 0, 0, 0, 9, 8, 0, 0, 0, 0, 0, 0, 0, 15, 0, // the head, and the gate behind it
    1, 0, 0, 0, 0, 0, 0, 0, 1, 0, 0, 0, 0, 0, 0, 0, 49, // the first slot
    0, 0, 0, 0, 0, 0, 0, 0, 0, 0, 0, 0, 0, 0, 0, 0, 0, // the second one
    1, 0, 0, 0, 11, 13, 0, 0, 0, 0, 0, 0, 0, 0, 0, 0, // the Base
    1, 0, 0, 0, 2, 2, 0, 0, // the record, and the gate behind it
];

fn written(disk: &mut MemDisk, plan: &Plan) -> Result<(), JournalFault>
    requires { IsReady plan.now }
{
    let end = plan.end();
    if LIMIT < end {
        return Err(JournalFault::Full);
    }
    disk.reserve(end, plan.calls())?;
    write_op(disk, plan)?;
    Ok(())
}

// Writes a record of two bytes, and before it a switch whose Base is of this kind, where the layout is full.
fn write(
    alloc: Global,
    disk: &mut MemDisk,
    layout: &Layout,
    other: u64,
    is_open: bool,
    kind: u8,
) -> Result<(), JournalFault>
    requires gate { gate_behind layout.now.end layout.now.later + 1 < 2 ^ 64 }
    requires first { layout.now.end ≤ 2 ^ 40 }
{
    let body = Vec::from_slice(alloc, &[2, 0])?;
    match Plan::of(
        alloc,
        layout,
        &Plain::new(alloc),
        other,
        is_open,
        kind,
        body,
    ) {
        Ok(Some((plan, _))) => written(disk, &plan),
        Ok(None) => Err(JournalFault::Full),
        Err(_) => Err(JournalFault::NoMemory),
    }
}

// A disk that was switched from a full first segment without a record, to a Base of this kind.
fn switched(alloc: Global, kind: u8) -> Result<MemDisk, JournalFault> {
    let mut disk = MemDisk::new(alloc)?;
    let layout = Layout {
        ops: 64,
        end: 0,
        later: None,
        grows: Growth::Still,
    };
    write(alloc, &mut disk, &layout, 0, false, kind)?;
    Ok(disk)
}

// Switches from the full segment behind that.
fn switch_again(alloc: Global, disk: &mut MemDisk) -> Result<(), JournalFault> {
    let layout = Layout {
        ops: 64,
        end: 0,
        later: Some(Segment {
            place: 49,
            based: 0,
            ops: 64,
            end: 72,
            limit: 131_138,
            areas: Areas::new(alloc),
            number: 1,
            grows: Growth::Still,
        }),
        grows: Growth::Still,
    };
    write(alloc, disk, &layout, 32, false, 13)
}

// What is read behind the head: the offset of the slot that counts, 1 where the other one is open, the number and the offset of
// the segment, and the gate behind its Base.
fn read_behind(alloc: Global, disk: &mut MemDisk) -> Result<[u64; 5], JournalFault> {
    let len = disk.len()?;
    let later = read_later(alloc, disk, 15, len, Version::Second)?;
    let found = later.found;
    let is_open = u64::from(found.is_open);
    Ok([found.this, is_open, found.number, found.place, later.gate])
}

// What is read after one switch, and after two.
const FIRST: [u64; 5] = [15, 0, 1, 49, 65];

const SECOND: [u64; 5] = [32, 1, 2, 131_138, 131_154];

// What is read once the second switch, or the record behind it, crashed in its k-th writing call; after 12 it doesn't.
fn read_after_crash(alloc: Global, k: u64, picture: Picture) -> Result<[u64; 5], JournalFault> {
    let mut disk = switched(alloc, 13)?;
    disk.crash_at(k, picture);
    let torn = switch_again(alloc, &mut disk);
    if torn.is_ok() != (k == 12) {
        return Err(JournalFault::Full);
    }
    disk.restart();
    read_behind(alloc, &mut disk)
}

fn is_same(bytes: &[u8], others: &[u8]) -> bool {
    bytes == others
}

// What is read after one switch, and whether the disk is as the bytes say then.
fn read_once(alloc: Global) -> Result<([u64; 5], bool), JournalFault> {
    let mut disk = switched(alloc, 13)?;
    let mut bytes = [0; 74];
    let count = disk.read(0, &mut bytes)?;
    let same = count == 73 && is_same(&bytes[..73], &SWITCHED);
    Ok((read_behind(alloc, &mut disk)?, same))
}

// Where a disk is found damaged: 0 where it isn't.
fn damage(alloc: Global, disk: &mut MemDisk) -> u64 {
    match read_behind(alloc, disk) {
        Err(JournalFault::Damaged(place)) => place,
        _ => 0,
    }
}

// Where a new disk is damaged, and one with a Base of the first version behind a segment of the second.
fn damages(alloc: Global) -> Result<[u64; 2], JournalFault> {
    let mut blank = MemDisk::new(alloc)?;
    let mut older = switched(alloc, 9)?;
    Ok([damage(alloc, &mut blank), damage(alloc, &mut older)])
}

// The version behind that, where the first segment is of the first version.
fn version_behind(alloc: Global) -> Result<Version, JournalFault> {
    let mut disk = switched(alloc, 9)?;
    let len = disk.len()?;
    let later = read_later(alloc, &mut disk, 15, len, Version::First)?;
    Ok(later.version)
}

// Which of two slots counts, by its number, and 0 for none: each is open or not.
fn number_of_current(one: (bool, u64), two: (bool, u64)) -> u64 {
    let place = 7;
    let one = Slot {
        open: one.0,
        number: one.1,
        place,
    };
    let two = Slot {
        open: two.0,
        number: two.1,
        place,
    };
    match current(one, two) {
        Some(slot) => slot.number,
        None => 0,
    }
}

#[test]
fn of_the_open_slots_the_greater_number_counts(rt: HostRuntime) -> Result<(), Fail> {
    let numbers = [
        number_of_current((false, 1), (false, 2)),
        number_of_current((true, 1), (false, 2)),
        number_of_current((true, 1), (true, 2)),
        number_of_current((true, 3), (true, 2)),
        number_of_current((false, 3), (true, 2)),
    ];
    assert_eq!(rt; numbers, [0, 1, 2, 3, 2]);
    Ok(())
}

#[test]
fn a_slot_says_its_number_and_its_place(rt: HostRuntime) -> Result<(), Fail> {
    assert_eq!(rt;
        says(1, 258),
        [0, 0, 0, 0, 0, 0, 0, 1, 0, 0, 0, 0, 0, 0, 1, 2]
    );
    Ok(())
}

#[test]
fn a_switch_writes_these_bytes_and_is_read_as_it_was_written(rt: HostRuntime) -> Result<(), Fail> {
    assert_eq!(rt; read_once(rt.alloc())?, (FIRST, true));
    Ok(())
}

#[test]
fn a_crash_leaves_the_segment_or_the_next(rt: HostRuntime) -> Result<(), Fail> {
    let alloc = rt.alloc();
    for k in 1..13 {
        for picture in [Picture::Old, Picture::New, Picture::Byte(7)] {
            let is_there = k > 7 || (k > 5 && picture == Picture::New);
            let expected = if is_there { SECOND } else { FIRST };
            assert_eq!(rt; read_after_crash(alloc, k, picture)?, expected);
        }
    }
    Ok(())
}

#[test]
fn what_is_no_segment_is_damaged(rt: HostRuntime) -> Result<(), Fail> {
    let alloc = rt.alloc();
    assert_eq!(rt; damages(alloc)?, [15, 49]);
    assert_eq!(rt; version_behind(alloc)?, Version::First);
    Ok(())
}
