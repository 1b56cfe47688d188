// A disk in memory, call by call.
use ld_disk::{Disk, MemDisk, Picture};
use ld_io::NoMemory;
use std::alloc::Global;
use std::test::Fail;

/// What is read of the first four bytes after a write of 1, 2, 3 at offset 1 that crashes with this picture, and how many they are.
fn left_by(alloc: Global, picture: Picture) -> Result<([u8; 4], usize), NoMemory> {
    let mut disk = MemDisk::new(alloc)?;
    disk.reserve(4, 1)?;
    disk.crash_at(1, picture);
    let _ = disk.write_at(1, &[1, 2, 3]);
    disk.restart();
    let mut bytes = [9; 4];
    let count = disk.read(0, &mut bytes).unwrap_or(99);
    Ok((bytes, count))
}

#[test]
fn a_picture_says_what_a_crash_leaves(rt: HostRuntime) -> Result<(), Fail> {
    let alloc = rt.alloc();
    let left = [
        left_by(alloc, Picture::Old)?,
        left_by(alloc, Picture::New)?,
        left_by(alloc, Picture::Byte(7))?,
    ];
    assert_eq!(rt;
        left,
        [([0, 9, 9, 9], 1), ([0, 1, 2, 3], 4), ([0, 7, 7, 7], 4)]
    );
    Ok(())
}

/// What a disk answers that crashes in its second writing call: whether each call succeeds until it is restarted, and then
/// its length, or 99, and whether a sync succeeds.
fn answers_of_a_crash(alloc: Global) -> Result<([bool; 5], u64, bool), NoMemory> {
    let mut disk = MemDisk::new(alloc)?;
    disk.reserve(2, 4)?;
    disk.crash_at(2, Picture::New);
    let answers = [
        disk.write_at(1, &[5]).is_ok(),
        disk.sync().is_ok(),
        disk.len().is_ok(),
        disk.read(0, &mut [0]).is_ok(),
        disk.sync().is_ok(),
    ];
    disk.restart();
    Ok((answers, disk.len().unwrap_or(99), disk.sync().is_ok()))
}

#[test]
fn a_crashed_disk_fails_until_it_is_restarted(rt: HostRuntime) -> Result<(), Fail> {
    let failing = [true, false, false, false, false];
    assert_eq!(rt; answers_of_a_crash(rt.alloc())?, (failing, 2, true));
    Ok(())
}

/// What a disk answers whose next write fails, and then its second read: whether both writes succeed, and the length between
/// them, how many bytes each read gives, and the length once it is wiped, each 99 for a failure.
fn answers_of_failures(alloc: Global) -> Result<([bool; 2], [u64; 2], [usize; 2]), NoMemory> {
    let mut disk = MemDisk::new(alloc)?;
    disk.reserve(2, 2)?;
    disk.fail_at(1);
    let failed = disk.write_at(1, &[5]).is_ok();
    let length = disk.len().unwrap_or(99);
    disk.fail_read_at(2);
    let counts = [
        disk.read(0, &mut [0]).unwrap_or(99),
        disk.read(0, &mut [0]).unwrap_or(99),
    ];
    let made = disk.write_at(1, &[5]).is_ok();
    disk.wipe();
    Ok(([failed, made], [length, disk.len().unwrap_or(99)], counts))
}

#[test]
fn a_failed_call_changes_nothing(rt: HostRuntime) -> Result<(), Fail> {
    assert_eq!(rt;
        answers_of_failures(rt.alloc())?,
        ([false, true], [1, 1], [1, 99])
    );
    Ok(())
}
