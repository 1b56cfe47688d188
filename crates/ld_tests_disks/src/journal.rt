// What a crash or a failure at each writing call of an append leaves.
ghost use Rattle.std.specs.Prelude.{◌≡◌, ◌<◌, ◌^◌, OnOk, IfOk, length, true};

use ld_disk::{Disk, Fault, MemDisk, Picture};
use ld_journal::{Journal, JournalFault};
use std::alloc::Global;
use std::test::Fail;

fn loaded(disk: MemDisk) -> Result<Journal<MemDisk>, JournalFault> {
    match Journal::load(disk) {
        Ok(journal) => Ok(journal),
        Err((_, fault)) => Err(fault),
    }
}

/// Reads all bodies, which are fewer than nine, and says how many there are.
fn count_bodies(alloc: Global, journal: &mut Journal<MemDisk>) -> Result<u64, JournalFault>
    ensures { OnOk result (journal.new.ended ≡ true) }
{
    let mut body = Vec::new(alloc);
    for count in 0..9 {
        if !journal.next_body(&mut body)? {
            return Ok(count);
        }
    }
    Err(JournalFault::Full)
}

/// A journal of this body.
fn with_body(alloc: Global, body: &[u8]) -> Result<Journal<MemDisk>, JournalFault>
    requires { length body.now < 2 ^ 32 }
    ensures { IfOk result (λ journal. journal.ended ≡ true) }
{
    let mut journal = loaded(MemDisk::new(alloc)?)?;
    count_bodies(alloc, &mut journal)?;
    journal.append(alloc, body)?;
    Ok(journal)
}

/// How many bodies are loaded of a disk that is restarted.
fn count_of(alloc: Global, disk: MemDisk) -> Result<u64, JournalFault> {
    let mut disk = disk;
    disk.restart();
    let mut again = loaded(disk)?;
    count_bodies(alloc, &mut again)
}

/// How many bodies a journal of one body has after an append in which the disk does this, and a load; 100 where the append
/// or the next one doesn't fail as it has to.
fn count_after(alloc: Global, fault: Fault) -> Result<u64, JournalFault> {
    let mut journal = with_body(alloc, &[9, 9])?;
    journal.arm(fault);
    let failed = journal.append(alloc, &[1, 2, 3]);
    let refused = journal.append(alloc, &[1, 2, 3]);
    if failed != Err(JournalFault::Disk) || refused != Err(JournalFault::NeedsLoad) {
        return Ok(100);
    }
    count_of(alloc, journal.into_disk())
}

#[test]
fn a_crash_leaves_the_body_or_does_not(rt: HostRuntime) -> Result<(), Fail> {
    for k in 1..5 {
        for picture in [Picture::Old, Picture::New, Picture::Byte(7)] {
            let is_there = k >= 3 && picture == Picture::New;
            let expected = if is_there { 2 } else { 1 };
            assert_eq!(rt;
                count_after(rt.alloc(), Fault::CrashAt(k, picture))?,
                expected
            );
        }
    }
    Ok(())
}

#[test]
fn a_failure_in_the_last_sync_alone_leaves_the_body(rt: HostRuntime) -> Result<(), Fail> {
    for k in 1..5 {
        let expected = if k == 4 { 2 } else { 1 };
        assert_eq!(rt; count_after(rt.alloc(), Fault::FailAt(k))?, expected);
    }
    Ok(())
}

/// How many bodies a journal of one body has where the gate's write of a second one crashes, and then the sync of
/// the next load; 100 where that load doesn't fail.
fn count_after_two(alloc: Global, first: Picture, second: Picture) -> Result<u64, JournalFault> {
    let mut journal = with_body(alloc, &[9, 9])?;
    journal.arm(Fault::CrashAt(3, first));
    let _ = journal.append(alloc, &[1, 2, 3]);
    let mut disk = journal.into_disk();
    disk.restart();
    disk.crash_at(1, second);
    match Journal::load(disk) {
        Ok(_) => Ok(100),
        Err((disk, _)) => count_of(alloc, disk),
    }
}

#[test]
fn the_last_crash_decides(rt: HostRuntime) -> Result<(), Fail> {
    let pictures = [
        Picture::Old,
        Picture::New,
        Picture::Byte(7),
        Picture::Byte(1),
    ];
    for first in pictures {
        for second in pictures {
            let is_there = second == Picture::New || second == Picture::Byte(1);
            let expected = if is_there { 2 } else { 1 };
            assert_eq!(rt; count_after_two(rt.alloc(), first, second)?, expected);
        }
    }
    Ok(())
}

/// Whether the disk of a journal of the bodies 1, 0, 0, 0, 1, 0 and nothing holds these bytes, and what is read of it:
/// whether there is a first body, and it is that, a second, and it is empty, and a third.
fn read_in_order(alloc: Global, expected: &[u8]) -> Result<[bool; 6], JournalFault> {
    let mut journal = with_body(alloc, &[1, 0, 0, 0, 1, 0])?;
    journal.append(alloc, &[])?;
    let mut bytes = [9; 20];
    let count = journal.read(0, &mut bytes)?;
    let is_written = &bytes[..count] == expected;
    let mut again = loaded(journal.into_disk())?;
    let mut body = Vec::new(alloc);
    let first = again.next_body(&mut body)?;
    let is_first = body.as_slice() == [1, 0, 0, 0, 1, 0].as_slice();
    let second = again.next_body(&mut body)?;
    let is_empty = body.is_empty();
    let third = again.next_body(&mut body)?;
    Ok([is_written, first, is_first, second, is_empty, third])
}

#[test]
fn bodies_are_read_in_order_as_they_were_written(rt: HostRuntime) -> Result<(), Fail> {
    // A record is a gate, a length and a body, and behind the last one stands a gate.
    let bytes = [1, 0, 0, 0, 6, 1, 0, 0, 0, 1, 0, 1, 0, 0, 0, 0, 0];
    assert_eq!(rt;
        read_in_order(rt.alloc(), &bytes)?,
        [true, true, true, true, true, false]
    );
    Ok(())
}
