// What a register on a disk answers, and what a failure and a crash at each writing call of a change leave.
mod asking;
mod faulty;
mod journal;

use crate::register::asking::{
    CHANGES, Change, again, close, closes_before, drawn, epoch, fixed_over, fixes, grants, loss,
    make, new_register, shows, swap, swaps, told,
};
use ld_disk::{Fault, MemDisk, Picture};
use ld_register::{DiskRegister, RegisterFault};
use std::alloc::Global;
use std::test::Fail;

/// What is told after a change in which the disk does this, a restart and a load; 100 where the change didn't fail.
fn told_after(alloc: Global, change: Change, fault: Fault) -> Result<u32, RegisterFault> {
    let mut register = new_register(alloc)?;
    let _ = epoch(alloc, &mut register, 1)?;
    register.arm(fault);
    if make(alloc, &mut register, change) != Err(RegisterFault::Failed) {
        return Ok(100);
    }
    let mut register = again(alloc, register);
    told(alloc, &mut register, change)
}

/// The first epoch of a log, whether its close tells what is fixed behind it and both are shown, and the first draw.
fn first_epoch(alloc: Global) -> Result<(u32, [bool; 2], (u32, usize)), RegisterFault> {
    let mut register = new_register(alloc)?;
    let first = epoch(alloc, &mut register, 1)?;
    let closes = closes_before(alloc, &mut register, 5)?;
    let shows = shows(alloc, &mut register, 1, 5)?;
    Ok((first, [closes, shows], drawn(alloc, &mut register)?))
}

#[test]
fn an_epoch_is_handed_out_and_closed(rt: HostRuntime) -> Result<(), Fail> {
    assert_eq!(rt; first_epoch(rt.alloc()), Ok((1, [true, true], (1, 1))));
    Ok(())
}

/// A register that has handed out so many epochs of log 1.
fn with_epochs(alloc: Global, count: u32) -> Result<DiskRegister<MemDisk>, RegisterFault> {
    let mut register = new_register(alloc)?;
    for _ in 0..count {
        let _ = epoch(alloc, &mut register, 1)?;
    }
    Ok(register)
}

/// The faults of a short close of epoch 1 of three, and of another close of it then.
fn faults_of_closes(alloc: Global) -> Result<[Option<RegisterFault>; 2], RegisterFault> {
    let mut register = with_epochs(alloc, 3)?;
    let short = close(alloc, &mut register, true).err();
    Ok([short, close(alloc, &mut register, false).err()])
}

#[test]
fn a_short_close_is_overtaken_by_another_epoch(rt: HostRuntime) -> Result<(), Fail> {
    assert_eq!(rt;
        faults_of_closes(rt.alloc()),
        Ok([Some(RegisterFault::Overtaken(3)), None])
    );
    Ok(())
}

/// What is shown of what is lost in epoch 1 of two, once a short close closed it, and once the register is loaded again.
fn losses_of_a_short_close(alloc: Global) -> Result<[u32; 2], RegisterFault> {
    let mut register = with_epochs(alloc, 2)?;
    close(alloc, &mut register, true)?;
    let before = loss(alloc, &mut register, 1)?;
    let mut register = again(alloc, register);
    Ok([before, loss(alloc, &mut register, 1)?])
}

#[test]
fn a_short_close_of_the_greatest_epoch_is_taken(rt: HostRuntime) -> Result<(), Fail> {
    assert_eq!(rt; losses_of_a_short_close(rt.alloc()), Ok([2, 2]));
    Ok(())
}

#[test]
fn a_failure_in_the_last_sync_alone_leaves_the_change(rt: HostRuntime) -> Result<(), Fail> {
    for (change, before, after) in CHANGES {
        for k in 1..5 {
            let expected = if k == 4 { after } else { before };
            assert_eq!(rt;
                told_after(rt.alloc(), change, Fault::FailAt(k)),
                Ok(expected)
            );
        }
    }
    Ok(())
}

#[test]
fn a_crash_leaves_the_change_or_does_not(rt: HostRuntime) -> Result<(), Fail> {
    for (change, before, after) in CHANGES {
        for k in 1..5 {
            for picture in [Picture::Old, Picture::New, Picture::Byte(7)] {
                let is_there = k >= 3 && picture == Picture::New;
                let expected = if is_there { after } else { before };
                let fault = Fault::CrashAt(k, picture);
                assert_eq!(rt; told_after(rt.alloc(), change, fault), Ok(expected));
            }
        }
    }
    Ok(())
}

/// A register that handed out epoch 1 of log 1 over the nodes of one set and epoch 2 over those of another, loaded again;
/// whether each activation told what is fixed for epoch 1.
fn with_two_sets(alloc: Global) -> Result<(DiskRegister<MemDisk>, [bool; 2]), RegisterFault> {
    let mut register = new_register(alloc)?;
    let first = grants(alloc, &mut register, 5, 1, 5)?;
    let second = grants(alloc, &mut register, 6, 2, 5)?;
    Ok((again(alloc, register), [first, second]))
}

/// Whether both activations tell what is fixed, and the epochs 0 to 3 then show what is.
fn fixes_each(alloc: Global) -> Result<[bool; 6], RegisterFault> {
    let (mut register, [first, second]) = with_two_sets(alloc)?;
    Ok([
        first,
        second,
        fixes(alloc, &mut register, 0, 6)?,
        fixes(alloc, &mut register, 1, 5)?,
        fixes(alloc, &mut register, 2, 6)?,
        fixes(alloc, &mut register, 3, 6)?,
    ])
}

#[test]
fn each_epoch_keeps_what_was_fixed_for_it(rt: HostRuntime) -> Result<(), Fail> {
    assert_eq!(rt; fixes_each(rt.alloc()), Ok([true; 6]));
    Ok(())
}

/// Whether nothing is fixed for an epoch of a log that has none.
fn fixes_nothing(alloc: Global) -> Result<bool, RegisterFault> {
    let mut register = new_register(alloc)?;
    fixes(alloc, &mut register, 1, 0)
}

#[test]
fn nothing_is_fixed_before_the_first_activation(rt: HostRuntime) -> Result<(), Fail> {
    assert_eq!(rt; fixes_nothing(rt.alloc()), Ok(true));
    Ok(())
}

/// Whether a close of epoch 1 tells what is fixed for epoch 2, and the fault of the next close of epoch 1.
fn closes_twice(alloc: Global) -> Result<(bool, Option<RegisterFault>), RegisterFault> {
    let (mut register, _) = with_two_sets(alloc)?;
    let told = closes_before(alloc, &mut register, 6)?;
    Ok((told, close(alloc, &mut register, true).err()))
}

#[test]
fn a_close_that_is_behind_tells_what_is_fixed_next(rt: HostRuntime) -> Result<(), Fail> {
    let behind = RegisterFault::Behind {
        lce: 1,
        next: fixed_over(6)?,
    };
    assert_eq!(rt; closes_twice(rt.alloc()), Ok((true, Some(behind))));
    Ok(())
}

/// In how many of two epochs a spare takes the place of a member: before one of them is closed, then, and once more.
fn swapped(alloc: Global) -> Result<(DiskRegister<MemDisk>, [u32; 3]), RegisterFault> {
    let mut register = with_epochs(alloc, 2)?;
    let open = swap(alloc, &mut register)?;
    close(alloc, &mut register, false)?;
    let closed = swap(alloc, &mut register)?;
    let more = swap(alloc, &mut register)?;
    Ok((again(alloc, register), [open, closed, more]))
}

/// The same, how many swaps both epochs show then, and whether the first one shows the spare and the second one doesn't.
fn swaps_closed(alloc: Global) -> Result<([u32; 3], [(u32, bool); 2]), RegisterFault> {
    let (mut register, counts) = swapped(alloc)?;
    let closed = swaps(alloc, &mut register, 1, 6)?;
    Ok((counts, [closed, swaps(alloc, &mut register, 2, 5)?]))
}

#[test]
fn a_spare_takes_the_place_of_a_member_in_closed_epochs(rt: HostRuntime) -> Result<(), Fail> {
    let expected = ([0, 1, 0], [(1, true), (1, true)]);
    assert_eq!(rt; swaps_closed(rt.alloc()), Ok(expected));
    Ok(())
}
