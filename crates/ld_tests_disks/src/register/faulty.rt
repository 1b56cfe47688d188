// What a register answers and shows whose changes are told to fail.
use crate::register::asking::{
    CHANGES, Change, close, drawn, epoch, make, new_disk, swap, swaps, told,
};
use ld_disk::MemDisk;
use ld_register::{FaultyRegister, RegisterFault};
use std::alloc::Global;
use std::test::Fail;

fn new_register(alloc: Global) -> Result<FaultyRegister<MemDisk>, RegisterFault> {
    Ok(FaultyRegister::new(alloc, new_disk(alloc)?))
}

/// A register of whose log 1 one epoch was handed out.
fn with_epoch(alloc: Global) -> Result<FaultyRegister<MemDisk>, RegisterFault> {
    let mut register = new_register(alloc)?;
    let _ = epoch(alloc, &mut register, 1)?;
    Ok(register)
}

/// What is told after a change that is told to fail, and is made or not; 100 where it doesn't fail.
fn told_after(alloc: Global, change: Change, done: bool) -> Result<u32, RegisterFault> {
    let mut register = with_epoch(alloc)?;
    register.arm(1, done);
    if make(alloc, &mut register, change) != Err(RegisterFault::Failed) {
        return Ok(100);
    }
    told(alloc, &mut register, change)
}

#[test]
fn a_change_fails_and_is_made_or_not(rt: HostRuntime) -> Result<(), Fail> {
    for (change, before, after) in CHANGES {
        for (done, expected) in [(false, before), (true, after)] {
            assert_eq!(rt; told_after(rt.alloc(), change, done), Ok(expected));
        }
    }
    Ok(())
}

/// A draw, the fault of an activation, and the next draw, where the second change fails.
fn second_fails(
    alloc: Global,
) -> Result<((u32, usize), Option<RegisterFault>, (u32, usize)), RegisterFault> {
    let mut register = new_register(alloc)?;
    register.arm(2, false);
    let first = drawn(alloc, &mut register)?;
    let fault = epoch(alloc, &mut register, 1).err();
    Ok((first, fault, drawn(alloc, &mut register)?))
}

#[test]
fn the_second_change_fails(rt: HostRuntime) -> Result<(), Fail> {
    let failed = Some(RegisterFault::Failed);
    assert_eq!(rt; second_fails(rt.alloc()), Ok(((1, 0), failed, (2, 0))));
    Ok(())
}

/// The faults of a close of epoch 1 and of an activation behind it, the first change of the register that fails.
fn faults_of(
    alloc: Global,
    register: &mut FaultyRegister<MemDisk>,
    short: bool,
) -> [Option<RegisterFault>; 2] {
    register.arm(1, true);
    let fault = close(alloc, register, short).err();
    [fault, epoch(alloc, register, 1).err()]
}

/// The same of a register of which the epoch is closed, or of which it was handed out.
fn faults_of_closes(
    alloc: Global,
    closed: bool,
) -> Result<[Option<RegisterFault>; 2], RegisterFault> {
    let mut register = new_register(alloc)?;
    if closed {
        close(alloc, &mut register, false)?;
    } else {
        let _ = epoch(alloc, &mut register, 1)?;
    }
    Ok(faults_of(alloc, &mut register, !closed))
}

#[test]
fn a_close_that_is_behind_does_not_count(rt: HostRuntime) -> Result<(), Fail> {
    let behind = RegisterFault::Behind { lce: 1, next: None };
    let faults = [Some(behind), Some(RegisterFault::Failed)];
    assert_eq!(rt; faults_of_closes(rt.alloc(), true), Ok(faults));
    Ok(())
}

#[test]
fn a_close_that_is_overtaken_does_not_count(rt: HostRuntime) -> Result<(), Fail> {
    let overtaken = RegisterFault::Overtaken(1);
    let faults = [Some(overtaken), Some(RegisterFault::Failed)];
    assert_eq!(rt; faults_of_closes(rt.alloc(), false), Ok(faults));
    Ok(())
}

/// In how many epochs a spare takes the place of a member before epoch 1 is closed, the fault of the same behind that, where it
/// fails and is made or not; and the swaps that are shown then, beside whether the set of this number is.
fn swap_fails(
    alloc: Global,
    done: bool,
    bits: u16,
) -> Result<(u32, Option<RegisterFault>, (u32, bool)), RegisterFault> {
    let mut register = with_epoch(alloc)?;
    register.arm(2, done);
    let open = swap(alloc, &mut register)?;
    close(alloc, &mut register, false)?;
    let fault = swap(alloc, &mut register).err();
    Ok((open, fault, swaps(alloc, &mut register, 1, bits)?))
}

#[test]
fn a_swap_counts_where_it_changes_an_epoch(rt: HostRuntime) -> Result<(), Fail> {
    for (done, bits, count) in [(false, 5, 0), (true, 6, 1)] {
        let failed = Some(RegisterFault::Failed);
        assert_eq!(rt;
            swap_fails(rt.alloc(), done, bits),
            Ok((0, failed, (count, true)))
        );
    }
    Ok(())
}

/// The faults of an activation of a log more than there may be, and of a draw behind it, the first change that fails.
fn faults_past_the_last_log(alloc: Global) -> Result<[Option<RegisterFault>; 2], RegisterFault> {
    let mut register = new_register(alloc)?;
    for number in 1..65 {
        let _ = epoch(alloc, &mut register, number)?;
    }
    register.arm(1, false);
    let past = epoch(alloc, &mut register, 65).err();
    Ok([past, drawn(alloc, &mut register).err()])
}

#[test]
fn an_activation_past_the_last_log_does_not_count(rt: HostRuntime) -> Result<(), Fail> {
    assert_eq!(rt;
        faults_past_the_last_log(rt.alloc()),
        Ok([Some(RegisterFault::LogLimit), Some(RegisterFault::Failed)])
    );
    Ok(())
}
