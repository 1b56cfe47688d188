// The records that a register on a disk writes, and what it shows of a journal that lies there.
ghost use Rattle.std.specs.Prelude.{◌≤◌, length};

use crate::register::asking::{
    again, close, closes_before, fixes, grants, loss, new_disk, new_register, shows, spec_over,
    swaps,
};
use ld_disk::{Disk, MemDisk};
use ld_register::{DiskRegister, Register, RegisterFault};
use std::alloc::Global;
use std::test::Fail;

/// A register on a disk of these bytes.
fn register_of(alloc: Global, bytes: &[u8]) -> Result<DiskRegister<MemDisk>, RegisterFault>
    requires { length bytes.now ≤ 80 }
{
    let mut disk = new_disk(alloc)?;
    let Ok(()) = disk.reserve(80, 1) else {
        return Err(RegisterFault::NoMemory);
    };
    let Ok(()) = disk.write_at(0, bytes) else {
        return Err(RegisterFault::NoMemory);
    };
    Ok(DiskRegister::new(alloc, disk))
}

/// Whether the register's disk has these bytes.
fn has_bytes(register: DiskRegister<MemDisk>, expected: &[u8; 40]) -> Result<bool, Fail> {
    let mut disk = register.into_disk();
    let mut bytes = [9; 40];
    let _ = disk.read(0, &mut bytes)?;
    Ok(bytes == *expected)
}

/// Whether the activation of a log over the nodes 1, 3 and 16 leaves these bytes.
fn activates_with(alloc: Global, bytes: &[u8; 40]) -> Result<bool, Fail> {
    let mut register = new_register(alloc)?;
    let spec = spec_over(1, 0x8005)?;
    let is_granted = register.activate(alloc, &spec).is_ok();
    Ok(is_granted && has_bytes(register, bytes)?)
}

#[test]
fn an_activation_is_a_record_of_thirteen_bytes(rt: HostRuntime) -> Result<(), Fail> {
    let bytes = [
        1, 0, 0, 0, 13, 19, 0, 0, 0, 1, 0, 0, 0, 1, 128, 5, 1, 2, 0, 9, //
        9, 9, 9, 9, 9, 9, 9, 9, 9, 9, 9, 9, 9, 9, 9, 9, 9, 9, 9, 9,
    ];
    assert!(rt; activates_with(rt.alloc(), &bytes)?);
    Ok(())
}

/// Whether the close of an epoch leaves these bytes.
fn closes_with(alloc: Global, bytes: &[u8; 40]) -> Result<bool, Fail> {
    let mut register = new_register(alloc)?;
    close(alloc, &mut register, false)?;
    has_bytes(register, bytes)
}

#[test]
fn a_close_is_a_record_of_thirty_bytes(rt: HostRuntime) -> Result<(), Fail> {
    let bytes = [
        1, 0, 0, 0, 30, 20, 0, 0, 0, 1, 0, 0, 0, 1, 0, 0, 0, 2, 0, 0, 0, 0, //
        0, 0, 0, 0, 0, 0, 0, 0, 0, 0, 0, 1, 1, 0, 9, 9, 9, 9,
    ];
    assert!(rt; closes_with(rt.alloc(), &bytes)?);
    Ok(())
}

// An activation as it was written before sets were.
const OLD: [u8; 15] = [1, 0, 0, 0, 9, 16, 0, 0, 0, 1, 0, 0, 0, 1, 0];

/// Whether the register of that shows an epoch with no set, grants the next one with a set, and shows both once it is loaded again,
/// also where the first one is closed.
fn goes_on(alloc: Global) -> Result<[bool; 5], RegisterFault> {
    let mut register = register_of(alloc, &OLD)?;
    let shown = shows(alloc, &mut register, 0, 0)?;
    let granted = grants(alloc, &mut register, 5, 2, 0)?;
    let mut register = again(alloc, register);
    Ok([
        shown,
        granted,
        fixes(alloc, &mut register, 1, 0)?,
        fixes(alloc, &mut register, 2, 5)?,
        closes_before(alloc, &mut register, 5)?,
    ])
}

#[test]
fn an_old_journal_goes_on(rt: HostRuntime) -> Result<(), Fail> {
    assert_eq!(rt; goes_on(rt.alloc()), Ok([true; 5]));
    Ok(())
}

// A close that lost something, and behind it one as it was written before losses were.
const NEW_AND_OLD: [u8; 70] = [
    1, 0, 0, 0, 30, 20, 0, 0, 0, 1, 0, 0, 0, 1, 0, 0, 0, 2, 0, 0, 0, 0, //
    0, 0, 0, 0, 0, 0, 0, 0, 0, 0, 0, 1, 1, //
    1, 0, 0, 0, 29, 17, 0, 0, 0, 1, 0, 0, 0, 2, 0, 0, 0, 3, 0, 0, 0, 0, //
    0, 0, 0, 0, 0, 0, 0, 0, 0, 0, 0, 1, 0,
];

// The other way round.
const OLD_AND_NEW: [u8; 70] = [
    1, 0, 0, 0, 29, 17, 0, 0, 0, 1, 0, 0, 0, 1, 0, 0, 0, 2, 0, 0, 0, 0, //
    0, 0, 0, 0, 0, 0, 0, 0, 0, 0, 0, 1, //
    1, 0, 0, 0, 30, 20, 0, 0, 0, 1, 0, 0, 0, 2, 0, 0, 0, 3, 0, 0, 0, 0, //
    0, 0, 0, 0, 0, 0, 0, 0, 0, 0, 0, 1, 1, 0,
];

/// What a register on a disk of these bytes shows of what is lost in the epochs 1 to 3.
fn losses(alloc: Global, bytes: &[u8]) -> Result<[u32; 3], RegisterFault>
    requires { length bytes.now ≤ 80 }
{
    let mut register = register_of(alloc, bytes)?;
    Ok([
        loss(alloc, &mut register, 1)?,
        loss(alloc, &mut register, 2)?,
        loss(alloc, &mut register, 3)?,
    ])
}

#[test]
fn old_and_new_closes_may_follow_each_other(rt: HostRuntime) -> Result<(), Fail> {
    assert_eq!(rt; losses(rt.alloc(), &NEW_AND_OLD), Ok([2, 1, 0]));
    Ok(())
}

#[test]
fn an_old_close_loses_nothing(rt: HostRuntime) -> Result<(), Fail> {
    assert_eq!(rt; losses(rt.alloc(), &OLD_AND_NEW), Ok([1, 2, 0]));
    Ok(())
}

/// Whether a register finds a disk of these bytes damaged from this offset on.
fn is_damaged_at(alloc: Global, bytes: &[u8], place: u64) -> Result<bool, RegisterFault>
    requires { length bytes.now ≤ 80 }
{
    let mut register = register_of(alloc, bytes)?;
    Ok(loss(alloc, &mut register, 1) == Err(RegisterFault::Damaged(place)))
}

#[test]
fn a_close_with_another_loss_than_0_or_1_is_damaged(rt: HostRuntime) -> Result<(), Fail> {
    let bytes = [
        1, 0, 0, 0, 30, 20, 0, 0, 0, 1, 0, 0, 0, 1, 0, 0, 0, 2, 0, 0, 0, 0, //
        0, 0, 0, 0, 0, 0, 0, 0, 0, 0, 0, 1, 2, 0,
    ];
    assert_eq!(rt; is_damaged_at(rt.alloc(), &bytes, 0), Ok(true));
    Ok(())
}

/// Whether an activation with this factor and so many extras, behind an old one, is damaged.
fn is_out_of_bounds(alloc: Global, r: u8, extras: u8) -> Result<bool, RegisterFault> {
    let bytes = [
        1, 0, 0, 0, 9, 16, 0, 0, 0, 1, 0, 0, 0, 1, //
        1, 0, 0, 0, 13, 19, 0, 0, 0, 1, 0, 0, 0, 2, 0, 5, r, extras, 0,
    ];
    is_damaged_at(alloc, &bytes, 14)
}

#[test]
fn an_activation_out_of_bounds_is_damaged(rt: HostRuntime) -> Result<(), Fail> {
    for (r, extras) in [(0, 0), (3, 0), (1, 4)] {
        assert_eq!(rt; is_out_of_bounds(rt.alloc(), r, extras), Ok(true));
    }
    Ok(())
}

// An activation, the close of its epoch, and a swap.
const SWAPPED: [u8; 70] = [
    1, 0, 0, 0, 13, 19, 0, 0, 0, 1, 0, 0, 0, 1, 0, 5, 1, 2, //
    1, 0, 0, 0, 30, 20, 0, 0, 0, 1, 0, 0, 0, 1, 0, 0, 0, 2, 0, 0, 0, 0, //
    0, 0, 0, 0, 0, 0, 0, 0, 0, 0, 0, 1, 0, //
    1, 0, 0, 0, 11, 21, 0, 0, 0, 1, 0, 0, 0, 1, 1, 2, 0,
];

/// How many swaps are shown of it, and whether the spare is.
fn shows_swapped(alloc: Global) -> Result<(u32, bool), RegisterFault> {
    let mut register = register_of(alloc, &SWAPPED)?;
    swaps(alloc, &mut register, 1, 6)
}

#[test]
fn a_swap_is_read_where_it_changes_an_epoch(rt: HostRuntime) -> Result<(), Fail> {
    assert_eq!(rt; shows_swapped(rt.alloc()), Ok((1, true)));
    Ok(())
}

#[test]
fn a_swap_that_changes_no_epoch_is_damaged(rt: HostRuntime) -> Result<(), Fail> {
    // The epoch isn't closed.
    let bytes = [
        1, 0, 0, 0, 13, 19, 0, 0, 0, 1, 0, 0, 0, 1, 0, 5, 1, 2, //
        1, 0, 0, 0, 11, 21, 0, 0, 0, 1, 0, 0, 0, 1, 1, 2, 0,
    ];
    assert_eq!(rt; is_damaged_at(rt.alloc(), &bytes, 18), Ok(true));
    Ok(())
}
