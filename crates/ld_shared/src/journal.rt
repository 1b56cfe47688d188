// The journal of bodies, on a disk in memory, and what a register appended to it.
ghost use Rattle.std.specs.Prelude.{◌≡◌, ◌⊎◌, ◌<◌, ◌^◌, ◌++◌, List, ℕ, length, IfOk, IfSome, IsErrOf, OnOk, OnErr, Ok, None, Some, true};
ghost use Rattle.ld_disk.specs.Memory.{disk_plain};
ghost use Rattle.ld_disk.specs.Plain.{IsSound, Plain, reads_fine};
ghost use Rattle.ld_journal.specs.Format.{framed, IsCutShort};
ghost use Rattle.ld_register.specs.Calls.{IsFree};
ghost use Rattle.ld_shared.specs.Holds.{OnlyMemory};
ghost use Rattle.ld_shared.specs.Says.{IsFreeFault};
ghost use Rattle.ld_journal.specs.Rest.{IsParted, IsShut, BeginsWith};

use ld_disk::{Disk, MemDisk};
use ld_io::NoMemory;
use ld_journal::{JournalFault, read_record};
use ld_register::RegisterFault;
use std::alloc::{AllocError, Global};

/// Puts the record of a body behind the others.
pub(crate) fn push_record(journal: &mut Vec<u8>, body: &[u8]) -> Result<(), AllocError>
    requires { length body.now < 2 ^ 32 }
    ensures { OnOk result (journal.new.items ≡ journal.old.items ++ framed body.now) }
{
    let len = body.len() as u32;
    journal.extend_from_slice(&[1])?;
    journal.extend_from_slice(&len.to_be_bytes())?;
    journal.extend_from_slice(body)
}

/// A disk in memory with these bytes, which no fault is armed on.
pub(crate) fn disk_of(alloc: Global, bytes: &[u8]) -> Result<MemDisk, NoMemory>
    requires { 0 < length bytes.now }
    ensures sound { IfOk result (λ disk. IsSound (disk_plain disk)) }
    ensures bytes { IfOk result (λ disk. (disk_plain disk).state.bytes ≡ bytes.now) }
{
    let mut disk = MemDisk::new(alloc)?;
    disk.reserve(bytes.len() as u64, 2)?;
    let Ok(()) = disk.write_at(0, bytes) else {
        return Err(NoMemory);
    };
    let Ok(()) = disk.sync() else {
        return Err(NoMemory);
    };
    Ok(disk)
}

/// The body of the record that begins at an offset, where there is one.
fn body_at<D: Disk>(alloc: Global, disk: &mut D, at: u64) -> Result<Option<Vec<u8>>, JournalFault>
    ensures found { IfOk result (λ found. IfSome found (λ body. (front rest : List ℕ) → IsParted D.seen disk.old at front rest → BeginsWith body.items rest)) }
    ensures ended { result ≡ Ok None → (front rest : List ℕ) → IsParted D.seen disk.old at front rest → IsShut rest }
    ensures memory { (p : Plain) (front rest : List ℕ) → D.plain disk.old ≡ Some p → reads_fine p ≡ true → IsParted D.seen disk.old at front rest
        → (IsCutShort rest → ⊥) → OnErr result (IsErrOf result JournalFault.NoMemory) }
{
    let len = disk.len()?;
    let mut body = Vec::new(alloc);
    match read_record(disk, at, len, &mut body)? {
        Some(_) => Ok(Some(body)),
        None => Ok(None),
    }
}

/// The body of the record that a register appended behind this end of its journal, where it appended one.
pub(crate) fn appended<D: Disk>(
    alloc: Global,
    disk: &mut D,
    end: u64,
) -> Result<Option<Vec<u8>>, RegisterFault>
    ensures found { IfOk result (λ found. IfSome found (λ body. (front rest : List ℕ) → IsParted D.seen disk.old end front rest → BeginsWith body.items rest)) }
    ensures ended { result ≡ Ok None → (front rest : List ℕ) → IsParted D.seen disk.old end front rest → IsShut rest }
    ensures free { OnErr result (IsFree result) }
    ensures memory { (p : Plain) (front rest : List ℕ) → D.plain disk.old ≡ Some p → reads_fine p ≡ true → IsParted D.seen disk.old end front rest
        → (IsCutShort rest → ⊥) → OnlyMemory result }
{
    match body_at(alloc, disk, end) {
        Ok(found) => Ok(found),
        Err(JournalFault::NoMemory) => Err(RegisterFault::NoMemory),
        Err(_) => Err(RegisterFault::Failed),
    }
}

/// A refusal of a register on this disk, with the number of a record in place of the record's offset.
pub(crate) fn numbered<D: Disk + Drop>(
    alloc: Global,
    disk: D,
    fault: RegisterFault,
) -> RegisterFault
    ensures told { (result ≡ fault) ⊎ IsFreeFault result }
    ensures same { (result ≡ fault) ⊎ ((place : ℕ) × (fault ≡ RegisterFault.Damaged place)) }
{
    let RegisterFault::Damaged(place) = fault else {
        return fault;
    };
    let mut disk = disk;
    match records_before(alloc, &mut disk, place) {
        Ok(number) => RegisterFault::Damaged(number),
        Err(_) => RegisterFault::NoMemory,
    }
}

/// How many records of a journal stand before an offset.
fn records_before<D: Disk>(alloc: Global, disk: &mut D, place: u64) -> Result<u64, JournalFault> {
    let len = disk.len()?;
    let mut at = 0;
    let mut body = Vec::new(alloc);
    for number in 0..u64::MAX {
        if at >= place {
            return Ok(number);
        }
        match read_record(disk, at, len, &mut body)? {
            Some(next) => at = next,
            None => return Ok(number),
        }
    }
    Ok(u64::MAX)
}
