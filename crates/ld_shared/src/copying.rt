// The records of a register's journal, made where there are none.
ghost use Rattle.std.specs.Prelude.{◌≡◌, ◌≢◌, ◌⊎◌, ◌≤◌, ◌<◌, ◌+◌, ◌++◌, ◌∷◌, [], ℕ, List, Ok, Err, Some, None, IfOk, OnOk, OnErr, IsOk, IsErrOf, length, map, take, true, false};
ghost use Rattle.ld_disk.specs.Moments.{Unchanged};
ghost use Rattle.ld_disk.specs.Plain.{Plain, reads_fine};
ghost use Rattle.ld_io.specs.Causes.{Rose};
ghost use Rattle.ld_journal.specs.Format.{IsJournal};
ghost use Rattle.ld_msg.specs.Register.{Register as Contents, empty_register};
ghost use Rattle.ld_records.specs.Growth.{Grows, IsAt};
ghost use Rattle.ld_register.specs.Changes.{Leads};
ghost use Rattle.ld_register.specs.Stands.{IsDamaged, StandsFor};
ghost use Rattle.ld_shared.specs.Copies.{AreCopies, HasCopied, IsCopied, IsOther, IsOtherAt, IsOtherThan, IsSameAt, MakesAlone, MakesOneAlone, copies, copy_of};

use crate::journal::disk_of;
use crate::mark::Mark;
use ld_disk::Disk;
use ld_ids::LogId;
use ld_io::Failed;
use ld_journal::read_record;
use ld_records::{Appended, Records, RecordsFault, found_as, value_at};
use ld_register::{DiskRegister, Register, RegisterFault, View};
use std::alloc::{AllocError, Global};
use thiserror::Error;

/// Why a copy refuses.
#[derive(Clone, Copy, Debug, PartialEq, Eq, Error)]
pub enum CopyFault {
    /// A call of the disk failed. No record was made.
    #[error("the disk failed")]
    Disk,
    /// The record at this offset of the disk is cut short or no next change of a register, or the disk has no byte. No record was made.
    #[error("the record at {0} is no change of a register")]
    Damaged(u64),
    /// The record of this number is there, and is none of the copy's.
    #[error("record {0} is another one")]
    Taken(u64),
    /// A call to the records failed. The first records of the copy are made, or none.
    #[error("a call to the records failed")]
    Failed,
    /// What stands in the place of the record of this number is none.
    #[error("record {0} is none")]
    NoRecord(u64),
    /// There is no memory left. The first records of the copy are made, or none.
    #[error("out of memory")]
    NoMemory,
}

impl From<AllocError> for CopyFault {
    ghost use Rattle.ld_shared.specs.declared.copying.CopyFault.TheVariants.{NoMemory};

    ghost from_gives = { λ _ e. e ≡ NoMemory };

    fn from(_: AllocError) -> CopyFault {
        CopyFault::NoMemory
    }
}

impl From<Failed> for CopyFault {
    ghost use Rattle.ld_shared.specs.declared.copying.CopyFault.TheVariants.{Disk};

    ghost from_gives = { λ _ e. e ≡ Disk };

    fn from(_: Failed) -> CopyFault {
        CopyFault::Disk
    }
}

/// Makes a record for each record of the journal of a register on a disk, in their order, and says how many they are. Each has
/// the body of the journal's record, of old formats too; before it stand the mark of a copy, 16 zero bytes, and the record's
/// number in 8 bytes. The disk is only read.
///
/// Records of the same copy that are there already count as made, so that a copy that was broken off is ended by the next call.
/// Where other records are there, or further ones, it refuses with `Taken`.
///
/// The journal is read whole, and is found to be a register's, before the first record is made.
pub fn copy<D: Disk, C: Records>(alloc: Global, from: &mut D, to: &mut C) -> Result<u64, CopyFault>
    ensures copied { (n : ℕ) (bytes : List ℕ) → result ≡ Ok n → D.seen from.old ≡ Some bytes → IsCopied bytes n (C.list to.new) }
    ensures grows { Grows (C.list to.old) (C.list to.new) }
    ensures same { Unchanged D.seen D.may_leave D.moment D.left_since from.old from.new }
    ensures disk { IsErrOf result CopyFault.Disk → Rose (D.faults from.old) (D.faults from.new) × (C.list to.new ≡ C.list to.old) }
    ensures damaged { (place : ℕ) (bytes : List ℕ) → IsErrOf result (CopyFault.Damaged place) → D.seen from.old ≡ Some bytes → IsDamaged place bytes × (C.list to.new ≡ C.list to.old) }
    ensures taken { (n : ℕ) (bytes : List ℕ) → IsErrOf result (CopyFault.Taken n) → D.seen from.old ≡ Some bytes → IsOtherThan bytes n (C.list to.new) }
    ensures alone { (bytes : List ℕ) (bodies : List (List ℕ)) (c : Contents) → C.sole to.old → D.seen from.old ≡ Some bytes → IsJournal bodies bytes → Leads empty_register bodies c
        → C.sole to.new × MakesAlone (copies bodies) (C.list to.old) (C.list to.new) result }
    ensures reads { (p : Plain) → D.plain from.old ≡ Some p → reads_fine p ≡ true → result ≢ Err CopyFault.Disk }
{
    let bytes = bytes_of(alloc, from)?;
    let values = values_of(alloc, &bytes)?;
    make_all(alloc, &values, to)
}

/// All bytes of a disk.
#[tactic(auto, using(ld_disk::proofs::Fine::fine_reads))]
fn bytes_of<D: Disk>(alloc: Global, disk: &mut D) -> Result<Vec<u8>, CopyFault>
    ensures bytes { (bytes : List ℕ) → D.seen disk.old ≡ Some bytes → IfOk result (λ found. found.items ≡ bytes) }
    ensures same { Unchanged D.seen D.may_leave D.moment D.left_since disk.old disk.new }
    ensures refused { OnErr result (IsErrOf result CopyFault.NoMemory ⊎ IsErrOf result CopyFault.Disk) }
    ensures disk { IsErrOf result CopyFault.Disk → Rose (D.faults disk.old) (D.faults disk.new) }
    ensures reads { (p : Plain) → D.plain disk.old ≡ Some p → reads_fine p ≡ true → result ≢ Err CopyFault.Disk }
{
    let len = disk.len()?;
    let mut bytes = Vec::new(alloc);
    bytes.resize(len as usize, 0)?;
    let count = disk.read(0, &mut bytes)?;
    bytes.truncate(count);
    Ok(bytes)
}

/// The values of the records of a copy of the journal in these bytes, where it is a register's.
fn values_of(alloc: Global, bytes: &[u8]) -> Result<Vec<Vec<u8>>, CopyFault>
    ensures values { IfOk result (λ values. AreCopies bytes.now (map (λ v. v.items) values.items)) }
    ensures stands { OnOk result ((c : Contents) × StandsFor bytes.now c) }
    ensures damaged { (place : ℕ) → IsErrOf result (CopyFault.Damaged place) → IsDamaged place bytes.now }
    ensures refused { OnErr result (IsErrOf result CopyFault.NoMemory ⊎ ((place : ℕ) × IsErrOf result (CopyFault.Damaged place))) }
    ensures whole { (c : Contents) → StandsFor bytes.now c → OnErr result (IsErrOf result CopyFault.NoMemory) }
{
    if bytes.is_empty() {
        return Err(CopyFault::Damaged(0));
    }
    check(alloc, bytes)?;
    let Ok(disk) = disk_of(alloc, bytes) else {
        return Err(CopyFault::NoMemory);
    };
    let mut disk = disk;
    Ok(copied(alloc, &mut disk, bytes.len() as u64)?)
}

/// Finds out whether bytes are a register's.
fn check(alloc: Global, bytes: &[u8]) -> Result<(), CopyFault>
    requires { 0 < length bytes.now }
    ensures stands { OnOk result ((c : Contents) × StandsFor bytes.now c) }
    ensures damaged { (place : ℕ) → IsErrOf result (CopyFault.Damaged place) → IsDamaged place bytes.now }
    ensures refused { OnErr result (IsErrOf result CopyFault.NoMemory ⊎ ((place : ℕ) × IsErrOf result (CopyFault.Damaged place))) }
    ensures whole { (c : Contents) → StandsFor bytes.now c → OnErr result (IsErrOf result CopyFault.NoMemory) }
{
    let Some(log) = LogId::new(1) else {
        return Err(CopyFault::NoMemory);
    };
    let Ok(disk) = disk_of(alloc, bytes) else {
        return Err(CopyFault::NoMemory);
    };
    let mut register = DiskRegister::new(alloc, disk);
    let answer = register.look(alloc, log, 0);
    drop(register);
    looked(answer)
}

/// What a look at a register in memory says of its bytes.
fn looked(answer: Result<View, RegisterFault>) -> Result<(), CopyFault>
    ensures whole { OnOk result (IsOk answer) }
    ensures fine { IsOk answer → IsOk result }
    ensures damaged { (place : ℕ) → IsErrOf result (CopyFault.Damaged place) → IsErrOf answer (RegisterFault.Damaged place) }
    ensures refused { OnErr result (IsErrOf result CopyFault.NoMemory ⊎ ((place : ℕ) × IsErrOf result (CopyFault.Damaged place))) }
    ensures memory { IsErrOf answer RegisterFault.NoMemory → IsErrOf result CopyFault.NoMemory }
{
    match answer {
        Ok(_) => Ok(()),
        Err(fault) => match fault {
            RegisterFault::Damaged(place) => Err(CopyFault::Damaged(place)),
            _ => Err(CopyFault::NoMemory),
        },
    }
}

/// The values of the records of a copy of the journal on a disk of this length.
fn copied<D: Disk>(alloc: Global, disk: &mut D, len: u64) -> Result<Vec<Vec<u8>>, AllocError>
    ensures { (bytes : List ℕ) → D.seen disk.old ≡ Some bytes → 0 < length bytes → len ≡ length bytes → IfOk result (λ values. AreCopies bytes (map (λ v. v.items) values.items)) }
{
    let mut values = Vec::new(alloc);
    let mut at = 0;
    'records: for number in 0..u64::MAX {
        match copy_record(alloc, disk, at, len, number, &mut values) {
            Ok(Some(next)) => at = next,
            Ok(None) => return Ok(values),
            Err(_) => return Err(AllocError),
        }
    }
    Err(AllocError)
}

/// Puts the value of the copy of the record at an offset behind the others, and gives the offset behind it; none where the
/// journal ends there.
fn copy_record<D: Disk>(
    alloc: Global,
    disk: &mut D,
    at: u64,
    len: u64,
    number: u64,
    values: &mut Vec<Vec<u8>>,
) -> Result<Option<u64>, AllocError>
    ensures more { (next : ℕ) (bytes : List ℕ) → result ≡ Ok (Some next) → D.seen disk.old ≡ Some bytes → len ≡ length bytes
        → HasCopied bytes at number (map (λ v. v.items) values.old.items) → HasCopied bytes next (number + 1) (map (λ v. v.items) values.new.items) }
    ensures ended { (bytes : List ℕ) → result ≡ Ok None → D.seen disk.old ≡ Some bytes → HasCopied bytes at number (map (λ v. v.items) values.old.items)
        → AreCopies bytes (map (λ v. v.items) values.new.items) }
    ensures same { D.seen disk.new ≡ D.seen disk.old }
{
    let mut body = Vec::new(alloc);
    match read_record(disk, at, len, &mut body) {
        Ok(Some(next)) => push_found(alloc, values, number, &body, next),
        Ok(None) => Ok(None),
        Err(_) => Err(AllocError),
    }
}

/// Puts the value of the record of a number with this body behind the others, and gives the offset behind the journal's record.
fn push_found(
    alloc: Global,
    values: &mut Vec<Vec<u8>>,
    number: u64,
    body: &[u8],
    next: u64,
) -> Result<Option<u64>, AllocError>
    ensures pushed { (n : ℕ) → result ≡ Ok (Some n) → (n ≡ next) × (map (λ v. v.items) values.new.items ≡ map (λ v. v.items) values.old.items ++ copy_of number body.now ∷ []) }
    ensures some { result ≢ Ok None }
{
    push_copy(alloc, values, number, body)?;
    Ok(Some(next))
}

/// Puts the value of the record of a number with this body behind the others.
fn push_copy(
    alloc: Global,
    values: &mut Vec<Vec<u8>>,
    number: u64,
    body: &[u8],
) -> Result<(), AllocError>
    ensures { OnOk result (map (λ v. v.items) values.new.items ≡ map (λ v. v.items) values.old.items ++ copy_of number body.now ∷ []) }
{
    let value = Mark::of_copy(number).value(alloc, body)?;
    push_value(values, value)
}

/// Puts a value behind the others.
fn push_value(values: &mut Vec<Vec<u8>>, value: Vec<u8>) -> Result<(), AllocError>
    ensures { OnOk result (map (λ v. v.items) values.new.items ≡ map (λ v. v.items) values.old.items ++ value.items ∷ []) }
{
    match values.push(value) {
        Ok(()) => Ok(()),
        Err(_) => Err(AllocError),
    }
}

/// Makes the records of these values, as far as they aren't there, and says how many they are.
fn make_all<C: Records>(alloc: Global, values: &[Vec<u8>], to: &mut C) -> Result<u64, CopyFault>
    ensures all { (n : ℕ) → result ≡ Ok n → (n ≡ length values.now) × (C.list to.new ≡ map (λ v. v.items) values.now) }
    ensures grows { Grows (C.list to.old) (C.list to.new) }
    ensures taken { (n : ℕ) → IsErrOf result (CopyFault.Taken n) → IsOther n (map (λ v. v.items) values.now) (C.list to.new) }
    ensures disk { result ≢ Err CopyFault.Disk }
    ensures damaged { (place : ℕ) → result ≢ Err (CopyFault.Damaged place) }
    ensures alone { C.sole to.old → C.sole to.new × MakesAlone (map (λ v. v.items) values.now) (C.list to.old) (C.list to.new) result }
{
    'records: for number in 0..u64::MAX {
        match make_one(alloc, values, number, to) {
            Ok(true) => {}
            Ok(false) => return Ok(number),
            Err(fault) => return Err(fault),
        }
    }
    Err(CopyFault::NoMemory)
}

/// Makes the record of a number, where it isn't there. False where there is no such value, and no such record.
fn make_one<C: Records>(
    alloc: Global,
    values: &[Vec<u8>],
    number: u64,
    to: &mut C,
) -> Result<bool, CopyFault>
    ensures grows { Grows (C.list to.old) (C.list to.new) }
    ensures same { result ≡ Ok true → IsSameAt number (map (λ v. v.items) values.now) (C.list to.new) }
    ensures ended { result ≡ Ok false → (length values.now ≤ number) × (length (C.list to.new) ≤ number) }
    ensures taken { (n : ℕ) → IsErrOf result (CopyFault.Taken n) → (n ≡ number) × IsOtherAt number (map (λ v. v.items) values.now) (C.list to.new) }
    ensures disk { result ≢ Err CopyFault.Disk }
    ensures damaged { (place : ℕ) → result ≢ Err (CopyFault.Damaged place) }
    ensures alone { C.sole to.old → number ≤ length (C.list to.old) → C.sole to.new × MakesOneAlone number (map (λ v. v.items) values.now) (C.list to.old) (C.list to.new) result }
{
    let mut found = Vec::new(alloc);
    match to.read(alloc, number, &mut found) {
        Ok(true) => is_same(values, number, &found),
        Ok(false) => append_one(alloc, values, number, to),
        Err(fault) => Err(refused(fault)),
    }
}

/// Whether the value that was found is the one of this number.
fn is_same(values: &[Vec<u8>], number: u64, found: &[u8]) -> Result<bool, CopyFault>
    ensures same { result ≡ Ok true → IsAt number found.now (map (λ v. v.items) values.now) }
    ensures some { result ≢ Ok false }
    ensures taken { OnErr result (IsErrOf result (CopyFault.Taken number) × (IsAt number found.now (map (λ v. v.items) values.now) → ⊥)) }
{
    let Some(value) = value_at(values, number) else {
        return Err(CopyFault::Taken(number));
    };
    match found_as(value, found) {
        Appended::Made => Ok(true),
        Appended::Taken => Err(CopyFault::Taken(number)),
    }
}

/// Appends the record of a number. False where there is no such value.
fn append_one<C: Records>(
    alloc: Global,
    values: &[Vec<u8>],
    number: u64,
    to: &mut C,
) -> Result<bool, CopyFault>
    ensures grows { Grows (C.list to.old) (C.list to.new) }
    ensures same { result ≡ Ok true → IsSameAt number (map (λ v. v.items) values.now) (C.list to.new) }
    ensures ended { result ≡ Ok false → (length values.now ≤ number) × (C.list to.new ≡ C.list to.old) }
    ensures taken { (n : ℕ) → IsErrOf result (CopyFault.Taken n) → (n ≡ number) × IsOtherAt number (map (λ v. v.items) values.now) (C.list to.new) }
    ensures disk { result ≢ Err CopyFault.Disk }
    ensures damaged { (place : ℕ) → result ≢ Err (CopyFault.Damaged place) }
    ensures alone { C.sole to.old → number ≡ length (C.list to.old) → C.sole to.new × MakesOneAlone number (map (λ v. v.items) values.now) (C.list to.old) (C.list to.new) result }
{
    let Some(value) = value_at(values, number) else {
        return Ok(false);
    };
    match to.append(alloc, number, value) {
        Ok(Appended::Made) => Ok(true),
        Ok(Appended::Taken) => Err(CopyFault::Taken(number)),
        Err(fault) => Err(refused(fault)),
    }
}

/// A fault of the records as a copy's.
fn refused(fault: RecordsFault) -> CopyFault
    ensures memory { fault ≡ RecordsFault.NoMemory → result ≡ CopyFault.NoMemory }
    ensures disk { result ≢ CopyFault.Disk }
    ensures damaged { (place : ℕ) → result ≢ CopyFault.Damaged place }
    ensures taken { (n : ℕ) → result ≢ CopyFault.Taken n }
{
    match fault {
        RecordsFault::Failed => CopyFault::Failed,
        RecordsFault::Damaged(number) => CopyFault::NoRecord(number),
        RecordsFault::NoMemory => CopyFault::NoMemory,
    }
}
