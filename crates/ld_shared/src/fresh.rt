// The register in memory that the records there are now lead to.
ghost use Rattle.std.specs.Prelude.{◌≡◌, ◌<◌, ◌+◌, ◌^◌, ◌∷◌, ◌++◌, [], ℕ, List, length, take, true, Ok, IfOk, OnErr};
ghost use Rattle.ld_journal.specs.Format.{records};
ghost use Rattle.ld_msg.specs.Register.{Register as Contents, empty_register};
ghost use Rattle.ld_records.specs.Growth.{Grows};
ghost use Rattle.ld_register.specs.Calls.{IsFree};
ghost use Rattle.ld_register.specs.Changes.{Leads};
ghost use Rattle.ld_shared.specs.Bodies.{bodies_of, body_in};
ghost use Rattle.ld_shared.specs.Fresh.{IsFresh, HasRead};
ghost use Rattle.ld_shared.specs.Holds.{OnlyMemory};
ghost use Rattle.ld_shared.specs.Says.{IsFreeFault};

use crate::asking::Copy;
use crate::journal::{disk_of, push_record};
use ld_records::{Records, RecordsFault};
use ld_register::{DiskRegister, RegisterFault};
use std::alloc::Global;

/// How many bytes stand before a body.
pub(crate) const MARK: usize = 24;

/// A register in memory, where its journal ends, and how many records it has.
#[derive(Drop)]
pub(crate) struct Fresh {
    pub copy: Copy,
    pub end: u64,
    pub number: u64,
}

/// The register that the records lead to.
pub(crate) fn fresh_of<C: Records>(alloc: Global, records: &mut C) -> Result<Fresh, RegisterFault>
    ensures fresh { IfOk result (λ fresh. IsFresh (C.list records.new) fresh) }
    ensures grows { Grows (C.list records.old) (C.list records.new) }
    ensures free { OnErr result (IsFree result) }
    ensures alone { C.sole records.old → C.sole records.new × (C.list records.new ≡ C.list records.old) }
    ensures memory { (c : Contents) → C.sole records.old → Leads empty_register (bodies_of (C.list records.old)) c → OnlyMemory result }
{
    let mut journal = Vec::new(alloc);
    let number = read_all(alloc, records, &mut journal)?;
    let end = journal.len() as u64;
    journal.extend_from_slice(&[0])?;
    match disk_of(alloc, &journal) {
        Ok(disk) => Ok(Fresh {
            copy: DiskRegister::new(alloc, disk),
            end,
            number,
        }),
        Err(_) => Err(RegisterFault::NoMemory),
    }
}

/// Puts the records' bodies into a journal, and says how many these are.
fn read_all<C: Records>(
    alloc: Global,
    records: &mut C,
    journal: &mut Vec<u8>,
) -> Result<u64, RegisterFault>
    requires { journal.old.items ≡ [] }
    ensures all { IfOk result (λ n. HasRead n (C.list records.new) journal.new.items × (n ≡ length (C.list records.new))) }
    ensures grows { Grows (C.list records.old) (C.list records.new) }
    ensures free { OnErr result (IsFree result) }
    ensures alone { C.sole records.old → C.sole records.new × (C.list records.new ≡ C.list records.old) }
    ensures memory { (c : Contents) → C.sole records.old → Leads empty_register (bodies_of (C.list records.old)) c → OnlyMemory result }
{
    let mut value = Vec::new(alloc);
    'records: for number in 0..u64::MAX {
        match records.read(alloc, number, &mut value) {
            Ok(true) => push_body(journal, &value, number)?,
            Ok(false) => return Ok(number),
            Err(fault) => return Err(refused(fault)),
        }
    }
    Err(RegisterFault::NoMemory)
}

/// Puts a value's body behind the others.
fn push_body(journal: &mut Vec<u8>, value: &[u8], number: u64) -> Result<(), RegisterFault>
    ensures pushed { (n : ℕ) (values : List (List ℕ)) → result ≡ Ok tt → HasRead n values journal.old.items → take (n + 1) values ≡ take n values ++ value.now ∷ [] → HasRead (n + 1) values journal.new.items }
    ensures free { OnErr result (IsFree result) }
    ensures memory { length (body_in value.now) < 2 ^ 32 → OnlyMemory result }
{
    let body = body_of(value);
    if body.len() > u32::MAX as usize {
        return Err(RegisterFault::Damaged(number));
    }
    push_record(journal, body)?;
    Ok(())
}

/// The body in a value: an empty one where the value is shorter than a mark.
fn body_of(value: &[u8]) -> &[u8]
    ensures { result.now ≡ body_in value.now }
{
    if value.len() < MARK {
        return &[];
    }
    &value[MARK..]
}

/// A fault of the records as a register's.
pub(crate) fn refused(fault: RecordsFault) -> RegisterFault
    ensures free { IsFreeFault result }
    ensures memory { fault ≡ RecordsFault.NoMemory → result ≡ RegisterFault.NoMemory }
{
    match fault {
        RecordsFault::Failed => RegisterFault::Failed,
        RecordsFault::Damaged(number) => RegisterFault::Damaged(number),
        RecordsFault::NoMemory => RegisterFault::NoMemory,
    }
}
