// How a journal is read: the sync and the length at first, and then a record at a time.
ghost use Rattle.std.specs.Prelude.{◌≡◌, ◌≢◌, ◌<◌, ◌≤◌, ◌+◌, ◌^◌, ◌++◌, ◌∷◌, [], List, ℕ, length, take, drop, IfOk, OnOk, OnErr, IsOk, IfSome, IsErrOf, Ok, Err, Some, None, true, false, ◌⊎◌, ◌↔◌};
ghost use Rattle.std.specs.Int.{w32, to_be_bytes};
ghost use Rattle.ld_io.specs.Causes.{Rose};
ghost use Rattle.ld_disk.specs.Images.{Only, IsHonest};
ghost use Rattle.ld_disk.specs.Moments.{LeavesOnly, Unchanged};
ghost use Rattle.ld_disk.specs.Plain.{Plain, after_call, succeeds, reads_fine};
ghost use Rattle.ld_journal.specs.Format.{IsCutShort};
ghost use Rattle.ld_journal.specs.Rest.{IsParted, IsShut, BeginsWith};

use crate::JournalFault;
use ld_disk::Disk;
use std::alloc::AllocError;

const OPEN: u8 = 1;

/// What stands at a record's offset.
#[derive(Clone, Copy)]
pub(crate) enum Head {
    /// A gate that ends the journal.
    Shut,
    /// An open gate, and the length of the body behind it.
    Open(u32),
}

/// Makes what is read safe from a crash, and gives the disk's length.
pub fn settle<D: Disk>(disk: &mut D) -> Result<u64, JournalFault>
    ensures settled { IfOk result (λ len. IfSome (D.seen disk.old) (λ bytes.
        (D.seen disk.new ≡ Some bytes) × (len ≡ length bytes) × (0 < len) × Only bytes (D.may_leave disk.new))) }
    ensures any_moment { LeavesOnly D.moment D.left_since disk.old disk.new (D.may_leave disk.old) }
    ensures seen { IsErrOf result JournalFault.Disk ⊎ (D.seen disk.new ≡ D.seen disk.old) }
    ensures kept { IsErrOf result JournalFault.NoMemory → Unchanged D.seen D.may_leave D.moment D.left_since disk.old disk.new }
    ensures exact { (p : Plain) → D.plain disk.old ≡ Some p → (IsErrOf result JournalFault.NoMemory × (D.plain disk.new ≡ Some p))
        ⊎ ((D.plain disk.new ≡ Some (after_call None p)) × (IsErrOf result JournalFault.Disk ↔ (succeeds p ≡ false))) }
    ensures honest { IsHonest (D.seen disk.old) → IsHonest (D.seen disk.new) }
    ensures failed { IsErrOf result JournalFault.Disk → Rose (D.faults disk.old) (D.faults disk.new) }
    ensures damaged { (place : ℕ) → IsErrOf result (JournalFault.Damaged place)
        → (place ≡ 0) × IfSome (D.seen disk.old) (λ bytes. bytes ≡ []) }
    ensures itself { D.identity disk.new ≡ D.identity disk.old }
    ensures counts { D.faults disk.old ≤ D.faults disk.new }
    ensures steady { IsErrOf result JournalFault.Disk ⊎ (D.faults disk.new ≡ D.faults disk.old) }
    ensures full { result ≢ Err JournalFault.Full }
    ensures needs_load { result ≢ Err JournalFault.NeedsLoad }
{
    disk.reserve(0, 1)?;
    disk.sync()?;
    let len = disk.len()?;
    if len == 0 {
        return Err(JournalFault::Damaged(0));
    }
    Ok(len)
}

/// Reads the gate at an offset, and the length behind it.
#[tactic(auto, using(ld_disk::proofs::Fine::fine_reads))]
pub(crate) fn read_head<D: Disk>(disk: &mut D, at: u64) -> Result<Head, JournalFault>
    ensures shut { result ≡ Ok Head.Shut → (front rest : List ℕ) → IsParted D.seen disk.old at front rest → IsShut rest }
    ensures open { (n : ℕ) → result ≡ Ok (Head.Open n) → (front rest : List ℕ) → IsParted D.seen disk.old at front rest
        → (rest ≡ 1 ∷ (to_be_bytes w32 n ++ drop 5 rest)) × (n < 2 ^ 32) }
    ensures damaged { (place : ℕ) → IsErrOf result (JournalFault.Damaged place) → (front rest : List ℕ)
        → IsParted D.seen disk.old at front rest → (place ≡ at) × IsCutShort rest }
    ensures exact { (p : Plain) → D.plain disk.old ≡ Some p → reads_fine p ≡ true
        → (D.plain disk.new ≡ Some p) × (result ≢ Err JournalFault.Disk) }
    ensures same { Unchanged D.seen D.may_leave D.moment D.left_since disk.old disk.new }
    ensures failed { IsErrOf result JournalFault.Disk → Rose (D.faults disk.old) (D.faults disk.new) }
    ensures itself { D.identity disk.new ≡ D.identity disk.old }
    ensures counts { D.faults disk.old ≤ D.faults disk.new }
    ensures steady { IsErrOf result JournalFault.Disk ⊎ (D.faults disk.new ≡ D.faults disk.old) }
    ensures full { result ≢ Err JournalFault.Full }
    ensures needs_load { result ≢ Err JournalFault.NeedsLoad }
{
    let mut head = [0; 5];
    let count = disk.read(at, &mut head)?;
    if count == 0 {
        return Err(JournalFault::Damaged(at));
    }
    if head[0] != OPEN {
        return Ok(Head::Shut);
    }
    if count < 5 {
        return Err(JournalFault::Damaged(at));
    }
    Ok(Head::Open(length_in(&head)))
}

/// The number in the four bytes behind a gate.
fn length_in(head: &[u8]) -> u32
    requires { length head.now ≡ 5 }
    ensures { to_be_bytes w32 result ≡ take 4 (drop 1 head.now) }
{
    u32::from_be_bytes([head[1], head[2], head[3], head[4]])
}

/// Makes them that many zeros, or leaves them where there is no memory for that.
fn make_zeros(bytes: &mut Vec<u8>, count: usize) -> Result<(), AllocError>
    ensures made { OnOk result (length bytes.new.items ≡ count) }
    ensures untouched { OnErr result (bytes.new.items ≡ bytes.old.items) }
{
    bytes.reserve(count.saturating_sub(bytes.len()))?;
    bytes.clear();
    let _ = bytes.resize(count, 0);
    Ok(())
}

/// Reads the body behind an open gate and its length, where all of it and the next gate lie before the end.
#[tactic(auto, using(ld_disk::proofs::Fine::fine_reads))]
fn read_body<D: Disk>(
    disk: &mut D,
    at: u64,
    len: u64,
    size: u32,
    body: &mut Vec<u8>,
) -> Result<(), JournalFault>
    ensures body { IsOk result → (front rest : List ℕ) → IsParted D.seen disk.old at front rest → len ≡ length (front ++ rest)
        → rest ≡ 1 ∷ (to_be_bytes w32 size ++ drop 5 rest) → BeginsWith body.new.items rest × (length body.new.items ≡ size) }
    ensures long { OnOk result (length body.new.items ≡ size) }
    ensures within { OnOk result (at + 5 + size < len) }
    ensures untouched { IsErrOf result JournalFault.NoMemory → body.new.items ≡ body.old.items }
    ensures damaged { (place : ℕ) → IsErrOf result (JournalFault.Damaged place) → (front rest : List ℕ)
        → IsParted D.seen disk.old at front rest → len ≡ length (front ++ rest) → rest ≡ 1 ∷ (to_be_bytes w32 size ++ drop 5 rest)
        → (place ≡ at) × IsCutShort rest }
    ensures exact { (p : Plain) → D.plain disk.old ≡ Some p → reads_fine p ≡ true
        → (D.plain disk.new ≡ Some p) × (result ≢ Err JournalFault.Disk) }
    ensures same { Unchanged D.seen D.may_leave D.moment D.left_since disk.old disk.new }
    ensures failed { IsErrOf result JournalFault.Disk → Rose (D.faults disk.old) (D.faults disk.new) }
    ensures itself { D.identity disk.new ≡ D.identity disk.old }
    ensures counts { D.faults disk.old ≤ D.faults disk.new }
    ensures steady { IsErrOf result JournalFault.Disk ⊎ (D.faults disk.new ≡ D.faults disk.old) }
    ensures full { result ≢ Err JournalFault.Full }
    ensures needs_load { result ≢ Err JournalFault.NeedsLoad }
{
    if len.saturating_sub(at) <= 5 + size as u64 {
        return Err(JournalFault::Damaged(at));
    }
    make_zeros(body, size as usize)?;
    let count = disk.read(at + 5, body)?;
    if count < size as usize {
        return Err(JournalFault::Damaged(at));
    }
    Ok(())
}

/// Reads the record at an offset, and gives the offset behind it; `None` where a gate there ends the journal.
pub fn read_record<D: Disk>(
    disk: &mut D,
    at: u64,
    len: u64,
    body: &mut Vec<u8>,
) -> Result<Option<u64>, JournalFault>
    ensures body { (next : ℕ) → result ≡ Ok (Some next) → (front rest : List ℕ) → IsParted D.seen disk.old at front rest
        → len ≡ length (front ++ rest) → BeginsWith body.new.items rest × (next ≡ at + 5 + length body.new.items) }
    ensures within { (next : ℕ) → result ≡ Ok (Some next) → (at < next) × (next < len) }
    ensures behind { (next : ℕ) → result ≡ Ok (Some next) → next ≡ at + 5 + length body.new.items }
    ensures untouched { IsErrOf result JournalFault.NoMemory ⊎ (result ≡ Ok None) → body.new.items ≡ body.old.items }
    ensures end { result ≡ Ok None → (front rest : List ℕ) → IsParted D.seen disk.old at front rest → IsShut rest }
    ensures damaged { (place : ℕ) → IsErrOf result (JournalFault.Damaged place) → (front rest : List ℕ)
        → IsParted D.seen disk.old at front rest → len ≡ length (front ++ rest) → (place ≡ at) × IsCutShort rest }
    ensures exact { (p : Plain) → D.plain disk.old ≡ Some p → reads_fine p ≡ true
        → (D.plain disk.new ≡ Some p) × (result ≢ Err JournalFault.Disk) }
    ensures same { Unchanged D.seen D.may_leave D.moment D.left_since disk.old disk.new }
    ensures failed { IsErrOf result JournalFault.Disk → Rose (D.faults disk.old) (D.faults disk.new) }
    ensures itself { D.identity disk.new ≡ D.identity disk.old }
    ensures counts { D.faults disk.old ≤ D.faults disk.new }
    ensures steady { IsErrOf result JournalFault.Disk ⊎ (D.faults disk.new ≡ D.faults disk.old) }
    ensures full { result ≢ Err JournalFault.Full }
    ensures needs_load { result ≢ Err JournalFault.NeedsLoad }
{
    match read_head(disk, at)? {
        Head::Shut => Ok(None),
        Head::Open(size) => {
            read_body(disk, at, len, size, body)?;
            Ok(Some(at + 5 + size as u64))
        }
    }
}
