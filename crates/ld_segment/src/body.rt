// Reading a record wherever it stands.
ghost use Rattle.std.specs.Prelude.{◌≡◌, ◌≢◌, ◌⊎◌, ◌<◌, ◌≤◌, ◌+◌, ◌^◌, ◌∷◌, List, ℕ, length, take, drop, IfOk, IfSome, IsErrOf, Err, Some, true};
ghost use Rattle.std.specs.Int.{w32, to_be_bytes};
ghost use Rattle.ld_io.specs.Causes.{Rose};
ghost use Rattle.ld_disk.specs.Moments.{Unchanged};
ghost use Rattle.ld_disk.specs.Plain.{Plain, reads_fine};
ghost use Rattle.ld_segment.specs.Stays.{StandsAt};
ghost use Rattle.ld_segment.specs.Later.{IsRecordAt};

use byteorder::{BigEndian, ByteOrder};
use ld_disk::Disk;
use ld_journal::JournalFault;
use std::alloc::{AllocError, Global};

const OPEN: u8 = 1;

/// Reads the body of the record at an offset of a disk of so many bytes. It refuses with `Damaged(place)` where no record
/// stands there, or no byte behind it.
pub(crate) fn read_body<D: Disk>(
    alloc: Global,
    disk: &mut D,
    at: u64,
    len: u64,
) -> Result<Vec<u8>, JournalFault>
    ensures body { IfOk result (λ body. IfSome (D.seen disk.old) (λ bytes. len ≡ length bytes → IsRecordAt at body.items bytes)) }
    ensures within { IfOk result (λ body. at + 5 + length body.items < len) }
    ensures fits { IfOk result (λ body. length body.items < 2 ^ 32) }
    ensures damaged { (place : ℕ) → IsErrOf result (JournalFault.Damaged place)
        → (place ≡ at) × IfSome (D.seen disk.old) (λ bytes. len ≡ length bytes → (body : List ℕ) → IsRecordAt at body bytes → ⊥) }
    ensures exact { (p : Plain) → D.plain disk.old ≡ Some p → reads_fine p ≡ true
        → (D.plain disk.new ≡ Some p) × (result ≢ Err JournalFault.Disk) }
    ensures same { Unchanged D.seen D.may_leave D.moment D.left_since disk.old disk.new }
    ensures failed { IsErrOf result JournalFault.Disk → Rose (D.faults disk.old) (D.faults disk.new) }
    ensures itself { D.identity disk.new ≡ D.identity disk.old }
    ensures counts { D.faults disk.old ≤ D.faults disk.new }
    ensures steady { IsErrOf result JournalFault.Disk ⊎ (D.faults disk.new ≡ D.faults disk.old) }
    ensures full { result ≢ Err JournalFault.Full }
    ensures needs_load { result ≢ Err JournalFault.NeedsLoad }
{
    let size = read_size(disk, at)?;
    read_rest(alloc, disk, at, len, size)
}

/// Reads the open gate at an offset, and gives the length behind it.
#[tactic(auto, using(ld_disk::proofs::Fine::fine_reads))]
fn read_size<D: Disk>(disk: &mut D, at: u64) -> Result<u32, JournalFault>
    ensures size { IfOk result (λ n. IfSome (D.seen disk.old) (StandsAt at (1 ∷ to_be_bytes w32 n))) }
    ensures damaged { (place : ℕ) → IsErrOf result (JournalFault.Damaged place)
        → (place ≡ at) × IfSome (D.seen disk.old) (λ bytes. (body : List ℕ) → IsRecordAt at body bytes → ⊥) }
    ensures exact { (p : Plain) → D.plain disk.old ≡ Some p → reads_fine p ≡ true
        → (D.plain disk.new ≡ Some p) × (result ≢ Err JournalFault.Disk) }
    ensures same { Unchanged D.seen D.may_leave D.moment D.left_since disk.old disk.new }
    ensures failed { IsErrOf result JournalFault.Disk → Rose (D.faults disk.old) (D.faults disk.new) }
    ensures itself { D.identity disk.new ≡ D.identity disk.old }
    ensures counts { D.faults disk.old ≤ D.faults disk.new }
    ensures steady { IsErrOf result JournalFault.Disk ⊎ (D.faults disk.new ≡ D.faults disk.old) }
    ensures full { result ≢ Err JournalFault.Full }
    ensures needs_load { result ≢ Err JournalFault.NeedsLoad }
{
    let mut bytes = [0; 5];
    let count = disk.read(at, &mut bytes)?;
    if count < 5 {
        return Err(JournalFault::Damaged(at));
    }
    if bytes[0] != OPEN {
        return Err(JournalFault::Damaged(at));
    }
    Ok(size_in(&bytes[1..]))
}

/// The number that four bytes are.
fn size_in(bytes: &[u8]) -> u32
    requires { length bytes.now ≡ 4 }
    ensures { bytes.now ≡ to_be_bytes w32 result }
{
    BigEndian::read_u32(bytes)
}

/// Reads so many bytes behind an open gate and the length, where the next gate lies before the end too.
#[tactic(auto, using(ld_disk::proofs::Fine::fine_reads))]
fn read_rest<D: Disk>(
    alloc: Global,
    disk: &mut D,
    at: u64,
    len: u64,
    size: u32,
) -> Result<Vec<u8>, JournalFault>
    ensures body { IfOk result (λ body. IfSome (D.seen disk.old) (λ bytes. len ≡ length bytes → StandsAt (at + 5) body.items bytes)) }
    ensures long { IfOk result (λ body. length body.items ≡ size) }
    ensures within { IfOk result (λ body. at + 5 + size < len) }
    ensures damaged { (place : ℕ) → IsErrOf result (JournalFault.Damaged place)
        → (place ≡ at) × IfSome (D.seen disk.old) (λ bytes. len ≡ length bytes → length bytes ≤ at + 5 + size) }
    ensures exact { (p : Plain) → D.plain disk.old ≡ Some p → reads_fine p ≡ true
        → (D.plain disk.new ≡ Some p) × (result ≢ Err JournalFault.Disk) }
    ensures same { Unchanged D.seen D.may_leave D.moment D.left_since disk.old disk.new }
    ensures failed { IsErrOf result JournalFault.Disk → Rose (D.faults disk.old) (D.faults disk.new) }
    ensures itself { D.identity disk.new ≡ D.identity disk.old }
    ensures counts { D.faults disk.old ≤ D.faults disk.new }
    ensures steady { IsErrOf result JournalFault.Disk ⊎ (D.faults disk.new ≡ D.faults disk.old) }
    ensures full { result ≢ Err JournalFault.Full }
    ensures needs_load { result ≢ Err JournalFault.NeedsLoad }
{
    if len.saturating_sub(at) <= 5 + size as u64 {
        return Err(JournalFault::Damaged(at));
    }
    let mut body = zeros(alloc, size as usize)?;
    let count = disk.read(at + 5, &mut body)?;
    if count < size as usize {
        return Err(JournalFault::Damaged(at));
    }
    Ok(body)
}

/// So many zeros.
fn zeros(alloc: Global, count: usize) -> Result<Vec<u8>, AllocError>
    ensures { IfOk result (λ bytes. length bytes.items ≡ count) }
{
    let mut bytes = Vec::with_capacity(alloc, count)?;
    let _ = bytes.resize(count, 0);
    Ok(bytes)
}
