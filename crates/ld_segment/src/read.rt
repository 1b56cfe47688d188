// Reading the slots behind the head.
ghost use Rattle.std.specs.Prelude.{◌≡◌, ◌≢◌, ◌⊎◌, ◌<◌, ◌≤◌, ◌+◌, ◌==◌, List, ℕ, length, take, drop, get_or, IfOk, IfSome, IsErrOf, Err, Some, true};
ghost use Rattle.byteorder.specs.Endian.{big_bytes};
ghost use Rattle.ld_io.specs.Causes.{Rose};
ghost use Rattle.ld_disk.specs.Moments.{Unchanged};
ghost use Rattle.ld_disk.specs.Plain.{Plain, reads_fine};
ghost use Rattle.ld_segment.specs.Slots.{IsSlotAt};

use crate::Slot;
use byteorder::{BigEndian, ByteOrder};
use ld_disk::Disk;
use ld_journal::JournalFault;

const OPEN: u8 = 1;

/// Reads the slot at an offset. It refuses with `Disk` where a call of the disk failed, and with `Damaged(place)` where the
/// disk ends within the slot.
#[tactic(auto, using(ld_disk::proofs::Fine::fine_reads))]
pub fn read_slot<D: Disk>(disk: &mut D, at: u64) -> Result<Slot, JournalFault>
    ensures slot { IfOk result (λ s. IfSome (D.seen disk.old) (IsSlotAt at s)) }
    ensures damaged { (place : ℕ) → IsErrOf result (JournalFault.Damaged place) → (place ≡ at) × IfSome (D.seen disk.old) (λ bytes. length bytes < at + 17) }
    ensures exact { (p : Plain) → D.plain disk.old ≡ Some p → reads_fine p ≡ true
        → (D.plain disk.new ≡ Some p) × (result ≢ Err JournalFault.Disk) }
    ensures same { Unchanged D.seen D.may_leave D.moment D.left_since disk.old disk.new }
    ensures failed { IsErrOf result JournalFault.Disk → Rose (D.faults disk.old) (D.faults disk.new) }
    ensures itself { D.identity disk.new ≡ D.identity disk.old }
    ensures counts { D.faults disk.old ≤ D.faults disk.new }
    ensures steady { IsErrOf result JournalFault.Disk ⊎ (D.faults disk.new ≡ D.faults disk.old) }
    ensures full { result ≢ Err JournalFault.Full }
    ensures needs_load { result ≢ Err JournalFault.NeedsLoad }
    ensures memory { result ≢ Err JournalFault.NoMemory }
{
    let mut bytes = [0; 17];
    let count = disk.read(at, &mut bytes)?;
    if count < 17 {
        return Err(JournalFault::Damaged(at));
    }
    Ok(slot_in(&bytes))
}

/// The slot that seventeen bytes are: a gate, a number and an offset.
fn slot_in(bytes: &[u8]) -> Slot
    requires { length bytes.now ≡ 17 }
    ensures open { result.open ≡ (get_or bytes.now 0 0 == 1) }
    ensures number { take 8 (drop 1 bytes.now) ≡ big_bytes 8 result.number }
    ensures place { take 8 (drop 9 bytes.now) ≡ big_bytes 8 result.place }
{
    Slot {
        open: bytes[0] == OPEN,
        number: number_in(&bytes[1..9]),
        place: number_in(&bytes[9..17]),
    }
}

/// The number that eight bytes are.
fn number_in(bytes: &[u8]) -> u64
    requires { length bytes.now ≡ 8 }
    ensures { bytes.now ≡ big_bytes 8 result }
{
    BigEndian::read_u64(bytes)
}
