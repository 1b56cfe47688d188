// Reading which of the slots behind the head counts.
ghost use Rattle.std.specs.Prelude.{◌≡◌, ◌≢◌, ◌⊎◌, ◌<◌, ◌≤◌, ◌+◌, ◌^◌, List, ℕ, IfOk, IfSome, IsErrOf, Err, Some, true};
ghost use Rattle.ld_io.specs.Causes.{Rose};
ghost use Rattle.ld_disk.specs.Moments.{Unchanged};
ghost use Rattle.ld_disk.specs.Plain.{Plain, reads_fine};
ghost use Rattle.ld_segment.specs.Found.{IsFound, IsNoneThere};

use crate::found::Found;
use crate::read_slot;
use ld_disk::Disk;
use ld_journal::JournalFault;

/// Reads the slots behind the head, whose first has this offset, and finds the one that counts. It refuses with
/// `Damaged(head)` where none does: where both are shut, or both are open and say the same number; and with `Damaged` and
/// a slot's place where the disk ends within that.
pub fn read_current<D: Disk>(disk: &mut D, head: u64) -> Result<Found, JournalFault>
    requires bound { head + 34 < 2 ^ 64 }
    ensures found { IfOk result (λ c. IfSome (D.seen disk.old) (IsFound head c)) }
    ensures damaged { (place : ℕ) → IsErrOf result (JournalFault.Damaged place) → IfSome (D.seen disk.old) (IsNoneThere head place) }
    ensures exact { (p : Plain) → D.plain disk.old ≡ Some p → reads_fine p ≡ true
        → (D.plain disk.new ≡ Some p) × (result ≢ Err JournalFault.Disk) }
    ensures same { Unchanged D.seen D.may_leave D.moment D.left_since disk.old disk.new }
    ensures failed { IsErrOf result JournalFault.Disk → Rose (D.faults disk.old) (D.faults disk.new) }
    ensures itself { D.identity disk.new ≡ D.identity disk.old }
    ensures counts { D.faults disk.old ≤ D.faults disk.new }
    ensures steady { IsErrOf result JournalFault.Disk ⊎ (D.faults disk.new ≡ D.faults disk.old) }
    ensures full { result ≢ Err JournalFault.Full }
    ensures needs_load { result ≢ Err JournalFault.NeedsLoad }
    ensures memory { result ≢ Err JournalFault.NoMemory }
{
    let one = read_slot(disk, head)?;
    let two = read_slot(disk, head + 17)?;
    match Found::of(head, one, two) {
        Some(found) => Ok(found),
        None => Err(JournalFault::Damaged(head)),
    }
}
