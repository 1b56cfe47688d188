// A record behind a gate, whatever stands round it.
ghost use Rattle.std.specs.Prelude.{◌≡◌, ◌<◌, ◌≤◌, ◌+◌, ◌^◌, ◌∷◌, [], List, ℕ, length, OnOk, OnErr, is_ok, Some};
ghost use Rattle.ld_io.specs.Causes.{Rose};
ghost use Rattle.ld_disk.specs.Images.{overwrite, IsHonest};
ghost use Rattle.ld_disk.specs.Moments.{LeavesOnly};
ghost use Rattle.ld_disk.specs.Plain.{Plain, after_calls, all_succeed};
ghost use Rattle.ld_journal.specs.Format.{append_calls, behind};
ghost use Rattle.ld_segment.specs.Stays.{Rests};
ghost use Rattle.ld_segment.specs.Left.{staged, IsRecordTorn};

use crate::safe::write_safe;
use ld_disk::Disk;
use ld_io::Failed;

const OPEN: u8 = 1;

/// Writes a record behind the gate at this offset, and opens the gate once that is on the disk: four writing calls.
/// `piece` is the body's length, the body, and the next gate, which isn't open.
pub fn append_record<D: Disk>(
    disk: &mut D,
    at: u64,
    body: &[u8],
    piece: &[u8],
) -> Result<(), Failed>
    requires piece { piece.now ≡ behind body.now }
    requires fits { length body.now < 2 ^ 32 }
    requires room { 4 ≤ D.room disk.old }
    requires place { at + length body.now + 6 ≤ D.reach disk.old }
    requires bound { at + length body.now + 6 ≤ 2 ^ 40 }
    ensures rests { (b : List ℕ) → Rests D.seen D.may_leave disk.old b
        → OnOk result (Rests D.seen D.may_leave disk.new (overwrite at (1 ∷ []) (staged at body.now b))) }
    ensures any_moment { (b : List ℕ) → Rests D.seen D.may_leave disk.old b → LeavesOnly D.moment D.left_since disk.old disk.new (IsRecordTorn at body.now b) }
    ensures honest { IsHonest (D.seen disk.old) → IsHonest (D.seen disk.new) }
    ensures exact { (p : Plain) → D.plain disk.old ≡ Some p
        → (D.plain disk.new ≡ Some (after_calls (append_calls at body.now) p)) × (is_ok result ≡ all_succeed (append_calls at body.now) p) }
    ensures spends { OnOk result ((D.room disk.old ≤ D.room disk.new + 4) × (D.reach disk.old ≤ D.reach disk.new)) }
    ensures itself { D.identity disk.new ≡ D.identity disk.old }
    ensures counts { D.faults disk.old ≤ D.faults disk.new }
    ensures failed { OnErr result (Rose (D.faults disk.old) (D.faults disk.new)) }
    ensures steady { OnOk result (D.faults disk.new ≡ D.faults disk.old) }
{
    write_safe(disk, at + 1, piece)?;
    write_safe(disk, at, &[OPEN])
}
