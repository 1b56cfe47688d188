// Writes that are synced before anything else is written.
ghost use Rattle.std.specs.Prelude.{◌≡◌, ◌≤◌, ◌+◌, List, ℕ, length, OnOk, OnErr, is_ok, Some};
ghost use Rattle.ld_io.specs.Causes.{Rose};
ghost use Rattle.ld_disk.specs.Images.{overwrite, Torn, IsHonest};
ghost use Rattle.ld_disk.specs.Moments.{LeavesOnly};
ghost use Rattle.ld_disk.specs.Plain.{Plain, after_calls, all_succeed};
ghost use Rattle.ld_segment.specs.Stays.{Rests};
ghost use Rattle.ld_segment.specs.Left.{safe_calls, both_calls, TornTwice};

use ld_disk::Disk;
use ld_io::Failed;

/// Writes bytes at an offset and syncs them, in two writing calls. A crash at any moment leaves that write torn.
pub(crate) fn write_safe<D: Disk>(disk: &mut D, at: u64, bytes: &[u8]) -> Result<(), Failed>
    requires room { 2 ≤ D.room disk.old }
    requires place { at + length bytes.now ≤ D.reach disk.old }
    ensures rests { (b : List ℕ) → Rests D.seen D.may_leave disk.old b → OnOk result (Rests D.seen D.may_leave disk.new (overwrite at bytes.now b)) }
    ensures any_moment { (b : List ℕ) → Rests D.seen D.may_leave disk.old b → LeavesOnly D.moment D.left_since disk.old disk.new (Torn at (length bytes.now) b) }
    ensures honest { IsHonest (D.seen disk.old) → IsHonest (D.seen disk.new) }
    ensures exact { (p : Plain) → D.plain disk.old ≡ Some p
        → (D.plain disk.new ≡ Some (after_calls (safe_calls at bytes.now) p)) × (is_ok result ≡ all_succeed (safe_calls at bytes.now) p) }
    ensures spends { OnOk result ((D.room disk.old ≤ D.room disk.new + 2) × (D.reach disk.old ≤ D.reach disk.new)) }
    ensures itself { D.identity disk.new ≡ D.identity disk.old }
    ensures counts { D.faults disk.old ≤ D.faults disk.new }
    ensures failed { OnErr result (Rose (D.faults disk.old) (D.faults disk.new)) }
    ensures steady { OnOk result (D.faults disk.new ≡ D.faults disk.old) }
{
    disk.write_at(at, bytes)?;
    disk.sync()
}

/// Writes bytes at two offsets and syncs both, in three writing calls. A crash at any moment leaves both writes torn.
pub(crate) fn write_both<D: Disk>(
    disk: &mut D,
    at: u64,
    bytes: &[u8],
    at_2: u64,
    bytes_2: &[u8],
) -> Result<(), Failed>
    requires room { 3 ≤ D.room disk.old }
    requires place { at + length bytes.now ≤ D.reach disk.old }
    requires place_2 { at_2 + length bytes_2.now ≤ D.reach disk.old }
    ensures rests { (b : List ℕ) → Rests D.seen D.may_leave disk.old b → OnOk result (Rests D.seen D.may_leave disk.new (overwrite at_2 bytes_2.now (overwrite at bytes.now b))) }
    ensures any_moment { (b : List ℕ) → Rests D.seen D.may_leave disk.old b
        → LeavesOnly D.moment D.left_since disk.old disk.new (TornTwice at (length bytes.now) at_2 (length bytes_2.now) b) }
    ensures honest { IsHonest (D.seen disk.old) → IsHonest (D.seen disk.new) }
    ensures exact { (p : Plain) → D.plain disk.old ≡ Some p
        → (D.plain disk.new ≡ Some (after_calls (both_calls at bytes.now at_2 bytes_2.now) p)) × (is_ok result ≡ all_succeed (both_calls at bytes.now at_2 bytes_2.now) p) }
    ensures spends { OnOk result ((D.room disk.old ≤ D.room disk.new + 3) × (D.reach disk.old ≤ D.reach disk.new)) }
    ensures itself { D.identity disk.new ≡ D.identity disk.old }
    ensures counts { D.faults disk.old ≤ D.faults disk.new }
    ensures failed { OnErr result (Rose (D.faults disk.old) (D.faults disk.new)) }
    ensures steady { OnOk result (D.faults disk.new ≡ D.faults disk.old) }
{
    disk.write_at(at, bytes)?;
    disk.write_at(at_2, bytes_2)?;
    disk.sync()
}
