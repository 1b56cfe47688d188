// The writing calls of a switch to a new segment.
ghost use Rattle.std.specs.Prelude.{◌≡◌, ◌<◌, ◌≤◌, ◌+◌, ◌^◌, ◌++◌, ◌∷◌, [], List, ℕ, length, OnOk, OnErr, is_ok, Some};
ghost use Rattle.ld_io.specs.Causes.{Rose};
ghost use Rattle.ld_disk.specs.Images.{overwrite, IsHonest};
ghost use Rattle.ld_disk.specs.Moments.{LeavesOnly};
ghost use Rattle.ld_disk.specs.Plain.{Plain, after_calls, all_succeed};
ghost use Rattle.ld_journal.specs.Format.{append_calls, behind};
ghost use Rattle.ld_segment.specs.Stays.{Rests};
ghost use Rattle.ld_segment.specs.Left.{staged, laid_out, switched, safe_calls, switch_calls, IsSwitchTorn, IsFirstSwitchTorn};

use crate::record::append_record;
use crate::safe::{write_both, write_safe};
use ld_disk::Disk;
use ld_io::Failed;

const OPEN: u8 = 1;

/// A later switch, in seven writing calls: the new segment's Base, with an ending gate, and `shut` over the gate of the
/// slot that doesn't count; then what the slot says; then its gate. `shut` is one byte 0 where that slot is open, and
/// empty where it is shut: a gate that is shut isn't written, since a crash could leave it open over what it said before.
pub fn switch_later<D: Disk>(
    disk: &mut D,
    base_at: u64,
    base: &[u8],
    slot_at: u64,
    shut: &[u8],
    says: &[u8],
) -> Result<(), Failed>
    requires shut { length shut.now ≤ 1 }
    requires room { 7 ≤ D.room disk.old }
    requires base { base_at + length base.now ≤ D.reach disk.old }
    requires slot { slot_at + 1 + length says.now ≤ D.reach disk.old }
    requires bound { slot_at + 1 + length says.now < 2 ^ 64 }
    ensures rests { (b : List ℕ) → Rests D.seen D.may_leave disk.old b
        → OnOk result (Rests D.seen D.may_leave disk.new (switched (record { base_at = base_at; base = base.now; slot_at = slot_at; shut = shut.now; says = says.now }) b)) }
    ensures any_moment { (b : List ℕ) → Rests D.seen D.may_leave disk.old b
        → LeavesOnly D.moment D.left_since disk.old disk.new (IsSwitchTorn (record { base_at = base_at; base = base.now; slot_at = slot_at; shut = shut.now; says = says.now }) b) }
    ensures honest { IsHonest (D.seen disk.old) → IsHonest (D.seen disk.new) }
    ensures exact { (p : Plain) → D.plain disk.old ≡ Some p
        → (D.plain disk.new ≡ Some (after_calls (switch_calls (record { base_at = base_at; base = base.now; slot_at = slot_at; shut = shut.now; says = says.now })) p))
        × (is_ok result ≡ all_succeed (switch_calls (record { base_at = base_at; base = base.now; slot_at = slot_at; shut = shut.now; says = says.now })) p) }
    ensures spends { OnOk result ((D.room disk.old ≤ D.room disk.new + 7) × (D.reach disk.old ≤ D.reach disk.new)) }
    ensures itself { D.identity disk.new ≡ D.identity disk.old }
    ensures counts { D.faults disk.old ≤ D.faults disk.new }
    ensures failed { OnErr result (Rose (D.faults disk.old) (D.faults disk.new)) }
    ensures steady { OnOk result (D.faults disk.new ≡ D.faults disk.old) }
{
    write_both(disk, base_at, base, slot_at, shut)?;
    write_safe(disk, slot_at + 1, says)?;
    write_safe(disk, slot_at, &[OPEN])
}

/// The first switch, in six writing calls: behind the head's offset both slots and the Base, with an ending gate; then
/// the head's record, the first segment's last.
pub fn switch_first<D: Disk>(
    disk: &mut D,
    slots_at: u64,
    slots: &[u8],
    gate_at: u64,
    head: &[u8],
    piece: &[u8],
) -> Result<(), Failed>
    requires piece { piece.now ≡ behind head.now }
    requires fits { length head.now < 2 ^ 32 }
    requires room { 6 ≤ D.room disk.old }
    requires slots { slots_at + length slots.now ≤ D.reach disk.old }
    requires place { gate_at + length head.now + 6 ≤ D.reach disk.old }
    requires bound { gate_at + length head.now + 6 ≤ 2 ^ 40 }
    ensures rests { (b : List ℕ) → Rests D.seen D.may_leave disk.old b
        → OnOk result (Rests D.seen D.may_leave disk.new (overwrite gate_at (1 ∷ []) (staged gate_at head.now (overwrite slots_at slots.now b)))) }
    ensures any_moment { (b : List ℕ) → Rests D.seen D.may_leave disk.old b
        → LeavesOnly D.moment D.left_since disk.old disk.new (IsFirstSwitchTorn (record { gate_at = gate_at; slots_at = slots_at; slots = slots.now; head = head.now }) b) }
    ensures honest { IsHonest (D.seen disk.old) → IsHonest (D.seen disk.new) }
    ensures exact { (p : Plain) → D.plain disk.old ≡ Some p
        → (D.plain disk.new ≡ Some (after_calls (safe_calls slots_at slots.now ++ append_calls gate_at head.now) p))
        × (is_ok result ≡ all_succeed (safe_calls slots_at slots.now ++ append_calls gate_at head.now) p) }
    ensures spends { OnOk result ((D.room disk.old ≤ D.room disk.new + 6) × (D.reach disk.old ≤ D.reach disk.new)) }
    ensures itself { D.identity disk.new ≡ D.identity disk.old }
    ensures counts { D.faults disk.old ≤ D.faults disk.new }
    ensures failed { OnErr result (Rose (D.faults disk.old) (D.faults disk.new)) }
    ensures steady { OnOk result (D.faults disk.new ≡ D.faults disk.old) }
{
    write_safe(disk, slots_at, slots)?;
    append_record(disk, gate_at, head, piece)
}
