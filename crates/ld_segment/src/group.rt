// Records of a group: each is written at once, and all are made durable together.
ghost use Rattle.std.specs.Prelude.{◌≡◌, ◌<◌, ◌≤◌, ◌+◌, ◌^◌, List, ℕ, length, OnOk, OnErr, is_ok, Some};
ghost use Rattle.ld_io.specs.Causes.{Rose};
ghost use Rattle.ld_disk.specs.Images.{Torn, IsHonest};
ghost use Rattle.ld_disk.specs.Moments.{LeavesOnly};
ghost use Rattle.ld_disk.specs.Plain.{Plain, after_calls, all_succeed};
ghost use Rattle.ld_journal.specs.Format.{behind};
ghost use Rattle.ld_segment.specs.Stays.{Rests};
ghost use Rattle.ld_segment.specs.Left.{staged};
ghost use Rattle.ld_segment.specs.Lies.{with_body};
ghost use Rattle.ld_segment.specs.Plans.{seen_plan, seen_switch, IsReady, count_before, made_before, planned_end};
ghost use Rattle.ld_segment.specs.Groups.{Tears, stage_calls, next_calls, open_calls, IsStageTorn, IsGroupTorn, opened_at};

use crate::plan::Plan;
use crate::write::make_switch;
use ld_disk::Disk;
use ld_io::Failed;

const OPEN: u8 = 1;

/// Makes the calls of a plan's switch, where there is one, and writes its record behind the gate, which stays shut: the
/// record doesn't count before `open_group`. A crash until then leaves the journal without it.
pub fn stage_op<D: Disk>(disk: &mut D, plan: &Plan) -> Result<(), Failed>
    requires ready { IsReady plan.now }
    requires room { count_before (seen_switch plan.now.switch) + 1 ≤ D.room disk.old }
    requires place { planned_end (seen_plan plan.now) ≤ D.reach disk.old }
    requires bound { planned_end (seen_plan plan.now) ≤ 2 ^ 40 }
    ensures staged { (b : List ℕ) → Rests D.seen D.may_leave disk.old b
        → OnOk result (Tears D.seen D.may_leave disk.new (plan.now.gate + 1) (length (behind plan.now.body.items)) (made_before (seen_switch plan.now.switch) b) (staged plan.now.gate plan.now.body.items (made_before (seen_switch plan.now.switch) b))) }
    ensures any_moment { (b : List ℕ) → Rests D.seen D.may_leave disk.old b → LeavesOnly D.moment D.left_since disk.old disk.new (IsStageTorn (seen_plan plan.now) b) }
    ensures honest { IsHonest (D.seen disk.old) → IsHonest (D.seen disk.new) }
    ensures exact { (p : Plain) → D.plain disk.old ≡ Some p
        → (D.plain disk.new ≡ Some (after_calls (stage_calls (seen_plan plan.now)) p)) × (is_ok result ≡ all_succeed (stage_calls (seen_plan plan.now)) p) }
    ensures spends { OnOk result ((D.room disk.old ≤ D.room disk.new + (count_before (seen_switch plan.now.switch) + 1)) × (D.reach disk.old ≤ D.reach disk.new)) }
    ensures itself { D.identity disk.new ≡ D.identity disk.old }
    ensures counts { D.faults disk.old ≤ D.faults disk.new }
    ensures failed { OnErr result (Rose (D.faults disk.old) (D.faults disk.new)) }
    ensures steady { OnOk result (D.faults disk.new ≡ D.faults disk.old) }
{
    make_switch(disk, plan)?;
    disk.write_at(plan.gate + 1, &plan.piece)
}

/// Writes a plan's record behind the last of its group, and opens the gate before it: one that lies within the bytes that
/// a crash may tear. It makes no switch.
pub fn stage_next<D: Disk>(disk: &mut D, plan: &Plan) -> Result<(), Failed>
    requires ready { IsReady plan.now }
    requires room { 2 ≤ D.room disk.old }
    requires place { planned_end (seen_plan plan.now) ≤ D.reach disk.old }
    requires bound { planned_end (seen_plan plan.now) ≤ 2 ^ 40 }
    ensures staged { (from n m : ℕ) (safe shown : List ℕ) → Tears D.seen D.may_leave disk.old from n safe shown → from ≤ plan.now.gate → n ≤ m → from + m ≡ plan.now.gate + 6 + length plan.now.body.items
        → OnOk result (Tears D.seen D.may_leave disk.new from m safe (with_body plan.now.gate plan.now.body.items shown)) }
    ensures any_moment { (from n m : ℕ) (safe shown : List ℕ) → Tears D.seen D.may_leave disk.old from n safe shown → from ≤ plan.now.gate → n ≤ m → from + m ≡ plan.now.gate + 6 + length plan.now.body.items
        → LeavesOnly D.moment D.left_since disk.old disk.new (Torn from m safe) }
    ensures honest { IsHonest (D.seen disk.old) → IsHonest (D.seen disk.new) }
    ensures exact { (p : Plain) → D.plain disk.old ≡ Some p
        → (D.plain disk.new ≡ Some (after_calls (next_calls plan.now.gate plan.now.body.items) p)) × (is_ok result ≡ all_succeed (next_calls plan.now.gate plan.now.body.items) p) }
    ensures spends { OnOk result ((D.room disk.old ≤ D.room disk.new + 2) × (D.reach disk.old ≤ D.reach disk.new)) }
    ensures itself { D.identity disk.new ≡ D.identity disk.old }
    ensures counts { D.faults disk.old ≤ D.faults disk.new }
    ensures failed { OnErr result (Rose (D.faults disk.old) (D.faults disk.new)) }
    ensures steady { OnOk result (D.faults disk.new ≡ D.faults disk.old) }
{
    disk.write_at(plan.gate + 1, &plan.piece)?;
    disk.write_at(plan.gate, &[OPEN])
}

/// Opens the gate of a group once what is behind it is on the disk, in three writing calls. A crash at any moment leaves
/// all records of the group or none.
pub fn open_group<D: Disk>(disk: &mut D, gate: u64) -> Result<(), Failed>
    requires room { 3 ≤ D.room disk.old }
    requires place { gate + 1 ≤ D.reach disk.old }
    ensures rests { (n : ℕ) (safe shown : List ℕ) → Tears D.seen D.may_leave disk.old (gate + 1) n safe shown → OnOk result (Rests D.seen D.may_leave disk.new (opened_at gate shown)) }
    ensures any_moment { (n : ℕ) (safe shown : List ℕ) → Tears D.seen D.may_leave disk.old (gate + 1) n safe shown → LeavesOnly D.moment D.left_since disk.old disk.new (IsGroupTorn gate n safe shown) }
    ensures honest { IsHonest (D.seen disk.old) → IsHonest (D.seen disk.new) }
    ensures exact { (p : Plain) → D.plain disk.old ≡ Some p
        → (D.plain disk.new ≡ Some (after_calls (open_calls gate) p)) × (is_ok result ≡ all_succeed (open_calls gate) p) }
    ensures spends { OnOk result ((D.room disk.old ≤ D.room disk.new + 3) × (D.reach disk.old ≤ D.reach disk.new)) }
    ensures itself { D.identity disk.new ≡ D.identity disk.old }
    ensures counts { D.faults disk.old ≤ D.faults disk.new }
    ensures failed { OnErr result (Rose (D.faults disk.old) (D.faults disk.new)) }
    ensures steady { OnOk result (D.faults disk.new ≡ D.faults disk.old) }
{
    disk.sync()?;
    disk.write_at(gate, &[OPEN])?;
    disk.sync()
}
