// A record that was planned, and the switch before it.
ghost use Rattle.std.specs.Prelude.{◌≡◌, ◌<◌, ◌≤◌, ◌+◌, ◌^◌, List, ℕ, length, OnOk, OnErr, is_ok, Some};
ghost use Rattle.ld_io.specs.Causes.{Rose};
ghost use Rattle.ld_disk.specs.Images.{IsHonest};
ghost use Rattle.ld_disk.specs.Moments.{LeavesOnly};
ghost use Rattle.ld_disk.specs.Plain.{Plain, after_calls, all_succeed};
ghost use Rattle.ld_segment.specs.Stays.{Rests};
ghost use Rattle.ld_segment.specs.Lies.{shut_over};
ghost use Rattle.ld_segment.specs.Plans.{seen_plan, seen_switch, IsReady, calls_before, count_before, end_before, made_before, IsBeforeTorn, IsPlanTorn, planned_calls, planned_count, planned_end, planned_made};

use crate::plan::{Plan, Switch};
use crate::record::append_record;
use crate::switch::{switch_first, switch_later};
use ld_disk::Disk;
use ld_io::Failed;

/// Makes the calls of a plan, up to the first that fails.
pub fn write_op<D: Disk>(disk: &mut D, plan: &Plan) -> Result<(), Failed>
    requires ready { IsReady plan.now }
    requires room { planned_count (seen_plan plan.now) ≤ D.room disk.old }
    requires place { planned_end (seen_plan plan.now) ≤ D.reach disk.old }
    requires bound { planned_end (seen_plan plan.now) ≤ 2 ^ 40 }
    ensures rests { (b : List ℕ) → Rests D.seen D.may_leave disk.old b → OnOk result (Rests D.seen D.may_leave disk.new (planned_made (seen_plan plan.now) b)) }
    ensures any_moment { (b : List ℕ) → Rests D.seen D.may_leave disk.old b → LeavesOnly D.moment D.left_since disk.old disk.new (IsPlanTorn (seen_plan plan.now) b) }
    ensures honest { IsHonest (D.seen disk.old) → IsHonest (D.seen disk.new) }
    ensures exact { (p : Plain) → D.plain disk.old ≡ Some p
        → (D.plain disk.new ≡ Some (after_calls (planned_calls (seen_plan plan.now)) p)) × (is_ok result ≡ all_succeed (planned_calls (seen_plan plan.now)) p) }
    ensures spends { OnOk result ((D.room disk.old ≤ D.room disk.new + planned_count (seen_plan plan.now)) × (D.reach disk.old ≤ D.reach disk.new)) }
    ensures itself { D.identity disk.new ≡ D.identity disk.old }
    ensures counts { D.faults disk.old ≤ D.faults disk.new }
    ensures failed { OnErr result (Rose (D.faults disk.old) (D.faults disk.new)) }
    ensures steady { OnOk result (D.faults disk.new ≡ D.faults disk.old) }
{
    make_switch(disk, plan)?;
    append_record(disk, plan.gate, &plan.body, &plan.piece)
}

/// Makes the calls of a plan's switch, where there is one.
pub(crate) fn make_switch<D: Disk>(disk: &mut D, plan: &Plan) -> Result<(), Failed>
    requires ready { IsReady plan.now }
    requires room { count_before (seen_switch plan.now.switch) ≤ D.room disk.old }
    requires place { end_before (seen_switch plan.now.switch) ≤ D.reach disk.old }
    requires bound { end_before (seen_switch plan.now.switch) ≤ 2 ^ 40 }
    ensures rests { (b : List ℕ) → Rests D.seen D.may_leave disk.old b → OnOk result (Rests D.seen D.may_leave disk.new (made_before (seen_switch plan.now.switch) b)) }
    ensures any_moment { (b : List ℕ) → Rests D.seen D.may_leave disk.old b → LeavesOnly D.moment D.left_since disk.old disk.new (IsBeforeTorn (seen_switch plan.now.switch) b) }
    ensures honest { IsHonest (D.seen disk.old) → IsHonest (D.seen disk.new) }
    ensures exact { (p : Plain) → D.plain disk.old ≡ Some p
        → (D.plain disk.new ≡ Some (after_calls (calls_before (seen_switch plan.now.switch)) p)) × (is_ok result ≡ all_succeed (calls_before (seen_switch plan.now.switch)) p) }
    ensures spends { OnOk result ((D.room disk.old ≤ D.room disk.new + count_before (seen_switch plan.now.switch)) × (D.reach disk.old ≤ D.reach disk.new)) }
    ensures itself { D.identity disk.new ≡ D.identity disk.old }
    ensures counts { D.faults disk.old ≤ D.faults disk.new }
    ensures failed { OnErr result (Rose (D.faults disk.old) (D.faults disk.new)) }
    ensures steady { OnOk result (D.faults disk.new ≡ D.faults disk.old) }
{
    match &plan.switch {
        Switch::Stay => Ok(()),
        Switch::First {
            gate_at,
            slots_at,
            slots,
            head,
            piece,
        } => switch_first(disk, *slots_at, slots, *gate_at, head, piece),
        Switch::Later {
            base_at,
            base,
            slot_at,
            is_open,
            says,
        } => {
            let gate_byte = [0];
            let shut = &gate_byte[..shut_length(*is_open)];
            switch_later(disk, *base_at, base, *slot_at, shut, says)
        }
    }
}

/// How many bytes are written over a slot's gate: one where it is open.
fn shut_length(is_open: bool) -> usize
    ensures long { result ≡ length (shut_over is_open) }
    ensures most { result ≤ 1 }
{
    if is_open { 1 } else { 0 }
}
