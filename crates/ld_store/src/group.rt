// Records of a group: they are written one by one behind a shut gate, and made durable together.
ghost use Rattle.std.specs.Prelude.{◌≡◌, ◌≢◌, ◌⊎◌, ◌<◌, ◌≤◌, ◌+◌, ◌^◌, List, ℕ, length, OnOk, OnErr, IfOk, IfSome, IsErrOf, Err, Some, is_ok, true};
ghost use Rattle.ld_io.specs.Causes.{Rose};
ghost use Rattle.ld_disk.specs.Images.{IsHonest};
ghost use Rattle.ld_disk.specs.Moments.{LeavesOnly, Unchanged};
ghost use Rattle.ld_msg.specs.Register.{journal_limit};
ghost use Rattle.ld_op.specs.declared.op.Op.{Op as Kind};
ghost use Rattle.ld_op.specs.Plain.{Plain as State, op_length};
ghost use Rattle.ld_op.specs.Bytes.{op_bytes};
ghost use Rattle.ld_layout.specs.LaidOut.{gate_behind, recorded};
ghost use Rattle.ld_layout.specs.Layout.{Layout, switches, kind_of};
ghost use Rattle.ld_segment.specs.Lies.{Slots, StandsForEither, MayKeep, slots_with};
ghost use Rattle.ld_segment.specs.Plans.{IsReady, seen_plan, planned, planned_count, planned_end};
ghost use Rattle.ld_store.specs.Laid.{layout_in, slots_in, placed_in, IsPast};
ghost use Rattle.ld_store.specs.Low.{IsLow};
ghost use Rattle.ld_store.specs.Group.{told_plain, first_in, IsGroupOn, IsGroupWith};
ghost use Rattle.ld_store.specs.declared.laid.Laid.{Laid as Lying};

use crate::StoreFault;
use crate::laid::Laid;
use crate::write::prepare_op;
use ld_disk::Disk;
use ld_io::Failed;
use ld_op::Plain;
use ld_segment::{Plan, open_group, stage_next, stage_op};
use std::alloc::Global;
use std::mem;

/// The offset behind the gate of the group that is staged, where one is.
fn behind(staged: Option<u64>) -> u64
    requires low { IsLow staged }
    ensures { IfSome staged (λ gate. gate + 1 ≤ result) }
{
    match staged {
        Some(gate) => gate + 1,
        None => 0,
    }
}

/// The gate of the group that a record at this gate belongs to. One that a switch comes before begins another group.
fn first_gate(staged: Option<u64>, is_full: bool, gate: u64) -> u64
    ensures { result ≡ first_in staged is_full gate }
{
    match staged {
        Some(first) => { if is_full { gate } else { first } }
        None => gate,
    }
}

/// Makes the calls of a plan, but for those that make its record durable. Where ops are staged its record goes behind
/// theirs; but where a switch comes first they are made durable before it.
fn write_staged<D: Disk>(
    disk: &mut D,
    plan: &Plan,
    is_full: bool,
    staged: Option<u64>,
) -> Result<(), Failed>
    requires ready { IsReady plan.now }
    requires room { planned_count (seen_plan plan.now) ≤ D.room disk.old }
    requires place { planned_end (seen_plan plan.now) ≤ D.reach disk.old }
    requires bound { planned_end (seen_plan plan.now) ≤ 2 ^ 40 }
    requires gate { IfSome staged (λ gate. gate + 1 ≤ D.reach disk.old) }
    ensures staged { (p : State) (y : Layout) (z : Slots) (o : Kind) → IsGroupOn D.seen D.may_leave disk.old staged p y z → MayKeep y o → seen_plan plan.now ≡ planned (kind_of y) y z (op_bytes o) → is_full ≡ switches y (op_length o)
        → OnOk result (IsGroupWith D.seen D.may_leave disk.old disk.new (first_in staged is_full (seen_plan plan.now).gate) p y z o) }
    ensures any_moment { (p : State) (y : Layout) (z : Slots) (o : Kind) → IsGroupOn D.seen D.may_leave disk.old staged p y z → MayKeep y o → seen_plan plan.now ≡ planned (kind_of y) y z (op_bytes o) → is_full ≡ switches y (op_length o)
        → LeavesOnly D.moment D.left_since disk.old disk.new (StandsForEither p (told_plain (D.seen disk.old) y.index)) }
    ensures honest { IsHonest (D.seen disk.old) → IsHonest (D.seen disk.new) }
    ensures itself { D.identity disk.new ≡ D.identity disk.old }
    ensures counts { D.faults disk.old ≤ D.faults disk.new }
    ensures failed { OnErr result (Rose (D.faults disk.old) (D.faults disk.new)) }
    ensures steady { OnOk result (D.faults disk.new ≡ D.faults disk.old) }
{
    match staged {
        None => stage_op(disk, plan),
        Some(gate) => {
            if is_full {
                open_group(disk, gate)?;
                stage_op(disk, plan)
            } else {
                stage_next(disk, plan)
            }
        }
    }
}

/// Writes a record of this body behind the others that are staged, in a new segment where the current one is full, and
/// gives its gate and the gate of its group. All memory is taken before the first call of the disk.
///
/// It refuses as `write_record` does.
pub(crate) fn stage_record<D: Disk>(
    alloc: Global,
    disk: &mut D,
    laid: &mut Laid,
    index: &Plain,
    body: Vec<u8>,
    staged: Option<u64>,
) -> Result<(u64, u64), StoreFault>
    requires fits { length body.items < 2 ^ 32 }
    requires low { IsLow staged }
    ensures laid { IfOk result (λ gates. (mid : Lying) × (layout_in mid index.now.state ≡ placed_in (layout_in laid.old index.now.state) (length body.items)) × (laid.new.layout ≡ recorded mid.layout (length body.items) true)
        × (gates.0 ≡ gate_behind mid.layout.end mid.layout.later)) }
    ensures slots { OnOk result (slots_in laid.new ≡ slots_with (layout_in laid.old index.now.state) (slots_in laid.old) (length body.items)) }
    ensures low { IfOk result (λ gates. gates.0 + length body.items + 6 ≤ journal_limit) }
    ensures first_low { IfOk result (λ gates. gates.1 ≤ journal_limit) }
    ensures staged { (p : State) (o : Kind) → body.items ≡ op_bytes o → MayKeep (layout_in laid.old index.now.state) o → IsGroupOn D.seen D.may_leave disk.old staged p (layout_in laid.old index.now.state) (slots_in laid.old)
        → IfOk result (λ gates. IsGroupWith D.seen D.may_leave disk.old disk.new gates.1 p (layout_in laid.old index.now.state) (slots_in laid.old) o) }
    ensures any_moment { (p : State) (o : Kind) → body.items ≡ op_bytes o → MayKeep (layout_in laid.old index.now.state) o → IsGroupOn D.seen D.may_leave disk.old staged p (layout_in laid.old index.now.state) (slots_in laid.old)
        → LeavesOnly D.moment D.left_since disk.old disk.new (StandsForEither p (told_plain (D.seen disk.old) index.now.state)) ⊎ Unchanged D.seen D.may_leave D.moment D.left_since disk.old disk.new }
    ensures honest { IsHonest (D.seen disk.old) → IsHonest (D.seen disk.new) }
    ensures full { IsErrOf result StoreFault.Full → IsPast (kind_of (layout_in laid.old index.now.state)) (layout_in laid.old index.now.state) (slots_in laid.old) body.items }
    ensures within { is_ok result ≡ true ⊎ IsErrOf result StoreFault.Disk → IsPast (kind_of (layout_in laid.old index.now.state)) (layout_in laid.old index.now.state) (slots_in laid.old) body.items → ⊥ }
    ensures refused { OnErr result (laid.new ≡ laid.old) }
    ensures itself { D.identity disk.new ≡ D.identity disk.old }
    ensures counts { D.faults disk.old ≤ D.faults disk.new }
    ensures steady { IsErrOf result StoreFault.Disk ⊎ (D.faults disk.new ≡ D.faults disk.old) }
    ensures failed { IsErrOf result StoreFault.Disk → Rose (D.faults disk.old) (D.faults disk.new) }
    ensures stays { OnErr result (IsErrOf result StoreFault.Disk ⊎ Unchanged D.seen D.may_leave D.moment D.left_since disk.old disk.new) }
    ensures damaged { (place : ℕ) → result ≢ Err (StoreFault.Damaged place) }
    ensures needs_load { result ≢ Err StoreFault.NeedsLoad }
{
    let size = body.len() as u64;
    let (plan, next) = prepare_op(alloc, laid, index, body)?;
    let is_full = next.is_some();
    disk.reserve(plan.end().max(behind(staged)), plan.calls())?;
    write_staged(disk, &plan, is_full, staged)?;
    let old = mem::replace(laid, Laid::empty());
    let switched = old.switched(next);
    let gate = switched.gate();
    let _ = switched.full_ops();
    *laid = switched.with_record(size, true);
    Ok((gate, first_gate(staged, is_full, gate)))
}
