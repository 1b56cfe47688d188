// Writing a record, in a new segment where the current one is full.
ghost use Rattle.std.specs.Prelude.{◌≡◌, ◌≢◌, ◌⊎◌, ◌<◌, ◌≤◌, ◌+◌, ◌^◌, List, ℕ, length, OnOk, OnErr, IfOk, IfSome, IfNone, IsErrOf, Err, Some, is_ok, is_some, true, false};
ghost use Rattle.ld_io.specs.Causes.{Rose};
ghost use Rattle.ld_disk.specs.Images.{IsHonest};
ghost use Rattle.ld_disk.specs.Moments.{LeavesOnly, Unchanged};
ghost use Rattle.ld_disk.specs.Plain.{Plain as DiskPlain, after_calls, all_succeed};
ghost use Rattle.ld_msg.specs.Register.{record_length, journal_limit};
ghost use Rattle.ld_layout.specs.LaidOut.{gate_behind, ops_behind, recorded, segment_of, is_past};
ghost use Rattle.ld_layout.specs.Layout.{kind_of, switches};
ghost use Rattle.ld_segment.specs.Stays.{Rests};
ghost use Rattle.ld_segment.specs.Lies.{IsRowTorn, row_of, row_made, segment_for, slots_with};
ghost use Rattle.ld_segment.specs.Plans.{IsReady, seen_plan, planned, planned_end};
ghost use Rattle.ld_store.specs.Laid.{layout_in, slots_in, placed_in, IsPast};
ghost use Rattle.ld_store.specs.declared.laid.Laid.{Laid as Lying};

use crate::StoreFault;
use crate::laid::Laid;
use ld_disk::Disk;
use ld_layout::{LIMIT, Segment, base_kind};
use ld_op::Plain;
use ld_segment::{Plan, write_op};
use std::alloc::Global;
use std::mem;

/// The plan of a record of this body, and the new segment that it needs, where there is one. A Base begins with `kind`.
pub(crate) fn prepare(
    alloc: Global,
    laid: &Laid,
    index: &Plain,
    kind: u8,
    body: Vec<u8>,
) -> Result<(Plan, Option<Segment>), StoreFault>
    requires fits { length body.items < 2 ^ 32 }
    ensures ready { IfOk result (λ p. IsReady p.0) }
    ensures plan { IfOk result (λ p. seen_plan p.0 ≡ planned kind (layout_in laid.now index.now.state) (slots_in laid.now) body.items) }
    ensures next { IfOk result (λ p. IfSome p.1 (λ g. segment_of g ≡ segment_for (layout_in laid.now index.now.state) (length body.items))) }
    ensures stays { IfOk result (λ p. is_some p.1 ≡ switches (layout_in laid.now index.now.state) (length body.items)) }
    ensures within { IfOk result (λ p. IfSome p.1 (λ g. is_past index.now.state (segment_of g) ≡ false)) }
    ensures near { OnOk result ((laid.now.layout.end ≤ journal_limit) × (gate_behind laid.now.layout.end laid.now.layout.later ≤ journal_limit)) }
    ensures end { IfOk result (λ p. planned_end (seen_plan p.0) ≤ journal_limit) }
    ensures full { IsErrOf result StoreFault.Full → IsPast kind (layout_in laid.now index.now.state) (slots_in laid.now) body.items }
    ensures memory { OnErr result (IsErrOf result StoreFault.Full ⊎ IsErrOf result StoreFault.NoMemory) }
{
    if LIMIT < laid.layout.end || LIMIT < laid.gate() {
        return Err(StoreFault::Full);
    }
    match Plan::of(
        alloc,
        &laid.layout,
        index,
        laid.other,
        laid.is_open,
        kind,
        body,
    )? {
        Some((plan, next)) => {
            if LIMIT < plan.end() {
                return Err(StoreFault::Full);
            }
            Ok((plan, next))
        }
        None => Err(StoreFault::Full),
    }
}

/// The same, where a Base is of the second version.
pub(crate) fn prepare_op(
    alloc: Global,
    laid: &Laid,
    index: &Plain,
    body: Vec<u8>,
) -> Result<(Plan, Option<Segment>), StoreFault>
    requires fits { length body.items < 2 ^ 32 }
    ensures ready { IfOk result (λ p. IsReady p.0) }
    ensures plan { IfOk result (λ p. seen_plan p.0 ≡ planned (kind_of (layout_in laid.now index.now.state)) (layout_in laid.now index.now.state) (slots_in laid.now) body.items) }
    ensures next { IfOk result (λ p. IfSome p.1 (λ g. segment_of g ≡ segment_for (layout_in laid.now index.now.state) (length body.items))) }
    ensures stays { IfOk result (λ p. is_some p.1 ≡ switches (layout_in laid.now index.now.state) (length body.items)) }
    ensures within { IfOk result (λ p. IfSome p.1 (λ g. is_past index.now.state (segment_of g) ≡ false)) }
    ensures near { OnOk result ((laid.now.layout.end ≤ journal_limit) × (gate_behind laid.now.layout.end laid.now.layout.later ≤ journal_limit)) }
    ensures end { IfOk result (λ p. planned_end (seen_plan p.0) ≤ journal_limit) }
    ensures full { IsErrOf result StoreFault.Full → IsPast (kind_of (layout_in laid.now index.now.state)) (layout_in laid.now index.now.state) (slots_in laid.now) body.items }
    ensures memory { OnErr result (IsErrOf result StoreFault.Full ⊎ IsErrOf result StoreFault.NoMemory) }
{
    prepare(alloc, laid, index, base_kind(laid.layout.grows), body)
}

/// Writes a record of this body, in a new segment where the current one is full, and gives its gate. A Base begins with
/// `kind`. All memory is taken before the first call of the disk.
///
/// It refuses with `Full` where the record, or the segment that it needs, would pass 2^40 bytes, and with `NoMemory`; then
/// nothing has changed. It refuses with `Disk` where a call of the disk failed.
pub(crate) fn write_record<D: Disk>(
    alloc: Global,
    disk: &mut D,
    laid: &mut Laid,
    index: &Plain,
    kind: u8,
    body: Vec<u8>,
    is_op: bool,
) -> Result<u64, StoreFault>
    requires fits { length body.items < 2 ^ 32 }
    ensures laid { IfOk result (λ gate. (mid : Lying) × (layout_in mid index.now.state ≡ placed_in (layout_in laid.old index.now.state) (length body.items)) × (laid.new.layout ≡ recorded mid.layout (length body.items) is_op)
        × (gate ≡ gate_behind mid.layout.end mid.layout.later)) }
    ensures slots { OnOk result (slots_in laid.new ≡ slots_with (layout_in laid.old index.now.state) (slots_in laid.old) (length body.items)) }
    ensures low { IfOk result (λ gate. gate + length body.items + 6 ≤ journal_limit) }
    ensures rests { (b : List ℕ) → Rests D.seen D.may_leave disk.old b → OnOk result (Rests D.seen D.may_leave disk.new (row_made kind (layout_in laid.old index.now.state) (slots_in laid.old) body.items b)) }
    ensures any_moment { (b : List ℕ) → Rests D.seen D.may_leave disk.old b
        → LeavesOnly D.moment D.left_since disk.old disk.new (IsRowTorn kind (layout_in laid.old index.now.state) (slots_in laid.old) body.items b) ⊎ Unchanged D.seen D.may_leave D.moment D.left_since disk.old disk.new }
    ensures exact { (p : DiskPlain) → D.plain disk.old ≡ Some p → (is_ok result ≡ true ⊎ IsErrOf result StoreFault.Disk)
        → (D.plain disk.new ≡ Some (after_calls (row_of kind (layout_in laid.old index.now.state) (slots_in laid.old) body.items) p))
        × (is_ok result ≡ all_succeed (row_of kind (layout_in laid.old index.now.state) (slots_in laid.old) body.items) p) }
    ensures honest { IsHonest (D.seen disk.old) → IsHonest (D.seen disk.new) }
    ensures full { IsErrOf result StoreFault.Full → IsPast kind (layout_in laid.old index.now.state) (slots_in laid.old) body.items }
    ensures within { is_ok result ≡ true ⊎ IsErrOf result StoreFault.Disk → IsPast kind (layout_in laid.old index.now.state) (slots_in laid.old) body.items → ⊥ }
    ensures refused { OnErr result (laid.new ≡ laid.old) }
    ensures itself { D.identity disk.new ≡ D.identity disk.old }
    ensures counts { D.faults disk.old ≤ D.faults disk.new }
    ensures steady { IsErrOf result StoreFault.Disk ⊎ (D.faults disk.new ≡ D.faults disk.old) }
    ensures failed { IsErrOf result StoreFault.Disk → Rose (D.faults disk.old) (D.faults disk.new) }
    ensures stays { OnErr result (IsErrOf result StoreFault.Disk ⊎ (Unchanged D.seen D.may_leave D.moment D.left_since disk.old disk.new × (D.plain disk.new ≡ D.plain disk.old))) }
    ensures damaged { (place : ℕ) → result ≢ Err (StoreFault.Damaged place) }
    ensures needs_load { result ≢ Err StoreFault.NeedsLoad }
{
    let size = body.len() as u64;
    let (plan, next) = prepare(alloc, laid, index, kind, body)?;
    disk.reserve(plan.end(), plan.calls())?;
    write_op(disk, &plan)?;
    let old = mem::replace(laid, Laid::empty());
    let switched = old.switched(next);
    let gate = switched.gate();
    let _ = switched.full_ops();
    *laid = switched.with_record(size, is_op);
    Ok(gate)
}

/// Writes an op's record, with a Base of the second version where a switch comes before it. It refuses as `write_record` does.
pub(crate) fn keep_op<D: Disk>(
    alloc: Global,
    disk: &mut D,
    laid: &mut Laid,
    index: &Plain,
    body: Vec<u8>,
) -> Result<u64, StoreFault>
    requires fits { length body.items < 2 ^ 32 }
    ensures laid { IfOk result (λ gate. (mid : Lying) × (layout_in mid index.now.state ≡ placed_in (layout_in laid.old index.now.state) (length body.items)) × (laid.new.layout ≡ recorded mid.layout (length body.items) true)
        × (gate ≡ gate_behind mid.layout.end mid.layout.later)) }
    ensures slots { OnOk result (slots_in laid.new ≡ slots_with (layout_in laid.old index.now.state) (slots_in laid.old) (length body.items)) }
    ensures low { IfOk result (λ gate. gate + length body.items + 6 ≤ journal_limit) }
    ensures rests { (b : List ℕ) → Rests D.seen D.may_leave disk.old b → OnOk result (Rests D.seen D.may_leave disk.new (row_made (kind_of (layout_in laid.old index.now.state)) (layout_in laid.old index.now.state) (slots_in laid.old) body.items b)) }
    ensures any_moment { (b : List ℕ) → Rests D.seen D.may_leave disk.old b
        → LeavesOnly D.moment D.left_since disk.old disk.new (IsRowTorn (kind_of (layout_in laid.old index.now.state)) (layout_in laid.old index.now.state) (slots_in laid.old) body.items b) ⊎ Unchanged D.seen D.may_leave D.moment D.left_since disk.old disk.new }
    ensures exact { (p : DiskPlain) → D.plain disk.old ≡ Some p → (is_ok result ≡ true ⊎ IsErrOf result StoreFault.Disk)
        → (D.plain disk.new ≡ Some (after_calls (row_of (kind_of (layout_in laid.old index.now.state)) (layout_in laid.old index.now.state) (slots_in laid.old) body.items) p))
        × (is_ok result ≡ all_succeed (row_of (kind_of (layout_in laid.old index.now.state)) (layout_in laid.old index.now.state) (slots_in laid.old) body.items) p) }
    ensures honest { IsHonest (D.seen disk.old) → IsHonest (D.seen disk.new) }
    ensures full { IsErrOf result StoreFault.Full → IsPast (kind_of (layout_in laid.old index.now.state)) (layout_in laid.old index.now.state) (slots_in laid.old) body.items }
    ensures within { is_ok result ≡ true ⊎ IsErrOf result StoreFault.Disk → IsPast (kind_of (layout_in laid.old index.now.state)) (layout_in laid.old index.now.state) (slots_in laid.old) body.items → ⊥ }
    ensures refused { OnErr result (laid.new ≡ laid.old) }
    ensures itself { D.identity disk.new ≡ D.identity disk.old }
    ensures counts { D.faults disk.old ≤ D.faults disk.new }
    ensures steady { IsErrOf result StoreFault.Disk ⊎ (D.faults disk.new ≡ D.faults disk.old) }
    ensures failed { IsErrOf result StoreFault.Disk → Rose (D.faults disk.old) (D.faults disk.new) }
    ensures stays { OnErr result (IsErrOf result StoreFault.Disk ⊎ (Unchanged D.seen D.may_leave D.moment D.left_since disk.old disk.new × (D.plain disk.new ≡ D.plain disk.old))) }
    ensures damaged { (place : ℕ) → result ≢ Err (StoreFault.Damaged place) }
    ensures needs_load { result ≢ Err StoreFault.NeedsLoad }
{
    write_record(
        alloc,
        disk,
        laid,
        index,
        base_kind(laid.layout.grows),
        body,
        true,
    )
}
