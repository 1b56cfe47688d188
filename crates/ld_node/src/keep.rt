// Keeping an op, where a handler led to one.
ghost use Rattle.std.specs.Prelude.{◌≡◌, ◌≢◌, ◌⊎◌, ◌↔◌, ◌≤◌, ℕ, OnOk, OnErr, IsErrOf, Ok, Err, None, Some, is_ok, true, false};
ghost use Rattle.ld_io.specs.Causes.{Rose};
ghost use Rattle.ld_disk.specs.Images.{IsHonest};
ghost use Rattle.ld_disk.specs.Moments.{LeavesOnly, Unchanged};
ghost use Rattle.ld_disk.specs.Plain.{Plain as DiskPlain, after_calls, all_succeed};
ghost use Rattle.ld_op.specs.Plain.{Plain};
ghost use Rattle.ld_store.specs.Ops.{StandsForEither};
ghost use Rattle.ld_store.specs.Ahead.{HoldsOr};
ghost use Rattle.ld_node.specs.Staged.{HoldsEither};
ghost use Rattle.ld_store.specs.Open.{disk_of, layout_of, slots_of, must_load, is_blank, index_of, plain_of, Holds};
ghost use Rattle.ld_node.specs.Changes.{AreChanges, kept, laid_with, slots_kept, calls_of, IsPast};
ghost use Rattle.ld_register.specs.declared.fault.RegisterFault.{RegisterFault};

use crate::NodeFault;
use ld_disk::Disk;
use ld_op::Op;
use ld_store::Store;
use std::alloc::Global;

/// Makes an op durable and applies it, where there is one.
pub(crate) fn keep<D: Disk>(
    alloc: Global,
    store: &mut Store<D>,
    op: Option<Op>,
) -> Result<(), NodeFault>
    requires op { AreChanges op }
    requires formatted { is_blank store.old ≡ false }
    requires works { must_load store.old ≡ false }
    ensures acknowledged { Holds D.seen D.may_leave store.old → OnOk result (Holds D.seen D.may_leave store.new) }
    ensures any_moment { Holds D.seen D.may_leave store.old
        → LeavesOnly D.moment D.left_since (disk_of store.old) (disk_of store.new) (StandsForEither (plain_of store.old) (kept op (plain_of store.old))) }
    ensures none { op ≡ None → result ≡ Ok tt }
    ensures none_kept { op ≡ None → store.new ≡ store.old }
    ensures applied { Holds D.seen D.may_leave store.old → OnOk result (plain_of store.new ≡ kept op (plain_of store.old)) }
    ensures laid { OnOk result ((layout_of store.new ≡ laid_with (layout_of store.old) op) × (slots_of store.new ≡ slots_kept (layout_of store.old) (slots_of store.old) op)) }
    ensures refused { OnErr result ((index_of store.new ≡ index_of store.old) × (layout_of store.new ≡ layout_of store.old) × (slots_of store.new ≡ slots_of store.old)) }
    ensures blank { is_blank store.new ≡ false }
    ensures exact { (p : DiskPlain) → D.plain (disk_of store.old) ≡ Some p → (result ≡ Ok tt ⊎ IsErrOf result NodeFault.Disk)
        → (D.plain (disk_of store.new) ≡ Some (after_calls (calls_of (layout_of store.old) (slots_of store.old) op) p)) × (is_ok result ≡ all_succeed (calls_of (layout_of store.old) (slots_of store.old) op) p) }
    ensures honest { IsHonest (D.seen (disk_of store.old)) → IsHonest (D.seen (disk_of store.new)) }
    ensures full { Holds D.seen D.may_leave store.old → IsErrOf result NodeFault.Full → IsPast (layout_of store.old) op }
    ensures too_long { IsPast (layout_of store.old) op → IsErrOf result NodeFault.Full ⊎ IsErrOf result NodeFault.NoMemory }
    ensures needs_load { result ≢ Err NodeFault.NeedsLoad }
    ensures loads { (must_load store.new ≡ true) ↔ IsErrOf result NodeFault.Disk }
    ensures damaged { (place : ℕ) → result ≢ Err (NodeFault.Damaged place) }
    ensures register { (fault : RegisterFault) → result ≢ Err (NodeFault.Register fault) }
    ensures itself { D.identity (disk_of store.new) ≡ D.identity (disk_of store.old) }
    ensures counts { D.faults (disk_of store.old) ≤ D.faults (disk_of store.new) }
    ensures steady { IsErrOf result NodeFault.Disk ⊎ (D.faults (disk_of store.new) ≡ D.faults (disk_of store.old)) }
    ensures failed { IsErrOf result NodeFault.Disk → Rose (D.faults (disk_of store.old)) (D.faults (disk_of store.new)) }
    ensures stays { OnErr result (IsErrOf result NodeFault.Disk ⊎ Unchanged D.seen D.may_leave D.moment D.left_since (disk_of store.old) (disk_of store.new)) }
    ensures keeps { OnErr result (IsErrOf result NodeFault.Disk ⊎ ((D.plain (disk_of store.new) ≡ D.plain (disk_of store.old)) × (layout_of store.new ≡ layout_of store.old))) }
    ensures holds { Holds D.seen D.may_leave store.old → OnErr result (IsErrOf result NodeFault.Disk ⊎ Holds D.seen D.may_leave store.new) }
{
    match op {
        Some(op) => {
            store.apply(alloc, op)?;
            Ok(())
        }
        None => Ok(()),
    }
}

/// Stages an op, where there is one.
pub(crate) fn stage<D: Disk>(
    alloc: Global,
    store: &mut Store<D>,
    op: Option<Op>,
) -> Result<(), NodeFault>
    requires op { AreChanges op }
    requires formatted { is_blank store.old ≡ false }
    requires works { must_load store.old ≡ false }
    ensures staged { (p : Plain) → HoldsOr D.seen D.may_leave store.old p → OnOk result (HoldsEither D.seen D.may_leave store.new p (plain_of store.old)) }
    ensures stays { (p : Plain) → HoldsOr D.seen D.may_leave store.old p → OnErr result (IsErrOf result NodeFault.Disk ⊎ ((plain_of store.new ≡ plain_of store.old) × HoldsEither D.seen D.may_leave store.new p (plain_of store.old))) }
    ensures any_moment { (p : Plain) → HoldsOr D.seen D.may_leave store.old p
        → LeavesOnly D.moment D.left_since (disk_of store.old) (disk_of store.new) (StandsForEither p (plain_of store.old)) }
    ensures none { op ≡ None → result ≡ Ok tt }
    ensures applied { (p : Plain) → HoldsOr D.seen D.may_leave store.old p → OnOk result (plain_of store.new ≡ kept op (plain_of store.old)) }
    ensures laid { OnOk result (layout_of store.new ≡ laid_with (layout_of store.old) op) }
    ensures refused { OnErr result ((index_of store.new ≡ index_of store.old) × (layout_of store.new ≡ layout_of store.old) × (slots_of store.new ≡ slots_of store.old)) }
    ensures blank { is_blank store.new ≡ false }
    ensures honest { IsHonest (D.seen (disk_of store.old)) → IsHonest (D.seen (disk_of store.new)) }
    ensures full { (p : Plain) → HoldsOr D.seen D.may_leave store.old p → IsErrOf result NodeFault.Full → IsPast (layout_of store.old) op }
    ensures needs_load { result ≢ Err NodeFault.NeedsLoad }
    ensures loads { (must_load store.new ≡ true) ↔ IsErrOf result NodeFault.Disk }
    ensures damaged { (place : ℕ) → result ≢ Err (NodeFault.Damaged place) }
    ensures register { (fault : RegisterFault) → result ≢ Err (NodeFault.Register fault) }
    ensures itself { D.identity (disk_of store.new) ≡ D.identity (disk_of store.old) }
    ensures counts { D.faults (disk_of store.old) ≤ D.faults (disk_of store.new) }
    ensures steady { IsErrOf result NodeFault.Disk ⊎ (D.faults (disk_of store.new) ≡ D.faults (disk_of store.old)) }
    ensures failed { IsErrOf result NodeFault.Disk → Rose (D.faults (disk_of store.old)) (D.faults (disk_of store.new)) }
{
    match op {
        Some(op) => {
            store.stage(alloc, op)?;
            Ok(())
        }
        None => Ok(()),
    }
}
