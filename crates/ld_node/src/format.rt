// Keeping the record of a format under what was drawn.
ghost use Rattle.std.specs.Prelude.{◌≡◌, ◌≢◌, ◌⊎◌, ◌↔◌, ◌≤◌, ℕ, IfOk, OnOk, OnErr, IsErrOf, Err, Some, true, false};
ghost use Rattle.ld_io.specs.Causes.{Rose};
ghost use Rattle.ld_disk.specs.Images.{IsHonest};
ghost use Rattle.ld_disk.specs.Moments.{LeavesOnly, Unchanged};
ghost use Rattle.ld_disk.specs.Plain.{Plain as DiskPlain};
ghost use Rattle.ld_op.specs.Bounds.{IsOp};
ghost use Rattle.ld_op.specs.Plain.{apply, op_length};
ghost use Rattle.ld_layout.specs.Layout.{kept_in};
ghost use Rattle.ld_segment.specs.Lies.{slots_with};
ghost use Rattle.ld_store.specs.Ops.{StandsForEither};
ghost use Rattle.ld_store.specs.Open.{disk_of, layout_of, slots_of, must_load, is_blank, index_of, plain_of, Holds};
ghost use Rattle.ld_register.specs.declared.fault.RegisterFault.{RegisterFault};
ghost use Rattle.ld_node.specs.Changes.{IsPast};
ghost use Rattle.ld_node.specs.Formats.{format_of, KeepsFormat};

use crate::NodeFault;
use crate::epochs::copy;
use ld_disk::Disk;
use ld_register::Drawn;
use ld_store::Store;
use std::alloc::Global;

/// Formats a blank store under what was drawn, and gives that back.
pub(crate) fn format_store<D: Disk>(
    alloc: Global,
    store: &mut Store<D>,
    drawn: Drawn,
) -> Result<Drawn, NodeFault>
    requires blank { is_blank store.old ≡ true }
    requires op { IsOp (format_of drawn) }
    requires works { must_load store.old ≡ false }
    ensures given { IfOk result (λ given. given ≡ drawn) }
    ensures applied { Holds D.seen D.may_leave store.old → IfOk result (λ given. plain_of store.new ≡ apply (plain_of store.old) (format_of drawn)) }
    ensures laid { OnOk result ((layout_of store.new ≡ kept_in (layout_of store.old) (format_of drawn)) × (slots_of store.new ≡ slots_with (layout_of store.old) (slots_of store.old) (op_length (format_of drawn)))) }
    ensures formatted { OnOk result (is_blank store.new ≡ false) }
    ensures acknowledged { Holds D.seen D.may_leave store.old → OnOk result (Holds D.seen D.may_leave store.new) }
    ensures any_moment { Holds D.seen D.may_leave store.old
        → LeavesOnly D.moment D.left_since (disk_of store.old) (disk_of store.new) (StandsForEither (plain_of store.old) (apply (plain_of store.old) (format_of drawn))) }
    ensures exact { (disk : DiskPlain) → Holds D.seen D.may_leave store.old → D.plain (disk_of store.old) ≡ Some disk
        → IsErrOf result NodeFault.NoMemory ⊎ KeepsFormat (layout_of store.old) (slots_of store.old) disk drawn (D.plain (disk_of store.new)) result }
    ensures honest { IsHonest (D.seen (disk_of store.old)) → IsHonest (D.seen (disk_of store.new)) }
    ensures refused { OnErr result ((index_of store.new ≡ index_of store.old) × (layout_of store.new ≡ layout_of store.old) × (slots_of store.new ≡ slots_of store.old) × (is_blank store.new ≡ is_blank store.old)) }
    ensures full { Holds D.seen D.may_leave store.old → IsErrOf result NodeFault.Full → IsPast (layout_of store.old) (Some (format_of drawn)) }
    ensures too_long { IsPast (layout_of store.old) (Some (format_of drawn)) → IsErrOf result NodeFault.Full ⊎ IsErrOf result NodeFault.NoMemory }
    ensures needs_load { result ≢ Err NodeFault.NeedsLoad }
    ensures loads { (must_load store.new ≡ true) ↔ IsErrOf result NodeFault.Disk }
    ensures damaged { (place : ℕ) → result ≢ Err (NodeFault.Damaged place) }
    ensures register { (fault : RegisterFault) → result ≢ Err (NodeFault.Register fault) }
    ensures itself { D.identity (disk_of store.new) ≡ D.identity (disk_of store.old) }
    ensures counts { D.faults (disk_of store.old) ≤ D.faults (disk_of store.new) }
    ensures steady { IsErrOf result NodeFault.Disk ⊎ (D.faults (disk_of store.new) ≡ D.faults (disk_of store.old)) }
    ensures failed { IsErrOf result NodeFault.Disk → Rose (D.faults (disk_of store.old)) (D.faults (disk_of store.new)) }
    ensures stays { OnErr result (IsErrOf result NodeFault.Disk ⊎ Unchanged D.seen D.may_leave D.moment D.left_since (disk_of store.old) (disk_of store.new)) }
    ensures keeps { OnErr result (IsErrOf result NodeFault.Disk ⊎ ((D.plain (disk_of store.new) ≡ D.plain (disk_of store.old)) × (layout_of store.new ≡ layout_of store.old))) }
    ensures holds { Holds D.seen D.may_leave store.old → OnErr result (IsErrOf result NodeFault.Disk ⊎ Holds D.seen D.may_leave store.new) }
{
    let epochs = copy(alloc, &drawn.epochs)?;
    store.format(alloc, drawn.gen_, epochs)?;
    Ok(drawn)
}
