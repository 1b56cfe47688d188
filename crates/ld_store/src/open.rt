// How a disk is opened: it is read, and a journal of the first version marked.
ghost use Rattle.std.specs.Prelude.{◌≡◌, ◌≢◌, ◌⊎◌, ◌≤◌, ◌<◌, List, ℕ, length, IfOk, OnOk, OnErr, IsErrOf, Err, Some, is_ok, true, false};
ghost use Rattle.ld_io.specs.Causes.{Rose};
ghost use Rattle.ld_disk.specs.Moments.{LeavesOnly, Unchanged};
ghost use Rattle.ld_disk.specs.Plain.{Plain as DiskPlain, reads_fine, after_calls, all_succeed};
ghost use Rattle.ld_op.specs.Plain.{Plain as State};
ghost use Rattle.ld_op.specs.Bytes.{record_bytes};
ghost use Rattle.ld_segment.specs.Stays.{Rests};
ghost use Rattle.ld_segment.specs.Lies.{IsRowTorn, row_made, mark_row, marked_in, slots_with};
ghost use Rattle.ld_store.specs.Ops.{StandsFor, IsOfFirst, IsMarkedOrNot, HasNoRoom, IfStands};
ghost use Rattle.ld_store.specs.Well.{IsWell};
ghost use Rattle.ld_store.specs.Laid.{layout_in, slots_in, IsPast};
ghost use Rattle.ld_store.specs.Loads.{Marks, refused_by};
ghost use Rattle.ld_store.specs.Read.{IsOut};
ghost use Rattle.ld_store.specs.Opened.{IsSettled, IsOpen, IsBlank};
ghost use Rattle.ld_layout.specs.declared.segment.Growth.TheVariants.{Still};

use crate::StoreFault;
use crate::laid::Laid;
use crate::read::{Journal, read};
use crate::write::write_record;
use ld_disk::Disk;
use ld_ids::NoMemory;
use ld_op::{Plain, Record};
use std::alloc::Global;

/// The first byte of a Base in a journal of the first version.
const OLDER: u8 = 9;

/// A journal that was opened: where its segments lie, its index, and whether no record stands in it.
#[derive(Drop)]
pub(crate) struct Opened {
    pub(crate) laid: Laid,
    pub(crate) index: Plain,
    pub(crate) blank: bool,
}

/// The body of a mark's record.
fn mark_body(alloc: Global) -> Result<Vec<u8>, NoMemory>
    ensures { IfOk result (λ body. body.items ≡ record_bytes Record.Mark) }
{
    let body = Vec::from_slice(alloc, &Record::mark_bytes())?;
    Ok(body)
}

/// Marks a journal, as one more record, in a new segment where the current one is full.
fn mark<D: Disk>(
    alloc: Global,
    disk: &mut D,
    laid: &mut Laid,
    index: &Plain,
) -> Result<(), StoreFault>
    ensures layout { OnOk result (layout_in laid.new index.now.state ≡ marked_in (layout_in laid.old index.now.state)) }
    ensures slots { OnOk result (slots_in laid.new ≡ slots_with (layout_in laid.old index.now.state) (slots_in laid.old) 2) }
    ensures rests { (b : List ℕ) → Rests D.seen D.may_leave disk.old b → OnOk result (Rests D.seen D.may_leave disk.new (row_made 9 (layout_in laid.old index.now.state) (slots_in laid.old) (record_bytes Record.Mark) b)) }
    ensures any_moment { (b : List ℕ) → Rests D.seen D.may_leave disk.old b
        → LeavesOnly D.moment D.left_since disk.old disk.new (IsRowTorn 9 (layout_in laid.old index.now.state) (slots_in laid.old) (record_bytes Record.Mark) b) ⊎ Unchanged D.seen D.may_leave D.moment D.left_since disk.old disk.new }
    ensures exact { (p : DiskPlain) → D.plain disk.old ≡ Some p → (is_ok result ≡ true ⊎ IsErrOf result StoreFault.Disk)
        → (D.plain disk.new ≡ Some (after_calls (mark_row (layout_in laid.old index.now.state) (slots_in laid.old)) p))
        × (is_ok result ≡ all_succeed (mark_row (layout_in laid.old index.now.state) (slots_in laid.old)) p) }
    ensures full { IsErrOf result StoreFault.Full → IsPast 9 (layout_in laid.old index.now.state) (slots_in laid.old) (record_bytes Record.Mark) }
    ensures within { is_ok result ≡ true ⊎ IsErrOf result StoreFault.Disk → IsPast 9 (layout_in laid.old index.now.state) (slots_in laid.old) (record_bytes Record.Mark) → ⊥ }
    ensures itself { D.identity disk.new ≡ D.identity disk.old }
    ensures counts { D.faults disk.old ≤ D.faults disk.new }
    ensures steady { IsErrOf result StoreFault.Disk ⊎ (D.faults disk.new ≡ D.faults disk.old) }
    ensures failed { IsErrOf result StoreFault.Disk → Rose (D.faults disk.old) (D.faults disk.new) }
    ensures stays { OnErr result (IsErrOf result StoreFault.Disk ⊎ (Unchanged D.seen D.may_leave D.moment D.left_since disk.old disk.new × (D.plain disk.new ≡ D.plain disk.old))) }
    ensures damaged { (place : ℕ) → result ≢ Err (StoreFault.Damaged place) }
    ensures needs_load { result ≢ Err StoreFault.NeedsLoad }
{
    let body = mark_body(alloc)?;
    write_record(alloc, disk, laid, index, OLDER, body, false)?;
    Ok(())
}

/// Reads a disk of so many bytes, and marks its journal where it is of the first version.
pub(crate) fn open<D: Disk>(alloc: Global, disk: &mut D, len: u64) -> Result<Opened, StoreFault>
    ensures opened { IfOk result (λ o. (bytes : List ℕ) → IsSettled D.seen D.may_leave disk.old len bytes → IsOpen D.seen D.may_leave disk.new o.laid o.index.state o.blank bytes) }
    ensures blank { IfOk result (λ o. (bytes : List ℕ) → IsSettled D.seen D.may_leave disk.old len bytes → IsBlank o.blank bytes) }
    ensures well { IfOk result (λ o. IsWell o.index.state) }
    ensures still { IfOk result (λ o. o.laid.layout.grows ≡ Still) }
    ensures damaged { (place : ℕ) → IsErrOf result (StoreFault.Damaged place) → (bytes : List ℕ) → IsSettled D.seen D.may_leave disk.old len bytes → IsOut place bytes }
    ensures any_moment { (bytes : List ℕ) → IsSettled D.seen D.may_leave disk.old len bytes → LeavesOnly D.moment D.left_since disk.old disk.new (IsMarkedOrNot bytes) ⊎ Unchanged D.seen D.may_leave D.moment D.left_since disk.old disk.new }
    ensures reads { OnErr result (IsErrOf result StoreFault.Disk ⊎ Unchanged D.seen D.may_leave D.moment D.left_since disk.old disk.new) }

    // Without a mark it makes no writing call.
    ensures exact { (p : DiskPlain) (state : State) → D.plain disk.old ≡ Some p → reads_fine p ≡ true → IsSettled D.seen D.may_leave disk.old len p.state.bytes → StandsFor state p.state.bytes
        → ¬ IsOfFirst p.state.bytes → (D.plain disk.new ≡ Some p) × (result ≢ Err StoreFault.Disk) }
    ensures damaged_exact { (p : DiskPlain) (place : ℕ) → D.plain disk.old ≡ Some p → reads_fine p ≡ true → IsErrOf result (StoreFault.Damaged place) → D.plain disk.new ≡ Some p }
    ensures marks { (p : DiskPlain) (was : IsOfFirst p.state.bytes) → D.plain disk.old ≡ Some p → reads_fine p ≡ true → IsSettled D.seen D.may_leave disk.old len p.state.bytes
        → Marks was.layout was.slots p (D.plain disk.new) (refused_by result) }

    ensures seen { (bytes : List ℕ) → IsSettled D.seen D.may_leave disk.old len bytes → OnOk result ((D.seen disk.new ≡ D.seen disk.old) ⊎ IfStands IsOfFirst bytes) }
    ensures full { IsErrOf result StoreFault.Full → (bytes : List ℕ) → IsSettled D.seen D.may_leave disk.old len bytes → IfStands HasNoRoom bytes }
    ensures too_long { OnOk result ((bytes : List ℕ) → IsSettled D.seen D.may_leave disk.old len bytes → ¬ HasNoRoom bytes) }
    ensures itself { D.identity disk.new ≡ D.identity disk.old }
    ensures counts { D.faults disk.old ≤ D.faults disk.new }
    ensures steady { IsErrOf result StoreFault.Disk ⊎ (D.faults disk.new ≡ D.faults disk.old) }
    ensures failed { IsErrOf result StoreFault.Disk → Rose (D.faults disk.old) (D.faults disk.new) }
    ensures needs_load { result ≢ Err StoreFault.NeedsLoad }
{
    let Journal {
        laid,
        index,
        version,
    } = read(alloc, disk, len)?;
    if !version.is_first() {
        return Ok(Opened {
            laid,
            index,
            blank: version.is_blank(),
        });
    }
    let mut laid = laid;
    mark(alloc, disk, &mut laid, &index)?;
    Ok(Opened {
        laid,
        index,
        blank: version.is_blank(),
    })
}
