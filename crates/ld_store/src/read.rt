// How a disk is read: the first segment, and the later one that its head names.
ghost use Rattle.std.specs.Prelude.{◌≡◌, ◌≢◌, ◌⊎◌, ◌≤◌, ◌<◌, ◌+◌, ◌-◌, ◌^◌, ◌++◌, List, ℕ, min, length, IfOk, IfSome, IfNone, OnOk, OnErr, IsErrOf, Err, Some, None, true, false};
ghost use Rattle.ld_io.specs.Causes.{Rose};
ghost use Rattle.ld_disk.specs.Moments.{Unchanged};
ghost use Rattle.ld_disk.specs.Plain.{Plain as DiskPlain, reads_fine};
ghost use Rattle.ld_journal.specs.Rest.{IsParted, IsShut};
ghost use Rattle.ld_msg.specs.Register.{journal_limit};
ghost use Rattle.ld_op.specs.declared.version.Version.TheVariants.{Blank};
ghost use Rattle.ld_op.specs.Cells.{each_plain};
ghost use Rattle.ld_op.specs.Plain.{Plain as State, unformatted};
ghost use Rattle.ld_layout.specs.LaidOut.{segment_of};
ghost use Rattle.ld_layout.specs.Layout.{least_for, room_for};
ghost use Rattle.ld_store.specs.Well.{IsWell};
ghost use Rattle.ld_store.specs.Replayed.{Replayed};
ghost use Rattle.ld_store.specs.Read.{IsLaterRead, IsRead, IsOut};
ghost use Rattle.ld_store.specs.Ops.{IsDamagedIn, within};
ghost use Rattle.ld_store.specs.Laid.{slots_in};
ghost use Rattle.ld_segment.specs.Found.{slots_of};
ghost use Rattle.ld_segment.specs.Later.{IsThere};
ghost use Rattle.ld_layout.specs.declared.segment.Growth.TheVariants.{Still};

use crate::StoreFault;
use crate::laid::Laid;
use crate::replay::{Walk, replay};
use ld_disk::Disk;
use ld_journal::read_record;
use ld_layout::{
    Areas, Based, Growth, LEAST_ROOM, LIMIT, Layout, Segment, WIDE_BASES, WIDE_ROOM, growth_told,
};
use ld_op::{Plain, Version};
use ld_segment::{Found, Later, read_later};
use std::alloc::Global;

/// A journal that was read: where its segments lie, its index, and its version.
#[derive(Drop)]
pub(crate) struct Journal {
    pub(crate) laid: Laid,
    pub(crate) index: Plain,
    pub(crate) version: Version,
}

/// Refuses where the gate at this offset, which is the head's own, is open.
fn end_of_head<D: Disk>(alloc: Global, disk: &mut D, at: u64, len: u64) -> Result<(), StoreFault>
    ensures shut { OnOk result ((front rest : List ℕ) → IsParted D.seen disk.old at front rest → IsShut rest) }
    ensures damaged { (place : ℕ) → IsErrOf result (StoreFault.Damaged place) → (front rest : List ℕ)
        → IsParted D.seen disk.old at front rest → len ≡ length (front ++ rest) → (place ≡ at) × (IsShut rest → ⊥) }
    ensures exact { (p : DiskPlain) → D.plain disk.old ≡ Some p → reads_fine p ≡ true
        → (D.plain disk.new ≡ Some p) × (result ≢ Err StoreFault.Disk) }
    ensures same { Unchanged D.seen D.may_leave D.moment D.left_since disk.old disk.new }
    ensures itself { D.identity disk.new ≡ D.identity disk.old }
    ensures counts { D.faults disk.old ≤ D.faults disk.new }
    ensures steady { IsErrOf result StoreFault.Disk ⊎ (D.faults disk.new ≡ D.faults disk.old) }
    ensures failed { IsErrOf result StoreFault.Disk → Rose (D.faults disk.old) (D.faults disk.new) }
    ensures full { result ≢ Err StoreFault.Full }
    ensures needs_load { result ≢ Err StoreFault.NeedsLoad }
{
    let mut body = Vec::new(alloc);
    match read_record(disk, at, len, &mut body)? {
        None => Ok(()),
        Some(_) => Err(StoreFault::Damaged(at)),
    }
}

/// The least space for records behind the Base at this offset that ends at a gate.
fn least_behind(grows: Growth, place: u64, gate: u64) -> u64
    ensures { result ≡ min (least_for grows (gate - (place + 5))) (2 ^ 64 - 1) }
{
    let base = gate.saturating_sub(place).saturating_sub(5);
    match grows {
        Growth::Still => LEAST_ROOM,
        Growth::Based => base.max(LEAST_ROOM),
        Growth::Wide => base.saturating_mul(WIDE_BASES).max(WIDE_ROOM),
    }
}

/// The segment of a Base at this offset, which ends at a gate, with the records behind it; none where it would pass the
/// limit.
fn segment_behind(
    place: u64,
    gate: u64,
    based: u64,
    areas: Areas,
    number: u64,
    grows: Growth,
    last: Walk,
) -> Option<Segment>
    ensures some { IfSome result (λ g. segment_of g ≡ record { place = place; based = based; ops = last.ops; end = last.at; limit = gate + 1 + room_for (least_for grows (gate - (place + 5))) last.first; areas = areas; number = number; grows = grows }) }
    ensures none { IfNone result (journal_limit < gate + 1 + room_for (least_for grows (gate - (place + 5))) last.first) }
{
    let room = last.first.max(least_behind(grows, place, gate));
    let limit = gate.saturating_add(1).saturating_add(room);
    if LIMIT < limit {
        return None;
    }
    Some(Segment {
        place,
        based,
        ops: last.ops,
        end: last.at,
        limit,
        areas,
        number,
        grows,
    })
}

/// Reads what the head that stands behind the records of the first segment, which were replayed, names: slots at this
/// offset, whether they stand right behind it or not.
fn read_behind<D: Disk>(
    alloc: Global,
    disk: &mut D,
    len: u64,
    walk: Walk,
    head: u64,
) -> Result<Journal, StoreFault>
    requires within { walk.at + 14 < len }
    ensures read { IfOk result (λ j. (closed : State) (bytes : List ℕ) → D.seen disk.old ≡ Some bytes → len ≡ length bytes
        → Replayed 0 Blank unformatted bytes walk closed (Some head) → IsLaterRead bytes j.laid j.index.state j.version) }
    ensures damaged { (place : ℕ) → IsErrOf result (StoreFault.Damaged place) → (closed : State) (bytes : List ℕ) → D.seen disk.old ≡ Some bytes → len ≡ length bytes
        → Replayed 0 Blank unformatted bytes walk closed (Some head) → IsOut place bytes }
    ensures well { IfOk result (λ j. IsWell j.index.state) }
    ensures still { IfOk result (λ j. j.laid.layout.grows ≡ Still) }
    ensures exact { (p : DiskPlain) → D.plain disk.old ≡ Some p → reads_fine p ≡ true
        → (D.plain disk.new ≡ Some p) × (result ≢ Err StoreFault.Disk) }
    ensures same { Unchanged D.seen D.may_leave D.moment D.left_since disk.old disk.new }
    ensures itself { D.identity disk.new ≡ D.identity disk.old }
    ensures counts { D.faults disk.old ≤ D.faults disk.new }
    ensures steady { IsErrOf result StoreFault.Disk ⊎ (D.faults disk.new ≡ D.faults disk.old) }
    ensures failed { IsErrOf result StoreFault.Disk → Rose (D.faults disk.old) (D.faults disk.new) }
    ensures full { result ≢ Err StoreFault.Full }
    ensures needs_load { result ≢ Err StoreFault.NeedsLoad }
{
    end_of_head(alloc, disk, walk.at + 14, len)?;
    if LIMIT < head.saturating_add(34) {
        return Err(StoreFault::Damaged(head));
    }
    let later = read_later(alloc, disk, head, len, walk.version)?;
    read_rest(alloc, disk, len, walk, head, later)
}

/// Whether each payload of the index stands before the end of a disk of so many bytes.
fn stands_within(index: &Plain, len: u64) -> bool
    ensures within { result ≡ true → each_plain (within len) index.now.state ≡ index.now.state }
    ensures past { result ≡ false → each_plain (within len) index.now.state ≢ index.now.state }
{
    index.lies_within(len)
}

/// Reads the records behind a Base that was read.
fn read_rest<D: Disk>(
    alloc: Global,
    disk: &mut D,
    len: u64,
    walk: Walk,
    head: u64,
    later: Later,
) -> Result<Journal, StoreFault>
    requires within { later.gate < len }
    requires well { IsWell later.based.index.state }
    ensures read { IfOk result (λ j. (closed : State) (bytes : List ℕ) → D.seen disk.old ≡ Some bytes → len ≡ length bytes
        → (first : Replayed 0 Blank unformatted bytes walk closed (Some head)) → IsShut first.stops.begins.after → IsThere walk.version head later bytes → IsLaterRead bytes j.laid j.index.state j.version) }
    ensures damaged { (place : ℕ) → IsErrOf result (StoreFault.Damaged place) → (bytes : List ℕ) → D.seen disk.old ≡ Some bytes → len ≡ length bytes
        → IsThere walk.version head later bytes → IsDamagedIn walk.version head place bytes }
    ensures well { IfOk result (λ j. IsWell j.index.state) }
    ensures still { IfOk result (λ j. j.laid.layout.grows ≡ Still) }
    ensures exact { (p : DiskPlain) → D.plain disk.old ≡ Some p → reads_fine p ≡ true
        → (D.plain disk.new ≡ Some p) × (result ≢ Err StoreFault.Disk) }
    ensures same { Unchanged D.seen D.may_leave D.moment D.left_since disk.old disk.new }
    ensures itself { D.identity disk.new ≡ D.identity disk.old }
    ensures counts { D.faults disk.old ≤ D.faults disk.new }
    ensures steady { IsErrOf result StoreFault.Disk ⊎ (D.faults disk.new ≡ D.faults disk.old) }
    ensures failed { IsErrOf result StoreFault.Disk → Rose (D.faults disk.old) (D.faults disk.new) }
    ensures full { result ≢ Err StoreFault.Full }
    ensures needs_load { result ≢ Err StoreFault.NeedsLoad }
{
    let Later {
        found,
        based,
        version,
        gate,
    } = later;
    let Based { kind, index, areas } = based;
    if !areas.lie_within(len) {
        return Err(StoreFault::Damaged(found.place));
    }
    let based = index.entry_count();
    let mut index = index;
    let (last, next) = replay(alloc, disk, len, &mut index, Walk::from(version, gate))?;
    if let Some(_) = next {
        return Err(StoreFault::Damaged(last.at));
    }
    if !stands_within(&index, len) {
        return Err(StoreFault::Damaged(found.place));
    }
    match segment_behind(
        found.place,
        gate,
        based,
        areas,
        found.number,
        growth_told(kind),
        last,
    ) {
        Some(segment) => Ok(Journal {
            laid: laid_behind(walk, segment, found),
            index,
            version: last.version,
        }),
        None => Err(StoreFault::Damaged(found.place)),
    }
}

/// The first segment's records, the current segment behind them, and the slots that name it.
fn laid_behind(walk: Walk, segment: Segment, found: Found) -> Laid
    ensures layout { result.layout ≡ record { ops = walk.ops; end = walk.at; later = Some segment; grows = Still } }
    ensures slots { slots_in result ≡ slots_of found }
{
    Laid {
        layout: Layout {
            ops: walk.ops,
            end: walk.at,
            later: Some(segment),
            grows: Growth::Still,
        },
        this: found.this,
        other: found.other,
        is_open: found.is_open,
    }
}

/// The first segment's records alone; there are no slots.
fn laid_alone(walk: Walk) -> Laid
    ensures { result.layout ≡ record { ops = walk.ops; end = walk.at; later = None; grows = Still } }
{
    Laid {
        layout: Layout {
            ops: walk.ops,
            end: walk.at,
            later: None,
            grows: Growth::Still,
        },
        this: 0,
        other: 0,
        is_open: false,
    }
}

/// Reads a disk of so many bytes.
pub(crate) fn read<D: Disk>(alloc: Global, disk: &mut D, len: u64) -> Result<Journal, StoreFault>
    ensures read { IfOk result (λ j. (bytes : List ℕ) → D.seen disk.old ≡ Some bytes → len ≡ length bytes → 0 < length bytes → IsRead bytes j.laid j.index.state j.version) }
    ensures damaged { (place : ℕ) → IsErrOf result (StoreFault.Damaged place) → (bytes : List ℕ) → D.seen disk.old ≡ Some bytes → len ≡ length bytes → 0 < length bytes → IsOut place bytes }
    ensures well { IfOk result (λ j. IsWell j.index.state) }
    ensures still { IfOk result (λ j. j.laid.layout.grows ≡ Still) }
    ensures exact { (p : DiskPlain) → D.plain disk.old ≡ Some p → reads_fine p ≡ true
        → (D.plain disk.new ≡ Some p) × (result ≢ Err StoreFault.Disk) }
    ensures same { Unchanged D.seen D.may_leave D.moment D.left_since disk.old disk.new }
    ensures itself { D.identity disk.new ≡ D.identity disk.old }
    ensures counts { D.faults disk.old ≤ D.faults disk.new }
    ensures steady { IsErrOf result StoreFault.Disk ⊎ (D.faults disk.new ≡ D.faults disk.old) }
    ensures failed { IsErrOf result StoreFault.Disk → Rose (D.faults disk.old) (D.faults disk.new) }
    ensures full { result ≢ Err StoreFault.Full }
    ensures needs_load { result ≢ Err StoreFault.NeedsLoad }
{
    let mut index = Plain::new(alloc);
    let (walk, head) = replay(alloc, disk, len, &mut index, Walk::from(Version::Blank, 0))?;
    match head {
        Some(place) => read_behind(alloc, disk, len, walk, place),
        None => Ok(Journal {
            laid: laid_alone(walk),
            index,
            version: walk.version,
        }),
    }
}
