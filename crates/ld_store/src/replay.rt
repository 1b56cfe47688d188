// How the records of a segment are replayed.
ghost use Rattle.std.specs.Prelude.{◌≡◌, ◌≢◌, ◌⊎◌, ◌≤◌, ◌<◌, ◌+◌, ◌^◌, ◌∷◌, [], List, ℕ, length, IfOk, IfErr, IfSome, IfNone, OnOk, IsErrOf, Ok, Err, Some, None, true, false};
ghost use Rattle.ld_io.specs.Causes.{Rose};
ghost use Rattle.ld_disk.specs.Moments.{Unchanged};
ghost use Rattle.ld_disk.specs.Plain.{Plain as DiskPlain, reads_fine};
ghost use Rattle.ld_op.specs.declared.record.Record.{Record as Kind};
ghost use Rattle.ld_op.specs.declared.version.Version.{Version as Stage};
ghost use Rattle.ld_op.specs.Plain.{Plain as State, apply, op_length};
ghost use Rattle.ld_op.specs.Records.{applied, version_after, body_length};
ghost use Rattle.ld_op.specs.Bounds.{IsOp, IsRecord};
ghost use Rattle.ld_op.specs.Bytes.{record_bytes};
ghost use Rattle.ld_op.specs.Cells.{placed};
ghost use Rattle.ld_segment.specs.Slots.{head_bytes};
ghost use Rattle.ld_segment.specs.Ops.{op_count, placed_record};
ghost use Rattle.ld_store.specs.Ops.{IsBodyOf, IsBodyOrHead, IsHead, IsDamagedRow};
ghost use Rattle.ld_store.specs.Well.{IsWell};
ghost use Rattle.ld_store.specs.Replayed.{HasReplayed, Replayed, IsWithRecord, walked};
ghost use Rattle.ld_store.specs.declared.replay.Walk.{Walk as Walked};

use crate::StoreFault;
use byteorder::{BigEndian, ByteOrder};
use ld_disk::Disk;
use ld_ids::NoMemory;
use ld_journal::read_record;
use ld_op::{Op, OpFault, Plain, Record, Version};
use ld_segment::head;
use std::alloc::Global;

/// How far the records of a segment were replayed: the version of the journal so far, the gate behind them, how many of
/// them are ops, and how many bytes the first takes, or none where there is none.
#[derive(Clone, Copy)]
pub(crate) struct Walk {
    pub(crate) version: Version,
    pub(crate) at: u64,
    pub(crate) ops: u64,
    pub(crate) first: u64,
}

/// What stands behind the records that were replayed.
#[derive(Clone, Copy)]
pub(crate) enum Next {
    /// One more, which was replayed too.
    Record(Walk),
    /// A gate that ends them.
    End,
    /// A head, which names this offset.
    Head(u64),
}

/// The record at an offset of a journal of some version so far, and the version with it.
fn decoded(
    alloc: Global,
    body: &[u8],
    version: Version,
    at: u64,
) -> Result<(Record, Version), StoreFault>
    ensures found { IfOk result (λ p. (body.now ≡ record_bytes p.0) × IsRecord p.0 × (version_after version p.0 ≡ Some p.1)) }
    ensures refused { IfErr result (λ fault. (fault ≡ StoreFault.NoMemory)
        ⊎ ((fault ≡ StoreFault.Damaged at) × ((v : Kind) (w : Stage) → IsRecord v → version_after version v ≡ Some w → body.now ≢ record_bytes v))) }
{
    match Record::decode(alloc, body) {
        Ok(found) => match version.after(&found) {
            Some(next) => Ok((found, next)),
            None => Err(StoreFault::Damaged(at)),
        },
        Err(OpFault::Bad(_)) => Err(StoreFault::Damaged(at)),
        Err(OpFault::NoMemory) => Err(StoreFault::NoMemory),
    }
}

/// Applies an op, whose body stands from this offset of the disk on.
#[tactic(auto, using(crate::proofs::Formats::op_rises))]
fn apply_op(alloc: Global, index: &mut Plain, op: Op, at: u64) -> Result<(), NoMemory>
    requires op { IsOp op }
    requires fits { at + op_length op < 2 ^ 64 }
    ensures { OnOk result (index.new.state ≡ apply index.old.state (placed at op)) }
{
    index.room(alloc, &op)?;
    index.apply(op, at);
    Ok(())
}

/// Does what a record makes of the index; its body stands from this offset of the disk on.
#[tactic(auto, using(crate::proofs::Placing::older_longer))]
fn apply_record(alloc: Global, index: &mut Plain, found: Record, at: u64) -> Result<(), NoMemory>
    requires record { IsRecord found }
    requires fits { at + body_length found + 1 < 2 ^ 64 }
    ensures { OnOk result (index.new.state ≡ applied index.old.state (placed_record at found)) }
{
    match found {
        Record::Now(op) => apply_op(alloc, index, op, at),
        Record::Before(op) => apply_op(alloc, index, op, at),
        Record::Mark => Ok(()),
    }
}

/// How many ops it is: a mark is none.
fn ops_in(found: &Record) -> u64
    ensures count { result ≡ op_count (found.now ∷ []) }
    ensures most { result ≤ 1 }
{
    match found {
        Record::Mark => 0,
        Record::Now(_) => 1,
        Record::Before(_) => 1,
    }
}

impl Walk {
    /// Before the first record, whose gate is at this offset.
    pub(crate) fn from(version: Version, at: u64) -> Walk
        ensures { result ≡ record { version = version; at = at; ops = 0; first = 0 } }
    {
        Walk {
            version,
            at,
            ops: 0,
            first: 0,
        }
    }

    /// With a record more, whose body has so many bytes.
    fn with_record(self, version: Version, size: u64, ops: u64) -> Walk
        requires at { self.at + 5 + size < 2 ^ 64 }
        requires ops { self.ops + ops < 2 ^ 64 }
        ensures { result ≡ walked self version size ops }
    {
        let first = if self.first == 0 {
            5 + size
        } else {
            self.first
        };
        Walk {
            version,
            at: self.at + 5 + size,
            ops: self.ops + ops,
            first,
        }
    }
}

/// Does what the record behind those that were replayed makes of the index.
fn replay_body(
    alloc: Global,
    index: &mut Plain,
    body: &[u8],
    walk: Walk,
) -> Result<Walk, StoreFault>
    requires well { IsWell index.old.state }
    requires fits { walk.at + length body.now + 6 < 2 ^ 64 }
    requires ops { walk.ops ≤ walk.at }
    ensures applied { IfOk result (λ next. IsWithRecord walk body.now index.old.state next index.new.state) }
    ensures refused { IfErr result (λ fault. (fault ≡ StoreFault.NoMemory) ⊎ ((fault ≡ StoreFault.Damaged walk.at) × (IsBodyOf walk.version body.now → ⊥))) }
    ensures well { OnOk result (IsWell index.new.state) }
    ensures ops { IfOk result (λ next. next.ops ≤ next.at) }
{
    let (found, version) = decoded(alloc, body, walk.version, walk.at)?;
    let ops = ops_in(&found);
    apply_record(alloc, index, found, walk.at + 5)?;
    Ok(walk.with_record(version, body.len() as u64, ops))
}

/// The offset that a head's body names; none where the body is no head's.
fn head_in(body: &[u8]) -> Option<u64>
    ensures head { IfSome result (λ place. (body.now ≡ head_bytes place) × (place < 2 ^ 64)) }
    ensures other { IfNone result (IsHead body.now → ⊥) }
{
    if body.len() != 9 {
        return None;
    }
    let place = BigEndian::read_u64(&body[1..]);
    if body == &head(place)[..] {
        Some(place)
    } else {
        None
    }
}

/// Replays the next record of a segment, on a disk of so many bytes, or tells what ends its records.
fn replay_next<D: Disk>(
    alloc: Global,
    disk: &mut D,
    len: u64,
    index: &mut Plain,
    body: &mut Vec<u8>,
    walk: Walk,
) -> Result<Next, StoreFault>
    requires well { IsWell index.old.state }
    requires ops { walk.ops ≤ walk.at }
    ensures more { (next : Walked) → result ≡ Ok (Next.Record next) → (from : ℕ) (opening : Stage) (base : State) (bytes : List ℕ) → D.seen disk.old ≡ Some bytes → len ≡ length bytes
        → HasReplayed from opening base bytes walk index.old.state → HasReplayed from opening base bytes next index.new.state }
    ensures end { result ≡ Ok Next.End → (from : ℕ) (opening : Stage) (base : State) (bytes : List ℕ) → D.seen disk.old ≡ Some bytes → len ≡ length bytes
        → HasReplayed from opening base bytes walk index.old.state → Replayed from opening base bytes walk index.new.state None }
    ensures head { (place : ℕ) → result ≡ Ok (Next.Head place) → (from : ℕ) (opening : Stage) (base : State) (bytes : List ℕ) → D.seen disk.old ≡ Some bytes → len ≡ length bytes
        → HasReplayed from opening base bytes walk index.old.state → Replayed from opening base bytes walk index.new.state (Some place) }
    ensures damaged { (place : ℕ) → IsErrOf result (StoreFault.Damaged place) → (from : ℕ) (opening : Stage) (base : State) (bytes : List ℕ) → D.seen disk.old ≡ Some bytes → len ≡ length bytes
        → HasReplayed from opening base bytes walk index.old.state → IsDamagedRow IsBodyOrHead from opening place bytes }
    ensures advances { (next : Walked) → result ≡ Ok (Next.Record next) → (walk.at < next.at) × (next.at < len) × (next.ops ≤ next.at) }
    ensures within { (place : ℕ) → result ≡ Ok (Next.Head place) → walk.at + 14 < len }
    ensures well { OnOk result (IsWell index.new.state) }
    ensures exact { (p : DiskPlain) → D.plain disk.old ≡ Some p → reads_fine p ≡ true
        → (D.plain disk.new ≡ Some p) × (result ≢ Err StoreFault.Disk) }
    ensures same { Unchanged D.seen D.may_leave D.moment D.left_since disk.old disk.new }
    ensures itself { D.identity disk.new ≡ D.identity disk.old }
    ensures counts { D.faults disk.old ≤ D.faults disk.new }
    ensures steady { IsErrOf result StoreFault.Disk ⊎ (D.faults disk.new ≡ D.faults disk.old) }
    ensures failed { IsErrOf result StoreFault.Disk → Rose (D.faults disk.old) (D.faults disk.new) }
    ensures full { result ≢ Err StoreFault.Full }
    ensures needs_load { result ≢ Err StoreFault.NeedsLoad }
{
    match read_record(disk, walk.at, len, body)? {
        None => Ok(Next::End),
        Some(_) => {
            if let Some(place) = head_in(body) {
                return Ok(Next::Head(place));
            }
            let next = replay_body(alloc, index, body, walk)?;
            Ok(Next::Record(next))
        }
    }
}

/// Replays the records of a segment from an offset on, on a disk of so many bytes, and says how far that goes, and which
/// offset a head names that stands there.
pub(crate) fn replay<D: Disk>(
    alloc: Global,
    disk: &mut D,
    len: u64,
    index: &mut Plain,
    walk: Walk,
) -> Result<(Walk, Option<u64>), StoreFault>
    requires well { IsWell index.old.state }
    requires ops { walk.ops ≤ walk.at }
    ensures replayed { IfOk result (λ r. (from : ℕ) (opening : Stage) (base : State) (bytes : List ℕ) → D.seen disk.old ≡ Some bytes → len ≡ length bytes
        → HasReplayed from opening base bytes walk index.old.state → Replayed from opening base bytes r.0 index.new.state r.1) }
    ensures damaged { (place : ℕ) → IsErrOf result (StoreFault.Damaged place) → (from : ℕ) (opening : Stage) (base : State) (bytes : List ℕ) → D.seen disk.old ≡ Some bytes → len ≡ length bytes
        → HasReplayed from opening base bytes walk index.old.state → IsDamagedRow IsBodyOrHead from opening place bytes }
    ensures within { IfOk result (λ r. IfSome r.1 (λ _. r.0.at + 14 < len)) }
    ensures well { OnOk result (IsWell index.new.state) }
    ensures exact { (p : DiskPlain) → D.plain disk.old ≡ Some p → reads_fine p ≡ true
        → (D.plain disk.new ≡ Some p) × (result ≢ Err StoreFault.Disk) }
    ensures same { Unchanged D.seen D.may_leave D.moment D.left_since disk.old disk.new }
    ensures itself { D.identity disk.new ≡ D.identity disk.old }
    ensures counts { D.faults disk.old ≤ D.faults disk.new }
    ensures steady { IsErrOf result StoreFault.Disk ⊎ (D.faults disk.new ≡ D.faults disk.old) }
    ensures failed { IsErrOf result StoreFault.Disk → Rose (D.faults disk.old) (D.faults disk.new) }
    ensures full { result ≢ Err StoreFault.Full }
    ensures needs_load { result ≢ Err StoreFault.NeedsLoad }
{
    let mut body = Vec::new(alloc);
    let mut walk = walk;
    'records: loop {
        match replay_next(alloc, disk, len, index, &mut body, walk)? {
            Next::Record(next) => walk = next,
            Next::End => return Ok((walk, None)),
            Next::Head(place) => return Ok((walk, Some(place))),
        }
    }
}
