// How payloads are read from a disk.
ghost use Rattle.std.specs.Prelude.{◌≡◌, ◌≢◌, ◌⊎◌, ◌↔◌, ◌<◌, ◌≤◌, List, ℕ, length, map, IfOk, OnOk, IfSome, IsErrOf, Err, Some, true, false};
ghost use Rattle.ld_table.specs.Words.{numbers_from};
ghost use Rattle.ld_io.specs.Causes.{Rose};
ghost use Rattle.ld_disk.specs.Moments.{Unchanged};
ghost use Rattle.ld_disk.specs.Plain.{Plain as DiskPlain, reads_fine};
ghost use Rattle.ld_op.specs.Cells.{each_entry, each_body, byte_at};
ghost use Rattle.ld_op.specs.Drafts.{seen_said};
ghost use Rattle.ld_op.specs.Filled.{is_placed};
ghost use Rattle.ld_store.specs.Open.{within};

use crate::StoreFault;
use ld_disk::Disk;
use ld_ids::{NoMemory, Payload};
use ld_msg::{Body, Entries, Entry};
use ld_op::{Place, Pointed, Said};
use std::alloc::Global;

/// So many zeros.
fn zeros(alloc: Global, count: usize) -> Result<Vec<u8>, NoMemory>
    ensures { IfOk result (λ bytes. length bytes.items ≡ count) }
{
    let mut bytes = Vec::with_capacity(alloc, count)?;
    let _ = bytes.resize(count, 0);
    Ok(bytes)
}

/// The payload that stands at an offset of the disk, in one read; in none where it has no byte.
#[tactic(auto, using(ld_disk::proofs::Fine::fine_reads))]
pub(crate) fn read_payload<D: Disk>(
    alloc: Global,
    disk: &mut D,
    place: Place,
) -> Result<Payload, StoreFault>
    ensures payload { IfOk result (λ payload. IfSome (D.seen disk.old) (λ bytes. payload ≡ map (byte_at bytes) (numbers_from place.at place.len))) }
    ensures long { IfOk result (λ payload. length payload ≡ place.len) }
    ensures damaged { (at : ℕ) → IsErrOf result (StoreFault.Damaged at) → (at ≡ place.at)
        × IfSome (D.seen disk.old) (λ bytes. map (within (length bytes)) (numbers_from place.at place.len) ≢ numbers_from place.at place.len) }
    ensures exact { (p : DiskPlain) → D.plain disk.old ≡ Some p → reads_fine p ≡ true
        → (D.plain disk.new ≡ Some p) × (result ≢ Err StoreFault.Disk) }
    ensures same { Unchanged D.seen D.may_leave D.moment D.left_since disk.old disk.new }
    ensures itself { D.identity disk.new ≡ D.identity disk.old }
    ensures counts { D.faults disk.old ≤ D.faults disk.new }
    ensures steady { IsErrOf result StoreFault.Disk ⊎ (D.faults disk.new ≡ D.faults disk.old) }
    ensures failed { IsErrOf result StoreFault.Disk → Rose (D.faults disk.old) (D.faults disk.new) }
    ensures full { result ≢ Err StoreFault.Full }
    ensures needs_load { result ≢ Err StoreFault.NeedsLoad }
{
    if place.len == 0 {
        return Ok(Payload::new(Vec::new(alloc)));
    }
    let mut bytes = zeros(alloc, place.len as usize)?;
    let count = disk.read(place.at, &mut bytes)?;
    if count < bytes.len() {
        return Err(StoreFault::Damaged(place.at));
    }
    Ok(Payload::new(bytes))
}

/// An entry, with the payload that stands at its offset of the disk.
fn read_entry<D: Disk>(alloc: Global, disk: &mut D, pointed: &Pointed) -> Result<Entry, StoreFault>
    ensures entry { IfOk result (λ entry. IfSome (D.seen disk.old) (λ bytes. entry ≡ each_entry (byte_at bytes) pointed.now)) }
    ensures long { IfOk result (λ entry. each_entry (λ _. 0) entry ≡ each_entry (λ _. 0) pointed.now) }
    ensures damaged { (at : ℕ) → IsErrOf result (StoreFault.Damaged at)
        → IfSome (D.seen disk.old) (λ bytes. each_entry (within (length bytes)) pointed.now ≢ pointed.now) }
    ensures exact { (p : DiskPlain) → D.plain disk.old ≡ Some p → reads_fine p ≡ true
        → (D.plain disk.new ≡ Some p) × (result ≢ Err StoreFault.Disk) }
    ensures same { Unchanged D.seen D.may_leave D.moment D.left_since disk.old disk.new }
    ensures itself { D.identity disk.new ≡ D.identity disk.old }
    ensures counts { D.faults disk.old ≤ D.faults disk.new }
    ensures steady { IsErrOf result StoreFault.Disk ⊎ (D.faults disk.new ≡ D.faults disk.old) }
    ensures failed { IsErrOf result StoreFault.Disk → Rose (D.faults disk.old) (D.faults disk.new) }
    ensures full { result ≢ Err StoreFault.Full }
    ensures needs_load { result ≢ Err StoreFault.NeedsLoad }
{
    match pointed.place() {
        Some(place) => {
            let payload = read_payload(alloc, disk, place)?;
            Ok(pointed.with_payload(payload))
        }
        None => Ok(pointed.with_payload(Payload::new(Vec::new(alloc)))),
    }
}

/// Entries, with the payloads that stand at their offsets of the disk.
fn read_entries<D: Disk>(
    alloc: Global,
    disk: &mut D,
    pointers: &[Pointed],
) -> Result<Entries, StoreFault>
    ensures entries { IfOk result (λ entries. IfSome (D.seen disk.old) (λ bytes. entries ≡ map (each_entry (byte_at bytes)) pointers.now)) }
    ensures long { IfOk result (λ entries. map (each_entry (λ _. 0)) entries ≡ map (each_entry (λ _. 0)) pointers.now) }
    ensures damaged { (at : ℕ) → IsErrOf result (StoreFault.Damaged at)
        → IfSome (D.seen disk.old) (λ bytes. map (each_entry (within (length bytes))) pointers.now ≢ pointers.now) }
    ensures exact { (p : DiskPlain) → D.plain disk.old ≡ Some p → reads_fine p ≡ true
        → (D.plain disk.new ≡ Some p) × (result ≢ Err StoreFault.Disk) }
    ensures same { Unchanged D.seen D.may_leave D.moment D.left_since disk.old disk.new }
    ensures itself { D.identity disk.new ≡ D.identity disk.old }
    ensures counts { D.faults disk.old ≤ D.faults disk.new }
    ensures steady { IsErrOf result StoreFault.Disk ⊎ (D.faults disk.new ≡ D.faults disk.old) }
    ensures failed { IsErrOf result StoreFault.Disk → Rose (D.faults disk.old) (D.faults disk.new) }
    ensures full { result ≢ Err StoreFault.Full }
    ensures needs_load { result ≢ Err StoreFault.NeedsLoad }
{
    let mut entries = Entries::empty(alloc);
    for pointed in pointers {
        let entry = read_entry(alloc, disk, pointed)?;
        entries.push(entry)?;
    }
    Ok(entries)
}

/// What a message says, with the payloads that stand at their offsets of the disk.
pub(crate) fn read_body<D: Disk>(
    alloc: Global,
    disk: &mut D,
    said: Said,
) -> Result<Body, StoreFault>
    requires placed { is_placed said ≡ true }
    ensures body { IfOk result (λ body. IfSome (D.seen disk.old) (λ bytes. body ≡ each_body (byte_at bytes) (seen_said said))) }
    ensures long { IfOk result (λ body. each_body (λ _. 0) body ≡ each_body (λ _. 0) (seen_said said)) }
    ensures damaged { (at : ℕ) → IsErrOf result (StoreFault.Damaged at)
        → IfSome (D.seen disk.old) (λ bytes. each_body (within (length bytes)) (seen_said said) ≢ seen_said said) }
    ensures exact { (p : DiskPlain) → D.plain disk.old ≡ Some p → reads_fine p ≡ true
        → (D.plain disk.new ≡ Some p) × (result ≢ Err StoreFault.Disk) }
    ensures same { Unchanged D.seen D.may_leave D.moment D.left_since disk.old disk.new }
    ensures itself { D.identity disk.new ≡ D.identity disk.old }
    ensures counts { D.faults disk.old ≤ D.faults disk.new }
    ensures steady { IsErrOf result StoreFault.Disk ⊎ (D.faults disk.new ≡ D.faults disk.old) }
    ensures failed { IsErrOf result StoreFault.Disk → Rose (D.faults disk.old) (D.faults disk.new) }
    ensures full { result ≢ Err StoreFault.Full }
    ensures needs_load { result ≢ Err StoreFault.NeedsLoad }
{
    match said {
        Said::Whole(body) => Ok(body),
        Said::Digest {
            from,
            upto,
            trim,
            lng,
            entries,
        } => {
            let entries = read_entries(alloc, disk, entries.as_slice())?;
            Ok(Body::DigestPage {
                from,
                upto,
                trim,
                lng,
                entries,
            })
        }
        Said::Page {
            round,
            from,
            upto,
            clean,
            entries,
        } => {
            let entries = read_entries(alloc, disk, entries.as_slice())?;
            Ok(Body::ReadPage {
                round,
                from,
                upto,
                clean,
                entries,
            })
        }
    }
}
