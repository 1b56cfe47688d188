// What stands behind the head: the slot that counts, and the Base that it names.
ghost use Rattle.std.specs.Prelude.{◌≡◌, ◌≢◌, ◌⊎◌, ◌<◌, ◌≤◌, ◌+◌, ◌^◌, List, ℕ, length, IfOk, IfSome, IsErrOf, Err, Some, true};
ghost use Rattle.ld_io.specs.Causes.{Rose};
ghost use Rattle.ld_disk.specs.Moments.{Unchanged};
ghost use Rattle.ld_disk.specs.Plain.{Plain, reads_fine};
ghost use Rattle.ld_ids.specs.Bytes.{AreBytes};
ghost use Rattle.ld_fields.specs.Fields.{Got};
ghost use Rattle.ld_op.specs.declared.version.Version.{Version as Stage};
ghost use Rattle.ld_op.specs.Plain.{Plain as Whole};
ghost use Rattle.ld_layout.specs.Base.{Base, judge_base};
ghost use Rattle.ld_layout.specs.LaidOut.{base_of};
ghost use Rattle.ld_layout.specs.Layout.{Segment};
ghost use Rattle.ld_segment.specs.Lies.{Slots, after_base, IsLater};
ghost use Rattle.ld_segment.specs.Found.{slots_of};
ghost use Rattle.ld_segment.specs.Later.{IsThere, IsDamagedBehind, IsJudged, IsReadAs};
ghost use Rattle.ld_segment.specs.declared.later.Later.{Later as Read};

use crate::body::read_body;
use crate::find::read_current;
use crate::found::Found;
use ld_disk::Disk;
use ld_journal::JournalFault;
use ld_layout::{Based, decode_base};
use ld_op::{OpFault, Version};
use std::alloc::Global;

/// What was read behind the head: which slot counts, the Base that it names, the version of the journal behind that, and
/// the gate there.
#[derive(Drop)]
pub struct Later {
    pub found: Found,
    pub based: Based,
    pub version: Version,
    pub gate: u64,
}

/// A later segment is read as it lies: its number, its offset, its areas, its Base with the first byte of that, and the
/// slots, of which the one that doesn't count may be open or not. It isn't refused where it lies behind the slots.
pub fn segments_are_read()
    ensures read { (opening version : Stage) (head : ℕ) (z : Slots) (g : Segment) (index : Whole) (bytes : List ℕ) (c : Read) → (is : IsLater opening version head z g index bytes)
        → g.number < 2 ^ 64 → g.place < 2 ^ 64 → IsThere opening head c bytes → IsReadAs c z g is.current.kind is.current.base is.current.from }
    ensures slots { (opening version : Stage) (head : ℕ) (z : Slots) (g : Segment) (index : Whole) (bytes : List ℕ) (c : Read) → IsLater opening version head z g index bytes
        → g.number < 2 ^ 64 → g.place < 2 ^ 64 → IsThere opening head c bytes → IsLater opening version head (slots_of c.found) g index bytes }
    ensures none { (opening version : Stage) (head place : ℕ) (z : Slots) (g : Segment) (index : Whole) (bytes : List ℕ) → IsLater opening version head z g index bytes
        → g.number < 2 ^ 64 → g.place < 2 ^ 64 → head + 34 ≤ g.place → IsDamagedBehind opening head place bytes → ⊥ }
{}

/// Reads the slots behind the head, whose first has this offset, and the Base that they name, on a disk of so many bytes.
/// It refuses as `read_current` does where no slot counts, and with `Damaged(place)`, the Base's offset, where no Base
/// stands there, or no version may stand behind it where the first segment is of this one.
pub fn read_later<D: Disk>(
    alloc: Global,
    disk: &mut D,
    head: u64,
    len: u64,
    opening: Version,
) -> Result<Later, JournalFault>
    requires bound { head + 34 < 2 ^ 64 }
    ensures later { IfOk result (λ c. IfSome (D.seen disk.old) (λ bytes. len ≡ length bytes → IsThere opening head c bytes)) }
    ensures judged { IfOk result (λ c. IsJudged c) }
    ensures within { IfOk result (λ c. c.gate < len) }
    ensures damaged { (place : ℕ) → IsErrOf result (JournalFault.Damaged place)
        → IfSome (D.seen disk.old) (λ bytes. len ≡ length bytes → IsDamagedBehind opening head place bytes) }
    ensures exact { (p : Plain) → D.plain disk.old ≡ Some p → reads_fine p ≡ true
        → (D.plain disk.new ≡ Some p) × (result ≢ Err JournalFault.Disk) }
    ensures same { Unchanged D.seen D.may_leave D.moment D.left_since disk.old disk.new }
    ensures failed { IsErrOf result JournalFault.Disk → Rose (D.faults disk.old) (D.faults disk.new) }
    ensures itself { D.identity disk.new ≡ D.identity disk.old }
    ensures counts { D.faults disk.old ≤ D.faults disk.new }
    ensures steady { IsErrOf result JournalFault.Disk ⊎ (D.faults disk.new ≡ D.faults disk.old) }
    ensures full { result ≢ Err JournalFault.Full }
    ensures needs_load { result ≢ Err JournalFault.NeedsLoad }
{
    let found = read_current(disk, head)?;
    let body = read_body(alloc, disk, found.place, len)?;
    let (based, version) = judged(alloc, &body, opening, found.place)?;
    let gate = found.place + 5 + body.len() as u64;
    Ok(Later {
        found,
        based,
        version,
        gate,
    })
}

/// The Base that the body of the record at an offset is, and the version behind it.
fn judged(
    alloc: Global,
    body: &[u8],
    opening: Version,
    at: u64,
) -> Result<(Based, Version), JournalFault>
    ensures based { IfOk result (λ p. (judge_base body.now ≡ Got (base_of p.0) (length body.now)) × (after_base p.0.kind opening ≡ Some p.1)) }
    ensures damaged { (place : ℕ) → IsErrOf result (JournalFault.Damaged place)
        → (place ≡ at) × ((b : Base) (version : Stage) → judge_base body.now ≡ Got b (length body.now) → after_base b.kind opening ≡ Some version → ⊥) }
    ensures bytes { AreBytes body.now }
    ensures disk { result ≢ Err JournalFault.Disk }
    ensures full { result ≢ Err JournalFault.Full }
    ensures needs_load { result ≢ Err JournalFault.NeedsLoad }
{
    match decode_base(alloc, body) {
        Ok(based) => match behind_base(based.kind, opening) {
            Some(version) => Ok((based, version)),
            None => Err(JournalFault::Damaged(at)),
        },
        Err(OpFault::Bad(_)) => Err(JournalFault::Damaged(at)),
        Err(OpFault::NoMemory) => Err(JournalFault::NoMemory),
    }
}

/// The version behind a Base of this kind, where it may stand in a journal whose first segment is of that version. None
/// stands where no record stands before the head.
fn behind_base(kind: u8, opening: Version) -> Option<Version>
    ensures { result ≡ after_base kind opening }
{
    if opening.is_blank() {
        return None;
    }
    if kind == 13 || kind == 14 || kind == 15 {
        return Some(Version::Second);
    }
    if kind == 9 && opening.is_first() {
        return Some(Version::First);
    }
    None
}
