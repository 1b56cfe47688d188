// How the changes of a journal are replayed.
ghost use Rattle.std.specs.Prelude.{◌≡◌, ◌≢◌, ◌⊎◌, ◌<◌, ◌≤◌, [], List, ℕ, length, IfErr, OnOk, OnErr, IsErrOf, Ok, Err, Some, true, false};
ghost use Rattle.ld_io.specs.Causes.{Rose};
ghost use Rattle.ld_disk.specs.Moments.{Unchanged};
ghost use Rattle.ld_disk.specs.Plain.{Plain as DiskPlain, reads_fine};
ghost use Rattle.ld_journal.specs.Open.{HasGiven, disk_of, place_of, length_of, has_ended, must_load};
ghost use Rattle.ld_msg.specs.Register.{Register as Held, empty_register};
ghost use Rattle.ld_register.specs.declared.change.Change.{Change as Step};
ghost use Rattle.ld_register.specs.Calls.{IsFree};
ghost use Rattle.ld_register.specs.Changes.{IsNext, changed};
ghost use Rattle.ld_register.specs.Kept.{register_of};
ghost use Rattle.ld_register.specs.Stands.{IsDamaged, HasReplayed, IsReplayed};

use crate::RegisterFault;
use crate::change::Change;
use crate::contents::Contents;
use ld_disk::Disk;
use ld_journal::Journal;
use std::alloc::Global;

/// Makes the change of the record at an offset, where it is the next one.
pub(crate) fn replay_body(
    alloc: Global,
    contents: &mut Contents,
    body: &[u8],
    at: u64,
) -> Result<(), RegisterFault>
    ensures made { OnOk result ((c : Held) → register_of contents.old c.length ≡ c
        → (x : Step) × IsNext c body.now x × (register_of contents.new (changed c x).length ≡ changed c x)) }
    ensures refused { IfErr result (λ fault. (fault ≡ RegisterFault.NoMemory)
        ⊎ ((fault ≡ RegisterFault.Damaged at) × ((c : Held) → register_of contents.old c.length ≡ c → (x : Step) → IsNext c body.now x → ⊥))) }
{
    let Some(change) = Change::read(body) else {
        return Err(RegisterFault::Damaged(at));
    };
    if !contents.is_next(&change) {
        return Err(RegisterFault::Damaged(at));
    }
    contents.room(alloc, &change)?;
    contents.apply(&change);
    Ok(())
}

/// Replays the next record, and says whether there was one.
pub(crate) fn replay_next<D: Disk>(
    alloc: Global,
    journal: &mut Journal<D>,
    contents: &mut Contents,
    body: &mut Vec<u8>,
) -> Result<bool, RegisterFault>
    requires works { must_load journal.old ≡ false }
    ensures more { result ≡ Ok true → (bytes : List ℕ) → HasReplayed D.seen D.may_leave journal.old bytes contents.old
        → HasReplayed D.seen D.may_leave journal.new bytes contents.new }
    ensures all { result ≡ Ok false → (bytes : List ℕ) → HasReplayed D.seen D.may_leave journal.old bytes contents.old
        → (c : Held) × IsReplayed D.seen D.may_leave journal.new contents.new c }
    ensures damaged { (place : ℕ) → IsErrOf result (RegisterFault.Damaged place) → (bytes : List ℕ)
        → HasReplayed D.seen D.may_leave journal.old bytes contents.old → IsDamaged place bytes }
    ensures exact { (p : DiskPlain) → D.plain (disk_of journal.old) ≡ Some p → reads_fine p ≡ true
        → (D.plain (disk_of journal.new) ≡ Some p) × (result ≢ Err RegisterFault.Failed) }
    ensures ended { result ≡ Ok false → has_ended journal.new ≡ true }
    ensures advances { result ≡ Ok true → (place_of journal.old < place_of journal.new) × (place_of journal.new < length_of journal.new) }
    ensures len { length_of journal.new ≡ length_of journal.old }
    ensures same { Unchanged D.seen D.may_leave D.moment D.left_since (disk_of journal.old) (disk_of journal.new) }
    ensures steady { IsErrOf result RegisterFault.Failed ⊎ (D.faults (disk_of journal.new) ≡ D.faults (disk_of journal.old)) }
    ensures itself { D.identity (disk_of journal.new) ≡ D.identity (disk_of journal.old) }
    ensures counts { D.faults (disk_of journal.old) ≤ D.faults (disk_of journal.new) }
    ensures failed { IsErrOf result RegisterFault.Failed → Rose (D.faults (disk_of journal.old)) (D.faults (disk_of journal.new)) }
    ensures works { OnOk result (must_load journal.new ≡ false) }
    ensures free { OnErr result (IsFree result) }
{
    let at = journal.place();
    let more = journal.next_body(body)?;
    if !more {
        return Ok(false);
    }
    replay_body(alloc, contents, body, at)?;
    Ok(true)
}

/// Replays the records of a journal of which none was given yet.
pub(crate) fn replay<D: Disk>(
    alloc: Global,
    journal: &mut Journal<D>,
    contents: &mut Contents,
) -> Result<(), RegisterFault>
    requires works { must_load journal.old ≡ false }
    requires new { register_of contents.old 1 ≡ empty_register }
    ensures replayed { OnOk result ((bytes : List ℕ) → HasGiven D.seen D.may_leave journal.old [] bytes
        → (c : Held) × IsReplayed D.seen D.may_leave journal.new contents.new c) }
    ensures damaged { (place : ℕ) → IsErrOf result (RegisterFault.Damaged place) → (bytes : List ℕ)
        → HasGiven D.seen D.may_leave journal.old [] bytes → IsDamaged place bytes }
    ensures exact { (p : DiskPlain) → D.plain (disk_of journal.old) ≡ Some p → reads_fine p ≡ true
        → (D.plain (disk_of journal.new) ≡ Some p) × (result ≢ Err RegisterFault.Failed) }
    ensures ended { OnOk result (has_ended journal.new ≡ true) }
    ensures same { Unchanged D.seen D.may_leave D.moment D.left_since (disk_of journal.old) (disk_of journal.new) }
    ensures steady { IsErrOf result RegisterFault.Failed ⊎ (D.faults (disk_of journal.new) ≡ D.faults (disk_of journal.old)) }
    ensures itself { D.identity (disk_of journal.new) ≡ D.identity (disk_of journal.old) }
    ensures counts { D.faults (disk_of journal.old) ≤ D.faults (disk_of journal.new) }
    ensures failed { IsErrOf result RegisterFault.Failed → Rose (D.faults (disk_of journal.old)) (D.faults (disk_of journal.new)) }
    ensures works { OnOk result (must_load journal.new ≡ false) }
    ensures free { OnErr result (IsFree result) }
{
    let mut body = Vec::new(alloc);
    'records: while replay_next(alloc, journal, contents, &mut body)? {}
    Ok(())
}
