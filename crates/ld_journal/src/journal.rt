// Records of a gate, a length and a body. One counts exactly where its gate is 1.
use crate::JournalFault;
use crate::read::{read_record, settle};
use crate::record::{framed_behind_gate, write_record};
use ld_disk::{Disk, Fault};
use ld_io::Failed;
use std::alloc::Global;

const GREATEST_LEN: u64 = 1 << 40;

/// A journal and the disk that it owns.
#[derive(Drop)]
pub struct Journal<D: Disk> {
    disk: D,
    at: u64,
    len: u64,
    ended: bool,
    failed: bool,
}

impl<D: Disk> Journal<D> {
    ghost use Rattle.std.specs.Prelude.{◌≡◌, ◌≢◌, ◌⊎◌, ◌↔◌, ◌<◌, ◌≤◌, ◌+◌, ◌-◌, ◌^◌, ◌++◌, [], ◌∷◌, List, ℕ, length, min, take, drop, IfOk, IfErr, IfSome, MatchResult, OnOk, OnErr, IsErrOf, Ok, Err, Some, None, is_ok, true, false};
    ghost use Rattle.ld_disk.specs.Images.{IsHonest};
    ghost use Rattle.ld_io.specs.Causes.{Rose};
    ghost use Rattle.ld_disk.specs.Moments.{LeavesOnly, Unchanged};
    ghost use Rattle.ld_journal.specs.Format.{records, IsJournal, IsDamaged, IsCutShort, IsWithOrWithout, append_calls};
    ghost use Rattle.ld_disk.specs.Plain.{Plain, after_call, succeeds, after_calls, all_succeed, reads_fine, armed_with};
    ghost use Rattle.std.specs.Option.{option_map};
    ghost use Rattle.ld_journal.specs.Open.{IsSettled, HasGiven, disk_of, place_of, length_of, has_ended, must_load};

    /// Opens the journal on a disk: makes what is read safe from a crash, in one writing call. The bodies are then
    /// read one at a time by `next_body`.
    ///
    /// A refusal hands the disk back: `Disk` where a call of it failed, `Damaged(0)` where it has no byte, and
    /// `NoMemory`.
    pub fn load(disk: D) -> Result<Journal<D>, (D, JournalFault)>
        ensures opens { IfOk result (λ journal. IfSome (D.seen disk) (λ bytes. HasGiven D.seen D.may_leave journal [] bytes)) }
        ensures works { IfOk result (λ journal. (must_load journal ≡ false) × (has_ended journal ≡ false) × (place_of journal ≡ 0)) }
        ensures counts { MatchResult result (λ journal. D.faults disk ≤ D.faults (disk_of journal)) (λ e. D.faults disk ≤ D.faults e.0) }
        ensures steady { MatchResult result (λ journal. D.faults (disk_of journal) ≡ D.faults disk) (λ e. (e.1 ≡ JournalFault.Disk) ⊎ (D.faults e.0 ≡ D.faults disk)) }

        // A crash at any moment leaves what a crash before the call might have left.
        ensures any_moment { MatchResult result (λ journal. LeavesOnly D.moment D.left_since disk (disk_of journal) (D.may_leave disk))
            (λ e. LeavesOnly D.moment D.left_since disk e.0 (D.may_leave disk)) }

        // Where the disk tells what each call will do, it is one writing call.
        ensures exact { (p : Plain) → D.plain disk ≡ Some p → MatchResult result (λ journal. (D.plain (disk_of journal) ≡ Some (after_call None p)) × (succeeds p ≡ true))
            (λ e. ((e.1 ≡ JournalFault.NoMemory) × (D.plain e.0 ≡ Some p)) ⊎ ((D.plain e.0 ≡ Some (after_call None p)) × ((e.1 ≡ JournalFault.Disk) ↔ (succeeds p ≡ false)))) }

        ensures seen { MatchResult result (λ journal. D.seen (disk_of journal) ≡ D.seen disk) (λ e. (e.1 ≡ JournalFault.Disk) ⊎ (D.seen e.0 ≡ D.seen disk)) }
        ensures kept { IfErr result (λ e. e.1 ≡ JournalFault.NoMemory → Unchanged D.seen D.may_leave D.moment D.left_since disk e.0) }
        ensures failed { IfErr result (λ e. e.1 ≡ JournalFault.Disk → Rose (D.faults disk) (D.faults e.0)) }
        ensures damaged { IfErr result (λ e. (place : ℕ) → e.1 ≡ JournalFault.Damaged place → IfSome (D.seen disk) (IsDamaged place)) }
        ensures empty { IfErr result (λ e. (place : ℕ) → e.1 ≡ JournalFault.Damaged place → (place ≡ 0) × IfSome (D.seen disk) (λ bytes. bytes ≡ [])) }
        ensures honest { IfErr result (λ e. IsHonest (D.seen disk) → ((c : List ℕ) → D.may_leave disk c → (bodies : List (List ℕ)) × IsJournal bodies c)
            → (place : ℕ) → e.1 ≢ JournalFault.Damaged place) }
        ensures itself { MatchResult result (λ journal. D.identity (disk_of journal) ≡ D.identity disk) (λ e. D.identity e.0 ≡ D.identity disk) }
        ensures full { IfErr result (λ e. e.1 ≢ JournalFault.Full) }
        ensures needs_load { IfErr result (λ e. e.1 ≢ JournalFault.NeedsLoad) }
    {
        let mut disk = disk;
        match settle(&mut disk) {
            Ok(len) => Ok(Journal {
                disk,
                at: 0,
                len,
                ended: false,
                failed: false,
            }),
            Err(fault) => Err((disk, fault)),
        }
    }

    /// A journal on a disk, not opened yet: each call answers `NeedsLoad` until `reload` answers `Ok`.
    pub fn shut(disk: D) -> Journal<D>
        ensures disk { disk_of result ≡ disk }
        ensures loads { must_load result ≡ true }
    {
        Journal {
            disk,
            at: 0,
            len: 0,
            ended: false,
            failed: true,
        }
    }

    /// Opens the journal anew on its disk, as `load` does, in one writing call. Its bodies are then read from the
    /// first one on.
    ///
    /// It refuses with `Disk` where a call of the disk failed, with `Damaged(0)` where it has no byte, and with
    /// `NoMemory`, which changes nothing of the disk. Until it answers `Ok` each other call answers `NeedsLoad`.
    pub fn reload(&mut self) -> Result<(), JournalFault>
        ensures opens { OnOk result (IfSome (D.seen (disk_of self.old)) (λ bytes. HasGiven D.seen D.may_leave self.new [] bytes)) }
        ensures works { OnOk result ((must_load self.new ≡ false) × (has_ended self.new ≡ false) × (place_of self.new ≡ 0)) }
        ensures loads { OnErr result (must_load self.new ≡ true) }
        ensures itself { D.identity (disk_of self.new) ≡ D.identity (disk_of self.old) }
        ensures counts { D.faults (disk_of self.old) ≤ D.faults (disk_of self.new) }
        ensures steady { IsErrOf result JournalFault.Disk ⊎ (D.faults (disk_of self.new) ≡ D.faults (disk_of self.old)) }
        ensures any_moment { LeavesOnly D.moment D.left_since (disk_of self.old) (disk_of self.new) (D.may_leave (disk_of self.old)) }
        ensures exact { (p : Plain) → D.plain (disk_of self.old) ≡ Some p → (IsErrOf result JournalFault.NoMemory × (D.plain (disk_of self.new) ≡ Some p))
            ⊎ ((D.plain (disk_of self.new) ≡ Some (after_call None p)) × (IsErrOf result JournalFault.Disk ↔ (succeeds p ≡ false))) }
        ensures honest { IsHonest (D.seen (disk_of self.old)) → IsHonest (D.seen (disk_of self.new)) }
        ensures kept { IsErrOf result JournalFault.NoMemory → Unchanged D.seen D.may_leave D.moment D.left_since (disk_of self.old) (disk_of self.new) }
        ensures failed { IsErrOf result JournalFault.Disk → Rose (D.faults (disk_of self.old)) (D.faults (disk_of self.new)) }
        ensures damaged { (place : ℕ) → IsErrOf result (JournalFault.Damaged place) → (place ≡ 0) × IfSome (D.seen (disk_of self.old)) (λ bytes. bytes ≡ []) }
        ensures full { result ≢ Err JournalFault.Full }
        ensures needs_load { result ≢ Err JournalFault.NeedsLoad }
    {
        self.failed = true;
        self.len = settle(&mut self.disk)?;
        self.at = 0;
        self.ended = false;
        self.failed = false;
        Ok(())
    }

    /// Puts the next body in the place of `body`. False where all bodies were given.
    ///
    /// It refuses with `Disk` where a call of the disk failed, and from then on with `NeedsLoad`; with
    /// `Damaged(place)` where the record at that offset is cut short by the disk's end; and with `NoMemory`. After a
    /// refusal other than `Disk` the next call reads the same record again.
    pub fn next_body(&mut self, body: &mut Vec<u8>) -> Result<bool, JournalFault>
        ensures gives { result ≡ Ok true → (bodies : List (List ℕ)) (rest : List ℕ) → HasGiven D.seen D.may_leave self.old bodies rest
            → (after : List ℕ) × HasGiven D.seen D.may_leave self.new (bodies ++ body.new.items ∷ []) after }
        ensures ends { result ≡ Ok false → (bodies : List (List ℕ)) (rest : List ℕ) → HasGiven D.seen D.may_leave self.old bodies rest
            → IsSettled D.seen D.may_leave self.new bodies × IsJournal bodies (records bodies ++ rest) }
        ensures again { (bodies : List (List ℕ)) → IsSettled D.seen D.may_leave self.old bodies
            → (result ≡ Ok false) × IsSettled D.seen D.may_leave self.new bodies }

        ensures exact { (p : Plain) → D.plain (disk_of self.old) ≡ Some p → reads_fine p ≡ true
            → (D.plain (disk_of self.new) ≡ Some p) × (result ≢ Err JournalFault.Disk) }
        // Another refusal than `Disk` changes nothing, and running out of memory leaves `body` too.
        ensures keeps { (bodies : List (List ℕ)) (rest : List ℕ) → HasGiven D.seen D.may_leave self.old bodies rest
            → OnErr result (IsErrOf result JournalFault.Disk ⊎ HasGiven D.seen D.may_leave self.new bodies rest) }
        ensures untouched { IsErrOf result JournalFault.NoMemory ⊎ (result ≡ Ok false) → body.new.items ≡ body.old.items }
        ensures refused { OnErr result ((place_of self.new ≡ place_of self.old) × (has_ended self.new ≡ has_ended self.old)) }
        ensures ended { result ≡ Ok false → has_ended self.new ≡ true }
        ensures goes_on { result ≡ Ok true → has_ended self.new ≡ false }
        ensures advances { result ≡ Ok true → (place_of self.old < place_of self.new) × (place_of self.new < length_of self.new) }
        ensures behind { result ≡ Ok true → place_of self.new ≡ place_of self.old + 5 + length body.new.items }
        ensures bound { result ≡ Ok true → length_of self.new < 2 ^ 64 }
        ensures len { length_of self.new ≡ length_of self.old }
        ensures same { Unchanged D.seen D.may_leave D.moment D.left_since (disk_of self.old) (disk_of self.new) }
        ensures itself { D.identity (disk_of self.new) ≡ D.identity (disk_of self.old) }
        ensures counts { D.faults (disk_of self.old) ≤ D.faults (disk_of self.new) }
        ensures steady { IsErrOf result JournalFault.Disk ⊎ (D.faults (disk_of self.new) ≡ D.faults (disk_of self.old)) }
        ensures failed { IsErrOf result JournalFault.Disk → Rose (D.faults (disk_of self.old)) (D.faults (disk_of self.new)) }
        ensures damaged { (place : ℕ) → IsErrOf result (JournalFault.Damaged place) → (bodies : List (List ℕ)) (rest : List ℕ)
            → HasGiven D.seen D.may_leave self.old bodies rest → IsDamaged place (records bodies ++ rest) }
        ensures cut { (place : ℕ) → IsErrOf result (JournalFault.Damaged place) → (bodies : List (List ℕ)) (rest : List ℕ)
            → HasGiven D.seen D.may_leave self.old bodies rest → (place ≡ place_of self.old) × IsCutShort rest }
        ensures honest { (place : ℕ) (bodies all : List (List ℕ)) (rest : List ℕ) → HasGiven D.seen D.may_leave self.old bodies rest
            → IsJournal all (records bodies ++ rest) → result ≢ Err (JournalFault.Damaged place) }
        ensures full { result ≢ Err JournalFault.Full }
        ensures needs_load { IsErrOf result JournalFault.NeedsLoad ↔ (must_load self.old ≡ true) }
        ensures loads { (must_load self.new ≡ true) ↔ ((must_load self.old ≡ true) ⊎ IsErrOf result JournalFault.Disk) }
    {
        if self.failed {
            return Err(JournalFault::NeedsLoad);
        }
        if self.ended {
            return Ok(false);
        }
        match read_record(&mut self.disk, self.at, self.len, body) {
            Ok(Some(next)) => {
                self.at = next;
                Ok(true)
            }
            Ok(None) => {
                self.ended = true;
                Ok(false)
            }
            Err(fault) => {
                self.failed = matches!(fault, JournalFault::Disk);
                Err(fault)
            }
        }
    }

    /// Reads what stands from an offset of the disk on: fills all of `buf` that lies before the disk's end, and says how
    /// much that is.
    ///
    /// It refuses with `Disk` where a call of the disk failed, and from then on each call answers `NeedsLoad`.
    pub fn read(&mut self, at: u64, buf: &mut [u8]) -> Result<usize, JournalFault>
        ensures bound { IfOk result (λ n. n ≤ length buf.new) }
        ensures len { length buf.new ≡ length buf.old }
        ensures bytes { IfOk result (λ n. IfSome (D.seen (disk_of self.old)) (λ bytes.
            (n ≡ min (length bytes - at) (length buf.old)) × (take n buf.new ≡ take n (drop at bytes)))) }
        ensures exact { (p : Plain) → D.plain (disk_of self.old) ≡ Some p → reads_fine p ≡ true
            → (D.plain (disk_of self.new) ≡ Some p) × (result ≢ Err JournalFault.Disk) }
        ensures settled { (bodies : List (List ℕ)) → IsSettled D.seen D.may_leave self.old bodies
            → OnOk result (IsSettled D.seen D.may_leave self.new bodies) }
        ensures rest { (place_of self.new ≡ place_of self.old) × (length_of self.new ≡ length_of self.old) × (has_ended self.new ≡ has_ended self.old) }
        ensures same { Unchanged D.seen D.may_leave D.moment D.left_since (disk_of self.old) (disk_of self.new) }
        ensures itself { D.identity (disk_of self.new) ≡ D.identity (disk_of self.old) }
        ensures counts { D.faults (disk_of self.old) ≤ D.faults (disk_of self.new) }
        ensures steady { IsErrOf result JournalFault.Disk ⊎ (D.faults (disk_of self.new) ≡ D.faults (disk_of self.old)) }
        ensures failed { IsErrOf result JournalFault.Disk → Rose (D.faults (disk_of self.old)) (D.faults (disk_of self.new)) }
        ensures refused { OnErr result (IsErrOf result JournalFault.Disk ⊎ IsErrOf result JournalFault.NeedsLoad) }
        ensures needs_load { IsErrOf result JournalFault.NeedsLoad ↔ (must_load self.old ≡ true) }
        ensures loads { (must_load self.new ≡ true) ↔ ((must_load self.old ≡ true) ⊎ IsErrOf result JournalFault.Disk) }
    {
        if self.failed {
            return Err(JournalFault::NeedsLoad);
        }
        match self.disk.read(at, buf) {
            Ok(count) => Ok(count),
            Err(fault) => {
                self.failed = matches!(fault, Failed);
                Err(JournalFault::Disk)
            }
        }
    }

    /// The offset of the gate behind the bodies that were given.
    pub fn place(&self) -> u64
        ensures { result ≡ place_of self.now }
    {
        self.at
    }

    /// Gives the disk back, as the last call left it.
    pub fn into_disk(self) -> D
        ensures { result ≡ disk_of self }
    {
        self.disk
    }

    /// Tells a disk in memory to fail or to crash. Other disks ignore it.
    pub fn arm(&mut self, fault: Fault)
        ensures exact { D.plain (disk_of self.new) ≡ option_map (armed_with fault) (D.plain (disk_of self.old)) }
        ensures same { Unchanged D.seen D.may_leave D.moment D.left_since (disk_of self.old) (disk_of self.new) }
        ensures itself { D.identity (disk_of self.new) ≡ D.identity (disk_of self.old) }
        ensures faults { D.faults (disk_of self.new) ≡ D.faults (disk_of self.old) }
        ensures rest { (place_of self.new ≡ place_of self.old) × (length_of self.new ≡ length_of self.old) × (has_ended self.new ≡ has_ended self.old) × (must_load self.new ≡ must_load self.old) }
    {
        self.disk.arm(fault);
    }

    /// Adds a body of fewer than 2^32 bytes, once all bodies were given. At `Ok` it is acknowledged: from then on each
    /// crash leaves a journal that has it.
    ///
    /// It refuses with `Full` where the journal would be longer than 2^40 bytes, and with `NoMemory`; then nothing has
    /// changed. It refuses with `Disk` where a call of the disk failed: the body is then there or not, which the next
    /// load tells, and until then each call answers `NeedsLoad`.
    pub fn append(&mut self, alloc: Global, body: &[u8]) -> Result<(), JournalFault>
        requires ended { must_load self.old ≡ false → has_ended self.old ≡ true }
        requires fits { length body.now < 2 ^ 32 }

        ensures acknowledged { (bodies : List (List ℕ)) → IsSettled D.seen D.may_leave self.old bodies
            → OnOk result (IsSettled D.seen D.may_leave self.new (bodies ++ body.now ∷ [])) }

        // A crash at any moment of the call leaves the bodies from before it, with the new one or without.
        ensures any_moment { (bodies : List (List ℕ)) → IsSettled D.seen D.may_leave self.old bodies
            → LeavesOnly D.moment D.left_since (disk_of self.old) (disk_of self.new) (IsWithOrWithout bodies body.now) }

        // Where the disk tells what each call will do, it is four writing calls, the last of which may be the one that fails.
        ensures exact { (p : Plain) → D.plain (disk_of self.old) ≡ Some p → (result ≡ Ok tt ⊎ IsErrOf result JournalFault.Disk)
            → (D.plain (disk_of self.new) ≡ Some (after_calls (append_calls (place_of self.old) body.now) p)) × (is_ok result ≡ all_succeed (append_calls (place_of self.old) body.now) p) }

        ensures honest { IsHonest (D.seen (disk_of self.old)) → IsHonest (D.seen (disk_of self.new)) }
        ensures full { IsErrOf result JournalFault.Full ↔ ((must_load self.old ≡ false) × (2 ^ 40 < place_of self.old + length body.now + 6)) }
        ensures needs_load { IsErrOf result JournalFault.NeedsLoad ↔ (must_load self.old ≡ true) }
        ensures itself { D.identity (disk_of self.new) ≡ D.identity (disk_of self.old) }
        ensures counts { D.faults (disk_of self.old) ≤ D.faults (disk_of self.new) }
        ensures steady { IsErrOf result JournalFault.Disk ⊎ (D.faults (disk_of self.new) ≡ D.faults (disk_of self.old)) }
        ensures failed { IsErrOf result JournalFault.Disk → Rose (D.faults (disk_of self.old)) (D.faults (disk_of self.new)) }
        ensures stays { OnErr result (IsErrOf result JournalFault.Disk ⊎ Unchanged D.seen D.may_leave D.moment D.left_since (disk_of self.old) (disk_of self.new)) }
        // Another refusal than `Disk` changes nothing.
        ensures refused { OnErr result (IsErrOf result JournalFault.Disk ⊎ ((D.plain (disk_of self.new) ≡ D.plain (disk_of self.old)) × (place_of self.new ≡ place_of self.old) × (length_of self.new ≡ length_of self.old))) }
        ensures keeps { (bodies : List (List ℕ)) → IsSettled D.seen D.may_leave self.old bodies
            → OnErr result (IsErrOf result JournalFault.Disk ⊎ IsSettled D.seen D.may_leave self.new bodies) }
        ensures loads { (must_load self.new ≡ true) ↔ ((must_load self.old ≡ true) ⊎ IsErrOf result JournalFault.Disk) }
        ensures ended { has_ended self.new ≡ has_ended self.old }
        ensures damaged { (place : ℕ) → result ≢ Err (JournalFault.Damaged place) }
    {
        if self.failed {
            return Err(JournalFault::NeedsLoad);
        }
        let more = body.len() as u64 + 6;
        if self.at > GREATEST_LEN || more > GREATEST_LEN - self.at {
            return Err(JournalFault::Full);
        }
        let end = self.at + more;
        let piece = framed_behind_gate(alloc, body)?;
        self.disk.reserve(end, 4)?;
        match write_record(&mut self.disk, self.at, body, &piece) {
            Ok(()) => {
                self.at = end - 1;
                self.len = self.len.max(end);
                Ok(())
            }
            Err(Failed) => {
                self.failed = true;
                Err(JournalFault::Disk)
            }
        }
    }
}
