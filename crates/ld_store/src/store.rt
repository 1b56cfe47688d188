// A node's plain state, and the disk in segments that its ops are durable on.
ghost use Rattle.std.specs.Prelude.{◌≡◌, true};
ghost use Rattle.ld_store.specs.Well.{IsWell, IsWell-prop};
ghost use Rattle.ld_store.specs.Low.{IsLow, IsLow-prop};
ghost use Rattle.ld_layout.specs.declared.segment.Growth.TheVariants.{Still};

use crate::StoreFault;
use crate::group::stage_record;
use crate::laid::Laid;
use crate::open::{Opened, open};
use crate::payloads::{read_body, read_payload};
use crate::write::keep_op;
use ld_disk::{Disk, Fault};
use ld_ids::Payload;
use ld_journal::settle;
use ld_layout::Growth;
use ld_msg::Msg;
use ld_op::{Draft, Epochs, Op, Place, Plain};
use ld_segment::open_group;
use std::alloc::Global;

/// A node's plain state, and the disk that its ops are kept on, in a journal of the second version. The state's numbers
/// are what a journal's body can carry; its entries rise, each is one and stands under its number, and each summary is
/// one of the epoch that it stands under.
#[derive(Drop)]
pub struct Store<D: Disk> {
    disk: D,
    index: Plain,
    laid: Laid,
    blank: bool,
    failed: bool,
    /// The gate of the group that is staged, where one is.
    staged: Option<u64>,
    pub ghost well: { IsWell index.state } by { IsWell-prop index.state },
    pub ghost low: { IsLow staged } by { IsLow-prop staged },
}

impl<D: Disk> Store<D> {
    ghost use Rattle.std.specs.Prelude.{◌≢◌, ◌⊎◌, ◌↔◌, ◌<◌, ◌≤◌, ◌+◌, ◌^◌, List, ℕ, length, map, IfOk, IfErr, IfSome, MatchResult, OnOk, OnErr, IsErrOf, Ok, Err, Some, None, is_ok, false};
    ghost use Rattle.std.specs.Option.{option_map};
    ghost use Rattle.ld_table.specs.Named.{same};
    ghost use Rattle.ld_table.specs.Words.{numbers_from};
    ghost use Rattle.ld_io.specs.Causes.{Rose};
    ghost use Rattle.ld_disk.specs.Images.{IsHonest};
    ghost use Rattle.ld_disk.specs.Moments.{LeavesOnly, Unchanged};
    ghost use Rattle.ld_disk.specs.Plain.{Plain as DiskPlain, after_call, succeeds, after_calls, all_succeed, reads_fine, armed_with};
    ghost use Rattle.ld_op.specs.declared.op.Op.TheVariants as kinds;
    ghost use Rattle.ld_op.specs.Plain.{Plain as State, apply, op_length};
    ghost use Rattle.ld_op.specs.Bounds.{IsOp};
    ghost use Rattle.ld_layout.specs.Layout.{kept_in, passes_limit, switch_number};
    ghost use Rattle.ld_segment.specs.Lies.{IsSound, op_row, slots_with};
    ghost use Rattle.ld_store.specs.Ops.{is_format, IsCompared, StandsFor, StandsForEither, IfStands, IsOfFirst, HasNoRoom, IsDamaged};
    ghost use Rattle.ld_store.specs.Loads.{LeftOrMarked, Loads};
    ghost use Rattle.ld_op.specs.Cells.{each_msg, byte_at};
    ghost use Rattle.ld_store.specs.Open.{disk_of, must_load, is_blank, index_of, layout_of, slots_of, plain_of, staged_of, within, Holds, IsOpened};
    ghost use Rattle.ld_store.specs.Ahead.{HoldsOr};

    /// Opens the store on a disk, in one writing call: its records are replayed in one walk, or those behind the Base of
    /// its current segment, where there is a later one. A journal of the first version is then marked as one of the
    /// second, in four writing calls more, or in ten or eleven where its segment is full; that leaves the plain state as
    /// it is. Where areas of a Base share bytes, or don't hold its payloads, or the head names another offset than the one
    /// behind it, it is read as it stands, the slots at the offset that is named, and nothing is promised of it.
    ///
    /// A refusal hands the disk back: `Disk` where a call of it failed; `Damaged(place)` where the record whose gate is
    /// at that offset is cut short, or its body is none that may stand there (the first is a format, and no other is; a
    /// mark stands in a journal of the first version only, and once; of the ops that the versions write in two ways each
    /// stands in its own), where the gate at that offset, behind the head, is open, where none of the slots at that offset
    /// counts, or they pass 2^40 bytes, or the disk ends within the one there, where no Base stands at that offset that they
    /// name, or its segment passes 2^40 bytes, or an older area of it ends past the disk's end, or a payload does that no
    /// record behind it drops, or the disk has no byte at all; `Full` where a mark, or the segment that it needs, would pass
    /// 2^40 bytes; and `NoMemory`.
    pub fn load(alloc: Global, disk: D) -> Result<Store<D>, (D, StoreFault)>
        ensures opens { IfOk result (λ store. IfSome (D.seen disk) (IsOpened D.seen D.may_leave store)) }
        ensures works { IfOk result (λ store. must_load store ≡ false) }
        ensures still { IfOk result (λ store. (layout_of store).grows ≡ Still) }
        ensures itself { MatchResult result (λ store. D.identity (disk_of store) ≡ D.identity disk) (λ e. D.identity e.0 ≡ D.identity disk) }
        ensures counts { MatchResult result (λ store. D.faults disk ≤ D.faults (disk_of store)) (λ e. D.faults disk ≤ D.faults e.0) }
        ensures steady { MatchResult result (λ store. D.faults (disk_of store) ≡ D.faults disk) (λ e. (e.1 ≡ StoreFault.Disk) ⊎ (D.faults e.0 ≡ D.faults disk)) }

        // A crash at any moment leaves what a crash before the call might have left, or, of a journal of the first
        // version, what represents the same plain state.
        ensures any_moment { IfSome (D.seen disk) (λ bytes. MatchResult result (λ store. LeavesOnly D.moment D.left_since disk (disk_of store) (LeftOrMarked (D.may_leave disk) bytes))
            (λ e. LeavesOnly D.moment D.left_since disk e.0 (LeftOrMarked (D.may_leave disk) bytes))) }

        // Another refusal than `Disk` leaves only what might have been left.
        ensures reads { IfErr result (λ e. (e.1 ≡ StoreFault.Disk) ⊎ LeavesOnly D.moment D.left_since disk e.0 (D.may_leave disk)) }

        // Where the disk tells what each call will do, no read of it fails, and its bytes represent a plain state and
        // aren't of the first version, it is one writing call.
        ensures exact { (p : DiskPlain) (state : State) → D.plain disk ≡ Some p → reads_fine p ≡ true → StandsFor state p.state.bytes → ¬ IsOfFirst p.state.bytes
            → MatchResult result (λ store. (D.plain (disk_of store) ≡ Some (after_call None p)) × (succeeds p ≡ true))
            (λ e. ((e.1 ≡ StoreFault.NoMemory) × ((D.plain e.0 ≡ Some p) ⊎ (D.plain e.0 ≡ Some (after_call None p)))) ⊎ ((D.plain e.0 ≡ Some (after_call None p)) × ((e.1 ≡ StoreFault.Disk) ↔ (succeeds p ≡ false)))) }

        // It is one where they are damaged.
        ensures damaged_exact { (p : DiskPlain) (place : ℕ) → D.plain disk ≡ Some p → reads_fine p ≡ true → IfErr result (λ e. e.1 ≡ StoreFault.Damaged place → D.plain e.0 ≡ Some (after_call None p)) }

        // Where they are of the first version, the calls of a mark come behind it.
        ensures marks { (p : DiskPlain) (was : IsOfFirst p.state.bytes) → D.plain disk ≡ Some p → reads_fine p ≡ true
            → MatchResult result (λ store. Loads was.layout was.slots p (D.plain (disk_of store)) None) (λ e. Loads was.layout was.slots p (D.plain e.0) (Some e.1)) }

        ensures seen { MatchResult result (λ store. (D.seen (disk_of store) ≡ D.seen disk) ⊎ IfSome (D.seen disk) (IfStands IsOfFirst)) (λ e. (e.1 ≡ StoreFault.Disk) ⊎ (D.seen e.0 ≡ D.seen disk)) }
        ensures failed { IfErr result (λ e. e.1 ≡ StoreFault.Disk → Rose (D.faults disk) (D.faults e.0)) }
        ensures damaged { IfErr result (λ e. (place : ℕ) → e.1 ≡ StoreFault.Damaged place → IfSome (D.seen disk) (IsDamaged place)) }
        ensures honest { IfErr result (λ e. IsHonest (D.seen disk) → ((c : List ℕ) → D.may_leave disk c → (state : _) × StandsFor state c)
            → (place : ℕ) → e.1 ≢ StoreFault.Damaged place) }

        // It is full exactly where a mark has no room.
        ensures full { IfErr result (λ e. e.1 ≡ StoreFault.Full → IfSome (D.seen disk) (IfStands HasNoRoom)) }
        ensures too_long { IfOk result (λ _. IfSome (D.seen disk) (λ bytes. ¬ HasNoRoom bytes)) }
        ensures needs_load { IfErr result (λ e. e.1 ≢ StoreFault.NeedsLoad) }
    {
        let mut disk = disk;
        let len = match settle(&mut disk) {
            Ok(len) => len,
            Err(fault) => return Err((disk, StoreFault::from(fault))),
        };
        match open(alloc, &mut disk, len) {
            Ok(Opened { laid, index, blank }) => Ok(Store {
                disk,
                index,
                laid,
                blank,
                failed: false,
                staged: None,
            }),
            Err(fault) => Err((disk, fault)),
        }
    }

    /// Whether no record stands in the journal.
    pub fn is_blank(&self) -> bool
        ensures { result ≡ is_blank self.now }
    {
        self.blank
    }

    /// Whether an earlier call answered `Disk`.
    pub fn needs_load(&self) -> bool
        ensures { result ≡ must_load self.now }
    {
        self.failed
    }

    /// How the room of each segment that is begun from now on grows. No byte of the disk tells it: a store that was loaded
    /// lets none grow.
    pub fn grow(&mut self, grows: Growth)
        ensures layout { layout_of self.new ≡ record (layout_of self.old) { grows = grows } }
        ensures rest { (slots_of self.new ≡ slots_of self.old) × (index_of self.new ≡ index_of self.old) × (disk_of self.new ≡ disk_of self.old) × (is_blank self.new ≡ is_blank self.old) × (must_load self.new ≡ must_load self.old) × (staged_of self.new ≡ staged_of self.old) }
        ensures holds { Holds D.seen D.may_leave self.old → Holds D.seen D.may_leave self.new }
        ensures opened { (bytes : List ℕ) → IsOpened D.seen D.may_leave self.old bytes → IsOpened D.seen D.may_leave self.new bytes }
    {
        self.laid.layout.grows = grows;
    }

    /// The index: the plain state with the places of its payloads. Its numbers are what a journal's body can carry; its
    /// entries rise, each is one and stands under its number, and each summary is one of the epoch that it stands under.
    pub fn index(&self) -> &Plain
        ensures state { result.now.state ≡ index_of self.now }
        ensures well { IsWell result.now.state }
    {
        &self.index
    }

    /// How many switches there were to a new segment: 0 in the first one.
    pub fn segment(&self) -> u64
        ensures { result ≡ switch_number (layout_of self.now).later }
    {
        self.laid.number()
    }

    /// Gives the disk back, as the last call left it.
    pub fn into_disk(self) -> D
        ensures { result ≡ disk_of self }
    {
        self.disk
    }

    /// Tells a disk in memory to fail or to crash. Other disks ignore it.
    pub fn arm(&mut self, fault: Fault)
        ensures exact { D.plain (disk_of self.new) ≡ option_map (armed_with fault) (D.plain (disk_of self.old)) }
        ensures same { Unchanged D.seen D.may_leave D.moment D.left_since (disk_of self.old) (disk_of self.new) }
        ensures itself { D.identity (disk_of self.new) ≡ D.identity (disk_of self.old) }
        ensures faults { D.faults (disk_of self.new) ≡ D.faults (disk_of self.old) }
        ensures rest { (layout_of self.new ≡ layout_of self.old) × (slots_of self.new ≡ slots_of self.old) × (index_of self.new ≡ index_of self.old) × (plain_of self.new ≡ plain_of self.old) × (is_blank self.new ≡ is_blank self.old) × (must_load self.new ≡ must_load self.old) }
        ensures holds { Holds D.seen D.may_leave self.old → Holds D.seen D.may_leave self.new }
        ensures ahead { (p : State) → HoldsOr D.seen D.may_leave self.old p → HoldsOr D.seen D.may_leave self.new p }
    {
        self.disk.arm(fault);
    }

    /// Makes an op durable, in a new segment where the current one is full, and then applies it. The op is one that a journal's body can carry, and a format exactly
    /// where the store is blank.
    ///
    /// It refuses with `Full` where the record, or the segment that it needs, would pass 2^40 bytes, and with `NoMemory`;
    /// then nothing has changed. It refuses with `Disk` where a call of the disk failed: the op is then there or not, which the next
    /// load tells, and until then each call answers `NeedsLoad`. No refusal changes the index. Where something is staged it
    /// refuses with `NoMemory`: `commit` comes first.
    pub fn apply(&mut self, alloc: Global, op: Op) -> Result<(), StoreFault>
        requires op { IsOp op }
        requires format { is_format op ≡ is_blank self.old }

        ensures acknowledged { Holds D.seen D.may_leave self.old
            → OnOk result (Holds D.seen D.may_leave self.new) }
        ensures images { Holds D.seen D.may_leave self.old
            → OnOk result ((c : List ℕ) → D.may_leave (disk_of self.new) c → StandsFor (plain_of self.new) c) }

        // A crash at any moment of the call leaves what represents the plain state before it or for that with the op.
        ensures any_moment { Holds D.seen D.may_leave self.old
            → LeavesOnly D.moment D.left_since (disk_of self.old) (disk_of self.new) (StandsForEither (plain_of self.old) (apply (plain_of self.old) op)) }

        ensures applied { Holds D.seen D.may_leave self.old → OnOk result (plain_of self.new ≡ apply (plain_of self.old) op) }
        ensures kept { OnOk result ((layout_of self.new ≡ kept_in (layout_of self.old) op) × (slots_of self.new ≡ slots_with (layout_of self.old) (slots_of self.old) (op_length op)) × (is_blank self.new ≡ false)) }
        // No two live areas of the disk share a byte, and each payload stands in one.
        ensures areas { Holds D.seen D.may_leave self.old → OnOk result (IsSound (layout_of self.new)) }
        ensures refused { OnErr result ((index_of self.new ≡ index_of self.old) × (layout_of self.new ≡ layout_of self.old) × (slots_of self.new ≡ slots_of self.old) × (is_blank self.new ≡ is_blank self.old)) }

        // Where the disk tells what each call will do, it is the calls of a switch, where the record's segment is full, and
        // the four of the record, the last of which may be the one that fails.
        ensures exact { (p : DiskPlain) → D.plain (disk_of self.old) ≡ Some p → (result ≡ Ok tt ⊎ IsErrOf result StoreFault.Disk)
            → (D.plain (disk_of self.new) ≡ Some (after_calls (op_row (layout_of self.old) (slots_of self.old) op) p)) × (is_ok result ≡ all_succeed (op_row (layout_of self.old) (slots_of self.old) op) p) }

        ensures honest { IsHonest (D.seen (disk_of self.old)) → IsHonest (D.seen (disk_of self.new)) }
        ensures full { IsErrOf result StoreFault.Full → (must_load self.old ≡ false) × (Holds D.seen D.may_leave self.old → passes_limit (layout_of self.old) op ≡ true) }
        ensures too_long { must_load self.old ≡ false → passes_limit (layout_of self.old) op ≡ true → IsErrOf result StoreFault.Full ⊎ IsErrOf result StoreFault.NoMemory }
        ensures needs_load { IsErrOf result StoreFault.NeedsLoad ↔ (must_load self.old ≡ true) }
        ensures loads { (must_load self.new ≡ true) ↔ ((must_load self.old ≡ true) ⊎ IsErrOf result StoreFault.Disk) }
        ensures damaged { (place : ℕ) → result ≢ Err (StoreFault.Damaged place) }
        ensures itself { D.identity (disk_of self.new) ≡ D.identity (disk_of self.old) }
        ensures counts { D.faults (disk_of self.old) ≤ D.faults (disk_of self.new) }
        ensures steady { IsErrOf result StoreFault.Disk ⊎ (D.faults (disk_of self.new) ≡ D.faults (disk_of self.old)) }
        ensures failed { IsErrOf result StoreFault.Disk → Rose (D.faults (disk_of self.old)) (D.faults (disk_of self.new)) }

        // Another refusal than `Disk` changes nothing.
        ensures stays { OnErr result (IsErrOf result StoreFault.Disk ⊎ Unchanged D.seen D.may_leave D.moment D.left_since (disk_of self.old) (disk_of self.new)) }
        ensures keeps { OnErr result (IsErrOf result StoreFault.Disk ⊎ ((D.plain (disk_of self.new) ≡ D.plain (disk_of self.old)) × (layout_of self.new ≡ layout_of self.old))) }
        ensures holds { Holds D.seen D.may_leave self.old
            → OnErr result (IsErrOf result StoreFault.Disk ⊎ Holds D.seen D.may_leave self.new) }
    {
        if self.failed {
            return Err(StoreFault::NeedsLoad);
        }
        if self.staged.is_some() {
            return Err(StoreFault::NoMemory);
        }
        self.index.room(alloc, &op)?;
        let mut body = Vec::new(alloc);
        op.encode(alloc, &mut body)?;
        match keep_op(alloc, &mut self.disk, &mut self.laid, &self.index, body) {
            Ok(gate) => {
                self.index.apply(op, gate + 5);
                self.blank = false;
                Ok(())
            }
            Err(fault) => {
                self.failed = fault == StoreFault::Disk;
                Err(fault)
            }
        }
    }

    /// Writes an op behind the others that are staged, in a new segment where the current one is full, and then applies
    /// it. The op is as `apply` asks for it. It is durable only after `commit`: a crash before that leaves what
    /// represents the plain state without all that is staged. Where a switch comes first, what was staged is made
    /// durable before it.
    ///
    /// It refuses with `Full` where the record, or the segment that it needs, would pass 2^40 bytes, and with `NoMemory`;
    /// then nothing has changed. It refuses with `Disk` where a call of the disk failed: what was staged is then there or
    /// not, and this op isn't, and until the next load each call answers `NeedsLoad`. No refusal changes the index.
    pub fn stage(&mut self, alloc: Global, op: Op) -> Result<(), StoreFault>
        requires op { IsOp op }
        requires format { is_format op ≡ is_blank self.old }

        // A crash leaves what represents the plain state that it did before, or that with all that was staged before.
        ensures staged { (p : State) → HoldsOr D.seen D.may_leave self.old p
            → OnOk result ((q : State) × ((q ≡ p) ⊎ (q ≡ plain_of self.old)) × HoldsOr D.seen D.may_leave self.new q) }
        ensures any_moment { (p : State) → HoldsOr D.seen D.may_leave self.old p
            → LeavesOnly D.moment D.left_since (disk_of self.old) (disk_of self.new) (StandsForEither p (plain_of self.old)) }

        ensures applied { (p : State) → HoldsOr D.seen D.may_leave self.old p → OnOk result (plain_of self.new ≡ apply (plain_of self.old) op) }
        ensures kept { OnOk result ((layout_of self.new ≡ kept_in (layout_of self.old) op) × (slots_of self.new ≡ slots_with (layout_of self.old) (slots_of self.old) (op_length op)) × (is_blank self.new ≡ false)) }
        ensures refused { OnErr result ((index_of self.new ≡ index_of self.old) × (layout_of self.new ≡ layout_of self.old) × (slots_of self.new ≡ slots_of self.old) × (is_blank self.new ≡ is_blank self.old)) }
        ensures honest { IsHonest (D.seen (disk_of self.old)) → IsHonest (D.seen (disk_of self.new)) }
        ensures full { IsErrOf result StoreFault.Full → (must_load self.old ≡ false) × ((p : State) → HoldsOr D.seen D.may_leave self.old p → passes_limit (layout_of self.old) op ≡ true) }
        ensures too_long { must_load self.old ≡ false → passes_limit (layout_of self.old) op ≡ true → IsErrOf result StoreFault.Full ⊎ IsErrOf result StoreFault.NoMemory }
        ensures needs_load { IsErrOf result StoreFault.NeedsLoad ↔ (must_load self.old ≡ true) }
        ensures loads { (must_load self.new ≡ true) ↔ ((must_load self.old ≡ true) ⊎ IsErrOf result StoreFault.Disk) }
        ensures damaged { (place : ℕ) → result ≢ Err (StoreFault.Damaged place) }
        ensures itself { D.identity (disk_of self.new) ≡ D.identity (disk_of self.old) }
        ensures counts { D.faults (disk_of self.old) ≤ D.faults (disk_of self.new) }
        ensures steady { IsErrOf result StoreFault.Disk ⊎ (D.faults (disk_of self.new) ≡ D.faults (disk_of self.old)) }
        ensures failed { IsErrOf result StoreFault.Disk → Rose (D.faults (disk_of self.old)) (D.faults (disk_of self.new)) }

        // Another refusal than `Disk` changes nothing.
        ensures stays { OnErr result (IsErrOf result StoreFault.Disk ⊎ Unchanged D.seen D.may_leave D.moment D.left_since (disk_of self.old) (disk_of self.new)) }
        ensures holds { (p : State) → HoldsOr D.seen D.may_leave self.old p
            → OnErr result (IsErrOf result StoreFault.Disk ⊎ HoldsOr D.seen D.may_leave self.new p) }
    {
        if self.failed {
            return Err(StoreFault::NeedsLoad);
        }
        self.index.room(alloc, &op)?;
        let mut body = Vec::new(alloc);
        op.encode(alloc, &mut body)?;
        match stage_record(
            alloc,
            &mut self.disk,
            &mut self.laid,
            &self.index,
            body,
            self.staged,
        ) {
            Ok(gates) => {
                self.index.apply(op, gates.0 + 5);
                self.blank = false;
                self.staged = Some(gates.1);
                Ok(())
            }
            Err(fault) => {
                self.failed = fault == StoreFault::Disk;
                Err(fault)
            }
        }
    }

    /// Makes all that is staged durable, in three writing calls; in none where nothing is.
    ///
    /// It refuses with `NoMemory`; then nothing has changed. It refuses with `Disk` where a call of the disk failed: all that
    /// was staged is then there or none of it, which the next load tells, and until then each call answers `NeedsLoad`.
    /// No refusal changes the index.
    pub fn commit(&mut self) -> Result<(), StoreFault>
        ensures durable { (p : State) → HoldsOr D.seen D.may_leave self.old p → OnOk result (Holds D.seen D.may_leave self.new) }
        ensures plain { (p : State) → HoldsOr D.seen D.may_leave self.old p → OnOk result (plain_of self.new ≡ plain_of self.old) }
        ensures same { (index_of self.new ≡ index_of self.old) × (layout_of self.new ≡ layout_of self.old) × (slots_of self.new ≡ slots_of self.old) × (is_blank self.new ≡ is_blank self.old) }

        // A crash at any moment of the call leaves what represents the plain state without all that is staged, or with it.
        ensures any_moment { (p : State) → HoldsOr D.seen D.may_leave self.old p
            → LeavesOnly D.moment D.left_since (disk_of self.old) (disk_of self.new) (StandsForEither p (plain_of self.old)) }
        ensures honest { IsHonest (D.seen (disk_of self.old)) → IsHonest (D.seen (disk_of self.new)) }
        ensures refused { OnErr result (IsErrOf result StoreFault.Disk ⊎ (IsErrOf result StoreFault.NoMemory ⊎ IsErrOf result StoreFault.NeedsLoad)) }
        ensures needs_load { IsErrOf result StoreFault.NeedsLoad ↔ (must_load self.old ≡ true) }
        ensures loads { (must_load self.new ≡ true) ↔ ((must_load self.old ≡ true) ⊎ IsErrOf result StoreFault.Disk) }
        ensures itself { D.identity (disk_of self.new) ≡ D.identity (disk_of self.old) }
        ensures counts { D.faults (disk_of self.old) ≤ D.faults (disk_of self.new) }
        ensures steady { IsErrOf result StoreFault.Disk ⊎ (D.faults (disk_of self.new) ≡ D.faults (disk_of self.old)) }
        ensures failed { IsErrOf result StoreFault.Disk → Rose (D.faults (disk_of self.old)) (D.faults (disk_of self.new)) }

        // Another refusal than `Disk` changes nothing.
        ensures stays { OnErr result (IsErrOf result StoreFault.Disk ⊎ Unchanged D.seen D.may_leave D.moment D.left_since (disk_of self.old) (disk_of self.new)) }
        ensures holds { (p : State) → HoldsOr D.seen D.may_leave self.old p
            → OnErr result (IsErrOf result StoreFault.Disk ⊎ HoldsOr D.seen D.may_leave self.new p) }
    {
        if self.failed {
            return Err(StoreFault::NeedsLoad);
        }
        match self.staged {
            None => Ok(()),
            Some(gate) => {
                self.disk.reserve(gate + 1, 3)?;
                match open_group(&mut self.disk, gate) {
                    Ok(()) => {
                        self.staged = None;
                        Ok(())
                    }
                    Err(fault) => {
                        self.failed = true;
                        Err(StoreFault::from(fault))
                    }
                }
            }
        }
    }

    /// The message that a draft is: each of its payloads is read from the disk.
    ///
    /// It refuses with `Disk` where a read failed, and until the next load each call answers `NeedsLoad`; with
    /// `Damaged(place)` where the disk ends before the payload that stands at that offset does, which can't be where it
    /// tells what it has and the draft is one of this store's index; and with `NoMemory`. It changes nothing else.
    pub fn fill(&mut self, alloc: Global, draft: Draft) -> Result<Msg, StoreFault>
        ensures filled { IfOk result (λ m. IfSome (D.seen (disk_of self.old)) (λ bytes. m ≡ each_msg (byte_at bytes) draft)) }
        // On any disk the payloads are as long as the draft says.
        ensures lengths { IfOk result (λ m. each_msg (λ _. 0) m ≡ each_msg (λ _. 0) draft) }
        ensures damaged { (place : ℕ) → IsErrOf result (StoreFault.Damaged place)
            → IfSome (D.seen (disk_of self.old)) (λ bytes. each_msg (within (length bytes)) draft ≢ draft) }
        ensures same { Unchanged D.seen D.may_leave D.moment D.left_since (disk_of self.old) (disk_of self.new) }
        ensures exact { (p : DiskPlain) → D.plain (disk_of self.old) ≡ Some p → reads_fine p ≡ true
            → (D.plain (disk_of self.new) ≡ Some p) × (result ≢ Err StoreFault.Disk) }
        ensures rest { (layout_of self.new ≡ layout_of self.old) × (slots_of self.new ≡ slots_of self.old) × (index_of self.new ≡ index_of self.old) × (is_blank self.new ≡ is_blank self.old) }
        ensures holds { Holds D.seen D.may_leave self.old
            → IsErrOf result StoreFault.Disk ⊎ Holds D.seen D.may_leave self.new }
        ensures ahead { (p : State) → HoldsOr D.seen D.may_leave self.old p
            → IsErrOf result StoreFault.Disk ⊎ HoldsOr D.seen D.may_leave self.new p }
        ensures full { result ≢ Err StoreFault.Full }
        ensures needs_load { IsErrOf result StoreFault.NeedsLoad ↔ (must_load self.old ≡ true) }
        ensures loads { (must_load self.new ≡ true) ↔ ((must_load self.old ≡ true) ⊎ IsErrOf result StoreFault.Disk) }
        ensures itself { D.identity (disk_of self.new) ≡ D.identity (disk_of self.old) }
        ensures counts { D.faults (disk_of self.old) ≤ D.faults (disk_of self.new) }
        ensures steady { IsErrOf result StoreFault.Disk ⊎ (D.faults (disk_of self.new) ≡ D.faults (disk_of self.old)) }
        ensures failed { IsErrOf result StoreFault.Disk → Rose (D.faults (disk_of self.old)) (D.faults (disk_of self.new)) }
    {
        if self.failed {
            return Err(StoreFault::NeedsLoad);
        }
        let (from, to, log) = (draft.from(), draft.to(), draft.log());
        match read_body(alloc, &mut self.disk, draft.into_body().into_said()) {
            Ok(body) => Ok(Msg {
                from,
                to,
                log,
                body,
            }),
            Err(fault) => {
                self.failed = fault == StoreFault::Disk;
                Err(fault)
            }
        }
    }

    /// Whether this payload stands at an offset of the disk.
    ///
    /// It refuses as `fill` does, with the place itself where the disk ends before the payload there does.
    pub fn has_payload(
        &mut self,
        alloc: Global,
        place: Place,
        payload: &Payload,
    ) -> Result<bool, StoreFault>
        ensures has { IfOk result (λ is_there. IfSome (D.seen (disk_of self.old)) (λ bytes. is_there ≡ same (map (byte_at bytes) (numbers_from place.at place.len)) payload.now)) }
        ensures compared { IfOk result (λ is_there. IsCompared place.len payload.now is_there) }
        ensures damaged { (at : ℕ) → IsErrOf result (StoreFault.Damaged at) → (at ≡ place.at)
            × IfSome (D.seen (disk_of self.old)) (λ bytes. map (within (length bytes)) (numbers_from place.at place.len) ≢ numbers_from place.at place.len) }
        ensures same { Unchanged D.seen D.may_leave D.moment D.left_since (disk_of self.old) (disk_of self.new) }
        ensures exact { (p : DiskPlain) → D.plain (disk_of self.old) ≡ Some p → reads_fine p ≡ true
            → (D.plain (disk_of self.new) ≡ Some p) × (result ≢ Err StoreFault.Disk) }
        ensures rest { (layout_of self.new ≡ layout_of self.old) × (slots_of self.new ≡ slots_of self.old) × (index_of self.new ≡ index_of self.old) × (is_blank self.new ≡ is_blank self.old) }
        ensures holds { Holds D.seen D.may_leave self.old
            → IsErrOf result StoreFault.Disk ⊎ Holds D.seen D.may_leave self.new }
        ensures ahead { (p : State) → HoldsOr D.seen D.may_leave self.old p
            → IsErrOf result StoreFault.Disk ⊎ HoldsOr D.seen D.may_leave self.new p }
        ensures full { result ≢ Err StoreFault.Full }
        ensures needs_load { IsErrOf result StoreFault.NeedsLoad ↔ (must_load self.old ≡ true) }
        ensures loads { (must_load self.new ≡ true) ↔ ((must_load self.old ≡ true) ⊎ IsErrOf result StoreFault.Disk) }
        ensures itself { D.identity (disk_of self.new) ≡ D.identity (disk_of self.old) }
        ensures counts { D.faults (disk_of self.old) ≤ D.faults (disk_of self.new) }
        ensures steady { IsErrOf result StoreFault.Disk ⊎ (D.faults (disk_of self.new) ≡ D.faults (disk_of self.old)) }
        ensures failed { IsErrOf result StoreFault.Disk → Rose (D.faults (disk_of self.old)) (D.faults (disk_of self.new)) }
    {
        if self.failed {
            return Err(StoreFault::NeedsLoad);
        }
        match read_payload(alloc, &mut self.disk, place) {
            Ok(read) => Ok(read == *payload),
            Err(fault) => {
                self.failed = fault == StoreFault::Disk;
                Err(fault)
            }
        }
    }

    /// Formats a blank store under a generation that was drawn for it: what the logs' epochs held so far, each at
    /// least 1, the logs rising and at most 255 of them, is lost here. It is the `apply` of that op, and refuses as
    /// that does.
    pub fn format(
        &mut self,
        alloc: Global,
        generation: u32,
        epochs: Epochs,
    ) -> Result<(), StoreFault>
        requires blank { is_blank self.old ≡ true }
        requires op { IsOp (kinds.Format generation epochs) }

        ensures acknowledged { Holds D.seen D.may_leave self.old
            → OnOk result (Holds D.seen D.may_leave self.new) }
        ensures images { Holds D.seen D.may_leave self.old
            → OnOk result ((c : List ℕ) → D.may_leave (disk_of self.new) c → StandsFor (plain_of self.new) c) }

        // A crash at any moment of the call leaves what represents the plain state before it or for that with the op.
        ensures any_moment { Holds D.seen D.may_leave self.old
            → LeavesOnly D.moment D.left_since (disk_of self.old) (disk_of self.new) (StandsForEither (plain_of self.old) (apply (plain_of self.old) (kinds.Format generation epochs))) }

        ensures applied { Holds D.seen D.may_leave self.old → OnOk result (plain_of self.new ≡ apply (plain_of self.old) (kinds.Format generation epochs)) }
        ensures kept { OnOk result ((layout_of self.new ≡ kept_in (layout_of self.old) (kinds.Format generation epochs)) × (slots_of self.new ≡ slots_with (layout_of self.old) (slots_of self.old) (op_length (kinds.Format generation epochs))) × (is_blank self.new ≡ false)) }
        // No two live areas of the disk share a byte, and each payload stands in one.
        ensures areas { Holds D.seen D.may_leave self.old → OnOk result (IsSound (layout_of self.new)) }
        ensures refused { OnErr result ((index_of self.new ≡ index_of self.old) × (layout_of self.new ≡ layout_of self.old) × (slots_of self.new ≡ slots_of self.old) × (is_blank self.new ≡ is_blank self.old)) }

        // Where the disk tells what each call will do, it is the calls of a switch, where the record's segment is full, and
        // the four of the record, the last of which may be the one that fails.
        ensures exact { (p : DiskPlain) → D.plain (disk_of self.old) ≡ Some p → (result ≡ Ok tt ⊎ IsErrOf result StoreFault.Disk)
            → (D.plain (disk_of self.new) ≡ Some (after_calls (op_row (layout_of self.old) (slots_of self.old) (kinds.Format generation epochs)) p)) × (is_ok result ≡ all_succeed (op_row (layout_of self.old) (slots_of self.old) (kinds.Format generation epochs)) p) }

        ensures honest { IsHonest (D.seen (disk_of self.old)) → IsHonest (D.seen (disk_of self.new)) }
        ensures full { IsErrOf result StoreFault.Full → (must_load self.old ≡ false) × (Holds D.seen D.may_leave self.old → passes_limit (layout_of self.old) (kinds.Format generation epochs) ≡ true) }
        ensures too_long { must_load self.old ≡ false → passes_limit (layout_of self.old) (kinds.Format generation epochs) ≡ true → IsErrOf result StoreFault.Full ⊎ IsErrOf result StoreFault.NoMemory }
        ensures needs_load { IsErrOf result StoreFault.NeedsLoad ↔ (must_load self.old ≡ true) }
        ensures loads { (must_load self.new ≡ true) ↔ ((must_load self.old ≡ true) ⊎ IsErrOf result StoreFault.Disk) }
        ensures damaged { (place : ℕ) → result ≢ Err (StoreFault.Damaged place) }
        ensures itself { D.identity (disk_of self.new) ≡ D.identity (disk_of self.old) }
        ensures counts { D.faults (disk_of self.old) ≤ D.faults (disk_of self.new) }
        ensures steady { IsErrOf result StoreFault.Disk ⊎ (D.faults (disk_of self.new) ≡ D.faults (disk_of self.old)) }
        ensures failed { IsErrOf result StoreFault.Disk → Rose (D.faults (disk_of self.old)) (D.faults (disk_of self.new)) }

        // Another refusal than `Disk` changes nothing.
        ensures stays { OnErr result (IsErrOf result StoreFault.Disk ⊎ Unchanged D.seen D.may_leave D.moment D.left_since (disk_of self.old) (disk_of self.new)) }
        ensures keeps { OnErr result (IsErrOf result StoreFault.Disk ⊎ ((D.plain (disk_of self.new) ≡ D.plain (disk_of self.old)) × (layout_of self.new ≡ layout_of self.old))) }
        ensures holds { Holds D.seen D.may_leave self.old
            → OnErr result (IsErrOf result StoreFault.Disk ⊎ Holds D.seen D.may_leave self.new) }
    {
        self.apply(alloc, Op::Format { generation, epochs })
    }
}
