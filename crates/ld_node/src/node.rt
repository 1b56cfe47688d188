// A node over its store.
ghost use Rattle.ld_layout.specs.declared.segment.Growth.TheVariants.{Still, Wide};

use crate::NodeFault;
use crate::keep::{keep, stage};
use crate::known::Known;
use crate::msgs::{release, released_by};
use crate::settled::prepare;
use ld_config::Config;
use ld_disk::{Disk, Fault};
use ld_ids::NodeId;
use ld_layout::Growth;
use ld_lsn::Lsn;
use ld_msg::{Msg, Replies};
use ld_op::Plain;
use ld_store::Store;
use std::alloc::Global;
use std::collections::BTreeMap;

/// A node: its number, its store, what it knows of the configuration, and the released numbers of the logs, which are
/// kept in memory alone; and whether it was formatted since it was loaded.
#[derive(Drop)]
pub struct Node<D: Disk> {
    pub(crate) id: NodeId,
    pub(crate) store: Store<D>,
    pub(crate) known: Known,
    released: BTreeMap<u32, Lsn>,
    pub(crate) is_new: bool,
}

impl<D: Disk> Node<D> {
    ghost use Rattle.std.specs.Prelude.{◌≡◌, ◌≢◌, ◌⊎◌, ◌↔◌, ◌≤◌, [], ℕ, List, IfOk, IfErr, IfSome, MatchResult, OnOk, OnErr, IsErrOf, Ok, Err, None, Some, is_ok, true, false};
    ghost use Rattle.std.specs.Option.{option_map};
    ghost use Rattle.ld_io.specs.Causes.{Rose};
    ghost use Rattle.ld_disk.specs.Images.{IsHonest};
    ghost use Rattle.ld_disk.specs.Moments.{LeavesOnly, Unchanged};
    ghost use Rattle.ld_disk.specs.Plain.{Plain as DiskPlain, after_call, succeeds, after_calls, all_succeed, reads_fine, armed_with};
    ghost use Rattle.ld_msg.specs.Bounds.{IsMessage};
    ghost use Rattle.ld_op.specs.Handles.{answer_message};
    ghost use Rattle.ld_node_bounds.specs.Messages.{AreMessages};
    ghost use Rattle.ld_store.specs.Ops.{StandsFor, StandsForEither, IfStands, IsOfFirst, HasNoRoom, IsDamaged};
    ghost use Rattle.ld_store.specs.Loads.{LeftOrMarked, Loads};
    ghost use Rattle.ld_op.specs.Plain.{Plain as State};
    ghost use Rattle.ld_layout.specs.Layout.{switch_number};
    ghost use Rattle.ld_register.specs.declared.fault.RegisterFault.{RegisterFault as Refusal};
    ghost use Rattle.ld_node.specs.Known.{known_in};
    ghost use Rattle.ld_node.specs.Loads.{LoadRefused};
    ghost use Rattle.ld_node.specs.Changes.{kept, laid_with, slots_kept, calls_of, IsPast};
    ghost use Rattle.ld_node.specs.Msgs.{handled, released_after};
    ghost use Rattle.ld_node.specs.ByIndex.{DoesByIndex};
    ghost use Rattle.ld_node.specs.Node.{id_of, known_of, released_of, disk_of, layout_of, slots_of, must_load, is_blank, is_new, index_of, plain_of, Holds, HoldsOr, HoldsEither, IsOpened};

    /// Loads the node of this number from its disk, in one writing call. A journal of the first version is then marked
    /// as one of the second, by a record more, before which its segment may be switched; that leaves the plain state as
    /// it is. The node knows the nodes and the logs of the configuration. Nothing is released yet.
    ///
    /// A refusal hands the disk back: `Disk` where a call of it failed, `Damaged(place)` where the record whose gate
    /// is at that offset is cut short, or its body is none that may stand there, or the segment that begins there isn't
    /// within its bounds, or the disk has no byte at all, `Full` where a mark, or the segment that it needs, would pass
    /// the journal's limit, and `NoMemory`.
    pub fn load(
        alloc: Global,
        id: NodeId,
        disk: D,
        config: &Config,
    ) -> Result<Node<D>, (D, NodeFault)>
        ensures node { IfOk result (λ node. (id_of node ≡ id) × (known_of node ≡ known_in config.now) × (released_of node ≡ [])) }
        ensures opens { IfOk result (λ node. IfSome (D.seen disk) (IsOpened D.seen D.may_leave node)) }
        ensures works { IfOk result (λ node. must_load node ≡ false) }
        ensures old { IfOk result (λ node. is_new node ≡ false) }
        ensures still { IfOk result (λ node. (layout_of node).grows ≡ Still) }
        ensures itself { MatchResult result (λ node. D.identity (disk_of node) ≡ D.identity disk) (λ e. D.identity e.0 ≡ D.identity disk) }
        ensures counts { MatchResult result (λ node. D.faults disk ≤ D.faults (disk_of node)) (λ e. D.faults disk ≤ D.faults e.0) }
        ensures steady { MatchResult result (λ node. D.faults (disk_of node) ≡ D.faults disk) (λ e. (e.1 ≡ NodeFault.Disk) ⊎ (D.faults e.0 ≡ D.faults disk)) }

        // A crash at any moment leaves what a crash before the call might have left, or, of a journal of the first
        // version, what represents the same plain state.
        ensures any_moment { IfSome (D.seen disk) (λ bytes. MatchResult result (λ node. LeavesOnly D.moment D.left_since disk (disk_of node) (LeftOrMarked (D.may_leave disk) bytes))
            (λ e. LeavesOnly D.moment D.left_since disk e.0 (LeftOrMarked (D.may_leave disk) bytes))) }

        // Where it isn't marked, no byte changes: a crash leaves what one before the call might have left.
        ensures reads { IfErr result (λ e. (e.1 ≡ NodeFault.Disk) ⊎ LeavesOnly D.moment D.left_since disk e.0 (D.may_leave disk)) }

        // Where the disk tells what each call will do, no read of it fails, and its bytes represent a plain state and are
        // no journal of the first version, it is one writing call.
        ensures exact { (p : DiskPlain) (state : State) → D.plain disk ≡ Some p → reads_fine p ≡ true → StandsFor state p.state.bytes → ¬ IsOfFirst p.state.bytes
            → MatchResult result (λ node. (D.plain (disk_of node) ≡ Some (after_call None p)) × (succeeds p ≡ true))
            (λ e. ((e.1 ≡ NodeFault.NoMemory) × ((D.plain e.0 ≡ Some p) ⊎ (D.plain e.0 ≡ Some (after_call None p)))) ⊎ ((D.plain e.0 ≡ Some (after_call None p)) × ((e.1 ≡ NodeFault.Disk) ↔ (succeeds p ≡ false)))) }

        ensures damaged_exact { (p : DiskPlain) (place : ℕ) → D.plain disk ≡ Some p → reads_fine p ≡ true → IfErr result (λ e. e.1 ≡ NodeFault.Damaged place → D.plain e.0 ≡ Some (after_call None p)) }

        // Where it has one, the calls of the mark come after it.
        ensures marks { (p : DiskPlain) (was : IsOfFirst p.state.bytes) → D.plain disk ≡ Some p → reads_fine p ≡ true
            → MatchResult result (λ node. Loads was.layout was.slots p (D.plain (disk_of node)) None) (λ e. LoadRefused was.layout was.slots p (D.plain e.0) e.1) }

        ensures seen { MatchResult result (λ node. (D.seen (disk_of node) ≡ D.seen disk) ⊎ IfSome (D.seen disk) (IfStands IsOfFirst)) (λ e. (e.1 ≡ NodeFault.Disk) ⊎ (D.seen e.0 ≡ D.seen disk)) }
        ensures failed { IfErr result (λ e. e.1 ≡ NodeFault.Disk → Rose (D.faults disk) (D.faults e.0)) }
        ensures damaged { IfErr result (λ e. (place : ℕ) → e.1 ≡ NodeFault.Damaged place → IfSome (D.seen disk) (IsDamaged place)) }
        ensures honest { IfErr result (λ e. IsHonest (D.seen disk) → ((c : List ℕ) → D.may_leave disk c → (state : _) × StandsFor state c)
            → (place : ℕ) → e.1 ≢ NodeFault.Damaged place) }

        // It is full exactly where a mark has no room.
        ensures full { IfErr result (λ e. e.1 ≡ NodeFault.Full → IfSome (D.seen disk) (IfStands HasNoRoom)) }
        ensures too_long { IfOk result (λ _. IfSome (D.seen disk) (λ bytes. ¬ HasNoRoom bytes)) }
        ensures needs_load { IfErr result (λ e. e.1 ≢ NodeFault.NeedsLoad) }
        ensures register { IfErr result (λ e. (fault : Refusal) → e.1 ≢ NodeFault.Register fault) }
    {
        let known = match Known::of(alloc, config) {
            Ok(known) => known,
            Err(_) => return Err((disk, NodeFault::NoMemory)),
        };
        match Store::load(alloc, disk) {
            Ok(store) => Ok(Node {
                id,
                store,
                known,
                released: BTreeMap::new(alloc),
                is_new: false,
            }),
            Err((disk, fault)) => Err((disk, NodeFault::from(fault))),
        }
    }

    /// Whether its store isn't formatted.
    pub fn is_blank(&self) -> bool
        ensures { result ≡ is_blank self.now }
    {
        self.store.is_blank()
    }

    /// Whether it was formatted since it was loaded.
    pub fn is_new(&self) -> bool
        ensures { result ≡ is_new self.now }
    {
        self.is_new
    }

    /// Its plain state in memory, with the places of its payloads.
    pub fn index(&self) -> &Plain
        ensures { result.now.state ≡ index_of self.now }
    {
        self.store.index()
    }

    /// How many switches of its store there were to a new segment: 0 in the first one.
    pub fn segment(&self) -> u64
        ensures { result ≡ switch_number (layout_of self.now).later }
    {
        self.store.segment()
    }

    /// The node, whose store begins wide segments, the room of each growing with its Base. One that was loaded begins segments
    /// of the least room.
    pub fn growing(self) -> Node<D>
        ensures layout { (layout_of result ≡ record (layout_of self) { grows = Wide }) × (slots_of result ≡ slots_of self) }
        ensures rest { (id_of result ≡ id_of self) × (known_of result ≡ known_of self) × (released_of result ≡ released_of self) × (disk_of result ≡ disk_of self) × (index_of result ≡ index_of self) × (plain_of result ≡ plain_of self) × (is_blank result ≡ is_blank self) × (must_load result ≡ must_load self) }
        ensures holds { Holds D.seen D.may_leave self → Holds D.seen D.may_leave result }
        ensures opened { (bytes : List ℕ) → IsOpened D.seen D.may_leave self bytes → IsOpened D.seen D.may_leave result bytes }
    {
        let mut node = self;
        node.store.grow(Growth::Wide);
        node
    }

    /// Gives the disk back, as the last call left it.
    pub fn into_disk(self) -> D
        ensures { result ≡ disk_of self }
    {
        self.store.into_disk()
    }

    /// Tells a disk in memory to fail or to crash. Other disks ignore it.
    pub fn arm(&mut self, fault: Fault)
        ensures exact { D.plain (disk_of self.new) ≡ option_map (armed_with fault) (D.plain (disk_of self.old)) }
        ensures same { Unchanged D.seen D.may_leave D.moment D.left_since (disk_of self.old) (disk_of self.new) }
        ensures itself { D.identity (disk_of self.new) ≡ D.identity (disk_of self.old) }
        ensures faults { D.faults (disk_of self.new) ≡ D.faults (disk_of self.old) }
        ensures rest { (index_of self.new ≡ index_of self.old) × (plain_of self.new ≡ plain_of self.old) × (released_of self.new ≡ released_of self.old) × (id_of self.new ≡ id_of self.old) × (known_of self.new ≡ known_of self.old) × (is_blank self.new ≡ is_blank self.old) × (must_load self.new ≡ must_load self.old) }
        ensures layout { (layout_of self.new ≡ layout_of self.old) × (slots_of self.new ≡ slots_of self.old) }
        ensures holds { Holds D.seen D.may_leave self.old → Holds D.seen D.may_leave self.new }
    {
        self.store.arm(fault);
    }

    /// What a node makes of a message: the op that it keeps, and then what it answers, which a frame can carry. A
    /// message for another node, or of a log that it doesn't know, does nothing and has no answer.
    ///
    /// It refuses with `Full` where the op's record, or the segment that it needs, would pass the journal's limit, and
    /// with `NoMemory`; then nothing has changed. It refuses with `Disk` where a call of the disk failed: the op is then there or not, which the next
    /// load tells, and until then each call answers `NeedsLoad`. It refuses with `Damaged(place)` where the disk ends
    /// before the payload that stands at that offset does, which can't be where it tells what it has. No refusal changes
    /// anything in memory.
    pub fn on_msg(&mut self, alloc: Global, msg: &Msg) -> Result<Replies, NodeFault>
        requires msg { IsMessage msg.now }
        requires formatted { is_blank self.old ≡ false }

        ensures replies { Holds D.seen D.may_leave self.old
            → IfOk result (λ replies. replies ≡ answer_message (id_of self.old) msg.now (handled (id_of self.old) (known_of self.old) (released_of self.old) (plain_of self.old) msg.now).answer) }

        // On any disk, whatever bytes it gives, the answers are those of a step from the index but for the bytes of payloads, and
        // the index is then as after that step.
        ensures by_index { IfOk result (λ replies. DoesByIndex (id_of self.old) (known_of self.old) (released_of self.old) msg.now replies (layout_of self.old) (layout_of self.new)) }

        // Each answer is a message that a frame can carry.
        ensures messages { IfOk result (λ replies. AreMessages replies) }

        ensures kept { Holds D.seen D.may_leave self.old
            → OnOk result (plain_of self.new ≡ kept (handled (id_of self.old) (known_of self.old) (released_of self.old) (plain_of self.old) msg.now).op (plain_of self.old)) }
        ensures laid { Holds D.seen D.may_leave self.old
            → OnOk result ((layout_of self.new ≡ laid_with (layout_of self.old) (handled (id_of self.old) (known_of self.old) (released_of self.old) (plain_of self.old) msg.now).op) × (slots_of self.new ≡ slots_kept (layout_of self.old) (slots_of self.old) (handled (id_of self.old) (known_of self.old) (released_of self.old) (plain_of self.old) msg.now).op)) }
        ensures released { OnOk result (released_of self.new ≡ released_after (id_of self.old) (known_of self.old) (released_of self.old) msg.now) }
        ensures refused { OnErr result ((index_of self.new ≡ index_of self.old) × (layout_of self.new ≡ layout_of self.old) × (slots_of self.new ≡ slots_of self.old) × (released_of self.new ≡ released_of self.old)) }
        ensures rest { (id_of self.new ≡ id_of self.old) × (known_of self.new ≡ known_of self.old) × (is_blank self.new ≡ false) }

        // At `Ok` the op is durable: from then on each crash leaves what represents the plain state with it.
        ensures acknowledged { Holds D.seen D.may_leave self.old → OnOk result (Holds D.seen D.may_leave self.new) }

        // A crash at any moment of the call leaves what represents the plain state before it or for that with the op.
        ensures any_moment { Holds D.seen D.may_leave self.old
            → LeavesOnly D.moment D.left_since (disk_of self.old) (disk_of self.new) (StandsForEither (plain_of self.old) (kept (handled (id_of self.old) (known_of self.old) (released_of self.old) (plain_of self.old) msg.now).op (plain_of self.old))) }

        // Where the disk tells what each call will do, and no read of it fails, it is the writing calls of the op's
        // record, or none.
        ensures exact { (p : DiskPlain) → Holds D.seen D.may_leave self.old → D.plain (disk_of self.old) ≡ Some p → reads_fine p ≡ true → (is_ok result ≡ true ⊎ IsErrOf result NodeFault.Disk)
            → (D.plain (disk_of self.new) ≡ Some (after_calls (calls_of (layout_of self.old) (slots_of self.old) (handled (id_of self.old) (known_of self.old) (released_of self.old) (plain_of self.old) msg.now).op) p))
            × (is_ok result ≡ all_succeed (calls_of (layout_of self.old) (slots_of self.old) (handled (id_of self.old) (known_of self.old) (released_of self.old) (plain_of self.old) msg.now).op) p) }

        // A message of which nothing is kept only reads.
        ensures silent { Holds D.seen D.may_leave self.old
            → (handled (id_of self.old) (known_of self.old) (released_of self.old) (plain_of self.old) msg.now).op ≡ None → Unchanged D.seen D.may_leave D.moment D.left_since (disk_of self.old) (disk_of self.new) × (layout_of self.new ≡ layout_of self.old) × (slots_of self.new ≡ slots_of self.old) }
        ensures silent_works { (p : DiskPlain) → Holds D.seen D.may_leave self.old → D.plain (disk_of self.old) ≡ Some p → reads_fine p ≡ true
            → (handled (id_of self.old) (known_of self.old) (released_of self.old) (plain_of self.old) msg.now).op ≡ None → result ≢ Err NodeFault.Disk }
        ensures honest { IsHonest (D.seen (disk_of self.old)) → IsHonest (D.seen (disk_of self.new)) }

        ensures full { Holds D.seen D.may_leave self.old
            → IsErrOf result NodeFault.Full → IsPast (layout_of self.old) (handled (id_of self.old) (known_of self.old) (released_of self.old) (plain_of self.old) msg.now).op }
        ensures too_long { (p : DiskPlain) → Holds D.seen D.may_leave self.old → D.plain (disk_of self.old) ≡ Some p → reads_fine p ≡ true
            → IsPast (layout_of self.old) (handled (id_of self.old) (known_of self.old) (released_of self.old) (plain_of self.old) msg.now).op → IsErrOf result NodeFault.Full ⊎ IsErrOf result NodeFault.NoMemory }
        ensures too_long_or_failed { Holds D.seen D.may_leave self.old
            → IsPast (layout_of self.old) (handled (id_of self.old) (known_of self.old) (released_of self.old) (plain_of self.old) msg.now).op → IsErrOf result NodeFault.Full ⊎ IsErrOf result NodeFault.NoMemory ⊎ IsErrOf result NodeFault.Disk }
        ensures needs_load { IsErrOf result NodeFault.NeedsLoad ↔ (must_load self.old ≡ true) }
        ensures loads { (must_load self.new ≡ true) ↔ ((must_load self.old ≡ true) ⊎ IsErrOf result NodeFault.Disk) }
        ensures register { (fault : Refusal) → result ≢ Err (NodeFault.Register fault) }
        // Where the store holds what its disk has, each payload is there.
        ensures damaged { (place : ℕ) → Holds D.seen D.may_leave self.old → result ≢ Err (NodeFault.Damaged place) }
        ensures itself { D.identity (disk_of self.new) ≡ D.identity (disk_of self.old) }
        ensures counts { D.faults (disk_of self.old) ≤ D.faults (disk_of self.new) }
        ensures steady { IsErrOf result NodeFault.Disk ⊎ (D.faults (disk_of self.new) ≡ D.faults (disk_of self.old)) }
        ensures failed { IsErrOf result NodeFault.Disk → Rose (D.faults (disk_of self.old)) (D.faults (disk_of self.new)) }

        // Another refusal than `Disk` changes nothing.
        ensures stays { OnErr result (IsErrOf result NodeFault.Disk ⊎ Unchanged D.seen D.may_leave D.moment D.left_since (disk_of self.old) (disk_of self.new)) }
        ensures keeps { (p : DiskPlain) → D.plain (disk_of self.old) ≡ Some p → reads_fine p ≡ true
            → OnErr result (IsErrOf result NodeFault.Disk ⊎ ((D.plain (disk_of self.new) ≡ Some p) × (layout_of self.new ≡ layout_of self.old))) }
        ensures holds { Holds D.seen D.may_leave self.old
            → OnErr result (IsErrOf result NodeFault.Disk ⊎ Holds D.seen D.may_leave self.new) }
    {
        if self.store.needs_load() {
            return Err(NodeFault::NeedsLoad);
        }
        let (op, replies) = prepare(
            alloc,
            self.id,
            &self.known,
            &self.released,
            &mut self.store,
            msg,
        )?;
        let number = released_by(self.id, &self.known, msg);
        release(&mut self.released, msg.log, number)?;
        keep(alloc, &mut self.store, op)?;
        Ok(replies)
    }

    /// What a node makes of a message, as `on_msg` does, but the op that it keeps is staged behind the others of its group:
    /// it is there after a crash only once `commit` answered `Ok`, and until then no answer may be sent. Where the op needs a
    /// new segment, what was staged before it is committed first.
    ///
    /// It refuses with `Full` where the op's record, or the segment that it needs, would pass the journal's limit, and
    /// with `NoMemory`; then nothing has changed in memory, and the ops that were staged before may be durable. It refuses with
    /// `Disk` where a call of the disk failed: the ops that were staged are then there, all or none, which the next load tells, and until
    /// then each call answers `NeedsLoad`. It refuses with `Damaged(place)` as `on_msg` does.
    pub fn stage_msg(&mut self, alloc: Global, msg: &Msg) -> Result<Replies, NodeFault>
        requires msg { IsMessage msg.now }
        requires formatted { is_blank self.old ≡ false }

        // The answers are those of a step from the plain state with all that was staged.
        ensures replies { (p : State) → HoldsOr D.seen D.may_leave self.old p
            → IfOk result (λ replies. replies ≡ answer_message (id_of self.old) msg.now (handled (id_of self.old) (known_of self.old) (released_of self.old) (plain_of self.old) msg.now).answer) }
        ensures by_index { IfOk result (λ replies. DoesByIndex (id_of self.old) (known_of self.old) (released_of self.old) msg.now replies (layout_of self.old) (layout_of self.new)) }
        ensures messages { IfOk result (λ replies. AreMessages replies) }
        ensures kept { (p : State) → HoldsOr D.seen D.may_leave self.old p
            → OnOk result (plain_of self.new ≡ kept (handled (id_of self.old) (known_of self.old) (released_of self.old) (plain_of self.old) msg.now).op (plain_of self.old)) }
        ensures released { OnOk result (released_of self.new ≡ released_after (id_of self.old) (known_of self.old) (released_of self.old) msg.now) }

        // What a crash leaves then represents the plain state at the last commit, or, where it committed first, that with all
        // that was staged before. The op itself isn't there.
        ensures staged { (p : State) → HoldsOr D.seen D.may_leave self.old p → OnOk result (HoldsEither D.seen D.may_leave self.new p (plain_of self.old)) }
        ensures stays { (p : State) → HoldsOr D.seen D.may_leave self.old p
            → OnErr result (IsErrOf result NodeFault.Disk ⊎ ((plain_of self.new ≡ plain_of self.old) × HoldsEither D.seen D.may_leave self.new p (plain_of self.old))) }
        ensures any_moment { (p : State) → HoldsOr D.seen D.may_leave self.old p
            → LeavesOnly D.moment D.left_since (disk_of self.old) (disk_of self.new) (StandsForEither p (plain_of self.old)) }

        // No refusal but `Disk` changes anything in memory.
        ensures refused { OnErr result (IsErrOf result NodeFault.Disk ⊎ ((index_of self.new ≡ index_of self.old) × (layout_of self.new ≡ layout_of self.old) × (slots_of self.new ≡ slots_of self.old) × (released_of self.new ≡ released_of self.old))) }
        ensures rest { (id_of self.new ≡ id_of self.old) × (known_of self.new ≡ known_of self.old) × (is_blank self.new ≡ false) }
        ensures honest { IsHonest (D.seen (disk_of self.old)) → IsHonest (D.seen (disk_of self.new)) }
        ensures full { (p : State) → HoldsOr D.seen D.may_leave self.old p
            → IsErrOf result NodeFault.Full → IsPast (layout_of self.old) (handled (id_of self.old) (known_of self.old) (released_of self.old) (plain_of self.old) msg.now).op }
        ensures needs_load { IsErrOf result NodeFault.NeedsLoad ↔ (must_load self.old ≡ true) }
        ensures loads { (must_load self.new ≡ true) ↔ ((must_load self.old ≡ true) ⊎ IsErrOf result NodeFault.Disk) }
        ensures register { (fault : Refusal) → result ≢ Err (NodeFault.Register fault) }
        ensures damaged { (p : State) (place : ℕ) → HoldsOr D.seen D.may_leave self.old p → result ≢ Err (NodeFault.Damaged place) }
        ensures itself { D.identity (disk_of self.new) ≡ D.identity (disk_of self.old) }
        ensures counts { D.faults (disk_of self.old) ≤ D.faults (disk_of self.new) }
        ensures steady { IsErrOf result NodeFault.Disk ⊎ (D.faults (disk_of self.new) ≡ D.faults (disk_of self.old)) }
        ensures failed { IsErrOf result NodeFault.Disk → Rose (D.faults (disk_of self.old)) (D.faults (disk_of self.new)) }
    {
        if self.store.needs_load() {
            return Err(NodeFault::NeedsLoad);
        }
        let (op, replies) = prepare(
            alloc,
            self.id,
            &self.known,
            &self.released,
            &mut self.store,
            msg,
        )?;
        let number = released_by(self.id, &self.known, msg);
        release(&mut self.released, msg.log, number)?;
        stage(alloc, &mut self.store, op)?;
        Ok(replies)
    }

    /// Makes the ops that were staged durable, in three writing calls where there are some, and in none where there are none.
    ///
    /// It refuses with `NoMemory`, when they are still staged, and with `Disk` where a call of the disk failed: the ops are then
    /// there, all or none, which the next load tells, and until then each call answers `NeedsLoad`.
    pub fn commit(&mut self) -> Result<(), NodeFault>
        ensures durable { (p : State) → HoldsOr D.seen D.may_leave self.old p → OnOk result (Holds D.seen D.may_leave self.new) }
        ensures plain { (p : State) → HoldsOr D.seen D.may_leave self.old p → OnOk result (plain_of self.new ≡ plain_of self.old) }
        ensures same { (index_of self.new ≡ index_of self.old) × (layout_of self.new ≡ layout_of self.old) × (slots_of self.new ≡ slots_of self.old) × (released_of self.new ≡ released_of self.old) }
        ensures rest { (id_of self.new ≡ id_of self.old) × (known_of self.new ≡ known_of self.old) × (is_blank self.new ≡ is_blank self.old) }

        // A crash at any moment of the call leaves what represents the plain state at the last commit or that with all that was
        // staged.
        ensures any_moment { (p : State) → HoldsOr D.seen D.may_leave self.old p
            → LeavesOnly D.moment D.left_since (disk_of self.old) (disk_of self.new) (StandsForEither p (plain_of self.old)) }
        ensures honest { IsHonest (D.seen (disk_of self.old)) → IsHonest (D.seen (disk_of self.new)) }
        ensures refused { OnErr result (IsErrOf result NodeFault.Disk ⊎ (IsErrOf result NodeFault.NoMemory ⊎ IsErrOf result NodeFault.NeedsLoad)) }
        ensures holds { (p : State) → HoldsOr D.seen D.may_leave self.old p → OnErr result (IsErrOf result NodeFault.Disk ⊎ HoldsOr D.seen D.may_leave self.new p) }
        ensures needs_load { IsErrOf result NodeFault.NeedsLoad ↔ (must_load self.old ≡ true) }
        ensures loads { (must_load self.new ≡ true) ↔ ((must_load self.old ≡ true) ⊎ IsErrOf result NodeFault.Disk) }
        ensures itself { D.identity (disk_of self.new) ≡ D.identity (disk_of self.old) }
        ensures counts { D.faults (disk_of self.old) ≤ D.faults (disk_of self.new) }
        ensures steady { IsErrOf result NodeFault.Disk ⊎ (D.faults (disk_of self.new) ≡ D.faults (disk_of self.old)) }
        ensures failed { IsErrOf result NodeFault.Disk → Rose (D.faults (disk_of self.old)) (D.faults (disk_of self.new)) }
    {
        self.store.commit()?;
        Ok(())
    }
}
