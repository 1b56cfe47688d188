// What a node asks of the register: a generation for its format, what is closed of a log, and the place of another node.
ghost use Rattle.std.specs.Prelude.{◌≡◌, ◌≢◌, ◌⊎◌, ◌↔◌, ◌≤◌, ◌-◌, ◌^◌, ℕ, IfOk, OnOk, OnErr, IsErrOf, Option, Ok, Err, None, Some, is_ok, true, false};
ghost use Rattle.ld_ids.specs.declared.set.Spec.{Spec as Fixed};
ghost use Rattle.ld_io.specs.Causes.{Rose};
ghost use Rattle.ld_disk.specs.Images.{IsHonest};
ghost use Rattle.ld_disk.specs.Moments.{LeavesOnly, Unchanged};
ghost use Rattle.ld_disk.specs.Plain.{Plain as DiskPlain, after_calls, all_succeed};
ghost use Rattle.ld_store.specs.Ops.{StandsForEither};
ghost use Rattle.ld_op.specs.Plain.{apply, op_length};
ghost use Rattle.ld_layout.specs.Layout.{kept_in};
ghost use Rattle.ld_segment.specs.Lies.{slots_with};
ghost use Rattle.ld_msg.specs.Register.{Register as Contents, epochs_of, generation_of};
ghost use Rattle.ld_register.specs.Calls.{drawn as drawn_by, after_draw, ChangedOrNot, IsFree, Keeps, is_full, draw_length, swap_length};
ghost use Rattle.ld_register.specs.declared.register.Drawn.{Drawn as Drawing};
ghost use Rattle.ld_register.specs.declared.fault.RegisterFault.{RegisterFault as Refusal};
ghost use Rattle.ld_table.specs.Words.{is_in};
ghost use Rattle.ld_register.specs.declared.fault.RegisterFault.TheVariants as faults;
ghost use Rattle.ld_op.specs.Bounds.{IsOp};
ghost use Rattle.ld_node.specs.Draws.{answered, not_drawn};
ghost use Rattle.ld_node.specs.Swaps.{can_replace, replaced, after_replace, passed_on, counted, not_swapped};
ghost use Rattle.ld_node.specs.Changes.{AreChanges, kept, laid_with, slots_kept, calls_of, IsPast};
ghost use Rattle.ld_node.specs.Formats.{format_of, FormatsBy, LeftByFormat};
ghost use Rattle.ld_node.specs.declared.tick.Ticked.TheVariants as answers;
ghost use Rattle.ld_node.specs.Looks.{ticked, op_of, answer_of, IsOfLook, AskMessages};
ghost use Rattle.ld_node.specs.Node.{id_of, known_of, released_of, disk_of, layout_of, slots_of, must_load, is_blank, is_new, index_of, plain_of, Holds};

use crate::format::format_store;
use crate::keep::keep;
use crate::replace::{can_replace, lost_to};
use crate::tick::{Ticked, look};
use crate::{Node, NodeFault};
use ld_disk::Disk;
use ld_ids::{LogId, NodeId};
use ld_register::{Drawn, Register};
use std::alloc::Global;

impl<D: Disk> Node<D> {
    /// Formats a blank node under a generation that the register draws for it: what the logs' epochs held so far is
    /// lost here. The answer is what was drawn.
    ///
    /// It refuses with `Register` as the register's `draw` does: with `GenLimit` only where the node's generation there is
    /// 2^32-1, with `Full` only where the register's journal has no room, with `Damaged` only where its bytes are no
    /// journal of its changes, and with `Failed` only where its count of faults rose. Once it is drawn it refuses with
    /// `Full` where its own journal would pass its limit, and with `NoMemory`; then nothing else has changed.
    /// It refuses with `Disk` where a call of the disk failed: the format is then there or not, which the next load
    /// tells, and until then each call answers `NeedsLoad`.
    pub fn format<G: Register>(&mut self, alloc: Global, reg: &mut G) -> Result<Drawn, NodeFault>
        requires blank { is_blank self.old ≡ true }

        ensures drawn { (c : Contents) → G.holds reg.old c → IfOk result (λ drawn. (answered drawn ≡ drawn_by c (id_of self.old)) × G.holds reg.new (after_draw c (id_of self.old))) }
        ensures done_or_not { G.told reg.old → ChangedOrNot (G.may_hold reg.old) (G.may_hold reg.new) (λ c. after_draw c (id_of self.old)) }
        ensures told { G.told reg.old → G.told reg.new }
        ensures settled { G.told reg.old → OnOk result ((c : Contents) → G.may_hold reg.new c → G.holds reg.new c) }
        ensures applied { Holds D.seen D.may_leave self.old → IfOk result (λ drawn. plain_of self.new ≡ apply (plain_of self.old) (format_of drawn)) }
        ensures laid { IfOk result (λ drawn. (layout_of self.new ≡ kept_in (layout_of self.old) (format_of drawn)) × (slots_of self.new ≡ slots_with (layout_of self.old) (slots_of self.old) (op_length (format_of drawn)))) }
        ensures formatted { OnOk result (is_blank self.new ≡ false) }
        ensures is_new { OnOk result (is_new self.new ≡ true) }

        // At `Ok` the format is durable: from then on each crash leaves what represents the plain state with it.
        ensures acknowledged { Holds D.seen D.may_leave self.old → OnOk result (Holds D.seen D.may_leave self.new) }

        // A crash at any moment of the call leaves what represents the plain state before it or for that with the format.
        ensures any_moment { Holds D.seen D.may_leave self.old
            → LeavesOnly D.moment D.left_since (disk_of self.old) (disk_of self.new)
            (LeftByFormat (plain_of self.old) (λ drawn. (c : Contents) → G.holds reg.old c → answered drawn ≡ drawn_by c (id_of self.old))) }

        // Where the register and the disk tell what each call will do, the answer and the disk are just these.
        ensures exact { (c : Contents) (disk : DiskPlain) → Holds D.seen D.may_leave self.old → G.tells reg.old c → D.plain (disk_of self.old) ≡ Some disk
            → IsErrOf result NodeFault.NoMemory ⊎ FormatsBy (layout_of self.old) (slots_of self.old) disk (drawn_by c (id_of self.old)) (D.plain (disk_of self.new)) result }

        // Want of memory comes before the draw or after it; each other answer comes after it.
        ensures tells { (c : Contents) → must_load self.old ≡ false → G.tells reg.old c
            → (IsErrOf result NodeFault.NoMemory × G.tells reg.new c) ⊎ G.tells reg.new (after_draw c (id_of self.old)) }

        ensures refused { OnErr result ((index_of self.new ≡ index_of self.old) × (layout_of self.new ≡ layout_of self.old) × (slots_of self.new ≡ slots_of self.old) × (is_blank self.new ≡ is_blank self.old)) }
        ensures rest { (id_of self.new ≡ id_of self.old) × (known_of self.new ≡ known_of self.old) × (released_of self.new ≡ released_of self.old) }

        // What was held is held with the draw or without it, but where the register failed.
        ensures held { (c : Contents) → G.holds reg.old c → IsErrOf result (NodeFault.Register faults.Failed) ⊎ G.holds reg.new c ⊎ G.holds reg.new (after_draw c (id_of self.old)) }

        // A refusal of the register is one of its draw, and nothing of the node has changed.
        ensures register { (c : Contents) (fault : Refusal) → G.holds reg.old c → IsErrOf result (NodeFault.Register fault)
            → IsFree (not_drawn fault) ⊎ ((not_drawn fault ≡ drawn_by c (id_of self.old)) × G.holds reg.new (after_draw c (id_of self.old))) }
        ensures register_whole { (fault : Refusal) → IsErrOf result (NodeFault.Register fault) → G.told reg.old → IsFree (not_drawn fault) ⊎ ((c : Contents) × G.holds reg.old c) }
        ensures whole { G.told reg.old → OnOk result ((c : Contents) × G.holds reg.old c) }
        ensures register_keeps { (fault : Refusal) → IsErrOf result (NodeFault.Register fault) → (fault ≡ faults.Failed) ⊎ Keeps (G.holds reg.old) (G.holds reg.new) (G.may_hold reg.old) (G.may_hold reg.new) }

        // The node's generation in the register is the greatest; the register's journal has no room for the draw.
        ensures generations { IsErrOf result (NodeFault.Register faults.GenLimit) → G.told reg.old → (c : Contents) × G.holds reg.old c × (2 ^ 32 - 1 ≤ generation_of c (id_of self.old)) }
        ensures register_full { IsErrOf result (NodeFault.Register faults.Full) → G.told reg.old → (c : Contents) × G.holds reg.old c × (is_full c draw_length ≡ true) }
        ensures logs { result ≢ Err (NodeFault.Register faults.LogLimit) }
        ensures behind { (lce : ℕ) (next : Option Fixed) → result ≢ Err (NodeFault.Register (faults.Behind lce next)) }
        ensures overtaken { (kept : ℕ) → result ≢ Err (NodeFault.Register (faults.Overtaken kept)) }
        ensures epochs { result ≢ Err (NodeFault.Register faults.EpochLimit) }
        ensures swaps { result ≢ Err (NodeFault.Register faults.SwapLimit) }
        ensures register_damaged { (place : ℕ) → IsErrOf result (NodeFault.Register (faults.Damaged place)) → G.told reg.old → G.damaged reg.old place }

        ensures full { (c : Contents) → Holds D.seen D.may_leave self.old → G.holds reg.old c → IsErrOf result NodeFault.Full
            → (drawn : Drawing) × (answered drawn ≡ drawn_by c (id_of self.old)) × IsPast (layout_of self.old) (Some (format_of drawn)) }
        ensures too_long { (c : Contents) (drawn : Drawing) → must_load self.old ≡ false → G.holds reg.old c → answered drawn ≡ drawn_by c (id_of self.old) → IsPast (layout_of self.old) (Some (format_of drawn))
            → IsErrOf result NodeFault.Full ⊎ IsErrOf result NodeFault.NoMemory ⊎ ((fault : Refusal) × IsErrOf result (NodeFault.Register fault)) }

        // The format is one that a journal's body can carry, and where it got as far as the disk, or the journal's limit, too.
        ensures made { IfOk result (λ drawn. IsOp (format_of drawn)) }
        ensures op { (c : Contents) → G.tells reg.old c → IsErrOf result NodeFault.Disk ⊎ IsErrOf result NodeFault.Full
            → (drawn : Drawing) × (answered drawn ≡ drawn_by c (id_of self.old)) × IsOp (format_of drawn) }

        ensures needs_load { IsErrOf result NodeFault.NeedsLoad ↔ (must_load self.old ≡ true) }
        ensures needs_no_draw { must_load self.old ≡ true → reg.new ≡ reg.old }
        ensures honest { IsHonest (D.seen (disk_of self.old)) → IsHonest (D.seen (disk_of self.new)) }
        ensures loads { (must_load self.new ≡ true) ↔ ((must_load self.old ≡ true) ⊎ IsErrOf result NodeFault.Disk) }
        ensures damaged { (place : ℕ) → result ≢ Err (NodeFault.Damaged place) }
        ensures memory { result ≢ Err (NodeFault.Register faults.NoMemory) }
        ensures itself { (D.identity (disk_of self.new) ≡ D.identity (disk_of self.old)) × (G.identity reg.new ≡ G.identity reg.old) }
        ensures counts { (D.faults (disk_of self.old) ≤ D.faults (disk_of self.new)) × (G.faults reg.old ≤ G.faults reg.new) }
        ensures steady { IsErrOf result NodeFault.Disk ⊎ (D.faults (disk_of self.new) ≡ D.faults (disk_of self.old)) }
        ensures register_steady { IsErrOf result (NodeFault.Register faults.Failed) ⊎ (G.faults reg.new ≡ G.faults reg.old) }
        ensures failed { IsErrOf result NodeFault.Disk → Rose (D.faults (disk_of self.old)) (D.faults (disk_of self.new)) }
        ensures register_failed { IsErrOf result (NodeFault.Register faults.Failed) → Rose (G.faults reg.old) (G.faults reg.new) }

        // Another refusal than `Disk` changes nothing of the node.
        ensures stays { OnErr result (IsErrOf result NodeFault.Disk ⊎ Unchanged D.seen D.may_leave D.moment D.left_since (disk_of self.old) (disk_of self.new)) }
        ensures keeps { OnErr result (IsErrOf result NodeFault.Disk ⊎ ((D.plain (disk_of self.new) ≡ D.plain (disk_of self.old)) × (layout_of self.new ≡ layout_of self.old))) }
        ensures holds { Holds D.seen D.may_leave self.old
            → OnErr result (IsErrOf result NodeFault.Disk ⊎ Holds D.seen D.may_leave self.new) }
    {
        if self.store.needs_load() {
            return Err(NodeFault::NeedsLoad);
        }
        let drawn = reg.draw(alloc, self.id)?;
        let formatted = format_store(alloc, &mut self.store, drawn);
        self.is_new = formatted.is_ok();
        formatted
    }

    /// Looks at the register for a log and does what the node has to do for it: the lowest epoch that isn't clean here,
    /// where it is closed there, is cleaned with its summary; else, where what was lost is all there again, the node is
    /// lost for the log no more; else, where a number is missing, it asks all other nodes from the lowest missing
    /// number on, in messages that a frame can carry; else nothing. For a log that it doesn't know it does nothing, and
    /// doesn't look.
    ///
    /// It refuses with `Register` as the register's `look` does, with `Full` where the op's record, or the segment that
    /// it needs, would pass the journal's limit, and with `NoMemory`; then nothing has changed. It refuses with `Disk` where a call of the disk
    /// failed: the op is then there or not, which the next load tells, and until then each call answers `NeedsLoad`.
    /// No refusal changes anything in memory.
    pub fn tick<G: Register>(
        &mut self,
        alloc: Global,
        log: LogId,
        reg: &mut G,
    ) -> Result<Ticked, NodeFault>
        requires formatted { is_blank self.old ≡ false }

        ensures answer { (c : Contents) → G.holds reg.old c → IfOk result (λ answer. answer ≡ answer_of (id_of self.old) log (known_of self.old).nodes (ticked (known_of self.old) (plain_of self.old) log c)) }

        // Each ask is a message that a frame can carry.
        ensures messages { IfOk result (λ answer. AskMessages answer) }

        ensures kept { (c : Contents) → Holds D.seen D.may_leave self.old → G.holds reg.old c → OnOk result (plain_of self.new ≡ kept (op_of log (ticked (known_of self.old) (plain_of self.old) log c)) (plain_of self.old)) }
        ensures laid { (c : Contents) → G.holds reg.old c
            → OnOk result ((layout_of self.new ≡ laid_with (layout_of self.old) (op_of log (ticked (known_of self.old) (plain_of self.old) log c))) × (slots_of self.new ≡ slots_kept (layout_of self.old) (slots_of self.old) (op_of log (ticked (known_of self.old) (plain_of self.old) log c)))) }
        ensures looked { (c : Contents) → G.holds reg.old c → IsErrOf result (NodeFault.Register faults.Failed) ⊎ G.holds reg.new c }
        ensures refused { OnErr result ((index_of self.new ≡ index_of self.old) × (layout_of self.new ≡ layout_of self.old) × (slots_of self.new ≡ slots_of self.old)) }
        ensures rest { (id_of self.new ≡ id_of self.old) × (known_of self.new ≡ known_of self.old) × (released_of self.new ≡ released_of self.old) × (is_blank self.new ≡ false) }

        // For a log that it doesn't know there is nothing to do, and no look.
        ensures foreign { must_load self.old ≡ false → is_in log (known_of self.old).logs ≡ false → (result ≡ Ok answers.Nothing) × (self.new ≡ self.old) × (reg.new ≡ reg.old) }

        // At `Ok` the op is durable: from then on each crash leaves what represents the plain state with it.
        ensures acknowledged { Holds D.seen D.may_leave self.old → OnOk result (Holds D.seen D.may_leave self.new) }

        // A crash at any moment of the call leaves what represents the plain state before it or for that with the op.
        ensures any_moment { (c : Contents) → Holds D.seen D.may_leave self.old → G.holds reg.old c
            → LeavesOnly D.moment D.left_since (disk_of self.old) (disk_of self.new) (StandsForEither (plain_of self.old) (kept (op_of log (ticked (known_of self.old) (plain_of self.old) log c)) (plain_of self.old))) }

        // Where the disk tells what each call will do, it is the writing calls of the op's record, or none.
        ensures exact { (c : Contents) (disk : DiskPlain) → G.holds reg.old c → D.plain (disk_of self.old) ≡ Some disk → (is_ok result ≡ true ⊎ IsErrOf result NodeFault.Disk)
            → (D.plain (disk_of self.new) ≡ Some (after_calls (calls_of (layout_of self.old) (slots_of self.old) (op_of log (ticked (known_of self.old) (plain_of self.old) log c))) disk))
            × (is_ok result ≡ all_succeed (calls_of (layout_of self.old) (slots_of self.old) (op_of log (ticked (known_of self.old) (plain_of self.old) log c))) disk) }

        // A tick in which nothing is kept makes no call of the disk.
        ensures silent { (c : Contents) → G.holds reg.old c → op_of log (ticked (known_of self.old) (plain_of self.old) log c) ≡ None → (disk_of self.new ≡ disk_of self.old) × (layout_of self.new ≡ layout_of self.old) × (slots_of self.new ≡ slots_of self.old) }
        ensures silent_works { (c : Contents) → G.holds reg.old c → op_of log (ticked (known_of self.old) (plain_of self.old) log c) ≡ None → result ≢ Err NodeFault.Disk }
        ensures honest { IsHonest (D.seen (disk_of self.old)) → IsHonest (D.seen (disk_of self.new)) }

        // A look changes nothing, and where the register tells what it will do, it isn't refused.
        ensures tells { (c : Contents) → G.tells reg.old c → G.tells reg.new c }
        ensures foretold { (c : Contents) (fault : Refusal) → G.tells reg.old c → result ≢ Err (NodeFault.Register fault) }

        // A refusal of the register is one of its look, for a log that the node knows.
        ensures register { (fault : Refusal) → IsErrOf result (NodeFault.Register fault) → IsOfLook fault × (is_in log (known_of self.old).logs ≡ true) }
        ensures register_failed { IsErrOf result (NodeFault.Register faults.Failed) → Rose (G.faults reg.old) (G.faults reg.new) }
        ensures register_damaged { (place : ℕ) → IsErrOf result (NodeFault.Register (faults.Damaged place)) → G.told reg.old → G.damaged reg.old place }
        ensures told { G.told reg.old → G.told reg.new }
        ensures settled { G.told reg.old → is_in log (known_of self.old).logs ≡ true → OnOk result ((c : Contents) → G.may_hold reg.new c → G.holds reg.new c) }
        ensures same { (c : Contents) → G.may_hold reg.new c → G.may_hold reg.old c }

        ensures full { (c : Contents) → Holds D.seen D.may_leave self.old → G.holds reg.old c → IsErrOf result NodeFault.Full → IsPast (layout_of self.old) (op_of log (ticked (known_of self.old) (plain_of self.old) log c)) }
        ensures too_long { (c : Contents) → G.holds reg.old c → must_load self.old ≡ false → IsPast (layout_of self.old) (op_of log (ticked (known_of self.old) (plain_of self.old) log c))
            → IsErrOf result NodeFault.Full ⊎ IsErrOf result NodeFault.NoMemory ⊎ ((fault : Refusal) × IsErrOf result (NodeFault.Register fault)) }

        // At `Ok`, and where it got as far as the disk, or the journal's limit, the op is one that a journal's body can carry.
        ensures change { (c : Contents) → G.holds reg.old c → (is_ok result ≡ true) ⊎ IsErrOf result NodeFault.Disk ⊎ IsErrOf result NodeFault.Full
            → AreChanges (op_of log (ticked (known_of self.old) (plain_of self.old) log c)) }

        ensures needs_load { IsErrOf result NodeFault.NeedsLoad ↔ (must_load self.old ≡ true) }
        ensures needs_no_look { must_load self.old ≡ true → reg.new ≡ reg.old }
        ensures loads { (must_load self.new ≡ true) ↔ ((must_load self.old ≡ true) ⊎ IsErrOf result NodeFault.Disk) }
        ensures damaged { (place : ℕ) → result ≢ Err (NodeFault.Damaged place) }
        ensures itself { (D.identity (disk_of self.new) ≡ D.identity (disk_of self.old)) × (G.identity reg.new ≡ G.identity reg.old) }
        ensures counts { (D.faults (disk_of self.old) ≤ D.faults (disk_of self.new)) × (G.faults reg.old ≤ G.faults reg.new) }
        ensures steady { IsErrOf result NodeFault.Disk ⊎ (D.faults (disk_of self.new) ≡ D.faults (disk_of self.old)) }
        ensures register_steady { IsErrOf result (NodeFault.Register faults.Failed) ⊎ (G.faults reg.new ≡ G.faults reg.old) }
        ensures failed { IsErrOf result NodeFault.Disk → Rose (D.faults (disk_of self.old)) (D.faults (disk_of self.new)) }

        // Another refusal than `Disk` changes nothing.
        ensures stays { OnErr result (IsErrOf result NodeFault.Disk ⊎ Unchanged D.seen D.may_leave D.moment D.left_since (disk_of self.old) (disk_of self.new)) }
        ensures keeps { OnErr result (IsErrOf result NodeFault.Disk ⊎ ((D.plain (disk_of self.new) ≡ D.plain (disk_of self.old)) × (layout_of self.new ≡ layout_of self.old))) }
        ensures holds { Holds D.seen D.may_leave self.old
            → OnErr result (IsErrOf result NodeFault.Disk ⊎ Holds D.seen D.may_leave self.new) }
    {
        if self.store.needs_load() {
            return Err(NodeFault::NeedsLoad);
        }
        if !self.known.has_log(log) {
            return Ok(Ticked::Nothing);
        }
        let step = look(
            alloc,
            self.id,
            log,
            self.known.nodes(),
            self.store.index(),
            reg,
        )?;
        keep(alloc, &mut self.store, step.op)?;
        Ok(step.ticked)
    }

    /// Takes another node's offset in each epoch of a log that is closed in the register, has the other node and lacks this
    /// one, up to the epoch that this node was lost for; and says how many these are. It asks that of the register where
    /// the configuration has the log and the other node, which isn't this one, and what this one lost of the log is there
    /// again; else they are none, and nothing is asked. The node itself stays as it is.
    ///
    /// It refuses with `Register` as the register's `swap` does: with `SwapLimit` only where the log's count of swaps is
    /// 2^32-1, with `Full` only where the register's journal has no room, with `Damaged` only where its bytes are no
    /// journal of its changes, and with `Failed` only where its count of faults rose; with `NeedsLoad` exactly where an
    /// earlier call answered `Disk`; and with `NoMemory`.
    pub fn replace<G: Register>(
        &self,
        alloc: Global,
        log: LogId,
        other: NodeId,
        reg: &mut G,
    ) -> Result<u32, NodeFault>
        ensures count { (c : Contents) → G.holds reg.old c → IfOk result (λ count. (counted count ≡ replaced (id_of self.now) (known_of self.now) (plain_of self.now) log other c)
            × G.holds reg.new (after_replace (id_of self.now) (known_of self.now) (plain_of self.now) log other c)) }

        // Where the register tells what each call will do, the answer is just this.
        ensures exact { (c : Contents) → must_load self.now ≡ false → G.tells reg.old c → (IsErrOf result NodeFault.NoMemory × G.tells reg.new c)
            ⊎ ((result ≡ passed_on (replaced (id_of self.now) (known_of self.now) (plain_of self.now) log other c)) × G.tells reg.new (after_replace (id_of self.now) (known_of self.now) (plain_of self.now) log other c)) }

        // Where the node may not take the other one's place, nothing is asked.
        ensures idle { must_load self.now ≡ false → can_replace (id_of self.now) (known_of self.now) (plain_of self.now) log other ≡ false → (result ≡ Ok 0) × (reg.new ≡ reg.old) }

        ensures done_or_not { G.told reg.old → ChangedOrNot (G.may_hold reg.old) (G.may_hold reg.new) (after_replace (id_of self.now) (known_of self.now) (plain_of self.now) log other) }
        ensures told { G.told reg.old → G.told reg.new }
        ensures settled { G.told reg.old → can_replace (id_of self.now) (known_of self.now) (plain_of self.now) log other ≡ true → OnOk result ((c : Contents) → G.may_hold reg.new c → G.holds reg.new c) }

        // What was held is held with the swap or without it, but where the register failed.
        ensures held { (c : Contents) → G.holds reg.old c
            → IsErrOf result (NodeFault.Register faults.Failed) ⊎ G.holds reg.new c ⊎ G.holds reg.new (after_replace (id_of self.now) (known_of self.now) (plain_of self.now) log other c) }

        // A refusal of the register is one of its swap.
        ensures register { (c : Contents) (fault : Refusal) → G.holds reg.old c → IsErrOf result (NodeFault.Register fault)
            → IsFree (not_swapped fault) ⊎ (not_swapped fault ≡ replaced (id_of self.now) (known_of self.now) (plain_of self.now) log other c) }
        ensures register_whole { (fault : Refusal) → IsErrOf result (NodeFault.Register fault) → G.told reg.old → IsFree (not_swapped fault) ⊎ ((c : Contents) × G.holds reg.old c) }
        ensures whole { G.told reg.old → can_replace (id_of self.now) (known_of self.now) (plain_of self.now) log other ≡ true → OnOk result ((c : Contents) × G.holds reg.old c) }
        ensures register_keeps { (fault : Refusal) → IsErrOf result (NodeFault.Register fault) → (fault ≡ faults.Failed) ⊎ Keeps (G.holds reg.old) (G.holds reg.new) (G.may_hold reg.old) (G.may_hold reg.new) }

        // The log's count of swaps is the greatest; the register's journal has no room for the swap.
        ensures swaps { IsErrOf result (NodeFault.Register faults.SwapLimit) → G.told reg.old → (c : Contents) × G.holds reg.old c × (2 ^ 32 - 1 ≤ (epochs_of c log).swaps) }
        ensures register_full { IsErrOf result (NodeFault.Register faults.Full) → G.told reg.old → (c : Contents) × G.holds reg.old c × (is_full c swap_length ≡ true) }
        ensures logs { result ≢ Err (NodeFault.Register faults.LogLimit) }
        ensures behind { (lce : ℕ) (next : Option Fixed) → result ≢ Err (NodeFault.Register (faults.Behind lce next)) }
        ensures overtaken { (kept : ℕ) → result ≢ Err (NodeFault.Register (faults.Overtaken kept)) }
        ensures epochs { result ≢ Err (NodeFault.Register faults.EpochLimit) }
        ensures generations { result ≢ Err (NodeFault.Register faults.GenLimit) }
        ensures register_failed { IsErrOf result (NodeFault.Register faults.Failed) → Rose (G.faults reg.old) (G.faults reg.new) }
        ensures register_damaged { (place : ℕ) → IsErrOf result (NodeFault.Register (faults.Damaged place)) → G.told reg.old → G.damaged reg.old place }
        ensures register_steady { IsErrOf result (NodeFault.Register faults.Failed) ⊎ (G.faults reg.new ≡ G.faults reg.old) }
        ensures memory { result ≢ Err (NodeFault.Register faults.NoMemory) }
        ensures disk { result ≢ Err NodeFault.Disk }
        ensures full { result ≢ Err NodeFault.Full }
        ensures damaged { (place : ℕ) → result ≢ Err (NodeFault.Damaged place) }
        ensures needs_load { IsErrOf result NodeFault.NeedsLoad ↔ (must_load self.now ≡ true) }
        ensures needs_no_swap { must_load self.now ≡ true → reg.new ≡ reg.old }
        ensures itself { G.identity reg.new ≡ G.identity reg.old }
        ensures counts { G.faults reg.old ≤ G.faults reg.new }
    {
        if self.store.needs_load() {
            return Err(NodeFault::NeedsLoad);
        }
        if !can_replace(self.id, &self.known, &self.store, log, other) {
            return Ok(0);
        }
        let upto = lost_to(&self.store, log);
        let count = reg.swap(alloc, log, upto, other, self.id)?;
        Ok(count)
    }
}
