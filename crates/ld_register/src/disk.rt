// A register on a disk.
ghost use Rattle.std.specs.Prelude.{◌≡◌, true, false};
ghost use Rattle.ld_journal.specs.Open.{has_ended, must_load};
ghost use Rattle.ld_register.specs.Faults.{is_disk};

use crate::change::Change;
use crate::contents::Contents;
use crate::replay::replay;
use crate::{Drawn, Grant, Register, RegisterFault, View};
use ld_disk::{Disk, Fault};
use ld_ids::{LogId, NodeId, Spec};
use ld_journal::{Journal, JournalFault};
use ld_msg::Summary;
use std::alloc::Global;

/// The greatest length of a register's journal, in bytes.
const JOURNAL_LIMIT: u64 = 1 << 40;

/// A register and the disk that its changes are kept on. It is loaded by the first call, and again by the next call
/// after one that answered `Failed` or `Damaged`. While it is loaded, a look answers, and needs neither disk nor
/// memory. `Failed` comes only where the disk's count of failed calls rose, and any other answer leaves that count.
///
/// A load is one sync. A change is one append to the journal, of two writes with a sync behind each: it answers `Ok`
/// where all four succeed, and `Failed` after the first that doesn't. A call that is refused otherwise writes nothing
/// but the load, and leaves a loaded register loaded; and so does a swap that changes no epoch.
#[derive(Drop)]
pub struct DiskRegister<D: Disk> {
    journal: Journal<D>,
    pub(crate) contents: Contents,
    loaded: bool,
    ghost ended: { loaded ≡ true → has_ended journal ≡ true },
    ghost works: { loaded ≡ true → must_load journal ≡ false },
}

impl<D: Disk> DiskRegister<D> {
    ghost use Rattle.std.specs.Prelude.{◌⊎◌, ◌≤◌, ◌<◌, ◌+◌, ◌^◌, ℕ, List, [], Some, IsErrOf, OnOk, OnErr, IsOk};
    ghost use Rattle.std.specs.Option.{option_map};
    ghost use Rattle.ld_disk.specs.Images.{IsHonest};
    ghost use Rattle.ld_disk.specs.Moments.{Unchanged};
    ghost use Rattle.ld_disk.specs.Plain.{Plain, armed_with, new_disk, reads_fine};
    ghost use Rattle.ld_journal.specs.Format.{append_calls};
    ghost use Rattle.ld_journal.specs.Open.{place_of};
    ghost use Rattle.ld_msg.specs.Register.{Register as Held, empty_register};
    ghost use Rattle.ld_register.specs.Calls.{OneOf};
    ghost use Rattle.ld_register.specs.Changes.{IsChange, is_next, change_bytes};
    ghost use Rattle.ld_register.specs.Kept.{register_of};
    ghost use Rattle.ld_register.specs.Stands.{StandsFor};
    ghost use Rattle.ld_register.specs.Held.{IsQuiet, owned, is_loaded, Holds, Tells, LeavesOneOf, Foretells, Loads, IsReady, IsNotReady, Commits, IsMade, IsRefused};
    ghost use Rattle.ld_register.specs.Writing.{Writes};

    /// The register on a disk. Its first call loads it. On a new disk in memory it holds nothing, and on a disk whose
    /// bytes are a journal of changes what they lead to.
    pub fn new(alloc: Global, disk: D) -> DiskRegister<D>
        ensures disk { owned result ≡ disk }
        ensures loads { is_loaded result ≡ false }
        ensures told { IsHonest (D.seen disk) → Tells result }
        ensures holds { (c : Held) (bytes : List ℕ) → D.seen disk ≡ Some bytes → StandsFor bytes c → Holds result c }
        ensures leaves { (cs : List Held) → ((bytes : List ℕ) → D.may_leave disk bytes → OneOf (StandsFor bytes) cs) → LeavesOneOf result cs }
        ensures tells { (c : Held) (p : Plain) → D.plain disk ≡ Some p → IsQuiet p → StandsFor p.state.bytes c → Foretells result c }
        ensures empty { D.plain disk ≡ Some new_disk → Foretells result empty_register }
    {
        DiskRegister {
            journal: Journal::shut(disk),
            contents: Contents::new(alloc),
            loaded: false,
        }
    }

    /// Gives the disk back, as the last call left it.
    pub fn into_disk(self) -> D
        ensures { result ≡ owned self }
    {
        self.journal.into_disk()
    }

    /// Tells a disk in memory to fail or to crash. Other disks ignore it.
    pub fn arm(&mut self, fault: Fault)
        ensures exact { D.plain (owned self.new) ≡ option_map (armed_with fault) (D.plain (owned self.old)) }
        ensures same { Unchanged D.seen D.may_leave D.moment D.left_since (owned self.old) (owned self.new) }
        ensures itself { D.identity (owned self.new) ≡ D.identity (owned self.old) }
        ensures faults { D.faults (owned self.new) ≡ D.faults (owned self.old) }
        ensures loaded { is_loaded self.new ≡ is_loaded self.old }
        ensures told { Tells self.old → Tells self.new }
        ensures holds { (c : Held) → Holds self.old c → Holds self.new c }
        ensures leaves { (cs : List Held) → LeavesOneOf self.old cs → LeavesOneOf self.new cs }
    {
        self.journal.arm(fault);
    }

    /// Loads it, where it isn't loaded.
    pub(crate) fn ready(&mut self, alloc: Global) -> Result<(), RegisterFault>
        ensures loads { Loads self.old self.new result }
        ensures ready { OnOk result (IsReady self.old self.new) }
        ensures refused { OnErr result (IsNotReady self.old self.new result) }
        ensures steady { IsErrOf result RegisterFault.Failed ⊎ (D.faults (owned self.new) ≡ D.faults (owned self.old)) }
        ensures itself { D.identity (owned self.new) ≡ D.identity (owned self.old) }
        ensures again { is_loaded self.old ≡ true → IsOk result × (self.new ≡ self.old) }
        ensures exact_calls { (p : Plain) → D.plain (owned self.old) ≡ Some p → reads_fine p ≡ true → Writes (is_loaded self.old) [] p result (D.plain (owned self.new)) }
    {
        if self.loaded {
            return Ok(());
        }
        self.contents = Contents::new(alloc);
        self.journal.reload()?;
        replay(alloc, &mut self.journal, &mut self.contents)?;
        self.loaded = true;
        Ok(())
    }

    /// Whether a record with a body of this length would make the journal too long, once it is loaded.
    pub(crate) fn is_full(&self, body: u64) -> bool
        requires { body < 2 ^ 32 }
        ensures full { result ≡ true → 2 ^ 40 < place_of self.now.journal + body + 6 }
        ensures fits { result ≡ false → place_of self.now.journal + body + 6 ≤ 2 ^ 40 }
    {
        let place = self.journal.place();
        place > JOURNAL_LIMIT || body + 6 > JOURNAL_LIMIT - place
    }

    /// Makes a change that is the next one, once it is loaded: it is durable before it is made in memory.
    fn commit(&mut self, alloc: Global, change: &Change) -> Result<(), RegisterFault>
        requires loaded { is_loaded self.old ≡ true }
        requires is { IsChange change.now }
        requires next { is_next (register_of self.old.contents 0) change.now ≡ true }
        ensures commits { Commits self.old self.new change.now result }
        ensures made { OnOk result (IsMade self.old self.new change.now) }
        ensures refused { OnErr result (IsRefused self.old self.new change.now result) }
        ensures steady { IsErrOf result RegisterFault.Failed ⊎ (D.faults (owned self.new) ≡ D.faults (owned self.old)) }
        ensures itself { D.identity (owned self.new) ≡ D.identity (owned self.old) }
        ensures exact_calls { (p : Plain) → D.plain (owned self.old) ≡ Some p → Writes true (append_calls (place_of self.old.journal) (change_bytes change.now)) p result (D.plain (owned self.new)) }
    {
        self.contents.room(alloc, change)?;
        let body = change.to_bytes(alloc)?;
        match self.journal.append(alloc, &body) {
            Ok(()) => {
                self.contents.apply(change);
                Ok(())
            }
            Err(fault) => {
                self.loaded = !is_disk(fault);
                Err(RegisterFault::from(fault))
            }
        }
    }
}

impl<D: Disk> Register for DiskRegister<D> {
    ghost use Rattle.std.specs.Prelude.{◌≢◌, ◌⊎◌, ◌≤◌, ◌-◌, ◌^◌, ℕ, List, [], Option, Some, IfOk, IfSome, IsErrOf, IsOk, OnOk, OnErr, Ok, Err};
    ghost use Rattle.ld_disk.specs.Plain.{Plain, reads_fine};
    ghost use Rattle.ld_ids.specs.declared.set.Spec.{Spec as Fixed};
    ghost use Rattle.ld_msg.specs.Bounds.{IsSummary};
    ghost use Rattle.ld_op.specs.Bounds.{IsOp};
    ghost use Rattle.ld_op.specs.declared.op.Op.TheVariants.{Format};
    ghost use Rattle.ld_register.specs.Bounds.{IsSpec, IsSpecFor};
    ghost use Rattle.ld_register.specs.Calls.{activated, after_activate, closed, after_close, drawn, after_draw, swapped, after_swap, looked, IsGrant, IsView, IsFree, Keeps};
    ghost use Rattle.ld_msg.specs.Register.{Register as Held};
    ghost use Rattle.ld_register.specs.Held.{owned, is_loaded, Holds, MayHold, LeavesOneOf, Tells, Foretells, IsBroken, Meets, holds_is_told, told_is_held};
    ghost use Rattle.ld_register.specs.Writing.{Writes, WritesBy, WritesOne, activation, drawing, swap_calls};

    ghost told = { λ r. Tells r };

    ghost holds = { λ r c. Holds r c };

    ghost may_hold = { λ r c. MayHold r c };

    ghost leaves = { λ r cs. LeavesOneOf r cs };

    ghost tells = { λ r c. Foretells r c };

    ghost damaged = { λ r place. IsBroken r place };

    ghost faults = { λ r. D.faults (owned r) };

    ghost identity = { λ r. D.identity (owned r) };

    ghost holds_one = { λ r c d h k. h.one d k.reads };

    ghost held_is_told = { λ r c h. holds_is_told r c h };

    ghost held_may_be = { λ r c h. (h.reads.bytes, D.reads_an_image (owned r) h.reads.bytes h.reads.seen_is, h.reads.stands) };

    ghost left_is_held = { λ r cs t l. l.held t };

    ghost left_alone = { λ r cs c l m. l.alone c m };

    ghost tells_what_is_held = { λ r c t. told_is_held r c t };

    ghost held_is_whole = { λ r c place h b. h.whole place b };

    fn activate(&mut self, alloc: Global, spec: &Spec) -> Result<Grant, RegisterFault>
        requires { IsSpec spec.now }
        ensures meets { Meets self.old self.new result (λ c. activated c spec.now) (λ c. after_activate c spec.now) }
        ensures steady { IsErrOf result RegisterFault.Failed ⊎ (D.faults (owned self.new) ≡ D.faults (owned self.old)) }
        ensures itself { D.identity (owned self.new) ≡ D.identity (owned self.old) }
        ensures loaded { OnOk result (is_loaded self.new ≡ true) }
        ensures exact_calls { (p : Plain) → D.plain (owned self.old) ≡ Some p → reads_fine p ≡ true → WritesOne self.old self.new (λ c. activation c spec.now) p result }
        ensures stays { is_loaded self.old ≡ true → IsErrOf result RegisterFault.Failed ⊎ (is_loaded self.new ≡ true) }
        ensures bounds { IfOk result (IsGrant spec.now.log) }
        ensures behind { (lce : ℕ) (next : Option Fixed) → result ≢ Err (RegisterFault.Behind lce next) }
        ensures overtaken { (kept : ℕ) → result ≢ Err (RegisterFault.Overtaken kept) }
        ensures generations { result ≢ Err RegisterFault.GenLimit }
        ensures swaps { result ≢ Err RegisterFault.SwapLimit }
    {
        let grant = self.check_activate(alloc, spec)?;
        let epoch = grant.epoch;
        let spec = *spec;
        self.commit(alloc, &Change::Activate { epoch, spec })?;
        Ok(grant)
    }

    fn close(
        &mut self,
        alloc: Global,
        log: LogId,
        epoch: u32,
        summary: &Summary,
        short: bool,
    ) -> Result<Option<Spec>, RegisterFault>
        requires { IsSummary epoch summary.now }
        ensures meets { Meets self.old self.new result (λ c. closed c log epoch summary.now short) (λ c. after_close c log epoch summary.now short) }
        ensures steady { IsErrOf result RegisterFault.Failed ⊎ (D.faults (owned self.new) ≡ D.faults (owned self.old)) }
        ensures itself { D.identity (owned self.new) ≡ D.identity (owned self.old) }
        ensures loaded { OnOk result (is_loaded self.new ≡ true) }
        ensures exact_calls { (p : Plain) → D.plain (owned self.old) ≡ Some p → reads_fine p ≡ true → WritesOne self.old self.new (λ c. Change.Close log epoch summary.now) p result }
        ensures stays { is_loaded self.old ≡ true → IsErrOf result RegisterFault.Failed ⊎ (is_loaded self.new ≡ true) }
        ensures next { IfOk result (λ next. IfSome next (IsSpecFor log)) }
        ensures bounds { (lce : ℕ) (next : Option Fixed) → IsErrOf result (RegisterFault.Behind lce next) → (lce ≤ 2 ^ 32 - 2) × IfSome next (IsSpecFor log) }
        ensures overtaken { (kept : ℕ) → IsErrOf result (RegisterFault.Overtaken kept) → (short ≡ true) × (kept ≤ 2 ^ 32 - 2) × (kept ≢ summary.now.ballot) }
        ensures epochs { result ≢ Err RegisterFault.EpochLimit }
        ensures generations { result ≢ Err RegisterFault.GenLimit }
        ensures swaps { result ≢ Err RegisterFault.SwapLimit }
    {
        let next = self.check_close(alloc, log, epoch, summary, short)?;
        let summary = *summary;
        self.commit(
            alloc,
            &Change::Close {
                log,
                epoch,
                summary,
            },
        )?;
        Ok(next)
    }

    fn draw(&mut self, alloc: Global, node: NodeId) -> Result<Drawn, RegisterFault>
        ensures meets { Meets self.old self.new result (λ c. drawn c node) (λ c. after_draw c node) }
        ensures steady { IsErrOf result RegisterFault.Failed ⊎ (D.faults (owned self.new) ≡ D.faults (owned self.old)) }
        ensures itself { D.identity (owned self.new) ≡ D.identity (owned self.old) }
        ensures loaded { OnOk result (is_loaded self.new ≡ true) }
        ensures exact_calls { (p : Plain) → D.plain (owned self.old) ≡ Some p → reads_fine p ≡ true → WritesOne self.old self.new (λ c. drawing c node) p result }
        ensures stays { is_loaded self.old ≡ true → IsErrOf result RegisterFault.Failed ⊎ (is_loaded self.new ≡ true) }
        ensures bounds { IfOk result (λ drawn. IsOp (Format drawn.gen_ drawn.epochs)) }
        ensures logs { result ≢ Err RegisterFault.LogLimit }
        ensures behind { (lce : ℕ) (next : Option Fixed) → result ≢ Err (RegisterFault.Behind lce next) }
        ensures overtaken { (kept : ℕ) → result ≢ Err (RegisterFault.Overtaken kept) }
        ensures epochs { result ≢ Err RegisterFault.EpochLimit }
        ensures swaps { result ≢ Err RegisterFault.SwapLimit }
    {
        let handed = self.check_draw(alloc, node)?;
        let generation = handed.gen_;
        self.commit(alloc, &Change::Draw { node, generation })?;
        Ok(handed)
    }

    fn swap(
        &mut self,
        alloc: Global,
        log: LogId,
        upto: u32,
        member: NodeId,
        spare: NodeId,
    ) -> Result<u32, RegisterFault>
        ensures meets { Meets self.old self.new result (λ c. swapped c log upto member spare) (λ c. after_swap c log upto member spare) }
        ensures steady { IsErrOf result RegisterFault.Failed ⊎ (D.faults (owned self.new) ≡ D.faults (owned self.old)) }
        ensures itself { D.identity (owned self.new) ≡ D.identity (owned self.old) }
        ensures loaded { OnOk result (is_loaded self.new ≡ true) }
        ensures exact_calls { (p : Plain) → D.plain (owned self.old) ≡ Some p → reads_fine p ≡ true → WritesBy self.old self.new (λ c. swap_calls c log upto member spare) p result }
        ensures stays { is_loaded self.old ≡ true → IsErrOf result RegisterFault.Failed ⊎ (is_loaded self.new ≡ true) }
        ensures logs { result ≢ Err RegisterFault.LogLimit }
        ensures behind { (lce : ℕ) (next : Option Fixed) → result ≢ Err (RegisterFault.Behind lce next) }
        ensures overtaken { (kept : ℕ) → result ≢ Err (RegisterFault.Overtaken kept) }
        ensures epochs { result ≢ Err RegisterFault.EpochLimit }
        ensures generations { result ≢ Err RegisterFault.GenLimit }
    {
        let count = self.check_swap(alloc, log, upto, member, spare)?;
        if count == 0 {
            return Ok(0);
        }
        self.commit(
            alloc,
            &Change::Swap {
                log,
                upto,
                member,
                spare,
            },
        )?;
        Ok(count)
    }

    fn look(&mut self, alloc: Global, log: LogId, e: u32) -> Result<View, RegisterFault>
        ensures meets { Meets self.old self.new result (λ c. Ok (looked c log e)) (λ c. c) }
        ensures steady { IsErrOf result RegisterFault.Failed ⊎ (D.faults (owned self.new) ≡ D.faults (owned self.old)) }
        ensures itself { D.identity (owned self.new) ≡ D.identity (owned self.old) }
        ensures loaded { OnOk result (is_loaded self.new ≡ true) }
        ensures again { is_loaded self.old ≡ true → IsOk result × (self.new ≡ self.old) }
        ensures same { (c : Held) → MayHold self.new c → MayHold self.old c }
        ensures survives { (cs : List Held) → Tells self.old → LeavesOneOf self.old cs → LeavesOneOf self.new cs }
        ensures keeps { IsErrOf result RegisterFault.Failed ⊎ Keeps (Holds self.old) (Holds self.new) (MayHold self.old) (MayHold self.new) }
        ensures exact { (c : Held) → Foretells self.old c
            → (IsErrOf result RegisterFault.NoMemory ⊎ (result ≡ Ok (looked c log e))) × Foretells self.new c }
        ensures exact_calls { (p : Plain) → D.plain (owned self.old) ≡ Some p → reads_fine p ≡ true → Writes (is_loaded self.old) [] p result (D.plain (owned self.new)) }
        ensures view { IfOk result (IsView log e) }
        ensures free { OnErr result (IsFree result) }
    {
        self.ready(alloc)?;
        Ok(View {
            epoch: self.contents.epoch(log),
            lce: self.contents.lce(log),
            swaps: self.contents.swaps(log),
            summary: self.contents.summary(log, e),
            spec: self.contents.spec(log, e),
        })
    }
}

/// Whether a call of the disk failed.
fn is_disk(fault: JournalFault) -> bool
    ensures { result ≡ is_disk fault }
{
    matches!(fault, JournalFault::Disk)
}
