// A register on a disk, which fails where it is told to.
ghost use Rattle.std.specs.Prelude.{◌≡◌};

use crate::{DiskRegister, Drawn, Grant, Register, RegisterFault, View};
use ld_disk::Disk;
use ld_ids::{LogId, NodeId, Spec};
use ld_msg::Summary;
use std::alloc::Global;

/// The change of this count from now on fails, with the change made or not.
#[derive(Clone, Copy)]
struct Armed {
    left: u64,
    done: bool,
}

/// A register on a disk, of which one call that would make a change can be told to fail. A call that makes no change,
/// because it is refused or because a swap finds no epoch, doesn't count.
///
/// `Failed` comes only where the armed fault falls, or where the disk's count of failed calls rose.
#[derive(Drop)]
pub struct FaultyRegister<D: Disk> {
    register: DiskRegister<D>,
    armed: Option<Armed>,
    faults: u64,
}

impl<D: Disk> FaultyRegister<D> {
    ghost use Rattle.std.specs.Prelude.{◌≢◌, ◌⊎◌, ◌≤◌, ◌+◌, ◌-◌, ◌^◌, ℕ, List, Option, true, false, not, None, Some, Err, min, if◌then◌else◌, IfOk, IfErr, IfSome, OnOk, OnErr, IsErrOf};
    ghost use Rattle.ld_disk.specs.Images.{IsHonest};
    ghost use Rattle.ld_disk.specs.Plain.{Plain, new_disk};
    ghost use Rattle.ld_ids.specs.declared.set.Spec.{Spec as Fixed};
    ghost use Rattle.ld_msg.specs.Bounds.{IsSummary};
    ghost use Rattle.ld_msg.specs.Register.{Register as Contents, empty_register, falls, armed_after, is_made};
    ghost use Rattle.ld_op.specs.Bounds.{IsOp};
    ghost use Rattle.ld_op.specs.declared.op.Op.TheVariants.{Format};
    ghost use Rattle.ld_register.specs.Bounds.{IsSpec, IsSpecFor};
    ghost use Rattle.ld_register.specs.Calls.{activated, after_activate, closed, after_close, drawn, after_draw, swapped, after_swap, IsGrant, OneOf, unarmed};
    ghost use Rattle.ld_register.specs.Stands.{StandsFor};
    ghost use Rattle.ld_register.specs.Held.{IsQuiet, Holds, Tells, LeavesOneOf, Meets};
    ghost use Rattle.ld_register.specs.Arming.{kept_in, disk_in, armed_of, own_faults, Foresees};

    /// The register on a disk, with no fault armed. Its first call loads it. On a new disk in memory it holds nothing,
    /// and on a disk whose bytes are a journal of changes what they lead to.
    pub fn new(alloc: Global, disk: D) -> FaultyRegister<D>
        ensures disk { disk_in result ≡ disk }
        ensures armed { armed_of result ≡ None }
        ensures faults { own_faults result ≡ 0 }
        ensures told { IsHonest (D.seen disk) → Tells (kept_in result) }
        ensures holds { (c : Contents) (bytes : List ℕ) → D.seen disk ≡ Some bytes → StandsFor bytes c → Holds (kept_in result) c }
        ensures leaves { (cs : List Contents) → ((bytes : List ℕ) → D.may_leave disk bytes → OneOf (StandsFor bytes) cs) → LeavesOneOf (kept_in result) cs }
        ensures tells { (c : Contents) (p : Plain) → D.plain disk ≡ Some p → IsQuiet p → StandsFor p.state.bytes c → Foresees result c }
        ensures empty { D.plain disk ≡ Some new_disk → Foresees result empty_register }
    {
        FaultyRegister {
            register: DiskRegister::new(alloc, disk),
            armed: None,
            faults: 0,
        }
    }

    /// The call of this count from now on that would make a change fails, with its change made where `done` says so.
    /// This replaces what was armed before. A count of 1 is the next such call.
    pub fn arm(&mut self, left: u64, done: bool)
        requires { 1 ≤ left }
        ensures tells { (c : Contents) → Foresees self.old c → Foresees self.new (record c { armed = Some (record { left = left; done = done }) }) }
        ensures armed { armed_of self.new ≡ Some (record { left = left; done = done }) }
        ensures register { kept_in self.new ≡ kept_in self.old }
        ensures faults { own_faults self.new ≡ own_faults self.old }
    {
        self.armed = Some(Armed { left, done });
    }

    /// Gives the disk back, as the last call left it. Its bytes are a journal of changes that lead to what was held.
    pub fn into_disk(self) -> D
        ensures disk { result ≡ disk_in self }
        ensures holds { (c : Contents) → Holds (kept_in self) c → (bytes : List ℕ) × (D.seen result ≡ Some bytes) × StandsFor bytes c }
        ensures tells { (c : Contents) (p : Plain) → Foresees self c → D.plain result ≡ Some p → StandsFor p.state.bytes (unarmed c) }
    {
        self.register.into_disk()
    }

    /// Whether the next change fails and isn't made.
    fn is_prevented(&self) -> bool
        ensures { result ≡ not (is_made (armed_of self.now)) }
    {
        match self.armed {
            Some(armed) => armed.left <= 1 && !armed.done,
            None => false,
        }
    }

    /// Counts a change, and fails where the armed fault falls.
    fn count_down(&mut self) -> Result<(), RegisterFault>
        ensures register { kept_in self.new ≡ kept_in self.old }
        ensures armed { armed_of self.new ≡ armed_after (armed_of self.old) }
        ensures passes { OnOk result ((falls (armed_of self.old) ≡ false) × (own_faults self.new ≡ own_faults self.old)) }
        ensures falls { IfErr result (λ fault. (fault ≡ RegisterFault.Failed) × (falls (armed_of self.old) ≡ true)
            × (own_faults self.new ≡ min (own_faults self.old + 1) (2 ^ 64 - 1))) }
    {
        let Some(armed) = self.armed else {
            return Ok(());
        };
        if armed.left <= 1 {
            self.armed = None;
            self.faults = self.faults.saturating_add(1);
            return Err(RegisterFault::Failed);
        }
        let left = armed.left - 1;
        let done = armed.done;
        self.armed = Some(Armed { left, done });
        Ok(())
    }

    /// Makes an activation, or only checks it where the armed fault prevents it.
    fn attempt_activate(&mut self, alloc: Global, spec: &Spec) -> Result<Grant, RegisterFault>
        requires { IsSpec spec.now }
        ensures armed { armed_of self.new ≡ armed_of self.old }
        ensures faults { own_faults self.new ≡ own_faults self.old }
        ensures granted { OnOk result (Meets (kept_in self.old) (kept_in self.new) result (λ c. activated c spec.now) (λ c. if is_made (armed_of self.old) then after_activate c spec.now else c)) }
        ensures refused { OnErr result (Meets (kept_in self.old) (kept_in self.new) result (λ c. activated c spec.now) (λ c. after_activate c spec.now)) }
        ensures steady { IsErrOf result RegisterFault.Failed ⊎ (D.faults (disk_in self.new) ≡ D.faults (disk_in self.old)) }
        ensures itself { D.identity (disk_in self.new) ≡ D.identity (disk_in self.old) }
        ensures bounds { IfOk result (IsGrant spec.now.log) }
        ensures behind { (lce : ℕ) (next : Option Fixed) → result ≢ Err (RegisterFault.Behind lce next) }
        ensures overtaken { (kept : ℕ) → result ≢ Err (RegisterFault.Overtaken kept) }
        ensures generations { result ≢ Err RegisterFault.GenLimit }
        ensures swaps { result ≢ Err RegisterFault.SwapLimit }
    {
        if self.is_prevented() {
            return self.register.check_activate(alloc, spec);
        }
        self.register.activate(alloc, spec)
    }

    /// Makes a close, or only checks it where the armed fault prevents it.
    fn attempt_close(
        &mut self,
        alloc: Global,
        log: LogId,
        epoch: u32,
        summary: &Summary,
        short: bool,
    ) -> Result<Option<Spec>, RegisterFault>
        requires { IsSummary epoch summary.now }
        ensures armed { armed_of self.new ≡ armed_of self.old }
        ensures faults { own_faults self.new ≡ own_faults self.old }
        ensures granted { OnOk result (Meets (kept_in self.old) (kept_in self.new) result (λ c. closed c log epoch summary.now short) (λ c. if is_made (armed_of self.old) then after_close c log epoch summary.now short else c)) }
        ensures refused { OnErr result (Meets (kept_in self.old) (kept_in self.new) result (λ c. closed c log epoch summary.now short) (λ c. after_close c log epoch summary.now short)) }
        ensures steady { IsErrOf result RegisterFault.Failed ⊎ (D.faults (disk_in self.new) ≡ D.faults (disk_in self.old)) }
        ensures itself { D.identity (disk_in self.new) ≡ D.identity (disk_in self.old) }
        ensures next { IfOk result (λ next. IfSome next (IsSpecFor log)) }
        ensures bounds { (lce : ℕ) (next : Option Fixed) → IsErrOf result (RegisterFault.Behind lce next) → (lce ≤ 2 ^ 32 - 2) × IfSome next (IsSpecFor log) }
        ensures overtaken { (kept : ℕ) → IsErrOf result (RegisterFault.Overtaken kept) → (short ≡ true) × (kept ≤ 2 ^ 32 - 2) × (kept ≢ summary.now.ballot) }
        ensures epochs { result ≢ Err RegisterFault.EpochLimit }
        ensures generations { result ≢ Err RegisterFault.GenLimit }
        ensures swaps { result ≢ Err RegisterFault.SwapLimit }
    {
        if self.is_prevented() {
            return self.register.check_close(alloc, log, epoch, summary, short);
        }
        self.register.close(alloc, log, epoch, summary, short)
    }

    /// Makes a draw, or only checks it where the armed fault prevents it.
    fn attempt_draw(&mut self, alloc: Global, node: NodeId) -> Result<Drawn, RegisterFault>
        ensures armed { armed_of self.new ≡ armed_of self.old }
        ensures faults { own_faults self.new ≡ own_faults self.old }
        ensures granted { OnOk result (Meets (kept_in self.old) (kept_in self.new) result (λ c. drawn c node) (λ c. if is_made (armed_of self.old) then after_draw c node else c)) }
        ensures refused { OnErr result (Meets (kept_in self.old) (kept_in self.new) result (λ c. drawn c node) (λ c. after_draw c node)) }
        ensures steady { IsErrOf result RegisterFault.Failed ⊎ (D.faults (disk_in self.new) ≡ D.faults (disk_in self.old)) }
        ensures itself { D.identity (disk_in self.new) ≡ D.identity (disk_in self.old) }
        ensures bounds { IfOk result (λ handed. IsOp (Format handed.gen_ handed.epochs)) }
        ensures logs { result ≢ Err RegisterFault.LogLimit }
        ensures behind { (lce : ℕ) (next : Option Fixed) → result ≢ Err (RegisterFault.Behind lce next) }
        ensures overtaken { (kept : ℕ) → result ≢ Err (RegisterFault.Overtaken kept) }
        ensures epochs { result ≢ Err RegisterFault.EpochLimit }
        ensures swaps { result ≢ Err RegisterFault.SwapLimit }
    {
        if self.is_prevented() {
            return self.register.check_draw(alloc, node);
        }
        self.register.draw(alloc, node)
    }

    /// Makes a swap, or only checks it where the armed fault prevents it.
    fn attempt_swap(
        &mut self,
        alloc: Global,
        log: LogId,
        upto: u32,
        member: NodeId,
        spare: NodeId,
    ) -> Result<u32, RegisterFault>
        ensures armed { armed_of self.new ≡ armed_of self.old }
        ensures faults { own_faults self.new ≡ own_faults self.old }
        ensures granted { IfOk result (λ count. 1 ≤ count → Meets (kept_in self.old) (kept_in self.new) result (λ c. swapped c log upto member spare) (λ c. if is_made (armed_of self.old) then after_swap c log upto member spare else c)) }
        ensures none { IfOk result (λ count. count ≡ 0 → Meets (kept_in self.old) (kept_in self.new) result (λ c. swapped c log upto member spare) (λ c. after_swap c log upto member spare)) }
        ensures refused { OnErr result (Meets (kept_in self.old) (kept_in self.new) result (λ c. swapped c log upto member spare) (λ c. after_swap c log upto member spare)) }
        ensures steady { IsErrOf result RegisterFault.Failed ⊎ (D.faults (disk_in self.new) ≡ D.faults (disk_in self.old)) }
        ensures itself { D.identity (disk_in self.new) ≡ D.identity (disk_in self.old) }
        ensures logs { result ≢ Err RegisterFault.LogLimit }
        ensures behind { (lce : ℕ) (next : Option Fixed) → result ≢ Err (RegisterFault.Behind lce next) }
        ensures overtaken { (kept : ℕ) → result ≢ Err (RegisterFault.Overtaken kept) }
        ensures epochs { result ≢ Err RegisterFault.EpochLimit }
        ensures generations { result ≢ Err RegisterFault.GenLimit }
    {
        if self.is_prevented() {
            return self.register.check_swap(alloc, log, upto, member, spare);
        }
        self.register.swap(alloc, log, upto, member, spare)
    }
}

impl<D: Disk> Register for FaultyRegister<D> {
    ghost use Rattle.std.specs.Prelude.{◌≢◌, ◌⊎◌, ◌≤◌, ◌-◌, ◌^◌, ℕ, true, List, Option, IfOk, IfSome, IsErrOf, OnOk, OnErr, Ok, Err};
    ghost use Rattle.ld_ids.specs.declared.set.Spec.{Spec as Fixed};
    ghost use Rattle.ld_msg.specs.Bounds.{IsSummary};
    ghost use Rattle.ld_msg.specs.Register.{Register as Contents};
    ghost use Rattle.ld_op.specs.Bounds.{IsOp};
    ghost use Rattle.ld_op.specs.declared.op.Op.TheVariants.{Format};
    ghost use Rattle.ld_register.specs.Bounds.{IsSpec, IsSpecFor};
    ghost use Rattle.ld_register.specs.Calls.{activated, after_activate, closed, after_close, drawn, after_draw, swapped, after_swap, looked, IsGrant, IsView, IsFree, Keeps};
    ghost use Rattle.ld_register.specs.Held.{Holds, MayHold, LeavesOneOf, Tells, IsBroken, holds_is_told};
    ghost use Rattle.ld_register.specs.Arming.{kept_in, disk_in, faults_in, Foresees, MeetsArmed, StaysArmed, HasCounted, HasFallen};

    ghost told = { λ r. Tells (kept_in r) };

    ghost holds = { λ r c. Holds (kept_in r) c };

    ghost may_hold = { λ r c. MayHold (kept_in r) c };

    ghost leaves = { λ r cs. LeavesOneOf (kept_in r) cs };

    ghost tells = { λ r c. Foresees r c };

    ghost damaged = { λ r place. IsBroken (kept_in r) place };

    ghost faults = { λ r. faults_in r };

    ghost identity = { λ r. D.identity (disk_in r) };

    ghost holds_one = { λ r c d h k. h.one d k.reads };

    ghost held_is_told = { λ r c h. holds_is_told (kept_in r) c h };

    ghost held_may_be = { λ r c h. (h.reads.bytes, D.reads_an_image (disk_in r) h.reads.bytes h.reads.seen_is, h.reads.stands) };

    ghost left_is_held = { λ r cs t l. l.held t };

    ghost left_alone = { λ r cs c l m. l.alone c m };

    ghost tells_what_is_held = { λ r c t. t.foretells.holds };

    ghost held_is_whole = { λ r c place h b. h.whole place b };

    fn activate(&mut self, alloc: Global, spec: &Spec) -> Result<Grant, RegisterFault>
        requires { IsSpec spec.now }
        ensures meets { MeetsArmed self.old self.new result (λ c. activated c spec.now) (λ c. after_activate c spec.now) }
        ensures steady { IsErrOf result RegisterFault.Failed ⊎ (faults_in self.new ≡ faults_in self.old) }
        ensures itself { D.identity (disk_in self.new) ≡ D.identity (disk_in self.old) }
        ensures passes { OnOk result (HasCounted self.old self.new) }
        ensures fell { OnErr result (StaysArmed self.old self.new ⊎ HasFallen self.old self.new result (λ c. after_activate c spec.now)) }
        ensures bounds { IfOk result (IsGrant spec.now.log) }
        ensures behind { (lce : ℕ) (next : Option Fixed) → result ≢ Err (RegisterFault.Behind lce next) }
        ensures overtaken { (kept : ℕ) → result ≢ Err (RegisterFault.Overtaken kept) }
        ensures generations { result ≢ Err RegisterFault.GenLimit }
        ensures swaps { result ≢ Err RegisterFault.SwapLimit }
    {
        let grant = self.attempt_activate(alloc, spec)?;
        self.count_down()?;
        Ok(grant)
    }

    fn close(
        &mut self,
        alloc: Global,
        log: LogId,
        epoch: u32,
        summary: &Summary,
        short: bool,
    ) -> Result<Option<Spec>, RegisterFault>
        requires { IsSummary epoch summary.now }
        ensures meets { MeetsArmed self.old self.new result (λ c. closed c log epoch summary.now short) (λ c. after_close c log epoch summary.now short) }
        ensures steady { IsErrOf result RegisterFault.Failed ⊎ (faults_in self.new ≡ faults_in self.old) }
        ensures itself { D.identity (disk_in self.new) ≡ D.identity (disk_in self.old) }
        ensures passes { OnOk result (HasCounted self.old self.new) }
        ensures fell { OnErr result (StaysArmed self.old self.new ⊎ HasFallen self.old self.new result (λ c. after_close c log epoch summary.now short)) }
        ensures next { IfOk result (λ next. IfSome next (IsSpecFor log)) }
        ensures bounds { (lce : ℕ) (next : Option Fixed) → IsErrOf result (RegisterFault.Behind lce next) → (lce ≤ 2 ^ 32 - 2) × IfSome next (IsSpecFor log) }
        ensures overtaken { (kept : ℕ) → IsErrOf result (RegisterFault.Overtaken kept) → (short ≡ true) × (kept ≤ 2 ^ 32 - 2) × (kept ≢ summary.now.ballot) }
        ensures epochs { result ≢ Err RegisterFault.EpochLimit }
        ensures generations { result ≢ Err RegisterFault.GenLimit }
        ensures swaps { result ≢ Err RegisterFault.SwapLimit }
    {
        let next = self.attempt_close(alloc, log, epoch, summary, short)?;
        self.count_down()?;
        Ok(next)
    }

    fn draw(&mut self, alloc: Global, node: NodeId) -> Result<Drawn, RegisterFault>
        ensures meets { MeetsArmed self.old self.new result (λ c. drawn c node) (λ c. after_draw c node) }
        ensures steady { IsErrOf result RegisterFault.Failed ⊎ (faults_in self.new ≡ faults_in self.old) }
        ensures itself { D.identity (disk_in self.new) ≡ D.identity (disk_in self.old) }
        ensures passes { OnOk result (HasCounted self.old self.new) }
        ensures fell { OnErr result (StaysArmed self.old self.new ⊎ HasFallen self.old self.new result (λ c. after_draw c node)) }
        ensures bounds { IfOk result (λ handed. IsOp (Format handed.gen_ handed.epochs)) }
        ensures logs { result ≢ Err RegisterFault.LogLimit }
        ensures behind { (lce : ℕ) (next : Option Fixed) → result ≢ Err (RegisterFault.Behind lce next) }
        ensures overtaken { (kept : ℕ) → result ≢ Err (RegisterFault.Overtaken kept) }
        ensures epochs { result ≢ Err RegisterFault.EpochLimit }
        ensures swaps { result ≢ Err RegisterFault.SwapLimit }
    {
        let handed = self.attempt_draw(alloc, node)?;
        self.count_down()?;
        Ok(handed)
    }

    fn swap(
        &mut self,
        alloc: Global,
        log: LogId,
        upto: u32,
        member: NodeId,
        spare: NodeId,
    ) -> Result<u32, RegisterFault>
        ensures meets { MeetsArmed self.old self.new result (λ c. swapped c log upto member spare) (λ c. after_swap c log upto member spare) }
        ensures steady { IsErrOf result RegisterFault.Failed ⊎ (faults_in self.new ≡ faults_in self.old) }
        ensures itself { D.identity (disk_in self.new) ≡ D.identity (disk_in self.old) }
        ensures passes { IfOk result (λ count. 1 ≤ count → HasCounted self.old self.new) }
        ensures idles { IfOk result (λ count. count ≡ 0 → StaysArmed self.old self.new) }
        ensures fell { OnErr result (StaysArmed self.old self.new ⊎ HasFallen self.old self.new result (λ c. after_swap c log upto member spare)) }
        ensures logs { result ≢ Err RegisterFault.LogLimit }
        ensures behind { (lce : ℕ) (next : Option Fixed) → result ≢ Err (RegisterFault.Behind lce next) }
        ensures overtaken { (kept : ℕ) → result ≢ Err (RegisterFault.Overtaken kept) }
        ensures epochs { result ≢ Err RegisterFault.EpochLimit }
        ensures generations { result ≢ Err RegisterFault.GenLimit }
    {
        let count = self.attempt_swap(alloc, log, upto, member, spare)?;
        if count == 0 {
            return Ok(0);
        }
        self.count_down()?;
        Ok(count)
    }

    fn look(&mut self, alloc: Global, log: LogId, e: u32) -> Result<View, RegisterFault>
        ensures meets { MeetsArmed self.old self.new result (λ c. Ok (looked c log e)) (λ c. c) }
        ensures steady { IsErrOf result RegisterFault.Failed ⊎ (faults_in self.new ≡ faults_in self.old) }
        ensures itself { D.identity (disk_in self.new) ≡ D.identity (disk_in self.old) }
        ensures armed { StaysArmed self.old self.new }
        ensures same { (c : Contents) → MayHold (kept_in self.new) c → MayHold (kept_in self.old) c }
        ensures survives { (cs : List Contents) → Tells (kept_in self.old) → LeavesOneOf (kept_in self.old) cs → LeavesOneOf (kept_in self.new) cs }
        ensures keeps { IsErrOf result RegisterFault.Failed ⊎ Keeps (Holds (kept_in self.old)) (Holds (kept_in self.new)) (MayHold (kept_in self.old)) (MayHold (kept_in self.new)) }
        ensures exact { (c : Contents) → Foresees self.old c
            → (IsErrOf result RegisterFault.NoMemory ⊎ (result ≡ Ok (looked c log e))) × Foresees self.new c }
        ensures view { IfOk result (IsView log e) }
        ensures free { OnErr result (IsFree result) }
    {
        self.register.look(alloc, log, e)
    }
}
