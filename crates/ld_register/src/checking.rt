// What a register on a disk would answer to a change, before it makes it.
ghost use Rattle.std.specs.Prelude.{◌≡◌, ◌≢◌, ◌⊎◌, ◌≤◌, ◌<◌, ◌-◌, ◌^◌, ◌==◌, ◌&&◌, not, true, ℕ, [], Option, Some, Err, IfOk, IfSome, IsErrOf, OnOk, OnErr};
ghost use Rattle.ld_disk.specs.Plain.{Plain, reads_fine};
ghost use Rattle.ld_ids.specs.declared.set.Spec.{Spec as Fixed};
ghost use Rattle.ld_msg.specs.Bounds.{IsSummary};
ghost use Rattle.ld_msg.specs.Register.{Register as Held, epochs_of, lce_of, swappable};
ghost use Rattle.ld_op.specs.Bounds.{IsOp};
ghost use Rattle.ld_op.specs.declared.op.Op.TheVariants.{Format};
ghost use Rattle.ld_register.specs.Bounds.{IsSpec, IsSpecFor};
ghost use Rattle.ld_register.specs.Calls.{activated, after_activate, closed, after_close, drawn, after_draw, swapped, after_swap, next_told, IsGrant};
ghost use Rattle.ld_register.specs.Changes.{changed};
ghost use Rattle.ld_register.specs.Kept.{register_of};
ghost use Rattle.ld_register.specs.Held.{owned, is_loaded, Holds, IsDue, Meets};
ghost use Rattle.ld_register.specs.Writing.{Writes};

use crate::change::{Change, GREATEST_EPOCH};
use crate::{DiskRegister, Drawn, Grant, RegisterFault};
use ld_disk::Disk;
use ld_ids::{LogId, NodeId, Spec};
use ld_msg::Summary;
use std::alloc::Global;

/// The length of the body of an activation's record, in bytes.
const ACTIVATION_LENGTH: u64 = 13;

/// The length of the body of a close's record, in bytes.
const CLOSE_LENGTH: u64 = 30;

/// The length of the body of a draw's record, in bytes.
const DRAW_LENGTH: u64 = 6;

/// The length of the body of a swap's record, in bytes.
const SWAP_LENGTH: u64 = 11;

impl<D: Disk> DiskRegister<D> {
    /// What an activation would hand out, or why it would be refused. It loads the register, and changes nothing.
    pub(crate) fn check_activate(
        &mut self,
        alloc: Global,
        spec: &Spec,
    ) -> Result<Grant, RegisterFault>
        requires { IsSpec spec.now }
        ensures due { IfOk result (λ grant. IsDue self.old self.new (Change.Activate grant.epoch spec.now) grant (λ c. activated c spec.now) (λ c. after_activate c spec.now)) }
        ensures refused { OnErr result (Meets self.old self.new result (λ c. activated c spec.now) (λ c. after_activate c spec.now)) }
        ensures steady { IsErrOf result RegisterFault.Failed ⊎ (D.faults (owned self.new) ≡ D.faults (owned self.old)) }
        ensures itself { D.identity (owned self.new) ≡ D.identity (owned self.old) }
        ensures bounds { IfOk result (IsGrant spec.now.log) }
        ensures behind { (lce : ℕ) (next : Option Fixed) → result ≢ Err (RegisterFault.Behind lce next) }
        ensures overtaken { (kept : ℕ) → result ≢ Err (RegisterFault.Overtaken kept) }
        ensures generations { result ≢ Err RegisterFault.GenLimit }
        ensures swaps { result ≢ Err RegisterFault.SwapLimit }
        ensures exact_calls { (p : Plain) → D.plain (owned self.old) ≡ Some p → reads_fine p ≡ true → Writes (is_loaded self.old) [] p result (D.plain (owned self.new)) }
        ensures stays { is_loaded self.old ≡ true → IsErrOf result RegisterFault.Failed ⊎ (is_loaded self.new ≡ true) }
    {
        self.ready(alloc)?;
        let log = spec.log;
        if self.contents.is_crowded(log) {
            return Err(RegisterFault::LogLimit);
        }
        let before = self.contents.epoch(log);
        let lce = self.contents.lce(log);
        if GREATEST_EPOCH <= before {
            return Err(RegisterFault::EpochLimit);
        }
        if self.is_full(ACTIVATION_LENGTH) {
            return Err(RegisterFault::Full);
        }
        let epoch = before + 1;
        let next = self.next_with(before, lce, spec);
        Ok(Grant { epoch, lce, next })
    }

    /// What is fixed for the epoch behind the last closed one once this is fixed for the epoch behind the greatest one.
    fn next_with(&self, before: u32, lce: u32, spec: &Spec) -> Option<Spec>
        requires spec { IsSpec spec.now }
        requires epoch { (n : ℕ) → before ≡ (epochs_of (register_of self.now.contents n) spec.now.log).epoch }
        requires lce { (n : ℕ) → lce ≡ lce_of (register_of self.now.contents n) spec.now.log }
        requires bound { before < 2 ^ 32 - 2 }
        ensures value { (n m : ℕ) → result ≡ next_told (changed (register_of self.now.contents n) (Change.Activate m spec.now)) spec.now.log }
        ensures sound { IfSome result (IsSpecFor spec.now.log) }
    {
        if before <= lce {
            return Some(*spec);
        }
        self.contents.spec(spec.log, lce + 1)
    }

    /// What a close would tell, or why it would be refused. It loads the register, and changes nothing.
    pub(crate) fn check_close(
        &mut self,
        alloc: Global,
        log: LogId,
        epoch: u32,
        summary: &Summary,
        short: bool,
    ) -> Result<Option<Spec>, RegisterFault>
        requires { IsSummary epoch summary.now }
        ensures due { IfOk result (λ given. IsDue self.old self.new (Change.Close log epoch summary.now) given (λ c. closed c log epoch summary.now short) (λ c. after_close c log epoch summary.now short)) }
        ensures refused { OnErr result (Meets self.old self.new result (λ c. closed c log epoch summary.now short) (λ c. after_close c log epoch summary.now short)) }
        ensures steady { IsErrOf result RegisterFault.Failed ⊎ (D.faults (owned self.new) ≡ D.faults (owned self.old)) }
        ensures itself { D.identity (owned self.new) ≡ D.identity (owned self.old) }
        ensures next { IfOk result (λ next. IfSome next (IsSpecFor log)) }
        ensures bounds { (lce : ℕ) (next : Option Fixed) → IsErrOf result (RegisterFault.Behind lce next) → (lce ≤ 2 ^ 32 - 2) × IfSome next (IsSpecFor log) }
        ensures overtaken { (kept : ℕ) → IsErrOf result (RegisterFault.Overtaken kept) → (short ≡ true) × (kept ≤ 2 ^ 32 - 2) × (kept ≢ summary.now.ballot) }
        ensures epochs { result ≢ Err RegisterFault.EpochLimit }
        ensures generations { result ≢ Err RegisterFault.GenLimit }
        ensures swaps { result ≢ Err RegisterFault.SwapLimit }
        ensures exact_calls { (p : Plain) → D.plain (owned self.old) ≡ Some p → reads_fine p ≡ true → Writes (is_loaded self.old) [] p result (D.plain (owned self.new)) }
        ensures stays { is_loaded self.old ≡ true → IsErrOf result RegisterFault.Failed ⊎ (is_loaded self.new ≡ true) }
    {
        self.ready(alloc)?;
        if self.contents.is_crowded(log) {
            return Err(RegisterFault::LogLimit);
        }
        let lce = self.contents.lce(log);
        if lce + 1 != epoch {
            let next = self.contents.spec(log, lce + 1);
            return Err(RegisterFault::Behind { lce, next });
        }
        let kept = self.contents.epoch(log);
        if is_overtaken(kept, summary.ballot, short) {
            return Err(RegisterFault::Overtaken(kept));
        }
        if self.is_full(CLOSE_LENGTH) {
            return Err(RegisterFault::Full);
        }
        let _ = log.number();
        Ok(self.contents.spec(log, epoch + 1))
    }

    /// What a draw would hand out, or why it would be refused. It loads the register, and changes nothing.
    pub(crate) fn check_draw(&mut self, alloc: Global, node: NodeId) -> Result<Drawn, RegisterFault>
        ensures due { IfOk result (λ handed. IsDue self.old self.new (Change.Draw node handed.gen_) handed (λ c. drawn c node) (λ c. after_draw c node)) }
        ensures refused { OnErr result (Meets self.old self.new result (λ c. drawn c node) (λ c. after_draw c node)) }
        ensures steady { IsErrOf result RegisterFault.Failed ⊎ (D.faults (owned self.new) ≡ D.faults (owned self.old)) }
        ensures itself { D.identity (owned self.new) ≡ D.identity (owned self.old) }
        ensures bounds { IfOk result (λ handed. IsOp (Format handed.gen_ handed.epochs)) }
        ensures logs { result ≢ Err RegisterFault.LogLimit }
        ensures behind { (lce : ℕ) (next : Option Fixed) → result ≢ Err (RegisterFault.Behind lce next) }
        ensures overtaken { (kept : ℕ) → result ≢ Err (RegisterFault.Overtaken kept) }
        ensures epochs { result ≢ Err RegisterFault.EpochLimit }
        ensures swaps { result ≢ Err RegisterFault.SwapLimit }
        ensures exact_calls { (p : Plain) → D.plain (owned self.old) ≡ Some p → reads_fine p ≡ true → Writes (is_loaded self.old) [] p result (D.plain (owned self.new)) }
        ensures stays { is_loaded self.old ≡ true → IsErrOf result RegisterFault.Failed ⊎ (is_loaded self.new ≡ true) }
    {
        self.ready(alloc)?;
        let before = self.contents.generation(node);
        if before == u32::MAX {
            return Err(RegisterFault::GenLimit);
        }
        if self.is_full(DRAW_LENGTH) {
            return Err(RegisterFault::Full);
        }
        let epochs = self.contents.active(alloc)?;
        let _ = node.number();
        let generation = before + 1;
        Ok(Drawn {
            gen_: generation,
            epochs,
        })
    }

    /// In how many epochs a swap would put the spare in the place of the member, or why it would be refused. It loads the
    /// register, and changes nothing.
    pub(crate) fn check_swap(
        &mut self,
        alloc: Global,
        log: LogId,
        upto: u32,
        member: NodeId,
        spare: NodeId,
    ) -> Result<u32, RegisterFault>
        ensures due { IfOk result (λ count. 1 ≤ count → IsDue self.old self.new (Change.Swap log upto member spare) count (λ c. swapped c log upto member spare) (λ c. after_swap c log upto member spare)) }
        ensures none { IfOk result (λ count. count ≡ 0 → Meets self.old self.new result (λ c. swapped c log upto member spare) (λ c. after_swap c log upto member spare)) }
        ensures nowhere { IfOk result (λ count. count ≡ 0 → (c : Held) → Holds self.old c → swappable c log upto member spare ≡ 0) }
        ensures refused { OnErr result (Meets self.old self.new result (λ c. swapped c log upto member spare) (λ c. after_swap c log upto member spare)) }
        ensures steady { IsErrOf result RegisterFault.Failed ⊎ (D.faults (owned self.new) ≡ D.faults (owned self.old)) }
        ensures itself { D.identity (owned self.new) ≡ D.identity (owned self.old) }
        ensures loaded { OnOk result (is_loaded self.new ≡ true) }
        ensures logs { result ≢ Err RegisterFault.LogLimit }
        ensures behind { (lce : ℕ) (next : Option Fixed) → result ≢ Err (RegisterFault.Behind lce next) }
        ensures overtaken { (kept : ℕ) → result ≢ Err (RegisterFault.Overtaken kept) }
        ensures epochs { result ≢ Err RegisterFault.EpochLimit }
        ensures generations { result ≢ Err RegisterFault.GenLimit }
        ensures exact_calls { (p : Plain) → D.plain (owned self.old) ≡ Some p → reads_fine p ≡ true → Writes (is_loaded self.old) [] p result (D.plain (owned self.new)) }
        ensures stays { is_loaded self.old ≡ true → IsErrOf result RegisterFault.Failed ⊎ (is_loaded self.new ≡ true) }
    {
        self.ready(alloc)?;
        let count = self.contents.swappable(log, upto, member, spare);
        if count == 0 {
            return Ok(0);
        }
        if self.contents.swaps(log) == u32::MAX {
            return Err(RegisterFault::SwapLimit);
        }
        if self.is_full(SWAP_LENGTH) {
            return Err(RegisterFault::Full);
        }
        let _ = (log.number(), member.number(), spare.number());
        Ok(count)
    }
}

/// Whether a close that may be short comes from the sequencer of another epoch than the greatest one.
fn is_overtaken(kept: u32, ballot: u32, short: bool) -> bool
    ensures { result ≡ (short && not (kept == ballot)) }
{
    short && kept != ballot
}
