// A register whose changes are records that others append as well.
ghost use Rattle.std.specs.Prelude.{◌≡◌, ◌⊎◌, ◌≤◌, IsErrOf};
ghost use Rattle.ld_io.specs.Causes.{Rose};

use crate::asked::decided;
use crate::asking::Question;
use crate::fresh::{fresh_of, refused};
use crate::mark::Mark;
use crate::questions::{Activation, Closing, Drawing, Looking, Swapping};
use ld_ids::{LogId, NodeId, Spec};
use ld_msg::Summary;
use ld_records::{Appended, Records, RecordsFault};
use ld_register::{Drawn, Grant, Register, RegisterFault, View};
use std::alloc::Global;

/// A record whose making isn't known to have been done.
#[derive(Drop)]
pub(crate) struct Unsettled {
    pub number: u64,
    pub value: Vec<u8>,
}

/// A register whose changes are records, each with the program's mark and the body that a register on a disk writes for it.
/// Several programs may use the same records.
///
/// A call reads what is new, answers as a register on a disk with these records would, and appends what that one wrote,
/// under the number of the first record that it didn't read. Where another program was quicker, it begins again.
///
/// Where the outcome of an append isn't known, the call answers `Failed`, and the next call, a look too, first appends the
/// same value under the same number: from then on it is made, or never will be. It answers `Failed` as long as that fails.
///
/// `Damaged` tells the number of the first record that is no next change.
#[derive(Drop)]
pub struct SharedRegister<C: Records + Drop> {
    pub(crate) records: C,
    mark: Mark,
    pub(crate) unsettled: Option<Unsettled>,
    faults: u64,
}

impl<C: Records + Drop> SharedRegister<C> {
    ghost use Rattle.std.specs.Prelude.{ℕ, List, Option, length, None, Some, Ok, Err, true, false, IfSome, IsSome, OnOk, OnErr};
    ghost use Rattle.ld_records.specs.Growth.{Grows, IsAt};
    ghost use Rattle.ld_msg.specs.Register.{Register as Contents, empty_register};
    ghost use Rattle.ld_register.specs.Calls.{IsFree};
    ghost use Rattle.ld_register.specs.Changes.{Leads};
    ghost use Rattle.ld_shared.specs.Bodies.{IsValueOf, bodies_of, owner};
    ghost use Rattle.ld_shared.specs.Holds.{AnswersTried, AppendsAlone, Holds, IsExact, IsSole, SettlesAlone, StaysTried, sole_of};
    ghost use Rattle.ld_shared.specs.Says.{Says, Tried, FitsTried, IsFreeFault, IsSettled, IsLate, Settles, values_of, owner_of, unsettled_of};

    /// A register of these records, which no call has read yet.
    pub fn new(records: C, mark: Mark) -> SharedRegister<C>
        ensures records { values_of C.Records result ≡ C.list records }
        ensures owner { owner_of result ≡ owner mark }
        ensures settled { unsettled_of result ≡ None }
        ensures faults { result.faults ≡ 0 }
        ensures alone { C.sole records → IsSole C.Records result }
        ensures holds { (c : Contents) → C.sole records → Leads empty_register (bodies_of (C.list records)) c → Holds C.Records result c }
    {
        SharedRegister {
            records,
            mark,
            unsettled: None,
            faults: 0,
        }
    }

    /// Its records.
    pub fn records(&self) -> &C
        ensures { C.list result.now ≡ values_of C.Records self.now }
    {
        &self.records
    }

    /// Appends anew what isn't known to be made, where there is such a record.
    #[tactic(auto, using(crate::proofs::Growing::grows_not))]
    fn settle(&mut self, alloc: Global) -> Result<(), RegisterFault>
        ensures grows { Grows (values_of C.Records self.old) (values_of C.Records self.new) }
        ensures settled { OnOk result ((unsettled_of self.new ≡ None) × IsSettled (values_of C.Records self.new) (unsettled_of self.old)) }
        ensures refused { OnErr result (IsFree result × (unsettled_of self.new ≡ unsettled_of self.old)) }
        ensures owner { owner_of self.new ≡ owner_of self.old }
        ensures faults { self.new.faults ≡ self.old.faults }
        ensures alone { unsettled_of self.old ≡ None → SettlesAlone self.old self.new result }
    {
        let Some(unsettled) = self.unsettled.take() else {
            return Ok(());
        };
        match self
            .records
            .append(alloc, unsettled.number, &unsettled.value)
        {
            Ok(Appended::Made) => Ok(()),
            Ok(Appended::Taken) => Ok(()),
            Err(fault) => {
                self.unsettled = Some(unsettled);
                Err(refused(fault))
            }
        }
    }

    /// Makes a change's record: false where another program was quicker.
    #[tactic(auto, using(crate::proofs::Growing::grows_not, crate::proofs::Growing::none_late, crate::proofs::Sole::unmade_alone))]
    fn append(&mut self, alloc: Global, number: u64, body: &[u8]) -> Result<bool, RegisterFault>
        requires { unsettled_of self.old ≡ None }
        ensures grows { Grows (values_of C.Records self.old) (values_of C.Records self.new) }
        ensures made { result ≡ Ok true → (value : List ℕ) × IsAt number value (values_of C.Records self.new) × IsValueOf (owner_of self.old) body.now value }
        ensures settled { OnOk result (unsettled_of self.new ≡ None) }
        ensures free { OnErr result (IsFree result) }
        ensures unsettled { IsErrOf result RegisterFault.Failed → IsSome (unsettled_of self.new) }
        ensures late { IfSome (unsettled_of self.new) (λ u. (u.number ≡ number) × IsValueOf (owner_of self.old) body.now u.value.items) }
        ensures owner { owner_of self.new ≡ owner_of self.old }
        ensures faults { self.new.faults ≡ self.old.faults }
        ensures alone { sole_of C.Records self.old → number ≡ length (values_of C.Records self.old) → AppendsAlone C.Records body.now self.old self.new result }
    {
        let value = self.mark.value(alloc, body)?;
        match self.records.append(alloc, number, &value) {
            Ok(Appended::Made) => Ok(true),
            Ok(Appended::Taken) => Ok(false),
            Err(fault) => Err(self.leave(fault, number, value)),
        }
    }

    /// Leaves a change unsettled, unless it can't be made.
    fn leave(&mut self, fault: RecordsFault, number: u64, value: Vec<u8>) -> RegisterFault
        requires { unsettled_of self.old ≡ None }
        ensures free { IsFreeFault result }
        ensures failed { result ≡ RegisterFault.Failed → IsSome (unsettled_of self.new) }
        ensures memory { fault ≡ RecordsFault.NoMemory → (result ≡ RegisterFault.NoMemory) × (unsettled_of self.new ≡ None) }
        ensures late { (own body : List ℕ) → IsValueOf own body value.items → IfSome (unsettled_of self.new) (λ u. (u.number ≡ number) × IsValueOf own body u.value.items) }
        ensures records { self.new.records ≡ self.old.records }
        ensures owner { owner_of self.new ≡ owner_of self.old }
        ensures faults { self.new.faults ≡ self.old.faults }
    {
        match fault {
            RecordsFault::NoMemory => RegisterFault::NoMemory,
            _ => {
                self.unsettled = Some(Unsettled { number, value });
                RegisterFault::Failed
            }
        }
    }

    /// One try of a call: none where another program was quicker.
    fn once<T: Drop, Q: Question<T>>(
        &mut self,
        alloc: Global,
        question: &Q,
    ) -> Result<Option<T>, RegisterFault>
        requires valid { Q.is_valid question.now }
        requires settled { unsettled_of self.old ≡ None }
        ensures grows { Grows (values_of C.Records self.old) (values_of C.Records self.new) }
        ensures tried { Tried (owner_of self.old) (values_of C.Records self.old) (values_of C.Records self.new) result (Q.answer question.now) (Q.after question.now) }
        ensures fits { FitsTried (Q.fits question.now) result }
        ensures settled { OnOk result (unsettled_of self.new ≡ None) }
        ensures late { IfSome (unsettled_of self.new) (IsLate (owner_of self.old) (values_of C.Records self.new) (Q.after question.now)) }
        ensures owner { owner_of self.new ≡ owner_of self.old }
        ensures faults { self.new.faults ≡ self.old.faults }
        ensures alone { IsSole C.Records self.old → IsSole C.Records self.new × StaysTried (values_of C.Records self.old) (values_of C.Records self.new) result }
        ensures exact { (c : Contents) → Holds C.Records self.old c → AnswersTried (values_of C.Records self.new) result c (Q.answer question.now) (Q.after question.now) }
    {
        let fresh = fresh_of(alloc, &mut self.records)?;
        let number = fresh.number;
        let decision = decided(alloc, fresh, question)?;
        let Some(body) = &decision.body else {
            return Ok(Some(decision.answer));
        };
        if self.append(alloc, number, body)? {
            return Ok(Some(decision.answer));
        }
        Ok(None)
    }

    /// A call, which is tried until no other program is quicker.
    fn call<T: Drop, Q: Question<T>>(
        &mut self,
        alloc: Global,
        question: &Q,
    ) -> Result<T, RegisterFault>
        requires { Q.is_valid question.now }
        ensures grows { Grows (values_of C.Records self.old) (values_of C.Records self.new) }
        ensures says { IsFree result ⊎ Says (owner_of self.old) (values_of C.Records self.old) (values_of C.Records self.new) result (Q.answer question.now) (Q.after question.now) }
        ensures settles { Settles C.Records self.old self.new result (Q.after question.now) }
        ensures fits { Q.fits question.now result }
        ensures owner { owner_of self.new ≡ owner_of self.old }
        ensures faults { self.new.faults ≡ self.old.faults }
        ensures exact { IsExact C.Records self.old self.new result (Q.answer question.now) (Q.after question.now) }
    {
        self.settle(alloc)?;
        'tries: for _ in 0..u64::MAX {
            if let Some(answer) = self.once(alloc, question)? {
                return Ok(answer);
            }
        }
        Err(RegisterFault::NoMemory)
    }

    /// Counts a call that failed.
    fn count<T>(&mut self, answer: &Result<T, RegisterFault>)
        ensures failed { IsErrOf answer.now RegisterFault.Failed → Rose self.old.faults self.new.faults }
        ensures steady { IsErrOf answer.now RegisterFault.Failed ⊎ (self.new.faults ≡ self.old.faults) }
        ensures counts { self.old.faults ≤ self.new.faults }
        ensures same { (values_of C.Records self.new ≡ values_of C.Records self.old) × (unsettled_of self.new ≡ unsettled_of self.old) × (owner_of self.new ≡ owner_of self.old) }
        ensures records { self.new.records ≡ self.old.records }
    {
        if let Err(RegisterFault::Failed) = answer {
            self.faults = self.faults.saturating_add(1);
        }
    }
}

impl<C: Records + Drop> Register for SharedRegister<C> {
    ghost use Rattle.std.specs.Prelude.{◌≢◌, ◌-◌, ◌^◌, ℕ, Option, IfOk, IfSome, OnErr, Ok, Err, true};
    ghost use Rattle.ld_ids.specs.declared.set.Spec.{Spec as Fixed};
    ghost use Rattle.ld_msg.specs.Bounds.{IsSummary};
    ghost use Rattle.ld_op.specs.Bounds.{IsOp};
    ghost use Rattle.ld_op.specs.declared.op.Op.TheVariants.{Format};
    ghost use Rattle.ld_register.specs.Bounds.{IsSpec, IsSpecFor};
    ghost use Rattle.ld_register.specs.Calls.{activated, after_activate, closed, after_close, drawn, after_draw, swapped, after_swap, looked, IsGrant, IsView, IsFree};
    ghost use Rattle.ld_shared.specs.Holds.{Holds, HoldsNothing, IsSole, LeavesOneOf, LooksAlone, MayHold, MeetsAlone, holds_one, left_alone, holds_unarmed};
    ghost use Rattle.ld_shared.specs.Says.{Answers};

    ghost told = { λ r. IsSole C.Records r };

    ghost holds = { λ r c. Holds C.Records r c };

    ghost may_hold = { λ r c. MayHold C.Records r c };

    ghost leaves = { λ r cs. LeavesOneOf C.Records r cs };

    ghost tells = { λ r c. Holds C.Records r c };

    ghost damaged = { λ r _. HoldsNothing C.Records r };

    ghost faults = { λ r. r.faults };

    ghost identity = { λ _. 0 };

    ghost holds_one = { λ r c d h k. holds_one C.Records r c d h k };

    ghost held_is_told = { λ _ _ h. h.sole };

    ghost held_may_be = { λ _ _ h _. h.leads };

    ghost left_is_held = { λ _ _ _ l. l };

    ghost left_alone = { λ r cs c l m. left_alone C.Records r cs c l m };

    ghost tells_what_is_held = { λ r c t. holds_unarmed C.Records r c t };

    ghost held_is_whole = { λ _ c _ h b. b c h };

    fn activate(&mut self, alloc: Global, spec: &Spec) -> Result<Grant, RegisterFault>
        requires { IsSpec spec.now }
        ensures answers { Answers C.Records self.old self.new result (λ c. activated c spec.now) (λ c. after_activate c spec.now) }
        ensures alone { MeetsAlone C.Records self.old self.new result (λ c. activated c spec.now) (λ c. after_activate c spec.now) }
        ensures bounds { IfOk result (IsGrant spec.now.log) }
        ensures failed { IsErrOf result RegisterFault.Failed → Rose self.old.faults self.new.faults }
        ensures behind { (lce : ℕ) (next : Option Fixed) → result ≢ Err (RegisterFault.Behind lce next) }
        ensures overtaken { (kept : ℕ) → result ≢ Err (RegisterFault.Overtaken kept) }
        ensures generations { result ≢ Err RegisterFault.GenLimit }
        ensures swaps { result ≢ Err RegisterFault.SwapLimit }
        ensures steady { IsErrOf result RegisterFault.Failed ⊎ (self.new.faults ≡ self.old.faults) }
        ensures counts { self.old.faults ≤ self.new.faults }
    {
        let answer = self.call(alloc, &Activation { spec });
        self.count(&answer);
        answer
    }

    fn close(
        &mut self,
        alloc: Global,
        log: LogId,
        epoch: u32,
        summary: &Summary,
        short: bool,
    ) -> Result<Option<Spec>, RegisterFault>
        requires { IsSummary epoch summary.now }
        ensures answers { Answers C.Records self.old self.new result (λ c. closed c log epoch summary.now short) (λ c. after_close c log epoch summary.now short) }
        ensures alone { MeetsAlone C.Records self.old self.new result (λ c. closed c log epoch summary.now short) (λ c. after_close c log epoch summary.now short) }
        ensures next { IfOk result (λ next. IfSome next (IsSpecFor log)) }
        ensures bounds { (lce : ℕ) (next : Option Fixed) → IsErrOf result (RegisterFault.Behind lce next) → (lce ≤ 2 ^ 32 - 2) × IfSome next (IsSpecFor log) }
        ensures overtaken { (kept : ℕ) → IsErrOf result (RegisterFault.Overtaken kept) → (short ≡ true) × (kept ≤ 2 ^ 32 - 2) × (kept ≢ summary.now.ballot) }
        ensures failed { IsErrOf result RegisterFault.Failed → Rose self.old.faults self.new.faults }
        ensures epochs { result ≢ Err RegisterFault.EpochLimit }
        ensures generations { result ≢ Err RegisterFault.GenLimit }
        ensures swaps { result ≢ Err RegisterFault.SwapLimit }
        ensures steady { IsErrOf result RegisterFault.Failed ⊎ (self.new.faults ≡ self.old.faults) }
        ensures counts { self.old.faults ≤ self.new.faults }
    {
        let answer = self.call(
            alloc,
            &Closing {
                log,
                epoch,
                summary,
                short,
            },
        );
        self.count(&answer);
        answer
    }

    fn draw(&mut self, alloc: Global, node: NodeId) -> Result<Drawn, RegisterFault>
        ensures answers { Answers C.Records self.old self.new result (λ c. drawn c node) (λ c. after_draw c node) }
        ensures alone { MeetsAlone C.Records self.old self.new result (λ c. drawn c node) (λ c. after_draw c node) }
        ensures bounds { IfOk result (λ drawn. IsOp (Format drawn.gen_ drawn.epochs)) }
        ensures failed { IsErrOf result RegisterFault.Failed → Rose self.old.faults self.new.faults }
        ensures logs { result ≢ Err RegisterFault.LogLimit }
        ensures behind { (lce : ℕ) (next : Option Fixed) → result ≢ Err (RegisterFault.Behind lce next) }
        ensures overtaken { (kept : ℕ) → result ≢ Err (RegisterFault.Overtaken kept) }
        ensures epochs { result ≢ Err RegisterFault.EpochLimit }
        ensures swaps { result ≢ Err RegisterFault.SwapLimit }
        ensures steady { IsErrOf result RegisterFault.Failed ⊎ (self.new.faults ≡ self.old.faults) }
        ensures counts { self.old.faults ≤ self.new.faults }
    {
        let answer = self.call(alloc, &Drawing { node });
        self.count(&answer);
        answer
    }

    fn swap(
        &mut self,
        alloc: Global,
        log: LogId,
        upto: u32,
        member: NodeId,
        spare: NodeId,
    ) -> Result<u32, RegisterFault>
        ensures answers { Answers C.Records self.old self.new result (λ c. swapped c log upto member spare) (λ c. after_swap c log upto member spare) }
        ensures alone { MeetsAlone C.Records self.old self.new result (λ c. swapped c log upto member spare) (λ c. after_swap c log upto member spare) }
        ensures failed { IsErrOf result RegisterFault.Failed → Rose self.old.faults self.new.faults }
        ensures logs { result ≢ Err RegisterFault.LogLimit }
        ensures behind { (lce : ℕ) (next : Option Fixed) → result ≢ Err (RegisterFault.Behind lce next) }
        ensures overtaken { (kept : ℕ) → result ≢ Err (RegisterFault.Overtaken kept) }
        ensures epochs { result ≢ Err RegisterFault.EpochLimit }
        ensures generations { result ≢ Err RegisterFault.GenLimit }
        ensures steady { IsErrOf result RegisterFault.Failed ⊎ (self.new.faults ≡ self.old.faults) }
        ensures counts { self.old.faults ≤ self.new.faults }
    {
        let answer = self.call(
            alloc,
            &Swapping {
                log,
                upto,
                member,
                spare,
            },
        );
        self.count(&answer);
        answer
    }

    fn look(&mut self, alloc: Global, log: LogId, e: u32) -> Result<View, RegisterFault>
        ensures answers { Answers C.Records self.old self.new result (λ c. Ok (looked c log e)) (λ c. c) }
        ensures alone { LooksAlone C.Records self.old self.new result (λ c. Ok (looked c log e)) }
        ensures view { IfOk result (IsView log e) }
        ensures failed { IsErrOf result RegisterFault.Failed → Rose self.old.faults self.new.faults }
        ensures free { OnErr result (IsFree result) }
        ensures steady { IsErrOf result RegisterFault.Failed ⊎ (self.new.faults ≡ self.old.faults) }
        ensures counts { self.old.faults ≤ self.new.faults }
    {
        let answer = self.call(alloc, &Looking { log, e });
        self.count(&answer);
        answer
    }
}
