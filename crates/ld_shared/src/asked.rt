// What a register in memory answers to a call, and the record that its change is to be.
ghost use Rattle.std.specs.Prelude.{◌≡◌, ◌≤◌, ◌⊎◌, List, ℕ, length, IfOk, IfErr, Ok, Err};
ghost use Rattle.std.specs.Option.{option_map};
ghost use Rattle.ld_msg.specs.Register.{Register as Contents, empty_register};
ghost use Rattle.ld_register.specs.Calls.{IsFree};
ghost use Rattle.ld_register.specs.Changes.{Leads};
ghost use Rattle.ld_shared.specs.Bodies.{bodies_of};
ghost use Rattle.ld_shared.specs.Fresh.{IsFresh};
ghost use Rattle.ld_shared.specs.Says.{Says, Decided, refusal};

use crate::asking::Question;
use crate::fresh::Fresh;
use crate::journal::{appended, numbered};
use ld_register::RegisterFault;
use std::alloc::Global;

/// What a call answers, and the body of its change's record, where it makes one.
#[derive(Drop)]
pub(crate) struct Decision<T: Drop> {
    pub answer: T,
    pub body: Option<Vec<u8>>,
}

/// Asks a register in memory that records lead to.
pub(crate) fn decided<T: Drop, Q: Question<T>>(
    alloc: Global,
    fresh: Fresh,
    question: &Q,
) -> Result<Decision<T>, RegisterFault>
    requires { Q.is_valid question.now }
    ensures decided { (values : List (List ℕ)) → IsFresh values fresh
        → IfOk result (λ d. Decided values d.answer (option_map (λ v. v.items) d.body) (Q.answer question.now) (Q.after question.now)) }
    ensures refused { (own : List ℕ) (before values : List (List ℕ)) → IsFresh values fresh → length before ≤ length values
        → IfErr result (λ fault. IsFree (refusal {T = T} fault) ⊎ Says own before values (refusal {T = T} fault) (Q.answer question.now) (Q.after question.now)) }
    ensures exact { (values : List (List ℕ)) (c : Contents) → IsFresh values fresh → Leads empty_register (bodies_of values) c
        → IfErr result (λ fault. (fault ≡ RegisterFault.NoMemory) ⊎ ((refusal {T = T} fault ≡ Q.answer question.now c) × (Q.after question.now c ≡ c))) }
    ensures fits { IfOk result (λ d. Q.fits question.now (Ok d.answer)) }
    ensures unfit { IfErr result (λ fault. Q.fits question.now (Err fault)) }
{
    let end = fresh.end;
    let mut copy = fresh.copy;
    match question.ask(alloc, &mut copy) {
        Ok(answer) => {
            let mut disk = copy.into_disk();
            match appended(alloc, &mut disk, end) {
                Ok(body) => Ok(Decision { answer, body }),
                Err(fault) => Err(fault),
            }
        }
        Err(fault) => Err(numbered(alloc, copy.into_disk(), fault)),
    }
}
