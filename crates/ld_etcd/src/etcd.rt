// Records in etcd: the record of number N is the key PREFIX/N, which is made once and never changed.
ghost use Rattle.std.specs.Prelude.{◌≡◌, ◌∷◌, ◌++◌, [], List, ℕ, map, length, codes, string_bytes, Ok, IfOk, OnOk, OnErr};
ghost use Rattle.serde_json.specs.View.{view};
ghost use Rattle.ld_records.specs.Growth.{Grows, IsAt, IsTaken};
ghost use Rattle.ld_etcd.specs.Gateway.{items_in, Takes, TakesAll, TakesOne};

use crate::caller::Caller;
use crate::gateway::{Transaction, make_text, pairs_of, range_text, transaction_of, value_of};
use crate::{Cause, Members};
use ld_records::{Appended, Records, RecordsFault, found_as, read_from, value_at};
use serde_json::Value;
use std::alloc::Global;

/// The records under a prefix of etcd's keys, as far as they are known. The record of number N is the key PREFIX/N, N in 16
/// hexadecimal digits.
///
/// A call goes to the member that answered last, and where that one takes no connection to the others in turn. One that was
/// sent and whose outcome isn't known is sent up to three times, each time to the next member. To make a record is a
/// transaction that changes nothing where its key was made before, and then tells what stands there: so the same value may
/// be sent again, and is made once.
#[derive(Drop)]
pub struct Etcd<M: Members + Drop> {
    caller: Caller<M>,
    prefix: String,
    pub(crate) known: Vec<Vec<u8>>,
    cause: Option<Cause>,
}

impl<M: Members + Drop> Etcd<M> {
    ghost use Rattle.ld_etcd.specs.Known.{asked_in, known_in, prefix_of};
    ghost use Rattle.ld_etcd.specs.Request.{Asks};
    ghost use Rattle.ld_etcd.specs.Gateway.{range_request, make_request};

    /// The records under a prefix, which no call has read yet.
    pub fn new(alloc: Global, members: M, prefix: String) -> Etcd<M>
        ensures known { known_in result ≡ [] }
        ensures prefix { prefix_of result ≡ string_bytes prefix }
        ensures asked { asked_in M.Members result ≡ M.did members }
    {
        Etcd {
            caller: Caller::new(members),
            prefix,
            known: Vec::new(alloc),
            cause: None,
        }
    }

    /// Why the last call that failed did.
    pub fn cause(&self) -> Option<Cause> {
        self.cause
    }

    /// The members.
    pub fn members(&self) -> &M {
        self.caller.members()
    }

    /// Asks for the records from the first one on that isn't known.
    fn page_text(&self, alloc: Global) -> Result<String, Cause>
        ensures { IfOk result (λ text. string_bytes text ≡ range_request (prefix_of self.now) (length (known_in self.now))) }
    {
        range_text(alloc, self.prefix.as_str(), self.known.len() as u64)
    }

    /// Asks for the making of the first record that isn't known.
    fn value_text(&self, alloc: Global, value: &[u8]) -> Result<String, Cause>
        ensures { IfOk result (λ text. string_bytes text ≡ make_request (prefix_of self.now) (length (known_in self.now)) value.now) }
    {
        make_text(alloc, self.prefix.as_str(), self.known.len() as u64, value)
    }

    /// Posts a text to a path, and nothing else.
    fn ask(&mut self, alloc: Global, path: &str, text: &String) -> Result<Value, Cause>
        ensures asks { Asks path.now (string_bytes text.now) (asked_in M.Members self.old) (asked_in M.Members self.new) }
        ensures same { (known_in self.new ≡ known_in self.old) × (prefix_of self.new ≡ prefix_of self.old) }
    {
        self.caller.call(alloc, path, text.as_str())
    }

    /// Reads the records from the first one on that isn't known, a page of them.
    #[tactic(auto, using(crate::proofs::Asking::asks_none, crate::proofs::Taking::takes_grows))]
    fn read_page(&mut self, alloc: Global) -> Result<(), Cause>
        ensures grows { Grows (known_in self.old) (known_in self.new) }
        ensures asks { Asks (codes "/v3/kv/range") (range_request (prefix_of self.old) (length (known_in self.old))) (asked_in M.Members self.old) (asked_in M.Members self.new) }
        ensures prefix { prefix_of self.new ≡ prefix_of self.old }
    {
        let text = self.page_text(alloc)?;
        let answer = self.ask(alloc, "/v3/kv/range", &text)?;
        take_pairs(alloc, &mut self.known, &answer, self.prefix.as_str())
    }

    /// Asks for the making of the first record that isn't known, and says how that ended.
    #[tactic(auto, using(crate::proofs::Asking::asks_none))]
    fn transact(&mut self, alloc: Global, value: &[u8]) -> Result<Transaction, Cause>
        ensures asks { Asks (codes "/v3/kv/txn") (make_request (prefix_of self.old) (length (known_in self.old)) value.now) (asked_in M.Members self.old) (asked_in M.Members self.new) }
        ensures same { (known_in self.new ≡ known_in self.old) × (prefix_of self.new ≡ prefix_of self.old) }
    {
        let text = self.value_text(alloc, value)?;
        let answer = self.ask(alloc, "/v3/kv/txn", &text)?;
        transaction_of(
            alloc,
            &answer,
            self.prefix.as_str(),
            self.known.len() as u64,
        )
    }

    /// Makes the first record that isn't known.
    #[tactic(auto, using(crate::proofs::Asking::asks_none))]
    fn make(&mut self, alloc: Global, value: &[u8]) -> Result<Appended, Cause>
        ensures grows { Grows (known_in self.old) (known_in self.new) }
        ensures asks { Asks (codes "/v3/kv/txn") (make_request (prefix_of self.old) (length (known_in self.old)) value.now) (asked_in M.Members self.old) (asked_in M.Members self.new) }
        ensures prefix { prefix_of self.new ≡ prefix_of self.old }
        ensures made { result ≡ Ok Appended.Made → IsAt (length (known_in self.old)) value.now (known_in self.new) }
        ensures taken { result ≡ Ok Appended.Taken → IsTaken (length (known_in self.old)) value.now (known_in self.new) }
    {
        let copy = Vec::from_slice(alloc, value)?;
        match self.transact(alloc, value)? {
            Transaction::Made => {
                push_value(&mut self.known, copy)?;
                Ok(Appended::Made)
            }
            Transaction::There(found) => {
                let appended = found_as(&found, value);
                push_value(&mut self.known, found)?;
                Ok(appended)
            }
        }
    }

    /// Keeps why a read failed.
    fn fails(&mut self, cause: Cause) -> RecordsFault
        ensures known { known_in self.new ≡ known_in self.old }
        ensures asked { (self.new.caller ≡ self.old.caller) × (prefix_of self.new ≡ prefix_of self.old) }
    {
        self.cause = Some(cause);
        match cause {
            Cause::NoRecord(number) => RecordsFault::Damaged(number),
            Cause::NoMemory => RecordsFault::NoMemory,
            _ => RecordsFault::Failed,
        }
    }

    /// Keeps why a record may not be made.
    fn unmade(&mut self, cause: Cause) -> RecordsFault
        ensures known { known_in self.new ≡ known_in self.old }
        ensures asked { (self.new.caller ≡ self.old.caller) × (prefix_of self.new ≡ prefix_of self.old) }
        ensures failed { result ≡ RecordsFault.Failed }
    {
        self.cause = Some(cause);
        RecordsFault::Failed
    }
}

/// Puts the values of an answer's pairs behind those that are known, each of which has the key of the next number.
fn take_pairs(
    alloc: Global,
    known: &mut Vec<Vec<u8>>,
    answer: &Value,
    prefix: &str,
) -> Result<(), Cause>
    ensures taken { Takes prefix.now (items_in (codes "kvs") (view answer.now)) (map (λ v. v.items) known.old.items) (map (λ v. v.items) known.new.items) }
    ensures all { OnOk result (TakesAll prefix.now (items_in (codes "kvs") (view answer.now)) (map (λ v. v.items) known.old.items) (map (λ v. v.items) known.new.items)) }
{
    let pairs = pairs_of(answer);
    'pairs: for at in 0..pairs.len() {
        take_pair(alloc, known, &pairs[at], prefix)?;
    }
    Ok(())
}

/// Puts the value of a pair behind those that are known, which has the key of the next number.
fn take_pair(
    alloc: Global,
    known: &mut Vec<Vec<u8>>,
    pair: &Value,
    prefix: &str,
) -> Result<(), Cause>
    ensures taken { OnOk result (TakesOne prefix.now (view pair.now) (map (λ v. v.items) known.old.items) (map (λ v. v.items) known.new.items)) }
    ensures same { OnErr result (map (λ v. v.items) known.new.items ≡ map (λ v. v.items) known.old.items) }
{
    let number = known.len() as u64;
    let value = value_of(alloc, pair, prefix, number)?;
    push_value(known, value)
}

/// Puts a value behind those that are known.
fn push_value(known: &mut Vec<Vec<u8>>, value: Vec<u8>) -> Result<(), Cause>
    ensures pushed { OnOk result (map (λ v. v.items) known.new.items ≡ map (λ v. v.items) known.old.items ++ value.items ∷ []) }
    ensures same { OnErr result (known.new.items ≡ known.old.items) }
{
    match known.push(value) {
        Ok(()) => Ok(()),
        Err(_) => Err(Cause::NoMemory),
    }
}

impl<M: Members + Drop> Records for Etcd<M> {
    ghost use Rattle.std.specs.Prelude.{◌≤◌, ◌≢◌, true, false, Err};
    ghost use Rattle.ld_etcd.specs.Known.{asked_in, known_in, prefix_of};
    ghost use Rattle.ld_etcd.specs.Request.{Asks};
    ghost use Rattle.ld_etcd.specs.Gateway.{range_request, make_request};

    ghost list = { λ r. known_in r };

    ghost sole = { λ _. ⊥ };

    /// Asks etcd for the records from the first one on that isn't known, where this one isn't. `Damaged` tells the number under whose key, or behind the one before it,
    /// something else stands.
    #[tactic(auto, using(crate::proofs::Asking::asks_none))]
    fn read(
        &mut self,
        alloc: Global,
        number: u64,
        value: &mut Vec<u8>,
    ) -> Result<bool, RecordsFault>
        ensures grows { Grows (known_in self.old) (known_in self.new) }
        ensures found { result ≡ Ok true → IsAt number value.new.items (known_in self.new) }
        ensures ended { result ≡ Ok false → length (known_in self.new) ≤ number }
        ensures asks { Asks (codes "/v3/kv/range") (range_request (prefix_of self.old) (length (known_in self.old))) (asked_in M.Members self.old) (asked_in M.Members self.new) }
        ensures prefix { prefix_of self.new ≡ prefix_of self.old }
    {
        if number as usize >= self.known.len() {
            if let Err(cause) = self.read_page(alloc) {
                return Err(self.fails(cause));
            }
        }
        read_from(&self.known, number, value)
    }

    /// Asks etcd where the record isn't known.
    #[tactic(auto, using(crate::proofs::Asking::asks_none))]
    fn append(&mut self, alloc: Global, number: u64, value: &[u8]) -> Result<Appended, RecordsFault>
        ensures grows { Grows (known_in self.old) (known_in self.new) }
        ensures made { result ≡ Ok Appended.Made → IsAt number value.now (known_in self.new) }
        ensures taken { result ≡ Ok Appended.Taken → IsTaken number value.now (known_in self.new) }
        ensures whole { (place : ℕ) → result ≢ Err (RecordsFault.Damaged place) }
        ensures asks { Asks (codes "/v3/kv/txn") (make_request (prefix_of self.old) number value.now) (asked_in M.Members self.old) (asked_in M.Members self.new) }
        ensures prefix { prefix_of self.new ≡ prefix_of self.old }
    {
        if let Some(found) = value_at(&self.known, number) {
            return Ok(found_as(found, value));
        }
        if number as usize != self.known.len() {
            return Err(RecordsFault::Failed);
        }
        match self.make(alloc, value) {
            Ok(appended) => Ok(appended),
            Err(cause) => Err(self.unmade(cause)),
        }
    }
}
