// What records in memory keep: a value for each number.
ghost use Rattle.std.specs.Prelude.{◌≡◌, ◌≢◌, ◌≤◌, ◌⊎◌, ◌∷◌, ◌++◌, [], ℕ, length, map, true, false, Ok, Err, OnOk, OnErr, MatchOption};
ghost use Rattle.ld_records.specs.Growth.{IsAt, IsTaken, Grows};

use crate::{Appended, RecordsFault};
use std::alloc::Global;

/// The value of this number, where there is one.
pub fn value_at(values: &[Vec<u8>], number: u64) -> Option<&[u8]>
    ensures { MatchOption result (length values.now ≤ number) (λ v. IsAt number v.now (map (λ v. v.items) values.now)) }
{
    let at = number as usize;
    if at >= values.len() {
        return None;
    }
    Some(&values[at])
}

/// Puts the value of this number in the place of `value`. False where there is none.
pub fn read_from(values: &[Vec<u8>], number: u64, value: &mut Vec<u8>) -> Result<bool, RecordsFault>
    ensures found { result ≡ Ok true → IsAt number value.new.items (map (λ v. v.items) values.now) }
    ensures ended { result ≡ Ok false → length values.now ≤ number }
    ensures refused { (result ≡ Ok true) ⊎ (result ≡ Ok false) ⊎ (result ≡ Err RecordsFault.NoMemory) }
{
    let Some(found) = value_at(values, number) else {
        return Ok(false);
    };
    value.clear();
    value.extend_from_slice(found)?;
    Ok(true)
}

/// Makes the value of this number, where there is none and where the one before it is there.
pub(crate) fn append_to(
    values: &mut Vec<Vec<u8>>,
    alloc: Global,
    number: u64,
    value: &[u8],
) -> Result<Appended, RecordsFault>
    ensures made { result ≡ Ok Appended.Made → IsAt number value.now (map (λ v. v.items) values.new.items) }
    ensures taken { result ≡ Ok Appended.Taken → IsTaken number value.now (map (λ v. v.items) values.new.items) }
    ensures grows { Grows (map (λ v. v.items) values.old.items) (map (λ v. v.items) values.new.items) }
    ensures whole { (place : ℕ) → result ≢ Err (RecordsFault.Damaged place) }
    ensures behind { number ≡ length values.old.items → ((result ≡ Ok Appended.Made) × (map (λ v. v.items) values.new.items ≡ map (λ v. v.items) values.old.items ++ value.now ∷ []))
        ⊎ ((result ≡ Err RecordsFault.NoMemory) × (values.new.items ≡ values.old.items)) }
{
    if let Some(found) = value_at(values, number) {
        return Ok(found_as(found, value));
    }
    if number as usize != values.len() {
        return Err(RecordsFault::Failed);
    }
    push_copy(values, alloc, value)?;
    Ok(Appended::Made)
}

/// How an append of a value ends where this one is there.
pub fn found_as(found: &[u8], value: &[u8]) -> Appended
    ensures made { result ≡ Appended.Made → found.now ≡ value.now }
    ensures taken { result ≡ Appended.Taken → found.now ≢ value.now }
{
    if found == value {
        Appended::Made
    } else {
        Appended::Taken
    }
}

/// Puts a copy of a value behind the others.
fn push_copy(values: &mut Vec<Vec<u8>>, alloc: Global, value: &[u8]) -> Result<(), RecordsFault>
    ensures pushed { OnOk result (map (λ v. v.items) values.new.items ≡ map (λ v. v.items) values.old.items ++ value.now ∷ []) }
    ensures untouched { OnErr result ((result ≡ Err RecordsFault.NoMemory) × (values.new.items ≡ values.old.items)) }
{
    let copy = Vec::from_slice(alloc, value)?;
    match values.push(copy) {
        Ok(()) => Ok(()),
        Err(_) => Err(RecordsFault::NoMemory),
    }
}
