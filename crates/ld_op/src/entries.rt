// The entries of a log by number, with places for those to come.
ghost use Rattle.std.specs.Prelude.{◌≡◌, ◌≤◌, ◌<◌, ◌+◌, ◌^◌, ℕ, [], true, OnOk, option_copied, nat_lt, drop};
ghost use Rattle.std.specs.Ordering.{nat_cmp};
ghost use Rattle.std.specs.BTreeMap.Range.{entries_between};
ghost use Rattle.std.specs.declared.ops.Bound.TheVariants.{Included, Excluded};
ghost use Rattle.ld_table.specs.Table.{find, put, keep, keep_keys, Ordered};
ghost use Rattle.ld_op.specs.Places.{filled, has_place, place_passes, starts_by};
ghost use Rattle.ld_op.specs.Older.{stands_between, is_older, first_older};
ghost use Rattle.ld_op.specs.Plain.{accept_entry, survives_bridge, survives_clean, refill_entries, entries_length};
ghost use Rattle.ld_op.specs.Cells.{placed_entries};
ghost use Rattle.ld_op.specs.Room.{have_places};

use crate::pointed::{Pointed, entry_length};
use ld_ids::NoMemory;
use ld_lsn::Lsn;
use ld_msg::{Entry, Summary};
use std::alloc::Global;
use std::collections::BTreeMap;
use std::marker::Model;
use std::ops::Bound;

/// Entries by number. A number may have a place instead, made before its entry comes.
#[derive(Drop)]
pub(crate) struct EntryMap {
    pub(crate) map: BTreeMap<u64, Option<Pointed>>,
}

impl Model for EntryMap {
    ghost use Rattle.std.specs.Prelude.{List, ℕ, Option};
    ghost use Rattle.ld_msg.specs.declared.msg.Entry.{Entry};
    ghost use Rattle.ld_op.specs.Places.{AreUnderTheirNumbers};

    ghost Value = { List (ℕ × Option Entry) };

    ghost view = { λ a. a.map.entries };

    ghost invariant = { λ a. AreUnderTheirNumbers a.map.entries };
}

impl EntryMap {
    /// No entries and no places.
    pub(crate) fn new(alloc: Global) -> EntryMap
        ensures { result ≡ [] }
    {
        EntryMap {
            map: BTreeMap::new(alloc),
        }
    }

    /// The entries and the places for others.
    pub(crate) fn places(&self) -> &BTreeMap<u64, Option<Pointed>>
        ensures { result.now.entries ≡ self.now }
    {
        &self.map
    }

    /// The entry under the number.
    pub(crate) fn get(&self, number: u64) -> Option<&Pointed>
        ensures { option_copied result ≡ find number (filled self.now) }
    {
        let _ = self.map.len();
        match self.map.get(&number) {
            Some(place) => place.as_ref(),
            None => None,
        }
    }

    /// Makes a place for the number where nothing stands under it. Without memory nothing changes.
    pub(crate) fn reserve(&mut self, number: u64) -> Result<(), NoMemory>
        ensures same { filled self.new ≡ filled self.old }
        ensures place { OnOk result (has_place number self.new ≡ true) }
        ensures places { (q : ℕ) → has_place q self.old ≡ true → has_place q self.new ≡ true }
    {
        let _ = self.map.len();
        if self.map.contains_key(&number) {
            return Ok(());
        }
        self.map.insert(number, None)?;
        Ok(())
    }

    /// Puts the entry under its number, which has an entry or a place.
    pub(crate) fn put(&mut self, entry: Pointed)
        requires { has_place entry.number self.old ≡ true }
        ensures value { filled self.new ≡ put entry.number entry (filled self.old) }
        ensures places { (q : ℕ) → has_place q self.new ≡ has_place q self.old }
    {
        let _ = self.map.insert(entry.number().value(), Some(entry));
    }

    /// Takes the entries away that a bridge ends: those above it in its epoch with a smaller ballot.
    /// Takes time in what is above it in its epoch, not in all entries of the log.
    pub(crate) fn end_at(&mut self, bridge: &Pointed)
        ensures value { filled self.new ≡ keep (λ s e. survives_bridge bridge.now e) (filled self.old) }
        ensures place { has_place bridge.now.number self.old ≡ true → has_place bridge.now.number self.new ≡ true }
    {
        let _ = self.map.len();
        let number = bridge.number();
        let last = Lsn::new(number.epoch(), u32::MAX);
        drop_older(&mut self.map, bridge.ballot(), number.value(), last.value());
    }

    /// Takes an entry, which has a place.
    pub(crate) fn accept(&mut self, entry: Pointed)
        requires { has_place entry.number self.old ≡ true }
        ensures { filled self.new ≡ accept_entry entry entry.what (filled self.old) }
    {
        if entry.is_bridge() {
            self.end_at(&entry);
        }
        self.put(entry);
    }

    /// Makes a place for each entry. Without memory no entry changes.
    pub(crate) fn reserve_all(&mut self, entries: &[Entry]) -> Result<(), NoMemory>
        ensures same { filled self.new ≡ filled self.old }
        ensures places { OnOk result (have_places entries.now self.new ≡ true) }
    {
        for entry in entries {
            self.reserve(entry.number.value())?;
        }
        Ok(())
    }

    /// Takes entries, each of which has a place, and whose bytes stand from this place of the disk on.
    pub(crate) fn refill(&mut self, entries: &[Entry], at: u64)
        requires places { have_places entries.now self.old ≡ true }
        requires fits { at + entries_length entries.now < 2 ^ 64 }
        ensures { filled self.new ≡ refill_entries (placed_entries at entries.now) (filled self.old) }
    {
        let mut at = at;
        for entry in entries {
            self.put(Pointed::at(entry, at));
            at += entry_length(entry);
        }
    }

    /// Takes the entries away that a close of the epoch leaves out, and those up to the trim. Takes
    /// time in those, and in what is in the epoch above what was known good.
    pub(crate) fn close(&mut self, trim: u64, epoch: u32, summary: &Summary)
        ensures { filled self.new ≡ keep (λ s e. survives_clean trim epoch summary.now e) (filled self.old) }
    {
        let _ = self.map.len();
        drop_through(&mut self.map, trim);
        let good = Lsn::new(epoch, summary.lng);
        let last = Lsn::new(epoch, u32::MAX);
        drop_older(&mut self.map, summary.ballot, good.value(), last.value());
    }

    /// Takes the entries up to the number away, in time of their count.
    pub(crate) fn trim(&mut self, trim: u64)
        ensures { filled self.new ≡ keep_keys (λ s. nat_lt trim s) (filled self.old) }
    {
        drop_through(&mut self.map, trim);
    }
}

/// Takes the entries with a smaller ballot out of a tree that are above one number and at most
/// another, in time of what stands there.
fn drop_older(map: &mut BTreeMap<u64, Option<Pointed>>, ballot: u32, above: u64, last: u64)
    requires { above ≤ last }
    ensures { map.new.entries ≡ keep (place_passes (stands_between ballot above last)) map.old.entries }
{
    let mut above = above;
    'taken: while let Some(number) = first_older(map, ballot, above, last) {
        let _ = map.remove(&number);
        above = number;
    }
}

/// The first number above one and at most another whose entry has a smaller ballot.
fn first_older(
    map: &BTreeMap<u64, Option<Pointed>>,
    ballot: u32,
    above: u64,
    last: u64,
) -> Option<u64>
    requires { above ≤ last }
    ensures first { result ≡ first_older ballot (entries_between nat_cmp (Excluded above) (Included last) map.now.entries) }
    ensures ordered { Ordered map.now.entries }
{
    'places: for (number, place) in map.range((Bound::Excluded(above), Bound::Included(last))) {
        if is_older(ballot, place) {
            return Some(*number);
        }
    }
    None
}

/// Whether an entry stands in a place and has a smaller ballot.
fn is_older(ballot: u32, place: &Option<Pointed>) -> bool
    ensures { result ≡ is_older ballot place.now }
{
    match place {
        Some(entry) => entry.ballot() < ballot,
        None => false,
    }
}

/// Whether the least number is at most another.
fn starts_by(map: &BTreeMap<u64, Option<Pointed>>, number: u64) -> bool
    ensures value { result ≡ starts_by number map.now.entries }
    ensures ordered { Ordered map.now.entries }
{
    let _ = map.len();
    match map.first_key_value() {
        Some((first, _)) => *first <= number,
        None => false,
    }
}

/// Takes all up to a number out of a tree.
fn drop_through(map: &mut BTreeMap<u64, Option<Pointed>>, number: u64)
    ensures { map.new.entries ≡ keep_keys (λ s. nat_lt number s) map.old.entries }
{
    'taken: while starts_by(map, number) {
        drop_first(map);
    }
}

/// Takes the least number out of a tree.
fn drop_first(map: &mut BTreeMap<u64, Option<Pointed>>)
    ensures { map.new.entries ≡ drop 1 map.old.entries }
{
    let _ = map.pop_first();
}
