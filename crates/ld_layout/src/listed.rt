// Areas by offset.
ghost use Rattle.std.specs.Prelude.{◌≡◌, ◌≤◌, ◌<◌, ◌+◌, ◌^◌, [], ◌++◌, ℕ, length, slice_index, filter, nat_le, if◌then◌else◌, Some, true, false, OnOk, IfOk, IfSome, IfNone};
ghost use Rattle.ld_table.specs.Table.{find, put, Ordered};
ghost use Rattle.ld_table.specs.Words.{any_of};
ghost use Rattle.ld_layout.specs.Areas.{is_inside, least_place};
ghost use Rattle.std.specs.List.Sorted.{IsNonDecreasing};
ghost use Rattle.ld_layout.specs.Layout.{used};

use ld_ids::NoMemory;
use ld_op::Plain;
use std::alloc::Global;
use std::collections::BTreeMap;
use std::marker::Model;

/// Areas of a disk by offset, each with its length.
#[derive(Drop)]
pub struct Areas {
    map: BTreeMap<u64, u64>,
}

impl Model for Areas {
    ghost use Rattle.std.specs.Prelude.{List, ℕ};

    ghost Value = { List (ℕ × ℕ) };

    ghost view = { λ a. a.map.entries };
}

impl Areas {
    /// None.
    pub fn new(alloc: Global) -> Areas
        ensures { result ≡ [] }
    {
        Areas {
            map: BTreeMap::new(alloc),
        }
    }

    /// The areas by offset.
    pub(crate) fn all(&self) -> &BTreeMap<u64, u64>
        ensures entries { result.now.entries ≡ self.now }
        ensures ordered { Ordered self.now }
    {
        let _ = self.map.len();
        &self.map
    }

    /// How many there are.
    pub fn count(&self) -> usize
        ensures count { result ≡ length self.now }
        ensures small { result < 2 ^ 63 }
    {
        self.map.len()
    }

    /// Adds an area, or gives the one that begins at the offset another length. Without memory nothing changes.
    pub fn add(&mut self, place: u64, length: u64) -> Result<(), NoMemory>
        ensures { OnOk result (self.new ≡ put place length self.old) }
    {
        self.map.insert(place, length)?;
        Ok(())
    }

    /// Whether each area ends at an offset or before it.
    pub fn lie_within(&self, end: u64) -> bool
        ensures within { result ≡ true → (place size : ℕ) → find place self.now ≡ Some size → place + size ≤ end }
        ensures past { result ≡ false → (place : ℕ) × (size : ℕ) × (find place self.now ≡ Some size) × (end < place + size) }
    {
        'areas: for (place, length) in self.all() {
            if !fits(*place, *length, end) {
                return false;
            }
        }
        true
    }

    /// The same once more.
    pub fn copy(&self, alloc: Global) -> Result<Areas, NoMemory>
        ensures { IfOk result (λ areas. areas ≡ self.now) }
    {
        let mut areas = Areas::new(alloc);
        'areas: for (place, length) in self.all() {
            areas.add(*place, *length)?;
        }
        Ok(areas)
    }
}

/// The areas in which payloads of the index stand. It takes time in the number of entries and of areas, and the logarithm
/// of the first.
pub fn used(alloc: Global, index: &Plain, areas: &Areas) -> Result<Areas, NoMemory>
    ensures { IfOk result (λ found. found ≡ used index.now.state areas.now) }
{
    let mut starts = index.payload_starts(alloc)?;
    starts.sort_unstable();
    holding(alloc, starts.as_slice(), areas)
}

/// The areas in which one of the offsets lies, which rise.
fn holding(alloc: Global, starts: &[u64], areas: &Areas) -> Result<Areas, NoMemory>
    requires { IsNonDecreasing starts.now }
    ensures { IfOk result (λ found. found ≡ filter (λ a. any_of (λ k. is_inside a k) starts.now) areas.now) }
{
    let mut found = Areas::new(alloc);
    'areas: for (place, length) in areas.all() {
        let holds = holds_one(starts, *place, *length);
        add_if(holds, &mut found, *place, *length)?;
    }
    Ok(found)
}

/// Adds an area, if it is to be. Without memory nothing changes.
fn add_if(holds: bool, areas: &mut Areas, place: u64, length: u64) -> Result<(), NoMemory>
    ensures { OnOk result (areas.new ≡ (if holds then put place length areas.old else areas.old)) }
{
    if holds {
        areas.add(place, length)
    } else {
        Ok(())
    }
}

/// Whether one of the offsets lies in the area. They rise.
fn holds_one(starts: &[u64], place: u64, length: u64) -> bool
    requires { IsNonDecreasing starts.now }
    ensures { result ≡ any_of (λ k. is_inside (place, length) k) starts.now }
{
    let first = first_from(starts, place);
    if first == starts.len() {
        return false;
    }
    starts[first] - place < length
}

/// How many of the offsets lie before one. They rise.
fn first_from(starts: &[u64], place: u64) -> usize
    requires { IsNonDecreasing starts.now }
    ensures most { result ≤ length starts.now }
    ensures before { (k : ℕ) → k < result → slice_index starts.now k < place }
    ensures behind { (k : ℕ) → result ≤ k → k < length starts.now → place ≤ slice_index starts.now k }
{
    let mut from = 0;
    let mut to = starts.len();
    'halves: while from < to {
        let middle = from + (to - from) / 2;
        if starts[middle] < place {
            from = middle + 1;
        } else {
            to = middle;
        }
    }
    from
}

/// The least offset at which so many bytes overlap none of the areas, where it is a number of 64 bits.
pub(crate) fn least_place_among(size: u64, areas: &Areas) -> Option<u64>
    ensures some { IfSome result (λ place. place ≡ least_place size 0 areas.now) }
    ensures none { IfNone result (2 ^ 64 ≤ least_place size 0 areas.now) }
{
    let mut at: u64 = 0;
    'areas: for (place, length) in areas.all() {
        if fits(at, size, *place) {
            return Some(at);
        }
        if u64::MAX - *place < *length {
            return None;
        }
        at = at.max(*place + *length);
    }
    Some(at)
}

/// Whether so many bytes from one place on end at another or before it.
fn fits(at: u64, size: u64, place: u64) -> bool
    ensures { result ≡ nat_le (at + size) place }
{
    at <= place && size <= place - at
}
