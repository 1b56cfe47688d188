// The last known good places of a log's epochs, with places for those to come.
ghost use Rattle.std.specs.Prelude.{◌≡◌, [], true, OnOk};
ghost use Rattle.ld_table.specs.Table.{put, take_out};
ghost use Rattle.ld_op.specs.Plain.{lng_in, raised_lng};
ghost use Rattle.ld_op.specs.Places.{filled, has_place};

use crate::room::reserve;
use ld_ids::NoMemory;
use std::alloc::Global;
use std::collections::BTreeMap;
use std::marker::Model;

/// The greatest last known good place that was told of each epoch. An epoch may have a place instead, made before one is told.
#[derive(Drop)]
pub(crate) struct KnownGood {
    map: BTreeMap<u32, Option<u32>>,
}

impl Model for KnownGood {
    ghost use Rattle.std.specs.Prelude.{List, ℕ, Option};

    ghost Value = { List (ℕ × Option ℕ) };

    ghost view = { λ a. a.map.entries };
}

impl KnownGood {
    /// Nothing is told, and no places are made.
    pub(crate) fn new(alloc: Global) -> KnownGood
        ensures { result ≡ [] }
    {
        KnownGood {
            map: BTreeMap::new(alloc),
        }
    }

    /// The last known good places, and the places for others.
    pub(crate) fn places(&self) -> &BTreeMap<u32, Option<u32>>
        ensures { result.now.entries ≡ self.now }
    {
        &self.map
    }

    /// The place that is kept of the epoch, 0 where none is.
    pub(crate) fn get(&self, epoch: u32) -> u32
        ensures { result ≡ lng_in (filled self.now) epoch }
    {
        let _ = self.map.len();
        match self.map.get(&epoch) {
            Some(place) => place.unwrap_or(0),
            None => 0,
        }
    }

    /// Makes a place for the epoch where nothing stands under it. Without memory nothing changes.
    pub(crate) fn reserve(&mut self, epoch: u32) -> Result<(), NoMemory>
        ensures same { filled self.new ≡ filled self.old }
        ensures place { OnOk result (has_place epoch self.new ≡ true) }
    {
        reserve(&mut self.map, epoch)
    }

    /// Keeps this place of the epoch, which has one or a place for one.
    pub(crate) fn put(&mut self, epoch: u32, place: u32)
        requires { has_place epoch self.old ≡ true }
        ensures { filled self.new ≡ put epoch place (filled self.old) }
    {
        let _ = self.map.insert(epoch, Some(place));
    }

    /// Is told a place of the epoch, which has one or a place for one. The greater one stays.
    pub(crate) fn raise(&mut self, epoch: u32, place: u32)
        requires { has_place epoch self.old ≡ true }
        ensures { filled self.new ≡ raised_lng epoch place (filled self.old) }
    {
        if self.get(epoch) < place {
            self.put(epoch, place);
        }
    }

    /// Keeps nothing of the epoch any more.
    pub(crate) fn forget(&mut self, epoch: u32)
        ensures { filled self.new ≡ take_out epoch (filled self.old) }
    {
        let _ = self.map.len();
        let _ = self.map.remove(&epoch);
    }
}
