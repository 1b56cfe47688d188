// The summaries of a log's clean epochs, with places for those to come.
ghost use Rattle.std.specs.Prelude.{◌≡◌, ◌<◌, ◌≤◌, ◌^◌, ℕ, [], true, None, Some, OnOk, is_some};
ghost use Rattle.ld_table.specs.Table.{find, put, first_from, Ordered};
ghost use Rattle.ld_msg.specs.declared.msg.Summary.{Summary as Closing};
ghost use Rattle.ld_op.specs.Places.{filled, has_place};
ghost use Rattle.ld_op.specs.Closed.{AreClean, AreEpochs};
ghost use Rattle.ld_op.specs.Ticks.{gap_from};

use crate::room::reserve;
use ld_ids::NoMemory;
use ld_msg::Summary;
use std::alloc::Global;
use std::collections::BTreeMap;
use std::marker::Model;

/// Summaries by epoch. An epoch may have a place instead, made before its summary comes. Beside them
/// stands the lowest epoch from one on that has no summary.
#[derive(Drop)]
pub(crate) struct SummaryMap {
    map: BTreeMap<u32, Option<Summary>>,
    lowest: u64,
}

impl Model for SummaryMap {
    ghost use Rattle.std.specs.Prelude.{List, ℕ, Option};
    ghost use Rattle.ld_msg.specs.declared.msg.Summary.{Summary};
    ghost use Rattle.ld_op.specs.Closed.{AreSummaries};

    ghost Value = { List (ℕ × Option Summary) };

    ghost view = { λ a. a.map.entries };

    ghost invariant = { λ a. AreSummaries a.map.entries a.lowest };
}

impl SummaryMap {
    /// No summaries and no places.
    pub(crate) fn new(alloc: Global) -> SummaryMap
        ensures { result ≡ [] }
    {
        SummaryMap {
            map: BTreeMap::new(alloc),
            lowest: 1,
        }
    }

    /// The summaries and the places for others.
    pub(crate) fn places(&self) -> &BTreeMap<u32, Option<Summary>>
        ensures { result.now.entries ≡ self.now }
    {
        &self.map
    }

    /// The summary of the epoch.
    pub(crate) fn get(&self, epoch: u32) -> Option<Summary>
        ensures { result ≡ find epoch (filled self.now) }
    {
        let _ = self.map.len();
        match self.map.get(&epoch) {
            Some(place) => *place,
            None => None,
        }
    }

    /// The first clean epoch from one on, and its summary.
    pub(crate) fn first_from(&self, epoch: u32) -> Option<(u32, Summary)>
        ensures { result ≡ first_from epoch (filled self.now) }
    {
        'places: for (clean, place) in self.map.range(epoch..) {
            if let Some(summary) = place {
                return Some((*clean, *summary));
            }
        }
        None
    }

    /// The lowest epoch from one on that has no summary, 1 where epoch 0 has one. It takes time in the logarithm of the
    /// number of epochs, for the look at epoch 0.
    pub(crate) fn lowest_unclean(&self) -> u64
        ensures { result ≡ gap_from 1 (filled self.now) }
    {
        self.rise();
        if self.get(0).is_some() {
            1
        } else {
            self.lowest
        }
    }

    /// Their epochs rise, and their ends are numbers of 32 bits.
    pub(crate) fn rise(&self)
        ensures ordered { Ordered (filled self.now) }
        ensures ends { (e : ℕ) (y : Closing) → find e (filled self.now) ≡ Some y → y.end < 2 ^ 32 }
    {
        let _ = self.map.len();
    }

    /// Makes a place for the epoch where nothing stands under it. Without memory nothing changes.
    pub(crate) fn reserve(&mut self, epoch: u32) -> Result<(), NoMemory>
        ensures same { filled self.new ≡ filled self.old }
        ensures place { OnOk result (has_place epoch self.new ≡ true) }
    {
        reserve(&mut self.map, epoch)
    }

    /// Puts the summary under its epoch, which has a summary or a place, and raises the lowest epoch without one.
    pub(crate) fn put(&mut self, epoch: u32, summary: Summary)
        requires { has_place epoch self.old ≡ true }
        ensures { filled self.new ≡ put epoch summary (filled self.old) }
    {
        let _ = end_of(&summary);
        let _ = self.map.insert(epoch, Some(summary));
        self.lowest = lowest_from(&self.map, self.lowest);
    }
}

/// The lowest epoch from one on that has no summary. It looks up each epoch that it passes, and goes on from the one
/// kept before, so that all calls for a map together pass each of its epochs once.
fn lowest_from(map: &BTreeMap<u32, Option<Summary>>, from: u64) -> u64
    requires { AreEpochs map.now.entries }
    ensures from { from ≤ result }
    ensures below { AreClean from result (filled map.now.entries) }
    ensures absent { find result (filled map.now.entries) ≡ None }
{
    let _ = map.len();
    let mut lowest = from;
    'epochs: while has_summary(map, lowest) {
        lowest += 1;
    }
    lowest
}

/// Whether the epoch has a summary.
fn has_summary(map: &BTreeMap<u32, Option<Summary>>, epoch: u64) -> bool
    requires { AreEpochs map.now.entries }
    ensures { result ≡ is_some (find epoch (filled map.now.entries)) }
{
    let _ = map.len();
    if u64::from(u32::MAX) < epoch {
        return false;
    }
    match map.get(&(epoch as u32)) {
        Some(place) => place.is_some(),
        None => false,
    }
}

/// The end of an epoch, by its summary.
fn end_of(summary: &Summary) -> u32
    ensures { result ≡ summary.now.end }
{
    summary.end
}
