// One log's epochs, what is fixed for each, and the summaries of its closed ones.
ghost use Rattle.std.specs.Prelude.{◌≡◌, ◌≤◌, ◌<◌, ◌+◌, ◌-◌, ◌^◌, ◌↔◌, ℕ, min, IfSome, IsSome, OnOk, true, is_some};
ghost use Rattle.ld_table.specs.Table.{find};
ghost use Rattle.ld_ids.specs.Id.{IsNode};
ghost use Rattle.ld_msg.specs.Bounds.{IsSummary};
ghost use Rattle.ld_msg.specs.Register.{no_epochs, next_epoch, closed_epochs, epoch_shown, swap_count, closed_upto, swapped_epochs};
ghost use Rattle.ld_register.specs.Bounds.{IsSpecFor};
ghost use Rattle.ld_register.specs.Changes.{unfixed_epoch};
ghost use Rattle.ld_register.specs.Kept.{shown_log, is_held, IsLogOf};

use crate::fixed::{Fixed, count_swaps, swap_all};
use ld_ids::{NoMemory, NodeId, Spec};
use ld_msg::Summary;
use std::alloc::Global;
use std::collections::BTreeMap;
use std::marker::Model;

/// One log's greatest epoch, its last closed one, how many swaps there were, what is fixed for each epoch, and the summaries
/// of the closed ones. What is fixed for an epoch above the greatest one is room for it, and so is a summary above the last
/// closed epoch.
#[derive(Drop)]
pub(crate) struct LogState {
    epoch: u32,
    lce: u32,
    swaps: u32,
    fixed: BTreeMap<u32, Fixed>,
    summaries: BTreeMap<u32, Summary>,
}

impl Model for LogState {
    ghost use Rattle.ld_msg.specs.Register.{Epochs};
    ghost use Rattle.ld_register.specs.Kept.{IsLogSound, fixed_in, swapped_in};

    ghost Value = { Epochs };

    ghost view = { λ a. record { epoch = a.epoch; lce = a.lce; specs = fixed_in a.fixed.entries; swapped = swapped_in a.fixed.entries; swaps = a.swaps; summaries = a.summaries.entries } };

    ghost invariant = { λ a. IsLogSound (record { epoch = a.epoch; lce = a.lce; specs = fixed_in a.fixed.entries; swapped = swapped_in a.fixed.entries; swaps = a.swaps; summaries = a.summaries.entries }) };
}

impl LogState {
    /// Room for a log.
    pub(crate) fn new(alloc: Global) -> LogState
        ensures { result ≡ no_epochs }
    {
        LogState {
            epoch: 0,
            lce: 0,
            swaps: 0,
            fixed: BTreeMap::new(alloc),
            summaries: BTreeMap::new(alloc),
        }
    }

    /// Whether an epoch was handed out or closed, or there was a swap.
    pub(crate) fn is_held(&self) -> bool
        ensures { result ≡ is_held self.now }
    {
        0 < self.epoch || 0 < self.lce || 0 < self.swaps
    }

    /// The greatest epoch.
    pub(crate) fn epoch(&self) -> u32
        ensures value { result ≡ self.now.epoch }
        ensures bound { result ≤ 2 ^ 32 - 2 }
    {
        self.epoch
    }

    /// The last closed epoch.
    pub(crate) fn lce(&self) -> u32
        ensures value { result ≡ self.now.lce }
        ensures bound { result ≤ 2 ^ 32 - 2 }
    {
        self.lce
    }

    /// How many swaps there were.
    pub(crate) fn swaps(&self) -> u32
        ensures { result ≡ self.now.swaps }
    {
        self.swaps
    }

    /// What is fixed for an epoch, as swaps left it; for the greatest one where that isn't handed out.
    pub(crate) fn spec(&self, e: u32) -> Option<Spec>
        ensures value { result ≡ find (epoch_shown (shown_log self.now) e) (shown_log self.now).swapped }
        ensures sound { (l : ℕ) → IsLogOf l self.now → IfSome result (IsSpecFor l) }
    {
        let shown = self.shown(e);
        if shown == 0 {
            return None;
        }
        match self.fixed.get(&shown) {
            Some(fixed) => Some(fixed.swapped),
            None => None,
        }
    }

    /// The epoch of which is told what is fixed.
    fn shown(&self, e: u32) -> u32
        ensures value { result ≡ epoch_shown self.now e }
        ensures bound { result ≤ self.now.epoch }
    {
        if e == 0 || self.epoch < e {
            return self.epoch;
        }
        e
    }

    /// The summary of an epoch, where it is closed.
    pub(crate) fn summary(&self, e: u32) -> Option<Summary>
        ensures value { result ≡ find e (shown_log self.now).summaries }
        ensures shown { IsSome result ↔ ((1 ≤ e) × (e ≤ self.now.lce)) }
        ensures sound { IfSome result (IsSummary e) }
    {
        if e == 0 || self.lce < e {
            return None;
        }
        self.summaries.get(&e).copied()
    }

    /// Makes room for what is fixed for an epoch above the greatest one. Without memory nothing changes.
    pub(crate) fn room_for_spec(&mut self, e: u32, spec: &Spec) -> Result<(), NoMemory>
        requires above { self.old.epoch < e }
        ensures same { shown_log self.new ≡ shown_log self.old }
        ensures room { OnOk result (is_some (find e self.new.specs) ≡ true) }
        ensures of { (l : ℕ) → IsSpecFor l spec.now → IsLogOf l self.old → IsLogOf l self.new }
    {
        self.fixed.insert(e, Fixed::new(spec))?;
        Ok(())
    }

    /// Makes room for the summary of an epoch above the last closed one. Without memory nothing changes.
    pub(crate) fn room_for_summary(&mut self, e: u32, summary: &Summary) -> Result<(), NoMemory>
        requires above { self.old.lce < e }
        requires summary { IsSummary e summary.now }
        ensures same { shown_log self.new ≡ shown_log self.old }
        ensures room { OnOk result (is_some (find e self.new.summaries) ≡ true) }
        ensures of { (l : ℕ) → IsLogOf l self.old → IsLogOf l self.new }
    {
        self.summaries.insert(e, *summary)?;
        Ok(())
    }

    /// Hands out the next epoch with what is fixed for it, for which there is room.
    pub(crate) fn activate(&mut self, e: u32, spec: &Spec)
        requires next { e ≡ self.old.epoch + 1 }
        requires bound { e ≤ 2 ^ 32 - 2 }
        requires room { is_some (find e self.old.specs) ≡ true }
        ensures shown { shown_log self.new ≡ next_epoch (shown_log self.old) spec.now }
        ensures of { (l : ℕ) → IsSpecFor l spec.now → IsLogOf l self.old → IsLogOf l self.new }
    {
        let _ = self.fixed.insert(e, Fixed::new(spec));
        self.epoch = e;
    }

    /// Hands out the next epoch, for which nothing is fixed.
    pub(crate) fn activate_unfixed(&mut self, e: u32)
        requires next { e ≡ self.old.epoch + 1 }
        requires bound { e ≤ 2 ^ 32 - 2 }
        ensures shown { shown_log self.new ≡ unfixed_epoch (shown_log self.old) }
        ensures of { (l : ℕ) → IsLogOf l self.old → IsLogOf l self.new }
    {
        let _ = self.fixed.len();
        let _ = self.fixed.remove(&e);
        self.epoch = e;
    }

    /// Closes the epoch behind the last closed one, for whose summary there is room.
    pub(crate) fn close(&mut self, e: u32, summary: &Summary)
        requires next { e ≡ self.old.lce + 1 }
        requires summary { IsSummary e summary.now }
        requires room { is_some (find e self.old.summaries) ≡ true }
        ensures shown { shown_log self.new ≡ closed_epochs (shown_log self.old) e summary.now }
        ensures of { (l : ℕ) → IsLogOf l self.old → IsLogOf l self.new }
    {
        let _ = self.summaries.insert(e, *summary);
        self.lce = e;
    }

    /// In how many closed epochs up to one a swap would put the spare in the place of the member.
    pub(crate) fn swappable(&self, upto: u32, member: NodeId, spare: NodeId) -> u32
        ensures { result ≡ swap_count (closed_upto (shown_log self.now) upto) member spare (shown_log self.now).swapped }
    {
        count_swaps(&self.fixed, self.last_swapped(upto), member, spare)
    }

    /// Puts the spare in the place of the member in each closed epoch up to one that has the member and lacks the spare.
    pub(crate) fn swap(&mut self, upto: u32, member: NodeId, spare: NodeId)
        requires left { self.old.swaps < 2 ^ 32 - 1 }
        requires nodes { IsNode member × IsNode spare }
        ensures shown { shown_log self.new ≡ swapped_epochs (shown_log self.old) upto member spare }
        ensures of { (l : ℕ) → IsLogOf l self.old → IsLogOf l self.new }
    {
        let last = self.last_swapped(upto);
        swap_all(&mut self.fixed, last, member, spare);
        self.swaps += 1;
    }

    /// The last epoch up to one that was handed out and is closed.
    fn last_swapped(&self, upto: u32) -> u32
        ensures value { result ≡ min (min upto self.now.lce) self.now.epoch }
        ensures bound { result ≤ 2 ^ 32 - 2 }
    {
        upto.min(self.lce).min(self.epoch)
    }
}
