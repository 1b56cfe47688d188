// One log's part of a node's plain state.
ghost use Rattle.std.specs.Prelude.{◌≡◌, ◌≢◌, ◌<◌, ◌+◌, ◌^◌, true, false, None, OnOk, IfOk, option_copied, map, take};
ghost use Rattle.ld_table.specs.Table.{find, first_from, Ordered};
ghost use Rattle.ld_lsn.specs.Number.{epoch_of};
ghost use Rattle.ld_op.specs.Plain.{empty_log, epoch_zero, summary_at, lng_at, lost_log, accepted, sealed_by, cleaned, trimmed_to, refilled_with, refilled, entries_length, op_length};
ghost use Rattle.ld_op.specs.Cells.{placed, placed_entries};
ghost use Rattle.ld_op.specs.Places.{filled, has_place};
ghost use Rattle.ld_op.specs.Picks.{picked, carried};
ghost use Rattle.ld_op.specs.Ticks.{lowest_unclean};
ghost use Rattle.ld_op.specs.Answers.{page_limit, page_upto};
ghost use Rattle.ld_op.specs.Whole.{EndInEpochs};
ghost use Rattle.ld_op.specs.Room.{log_after, log_has_room, log_named, have_places};

use crate::entries::EntryMap;
use crate::known_good::KnownGood;
use crate::pointed::Pointed;
use crate::summaries::SummaryMap;
use crate::{Carries, Excerpt, Op};
use ld_ids::NoMemory;
use ld_lsn::Lsn;
use ld_msg::{Entry, Summary};
use std::alloc::Global;
use std::marker::Model;

/// One log's state. One that isn't there yet is room for it. It keeps up to where no number is missing, so that to look
/// for the lowest that is takes no walk over those before it.
#[derive(Drop)]
pub(crate) struct LogState {
    there: bool,
    sealed: u32,
    trim: Lsn,
    entries: EntryMap,
    summaries: SummaryMap,
    lngs: KnownGood,
    lost: bool,
    lost_to: u32,
    pub(crate) whole: Lsn,
}

impl Model for LogState {
    ghost use Rattle.std.specs.Prelude.{◌≡◌, false};
    ghost use Rattle.ld_op.specs.Room.{Held};
    ghost use Rattle.ld_op.specs.Plain.{Log, empty_log};
    ghost use Rattle.ld_op.specs.Places.{filled};

    ghost Value = { Held };

    ghost use Rattle.ld_op.specs.Shown.{shown_log, shown};
    ghost use Rattle.ld_op.specs.Whole.{IsWhole};

    ghost view = { shown };

    ghost invariant = { λ a. record { empty : a.there ≡ false → shown_log a ≡ empty_log; whole : IsWhole (shown_log a) a.whole } };
}

impl LogState {
    /// Room for a log.
    #[tactic(auto, unfolding(crate::specs::Places::filled))]
    pub(crate) fn new(alloc: Global) -> LogState
        ensures there { result.there ≡ false }
        ensures log { result.log ≡ empty_log }
    {
        LogState {
            there: false,
            sealed: 0,
            trim: Lsn::from_u64(0),
            entries: EntryMap::new(alloc),
            summaries: SummaryMap::new(alloc),
            lngs: KnownGood::new(alloc),
            lost: false,
            lost_to: 0,
            whole: Lsn::from_u64(0),
        }
    }

    /// A log that is lost up to an epoch.
    #[tactic(auto, unfolding(crate::specs::Places::filled))]
    pub(crate) fn lost(alloc: Global, epoch: u32) -> LogState
        ensures there { result.there ≡ true }
        ensures log { result.log ≡ lost_log epoch }
    {
        LogState {
            there: true,
            sealed: 0,
            trim: Lsn::from_u64(0),
            entries: EntryMap::new(alloc),
            summaries: SummaryMap::new(alloc),
            lngs: KnownGood::new(alloc),
            lost: 0 < epoch,
            lost_to: epoch,
            whole: Lsn::from_u64(0),
        }
    }

    /// A log that holds this.
    pub(crate) fn with(
        sealed: u32,
        trim: Lsn,
        lost: bool,
        lost_to: u32,
        summaries: SummaryMap,
        lngs: KnownGood,
        entries: EntryMap,
    ) -> LogState
        ensures there { result.there ≡ true }
        ensures log { result.log ≡ record { sealed = sealed; trim = trim; entries = filled entries; summaries = filled summaries; lngs = filled lngs; lost = lost; lost_to = lost_to } }
    {
        let mut state = LogState {
            there: true,
            sealed,
            trim,
            entries,
            summaries,
            lngs,
            lost,
            lost_to,
            whole: Lsn::from_u64(0),
        };
        state.raise();
        state
    }

    /// The summaries of the clean epochs.
    pub(crate) fn summaries(&self) -> &SummaryMap
        ensures { filled result.now ≡ self.now.log.summaries }
    {
        &self.summaries
    }

    /// The last known good offsets.
    pub(crate) fn lngs(&self) -> &KnownGood
        ensures { filled result.now ≡ self.now.log.lngs }
    {
        &self.lngs
    }

    /// The entries.
    pub(crate) fn entries(&self) -> &EntryMap
        ensures { filled result.now ≡ self.now.log.entries }
    {
        &self.entries
    }

    /// Whether the log is there. One that isn't is empty.
    pub(crate) fn is_there(&self) -> bool
        ensures value { result ≡ self.now.there }
        ensures empty { self.now.there ≡ false → self.now.log ≡ empty_log }
    {
        self.there
    }

    /// The greatest ballot seen.
    pub(crate) fn sealed(&self) -> u32
        ensures { result ≡ self.now.log.sealed }
    {
        self.sealed
    }

    /// All up to this number is trimmed.
    pub(crate) fn trim(&self) -> Lsn
        ensures { result ≡ self.now.log.trim }
    {
        self.trim
    }

    /// The entry under the number.
    pub(crate) fn entry(&self, number: Lsn) -> Option<&Pointed>
        ensures { option_copied result ≡ find number self.now.log.entries }
    {
        self.entries.get(number.value())
    }

    /// The summary of the epoch, where it is clean here.
    #[tactic(auto, unfolding(crate::specs::Plain::summary_at))]
    pub(crate) fn summary(&self, epoch: u32) -> Option<Summary>
        ensures { result ≡ summary_at self.now.log epoch }
    {
        if epoch == 0 {
            return Some(epoch_zero());
        }
        self.summaries.get(epoch)
    }

    /// The first clean epoch from one on, 1 at least, and its summary.
    pub(crate) fn clean_from(&self, epoch: u32) -> Option<(u32, Summary)>
        ensures { result ≡ first_from epoch self.now.log.summaries }
    {
        self.summaries.first_from(epoch)
    }

    /// The summary that is kept of the epoch.
    pub(crate) fn kept_summary(&self, epoch: u32) -> Option<Summary>
        ensures { result ≡ find epoch self.now.log.summaries }
    {
        self.summaries.get(epoch)
    }

    /// The last known good offset that is kept of the epoch, 0 where none is.
    pub(crate) fn lng(&self, epoch: u32) -> u32
        ensures { result ≡ lng_at self.now.log epoch }
    {
        self.lngs.get(epoch)
    }

    /// The epochs of the summaries rise, and their ends are offsets of an epoch.
    pub(crate) fn summaries_rise(&self)
        ensures ordered { Ordered self.now.log.summaries }
        ensures ends { EndInEpochs self.now.log }
    {
        self.summaries.rise();
    }

    /// The lowest epoch from one on that isn't clean here. It takes time in the logarithm of the number of clean epochs.
    pub(crate) fn lowest_unclean(&self) -> u64
        ensures { result ≡ lowest_unclean self.now.log }
    {
        self.summaries.lowest_unclean()
    }

    /// Whether something is lost here.
    pub(crate) fn is_lost(&self) -> bool
        ensures { result ≡ self.now.log.lost }
    {
        self.lost
    }

    /// The epoch up to which entries were lost, kept once they are refilled.
    pub(crate) fn lost_to(&self) -> u32
        ensures { result ≡ self.now.log.lost_to }
    {
        self.lost_to
    }

    /// The first entries from one number to another, with or without bridges, and the payloads of those records that are
    /// carried.
    pub(crate) fn excerpt<C: Carries>(
        &self,
        alloc: Global,
        from: Lsn,
        last: Lsn,
        bridges: bool,
        carries: &C,
    ) -> Result<Excerpt, NoMemory>
        ensures entries { IfOk result (λ page. page.entries ≡ map (λ e. carried (C.carries carries.now e.number) e) (take page_limit (picked bridges self.now.log.entries from last))) }
        ensures upto { IfOk result (λ page. page.upto ≡ page_upto (picked bridges self.now.log.entries from last) last) }
    {
        self.entries
            .excerpt(alloc, from.value(), last.value(), bridges, carries)
    }

    /// Takes an entry, which has a place, and a last known good offset of its epoch, which has one too.
    fn accept(&mut self, lng: u32, entry: Pointed)
        requires entry { has_place entry.number self.old.places ≡ true }
        requires lng { has_place (epoch_of entry.number) self.old.lngs ≡ true }
        ensures log { self.new.log ≡ accepted self.old.log lng entry }
        ensures there { self.new.there ≡ true }
    {
        self.entries.numbers_agree();
        self.there = true;
        self.sealed = entry.ballot();
        self.whole = self.whole.earlier(entry.number());
        self.lngs.raise(entry.number().epoch(), lng);
        self.entries.accept(entry);
    }

    /// Is sealed by a ballot.
    fn seal(&mut self, ballot: u32)
        ensures log { self.new.log ≡ sealed_by self.old.log ballot }
        ensures there { self.new.there ≡ true }
    {
        self.there = true;
        self.sealed = ballot;
    }

    /// Trims up to a number.
    fn trim_to(&mut self, trim: Lsn)
        ensures log { self.new.log ≡ trimmed_to self.old.log trim }
        ensures there { self.new.there ≡ true }
    {
        self.there = true;
        self.trim = self.trim.later(trim);
        self.entries.trim(self.trim.value());
    }

    /// Closes an epoch, whose summary has a place.
    fn close(&mut self, epoch: u32, summary: Summary)
        requires { has_place epoch self.old.epochs ≡ true }
        ensures log { self.new.log ≡ cleaned self.old.log epoch summary }
        ensures there { self.new.there ≡ true }
    {
        self.entries.numbers_agree();
        self.there = true;
        self.trim = self.trim.later(summary.trim);
        self.whole = self.whole.earlier(Lsn::new(epoch, 0));
        self.entries.close(self.trim.value(), epoch, &summary);
        self.summaries.put(epoch, summary);
        self.lngs.forget(epoch);
    }

    /// Nothing is missing any more.
    fn end_loss(&mut self)
        ensures log { self.new.log ≡ refilled self.old.log }
        ensures there { self.new.there ≡ true }
    {
        self.there = true;
        self.lost = false;
    }

    /// Takes entries that were missing, each of which has a place, and whose bytes stand from this offset of the disk on.
    fn refill(&mut self, entries: &[Entry], at: u64)
        requires places { have_places entries.now self.old.places ≡ true }
        requires fits { at + entries_length entries.now < 2 ^ 64 }
        ensures log { self.new.log ≡ refilled_with self.old.log (placed_entries at entries.now) }
        ensures there { self.new.there ≡ true }
    {
        self.there = true;
        self.entries.refill(entries, at);
    }

    /// Looks for the number again up to which nothing is missing.
    fn raise(&mut self)
        ensures log { self.new.log ≡ self.old.log }
        ensures there { self.new.there ≡ self.old.there }
    {
        self.whole = match self.first_missing() {
            Some(number) => number,
            None => Lsn::from_u64(u64::MAX),
        };
    }

    /// Makes offsets for what an op adds. Without memory nothing changes.
    pub(crate) fn room(&mut self, op: &Op) -> Result<(), NoMemory>
        ensures there { self.new.there ≡ self.old.there }
        ensures log { self.new.log ≡ self.old.log }
        ensures room { OnOk result (log_has_room self.new op.now ≡ true) }
    {
        match op {
            Op::Accept { entry, .. } => {
                self.entries.reserve(entry.number.value())?;
                self.lngs.reserve(entry.number.epoch())
            }
            Op::Clean { epoch, .. } => self.summaries.reserve(*epoch),
            Op::Refill { entries, .. } => self.entries.reserve_all(entries.as_slice()),
            Op::Format { .. } => Ok(()),
            Op::Seal { .. } => Ok(()),
            Op::Trim { .. } => Ok(()),
            Op::Refilled { .. } => Ok(()),
        }
    }

    /// Applies an op of this log, for which there is room, and whose body stands from this offset of the disk on.
    pub(crate) fn apply(&mut self, op: Op, at: u64)
        requires room { log_has_room self.old op ≡ true }
        requires names { log_named op ≢ None }
        requires fits { at + op_length op < 2 ^ 64 }
        ensures log { self.new.log ≡ log_after self.old.log (placed at op) }
        ensures there { self.new.there ≡ true }
        ensures was { self.old.there ≡ false → self.old.log ≡ empty_log }
    {
        self.change(op, at);
        self.raise();
    }

    /// Changes what an op of this log changes.
    #[tactic(auto, unfolding(crate::specs::Plain::op_length))]
    fn change(&mut self, op: Op, at: u64)
        requires room { log_has_room self.old op ≡ true }
        requires names { log_named op ≢ None }
        requires fits { at + op_length op < 2 ^ 64 }
        ensures log { self.new.log ≡ log_after self.old.log (placed at op) }
        ensures there { self.new.there ≡ true }
        ensures was { self.old.there ≡ false → self.old.log ≡ empty_log }
    {
        let _ = self.is_there();
        match op {
            Op::Format { .. } => {}
            Op::Accept { lng, entry, .. } => self.accept(lng, Pointed::at(&entry, at + 9)),
            Op::Seal { ballot, .. } => self.seal(ballot),
            Op::Clean { epoch, summary, .. } => self.close(epoch, summary),
            Op::Trim { trim, .. } => self.trim_to(trim),
            Op::Refill { entries, .. } => self.refill(entries.as_slice(), at + 7),
            Op::Refilled { .. } => self.end_loss(),
        }
    }
}

/// The summary of epoch 0, which is closed and clean everywhere.
pub(crate) fn epoch_zero() -> Summary
    ensures { result ≡ epoch_zero }
{
    Summary {
        ballot: 0,
        lng: 0,
        trim: Lsn::from_u64(0),
        end: 1,
        loss: false,
    }
}
