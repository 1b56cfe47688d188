// A node's plain state: what its journal's ops add up to.
ghost use Rattle.std.specs.Prelude.{◌≡◌, ◌<◌, ◌+◌, ◌^◌, [], None, OnOk, IfOk, option_copied, map, take};
ghost use Rattle.ld_table.specs.Table.{find, Ordered};
ghost use Rattle.ld_table.specs.Words.{first};
ghost use Rattle.ld_op.specs.Plain.{empty_log, unformatted, log_of, summary_at, lng_at, is_lost, end_here, apply, lost_logs, op_length};
ghost use Rattle.ld_op.specs.Cells.{placed};
ghost use Rattle.ld_op.specs.Room.{HasRoom, held_log, log_named, there_of};
ghost use Rattle.ld_op.specs.Rising.{IsRising};
ghost use Rattle.ld_op.specs.Picks.{picked, carried};
ghost use Rattle.ld_op.specs.Ticks.{lowest_unclean, missing};
ghost use Rattle.ld_op.specs.Answers.{page_limit, page_upto};

use crate::carries::All;
use crate::log::{LogState, epoch_zero};
use crate::logs::LogMap;
use crate::{Carries, Excerpt, Op, Pointed, Pointers};
use ld_ids::{LogId, NoMemory};
use ld_lsn::Lsn;
use ld_msg::Summary;
use std::alloc::Global;
use std::marker::Model;
use std::mem;

/// The plain state of a node. Contracts see it as the state itself, and beside it the room that
/// was made for ops to come.
#[derive(Drop)]
pub struct Plain {
    generation: u32,
    logs: LogMap,
    fresh: LogMap,
}

impl Model for Plain {
    ghost use Rattle.ld_op.specs.Room.{Kept};

    ghost Value = { Kept };

    ghost use Rattle.ld_op.specs.ShownPlain.{shown};

    ghost view = { shown };
}

impl Plain {
    /// A store that isn't formatted yet.
    #[tactic(auto, unfolding(crate::specs::Places::filled))]
    pub fn new(alloc: Global) -> Plain
        ensures { result.state ≡ unformatted }
    {
        Plain {
            generation: 0,
            logs: LogMap::new(alloc),
            fresh: LogMap::new(alloc),
        }
    }

    /// A store of the generation, with these logs.
    pub(crate) fn with(alloc: Global, generation: u32, logs: LogMap) -> Plain
        ensures { result.state ≡ record { generation = generation; logs = there_of logs } }
    {
        Plain {
            generation,
            logs,
            fresh: LogMap::new(alloc),
        }
    }

    /// The logs.
    pub(crate) fn logs(&self) -> &LogMap
        ensures { there_of result.now ≡ self.now.state.logs }
    {
        &self.logs
    }

    /// The generation, 0 before the store is formatted.
    pub fn generation(&self) -> u32
        ensures { result ≡ self.now.state.generation }
    {
        self.generation
    }

    /// The greatest ballot that the log has seen.
    pub fn sealed(&self, log: LogId) -> u32
        ensures { result ≡ (log_of self.now.state log).sealed }
    {
        match self.log(log) {
            Some(state) => state.sealed(),
            None => 0,
        }
    }

    /// All of the log up to this number is trimmed.
    pub fn trim(&self, log: LogId) -> Lsn
        ensures { result ≡ (log_of self.now.state log).trim }
    {
        match self.log(log) {
            Some(state) => state.trim(),
            None => Lsn::from_u64(0),
        }
    }

    /// The entry of the log under the number.
    #[tactic(auto, using(ld_table::proofs::Laws::table_rules))]
    pub fn entry(&self, log: LogId, number: Lsn) -> Option<&Pointed>
        ensures { option_copied result ≡ find number (log_of self.now.state log).entries }
    {
        match self.log(log) {
            Some(state) => state.entry(number),
            None => None,
        }
    }

    /// The summary of the epoch, where it is clean here. Epoch 0 always is.
    pub fn summary(&self, log: LogId, epoch: u32) -> Option<Summary>
        ensures { result ≡ summary_at (log_of self.now.state log) epoch }
    {
        match self.log(log) {
            Some(state) => state.summary(epoch),
            None => no_summary(epoch),
        }
    }

    /// The summary that is kept of the epoch. Of epoch 0, which is clean everywhere, none needs to be kept.
    #[tactic(auto, using(ld_table::proofs::Laws::table_rules))]
    pub fn kept_summary(&self, log: LogId, epoch: u32) -> Option<Summary>
        ensures { result ≡ find epoch (log_of self.now.state log).summaries }
    {
        match self.log(log) {
            Some(state) => state.kept_summary(epoch),
            None => None,
        }
    }

    /// The last known good offset that stores told of the epoch, 0 where none did or the epoch is clean here.
    #[tactic(auto, using(ld_table::proofs::Laws::table_rules))]
    pub fn lng(&self, log: LogId, epoch: u32) -> u32
        ensures { result ≡ lng_at (log_of self.now.state log) epoch }
    {
        match self.log(log) {
            Some(state) => state.lng(epoch),
            None => 0,
        }
    }

    /// The lowest number of the log that is missing: it stands above the trim and below the end of a clean epoch that was
    /// lost, and has no entry. Each op looks for it from where it was, so that here it takes logarithmic time.
    #[tactic(auto, unfolding(crate::specs::Ticks::missing))]
    pub fn first_missing(&self, log: LogId) -> Option<Lsn>
        ensures { result ≡ first (missing (log_of self.now.state log)) }
    {
        match self.log(log) {
            Some(state) => state.first_missing(),
            None => None,
        }
    }

    /// The lowest epoch of the log from one on that isn't clean here. It takes time in the logarithm of the number of
    /// clean epochs, and of the number of logs.
    pub fn lowest_unclean(&self, log: LogId) -> u64
        ensures { result ≡ lowest_unclean (log_of self.now.state log) }
    {
        match self.log(log) {
            Some(state) => state.lowest_unclean(),
            None => 1,
        }
    }

    /// Whether entries of the log are lost here.
    pub fn is_lost(&self, log: LogId) -> bool
        ensures { result ≡ (log_of self.now.state log).lost }
    {
        match self.log(log) {
            Some(state) => state.is_lost(),
            None => false,
        }
    }

    /// The epoch up to which entries were lost here, kept once they are refilled.
    pub fn lost_to(&self, log: LogId) -> u32
        ensures { result ≡ (log_of self.now.state log).lost_to }
    {
        match self.log(log) {
            Some(state) => state.lost_to(),
            None => 0,
        }
    }

    /// Whether entries of the epoch are lost here.
    pub fn is_lost_in(&self, log: LogId, epoch: u32) -> bool
        ensures { result ≡ is_lost (log_of self.now.state log) epoch }
    {
        self.is_lost(log) && 0 < epoch && epoch <= self.lost_to(log)
    }

    /// The end of an epoch that is clean here, else 0.
    pub fn end_of(&self, log: LogId, epoch: u32) -> Lsn
        ensures { result ≡ end_here (log_of self.now.state log) epoch }
    {
        match self.summary(log, epoch) {
            Some(summary) => Lsn::new(epoch, summary.end),
            None => Lsn::from_u64(0),
        }
    }

    /// The first entries of the log from one number to another, at most 64, with or without bridges,
    /// and the number up to which there are no others. Takes time in what it gives and leaves out,
    /// not in all entries of the log.
    pub fn excerpt(
        &self,
        alloc: Global,
        log: LogId,
        from: Lsn,
        last: Lsn,
        bridges: bool,
    ) -> Result<Excerpt, NoMemory>
        ensures entries { IfOk result (λ page. page.entries ≡ take page_limit (picked bridges (log_of self.now.state log).entries from last)) }
        ensures upto { IfOk result (λ page. page.upto ≡ page_upto (picked bridges (log_of self.now.state log).entries from last) last) }
    {
        self.excerpt_of(alloc, log, from, last, bridges, &All)
    }

    /// The same with the payloads of those records that are carried, and no others.
    #[tactic(auto, using(crate::proofs::Pages::picked_rules))]
    pub fn excerpt_of<C: Carries>(
        &self,
        alloc: Global,
        log: LogId,
        from: Lsn,
        last: Lsn,
        bridges: bool,
        carries: &C,
    ) -> Result<Excerpt, NoMemory>
        ensures entries { IfOk result (λ page. page.entries ≡ map (λ e. carried (C.carries carries.now e.number) e) (take page_limit (picked bridges (log_of self.now.state log).entries from last))) }
        ensures upto { IfOk result (λ page. page.upto ≡ page_upto (picked bridges (log_of self.now.state log).entries from last) last) }
    {
        match self.log(log) {
            Some(state) => state.excerpt(alloc, from, last, bridges, carries),
            None => Ok(Excerpt {
                entries: Pointers::empty(alloc),
                upto: last,
            }),
        }
    }

    fn log(&self, log: LogId) -> Option<&LogState>
        ensures { held_log (option_copied result) ≡ log_of self.now.state log }
    {
        self.logs.get(log)
    }

    /// Makes room for an op. Without memory the plain state stays as it was.
    pub fn room(&mut self, alloc: Global, op: &Op) -> Result<(), NoMemory>
        requires { IsRising op.now }
        ensures same { self.new.state ≡ self.old.state }
        ensures room { OnOk result (HasRoom self.new op.now) }
    {
        match op.log() {
            Some(log) => self.logs.room(alloc, log, op),
            None => self.room_afresh(alloc, op),
        }
    }

    /// Applies an op, for which there is room, and whose body stands from this offset of the disk on.
    pub fn apply(&mut self, op: Op, at: u64)
        requires room { HasRoom self.old op }
        requires fits { at + op_length op < 2 ^ 64 }
        ensures { self.new.state ≡ apply self.old.state (placed at op) }
    {
        match op.log() {
            Some(log) => self.logs.apply(log, op, at),
            None => {
                if let Op::Format { generation, .. } = op {
                    self.generation = generation;
                    mem::swap(&mut self.logs, &mut self.fresh);
                }
            }
        }
    }

    /// Makes the logs of a format.
    fn room_afresh(&mut self, alloc: Global, op: &Op) -> Result<(), NoMemory>
        requires names { log_named op.now ≡ None }
        requires rising { IsRising op.now }
        ensures same { self.new.state ≡ self.old.state }
        ensures room { OnOk result (HasRoom self.new op.now) }
    {
        self.fresh.clear();
        if let Op::Format { epochs, .. } = op {
            add_lost(alloc, &mut self.fresh, epochs.as_slice())?;
        }
        Ok(())
    }
}

/// What is known of the epochs of a log that isn't there.
#[tactic(auto, unfolding(crate::specs::Plain::summary_at, ld_table::specs::Table::find))]
fn no_summary(epoch: u32) -> Option<Summary>
    ensures { result ≡ summary_at empty_log epoch }
{
    if epoch == 0 { Some(epoch_zero()) } else { None }
}

/// Adds logs that are lost up to their epochs.
fn add_lost(alloc: Global, logs: &mut LogMap, epochs: &[(LogId, u32)]) -> Result<(), NoMemory>
    requires none { logs.old ≡ [] }
    requires rising { Ordered epochs.now }
    ensures { OnOk result (there_of logs.new ≡ lost_logs epochs.now) }
{
    for (log, epoch) in epochs {
        logs.add(*log, LogState::lost(alloc, *epoch))?;
    }
    Ok(())
}
