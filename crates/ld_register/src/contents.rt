// What a register holds, kept in memory.
ghost use Rattle.std.specs.Prelude.{◌≡◌, ◌≤◌, ◌<◌, ◌+◌, ◌-◌, ◌^◌, ◌++◌, ◌∷◌, [], ℕ, length, true, not, ◌==◌, ◌&&◌, nat_lt, IfOk, OnOk, IfSome, IsSome, is_some, ◌↔◌};
ghost use Rattle.ld_table.specs.Table.{find, put};
ghost use Rattle.ld_table.specs.Words.{how_many};
ghost use Rattle.ld_ids.specs.Id.{IsLog};
ghost use Rattle.ld_msg.specs.Bounds.{IsSummary};
ghost use Rattle.ld_msg.specs.Register.{record_length, swap_limit, next_epoch, closed_epochs, swapped_epochs, swappable, swap_count, closed_upto, epochs_in, epochs_of, generation_of, summary_shown, is_crowded};
ghost use Rattle.ld_op.specs.Bounds.{AreEpochs};
ghost use Rattle.ld_register.specs.Bounds.{IsSpec, IsSpecFor};
ghost use Rattle.ld_register.specs.Calls.{spec_told};
ghost use Rattle.ld_register.specs.Changes.{IsChange, is_next, changed, body_length, unfixed_epoch};
ghost use Rattle.ld_register.specs.Kept.{Kept, register_of, has_room, shown_logs, shown_generations, is_held, log_at, AreLogs};

use crate::change::Change;
use crate::log::LogState;
use ld_ids::{LogId, NoMemory, NodeId, Spec};
use ld_msg::Summary;
use ld_op::Epochs;
use std::alloc::Global;
use std::collections::BTreeMap;
use std::marker::Model;

/// The greatest number of logs.
const LOG_LIMIT: usize = 64;

/// The logs and the generations of nodes. A log without an epoch, a close and a swap is room for one, and so is generation 0.
#[derive(Drop)]
pub(crate) struct Contents {
    logs: BTreeMap<u32, LogState>,
    generations: BTreeMap<u8, u32>,
}

impl Model for Contents {
    ghost use Rattle.ld_register.specs.Kept.{Kept, AreFewLogs};

    ghost Value = { Kept };

    ghost view = { λ a. record { logs = a.logs.entries; generations = a.generations.entries } };

    ghost invariant = { λ a. AreFewLogs a.logs.entries };
}

impl Contents {
    /// No logs and no generations.
    pub(crate) fn new(alloc: Global) -> Contents
        ensures { result ≡ record { logs = []; generations = [] } }
    {
        Contents {
            logs: BTreeMap::new(alloc),
            generations: BTreeMap::new(alloc),
        }
    }

    /// The log's greatest epoch, 0 where there is none.
    pub(crate) fn epoch(&self, log: LogId) -> u32
        ensures value { (n : ℕ) → result ≡ (epochs_of (register_of self.now n) log).epoch }
        ensures bound { result ≤ 2 ^ 32 - 2 }
    {
        let _ = self.logs.len();
        match self.logs.get(&log.number()) {
            Some(state) => state.epoch(),
            None => 0,
        }
    }

    /// The log's last closed epoch, 0 where there is none.
    pub(crate) fn lce(&self, log: LogId) -> u32
        ensures value { (n : ℕ) → result ≡ (epochs_of (register_of self.now n) log).lce }
        ensures bound { result ≤ 2 ^ 32 - 2 }
    {
        let _ = self.logs.len();
        match self.logs.get(&log.number()) {
            Some(state) => state.lce(),
            None => 0,
        }
    }

    /// How many swaps of the log there were.
    pub(crate) fn swaps(&self, log: LogId) -> u32
        ensures { (n : ℕ) → result ≡ (epochs_of (register_of self.now n) log).swaps }
    {
        let _ = self.logs.len();
        match self.logs.get(&log.number()) {
            Some(state) => state.swaps(),
            None => 0,
        }
    }

    /// In how many closed epochs of the log up to one a swap would put the spare in the place of the member.
    pub(crate) fn swappable(&self, log: LogId, upto: u32, member: NodeId, spare: NodeId) -> u32
        ensures { (n : ℕ) → result ≡ swappable (register_of self.now n) log upto member spare }
    {
        let _ = self.logs.len();
        match self.logs.get(&log.number()) {
            Some(state) => state.swappable(upto, member, spare),
            None => 0,
        }
    }

    /// What is fixed for the log's epoch, as swaps left it; for the greatest one where that isn't handed out.
    pub(crate) fn spec(&self, log: LogId, e: u32) -> Option<Spec>
        ensures value { (n : ℕ) → result ≡ spec_told (register_of self.now n) log e }
        ensures sound { IfSome result (IsSpecFor log) }
    {
        let _ = self.logs.len();
        match self.logs.get(&log.number()) {
            Some(state) => state.spec(e),
            None => None,
        }
    }

    /// The summary of the log's epoch, where it is closed.
    pub(crate) fn summary(&self, log: LogId, e: u32) -> Option<Summary>
        ensures value { (n : ℕ) → result ≡ summary_shown (register_of self.now n) log e }
        ensures shown { (n : ℕ) → IsSome result ↔ ((1 ≤ e) × (e ≤ (epochs_of (register_of self.now n) log).lce)) }
        ensures sound { IfSome result (IsSummary e) }
    {
        let _ = self.logs.len();
        match self.logs.get(&log.number()) {
            Some(state) => state.summary(e),
            None => None,
        }
    }

    /// The node's generation, 0 where there is none.
    pub(crate) fn generation(&self, node: NodeId) -> u32
        ensures { (n : ℕ) → result ≡ generation_of (register_of self.now n) node }
    {
        let _ = self.generations.len();
        self.generations.get(&node.number()).copied().unwrap_or(0)
    }

    /// The epoch of each log that has one, the logs rising.
    pub(crate) fn active(&self, alloc: Global) -> Result<Epochs, NoMemory>
        ensures epochs { IfOk result (λ epochs. (n : ℕ) → epochs ≡ epochs_in (register_of self.now n).logs) }
        ensures bounds { IfOk result (λ epochs. AreEpochs 1 epochs) }
        ensures few { IfOk result (λ epochs. length epochs ≤ 64) }
    {
        let active = active_logs(alloc, &self.logs)?;
        Ok(Epochs::new(active))
    }

    /// Whether a change is the next one of its log or node.
    pub(crate) fn is_next(&self, change: &Change) -> bool
        ensures { (n : ℕ) → result ≡ is_next (register_of self.now n) change.now }
    {
        match change {
            Change::Activate { epoch, spec } => {
                is_behind(self.is_crowded(spec.log), self.epoch(spec.log), *epoch)
            }
            Change::Unfixed { log, epoch } => {
                is_behind(self.is_crowded(*log), self.epoch(*log), *epoch)
            }
            Change::Close { log, epoch, .. } => {
                is_behind(self.is_crowded(*log), self.lce(*log), *epoch)
            }
            Change::Lossless { log, epoch, .. } => {
                is_behind(self.is_crowded(*log), self.lce(*log), *epoch)
            }
            Change::Draw { node, generation } => {
                is_behind(false, self.generation(*node), *generation)
            }
            Change::Swap {
                log,
                upto,
                member,
                spare,
            } => is_swap(
                self.swappable(*log, *upto, *member, *spare),
                self.swaps(*log),
            ),
        }
    }

    /// Makes room for a change that is the next one. Without memory nothing changes.
    pub(crate) fn room(&mut self, alloc: Global, change: &Change) -> Result<(), NoMemory>
        requires is { IsChange change.now }
        requires next { is_next (register_of self.old 0) change.now ≡ true }
        ensures same { (n : ℕ) → register_of self.new n ≡ register_of self.old n }
        ensures room { OnOk result (has_room self.new change.now ≡ true) }
    {
        match change {
            Change::Activate { epoch, spec } => {
                room_for_log(alloc, &mut self.logs, spec.log)?;
                room_for_spec(&mut self.logs, *epoch, spec)
            }
            Change::Unfixed { log, .. } => room_for_log(alloc, &mut self.logs, *log),
            Change::Close {
                log,
                epoch,
                summary,
            } => {
                room_for_log(alloc, &mut self.logs, *log)?;
                room_for_summary(&mut self.logs, *log, *epoch, summary)
            }
            Change::Lossless {
                log,
                epoch,
                summary,
            } => {
                room_for_log(alloc, &mut self.logs, *log)?;
                room_for_summary(&mut self.logs, *log, *epoch, summary)
            }
            Change::Draw { node, .. } => room_for_node(&mut self.generations, *node),
            Change::Swap { log, .. } => room_for_log(alloc, &mut self.logs, *log),
        }
    }

    /// Makes a change that is the next one, for which there is room.
    pub(crate) fn apply(&mut self, change: &Change)
        requires is { IsChange change.now }
        requires next { is_next (register_of self.old 0) change.now ≡ true }
        requires room { has_room self.old change.now ≡ true }
        ensures { (n m : ℕ) → m ≡ n + record_length (body_length change.now) → register_of self.new m ≡ changed (register_of self.old n) change.now }
    {
        match change {
            Change::Activate { epoch, spec } => activate_in(&mut self.logs, *epoch, spec),
            Change::Unfixed { log, epoch } => activate_unfixed_in(&mut self.logs, *log, *epoch),
            Change::Close {
                log,
                epoch,
                summary,
            } => close_in(&mut self.logs, *log, *epoch, summary),
            Change::Lossless {
                log,
                epoch,
                summary,
            } => close_in(&mut self.logs, *log, *epoch, summary),
            Change::Draw { node, generation } => draw_in(&mut self.generations, *node, *generation),
            Change::Swap {
                log,
                upto,
                member,
                spare,
            } => swap_in(&mut self.logs, *log, *upto, *member, *spare),
        }
    }

    /// Whether there is no room for this log beside the others.
    pub(crate) fn is_crowded(&self, log: LogId) -> bool
        ensures { (n : ℕ) → result ≡ is_crowded (register_of self.now n) log }
    {
        LOG_LIMIT <= count_others(&self.logs, log)
    }
}

/// Whether a number is the one behind another, and there is room for it.
fn is_behind(crowded: bool, before: u32, number: u32) -> bool
    ensures { result ≡ (not crowded && (before + 1 == number)) }
{
    !crowded && before < number && number - before == 1
}

/// Whether a swap changes an epoch, and the log's swaps aren't used up.
fn is_swap(count: u32, swaps: u32) -> bool
    ensures { result ≡ (nat_lt 0 count && nat_lt swaps swap_limit) }
{
    0 < count && swaps < u32::MAX
}

/// Makes room for a log. Without memory nothing changes.
fn room_for_log(
    alloc: Global,
    logs: &mut BTreeMap<u32, LogState>,
    log: LogId,
) -> Result<(), NoMemory>
    ensures same { shown_logs logs.new.entries ≡ shown_logs logs.old.entries }
    ensures at { log_at logs.new.entries log ≡ log_at logs.old.entries log }
    ensures there { OnOk result (is_some (find log logs.new.entries) ≡ true) }
    ensures logs { AreLogs logs.old.entries → AreLogs logs.new.entries }
{
    let _ = logs.len();
    if logs.contains_key(&log.number()) {
        return Ok(());
    }
    logs.insert(log.number(), LogState::new(alloc))?;
    Ok(())
}

/// Makes room for what is fixed for a log's epoch above the greatest one. Without memory nothing changes.
fn room_for_spec(logs: &mut BTreeMap<u32, LogState>, e: u32, spec: &Spec) -> Result<(), NoMemory>
    requires above { (log_at (shown_logs logs.old.entries) spec.now.log).epoch < e }
    requires spec { IsSpec spec.now }
    ensures same { shown_logs logs.new.entries ≡ shown_logs logs.old.entries }
    ensures there { is_some (find spec.now.log logs.new.entries) ≡ is_some (find spec.now.log logs.old.entries) }
    ensures room { OnOk result (is_some (find e (log_at logs.new.entries spec.now.log).specs) ≡ true) }
    ensures logs { AreLogs logs.old.entries → AreLogs logs.new.entries }
{
    let Some(state) = logs.get_mut(&spec.log.number()) else {
        return Err(NoMemory);
    };
    state.room_for_spec(e, spec)
}

/// Makes room for the summary of a log's epoch above the last closed one. Without memory nothing changes.
fn room_for_summary(
    logs: &mut BTreeMap<u32, LogState>,
    log: LogId,
    e: u32,
    summary: &Summary,
) -> Result<(), NoMemory>
    requires above { (log_at (shown_logs logs.old.entries) log).lce < e }
    requires summary { IsSummary e summary.now }
    ensures same { shown_logs logs.new.entries ≡ shown_logs logs.old.entries }
    ensures there { is_some (find log logs.new.entries) ≡ is_some (find log logs.old.entries) }
    ensures room { OnOk result (is_some (find e (log_at logs.new.entries log).summaries) ≡ true) }
    ensures logs { AreLogs logs.old.entries → AreLogs logs.new.entries }
{
    let Some(state) = logs.get_mut(&log.number()) else {
        return Err(NoMemory);
    };
    state.room_for_summary(e, summary)
}

/// Hands out the next epoch of a log with what is fixed for it, for which there is room.
fn activate_in(logs: &mut BTreeMap<u32, LogState>, e: u32, spec: &Spec)
    requires there { is_some (find spec.now.log logs.old.entries) ≡ true }
    requires room { is_some (find e (log_at logs.old.entries spec.now.log).specs) ≡ true }
    requires next { e ≡ (log_at (shown_logs logs.old.entries) spec.now.log).epoch + 1 }
    requires bound { e ≤ 2 ^ 32 - 2 }
    requires spec { IsSpec spec.now }
    ensures shown { shown_logs logs.new.entries ≡ put spec.now.log (next_epoch (log_at (shown_logs logs.old.entries) spec.now.log) spec.now) (shown_logs logs.old.entries) }
    ensures few { how_many (λ k. not (k.0 == spec.now.log)) (shown_logs logs.old.entries) < 64 → length (shown_logs logs.new.entries) ≤ 64 }
    ensures logs { AreLogs logs.old.entries → AreLogs logs.new.entries }
{
    let Some(state) = logs.get_mut(&spec.log.number()) else {
        return;
    };
    state.activate(e, spec);
}

/// Hands out the next epoch of a log, for which there is room and nothing is fixed.
fn activate_unfixed_in(logs: &mut BTreeMap<u32, LogState>, log: LogId, e: u32)
    requires there { is_some (find log logs.old.entries) ≡ true }
    requires next { e ≡ (log_at (shown_logs logs.old.entries) log).epoch + 1 }
    requires bound { e ≤ 2 ^ 32 - 2 }
    ensures shown { shown_logs logs.new.entries ≡ put log (unfixed_epoch (log_at (shown_logs logs.old.entries) log)) (shown_logs logs.old.entries) }
    ensures few { how_many (λ k. not (k.0 == log)) (shown_logs logs.old.entries) < 64 → length (shown_logs logs.new.entries) ≤ 64 }
    ensures logs { AreLogs logs.old.entries → AreLogs logs.new.entries }
{
    let Some(state) = logs.get_mut(&log.number()) else {
        return;
    };
    state.activate_unfixed(e);
}

/// Closes the next epoch of a log, for which and for whose summary there is room.
fn close_in(logs: &mut BTreeMap<u32, LogState>, log: LogId, e: u32, summary: &Summary)
    requires there { is_some (find log logs.old.entries) ≡ true }
    requires room { is_some (find e (log_at logs.old.entries log).summaries) ≡ true }
    requires next { e ≡ (log_at (shown_logs logs.old.entries) log).lce + 1 }
    requires summary { IsSummary e summary.now }
    ensures shown { shown_logs logs.new.entries ≡ put log (closed_epochs (log_at (shown_logs logs.old.entries) log) e summary.now) (shown_logs logs.old.entries) }
    ensures few { how_many (λ k. not (k.0 == log)) (shown_logs logs.old.entries) < 64 → length (shown_logs logs.new.entries) ≤ 64 }
    ensures logs { AreLogs logs.old.entries → AreLogs logs.new.entries }
{
    let Some(state) = logs.get_mut(&log.number()) else {
        return;
    };
    state.close(e, summary);
}

/// Puts the spare in the place of the member in the closed epochs of a log up to one, of which some has the member and lacks
/// the spare.
fn swap_in(logs: &mut BTreeMap<u32, LogState>, log: LogId, upto: u32, member: NodeId, spare: NodeId)
    requires there { is_some (find log logs.old.entries) ≡ true }
    requires some { 0 < swap_count (closed_upto (log_at (shown_logs logs.old.entries) log) upto) member spare (log_at (shown_logs logs.old.entries) log).swapped }
    requires left { (log_at (shown_logs logs.old.entries) log).swaps < 2 ^ 32 - 1 }
    ensures shown { shown_logs logs.new.entries ≡ put log (swapped_epochs (log_at (shown_logs logs.old.entries) log) upto member spare) (shown_logs logs.old.entries) }
    ensures few { length (shown_logs logs.new.entries) ≡ length (shown_logs logs.old.entries) }
    ensures logs { AreLogs logs.old.entries → AreLogs logs.new.entries }
{
    let Some(state) = logs.get_mut(&log.number()) else {
        return;
    };
    let _ = (member.number(), spare.number());
    state.swap(upto, member, spare);
}

/// Makes room for a node. Without memory nothing changes.
fn room_for_node(generations: &mut BTreeMap<u8, u32>, node: NodeId) -> Result<(), NoMemory>
    ensures same { shown_generations generations.new.entries ≡ shown_generations generations.old.entries }
    ensures there { OnOk result (is_some (find node generations.new.entries) ≡ true) }
{
    let _ = generations.len();
    if generations.contains_key(&node.number()) {
        return Ok(());
    }
    generations.insert(node.number(), 0)?;
    Ok(())
}

/// Hands out a generation of a node, for which there is room.
fn draw_in(generations: &mut BTreeMap<u8, u32>, node: NodeId, generation: u32)
    requires room { is_some (find node generations.old.entries) ≡ true }
    requires some { 0 < generation }
    ensures { shown_generations generations.new.entries ≡ put node generation (shown_generations generations.old.entries) }
{
    let _ = generations.insert(node.number(), generation);
}

/// Adds the log, where it has an epoch.
fn add_active(number: u32, state: &LogState, active: &mut Vec<(LogId, u32)>) -> Result<(), NoMemory>
    requires { IsLog number }
    ensures { OnOk result (active.new.items ≡ active.old.items ++ epochs_in ((number, state.now) ∷ [])) }
{
    let epoch = state.epoch();
    if epoch == 0 {
        return Ok(());
    }
    let Some(log) = LogId::new(number) else {
        return Ok(());
    };
    active.push((log, epoch))?;
    Ok(())
}

/// The logs that have an epoch, rising.
fn active_logs(alloc: Global, logs: &BTreeMap<u32, LogState>) -> Result<Vec<(LogId, u32)>, NoMemory>
    requires { AreLogs logs.now.entries }
    ensures active { IfOk result (λ active. active.items ≡ epochs_in (shown_logs logs.now.entries)) }
    ensures few { IfOk result (λ active. length active.items ≤ length (shown_logs logs.now.entries)) }
    ensures bounds { IfOk result (λ active. AreEpochs 1 active.items) }
{
    let mut active = Vec::new(alloc);
    let _ = logs.len();
    'logs: for (number, state) in logs {
        add_active(*number, state, &mut active)?;
    }
    Ok(active)
}

/// How many logs but this one are held.
fn count_others(logs: &BTreeMap<u32, LogState>, log: LogId) -> usize
    ensures { result ≡ how_many (λ k. not (k.0 == log)) (shown_logs logs.now.entries) }
{
    let mut count: usize = 0;
    let size = logs.len();
    'logs: for (number, state) in logs {
        if is_other(*number, state, log) {
            count += 1;
        }
    }
    count
}

/// Whether it is held, and another log.
fn is_other(number: u32, state: &LogState, log: LogId) -> bool
    ensures { result ≡ (is_held state.now && not (number == log)) }
{
    state.is_held() && number != log.number()
}
