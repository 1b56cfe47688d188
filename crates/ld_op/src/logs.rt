// The logs of a node, by number.
ghost use Rattle.std.specs.Prelude.{◌≡◌, ◌≢◌, ◌<◌, ◌+◌, ◌^◌, ℕ, [], Option, Some, None, true, OnOk, IsSome, option_copied};
ghost use Rattle.std.specs.Option.{unwrap_or};
ghost use Rattle.ld_table.specs.Table.{find, put};
ghost use Rattle.ld_op.specs.Plain.{empty_log, op_length};
ghost use Rattle.ld_op.specs.Cells.{placed};
ghost use Rattle.ld_op.specs.Room.{there_of, held_log, has_room_in, log_named, log_after};

use crate::Op;
use crate::log::LogState;
use ld_ids::{LogId, NoMemory};
use std::alloc::Global;
use std::collections::BTreeMap;
use std::marker::Model;

/// Logs by number, and room for others.
#[derive(Drop)]
pub(crate) struct LogMap {
    map: BTreeMap<u32, LogState>,
}

impl Model for LogMap {
    ghost use Rattle.std.specs.Prelude.{List, ℕ};
    ghost use Rattle.ld_op.specs.Room.{Held};

    ghost Value = { List (ℕ × Held) };

    ghost view = { λ a. a.map.entries };
}

impl LogMap {
    /// No logs.
    pub(crate) fn new(alloc: Global) -> LogMap
        ensures { result ≡ [] }
    {
        LogMap {
            map: BTreeMap::new(alloc),
        }
    }

    /// The logs and the room for others.
    pub(crate) fn all(&self) -> &BTreeMap<u32, LogState>
        ensures { result.now.entries ≡ self.now }
    {
        &self.map
    }

    /// The log of the number.
    pub(crate) fn get(&self, log: LogId) -> Option<&LogState>
        ensures { held_log (option_copied result) ≡ unwrap_or (find log (there_of self.now)) empty_log }
    {
        let _ = self.map.len();
        match self.map.get(&log.number()) {
            Some(state) => {
                state.is_there();
                Some(state)
            }
            None => None,
        }
    }

    /// Takes all logs away.
    pub(crate) fn clear(&mut self)
        ensures { self.new ≡ [] }
    {
        self.map.clear();
    }

    /// Adds a log that is there. Without memory nothing changes.
    pub(crate) fn add(&mut self, log: LogId, state: LogState) -> Result<(), NoMemory>
        requires { state.there ≡ true }
        ensures { OnOk result (there_of self.new ≡ put log state.log (there_of self.old)) }
    {
        self.map.insert(log.number(), state)?;
        Ok(())
    }

    /// Makes room for a log. Without memory nothing changes.
    fn reserve(&mut self, alloc: Global, log: LogId) -> Result<(), NoMemory>
        ensures { there_of self.new ≡ there_of self.old }
    {
        let _ = self.map.len();
        if self.map.contains_key(&log.number()) {
            return Ok(());
        }
        self.map.insert(log.number(), LogState::new(alloc))?;
        Ok(())
    }

    /// Makes room for an op of a log. Without memory no log changes.
    pub(crate) fn room(&mut self, alloc: Global, log: LogId, op: &Op) -> Result<(), NoMemory>
        ensures same { there_of self.new ≡ there_of self.old }
        ensures room { OnOk result (has_room_in op.now (find log self.new) ≡ true) }
    {
        self.reserve(alloc, log)?;
        self.places(log, op)
    }

    /// Makes offsets in a log.
    fn places(&mut self, log: LogId, op: &Op) -> Result<(), NoMemory>
        ensures same { there_of self.new ≡ there_of self.old }
        ensures room { OnOk result (has_room_in op.now (find log self.new) ≡ true) }
    {
        let Some(state) = self.map.get_mut(&log.number()) else {
            return Err(NoMemory);
        };
        state.room(op)
    }

    /// Applies an op of a log, for which there is room, and whose body stands from this offset of the disk on.
    pub(crate) fn apply(&mut self, log: LogId, op: Op, at: u64)
        requires room { has_room_in op (find log self.old) ≡ true }
        requires names { log_named op ≢ None }
        requires fits { at + op_length op < 2 ^ 64 }
        ensures { there_of self.new ≡ put log (log_after (unwrap_or (find log (there_of self.old)) empty_log) (placed at op)) (there_of self.old) }
    {
        let Some(state) = self.map.get_mut(&log.number()) else {
            return;
        };
        state.apply(op, at);
    }
}
