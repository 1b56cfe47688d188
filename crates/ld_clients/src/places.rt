// Where the sequencer of an epoch of a log stands.
ghost use Rattle.std.specs.Prelude.{◌≡◌, ◌==◌, ◌&&◌, ℕ, [], Some, None, OnOk, OnErr, if◌then◌else◌};
ghost use Rattle.ld_table.specs.Words.{or_else};
ghost use Rattle.ld_clients.specs.Places.{kept_place};

use indexmap::IndexMap;
use ld_ids::{LogId, NoMemory};
use std::alloc::Global;
use std::marker::Model;

/// The place of the first sequencer of each epoch of each log in the order of activation.
#[derive(Drop)]
pub(crate) struct Places {
    map: IndexMap<(u32, u32), usize>,
}

impl Model for Places {
    ghost use Rattle.std.specs.Prelude.{List, ℕ};

    ghost Value = { List ((ℕ × ℕ) × ℕ) };

    ghost view = { λ a. a.map.entries };
}

impl Places {
    /// None.
    pub(crate) fn new(alloc: Global) -> Places
        ensures { result ≡ [] }
    {
        Places {
            map: IndexMap::new(alloc),
        }
    }

    /// The place of the epoch of the log.
    pub(crate) fn get(&self, log: LogId, epoch: u32) -> Option<usize>
        ensures { result ≡ kept_place log epoch self.now }
    {
        let key = (log.number(), epoch);
        self.map.get(&key).copied()
    }

    /// Keeps the place of the epoch of the log, where none is kept before. Without memory nothing changes.
    pub(crate) fn note(&mut self, log: LogId, epoch: u32, place: usize) -> Result<(), NoMemory>
        ensures ok { OnOk result ((l e : ℕ) → kept_place l e self.new ≡ or_else (kept_place l e self.old) (if (log == l) && (epoch == e) then Some place else None)) }
        ensures err { OnErr result (self.new ≡ self.old) }
    {
        let key = (log.number(), epoch);
        if self.map.contains_key(&key) {
            return Ok(());
        }
        self.map.insert(key, place)?;
        Ok(())
    }

    /// Forgets all of them.
    pub(crate) fn clear(&mut self)
        ensures { self.new ≡ [] }
    {
        self.map.clear();
    }
}
