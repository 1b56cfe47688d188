// What was set for later activations.
ghost use Rattle.std.specs.Prelude.{◌≡◌, [], OnOk};
ghost use Rattle.ld_table.specs.Table.{find, put};

use ld_ids::{LogId, NoMemory, Spec};
use std::alloc::Global;
use std::collections::BTreeMap;
use std::marker::Model;

/// What was set last for each log for which something was.
#[derive(Drop)]
pub(crate) struct Specs {
    map: BTreeMap<u32, Spec>,
}

impl Model for Specs {
    ghost use Rattle.std.specs.Prelude.{List, ℕ};
    ghost use Rattle.ld_ids.specs.declared.set.Spec.{Spec};

    ghost Value = { List (ℕ × Spec) };

    ghost view = { λ specs. specs.map.entries };
}

impl Specs {
    /// Nothing.
    pub(crate) fn new(alloc: Global) -> Specs
        ensures { result ≡ [] }
    {
        Specs {
            map: BTreeMap::new(alloc),
        }
    }

    /// What was set last for the log.
    #[tactic(auto, unfolding(ld_table::specs::Table::find))]
    pub(crate) fn get(&self, log: LogId) -> Option<Spec>
        ensures { result ≡ find log self.now }
    {
        self.map.get(&log.number()).copied()
    }

    /// Sets this for its log, in place of what was set before.
    #[tactic(auto, unfolding(ld_table::specs::Table::put))]
    pub(crate) fn put(&mut self, spec: Spec) -> Result<(), NoMemory>
        ensures { OnOk result (self.new ≡ put spec.log spec self.old) }
    {
        self.map.insert(spec.log.number(), spec)?;
        Ok(())
    }
}
