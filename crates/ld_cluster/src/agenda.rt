// All that a calm has to do.
ghost use Rattle.std.specs.Prelude.{◌≡◌, ◌++◌, IfOk, OnOk, map};
ghost use Rattle.ld_machine.specs.Calm.{Reads as TheReads, Ticks as TheTicks, all_left, left_for, readers_of};
ghost use Rattle.ld_machine.specs.Config.{all_nodes};
ghost use Rattle.ld_machine.specs.State.{State};
ghost use Rattle.ld_cluster.specs.Calming.{left_in};
ghost use Rattle.ld_cluster.specs.Standing.{config_of, Parts};

use crate::cluster::Cluster;
use crate::part::Part;
use ld_ids::{LogId, NoMemory};
use std::alloc::Global;

impl Cluster {
    /// All that a calm has to do, the next part last.
    pub(crate) fn all_parts(&self, alloc: Global) -> Result<Vec<Part>, NoMemory>
        ensures { (s : State) → Parts self.now s → IfOk result (λ left. left_in left.items ≡ all_left (config_of self.now) s) }
    {
        let mut left = Vec::new(alloc);
        let specs = self.config.logs.as_slice();
        let mut place = specs.len();
        'logs: while place > 0 {
            place -= 1;
            self.add_log(alloc, specs[place].log, &mut left)?;
        }
        Ok(left)
    }

    /// Adds what there is to do for a log.
    fn add_log(&self, alloc: Global, log: LogId, left: &mut Vec<Part>) -> Result<(), NoMemory>
        ensures { (s : State) → Parts self.now s → OnOk result (left_in left.new.items ≡ left_for (config_of self.now) s log ++ left_in left.old.items) }
    {
        self.add_readers(alloc, log, left)?;
        self.add_nodes(log, left)?;
        left.push(Part::Settles(log))?;
        left.push(Part::Announces(log))?;
        Ok(())
    }

    /// Adds a part for each reader of the log.
    fn add_readers(&self, alloc: Global, log: LogId, left: &mut Vec<Part>) -> Result<(), NoMemory>
        ensures { (s : State) → Parts self.now s → OnOk result (left_in left.new.items ≡ map (λ name. TheReads name) (readers_of log s.readers) ++ left_in left.old.items) }
    {
        let mut names = self.readers.names(alloc, log)?;
        'readers: while let Some(name) = names.pop() {
            left.push(Part::Reads(name))?;
        }
        Ok(())
    }

    /// Adds a part for each node of the configuration.
    fn add_nodes(&self, log: LogId, left: &mut Vec<Part>) -> Result<(), NoMemory>
        ensures { OnOk result (left_in left.new.items ≡ map (λ node. TheTicks log node) (all_nodes (config_of self.now)) ++ left_in left.old.items) }
    {
        let mut place = self.config.nodes.len();
        'nodes: while place > 0 {
            place -= 1;
            let Some(node) = self.config.nodes.nth(place) else {
                return Ok(());
            };
            left.push(Part::Ticks(log, node))?;
        }
        Ok(())
    }
}
