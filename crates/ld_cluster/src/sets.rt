// What is set for later activations.
ghost use Rattle.std.specs.Prelude.{◌≡◌, IfOk, OnErr};
ghost use Rattle.ld_table.specs.Words.{all_of};
ghost use Rattle.ld_ids.specs.Set.{members};
ghost use Rattle.ld_schedule.specs.declared.event.Event.TheVariants.{Set};
ghost use Rattle.ld_machine.specs.Config.{has_node};
ghost use Rattle.ld_machine.specs.State.{State};
ghost use Rattle.ld_machine.specs.Step.{happens, spec_set, can_set};
ghost use Rattle.ld_cluster.specs.Standing.{config_of, state_of, Parts, IsReached};
ghost use Rattle.ld_cluster.specs.Outcomes.{IsSame, IsDone};

use crate::cluster::Cluster;
use crate::lookup::{has_log, spec_for};
use ld_clients::Outcome;
use ld_config::Config;
use ld_ids::{LogId, NoMemory, NodeSet, Spec};
use ld_transcript::Line;
use std::alloc::Global;

impl Cluster {
    /// Later activations of a log use these nodes, this factor and these extras, where they can.
    pub(crate) fn set(
        &mut self,
        alloc: Global,
        log: LogId,
        r: u8,
        extras: u8,
        set: NodeSet,
    ) -> Result<Outcome, NoMemory>
        requires reached { IsReached self.old }
        ensures same { OnErr result (IsSame self.old self.new) }
        ensures done { IfOk result (λ outcome. IsDone self.old self.new outcome (happens (config_of self.old) (state_of self.old) (Set log r extras set))) }
    {
        let spec = Spec {
            log,
            set,
            r,
            extras,
        };
        if !can_set(&self.config, &spec) {
            return Ok(Outcome::nothing(alloc));
        }
        self.specs.put(spec)?;
        let line = Line::Set {
            log,
            r,
            extras,
            set,
        };
        let outcome = Outcome::line(alloc, line)?;
        Ok(outcome)
    }

    /// What later activations of the log use: what was set last, and where nothing was, what the configuration says.
    pub(crate) fn spec_set(&self, log: LogId) -> Spec
        ensures { (s : State) → Parts self.now s → result ≡ spec_set (config_of self.now) s log }
    {
        match self.specs.get(log) {
            Some(spec) => spec,
            None => spec_for(&self.config, log),
        }
    }
}

/// Whether a log may use these: the log and the nodes are the configuration's, the factor is from 1 up to their count, and
/// at most three extras are asked.
fn can_set(config: &Config, spec: &Spec) -> bool
    ensures { result ≡ can_set config.now spec.now.log spec.now.r spec.now.extras (members spec.now.set) }
{
    has_log(config, spec.log)
        && (has_nodes(config, &spec.set)
            && (1 <= spec.r && (usize::from(spec.r) <= spec.set.len() && spec.extras <= 3)))
}

/// Whether all nodes of the set are the configuration's.
fn has_nodes(config: &Config, set: &NodeSet) -> bool
    ensures { result ≡ all_of (has_node config.now) (members set.now) }
{
    let mut place = 0;
    'nodes: while let Some(node) = set.nth(place) {
        if !config.nodes.has(node) {
            return false;
        }
        place += 1;
    }
    true
}
