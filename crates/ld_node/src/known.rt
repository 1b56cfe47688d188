// What a node knows of the configuration.
ghost use Rattle.std.specs.Prelude.{◌≡◌, IfOk};
ghost use Rattle.ld_ids.specs.Id.{IsLog};
ghost use Rattle.ld_ids.specs.Set.{members};
ghost use Rattle.ld_table.specs.Words.{is_in};
ghost use Rattle.ld_node.specs.Known.{logs_in, known_in};

use ld_config::Config;
use ld_ids::{LogId, NoMemory, NodeSet, Spec};
use std::alloc::Global;
use std::marker::Model;

/// All nodes, and the logs.
#[derive(Drop)]
pub(crate) struct Known {
    nodes: NodeSet,
    logs: Vec<LogId>,
}

impl Model for Known {
    ghost use Rattle.ld_ids.specs.Set.{members};
    ghost use Rattle.ld_node.specs.Known.{Known as Shown};

    ghost Value = { Shown };

    ghost view = { λ known. record { nodes = members known.nodes; logs = known.logs.items } };
}

/// The logs of these.
fn logs_in(alloc: Global, specs: &[Spec]) -> Result<Vec<LogId>, NoMemory>
    ensures { IfOk result (λ logs. logs.items ≡ logs_in specs.now) }
{
    let mut logs = Vec::new(alloc);
    for spec in specs {
        logs.push(spec.log)?;
    }
    Ok(logs)
}

impl Known {
    /// What the configuration tells.
    pub(crate) fn of(alloc: Global, config: &Config) -> Result<Known, NoMemory>
        ensures { IfOk result (λ known. known ≡ known_in config.now) }
    {
        Ok(Known {
            nodes: config.nodes,
            logs: logs_in(alloc, config.logs.as_slice())?,
        })
    }

    /// All nodes.
    pub(crate) fn nodes(&self) -> &NodeSet
        ensures { members result.now ≡ self.now.nodes }
    {
        &self.nodes
    }

    /// Whether it is one of the logs.
    pub(crate) fn has_log(&self, log: LogId) -> bool
        ensures has { result ≡ is_in log self.now.logs }
        ensures log { IsLog log }
    {
        let number = log.number();
        for known in &self.logs {
            if known.number() == number {
                return true;
            }
        }
        false
    }
}
