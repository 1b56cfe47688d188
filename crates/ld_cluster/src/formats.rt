// Nodes that format their stores.
ghost use Rattle.std.specs.Prelude.{◌≡◌, ◌∷◌, [], IfOk, OnErr};
ghost use Rattle.ld_schedule.specs.declared.event.Event.TheVariants.{Format};
ghost use Rattle.ld_machine.specs.Step.{happens};
ghost use Rattle.ld_cluster.specs.Standing.{config_of, state_of, IsReached};
ghost use Rattle.ld_cluster.specs.Outcomes.{IsSame, IsDone};
ghost use Rattle.ld_cluster.specs.Formats.{told_of, refused_line};

use crate::cluster::Cluster;
use crate::lines::{format_lines, kept, one_line};
use ld_clients::Outcome;
use ld_config::Config;
use ld_host::Formatted;
use ld_ids::{NoMemory, NodeId};
use ld_msg::Outbox;
use ld_register::RegisterFault;
use ld_transcript::Line;
use std::alloc::Global;

impl Cluster {
    /// A blank node loads its store, draws a generation and formats it.
    pub(crate) fn format(&mut self, alloc: Global, node: NodeId) -> Result<Outcome, NoMemory>
        requires reached { IsReached self.old }
        ensures same { OnErr result (IsSame self.old self.new) }
        ensures done { IfOk result (λ outcome. IsDone self.old self.new outcome (happens (config_of self.old) (state_of self.old) (Format node))) }
    {
        if !self.is_blank(node) {
            return Ok(Outcome::nothing(alloc));
        }
        let formatted = self
            .hosts
            .format(alloc, node, &self.config, &mut self.register)?;
        let lines = told(alloc, &self.config, node, &formatted)?;
        Ok(Outcome {
            lines,
            sends: Outbox::empty(alloc),
        })
    }
}

/// The lines of a format.
fn told(
    alloc: Global,
    config: &Config,
    node: NodeId,
    formatted: &Formatted,
) -> Result<Vec<Line>, NoMemory>
    ensures { IfOk result (λ lines. lines.items ≡ told_of config.now node formatted.now) }
{
    match formatted {
        Formatted::NotLoaded(end) => {
            let lines = kept(alloc, node, *end, Vec::new(alloc))?;
            Ok(lines)
        }
        Formatted::Refused(fault) => {
            let lines = refused(alloc, node, *fault)?;
            Ok(lines)
        }
        Formatted::NotKept(end) => {
            let lines = kept(alloc, node, *end, Vec::new(alloc))?;
            Ok(lines)
        }
        Formatted::Done(drawn) => {
            let lines = format_lines(alloc, config, node, drawn)?;
            Ok(lines)
        }
    }
}

/// The line of a draw that the register refused.
fn refused(alloc: Global, node: NodeId, fault: RegisterFault) -> Result<Vec<Line>, NoMemory>
    ensures { IfOk result (λ lines. lines.items ≡ refused_line node fault ∷ []) }
{
    match fault {
        RegisterFault::GenLimit => {
            let lines = one_line(alloc, Line::NodeRefusedGenLimit { node })?;
            Ok(lines)
        }
        _ => {
            let lines = one_line(alloc, Line::NodeRefusedRegister { node })?;
            Ok(lines)
        }
    }
}
