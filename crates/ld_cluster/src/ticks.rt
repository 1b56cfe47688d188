// Nodes that look at the register.
ghost use Rattle.std.specs.Prelude.{◌≡◌, true, IfOk, OnErr};
ghost use Rattle.ld_machine.specs.Calm.{cleans};
ghost use Rattle.ld_machine.specs.Config.{has_log, has_node};
ghost use Rattle.ld_schedule.specs.declared.event.Event.TheVariants.{Tick};
ghost use Rattle.ld_machine.specs.Step.{happens};
ghost use Rattle.ld_cluster.specs.Standing.{config_of, state_of, IsReached};
ghost use Rattle.ld_cluster.specs.Outcomes.{IsSame, IsDone};
ghost use Rattle.ld_cluster.specs.Ticking.{tick_lines, asks_of, has_cleaned};

use crate::cluster::Cluster;
use crate::lines::{kept, one_line};
use ld_clients::Outcome;
use ld_host::Ticked;
use ld_ids::{LogId, NoMemory, NodeId};
use ld_msg::Outbox;
use ld_transcript::Line;
use std::alloc::Global;

impl Cluster {
    /// A node that is up looks at a log of the configuration in the register.
    pub(crate) fn tick(
        &mut self,
        alloc: Global,
        node: NodeId,
        log: LogId,
    ) -> Result<Outcome, NoMemory>
        requires reached { IsReached self.old }
        ensures same { OnErr result (IsSame self.old self.new) }
        ensures done { IfOk result (λ outcome. IsDone self.old self.new outcome (happens (config_of self.old) (state_of self.old) (Tick node log))) }
    {
        let (outcome, _) = self.look(alloc, node, log)?;
        Ok(outcome)
    }

    /// The same, and whether it cleaned an epoch.
    pub(crate) fn look(
        &mut self,
        alloc: Global,
        node: NodeId,
        log: LogId,
    ) -> Result<(Outcome, bool), NoMemory>
        requires reached { IsReached self.old }
        ensures same { OnErr result (IsSame self.old self.new) }
        ensures done { IfOk result (λ done. IsDone self.old self.new done.0 (happens (config_of self.old) (state_of self.old) (Tick node log))) }
        ensures cleans { has_node (config_of self.old) node ≡ true → has_log (config_of self.old) log ≡ true → IfOk result (λ done. done.1 ≡ cleans (state_of self.old) node log) }
    {
        if !self.config.nodes.has(node) {
            return Ok((Outcome::nothing(alloc), false));
        }
        if !self.serves(node, log) {
            return Ok((Outcome::nothing(alloc), false));
        }
        let (end, ticked) = self.hosts.tick(alloc, node, log, &mut self.register)?;
        let cleaned = has_cleaned(&ticked);
        let line = tick_lines(alloc, node, log, &ticked)?;
        let lines = kept(alloc, node, end, line)?;
        let sends = asks(alloc, ticked);
        Ok((Outcome { lines, sends }, cleaned))
    }
}

/// Whether the tick cleaned an epoch.
fn has_cleaned(ticked: &Ticked) -> bool
    ensures { result ≡ has_cleaned ticked.now }
{
    match ticked {
        Ticked::Cleaned(_) => true,
        Ticked::Asked(_) => false,
        Ticked::Rebuilt => false,
        Ticked::Nothing => false,
    }
}

/// The line of a tick that was kept.
fn tick_lines(
    alloc: Global,
    node: NodeId,
    log: LogId,
    ticked: &Ticked,
) -> Result<Vec<Line>, NoMemory>
    ensures { IfOk result (λ lines. lines.items ≡ tick_lines node log ticked.now) }
{
    match ticked {
        Ticked::Rebuilt => {
            let lines = one_line(alloc, Line::NodeRebuilt { node, log })?;
            Ok(lines)
        }
        Ticked::Cleaned(_) => Ok(Vec::new(alloc)),
        Ticked::Asked(_) => Ok(Vec::new(alloc)),
        Ticked::Nothing => Ok(Vec::new(alloc)),
    }
}

/// What a tick sends.
fn asks(alloc: Global, ticked: Ticked) -> Outbox
    ensures { result ≡ asks_of ticked }
{
    match ticked {
        Ticked::Asked(asks) => Outbox::new(asks.into_vec()),
        Ticked::Cleaned(_) => Outbox::empty(alloc),
        Ticked::Rebuilt => Outbox::empty(alloc),
        Ticked::Nothing => Outbox::empty(alloc),
    }
}
