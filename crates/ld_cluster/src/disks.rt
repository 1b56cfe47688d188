// Nodes that stop, load and lose their disks, and disks and a register that fail where they are told to.
ghost use Rattle.std.specs.Prelude.{◌≤◌, IfOk, OnErr};
ghost use Rattle.ld_schedule.specs.declared.event.Event.TheVariants.{Down, Up, Wipe, Fail, Tear, RegFail};
ghost use Rattle.ld_machine.specs.Step.{happens};
ghost use Rattle.ld_cluster.specs.Standing.{config_of, state_of, IsReached};
ghost use Rattle.ld_cluster.specs.Outcomes.{IsSame, IsDone};

use crate::cluster::Cluster;
use crate::lines::{kept, one_line};
use ld_clients::Outcome;
use ld_ids::{NoMemory, NodeId};
use ld_msg::Outbox;
use ld_schedule::Picture;
use ld_transcript::Line;
use std::alloc::Global;

impl Cluster {
    /// A node stops, where it runs or has failed.
    pub(crate) fn down(&mut self, alloc: Global, node: NodeId) -> Result<Outcome, NoMemory>
        requires reached { IsReached self.old }
        ensures same { OnErr result (IsSame self.old self.new) }
        ensures done { IfOk result (λ outcome. IsDone self.old self.new outcome (happens (config_of self.old) (state_of self.old) (Down node))) }
    {
        if !self.can_stop(node) {
            return Ok(Outcome::nothing(alloc));
        }
        self.hosts.stop(alloc, node)?;
        let outcome = Outcome::line(alloc, Line::NodeDown { node })?;
        Ok(outcome)
    }

    /// A node that is down loads its store.
    pub(crate) fn up(&mut self, alloc: Global, node: NodeId) -> Result<Outcome, NoMemory>
        requires reached { IsReached self.old }
        ensures same { OnErr result (IsSame self.old self.new) }
        ensures done { IfOk result (λ outcome. IsDone self.old self.new outcome (happens (config_of self.old) (state_of self.old) (Up node))) }
    {
        if !self.is_down(node) {
            return Ok(Outcome::nothing(alloc));
        }
        let end = self.hosts.load(alloc, node, &self.config)?;
        let up = one_line(alloc, Line::NodeUp { node })?;
        let lines = kept(alloc, node, end, up)?;
        Ok(Outcome {
            lines,
            sends: Outbox::empty(alloc),
        })
    }

    /// A node gets a new disk.
    pub(crate) fn wipe(&mut self, alloc: Global, node: NodeId) -> Result<Outcome, NoMemory>
        requires reached { IsReached self.old }
        ensures same { OnErr result (IsSame self.old self.new) }
        ensures done { IfOk result (λ outcome. IsDone self.old self.new outcome (happens (config_of self.old) (state_of self.old) (Wipe node))) }
    {
        if !self.config.nodes.has(node) {
            return Ok(Outcome::nothing(alloc));
        }
        self.hosts.wipe(alloc, node)?;
        let outcome = Outcome::line(alloc, Line::NodeWiped { node })?;
        Ok(outcome)
    }

    /// The writing call of this count from now on the node's disk is to fail.
    pub(crate) fn fail(
        &mut self,
        alloc: Global,
        node: NodeId,
        call: u32,
    ) -> Result<Outcome, NoMemory>
        requires reached { IsReached self.old }
        requires counts { 1 ≤ call }
        ensures same { OnErr result (IsSame self.old self.new) }
        ensures done { IfOk result (λ outcome. IsDone self.old self.new outcome (happens (config_of self.old) (state_of self.old) (Fail node call))) }
    {
        if !self.config.nodes.has(node) {
            return Ok(Outcome::nothing(alloc));
        }
        self.hosts.arm(alloc, node, u64::from(call), None)?;
        Ok(Outcome::nothing(alloc))
    }

    /// The node is to crash in the writing call of this count from now on its disk.
    pub(crate) fn tear(
        &mut self,
        alloc: Global,
        node: NodeId,
        call: u32,
        picture: Picture,
    ) -> Result<Outcome, NoMemory>
        requires reached { IsReached self.old }
        requires counts { 1 ≤ call }
        ensures same { OnErr result (IsSame self.old self.new) }
        ensures done { IfOk result (λ outcome. IsDone self.old self.new outcome (happens (config_of self.old) (state_of self.old) (Tear node call picture))) }
    {
        if !self.config.nodes.has(node) {
            return Ok(Outcome::nothing(alloc));
        }
        self.hosts.arm(alloc, node, u64::from(call), Some(picture))?;
        Ok(Outcome::nothing(alloc))
    }

    /// The register's change of this count from now is to fail, with its change made or not.
    pub(crate) fn fail_register(&mut self, alloc: Global, call: u32, done: bool) -> Outcome
        requires reached { IsReached self.old }
        requires counts { 1 ≤ call }
        ensures { IsDone self.old self.new result (happens (config_of self.old) (state_of self.old) (RegFail call done)) }
    {
        self.register.arm(u64::from(call), done);
        Outcome::nothing(alloc)
    }
}
