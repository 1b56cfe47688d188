// What the callers of a cluster do: sequencers and readers.
ghost use Rattle.std.specs.Prelude.{IfOk, OnErr};
ghost use Rattle.ld_schedule.specs.declared.event.Event.TheVariants.{Activate, Append, Batch, Trim, Retry, Drop, Poll};
ghost use Rattle.ld_machine.specs.Calm.{Calms, moves};
ghost use Rattle.ld_machine.specs.Step.{happens};
ghost use Rattle.ld_clients.specs.Reads.{opening};
ghost use Rattle.ld_cluster.specs.Standing.{config_of, state_of, IsReached};
ghost use Rattle.ld_cluster.specs.Outcomes.{IsSame, IsDone};

use crate::cluster::Cluster;
use ld_batch::Messages;
use ld_clients::Outcome;
use ld_ids::{LogId, Name, NoMemory, Payload};
use ld_lsn::Lsn;
use ld_msg::Style;
use std::alloc::Global;

impl Cluster {
    /// A new sequencer of a log, of its next epoch, for which what is set for the log is fixed.
    pub(crate) fn activate(
        &mut self,
        alloc: Global,
        name: &Name,
        log: LogId,
    ) -> Result<Outcome, NoMemory>
        requires reached { IsReached self.old }
        ensures same { OnErr result (IsSame self.old self.new) }
        ensures done { IfOk result (λ outcome. IsDone self.old self.new outcome (happens (config_of self.old) (state_of self.old) (Activate name.now log))) }
    {
        let spec = self.spec_set(log);
        let outcome = self
            .sequencers
            .activate(alloc, &self.config, name, log, &spec, &mut self.register)?;
        Ok(outcome)
    }

    /// A sequencer numbers a payload.
    pub(crate) fn append(
        &mut self,
        alloc: Global,
        name: &Name,
        payload: &Payload,
    ) -> Result<Outcome, NoMemory>
        requires reached { IsReached self.old }
        ensures same { OnErr result (IsSame self.old self.new) }
        ensures done { IfOk result (λ outcome. IsDone self.old self.new outcome (happens (config_of self.old) (state_of self.old) (Append name.now payload.now))) }
    {
        let outcome = self.sequencers.append(alloc, name, payload)?;
        Ok(outcome)
    }

    /// A sequencer appends a batch of messages.
    pub(crate) fn batch(
        &mut self,
        alloc: Global,
        name: &Name,
        messages: &Messages,
    ) -> Result<Outcome, NoMemory>
        requires reached { IsReached self.old }
        ensures same { OnErr result (IsSame self.old self.new) }
        ensures done { IfOk result (λ outcome. IsDone self.old self.new outcome (happens (config_of self.old) (state_of self.old) (Batch name.now messages.now))) }
    {
        let outcome = self.sequencers.batch(alloc, name, messages)?;
        Ok(outcome)
    }

    /// A sequencer trims its log.
    pub(crate) fn trim(
        &mut self,
        alloc: Global,
        name: &Name,
        point: Lsn,
    ) -> Result<Outcome, NoMemory>
        requires reached { IsReached self.old }
        ensures same { OnErr result (IsSame self.old self.new) }
        ensures done { IfOk result (λ outcome. IsDone self.old self.new outcome (happens (config_of self.old) (state_of self.old) (Trim name.now point))) }
    {
        let outcome = self.sequencers.trim(alloc, name, point)?;
        Ok(outcome)
    }

    /// A sequencer asks and sends again, and where its digest is spent it looks at the register again.
    pub(crate) fn retry(&mut self, alloc: Global, name: &Name) -> Result<Outcome, NoMemory>
        requires reached { IsReached self.old }
        ensures same { OnErr result (IsSame self.old self.new) }
        ensures done { IfOk result (λ outcome. IsDone self.old self.new outcome (happens (config_of self.old) (state_of self.old) (Retry name.now))) }
    {
        let outcome = self.sequencers.retry(alloc, name, &mut self.register)?;
        Ok(outcome)
    }

    /// A sequencer does what a retry does, and tells the released number once more.
    pub(crate) fn announce(&mut self, alloc: Global, name: &Name) -> Result<Outcome, NoMemory>
        requires reached { IsReached self.old }
        ensures same { OnErr result (IsSame self.old self.new) }
        ensures done { IfOk result (λ outcome. IsDone self.old self.new outcome (moves (config_of self.old) (state_of self.old) (Calms name.now))) }
    {
        let outcome = self.sequencers.calm(alloc, name, &mut self.register)?;
        Ok(outcome)
    }

    /// A sequencer is gone.
    pub(crate) fn retire(&mut self, alloc: Global, name: &Name) -> Result<Outcome, NoMemory>
        requires reached { IsReached self.old }
        ensures same { OnErr result (IsSame self.old self.new) }
        ensures done { IfOk result (λ outcome. IsDone self.old self.new outcome (happens (config_of self.old) (state_of self.old) (Drop name.now))) }
    {
        Ok(self.sequencers.drop(alloc, name))
    }

    /// A new reader of a log, that reads in this style.
    pub(crate) fn open(
        &mut self,
        alloc: Global,
        name: &Name,
        log: LogId,
        from: Lsn,
        until: Lsn,
        style: Style,
    ) -> Result<Outcome, NoMemory>
        requires reached { IsReached self.old }
        ensures same { OnErr result (IsSame self.old self.new) }
        ensures done { IfOk result (λ outcome. IsDone self.old self.new outcome (happens (config_of self.old) (state_of self.old) (opening style name.now log from until))) }
    {
        let outcome = self
            .readers
            .open(alloc, &self.config, name, log, from, until, style)?;
        Ok(outcome)
    }

    /// A reader looks at the register and asks the nodes of its next number. The register fails no look, so that a refusal is
    /// out of memory.
    pub(crate) fn poll(&mut self, alloc: Global, name: &Name) -> Result<Outcome, NoMemory>
        requires reached { IsReached self.old }
        ensures same { OnErr result (IsSame self.old self.new) }
        ensures done { IfOk result (λ outcome. IsDone self.old self.new outcome (happens (config_of self.old) (state_of self.old) (Poll name.now))) }
    {
        match self.readers.poll(alloc, name, &mut self.register) {
            Ok(outcome) => Ok(outcome),
            Err(_) => Err(NoMemory),
        }
    }
}
