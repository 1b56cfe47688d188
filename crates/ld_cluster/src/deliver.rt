// Deliveries.
ghost use Rattle.std.specs.Prelude.{◌≡◌, IfOk, OnErr};
ghost use Rattle.ld_schedule.specs.declared.event.Event.TheVariants.{Deliver};
ghost use Rattle.ld_msg.specs.Bounds.{IsMessage};
ghost use Rattle.ld_msg.specs.declared.msg.Who.TheVariants.{Node, Sequencer, Reader};
ghost use Rattle.ld_machine.specs.State.{sequencer_of, reader_of};
ghost use Rattle.ld_machine.specs.Step.{happens, comes_to, to_node, to_sequencer, to_reader, marked};
ghost use Rattle.ld_cluster.specs.Standing.{config_of, state_of, Stands, IsReached};
ghost use Rattle.ld_cluster.specs.Outcomes.{IsSame, IsDone};

use crate::cluster::Cluster;
use crate::lines::kept;
use ld_clients::Outcome;
use ld_ids::{NoMemory, NodeId};
use ld_msg::{Msg, Who};
use std::alloc::Global;

impl Cluster {
    /// The message comes to its addressee, and is no longer new.
    pub(crate) fn deliver(&mut self, alloc: Global, number: u64) -> Result<Outcome, NoMemory>
        requires reached { IsReached self.old }
        ensures same { OnErr result (IsSame self.old self.new) }
        ensures done { IfOk result (λ outcome. IsDone self.old self.new outcome (happens (config_of self.old) (state_of self.old) (Deliver number))) }
    {
        let Some(found) = self.network.get(number) else {
            return Ok(Outcome::nothing(alloc));
        };
        let msg = found.copy(alloc)?;
        self.network.mark(number);
        let outcome = self.come(alloc, number, &msg)?;
        Ok(outcome)
    }

    /// The message of the number, which is marked, comes to its addressee.
    fn come(&mut self, alloc: Global, number: u64, msg: &Msg) -> Result<Outcome, NoMemory>
        requires message { IsMessage msg.now }
        requires stands { Stands self.old (marked (state_of self.old) number) }
        ensures same { OnErr result (IsSame self.old self.new) }
        ensures done { IfOk result (λ outcome. IsDone self.old self.new outcome (comes_to (config_of self.old) (marked (state_of self.old) number) msg.now msg.now.to)) }
    {
        match &msg.to {
            Who::Node(node) => {
                let outcome = self.to_node(alloc, number, *node, msg)?;
                Ok(outcome)
            }
            Who::Sequencer(epoch) => {
                let outcome = self
                    .sequencers
                    .on_reply(alloc, *epoch, msg, &mut self.register)?;
                Ok(outcome)
            }
            Who::Reader(reader) => {
                let outcome = self.to_reader(alloc, number, *reader, msg)?;
                Ok(outcome)
            }
        }
    }

    /// A message to a node, which does nothing unless the node is up and the log is one of the configuration's.
    fn to_node(
        &mut self,
        alloc: Global,
        number: u64,
        node: NodeId,
        msg: &Msg,
    ) -> Result<Outcome, NoMemory>
        requires message { IsMessage msg.now }
        requires to { msg.now.to ≡ Node node }
        requires stands { Stands self.old (marked (state_of self.old) number) }
        ensures same { OnErr result (IsSame self.old self.new) }
        ensures done { IfOk result (λ outcome. IsDone self.old self.new outcome (to_node (config_of self.old) (marked (state_of self.old) number) node msg.now)) }
    {
        if !self.serves(node, msg.log) {
            return Ok(Outcome::nothing(alloc));
        }
        let (end, sends) = self.hosts.on_msg(alloc, node, msg)?;
        let lines = kept(alloc, node, end, Vec::new(alloc))?;
        Ok(Outcome { lines, sends })
    }

    /// A message to a reader. The register fails no look, so that a refusal is out of memory.
    fn to_reader(
        &mut self,
        alloc: Global,
        number: u64,
        reader: u32,
        msg: &Msg,
    ) -> Result<Outcome, NoMemory>
        requires message { IsMessage msg.now }
        requires to { msg.now.to ≡ Reader reader }
        requires stands { Stands self.old (marked (state_of self.old) number) }
        ensures same { OnErr result (IsSame self.old self.new) }
        ensures done { IfOk result (λ outcome. IsDone self.old self.new outcome (to_reader (config_of self.old) (marked (state_of self.old) number) msg.now (reader_of reader (state_of self.old).readers))) }
    {
        match self
            .readers
            .on_reply(alloc, reader, msg, &mut self.register)
        {
            Ok(outcome) => Ok(outcome),
            Err(_) => Err(NoMemory),
        }
    }
}
