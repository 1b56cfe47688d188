// Nodes that take the places of others.
ghost use Rattle.std.specs.Prelude.{◌≡◌, [], List, ℕ, IfOk, OnErr};
ghost use Rattle.ld_config.specs.declared.config.Config.{Config as Settings};
ghost use Rattle.ld_msg.specs.Register.{Register as Contents};
ghost use Rattle.ld_machine.specs.Disk.{Node};
ghost use Rattle.ld_host.specs.Done.{replaced, after_replace};
ghost use Rattle.ld_host.specs.Standing.{AreHosts, node_in};
ghost use Rattle.ld_schedule.specs.declared.event.Event.TheVariants.{Replace};
ghost use Rattle.ld_machine.specs.Step.{happens};
ghost use Rattle.ld_cluster.specs.Standing.{config_of, state_of, IsReached};
ghost use Rattle.ld_cluster.specs.Outcomes.{IsSame, IsDone};
ghost use Rattle.ld_cluster.specs.Swaps.{swap_lines};

use crate::cluster::Cluster;
use ld_clients::Outcome;
use ld_host::Hosts;
use ld_ids::{LogId, NoMemory, NodeId};
use ld_register::{Register, RegisterFault};
use ld_transcript::Line;
use std::alloc::Global;

impl Cluster {
    /// A node that has all that it lost of a log takes the place of another one in the register, in the closed epochs up to
    /// the one that it was lost for.
    pub(crate) fn replace(
        &mut self,
        alloc: Global,
        node: NodeId,
        other: NodeId,
        log: LogId,
    ) -> Result<Outcome, NoMemory>
        requires reached { IsReached self.old }
        ensures same { OnErr result (IsSame self.old self.new) }
        ensures done { IfOk result (λ outcome. IsDone self.old self.new outcome (happens (config_of self.old) (state_of self.old) (Replace node other log))) }
    {
        if !self.config.nodes.has(node) {
            return Ok(Outcome::nothing(alloc));
        }
        let outcome = swap(alloc, node, log, other, &self.hosts, &mut self.register)?;
        Ok(outcome)
    }
}

/// The node asks for the other one's place, and tells what the register answers.
fn swap<G: Register>(
    alloc: Global,
    node: NodeId,
    log: LogId,
    other: NodeId,
    hosts: &Hosts,
    reg: &mut G,
) -> Result<Outcome, NoMemory>
    ensures lines { (c : Settings) (nodes : List (ℕ × Node)) (r : Contents) → AreHosts c hosts.now nodes → G.tells reg.old r
        → IfOk result (λ outcome. (outcome.lines.items ≡ swap_lines node log other (replaced c node (node_in nodes node) other log r)) × G.tells reg.new (after_replace c node (node_in nodes node) other log r)) }
    ensures sends { IfOk result (λ outcome. outcome.sends ≡ []) }
{
    match hosts.replace(alloc, node, log, other, reg) {
        Ok(answer) => swap_told(alloc, node, log, other, answer),
        Err(refused) => Err(refused),
    }
}

/// What is told of a swap: in how many epochs it changed the nodes, where it did, or why the register refused it.
fn swap_told(
    alloc: Global,
    node: NodeId,
    log: LogId,
    other: NodeId,
    answer: Result<u32, RegisterFault>,
) -> Result<Outcome, NoMemory>
    ensures lines { IfOk result (λ outcome. outcome.lines.items ≡ swap_lines node log other answer) }
    ensures sends { IfOk result (λ outcome. outcome.sends ≡ []) }
{
    match answer {
        Ok(count) => {
            if count == 0 {
                return Ok(Outcome::nothing(alloc));
            }
            Outcome::line(
                alloc,
                Line::NodeReplaced {
                    node,
                    log,
                    other,
                    count,
                },
            )
        }
        Err(RegisterFault::SwapLimit) => Outcome::line(alloc, Line::NodeRefusedSwapLimit { node }),
        Err(_) => Outcome::line(alloc, Line::NodeRefusedRegister { node }),
    }
}
