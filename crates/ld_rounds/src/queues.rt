// Messages that wait for nodes.
ghost use Rattle.std.specs.Prelude.{◌≡◌, ◌≤◌, [], set, OnOk, OnErr, IfOk, IfSome};
ghost use Rattle.ld_table.specs.Words.{first, any_of};
ghost use Rattle.ld_ids.specs.Id.{IsNode};
ghost use Rattle.ld_ids.specs.Set.{members};
ghost use Rattle.ld_msg.specs.Bounds.{IsMessage};
ghost use Rattle.ld_node_bounds.specs.Messages.{AreMessages};
ghost use Rattle.ld_rounds.specs.Queued.{queue_of, no_queues, put_one, put_all, PutsPart, waits, behind, are_empty};

use crate::queue::Queue;
use ld_ids::{NoMemory, NodeId, NodeSet};
use ld_msg::{Msg, Outbox, Who};
use std::alloc::Global;
use std::marker::Model;

/// As many queues as there are numbers up to the greatest of a node.
const COUNT: usize = 17;

/// The messages that wait for each node, in the order in which they came, and how many of them a visit sends before it takes
/// their answers, from 1 to 128.
#[derive(Drop)]
pub struct Queues {
    queues: Vec<Queue>,
    in_flight: u32,
}

impl Model for Queues {
    ghost use Rattle.std.specs.Prelude.{◌≤◌, List};
    ghost use Rattle.ld_msg.specs.declared.msg.Msg.{Msg};
    ghost use Rattle.ld_rounds.specs.Queued.{AreQueues};

    ghost Value = { List (List Msg) };

    ghost view = { λ a. a.queues.items };

    ghost invariant = { λ a. AreQueues a.queues.items × (1 ≤ a.in_flight) × (a.in_flight ≤ 128) };
}

impl Queues {
    /// No message waits. A visit sends up to `in_flight` of them before it takes their answers: 1 where that is 0, and 128
    /// where it is more.
    pub fn new(alloc: Global, in_flight: u32) -> Result<Queues, NoMemory>
        ensures { IfOk result (λ queues. queues ≡ no_queues) }
    {
        let mut queues = Vec::new(alloc);
        'numbers: for _ in 0..COUNT {
            queues.push(Queue::new(alloc))?;
        }
        Ok(Queues {
            queues,
            in_flight: in_flight.max(1).min(128),
        })
    }

    /// Each message comes behind those that wait for its node. Without memory the first ones have come, or none.
    pub fn push(&mut self, messages: Outbox) -> Result<(), NoMemory>
        requires { AreMessages messages }
        ensures ok { OnOk result (self.new ≡ put_all self.old messages) }
        ensures err { OnErr result (PutsPart self.old messages self.new) }
    {
        'messages: for message in messages.into_vec() {
            self.push_one(message)?;
        }
        Ok(())
    }

    /// The message comes behind those that wait for its node. One to another than a node waits for none. Without memory
    /// nothing changes.
    fn push_one(&mut self, message: Msg) -> Result<(), NoMemory>
        requires { IsMessage message }
        ensures ok { OnOk result (self.new ≡ put_one self.old message) }
        ensures err { OnErr result (self.new ≡ self.old) }
    {
        let _ = &self.queues;
        let Who::Node(node) = &message.to else {
            return Ok(());
        };
        let place = usize::from(node.number());
        self.queues[place].push(message)?;
        Ok(())
    }

    /// How many messages a visit sends before it takes their answers.
    pub fn in_flight(&self) -> u32
        ensures least { 1 ≤ result }
        ensures most { result ≤ 128 }
    {
        self.in_flight
    }

    /// Whether a message waits for the node.
    pub fn has(&self, node: NodeId) -> bool
        ensures waits { result ≡ waits (queue_of self.now node) }
        ensures node { IsNode node }
    {
        !self.queues[usize::from(node.number())].is_empty()
    }

    /// Whether a message waits for a node of the set.
    pub fn any(&self, set: &NodeSet) -> bool
        ensures { result ≡ any_of (λ y. waits (queue_of self.now y)) (members set.now) }
    {
        'nodes: for place in 0..set.len() {
            if let Some(node) = set.nth(place) {
                if self.has(node) {
                    return true;
                }
            }
        }
        false
    }

    /// Takes the first message that waits for the node.
    pub fn next(&mut self, node: NodeId) -> Option<Msg>
        ensures first { result ≡ first (queue_of self.old node) }
        ensures left { self.new ≡ set self.old node (behind (queue_of self.old node)) }
        ensures message { IfSome result IsMessage }
        ensures node { IsNode node }
    {
        self.queues[usize::from(node.number())].pop()
    }

    /// Drops all messages that wait for the node.
    pub fn drop_all(&mut self, node: NodeId)
        ensures dropped { self.new ≡ set self.old node [] }
        ensures node { IsNode node }
    {
        self.queues[usize::from(node.number())].clear();
    }

    /// Whether no message waits.
    pub fn are_empty(&self) -> bool
        ensures { result ≡ are_empty self.now }
    {
        'queues: for queue in &self.queues {
            if !queue.is_empty() {
                return false;
            }
        }
        true
    }
}
