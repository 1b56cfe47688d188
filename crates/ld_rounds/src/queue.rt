// The messages that wait for one node.
ghost use Rattle.std.specs.Prelude.{◌≡◌, ◌++◌, ◌∷◌, [], OnOk, OnErr, IfSome, not};
ghost use Rattle.ld_table.specs.Words.{first};
ghost use Rattle.ld_msg.specs.Bounds.{IsMessage};
ghost use Rattle.ld_rounds.specs.Queued.{waits, behind};

use ld_ids::NoMemory;
use ld_msg::Msg;
use std::alloc::Global;
use std::collections::VecDeque;
use std::marker::Model;

/// Messages, the first one first.
#[derive(Drop)]
pub struct Queue {
    messages: VecDeque<Msg>,
}

impl Model for Queue {
    ghost use Rattle.std.specs.Prelude.{List};
    ghost use Rattle.ld_msg.specs.declared.msg.Msg.{Msg};
    ghost use Rattle.ld_node_bounds.specs.Messages.{AreMessages};

    ghost Value = { List Msg };

    ghost view = { λ a. a.messages.items };

    ghost invariant = { λ a. AreMessages a.messages.items };
}

impl Queue {
    /// None.
    pub fn new(alloc: Global) -> Queue
        ensures { result ≡ [] }
    {
        Queue {
            messages: VecDeque::new(alloc),
        }
    }

    /// The message comes behind the others. Without memory nothing changes.
    #[tactic(auto, using(crate::proofs::Queueing::queue_rules))]
    pub fn push(&mut self, message: Msg) -> Result<(), NoMemory>
        requires { IsMessage message }
        ensures ok { OnOk result (self.new ≡ self.old ++ message ∷ []) }
        ensures err { OnErr result (self.new ≡ self.old) }
    {
        self.messages.push_back(message)?;
        Ok(())
    }

    /// Takes the first message.
    #[tactic(auto, using(crate::proofs::Queueing::queue_rules))]
    pub fn pop(&mut self) -> Option<Msg>
        ensures first { result ≡ first self.old }
        ensures left { self.new ≡ behind self.old }
        ensures message { IfSome result IsMessage }
    {
        self.messages.pop_front()
    }

    /// Drops all messages.
    pub fn clear(&mut self)
        ensures { self.new ≡ [] }
    {
        self.messages.clear();
    }

    /// Whether there is none.
    pub fn is_empty(&self) -> bool
        ensures { result ≡ not (waits self.now) }
    {
        self.messages.is_empty()
    }
}
