// The answers of one node.
ghost use Rattle.std.specs.Prelude.{◌≡◌, ◌++◌, ◌∷◌, [], OnOk, OnErr, IfSome, MatchOption};
ghost use Rattle.ld_msg.specs.Bounds.{IsMessage};
ghost use Rattle.ld_node_bounds.specs.Messages.{AreMessages};

use ld_ids::NoMemory;
use ld_msg::{Msg, Outbox};
use std::alloc::Global;
use std::marker::Model;

/// Messages that a node answered, the first one first.
#[derive(Drop)]
pub struct Answers {
    messages: Vec<Msg>,
}

impl Model for Answers {
    ghost use Rattle.std.specs.Prelude.{List};
    ghost use Rattle.ld_msg.specs.declared.msg.Msg.{Msg};
    ghost use Rattle.ld_node_bounds.specs.Messages.{AreMessages};

    ghost Value = { List Msg };

    ghost view = { λ answers. answers.messages.items };

    ghost invariant = { λ answers. AreMessages answers.messages.items };
}

impl Answers {
    /// None.
    pub fn new(alloc: Global) -> Answers
        ensures { result ≡ [] }
    {
        Answers {
            messages: Vec::new(alloc),
        }
    }

    /// Moves what is sent behind the others. Without memory nothing changes.
    pub fn put_behind(&mut self, sends: Outbox) -> Result<(), NoMemory>
        requires { AreMessages sends }
        ensures ok { OnOk result (self.new ≡ self.old ++ sends) }
        ensures err { OnErr result (self.new ≡ self.old) }
    {
        let mut sends = sends.into_vec();
        self.messages.append(&mut sends)?;
        Ok(())
    }

    /// Takes the first one.
    pub fn take_first(&mut self) -> Option<Msg>
        ensures taken { MatchOption result ((self.old ≡ []) × (self.new ≡ [])) (λ first. self.old ≡ first ∷ self.new) }
        ensures message { IfSome result IsMessage }
    {
        if self.messages.is_empty() {
            return None;
        }
        Some(self.messages.remove(0))
    }

    /// Drops all of them.
    pub fn clear(&mut self)
        ensures { self.new ≡ [] }
    {
        self.messages.clear();
    }
}
