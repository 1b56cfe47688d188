// The network.
ghost use Rattle.std.specs.Prelude.{◌≡◌, IfOk, OnOk, OnErr, option_copied};
ghost use Rattle.ld_msg.specs.Network.{no_messages, send, message, oldest_new, mark};
ghost use Rattle.ld_net.specs.Kept.{flags, IsBefore, IsFirst};

use ld_ids::NoMemory;
use ld_msg::Msg;
use std::alloc::Global;
use std::marker::Model;

/// A message that was sent, and whether it is new.
#[derive(Drop)]
pub struct Sent {
    pub msg: Msg,
    pub is_new: bool,
}

/// All messages in the order of sending. A message is new until it is marked.
#[derive(Drop)]
pub struct Net {
    sent: Vec<Sent>,
    first: usize,
}

impl Model for Net {
    ghost use Rattle.ld_msg.specs.Network.{Network};

    ghost Value = { Network };

    ghost use Rattle.ld_net.specs.Kept.{network, flags, IsFirst};

    ghost view = { λ n. network n.sent.items };

    ghost invariant = { λ n. IsFirst (flags n.sent.items) n.first };
}

impl Net {
    /// No messages.
    pub fn new(alloc: Global) -> Net
        ensures { result ≡ no_messages }
    {
        Net {
            sent: Vec::new(alloc),
            first: 0,
        }
    }

    /// How many messages there are.
    pub fn count(&self) -> u64
        ensures { result ≡ self.now.count }
    {
        self.sent.len() as u64
    }

    /// Sends the message, which is new then, and answers its number: 0 for the first one. Without
    /// memory nothing changes.
    #[tactic(auto, using(crate::proofs::Places::net_rules))]
    pub fn send(&mut self, msg: Msg) -> Result<u64, NoMemory>
        ensures number { IfOk result (λ number. number ≡ self.old.count) }
        ensures ok { OnOk result (self.new ≡ send self.old msg) }
        ensures err { OnErr result (self.new ≡ self.old) }
    {
        let number = self.sent.len() as u64;
        self.sent.push(Sent { msg, is_new: true })?;
        Ok(number)
    }

    /// The message of the number.
    #[tactic(auto, using(crate::proofs::Places::net_rules))]
    pub fn get(&self, number: u64) -> Option<&Msg>
        ensures { option_copied result ≡ message self.now number }
    {
        let place = number as usize;
        if place < self.sent.len() {
            Some(&self.sent[place].msg)
        } else {
            None
        }
    }

    /// The number of the first message that is new.
    pub fn oldest_new(&self) -> Option<u64>
        ensures { result ≡ oldest_new self.now }
    {
        if self.first < self.sent.len() {
            Some(self.first as u64)
        } else {
            None
        }
    }

    /// The message of the number, where there is one, isn't new any more.
    #[tactic(auto, using(crate::proofs::Places::net_rules))]
    pub fn mark(&mut self, number: u64)
        ensures { self.new ≡ mark self.old number }
    {
        let place = number as usize;
        if place < self.sent.len() {
            self.sent[place].is_new = false;
            self.first = first_new(&self.sent, self.first);
        }
    }
}

/// The place of the first new message from a place on.
#[tactic(auto, using(crate::proofs::Places::net_rules))]
fn first_new(sent: &[Sent], from: usize) -> usize
    requires { IsBefore (flags sent.now) from }
    ensures { IsFirst (flags sent.now) result }
{
    let mut first = from;
    while first < sent.len() && !sent[first].is_new {
        first += 1;
    }
    first
}
