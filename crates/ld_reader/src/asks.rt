// Messages that ask nodes.
ghost use Rattle.std.specs.Prelude.{◌≡◌, ◌≤◌, ◌+◌, ◌++◌, ℕ, if◌then◌else◌, IfSome, OnOk, OnErr, All, length, take};
ghost use Rattle.ld_ids.specs.Set.{members};
ghost use Rattle.ld_msg.specs.declared.msg.Who.TheVariants as whos;
ghost use Rattle.ld_msg.specs.Bounds.{Is32, IsMessage, last_reader};
ghost use Rattle.ld_msg.specs.Reader.{round_ask};
ghost use Rattle.ld_reader.specs.Following.{messages_from};
ghost use Rattle.ld_reader.specs.Rounds.{IsShared, asks_once, asks_twice};

use crate::senders::Senders;
use ld_ids::{LogId, NoMemory, NodeId, NodeSet};
use ld_lsn::Lsn;
use ld_msg::{Body, Msg, Outbox, Who};
use std::alloc::Global;
use std::mem;

/// What a reader asks: its place in the order of opening, its log, the number, and the senders,
/// where one node is to send each payload.
#[derive(Clone, Copy)]
pub struct Ask {
    pub reader: u32,
    pub log: LogId,
    pub from: Lsn,
    pub senders: Option<Senders>,
}

impl Ask {
    // What each node is asked in a round.
    fn body(&self, round: u32) -> Body
        ensures body { result ≡ round_ask self.now.senders round self.now.from }
        ensures shared { IfSome self.now.senders (λ o. IsShared o.set o.excluded) }
    {
        match &self.senders {
            Some(senders) => senders.ask(round, self.from),
            None => Body::ReadAsk {
                round,
                from: self.from,
            },
        }
    }

    // The message to one node in a round, which a frame can carry.
    fn message_to(&self, node: NodeId, round: u32) -> Msg
        requires reader { self.now.reader ≤ last_reader }
        requires round { Is32 round }
        requires from { 1 ≤ self.now.from }
        ensures exact { result ≡ record { from = whos.Reader self.now.reader; to = whos.Node node; log = self.now.log; body = round_ask self.now.senders round self.now.from } }
        ensures message { IsMessage result }
    {
        let _node = node.number();
        let _log = self.log.number();
        let _from = self.from.value();
        Msg {
            from: Who::Reader(self.reader),
            to: Who::Node(node),
            log: self.log,
            body: self.body(round),
        }
    }

    // Adds a message to each node. Without memory the list keeps what it had, and perhaps some of
    // the messages.
    fn add_each(&self, nodes: &NodeSet, round: u32, list: &mut Vec<Msg>) -> Result<(), NoMemory>
        requires reader { self.now.reader ≤ last_reader }
        requires round { Is32 round }
        requires from { 1 ≤ self.now.from }
        ensures ok { OnOk result (list.new.items
            ≡ list.old.items ++ messages_from self.now.reader self.now.log (asks_once self.now.senders round self.now.from (members nodes.now))) }
        ensures err { OnErr result ((n : ℕ) → n ≤ length list.old.items → take n list.new.items ≡ take n list.old.items) }
        ensures messages { All IsMessage list.old.items → All IsMessage list.new.items }
    {
        for place in 0..nodes.len() {
            if let Some(node) = nodes.nth(place) {
                list.push(self.message_to(node, round))?;
            }
        }
        Ok(())
    }

    // The same, and where it is `twice` under the next round too.
    fn add_rounds(
        &self,
        nodes: &NodeSet,
        round: u32,
        twice: bool,
        list: &mut Vec<Msg>,
    ) -> Result<(), NoMemory>
        requires reader { self.now.reader ≤ last_reader }
        requires round { Is32 (if twice then round + 1 else round) }
        requires from { 1 ≤ self.now.from }
        ensures ok { OnOk result (list.new.items
            ≡ list.old.items ++ messages_from self.now.reader self.now.log (asks_twice twice self.now.senders round self.now.from (members nodes.now))) }
        ensures err { OnErr result (take (length list.old.items) list.new.items ≡ list.old.items) }
        ensures messages { All IsMessage list.old.items → All IsMessage list.new.items }
    {
        self.add_each(nodes, round, list)?;
        if twice {
            self.add_each(nodes, round + 1, list)?;
        }
        Ok(())
    }

    /// Sends a message to each node in a round, and where it is `twice` one in the next round too.
    /// A frame can carry each. Without memory nothing is sent.
    pub fn send_each(
        &self,
        alloc: Global,
        nodes: &NodeSet,
        round: u32,
        twice: bool,
        out: &mut Outbox,
    ) -> Result<(), NoMemory>
        requires reader { self.now.reader ≤ last_reader }
        requires round { Is32 (if twice then round + 1 else round) }
        requires from { 1 ≤ self.now.from }
        ensures ok { OnOk result (out.new
            ≡ out.old ++ messages_from self.now.reader self.now.log (asks_twice twice self.now.senders round self.now.from (members nodes.now))) }
        ensures err { OnErr result (out.new ≡ out.old) }
        ensures messages { All IsMessage out.old → All IsMessage out.new }
    {
        let mut list = mem::replace(out, Outbox::empty(alloc)).into_vec();
        let len = list.len();
        let sent = self.add_rounds(nodes, round, twice, &mut list);
        if sent.is_err() {
            list.truncate(len);
        }
        *out = Outbox::new(list);
        sent
    }
}
