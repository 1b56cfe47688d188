// The asks of a lost node.
ghost use Rattle.std.specs.Prelude.{◌≡◌, ◌≤◌, ◌++◌, ◌∷◌, [], OnOk, OnErr, All, length, take};
ghost use Rattle.ld_ids.specs.Set.{members};
ghost use Rattle.ld_msg.specs.declared.msg.Who.TheVariants.{Node};
ghost use Rattle.ld_msg.specs.declared.msg.Body.TheVariants.{ReadAsk};
ghost use Rattle.ld_msg.specs.Bounds.{IsMessage};
ghost use Rattle.ld_msg.specs.Network.{posted};
ghost use Rattle.ld_op.specs.Plain.{log_of};
ghost use Rattle.ld_op.specs.Ticks.{refill_asks};
ghost use Rattle.ld_rebuild.specs.Lacks.{asks_of};

use ld_ids::{LogId, NoMemory, NodeId, NodeSet};
use ld_lsn::Lsn;
use ld_msg::{Body, Msg, Outbox, Who};
use ld_op::Plain;
use std::alloc::Global;
use std::mem;

/// Asks all other of these nodes for what stands from the lowest missing number on. The node is `id`. Nothing is sent
/// where it isn't lost for the log, or no number of a clean epoch is missing. The asks have round 0, and go to the nodes
/// in rising order; each is a message that a frame can carry. Without memory nothing is sent. It takes time in
/// what it sends, and logarithmic time to find that number.
#[tactic(auto, unfolding(ld_op::specs::Ticks::refill_asks))]
pub fn asks(
    alloc: Global,
    plain: &Plain,
    id: NodeId,
    log: LogId,
    nodes: &NodeSet,
    out: &mut Outbox,
) -> Result<(), NoMemory>
    ensures ok { OnOk result (out.new ≡ out.old ++ posted (Node id) log (refill_asks id (members nodes.now) (log_of plain.now.state log))) }
    ensures err { OnErr result (out.new ≡ out.old) }
    ensures messages { All IsMessage out.old → All IsMessage out.new }
{
    if !plain.is_lost(log) {
        return Ok(());
    }
    match plain.first_missing(log) {
        Some(from) => send_asks(alloc, &Ask { id, log, from }, nodes, out),
        None => Ok(()),
    }
}

/// What a node asks: its own number, the log, and the number from which on.
#[derive(Drop)]
struct Ask {
    id: NodeId,
    log: LogId,
    from: Lsn,
}

impl Ask {
    /// The ask of one node, which a frame can carry.
    fn message_to(&self, node: NodeId) -> Msg
        requires { 1 ≤ self.now.from }
        ensures exact { result ≡ record { from = Node self.now.id; to = Node node; log = self.now.log; body = ReadAsk 0 self.now.from } }
        ensures message { IsMessage result }
    {
        let _here = self.id.number();
        let _there = node.number();
        let _log = self.log.number();
        let _from = self.from.value();
        Msg {
            from: Who::Node(self.id),
            to: Who::Node(node),
            log: self.log,
            body: Body::ReadAsk {
                round: 0,
                from: self.from,
            },
        }
    }
}

/// Asks all other of the nodes. Without memory nothing is sent.
fn send_asks(alloc: Global, ask: &Ask, nodes: &NodeSet, out: &mut Outbox) -> Result<(), NoMemory>
    requires { 1 ≤ ask.now.from }
    ensures ok { OnOk result (out.new ≡ out.old ++ asks_of ask.now.id ask.now.log ask.now.from (members nodes.now)) }
    ensures err { OnErr result (out.new ≡ out.old) }
    ensures messages { All IsMessage out.old → All IsMessage out.new }
{
    let mut list = mem::replace(out, Outbox::empty(alloc)).into_vec();
    let len = list.len();
    let sent = add_asks(ask, nodes, &mut list);
    if sent.is_err() {
        list.truncate(len);
    }
    *out = Outbox::new(list);
    sent
}

/// Adds an ask of each other of the nodes. Without memory the list keeps what it had, and perhaps some of the asks.
fn add_asks(ask: &Ask, nodes: &NodeSet, list: &mut Vec<Msg>) -> Result<(), NoMemory>
    requires { 1 ≤ ask.now.from }
    ensures ok { OnOk result (list.new.items
        ≡ list.old.items ++ asks_of ask.now.id ask.now.log ask.now.from (members nodes.now)) }
    ensures err { OnErr result (take (length list.old.items) list.new.items ≡ list.old.items) }
    ensures messages { All IsMessage list.old.items → All IsMessage list.new.items }
{
    for place in 0..nodes.len() {
        if let Some(node) = nodes.nth(place) {
            add_ask(ask, node, list)?;
        }
    }
    Ok(())
}

/// Adds an ask of the node, where it is another one. Without memory nothing changes.
fn add_ask(ask: &Ask, node: NodeId, list: &mut Vec<Msg>) -> Result<(), NoMemory>
    requires { 1 ≤ ask.now.from }
    ensures ok { OnOk result (list.new.items ≡ list.old.items ++ asks_of ask.now.id ask.now.log ask.now.from (node ∷ [])) }
    ensures err { OnErr result (list.new.items ≡ list.old.items) }
    ensures messages { All IsMessage list.old.items → All IsMessage list.new.items }
{
    if node == ask.id {
        return Ok(());
    }
    list.push(ask.message_to(node))?;
    Ok(())
}
