// Whom a message is for, what it releases, and what is sent back.
ghost use Rattle.std.specs.Prelude.{◌≡◌, ℕ, OnOk, OnErr, IfOk, Option, Some, None};
ghost use Rattle.std.specs.Option.{unwrap_or};
ghost use Rattle.ld_table.specs.Table.{find, put};
ghost use Rattle.ld_op.specs.declared.op.Op.{Op as Kept};
ghost use Rattle.ld_op.specs.Cells.{each_plain};
ghost use Rattle.ld_op.specs.Handles.{answer_message};
ghost use Rattle.ld_msg.specs.Bounds.{Is64, IsMessage};
ghost use Rattle.ld_node_bounds.specs.Messages.{AreMessages};
ghost use Rattle.ld_store.specs.Well.{IsWell};
ghost use Rattle.ld_node.specs.Changes.{AreChanges};
ghost use Rattle.ld_store.specs.Open.{within};
ghost use Rattle.ld_node.specs.Handling.{IsHandledWith, IsEither, Stays, reply_in};
ghost use Rattle.ld_node.specs.Msgs.{is_node, is_for, released_in, released_by, raised, handled};

use crate::handled::{Handled, Reply, handle};
use crate::known::Known;
use ld_ids::{LogId, NoMemory, NodeId};
use ld_lsn::Lsn;
use ld_msg::{Body, Msg, Replies, Who};
use ld_op::Plain;
use std::alloc::Global;
use std::collections::BTreeMap;

/// Whether it is the node of this number.
fn is_node(id: NodeId, who: Who) -> bool
    ensures { result ≡ is_node id who }
{
    match who {
        Who::Node(node) => node == id,
        Who::Sequencer(_) => false,
        Who::Reader(_) => false,
    }
}

/// Whether a message is for the node of this number, and of a log that it knows.
pub(crate) fn is_for(id: NodeId, known: &Known, msg: &Msg) -> bool
    ensures { result ≡ is_for id known.now msg.now }
{
    is_node(id, msg.to) && known.has_log(msg.log)
}

/// The released number of a log, 0 where none was told.
#[tactic(auto, unfolding(ld_table::specs::Table::find))]
pub(crate) fn released_in(released: &BTreeMap<u32, Lsn>, log: LogId) -> Lsn
    ensures value { result ≡ released_in released.now.entries log }
    ensures bound { Is64 result }
{
    let number = released
        .get(&log.number())
        .copied()
        .unwrap_or(Lsn::from_u64(0));
    let _value = number.value();
    number
}

/// The number that a message releases at the node of this number, where it does.
#[tactic(auto, unfolding(crate::specs::Msgs::released_by))]
pub(crate) fn released_by(id: NodeId, known: &Known, msg: &Msg) -> Option<Lsn>
    ensures { result ≡ released_by id known.now msg.now }
{
    if !is_for(id, known, msg) {
        return None;
    }
    match &msg.body {
        Body::Release { released } => Some(*released),
        _ => None,
    }
}

/// Raises the released number of a log, where one is told. Without memory nothing changes.
#[tactic(auto, unfolding(ld_table::specs::Table::put, ld_op::specs::Answers::on_release))]
pub(crate) fn release(
    released: &mut BTreeMap<u32, Lsn>,
    log: LogId,
    number: Option<Lsn>,
) -> Result<(), NoMemory>
    ensures ok { OnOk result (released.new.entries ≡ raised released.old.entries log number) }
    ensures err { OnErr result (released.new.entries ≡ released.old.entries) }
{
    let Some(number) = number else {
        return Ok(());
    };
    let before = released_in(released, log);
    match released.insert(log.number(), before.later(number)) {
        Ok(_) => Ok(()),
        Err(_) => Err(NoMemory),
    }
}

/// What is sent back to whom a message came from.
pub(crate) fn reply(
    alloc: Global,
    id: NodeId,
    msg: &Msg,
    body: Option<Body>,
) -> Result<Replies, NoMemory>
    ensures { IfOk result (λ sends. sends ≡ answer_message id msg.now body) }
{
    let mut sends = Replies::empty(alloc);
    let Some(body) = body else {
        return Ok(sends);
    };
    sends.push(Msg {
        from: Who::Node(id),
        to: msg.from,
        log: msg.log,
        body,
    })?;
    Ok(sends)
}

/// What the node of this number makes of a message, by its index.
#[tactic(auto, unfolding(crate::specs::Msgs::handled))]
pub(crate) fn decide(
    alloc: Global,
    id: NodeId,
    known: &Known,
    released: &BTreeMap<u32, Lsn>,
    plain: &Plain,
    msg: &Msg,
) -> Result<Handled, NoMemory>
    requires msg { IsMessage msg.now }
    requires well { IsWell plain.now.state }
    ensures handled { (f : ℕ → ℕ) → IfOk result (λ done. IsHandledWith f msg.now done (handled id known.now released.now.entries (each_plain f plain.now.state) msg.now)) }
    ensures stays { (count : ℕ) → each_plain (within count) plain.now.state ≡ plain.now.state → IfOk result (λ done. Stays (within count) done.answer) }
    ensures change { IfOk result (λ done. (op : Option Kept) → IsEither msg.now done.op done.answer op → AreChanges op) }
    ensures released { IfOk result (λ done. (op : Option Kept) (y : ℕ) → IsEither msg.now done.op done.answer op → released_by id known.now msg.now ≡ Some y → op ≡ None) }
    ensures messages { IfOk result (λ done. AreMessages (answer_message id msg.now (reply_in msg.now done.answer))) }
{
    if !is_for(id, known, msg) {
        return Ok(Handled {
            op: None,
            answer: Reply::Nothing,
        });
    }
    let before = released_in(released, msg.log);
    let _node = id.number();
    let handled = handle(alloc, id, plain, before, msg)?;
    Ok(handled)
}
