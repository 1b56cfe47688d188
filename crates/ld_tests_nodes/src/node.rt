// A node on a disk in memory: what it answers to messages, and what is there after a load.
mod register;
pub(crate) mod samples;

ghost use Rattle.std.specs.Prelude.{IfOk};
ghost use Rattle.ld_msg.specs.Bounds.{IsMessage, Fits};
ghost use Rattle.ld_msg.specs.declared.msg.Who.TheVariants as whos;

use crate::node::samples::{formatted, loaded, log_of, node_of};
use ld_disk::{Disk, Fault};
use ld_ids::{NoMemory, Payload};
use ld_lsn::Lsn;
use ld_msg::{Body, Msg, What, Who};
use ld_node::{Node, NodeFault};
use std::alloc::Global;
use std::test::Fail;

/// A message of log 1 to node 1.
fn to_node(from: Who, body: Body) -> Result<Msg, NoMemory>
    requires { Fits from (whos.Node 1) body }
    ensures { IfOk result IsMessage }
{
    Ok(Msg {
        from,
        to: Who::Node(node_of(1)?),
        log: log_of(1)?,
        body,
    })
}

/// What the sequencer of epoch 1 has stored at its first offset: this byte.
fn store(alloc: Global, byte: u8) -> Result<Msg, NoMemory>
    ensures { IfOk result IsMessage }
{
    let mut bytes = Vec::new(alloc);
    bytes.push(byte)?;
    to_node(
        Who::Sequencer(1),
        Body::Store {
            number: Lsn::new(1, 1),
            lng: 0,
            what: What::Rec(Payload::new(bytes)),
        },
    )
}

/// What the sequencer of epoch 1 has stored at its second offset, where all up to the first one is known good.
fn second_store(alloc: Global) -> Result<Msg, NoMemory>
    ensures { IfOk result IsMessage }
{
    let mut bytes = Vec::new(alloc);
    bytes.push(9)?;
    to_node(
        Who::Sequencer(1),
        Body::Store {
            number: Lsn::new(1, 2),
            lng: 1,
            what: What::Rec(Payload::new(bytes)),
        },
    )
}

/// The sequencer of epoch 2 asks for what stands in epoch 1.
fn digest_ask() -> Result<Msg, NoMemory>
    ensures { IfOk result IsMessage }
{
    to_node(
        Who::Sequencer(2),
        Body::DigestAsk {
            from: Lsn::new(1, 1),
        },
    )
}

/// What a node answers: a page with how many entries, and up to which offset all is known good.
#[derive(Clone, Copy, Debug, PartialEq, Eq)]
pub(crate) enum Answer {
    Stored,
    SealedUnder(u32),
    PageOf(usize, u32),
    Other,
}

/// The byte of the one record that a page of a digest has, 0 where it has another thing.
fn byte_in(body: &Body) -> u8 {
    match body {
        Body::DigestPage { entries, .. } => match entries.as_slice() {
            [one] => first_byte(&one.what),
            _ => 0,
        },
        _ => 0,
    }
}

fn first_byte(what: &What) -> u8 {
    match what {
        What::Rec(payload) => match payload.bytes() {
            [byte] => *byte,
            _ => 0,
        },
        _ => 0,
    }
}

fn answer_in(body: &Body) -> Answer {
    match body {
        Body::Stored { .. } => Answer::Stored,
        Body::SealedHere { sealed, .. } => Answer::SealedUnder(*sealed),
        Body::DigestPage { entries, lng, .. } => Answer::PageOf(entries.as_slice().len(), *lng),
        _ => Answer::Other,
    }
}

/// Gives a node a message, which has one answer.
fn give<D: Disk>(alloc: Global, node: &mut Node<D>, msg: &Msg) -> Result<Answer, NodeFault>
    requires { IsMessage msg.now }
{
    if node.is_blank() {
        return Err(NodeFault::Full);
    }
    let replies = node.on_msg(alloc, msg)?;
    match replies.as_slice() {
        [one] => Ok(answer_in(&one.body)),
        _ => Ok(Answer::Other),
    }
}

pub(crate) fn give_store<D: Disk>(alloc: Global, node: &mut Node<D>) -> Result<Answer, NodeFault> {
    give(alloc, node, &store(alloc, 9)?)
}

/// The same number and ballot, with another byte.
fn give_other_store<D: Disk>(alloc: Global, node: &mut Node<D>) -> Result<Answer, NodeFault> {
    give(alloc, node, &store(alloc, 8)?)
}

fn give_second_store<D: Disk>(alloc: Global, node: &mut Node<D>) -> Result<Answer, NodeFault> {
    give(alloc, node, &second_store(alloc)?)
}

fn give_digest_ask<D: Disk>(alloc: Global, node: &mut Node<D>) -> Result<Answer, NodeFault> {
    give(alloc, node, &digest_ask()?)
}

/// The byte of the one record that a digest has.
fn digest_byte<D: Disk>(alloc: Global, node: &mut Node<D>) -> Result<u8, NodeFault> {
    if node.is_blank() {
        return Err(NodeFault::Full);
    }
    let replies = node.on_msg(alloc, &digest_ask()?)?;
    match replies.as_slice() {
        [one] => Ok(byte_in(&one.body)),
        _ => Ok(0),
    }
}

/// How many entries and which byte a node tells of once it is loaded again, which took a record and another one in its place.
fn told_of_the_other(alloc: Global) -> Result<(Answer, u8), NodeFault> {
    let mut node = formatted(alloc)?;
    let _ = give_store(alloc, &mut node)?;
    let _ = give_other_store(alloc, &mut node)?;
    let mut again = loaded(alloc, node.into_disk())?;
    let page = give_digest_ask(alloc, &mut again)?;
    Ok((page, digest_byte(alloc, &mut again)?))
}

#[test]
fn what_is_stored_is_there_after_a_load(rt: HostRuntime) -> Result<(), Fail> {
    assert!(rt; told_of_the_other(rt.alloc()) == Ok((Answer::PageOf(1, 0), 8)));
    Ok(())
}

/// What a node whose next call of this kind fails answers to the record that it has, and then to another one.
fn answered_with(alloc: Global, fault: Fault) -> Result<[Result<Answer, NodeFault>; 2], NodeFault> {
    let mut node = formatted(alloc)?;
    let _ = give_store(alloc, &mut node)?;
    node.arm(fault);
    Ok([
        give_store(alloc, &mut node),
        give_other_store(alloc, &mut node),
    ])
}

#[test]
fn what_is_there_already_is_not_written_again(rt: HostRuntime) -> Result<(), Fail> {
    let answers = [Ok(Answer::Stored), Err(NodeFault::Disk)];
    assert!(rt; answered_with(rt.alloc(), Fault::FailAt(1)) == Ok(answers));
    Ok(())
}

#[test]
fn a_node_whose_read_failed_has_to_be_loaded_again(rt: HostRuntime) -> Result<(), Fail> {
    let answers = [Err(NodeFault::Disk), Err(NodeFault::NeedsLoad)];
    assert!(rt; answered_with(rt.alloc(), Fault::FailReadAt(1)) == Ok(answers));
    Ok(())
}

/// What a node tells once it is loaded again, which took the second record.
fn told_of_the_second(alloc: Global) -> Result<Answer, NodeFault> {
    let mut node = formatted(alloc)?;
    let _ = give_second_store(alloc, &mut node)?;
    let mut again = loaded(alloc, node.into_disk())?;
    give_digest_ask(alloc, &mut again)
}

#[test]
fn what_is_known_good_is_there_after_a_load(rt: HostRuntime) -> Result<(), Fail> {
    assert!(rt; told_of_the_second(rt.alloc()) == Ok(Answer::PageOf(1, 1)));
    Ok(())
}

/// What a node that is asked for a digest answers to a record once it is loaded again, and to the ask once more.
fn told_under_a_seal(alloc: Global) -> Result<[Answer; 2], NodeFault> {
    let mut node = formatted(alloc)?;
    let _ = give_digest_ask(alloc, &mut node)?;
    let mut again = loaded(alloc, node.into_disk())?;
    let refused = give_second_store(alloc, &mut again)?;
    Ok([refused, give_digest_ask(alloc, &mut again)?])
}

#[test]
fn a_store_refused_under_a_seal_tells_nothing_known_good(rt: HostRuntime) -> Result<(), Fail> {
    let answers = [Answer::SealedUnder(2), Answer::PageOf(0, 0)];
    assert!(rt; told_under_a_seal(rt.alloc()) == Ok(answers));
    Ok(())
}
