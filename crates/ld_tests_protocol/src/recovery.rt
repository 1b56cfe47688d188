// The recovery of epoch 1 by the sequencer of epoch 2, of a log on the nodes 1, 2 and 3 with each record on two.
ghost use Rattle.std.specs.Prelude.{◌≡◌, ◌≤◌, ◌<◌, ◌-◌, ◌^◌, true, false};
ghost use Rattle.ld_msg.specs.Bounds.{IsMessage};
ghost use Rattle.ld_recovery.specs.Recovering.{IsReplyTo};
ghost use Rattle.ld_recovery.specs.States.{is_epoch_answer};

use crate::nodes::nodes;
use ld_ids::{LogId, NoMemory, NodeId, Spec};
use ld_lsn::Lsn;
use ld_msg::{Body, Entries, Msg, Outbox, Summary, Who};
use ld_recovery::{Answer, Recovery, State};
use std::alloc::Global;
use std::test::Fail;

// The greatest offset of an epoch.
const LAST: u32 = 4_294_967_295;

// The log.
fn three_nodes(log: LogId) -> Spec
    ensures { result.r ≡ 2 }
{
    Spec {
        log,
        set: nodes(1, 3),
        r: 2,
        extras: 0,
    }
}

// A node stored what has this offset.
fn stored(esn: u32) -> Body
    ensures { IsReplyTo 2 result }
{
    Body::Stored {
        number: Lsn::new(1, esn),
    }
}

// A node trimmed all up to this offset.
fn trimmed(esn: u32) -> Body
    ensures { IsReplyTo 2 result }
{
    Body::TrimmedHere {
        number: Lsn::new(1, 1),
        trim: Lsn::new(1, esn),
    }
}

// A node is sealed by this epoch.
fn sealed(by: u32) -> Body
    ensures { IsReplyTo 2 result }
{
    Body::SealedHere {
        number: Lsn::new(1, 1),
        sealed: by,
    }
}

// A node lost the epoch.
fn lost() -> Body
    ensures { IsReplyTo 2 result }
{
    Body::LostHere {
        number: Lsn::new(1, 1),
        round: 0,
        generation: 1,
        end: Lsn::from_u64(0),
    }
}

// The summary of an epoch that a sequencer closed.
fn closed(ballot: u32, end: u32) -> Summary
    ensures { result ≡ record { ballot = ballot; lng = 0; trim = 0; end = end; loss = false } }
{
    Summary {
        ballot,
        lng: 0,
        trim: Lsn::from_u64(0),
        end,
        loss: false,
    }
}

// An epoch is clean on a node.
fn clean(epoch: u32, ballot: u32) -> Body
    requires later { epoch < ballot }
    requires ballot { ballot ≤ 2 ^ 32 - 2 }
    ensures { IsReplyTo 2 result }
{
    Body::CleanHere {
        number: Lsn::new(epoch, 1),
        summary: closed(ballot, 9),
    }
}

// A node has nothing from an offset up to another.
fn nothing(alloc: Global, from: u32, upto: u32) -> Body
    requires one { 1 ≤ from }
    requires range { from ≤ upto }
    ensures { IsReplyTo 2 result }
{
    Body::DigestPage {
        from: Lsn::new(1, from),
        upto: Lsn::new(1, upto),
        trim: Lsn::from_u64(0),
        lng: 0,
        entries: Entries::empty(alloc),
    }
}

// The body of a reply: `n` where the node has nothing of the epoch, `s` where it stored the bridge at the offset 1, `t` where it trimmed
// all up to the offset 1, a digit where it is sealed by that epoch, `l` where it lost the epoch, `c` where the epoch is clean there,
// and `o` where the epoch of the recovery's own sequencer is.
fn body(alloc: Global, reply: u8) -> Body
    ensures { IsReplyTo 2 result }
{
    match reply {
        b'n' => nothing(alloc, 1, LAST),
        b's' => stored(1),
        b't' => trimmed(1),
        b'2' => sealed(2),
        b'3' => sealed(3),
        b'l' => lost(),
        b'c' => clean(1, 7),
        _ => clean(2, 7),
    }
}

// A node's reply.
fn message(alloc: Global, log: LogId, node: NodeId, reply: u8) -> Msg
    ensures { IsMessage result }
{
    let _ = (log.number(), node.number());
    Msg {
        from: Who::Node(node),
        to: Who::Sequencer(2),
        log,
        body: body(alloc, reply),
    }
}

// What the register answers to a close: `T` that the epoch is closed, `B` that it closed the epoch 1 and no later one before, `O`
// that a later epoch was handed out, and otherwise that it failed.
fn told(letter: u8) -> Answer
    ensures { is_epoch_answer result ≡ true }
{
    match letter {
        b'T' => Answer::Taken,
        b'B' => Answer::Behind(1),
        b'O' => Answer::Overtaken(9),
        _ => Answer::Failed,
    }
}

// The register's answer comes, where the recovery is closing.
fn close(recovery: &mut Recovery, letter: u8, out: &mut Outbox) -> Result<(), NoMemory> {
    match recovery.state() {
        State::Closing(_, _) => recovery.closed(told(letter), out),
        _ => Ok(()),
    }
}

// The sequencer acts: `r` for a retry, `x` for a plan of what is lost, where the digest is spent, and otherwise by the register's answer.
fn acts(
    alloc: Global,
    recovery: &mut Recovery,
    letter: u8,
    out: &mut Outbox,
) -> Result<(), NoMemory> {
    match letter {
        b'r' => recovery.retry(alloc, out),
        b'x' if recovery.spent() => recovery.lose(alloc, out),
        _ => close(recovery, letter, out),
    }
}

// What is done: by a node where it is of a number, by the sequencer where that is 0.
fn does(
    alloc: Global,
    recovery: &mut Recovery,
    log: LogId,
    step: &(u8, u8),
    out: &mut Outbox,
) -> Result<(), NoMemory> {
    let (number, letter) = *step;
    match NodeId::new(number) {
        Some(node) => recovery.on_reply(alloc, &message(alloc, log, node, letter), out),
        None => acts(alloc, recovery, letter, out),
    }
}

// The state, as one letter, and the end that the epoch is closed with, 0 where it isn't: `w` for a digest that is spent, `k` for a
// short close.
fn state(recovery: &Recovery) -> (u8, u32) {
    match recovery.state() {
        State::Sealing if recovery.spent() => (b'w', 0),
        State::Sealing => (b's', 0),
        State::Storing => (b't', 0),
        State::Closing(summary, false) => (b'c', summary.end),
        State::Closing(summary, true) => (b'k', summary.end),
        State::Done(summary) => (b'd', summary.end),
        State::Gone(_) => (b'g', 0),
        State::Preempted(_) => (b'p', 0),
    }
}

// The state's letter, its end and how many messages are sent, after each step of a recovery from its begin on.
fn steps(alloc: Global, log: LogId, all: &[(u8, u8)]) -> Result<Vec<(u8, u32, usize)>, NoMemory> {
    let mut out = Outbox::empty(alloc);
    let mut recovery = Recovery::start(alloc, &three_nodes(log), 1, 2, &mut out)?;
    let mut shown = Vec::new(alloc);
    for step in all {
        does(alloc, &mut recovery, log, step, &mut out)?;
        let (letter, end) = state(&recovery);
        shown.push((letter, end, out.len()))?;
    }
    Ok(shown)
}

#[test]
fn an_epoch_that_no_node_has_is_closed_with_a_bridge(rt: HostRuntime) -> Result<(), Fail> {
    let log = LogId::new(1).expect(&rt, "a log");
    let rows = [
        (1, b'n'),
        (1, b'l'),
        (2, b'n'),
        (3, b'n'),
        (3, b's'),
        (2, b't'),
        (0, b'F'),
        (0, b'T'),
    ];
    let shown = steps(rt.alloc(), log, &rows)?;
    assert!(rt;
        shown.as_slice()
            == [
                (b's', 0, 3),
                (b's', 0, 3),
                (b's', 0, 3),
                (b't', 0, 5),
                (b't', 0, 5),
                (b'c', 1, 5),
                (b'c', 1, 5),
                (b'd', 1, 8)
            ]
            .as_slice()
    );
    Ok(())
}

#[test]
fn a_register_that_is_ahead_ends_it(rt: HostRuntime) -> Result<(), Fail> {
    let log = LogId::new(1).expect(&rt, "a log");
    let rows = [(1, b'n'), (2, b'n'), (1, b's'), (2, b's'), (0, b'B')];
    let shown = steps(rt.alloc(), log, &rows)?;
    assert!(rt;
        shown.as_slice()
            == [
                (b's', 0, 3),
                (b't', 0, 5),
                (b't', 0, 5),
                (b'c', 1, 5),
                (b'g', 0, 5)
            ]
            .as_slice()
    );
    Ok(())
}

#[test]
fn a_retry_asks_for_what_is_wanted(rt: HostRuntime) -> Result<(), Fail> {
    let log = LogId::new(1).expect(&rt, "a log");
    // three nodes are asked twice, and two are once one has replied; once another has, two are to store the bridge
    let rows = [
        (0, b'r'),
        (3, b'n'),
        (0, b'r'),
        (0, b'r'),
        (1, b'n'),
        (0, b'r'),
    ];
    let shown = steps(rt.alloc(), log, &rows)?;
    assert!(rt;
        shown.as_slice()
            == [
                (b's', 0, 6),
                (b's', 0, 6),
                (b's', 0, 8),
                (b's', 0, 10),
                (b't', 0, 12),
                (b't', 0, 14)
            ]
            .as_slice()
    );
    Ok(())
}

#[test]
fn word_of_another_sequencer_ends_it(rt: HostRuntime) -> Result<(), Fail> {
    let log = LogId::new(1).expect(&rt, "a log");
    let rows = [
        (b'2', b's', 0, 3),
        (b'3', b'p', 0, 3),
        (b'o', b'p', 0, 3),
        (b'c', b'd', 9, 6),
    ];
    'rows: for (reply, letter, end, sent) in rows {
        let shown = steps(rt.alloc(), log, &[(1, reply)])?;
        assert!(rt; shown.as_slice() == [(letter, end, sent)].as_slice());
    }
    Ok(())
}

#[test]
fn a_digest_that_is_spent_waits_for_a_look(rt: HostRuntime) -> Result<(), Fail> {
    let log = LogId::new(1).expect(&rt, "a log");
    // it isn't asked again, and the bridge goes to node 1 alone
    let rows = [
        (1, b'n'),
        (2, b'l'),
        (3, b'l'),
        (0, b'r'),
        (0, b'x'),
        (1, b's'),
        (0, b'O'),
    ];
    let shown = steps(rt.alloc(), log, &rows)?;
    assert!(rt;
        shown.as_slice()
            == [
                (b's', 0, 3),
                (b's', 0, 3),
                (b'w', 0, 3),
                (b'w', 0, 3),
                (b't', 0, 4),
                (b'k', 1, 4),
                (b'p', 0, 4)
            ]
            .as_slice()
    );
    Ok(())
}

// Whether each reply would leave the digest spent, that of node 1 first.
fn spends(alloc: Global, log: LogId, all: &[(u8, u8)]) -> Result<Vec<bool>, NoMemory> {
    let mut out = Outbox::empty(alloc);
    let mut recovery = Recovery::start(alloc, &three_nodes(log), 1, 2, &mut out)?;
    let mut shown = Vec::new(alloc);
    for (number, reply) in all {
        if let Some(node) = NodeId::new(*number) {
            let msg = message(alloc, log, node, *reply);
            shown.push(recovery.spends(&msg))?;
            recovery.on_reply(alloc, &msg, &mut out)?;
        }
    }
    Ok(shown)
}

#[test]
fn the_reply_that_would_leave_the_digest_spent_is_told_before(rt: HostRuntime) -> Result<(), Fail> {
    let log = LogId::new(1).expect(&rt, "a log");
    let shown = spends(rt.alloc(), log, &[(1, b'n'), (2, b'l'), (3, b'l')])?;
    assert!(rt; shown.as_slice() == [false, false, true].as_slice());
    Ok(())
}

#[test]
fn a_plan_that_too_few_nodes_are_left_for_is_closed_short(rt: HostRuntime) -> Result<(), Fail> {
    let log = LogId::new(1).expect(&rt, "a log");
    let rows = [(1, b'n'), (2, b'n'), (2, b'l'), (3, b'l'), (1, b's')];
    let shown = steps(rt.alloc(), log, &rows)?;
    assert!(rt;
        shown.as_slice()
            == [
                (b's', 0, 3),
                (b't', 0, 5),
                (b't', 0, 5),
                (b't', 0, 5),
                (b'k', 1, 5)
            ]
            .as_slice()
    );
    Ok(())
}

#[test]
fn a_plan_that_no_node_is_left_for_is_closed_at_a_retry(rt: HostRuntime) -> Result<(), Fail> {
    let log = LogId::new(1).expect(&rt, "a log");
    let rows = [(1, b'l'), (2, b'l'), (3, b'l'), (0, b'x'), (0, b'r')];
    let shown = steps(rt.alloc(), log, &rows)?;
    assert!(rt;
        shown.as_slice()
            == [
                (b's', 0, 3),
                (b's', 0, 3),
                (b'w', 0, 3),
                (b't', 0, 3),
                (b'k', 1, 3)
            ]
            .as_slice()
    );
    Ok(())
}
