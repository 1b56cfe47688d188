// Sequencers of a log that stores on two of three nodes, 1, 2 and 3 at first, over a register on a disk in memory.
use crate::sequencer::steps::{Run, Step, play, run_on, unread};
use ld_ids::{LogId, NoMemory};
use ld_lsn::Lsn;
use ld_msg::{Body, Msg, Outbox, Who};
use ld_register::{Register, RegisterFault};
use ld_sequencer::{CloseFault, Report, SequencerFault};
use std::alloc::Global;
use std::test::Fail;

// Two nodes have nothing of epoch 1, and one stored its end: one node more, and the sequencer closes it.
const NEARLY_CLOSED: [Step; 3] = [Step::HasNothing(1), Step::HasNothing(2), Step::Stores(3)];

// One node has nothing of epoch 1, and another is lost: the third one, and no digest can be enough.
const NEARLY_SPENT: [Step; 2] = [Step::HasNothing(1), Step::Loses(2)];

// The end of epoch 1 that was closed, and what is released then.
fn closed_at(number: Lsn, released: Lsn) -> Report {
    Report {
        acked: None,
        closed: Some(number),
        preempted: None,
        register: None,
        released: Some(released),
    }
}

// Preempted by the sequencer of epoch 3.
fn preempted() -> Report {
    Report {
        acked: None,
        closed: None,
        preempted: Some(3),
        register: None,
        released: None,
    }
}

// What is released.
fn released(number: Lsn) -> Report {
    Report {
        acked: None,
        closed: None,
        preempted: None,
        register: None,
        released: Some(number),
    }
}

// Whether the register shows that epoch 1 is closed, and that something of it is lost or not.
fn shows_loss(alloc: Global, run: &mut Run, loss: bool) -> bool {
    let Some(log) = LogId::new(1) else {
        return false;
    };
    match run.reg.look(alloc, log, 1) {
        Ok(view) => match view.summary {
            Some(summary) => summary.loss == loss,
            None => false,
        },
        Err(_) => false,
    }
}

// Whether a message asks the node for what it has.
fn is_ask_of(msg: &Msg, number: u8) -> bool {
    match (&msg.body, msg.to) {
        (Body::DigestAsk { .. }, Who::Node(node)) => node.number() == number,
        _ => false,
    }
}

// How often the node was asked for what it has.
fn asks_of(out: &Outbox, number: u8) -> usize {
    let mut count: usize = 0;
    for msg in out.as_slice() {
        if is_ask_of(msg, number) {
            count = count.saturating_add(1);
        }
    }
    count
}

// Whether each of the nodes was asked once.
fn are_asked(out: &Outbox, numbers: [u8; 3]) -> bool {
    for number in numbers {
        if asks_of(out, number) != 1 {
            return false;
        }
    }
    true
}

// What some steps come to, or why they stop, and how many messages they send.
type Played = (Result<Report, SequencerFault>, usize);

// What these steps come to.
fn plays(alloc: Global, run: &mut Run, steps: &[Step]) -> Played {
    let sent = run.out.len();
    let report = play(alloc, run, steps);
    (report, run.out.len().saturating_sub(sent))
}

// What some steps and then others come to, of the last one of these sequencers.
fn played(
    alloc: Global,
    others: &[[u8; 3]],
    first: &[Step],
    second: &[Step],
) -> Result<[Played; 2], NoMemory> {
    let mut run = run_on(alloc, [1, 2, 3], others)?;
    let before = plays(alloc, &mut run, first);
    Ok([before, plays(alloc, &mut run, second)])
}

// Whether the second sequencer on the same nodes comes to this by the last of these steps, and to nothing by the first ones; and how many messages the last
// ones send.
fn next_plays(
    alloc: Global,
    first: &[Step],
    last: &[Step],
    wanted: &Report,
) -> Result<(bool, usize), NoMemory> {
    let [(before, _), (after, sent)] = played(alloc, &[[1, 2, 3]], first, last)?;
    let is_nothing = before == Ok(Report::nothing());
    match after {
        Ok(report) => Ok((is_nothing && report == *wanted, sent)),
        Err(_) => Ok((false, sent)),
    }
}

#[test]
fn an_append_is_released_at_the_second_node(rt: HostRuntime) -> Result<(), Fail> {
    let number = Lsn::new(1, 1);
    let mut acked = released(number);
    acked.acked = Some(number);
    let first = [Step::Appends, Step::Stores(1)];
    // two stores, and three times the word that it is released
    let wanted = [(Ok(Report::nothing()), 2), (Ok(acked), 3)];
    assert!(rt; played(rt.alloc(), &[], &first, &[Step::Stores(2)])? == wanted);
    Ok(())
}

// The first sequencer's epoch, and whether it is settled at first, with an append that one node stored, and with one that two did.
fn settles(alloc: Global) -> Result<(u32, [bool; 3]), NoMemory> {
    let mut run = run_on(alloc, [1, 2, 3], &[])?;
    let first = run.sequencer.settled();
    let _ = play(alloc, &mut run, &[Step::Appends, Step::Stores(1)]);
    let second = run.sequencer.settled();
    let _ = play(alloc, &mut run, &[Step::Stores(2)]);
    Ok((
        run.sequencer.epoch(),
        [first, second, run.sequencer.settled()],
    ))
}

#[test]
fn it_is_settled_where_nothing_waits(rt: HostRuntime) -> Result<(), Fail> {
    assert_eq!(rt; settles(rt.alloc())?, (1, [true, false, true]));
    Ok(())
}

#[test]
fn the_next_sequencer_closes_the_epoch(rt: HostRuntime) -> Result<(), Fail> {
    let closed = closed_at(Lsn::new(1, 1), Lsn::new(2, 0));
    let told = next_plays(rt.alloc(), &NEARLY_CLOSED, &[Step::Stores(1)], &closed)?;
    // all three nodes of each epoch hear that it is closed, and what is released
    assert_eq!(rt; told, (true, 6));
    Ok(())
}

// Whether the register shows that the second sequencer closed epoch 1 by these steps, and that something of it is lost or not.
fn closes_with(
    alloc: Global,
    first: &[Step],
    second: &[Step],
    loss: bool,
) -> Result<bool, NoMemory> {
    let mut run = run_on(alloc, [1, 2, 3], &[[1, 2, 3]])?;
    let _ = play(alloc, &mut run, first);
    let _ = play(alloc, &mut run, second);
    Ok(shows_loss(alloc, &mut run, loss))
}

// Whether the register shows, of an epoch that is closed with nothing lost and of one whose digest is spent, what is lost.
fn shows_losses(alloc: Global) -> Result<[bool; 2], NoMemory> {
    let spent = [Step::Loses(3), Step::Stores(1)];
    Ok([
        closes_with(alloc, &NEARLY_CLOSED, &[Step::Stores(1)], false)?,
        closes_with(alloc, &NEARLY_SPENT, &spent, true)?,
    ])
}

#[test]
fn the_register_shows_what_is_closed(rt: HostRuntime) -> Result<(), Fail> {
    assert_eq!(rt; shows_losses(rt.alloc())?, [true, true]);
    Ok(())
}

// Whether a close that fails is told, and the next one closes the epoch.
fn closes_again(alloc: Global) -> Result<[bool; 2], NoMemory> {
    let mut failed = Report::nothing();
    failed.register = Some(CloseFault::Failed);
    let fails = [Step::Fails, Step::Stores(1)];
    let closed = closed_at(Lsn::new(1, 1), Lsn::new(2, 0));
    let retries = [Step::Fails, Step::Stores(1), Step::Retries];
    Ok([
        next_plays(alloc, &NEARLY_CLOSED, &fails, &failed)?.0,
        next_plays(alloc, &NEARLY_CLOSED, &retries, &closed)?.0,
    ])
}

#[test]
fn a_failed_close_is_tried_again_by_a_retry(rt: HostRuntime) -> Result<(), Fail> {
    assert_eq!(rt; closes_again(rt.alloc())?, [true, true]);
    Ok(())
}

#[test]
fn an_epochs_nodes_recover_it(rt: HostRuntime) -> Result<(), Fail> {
    // a node of epoch 2 alone counts for nothing
    let strange = [
        Step::HasNothing(1),
        Step::HasNothing(2),
        Step::Stores(3),
        Step::Stores(4),
    ];
    let [(before, _), last] = played(rt.alloc(), &[[4, 5, 6]], &strange, &[Step::Stores(1)])?;
    let closed = (Ok(closed_at(Lsn::new(1, 1), Lsn::new(2, 0))), 6);
    assert!(rt; before == Ok(Report::nothing()) && last == closed);
    Ok(())
}

// How many messages the last one of these sequencers, each with its nodes, has sent once it heard that epoch 1 is closed, and whether these nodes were asked.
fn asked_behind(
    alloc: Global,
    others: &[[u8; 3]],
    asked: [u8; 3],
) -> Result<(usize, bool), NoMemory> {
    let mut run = run_on(alloc, [1, 2, 3], others)?;
    run.out.truncate(0);
    let _ = play(alloc, &mut run, &[Step::Closed]);
    Ok((run.out.len(), are_asked(&run.out, asked)))
}

#[test]
fn the_next_epoch_is_recovered_on_its_own_nodes(rt: HostRuntime) -> Result<(), Fail> {
    // the nodes of epoch 1 hear that it is closed, those of epoch 3 what is released, and those of epoch 2 are asked
    let told = asked_behind(rt.alloc(), &[[2, 4, 6], [1, 3, 5]], [2, 4, 6])?;
    assert_eq!(rt; told, (9, true));
    Ok(())
}

// How many messages the second sequencer begins with, and whether the nodes of epoch 1 are asked by them.
fn begins_with(alloc: Global) -> Result<(usize, bool), NoMemory> {
    let run = run_on(alloc, [1, 2, 3], &[[4, 5, 6]])?;
    Ok((run.out.len(), are_asked(&run.out, [1, 2, 3])))
}

#[test]
fn an_epochs_nodes_are_asked(rt: HostRuntime) -> Result<(), Fail> {
    assert_eq!(rt; begins_with(rt.alloc())?, (3, true));
    Ok(())
}

// What the third sequencer comes to where it hears that epoch 1 is closed and the look behind it fails, and where it hears that once more.
fn looks_twice(alloc: Global) -> Result<[Played; 2], NoMemory> {
    let run = run_on(alloc, [1, 2, 3], &[[1, 2, 3], [1, 2, 3]])?;
    let mut run = unread(alloc, run);
    let failed = plays(alloc, &mut run, &[Step::Closed]);
    Ok([failed, plays(alloc, &mut run, &[Step::Closed])])
}

#[test]
fn a_failed_look_has_done_nothing(rt: HostRuntime) -> Result<(), Fail> {
    let failed = Err(SequencerFault::Register(RegisterFault::Failed));
    let wanted = [(failed, 0), (Ok(released(Lsn::epoch_end(1))), 9)];
    assert!(rt; looks_twice(rt.alloc())? == wanted);
    Ok(())
}

// What a sequencer whose digest is nearly spent comes to, and how many messages it sends: where the digest is spent, and where the one
// node that isn't lost stores the epoch's end.
fn spent(alloc: Global) -> Result<[(bool, usize); 2], NoMemory> {
    let closed = closed_at(Lsn::new(1, 1), Lsn::new(2, 0));
    let stores = [Step::Loses(3), Step::Stores(1)];
    Ok([
        next_plays(alloc, &NEARLY_SPENT, &stores[..1], &Report::nothing())?,
        next_plays(alloc, &NEARLY_SPENT, &stores, &closed)?,
    ])
}

#[test]
fn a_spent_digest_says_what_is_lost(rt: HostRuntime) -> Result<(), Fail> {
    // the epoch's end goes to that one node, and all three nodes of both epochs hear of the close
    assert_eq!(rt; spent(rt.alloc())?, [(true, 1), (true, 7)]);
    Ok(())
}

// The same where a greater epoch preempts it before, where the epoch is closed before, and where a greater epoch overtakes its short close.
fn given_way(alloc: Global) -> Result<[(bool, usize); 3], NoMemory> {
    let next = [Step::Next, Step::Loses(3)];
    let closes = [Step::Closes, Step::Loses(3)];
    let overtaken = [Step::Loses(3), Step::Next, Step::Stores(1)];
    Ok([
        next_plays(alloc, &NEARLY_SPENT, &next, &preempted())?,
        next_plays(alloc, &NEARLY_SPENT, &closes, &released(Lsn::new(2, 0)))?,
        next_plays(alloc, &NEARLY_SPENT, &overtaken, &preempted())?,
    ])
}

#[test]
fn a_spent_digest_gives_way_to_what_the_register_shows(rt: HostRuntime) -> Result<(), Fail> {
    // an epoch that is closed is passed; of the short close only the epoch's end was sent
    assert_eq!(rt; given_way(rt.alloc())?, [(true, 0), (true, 6), (true, 1)]);
    Ok(())
}

// What a sequencer comes to whose digest is spent and whose look then fails, at a retry, and where the epoch's end is stored.
fn looks_again(alloc: Global) -> Result<[Played; 3], NoMemory> {
    let mut run = run_on(alloc, [1, 2, 3], &[[1, 2, 3]])?;
    let _ = play(alloc, &mut run, &NEARLY_SPENT);
    let mut run = unread(alloc, run);
    let failed = plays(alloc, &mut run, &[Step::Loses(3)]);
    let retried = plays(alloc, &mut run, &[Step::Retries]);
    Ok([failed, retried, plays(alloc, &mut run, &[Step::Stores(1)])])
}

#[test]
fn a_retry_looks_again(rt: HostRuntime) -> Result<(), Fail> {
    let failed = Err(SequencerFault::Register(RegisterFault::Failed));
    let closed = closed_at(Lsn::new(1, 1), Lsn::new(2, 0));
    let expected = [(failed, 0), (Ok(Report::nothing()), 1), (Ok(closed), 6)];
    assert!(rt; looks_again(rt.alloc())? == expected);
    Ok(())
}

// Whether all up to an offset of epoch 1 that isn't released may go, and up to the one that is; and how many messages that is.
fn trims(alloc: Global) -> Result<([Result<(), SequencerFault>; 2], usize), NoMemory> {
    let mut run = run_on(alloc, [1, 2, 3], &[])?;
    let past = run.sequencer.trim(Lsn::new(1, 1), &mut run.out);
    let fine = run.sequencer.trim(Lsn::new(1, 0), &mut run.out);
    Ok(([past, fine], run.out.len()))
}

#[test]
fn a_trim_goes_up_to_what_is_released(rt: HostRuntime) -> Result<(), Fail> {
    let past = Err(SequencerFault::PastReleased(Lsn::new(1, 0)));
    // all nodes hear it
    assert!(rt; trims(rt.alloc())? == ([past, Ok(())], 6));
    Ok(())
}
