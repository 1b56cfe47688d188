// A cluster of one node, line by line. What larger ones write stands in tests/rows, for the built program.
ghost use Rattle.std.specs.Prelude.{◌≡◌, true, IfOk, OnOk};
ghost use Rattle.ld_cluster.specs.Standing.{IsReached};
ghost use Rattle.ld_cluster.specs.Steps.{Counts};

use ld_cluster::Cluster;
use ld_config::Config;
use ld_ids::NoMemory;
use ld_schedule::{Event, parse_line};
use ld_transcript::Lines;
use std::alloc::Global;
use std::test::Fail;

// Its only node keeps log 1.
const ONE: &[u8] = br#"{"nodes":[1],"logs":[{"id":1,"set":[1],"r":1}]}"#;

/// A new cluster.
fn begin(alloc: Global) -> Result<Cluster, NoMemory>
    ensures { IfOk result IsReached }
{
    match Config::read(alloc, ONE) {
        Ok(config) => Cluster::new(alloc, config),
        Err(_) => Err(NoMemory),
    }
}

/// Whether a call that it counts is counted from 1 on.
fn counts(event: &Event) -> bool
    ensures { result ≡ true → Counts event.now }
{
    match event {
        Event::Fail { call, .. } => 1 <= *call,
        Event::Tear { call, .. } => 1 <= *call,
        Event::RegFail { call, .. } => 1 <= *call,
        Event::Format { .. } => true,
        Event::Activate { .. } => true,
        Event::Append { .. } => true,
        Event::Batch { .. } => true,
        Event::Trim { .. } => true,
        Event::Retry { .. } => true,
        Event::Drop { .. } => true,
        Event::Deliver { .. } => true,
        Event::Lose { .. } => true,
        Event::Flow { .. } => true,
        Event::Open { .. } => true,
        Event::OpenOne { .. } => true,
        Event::OpenMessages { .. } => true,
        Event::Poll { .. } => true,
        Event::Tick { .. } => true,
        Event::Down { .. } => true,
        Event::Up { .. } => true,
        Event::Wipe { .. } => true,
        Event::Set { .. } => true,
        Event::Replace { .. } => true,
        Event::Calm => true,
    }
}

/// The event that the line spells.
fn event_of(alloc: Global, line: &[u8]) -> Result<Event, NoMemory>
    ensures { IfOk result Counts }
{
    match parse_line(alloc, line) {
        Ok(event) => {
            if counts(&event) {
                Ok(event)
            } else {
                Err(NoMemory)
            }
        }
        Err(_) => Err(NoMemory),
    }
}

/// Takes the event that the line spells, and adds the text of its lines.
fn take(
    alloc: Global,
    cluster: &mut Cluster,
    line: &[u8],
    text: &mut Vec<u8>,
) -> Result<(), NoMemory>
    requires { IsReached cluster.old }
    ensures { OnOk result (IsReached cluster.new) }
{
    let event = event_of(alloc, line)?;
    let mut lines = Lines::new(alloc);
    cluster.step(alloc, &event, &mut lines)?;
    lines.write(alloc, text)
}

/// Takes the events that the lines spell, and adds the text of their lines.
fn take_all(
    alloc: Global,
    cluster: &mut Cluster,
    events: &[&[u8]],
    text: &mut Vec<u8>,
) -> Result<(), NoMemory>
    requires { IsReached cluster.old }
    ensures { OnOk result (IsReached cluster.new) }
{
    for line in events {
        take(alloc, cluster, line, text)?;
    }
    Ok(())
}

/// Delivers the oldest new message where there is one, and adds the text of its lines.
fn flow(alloc: Global, cluster: &mut Cluster, text: &mut Vec<u8>) -> Result<bool, NoMemory>
    requires { IsReached cluster.old }
{
    let mut lines = Lines::new(alloc);
    let more = cluster.flow(alloc, &mut lines)?;
    lines.write(alloc, text)?;
    Ok(more)
}

/// Whether the events write this in a new cluster of one node.
fn tells(alloc: Global, events: &[&[u8]], expected: &[u8]) -> Result<bool, NoMemory> {
    let mut cluster = begin(alloc)?;
    let mut text = Vec::new(alloc);
    take_all(alloc, &mut cluster, events, &mut text)?;
    Ok(text.as_slice() == expected)
}

/// Whether a message is new once the events were taken, and whether its delivery writes this.
fn flows(alloc: Global, events: &[&[u8]], expected: &[u8]) -> Result<(bool, bool), NoMemory> {
    let mut cluster = begin(alloc)?;
    let mut text = Vec::new(alloc);
    take_all(alloc, &mut cluster, events, &mut text)?;
    text.clear();
    let more = flow(alloc, &mut cluster, &mut text)?;
    Ok((more, text.as_slice() == expected))
}

/// A record that its node hasn't heard of yet.
const APPENDED: [&[u8]; 3] = [b"format 1", b"activate a 1", b"append a -"];

#[test]
fn events_write_their_lines(rt: HostRuntime) -> Result<(), Fail> {
    let written = b"node 1 formatted 1\nactive a 1\nappended a e1n1\nmsg 0 s.a n.1 store e1n1\n";
    assert!(rt; tells(rt.alloc(), &APPENDED, written)?);
    Ok(())
}

#[test]
fn nothing_is_appended_without_a_sequencer(rt: HostRuntime) -> Result<(), Fail> {
    assert!(rt; tells(rt.alloc(), &[b"append a -"], b"none\n")?);
    Ok(())
}

#[test]
fn the_oldest_new_message_is_delivered(rt: HostRuntime) -> Result<(), Fail> {
    let written = b"msg 1 n.1 s.a stored e1n1\n";
    assert_eq!(rt; flows(rt.alloc(), &APPENDED, written)?, (true, true));
    Ok(())
}

#[test]
fn nothing_is_delivered_where_nothing_was_sent(rt: HostRuntime) -> Result<(), Fail> {
    assert_eq!(rt; flows(rt.alloc(), &[], b"")?, (false, true));
    Ok(())
}
