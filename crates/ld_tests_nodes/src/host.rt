// Hosts whose disks fail and crash, beside a register on a disk of its own.
ghost use Rattle.std.specs.Prelude.{◌≤◌, IfOk};
ghost use Rattle.ld_msg.specs.Bounds.{IsMessage, IsSummary, Fits};
ghost use Rattle.ld_msg.specs.declared.msg.Who.TheVariants as whos;

use crate::node::samples::{log_of, new_register, node_of, spec};
use ld_config::{Config, Specs};
use ld_host::{Formatted, Host, Hosts, Kept, Status};
use ld_ids::{NoMemory, NodeSet, Payload, Spec};
use ld_lsn::Lsn;
use ld_msg::{Body, Msg, Summary, What, Who};
use ld_register::Register;
use ld_schedule::Picture;
use std::alloc::Global;
use std::test::Fail;

/// Three nodes, and log 1 on the nodes 2 and 3.
fn config(alloc: Global) -> Result<Config, NoMemory> {
    let set = NodeSet::empty().with(node_of(2)?).with(node_of(3)?);
    let mut logs = Specs::new(alloc);
    logs.push(Spec {
        log: log_of(1)?,
        set,
        r: 2,
        extras: 0,
    })?;
    Ok(Config {
        nodes: set.with(node_of(1)?),
        logs,
    })
}

/// Formats a host, and says whether that was done.
fn format_by<G: Register>(alloc: Global, host: &mut Host, reg: &mut G) -> Result<bool, NoMemory> {
    let config = config(alloc)?;
    match &host.format(alloc, &config, reg)? {
        Formatted::Done(_) => Ok(true),
        _ => Ok(false),
    }
}

/// Formats a host by a new register, and says whether that was done.
fn format(alloc: Global, host: &mut Host) -> Result<bool, NoMemory> {
    let mut reg = new_register(alloc)?;
    format_by(alloc, host, &mut reg)
}

fn load(alloc: Global, host: &mut Host) -> Result<Kept, NoMemory> {
    let config = config(alloc)?;
    host.load(alloc, &config)
}

/// A message of log 1 to node 1.
fn to_node(from: Who, body: Body) -> Result<Msg, NoMemory>
    requires { Fits from (whos.Node 1) body }
    ensures { IfOk result IsMessage }
{
    Ok(Msg {
        from,
        to: Who::Node(node_of(1)?),
        log: log_of(1)?,
        body,
    })
}

/// What the sequencer of epoch 1 has stored at offset 1.
fn store(alloc: Global) -> Result<Msg, NoMemory>
    ensures { IfOk result IsMessage }
{
    let mut bytes = Vec::new(alloc);
    bytes.push(9)?;
    to_node(
        Who::Sequencer(1),
        Body::Store {
            number: Lsn::new(1, 1),
            lng: 0,
            what: What::Rec(Payload::new(bytes)),
        },
    )
}

/// The sequencer of epoch 2 asks for what stands in epoch 1.
fn digest_ask() -> Result<Msg, NoMemory>
    ensures { IfOk result IsMessage }
{
    to_node(
        Who::Sequencer(2),
        Body::DigestAsk {
            from: Lsn::new(1, 1),
        },
    )
}

/// How a message ends at a host, and how many are sent.
fn give(alloc: Global, host: &mut Host, msg: &Msg) -> Result<(Kept, usize), NoMemory>
    requires { IsMessage msg.now }
{
    let (kept, sends) = host.on_msg(alloc, msg)?;
    Ok((kept, sends.len()))
}

fn give_store(alloc: Global, host: &mut Host) -> Result<(Kept, usize), NoMemory> {
    let msg = store(alloc)?;
    give(alloc, host, &msg)
}

/// How many entries a message tells of, 9 where it is no page.
fn entries_in(msg: &Msg) -> usize {
    match &msg.body {
        Body::DigestPage { entries, .. } => entries.as_slice().len(),
        _ => 9,
    }
}

/// How many entries a host's node tells of.
fn entries(alloc: Global, host: &mut Host) -> Result<usize, NoMemory> {
    let msg = digest_ask()?;
    let (_, sends) = host.on_msg(alloc, &msg)?;
    match sends.as_slice().first() {
        Some(one) => Ok(entries_in(one)),
        None => Ok(8),
    }
}

/// How a store ends in whose record the call of this count fails or crashes, how many messages are sent, and how many
/// entries are found afterwards.
fn cut_at(
    alloc: Global,
    host: &mut Host,
    call: u64,
    crash: Option<Picture>,
) -> Result<(Kept, usize, usize), NoMemory>
    requires { 1 ≤ call }
{
    let _ = format(alloc, host)?;
    host.arm(call, crash);
    let (kept, sent) = give_store(alloc, host)?;
    host.stop();
    let _ = load(alloc, host)?;
    Ok((kept, sent, entries(alloc, host)?))
}

/// The same for a new host.
fn cut(alloc: Global, call: u64, crash: Option<Picture>) -> Result<(Kept, usize, usize), NoMemory> {
    let mut host = Host::new(alloc, node_of(1)?)?;
    cut_at(alloc, &mut host, call.max(1), crash)
}

/// How a store ends whose record's call of a count fails, or crashes with a picture: how many messages are sent, and
/// how many entries are found after a load. The record has four writing calls: the third writes its gate.
const CUTS: [(u64, Option<Picture>, (Kept, usize, usize)); 13] = [
    (10, None, (Kept::Written, 1, 1)),
    (10, Some(Picture::Old), (Kept::Written, 1, 1)),
    (1, None, (Kept::Failed, 0, 0)),
    (3, None, (Kept::Failed, 0, 0)),
    (4, None, (Kept::Failed, 0, 1)),
    (1, Some(Picture::Old), (Kept::Crashed, 0, 0)),
    (2, Some(Picture::New), (Kept::Crashed, 0, 0)),
    (3, Some(Picture::Old), (Kept::Crashed, 0, 0)),
    (3, Some(Picture::New), (Kept::Crashed, 0, 1)),
    (3, Some(Picture::Byte(1)), (Kept::Crashed, 0, 1)),
    (3, Some(Picture::Byte(9)), (Kept::Crashed, 0, 0)),
    (4, Some(Picture::New), (Kept::Crashed, 0, 1)),
    (4, Some(Picture::Byte(0)), (Kept::Crashed, 0, 0)),
];

#[test]
fn a_store_is_there_where_its_gate_is_open(rt: HostRuntime) -> Result<(), Fail> {
    for (call, crash, expected) in CUTS {
        assert_eq!(rt; cut(rt.alloc(), call, crash), Ok(expected));
    }
    Ok(())
}

/// How a load crashes behind a store that crashed, how the next one ends, and how many entries are found.
fn crash_twice(alloc: Global, host: &mut Host) -> Result<(Kept, Kept, usize), NoMemory> {
    let _ = format(alloc, host)?;
    host.arm(4, Some(Picture::New));
    let _ = give_store(alloc, host)?;
    host.arm(1, Some(Picture::Old));
    let first = load(alloc, host)?;
    let second = load(alloc, host)?;
    Ok((first, second, entries(alloc, host)?))
}

#[test]
fn a_crash_in_a_load_shows_its_own_picture(rt: HostRuntime) -> Result<(), Fail> {
    let mut host = Host::new(rt.alloc(), node_of(1)?)?;
    assert_eq!(rt;
        crash_twice(rt.alloc(), &mut host)?,
        (Kept::Crashed, Kept::Written, 0)
    );
    Ok(())
}

/// How a host is once it is formatted, stopped and wiped.
fn statuses(alloc: Global, host: &mut Host) -> Result<(Status, Status, Status), NoMemory> {
    let _ = format(alloc, host)?;
    let first = host.status();
    host.stop();
    let second = host.status();
    host.wipe();
    Ok((first, second, host.status()))
}

#[test]
fn a_wiped_host_is_blank(rt: HostRuntime) -> Result<(), Fail> {
    let mut host = Host::new(rt.alloc(), node_of(1)?)?;
    assert_eq!(rt;
        statuses(rt.alloc(), &mut host)?,
        (Status::Up, Status::Down, Status::Blank)
    );
    Ok(())
}

/// How a format crashes in the first call of its record, and how the node is after a load.
fn crash_in_format<G: Register>(
    alloc: Global,
    hosts: &mut Hosts,
    config: &Config,
    reg: &mut G,
) -> Result<(Kept, Status), NoMemory> {
    let node = node_of(2)?;
    hosts.arm(alloc, node, 2, Some(Picture::New))?;
    let kept = match &hosts.format(alloc, node, config, reg)? {
        Formatted::NotKept(kept) => *kept,
        _ => Kept::Written,
    };
    let _ = hosts.load(alloc, node, config)?;
    Ok((kept, hosts.status(node)))
}

fn format_crashes(alloc: Global) -> Result<(Kept, Status), NoMemory> {
    let config = config(alloc)?;
    let mut reg = new_register(alloc)?;
    let mut hosts = Hosts::new(alloc, &config)?;
    crash_in_format(alloc, &mut hosts, &config, &mut reg)
}

#[test]
fn a_format_that_crashes_is_not_kept(rt: HostRuntime) -> Result<(), Fail> {
    assert_eq!(rt; format_crashes(rt.alloc())?, (Kept::Crashed, Status::Blank));
    Ok(())
}

/// How a store ends at node 1, how many messages it sends, and how a tick ends then.
fn run_one<G: Register>(
    alloc: Global,
    hosts: &mut Hosts,
    config: &Config,
    reg: &mut G,
) -> Result<(Kept, usize, Kept), NoMemory> {
    let node = node_of(1)?;
    let _ = hosts.format(alloc, node, config, reg)?;
    let msg = store(alloc)?;
    let (kept, sends) = hosts.on_msg(alloc, node, &msg)?;
    let (ticked, _) = hosts.tick(alloc, node, log_of(1)?, reg)?;
    Ok((kept, sends.len(), ticked))
}

/// How node 1 is once it is stopped, and once it is wiped, and how node 2 is.
fn stop_one(alloc: Global, hosts: &mut Hosts) -> Result<(Status, Status, Status), NoMemory> {
    let node = node_of(1)?;
    hosts.stop(alloc, node)?;
    let stopped = hosts.status(node);
    hosts.wipe(alloc, node)?;
    Ok((stopped, hosts.status(node), hosts.status(node_of(2)?)))
}

fn runs(alloc: Global) -> Result<(Kept, usize, Kept), NoMemory> {
    let config = config(alloc)?;
    let mut reg = new_register(alloc)?;
    let mut hosts = Hosts::new(alloc, &config)?;
    run_one(alloc, &mut hosts, &config, &mut reg)
}

fn stops(alloc: Global) -> Result<(Status, Status, Status), NoMemory> {
    let config = config(alloc)?;
    let mut hosts = Hosts::new(alloc, &config)?;
    stop_one(alloc, &mut hosts)
}

/// In how many epochs of log 1 node 1 takes the place of node 2; 9 where the register refuses.
fn take_place<G: Register>(alloc: Global, hosts: &Hosts, reg: &mut G) -> Result<u32, NoMemory> {
    let done = hosts.replace(alloc, node_of(1)?, log_of(1)?, node_of(2)?, reg)?;
    Ok(done.unwrap_or(9))
}

/// The same for a node that was never lost for the log.
fn replaces(alloc: Global) -> Result<u32, NoMemory> {
    let config = config(alloc)?;
    let mut reg = new_register(alloc)?;
    let mut hosts = Hosts::new(alloc, &config)?;
    let _ = hosts.format(alloc, node_of(1)?, &config, &mut reg)?;
    take_place(alloc, &hosts, &mut reg)
}

#[test]
fn a_node_that_was_not_lost_takes_no_place(rt: HostRuntime) -> Result<(), Fail> {
    assert_eq!(rt; replaces(rt.alloc())?, 0);
    Ok(())
}

/// Of an epoch that was closed with nothing in it.
fn empty_summary() -> Summary
    ensures { IsSummary 1 result }
{
    Summary {
        ballot: 2,
        lng: 0,
        trim: Lsn::from_u64(0),
        end: 1,
        loss: false,
    }
}

/// Hands out epoch 1 of log 1, and closes it with nothing in it.
fn close_empty<G: Register>(alloc: Global, reg: &mut G) -> Result<(), NoMemory> {
    let spec = spec()?;
    let Ok(_) = reg.activate(alloc, &spec) else {
        return Err(NoMemory);
    };
    let Ok(_) = reg.close(alloc, log_of(1)?, 1, &empty_summary(), false) else {
        return Err(NoMemory);
    };
    Ok(())
}

/// How a tick of log 1 ends at node 1, and in how many epochs it then takes the place of node 2.
fn tick_and_take<G: Register>(
    alloc: Global,
    hosts: &mut Hosts,
    reg: &mut G,
) -> Result<(Kept, u32), NoMemory> {
    let (kept, _) = hosts.tick(alloc, node_of(1)?, log_of(1)?, reg)?;
    Ok((kept, take_place(alloc, hosts, reg)?))
}

/// Hosts of which node 1 is formatted behind an epoch that was closed, for which it is lost.
fn lost_hosts<G: Register>(alloc: Global, reg: &mut G) -> Result<Hosts, NoMemory> {
    let config = config(alloc)?;
    let mut hosts = Hosts::new(alloc, &config)?;
    let _ = hosts.format(alloc, node_of(1)?, &config, reg)?;
    Ok(hosts)
}

/// The same of three ticks, one behind the other.
fn takes_places(alloc: Global) -> Result<[(Kept, u32); 3], NoMemory> {
    let mut reg = new_register(alloc)?;
    close_empty(alloc, &mut reg)?;
    let mut hosts = lost_hosts(alloc, &mut reg)?;
    let first = tick_and_take(alloc, &mut hosts, &mut reg)?;
    let second = tick_and_take(alloc, &mut hosts, &mut reg)?;
    Ok([first, second, tick_and_take(alloc, &mut hosts, &mut reg)?])
}

#[test]
fn a_node_takes_a_place_once_it_is_rebuilt(rt: HostRuntime) -> Result<(), Fail> {
    // The first tick cleans the epoch, and the second finds that nothing is missing.
    let expected = [(Kept::Written, 0), (Kept::Written, 1), (Kept::Written, 0)];
    assert_eq!(rt; takes_places(rt.alloc())?, expected);
    Ok(())
}

#[test]
fn a_host_that_runs_stores_and_ticks(rt: HostRuntime) -> Result<(), Fail> {
    assert_eq!(rt; runs(rt.alloc())?, (Kept::Written, 1, Kept::Written));
    Ok(())
}

#[test]
fn hosts_are_stopped_and_wiped_one_by_one(rt: HostRuntime) -> Result<(), Fail> {
    assert_eq!(rt;
        stops(rt.alloc())?,
        (Status::Down, Status::Blank, Status::Blank)
    );
    Ok(())
}
