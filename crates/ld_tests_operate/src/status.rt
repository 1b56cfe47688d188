// What a register and its nodes say of a log.
ghost use Rattle.std.specs.Prelude.{◌≤◌, IfOk};
ghost use Rattle.ld_msg.specs.Bounds.{IsMessage};

use crate::filling::{fill, log_one, new_register, node_of, sink, summary};
use ld_config::Config;
use ld_dial::Nodes;
use ld_driver::NodeLinks;
use ld_host::Hosts;
use ld_ids::NoMemory;
use ld_io::MemSink;
use ld_lsn::Lsn;
use ld_msg::{Body, Msg, Who};
use ld_operate::{LookStop, StatusStop, status_lines};
use ld_register::Register;
use std::alloc::Global;
use std::test::Fail;

/// Of the last two epochs: node 1 has missed nothing, node 2 isn't up, and node 3 has lost its first disk.
const OF_TWO: &[u8] = b"log 1 epoch 5 closed 4 swaps 1
epoch 4 set 1,3,4 r 2 extras 0 closed e4n1 by 5 good 0 trim e0n0 loss no
epoch 5 set 1,2,3 r 2 extras 0 open
node 1 trim e0n0 released e5n0
node 1 epoch 4 clean e4n1
node 1 epoch 5 open
node 2 silent
node 3 trim e0n0 released e0n0
node 3 epoch 4 lost 2
node 3 epoch 5 lost 2
";

/// The same as JSON.
const OF_TWO_AS_JSON: &[u8] = br#"{"log":1,"epoch":5,"closed":4,"swaps":1}
{"epoch":4,"set":[1,3,4],"r":2,"extras":0,"closed":"e4n1","by":5,"good":0,"trim":"e0n0","loss":false}
{"epoch":5,"set":[1,2,3],"r":2,"extras":0,"closed":null}
{"node":1,"trim":"e0n0","released":"e5n0"}
{"node":1,"epoch":4,"state":"clean","end":"e4n1"}
{"node":1,"epoch":5,"state":"open"}
{"node":2,"state":"silent"}
{"node":3,"trim":"e0n0","released":"e0n0"}
{"node":3,"epoch":4,"state":"lost","generation":2}
{"node":3,"epoch":5,"state":"lost","generation":2}
"#;

/// Of the last epoch, where only node 1 belongs to the configuration, and has trimmed the epochs before.
const OF_ONE: &[u8] = b"log 1 epoch 5 closed 4 swaps 1
epoch 5 set 1,2,3 r 2 extras 0 open
node 1 trim e5n0 released e5n0
node 1 epoch 5 open
";

pub(crate) fn config(alloc: Global, text: &[u8]) -> Result<Config, NoMemory> {
    match Config::read(alloc, text) {
        Ok(config) => Ok(config),
        Err(_) => Err(NoMemory),
    }
}

/// That an epoch of log 1 is closed.
fn close(epoch: u32) -> Result<Msg, NoMemory>
    requires lowest { 1 ≤ epoch }
    requires greatest { epoch ≤ 4 }
    ensures { IfOk result IsMessage }
{
    let log = log_one()?;
    let node = node_of(1)?;
    let _ = log.number();
    let _ = node.number();
    Ok(Msg {
        from: Who::Sequencer(5),
        to: Who::Node(node),
        log,
        body: Body::Clean {
            epoch,
            summary: summary(epoch),
        },
    })
}

/// That all up to the start of epoch 5 is released, or may go.
fn upto(trims: bool) -> Result<Msg, NoMemory>
    ensures { IfOk result IsMessage }
{
    let log = log_one()?;
    let node = node_of(1)?;
    let _ = log.number();
    let _ = node.number();
    let number = Lsn::new(5, 0);
    let body = if trims {
        Body::Trim { trim: number }
    } else {
        Body::Release { released: number }
    };
    Ok(Msg {
        from: Who::Sequencer(5),
        to: Who::Node(node),
        log,
        body,
    })
}

/// Formats a node, on a new disk.
fn format<G: Register>(
    alloc: Global,
    number: u8,
    config: &Config,
    hosts: &mut Hosts,
    reg: &mut G,
) -> Result<(), NoMemory> {
    hosts.wipe(alloc, node_of(number)?)?;
    let _ = hosts.format(alloc, node_of(number)?, config, reg)?;
    Ok(())
}

/// Node 1 is told of each close, of what is released, and perhaps of a trim.
fn tell(alloc: Global, hosts: &mut Hosts, trims: bool) -> Result<(), NoMemory> {
    let node = node_of(1)?;
    for epoch in 1..5 {
        let _ = hosts.on_msg(alloc, node, &close(epoch)?)?;
    }
    let _ = hosts.on_msg(alloc, node, &upto(false)?)?;
    if trims {
        let _ = hosts.on_msg(alloc, node, &upto(true)?)?;
    }
    Ok(())
}

/// Three nodes of a configuration, and a register that is filled.
pub(crate) fn three<G: Register>(alloc: Global, reg: &mut G) -> Result<NodeLinks, NoMemory> {
    let config = config(
        alloc,
        br#"{"nodes":[1,2,3],"logs":[{"id":1,"set":[1,2,3],"r":2}]}"#,
    )?;
    let mut hosts = Hosts::new(alloc, &config)?;
    format(alloc, 1, &config, &mut hosts, reg)?;
    format(alloc, 3, &config, &mut hosts, reg)?;
    fill(alloc, reg)?;
    format(alloc, 3, &config, &mut hosts, reg)?;
    tell(alloc, &mut hosts, false)?;
    Ok(NodeLinks::new(alloc, config, hosts))
}

/// One node, and a register that is filled.
pub(crate) fn one<G: Register>(alloc: Global, reg: &mut G) -> Result<NodeLinks, NoMemory> {
    let config = config(alloc, br#"{"nodes":[1],"logs":[{"id":1,"set":[1],"r":1}]}"#)?;
    let mut hosts = Hosts::new(alloc, &config)?;
    format(alloc, 1, &config, &mut hosts, reg)?;
    fill(alloc, reg)?;
    tell(alloc, &mut hosts, true)?;
    Ok(NodeLinks::new(alloc, config, hosts))
}

/// How it ends for the last epochs, so many.
fn status<G: Register, N: Nodes>(
    alloc: Global,
    nodes_text: &[u8],
    epochs: u32,
    json: bool,
    reg: &mut G,
    nodes: &mut N,
    out: &mut MemSink,
) -> Result<Result<bool, StatusStop>, NoMemory> {
    let epochs = if epochs == 0 { 1 } else { epochs };
    let config = config(alloc, nodes_text)?;
    Ok(status_lines(alloc, &config, log_one()?, epochs, json, reg, nodes, out))
}

/// How the status of three nodes ends where the write of this number fails, and whether these bytes are written.
fn of_three(
    alloc: Global,
    json: bool,
    fails: u64,
    expected: &[u8],
) -> Result<(Result<bool, StatusStop>, bool), NoMemory> {
    let mut reg = new_register(alloc)?;
    let mut nodes = three(alloc, &mut reg)?;
    let mut out = sink(alloc, 1000, fails)?;
    let text = br#"{"nodes":[1,2,3],"logs":[{"id":1,"set":[1,2,3],"r":2}]}"#;
    let done = status(alloc, text, 2, json, &mut reg, &mut nodes, &mut out)?;
    Ok((done, out.bytes() == expected))
}

/// The same of one node.
fn of_one(alloc: Global) -> Result<(Result<bool, StatusStop>, bool), NoMemory> {
    let mut reg = new_register(alloc)?;
    let mut nodes = one(alloc, &mut reg)?;
    let mut out = sink(alloc, 1000, 100)?;
    let text = br#"{"nodes":[1],"logs":[{"id":1,"set":[1],"r":1}]}"#;
    let done = status(alloc, text, 1, false, &mut reg, &mut nodes, &mut out)?;
    Ok((done, out.bytes() == OF_ONE))
}

/// Whether it ends so, with these bytes.
fn ends(ended: (Result<bool, StatusStop>, bool), wanted: Result<bool, StatusStop>) -> bool {
    ended.0 == wanted && ended.1
}

#[test]
fn each_node_has_its_lines(rt: HostRuntime) -> Result<(), Fail> {
    assert_eq!(rt;
        ends(of_three(rt.alloc(), false, 100, OF_TWO)?, Ok(false)),
        true
    );
    Ok(())
}

#[test]
fn each_node_has_its_objects(rt: HostRuntime) -> Result<(), Fail> {
    assert_eq!(rt;
        ends(of_three(rt.alloc(), true, 100, OF_TWO_AS_JSON)?, Ok(false)),
        true
    );
    Ok(())
}

#[test]
fn all_nodes_answer(rt: HostRuntime) -> Result<(), Fail> {
    assert_eq!(rt; ends(of_one(rt.alloc())?, Ok(true)), true);
    Ok(())
}

#[test]
fn a_write_that_fails_ends_it(rt: HostRuntime) -> Result<(), Fail> {
    let stop = Err(StatusStop::Look(LookStop::Write));
    assert_eq!(rt; ends(of_three(rt.alloc(), false, 0, b"")?, stop), true);
    Ok(())
}
