// One node in memory.
use crate::dial::{dials, sends, takes_end};
use ld_config::Config;
use ld_dial::{Fault, Nodes};
use ld_disk::MemDisk;
use ld_driver::NodeLinks;
use ld_host::Hosts;
use ld_ids::{NoMemory, NodeId};
use ld_io::Failed;
use ld_register::DiskRegister;
use std::alloc::Global;
use std::test::Fail;

/// Log 1 on node 1.
fn config(alloc: Global) -> Result<Config, NoMemory> {
    match Config::read(alloc, br#"{"nodes":[1],"logs":[{"id":1,"set":[1],"r":1}]}"#) {
        Ok(config) => Ok(config),
        Err(_) => Err(NoMemory),
    }
}

/// Formats node 1 by a new register.
fn format(alloc: Global, config: &Config, hosts: &mut Hosts) -> Result<(), NoMemory> {
    let (Some(node), Ok(disk)) = (NodeId::new(1), MemDisk::new(alloc)) else {
        return Err(NoMemory);
    };
    let mut reg = DiskRegister::new(alloc, disk);
    let _ = hosts.format(alloc, node, config, &mut reg)?;
    Ok(())
}

/// Node 1, which is up or blank.
fn nodes(alloc: Global, up: bool) -> Result<NodeLinks, NoMemory> {
    let config = config(alloc)?;
    let mut hosts = Hosts::new(alloc, &config)?;
    if up {
        format(alloc, &config, &mut hosts)?;
    }
    Ok(NodeLinks::new(alloc, config, hosts))
}

/// Whether node 1 is dialed, takes an ask, and answers it once with the end of the log, and then it has ended.
fn talk(alloc: Global) -> Result<[bool; 5], NoMemory> {
    let mut nodes = nodes(alloc, true)?;
    Ok([
        dials(&mut nodes) == Ok(()),
        sends(alloc, &mut nodes) == Ok(()),
        takes_end(alloc, &mut nodes) == Ok(Some(true)),
        takes_end(alloc, &mut nodes) == Ok(None),
        nodes.endings() == 1,
    ])
}

#[test]
fn a_node_that_is_up_answers_once(rt: HostRuntime) -> Result<(), Fail> {
    assert_eq!(rt; talk(rt.alloc())?, [true; 5]);
    Ok(())
}

/// Whether a blank node isn't reached, takes no ask and answers nothing, and both faults are counted.
fn silence(alloc: Global) -> Result<[bool; 4], NoMemory> {
    let mut nodes = nodes(alloc, false)?;
    Ok([
        dials(&mut nodes) == Err(Failed),
        sends(alloc, &mut nodes) == Err(Fault::Link),
        takes_end(alloc, &mut nodes) == Ok(None),
        nodes.failures() == 2,
    ])
}

#[test]
fn a_blank_node_is_not_reached(rt: HostRuntime) -> Result<(), Fail> {
    assert_eq!(rt; silence(rt.alloc())?, [true; 4]);
    Ok(())
}
