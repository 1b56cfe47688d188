// A node on a disk in memory, over a link in memory.
use ld_config::{Config, Specs};
use ld_disk::{Disk, Fault, MemDisk};
use ld_ids::{LogId, NoMemory, NodeId, NodeSet, Spec};
use ld_link::MemLink;
use ld_register::DiskRegister;
use ld_serve::{Stop, open, serve, serve_peers};
use ld_wire::WireFault;
use std::alloc::Global;
use std::test::Fail;
use std::vec;

/// A reader's ask of round 1 for log 1 at node 1, from number 1 on.
const ASK: [u8; 31] = [
    0, 0, 0, 27, 12, 2, 0, 0, 0, 0, 0, 0, 0, 0, 1, 0, 0, 0, 1, 0, 0, 0, 1, 0, 0, 0, 0, 0, 0, 0, 1,
];

/// That the log has nothing from number 1 on.
const ENDED: [u8; 40] = [
    0, 0, 0, 36, 19, 0, 0, 0, 0, 1, 2, 0, 0, 0, 0, 0, 0, 0, 1, 0, 0, 0, 1, 0, 0, 0, 0, 0, 0, 0, 1,
    0, 0, 0, 0, 0, 0, 0, 1, 0,
];

/// The nodes 1 and 2, and log 1 on node 2.
pub(crate) fn config(alloc: Global) -> Result<Config, NoMemory> {
    let (Some(one), Some(two), Some(log)) = (NodeId::new(1), NodeId::new(2), LogId::new(1)) else {
        return Err(NoMemory);
    };
    let set = NodeSet::empty().with(two);
    let mut logs = Specs::new(alloc);
    logs.push(Spec {
        log,
        set,
        r: 1,
        extras: 0,
    })?;
    Ok(Config {
        nodes: set.with(one),
        logs,
    })
}

pub(crate) fn new_disk(alloc: Global) -> Result<MemDisk, NoMemory> {
    match MemDisk::new(alloc) {
        Ok(disk) => Ok(disk),
        Err(_) => Err(NoMemory),
    }
}

fn new_link(alloc: Global, peers: Vec<Vec<u8>>, fails: Vec<u64>) -> Result<MemLink, NoMemory> {
    match MemLink::new(alloc, peers, 100, fails) {
        Ok(link) => Ok(link),
        Err(_) => Err(NoMemory),
    }
}

fn ask(alloc: Global) -> Result<Vec<u8>, NoMemory> {
    let mut bytes = Vec::new(alloc);
    bytes.extend_from_slice(&ASK)?;
    Ok(bytes)
}

/// Node 1 serves on a blank disk.
fn serves(alloc: Global, format: bool, turns: u64, link: &mut MemLink) -> Result<(), Stop> {
    let Ok(mut disk) = new_disk(alloc) else {
        return Err(Stop::NoMemory);
    };
    serves_on(alloc, format, turns, &mut disk, link)
}

/// Node 1 serves on a disk.
fn serves_on(
    alloc: Global,
    format: bool,
    turns: u64,
    disk: &mut MemDisk,
    link: &mut MemLink,
) -> Result<(), Stop> {
    let (Ok(config), Ok(register), Some(node)) = (config(alloc), new_disk(alloc), NodeId::new(1))
    else {
        return Err(Stop::NoMemory);
    };
    let mut reg = DiskRegister::new(alloc, register);
    serve(alloc, node, &config, format, turns, disk, &mut reg, link)
}

/// Whether a peer of a link was answered with these bytes.
fn is_answered(link: &MemLink, peer: usize, bytes: &[u8]) -> bool {
    link.sent(peer) == Some(bytes)
}

/// How node 1 ends that serves a peer's two asks in so many turns, and how many bytes it was answered; 999 where none came.
fn asked_twice(
    alloc: Global,
    turns: u64,
    fails: Vec<u64>,
) -> Result<(Result<(), Stop>, usize), NoMemory> {
    let mut asks = ask(alloc)?;
    asks.extend_from_slice(&ASK)?;
    let mut link = new_link(alloc, vec![in alloc; asks]?, fails)?;
    let end = serves(alloc, true, turns, &mut link);
    Ok((end, link.sent(0).map_or(999, |bytes| bytes.len())))
}

#[test]
fn frames_are_answered_up_to_the_last_turn(rt: HostRuntime) -> Result<(), Fail> {
    let alloc = rt.alloc();
    for (turns, answered) in [(1, 40), (9, 80)] {
        assert_eq!(rt;
            asked_twice(alloc, turns, Vec::new(alloc))?,
            (Ok(()), answered)
        );
    }
    Ok(())
}

#[test]
fn a_failed_call_of_the_link_stops_it(rt: HostRuntime) -> Result<(), Fail> {
    let alloc = rt.alloc();
    // the next peer, a read of two asks, and the writes of their answers
    for (call, answered) in [(0, 999), (1, 0), (2, 0), (3, 40)] {
        let fails = vec![in alloc; call]?;
        assert_eq!(rt; asked_twice(alloc, 9, fails)?, (Err(Stop::Link), answered));
    }
    Ok(())
}

/// How node 1 ends that serves a peer with a part of a frame and one with an ask, and whether the first is answered nothing and the second all.
fn cut_and_whole(alloc: Global) -> Result<(Result<(), Stop>, bool, bool), NoMemory> {
    let cut = vec![in alloc; 0, 0, 0, 27, 12]?;
    let mut link = new_link(alloc, vec![in alloc; cut, ask(alloc)?]?, Vec::new(alloc))?;
    let end = serves(alloc, true, 9, &mut link);
    Ok((
        end,
        is_answered(&link, 0, &[]),
        is_answered(&link, 1, &ENDED),
    ))
}

#[test]
fn a_frame_that_is_cut_is_dropped(rt: HostRuntime) -> Result<(), Fail> {
    assert_eq!(rt; cut_and_whole(rt.alloc())?, (Ok(()), true, true));
    Ok(())
}

/// How node 1 ends that serves a peer with these bytes, or doesn't, on a blank disk.
fn ends(alloc: Global, format: bool, bytes: &[u8]) -> Result<Result<(), Stop>, NoMemory> {
    let peer = Vec::from_slice(alloc, bytes)?;
    let mut link = new_link(alloc, vec![in alloc; peer]?, Vec::new(alloc))?;
    Ok(serves(alloc, format, 9, &mut link))
}

#[test]
fn what_is_no_frame_and_a_blank_disk_stop_it(rt: HostRuntime) -> Result<(), Fail> {
    let kind = Err(Stop::BadFrame(WireFault::BadKind(200)));
    assert_eq!(rt; ends(rt.alloc(), true, &[0, 0, 0, 1, 200])?, kind);
    assert_eq!(rt; ends(rt.alloc(), false, &ASK)?, Err(Stop::Blank));
    Ok(())
}

/// The sequencer of epoch 1 stores a record of log 1 at node 1.
const STORE: [u8; 36] = [
    0, 0, 0, 32, 1, 1, 0, 0, 0, 1, 0, 0, 0, 0, 1, 0, 0, 0, 1, 0, 0, 0, 1, 0, 0, 0, 1, 0, 0, 0, 0,
    0, 0, 2, 104, 105,
];

/// That it is stored.
const STORED: [u8; 27] = [
    0, 0, 0, 23, 2, 0, 0, 0, 0, 1, 1, 0, 0, 0, 1, 0, 0, 0, 1, 0, 0, 0, 1, 0, 0, 0, 1,
];

/// A link with a peer that sends that Store.
fn storing(alloc: Global) -> Result<MemLink, NoMemory> {
    let mut bytes = Vec::new(alloc);
    bytes.extend_from_slice(&STORE)?;
    new_link(alloc, vec![in alloc; bytes]?, Vec::new(alloc))
}

/// How node 1 ends that is sent the Store on this disk, and whether it was answered.
fn is_stored(
    alloc: Global,
    format: bool,
    disk: &mut MemDisk,
) -> Result<(Result<(), Stop>, bool), NoMemory> {
    let mut link = storing(alloc)?;
    let end = serves_on(alloc, format, 1, disk, &mut link);
    Ok((end, link.sent(0) == Some(STORED.as_slice())))
}

/// How node 1 ends on a disk whose call of this count fails that writes, or whose first read, and once more on it as it is then.
fn failed_and_again(alloc: Global, call: u8) -> Result<[(Result<(), Stop>, bool); 2], NoMemory> {
    let mut disk = new_disk(alloc)?;
    let mut nobody = new_link(alloc, Vec::new(alloc), Vec::new(alloc))?;
    let _ = serves_on(alloc, true, 1, &mut disk, &mut nobody);
    disk.arm(if call == 5 {
        Fault::FailReadAt(1)
    } else {
        Fault::FailAt(u64::from(call) + 1)
    });
    let first = is_stored(alloc, false, &mut disk)?;
    Ok([first, is_stored(alloc, false, &mut disk)?])
}

#[test]
fn a_failed_call_of_the_disk_stops_it(rt: HostRuntime) -> Result<(), Fail> {
    // the load's sync, the four calls of the record, and the first read of the load
    for call in [0, 1, 2, 3, 4, 5] {
        let ends = failed_and_again(rt.alloc(), call)?;
        assert_eq!(rt; ends, [(Err(Stop::Disk), false), (Ok(()), true)]);
    }
    Ok(())
}

/// How node 1 ends that is opened on this disk, is sent the Store, and fails in the first read that it makes of it, and
/// whether it was answered.
fn is_read(alloc: Global, disk: &mut MemDisk) -> Result<(Result<(), Stop>, bool), NoMemory> {
    let (Ok(config), Ok(register), Some(id)) = (config(alloc), new_disk(alloc), NodeId::new(1))
    else {
        return Err(NoMemory);
    };
    let mut reg = DiskRegister::new(alloc, register);
    let Ok(mut node) = open(alloc, id, &config, false, disk, &mut reg) else {
        return Err(NoMemory);
    };
    node.arm(Fault::FailReadAt(1));
    let mut link = storing(alloc)?;
    let end = serve_peers(alloc, &mut node, &mut link, 1);
    Ok((end, link.sent(0) == Some(STORED.as_slice())))
}

/// How node 1 ends that stores a record which isn't there, reads none of it, is given it once more and fails in that read, and is given it again.
fn compared(alloc: Global) -> Result<[(Result<(), Stop>, bool); 3], NoMemory> {
    let mut disk = new_disk(alloc)?;
    let first = is_stored(alloc, true, &mut disk)?;
    let second = is_read(alloc, &mut disk)?;
    Ok([first, second, is_stored(alloc, false, &mut disk)?])
}

#[test]
fn a_failed_read_of_a_payload_stops_it(rt: HostRuntime) -> Result<(), Fail> {
    let ends = compared(rt.alloc())?;
    assert_eq!(rt;
        ends,
        [(Ok(()), true), (Err(Stop::Disk), false), (Ok(()), true)]
    );
    Ok(())
}
