// Commands over what is in memory.
use ld_cli::*;
use ld_crowd::{MemCrowd, Step};
use ld_dial::Framed;
use ld_disk::{Disk, MemDisk};
use ld_io::{MemSink, MemSource};
use ld_link::MemLink;
use ld_register::DiskRegister;
use std::alloc::Global;
use std::test::Fail;

/// A new store, a new register, and a link.
#[derive(Drop)]
struct Outside {
    store: MemDisk,
    register: DiskRegister<MemDisk>,
    link: MemLink,
}

/// A new store and a new register, and this link.
fn outside_with(alloc: Global, link: MemLink) -> Result<Outside, Fail> {
    Ok(Outside {
        store: MemDisk::new(alloc)?,
        register: DiskRegister::new(alloc, MemDisk::new(alloc)?),
        link,
    })
}

/// A link with no peer.
fn no_peer(alloc: Global) -> Result<MemLink, Fail> {
    Ok(MemLink::new(alloc, Vec::new(alloc), 0, Vec::new(alloc))?)
}

/// A link with one peer, which sends these bytes.
fn one_peer(alloc: Global, bytes: &[u8]) -> Result<MemLink, Fail> {
    let mut peers = Vec::new(alloc);
    peers.push(Vec::from_slice(alloc, bytes)?)?;
    Ok(MemLink::new(alloc, peers, 100, Vec::new(alloc))?)
}

/// The words of a command.
fn strings(alloc: Global, words: &[&str]) -> Result<Vec<String>, Fail> {
    let mut strings = Vec::new(alloc);
    for word in words {
        strings.push(String::from_str(alloc, word)?)?;
    }
    Ok(strings)
}

/// A source of these bytes, whose calls with these numbers fail.
fn source(alloc: Global, bytes: &[u8], fails: &[u64]) -> Result<MemSource, Fail> {
    let bytes = Vec::from_slice(alloc, bytes)?;
    Ok(MemSource::new(bytes, Vec::from_slice(alloc, fails)?))
}

/// A sink whose calls with these numbers fail.
fn sink(alloc: Global, fails: &[u64]) -> Result<MemSink, Fail> {
    let fails = Vec::from_slice(alloc, fails)?;
    Ok(MemSink::new(alloc, 1_000, fails)?)
}

/// A command over a source, a sink and these: its status, what was written, and what the first peer was sent.
fn performed(
    alloc: Global,
    words: &[&str],
    mut input: MemSource,
    mut out: MemSink,
    mut o: Outside,
) -> Result<(Status, Vec<u8>, Vec<u8>), Fail> {
    let words = strings(alloc, words)?;
    let mut nodes = Framed::new(alloc, no_peer(alloc)?);
    let mut crowd = MemCrowd::new(alloc, Vec::new(alloc), Vec::new(alloc), Vec::new(alloc))?;
    let status = run(
        alloc,
        &words,
        &mut input,
        &mut out,
        &mut o.store,
        &mut o.register,
        &mut o.link,
        &mut nodes,
        &mut crowd,
    );
    let written = Vec::from_slice(alloc, out.bytes())?;
    let sent = o.link.sent(0).unwrap_or(b"");
    Ok((status, written, Vec::from_slice(alloc, sent)?))
}

/// The status of a command over this input, with the calls of it and of what is written that are to fail, and whether this is written.
fn ends(
    alloc: Global,
    words: &[&str],
    input: &str,
    fails: (&[u64], &[u64]),
    written: &str,
) -> Result<(Status, bool), Fail> {
    let input = source(alloc, input.as_bytes(), fails.0)?;
    let out = sink(alloc, fails.1)?;
    let o = outside_with(alloc, no_peer(alloc)?)?;
    let (status, bytes, _) = performed(alloc, words, input, out, o)?;
    Ok((status, bytes.as_slice() == written.as_bytes()))
}

/// The same of a replay without failures.
fn replays(alloc: Global, input: &str, written: &str) -> Result<(Status, bool), Fail> {
    ends(alloc, &["replay"], input, (&[], &[]), written)
}

/// The same of a command without input.
fn alone(alloc: Global, words: &[&str], written: &str) -> Result<(Status, bool), Fail> {
    ends(alloc, words, "", (&[], &[]), written)
}

/// Two nodes that are formatted.
const SCHEDULE: &str = concat!(
    "{\"nodes\":[1,2],\"logs\":[{\"id\":1,\"set\":[1,2],\"r\":1}]}\n",
    "format 1\n",
    "format 2\n",
);

/// What is written of it.
const TRANSCRIPT: &str = "node 1 formatted 1\nnode 2 formatted 1\n";

/// The schedule, cut in its third line.
const CUT: &str = concat!(
    "{\"nodes\":[1,2],\"logs\":[{\"id\":1,\"set\":[1,2],\"r\":1}]}\n",
    "format 1\n",
    "format",
);

#[test]
fn replays_a_schedule(rt: HostRuntime) -> Result<(), Fail> {
    assert_eq!(rt;
        replays(rt.alloc(), SCHEDULE, TRANSCRIPT)?,
        (Status::Ok, true)
    );
    Ok(())
}

#[test]
fn says_where_a_line_is_off(rt: HostRuntime) -> Result<(), Fail> {
    for (input, line, place, written) in [("", 1, 0, ""), (CUT, 3, 6, "node 1 formatted 1\n")] {
        assert_eq!(rt;
            replays(rt.alloc(), input, written)?,
            (Status::BadSchedule { line, place }, true)
        );
    }
    Ok(())
}

/// How replays end whose first read and whose first write fails, and whether they write nothing.
fn failed(alloc: Global) -> Result<[(Status, bool); 2], Fail> {
    Ok([
        ends(alloc, &["replay"], SCHEDULE, (&[0], &[]), "")?,
        ends(alloc, &["replay"], SCHEDULE, (&[], &[0]), "")?,
    ])
}

#[test]
fn hands_faults_on(rt: HostRuntime) -> Result<(), Fail> {
    let expected = [(Status::Read, true), (Status::Write, true)];
    assert_eq!(rt; failed(rt.alloc())?, expected);
    Ok(())
}

// The counts come from another program that follows the same rules.
#[test]
fn sums_up_a_made_schedule(rt: HostRuntime) -> Result<(), Fail> {
    let words = ["exercise", "--seed", "1", "--events", "1"];
    let line = "events 8 appended 0 acked 0 record 0 trim 0 hole 0 bridge 0 dataloss 0\n";
    assert_eq!(rt; alone(rt.alloc(), &words, line)?, (Status::Ok, true));
    Ok(())
}

#[test]
fn refuses_what_is_no_command(rt: HostRuntime) -> Result<(), Fail> {
    assert_eq!(rt;
        alone(rt.alloc(), &["replay", "it"], "")?,
        (Status::Usage, true)
    );
    Ok(())
}

/// The words of a node that formats a blank store and serves one turn.
const NODE: [&str; 14] = [
    "node",
    "--id",
    "1",
    "--config",
    "{\"nodes\":[1],\"logs\":[{\"id\":1,\"set\":[1],\"r\":1}]}",
    "--store",
    "store",
    "--register",
    "register",
    "--port",
    "0",
    "--turns",
    "1",
    "--format",
];

/// A reader asks from `e0n1` on.
const ASK: &[u8] =
    b"\x00\x00\x00\x1b\x0c\x02\x00\x00\x00\x00\x00\x00\x00\x00\x01\x00\x00\x00\x01\x00\x00\x00\x01\x00\x00\x00\x00\x00\x00\x00\x01";

/// The log's home epoch 0 has ended at `e0n1`.
const ENDED: &[u8] =
    b"\x00\x00\x00\x24\x13\x00\x00\x00\x00\x01\x02\x00\x00\x00\x00\x00\x00\x00\x01\x00\x00\x00\x01\x00\x00\x00\x00\x00\x00\x00\x01\x00\x00\x00\x00\x00\x00\x00\x01\x00";

/// The status of a node on a new store to which a peer sends that ask, and whether it was answered so.
fn served(alloc: Global, words: &[&str]) -> Result<(Status, bool), Fail> {
    let o = outside_with(alloc, one_peer(alloc, ASK)?)?;
    let (status, _, sent) = performed(
        alloc,
        words,
        source(alloc, b"", &[])?,
        sink(alloc, &[])?,
        o,
    )?;
    Ok((status, sent.as_slice() == ENDED))
}

#[test]
fn a_node_answers_a_peer(rt: HostRuntime) -> Result<(), Fail> {
    for (words, status, answered) in [
        (&NODE[..13], Status::Blank, false),
        (&NODE[..], Status::Ok, true),
    ] {
        assert_eq!(rt; served(rt.alloc(), words)?, (status, answered));
    }
    Ok(())
}

/// The words of an append of one round to a log of one node.
const APPEND: [&str; 11] = [
    "append",
    "--config",
    "{\"nodes\":[1],\"logs\":[{\"id\":1,\"set\":[1],\"r\":1}]}",
    "--log",
    "1",
    "--register",
    "register",
    "--port",
    "1",
    "--rounds",
    "1",
];

/// The words of a tail of one round of such a log.
const TAIL: [&str; 15] = [
    "tail",
    "--config",
    "{\"nodes\":[1],\"logs\":[{\"id\":1,\"set\":[1],\"r\":1}]}",
    "--log",
    "1",
    "--register",
    "register",
    "--port",
    "1",
    "--rounds",
    "1",
    "--from",
    "e1n1",
    "--until",
    "e1n1",
];

/// The words of a trim of one round of such a log.
const TRIM: [&str; 13] = [
    "trim",
    "--config",
    "{\"nodes\":[1],\"logs\":[{\"id\":1,\"set\":[1],\"r\":1}]}",
    "--log",
    "1",
    "--register",
    "register",
    "--port",
    "1",
    "--rounds",
    "1",
    "--upto",
    "e1n1",
];

/// How an append, a tail and a trim end that reach no node, and whether they write what they can. Nothing is released that could
/// be trimmed.
fn reach_nobody(alloc: Global) -> Result<[(Status, bool); 3], Fail> {
    let written = "active s 1\nappended s e1n1\n";
    let trimmed = "active s 1\nrefused s past e1n0\nnode 1 silent\n";
    Ok([
        ends(alloc, &APPEND, "6869\n", (&[], &[]), written)?,
        alone(alloc, &TAIL, "")?,
        alone(alloc, &TRIM, trimmed)?,
    ])
}

#[test]
fn what_reaches_no_node_isnt_done(rt: HostRuntime) -> Result<(), Fail> {
    assert_eq!(rt; reach_nobody(rt.alloc())?, [(Status::Link, true); 3]);
    Ok(())
}

/// The words of a show of a node's store.
const SHOW: [&str; 7] = [
    "show",
    "--id",
    "1",
    "--config",
    "{\"nodes\":[1,2],\"logs\":[{\"id\":1,\"set\":[1,2],\"r\":1}]}",
    "--store",
    "store",
];

/// The words of a node that is mended.
const MEND: [&str; 13] = [
    "mend",
    "--id",
    "1",
    "--config",
    "{\"nodes\":[1,2],\"logs\":[{\"id\":1,\"set\":[1,2],\"r\":1}]}",
    "--store",
    "store",
    "--register",
    "register",
    "--port",
    "1",
    "--rounds",
    "1",
];

/// The words of a node that takes the place of another one.
const REPLACE: [&str; 13] = [
    "replace",
    "--id",
    "1",
    "--of",
    "2",
    "--config",
    "{\"nodes\":[1,2],\"logs\":[{\"id\":1,\"set\":[1,2],\"r\":1}]}",
    "--log",
    "1",
    "--store",
    "store",
    "--register",
    "register",
];

/// How the commands over a stopped node's store end where that is blank, and whether they write nothing.
fn over_a_blank_store(alloc: Global) -> Result<[(Status, bool); 3], Fail> {
    Ok([
        alone(alloc, &SHOW, "")?,
        alone(alloc, &MEND, "")?,
        alone(alloc, &REPLACE, "")?,
    ])
}

#[test]
fn a_blank_store_isnt_opened(rt: HostRuntime) -> Result<(), Fail> {
    assert_eq!(rt; over_a_blank_store(rt.alloc())?, [(Status::Blank, true); 3]);
    Ok(())
}

/// The status of a tail beside a register on a disk that can't be read, or whose first record is out of bounds.
fn tailed_beside(alloc: Global, fails: bool) -> Result<Status, Fail> {
    let mut o = outside_with(alloc, no_peer(alloc)?)?;
    o.register = DiskRegister::new(alloc, off_disk(alloc, fails)?);
    let (status, _, _) = performed(alloc, &TAIL, source(alloc, b"", &[])?, sink(alloc, &[])?, o)?;
    Ok(status)
}

/// The record of an activation whose factor is 0.
const OUT_OF_BOUNDS: [u8; 19] = [1, 0, 0, 0, 13, 19, 0, 0, 0, 1, 0, 0, 0, 1, 0, 1, 0, 0, 0];

/// A disk of a register that can't be read, or whose first record is out of bounds.
fn off_disk(alloc: Global, fails: bool) -> Result<MemDisk, Fail> {
    let mut disk = MemDisk::new(alloc)?;
    if fails {
        disk.fail_read_at(1);
        return Ok(disk);
    }
    disk.reserve(19, 1)?;
    disk.write_at(0, &OUT_OF_BOUNDS)?;
    Ok(disk)
}

#[test]
fn a_tail_ends_beside_a_register_that_cant_be_read(rt: HostRuntime) -> Result<(), Fail> {
    let which = Which::Register;
    let damaged = Status::Damaged { which, place: 0 };
    for (fails, status) in [(true, Status::Register), (false, damaged)] {
        assert_eq!(rt; tailed_beside(rt.alloc(), fails)?, status);
    }
    Ok(())
}

/// The words of a node that formats a blank store and serves several peers at once.
const CROWD: [&str; 13] = [
    "node",
    "--id",
    "1",
    "--config",
    "{\"nodes\":[1],\"logs\":[{\"id\":1,\"set\":[1],\"r\":1}]}",
    "--store",
    "store",
    "--register",
    "register",
    "--port",
    "0",
    "--peers=2",
    "--format",
];

/// What two peers send: the first one what isn't the beginning of a frame, the second one an ask.
fn two_peers(alloc: Global) -> Result<Vec<Vec<u8>>, Fail> {
    let mut peers = Vec::new(alloc);
    peers.push(Vec::from_slice(alloc, b"\x00\x00\x00\x01\xff")?)?;
    peers.push(Vec::from_slice(alloc, ASK)?)?;
    Ok(peers)
}

/// Both come; the ask is there in two parts, and between them what the first one sends.
fn their_steps(alloc: Global) -> Result<Vec<Step>, Fail> {
    let steps = [
        Step::Comes,
        Step::Comes,
        Step::Has(1, 20),
        Step::Has(0, 5),
        Step::Has(1, 11),
        Step::Has(1, 0),
    ];
    Ok(Vec::from_slice(alloc, &steps)?)
}

/// How a node ends that serves these two at once, whether nothing was said to the first one, and whether the second one was
/// answered.
fn gathered(alloc: Global) -> Result<(Status, bool, bool), Fail> {
    let words = strings(alloc, &CROWD)?;
    let mut o = outside_with(alloc, no_peer(alloc)?)?;
    let mut nodes = Framed::new(alloc, no_peer(alloc)?);
    let peers = two_peers(alloc)?;
    let steps = their_steps(alloc)?;
    let mut crowd = MemCrowd::new(alloc, peers, steps, Vec::new(alloc))?;
    let status = run(
        alloc,
        &words,
        &mut source(alloc, b"", &[])?,
        &mut sink(alloc, &[])?,
        &mut o.store,
        &mut o.register,
        &mut o.link,
        &mut nodes,
        &mut crowd,
    );
    let none = crowd.told(0).unwrap_or(b"?");
    let said = crowd.told(1).unwrap_or(b"");
    Ok((status, none == b"".as_slice(), said == ENDED))
}

#[test]
fn a_node_serves_two_at_once(rt: HostRuntime) -> Result<(), Fail> {
    assert_eq!(rt; gathered(rt.alloc())?, (Status::Ok, true, true));
    Ok(())
}

/// The words that ask what a register says.
const REGISTER: [&str; 7] = [
    "register",
    "--config",
    "{\"nodes\":[1],\"logs\":[{\"id\":1,\"set\":[1],\"r\":1}]}",
    "--log",
    "1",
    "--register",
    "register",
];

#[test]
fn a_new_register_says_so(rt: HostRuntime) -> Result<(), Fail> {
    let line = "log 1 epoch 0 closed 0 swaps 0\n";
    assert_eq!(rt; alone(rt.alloc(), &REGISTER, line)?, (Status::Ok, true));
    Ok(())
}
