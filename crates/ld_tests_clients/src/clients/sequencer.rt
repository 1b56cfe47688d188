// What a sequencer's calls write and send.
use crate::clients::scene::{Does, FIRST, Step, activates, as_told, begin, four_nodes, log};
use ld_clients::find_spec;
use ld_ids::NoMemory;
use std::alloc::Global;
use std::test::Fail;

// Whether the sequencer of epoch 1 has this name, once `s` is activated.
fn serves(alloc: Global, name: &[u8]) -> Result<bool, NoMemory> {
    let mut scene = begin(alloc)?;
    activates(alloc, &mut scene, b's', FIRST)?;
    match scene.sequencers.name_of(log(7)?, 1) {
        Some(found) => Ok(found.bytes() == name),
        None => Ok(false),
    }
}

// Whether the log's last sequencer has this name, once `t` and then `s` are activated.
fn is_last(alloc: Global, name: &[u8]) -> Result<bool, NoMemory> {
    let mut scene = begin(alloc)?;
    activates(alloc, &mut scene, b't', FIRST)?;
    activates(alloc, &mut scene, b's', FIRST)?;
    match scene.sequencers.last_of(log(7)?) {
        Some(found) => Ok(found.bytes() == name),
        None => Ok(false),
    }
}

// On how many nodes a record of the log is stored, 0 where the log is none of the configuration's.
fn factor(alloc: Global, number: u32) -> Result<u8, NoMemory> {
    match find_spec(&four_nodes(alloc)?, log(number)?) {
        Some(spec) => Ok(spec.r),
        None => Ok(0),
    }
}

#[test]
fn a_log_is_found_by_its_number(rt: HostRuntime) -> Result<(), Fail> {
    let alloc = rt.alloc();
    assert!(rt; factor(alloc, 7)? == 2);
    assert!(rt; factor(alloc, 8)? == 0);
    Ok(())
}

// `s` is activated with the log's first nodes.
const ACTIVE: Step = (Does::Activate(b's', FIRST), b"active s 1\n", b"");

const APPENDED: Step = (Does::Append, b"appended s e1n1\n", b"s3s1");

#[test]
fn a_sequencer_is_found_by_its_epoch(rt: HostRuntime) -> Result<(), Fail> {
    let alloc = rt.alloc();
    assert!(rt; serves(alloc, b"s")?);
    Ok(())
}

#[test]
fn the_last_sequencer_is_that_of_the_greatest_epoch(rt: HostRuntime) -> Result<(), Fail> {
    let alloc = rt.alloc();
    assert!(rt; is_last(alloc, b"s")?);
    Ok(())
}

// The released number is told before the stores of a retry, and again by each calm.
const CALMED: &[Step] = &[
    ACTIVE,
    APPENDED,
    (Does::Calm, b"", b"r1r2r3s1s2"),
    (Does::Stored(1), b"", b""),
    (
        Does::Stored(2),
        b"acked s e1n1\nreleased s e1n1\n",
        b"r1r2r3",
    ),
    (Does::Calm, b"", b"r1r2r3"),
];

#[test]
fn a_calm_tells_the_released_number_again(rt: HostRuntime) -> Result<(), Fail> {
    let alloc = rt.alloc();
    assert_eq!(rt; as_told(alloc, CALMED)?, CALMED.len());
    Ok(())
}

const TRIMMED: &[Step] = &[ACTIVE, (Does::Trim, b"trimmed s e1n0\n", b"t1t2t3t4")];

#[test]
fn a_trim_tells_all_nodes(rt: HostRuntime) -> Result<(), Fail> {
    let alloc = rt.alloc();
    assert_eq!(rt; as_told(alloc, TRIMMED)?, TRIMMED.len());
    Ok(())
}

const ACKNOWLEDGED: &[Step] = &[
    ACTIVE,
    APPENDED,
    (Does::Stored(1), b"", b""),
    (
        Does::Stored(2),
        b"acked s e1n1\nreleased s e1n1\n",
        b"r1r2r3",
    ),
];

#[test]
fn the_second_node_acknowledges(rt: HostRuntime) -> Result<(), Fail> {
    let alloc = rt.alloc();
    assert_eq!(rt; as_told(alloc, ACKNOWLEDGED)?, ACKNOWLEDGED.len());
    Ok(())
}

const RETRIED: &[Step] = &[ACTIVE, APPENDED, (Does::Retry, b"", b"s1s2")];

#[test]
fn a_retry_goes_to_the_next_wave(rt: HostRuntime) -> Result<(), Fail> {
    let alloc = rt.alloc();
    assert_eq!(rt; as_told(alloc, RETRIED)?, RETRIED.len());
    Ok(())
}

// The name of a dropped sequencer stays taken, and so does its epoch.
const DROPPED: &[Step] = &[
    ACTIVE,
    APPENDED,
    (Does::Drop, b"", b""),
    (Does::Append, b"", b""),
    (Does::Batch(65_532), b"", b""),
    (Does::Trim, b"", b""),
    (Does::Retry, b"", b""),
    (Does::Calm, b"", b""),
    (Does::Stored(1), b"", b""),
    (Does::Drop, b"", b""),
    (Does::Activate(b's', FIRST), b"", b""),
    (Does::Activate(b't', FIRST), b"active t 2\n", b"d1d2d3"),
];

#[test]
fn a_dropped_sequencer_does_nothing_more(rt: HostRuntime) -> Result<(), Fail> {
    let alloc = rt.alloc();
    assert_eq!(rt; as_told(alloc, DROPPED)?, DROPPED.len());
    Ok(())
}

// A batch is one payload, at most as long as one may be.
const BATCHED: &[Step] = &[
    ACTIVE,
    (Does::Batch(65_532), b"refused s long 65536\n", b""),
    (Does::Batch(65_531), b"appended s e1n1\n", b"s3s1"),
];

#[test]
fn a_batch_is_appended_as_one_payload(rt: HostRuntime) -> Result<(), Fail> {
    let alloc = rt.alloc();
    assert_eq!(rt; as_told(alloc, BATCHED)?, BATCHED.len());
    Ok(())
}
