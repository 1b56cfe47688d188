// Indexes as bytes: there and back, and where other bytes are off.
use ld_ids::LogId;
use ld_lsn::Lsn;
use ld_op::{OpFault, Plain, Pointed};
use std::alloc::Global;
use std::test::Fail;

// One log, sealed by epoch 2, trimmed to e1n1 and lost up to epoch 3; epoch 1 is closed before its offset 4, of epoch 2 the
// last known good offset 5 is told, and at e1n2 stands a record of two bytes from offset 300 on, at e1n3 a hole.
const INDEX: &[u8] = &[
    0, 0, 0, 1, 0, 1, // generation, logs
    0, 0, 0, 1, 0, 0, 0, 2, 0, 0, 0, 1, 0, 0, 0, 1, 1, 0, 0, 0, 3, // log, sealed, trim, lost
    0, 0, 0, 1, 0, 0, 0, 1, // a summary, of epoch 1
    0, 0, 0, 2, 0, 0, 0, 0, 0, 0, 0, 0, 0, 0, 0, 0, 0, 0, 0, 4, 0, // ballot, place, trim, end, loss
    0, 0, 0, 1, 0, 0, 0, 2, 0, 0, 0, 5, // a last known good place
    0, 0, 0, 2, // entries
    0, 0, 0, 1, 0, 0, 0, 2, 0, 0, 0, 1, 0, 0, 0, 0, 0, 0, 0, 1, 44, 0, 2, // a record
    0, 0, 0, 1, 0, 0, 0, 3, 0, 0, 0, 2, 1, // a hole
];
// A log of which nothing is known, which lists a last known good offset of 0.
const ZERO: &[u8] = &[
    0, 0, 0, 1, 0, 1, 0, 0, 0, 7, 0, 0, 0, 0, 0, 0, 0, 0, 0, 0, 0, 0, 0, 0, 0, 0, 0, 0, 0, 0, 0, 0,
    0, 0, 1, 0, 0, 0, 2, 0, 0, 0, 0, 0, 0, 0, 0,
];
// An epoch that was closed with a loss.
const LOSSY: &[u8] = &[
    0, 0, 0, 1, 0, 1, 0, 0, 0, 1, 0, 0, 0, 2, 0, 0, 0, 0, 0, 0, 0, 0, 0, 0, 0, 0, 0, 0, 0, 0, 1, 0,
    0, 0, 1, 0, 0, 0, 2, 0, 0, 0, 0, 0, 0, 0, 0, 0, 0, 0, 0, 0, 0, 0, 4, 1, 0, 0, 0, 0, 0, 0, 0, 0,
];

// Whether the index is written as the bytes, and as long.
fn is_written_as(alloc: Global, index: &Plain, bytes: &[u8]) -> bool {
    let mut out = Vec::new(alloc);
    index.encode_index(&mut out).is_ok()
        && out.as_slice() == bytes
        && index.index_length() == bytes.len() as u64
}

// Whether the bytes are an index, and written as they were.
fn is_same_again(alloc: Global, bytes: &[u8]) -> bool {
    match Plain::decode_index(alloc, bytes, false, 0) {
        Ok((index, _)) => is_written_as(alloc, &index, bytes),
        Err(_) => false,
    }
}

// Where an entry's payload stands, and how many bytes it has: no entry, or one without a payload, has none at 0.
fn payload_of(entry: Option<&Pointed>) -> (u64, u64) {
    match entry {
        Some(entry) => match entry.place() {
            Some(place) => (place.at, place.len),
            None => (0, 0),
        },
        None => (0, 0),
    }
}

// How many entries an index has, and the payloads of log 1 at e1n2 and e1n3.
fn told(alloc: Global, bytes: &[u8]) -> Result<[(u64, u64); 3], OpFault> {
    let (index, _) = Plain::decode_index(alloc, bytes, false, 0)?;
    match LogId::new(1) {
        Some(log) => Ok([
            (index.entry_count(), 0),
            payload_of(index.entry(log, Lsn::new(1, 2))),
            payload_of(index.entry(log, Lsn::new(1, 3))),
        ]),
        None => Err(OpFault::NoMemory),
    }
}

// Whether the bytes are refused at the offset.
fn is_off_at(alloc: Global, older: bool, place: u64, bytes: &[u8]) -> bool {
    match Plain::decode_index(alloc, bytes, older, 0) {
        Ok(_) => false,
        Err(fault) => fault == OpFault::Bad(place),
    }
}

#[test]
fn an_index_is_written_as_it_is_read(rt: HostRuntime) -> Result<(), Fail> {
    let alloc = rt.alloc();
    let same = [
        is_same_again(alloc, INDEX),
        is_same_again(alloc, ZERO),
        is_same_again(alloc, LOSSY),
    ];
    assert_eq!(rt; same, [true; 3]);
    Ok(())
}

#[test]
fn an_index_tells_where_payloads_stand(rt: HostRuntime) -> Result<(), Fail> {
    assert_eq!(rt; told(rt.alloc(), INDEX)?, [(2, 0), (300, 2), (0, 0)]);
    Ok(())
}

#[test]
fn other_bytes_are_no_index(rt: HostRuntime) -> Result<(), Fail> {
    let alloc = rt.alloc();
    let off = [
        // The generation is cut off.
        is_off_at(alloc, false, 0, &[0, 0, 1]),
        // The count of logs.
        is_off_at(alloc, false, 4, &[0, 0, 0, 1, 0]),
        // The log 0.
        is_off_at(alloc, false, 6, &[0, 0, 0, 1, 0, 1, 0, 0, 0, 0]),
        // The log 65536.
        is_off_at(alloc, false, 6, &[0, 0, 0, 1, 0, 1, 0, 1, 0, 0]),
        // A byte that tells neither that the log is lost nor that it isn't.
        is_off_at(
            alloc,
            false,
            22,
            &[
                0, 0, 0, 1, 0, 1, 0, 0, 0, 1, 0, 0, 0, 2, 0, 0, 0, 0, 0, 0, 0, 0, 2,
            ],
        ),
        // A loss in an older index.
        is_off_at(alloc, true, 55, LOSSY),
    ];
    assert_eq!(rt; off, [true; 6]);
    Ok(())
}

// A record of log 1 at e1n2 without its payload, and the same with one past the last number.
const CUT_OFF: &[u8] = &[
    0, 0, 0, 1, 0, 1, 0, 0, 0, 1, 0, 0, 0, 2, 0, 0, 0, 0, 0, 0, 0, 0, 0, 0, 0, 0, 0, 0, 0, 0, 0, 0,
    0, 0, 0, 0, 0, 0, 1, 0, 0, 0, 1, 0, 0, 0, 2, 0, 0, 0, 1, 4,
];

const PAST: &[u8] = &[
    0, 0, 0, 1, 0, 1, 0, 0, 0, 1, 0, 0, 0, 2, 0, 0, 0, 0, 0, 0, 0, 0, 0, 0, 0, 0, 0, 0, 0, 0, 0, 0,
    0, 0, 0, 0, 0, 0, 1, 0, 0, 0, 1, 0, 0, 0, 2, 0, 0, 0, 1, 0, 255, 255, 255, 255, 255, 255, 255,
    255, 0, 1,
];

#[test]
fn entries_are_judged(rt: HostRuntime) -> Result<(), Fail> {
    let alloc = rt.alloc();
    let off = [
        // The count of entries is cut off.
        is_off_at(alloc, false, 35, &PAST[..38]),
        is_off_at(alloc, false, 51, CUT_OFF),
        is_off_at(alloc, false, 52, PAST),
    ];
    assert_eq!(rt; off, [true; 3]);
    Ok(())
}
