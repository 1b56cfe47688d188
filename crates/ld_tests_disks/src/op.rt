// Records as bytes: each op there and back, as the first version wrote it too; and which record may follow in a journal of
// which version.
mod index;
mod off;

ghost use Rattle.ld_op.specs.Bounds.{IsOp, IsRecord};

use ld_op::{Op, OpFault, Record, Version};
use std::alloc::Global;
use std::test::Fail;

// A format before any epoch was handed out.
const FORMAT: &[u8] = &[10, 2, 0, 0, 0, 1, 0];
// The same as the first version wrote it.
const OLDER_FORMAT: &[u8] = &[1, 0, 0, 0, 1, 0];
// A format after three epochs of log 1.
const LATE_FORMAT: &[u8] = &[10, 2, 0, 0, 0, 2, 1, 0, 0, 0, 1, 0, 0, 0, 3];
// The same as the first version wrote it.
const OLDER_LATE_FORMAT: &[u8] = &[1, 0, 0, 0, 2, 1, 0, 0, 0, 1, 0, 0, 0, 3];
// A record of two bytes at e1n1.
const RECORD: &[u8] = &[
    2, 0, 0, 0, 1, 0, 0, 0, 0, 0, 0, 0, 1, 0, 0, 0, 1, 0, 0, 0, 1, 0, 0, 2, 104, 105,
];
// A hole at e1n2, by the sequencer of epoch 2, with the greatest last known good offset.
const HOLE: &[u8] = &[
    2, 0, 0, 0, 1, 255, 255, 255, 254, 0, 0, 0, 1, 0, 0, 0, 2, 0, 0, 0, 2, 1,
];
// A bridge at the last offset of epoch 1.
const BRIDGE: &[u8] = &[
    2, 0, 0, 0, 1, 0, 0, 0, 0, 0, 0, 0, 1, 255, 255, 255, 255, 0, 0, 0, 2, 2,
];
// A plug at e1n2, by the sequencer of epoch 2.
const PLUG: &[u8] = &[
    2, 0, 0, 0, 1, 0, 0, 0, 0, 0, 0, 0, 1, 0, 0, 0, 2, 0, 0, 0, 2, 3,
];
// A seal by epoch 2.
const SEAL: &[u8] = &[3, 0, 0, 0, 1, 0, 0, 0, 2];
// The close of epoch 1 by epoch 2, with a bridge at e1n4.
const CLEAN: &[u8] = &[
    12, 0, 0, 0, 1, 0, 0, 0, 1, 0, 0, 0, 2, 0, 0, 0, 0, 0, 0, 0, 0, 0, 0, 0, 0, 0, 0, 0, 4, 0,
];
// The same as the first version wrote it.
const OLDER_CLEAN: &[u8] = &[
    4, 0, 0, 0, 1, 0, 0, 0, 1, 0, 0, 0, 2, 0, 0, 0, 0, 0, 0, 0, 0, 0, 0, 0, 0, 0, 0, 0, 4,
];
// The same close where something is lost.
const LOSSY: &[u8] = &[
    12, 0, 0, 0, 1, 0, 0, 0, 1, 0, 0, 0, 2, 0, 0, 0, 0, 0, 0, 0, 0, 0, 0, 0, 0, 0, 0, 0, 4, 1,
];
// A trim to e1n3.
const TRIM: &[u8] = &[5, 0, 0, 0, 1, 0, 0, 0, 1, 0, 0, 0, 3];
// A record and a hole that were lost.
const REFILL: &[u8] = &[
    6, 0, 0, 0, 1, 0, 2, 0, 0, 0, 1, 0, 0, 0, 1, 0, 0, 0, 2, 0, 0, 1, 7, 0, 0, 0, 1, 0, 0, 0, 2, 0,
    0, 0, 2, 1,
];
// Nothing is missing.
const REFILLED: &[u8] = &[7, 0, 0, 0, 1];
// The second version from here on.
const MARK: &[u8] = &[11, 2];

// Whether the op is written as the bytes.
fn is_written_as(alloc: Global, op: &Op, bytes: &[u8]) -> bool
    requires { IsOp op.now }
{
    let mut out = Vec::new(alloc);
    op.encode(alloc, &mut out).is_ok() && out.as_slice() == bytes
}

// What the record is: 1 an op as now, or 2 as the first version wrote it, which is written as the bytes, 3 a mark, and else 0.
fn kind_of(alloc: Global, found: &Record, bytes: &[u8]) -> u8
    requires { IsRecord found.now }
{
    match found {
        Record::Now(op) if is_written_as(alloc, op, bytes) => 1,
        Record::Before(op) if is_written_as(alloc, op, bytes) => 2,
        Record::Mark => 3,
        _ => 0,
    }
}

// What the bytes are that are written as others: 0 also where they are no record.
pub(crate) fn read_as(alloc: Global, bytes: &[u8], others: &[u8]) -> u8 {
    match Record::decode(alloc, bytes) {
        Ok(found) => kind_of(alloc, &found, others),
        Err(_) => 0,
    }
}

// The number of a version: 0 where there is none.
fn number_of(version: Option<Version>) -> u8 {
    match version {
        None => 0,
        Some(Version::First) => 1,
        Some(Version::Second) => 2,
        Some(Version::Blank) => 8,
    }
}

// The version of a journal with the record of the bytes more, and 9 where they are none.
fn after(alloc: Global, version: Version, bytes: &[u8]) -> u8 {
    match Record::decode(alloc, bytes) {
        Ok(found) => number_of(version.after(&found)),
        Err(_) => 9,
    }
}

// Whether the bytes are refused at the offset.
pub(crate) fn is_off_at(alloc: Global, place: u64, bytes: &[u8]) -> bool {
    match Record::decode(alloc, bytes) {
        Ok(_) => false,
        Err(fault) => fault == OpFault::Bad(place),
    }
}

#[test]
fn each_op_is_written_as_it_is_read(rt: HostRuntime) -> Result<(), Fail> {
    let alloc = rt.alloc();
    let kinds = [
        read_as(alloc, LATE_FORMAT, LATE_FORMAT),
        read_as(alloc, RECORD, RECORD),
        read_as(alloc, HOLE, HOLE),
        read_as(alloc, BRIDGE, BRIDGE),
        read_as(alloc, PLUG, PLUG),
        read_as(alloc, SEAL, SEAL),
        read_as(alloc, CLEAN, CLEAN),
        read_as(alloc, TRIM, TRIM),
        read_as(alloc, REFILL, REFILL),
        read_as(alloc, REFILLED, REFILLED),
    ];
    assert_eq!(rt; kinds, [1; 10]);
    Ok(())
}

#[test]
fn the_first_version_is_read(rt: HostRuntime) -> Result<(), Fail> {
    let alloc = rt.alloc();
    let kinds = [
        read_as(alloc, OLDER_FORMAT, FORMAT),
        read_as(alloc, OLDER_LATE_FORMAT, LATE_FORMAT),
        read_as(alloc, OLDER_CLEAN, CLEAN),
        read_as(alloc, MARK, &[]),
        read_as(alloc, &Record::mark_bytes(), &[]),
    ];
    assert_eq!(rt; kinds, [2, 2, 2, 3, 3]);
    Ok(())
}

// The versions of a journal of this one with a record more: an older format, a format, a mark, an older close, a close, a plug.
fn versions_after(alloc: Global, version: Version) -> [u8; 6] {
    [
        after(alloc, version, OLDER_FORMAT),
        after(alloc, version, FORMAT),
        after(alloc, version, MARK),
        after(alloc, version, OLDER_CLEAN),
        after(alloc, version, CLEAN),
        after(alloc, version, PLUG),
    ]
}

#[test]
fn a_journal_begins_with_a_format_and_goes_on_in_its_version(rt: HostRuntime) -> Result<(), Fail> {
    let alloc = rt.alloc();
    let rows = [
        (Version::Blank, [1, 2, 0, 0, 0, 0]),
        (Version::First, [0, 0, 2, 1, 0, 1]),
        (Version::Second, [0, 0, 0, 0, 2, 2]),
    ];
    for (version, expected) in rows {
        assert_eq!(rt; versions_after(alloc, version), expected);
    }
    Ok(())
}
