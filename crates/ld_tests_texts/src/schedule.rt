// Lines and their places. Lines at the bounds of their parts, and lines a byte away, stand in tools/lines.py, for the built program.
use ld_schedule::{Event, LineFault, parse_line};
use std::alloc::{AllocError, Global};
use std::test::Fail;

/// A number for the kind of an event, and two of its own; 9 where it is of another kind.
fn parts_of(event: &Event) -> (u8, u64, u64) {
    match event {
        Event::Flow { most } => (1, u64::from(*most), 0),
        Event::RegFail { call, done } => (2, u64::from(*call), u64::from(*done)),
        Event::Open { from, until, .. } => (3, from.value(), until.value()),
        Event::Set { r, set, .. } => (4, u64::from(*r), u64::from(set.bits())),
        Event::Batch { messages, .. } => (5, messages.len() as u64, messages.packed_len() as u64),
        Event::Calm => (6, 0, 0),
        _ => (9, 0, 0),
    }
}

/// What a line is: 0 and the byte offset of its syntax error, or its event's numbers.
fn parts(alloc: Global, line: &[u8]) -> Result<(u8, u64, u64), LineFault> {
    match &parse_line(alloc, line) {
        Ok(event) => Ok(parts_of(event)),
        Err(LineFault::Bad { place }) => Ok((0, *place as u64, 0)),
        Err(LineFault::NoMemory) => Err(LineFault::NoMemory),
    }
}

#[test]
fn lines_are_events(rt: HostRuntime) -> Result<(), Fail> {
    let lines: [(&[u8], (u8, u64, u64)); 8] = [
        (b"flow 1000000", (1, 1_000_000, 0)),
        (b"flow 1\n", (0, 6, 0)),
        (b"regfail 3 done", (2, 3, 1)),
        (b"open r 1 e0n1 e1n2", (3, 1, 4_294_967_298)),
        (b"set 65535 16 3 16", (4, 16, 0x8000)),
        (b"set 1 2 0 2,1", (0, 13, 0)),
        (b"batch a 01,-", (5, 2, 7)),
        (b"calm", (6, 0, 0)),
    ];
    for (line, expected) in lines {
        assert_eq!(rt; parts(rt.alloc(), line)?, expected);
    }
    Ok(())
}

/// A line of so many empty messages.
fn empty_messages(alloc: Global, count: usize) -> Result<Vec<u8>, AllocError> {
    let mut line = Vec::from_slice(alloc, b"batch a -")?;
    for _ in 1..count {
        line.extend_from_slice(b",-")?;
    }
    Ok(line)
}

/// What a line of so many empty messages is.
fn batched(alloc: Global, count: usize) -> Result<(u8, u64, u64), Fail> {
    let line = empty_messages(alloc, count)?;
    Ok(parts(alloc, &line)?)
}

#[test]
fn a_batch_has_up_to_1024_messages(rt: HostRuntime) -> Result<(), Fail> {
    assert_eq!(rt; batched(rt.alloc(), 1_024)?, (5, 1_024, 2_050));
    assert_eq!(rt; batched(rt.alloc(), 1_025)?, (0, 2_055, 0));
    Ok(())
}
