// The made schedule and its summary.
use ld_config::Config;
use ld_ids::Name;
use ld_lsn::Lsn;
use ld_maker::{Maker, Tally, configuration, first_events, summary_line};
use ld_schedule::{Event, parse_line};
use ld_transcript::{GapKind, Line};
use std::alloc::Global;
use std::test::Fail;

/// The bytes as one number, the last one least.
fn number_of(bytes: &[u8]) -> u64 {
    let mut number = 0u64;
    for byte in bytes {
        number = number.wrapping_mul(256).wrapping_add(*byte as u64);
    }
    number
}

/// Which event it is of those that are made here, and the number that it says: the payload's bytes, or the last to be read.
fn told(event: &Event) -> (u8, u64) {
    match event {
        Event::Format { node } => (1, node.number() as u64),
        Event::Append { payload, .. } => (2, number_of(payload.bytes())),
        Event::Deliver { message } => (3, *message),
        Event::Flow { most } => (4, *most as u64),
        Event::Open { until, .. } => (5, until.value()),
        Event::Down { node } => (6, node.number() as u64),
        _ => (0, 0),
    }
}

/// Whether the event is one of those, and the one of this line.
fn is_of(alloc: Global, event: &Event, line: &[u8]) -> bool {
    match parse_line(alloc, line) {
        Ok(other) => told(event).0 != 0 && told(event) == told(&other),
        Err(_) => false,
    }
}

/// Whether the maker's next event is the one of this line.
fn makes(alloc: Global, maker: &mut Maker, line: &[u8]) -> Result<bool, Fail> {
    let event = maker.next_event(alloc)?;
    Ok(is_of(alloc, &event, line))
}

// The lines were drawn by another program. For seed 1 the first value is 908834774, so it is 74 modulo 100.
#[test]
fn a_maker_makes_its_events(rt: HostRuntime) -> Result<(), Fail> {
    let lines: [&[u8]; 10] = [
        b"deliver 153",
        b"format 1",
        b"flow 12",
        b"flow 11",
        b"down 2",
        b"append s0 4493b4f2",
        b"flow 1",
        b"flow 5",
        b"down 1",
        b"flow 10",
    ];
    let mut maker = Maker::new(1);
    for line in lines {
        assert!(rt; makes(rt.alloc(), &mut maker, line)?);
    }
    Ok(())
}

/// How many events a made schedule begins with, and whether the last of them is that of this line.
fn begins(alloc: Global, line: &[u8]) -> Result<(usize, bool), Fail> {
    let mut count = 0usize;
    let mut is = false;
    for event in first_events(alloc)? {
        is = is_of(alloc, &event, line);
        count = count.saturating_add(1);
    }
    Ok((count, is))
}

#[test]
fn a_made_schedule_begins(rt: HostRuntime) -> Result<(), Fail> {
    let last = b"open r0 1 e0n1 e4294967295n4294967295";
    assert_eq!(rt; begins(rt.alloc(), last)?, (7, true));
    Ok(())
}

/// Whether the made schedule's configuration is the one of this text.
fn is_configuration(alloc: Global, text: &[u8]) -> Result<bool, Fail> {
    let read = Config::read(alloc, text)?;
    let made = configuration(alloc)?;
    Ok(made.nodes == read.nodes && made.logs.as_slice() == read.logs.as_slice())
}

#[test]
fn the_configuration_is_the_one_that_is_read(rt: HostRuntime) -> Result<(), Fail> {
    let text = br#"{"nodes":[1,2,3,4,5],"logs":[{"id":1,"set":[1,2,3,4,5],"r":3,"extras":1}]}"#;
    assert!(rt; is_configuration(rt.alloc(), text)?);
    Ok(())
}

/// The summary of eight events that write nothing and then a hole.
fn summary(alloc: Global) -> Result<Vec<u8>, Fail> {
    let low = Lsn::new(1, 1);
    let hole = Line::Gap {
        name: Name::new(Vec::from_slice(alloc, b"r0")?),
        kind: GapKind::Hole,
        low,
        high: low,
    };
    let mut tally = Tally::new();
    tally.add(&[Line::Nothing, hole]);
    Ok(summary_line(alloc, 8, &tally)?)
}

#[test]
fn a_summary_counts_gaps_by_their_kind(rt: HostRuntime) -> Result<(), Fail> {
    let line = b"events 8 appended 0 acked 0 record 0 trim 0 hole 1 bridge 0 dataloss 0\n";
    assert!(rt; summary(rt.alloc())?.as_slice() == line.as_slice());
    Ok(())
}
