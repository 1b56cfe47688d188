// What a frame of each kind says, told by hand.
use crate::link::copied;
use crate::wire::same::is_same;
use crate::wire::samples::{
    CLEAN, CLEAN_HERE, DIGEST_ASK, DIGEST_PAGE, LOST_HERE, LOST_HERE_READER, READ_ASK,
    READ_ASK_NODE, READ_ENDED, READ_ONE, READ_PAGE, READ_TRIM, READ_WAIT, RELEASE, SEALED_HERE,
    STORE, STORE_BRIDGE, STORED, TRIM, TRIMMED_HERE,
};
use crate::wire::{is_spelled, next};
use ld_ids::{LogId, NoMemory, NodeId, NodeSet, Payload};
use ld_lsn::Lsn;
use ld_msg::{Body, Entries, Entry, Msg, Summary, What, Who};
use ld_wire::Decoder;
use std::alloc::Global;
use std::test::Fail;
use std::vec;

/// Whether the next message says the same as this one, and is spelled as the frame.
fn is_next(alloc: Global, decoder: &mut Decoder, frame: &[u8], expected: &Msg) -> bool {
    match decoder.take(alloc) {
        Ok(Some(message)) => is_same(&message, expected) && is_spelled(alloc, &message, frame),
        Ok(None) => false,
        Err(_) => false,
    }
}

/// Whether the frame, fed byte by byte, is taken behind its last byte, as just this message of the log, and nothing is left.
fn is_said(alloc: Global, frame: &[u8], from: Who, to: Who, log: u32, body: Body) -> bool {
    let Some(log) = LogId::new(log) else {
        return false;
    };
    let message = Msg {
        from,
        to,
        log,
        body,
    };
    let mut decoder = Decoder::new(alloc);
    for byte in frame {
        if next(alloc, &mut decoder, frame) != Ok(None) {
            return false;
        }
        let _ = decoder.feed(&[*byte]);
    }
    is_next(alloc, &mut decoder, frame, &message) && next(alloc, &mut decoder, frame) == Ok(None)
}

fn node(number: u8) -> Who {
    match NodeId::new(number) {
        Some(node) => Who::Node(node),
        None => Who::Reader(0),
    }
}

/// What sequencer 3 says to node 4.
fn tells(alloc: Global, frame: &[u8], body: Body) -> bool {
    is_said(alloc, frame, Who::Sequencer(3), node(4), 9, body)
}

/// What node 4 says to sequencer 3.
fn answers(alloc: Global, frame: &[u8], body: Body) -> bool {
    is_said(alloc, frame, node(4), Who::Sequencer(3), 9, body)
}

/// What reader 7 says to node 4.
fn asks(alloc: Global, frame: &[u8], body: Body) -> bool {
    is_said(alloc, frame, Who::Reader(7), node(4), 9, body)
}

/// What node 4 says to reader 7.
fn reads(alloc: Global, frame: &[u8], body: Body) -> bool {
    is_said(alloc, frame, node(4), Who::Reader(7), 9, body)
}

/// A record of the bytes; without memory it has none.
fn record(alloc: Global, bytes: &[u8]) -> What {
    What::Rec(Payload::new(copied(alloc, bytes)))
}

fn entry(epoch: u32, place: u32, ballot: u32, what: What) -> Entry {
    Entry {
        number: Lsn::new(epoch, place),
        ballot,
        what,
    }
}

fn says_stores_and_a_trim(alloc: Global) -> [bool; 3] {
    [
        tells(
            alloc,
            STORE,
            Body::Store {
                number: Lsn::new(3, 5),
                lng: 2,
                what: record(alloc, b"hi"),
            },
        ),
        tells(
            alloc,
            STORE_BRIDGE,
            Body::Store {
                number: Lsn::new(2, u32::MAX),
                lng: 0,
                what: What::Bridge,
            },
        ),
        is_said(
            alloc,
            TRIM,
            Who::Sequencer(1),
            node(1),
            1,
            Body::Trim {
                trim: Lsn::new(1, 1),
            },
        ),
    ]
}

#[test]
fn stores_and_a_trim_are_said_so(rt: HostRuntime) -> Result<(), Fail> {
    assert_eq!(rt; says_stores_and_a_trim(rt.alloc()), [true; 3]);
    Ok(())
}

fn says_answers(alloc: Global) -> [bool; 5] {
    [
        answers(
            alloc,
            STORED,
            Body::Stored {
                number: Lsn::new(3, 5),
            },
        ),
        answers(
            alloc,
            SEALED_HERE,
            Body::SealedHere {
                number: Lsn::new(3, 5),
                sealed: 7,
            },
        ),
        answers(
            alloc,
            LOST_HERE,
            Body::LostHere {
                number: Lsn::new(3, 5),
                round: 0,
                generation: 6,
                end: Lsn::new(0, 0),
            },
        ),
        is_said(
            alloc,
            LOST_HERE_READER,
            node(4),
            Who::Reader(999),
            9,
            Body::LostHere {
                number: Lsn::new(3, 5),
                round: 8,
                generation: 6,
                end: Lsn::new(4, 0),
            },
        ),
        answers(
            alloc,
            TRIMMED_HERE,
            Body::TrimmedHere {
                number: Lsn::new(3, 5),
                trim: Lsn::new(3, 6),
            },
        ),
    ]
}

#[test]
fn a_nodes_answers_are_said_so(rt: HostRuntime) -> Result<(), Fail> {
    assert_eq!(rt; says_answers(rt.alloc()), [true; 5]);
    Ok(())
}

/// How an epoch was closed.
fn summary(ballot: u32, lng: u32, loss: bool) -> Summary {
    Summary {
        ballot,
        lng,
        trim: Lsn::new(1, 1),
        end: 6,
        loss,
    }
}

fn says_closes(alloc: Global) -> [bool; 4] {
    [
        answers(
            alloc,
            CLEAN_HERE,
            Body::CleanHere {
                number: Lsn::new(2, 5),
                summary: summary(4, 0, false),
            },
        ),
        tells(
            alloc,
            CLEAN,
            Body::Clean {
                epoch: 2,
                summary: summary(3, 1, true),
            },
        ),
        tells(
            alloc,
            DIGEST_ASK,
            Body::DigestAsk {
                from: Lsn::new(2, 1),
            },
        ),
        tells(
            alloc,
            RELEASE,
            Body::Release {
                released: Lsn::new(3, 4),
            },
        ),
    ]
}

#[test]
fn closes_and_releases_are_said_so(rt: HostRuntime) -> Result<(), Fail> {
    assert_eq!(rt; says_closes(rt.alloc()), [true; 4]);
    Ok(())
}

fn says_digest(alloc: Global) -> Result<bool, NoMemory> {
    let entries = Entries::new(vec![in alloc;
        entry(2, 1, 2, record(alloc, b"ab")),
        entry(2, 2, 3, What::Hole),
        entry(2, 9, 2, What::Bridge),
    ]?);
    let body = Body::DigestPage {
        from: Lsn::new(2, 1),
        upto: Lsn::new(2, 9),
        trim: Lsn::new(1, 1),
        lng: 3,
        entries,
    };
    Ok(answers(alloc, DIGEST_PAGE, body))
}

fn says_page(alloc: Global) -> Result<bool, NoMemory> {
    let entries = Entries::new(vec![in alloc;
        entry(1, 1, 1, record(alloc, b"x")),
        entry(1, 3, 2, What::Hole),
        entry(1, 4, 2, What::Plug),
        entry(1, 5, 2, What::Withheld),
    ]?);
    let body = Body::ReadPage {
        round: 5,
        from: Lsn::new(1, 1),
        upto: Lsn::new(2, 0),
        clean: true,
        entries,
    };
    Ok(reads(alloc, READ_PAGE, body))
}

#[test]
fn pages_are_said_so(rt: HostRuntime) -> Result<(), Fail> {
    assert!(rt; says_digest(rt.alloc())?);
    assert!(rt; says_page(rt.alloc())?);
    Ok(())
}

fn says_asks(alloc: Global) -> [bool; 3] {
    [
        asks(
            alloc,
            READ_ASK,
            Body::ReadAsk {
                round: 5,
                from: Lsn::new(1, 1),
            },
        ),
        is_said(
            alloc,
            READ_ASK_NODE,
            node(16),
            node(4),
            9,
            Body::ReadAsk {
                round: 0,
                from: Lsn::new(1, 1),
            },
        ),
        asks(
            alloc,
            READ_ONE,
            Body::ReadOne {
                round: 5,
                from: Lsn::new(1, 1),
                set: NodeSet::from_bits(0x8007),
                excluded: NodeSet::from_bits(2),
            },
        ),
    ]
}

#[test]
fn asks_are_said_so(rt: HostRuntime) -> Result<(), Fail> {
    assert_eq!(rt; says_asks(rt.alloc()), [true; 3]);
    Ok(())
}

fn says_ends(alloc: Global) -> [bool; 3] {
    [
        reads(
            alloc,
            READ_ENDED,
            Body::ReadEnded {
                round: 5,
                from: Lsn::new(1, 9),
                end: Lsn::new(1, 8),
                loss: true,
            },
        ),
        reads(
            alloc,
            READ_TRIM,
            Body::ReadTrim {
                round: 5,
                from: Lsn::new(1, 9),
                trim: Lsn::new(1, 8),
            },
        ),
        reads(
            alloc,
            READ_WAIT,
            Body::ReadWait {
                round: 5,
                from: Lsn::new(1, 9),
                released: Lsn::new(1, 8),
            },
        ),
    ]
}

#[test]
fn where_reading_ends_is_said_so(rt: HostRuntime) -> Result<(), Fail> {
    assert_eq!(rt; says_ends(rt.alloc()), [true; 3]);
    Ok(())
}
