// Frames as they are written down, and frames that go wrong.
mod said;
mod same;
mod samples;

ghost use Rattle.ld_msg.specs.Bounds.{IsMessage};

use ld_msg::Msg;
use ld_wire::{Decoder, WireFault, encode};
use std::alloc::Global;
use std::test::Fail;

/// Whether the message is spelled so.
pub(crate) fn is_spelled(alloc: Global, message: &Msg, frame: &[u8]) -> bool
    requires { IsMessage message.now }
{
    match encode(alloc, message) {
        Ok(spelled) => spelled.bytes() == frame,
        Err(_) => false,
    }
}

/// What the next call answers: of a message whether it is spelled so.
fn next(alloc: Global, decoder: &mut Decoder, frame: &[u8]) -> Result<Option<bool>, WireFault> {
    match decoder.take(alloc) {
        Ok(Some(message)) => Ok(Some(is_spelled(alloc, &message, frame))),
        Ok(None) => Ok(None),
        Err(fault) => Err(fault),
    }
}

/// Whether the bytes are refused with the fault, and stay so with more bytes.
fn is_refused(alloc: Global, bytes: &[u8], fault: WireFault) -> bool {
    let mut decoder = Decoder::new(alloc);
    let _ = decoder.feed(bytes);
    let first = next(alloc, &mut decoder, b"") == Err(fault);
    let _ = decoder.feed(b"\x00\x00\x00\x00");
    first && next(alloc, &mut decoder, b"") == Err(fault)
}

/// Faults in the length and the kind, which are told at once, and in the first field.
fn refused_at_once(alloc: Global) -> [bool; 5] {
    [
        is_refused(alloc, b"\x00\x80\x00\x01", WireFault::TooLong(8_388_609)),
        is_refused(alloc, b"\xff\xff\xff\xff", WireFault::TooLong(u32::MAX)),
        is_refused(alloc, b"\x00\x00\x00\x00", WireFault::BadField(0, 0)),
        is_refused(alloc, b"\x00\x80\x00\x00\xc8", WireFault::BadKind(200)),
        is_refused(alloc, b"\x00\x00\x00\x01\x10", WireFault::BadField(16, 1)),
    ]
}

/// How many of the numbers that stand beside kinds are refused as such.
fn refused_kinds(alloc: Global) -> u32 {
    let mut count: u32 = 0;
    for kind in [0, 5, 9, 14, 21] {
        if is_refused(alloc, &[0, 0, 0, 1, kind], WireFault::BadKind(kind)) {
            count = count.saturating_add(1);
        }
    }
    count
}

/// A trim that is cut short by its last byte, has one more, comes from a node, or goes to nobody.
fn refused_trims(alloc: Global) -> [bool; 4] {
    [
        is_refused(
            alloc,
            b"\x00\x00\x00\x16\x0b\x01\x00\x00\x00\x01\x00\x00\x00\x00\x01\x00\x00\x00\x01\x00\x00\x00\x01\x00\x00\x00",
            WireFault::BadField(11, 15),
        ),
        is_refused(
            alloc,
            b"\x00\x00\x00\x18\x0b\x01\x00\x00\x00\x01\x00\x00\x00\x00\x01\x00\x00\x00\x01\x00\x00\x00\x01\x00\x00\x00\x01\x00",
            WireFault::BadField(11, 23),
        ),
        is_refused(
            alloc,
            b"\x00\x00\x00\x17\x0b\x00\x00\x00\x00\x01\x00\x00\x00\x00\x01\x00\x00\x00\x01\x00\x00\x00\x01\x00\x00\x00\x01",
            WireFault::BadField(11, 1),
        ),
        is_refused(
            alloc,
            b"\x00\x00\x00\x17\x0b\x01\x00\x00\x00\x01\x03\x00\x00\x00\x01\x00\x00\x00\x01\x00\x00\x00\x01\x00\x00\x00\x01",
            WireFault::BadField(11, 6),
        ),
    ]
}

#[test]
fn a_wrong_length_kind_or_first_field_is_refused_at_once(rt: HostRuntime) -> Result<(), Fail> {
    assert_eq!(rt; refused_at_once(rt.alloc()), [true; 5]);
    Ok(())
}

#[test]
fn numbers_beside_the_kinds_are_refused(rt: HostRuntime) -> Result<(), Fail> {
    assert_eq!(rt; refused_kinds(rt.alloc()), 5);
    Ok(())
}

#[test]
fn a_wrong_trim_is_refused_at_its_field(rt: HostRuntime) -> Result<(), Fail> {
    assert_eq!(rt; refused_trims(rt.alloc()), [true; 4]);
    Ok(())
}

/// A reader's ask.
const ASK: &[u8] =
    b"\x00\x00\x00\x1b\x0c\x02\x00\x00\x00\x00\x00\x00\x00\x00\x01\x00\x00\x00\x01\x00\x00\x00\x01\x00\x00\x00\x00\x00\x00\x00\x01";

/// The answer.
const ENDED: &[u8] =
    b"\x00\x00\x00\x24\x13\x00\x00\x00\x00\x01\x02\x00\x00\x00\x00\x00\x00\x00\x01\x00\x00\x00\x01\x00\x00\x00\x00\x00\x00\x00\x01\x00\x00\x00\x00\x00\x00\x00\x01\x00";

/// What comes of two frames, of which the second one is there in part and then whole, and of nothing behind them.
fn next_of_two(alloc: Global) -> [Result<Option<bool>, WireFault>; 4] {
    let mut decoder = Decoder::new(alloc);
    let _ = decoder.feed(ASK);
    let _ = decoder.feed(&ENDED[..20]);
    let first = next(alloc, &mut decoder, ASK);
    let between = next(alloc, &mut decoder, ENDED);
    let _ = decoder.feed(&ENDED[20..]);
    let second = next(alloc, &mut decoder, ENDED);
    [first, between, second, next(alloc, &mut decoder, b"")]
}

#[test]
fn frames_are_taken_one_after_the_other(rt: HostRuntime) -> Result<(), Fail> {
    let answers = [Ok(Some(true)), Ok(None), Ok(Some(true)), Ok(None)];
    assert_eq!(rt; next_of_two(rt.alloc()), answers);
    Ok(())
}

/// How often a frame of the greatest length, which comes in pieces, waits for more, and what it is in the end.
fn waits_of_longest(alloc: Global) -> (u32, Result<Option<bool>, WireFault>) {
    let mut decoder = Decoder::new(alloc);
    let mut count: u32 = 0;
    let _ = decoder.feed(b"\x00\x80\x00\x00\x01");
    let piece = [0; 1024];
    for _ in 0..8_192 {
        if next(alloc, &mut decoder, b"") == Ok(None) {
            count = count.saturating_add(1);
        }
        let _ = decoder.feed(&piece);
    }
    (count, next(alloc, &mut decoder, b""))
}

#[test]
fn a_long_frame_comes_in_small_pieces(rt: HostRuntime) -> Result<(), Fail> {
    assert_eq!(rt;
        waits_of_longest(rt.alloc()),
        (8_192, Err(WireFault::BadField(1, 1)))
    );
    Ok(())
}
