// A crowd in memory, call by call.
use ld_crowd::{Crowd, Heard, MemCrowd, Step, Turn};
use ld_io::{Failed, NoMemory};
use std::alloc::Global;
use std::test::Fail;

/// A vector of these; without memory it is empty.
fn copied<T: Copy>(alloc: Global, items: &[T]) -> Vec<T> {
    let mut all = Vec::new(alloc);
    let _ = all.extend_from_slice(items);
    all
}

/// A crowd of two peers, who send `[5, 6, 7]` and `[9]`, with these steps; the calls with these numbers fail.
fn crowd_of_two(alloc: Global, steps: &[Step], fails: &[u64]) -> Result<MemCrowd, NoMemory> {
    let mut peers = Vec::new(alloc);
    let _ = peers.push(copied(alloc, &[5, 6, 7]));
    let _ = peers.push(copied(alloc, &[9]));
    MemCrowd::new(alloc, peers, copied(alloc, steps), copied(alloc, fails))
}

/// A turn as a number: 10 and the peer that came, 20 and that of whom there may be something to read, 30 and the silent
/// one, 0 for nobody, and 99 where the call failed.
pub(crate) fn turned(turn: Result<Turn, Failed>) -> u64 {
    match turn {
        Ok(Turn::Came(peer)) => peer.saturating_add(10),
        Ok(Turn::Of(peer)) => peer.saturating_add(20),
        Ok(Turn::Silent(peer)) => peer.saturating_add(30),
        Ok(Turn::Nobody) => 0,
        Err(_) => 99,
    }
}

/// A read as a number: how many bytes it gave, 50 for none yet, 60 for the end, and 99 where the call failed.
pub(crate) fn heard(heard: Result<Heard, Failed>) -> usize {
    match heard {
        Ok(Heard::Some(count)) => count,
        Ok(Heard::Later) => 50,
        Ok(Heard::End) => 60,
        Err(_) => 99,
    }
}

/// Whose turn it is in six calls, the second of which fails.
fn turns(alloc: Global) -> Result<[u64; 6], NoMemory> {
    let steps = [
        Step::Comes,
        Step::Has(0, 2),
        Step::Silent(1),
        Step::Silent(0),
    ];
    let mut crowd = crowd_of_two(alloc, &steps, &[1])?;
    let first = turned(crowd.turn(true));
    let failed = turned(crowd.turn(true));
    let second = turned(crowd.turn(true));
    let third = turned(crowd.turn(true));
    let fourth = turned(crowd.turn(true));
    Ok([
        first,
        failed,
        second,
        third,
        fourth,
        turned(crowd.turn(true)),
    ])
}

#[test]
fn turns_come_in_the_order_of_the_steps(rt: HostRuntime) -> Result<(), Fail> {
    assert_eq!(rt; turns(rt.alloc())?, [10, 99, 20, 21, 30, 0]);
    Ok(())
}

/// What five reads of the first peer gave: before it came, before a byte of it is there, of two bytes, of the last one,
/// and at its end; and the bytes.
fn reads(alloc: Global) -> Result<([usize; 5], [u8; 3]), NoMemory> {
    let mut crowd = crowd_of_two(alloc, &[Step::Comes, Step::Has(0, 2), Step::Has(0, 9)], &[])?;
    let mut buf = [0; 8];
    let absent = heard(crowd.read(0, &mut buf));
    let _ = crowd.turn(true);
    let none = heard(crowd.read(0, &mut buf));
    let _ = crowd.turn(true);
    let two = heard(crowd.read(0, &mut buf));
    let bytes = [buf[0], buf[1]];
    let _ = crowd.turn(true);
    let one = heard(crowd.read(0, &mut buf));
    let end = heard(crowd.read(0, &mut buf));
    Ok(([absent, none, two, one, end], [bytes[0], bytes[1], buf[0]]))
}

#[test]
fn a_peer_gives_what_the_steps_allow(rt: HostRuntime) -> Result<(), Fail> {
    assert_eq!(rt; reads(rt.alloc())?, ([50, 50, 2, 1, 60], [5, 6, 7]));
    Ok(())
}

/// Whether what is said to each of two peers stands there in order, and none of it at a third.
fn said(alloc: Global) -> Result<[bool; 4], NoMemory> {
    let mut crowd = crowd_of_two(alloc, &[], &[])?;
    crowd.say(0, &[1, 2])?;
    crowd.say(1, &[3])?;
    crowd.say(0, &[4])?;
    crowd.say(2, &[8])?;
    let full = crowd.is_full(0);
    Ok([
        crowd.told(0) == Some([1, 2, 4].as_slice()),
        crowd.told(1) == Some([3].as_slice()),
        crowd.told(2).is_none(),
        !full,
    ])
}

#[test]
fn what_is_said_is_kept_by_peer(rt: HostRuntime) -> Result<(), Fail> {
    assert_eq!(rt; said(rt.alloc())?, [true; 4]);
    Ok(())
}
