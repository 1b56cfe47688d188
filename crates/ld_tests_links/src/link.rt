// A link in memory, call by call.
use ld_io::{Failed, NoMemory};
use ld_link::{Dial, Link, MemLink};
use std::alloc::Global;
use std::test::Fail;

/// A vector of these; without memory it is empty.
pub(crate) fn copied<T: Copy>(alloc: Global, items: &[T]) -> Vec<T> {
    let mut all = Vec::new(alloc);
    let _ = all.extend_from_slice(items);
    all
}

/// A link to two peers, the first of which sends these bytes, with so much room to each; the calls with these numbers fail,
/// the first one being 0. Without memory there are fewer peers.
pub(crate) fn link_to_two(
    alloc: Global,
    bytes: &[u8],
    room: usize,
    fails: &[u64],
) -> Result<MemLink, NoMemory> {
    let mut peers = Vec::new(alloc);
    let _ = peers.push(copied(alloc, bytes));
    let _ = peers.push(Vec::new(alloc));
    MemLink::new(alloc, peers, room, copied(alloc, fails))
}

/// How many bytes a call was for; 99 where it failed.
fn count(answer: Result<usize, Failed>) -> usize {
    match answer {
        Ok(count) => count,
        Err(_) => 99,
    }
}

/// How much each of four reads of the first peer gave, and the bytes.
fn reads(alloc: Global) -> Result<([usize; 4], [u8; 3]), NoMemory> {
    let mut link = link_to_two(alloc, &[5, 6, 7], 3, &[2])?;
    let mut buf = [0; 2];
    let _ = link.next_peer();
    let first = count(link.read(&mut buf));
    let [five, six] = buf;
    let failed = count(link.read(&mut buf));
    let last = count(link.read(&mut buf));
    let none = count(link.read(&mut buf));
    Ok(([first, failed, last, none], [five, six, buf[0]]))
}

#[test]
fn a_peer_gives_its_bytes_and_fails_where_it_is_told_to(rt: HostRuntime) -> Result<(), Fail> {
    assert_eq!(rt; reads(rt.alloc())?, ([2, 99, 1, 0], [5, 6, 7]));
    Ok(())
}

/// How much each of four writes took, the last of them by the second peer, and whether that one came.
fn writes(link: &mut MemLink) -> ([usize; 4], bool) {
    let _ = link.next_peer();
    let first = count(link.write(&[1, 2]));
    let second = count(link.write(&[3, 4]));
    let none = count(link.write(&[4]));
    let came = link.next_peer() == Ok(true);
    ([first, second, none, count(link.write(&[9]))], came)
}

/// How much four writes took, whether each peer that came has what was written to it and none stands behind them, and
/// whether none comes or is dialed behind them, and what failed is counted.
fn written(alloc: Global) -> Result<([usize; 4], [bool; 7]), NoMemory> {
    let mut link = link_to_two(alloc, &[], 3, &[])?;
    let (taken, came) = writes(&mut link);
    let ended = link.next_peer() == Ok(false);
    let dialed = link.dial(1) == Err(Failed);
    let first = link.sent(0) == Some([1, 2, 3].as_slice());
    let second = link.sent(1) == Some([9].as_slice());
    let none = link.sent(2).is_none();
    Ok((
        taken,
        [
            came,
            ended,
            dialed,
            first,
            second,
            none,
            link.failures() == 2,
        ],
    ))
}

#[test]
fn each_peer_takes_bytes_up_to_its_room_and_none_is_dialed(rt: HostRuntime) -> Result<(), Fail> {
    assert_eq!(rt; written(rt.alloc())?, ([2, 1, 99, 1], [true; 7]));
    Ok(())
}
