// A crowd over real connections.
use crate::memory::{heard, turned};
use ld_crowd::Crowd;
use ld_real::TcpCrowd;
use std::io::{Read, Write};
use std::net::{Ipv4Addr, Shutdown, SocketAddr, TcpStream};
use std::test::Fail;
use std::time::Duration;

/// A crowd at a port that the system chose, with that port; 0 where none is bound.
fn bound(
    rt: &HostRuntime,
    limit: usize,
    idle: Duration,
) -> (TcpCrowd<'_, HostRuntime>, SocketAddr) {
    let address = SocketAddr::from((Ipv4Addr::LOCALHOST, 0));
    let mut crowd = TcpCrowd::new(rt, rt.alloc(), address, limit, idle);
    let _ = crowd.ready();
    let port = match crowd.bound() {
        Some(address) => address.port(),
        None => 0,
    };
    (crowd, SocketAddr::from((Ipv4Addr::LOCALHOST, port)))
}

/// Whose turn it is in four calls where one peer is silent and another says two bytes, what is read of each, and what that
/// one gets.
fn answered(rt: &HostRuntime) -> Result<([u64; 4], [usize; 3], [u8; 3]), Fail> {
    let (mut crowd, address) = bound(rt, 4, Duration::from_secs(60));
    let silent = TcpStream::connect(rt, address)?;
    let mut peer = TcpStream::connect(rt, address)?;
    peer.write_all(&[1, 2])?;
    let mut buf = [0; 8];
    let came = [turned(crowd.turn(true)), turned(crowd.turn(true))];
    let of = [turned(crowd.turn(true)), turned(crowd.turn(true))];
    let none = heard(crowd.read(0, &mut buf));
    let two = heard(crowd.read(1, &mut buf));
    let bytes = [buf[0], buf[1]];
    let _ = crowd.say(1, &[3]);
    let got = peer.read(&mut buf)?;
    drop(silent);
    Ok((
        [came[0], came[1], of[0], of[1]],
        [none, two, got],
        [bytes[0], bytes[1], buf[0]],
    ))
}

#[test]
fn a_silent_peer_holds_up_no_other(rt: HostRuntime) -> Result<(), Fail> {
    assert_eq!(rt; answered(&rt)?, ([10, 11, 20, 21], [50, 2, 1], [1, 2, 3]));
    Ok(())
}

/// Whose turn it is in five calls where one peer may be there and two connect, and the first one is dismissed before the
/// fourth call.
fn limited(rt: &HostRuntime) -> Result<[u64; 5], Fail> {
    let (mut crowd, address) = bound(rt, 1, Duration::from_secs(60));
    let first = TcpStream::connect(rt, address)?;
    let second = TcpStream::connect(rt, address)?;
    let came = turned(crowd.turn(true));
    let of = turned(crowd.turn(false));
    let none = turned(crowd.turn(false));
    crowd.dismiss(0);
    let next = turned(crowd.turn(false));
    let answer = [came, of, none, next, turned(crowd.turn(true))];
    drop(first);
    drop(second);
    Ok(answer)
}

#[test]
fn one_beyond_the_limit_waits_until_another_goes(rt: HostRuntime) -> Result<(), Fail> {
    assert_eq!(rt; limited(&rt)?, [10, 20, 0, 11, 21]);
    Ok(())
}

/// Whose turn it is in three calls where a peer says nothing, and what is read of it before it is dismissed and after.
fn silent(rt: &HostRuntime) -> Result<([u64; 3], [usize; 2]), Fail> {
    let (mut crowd, address) = bound(rt, 1, Duration::from_millis(200));
    let peer = TcpStream::connect(rt, address)?;
    let mut buf = [0; 8];
    let came = turned(crowd.turn(true));
    let of = turned(crowd.turn(true));
    let before = heard(crowd.read(0, &mut buf));
    let gone = turned(crowd.turn(true));
    let after = heard(crowd.read(0, &mut buf));
    drop(peer);
    Ok(([came, of, gone], [before, after]))
}

#[test]
fn a_peer_that_is_silent_for_too_long_is_dismissed(rt: HostRuntime) -> Result<(), Fail> {
    assert_eq!(rt; silent(&rt)?, ([10, 20, 30], [50, 50]));
    Ok(())
}

/// What is read of a peer that says a byte and ends its side, and what that gets once it is let go: the answer, and the end.
fn half_closed(rt: &HostRuntime) -> Result<([usize; 2], [usize; 2]), Fail> {
    let (mut crowd, address) = bound(rt, 1, Duration::from_secs(60));
    let mut peer = TcpStream::connect(rt, address)?;
    peer.write_all(&[1])?;
    peer.shutdown(Shutdown::Write)?;
    let mut buf = [0; 8];
    let _ = crowd.turn(true);
    let _ = crowd.turn(true);
    let one = heard(crowd.read(0, &mut buf));
    let end = heard(crowd.read(0, &mut buf));
    let _ = crowd.say(0, &[7]);
    crowd.finish(0);
    let got = peer.read(&mut buf)?;
    Ok(([one, end], [got, peer.read(&mut buf)?]))
}

#[test]
fn one_that_ended_is_let_go_once_it_is_answered(rt: HostRuntime) -> Result<(), Fail> {
    assert_eq!(rt; half_closed(&rt)?, ([1, 60], [1, 0]));
    Ok(())
}
