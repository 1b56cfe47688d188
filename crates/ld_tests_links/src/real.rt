// The disk, the register and the link once, over real files and a real connection.
use ld_disk::Disk;
use ld_ids::NodeId;
use ld_io::Failed;
use ld_link::{Dial, Link};
use ld_real::{Dialing, FileDisk, FileRegister, TcpLink};
use ld_register::Register;
use std::alloc::Global;
use std::fs;
use std::io::{Read, Write};
use std::net::{Ipv4Addr, TcpListener, TcpStream};
use std::test::Fail;

/// Whether a new file has one byte, and two more are written behind a gap and synced.
fn writes(rt: &HostRuntime, path: &str) -> [bool; 3] {
    let Ok(mut disk) = FileDisk::new(rt.alloc(), rt, path) else {
        return [false; 3];
    };
    [
        disk.len() == Ok(1),
        disk.write_at(3, &[7, 8]) == Ok(()),
        disk.sync() == Ok(()),
    ]
}

/// Whether five bytes of the file are read, and what stands in the buffer then.
fn reads(rt: &HostRuntime, path: &str) -> (bool, [u8; 6]) {
    let mut buf = [9; 6];
    let Ok(mut disk) = FileDisk::new(rt.alloc(), rt, path) else {
        return (false, buf);
    };
    let done = disk.read(0, &mut buf) == Ok(5);
    (done, buf)
}

#[test]
fn a_file_keeps_what_was_written(rt: HostRuntime) -> Result<(), Fail> {
    let path = "ld_real_test_disk";
    let _ = fs::remove_file(&rt, path);
    let done = (writes(&rt, path), reads(&rt, path));
    fs::remove_file(&rt, path)?;
    assert_eq!(rt; done, ([true; 3], (true, [0, 0, 0, 7, 8, 9])));
    Ok(())
}

/// The generation that a register draws for node 1; 0 where it fails.
fn drawn<G: Register>(alloc: Global, register: &mut G) -> u32 {
    let Some(node) = NodeId::new(1) else {
        return 0;
    };
    match register.draw(alloc, node) {
        Ok(drawn) => drawn.gen_,
        Err(_) => 0,
    }
}

/// The generations that one register draws, then another over the same file, then the first one again.
fn drawn_in_turn(rt: &HostRuntime, path: &str) -> [u32; 3] {
    let mut one = FileRegister::new(rt, path);
    let mut other = FileRegister::new(rt, path);
    [
        drawn(rt.alloc(), &mut one),
        drawn(rt.alloc(), &mut other),
        drawn(rt.alloc(), &mut one),
    ]
}

#[test]
fn a_register_sees_what_another_has_changed(rt: HostRuntime) -> Result<(), Fail> {
    let path = "ld_real_test_register";
    let _ = fs::remove_file(&rt, path);
    let drawn = drawn_in_turn(&rt, path);
    fs::remove_file(&rt, path)?;
    assert_eq!(rt; drawn, [1, 2, 3]);
    Ok(())
}

/// How many bytes a call was for; 99 where it failed.
fn count(answer: Result<usize, Failed>) -> usize {
    match answer {
        Ok(count) => count,
        Err(_) => 99,
    }
}

/// How much a read, a write and a read at the end come to for a peer that says two bytes and then ends, and the byte that
/// it gets.
fn answered(rt: &HostRuntime) -> Result<([usize; 4], u8), Fail> {
    let mut link = TcpLink::new(rt, 0);
    let address = (Ipv4Addr::LOCALHOST, link.port()?);
    let mut peer = TcpStream::connect(rt, address)?;
    peer.write_all(&[1, 2])?;
    let _ = link.next_peer();
    let mut buf = [0; 4];
    let read = count(link.read(&mut buf));
    let written = count(link.write(&[3]));
    let got = peer.read(&mut buf)?;
    drop(peer);
    let byte = buf[0];
    Ok(([read, written, got, count(link.read(&mut buf))], byte))
}

#[test]
fn a_peer_is_answered_until_it_ends(rt: HostRuntime) -> Result<(), Fail> {
    assert_eq!(rt; answered(&rt)?, ([2, 1, 1, 0], 3));
    Ok(())
}

/// How much a write, a read and a write come to for a peer that is reset: a connection that is closed before what was sent
/// to it is read.
fn reset(rt: &HostRuntime) -> Result<[usize; 3], Fail> {
    let mut link = TcpLink::new(rt, 0);
    let address = (Ipv4Addr::LOCALHOST, link.port()?);
    let peer = TcpStream::connect(rt, address)?;
    let _ = link.next_peer();
    let first = count(link.write(&[3]));
    drop(peer);
    let read = count(link.read(&mut [0; 4]));
    Ok([first, read, count(link.write(&[3, 4]))])
}

#[test]
fn a_peer_that_is_reset_has_ended(rt: HostRuntime) -> Result<(), Fail> {
    assert_eq!(rt; reset(&rt)?, [1, 0, 2]);
    Ok(())
}

/// Whether node 2 is dialed, how much a write, a read and a read at the end come to where it reads, answers one byte and ends,
/// and what both got.
fn dialed(rt: &HostRuntime) -> Result<(bool, [usize; 3], [u8; 4]), Fail> {
    let listener = TcpListener::bind(rt, (Ipv4Addr::LOCALHOST, 0))?;
    let mut link = TcpLink::new(rt, listener.local_addr()?.port().saturating_sub(2));
    let dialed = link.dial(2) == Ok(());
    let (mut node, _) = listener.accept()?;
    let written = count(link.write(&[1, 2]));
    let mut got = [0; 3];
    let _ = node.read(&mut got)?;
    node.write_all(&[3])?;
    drop(node);
    let mut buf = [0; 4];
    let read = count(link.read(&mut buf));
    let byte = buf[0];
    let end = count(link.read(&mut buf));
    Ok((dialed, [written, read, end], [got[0], got[1], got[2], byte]))
}

#[test]
fn a_node_is_dialed_and_answers_until_it_ends(rt: HostRuntime) -> Result<(), Fail> {
    assert_eq!(rt; dialed(&rt)?, (true, [2, 1, 0], [1, 2, 0, 3]));
    Ok(())
}

/// Whether a dial of a port that is closed fails, and a write behind it, and both are counted.
fn refused(rt: &HostRuntime) -> Result<[bool; 3], Fail> {
    let listener = TcpListener::bind(rt, (Ipv4Addr::LOCALHOST, 0))?;
    let mut link = TcpLink::new(rt, listener.local_addr()?.port());
    drop(listener);
    Ok([
        link.dial(0) == Err(Failed),
        link.write(&[1]) == Err(Failed),
        link.failures() == 2,
    ])
}

#[test]
fn a_dial_that_nobody_takes_fails(rt: HostRuntime) -> Result<(), Fail> {
    assert_eq!(rt; refused(&rt)?, [true; 3]);
    Ok(())
}

/// Whether a node is dialed, and says nothing; its next two dials are left out, and the third one is made.
fn is_left_out_twice<L: Dial>(link: &mut L) -> bool {
    let is_silent = link.dial(1) == Ok(()) && link.read(&mut [0; 4]) == Err(Failed);
    let first = link.dial(1) == Err(Failed);
    let second = link.dial(1) == Err(Failed);
    is_silent && first && second && link.dial(1) == Ok(())
}

/// Whether it is so of a node that says nothing within 100 milliseconds; how much is read once it has said a byte, and whether
/// it is so again.
fn silent(rt: &HostRuntime) -> Result<(bool, usize, bool), Fail> {
    let listener = TcpListener::bind(rt, (Ipv4Addr::LOCALHOST, 0))?;
    let port = listener.local_addr()?.port().saturating_sub(1);
    let mut link = TcpLink::dialing(rt, Dialing::Above(port), 100);
    let before = is_left_out_twice(&mut link);
    let _ = listener.accept()?;
    let (mut node, _) = listener.accept()?;
    node.write_all(&[3])?;
    let read = count(link.read(&mut [0; 4]));
    Ok((before, read, is_left_out_twice(&mut link)))
}

#[test]
fn a_node_that_kept_the_link_waiting_is_left_out_until_it_answers(
    rt: HostRuntime,
) -> Result<(), Fail> {
    assert_eq!(rt; silent(&rt)?, (true, 1, true));
    Ok(())
}
