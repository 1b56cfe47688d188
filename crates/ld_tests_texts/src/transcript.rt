// Lines and their text.
use ld_ids::{Name, NoMemory, NodeId, Payload};
use ld_lsn::Lsn;
use ld_transcript::{Actor, GapKind, Kind, Line, Lines, write};
use std::alloc::Global;
use std::test::Fail;

/// The name r.
fn name(alloc: Global) -> Result<Name, NoMemory> {
    Ok(Name::new(Vec::from_slice(alloc, b"r")?))
}

/// The lines of a reader that polled.
fn of_a_reader(alloc: Global, node: NodeId) -> Result<Lines, NoMemory> {
    let mut lines = Lines::new(alloc);
    lines.push(Line::Message {
        message: 10,
        from: Actor::Node(node),
        to: Actor::Reader(name(alloc)?),
        kind: Kind::ReadEnded,
        number: Lsn::new(0, 1),
    })?;
    lines.push(Line::Gap {
        name: name(alloc)?,
        kind: GapKind::Bridge,
        low: Lsn::new(0, 1),
        high: Lsn::new(1, 0),
    })?;
    lines.push(Line::Record {
        name: name(alloc)?,
        number: Lsn::new(1, 1),
        payload: Payload::new(Vec::from_slice(alloc, &[0x68, 0x69])?),
    })?;
    Ok(lines)
}

#[test]
fn a_readers_lines_are_written(rt: HostRuntime) -> Result<(), Fail> {
    let alloc = rt.alloc();
    let node = NodeId::new(1).expect(&rt, "a number in range");
    let mut out = Vec::new(alloc);
    of_a_reader(alloc, node)?.write(alloc, &mut out)?;
    let text = b"msg 10 n.1 r.r readended e0n1\ngap r bridge e0n1 e1n0\nrecord r e1n1 6869\n";
    assert!(rt; &out[..] == &text[..]);
    Ok(())
}

#[test]
fn a_line_is_written(rt: HostRuntime) -> Result<(), Fail> {
    let mut out = Vec::new(rt.alloc());
    write(rt.alloc(), &Line::Nothing, &mut out)?;
    assert!(rt; &out[..] == b"none\n".as_slice());
    Ok(())
}
