// A source and a sink in memory, call by call.
use ld_io::{MemSink, MemSource, NoMemory, Sink, Source};
use std::alloc::Global;
use std::test::Fail;
use std::vec;

/// How many bytes each of four reads of the bytes 5, 6, 7 gives, or 9 where it fails, and what the first and the third one give.
fn read_four_times(alloc: Global) -> Result<([usize; 4], [u8; 4]), NoMemory> {
    let mut source = MemSource::new(vec![in alloc; 5, 6, 7]?, vec![in alloc; 1]?);
    let mut buf = [0; 2];
    let first = source.read(&mut buf).unwrap_or(9);
    let second = source.read(&mut [0; 2]).unwrap_or(9);
    let mut rest = [0; 2];
    let third = source.read(&mut rest).unwrap_or(9);
    let last = source.read(&mut [0; 2]).unwrap_or(9);
    Ok((
        [first, second, third, last],
        [buf[0], buf[1], rest[0], rest[1]],
    ))
}

#[test]
fn a_source_gives_its_bytes_and_fails_where_it_is_told_to(rt: HostRuntime) -> Result<(), Fail> {
    assert_eq!(rt; read_four_times(rt.alloc())?, ([2, 9, 1, 0], [5, 6, 7, 0]));
    Ok(())
}

/// How many bytes each of five writes to a sink with room for three takes, or 9 where it fails, and whether the sink has 5, 6, 7 then.
fn written_five_times(alloc: Global) -> Result<([usize; 5], bool), NoMemory> {
    let mut sink = MemSink::new(alloc, 3, vec![in alloc; 1]?)?;
    let counts = [
        sink.write(&[5, 6]).unwrap_or(9),
        sink.write(&[7, 8]).unwrap_or(9),
        sink.write(&[7, 8]).unwrap_or(9),
        sink.write(&[8]).unwrap_or(9),
        sink.write(&[]).unwrap_or(9),
    ];
    Ok((counts, sink.bytes() == [5, 6, 7].as_slice()))
}

#[test]
fn a_sink_takes_bytes_up_to_its_room(rt: HostRuntime) -> Result<(), Fail> {
    assert_eq!(rt; written_five_times(rt.alloc())?, ([2, 9, 1, 9, 0], true));
    Ok(())
}
