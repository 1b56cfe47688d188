// What is shown of lines that are off.
use ld_hints::{Recent, explain};
use ld_io::{MemSource, Source};
use std::alloc::{AllocError, Global};

/// The text that is shown of a line.
fn shown(alloc: Global, line: &[u8], place: usize, text: &str) -> Result<bool, AllocError> {
    Ok(explain(alloc, line, place)?.as_str() == text)
}

#[test]
fn a_word_by_its_beginning(rt: HostRuntime) {
    let same = shown(
        rt.alloc(),
        b"apend a 00",
        2,
        "    apend a 00\n      ^\n    append S HEX: S is a sequencer's name, HEX an even number of digits 0-9 a-f, or - for the empty payload\n",
    );
    assert_eq!(rt; same, Ok(true));
}

#[test]
fn a_field_by_its_word(rt: HostRuntime) {
    let same = shown(
        rt.alloc(),
        b"flow 0",
        5,
        "    flow 0\n         ^\n    flow K: K is a count of messages, 1 to 1000000\n",
    );
    assert_eq!(rt; same, Ok(true));
}

#[test]
fn nodes_by_their_word(rt: HostRuntime) {
    let same = shown(
        rt.alloc(),
        b"set 1 2 0 2,1 ",
        13,
        "    set 1 2 0 2,1 \n                 ^\n    set L R X NODES: L is a log, 1 to 65535, R a replication factor, 1 to 16, X a count of extras, 0 to 3, NODES are nodes, 1 to 16, rising, with commas between them\n",
    );
    assert_eq!(rt; same, Ok(true));
}

#[test]
fn a_word_without_fields(rt: HostRuntime) {
    let same = shown(
        rt.alloc(),
        b"calmly",
        4,
        "    calmly\n        ^\n    calm: the word alone\n",
    );
    assert_eq!(rt; same, Ok(true));
}

/// The length of the third line of an input that is read in pieces of 4 bytes, and whether the second and the third are ended.
fn third(alloc: Global) -> Result<(usize, bool, bool), AllocError> {
    let mut source = Recent::new(
        alloc,
        MemSource::new(
            vec![in alloc; b'a', b'\n', b'b', b'b', b'\n', b'c', b'c', b'c', b'\n']?,
            Vec::new(alloc),
        ),
    );
    let mut buf = [0u8; 4];
    let mut count = 0usize;
    for _ in 0..2 {
        count = count.saturating_add(source.read(&mut buf).unwrap_or(0));
    }
    let length = source.line(3).map_or(100, |line| line.len());
    Ok((length, source.is_ended(2), source.is_ended(3)))
}

#[test]
fn the_last_line_is_kept(rt: HostRuntime) {
    assert_eq!(rt; third(rt.alloc()), Ok((3, true, false)));
}
