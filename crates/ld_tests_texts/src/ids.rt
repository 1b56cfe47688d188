// Nodes, sets, names and payloads.
use ld_ids::{LogId, Name, NoMemory, NodeId, NodeSet, Payload};
use std::alloc::Global;
use std::test::Fail;

/// The set of the nodes that there are among these numbers.
fn set_of(numbers: &[u8]) -> NodeSet {
    let mut set = NodeSet::empty();
    for number in numbers {
        if let Some(node) = NodeId::new(*number) {
            set = set.with(node);
        }
    }
    set
}

/// Whether there is a node of this number.
fn is_node(number: u8) -> bool {
    NodeId::new(number).is_some()
}

/// Whether there is a log of this number.
fn is_log(number: u32) -> bool {
    LogId::new(number).is_some()
}

#[test]
fn numbers_are_bounded(rt: HostRuntime) -> Result<(), Fail> {
    let nodes = [is_node(0), is_node(16), is_node(17)];
    let logs = [is_log(0), is_log(65_535), is_log(65_536)];
    assert_eq!(rt; [nodes, logs], [[false, true, false]; 2]);
    Ok(())
}

/// The number of the set's node at this place, 0 behind the last one.
fn nth(set: &NodeSet, place: usize) -> u8 {
    set.nth(place).map_or(0, |node| node.number())
}

#[test]
fn nodes_stand_in_rising_order(rt: HostRuntime) -> Result<(), Fail> {
    let set = set_of(&[5, 16, 1, 5]);
    let found = [nth(&set, 0), nth(&set, 1), nth(&set, 2), nth(&set, 3)];
    assert_eq!(rt; (set.len(), found), (3, [1, 5, 16, 0]));
    Ok(())
}

#[test]
fn sets_meet_at_a_node_of_both(rt: HostRuntime) -> Result<(), Fail> {
    let set = set_of(&[5, 16, 1]);
    let meets = [set.meets(&set_of(&[2, 16])), set.meets(&set_of(&[2, 3, 4]))];
    assert_eq!(rt; meets, [true, false]);
    Ok(())
}

#[test]
fn sets_are_numbers(rt: HostRuntime) -> Result<(), Fail> {
    let bits = [
        NodeSet::empty().bits(),
        set_of(&[1, 3, 16]).bits(),
        NodeSet::from_bits(0x8005).bits(),
        NodeSet::from_bits(0xffff).bits(),
    ];
    assert_eq!(rt; bits, [0, 0x8005, 0x8005, 0xffff]);
    Ok(())
}

/// Whether a copied name and a copied payload are what they copy.
fn copies(alloc: Global) -> Result<[bool; 2], NoMemory> {
    let name = Name::new(Vec::from_slice(alloc, b"seq1")?);
    let payload = Payload::new(Vec::from_slice(alloc, &[0, 255])?);
    Ok([
        name.copy(alloc)?.bytes() == b"seq1".as_slice(),
        payload.copy(alloc)?.bytes() == [0, 255].as_slice(),
    ])
}

#[test]
fn a_copy_is_the_same(rt: HostRuntime) -> Result<(), Fail> {
    assert_eq!(rt; copies(rt.alloc())?, [true, true]);
    Ok(())
}
