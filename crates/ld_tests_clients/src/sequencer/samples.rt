// The nodes and the payload of tests.
use ld_ids::{NoMemory, NodeId, NodeSet, Payload};
use std::alloc::Global;

// These nodes.
pub(crate) fn set_of(numbers: &[u8]) -> NodeSet {
    let mut set = NodeSet::empty();
    for number in numbers {
        if let Some(node) = NodeId::new(*number) {
            set = set.with(node);
        }
    }
    set
}

pub(crate) fn one_byte(alloc: Global) -> Result<Payload, NoMemory> {
    Ok(Payload::new(Vec::from_elem(alloc, 7, 1)?))
}
