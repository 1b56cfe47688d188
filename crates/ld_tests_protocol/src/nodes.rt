// The sets of nodes that the tests begin with.
use ld_ids::{NodeId, NodeSet};

/// The nodes from a number up to another, none where that is lower.
pub fn nodes(first: u8, last: u8) -> NodeSet {
    let mut set = NodeSet::empty();
    for number in first..=last {
        if let Some(node) = NodeId::new(number) {
            set = set.with(node);
        }
    }
    set
}
