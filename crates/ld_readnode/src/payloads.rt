// The payloads that an answer carries.
use ld_copyset::sender;
use ld_ids::{NodeId, NodeSet};
use ld_lsn::Lsn;
use ld_op::Carries;

/// Which payloads an answer carries.
#[derive(Clone, Copy)]
pub(crate) enum Payloads {
    /// All of them.
    All,
    /// Those that this node is to send, where of each one node of the set alone sends it: the first one round the ring that
    /// isn't excluded.
    Share {
        node: NodeId,
        set: NodeSet,
        excluded: NodeSet,
    },
}

impl Carries for Payloads {
    ghost use Rattle.ld_readnode.specs.Payloads.{carries_of};

    ghost carries = { carries_of };

    fn carries(&self, number: Lsn) -> bool {
        match self {
            Payloads::All => true,
            Payloads::Share {
                node,
                set,
                excluded,
            } => match sender(set, excluded, number) {
                Some(first) => first == *node,
                None => false,
            },
        }
    }
}
