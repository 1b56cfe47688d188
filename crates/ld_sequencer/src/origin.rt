// What doesn't change of a log.
use ld_ids::{NodeSet, Spec};

/// All nodes of the configuration, and what counts for an epoch of the log for which a register shows nothing.
#[derive(Clone, Copy)]
pub struct Origin {
    pub nodes: NodeSet,
    pub first: Spec,
}
