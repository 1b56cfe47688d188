// Whether a node may take another one's place.
ghost use Rattle.std.specs.Prelude.{◌≡◌};
ghost use Rattle.ld_op.specs.Plain.{log_of};
ghost use Rattle.ld_store.specs.Open.{plain_of};
ghost use Rattle.ld_node.specs.Swaps.{can_replace};

use crate::known::Known;
use ld_disk::Disk;
use ld_ids::{LogId, NodeId};
use ld_op::Plain;
use ld_store::Store;

/// Whether the node of this number may take another one's place in closed epochs of a log: both are nodes of the
/// configuration, which has the log, and what this one lost of it is there again.
pub(crate) fn can_replace<D: Disk>(
    id: NodeId,
    known: &Known,
    store: &Store<D>,
    log: LogId,
    other: NodeId,
) -> bool
    ensures { result ≡ can_replace id known.now (plain_of store.now) log other }
{
    may_replace(id, known, store.index(), log, other)
}

/// The same by the store's index.
fn may_replace(id: NodeId, known: &Known, plain: &Plain, log: LogId, other: NodeId) -> bool
    ensures { result ≡ can_replace id known.now plain.now.state log other }
{
    if !known.has_log(log) || !known.nodes().has(other) || other == id {
        return false;
    }
    !plain.is_lost(log) && 0 < plain.lost_to(log)
}

/// The epoch up to which the log was lost.
pub(crate) fn lost_to<D: Disk>(store: &Store<D>, log: LogId) -> u32
    ensures { result ≡ (log_of (plain_of store.now) log).lost_to }
{
    store.index().lost_to(log)
}
