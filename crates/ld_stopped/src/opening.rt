// A stopped node is opened: loaded from its disk, on which some record has to stand.
ghost use Rattle.std.specs.Prelude.{◌≡◌, ◌≢◌, ◌≤◌, [], IfOk, IfErr, IfSome, MatchResult, false};
ghost use Rattle.ld_layout.specs.declared.segment.Growth.TheVariants.{Wide};
ghost use Rattle.ld_register.specs.declared.fault.RegisterFault.{RegisterFault as Refusal};
ghost use Rattle.ld_node.specs.Known.{known_in};
ghost use Rattle.ld_node.specs.Node.{id_of, known_of, released_of, disk_of, layout_of, must_load, is_blank, IsOpened};
ghost use Rattle.ld_serve.specs.Opening.{IsBlank};
ghost use Rattle.ld_stopped.specs.Opening.{IsNotLoaded, LeavesMarked, ShowsMarked};
ghost use Rattle.ld_stopped.specs.Stops.{DiskCounts, stop_of_load};

use crate::Stop;
use ld_config::Config;
use ld_disk::Disk;
use ld_ids::NodeId;
use ld_node::{Node, NodeFault};
use ld_serve::Which;
use std::alloc::Global;

/// Why a node wasn't loaded.
fn load_stop(fault: NodeFault) -> Stop
    requires needs_load { fault ≢ NodeFault.NeedsLoad }
    requires register { (refusal : Refusal) → fault ≢ NodeFault.Register refusal }
    ensures { result ≡ stop_of_load fault }
{
    match fault {
        NodeFault::Disk => Stop::Disk,
        NodeFault::Damaged(place) => Stop::Damaged(Which::Store, place),
        NodeFault::Full => Stop::Full(Which::Store),
        NodeFault::NoMemory => Stop::NoMemory,
        NodeFault::NeedsLoad => unreachable!(),
        NodeFault::Register(_) => unreachable!(),
    }
}

/// Opens the node of this number on its disk, which is loaded: that marks a store of the first version as one of the second.
/// Nothing is released yet. Each segment that the node begins is wide.
///
/// A refusal hands the disk back: `Disk` where a call of it failed, `Damaged(Store, place)` as a node's load says,
/// `Full(Store)` where a mark, or the segment that it needs, would make the store longer than 2^40 bytes, `Blank` where no
/// record stands on the disk, and `NoMemory`. But for `Disk` no byte of the disk has changed.
pub(crate) fn opened<D: Disk>(
    alloc: Global,
    id: NodeId,
    config: &Config,
    disk: D,
) -> Result<Node<D>, (D, Stop)>
    ensures node { IfOk result (λ node. (id_of node ≡ id) × (known_of node ≡ known_in config.now) × (released_of node ≡ [])) }
    ensures works { IfOk result (λ node. (is_blank node ≡ false) × (must_load node ≡ false)) }
    ensures wide { IfOk result (λ node. (layout_of node).grows ≡ Wide) }
    ensures opens { IfOk result (λ node. IfSome (D.seen disk) (IsOpened D.seen D.may_leave node)) }
    ensures formatted { IfOk result (λ _. IfSome (D.seen disk) (λ bytes. ¬ IsBlank bytes)) }
    ensures same { IfOk result (λ node. ShowsMarked (D.seen disk) (D.seen (disk_of node))) }
    ensures leaves { IfOk result (λ node. LeavesMarked (D.seen disk) (D.may_leave disk) (D.may_leave (disk_of node))) }
    ensures refused { IfErr result (λ e. IsNotLoaded (D.faults disk) (D.faults e.0) (D.seen disk) (D.seen e.0) (D.may_leave disk) (D.may_leave e.0) e.1) }
    ensures later { IfErr result (λ e. D.faults disk ≤ D.faults e.0) }
    ensures itself { MatchResult result (λ node. D.identity (disk_of node) ≡ D.identity disk) (λ e. D.identity e.0 ≡ D.identity disk) }
    ensures counts { MatchResult result (λ node. D.faults (disk_of node) ≡ D.faults disk) (λ e. DiskCounts (D.faults disk) (D.faults e.0) e.1) }
{
    let node = match Node::load(alloc, id, disk, config) {
        Ok(node) => node,
        Err((disk, fault)) => return Err((disk, load_stop(fault))),
    };
    if node.is_blank() {
        return Err((node.into_disk(), Stop::Blank));
    }
    Ok(node.growing())
}

/// Lets a lent disk go, as it is.
pub(crate) fn let_go<D: Disk, T>(disk: &mut D, ended: Result<T, Stop>) -> Result<T, Stop>
    ensures ended { result ≡ ended }
    ensures same { disk.new ≡ disk.old }
{
    let _ = disk;
    ended
}
