// A node that comes up on a disk, and what it makes of a message.
ghost use Rattle.std.specs.Prelude.{◌≡◌, ◌≢◌, IfOk, IfErr, false, true, ℕ};
ghost use Rattle.ld_ids.specs.Id.{IsNode};
ghost use Rattle.ld_disk.specs.Memory.{disk_plain};
ghost use Rattle.ld_disk.specs.Plain.{restarted};
ghost use Rattle.ld_msg.specs.Bounds.{IsMessage};
ghost use Rattle.ld_msg.specs.declared.msg.Who.TheVariants as whos;
ghost use Rattle.ld_config.specs.declared.config.Config.{Config as Settings};
ghost use Rattle.ld_machine.specs.Config.{has_log};
ghost use Rattle.ld_machine.specs.Disk.{Node as Seen, load, load_end};
ghost use Rattle.ld_node_bounds.specs.Messages.{AreMessages};
ghost use Rattle.ld_node.specs.Node.{is_blank, disk_of};
ghost use Rattle.ld_host.specs.States.{blank_in, IsFailedAt, IsDownAt, IsBlankAt};
ghost use Rattle.ld_host.specs.Lies.{Lies};
ghost use Rattle.ld_host.specs.Stands.{Runs, StandsAs};
ghost use Rattle.ld_host.specs.Done.{shown_kept, message_done};

use crate::kept::Kept;
use crate::state::{State, fallen};
use ld_config::Config;
use ld_disk::MemDisk;
use ld_ids::{NoMemory, NodeId};
use ld_msg::{Msg, Outbox};
use ld_node::{Node, NodeFault};
use std::alloc::Global;

/// The state after a call of a node that was refused, and how it ended.
pub(crate) fn refused(disk: MemDisk, fault: NodeFault) -> Result<(State, Kept), NoMemory>
    ensures blank { IfOk result (λ done. blank_in done.0 ≡ false) }
    ensures full { fault ≡ NodeFault.Full → IfOk result (λ done. (done.1 ≡ Kept.Full) × IsFailedAt (disk_plain disk) done.0) }
    ensures failed { fault ≡ NodeFault.Disk → (disk_plain disk).crashed ≡ false → IfOk result (λ done. (done.1 ≡ Kept.Failed) × IsFailedAt (disk_plain disk) done.0) }
    ensures crashed { fault ≡ NodeFault.Disk → (disk_plain disk).crashed ≡ true → IfOk result (λ done. (done.1 ≡ Kept.Crashed) × IsDownAt (restarted (disk_plain disk)) done.0) }
    ensures memory { IfOk result (λ done. fault ≢ NodeFault.NoMemory) }
    ensures err { IfErr result (λ e. fault ≡ NodeFault.NoMemory) }
{
    match fault {
        NodeFault::NoMemory => Err(NoMemory),
        NodeFault::Full => Ok((State::Failed(disk), Kept::Full)),
        NodeFault::Disk => Ok(fallen(disk)),
        _ => Ok((State::Failed(disk), Kept::Failed)),
    }
}

/// The state of a node that was loaded.
fn risen(node: Node<MemDisk>) -> State
    ensures blank { blank_in result ≡ false }
    ensures up { is_blank node ≡ false → result ≡ State.Up node }
    ensures down { is_blank node ≡ true → IsBlankAt (disk_of node) result }
{
    if node.is_blank() {
        State::Blank(node.into_disk())
    } else {
        State::Up(node)
    }
}

/// Loads the node of this number from its disk, in one writing call.
pub(crate) fn load(
    alloc: Global,
    id: NodeId,
    disk: MemDisk,
    config: &Config,
) -> Result<(State, Kept), NoMemory>
    ensures blank { IfOk result (λ done. blank_in done.0 ≡ false) }
    ensures stands { (x : Seen) → Lies (disk_plain disk) x → IfOk result (λ done. StandsAs config.now id done.0 (load x) × (shown_kept done.1 ≡ load_end x)) }
{
    match Node::load(alloc, id, disk, config) {
        Ok(node) => Ok((risen(node), Kept::Written)),
        Err((disk, fault)) => refused(disk, fault),
    }
}

/// A node that runs makes something of a message. It answers once its op is written, with what a frame can carry.
pub(crate) fn answer(
    alloc: Global,
    mut node: Node<MemDisk>,
    msg: &Msg,
) -> Result<(State, Kept, Outbox), NoMemory>
    requires msg { IsMessage msg.now }
    requires formatted { is_blank node ≡ false }
    ensures blank { IfOk result (λ done. blank_in done.0 ≡ false) }
    ensures messages { IfOk result (λ done. AreMessages done.2) }
    ensures stands { (c : Settings) (n : ℕ) (x : Seen) → Runs c n node x → msg.now.to ≡ whos.Node n → has_log c msg.now.log ≡ true
        → IfOk result (λ done. StandsAs c n done.0 (message_done n x msg.now).node × (shown_kept done.1 ≡ (message_done n x msg.now).end) × (done.2 ≡ (message_done n x msg.now).sends)) }
{
    match node.on_msg(alloc, msg) {
        Ok(replies) => Ok((
            State::Up(node),
            Kept::Written,
            Outbox::new(replies.into_vec()),
        )),
        Err(fault) => {
            let (state, kept) = refused(node.into_disk(), fault)?;
            Ok((state, kept, Outbox::empty(alloc)))
        }
    }
}
