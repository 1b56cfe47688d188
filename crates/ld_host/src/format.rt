// A blank host that formats its store.
ghost use Rattle.std.specs.Prelude.{◌≡◌, ◌≢◌, IfOk, false, true, ℕ};
ghost use Rattle.ld_disk.specs.Memory.{disk_plain};
ghost use Rattle.ld_msg.specs.Register.{Register as Contents};
ghost use Rattle.ld_config.specs.declared.config.Config.{Config as Settings};
ghost use Rattle.ld_machine.specs.Disk.{Node as Seen, load, load_end, Written};
ghost use Rattle.ld_node.specs.Node.{is_blank};
ghost use Rattle.ld_register.specs.declared.fault.RegisterFault.{RegisterFault as Refusal};
ghost use Rattle.ld_host.specs.declared.kept.Kept.{Kept as Ending};
ghost use Rattle.ld_host.specs.States.{blank_in, IsBlankAt, Refuses};
ghost use Rattle.ld_host.specs.Stands.{IsBlank, IsFresh, StandsAs};
ghost use Rattle.ld_host.specs.Done.{HasFormatted};

use crate::kept::{Formatted, Kept};
use crate::run::refused;
use crate::state::State;
use ld_config::Config;
use ld_disk::MemDisk;
use ld_ids::{NoMemory, NodeId};
use ld_node::{Node, NodeFault};
use ld_register::Register;
use std::alloc::Global;

/// The state after a format that the register refused, or that wasn't kept, and how it ended.
fn undone(disk: MemDisk, fault: NodeFault) -> Result<(State, Formatted), NoMemory>
    ensures blank { IfOk result (λ done. blank_in done.0 ≡ false) }
    ensures refused { (f : Refusal) → fault ≡ NodeFault.Register f → IfOk result (λ done. (done.1 ≡ Formatted.Refused f) × IsBlankAt disk done.0) }
    ensures not_kept { ((f : Refusal) → fault ≢ NodeFault.Register f) → IfOk result (λ done. (k : Ending) × (done.1 ≡ Formatted.NotKept k) × Refuses fault (disk_plain disk) (done.0, k)) }
{
    if let NodeFault::Register(refusal) = fault {
        return Ok((State::Blank(disk), Formatted::Refused(refusal)));
    }
    let (state, kept) = refused(disk, fault)?;
    Ok((state, Formatted::NotKept(kept)))
}

/// Draws a generation for a node whose store isn't formatted, and keeps its format.
fn draw<G: Register>(
    alloc: Global,
    mut node: Node<MemDisk>,
    reg: &mut G,
) -> Result<(State, Formatted), NoMemory>
    requires fresh { is_blank node ≡ true }
    ensures blank { IfOk result (λ done. blank_in done.0 ≡ false) }
    ensures formats { (c : Settings) (n : ℕ) (x : Seen) (r : Contents) → IsFresh c n node (load x) → load_end x ≡ Written → G.tells reg.old r
        → IfOk result (λ done. HasFormatted (λ y. StandsAs c n done.0 y) (G.tells reg.new) x n r done.1) }
{
    match node.format(alloc, reg) {
        Ok(drawn) => Ok((State::Up(node), Formatted::Done(drawn))),
        Err(fault) => undone(node.into_disk(), fault),
    }
}

/// Loads the node of this number from its disk, draws a generation for it, and keeps its format.
pub(crate) fn format<G: Register>(
    alloc: Global,
    id: NodeId,
    disk: MemDisk,
    config: &Config,
    reg: &mut G,
) -> Result<(State, Formatted), NoMemory>
    ensures blank { IfOk result (λ done. blank_in done.0 ≡ false) }
    ensures formats { (x : Seen) (r : Contents) → IsBlank disk x → G.tells reg.old r
        → IfOk result (λ done. HasFormatted (λ y. StandsAs config.now id done.0 y) (G.tells reg.new) x id r done.1) }
{
    match Node::load(alloc, id, disk, config) {
        Ok(node) => {
            if node.is_blank() {
                draw(alloc, node, reg)
            } else {
                Ok((State::Up(node), Formatted::NotLoaded(Kept::Written)))
            }
        }
        Err((disk, fault)) => {
            let (state, kept) = refused(disk, fault)?;
            Ok((state, Formatted::NotLoaded(kept)))
        }
    }
}
