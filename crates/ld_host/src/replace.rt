// A node on a host that takes another one's place.
ghost use Rattle.std.specs.Prelude.{◌≡◌, ◌≢◌, IfOk, IsErr, ℕ, Err};
ghost use Rattle.ld_msg.specs.Register.{Register as Contents};
ghost use Rattle.ld_config.specs.declared.config.Config.{Config as Settings};
ghost use Rattle.ld_machine.specs.Disk.{Node as Seen};
ghost use Rattle.ld_register.specs.declared.fault.RegisterFault.{RegisterFault as Refusal};
ghost use Rattle.ld_host.specs.Stands.{Runs};
ghost use Rattle.ld_host.specs.Done.{replaced, after_replace};

use ld_disk::MemDisk;
use ld_ids::{LogId, NoMemory, NodeId};
use ld_node::{Node, NodeFault};
use ld_register::{Register, RegisterFault};
use std::alloc::Global;

/// Why the register refused, where it did.
fn refusal(fault: NodeFault) -> Result<RegisterFault, NoMemory>
    ensures register { (f : Refusal) → fault ≡ NodeFault.Register f → IfOk result (λ refusal. refusal ≡ f) }
    ensures other { IfOk result (λ refusal. fault ≡ NodeFault.Register refusal) }
{
    match fault {
        NodeFault::Register(refusal) => Ok(refusal),
        _ => Err(NoMemory),
    }
}

/// A node that runs takes another one's place in the closed epochs of a log, where it may.
pub(crate) fn replace<G: Register>(
    alloc: Global,
    node: &Node<MemDisk>,
    log: LogId,
    other: NodeId,
    reg: &mut G,
) -> Result<Result<u32, RegisterFault>, NoMemory>
    ensures { (c : Settings) (n : ℕ) (x : Seen) (r : Contents) → Runs c n node.now x → G.tells reg.old r
        → IfOk result (λ done. (done ≡ replaced c n x other log r) × G.tells reg.new (after_replace c n x other log r)) }
{
    match node.replace(alloc, log, other, reg) {
        Ok(count) => Ok(Ok(count)),
        Err(fault) => {
            let refusal = refusal(fault)?;
            Ok(Err(refusal))
        }
    }
}
