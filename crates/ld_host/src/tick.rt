// What a look at the register makes a node on a host do.
ghost use Rattle.std.specs.Prelude.{◌≡◌, IfOk, false, true, ℕ};
ghost use Rattle.ld_msg.specs.Register.{Register as Contents};
ghost use Rattle.ld_config.specs.declared.config.Config.{Config as Settings};
ghost use Rattle.ld_machine.specs.Config.{has_log};
ghost use Rattle.ld_machine.specs.Disk.{Node as Seen};
ghost use Rattle.ld_node.specs.Looks.{AreClosed};
ghost use Rattle.ld_node.specs.Node.{is_blank};
ghost use Rattle.ld_host.specs.States.{blank_in};
ghost use Rattle.ld_host.specs.Stands.{Runs, StandsAs};
ghost use Rattle.ld_host.specs.Done.{shown_kept, tick_done, tick_answer};

use crate::kept::Kept;
use crate::run::refused;
use crate::state::State;
use ld_disk::MemDisk;
use ld_ids::{LogId, NoMemory};
use ld_node::{Node, Ticked};
use ld_register::Register;
use std::alloc::Global;

/// A node that runs looks at the register for a log, and does what that makes it do.
pub(crate) fn look<G: Register>(
    alloc: Global,
    mut node: Node<MemDisk>,
    log: LogId,
    reg: &mut G,
) -> Result<(State, Kept, Ticked), NoMemory>
    requires formatted { is_blank node ≡ false }
    ensures blank { IfOk result (λ done. blank_in done.0 ≡ false) }
    ensures stands { (c : Settings) (n : ℕ) (x : Seen) (r : Contents) → Runs c n node x → has_log c log ≡ true → AreClosed r log → G.tells reg.old r
        → IfOk result (λ done. StandsAs c n done.0 (tick_done c n x log r).node × G.tells reg.new r × (shown_kept done.1 ≡ (tick_done c n x log r).end) × (done.2 ≡ tick_answer c n x log r)) }
{
    match node.tick(alloc, log, reg) {
        Ok(ticked) => Ok((State::Up(node), Kept::Written, ticked)),
        Err(fault) => {
            let (state, kept) = refused(node.into_disk(), fault)?;
            Ok((state, kept, Ticked::Nothing))
        }
    }
}
