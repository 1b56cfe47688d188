// One look at a register.
ghost use Rattle.std.specs.Prelude.{◌≡◌, ◌⊎◌, OnOk, IfOk, IfErr, IsErrOf};
ghost use Rattle.ld_msg.specs.Register.{Register as Contents};
ghost use Rattle.ld_register.specs.Calls.{looked, IsView};
ghost use Rattle.ld_operate.specs.Looking.{OnlyLooks, IsLookStop};

use crate::stop::{LookStop, stop_of};
use ld_ids::LogId;
use ld_register::{Register, View};
use std::alloc::Global;

/// Looks at an epoch of a log.
pub(crate) fn look<G: Register>(
    alloc: Global,
    log: LogId,
    epoch: u32,
    reg: &mut G,
) -> Result<View, LookStop>
    ensures shown { (c : Contents) → G.holds reg.old c → IfOk result (λ view. view ≡ looked c log epoch) }
    ensures kept { (c : Contents) → G.holds reg.old c → IsErrOf result LookStop.Register ⊎ G.holds reg.new c }
    ensures whole { G.told reg.old → OnOk result ((c : Contents) × G.holds reg.old c) }
    ensures bounds { IfOk result (IsView log epoch) }
    ensures cause { IfErr result (IsLookStop (λ place. G.told reg.old → G.damaged reg.old place) (G.faults reg.old) (G.faults reg.new)) }
    ensures looks { OnlyLooks (G.told reg.old) (G.told reg.new) (G.may_hold reg.old) (G.may_hold reg.new) (G.tells reg.old) (G.tells reg.new) (G.faults reg.old) (G.faults reg.new) (G.identity reg.old) (G.identity reg.new) }
{
    match reg.look(alloc, log, epoch) {
        Ok(view) => Ok(view),
        Err(fault) => Err(stop_of(&fault)),
    }
}
