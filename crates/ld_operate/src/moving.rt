// Whether the next epoch of a log would have other nodes than its greatest one.
ghost use Rattle.std.specs.Prelude.{◌≡◌, ◌⊎◌, IfOk, IfErr, IsErrOf, OnOk};
ghost use Rattle.ld_msg.specs.Register.{Register as Contents};
ghost use Rattle.ld_operate.specs.Looking.{OnlyLooks, IsLookStop};
ghost use Rattle.ld_operate.specs.Moving.{IsMove, greatest_set};

use crate::looking::look;
use crate::stop::LookStop;
use ld_ids::Spec;
use ld_register::Register;
use std::alloc::Global;

/// What is fixed, where it is another one than what is wanted.
fn other(fixed: Option<Spec>, wanted: &Spec) -> Option<Spec>
    ensures { IsMove fixed wanted.now result }
{
    match fixed {
        Some(from) if from == *wanted => None,
        _ => fixed,
    }
}

/// What the register says of the greatest epoch of this log, where that has other nodes, another replication factor or other
/// extras than are wanted; nothing where it has the same, or where the log has no epoch yet. It changes nothing of the register.
///
/// It ends with `Register` where the look failed, only where the register's count of faults rose; with `Damaged` and a place
/// where its bytes are no journal from there on; and when out of memory.
pub fn moved_from<G: Register>(
    alloc: Global,
    wanted: &Spec,
    reg: &mut G,
) -> Result<Option<Spec>, LookStop>
    ensures moved { (c : Contents) → G.holds reg.old c → IfOk result (IsMove (greatest_set c wanted.now.log) wanted.now) }
    ensures kept { (c : Contents) → G.holds reg.old c → IsErrOf result LookStop.Register ⊎ G.holds reg.new c }
    ensures whole { G.told reg.old → OnOk result ((c : Contents) × G.holds reg.old c) }
    ensures cause { IfErr result (IsLookStop (λ place. G.told reg.old → G.damaged reg.old place) (G.faults reg.old) (G.faults reg.new)) }
    ensures looks { OnlyLooks (G.told reg.old) (G.told reg.new) (G.may_hold reg.old) (G.may_hold reg.new) (G.tells reg.old) (G.tells reg.new) (G.faults reg.old) (G.faults reg.new) (G.identity reg.old) (G.identity reg.new) }
{
    let view = look(alloc, wanted.log, u32::MAX, reg)?;
    Ok(other(view.spec, wanted))
}
