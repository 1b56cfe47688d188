// Ticks of a node.
ghost use Rattle.std.specs.Prelude.{◌≡◌, ◌≤◌, ◌≢◌, [], ℕ, List, Option, IfOk, IfErr, IfSome, OnOk, MatchResult, None, Some, true, false};
ghost use Rattle.ld_table.specs.Words.{is_in};
ghost use Rattle.ld_config.specs.declared.config.Config.{Config as Settings};
ghost use Rattle.ld_msg.specs.declared.msg.Msg.{Msg as Message};
ghost use Rattle.ld_msg.specs.Register.{Register as Contents};
ghost use Rattle.ld_machine.specs.Disk.{Node as Place};
ghost use Rattle.ld_node_bounds.specs.Messages.{AreMessages};
ghost use Rattle.ld_node.specs.Known.{Known};
ghost use Rattle.ld_node.specs.Changes.{kept};
ghost use Rattle.ld_node.specs.Looks.{AskMessages};
ghost use Rattle.ld_node.specs.Node.{plain_of, disk_of, must_load, is_blank};
ghost use Rattle.ld_mend.specs.Course.{asked_by, tick_answer, tick_op, Moved, Halted};
ghost use Rattle.ld_mend.specs.Standing.{IsThere, at_of, asks_of, Settles};
ghost use Rattle.ld_mend.specs.Stops.{AreLater, IsStop, WasDamaged, counts, DiskCounts};

use crate::Stop;
use crate::lines::tell_ticked;
use crate::stop::stop_of;
use ld_disk::Disk;
use ld_ids::{LogId, NodeId};
use ld_io::Sink;
use ld_msg::Replies;
use ld_node::{Node, Ticked};
use ld_register::Register;
use std::alloc::Global;

/// Ticks the node for a log, and writes the line of what that did.
fn tick<D: Disk, G: Register, O: Sink>(
    alloc: Global,
    id: NodeId,
    log: LogId,
    node: &mut Node<D>,
    reg: &mut G,
    out: &mut O,
) -> Result<Ticked, Stop>
    requires formatted { is_blank node.old ≡ false }
    requires works { must_load node.old ≡ false }
    ensures moved { (known : Known) (c : Settings) (r : Contents) (asked : List Message) (far : Option (List (ℕ × Place)))
        → IsThere D.seen D.may_leave id known node.old → is_in log known.logs ≡ true → G.holds reg.old r
        → MatchResult result
        (λ ticked. IsThere D.seen D.may_leave id known node.new × G.holds reg.new r × Moved id known c r (at_of node.old asked far) (at_of node.new (asked_by ticked) far) [] (O.written out.old) (O.written out.new)
        × (ticked ≡ tick_answer id known c r (at_of node.old asked far) log) × (plain_of node.new ≡ kept (tick_op id known c r (at_of node.old asked far) log) (plain_of node.old)))
        (Halted id known c r (D.may_leave (disk_of node.new)) (at_of node.old asked far) (O.written out.old) (O.written out.new)) }
    ensures messages { IfOk result AskMessages }
    ensures rest { is_blank node.new ≡ false }
    ensures lent { D.identity (disk_of node.new) ≡ D.identity (disk_of node.old) }
    ensures works { OnOk result (must_load node.new ≡ false) }
    ensures cause { IfErr result (IsStop (WasDamaged G.told G.damaged G.identity reg.old) (counts (D.faults (disk_of node.old)) (G.faults reg.old) (O.faults out.old)) (counts (D.faults (disk_of node.new)) (G.faults reg.new) (O.faults out.new)) None) }
    ensures later { AreLater (counts (D.faults (disk_of node.old)) (G.faults reg.old) (O.faults out.old)) (counts (D.faults (disk_of node.new)) (G.faults reg.new) (O.faults out.new)) }
    ensures disk_counts { MatchResult result (λ _. D.faults (disk_of node.new) ≡ D.faults (disk_of node.old)) (DiskCounts (D.faults (disk_of node.old)) (D.faults (disk_of node.new))) }
    ensures told { G.told reg.old → G.told reg.new }
    ensures itself { G.identity reg.new ≡ G.identity reg.old }
{
    let ticked = match node.tick(alloc, log, reg) {
        Ok(ticked) => ticked,
        Err(fault) => return Err(stop_of(&fault)),
    };
    tell_ticked(alloc, id, log, &ticked, out)?;
    Ok(ticked)
}

/// Ticks the node for a log until a tick asks or has nothing to do, and says what was asked.
///
/// It stops with `Register` and `RegisterDamaged` as a look at the register is refused, with `Disk` and `Full` as the node refuses
/// what it has to keep, with `Write` where the output failed, and with `NoMemory`.
pub(crate) fn settle<D: Disk, G: Register, O: Sink>(
    alloc: Global,
    id: NodeId,
    log: LogId,
    node: &mut Node<D>,
    reg: &mut G,
    out: &mut O,
) -> Result<Option<Replies>, Stop>
    requires formatted { is_blank node.old ≡ false }
    requires works { must_load node.old ≡ false }
    ensures moved { (known : Known) (c : Settings) (r : Contents) (asked : List Message) (far : Option (List (ℕ × Place)))
        → IsThere D.seen D.may_leave id known node.old → is_in log known.logs ≡ true → G.holds reg.old r
        → MatchResult result
        (λ asks. IsThere D.seen D.may_leave id known node.new × G.holds reg.new r × Moved id known c r (at_of node.old asked far) (at_of node.new (asks_of asks) far) [] (O.written out.old) (O.written out.new)
        × Settles id known c r (at_of node.new (asks_of asks) far) log asks)
        (Halted id known c r (D.may_leave (disk_of node.new)) (at_of node.old asked far) (O.written out.old) (O.written out.new)) }
    ensures messages { IfOk result (λ asks. AreMessages (asks_of asks)) }
    ensures rest { is_blank node.new ≡ false }
    ensures lent { D.identity (disk_of node.new) ≡ D.identity (disk_of node.old) }
    ensures works { OnOk result (must_load node.new ≡ false) }
    ensures cause { IfErr result (IsStop (WasDamaged G.told G.damaged G.identity reg.old) (counts (D.faults (disk_of node.old)) (G.faults reg.old) (O.faults out.old)) (counts (D.faults (disk_of node.new)) (G.faults reg.new) (O.faults out.new)) None) }
    ensures later { AreLater (counts (D.faults (disk_of node.old)) (G.faults reg.old) (O.faults out.old)) (counts (D.faults (disk_of node.new)) (G.faults reg.new) (O.faults out.new)) }
    ensures disk_counts { MatchResult result (λ _. D.faults (disk_of node.new) ≡ D.faults (disk_of node.old)) (DiskCounts (D.faults (disk_of node.old)) (D.faults (disk_of node.new))) }
    ensures told { G.told reg.old → G.told reg.new }
    ensures itself { G.identity reg.new ≡ G.identity reg.old }
{
    'ticks: for _ in 0..u64::MAX {
        match tick(alloc, id, log, node, reg, out)? {
            Ticked::Asked(asks) => return Ok(Some(asks)),
            Ticked::Nothing => return Ok(None),
            Ticked::Rebuilt => {}
            Ticked::Cleaned(_) => {}
        }
    }
    // So many epochs are more than there may be.
    Err(Stop::NoMemory)
}
