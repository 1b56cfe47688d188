// Asks of a node are carried to the others, and their answers back.
ghost use Rattle.std.specs.Prelude.{◌≡◌, ◌≤◌, ◌⊎◌, [], ℕ, List, Option, Some, IfOk, IfErr, OnOk, MatchResult, true, false};
ghost use Rattle.std.specs.List.{slice_get};
ghost use Rattle.ld_config.specs.declared.config.Config.{Config as Settings};
ghost use Rattle.ld_msg.specs.declared.msg.Msg.{Msg as Message};
ghost use Rattle.ld_msg.specs.declared.msg.Who.TheVariants as whos;
ghost use Rattle.ld_msg.specs.Bounds.{IsMessage};
ghost use Rattle.ld_msg.specs.Register.{Register as Contents};
ghost use Rattle.ld_machine.specs.Disk.{Node as Place};
ghost use Rattle.ld_node_bounds.specs.Messages.{AreMessages};
ghost use Rattle.ld_node.specs.Known.{Known};
ghost use Rattle.ld_node.specs.Node.{disk_of, must_load, is_blank};
ghost use Rattle.ld_mend.specs.Course.{ToldAs, IsHushed, Halted};
ghost use Rattle.ld_mend.specs.Standing.{IsThere, at_of, Drove, AreFrom};
ghost use Rattle.ld_mend.specs.Stops.{IsCarryStop, DiskCounts};

use crate::Stop;
use crate::fetching::fetch;
use crate::stop::stop_of;
use ld_dial::Nodes;
use ld_disk::Disk;
use ld_ids::{NodeId, NodeSet};
use ld_msg::Msg;
use ld_node::Node;
use std::alloc::Global;

/// Carries one ask of the node to the node that it is for, and the answer back. It stops as `carry`.
fn bring<D: Disk, N: Nodes>(
    alloc: Global,
    id: NodeId,
    ask: &Msg,
    node: &mut Node<D>,
    gone: &mut NodeSet,
    nodes: &mut N,
) -> Result<(), Stop>
    requires message { IsMessage ask.now }
    requires formatted { is_blank node.old ≡ false }
    requires works { must_load node.old ≡ false }
    ensures moved { (known : Known) (c : Settings) (r : Contents) (asked : List Message) (far : Option (List (ℕ × Place))) (k : ℕ) (written : List ℕ)
        → IsThere D.seen D.may_leave id known node.old → slice_get asked k ≡ Some ask.now → ask.now.from ≡ whos.Node id → ToldAs (N.tells nodes.old c) far
        → IsHushed (N.silent nodes.new) far ⊎ MatchResult result
        (λ _. Drove (IsThere D.seen D.may_leave id known node.new) (N.tells nodes.new c) id known c r (at_of node.old asked far) (at_of node.new asked) [] written written)
        (Halted id known c r (D.may_leave (disk_of node.new)) (at_of node.old asked far) written written) }
    ensures silent { N.silent nodes.old ≡ true → N.silent nodes.new ≡ true }
    ensures rest { is_blank node.new ≡ false }
    ensures lent { D.identity (disk_of node.new) ≡ D.identity (disk_of node.old) }
    ensures works { OnOk result (must_load node.new ≡ false) }
    ensures cause { IfErr result (IsCarryStop (D.faults (disk_of node.old)) (D.faults (disk_of node.new)) (N.off nodes.new)) }
    ensures later { D.faults (disk_of node.old) ≤ D.faults (disk_of node.new) }
    ensures disk_counts { MatchResult result (λ _. D.faults (disk_of node.new) ≡ D.faults (disk_of node.old)) (DiskCounts (D.faults (disk_of node.old)) (D.faults (disk_of node.new))) }
{
    let Some(answer) = fetch(alloc, id, ask, gone, nodes)? else {
        return Ok(());
    };
    match node.on_msg(alloc, &answer) {
        Ok(_) => Ok(()),
        Err(fault) => Err(stop_of(&fault)),
    }
}

/// Carries each ask of the node to the node that it is for, one after the other, and brings the answers back: the node takes
/// each of them. A node that can't be dialed is one of those that are gone from then on, and those aren't dialed again.
///
/// It stops with `Disk`, `Full` and `Damaged` as the node refuses an answer, with `BadFrame` where what a node sent begins no
/// frame, and with `NoMemory`.
pub(crate) fn carry<D: Disk, N: Nodes>(
    alloc: Global,
    id: NodeId,
    asks: &[Msg],
    node: &mut Node<D>,
    gone: &mut NodeSet,
    nodes: &mut N,
) -> Result<(), Stop>
    requires messages { AreMessages asks.now }
    requires formatted { is_blank node.old ≡ false }
    requires works { must_load node.old ≡ false }
    ensures moved { (known : Known) (c : Settings) (r : Contents) (far : Option (List (ℕ × Place))) (written : List ℕ)
        → IsThere D.seen D.may_leave id known node.old → AreFrom id asks.now → ToldAs (N.tells nodes.old c) far
        → IsHushed (N.silent nodes.new) far ⊎ MatchResult result
        (λ _. Drove (IsThere D.seen D.may_leave id known node.new) (N.tells nodes.new c) id known c r (at_of node.old asks.now far) (at_of node.new asks.now) [] written written)
        (Halted id known c r (D.may_leave (disk_of node.new)) (at_of node.old asks.now far) written written) }
    ensures silent { N.silent nodes.old ≡ true → N.silent nodes.new ≡ true }
    ensures rest { is_blank node.new ≡ false }
    ensures lent { D.identity (disk_of node.new) ≡ D.identity (disk_of node.old) }
    ensures works { OnOk result (must_load node.new ≡ false) }
    ensures cause { IfErr result (IsCarryStop (D.faults (disk_of node.old)) (D.faults (disk_of node.new)) (N.off nodes.new)) }
    ensures later { D.faults (disk_of node.old) ≤ D.faults (disk_of node.new) }
    ensures disk_counts { MatchResult result (λ _. D.faults (disk_of node.new) ≡ D.faults (disk_of node.old)) (DiskCounts (D.faults (disk_of node.old)) (D.faults (disk_of node.new))) }
{
    'asks: for place in 0..asks.len() {
        bring(alloc, id, &asks[place], node, gone, nodes)?;
    }
    Ok(())
}
