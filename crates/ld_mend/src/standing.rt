// How a node stands for a log that no tick has anything to do for.
ghost use Rattle.std.specs.Prelude.{◌≡◌, ◌≤◌, ◌+◌, ◌-◌, ◌^◌, [], ◌∷◌, ℕ, List, Option, Some, None, Bool, IfOk, IfErr, OnOk, MatchResult, true, false};
ghost use Rattle.ld_table.specs.Words.{is_in};
ghost use Rattle.ld_lsn.specs.Number.{numbered, last_esn};
ghost use Rattle.ld_config.specs.declared.config.Config.{Config as Settings};
ghost use Rattle.ld_msg.specs.declared.msg.Msg.{Msg as Message};
ghost use Rattle.ld_msg.specs.Register.{Register as Contents, lce_of};
ghost use Rattle.ld_op.specs.Plain.{log_of};
ghost use Rattle.ld_op.specs.Answers.{read_answer};
ghost use Rattle.ld_machine.specs.Disk.{Node as Place};
ghost use Rattle.ld_node.specs.Known.{Known};
ghost use Rattle.ld_node.specs.Msgs.{released_in};
ghost use Rattle.ld_node.specs.Node.{plain_of, released_of, layout_of, disk_of, must_load, is_blank};
ghost use Rattle.ld_mend.specs.Course.{is_open, asked_from, lowest_asked, own_answer, Leaves};
ghost use Rattle.ld_mend.specs.Standing.{IsThere, at_of, first_open, OpenAt};
ghost use Rattle.ld_mend.specs.Stops.{IsStop, IsCarryStop, AreLater, WasDamaged, counts, DiskCounts};

use crate::Stop;
use crate::stop::{look_stop, stop_of};
use ld_disk::Disk;
use ld_ids::{LogId, NodeId};
use ld_lsn::Lsn;
use ld_msg::{Body, Msg, Who};
use ld_node::Node;
use ld_register::Register;
use std::alloc::Global;

/// The number from which on is asked; 0 where nobody is.
fn asked_from(body: &Body) -> Lsn
    ensures { result ≡ asked_from body.now }
{
    match body {
        Body::ReadAsk { from, .. } => *from,
        _ => Lsn::from_u64(0),
    }
}

/// The number from which on these ask, which all ask for the same; 0 where there are none.
pub(crate) fn lowest_asked(asks: &[Msg]) -> Lsn
    ensures { result ≡ lowest_asked asks.now }
{
    match asks {
        [] => Lsn::from_u64(0),
        [ask, ..] => asked_from(&ask.body),
    }
}

/// Whether an answer of a node says that the number isn't trimmed there and of no clean epoch, and that it isn't lost for that.
fn is_open(body: &Body) -> bool
    ensures { result ≡ is_open body.now }
{
    match body {
        Body::ReadWait { .. } => true,
        Body::ReadPage { .. } => true,
        _ => false,
    }
}

/// Whether the first of some answers says so.
fn first_open(answers: &[Msg]) -> bool
    ensures { result ≡ first_open answers.now }
{
    match answers {
        [] => false,
        [answer, ..] => is_open(&answer.body),
    }
}

/// Asks the node itself for the last number of an epoch of a log, as the first reader does in its first round, and says whether
/// that number is open. Nothing is kept.
fn ask_self<D: Disk>(
    alloc: Global,
    id: NodeId,
    log: LogId,
    epoch: u32,
    node: &mut Node<D>,
) -> Result<bool, Stop>
    requires formatted { is_blank node.old ≡ false }
    requires works { must_load node.old ≡ false }
    requires epoch { 1 ≤ epoch }
    ensures answer { (known : Known) (c : Settings) (r : Contents) (asked : List Message) (far : Option (List (ℕ × Place)))
        → IsThere D.seen D.may_leave id known node.old → is_in log known.logs ≡ true
        → MatchResult result
        (λ lets. IsThere D.seen D.may_leave id known node.new × (at_of node.new asked far ≡ at_of node.old asked far)
        × (lets ≡ is_open (read_answer (plain_of node.old).generation (log_of (plain_of node.old) log) (released_in (released_of node.old) log) 1 (numbered epoch last_esn))))
        (Leaves id known c r (D.may_leave (disk_of node.new)) (at_of node.old asked far)) }
    ensures rest { is_blank node.new ≡ false }
    ensures lent { D.identity (disk_of node.new) ≡ D.identity (disk_of node.old) }
    ensures works { OnOk result (must_load node.new ≡ false) }
    ensures cause { IfErr result (IsCarryStop (D.faults (disk_of node.old)) (D.faults (disk_of node.new)) None) }
    ensures later { D.faults (disk_of node.old) ≤ D.faults (disk_of node.new) }
    ensures disk_counts { MatchResult result (λ _. D.faults (disk_of node.new) ≡ D.faults (disk_of node.old)) (DiskCounts (D.faults (disk_of node.old)) (D.faults (disk_of node.new))) }
{
    let _ = id.number();
    let _ = log.number();
    let ask = Msg {
        from: Who::Reader(0),
        to: Who::Node(id),
        log,
        body: Body::ReadAsk {
            round: 1,
            from: Lsn::new(epoch, u32::MAX),
        },
    };
    match node.on_msg(alloc, &ask) {
        Ok(replies) => Ok(first_open(replies.as_slice())),
        Err(fault) => Err(stop_of(&fault)),
    }
}

/// The first number of the epoch behind the last closed one, where the node is lost for that epoch: what is missing there
/// isn't known before it is closed.
pub(crate) fn open_number<D: Disk, G: Register>(
    alloc: Global,
    id: NodeId,
    log: LogId,
    node: &mut Node<D>,
    reg: &mut G,
) -> Result<Option<Lsn>, Stop>
    requires formatted { is_blank node.old ≡ false }
    requires works { must_load node.old ≡ false }
    ensures stands { (known : Known) (c : Settings) (r : Contents) (asked : List Message) (far : Option (List (ℕ × Place)))
        → IsThere D.seen D.may_leave id known node.old → is_in log known.logs ≡ true → G.holds reg.old r
        → MatchResult result
        (λ lacks. IsThere D.seen D.may_leave id known node.new × G.holds reg.new r × (at_of node.new asked far ≡ at_of node.old asked far) × OpenAt id known c r (at_of node.old asked far) log lacks)
        (Leaves id known c r (D.may_leave (disk_of node.new)) (at_of node.old asked far)) }
    ensures rest { is_blank node.new ≡ false }
    ensures lent { D.identity (disk_of node.new) ≡ D.identity (disk_of node.old) }
    ensures works { OnOk result (must_load node.new ≡ false) }
    ensures cause { IfErr result (IsStop (WasDamaged G.told G.damaged G.identity reg.old) (counts (D.faults (disk_of node.old)) (G.faults reg.old) 0) (counts (D.faults (disk_of node.new)) (G.faults reg.new) 0) None) }
    ensures later { AreLater (counts (D.faults (disk_of node.old)) (G.faults reg.old) 0) (counts (D.faults (disk_of node.new)) (G.faults reg.new) 0) }
    ensures disk_counts { MatchResult result (λ _. D.faults (disk_of node.new) ≡ D.faults (disk_of node.old)) (DiskCounts (D.faults (disk_of node.old)) (D.faults (disk_of node.new))) }
    ensures told { G.told reg.old → G.told reg.new }
    ensures itself { G.identity reg.new ≡ G.identity reg.old }
{
    let view = match reg.look(alloc, log, 0) {
        Ok(view) => view,
        Err(fault) => return Err(look_stop(&fault)),
    };
    let epoch = view.lce + 1;
    if ask_self(alloc, id, log, epoch, node)? {
        return Ok(None);
    }
    Ok(Some(Lsn::new(epoch, 1)))
}
