// A stopped node is mended: round by round it is ticked for each log, and what it asks is carried to the others.
ghost use Rattle.std.specs.Prelude.{◌≡◌, ◌<◌, ◌⊎◌, ◌&&◌, [], ◌∷◌, ℕ, List, length, Option, None, Some, is_none, IfErr, OnOk, MatchResult, true, false};
ghost use Rattle.std.specs.List.{slice_get};
ghost use Rattle.ld_table.specs.Words.{is_in};
ghost use Rattle.ld_config.specs.declared.config.Config.{Config as Settings};
ghost use Rattle.ld_msg.specs.declared.msg.Msg.{Msg as Message};
ghost use Rattle.ld_msg.specs.Register.{Register as Contents};
ghost use Rattle.ld_machine.specs.Disk.{Node as Place};
ghost use Rattle.ld_node.specs.Known.{Known, known_in};
ghost use Rattle.ld_node.specs.Node.{disk_of, must_load, is_blank};
ghost use Rattle.ld_mend.specs.Course.{ToldAs, IsHushed, Halted};
ghost use Rattle.ld_mend.specs.Standing.{IsThere, at_of, Drives, Knows, Told, IsMended, logs_of};
ghost use Rattle.ld_mend.specs.Stops.{IsStop, AreLater, WasDamaged, counts, DiskCounts};

use crate::Stop;
use crate::carrying::carry;
use crate::lines::tell_standing;
use crate::standing::{lowest_asked, open_number};
use crate::ticking::settle;
use ld_config::Config;
use ld_dial::Nodes;
use ld_disk::Disk;
use ld_ids::{LogId, NodeId, NodeSet};
use ld_io::Sink;
use ld_lsn::Lsn;
use ld_node::Node;
use ld_register::Register;
use std::alloc::Global;

/// Ticks the node for a log until a tick asks or has nothing to do, and carries what was asked. Whether the node lacks nothing
/// of the log, as far as that is known then.
fn turn<D: Disk, G: Register, N: Nodes, O: Sink>(
    alloc: Global,
    id: NodeId,
    log: LogId,
    node: &mut Node<D>,
    gone: &mut NodeSet,
    reg: &mut G,
    nodes: &mut N,
    out: &mut O,
) -> Result<bool, Stop>
    requires formatted { is_blank node.old ≡ false }
    requires works { must_load node.old ≡ false }
    ensures moved { (known : Known) (c : Settings) (r : Contents) (asked : List Message) (far : Option (List (ℕ × Place)))
        → IsThere D.seen D.may_leave id known node.old → is_in log known.logs ≡ true → G.holds reg.old r → ToldAs (N.tells nodes.old c) far
        → IsHushed (N.silent nodes.new) far ⊎ MatchResult result
        (λ _. Drives (IsThere D.seen D.may_leave id known node.new × G.holds reg.new r) (N.tells nodes.new c) id known c r (at_of node.old asked far) (at_of node.new) [] (O.written out.old) (O.written out.new))
        (Halted id known c r (D.may_leave (disk_of node.new)) (at_of node.old asked far) (O.written out.old) (O.written out.new)) }
    ensures silent { N.silent nodes.old ≡ true → N.silent nodes.new ≡ true }
    ensures rest { is_blank node.new ≡ false }
    ensures lent { D.identity (disk_of node.new) ≡ D.identity (disk_of node.old) }
    ensures works { OnOk result (must_load node.new ≡ false) }
    ensures cause { IfErr result (IsStop (WasDamaged G.told G.damaged G.identity reg.old) (counts (D.faults (disk_of node.old)) (G.faults reg.old) (O.faults out.old)) (counts (D.faults (disk_of node.new)) (G.faults reg.new) (O.faults out.new)) (N.off nodes.new)) }
    ensures later { AreLater (counts (D.faults (disk_of node.old)) (G.faults reg.old) (O.faults out.old)) (counts (D.faults (disk_of node.new)) (G.faults reg.new) (O.faults out.new)) }
    ensures disk_counts { MatchResult result (λ _. D.faults (disk_of node.new) ≡ D.faults (disk_of node.old)) (DiskCounts (D.faults (disk_of node.old)) (D.faults (disk_of node.new))) }
    ensures told { G.told reg.old → G.told reg.new }
    ensures itself { G.identity reg.new ≡ G.identity reg.old }
{
    let Some(asks) = settle(alloc, id, log, node, reg, out)? else {
        let lacks = open_number(alloc, id, log, node, reg)?;
        return Ok(is_none(&lacks));
    };
    carry(alloc, id, asks.as_slice(), node, gone, nodes)?;
    Ok(false)
}

/// A turn for each log of the configuration, in the order of the text.
fn round<D: Disk, G: Register, N: Nodes, O: Sink>(
    alloc: Global,
    id: NodeId,
    config: &Config,
    node: &mut Node<D>,
    gone: &mut NodeSet,
    reg: &mut G,
    nodes: &mut N,
    out: &mut O,
) -> Result<bool, Stop>
    requires formatted { is_blank node.old ≡ false }
    requires works { must_load node.old ≡ false }
    ensures moved { (r : Contents) (asked : List Message) (far : Option (List (ℕ × Place)))
        → IsThere D.seen D.may_leave id (known_in config.now) node.old → G.holds reg.old r → ToldAs (N.tells nodes.old config.now) far
        → IsHushed (N.silent nodes.new) far ⊎ MatchResult result
        (λ _. Drives (IsThere D.seen D.may_leave id (known_in config.now) node.new × G.holds reg.new r) (N.tells nodes.new config.now) id (known_in config.now) config.now r (at_of node.old asked far) (at_of node.new) [] (O.written out.old) (O.written out.new))
        (Halted id (known_in config.now) config.now r (D.may_leave (disk_of node.new)) (at_of node.old asked far) (O.written out.old) (O.written out.new)) }
    ensures silent { N.silent nodes.old ≡ true → N.silent nodes.new ≡ true }
    ensures rest { is_blank node.new ≡ false }
    ensures lent { D.identity (disk_of node.new) ≡ D.identity (disk_of node.old) }
    ensures works { OnOk result (must_load node.new ≡ false) }
    ensures cause { IfErr result (IsStop (WasDamaged G.told G.damaged G.identity reg.old) (counts (D.faults (disk_of node.old)) (G.faults reg.old) (O.faults out.old)) (counts (D.faults (disk_of node.new)) (G.faults reg.new) (O.faults out.new)) (N.off nodes.new)) }
    ensures later { AreLater (counts (D.faults (disk_of node.old)) (G.faults reg.old) (O.faults out.old)) (counts (D.faults (disk_of node.new)) (G.faults reg.new) (O.faults out.new)) }
    ensures disk_counts { MatchResult result (λ _. D.faults (disk_of node.new) ≡ D.faults (disk_of node.old)) (DiskCounts (D.faults (disk_of node.old)) (D.faults (disk_of node.new))) }
    ensures told { G.told reg.old → G.told reg.new }
    ensures itself { G.identity reg.new ≡ G.identity reg.old }
{
    let mut mended = true;
    'logs: for place in 0..config.logs.len() {
        let log = log_at(config, place);
        let whole = turn(alloc, id, log, node, gone, reg, nodes, out)?;
        mended = both(mended, whole);
    }
    Ok(mended)
}

/// The log of this place in the configuration.
fn log_at(config: &Config, place: usize) -> LogId
    requires { place < length config.now.logs }
    ensures { slice_get (logs_of config.now.logs) place ≡ Some result }
{
    let logs = config.logs.as_slice();
    logs[place].log
}

/// Whether there is none.
fn is_none(lacks: &Option<Lsn>) -> bool
    ensures { result ≡ is_none lacks.now }
{
    match lacks {
        Some(_) => false,
        None => true,
    }
}

/// Whether both are so.
fn both(one: bool, other: bool) -> bool
    ensures { result ≡ (one && other) }
{
    one && other
}

/// So many rounds, or as many as it takes until the node lacks nothing.
fn go_round<D: Disk, G: Register, N: Nodes, O: Sink>(
    alloc: Global,
    id: NodeId,
    config: &Config,
    rounds: u32,
    node: &mut Node<D>,
    reg: &mut G,
    nodes: &mut N,
    out: &mut O,
) -> Result<(), Stop>
    requires formatted { is_blank node.old ≡ false }
    requires works { must_load node.old ≡ false }
    ensures moved { (r : Contents) (asked : List Message) (far : Option (List (ℕ × Place)))
        → IsThere D.seen D.may_leave id (known_in config.now) node.old → G.holds reg.old r → ToldAs (N.tells nodes.old config.now) far
        → IsHushed (N.silent nodes.new) far ⊎ MatchResult result
        (λ _. Drives (IsThere D.seen D.may_leave id (known_in config.now) node.new × G.holds reg.new r) (N.tells nodes.new config.now) id (known_in config.now) config.now r (at_of node.old asked far) (at_of node.new) [] (O.written out.old) (O.written out.new))
        (Halted id (known_in config.now) config.now r (D.may_leave (disk_of node.new)) (at_of node.old asked far) (O.written out.old) (O.written out.new)) }
    ensures silent { N.silent nodes.old ≡ true → N.silent nodes.new ≡ true }
    ensures rest { is_blank node.new ≡ false }
    ensures lent { D.identity (disk_of node.new) ≡ D.identity (disk_of node.old) }
    ensures works { OnOk result (must_load node.new ≡ false) }
    ensures cause { IfErr result (IsStop (WasDamaged G.told G.damaged G.identity reg.old) (counts (D.faults (disk_of node.old)) (G.faults reg.old) (O.faults out.old)) (counts (D.faults (disk_of node.new)) (G.faults reg.new) (O.faults out.new)) (N.off nodes.new)) }
    ensures later { AreLater (counts (D.faults (disk_of node.old)) (G.faults reg.old) (O.faults out.old)) (counts (D.faults (disk_of node.new)) (G.faults reg.new) (O.faults out.new)) }
    ensures disk_counts { MatchResult result (λ _. D.faults (disk_of node.new) ≡ D.faults (disk_of node.old)) (DiskCounts (D.faults (disk_of node.old)) (D.faults (disk_of node.new))) }
    ensures told { G.told reg.old → G.told reg.new }
    ensures itself { G.identity reg.new ≡ G.identity reg.old }
{
    let mut gone = NodeSet::empty();
    'rounds: for _ in 0..rounds {
        let mended = round(alloc, id, config, node, &mut gone, reg, nodes, out)?;
        if mended {
            return Ok(());
        }
    }
    Ok(())
}

/// Ticks the node for a log until a tick asks or has nothing to do, and says the lowest number that the node lacks then, none
/// where it lacks nothing.
fn stand<D: Disk, G: Register, O: Sink>(
    alloc: Global,
    id: NodeId,
    log: LogId,
    node: &mut Node<D>,
    reg: &mut G,
    out: &mut O,
) -> Result<Option<Lsn>, Stop>
    requires formatted { is_blank node.old ≡ false }
    requires works { must_load node.old ≡ false }
    ensures moved { (known : Known) (c : Settings) (r : Contents) (asked : List Message) (far : Option (List (ℕ × Place)))
        → IsThere D.seen D.may_leave id known node.old → is_in log known.logs ≡ true → G.holds reg.old r
        → MatchResult result
        (λ lacks. IsThere D.seen D.may_leave id known node.new × G.holds reg.new r × Knows id known c r (at_of node.old asked far) (λ last. at_of node.new last far) log lacks (O.written out.old) (O.written out.new))
        (Halted id known c r (D.may_leave (disk_of node.new)) (at_of node.old asked far) (O.written out.old) (O.written out.new)) }
    ensures rest { is_blank node.new ≡ false }
    ensures lent { D.identity (disk_of node.new) ≡ D.identity (disk_of node.old) }
    ensures works { OnOk result (must_load node.new ≡ false) }
    ensures cause { IfErr result (IsStop (WasDamaged G.told G.damaged G.identity reg.old) (counts (D.faults (disk_of node.old)) (G.faults reg.old) (O.faults out.old)) (counts (D.faults (disk_of node.new)) (G.faults reg.new) (O.faults out.new)) None) }
    ensures later { AreLater (counts (D.faults (disk_of node.old)) (G.faults reg.old) (O.faults out.old)) (counts (D.faults (disk_of node.new)) (G.faults reg.new) (O.faults out.new)) }
    ensures disk_counts { MatchResult result (λ _. D.faults (disk_of node.new) ≡ D.faults (disk_of node.old)) (DiskCounts (D.faults (disk_of node.old)) (D.faults (disk_of node.new))) }
    ensures told { G.told reg.old → G.told reg.new }
    ensures itself { G.identity reg.new ≡ G.identity reg.old }
{
    let Some(asks) = settle(alloc, id, log, node, reg, out)? else {
        let lacks = open_number(alloc, id, log, node, reg)?;
        return Ok(lacks);
    };
    Ok(Some(lowest_asked(asks.as_slice())))
}

/// Writes the line of how the node stands for a log, and says whether it lacks nothing of it.
fn tell_log<D: Disk, G: Register, O: Sink>(
    alloc: Global,
    id: NodeId,
    log: LogId,
    node: &mut Node<D>,
    reg: &mut G,
    out: &mut O,
) -> Result<bool, Stop>
    requires formatted { is_blank node.old ≡ false }
    requires works { must_load node.old ≡ false }
    ensures moved { (known : Known) (c : Settings) (r : Contents) (asked : List Message) (far : Option (List (ℕ × Place)))
        → IsThere D.seen D.may_leave id known node.old → is_in log known.logs ≡ true → G.holds reg.old r
        → MatchResult result
        (λ mended. IsThere D.seen D.may_leave id known node.new × G.holds reg.new r × Told id known c r (at_of node.old asked far) (λ last. at_of node.new last far) (log ∷ []) mended (O.written out.old) (O.written out.new))
        (Halted id known c r (D.may_leave (disk_of node.new)) (at_of node.old asked far) (O.written out.old) (O.written out.new)) }
    ensures rest { is_blank node.new ≡ false }
    ensures lent { D.identity (disk_of node.new) ≡ D.identity (disk_of node.old) }
    ensures works { OnOk result (must_load node.new ≡ false) }
    ensures cause { IfErr result (IsStop (WasDamaged G.told G.damaged G.identity reg.old) (counts (D.faults (disk_of node.old)) (G.faults reg.old) (O.faults out.old)) (counts (D.faults (disk_of node.new)) (G.faults reg.new) (O.faults out.new)) None) }
    ensures later { AreLater (counts (D.faults (disk_of node.old)) (G.faults reg.old) (O.faults out.old)) (counts (D.faults (disk_of node.new)) (G.faults reg.new) (O.faults out.new)) }
    ensures disk_counts { MatchResult result (λ _. D.faults (disk_of node.new) ≡ D.faults (disk_of node.old)) (DiskCounts (D.faults (disk_of node.old)) (D.faults (disk_of node.new))) }
    ensures told { G.told reg.old → G.told reg.new }
    ensures itself { G.identity reg.new ≡ G.identity reg.old }
{
    let lacks = stand(alloc, id, log, node, reg, out)?;
    tell_standing(alloc, log, lacks, out)?;
    Ok(is_none(&lacks))
}

/// Writes that line of each log of the configuration, in the order of the text, and says whether the node lacks nothing of any.
fn tell<D: Disk, G: Register, O: Sink>(
    alloc: Global,
    id: NodeId,
    config: &Config,
    node: &mut Node<D>,
    reg: &mut G,
    out: &mut O,
) -> Result<bool, Stop>
    requires formatted { is_blank node.old ≡ false }
    requires works { must_load node.old ≡ false }
    ensures moved { (r : Contents) (asked : List Message) (far : Option (List (ℕ × Place)))
        → IsThere D.seen D.may_leave id (known_in config.now) node.old → G.holds reg.old r
        → MatchResult result
        (λ mended. IsThere D.seen D.may_leave id (known_in config.now) node.new × G.holds reg.new r × Told id (known_in config.now) config.now r (at_of node.old asked far) (λ last. at_of node.new last far) (logs_of config.now.logs) mended (O.written out.old) (O.written out.new))
        (Halted id (known_in config.now) config.now r (D.may_leave (disk_of node.new)) (at_of node.old asked far) (O.written out.old) (O.written out.new)) }
    ensures rest { is_blank node.new ≡ false }
    ensures lent { D.identity (disk_of node.new) ≡ D.identity (disk_of node.old) }
    ensures works { OnOk result (must_load node.new ≡ false) }
    ensures cause { IfErr result (IsStop (WasDamaged G.told G.damaged G.identity reg.old) (counts (D.faults (disk_of node.old)) (G.faults reg.old) (O.faults out.old)) (counts (D.faults (disk_of node.new)) (G.faults reg.new) (O.faults out.new)) None) }
    ensures later { AreLater (counts (D.faults (disk_of node.old)) (G.faults reg.old) (O.faults out.old)) (counts (D.faults (disk_of node.new)) (G.faults reg.new) (O.faults out.new)) }
    ensures disk_counts { MatchResult result (λ _. D.faults (disk_of node.new) ≡ D.faults (disk_of node.old)) (DiskCounts (D.faults (disk_of node.old)) (D.faults (disk_of node.new))) }
    ensures told { G.told reg.old → G.told reg.new }
    ensures itself { G.identity reg.new ≡ G.identity reg.old }
{
    let mut mended = true;
    'logs: for place in 0..config.logs.len() {
        let log = log_at(config, place);
        let whole = tell_log(alloc, id, log, node, reg, out)?;
        mended = both(mended, whole);
    }
    Ok(mended)
}

/// Mends a stopped node that was opened: in so many rounds at most it is ticked for each log of the configuration until a tick
/// asks or has nothing to do, each ask is handed to the node that it is for, and each answer to it is taken by the node. A node
/// that couldn't be dialed isn't dialed again. Behind the rounds each log is told of: `mended LOG`, or `lacks LOG LSN` with the
/// lowest number that the node lacks, or the first one of the epoch behind the last closed one, where the node is lost for that.
/// A line `node N rebuilt LOG` is written where the node isn't lost for a log any more.
///
/// True where the node lacks nothing of any log, false where it does behind all rounds. It stops with `Disk` where a call of
/// the node's disk failed, with `Full` where its store would be longer than 2^40 bytes, with `Damaged` where the disk ends
/// before a payload does, with `Register` where a call of the register failed, with `RegisterDamaged` where its bytes are no
/// journal of its changes, with `BadFrame` where what a node sent begins no frame, with `Write` where the output failed, and
/// with `NoMemory`.
pub fn mend<D: Disk, G: Register, N: Nodes, O: Sink>(
    alloc: Global,
    id: NodeId,
    config: &Config,
    rounds: u32,
    node: &mut Node<D>,
    reg: &mut G,
    nodes: &mut N,
    out: &mut O,
) -> Result<bool, Stop>
    requires formatted { is_blank node.old ≡ false }
    requires works { must_load node.old ≡ false }

    // Where the node's store holds what its disk has, and the register tells what it holds: all that was done are ticks of the
    // node by those contents, and answers to its own asks that it took; what was written is the text of that, and of how it
    // stood for each log behind the rounds. It is mended where that is so for each log. Where the other nodes are told of too,
    // each ask that was handed over did what the written machine says at a node that is up, and what that answered is what the
    // node took. Where it stops, what may be left of the disk represents the state then, or, where the disk failed, perhaps
    // that of one deed more.
    ensures mended { (r : Contents) (asked : List Message) (far : Option (List (ℕ × Place)))
        → IsThere D.seen D.may_leave id (known_in config.now) node.old → G.holds reg.old r → ToldAs (N.tells nodes.old config.now) far
        → IsHushed (N.silent nodes.new) far ⊎ MatchResult result
        (λ mended. IsMended (IsThere D.seen D.may_leave id (known_in config.now) node.new × G.holds reg.new r) (N.tells nodes.new config.now) id (known_in config.now) config.now r (at_of node.old asked far) (at_of node.new) (logs_of config.now.logs) mended (O.written out.old) (O.written out.new))
        (Halted id (known_in config.now) config.now r (D.may_leave (disk_of node.new)) (at_of node.old asked far) (O.written out.old) (O.written out.new)) }
    ensures silent { N.silent nodes.old ≡ true → N.silent nodes.new ≡ true }
    ensures rest { is_blank node.new ≡ false }
    ensures lent { D.identity (disk_of node.new) ≡ D.identity (disk_of node.old) }
    ensures works { OnOk result (must_load node.new ≡ false) }
    ensures cause { IfErr result (IsStop (WasDamaged G.told G.damaged G.identity reg.old) (counts (D.faults (disk_of node.old)) (G.faults reg.old) (O.faults out.old)) (counts (D.faults (disk_of node.new)) (G.faults reg.new) (O.faults out.new)) (N.off nodes.new)) }
    ensures later { AreLater (counts (D.faults (disk_of node.old)) (G.faults reg.old) (O.faults out.old)) (counts (D.faults (disk_of node.new)) (G.faults reg.new) (O.faults out.new)) }
    ensures disk_counts { MatchResult result (λ _. D.faults (disk_of node.new) ≡ D.faults (disk_of node.old)) (DiskCounts (D.faults (disk_of node.old)) (D.faults (disk_of node.new))) }
    ensures told { G.told reg.old → G.told reg.new }
    ensures itself { G.identity reg.new ≡ G.identity reg.old }
{
    go_round(alloc, id, config, rounds, node, reg, nodes, out)?;
    tell(alloc, id, config, node, reg, out)
}
