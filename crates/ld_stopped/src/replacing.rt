// A stopped node takes another one's place.
ghost use Rattle.std.specs.Prelude.{◌≡◌, ◌≢◌, ◌⊎◌, ℕ, List, Option, Some, IfOk, IfErr, IfSome, OnOk, IsErrOf, MatchResult, false};
ghost use Rattle.ld_ids.specs.declared.set.Spec.{Spec as Fixed};
ghost use Rattle.ld_op.specs.Plain.{Plain as State};
ghost use Rattle.ld_store.specs.Ops.{StandsFor};
ghost use Rattle.ld_register.specs.declared.fault.RegisterFault.TheVariants as refusals;
ghost use Rattle.ld_node.specs.Known.{known_in};
ghost use Rattle.ld_node.specs.Node.{id_of, known_of, plain_of, must_load};
ghost use Rattle.ld_serve.specs.Opening.{IsBlank};
ghost use Rattle.ld_stopped.specs.Opening.{IsNotLoaded, LeavesMarked, ShowsMarked};
ghost use Rattle.ld_stopped.specs.Output.{Tells};
ghost use Rattle.ld_stopped.specs.Replacing.{Replaces, IsNotAsked, IsSwapStop, replaced_text};
ghost use Rattle.ld_stopped.specs.Stops.{DiskCounts, OutputCounts, RegisterCounts, stop_of_swap, stop_of_replace};

use crate::Stop;
use crate::opening::{let_go, opened};
use crate::output::write;
use ld_config::Config;
use ld_disk::Disk;
use ld_ids::{LogId, NoMemory, NodeId};
use ld_io::Sink;
use ld_node::{Node, NodeFault};
use ld_register::{Register, RegisterFault};
use ld_serve::Which;
use ld_transcript::Line;
use std::alloc::Global;

/// Why the register swapped nothing.
fn swap_stop(refusal: RegisterFault) -> Stop
    requires logs { refusal ≢ refusals.LogLimit }
    requires behind { (lce : ℕ) (next : Option Fixed) → refusal ≢ refusals.Behind lce next }
    requires overtaken { (kept : ℕ) → refusal ≢ refusals.Overtaken kept }
    requires epochs { refusal ≢ refusals.EpochLimit }
    requires generations { refusal ≢ refusals.GenLimit }
    ensures { result ≡ stop_of_swap refusal }
{
    match refusal {
        RegisterFault::Failed => Stop::Register,
        RegisterFault::Damaged(place) => Stop::Damaged(Which::Register, place),
        RegisterFault::SwapLimit => Stop::SwapLimit,
        RegisterFault::Full => Stop::Full(Which::Register),
        RegisterFault::NoMemory => Stop::NoMemory,
        RegisterFault::LogLimit => unreachable!(),
        RegisterFault::Behind { .. } => unreachable!(),
        RegisterFault::Overtaken(_) => unreachable!(),
        RegisterFault::EpochLimit => unreachable!(),
        RegisterFault::GenLimit => unreachable!(),
    }
}

/// Why the node took nobody's place.
fn replace_stop(fault: NodeFault) -> Stop
    requires disk { fault ≢ NodeFault.Disk }
    requires full { fault ≢ NodeFault.Full }
    requires needs_load { fault ≢ NodeFault.NeedsLoad }
    requires damaged { (place : ℕ) → fault ≢ NodeFault.Damaged place }
    requires logs { fault ≢ NodeFault.Register refusals.LogLimit }
    requires behind { (lce : ℕ) (next : Option Fixed) → fault ≢ NodeFault.Register (refusals.Behind lce next) }
    requires overtaken { (kept : ℕ) → fault ≢ NodeFault.Register (refusals.Overtaken kept) }
    requires epochs { fault ≢ NodeFault.Register refusals.EpochLimit }
    requires generations { fault ≢ NodeFault.Register refusals.GenLimit }
    ensures { result ≡ stop_of_replace fault }
{
    match fault {
        NodeFault::Register(refusal) => swap_stop(refusal),
        NodeFault::NoMemory => Stop::NoMemory,
        NodeFault::Disk => unreachable!(),
        NodeFault::Full => unreachable!(),
        NodeFault::NeedsLoad => unreachable!(),
        NodeFault::Damaged(_) => unreachable!(),
    }
}

/// The line of a swap in so many epochs.
fn replaced_line(
    alloc: Global,
    node: NodeId,
    log: LogId,
    other: NodeId,
    count: u32,
) -> Result<Vec<u8>, NoMemory>
    ensures { IfOk result (λ text. text.items ≡ replaced_text node log other count) }
{
    let mut text = Vec::new(alloc);
    if count == 0 {
        ld_transcript::write(alloc, &Line::Nothing, &mut text)?;
        return Ok(text);
    }
    let line = Line::NodeReplaced {
        node,
        log,
        other,
        count,
    };
    ld_transcript::write(alloc, &line, &mut text)?;
    Ok(text)
}

/// Writes that line.
fn tell_replaced<O: Sink>(
    alloc: Global,
    id: NodeId,
    log: LogId,
    other: NodeId,
    count: u32,
    out: &mut O,
) -> Result<(), Stop>
    ensures tells { Tells (O.written out.old) (O.written out.new) (replaced_text id log other count) result }
    ensures counts { MatchResult result (λ _. O.faults out.new ≡ O.faults out.old) (OutputCounts (O.faults out.old) (O.faults out.new)) }
{
    let text = replaced_line(alloc, id, log, other, count)?;
    write(out, &text)
}

/// Takes the other node's place, and writes the line of that.
fn take_place<D: Disk, G: Register, O: Sink>(
    alloc: Global,
    id: NodeId,
    other: NodeId,
    log: LogId,
    node: &Node<D>,
    reg: &mut G,
    out: &mut O,
) -> Result<(), Stop>
    requires works { must_load node.now ≡ false }
    ensures replaces { Replaces (id_of node.now) (known_of node.now) (plain_of node.now) log other (G.told reg.old) (reg.new ≡ reg.old) (G.tells reg.old) (G.tells reg.new) (G.holds reg.old) (G.holds reg.new) (G.may_hold reg.old) (G.may_hold reg.new) (replaced_text id log other) (O.written out.old) (O.written out.new) result }
    ensures cause { IfErr result (IsSwapStop (G.faults reg.old) (G.faults reg.new) (G.told reg.old) (G.holds reg.old) (G.damaged reg.old) log (O.faults out.old) (O.faults out.new)) }
    ensures unwritten { IfErr result (λ stop. (stop ≡ Stop.Write) ⊎ (O.written out.new ≡ O.written out.old)) }
    ensures told { G.told reg.old → G.told reg.new }
    ensures itself { G.identity reg.new ≡ G.identity reg.old }
    ensures register_counts { MatchResult result (λ _. G.faults reg.new ≡ G.faults reg.old) (RegisterCounts (G.faults reg.old) (G.faults reg.new)) }
    ensures output_counts { MatchResult result (λ _. O.faults out.new ≡ O.faults out.old) (OutputCounts (O.faults out.old) (O.faults out.new)) }
{
    match node.replace(alloc, log, other, reg) {
        Ok(count) => tell_replaced(alloc, id, log, other, count, out),
        Err(fault) => Err(replace_stop(fault)),
    }
}

/// Replaces as `replace_in` does, and hands the disk back.
fn replace_on<D: Disk, G: Register, O: Sink>(
    alloc: Global,
    id: NodeId,
    other: NodeId,
    config: &Config,
    log: LogId,
    disk: D,
    reg: &mut G,
    out: &mut O,
) -> (D, Result<(), Stop>)
    ensures lent { D.identity result.0 ≡ D.identity disk }
    ensures replaces { (bytes : List ℕ) (p : State) → D.seen disk ≡ Some bytes → StandsFor p bytes
        → Replaces id (known_in config.now) p log other (G.told reg.old) (reg.new ≡ reg.old) (G.tells reg.old) (G.tells reg.new) (G.holds reg.old) (G.holds reg.new) (G.may_hold reg.old) (G.may_hold reg.new) (replaced_text id log other) (O.written out.old) (O.written out.new) result.1 }
    ensures formatted { OnOk result.1 (IfSome (D.seen disk) (λ bytes. ¬ IsBlank bytes)) }
    ensures cause { IfErr result.1 (λ stop. IsNotAsked (IsNotLoaded (D.faults disk) (D.faults result.0) (D.seen disk) (D.seen result.0) (D.may_leave disk) (D.may_leave result.0)) reg.old reg.new stop
        ⊎ IsSwapStop (G.faults reg.old) (G.faults reg.new) (G.told reg.old) (G.holds reg.old) (G.damaged reg.old) log (O.faults out.old) (O.faults out.new) stop) }
    ensures unwritten { IfErr result.1 (λ stop. (stop ≡ Stop.Write) ⊎ (O.written out.new ≡ O.written out.old)) }
    ensures same { IsErrOf result.1 Stop.Disk ⊎ ShowsMarked (D.seen disk) (D.seen result.0) }
    ensures leaves { LeavesMarked (D.seen disk) (D.may_leave disk) (D.may_leave result.0) }
    ensures told { G.told reg.old → G.told reg.new }
    ensures itself { G.identity reg.new ≡ G.identity reg.old }
    ensures disk_counts { MatchResult result.1 (λ _. D.faults result.0 ≡ D.faults disk) (DiskCounts (D.faults disk) (D.faults result.0)) }
    ensures register_counts { MatchResult result.1 (λ _. G.faults reg.new ≡ G.faults reg.old) (RegisterCounts (G.faults reg.old) (G.faults reg.new)) }
    ensures output_counts { MatchResult result.1 (λ _. O.faults out.new ≡ O.faults out.old) (OutputCounts (O.faults out.old) (O.faults out.new)) }
{
    let node = match opened(alloc, id, config, disk) {
        Ok(node) => node,
        Err((disk, stop)) => return (disk, Err(stop)),
    };
    let replaced = take_place(alloc, id, other, log, &node, reg, out);
    (node.into_disk(), replaced)
}

/// The stopped node of this number, whose store this is, takes another node's offset in each epoch of a log that is closed in the
/// register, has the other node and lacks this one, up to the epoch that this node was lost for and is filled again; and
/// a line says how many these are: `node N replaced LOG OTHER COUNT`, or `none` where there is none. Nothing is asked of the
/// register where the configuration lacks the log or the other node, where that is the node itself, and where the node was
/// lost for nothing of the log or still is.
///
/// It stops as a load of the store does: with `Disk`, `Damaged(Store, place)`, `Full(Store)`; with `Blank` where no record
/// stands on the disk; and the register isn't called then. It stops as the register's swap is refused: with `SwapLimit` only
/// where the log's count of swaps is 2^32-1, with `Full(Register)` only where the register's journal has no room, with
/// `Damaged(Register, place)` only where its bytes are no journal of its changes, and with `Register` only where its count of
/// faults rose, when the swap may be made. It stops with `Write` where the output failed, when the swap is made and a part of
/// the line may be written; and with `NoMemory`, when the swap is made or not.
pub fn replace_in<D: Disk, G: Register, O: Sink>(
    alloc: Global,
    id: NodeId,
    other: NodeId,
    config: &Config,
    log: LogId,
    disk: &mut D,
    reg: &mut G,
    out: &mut O,
) -> Result<(), Stop>
    // Where the disk tells bytes that represent a plain state: what the swap is by that, and how it ends.
    ensures replaces { (bytes : List ℕ) (p : State) → D.seen disk.old ≡ Some bytes → StandsFor p bytes
        → Replaces id (known_in config.now) p log other (G.told reg.old) (reg.new ≡ reg.old) (G.tells reg.old) (G.tells reg.new) (G.holds reg.old) (G.holds reg.new) (G.may_hold reg.old) (G.may_hold reg.new) (replaced_text id log other) (O.written out.old) (O.written out.new) result }

    // A blank store's node takes nobody's place.
    ensures formatted { OnOk result (IfSome (D.seen disk.old) (λ bytes. ¬ IsBlank bytes)) }

    // Why it stops; the register wasn't called where the store wasn't opened, and nothing was written unless the output failed.
    ensures cause { IfErr result (λ stop. IsNotAsked (IsNotLoaded (D.faults disk.old) (D.faults disk.new) (D.seen disk.old) (D.seen disk.new) (D.may_leave disk.old) (D.may_leave disk.new)) reg.old reg.new stop
        ⊎ IsSwapStop (G.faults reg.old) (G.faults reg.new) (G.told reg.old) (G.holds reg.old) (G.damaged reg.old) log (O.faults out.old) (O.faults out.new) stop) }
    ensures unwritten { IfErr result (λ stop. (stop ≡ Stop.Write) ⊎ (O.written out.new ≡ O.written out.old)) }

    // The disk shows what it showed, but for a mark; and a crash leaves what it might have left.
    ensures same { IsErrOf result Stop.Disk ⊎ ShowsMarked (D.seen disk.old) (D.seen disk.new) }
    ensures leaves { LeavesMarked (D.seen disk.old) (D.may_leave disk.old) (D.may_leave disk.new) }
    ensures told { G.told reg.old → G.told reg.new }
    ensures itself { G.identity reg.new ≡ G.identity reg.old }
    ensures disk_counts { MatchResult result (λ _. D.faults disk.new ≡ D.faults disk.old) (DiskCounts (D.faults disk.old) (D.faults disk.new)) }
    ensures register_counts { MatchResult result (λ _. G.faults reg.new ≡ G.faults reg.old) (RegisterCounts (G.faults reg.old) (G.faults reg.new)) }
    ensures output_counts { MatchResult result (λ _. O.faults out.new ≡ O.faults out.old) (OutputCounts (O.faults out.old) (O.faults out.new)) }
{
    let (disk, replaced) = replace_on(alloc, id, other, config, log, &mut *disk, reg, out);
    let_go(disk, replaced)
}
