// A node is opened: loaded from its disk, and formatted where that is blank.
ghost use Rattle.std.specs.Prelude.{◌≡◌, ◌≢◌, ◌⊎◌, [], ℕ, List, Option, Some, IfOk, IfErr, IfSome, MatchResult, true, false};
ghost use Rattle.ld_ids.specs.declared.set.Spec.{Spec as Fixed};
ghost use Rattle.ld_layout.specs.declared.segment.Growth.TheVariants.{Wide};
ghost use Rattle.ld_store.specs.Ops.{IfStands};
ghost use Rattle.ld_store.specs.Loads.{LeftOrMarked};
ghost use Rattle.ld_register.specs.Calls.{after_draw, ChangedOrNot};
ghost use Rattle.ld_register.specs.declared.fault.RegisterFault.{RegisterFault as Refusal};
ghost use Rattle.ld_register.specs.declared.fault.RegisterFault.TheVariants as refusals;
ghost use Rattle.ld_node.specs.Node.{id_of, known_of, released_of, plain_of, disk_of, layout_of, must_load, is_blank, Holds};
ghost use Rattle.ld_node.specs.Known.{known_in};
ghost use Rattle.ld_serve.specs.Opening.{IsBlank, IsOpening, IsOpeningStop, ShowsSame, LeftByFormat, HoldsDrawOrNot, stop_of_load, stop_of_format};
ghost use Rattle.ld_serve.specs.Stops.{DiskCounts, RegisterCounts};

use crate::{Stop, Which};
use ld_config::Config;
use ld_disk::Disk;
use ld_ids::NodeId;
use ld_node::{Node, NodeFault};
use ld_register::{Register, RegisterFault};
use std::alloc::Global;

/// Why a store wasn't loaded.
fn load_stop(fault: NodeFault) -> Stop
    requires needs_load { fault ≢ NodeFault.NeedsLoad }
    requires register { (refusal : Refusal) → fault ≢ NodeFault.Register refusal }
    ensures { result ≡ stop_of_load fault }
{
    match fault {
        NodeFault::Disk => Stop::Disk,
        NodeFault::Damaged(place) => Stop::Damaged(Which::Store, place),
        NodeFault::Full => Stop::Full(Which::Store),
        NodeFault::NoMemory => Stop::NoMemory,
        NodeFault::NeedsLoad => unreachable!(),
        NodeFault::Register(_) => unreachable!(),
    }
}

/// Why the register gave no generation.
fn draw_stop(refusal: RegisterFault) -> Stop
    requires logs { refusal ≢ refusals.LogLimit }
    requires behind { (lce : ℕ) (next : Option Fixed) → refusal ≢ refusals.Behind lce next }
    requires overtaken { (kept : ℕ) → refusal ≢ refusals.Overtaken kept }
    requires epochs { refusal ≢ refusals.EpochLimit }
    requires swaps { refusal ≢ refusals.SwapLimit }
    ensures { result ≡ stop_of_format (NodeFault.Register refusal) }
{
    match refusal {
        RegisterFault::Failed => Stop::Register,
        RegisterFault::Damaged(place) => Stop::Damaged(Which::Register, place),
        RegisterFault::GenLimit => Stop::GenLimit,
        RegisterFault::Full => Stop::Full(Which::Register),
        RegisterFault::NoMemory => Stop::NoMemory,
        RegisterFault::LogLimit => unreachable!(),
        RegisterFault::Behind { .. } => unreachable!(),
        RegisterFault::Overtaken(_) => unreachable!(),
        RegisterFault::EpochLimit => unreachable!(),
        RegisterFault::SwapLimit => unreachable!(),
    }
}

/// Why a store wasn't formatted.
fn format_stop(fault: NodeFault) -> Stop
    requires damaged { (place : ℕ) → fault ≢ NodeFault.Damaged place }
    requires needs_load { fault ≢ NodeFault.NeedsLoad }
    requires logs { fault ≢ NodeFault.Register refusals.LogLimit }
    requires behind { (lce : ℕ) (next : Option Fixed) → fault ≢ NodeFault.Register (refusals.Behind lce next) }
    requires overtaken { (kept : ℕ) → fault ≢ NodeFault.Register (refusals.Overtaken kept) }
    requires epochs { fault ≢ NodeFault.Register refusals.EpochLimit }
    requires swaps { fault ≢ NodeFault.Register refusals.SwapLimit }
    ensures { result ≡ stop_of_format fault }
{
    match fault {
        NodeFault::Disk => Stop::Disk,
        NodeFault::Full => Stop::Full(Which::Store),
        NodeFault::Register(refusal) => draw_stop(refusal),
        NodeFault::NoMemory => Stop::NoMemory,
        NodeFault::Damaged(_) => unreachable!(),
        NodeFault::NeedsLoad => unreachable!(),
    }
}

/// Opens the node of this number on its disk: the disk is loaded, which marks a store of the first version as one of the
/// second, and where it is blank and `format` is asked for, it is formatted under a generation that the register draws
/// for the node: that draw is all that changes there. Nothing is released yet. Without `format`, and where the disk isn't
/// blank, the register isn't called. Each segment that the node begins is wide.
///
/// A refusal hands the disk back: `Disk` where a call of it failed, `Damaged(Store, place)` as a node's load says,
/// `Full(Store)` where a mark, or the segment that it needs, would make the store longer than 2^40 bytes, `Blank` where no
/// record stands on the disk and no format was asked for; of a format `Register` where a call of the register failed,
/// `Damaged(Register, place)`, `GenLimit` and `Full(Register)` as its draw says, and `Full(Store)` where the format's
/// record would make the store longer than 2^40 bytes; and `NoMemory`. But for `Disk` no byte of the disk has changed; at
/// `Disk` the mark or the format may be there. Where a format is refused the draw may be made.
pub fn open<D: Disk, G: Register>(
    alloc: Global,
    id: NodeId,
    config: &Config,
    format: bool,
    disk: D,
    reg: &mut G,
) -> Result<Node<D>, (D, Stop)>
    ensures node { IfOk result (λ node. (id_of node ≡ id) × (known_of node ≡ known_in config.now) × (released_of node ≡ [])) }
    ensures works { IfOk result (λ node. (is_blank node ≡ false) × (must_load node ≡ false)) }
    ensures wide { IfOk result (λ node. (layout_of node).grows ≡ Wide) }
    ensures opens { IfOk result (λ node. IfSome (D.seen disk) (IfStands (IsOpening (G.holds reg.old) (G.holds reg.new) id format (plain_of node)))) }
    ensures holds { IfOk result (λ node. IfSome (D.seen disk) (IfStands (λ _. Holds D.seen D.may_leave node))) }
    ensures cause { IfErr result (λ e. IsOpeningStop (D.faults disk) (D.faults e.0) (D.seen disk) (G.faults reg.old) (G.faults reg.new) (G.told reg.old) (G.holds reg.old) (G.damaged reg.old) id format e.1) }
    ensures seen { IfErr result (λ e. (e.1 ≡ Stop.Disk) ⊎ ShowsSame (D.seen disk) (D.seen e.0)) }

    // What the register held it holds then with the draw or without it, unless it failed.
    ensures draw { IfErr result (λ e. HoldsDrawOrNot (G.holds reg.old) (G.holds reg.new) id e.1) }

    // What may be left then might have been left before, or represents the same as the store of the first version that
    // was to be marked, or is left by the format.
    ensures leaves { IfErr result (λ e. IfSome (D.seen disk) (λ shown. (bytes : List ℕ) → D.may_leave e.0 bytes → LeftOrMarked (D.may_leave disk) shown bytes ⊎ ((format ≡ true) × LeftByFormat (G.holds reg.old) id bytes))) }
    ensures unasked { format ≡ false → reg.new ≡ reg.old }
    ensures formatted { (bytes : List ℕ) → D.seen disk ≡ Some bytes → (IsBlank bytes → ⊥) → reg.new ≡ reg.old }
    ensures drawn { G.told reg.old → ChangedOrNot (G.may_hold reg.old) (G.may_hold reg.new) (λ c. after_draw c id) }
    ensures itself { MatchResult result (λ node. D.identity (disk_of node) ≡ D.identity disk) (λ e. D.identity e.0 ≡ D.identity disk) }
    ensures disk_counts { MatchResult result (λ node. D.faults (disk_of node) ≡ D.faults disk) (λ e. DiskCounts (D.faults disk) (D.faults e.0) e.1) }
    ensures register_counts { MatchResult result (λ _. G.faults reg.new ≡ G.faults reg.old) (λ e. RegisterCounts (G.faults reg.old) (G.faults reg.new) e.1) }
{
    let mut node = match Node::load(alloc, id, disk, config) {
        Ok(node) => node,
        Err((disk, fault)) => return Err((disk, load_stop(fault))),
    };
    if !node.is_blank() {
        return Ok(node.growing());
    }
    if !format {
        return Err((node.into_disk(), Stop::Blank));
    }
    if let Err(fault) = node.format(alloc, reg) {
        return Err((node.into_disk(), format_stop(fault)));
    }
    Ok(node.growing())
}
