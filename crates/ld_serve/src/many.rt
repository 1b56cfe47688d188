// A node is opened, and serves many peers at once.
ghost use Rattle.std.specs.Prelude.{◌≡◌, ◌⊎◌, [], ℕ, List, Some, IfErr, OnOk, MatchResult, false};
ghost use Rattle.ld_register.specs.Calls.{after_draw, ChangedOrNot};
ghost use Rattle.ld_node.specs.Known.{known_in};
ghost use Rattle.ld_serve.specs.Whole.{IsNotOpened};
ghost use Rattle.ld_serve.specs.Opening.{Stands, IsBlank};
ghost use Rattle.ld_serve.specs.Stops.{LinkCounts, DiskCounts, RegisterCounts};
ghost use Rattle.ld_serve.specs.Crowd.{IsCrowdStop};
ghost use Rattle.ld_serve.specs.Many.{HasServedCrowd, HasStoppedCrowd};

use crate::Stop;
use crate::crowd::serve_crowd;
use crate::news::note_opened;
use crate::opening::open;
use crate::whole::let_go;
use ld_config::Config;
use ld_crowd::Crowd;
use ld_disk::Disk;
use ld_ids::NodeId;
use ld_register::Register;
use std::alloc::Global;

/// Serves as `serve_many` does, and hands the disk back.
fn serve_many_on<D: Disk, G: Register, C: Crowd>(
    alloc: Global,
    id: NodeId,
    config: &Config,
    format: bool,
    turns: u64,
    disk: D,
    reg: &mut G,
    crowd: &mut C,
) -> (D, Result<(), Stop>)
    requires nobody { C.did crowd.old ≡ [] }
    ensures itself { D.identity result.0 ≡ D.identity disk }
    ensures served { OnOk result.1 (HasServedCrowd (D.seen disk) (D.may_leave result.0) (G.holds reg.old) (G.holds reg.new) id (known_in config.now) format (C.did crowd.new) turns) }
    ensures stopped { IfErr result.1 (λ stop. IsNotOpened (D.faults disk) (D.faults result.0) (D.seen disk) (D.seen result.0) (D.may_leave disk) (D.may_leave result.0)
        (G.faults reg.old) (G.faults reg.new) (G.told reg.old) (G.holds reg.old) (G.holds reg.new) (G.damaged reg.old) id format crowd.old crowd.new stop
        ⊎ HasStoppedCrowd (D.seen disk) (D.may_leave result.0) (G.holds reg.old) (G.holds reg.new) id (known_in config.now) format (C.did crowd.new) turns stop) }
    ensures opening { IfErr result.1 (λ stop. IsNotOpened (D.faults disk) (D.faults result.0) (D.seen disk) (D.seen result.0) (D.may_leave disk) (D.may_leave result.0)
        (G.faults reg.old) (G.faults reg.new) (G.told reg.old) (G.holds reg.old) (G.holds reg.new) (G.damaged reg.old) id format crowd.old crowd.new stop
        ⊎ IsCrowdStop (Stands (D.seen disk)) stop) }
    ensures unasked { format ≡ false → reg.new ≡ reg.old }
    ensures formatted { (bytes : List ℕ) → D.seen disk ≡ Some bytes → (IsBlank bytes → ⊥) → reg.new ≡ reg.old }
    ensures drawn { G.told reg.old → ChangedOrNot (G.may_hold reg.old) (G.may_hold reg.new) (λ c. after_draw c id) }
    ensures crowd_counts { MatchResult result.1 (λ _. C.faults crowd.new ≡ C.faults crowd.old) (LinkCounts (C.faults crowd.old) (C.faults crowd.new)) }
    ensures disk_counts { MatchResult result.1 (λ _. D.faults result.0 ≡ D.faults disk) (DiskCounts (D.faults disk) (D.faults result.0)) }
    ensures register_counts { MatchResult result.1 (λ _. G.faults reg.new ≡ G.faults reg.old) (RegisterCounts (G.faults reg.old) (G.faults reg.new)) }
{
    let mut node = match open(alloc, id, config, format, disk, reg) {
        Ok(node) => node,
        Err((disk, stop)) => return (disk, Err(stop)),
    };
    note_opened(&node, config, crowd);
    let served = serve_crowd(alloc, &mut node, crowd, turns);
    (node.into_disk(), served)
}

/// Opens the node of this number on its disk, as `serve` does, and serves a crowd, as `serve_crowd` does: several peers are
/// there at once, and each frame that is taken, whoever sent it, is one step of the node, and its answers are said to the peer
/// that sent it. Nobody has come to the crowd yet. Before its first turn it is told that the node was formatted, where it was,
/// and which logs the node had lost and has again.
///
/// It refuses before the crowd is called as `open` does: `Disk`, `Damaged`, `Blank`, `Register`, `GenLimit`, `Full`,
/// `NoMemory`. Then it stops as `serve_crowd` does: `Link`, `Disk`, `Full(Store)`, `NoMemory`, and, only where the disk doesn't
/// tell bytes that represent a plain state, `Damaged(Store, place)` at a payload. `Disk`, `Register` and `Link` come only where
/// that one's own count of faults rose in this call; `BadFrame` never comes.
pub fn serve_many<D: Disk, G: Register, C: Crowd>(
    alloc: Global,
    id: NodeId,
    config: &Config,
    format: bool,
    turns: u64,
    disk: &mut D,
    reg: &mut G,
    crowd: &mut C,
) -> Result<(), Stop>
    requires nobody { C.did crowd.old ≡ [] }

    // Of each peer what was read is the frames that were taken and then what is held of it, and what was said to it are the
    // answers to these, in order, and nothing else. Over any disk, whatever bytes it gives, the answers to each frame, in the
    // order over all peers, are those of a step from the index, but for the bytes of payloads, and the index is then as after
    // that step. Where the disk tells bytes that represent a plain state, each frame is one step of the node from that one, its
    // answers are those of that step, and afterwards the disk represents the last plain state.
    ensures served { OnOk result (HasServedCrowd (D.seen disk.old) (D.may_leave disk.new) (G.holds reg.old) (G.holds reg.new) id (known_in config.now) format (C.did crowd.new) turns) }

    // The same holds of the frames taken before it stopped, and where it stopped there is cause to.
    ensures stopped { IfErr result (λ stop. IsNotOpened (D.faults disk.old) (D.faults disk.new) (D.seen disk.old) (D.seen disk.new) (D.may_leave disk.old) (D.may_leave disk.new)
        (G.faults reg.old) (G.faults reg.new) (G.told reg.old) (G.holds reg.old) (G.holds reg.new) (G.damaged reg.old) id format crowd.old crowd.new stop
        ⊎ HasStoppedCrowd (D.seen disk.old) (D.may_leave disk.new) (G.holds reg.old) (G.holds reg.new) id (known_in config.now) format (C.did crowd.new) turns stop) }

    // What no node that serves stops with comes before the crowd is called, and has its cause.
    ensures opening { IfErr result (λ stop. IsNotOpened (D.faults disk.old) (D.faults disk.new) (D.seen disk.old) (D.seen disk.new) (D.may_leave disk.old) (D.may_leave disk.new)
        (G.faults reg.old) (G.faults reg.new) (G.told reg.old) (G.holds reg.old) (G.holds reg.new) (G.damaged reg.old) id format crowd.old crowd.new stop
        ⊎ IsCrowdStop (Stands (D.seen disk.old)) stop) }
    ensures unasked { format ≡ false → reg.new ≡ reg.old }
    ensures formatted { (bytes : List ℕ) → D.seen disk.old ≡ Some bytes → (IsBlank bytes → ⊥) → reg.new ≡ reg.old }
    ensures drawn { G.told reg.old → ChangedOrNot (G.may_hold reg.old) (G.may_hold reg.new) (λ c. after_draw c id) }
    ensures crowd_counts { MatchResult result (λ _. C.faults crowd.new ≡ C.faults crowd.old) (LinkCounts (C.faults crowd.old) (C.faults crowd.new)) }
    ensures disk_counts { MatchResult result (λ _. D.faults disk.new ≡ D.faults disk.old) (DiskCounts (D.faults disk.old) (D.faults disk.new)) }
    ensures register_counts { MatchResult result (λ _. G.faults reg.new ≡ G.faults reg.old) (RegisterCounts (G.faults reg.old) (G.faults reg.new)) }
{
    let (disk, served) = serve_many_on(alloc, id, config, format, turns, &mut *disk, reg, crowd);
    let_go(disk, served)
}
