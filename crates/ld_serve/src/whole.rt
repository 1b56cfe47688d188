// A node is opened, and serves.
ghost use Rattle.std.specs.Prelude.{◌≡◌, ◌⊎◌, ℕ, List, Some, IfErr, OnOk, MatchResult, false};
ghost use Rattle.ld_link.specs.Peers.{Peers};
ghost use Rattle.ld_register.specs.Calls.{after_draw, ChangedOrNot};
ghost use Rattle.ld_node.specs.Known.{known_in};
ghost use Rattle.ld_serve.specs.Whole.{HasServed, HasStopped, HasTold, HasToldUntil, IsNotOpened};
ghost use Rattle.ld_serve.specs.Opening.{Stands, IsBlank};
ghost use Rattle.ld_serve.specs.Complete.{AreSpoken, MayOpen, IsFaultOrLimit};
ghost use Rattle.ld_serve.specs.Stops.{IsServingStop, LinkCounts, DiskCounts, RegisterCounts};

use crate::Stop;
use crate::opening::open;
use crate::peers::serve_peers;
use ld_config::Config;
use ld_disk::Disk;
use ld_ids::NodeId;
use ld_link::Link;
use ld_register::Register;
use std::alloc::Global;

/// Lets a lent disk go, as it is.
pub(crate) fn let_go<D: Disk>(disk: &mut D, served: Result<(), Stop>) -> Result<(), Stop>
    ensures served { result ≡ served }
    ensures same { disk.new ≡ disk.old }
{
    let _ = disk;
    served
}

/// Serves as `serve` does, and hands the disk back.
fn serve_on<D: Disk, G: Register, L: Link>(
    alloc: Global,
    id: NodeId,
    config: &Config,
    format: bool,
    turns: u64,
    disk: D,
    reg: &mut G,
    link: &mut L,
) -> (D, Result<(), Stop>)
    ensures itself { D.identity result.0 ≡ D.identity disk }
    ensures served { (start : Peers) → L.peers link.old ≡ Some start
        → OnOk result.1 (HasServed (D.seen disk) (D.may_leave result.0) (G.holds reg.old) (G.holds reg.new) id (known_in config.now) format start (L.peers link.new) turns) }
    ensures stopped { (start : Peers) → L.peers link.old ≡ Some start
        → IfErr result.1 (λ stop. IsNotOpened (D.faults disk) (D.faults result.0) (D.seen disk) (D.seen result.0) (D.may_leave disk) (D.may_leave result.0)
        (G.faults reg.old) (G.faults reg.new) (G.told reg.old) (G.holds reg.old) (G.holds reg.new) (G.damaged reg.old) id format link.old link.new stop
        ⊎ HasStopped (D.seen disk) (D.may_leave result.0) (G.holds reg.old) (G.holds reg.new) id (known_in config.now) format start (L.peers link.new) stop) }
    ensures told { MatchResult result.1
        (λ _. HasTold (D.seen disk) (D.may_leave result.0) (G.holds reg.old) (G.holds reg.new) id (known_in config.now) format (L.did link.old) (L.did link.new) turns)
        (λ stop. IsNotOpened (D.faults disk) (D.faults result.0) (D.seen disk) (D.seen result.0) (D.may_leave disk) (D.may_leave result.0)
        (G.faults reg.old) (G.faults reg.new) (G.told reg.old) (G.holds reg.old) (G.holds reg.new) (G.damaged reg.old) id format link.old link.new stop
        ⊎ HasToldUntil (D.seen disk) (D.may_leave result.0) (G.holds reg.old) (G.holds reg.new) id (known_in config.now) format (L.did link.old) (L.did link.new) turns stop) }
    ensures opening { IfErr result.1 (λ stop. IsNotOpened (D.faults disk) (D.faults result.0) (D.seen disk) (D.seen result.0) (D.may_leave disk) (D.may_leave result.0)
        (G.faults reg.old) (G.faults reg.new) (G.told reg.old) (G.holds reg.old) (G.holds reg.new) (G.damaged reg.old) id format link.old link.new stop
        ⊎ IsServingStop (Stands (D.seen disk)) stop) }
    ensures unasked { format ≡ false → reg.new ≡ reg.old }
    ensures formatted { (bytes : List ℕ) → D.seen disk ≡ Some bytes → (IsBlank bytes → ⊥) → reg.new ≡ reg.old }
    ensures drawn { G.told reg.old → ChangedOrNot (G.may_hold reg.old) (G.may_hold reg.new) (λ c. after_draw c id) }
    ensures link_counts { MatchResult result.1 (λ _. L.faults link.new ≡ L.faults link.old) (LinkCounts (L.faults link.old) (L.faults link.new)) }
    ensures disk_counts { MatchResult result.1 (λ _. D.faults result.0 ≡ D.faults disk) (DiskCounts (D.faults disk) (D.faults result.0)) }
    ensures register_counts { MatchResult result.1 (λ _. G.faults reg.new ≡ G.faults reg.old) (RegisterCounts (G.faults reg.old) (G.faults reg.new)) }
{
    let mut node = match open(alloc, id, config, format, disk, reg) {
        Ok(node) => node,
        Err((disk, stop)) => return (disk, Err(stop)),
    };
    let served = serve_peers(alloc, &mut node, link, turns);
    (node.into_disk(), served)
}

/// Opens the node of this number on its disk, and serves: peers are taken one after the other, and each of their frames is
/// one step of the node and its answers. A turn is a frame that was taken or a peer that ended (what is then held of a
/// frame is dropped); a frame for another node, or of a log that the node doesn't know, is a turn without an answer. It
/// ends after so many turns, whatever the present peer has left to say, or where there is no next peer.
///
/// The node begins in the plain state that its disk represents, with nothing released; a store of the first version is
/// marked as one of the second, which leaves that state as it is. Where the disk is blank and `format` is asked for, it is formatted first under a generation that the register draws, and the register holds that
/// one draw more from then on.
///
/// What the answers say of the node's state, and their payloads, is exact where the disk tells what bytes it has, and they
/// represent a plain state. Where it tells nothing, or bytes that a load takes though they represent none, the answers are
/// those of the steps from the index that the node loaded, but for the bytes of payloads, of which nothing is said.
///
/// It refuses before the link is called as `open` does: `Disk`, `Damaged`, `Blank`, `Register`, `GenLimit`, `Full`,
/// `NoMemory`. Then it stops as `serve_peers` does: `Link`, `BadFrame`, `Disk`, `Full(Store)`, `NoMemory`, and, only where
/// the disk doesn't tell bytes that represent a plain state, `Damaged(Store, place)` at a payload; what was done before
/// stands, the last answers may be written in part, and the disk represents the state before the last step or after it.
/// `Disk`, `Register` and `Link` come only where that one's own count of faults rose in this call. `BadFrame`, `Damaged`
/// and `Blank` don't come where the peers speak in frames and the disk holds a formatted store.
pub fn serve<D: Disk, G: Register, L: Link>(
    alloc: Global,
    id: NodeId,
    config: &Config,
    format: bool,
    turns: u64,
    disk: &mut D,
    reg: &mut G,
    link: &mut L,
) -> Result<(), Stop>
    // The frames that were taken, in order over all peers, are decoded, and each has its answers. What was written to
    // each peer is the frames of the answers to its frames, in order, and nothing else. Each peer but the present one was
    // read to its end: its bytes are the frames that were taken, and then less than one. Where the disk tells bytes that
    // represent a plain state, each frame is one step of the node from that one, its answers are those of that step, and
    // afterwards the disk represents the last plain state.
    ensures served { (start : Peers) → L.peers link.old ≡ Some start
        → OnOk result (HasServed (D.seen disk.old) (D.may_leave disk.new) (G.holds reg.old) (G.holds reg.new) id (known_in config.now) format start (L.peers link.new) turns) }

    // The same holds of the frames taken before it stopped, and where it stopped there is cause to.
    ensures stopped { (start : Peers) → L.peers link.old ≡ Some start
        → IfErr result (λ stop. IsNotOpened (D.faults disk.old) (D.faults disk.new) (D.seen disk.old) (D.seen disk.new) (D.may_leave disk.old) (D.may_leave disk.new)
        (G.faults reg.old) (G.faults reg.new) (G.told reg.old) (G.holds reg.old) (G.holds reg.new) (G.damaged reg.old) id format link.old link.new stop
        ⊎ HasStopped (D.seen disk.old) (D.may_leave disk.new) (G.holds reg.old) (G.holds reg.new) id (known_in config.now) format start (L.peers link.new) stop) }

    // The same of every link, as each tells its calls: each frame was read while no whole one was held, and the frames of its
    // answers were written, before the next read. Each peer but the present one was read to its end, when less than a frame
    // was left. Fewer turns are taken only where the last call says that there is no next peer, or where it stopped. Over any
    // disk, whatever bytes it gives, the answers to each frame are those of a step from the index, but for the bytes of
    // payloads, and the index is then as after that step.
    ensures told { MatchResult result
        (λ _. HasTold (D.seen disk.old) (D.may_leave disk.new) (G.holds reg.old) (G.holds reg.new) id (known_in config.now) format (L.did link.old) (L.did link.new) turns)
        (λ stop. IsNotOpened (D.faults disk.old) (D.faults disk.new) (D.seen disk.old) (D.seen disk.new) (D.may_leave disk.old) (D.may_leave disk.new)
        (G.faults reg.old) (G.faults reg.new) (G.told reg.old) (G.holds reg.old) (G.holds reg.new) (G.damaged reg.old) id format link.old link.new stop
        ⊎ HasToldUntil (D.seen disk.old) (D.may_leave disk.new) (G.holds reg.old) (G.holds reg.new) id (known_in config.now) format (L.did link.old) (L.did link.new) turns stop) }

    // Whatever the link tells: what no serving node stops with comes before the link is called, and has its cause.
    ensures opening { IfErr result (λ stop. IsNotOpened (D.faults disk.old) (D.faults disk.new) (D.seen disk.old) (D.seen disk.new) (D.may_leave disk.old) (D.may_leave disk.new)
        (G.faults reg.old) (G.faults reg.new) (G.told reg.old) (G.holds reg.old) (G.holds reg.new) (G.damaged reg.old) id format link.old link.new stop
        ⊎ IsServingStop (Stands (D.seen disk.old)) stop) }

    // Where the peers' bytes are frames, but for a last one that may be cut, and the disk's bytes are those of a formatted
    // store, or are blank, to be formatted, beside a register that isn't damaged: it ends with Ok, or when out of memory, a
    // fault of one of the three, or a limit, which have their causes above.
    ensures complete { (start : Peers) (bytes : List ℕ) → L.peers link.old ≡ Some start → AreSpoken start.coming → D.seen disk.old ≡ Some bytes
        → MayOpen (G.told reg.old) (G.damaged reg.old) format bytes → IfErr result IsFaultOrLimit }
    ensures unasked { format ≡ false → reg.new ≡ reg.old }
    ensures formatted { (bytes : List ℕ) → D.seen disk.old ≡ Some bytes → (IsBlank bytes → ⊥) → reg.new ≡ reg.old }
    ensures drawn { G.told reg.old → ChangedOrNot (G.may_hold reg.old) (G.may_hold reg.new) (λ c. after_draw c id) }
    ensures link_counts { MatchResult result (λ _. L.faults link.new ≡ L.faults link.old) (LinkCounts (L.faults link.old) (L.faults link.new)) }
    ensures disk_counts { MatchResult result (λ _. D.faults disk.new ≡ D.faults disk.old) (DiskCounts (D.faults disk.old) (D.faults disk.new)) }
    ensures register_counts { MatchResult result (λ _. G.faults reg.new ≡ G.faults reg.old) (RegisterCounts (G.faults reg.old) (G.faults reg.new)) }
{
    let (disk, served) = serve_on(alloc, id, config, format, turns, &mut *disk, reg, link);
    let_go(disk, served)
}
