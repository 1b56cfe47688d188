// A node is served.
ghost use Rattle.std.specs.Prelude.{◌≡◌, ◌⊎◌, ⊤, ℕ, List, Some, false};
ghost use Rattle.ld_link.specs.Peers.{Peers};
ghost use Rattle.ld_register.specs.Calls.{after_draw, ChangedOrNot};
ghost use Rattle.ld_node.specs.Known.{known_in};
ghost use Rattle.ld_serve.specs.Complete.{AreSpoken, MayOpen, IsFaultOrLimit};
ghost use Rattle.ld_serve.specs.Opening.{IsBlank, Stands};
ghost use Rattle.ld_serve.specs.Stops.{IsServingStop};
ghost use Rattle.ld_serve.specs.Whole.{HasServed, HasStopped, HasTold, HasToldUntil, IsNotOpened};
ghost use Rattle.ld_cli.specs.Serving.{status_of as told, EndsServing, DiskFaults, RegisterFaults, LinkFaults};

use crate::status::Status;
use ld_disk::Disk;
use ld_link::Link;
use ld_register::Register;
use ld_serve::{Stop, serve};
use ld_words::NodeWords;
use std::alloc::Global;

/// Serves the node that the arguments ask for.
pub(crate) fn served<D: Disk, G: Register, L: Link>(
    alloc: Global,
    node: &NodeWords,
    disk: &mut D,
    reg: &mut G,
    link: &mut L,
) -> Status
    ensures served { (start : Peers) → L.peers link.old ≡ Some start
        → EndsServing (HasServed (D.seen disk.old) (D.may_leave disk.new) (G.holds reg.old) (G.holds reg.new) node.now.id (known_in node.now.config) node.now.format start (L.peers link.new) node.now.turns)
        (λ stop. IsNotOpened (D.faults disk.old) (D.faults disk.new) (D.seen disk.old) (D.seen disk.new) (D.may_leave disk.old) (D.may_leave disk.new)
        (G.faults reg.old) (G.faults reg.new) (G.told reg.old) (G.holds reg.old) (G.holds reg.new) (G.damaged reg.old) node.now.id node.now.format link.old link.new stop
        ⊎ HasStopped (D.seen disk.old) (D.may_leave disk.new) (G.holds reg.old) (G.holds reg.new) node.now.id (known_in node.now.config) node.now.format start (L.peers link.new) stop) result }
    ensures told { EndsServing (HasTold (D.seen disk.old) (D.may_leave disk.new) (G.holds reg.old) (G.holds reg.new) node.now.id (known_in node.now.config) node.now.format (L.did link.old) (L.did link.new) node.now.turns)
        (λ stop. IsNotOpened (D.faults disk.old) (D.faults disk.new) (D.seen disk.old) (D.seen disk.new) (D.may_leave disk.old) (D.may_leave disk.new)
        (G.faults reg.old) (G.faults reg.new) (G.told reg.old) (G.holds reg.old) (G.holds reg.new) (G.damaged reg.old) node.now.id node.now.format link.old link.new stop
        ⊎ HasToldUntil (D.seen disk.old) (D.may_leave disk.new) (G.holds reg.old) (G.holds reg.new) node.now.id (known_in node.now.config) node.now.format (L.did link.old) (L.did link.new) node.now.turns stop) result }
    ensures opening { EndsServing ⊤
        (λ stop. IsNotOpened (D.faults disk.old) (D.faults disk.new) (D.seen disk.old) (D.seen disk.new) (D.may_leave disk.old) (D.may_leave disk.new)
        (G.faults reg.old) (G.faults reg.new) (G.told reg.old) (G.holds reg.old) (G.holds reg.new) (G.damaged reg.old) node.now.id node.now.format link.old link.new stop
        ⊎ IsServingStop (Stands (D.seen disk.old)) stop) result }
    ensures complete { (start : Peers) (bytes : List ℕ) → L.peers link.old ≡ Some start → AreSpoken start.coming → D.seen disk.old ≡ Some bytes
        → MayOpen (G.told reg.old) (G.damaged reg.old) node.now.format bytes → EndsServing ⊤ IsFaultOrLimit result }
    ensures unasked { node.now.format ≡ false → reg.new ≡ reg.old }
    ensures formatted { (bytes : List ℕ) → D.seen disk.old ≡ Some bytes → (IsBlank bytes → ⊥) → reg.new ≡ reg.old }
    ensures drawn { G.told reg.old → ChangedOrNot (G.may_hold reg.old) (G.may_hold reg.new) (λ c. after_draw c node.now.id) }
    ensures disk { DiskFaults (D.faults disk.old) (D.faults disk.new) result }
    ensures register { RegisterFaults (G.faults reg.old) (G.faults reg.new) result }
    ensures link { LinkFaults (L.faults link.old) (L.faults link.new) result }
{
    match serve(
        alloc,
        node.id,
        &node.config,
        node.format,
        node.turns,
        disk,
        reg,
        link,
    ) {
        Ok(()) => Status::Ok,
        Err(stop) => status_of(stop),
    }
}

/// The status of a stop.
pub(crate) fn status_of(stop: Stop) -> Status
    ensures { result ≡ told stop }
{
    match stop {
        Stop::NoMemory => Status::NoMemory,
        Stop::Disk => Status::Disk,
        Stop::Register => Status::Register,
        Stop::Link => Status::Link,
        Stop::BadFrame(fault) => Status::BadFrame(fault),
        Stop::Damaged(which, place) => Status::Damaged { which, place },
        Stop::Blank => Status::Blank,
        Stop::Full(which) => Status::JournalFull(which),
        Stop::GenLimit => Status::GenLimit,
    }
}
