// One turn: a frame of the present peer, or its end.
ghost use Rattle.std.specs.Prelude.{◌≡◌, ◌≢◌, ◌⊎◌, ◌<◌, ◌+◌, ℕ, List, length, None, Some, true, false, IfErr, OnOk, MatchResult, MatchBool};
ghost use Rattle.ld_io.specs.Causes.{Rose};
ghost use Rattle.ld_link.specs.Peers.{Peers};
ghost use Rattle.ld_register.specs.declared.fault.RegisterFault.{RegisterFault};
ghost use Rattle.ld_node.specs.Node.{id_of, known_of, disk_of, must_load, is_blank, Holds};
ghost use Rattle.ld_serve.specs.Course.{WithPeer, BetweenPeers, InTurn};
ghost use Rattle.ld_serve.specs.Heard.{IsTurn};
ghost use Rattle.ld_serve.specs.Serving.{State, state_of, after, answers, IsAt, IsCut};
ghost use Rattle.ld_serve.specs.Stops.{IsNodeStop, IsServingStop, LinkCounts, DiskCounts};
ghost use Rattle.ld_serve.specs.Told.{memory_of, TellsTurn};

use crate::answer::answer;
use crate::input::next_frame;
use crate::{Stop, Which};
use ld_disk::Disk;
use ld_link::Link;
use ld_node::{Node, NodeFault};
use ld_wire::Decoder;
use std::alloc::Global;

/// Why a message wasn't handled.
pub(crate) fn stop_of(fault: NodeFault) -> Stop
    requires needs_load { fault ≢ NodeFault.NeedsLoad }
    requires register { (refusal : RegisterFault) → fault ≢ NodeFault.Register refusal }
    ensures cause { IsNodeStop ⊥ result }
    ensures damaged { (place : ℕ) → result ≡ Stop.Damaged Which.Store place → fault ≡ NodeFault.Damaged place }
    ensures disk { fault ≡ NodeFault.Disk → result ≡ Stop.Disk }
    ensures full { result ≡ Stop.Full Which.Store → fault ≡ NodeFault.Full }
    ensures disk_counts { (before : ℕ) (now : ℕ) → (fault ≡ NodeFault.Disk → Rose before now) → (fault ≡ NodeFault.Disk) ⊎ (now ≡ before) → DiskCounts before now result }
    ensures link_counts { (before : ℕ) (now : ℕ) → now ≡ before → LinkCounts before now result }
{
    match fault {
        NodeFault::Disk => Stop::Disk,
        NodeFault::Damaged(place) => Stop::Damaged(Which::Store, place),
        NodeFault::Full => Stop::Full(Which::Store),
        NodeFault::NoMemory => Stop::NoMemory,
        NodeFault::NeedsLoad => unreachable!(),
        NodeFault::Register(_) => unreachable!(),
    }
}

/// Takes a frame of the present peer, and answers it. False at the peer's end.
pub(crate) fn turn<D: Disk, L: Link>(
    alloc: Global,
    node: &mut Node<D>,
    decoder: &mut Decoder,
    link: &mut L,
    buf: &mut [u8],
) -> Result<bool, Stop>
    requires room { 0 < length buf.old }
    requires fine { decoder.old.fault ≡ None }
    requires formatted { is_blank node.old ≡ false }
    requires works { must_load node.old ≡ false }
    ensures len { length buf.new ≡ length buf.old }
    ensures fine { OnOk result (decoder.new.fault ≡ None) }
    ensures rest { (id_of node.new ≡ id_of node.old) × (known_of node.new ≡ known_of node.old) × (is_blank node.new ≡ false) }
    ensures itself { D.identity (disk_of node.new) ≡ D.identity (disk_of node.old) }
    ensures works { OnOk result (must_load node.new ≡ false) }
    ensures heard { IsTurn (L.peers link.old) (L.peers link.new) decoder.old.bytes decoder.new.bytes result }
    ensures turned { (start : Peers) (s : State) (turns : ℕ) → Holds D.seen D.may_leave node.old
        → WithPeer (after (id_of node.old) (known_of node.old)) (answers (id_of node.old) (known_of node.old)) start s (L.peers link.old) decoder.old.bytes (state_of node.old) turns
        → MatchResult result
        (λ more. MatchBool more
        (WithPeer (after (id_of node.old) (known_of node.old)) (answers (id_of node.old) (known_of node.old)) start s (L.peers link.new) decoder.new.bytes (state_of node.new) (turns + 1))
        (BetweenPeers (after (id_of node.old) (known_of node.old)) (answers (id_of node.old) (known_of node.old)) start s (L.peers link.new) (state_of node.new) (turns + 1)))
        (λ stop. (last : State) × IsAt last stop node.new × InTurn (after (id_of node.old) (known_of node.old)) (answers (id_of node.old) (known_of node.old))
        (IsCut (id_of node.old) (known_of node.old) (D.may_leave (disk_of node.new)) stop) start s (L.peers link.new) last) }
    ensures told { TellsTurn (id_of node.old) (known_of node.old) (Holds D.seen D.may_leave node.old) (D.may_leave (disk_of node.new)) (L.did link.old) (L.did link.new) decoder.old.bytes decoder.new.bytes (state_of node.old) (state_of node.new) (memory_of node.old) (memory_of node.new) result }
    ensures holds { Holds D.seen D.may_leave node.old → OnOk result (Holds D.seen D.may_leave node.new) }
    ensures stops { IfErr result (IsServingStop (Holds D.seen D.may_leave node.old)) }
    ensures link_counts { MatchResult result (λ _. L.faults link.new ≡ L.faults link.old) (LinkCounts (L.faults link.old) (L.faults link.new)) }
    ensures disk_counts { MatchResult result (λ _. D.faults (disk_of node.new) ≡ D.faults (disk_of node.old)) (DiskCounts (D.faults (disk_of node.old)) (D.faults (disk_of node.new))) }
{
    let Some(message) = next_frame(alloc, decoder, link, buf)? else {
        return Ok(false);
    };
    let replies = match node.on_msg(alloc, &message) {
        Ok(replies) => replies,
        Err(fault) => return Err(stop_of(fault)),
    };
    answer(alloc, link, replies.as_slice())?;
    Ok(true)
}
