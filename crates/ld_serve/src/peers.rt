// Peers, one after the other.
ghost use Rattle.std.specs.Prelude.{◌≡◌, ℕ, List, Bool, None, Some, false, IfErr, OnOk, MatchResult, MatchBool};
ghost use Rattle.ld_past.specs.Events.{Event};
ghost use Rattle.ld_link.specs.Peers.{Peers};
ghost use Rattle.ld_node.specs.Known.{Known};
ghost use Rattle.ld_node.specs.Node.{id_of, known_of, disk_of, must_load, is_blank, Holds};
ghost use Rattle.ld_serve.specs.Course.{IsServed, IsStopped, Goes, WithPeer, BetweenPeers, NoMore};
ghost use Rattle.ld_msg.specs.declared.msg.Msg.{Msg as Said};
ghost use Rattle.ld_serve.specs.Heard.{first_given, after_first, Heard, HeardUntil};
ghost use Rattle.ld_serve.specs.Serving.{State, state_of, after, answers, IsAt, IsCut};
ghost use Rattle.ld_serve.specs.Stops.{IsLinkStop, IsServingStop, LinkCounts, DiskCounts};
ghost use Rattle.ld_serve.specs.Talking.{Given};
ghost use Rattle.ld_serve.specs.Told.{Serves, held_of, memory_of, TellsMeeting, IsTold, IsToldUntil};

use crate::Stop;
use crate::turn::turn;
use ld_disk::Disk;
use ld_link::Link;
use ld_node::Node;
use ld_wire::Decoder;
use std::alloc::Global;

/// Sees that a peer is present: the next one is taken where none is. False where there is none.
fn meet<L: Link>(
    alloc: Global,
    link: &mut L,
    decoder: &mut Decoder,
    is_there: bool,
) -> Result<bool, Stop>
    requires fine { decoder.old.fault ≡ None }
    ensures fine { decoder.new.fault ≡ None }
    ensures met { (id : ℕ) (known : Known) (start : Peers) (s : State) (state : State) (turns : ℕ)
        → Goes (after id known) (answers id known) is_there start s (L.peers link.old) decoder.old.bytes state turns
        → MatchResult result
        (λ there. MatchBool there (WithPeer (after id known) (answers id known) start s (L.peers link.new) decoder.new.bytes state turns) (NoMore (after id known) (answers id known) start s (L.peers link.new) state turns))
        (λ _. BetweenPeers (after id known) (answers id known) start s (L.peers link.new) state turns) }
    ensures met_heard { (start : Peers) (all : List (List Said)) (more : List (List Said)) (turns : ℕ)
        → Goes after_first first_given is_there start all (L.peers link.old) decoder.old.bytes more turns
        → MatchResult result
        (λ there. MatchBool there (WithPeer after_first first_given start all (L.peers link.new) decoder.new.bytes more turns) (NoMore after_first first_given start all (L.peers link.new) more turns))
        (λ _. BetweenPeers after_first first_given start all (L.peers link.new) more turns) }
    ensures told { (old : List Event) (taken : List Given) (turns : ℕ) → Serves old taken (L.did link.old) (held_of is_there decoder.old.bytes) turns → TellsMeeting old taken turns (L.did link.new) decoder.new.bytes result }
    ensures stops { IfErr result IsLinkStop }
    ensures counts { MatchResult result (λ _. L.faults link.new ≡ L.faults link.old) (LinkCounts (L.faults link.old) (L.faults link.new)) }
{
    if is_there {
        return Ok(true);
    }
    match link.next_peer() {
        Ok(true) => {
            *decoder = Decoder::new(alloc);
            Ok(true)
        }
        Ok(false) => Ok(false),
        Err(_) => Err(Stop::Link),
    }
}

/// Takes peers one after the other, and answers each of their frames to the present one. A turn is a frame that was
/// taken or a peer that ended; a frame for another node, or of a log that the node doesn't know, is a turn without an
/// answer. It ends after so many turns, whatever the present peer has left to say, or where there is no next peer.
///
/// It stops with `Link` where a call of the link failed, `BadFrame` where the bytes of the present peer begin no frame,
/// `Disk` where a call of the node's disk failed, a read of a payload too, when the node has to be loaded again,
/// `Full(Store)` where a step's record, or the segment that it needs, would make the store longer than 2^40 bytes,
/// `Damaged(Store, place)` where the disk ends before a payload that stands at that place does, which can't be where the
/// store holds what the disk tells, and `NoMemory`. What was done before stands: the frames taken before are answered, and
/// the last answers may be written in part.
pub fn serve_peers<D: Disk, L: Link>(
    alloc: Global,
    node: &mut Node<D>,
    link: &mut L,
    turns: u64,
) -> Result<(), Stop>
    requires formatted { is_blank node.old ≡ false }
    requires works { must_load node.old ≡ false }

    // The frames that were taken, in order over all peers, are decoded, and each has its answers. What was written to
    // each peer is the frames of the answers to its frames, in order, and nothing else. Each peer but the present one was
    // read to its end: its bytes are the frames that were taken, and then less than one.
    ensures heard { (start : Peers) → L.peers link.old ≡ Some start → OnOk result (Heard start (L.peers link.new) turns) }
    ensures heard_until { (start : Peers) → L.peers link.old ≡ Some start → IfErr result (HeardUntil start (L.peers link.new)) }

    // Where the store holds what the disk tells, each frame is one step of the node, and its answers are those of that step.
    ensures served { (start : Peers) → L.peers link.old ≡ Some start → Holds D.seen D.may_leave node.old
        → OnOk result (IsServed (after (id_of node.old) (known_of node.old)) (answers (id_of node.old) (known_of node.old)) start (state_of node.old) (L.peers link.new) (state_of node.new) turns) }

    // The same holds of the frames taken before it stopped, and where it stopped there is cause to.
    ensures stopped { (start : Peers) → L.peers link.old ≡ Some start → Holds D.seen D.may_leave node.old
        → IfErr result (λ stop. (last : State) × IsAt last stop node.new × IsStopped (after (id_of node.old) (known_of node.old)) (answers (id_of node.old) (known_of node.old))
        (IsCut (id_of node.old) (known_of node.old) (D.may_leave (disk_of node.new)) stop) start (state_of node.old) (L.peers link.new) last) }

    // The same of every link, as each tells its calls: each frame was read while no whole one was held, and the frames of its
    // answers were written, before the next read. Each peer but the present one was read to its end, when less than a frame
    // was left. Fewer turns are taken only where the last call says that there is no next peer. Over any disk, whatever bytes
    // it gives, the answers to each frame are those of a step from the index, but for the bytes of payloads, and the index is
    // then as after that step. Where the store holds what the disk tells, each frame is one step of the node.
    ensures told { MatchResult result
        (λ _. IsTold (id_of node.old) (known_of node.old) (Holds D.seen D.may_leave node.old) (L.did link.old) (L.did link.new) (state_of node.old) (state_of node.new) (memory_of node.old) (memory_of node.new) turns)
        (IsToldUntil (id_of node.old) (known_of node.old) (Holds D.seen D.may_leave node.old) (D.may_leave (disk_of node.new)) (L.did link.old) (L.did link.new) (state_of node.old) (state_of node.new) (memory_of node.old) (memory_of node.new) turns) }

    // After the turns the disk represents the node's plain state.
    ensures holds { Holds D.seen D.may_leave node.old → OnOk result (Holds D.seen D.may_leave node.new) }
    ensures rest { (id_of node.new ≡ id_of node.old) × (known_of node.new ≡ known_of node.old) × (is_blank node.new ≡ false) }
    ensures itself { D.identity (disk_of node.new) ≡ D.identity (disk_of node.old) }
    ensures works { OnOk result (must_load node.new ≡ false) }
    ensures stops { IfErr result (IsServingStop (Holds D.seen D.may_leave node.old)) }
    ensures link_counts { MatchResult result (λ _. L.faults link.new ≡ L.faults link.old) (LinkCounts (L.faults link.old) (L.faults link.new)) }
    ensures disk_counts { MatchResult result (λ _. D.faults (disk_of node.new) ≡ D.faults (disk_of node.old)) (DiskCounts (D.faults (disk_of node.old)) (D.faults (disk_of node.new))) }
{
    let mut buf = [0u8; 65536];
    let mut decoder = Decoder::new(alloc);
    let mut is_there = false;
    'turns: for _ in 0..turns {
        if !meet(alloc, link, &mut decoder, is_there)? {
            return Ok(());
        }
        is_there = turn(alloc, node, &mut decoder, link, &mut buf)?;
    }
    Ok(())
}
