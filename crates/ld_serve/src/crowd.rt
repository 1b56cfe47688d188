// Many peers at once, a frame of each in turn.
ghost use Rattle.std.specs.Prelude.{◌≡◌, ◌≤◌, ◌<◌, ◌+◌, ◌++◌, [], ◌∷◌, ℕ, List, length, None, Some, false, true, IfOk, IfErr, IfSome, OnOk, OnErr, MatchResult};
ghost use Rattle.std.specs.Option.{unwrap_or};
ghost use Rattle.ld_msg.specs.Bounds.{IsMessage};
ghost use Rattle.ld_wire.specs.Frames.{frame_of};
ghost use Rattle.ld_wire.specs.Judging.{judge};
ghost use Rattle.ld_wire.specs.Faults.{IsRefused};
ghost use Rattle.ld_node.specs.Node.{id_of, known_of, disk_of, must_load, is_blank, Holds};
ghost use Rattle.ld_crowd.specs.Calls.{is_over, dismissed};
ghost use Rattle.ld_crowd.specs.Serving.{put};
ghost use Rattle.ld_serve.specs.Serving.{state_of, after, answers};
ghost use Rattle.ld_serve.specs.Stops.{IsNodeStop, DiskCounts, LinkCounts};
ghost use Rattle.ld_serve.specs.Chats.{held_in};
ghost use Rattle.ld_serve.specs.Talking.{BeginsNone};
ghost use Rattle.ld_serve.specs.Told.{memory_of};
ghost use Rattle.ld_serve.specs.Crowd.{IsCrowdStop, AreTaken, Advances, Halts, IsHeardAll, IsHeardUntil, IsServedAll, IsServedUntil};

use crate::Stop;
use crate::chats::Chats;
use crate::group::serve_group;
use crate::look::{Seen, hear, look};
use ld_crowd::Crowd;
use ld_disk::Disk;
use ld_node::Node;
use ld_wire::{Decoder, WireFault};
use std::alloc::Global;

/// Dismisses a peer of whose bytes this is wrong, that they begin no frame, which is a turn; or there was no memory to see
/// whether they do.
fn refuse<C: Crowd>(crowd: &mut C, peer: u64, fault: WireFault) -> Result<u64, Stop>
    ensures off { IfOk result (λ n. (n ≡ 1) × (C.did crowd.new ≡ dismissed peer ∷ C.did crowd.old) × ((bytes : List ℕ) → IsRefused (judge bytes) fault → BeginsNone bytes)) }
    ensures few { IfOk result (λ n. n ≤ 1) }
    ensures stops { IfErr result (λ stop. (stop ≡ Stop.NoMemory) × (C.did crowd.new ≡ C.did crowd.old)) }
    ensures faults { C.faults crowd.new ≡ C.faults crowd.old }
{
    match fault {
        WireFault::NoMemory => Err(Stop::NoMemory),
        _ => {
            crowd.dismiss(peer);
            Ok(1)
        }
    }
}

/// Serves a peer of whom that is held which the decoder holds: a frame of it is handled, with those of the peers in the line
/// as a group, at most so many, each of which is a turn; and else it is read. One whose bytes begin no frame is dismissed,
/// which is a turn. It says how many turns that was.
fn serve_peer<D: Disk, C: Crowd>(
    alloc: Global,
    node: &mut Node<D>,
    crowd: &mut C,
    chats: &mut Chats,
    peer: u64,
    decoder: Decoder,
    buf: &mut [u8],
    most: u64,
) -> Result<u64, Stop>
    requires fine { decoder.fault ≡ None }
    requires gone { held_in chats.old.chats peer ≡ None }
    requires some { 0 < most }
    requires formatted { is_blank node.old ≡ false }
    requires works { must_load node.old ≡ false }
    ensures len { length buf.new ≡ length buf.old }
    ensures on { IfOk result (Advances (after (id_of node.old) (known_of node.old)) (answers (id_of node.old) (known_of node.old)) (Holds D.seen D.may_leave node.old)
        (C.did crowd.old) (C.did crowd.new) (put peer (Some decoder.bytes) (held_in chats.old.chats)) (held_in chats.new.chats) (state_of node.old) (state_of node.new) (AreTaken (id_of node.old) (known_of node.old) (memory_of node.old) (memory_of node.new))) }
    ensures few { IfOk result (λ n. n ≤ most) }
    ensures off { IfErr result (Halts (id_of node.old) (known_of node.old) (Holds D.seen D.may_leave node.old) (D.may_leave (disk_of node.new))
        (C.did crowd.old) (C.did crowd.new) (put peer (Some decoder.bytes) (held_in chats.old.chats)) (state_of node.old) (state_of node.new) (memory_of node.old) most) }
    ensures asked { length (C.did crowd.old) ≤ length (C.did crowd.new) }
    ensures rest { (id_of node.new ≡ id_of node.old) × (known_of node.new ≡ known_of node.old) × (is_blank node.new ≡ false) }
    ensures itself { D.identity (disk_of node.new) ≡ D.identity (disk_of node.old) }
    ensures works { OnOk result (must_load node.new ≡ false) }
    ensures holds { Holds D.seen D.may_leave node.old → OnOk result (Holds D.seen D.may_leave node.new) }
    ensures stops { IfErr result (IsCrowdStop (Holds D.seen D.may_leave node.old)) }
    ensures crowd_counts { MatchResult result (λ _. C.faults crowd.new ≡ C.faults crowd.old) (LinkCounts (C.faults crowd.old) (C.faults crowd.new)) }
    ensures disk_counts { MatchResult result (λ _. D.faults (disk_of node.new) ≡ D.faults (disk_of node.old)) (DiskCounts (D.faults (disk_of node.old)) (D.faults (disk_of node.new))) }
{
    let mut decoder = decoder;
    match decoder.take(alloc) {
        Ok(Some(message)) => serve_group(alloc, node, crowd, chats, peer, decoder, message, most),
        Ok(None) => hear(crowd, chats, peer, decoder, buf),
        Err(fault) => refuse(crowd, peer, fault),
    }
}

/// A peer leaves the line, with what is held of it, until it has a turn. That is none.
fn set_aside(chats: &mut Chats, peer: u64, decoder: Decoder) -> Result<u64, Stop>
    requires fine { decoder.fault ≡ None }
    ensures kept { IfOk result (λ n. (n ≡ 0) × ((q : ℕ) → held_in chats.new.chats q ≡ put peer (Some decoder.bytes) (held_in chats.old.chats) q)) }
    ensures stops { IfErr result (λ stop. stop ≡ Stop.NoMemory) }
{
    match chats.keep(peer, decoder, false) {
        Ok(()) => Ok(0),
        Err(_) => Err(Stop::NoMemory),
    }
}

/// Serves the next peer, in at most so many turns. One that doesn't take its answers leaves the line until it does. It says how
/// many turns that was.
fn serve_next<D: Disk, C: Crowd>(
    alloc: Global,
    node: &mut Node<D>,
    crowd: &mut C,
    chats: &mut Chats,
    buf: &mut [u8],
    most: u64,
) -> Result<u64, Stop>
    requires some { 0 < most }
    requires formatted { is_blank node.old ≡ false }
    requires works { must_load node.old ≡ false }
    ensures len { length buf.new ≡ length buf.old }
    ensures on { IfOk result (Advances (after (id_of node.old) (known_of node.old)) (answers (id_of node.old) (known_of node.old)) (Holds D.seen D.may_leave node.old)
        (C.did crowd.old) (C.did crowd.new) (held_in chats.old.chats) (held_in chats.new.chats) (state_of node.old) (state_of node.new) (AreTaken (id_of node.old) (known_of node.old) (memory_of node.old) (memory_of node.new))) }
    ensures few { IfOk result (λ n. n ≤ most) }
    ensures off { IfErr result (Halts (id_of node.old) (known_of node.old) (Holds D.seen D.may_leave node.old) (D.may_leave (disk_of node.new))
        (C.did crowd.old) (C.did crowd.new) (held_in chats.old.chats) (state_of node.old) (state_of node.new) (memory_of node.old) most) }
    ensures asked { length (C.did crowd.old) ≤ length (C.did crowd.new) }
    ensures rest { (id_of node.new ≡ id_of node.old) × (known_of node.new ≡ known_of node.old) × (is_blank node.new ≡ false) }
    ensures itself { D.identity (disk_of node.new) ≡ D.identity (disk_of node.old) }
    ensures works { OnOk result (must_load node.new ≡ false) }
    ensures holds { Holds D.seen D.may_leave node.old → OnOk result (Holds D.seen D.may_leave node.new) }
    ensures stops { IfErr result (IsCrowdStop (Holds D.seen D.may_leave node.old)) }
    ensures crowd_counts { MatchResult result (λ _. C.faults crowd.new ≡ C.faults crowd.old) (LinkCounts (C.faults crowd.old) (C.faults crowd.new)) }
    ensures disk_counts { MatchResult result (λ _. D.faults (disk_of node.new) ≡ D.faults (disk_of node.old)) (DiskCounts (D.faults (disk_of node.old)) (D.faults (disk_of node.new))) }
{
    let Some((peer, decoder)) = chats.next() else {
        return Ok(0);
    };
    if crowd.is_full(peer) {
        return set_aside(chats, peer, decoder);
    }
    serve_peer(alloc, node, crowd, chats, peer, decoder, buf, most)
}

/// Looks at the crowd, and serves the next peer where it has nobody more to name, in at most so many turns. It says how many
/// turns that was, and none where the crowd is over.
fn go<D: Disk, C: Crowd>(
    alloc: Global,
    node: &mut Node<D>,
    crowd: &mut C,
    chats: &mut Chats,
    buf: &mut [u8],
    most: u64,
) -> Result<Option<u64>, Stop>
    requires some { 0 < most }
    requires formatted { is_blank node.old ≡ false }
    requires works { must_load node.old ≡ false }
    ensures len { length buf.new ≡ length buf.old }
    ensures on { IfOk result (λ o. Advances (after (id_of node.old) (known_of node.old)) (answers (id_of node.old) (known_of node.old)) (Holds D.seen D.may_leave node.old)
        (C.did crowd.old) (C.did crowd.new) (held_in chats.old.chats) (held_in chats.new.chats) (state_of node.old) (state_of node.new) (AreTaken (id_of node.old) (known_of node.old) (memory_of node.old) (memory_of node.new)) (unwrap_or o 0)) }
    ensures few { IfOk result (λ o. IfSome o (λ n. n ≤ most)) }
    ensures over { IfOk result (λ o. o ≡ None → is_over (C.did crowd.new) ≡ true) }
    ensures off { IfErr result (Halts (id_of node.old) (known_of node.old) (Holds D.seen D.may_leave node.old) (D.may_leave (disk_of node.new))
        (C.did crowd.old) (C.did crowd.new) (held_in chats.old.chats) (state_of node.old) (state_of node.new) (memory_of node.old) most) }
    ensures asked { OnOk result (length (C.did crowd.old) + 1 ≤ length (C.did crowd.new)) }
    ensures rest { (id_of node.new ≡ id_of node.old) × (known_of node.new ≡ known_of node.old) × (is_blank node.new ≡ false) }
    ensures itself { D.identity (disk_of node.new) ≡ D.identity (disk_of node.old) }
    ensures works { OnOk result (must_load node.new ≡ false) }
    ensures holds { Holds D.seen D.may_leave node.old → OnOk result (Holds D.seen D.may_leave node.new) }
    ensures stops { IfErr result (IsCrowdStop (Holds D.seen D.may_leave node.old)) }
    ensures crowd_counts { MatchResult result (λ _. C.faults crowd.new ≡ C.faults crowd.old) (LinkCounts (C.faults crowd.old) (C.faults crowd.new)) }
    ensures disk_counts { MatchResult result (λ _. D.faults (disk_of node.new) ≡ D.faults (disk_of node.old)) (DiskCounts (D.faults (disk_of node.old)) (D.faults (disk_of node.new))) }
{
    match look(alloc, crowd, chats)? {
        Seen::Turn => Ok(Some(1)),
        Seen::Over => Ok(None),
        Seen::More => Ok(Some(0)),
        Seen::Serve => {
            let count = serve_next(alloc, node, crowd, chats, buf, most)?;
            Ok(Some(count))
        }
    }
}

/// Serves a crowd, of whose peers several are there at once. Each frame that is taken, whoever sent it, is one step of the
/// node, and its answers are said to the peer that sent it, in the order of its frames. Frames are taken in groups, in turn,
/// one of each peer of whom a whole one is held: what they lead the node to keep is made durable together, and then they are
/// answered. A group ends where no whole frame is held, at 128 frames, or once its answers have 256 KB, and before it begins
/// the crowd is asked for whoever has something. A peer whose bytes begin no
/// frame is dismissed alone, and so is one that is silent for too long, by the crowd; one that ended is let go once each
/// frame of it is answered. A turn is a frame that was taken, or a peer that was let go or dismissed. It ends after so
/// many turns, whatever the peers have left to say, or where nobody is left to wait for, or once it has looked at the crowd
/// 2^64-1 times. Once a group is answered the crowd is told which epochs it closed, and which segments of the store were
/// begun for it, as far as there is memory to keep that until then.
///
/// It stops with `Link` where a call of the crowd failed, `Disk` where a call of the node's disk failed, a read of a
/// payload too, when the node has to be loaded again, `Full(Store)` where a step's record, or the segment that it needs,
/// would make the store longer than 2^40 bytes, `Damaged(Store, place)` where the disk ends before a payload that stands at
/// that place does, which can't be where the store holds what the disk tells, and `NoMemory`. What was done before stands:
/// the frames taken before are answered, each whole, but for those of the last group: at `Disk` none of them is, and at
/// `NoMemory` the last ones may not be.
pub fn serve_crowd<D: Disk, C: Crowd>(
    alloc: Global,
    node: &mut Node<D>,
    crowd: &mut C,
    turns: u64,
) -> Result<(), Stop>
    requires formatted { is_blank node.old ≡ false }
    requires works { must_load node.old ≡ false }
    requires nobody { C.did crowd.old ≡ [] }

    // Of each peer what was read is the frames that were taken and then what is held of it, and what was said to it are
    // the answers to these, in order, and nothing else. It was let go only at its end, when less than a frame was held of
    // it, and dismissed only for bytes that begin no frame: but for silence, which the crowd alone tells. Over any disk,
    // whatever bytes it gives, the answers to each frame are those of a step from the index, but for the bytes of payloads,
    // and the index is then as after that step.
    ensures heard { OnOk result (IsHeardAll (id_of node.old) (known_of node.old) (memory_of node.old) (C.did crowd.new) turns) }
    ensures heard_until { OnErr result (IsHeardUntil (id_of node.old) (known_of node.old) (memory_of node.old) (C.did crowd.new) turns) }

    // Where the store holds what the disk tells, each frame is one step of the node, and its answers are those of that step.
    ensures served { Holds D.seen D.may_leave node.old
        → OnOk result (IsServedAll (after (id_of node.old) (known_of node.old)) (answers (id_of node.old) (known_of node.old)) (C.did crowd.new) (state_of node.old) (state_of node.new) turns) }

    // The same holds of the frames taken before it stopped, and where it stopped there is cause to.
    ensures stopped { Holds D.seen D.may_leave node.old
        → IfErr result (λ stop. IsServedUntil (id_of node.old) (known_of node.old) (D.may_leave (disk_of node.new)) stop (C.did crowd.new) (state_of node.old) (state_of node.new) turns) }

    // After the turns the disk stands for the node's plain state.
    ensures holds { Holds D.seen D.may_leave node.old → OnOk result (Holds D.seen D.may_leave node.new) }
    ensures rest { (id_of node.new ≡ id_of node.old) × (known_of node.new ≡ known_of node.old) × (is_blank node.new ≡ false) }
    ensures itself { D.identity (disk_of node.new) ≡ D.identity (disk_of node.old) }
    ensures works { OnOk result (must_load node.new ≡ false) }
    ensures stops { IfErr result (IsCrowdStop (Holds D.seen D.may_leave node.old)) }
    ensures crowd_counts { MatchResult result (λ _. C.faults crowd.new ≡ C.faults crowd.old) (LinkCounts (C.faults crowd.old) (C.faults crowd.new)) }
    ensures disk_counts { MatchResult result (λ _. D.faults (disk_of node.new) ≡ D.faults (disk_of node.old)) (DiskCounts (D.faults (disk_of node.old)) (D.faults (disk_of node.new))) }
{
    let mut buf = [0u8; 65536];
    let mut chats = Chats::new(alloc);
    let mut taken = 0u64;
    'looks: for _ in 0..u64::MAX {
        if taken >= turns {
            return Ok(());
        }
        match go(alloc, node, crowd, &mut chats, &mut buf, turns - taken)? {
            Some(count) => taken += count,
            None => return Ok(()),
        }
    }
    Ok(())
}
