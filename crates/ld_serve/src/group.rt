// Frames of peers that are taken together: each is staged, and they are answered once all are durable.
ghost use Rattle.std.specs.Prelude.{◌≡◌, ◌≤◌, ◌<◌, ◌+◌, ◌++◌, ◌⊎◌, [], ◌∷◌, ℕ, List, length, take, Option, None, Some, true, false, IfOk, IfErr, OnOk, OnErr, MatchResult};
ghost use Rattle.ld_io.specs.Causes.{Rose};
ghost use Rattle.ld_op.specs.Plain.{Plain};
ghost use Rattle.ld_msg.specs.Bounds.{IsMessage};
ghost use Rattle.ld_wire.specs.Frames.{frame_of};
ghost use Rattle.ld_store.specs.Ops.{StandsForEither};
ghost use Rattle.ld_node.specs.Node.{id_of, known_of, disk_of, layout_of, released_of, plain_of, must_load, is_blank, Holds, HoldsOr};
ghost use Rattle.ld_crowd.specs.Serving.{put};
ghost use Rattle.ld_serve.specs.Serving.{State, state_of, after, answers};
ghost use Rattle.ld_serve.specs.Stops.{IsNodeStop, DiskCounts};
ghost use Rattle.ld_serve.specs.Chats.{held_in};
ghost use Rattle.ld_serve.specs.Told.{memory_of, IsIndexStep};
ghost use Rattle.ld_serve.specs.Crowd.{AreTaken, Advances, Halts};
ghost use Rattle.ld_serve.specs.Group.{waiting_in, told, Stages, IsKeptOut, IsUnanswered, Tries, IsLost, Ends, IsUnsettled, turns_off};

use crate::Stop;
use crate::answer::frames;
use crate::chats::Chats;
use crate::news::{Standing, add_news, note_all};
use crate::turn::stop_of;
use ld_crowd::{Crowd, News};
use ld_disk::Disk;
use ld_ids::NoMemory;
use ld_io::NoMemory as Failure;
use ld_msg::Msg;
use ld_node::{Node, NodeFault};
use ld_wire::{Decoder, WireFault};
use std::alloc::Global;

/// The bytes of answers with which a group is large: 256 KB.
const LARGE: usize = 262144;

/// The frames with which a group is large.
const MANY: usize = 128;

/// The frames of the answers to a message of this peer.
#[derive(Drop)]
pub(crate) struct Answer {
    pub(crate) peer: u64,
    pub(crate) bytes: Vec<u8>,
}

/// The answers of a group that wait until it is durable, in the order of its frames, and how many bytes they are; and the news
/// that wait for it.
#[derive(Drop)]
pub(crate) struct Group {
    pub(crate) answers: Vec<Answer>,
    size: usize,
    news: Vec<News>,
}

/// Why no further frame is taken.
#[derive(Drop)]
pub(crate) enum Ending {
    /// There is none in the line, or the group is large.
    More,
    /// The bytes of this peer begin no frame.
    Off(u64),
    /// The node stops.
    Stops(Stop),
}

impl Group {
    /// Nothing waits.
    fn new(alloc: Global) -> Group
        ensures { waiting_in result.answers.items ≡ [] }
    {
        Group {
            answers: Vec::new(alloc),
            size: 0,
            news: Vec::new(alloc),
        }
    }

    /// How many answers wait.
    #[tactic(auto, using(crate::proofs::Groups::waiting_length))]
    fn count(&self) -> u64
        ensures { result ≡ length (waiting_in self.now.answers.items) }
    {
        self.answers.len() as u64
    }

    /// Whether so many frames are answered, or their answers have so many bytes, that no further frame is taken.
    fn is_large(&self) -> bool {
        self.answers.len() >= MANY || self.size >= LARGE
    }

    /// The answers to a message of this peer wait behind the others.
    fn push(&mut self, peer: u64, bytes: Vec<u8>) -> Result<(), NoMemory>
        ensures ok { OnOk result (waiting_in self.new.answers.items ≡ waiting_in self.old.answers.items ++ (peer, bytes.items) ∷ []) }
        ensures err { IfErr result (λ _. waiting_in self.new.answers.items ≡ waiting_in self.old.answers.items) }
    {
        self.size = self.size.saturating_add(bytes.len());
        self.answers.push(Answer { peer, bytes })?;
        Ok(())
    }
}

/// Stages a message of this peer; its answers wait behind the others, and its news too.
///
/// It stops as the node refuses the message, and with `NoMemory`, when it is staged and its answers don't wait.
fn stage_message<D: Disk>(
    alloc: Global,
    node: &mut Node<D>,
    group: &mut Group,
    peer: u64,
    message: &Msg,
) -> Result<(), Stop>
    requires message { IsMessage message.now }
    requires formatted { is_blank node.old ≡ false }
    requires works { must_load node.old ≡ false }
    ensures staged { OnOk result (Stages (after (id_of node.old) (known_of node.old)) (answers (id_of node.old) (known_of node.old)) (waiting_in group.old.answers.items) (waiting_in group.new.answers.items) peer message.now
        (state_of node.old) (state_of node.new) (λ given. IsIndexStep (id_of node.old) (known_of node.old) (memory_of node.old) (message.now, given) (memory_of node.new)) (HoldsOr D.seen D.may_leave node.old) (HoldsOr D.seen D.may_leave node.new)) }
    ensures same { IfErr result (λ _. waiting_in group.new.answers.items ≡ waiting_in group.old.answers.items) }
    ensures off { IfErr result (λ stop. (stop ≡ Stop.Disk)
        ⊎ (IsKeptOut (id_of node.old) (known_of node.old) (layout_of node.new) message.now (state_of node.old) (state_of node.new) (memory_of node.old) (memory_of node.new) (HoldsOr D.seen D.may_leave node.old) (HoldsOr D.seen D.may_leave node.new) stop
        ⊎ IsUnanswered (id_of node.old) (known_of node.old) message.now (state_of node.old) (state_of node.new) (HoldsOr D.seen D.may_leave node.old) (HoldsOr D.seen D.may_leave node.new) stop)) }
    ensures leaves { (p : Plain) (bytes : List ℕ) → HoldsOr D.seen D.may_leave node.old p → D.may_leave (disk_of node.new) bytes → IfErr result (λ stop. stop ≡ Stop.Disk → StandsForEither p (plain_of node.old) bytes) }
    ensures rest { (id_of node.new ≡ id_of node.old) × (known_of node.new ≡ known_of node.old) × (is_blank node.new ≡ false) }
    ensures itself { D.identity (disk_of node.new) ≡ D.identity (disk_of node.old) }
    ensures works { MatchResult result (λ _. must_load node.new ≡ false) (λ stop. (stop ≡ Stop.Disk) ⊎ (must_load node.new ≡ false)) }
    ensures disk_counts { MatchResult result (λ _. D.faults (disk_of node.new) ≡ D.faults (disk_of node.old)) (DiskCounts (D.faults (disk_of node.old)) (D.faults (disk_of node.new))) }
{
    let before = Standing::of(node, message);
    let replies = match node.stage_msg(alloc, message) {
        Ok(replies) => replies,
        Err(fault) => return Err(stop_of(fault)),
    };
    let now = Standing::of(node, message);
    add_news(&mut group.news, before, now, message);
    let Ok(bytes) = frames(alloc, replies.as_slice()) else {
        return Err(Stop::NoMemory);
    };
    match group.push(peer, bytes) {
        Ok(()) => Ok(()),
        Err(_) => Err(Stop::NoMemory),
    }
}

/// Stages a message whose frame was taken of this peer, of whom that is held which the decoder holds, and puts it behind
/// the others in the line.
///
/// It stops with `Disk` alone.
fn stage<D: Disk>(
    alloc: Global,
    node: &mut Node<D>,
    chats: &mut Chats,
    group: &mut Group,
    peer: u64,
    decoder: Decoder,
    message: Msg,
) -> Result<Ending, Stop>
    requires message { IsMessage message }
    requires fine { decoder.fault ≡ None }
    requires formatted { is_blank node.old ≡ false }
    requires works { must_load node.old ≡ false }
    ensures tries { IfOk result (Tries (id_of node.old) (known_of node.old) (waiting_in group.old.answers.items) (waiting_in group.new.answers.items) (put peer (Some (frame_of message ++ decoder.bytes)) (held_in chats.old.chats)) (held_in chats.new.chats)
        (state_of node.old) (state_of node.new) (memory_of node.old) (memory_of node.new) (layout_of node.new) (HoldsOr D.seen D.may_leave node.old) (HoldsOr D.seen D.may_leave node.new)) }
    ensures leaves { (p : Plain) (bytes : List ℕ) → HoldsOr D.seen D.may_leave node.old p → D.may_leave (disk_of node.new) bytes → OnErr result (StandsForEither p (plain_of node.old) bytes) }
    ensures few { IfOk result (λ ending. length (waiting_in group.new.answers.items) + turns_off ending ≤ length (waiting_in group.old.answers.items) + 1) }
    ensures stops { IfErr result (λ stop. stop ≡ Stop.Disk) }
    ensures rest { (id_of node.new ≡ id_of node.old) × (known_of node.new ≡ known_of node.old) × (is_blank node.new ≡ false) }
    ensures itself { D.identity (disk_of node.new) ≡ D.identity (disk_of node.old) }
    ensures works { OnOk result (must_load node.new ≡ false) }
    ensures disk_counts { MatchResult result (λ _. D.faults (disk_of node.new) ≡ D.faults (disk_of node.old)) (λ _. Rose (D.faults (disk_of node.old)) (D.faults (disk_of node.new))) }
{
    match stage_message(alloc, node, group, peer, &message) {
        Ok(()) => match chats.keep(peer, decoder, true) {
            Ok(()) => Ok(Ending::More),
            Err(_) => Ok(Ending::Stops(Stop::NoMemory)),
        },
        Err(stop) => match stop {
            Stop::Disk => Err(Stop::Disk),
            _ => Ok(Ending::Stops(stop)),
        },
    }
}

/// Takes a frame of this peer, of whom that is held which the decoder holds, and stages its message. One of whom less than
/// a frame is held leaves the line, and is to be read.
///
/// It stops with `Disk` alone.
fn take<D: Disk>(
    alloc: Global,
    node: &mut Node<D>,
    chats: &mut Chats,
    group: &mut Group,
    peer: u64,
    decoder: Decoder,
) -> Result<Ending, Stop>
    requires fine { decoder.fault ≡ None }
    requires gone { held_in chats.old.chats peer ≡ None }
    requires formatted { is_blank node.old ≡ false }
    requires works { must_load node.old ≡ false }
    ensures tries { IfOk result (Tries (id_of node.old) (known_of node.old) (waiting_in group.old.answers.items) (waiting_in group.new.answers.items) (put peer (Some decoder.bytes) (held_in chats.old.chats)) (held_in chats.new.chats)
        (state_of node.old) (state_of node.new) (memory_of node.old) (memory_of node.new) (layout_of node.new) (HoldsOr D.seen D.may_leave node.old) (HoldsOr D.seen D.may_leave node.new)) }
    ensures leaves { (p : Plain) (bytes : List ℕ) → HoldsOr D.seen D.may_leave node.old p → D.may_leave (disk_of node.new) bytes → OnErr result (StandsForEither p (plain_of node.old) bytes) }
    ensures few { IfOk result (λ ending. length (waiting_in group.new.answers.items) + turns_off ending ≤ length (waiting_in group.old.answers.items) + 1) }
    ensures stops { IfErr result (λ stop. stop ≡ Stop.Disk) }
    ensures rest { (id_of node.new ≡ id_of node.old) × (known_of node.new ≡ known_of node.old) × (is_blank node.new ≡ false) }
    ensures itself { D.identity (disk_of node.new) ≡ D.identity (disk_of node.old) }
    ensures works { OnOk result (must_load node.new ≡ false) }
    ensures disk_counts { MatchResult result (λ _. D.faults (disk_of node.new) ≡ D.faults (disk_of node.old)) (λ _. Rose (D.faults (disk_of node.old)) (D.faults (disk_of node.new))) }
{
    let mut decoder = decoder;
    match decoder.take(alloc) {
        Ok(Some(message)) => stage(alloc, node, chats, group, peer, decoder, message),
        Ok(None) => match chats.keep_dry(peer, decoder) {
            Ok(()) => Ok(Ending::More),
            Err(_) => Ok(Ending::Stops(Stop::NoMemory)),
        },
        Err(WireFault::NoMemory) => Ok(Ending::Stops(Stop::NoMemory)),
        Err(_) => Ok(Ending::Off(peer)),
    }
}

/// Takes a frame of the first peer in the line, where somebody is in it, and stages its message. A peer that doesn't take
/// its answers leaves the line until it does.
///
/// It stops with `Disk` alone.
fn take_next<D: Disk, C: Crowd>(
    alloc: Global,
    node: &mut Node<D>,
    crowd: &C,
    chats: &mut Chats,
    group: &mut Group,
) -> Result<Ending, Stop>
    requires formatted { is_blank node.old ≡ false }
    requires works { must_load node.old ≡ false }
    ensures tries { IfOk result (Tries (id_of node.old) (known_of node.old) (waiting_in group.old.answers.items) (waiting_in group.new.answers.items) (held_in chats.old.chats) (held_in chats.new.chats)
        (state_of node.old) (state_of node.new) (memory_of node.old) (memory_of node.new) (layout_of node.new) (HoldsOr D.seen D.may_leave node.old) (HoldsOr D.seen D.may_leave node.new)) }
    ensures leaves { (p : Plain) (bytes : List ℕ) → HoldsOr D.seen D.may_leave node.old p → D.may_leave (disk_of node.new) bytes → OnErr result (StandsForEither p (plain_of node.old) bytes) }
    ensures few { IfOk result (λ ending. length (waiting_in group.new.answers.items) + turns_off ending ≤ length (waiting_in group.old.answers.items) + 1) }
    ensures stops { IfErr result (λ stop. stop ≡ Stop.Disk) }
    ensures rest { (id_of node.new ≡ id_of node.old) × (known_of node.new ≡ known_of node.old) × (is_blank node.new ≡ false) }
    ensures itself { D.identity (disk_of node.new) ≡ D.identity (disk_of node.old) }
    ensures works { OnOk result (must_load node.new ≡ false) }
    ensures disk_counts { MatchResult result (λ _. D.faults (disk_of node.new) ≡ D.faults (disk_of node.old)) (λ _. Rose (D.faults (disk_of node.old)) (D.faults (disk_of node.new))) }
{
    let Some((peer, decoder)) = chats.next_in_line() else {
        return Ok(Ending::More);
    };
    if crowd.is_full(peer) {
        return match chats.keep(peer, decoder, false) {
            Ok(()) => Ok(Ending::More),
            Err(_) => Ok(Ending::Stops(Stop::NoMemory)),
        };
    }
    take(alloc, node, chats, group, peer, decoder)
}

/// Stages a message whose frame was taken of this peer, and those of further frames of the peers in the line, in turn: at
/// most so many in all. It ends before where nobody is left in the line, where the answers are many, or where a peer's bytes
/// begin no frame.
///
/// It stops with `Disk` alone.
fn take_group<D: Disk, C: Crowd>(
    alloc: Global,
    node: &mut Node<D>,
    crowd: &C,
    chats: &mut Chats,
    group: &mut Group,
    peer: u64,
    decoder: Decoder,
    message: Msg,
    most: u64,
) -> Result<Ending, Stop>
    requires message { IsMessage message }
    requires fine { decoder.fault ≡ None }
    requires first { waiting_in group.old.answers.items ≡ [] }
    requires some { 0 < most }
    requires formatted { is_blank node.old ≡ false }
    requires works { must_load node.old ≡ false }
    ensures gathered { MatchResult result
        (Ends (id_of node.old) (known_of node.old) (Holds D.seen D.may_leave node.old) (waiting_in group.new.answers.items) (put peer (Some (frame_of message ++ decoder.bytes)) (held_in chats.old.chats)) (held_in chats.new.chats)
        (state_of node.old) (state_of node.new) (memory_of node.old) (memory_of node.new) (layout_of node.new) (HoldsOr D.seen D.may_leave node.new))
        (λ _. IsLost (id_of node.old) (known_of node.old) (Holds D.seen D.may_leave node.old) (put peer (Some (frame_of message ++ decoder.bytes)) (held_in chats.old.chats)) (state_of node.old) (D.may_leave (disk_of node.new))) }
    ensures few { IfOk result (λ ending. length (waiting_in group.new.answers.items) + turns_off ending ≤ most) }
    ensures stops { IfErr result (λ stop. stop ≡ Stop.Disk) }
    ensures rest { (id_of node.new ≡ id_of node.old) × (known_of node.new ≡ known_of node.old) × (is_blank node.new ≡ false) }
    ensures itself { D.identity (disk_of node.new) ≡ D.identity (disk_of node.old) }
    ensures works { OnOk result (must_load node.new ≡ false) }
    ensures disk_counts { MatchResult result (λ _. D.faults (disk_of node.new) ≡ D.faults (disk_of node.old)) (λ _. Rose (D.faults (disk_of node.old)) (D.faults (disk_of node.new))) }
{
    match stage(alloc, node, chats, group, peer, decoder, message)? {
        Ending::More => {}
        ending => return Ok(ending),
    }
    'frames: for _ in 1..most {
        if group.is_large() || chats.is_dry() {
            return Ok(Ending::More);
        }
        match take_next(alloc, node, crowd, chats, group)? {
            Ending::More => {}
            ending => return Ok(ending),
        }
    }
    Ok(Ending::More)
}

/// Says the answers of a group, in order. Without memory the first ones are said.
fn say_all<C: Crowd>(crowd: &mut C, answers: &[Answer]) -> Result<(), Failure>
    ensures said { OnOk result (C.did crowd.new ≡ told (waiting_in answers.now) (C.did crowd.old)) }
    ensures part { IfErr result (λ _. (n : ℕ) × (C.did crowd.new ≡ told (take n (waiting_in answers.now)) (C.did crowd.old))) }
    ensures faults { C.faults crowd.new ≡ C.faults crowd.old }
{
    for answer in answers {
        crowd.say(answer.peer, &answer.bytes)?;
    }
    Ok(())
}

/// Makes what was staged durable, then says the answers, in order, and tells the news.
///
/// It stops with `Disk` where a call of the disk failed, when nothing is said, and with `NoMemory`. No news are told then.
fn settle<D: Disk, C: Crowd>(
    node: &mut Node<D>,
    crowd: &mut C,
    answers: &[Answer],
    news: &[News],
) -> Result<(), Stop>
    requires works { must_load node.old ≡ false }
    ensures said { OnOk result (C.did crowd.new ≡ told (waiting_in answers.now) (C.did crowd.old)) }
    ensures durable { (p : Plain) → HoldsOr D.seen D.may_leave node.old p → OnOk result (Holds D.seen D.may_leave node.new × (state_of node.new ≡ state_of node.old)) }
    ensures off { IfErr result (IsUnsettled (waiting_in answers.now) (C.did crowd.old) (C.did crowd.new) (state_of node.old) (state_of node.new) (HoldsOr D.seen D.may_leave node.old) (D.may_leave (disk_of node.new))) }
    ensures memory { (layout_of node.new ≡ layout_of node.old) × (released_of node.new ≡ released_of node.old) }
    ensures rest { (id_of node.new ≡ id_of node.old) × (known_of node.new ≡ known_of node.old) × (is_blank node.new ≡ is_blank node.old) }
    ensures itself { D.identity (disk_of node.new) ≡ D.identity (disk_of node.old) }
    ensures works { OnOk result (must_load node.new ≡ false) }
    ensures faults { C.faults crowd.new ≡ C.faults crowd.old }
    ensures disk_counts { MatchResult result (λ _. D.faults (disk_of node.new) ≡ D.faults (disk_of node.old)) (DiskCounts (D.faults (disk_of node.old)) (D.faults (disk_of node.new))) }
{
    match node.commit() {
        Ok(()) => {}
        Err(fault) => match fault {
            NodeFault::Disk => return Err(Stop::Disk),
            _ => return Err(Stop::NoMemory),
        },
    }
    match say_all(crowd, answers) {
        Ok(()) => {
            note_all(crowd, news);
            Ok(())
        }
        Err(_) => Err(Stop::NoMemory),
    }
}

/// Handles a message whose frame was taken of this peer, of whom that is held which the decoder holds, and those of further
/// frames that are held of the peers in the line, at most so many in all, as a group: each is one step of the node, and their
/// answers are said, to the peer that sent the frame, once all are durable, and then their news are told. A peer whose bytes
/// begin no frame ends the group and is dismissed. It says how many turns that was.
///
/// It stops as the node refuses a message, when what was staged before is made durable and answered, and with `NoMemory`;
/// and with `Disk`, when nothing of the group is answered.
pub(crate) fn serve_group<D: Disk, C: Crowd>(
    alloc: Global,
    node: &mut Node<D>,
    crowd: &mut C,
    chats: &mut Chats,
    peer: u64,
    decoder: Decoder,
    message: Msg,
    most: u64,
) -> Result<u64, Stop>
    requires message { IsMessage message }
    requires fine { decoder.fault ≡ None }
    requires some { 0 < most }
    requires formatted { is_blank node.old ≡ false }
    requires works { must_load node.old ≡ false }
    ensures on { IfOk result (Advances (after (id_of node.old) (known_of node.old)) (answers (id_of node.old) (known_of node.old)) (Holds D.seen D.may_leave node.old)
        (C.did crowd.old) (C.did crowd.new) (put peer (Some (frame_of message ++ decoder.bytes)) (held_in chats.old.chats)) (held_in chats.new.chats) (state_of node.old) (state_of node.new) (AreTaken (id_of node.old) (known_of node.old) (memory_of node.old) (memory_of node.new))) }
    ensures off { IfErr result (Halts (id_of node.old) (known_of node.old) (Holds D.seen D.may_leave node.old) (D.may_leave (disk_of node.new))
        (C.did crowd.old) (C.did crowd.new) (put peer (Some (frame_of message ++ decoder.bytes)) (held_in chats.old.chats)) (state_of node.old) (state_of node.new) (memory_of node.old) most) }
    ensures few { IfOk result (λ count. count ≤ most) }
    ensures asked { length (C.did crowd.old) ≤ length (C.did crowd.new) }
    ensures faults { C.faults crowd.new ≡ C.faults crowd.old }
    ensures rest { (id_of node.new ≡ id_of node.old) × (known_of node.new ≡ known_of node.old) × (is_blank node.new ≡ false) }
    ensures itself { D.identity (disk_of node.new) ≡ D.identity (disk_of node.old) }
    ensures works { OnOk result (must_load node.new ≡ false) }
    ensures holds { Holds D.seen D.may_leave node.old → OnOk result (Holds D.seen D.may_leave node.new) }
    ensures stops { IfErr result (IsNodeStop (Holds D.seen D.may_leave node.old)) }
    ensures disk_counts { MatchResult result (λ _. D.faults (disk_of node.new) ≡ D.faults (disk_of node.old)) (DiskCounts (D.faults (disk_of node.old)) (D.faults (disk_of node.new))) }
{
    let mut group = Group::new(alloc);
    let ending = take_group(
        alloc, node, crowd, chats, &mut group, peer, decoder, message, most,
    )?;
    settle(node, crowd, &group.answers, &group.news)?;
    let count = group.count();
    match ending {
        Ending::More => Ok(count),
        Ending::Off(peer) => {
            crowd.dismiss(peer);
            Ok(count + 1)
        }
        Ending::Stops(stop) => Err(stop),
    }
}
