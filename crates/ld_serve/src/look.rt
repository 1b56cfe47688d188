// A look at a crowd, and a read of one of its peers.
ghost use Rattle.std.specs.Prelude.{◌≡◌, ◌≤◌, ◌+◌, ℕ, List, length, None, Some, IfOk, IfErr, OnOk, MatchResult};
ghost use Rattle.ld_crowd.specs.Course.{Taken};
ghost use Rattle.ld_crowd.specs.Serving.{put, turns_of};
ghost use Rattle.ld_serve.specs.Stops.{LinkCounts};
ghost use Rattle.ld_serve.specs.Chats.{held_in};
ghost use Rattle.ld_serve.specs.Talking.{Given, IsServing, AreServed, IsLess, IsOver, IsNoTurn, IsBetweenStop, turns_by, turns_looked};

use crate::Stop;
use crate::chats::Chats;
use ld_crowd::{Crowd, Heard, Turn};
use ld_wire::Decoder;
use std::alloc::Global;

/// What came of a look at the crowd.
pub(crate) enum Seen {
    /// A peer was dismissed for its silence, which is a turn.
    Turn,
    /// It named somebody, and is to be asked again.
    More,
    /// The next peer is to be served.
    Serve,
    /// Nobody is left to wait for.
    Over,
}

/// What comes of it that the crowd named somebody, or nobody.
fn named(chats: &mut Chats, is_named: bool) -> Seen
    ensures same { chats.new.chats ≡ chats.old.chats }
    ensures turn { IsNoTurn result }
{
    if chats.looks_on(is_named) {
        return Seen::More;
    }
    Seen::Serve
}

/// Looks whose turn it is in the crowd: one that came is there from now on, one of whom there may be something to read
/// comes into the line, and one that was silent for too long is there no more. Where nobody is in the line it waits. The next
/// peer is to be served once it names nobody, or has named many.
pub(crate) fn look<C: Crowd>(alloc: Global, crowd: &mut C, chats: &mut Chats) -> Result<Seen, Stop>
    ensures serving { (ts : List (Taken Given)) → IsServing (C.did crowd.old) ts (held_in chats.old.chats) → MatchResult result (λ _. IsServing (C.did crowd.new) ts (held_in chats.new.chats)) (λ _. AreServed (C.did crowd.new) ts) }
    ensures turns { (ts : List (Taken Given)) → turns_of (C.did crowd.new) ts ≡ turns_of (C.did crowd.old) ts + turns_looked result }
    ensures asked { OnOk result (length (C.did crowd.new) ≡ length (C.did crowd.old) + 1) }
    ensures over { IfOk result (λ look. IsOver look (C.did crowd.new)) }
    ensures stops { IfErr result IsBetweenStop }
    ensures counts { MatchResult result (λ _. C.faults crowd.new ≡ C.faults crowd.old) (LinkCounts (C.faults crowd.old) (C.faults crowd.new)) }
{
    let may_wait = chats.is_idle();
    match crowd.turn(may_wait) {
        Ok(Turn::Came(peer)) => match chats.keep(peer, Decoder::new(alloc), false) {
            Ok(()) => Ok(named(chats, true)),
            Err(_) => Err(Stop::NoMemory),
        },
        Ok(Turn::Of(peer)) => match chats.queue(peer) {
            Ok(()) => Ok(named(chats, true)),
            Err(_) => Err(Stop::NoMemory),
        },
        Ok(Turn::Silent(peer)) => {
            chats.remove(peer);
            Ok(Seen::Turn)
        }
        Ok(Turn::Nobody) => {
            if may_wait {
                return Ok(Seen::Over);
            }
            Ok(named(chats, false))
        }
        Err(_) => Err(Stop::Link),
    }
}

/// Reads of a peer of whom less than a frame is held: one that has ended is let go, which is a turn.
pub(crate) fn hear<C: Crowd>(
    crowd: &mut C,
    chats: &mut Chats,
    peer: u64,
    decoder: Decoder,
    buf: &mut [u8],
) -> Result<u64, Stop>
    requires less { IsLess decoder.bytes }
    requires fine { decoder.fault ≡ None }
    requires gone { held_in chats.old.chats peer ≡ None }
    ensures len { length buf.new ≡ length buf.old }
    ensures serving { (ts : List (Taken Given)) → IsServing (C.did crowd.old) ts (put peer (Some decoder.bytes) (held_in chats.old.chats)) → MatchResult result (λ _. IsServing (C.did crowd.new) ts (held_in chats.new.chats)) (λ _. AreServed (C.did crowd.new) ts) }
    ensures turns { (ts : List (Taken Given)) → turns_of (C.did crowd.new) ts ≡ turns_of (C.did crowd.old) ts + turns_by result }
    ensures few { IfOk result (λ n. n ≤ 1) }
    ensures asked { length (C.did crowd.old) ≤ length (C.did crowd.new) }
    ensures stops { IfErr result IsBetweenStop }
    ensures counts { MatchResult result (λ _. C.faults crowd.new ≡ C.faults crowd.old) (LinkCounts (C.faults crowd.old) (C.faults crowd.new)) }
{
    let mut decoder = decoder;
    match crowd.read(peer, buf) {
        Ok(Heard::Some(count)) => {
            let Ok(()) = decoder.feed(&buf[..count]) else {
                return Err(Stop::NoMemory);
            };
            match chats.keep(peer, decoder, true) {
                Ok(()) => Ok(0),
                Err(_) => Err(Stop::NoMemory),
            }
        }
        Ok(Heard::Later) => match chats.keep(peer, decoder, false) {
            Ok(()) => Ok(0),
            Err(_) => Err(Stop::NoMemory),
        },
        Ok(Heard::End) => {
            crowd.finish(peer);
            Ok(1)
        }
        Err(_) => Err(Stop::Link),
    }
}
