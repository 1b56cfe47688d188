// Frames of the present peer.
ghost use Rattle.std.specs.Prelude.{◌≡◌, ◌<◌, List, ℕ, [], ◌∷◌, length, None, Some, false, IfSome, IfOk, IfErr, MatchResult, MatchBool};
ghost use Rattle.ld_msg.specs.Bounds.{IsMessage};
ghost use Rattle.ld_wire.specs.Judging.{judge};
ghost use Rattle.ld_wire.specs.Faults.{IsRefused};
ghost use Rattle.ld_wire.specs.Held.{kept_fault};
ghost use Rattle.ld_framed.specs.Hearing.{Hears, HearsNext, HearsSome, IsAtEnd};
ghost use Rattle.ld_link.specs.Calls.{read};
ghost use Rattle.ld_framed.specs.Reads.{ReadsOnce, ReadsAtMostOnce, ReadsNext, ReadsSome};
ghost use Rattle.ld_framed.specs.Reading.{IsUnread, CountsUnread, fault_of, fault_in};

use crate::Unread;
use ld_link::Link;
use ld_msg::Msg;
use ld_wire::{Decoder, WireFault};
use std::alloc::Global;

/// Reads a piece of the present peer's bytes, and says whether there was one: none is at its end.
fn fill<L: Link>(decoder: &mut Decoder, link: &mut L, buf: &mut [u8]) -> Result<bool, Unread>
    requires room { 0 < length buf.old }
    ensures len { length buf.new ≡ length buf.old }
    ensures more { IfOk result (λ some. MatchBool some (length decoder.old.bytes < length decoder.new.bytes) (decoder.new ≡ decoder.old)) }
    ensures fault { decoder.new.fault ≡ decoder.old.fault }
    ensures reads { MatchResult result
        (λ some. MatchBool some (ReadsOnce (L.did link.old) (L.did link.new) decoder.old.bytes decoder.new.bytes) (L.did link.new ≡ read [] ∷ L.did link.old))
        (λ _. ReadsAtMostOnce (L.did link.old) (L.did link.new) decoder.old.bytes) }
    ensures heard { IfSome (L.peers link.old) (λ old. MatchResult result
        (λ some. Hears old (L.peers link.new) decoder.old.bytes decoder.new.bytes × (some ≡ false → IsAtEnd (L.peers link.new)))
        (λ unread. HearsSome old (L.peers link.new) decoder.old.bytes (λ held. IsUnread held unread))) }
    ensures counts { MatchResult result (λ _. L.faults link.new ≡ L.faults link.old) (CountsUnread (L.faults link.old) (L.faults link.new)) }
    ensures cause { IfErr result (λ unread. (held : List ℕ) → IsUnread held unread) }
    ensures no_frame { IfErr result (λ unread. fault_of unread ≡ None) }
{
    let Ok(count) = link.read(buf) else {
        return Err(Unread::Link);
    };
    if count == 0 {
        return Ok(false);
    }
    match decoder.feed(&buf[..count]) {
        Ok(()) => Ok(true),
        Err(_) => Err(Unread::NoMemory),
    }
}

/// Why a frame wasn't taken.
fn unread_of(fault: WireFault) -> Unread
    ensures told { (bytes : List ℕ) → IsRefused (judge bytes) fault → IsUnread bytes result }
    ensures counts { (count : ℕ) → CountsUnread count count result }
    ensures kept { kept_fault None fault ≡ fault_of result }
{
    match fault {
        WireFault::NoMemory => Unread::NoMemory,
        WireFault::TooLong(size) => Unread::BadFrame(WireFault::TooLong(size)),
        WireFault::BadKind(kind) => Unread::BadFrame(WireFault::BadKind(kind)),
        WireFault::BadField(kind, place) => Unread::BadFrame(WireFault::BadField(kind, place)),
    }
}

/// Takes the next frame of the present peer; there is none at its end, whatever is held then.
///
/// It is refused with `BadFrame` where the bytes that are held begin no frame, as soon as that is seen, and the decoder
/// answers that fault for good; with `Link` where a call of the link failed; and with `NoMemory`. What was read stays
/// held then.
pub fn next_frame<L: Link>(
    alloc: Global,
    decoder: &mut Decoder,
    link: &mut L,
    buf: &mut [u8],
) -> Result<Option<Msg>, Unread>
    requires room { 0 < length buf.old }
    requires fine { decoder.old.fault ≡ None }
    ensures len { length buf.new ≡ length buf.old }
    ensures heard { IfSome (L.peers link.old) (λ old. MatchResult result
        (HearsNext old (L.peers link.new) decoder.old.bytes decoder.new)
        (λ unread. HearsSome old (L.peers link.new) decoder.old.bytes (λ held. IsUnread held unread))) }
    ensures waiting { MatchResult result
        (ReadsNext (L.did link.old) (L.did link.new) decoder.old.bytes decoder.new.bytes)
        (λ unread. ReadsSome (L.did link.old) (L.did link.new) decoder.old.bytes (λ held. IsUnread held unread)) }
    ensures cause { IfErr result (λ unread. (held : List ℕ) × IsUnread held unread) }
    ensures message { IfOk result (λ next. IfSome next IsMessage) }
    ensures fault { decoder.new.fault ≡ fault_in result }
    ensures counts { MatchResult result (λ _. L.faults link.new ≡ L.faults link.old) (CountsUnread (L.faults link.old) (L.faults link.new)) }
{
    'pieces: loop {
        match decoder.take(alloc) {
            Ok(Some(message)) => return Ok(Some(message)),
            Ok(None) => {}
            Err(fault) => return Err(unread_of(fault)),
        }
        if !fill(decoder, link, buf)? {
            return Ok(None);
        }
    }
}
