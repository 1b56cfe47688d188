// Frames of the present peer.
ghost use Rattle.std.specs.Prelude.{◌≡◌, ◌<◌, List, ℕ, length, None, IfSome, IfOk, IfErr, OnOk, MatchResult};
ghost use Rattle.ld_msg.specs.Bounds.{IsMessage};
ghost use Rattle.ld_framed.specs.Hearing.{HearsNext, HearsSome};
ghost use Rattle.ld_framed.specs.Reads.{ReadsNext, ReadsSome};
ghost use Rattle.ld_framed.specs.Reading as frames;
ghost use Rattle.ld_serve.specs.Stops.{IsUnread, LinkCounts};

use crate::Stop;
use ld_framed::Unread;
use ld_link::Link;
use ld_msg::Msg;
use ld_wire::Decoder;
use std::alloc::Global;

/// Why a frame wasn't taken.
fn stop_of(unread: Unread) -> Stop
    ensures told { (held : List ℕ) → frames.IsUnread held unread → IsUnread held result }
    ensures counts { (before : ℕ) (now : ℕ) → frames.CountsUnread before now unread → LinkCounts before now result }
{
    match unread {
        Unread::NoMemory => Stop::NoMemory,
        Unread::Link => Stop::Link,
        Unread::BadFrame(fault) => Stop::BadFrame(fault),
    }
}

/// Takes the next frame of the present peer; there is none at its end, whatever is held then.
///
/// It stops with `BadFrame` where the bytes that are held begin no frame, as soon as that is seen; with `Link` where a
/// call of the link failed; and with `NoMemory`.
pub(crate) fn next_frame<L: Link>(
    alloc: Global,
    decoder: &mut Decoder,
    link: &mut L,
    buf: &mut [u8],
) -> Result<Option<Msg>, Stop>
    requires room { 0 < length buf.old }
    requires fine { decoder.old.fault ≡ None }
    ensures len { length buf.new ≡ length buf.old }
    ensures heard { IfSome (L.peers link.old) (λ old. MatchResult result
        (HearsNext old (L.peers link.new) decoder.old.bytes decoder.new)
        (λ stop. HearsSome old (L.peers link.new) decoder.old.bytes (λ held. IsUnread held stop))) }
    ensures waiting { MatchResult result
        (ReadsNext (L.did link.old) (L.did link.new) decoder.old.bytes decoder.new.bytes)
        (λ stop. ReadsSome (L.did link.old) (L.did link.new) decoder.old.bytes (λ held. IsUnread held stop)) }
    ensures cause { IfErr result (λ stop. (held : List ℕ) × IsUnread held stop) }
    ensures message { IfOk result (λ next. IfSome next IsMessage) }
    ensures fault { OnOk result (decoder.new.fault ≡ None) }
    ensures counts { MatchResult result (λ _. L.faults link.new ≡ L.faults link.old) (LinkCounts (L.faults link.old) (L.faults link.new)) }
{
    match ld_framed::next_frame(alloc, decoder, link, buf) {
        Ok(next) => Ok(next),
        Err(unread) => Err(stop_of(unread)),
    }
}
