// Answers to the present peer.
ghost use Rattle.std.specs.Prelude.{◌≡◌, IfSome, IfOk, IfErr, MatchResult};
ghost use Rattle.ld_wire.specs.Streams.{frames_of, AreMessages};
ghost use Rattle.ld_framed.specs.Hearing.{Says, SaysPart};
ghost use Rattle.ld_framed.specs.Writes.{Writes, WritesPart};
ghost use Rattle.ld_serve.specs.Stops.{IsUnsent, LinkCounts};

use crate::Stop;
use ld_framed::write_all;
use ld_ids::NoMemory;
use ld_link::Link;
use ld_msg::Msg;
use ld_wire::encode;
use std::alloc::Global;

/// The frames of messages, one after the other.
pub(crate) fn frames(alloc: Global, messages: &[Msg]) -> Result<Vec<u8>, NoMemory>
    requires { AreMessages messages.now }
    ensures { IfOk result (λ bytes. bytes.items ≡ frames_of messages.now) }
{
    let mut bytes = Vec::new(alloc);
    for message in messages {
        bytes.extend_from_slice(encode(alloc, message)?.bytes())?;
    }
    Ok(bytes)
}

/// Writes the frames of answers to the present peer. All memory is taken before the first byte is written.
///
/// It stops with `Link` where a call of the link failed, when a part of the bytes may be written, and with `NoMemory`,
/// when none is.
pub(crate) fn answer<L: Link>(alloc: Global, link: &mut L, messages: &[Msg]) -> Result<(), Stop>
    requires { AreMessages messages.now }
    ensures written { IfSome (L.peers link.old) (λ old. MatchResult result (λ _. Says old (L.peers link.new) (frames_of messages.now)) (λ _. SaysPart old (L.peers link.new) (frames_of messages.now))) }
    ensures did { MatchResult result (λ _. Writes (L.did link.old) (L.did link.new) (frames_of messages.now)) (λ _. WritesPart (L.did link.old) (L.did link.new) (frames_of messages.now)) }
    ensures cause { IfErr result IsUnsent }
    ensures counts { MatchResult result (λ _. L.faults link.new ≡ L.faults link.old) (LinkCounts (L.faults link.old) (L.faults link.new)) }
{
    let Ok(bytes) = frames(alloc, messages) else {
        return Err(Stop::NoMemory);
    };
    match write_all(link, &bytes) {
        Ok(()) => Ok(()),
        Err(_) => Err(Stop::Link),
    }
}
