// Bytes to the present peer.
ghost use Rattle.std.specs.Prelude.{◌≡◌, ◌<◌, IfSome, MatchResult};
ghost use Rattle.ld_io.specs.Causes.{HasCause};
ghost use Rattle.ld_framed.specs.Hearing.{Says, SaysPart};
ghost use Rattle.ld_framed.specs.Writes.{Writes, WritesPart};

use ld_io::Failed;
use ld_link::Link;

/// Writes all the bytes to the present peer. Where a call of the link failed, a part of them may be written, from the
/// front.
pub fn write_all<L: Link>(link: &mut L, bytes: &[u8]) -> Result<(), Failed>
    ensures written { IfSome (L.peers link.old) (λ old. MatchResult result (λ _. Says old (L.peers link.new) bytes.now) (λ _. SaysPart old (L.peers link.new) bytes.now)) }
    ensures did { MatchResult result (λ _. Writes (L.did link.old) (L.did link.new) bytes.now) (λ _. WritesPart (L.did link.old) (L.did link.new) bytes.now) }
    ensures cause { HasCause (L.faults link.old) (L.faults link.new) result }
{
    let mut done = 0;
    while done < bytes.len() {
        match link.write(&bytes[done..]) {
            Ok(count) => done += count,
            Err(failed) => return Err(failed),
        }
    }
    Ok(())
}
