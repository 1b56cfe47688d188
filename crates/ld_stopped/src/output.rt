// Bytes to a sink.
ghost use Rattle.std.specs.Prelude.{◌≡◌, ◌++◌, OnOk, OnErr, MatchResult};
ghost use Rattle.ld_io.specs.Causes.{HasCause};
ghost use Rattle.ld_mend.specs.Output.{WritesPart};
ghost use Rattle.ld_stopped.specs.Output.{Tells};
ghost use Rattle.ld_stopped.specs.Stops.{OutputCounts};

use crate::Stop;
use ld_io::{Failed, Sink};

/// Writes all the bytes. Where a write failed a part of them is written, from the front.
fn write_all<O: Sink>(out: &mut O, bytes: &[u8]) -> Result<(), Failed>
    ensures written { OnOk result (O.written out.new ≡ O.written out.old ++ bytes.now) }
    ensures part { OnErr result (WritesPart (O.written out.old) (O.written out.new) bytes.now) }
    ensures cause { HasCause (O.faults out.old) (O.faults out.new) result }
{
    let mut done = 0;
    while done < bytes.len() {
        match out.write(&bytes[done..]) {
            Ok(count) => done += count,
            Err(failed) => return Err(failed),
        }
    }
    Ok(())
}

/// Writes the text. All memory was taken before.
pub(crate) fn write<O: Sink>(out: &mut O, text: &[u8]) -> Result<(), Stop>
    ensures tells { Tells (O.written out.old) (O.written out.new) text.now result }
    ensures counts { MatchResult result (λ _. O.faults out.new ≡ O.faults out.old) (OutputCounts (O.faults out.old) (O.faults out.new)) }
{
    match write_all(out, text) {
        Ok(()) => Ok(()),
        Err(_) => Err(Stop::Write),
    }
}
