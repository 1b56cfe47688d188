// Bytes to a sink, and the lines of a transcript.
ghost use Rattle.std.specs.Prelude.{◌≡◌, ◌≤◌, IfOk, IfErr, MatchResult, Some};
ghost use Rattle.std.specs.Io.KnownBytes.{Appends};
ghost use Rattle.ld_io.specs.Causes.{HasCause};
ghost use Rattle.ld_transcript.specs.Text.{text};
ghost use Rattle.ld_rounds.specs.Output.{AppendsPart, WritesFault};

use crate::Ended;
use ld_ids::NoMemory;
use ld_io::{Failed, Sink};
use ld_transcript::{Line, write};
use std::alloc::Global;

/// Writes all the bytes.
pub fn write_all<O: Sink>(out: &mut O, bytes: &[u8]) -> Result<(), Failed>
    ensures written { MatchResult result (λ _. Appends (Some (O.written out.old)) (Some (O.written out.new)) bytes.now) (λ _. AppendsPart (Some (O.written out.old)) (Some (O.written out.new)) bytes.now) }
    ensures cause { HasCause (O.faults out.old) (O.faults out.new) result }
{
    let mut done = 0;
    while done < bytes.len() {
        match out.write(&bytes[done..]) {
            Ok(count) => done += count,
            Err(failed) => return Err(failed),
        }
    }
    Ok(())
}

/// The text of lines.
fn text_of(alloc: Global, lines: &[Line]) -> Result<Vec<u8>, NoMemory>
    ensures { IfOk result (λ bytes. bytes.items ≡ text lines.now) }
{
    let mut bytes = Vec::new(alloc);
    for line in lines {
        write(alloc, line, &mut bytes)?;
    }
    Ok(bytes)
}

/// Writes the text of lines. All memory is taken before the first byte is written. It ends with `Write` where a write
/// failed, when a part may be written from the front, and with `NoMemory`, when none is.
pub fn write_lines<O: Sink>(alloc: Global, lines: &[Line], out: &mut O) -> Result<(), Ended>
    ensures written { MatchResult result (λ _. Appends (Some (O.written out.old)) (Some (O.written out.new)) (text lines.now)) (λ _. AppendsPart (Some (O.written out.old)) (Some (O.written out.new)) (text lines.now)) }
    ensures cause { IfErr result (WritesFault (O.faults out.old) (O.faults out.new)) }
    ensures later { O.faults out.old ≤ O.faults out.new }
{
    let bytes = text_of(alloc, lines)?;
    match write_all(out, &bytes) {
        Ok(()) => Ok(()),
        Err(_) => Err(Ended::Write),
    }
}
