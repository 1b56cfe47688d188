// The lines that are written.
ghost use Rattle.std.specs.Prelude.{◌≡◌, ◌≤◌, ◌++◌, OnOk, OnErr, IfOk, IfErr};
ghost use Rattle.ld_mend.specs.Lines.{labelled, labelled_lsn, ticked_text, standing_text};
ghost use Rattle.ld_mend.specs.Output.{WritesPart};
ghost use Rattle.ld_mend.specs.Stops.{IsWriteStop};

use crate::Stop;
use crate::output::write_all;
use itoa::Buffer;
use ld_ids::{LogId, NoMemory, NodeId};
use ld_io::Sink;
use ld_lsn::Lsn;
use ld_node::Ticked;
use ld_transcript::Line;
use std::alloc::Global;

/// Adds a word and a number.
fn labelled(text: &mut Vec<u8>, label: &[u8], number: u32) -> Result<(), NoMemory>
    ensures { OnOk result (text.new.items ≡ text.old.items ++ labelled label.now number) }
{
    text.extend_from_slice(label)?;
    let mut buffer = Buffer::new();
    text.extend_from_slice(buffer.format(number).as_bytes())?;
    Ok(())
}

/// Adds a word and a log sequence number.
fn labelled_lsn(text: &mut Vec<u8>, label: &[u8], lsn: Lsn) -> Result<(), NoMemory>
    ensures { OnOk result (text.new.items ≡ text.old.items ++ labelled_lsn label.now lsn) }
{
    text.extend_from_slice(label)?;
    let mut bytes = [0u8; 22];
    let len = lsn.write_text(&mut bytes);
    text.extend_from_slice(&bytes[..len])?;
    Ok(())
}

/// The line of what a tick did for a log; none but where the node isn't lost for it any more.
fn ticked_line(alloc: Global, id: NodeId, log: LogId, ticked: &Ticked) -> Result<Vec<u8>, NoMemory>
    ensures { IfOk result (λ text. text.items ≡ ticked_text id log ticked.now) }
{
    let mut text = Vec::new(alloc);
    if let Ticked::Rebuilt = ticked {
        ld_transcript::write(alloc, &Line::NodeRebuilt { node: id, log }, &mut text)?;
    }
    Ok(text)
}

/// The line of how the node stands for a log: the lowest number that it lacks, where it is lost for it.
fn standing_line(alloc: Global, log: LogId, lacks: Option<Lsn>) -> Result<Vec<u8>, NoMemory>
    ensures { IfOk result (λ text. text.items ≡ standing_text log lacks) }
{
    let mut text = Vec::new(alloc);
    match lacks {
        Some(lsn) => {
            labelled(&mut text, b"lacks ", log.number())?;
            labelled_lsn(&mut text, b" ", lsn)?;
        }
        None => labelled(&mut text, b"mended ", log.number())?,
    }
    text.extend_from_slice(b"\n")?;
    Ok(text)
}

/// Writes the text. All memory was taken before.
fn write<O: Sink>(out: &mut O, text: &[u8]) -> Result<(), Stop>
    ensures written { OnOk result (O.written out.new ≡ O.written out.old ++ text.now) }
    ensures part { OnErr result (WritesPart (O.written out.old) (O.written out.new) text.now) }
    ensures cause { IfErr result (IsWriteStop (O.faults out.old) (O.faults out.new)) }
    ensures later { O.faults out.old ≤ O.faults out.new }
{
    match write_all(out, text) {
        Ok(()) => Ok(()),
        Err(_) => Err(Stop::Write),
    }
}

/// Writes the line of what a tick did for a log, where it has one. It stops with `Write` where a write failed, when a part may
/// be written from the front, and with `NoMemory`, when none is.
pub(crate) fn tell_ticked<O: Sink>(
    alloc: Global,
    id: NodeId,
    log: LogId,
    ticked: &Ticked,
    out: &mut O,
) -> Result<(), Stop>
    ensures written { OnOk result (O.written out.new ≡ O.written out.old ++ ticked_text id log ticked.now) }
    ensures part { OnErr result (WritesPart (O.written out.old) (O.written out.new) (ticked_text id log ticked.now)) }
    ensures cause { IfErr result (IsWriteStop (O.faults out.old) (O.faults out.new)) }
    ensures later { O.faults out.old ≤ O.faults out.new }
{
    let text = ticked_line(alloc, id, log, ticked)?;
    write(out, &text)
}

/// Writes the line of how the node stands for a log. It stops as `tell_ticked`.
pub(crate) fn tell_standing<O: Sink>(
    alloc: Global,
    log: LogId,
    lacks: Option<Lsn>,
    out: &mut O,
) -> Result<(), Stop>
    ensures written { OnOk result (O.written out.new ≡ O.written out.old ++ standing_text log lacks) }
    ensures part { OnErr result (WritesPart (O.written out.old) (O.written out.new) (standing_text log lacks)) }
    ensures cause { IfErr result (IsWriteStop (O.faults out.old) (O.faults out.new)) }
    ensures later { O.faults out.old ≤ O.faults out.new }
{
    let text = standing_line(alloc, log, lacks)?;
    write(out, &text)
}
