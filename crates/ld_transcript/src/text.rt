// Writes one line.
ghost use Rattle.std.specs.Prelude.{◌≡◌, ◌++◌, OnOk, OnErr};
ghost use Rattle.ld_transcript.specs.Text.{line_text};

use crate::line::Line;
use crate::parts::word;
use crate::shapes::{
    batch_line, gap_line, message_line, name_line, name_lsn_line, name_number_line, node_line,
    node_lost_line, node_number_line, node_replaced_line, record_line, set_line,
};
use ld_ids::NoMemory;
use std::alloc::Global;

/// Adds the text of the line at the end of the bytes, with the byte 10 that ends it. Without memory
/// nothing is added.
pub fn write(alloc: Global, line: &Line, out: &mut Vec<u8>) -> Result<(), NoMemory>
    ensures ok { OnOk result (out.new.items ≡ out.old.items ++ line_text line.now) }
    ensures err { OnErr result (out.new.items ≡ out.old.items) }
{
    let mut text = Vec::new(alloc);
    add(alloc, line, &mut text)?;
    out.extend_from_slice(&text)?;
    Ok(())
}

/// Adds the text of the line, with the byte 10 that ends it. Without memory a part of it may be
/// there.
#[tactic(auto, unfolding(crate::specs::Text::line_text))]
pub fn add(alloc: Global, line: &Line, out: &mut Vec<u8>) -> Result<(), NoMemory>
    ensures { OnOk result (out.new.items ≡ out.old.items ++ line_text line.now) }
{
    match line {
        Line::NodeFormatted { node, generation } => node_number_line(
            out,
            *node,
            b" formatted ",
            *generation,
        ),
        Line::NodeLost { node, log, epoch } => node_lost_line(out, *node, *log, *epoch),
        Line::NodeUp { node } => node_line(out, *node, b" up"),
        Line::NodeDown { node } => node_line(out, *node, b" down"),
        Line::NodeWiped { node } => node_line(out, *node, b" wiped"),
        Line::NodeFailed { node } => node_line(out, *node, b" failed"),
        Line::NodeFull { node } => node_line(out, *node, b" full"),
        Line::NodeRebuilt { node, log } => node_number_line(out, *node, b" rebuilt ", log.number()),
        Line::NodeReplaced {
            node,
            log,
            other,
            count,
        } => node_replaced_line(out, *node, *log, *other, *count),
        Line::NodeRefusedSwapLimit { node } => node_line(out, *node, b" refused swaplimit"),
        Line::NodeRefusedRegister { node } => node_line(out, *node, b" refused register"),
        Line::NodeRefusedGenLimit { node } => node_line(out, *node, b" refused genlimit"),
        Line::Set {
            log,
            r,
            extras,
            set,
        } => set_line(out, *log, *r, *extras, set),
        Line::Active { name, epoch } => name_number_line(
            out,
            b"active ",
            name,
            b" ",
            u64::from(*epoch),
        ),
        Line::Appended { name, number } => name_lsn_line(out, b"appended ", name, b" ", *number),
        Line::RefusedLong { name, bytes } => name_number_line(
            out,
            b"refused ",
            name,
            b" long ",
            *bytes,
        ),
        Line::RefusedPreempted { name, by } => name_number_line(
            out,
            b"refused ",
            name,
            b" preempted ",
            u64::from(*by),
        ),
        Line::RefusedEpochFull { name } => name_line(out, b"refused ", name, b" epochfull"),
        Line::RefusedWindowFull { name } => name_line(out, b"refused ", name, b" windowfull"),
        Line::RefusedPast { name, released } => name_lsn_line(
            out,
            b"refused ",
            name,
            b" past ",
            *released,
        ),
        Line::RefusedRegister { name } => name_line(out, b"refused ", name, b" register"),
        Line::RefusedEpochLimit { name } => name_line(out, b"refused ", name, b" epochlimit"),
        Line::RefusedRange { name } => name_line(out, b"refused ", name, b" range"),
        Line::RefusedFull { name } => name_line(out, b"refused ", name, b" full"),
        Line::Acked { name, number } => name_lsn_line(out, b"acked ", name, b" ", *number),
        Line::Clean { name, end } => name_lsn_line(out, b"clean ", name, b" ", *end),
        Line::Trimmed { name, point } => name_lsn_line(out, b"trimmed ", name, b" ", *point),
        Line::Released { name, number } => name_lsn_line(out, b"released ", name, b" ", *number),
        Line::Record {
            name,
            number,
            payload,
        } => record_line(alloc, out, name, *number, payload),
        Line::BatchMessage {
            name,
            number,
            index,
            payload,
        } => batch_line(alloc, out, name, *number, *index, payload),
        Line::Gap {
            name,
            kind,
            low,
            high,
        } => gap_line(out, name, *kind, *low, *high),
        Line::Message {
            message,
            from,
            to,
            kind,
            number,
        } => message_line(out, *message, from, to, *kind, *number),
        Line::Nothing => word(out, b"none\n"),
    }
}
