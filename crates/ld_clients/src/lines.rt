// The lines of a reader's items.
ghost use Rattle.std.specs.Prelude.{◌≡◌, ◌≤◌, ◌++◌, ◌∷◌, [], length, IfOk, OnOk};
ghost use Rattle.ld_transcript.specs.declared.line.Line.TheVariants.{Gap};
ghost use Rattle.ld_machine.specs.Step.{message_lines_from};
ghost use Rattle.ld_clients.specs.Items.{given_line, given_lines, lines_given, unpacked_lines};

use ld_batch::{Messages, UnpackFault, unpack};
use ld_ids::{Name, NoMemory};
use ld_lsn::Lsn;
use ld_msg::Style;
use ld_reader::{Given, Item};
use ld_transcript::{GapKind, Line};
use std::alloc::Global;

/// Adds the lines of the items of a reader of this style, none of which passes its last number.
pub fn add_items(
    alloc: Global,
    style: Style,
    name: &Name,
    items: &[Given],
    lines: &mut Vec<Line>,
) -> Result<(), NoMemory>
    ensures { OnOk result (lines.new.items ≡ lines.old.items ++ given_lines style name.now items.now) }
{
    for given in items {
        add_item(alloc, style, name, given, lines)?;
    }
    Ok(())
}

/// Adds the lines of an item of a reader of this style.
fn add_item(
    alloc: Global,
    style: Style,
    name: &Name,
    given: &Given,
    lines: &mut Vec<Line>,
) -> Result<(), NoMemory>
    ensures { OnOk result (lines.new.items ≡ lines.old.items ++ lines_given style name.now given.now.0 given.now.1) }
{
    match style {
        Style::OfMessages => add_unpacked(alloc, name, given, lines),
        Style::EachCopy => add_line(alloc, name, given, lines),
        Style::OneCopy => add_line(alloc, name, given, lines),
    }
}

/// Adds the lines of an item, of a batch one for each message.
fn add_unpacked(
    alloc: Global,
    name: &Name,
    given: &Given,
    lines: &mut Vec<Line>,
) -> Result<(), NoMemory>
    ensures { OnOk result (lines.new.items ≡ lines.old.items ++ unpacked_lines name.now given.now.0 given.now.1) }
{
    let Item::Record(payload) = &given.item else {
        return add_line(alloc, name, given, lines);
    };
    match unpack(alloc, payload.bytes()) {
        Ok(messages) => add_messages(alloc, name, given.from, &messages, lines),
        Err(UnpackFault::BadBatch(_)) => add_line(alloc, name, given, lines),
        Err(UnpackFault::NoMemory) => Err(NoMemory),
    }
}

/// Adds a line for each message of a batch, which has at most 1,024.
fn add_messages(
    alloc: Global,
    name: &Name,
    number: Lsn,
    messages: &Messages,
    lines: &mut Vec<Line>,
) -> Result<(), NoMemory>
    requires { length messages.now ≤ 1024 }
    ensures { OnOk result (lines.new.items ≡ lines.old.items ++ message_lines_from name.now number 0 messages.now) }
{
    let mut index = 0;
    for message in messages.as_slice() {
        lines.push(Line::BatchMessage {
            name: name.copy(alloc)?,
            number,
            index,
            payload: message.copy(alloc)?,
        })?;
        index += 1;
    }
    Ok(())
}

/// Adds the line of an item.
fn add_line(
    alloc: Global,
    name: &Name,
    given: &Given,
    lines: &mut Vec<Line>,
) -> Result<(), NoMemory>
    ensures { OnOk result (lines.new.items ≡ lines.old.items ++ given_line name.now given.now.0 given.now.1 ∷ []) }
{
    let line = given_line(alloc, name, given)?;
    lines.push(line)?;
    Ok(())
}

/// The line of an item.
fn given_line(alloc: Global, name: &Name, given: &Given) -> Result<Line, NoMemory>
    ensures { IfOk result (λ line. line ≡ given_line name.now given.now.0 given.now.1) }
{
    let name = name.copy(alloc)?;
    let from = given.from;
    match &given.item {
        Item::Record(payload) => Ok(Line::Record {
            name,
            number: from,
            payload: payload.copy(alloc)?,
        }),
        Item::Trim(last) => Ok(gap(name, GapKind::Trim, from, *last)),
        Item::Hole => Ok(gap(name, GapKind::Hole, from, from)),
        Item::Bridge(last) => Ok(gap(name, GapKind::Bridge, from, *last)),
        Item::Loss => Ok(gap(name, GapKind::DataLoss, from, from)),
        Item::LossTo(last) => Ok(gap(name, GapKind::DataLoss, from, *last)),
    }
}

fn gap(name: Name, kind: GapKind, low: Lsn, high: Lsn) -> Line
    ensures { result ≡ Gap name kind low high }
{
    Line::Gap {
        name,
        kind,
        low,
        high,
    }
}
