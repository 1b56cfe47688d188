// The lines of what a store holds. Each is added at the end of the text.
ghost use Rattle.std.specs.Prelude.{◌≡◌, ◌++◌, OnOk, IfOk};
ghost use Rattle.ld_op.specs.Plain.{log_of};
ghost use Rattle.ld_mend.specs.Lines.{labelled, labelled_lsn};
ghost use Rattle.ld_stopped.specs.Shown.{entries_told, lost_epoch, filled_epoch, lacking, told_of, field, lsn_field, node_line, node_object, lacks_text, lacks_field, log_line, log_object, node_text, log_text, logs_text, shown_text};

use itoa::Buffer;
use ld_config::Config;
use ld_ids::{LogId, NoMemory, NodeId, Spec};
use ld_lsn::Lsn;
use ld_op::Plain;
use std::alloc::Global;

/// Adds a word.
fn word(text: &mut Vec<u8>, word: &[u8]) -> Result<(), NoMemory>
    ensures { OnOk result (text.new.items ≡ text.old.items ++ word.now) }
{
    text.extend_from_slice(word)?;
    Ok(())
}

/// Adds a word and a number.
fn labelled(text: &mut Vec<u8>, label: &[u8], number: u64) -> Result<(), NoMemory>
    ensures { OnOk result (text.new.items ≡ text.old.items ++ labelled label.now number) }
{
    text.extend_from_slice(label)?;
    let mut buffer = Buffer::new();
    text.extend_from_slice(buffer.format(number).as_bytes())?;
    Ok(())
}

/// Adds a word and a log sequence number.
fn labelled_lsn(text: &mut Vec<u8>, label: &[u8], lsn: Lsn) -> Result<(), NoMemory>
    ensures { OnOk result (text.new.items ≡ text.old.items ++ labelled_lsn label.now lsn) }
{
    text.extend_from_slice(label)?;
    let mut bytes = [0u8; 22];
    let len = lsn.write_text(&mut bytes);
    text.extend_from_slice(&bytes[..len])?;
    Ok(())
}

/// Adds a field of an object behind another one.
#[tactic(auto, unfolding(crate::specs::Shown::field))]
fn field(text: &mut Vec<u8>, name: &[u8], number: u64) -> Result<(), NoMemory>
    ensures { OnOk result (text.new.items ≡ text.old.items ++ field name.now number) }
{
    word(text, b",\"")?;
    word(text, name)?;
    labelled(text, b"\":", number)
}

/// The same with a log sequence number.
#[tactic(auto, unfolding(crate::specs::Shown::lsn_field))]
fn lsn_field(text: &mut Vec<u8>, name: &[u8], lsn: Lsn) -> Result<(), NoMemory>
    ensures { OnOk result (text.new.items ≡ text.old.items ++ lsn_field name.now lsn) }
{
    word(text, b",\"")?;
    word(text, name)?;
    labelled_lsn(text, b"\":\"", lsn)?;
    word(text, b"\"")
}

/// The epoch up to which a log is lost, 0 where it isn't.
fn lost_epoch(index: &Plain, log: LogId) -> u32
    ensures { result ≡ lost_epoch (log_of index.now.state log) }
{
    if index.is_lost(log) {
        index.lost_to(log)
    } else {
        0
    }
}

/// The epoch up to which a log was lost and is filled again, 0 where there is none.
fn filled_epoch(index: &Plain, log: LogId) -> u32
    ensures { result ≡ filled_epoch (log_of index.now.state log) }
{
    if index.is_lost(log) {
        0
    } else {
        index.lost_to(log)
    }
}

/// The lowest number that is missing of a log that is lost.
fn lacking(index: &Plain, log: LogId) -> Option<Lsn>
    ensures { result ≡ lacking (log_of index.now.state log) }
{
    if index.is_lost(log) {
        index.first_missing(log)
    } else {
        None
    }
}

/// The line of a node: its generation, and how many entries it has.
#[tactic(auto, unfolding(crate::specs::Shown::node_line))]
fn node_line(text: &mut Vec<u8>, id: NodeId, generation: u32, entries: u64) -> Result<(), NoMemory>
    ensures { OnOk result (text.new.items ≡ text.old.items ++ node_line id generation entries) }
{
    labelled(text, b"node ", u64::from(id.number()))?;
    labelled(text, b" generation ", u64::from(generation))?;
    labelled(text, b" entries ", entries)?;
    word(text, b"\n")
}

/// The same as an object.
#[tactic(auto, unfolding(crate::specs::Shown::node_object))]
fn node_object(
    text: &mut Vec<u8>,
    id: NodeId,
    generation: u32,
    entries: u64,
) -> Result<(), NoMemory>
    ensures { OnOk result (text.new.items ≡ text.old.items ++ node_object id generation entries) }
{
    labelled(text, b"{\"node\":", u64::from(id.number()))?;
    field(text, b"generation", u64::from(generation))?;
    field(text, b"entries", entries)?;
    word(text, b"}\n")
}

/// The lowest number that is missing, where there is one.
#[tactic(auto, unfolding(crate::specs::Shown::lacks_text))]
fn lacks_text(text: &mut Vec<u8>, lacks: Option<Lsn>) -> Result<(), NoMemory>
    ensures { OnOk result (text.new.items ≡ text.old.items ++ lacks_text lacks) }
{
    match lacks {
        Some(lsn) => labelled_lsn(text, b" lacks ", lsn),
        None => Ok(()),
    }
}

/// The same as a field.
#[tactic(auto, unfolding(crate::specs::Shown::lacks_field))]
fn lacks_field(text: &mut Vec<u8>, lacks: Option<Lsn>) -> Result<(), NoMemory>
    ensures { OnOk result (text.new.items ≡ text.old.items ++ lacks_field lacks) }
{
    match lacks {
        Some(lsn) => lsn_field(text, b"lacks", lsn),
        None => Ok(()),
    }
}

/// The line of a log.
#[tactic(auto, unfolding(crate::specs::Shown::log_line))]
fn log_line(text: &mut Vec<u8>, index: &Plain, log: LogId) -> Result<(), NoMemory>
    ensures { OnOk result (text.new.items ≡ text.old.items ++ log_line log (told_of (log_of index.now.state log))) }
{
    labelled(text, b"log ", u64::from(log.number()))?;
    labelled(text, b" seal ", u64::from(index.sealed(log)))?;
    labelled_lsn(text, b" trim ", index.trim(log))?;
    labelled(text, b" open ", index.lowest_unclean(log))?;
    labelled(text, b" lost ", u64::from(lost_epoch(index, log)))?;
    labelled(text, b" filled ", u64::from(filled_epoch(index, log)))?;
    lacks_text(text, lacking(index, log))?;
    word(text, b"\n")
}

/// The same as an object.
#[tactic(auto, unfolding(crate::specs::Shown::log_object))]
fn log_object(text: &mut Vec<u8>, index: &Plain, log: LogId) -> Result<(), NoMemory>
    ensures { OnOk result (text.new.items ≡ text.old.items ++ log_object log (told_of (log_of index.now.state log))) }
{
    labelled(text, b"{\"log\":", u64::from(log.number()))?;
    field(text, b"seal", u64::from(index.sealed(log)))?;
    lsn_field(text, b"trim", index.trim(log))?;
    field(text, b"open", index.lowest_unclean(log))?;
    field(text, b"lost", u64::from(lost_epoch(index, log)))?;
    field(text, b"filled", u64::from(filled_epoch(index, log)))?;
    lacks_field(text, lacking(index, log))?;
    word(text, b"}\n")
}

/// What is told of the node.
fn node_text(text: &mut Vec<u8>, json: bool, id: NodeId, index: &Plain) -> Result<(), NoMemory>
    ensures { OnOk result (text.new.items ≡ text.old.items ++ node_text json id index.now.state) }
{
    let generation = index.generation();
    let entries = index.entry_count();
    if json {
        node_object(text, id, generation, entries)
    } else {
        node_line(text, id, generation, entries)
    }
}

/// What is told of a log.
fn log_text(text: &mut Vec<u8>, json: bool, index: &Plain, log: LogId) -> Result<(), NoMemory>
    ensures { OnOk result (text.new.items ≡ text.old.items ++ log_text json index.now.state log) }
{
    if json {
        log_object(text, index, log)
    } else {
        log_line(text, index, log)
    }
}

/// What is told of each of these logs.
fn logs_text(text: &mut Vec<u8>, json: bool, index: &Plain, logs: &[Spec]) -> Result<(), NoMemory>
    ensures { OnOk result (text.new.items ≡ text.old.items ++ logs_text json index.now.state logs.now) }
{
    'logs: for spec in logs {
        log_text(text, json, index, spec.log)?;
    }
    Ok(())
}

/// The text of what the store with this index holds.
pub(crate) fn shown_text(
    alloc: Global,
    json: bool,
    id: NodeId,
    index: &Plain,
    config: &Config,
) -> Result<Vec<u8>, NoMemory>
    ensures { IfOk result (λ text. text.items ≡ shown_text json id index.now.state config.now.logs) }
{
    let mut text = Vec::new(alloc);
    node_text(&mut text, json, id, index)?;
    logs_text(&mut text, json, index, config.logs.as_slice())?;
    Ok(text)
}
