// The bytes of an index: what a node's plain state takes, with the place and the length of each payload.
ghost use Rattle.std.specs.Prelude.{◌≡◌, ◌+◌, ◌++◌, ◌∷◌, [], ℕ, List, Bool, length, OnOk};
ghost use Rattle.ld_fields.specs.Fields.{Got};
ghost use Rattle.ld_op.specs.Plain.{Plain as State};
ghost use Rattle.byteorder.specs.Endian.{big_bytes};
ghost use Rattle.ld_table.specs.Words.{numbers_from};
ghost use Rattle.ld_fields.specs.Items.{summary_bytes, flag};
ghost use Rattle.ld_op.specs.Places.{filled};
ghost use Rattle.ld_op.specs.Pointed.{seen_what};
ghost use Rattle.ld_op.specs.Room.{there_of};
ghost use Rattle.ld_op.specs.Indexed.{first_place, what_based, entry_based, entries_bytes_based, summaries_based, lngs_based, state_based, tables_based, logs_bytes_based, index_bytes, read_index, IsBased};

use crate::Plain;
use crate::entries::EntryMap;
use crate::known_good::KnownGood;
use crate::log::LogState;
use crate::logs::LogMap;
use crate::pointed::{Held, Place, Pointed};
use crate::sizes::{count_entries, count_lngs, count_logs, count_summaries};
use crate::summaries::SummaryMap;
use ld_fields::{put_flag, put_number, put_summary, put_u8, put_u16, put_u32};
use ld_ids::NoMemory;
use ld_lsn::Lsn;
use ld_msg::Summary;
use std::collections::BTreeMap;

impl Plain {
    /// Writes the bytes of the index behind those that are there. Without memory a part of them may be written.
    #[tactic(auto, unfolding(crate::specs::Indexed::index_bytes))]
    pub fn encode_index(&self, out: &mut Vec<u8>) -> Result<(), NoMemory>
        ensures { OnOk result (out.new.items ≡ out.old.items ++ index_bytes self.now.state) }
    {
        put_u32(out, self.generation())?;
        put_logs(out, self.logs())
    }
}

/// The bytes of an index are read as that index, whatever stands before and behind them.
pub fn bases_are_read()
    ensures { (p : State) (older : Bool) (front rest : List ℕ) → IsBased older p → read_index (front ++ (index_bytes p ++ rest)) older (length front) ≡ Got p (length front + length (index_bytes p)) }
{}

/// Writes a count of two bytes, and the logs that are there.
fn put_logs(out: &mut Vec<u8>, logs: &LogMap) -> Result<(), NoMemory>
    ensures { OnOk result (out.new.items ≡ out.old.items ++ (big_bytes 2 (length (there_of logs.now)) ++ logs_bytes_based (there_of logs.now))) }
{
    let places = logs.all();
    put_short_count(out, count_logs(places))?;
    put_each_log(out, places)
}

/// Writes the lowest two bytes of a count.
fn put_short_count(out: &mut Vec<u8>, count: u64) -> Result<(), NoMemory>
    ensures { OnOk result (out.new.items ≡ out.old.items ++ big_bytes 2 count) }
{
    put_u16(out, (count % 0x1_0000) as u16)
}

/// Writes the lowest four bytes of a count.
fn put_count(out: &mut Vec<u8>, count: u64) -> Result<(), NoMemory>
    ensures { OnOk result (out.new.items ≡ out.old.items ++ big_bytes 4 count) }
{
    put_u32(out, (count % 0x1_0000_0000) as u32)
}

/// Writes the logs that are there.
fn put_each_log(out: &mut Vec<u8>, places: &BTreeMap<u32, LogState>) -> Result<(), NoMemory>
    ensures { OnOk result (out.new.items ≡ out.old.items ++ logs_bytes_based (there_of places.now.entries)) }
{
    'logs: for (log, state) in places {
        put_log_there(out, *log, state)?;
    }
    Ok(())
}

/// Writes a log, where it is there.
fn put_log_there(out: &mut Vec<u8>, log: u32, state: &LogState) -> Result<(), NoMemory>
    ensures { OnOk result (out.new.items ≡ out.old.items ++ logs_bytes_based (there_of ((log, state.now) ∷ []))) }
{
    if state.is_there() {
        put_one_log(out, log, state)
    } else {
        Ok(())
    }
}

/// Writes a log.
fn put_one_log(out: &mut Vec<u8>, log: u32, state: &LogState) -> Result<(), NoMemory>
    ensures { OnOk result (out.new.items ≡ out.old.items ++ (state_based log state.now.log ++ tables_based state.now.log)) }
{
    put_state(out, log, state)?;
    put_tables(out, state)
}

/// Writes a log's number, the greatest ballot seen, the trim, and up to which epoch it is or was lost.
fn put_state(out: &mut Vec<u8>, log: u32, state: &LogState) -> Result<(), NoMemory>
    ensures { OnOk result (out.new.items ≡ out.old.items ++ state_based log state.now.log) }
{
    put_u32(out, log)?;
    put_u32(out, state.sealed())?;
    put_number(out, state.trim())?;
    put_loss(out, state)
}

/// Writes whether a log is lost, and up to which epoch.
fn put_loss(out: &mut Vec<u8>, state: &LogState) -> Result<(), NoMemory>
    ensures { OnOk result (out.new.items ≡ out.old.items ++ (big_bytes 1 (flag state.now.log.lost) ++ big_bytes 4 state.now.log.lost_to)) }
{
    put_flag(out, state.is_lost())?;
    put_u32(out, state.lost_to())
}

/// Writes a log's summaries, last known good offsets and entries.
fn put_tables(out: &mut Vec<u8>, state: &LogState) -> Result<(), NoMemory>
    ensures { OnOk result (out.new.items ≡ out.old.items ++ tables_based state.now.log) }
{
    put_summaries(out, state.summaries())?;
    put_lngs(out, state.lngs())?;
    put_entries(out, state.entries())
}

/// Writes a count and the summaries.
fn put_summaries(out: &mut Vec<u8>, summaries: &SummaryMap) -> Result<(), NoMemory>
    ensures { OnOk result (out.new.items ≡ out.old.items ++ (big_bytes 4 (length (filled summaries.now)) ++ summaries_based (filled summaries.now))) }
{
    let places = summaries.places();
    put_count(out, count_summaries(places))?;
    put_each_summary(out, places)
}

/// Writes the summaries.
fn put_each_summary(
    out: &mut Vec<u8>,
    places: &BTreeMap<u32, Option<Summary>>,
) -> Result<(), NoMemory>
    ensures { OnOk result (out.new.items ≡ out.old.items ++ summaries_based (filled places.now.entries)) }
{
    'summaries: for (epoch, place) in places {
        put_summary_there(out, *epoch, place)?;
    }
    Ok(())
}

/// Writes a summary, where there is one.
fn put_summary_there(out: &mut Vec<u8>, epoch: u32, place: &Option<Summary>) -> Result<(), NoMemory>
    ensures { OnOk result (out.new.items ≡ out.old.items ++ summaries_based (filled ((epoch, place.now) ∷ []))) }
{
    match place {
        Some(summary) => put_one_summary(out, epoch, summary),
        None => Ok(()),
    }
}

/// Writes an epoch and its summary.
fn put_one_summary(out: &mut Vec<u8>, epoch: u32, summary: &Summary) -> Result<(), NoMemory>
    ensures { OnOk result (out.new.items ≡ out.old.items ++ (big_bytes 4 epoch ++ summary_bytes summary.now)) }
{
    put_u32(out, epoch)?;
    put_summary(out, summary)
}

/// Writes a count and the last known good offsets.
fn put_lngs(out: &mut Vec<u8>, lngs: &KnownGood) -> Result<(), NoMemory>
    ensures { OnOk result (out.new.items ≡ out.old.items ++ (big_bytes 4 (length (filled lngs.now)) ++ lngs_based (filled lngs.now))) }
{
    let places = lngs.places();
    put_count(out, count_lngs(places))?;
    put_each_lng(out, places)
}

/// Writes the last known good offsets.
fn put_each_lng(out: &mut Vec<u8>, places: &BTreeMap<u32, Option<u32>>) -> Result<(), NoMemory>
    ensures { OnOk result (out.new.items ≡ out.old.items ++ lngs_based (filled places.now.entries)) }
{
    'lngs: for (epoch, place) in places {
        put_lng_there(out, *epoch, place)?;
    }
    Ok(())
}

/// Writes a last known good offset, where there is one.
fn put_lng_there(out: &mut Vec<u8>, epoch: u32, place: &Option<u32>) -> Result<(), NoMemory>
    ensures { OnOk result (out.new.items ≡ out.old.items ++ lngs_based (filled ((epoch, place.now) ∷ []))) }
{
    match place {
        Some(lng) => put_one_lng(out, epoch, *lng),
        None => Ok(()),
    }
}

/// Writes an epoch and its last known good offset.
fn put_one_lng(out: &mut Vec<u8>, epoch: u32, lng: u32) -> Result<(), NoMemory>
    ensures { OnOk result (out.new.items ≡ out.old.items ++ (big_bytes 4 epoch ++ big_bytes 4 lng)) }
{
    put_u32(out, epoch)?;
    put_u32(out, lng)
}

/// Writes a count and the entries.
fn put_entries(out: &mut Vec<u8>, entries: &EntryMap) -> Result<(), NoMemory>
    ensures { OnOk result (out.new.items ≡ out.old.items ++ (big_bytes 4 (length (filled entries.now)) ++ entries_bytes_based (filled entries.now))) }
{
    let places = entries.places();
    put_count(out, count_entries(places))?;
    put_each_entry(out, places)
}

/// Writes the entries.
fn put_each_entry(
    out: &mut Vec<u8>,
    places: &BTreeMap<u64, Option<Pointed>>,
) -> Result<(), NoMemory>
    ensures { OnOk result (out.new.items ≡ out.old.items ++ entries_bytes_based (filled places.now.entries)) }
{
    'entries: for (number, place) in places {
        put_entry_there(out, *number, place)?;
    }
    Ok(())
}

/// Writes an entry, where there is one.
fn put_entry_there(out: &mut Vec<u8>, number: u64, place: &Option<Pointed>) -> Result<(), NoMemory>
    ensures { OnOk result (out.new.items ≡ out.old.items ++ entries_bytes_based (filled ((number, place.now) ∷ []))) }
{
    match place {
        Some(entry) => put_one_entry(out, entry),
        None => Ok(()),
    }
}

/// Writes an entry.
fn put_one_entry(out: &mut Vec<u8>, entry: &Pointed) -> Result<(), NoMemory>
    ensures { OnOk result (out.new.items ≡ out.old.items ++ entry_based entry.now) }
{
    put_number(out, entry.number())?;
    put_u32(out, entry.ballot())?;
    put_held(out, entry.held())
}

/// Writes what stands under a number: a tag, and behind a record's its payload's offset and length.
fn put_held(out: &mut Vec<u8>, held: Held) -> Result<(), NoMemory>
    ensures { OnOk result (out.new.items ≡ out.old.items ++ what_based (seen_what held)) }
{
    match held {
        Held::Rec(place) => {
            put_u8(out, 0)?;
            put_place(out, place)
        }
        Held::Hole => put_u8(out, 1),
        Held::Bridge => put_u8(out, 2),
        Held::Plug => put_u8(out, 3),
        Held::Withheld => put_u8(out, 4),
    }
}

/// Writes a payload's offset and length.
fn put_place(out: &mut Vec<u8>, place: Place) -> Result<(), NoMemory>
    ensures { OnOk result (out.new.items ≡ out.old.items ++ (big_bytes 8 (first_place (numbers_from place.at place.len)) ++ big_bytes 2 place.len)) }
{
    put_number(out, Lsn::from_u64(first_place(place)))?;
    put_short_count(out, place.len)
}

/// Where a payload begins. One without bytes stands nowhere, and 0 is written for its offset.
fn first_place(place: Place) -> u64
    ensures { result ≡ first_place (numbers_from place.at place.len) }
{
    if place.len == 0 { 0 } else { place.at }
}
