// How many bytes an index takes, how many entries it has, and where its payloads begin.
ghost use Rattle.std.specs.Prelude.{◌≡◌, ◌+◌, ◌-◌, ◌^◌, ◌++◌, ◌∷◌, [], length, min, OnOk, IfOk};
ghost use Rattle.ld_table.specs.Words.{numbers_from};
ghost use Rattle.ld_op.specs.Places.{filled};
ghost use Rattle.ld_op.specs.Pointed.{seen_what};
ghost use Rattle.ld_op.specs.Room.{there_of};
ghost use Rattle.ld_op.specs.Taken.{log_length, entry_length, entries_there};
ghost use Rattle.ld_op.specs.Indexed.{entry_count, first_of, start_of, entry_starts, payload_starts, what_based, entries_bytes_based, tables_based, logs_bytes_based, index_bytes};

use crate::Plain;
use crate::log::LogState;
use crate::pointed::{Held, Place, Pointed};
use ld_ids::NoMemory;
use ld_msg::Summary;
use std::alloc::Global;
use std::collections::BTreeMap;

impl Plain {
    /// How many bytes the index takes, or the greatest number where it takes more.
    #[tactic(auto, unfolding(crate::specs::Indexed::index_bytes))]
    pub fn index_length(&self) -> u64
        ensures { result ≡ min (length (index_bytes self.now.state)) (2 ^ 64 - 1) }
    {
        logs_length(self.logs().all()).saturating_add(6)
    }

    /// How many entries all logs have, or the greatest number where there are more.
    pub fn entry_count(&self) -> u64
        ensures { result ≡ min (entry_count self.now.state.logs) (2 ^ 64 - 1) }
    {
        count_all_entries(self.logs().all())
    }

    /// Where the payloads begin that have bytes.
    pub fn payload_starts(&self, alloc: Global) -> Result<Vec<u64>, NoMemory>
        ensures { IfOk result (λ starts. starts.items ≡ payload_starts self.now.state.logs) }
    {
        let mut starts = Vec::new(alloc);
        add_all_starts(&mut starts, self.logs().all())?;
        Ok(starts)
    }
}

/// How many bytes the logs that are there take.
fn logs_length(places: &BTreeMap<u32, LogState>) -> u64
    ensures { result ≡ min (length (logs_bytes_based (there_of places.now.entries))) (2 ^ 64 - 1) }
{
    let mut sum: u64 = 0;
    'logs: for (_, state) in places {
        sum = sum.saturating_add(log_length(state));
    }
    sum
}

/// How many bytes a log takes, where it is there.
fn log_length(state: &LogState) -> u64
    ensures { result ≡ min (log_length state.now) (2 ^ 64 - 1) }
{
    if state.is_there() {
        tables_length(state).saturating_add(21)
    } else {
        0
    }
}

/// How many bytes a log's summaries, last known good offsets and entries take.
fn tables_length(state: &LogState) -> u64
    ensures { result ≡ min (length (tables_based state.now.log)) (2 ^ 64 - 1) }
{
    let summaries = count_summaries(state.summaries().places()).saturating_mul(25);
    let lngs = count_lngs(state.lngs().places()).saturating_mul(8);
    let entries = entries_length(state.entries().places());
    summaries
        .saturating_add(lngs)
        .saturating_add(entries)
        .saturating_add(12)
}

/// How many bytes the entries take.
fn entries_length(places: &BTreeMap<u64, Option<Pointed>>) -> u64
    ensures { result ≡ min (length (entries_bytes_based (filled places.now.entries))) (2 ^ 64 - 1) }
{
    let mut sum: u64 = 0;
    'entries: for (_, place) in places {
        sum = sum.saturating_add(entry_length(place));
    }
    sum
}

/// How many bytes an entry takes, where there is one.
fn entry_length(place: &Option<Pointed>) -> u64
    ensures { result ≡ entry_length place.now }
{
    match place {
        Some(entry) => held_length(entry.held()),
        None => 0,
    }
}

/// How many bytes an entry takes that holds this.
fn held_length(held: Held) -> u64
    ensures { result ≡ 12 + length (what_based (seen_what held)) }
{
    match held {
        Held::Rec(_) => 23,
        Held::Hole => 13,
        Held::Bridge => 13,
        Held::Plug => 13,
        Held::Withheld => 13,
    }
}

/// How many entries the logs that are there have.
fn count_all_entries(places: &BTreeMap<u32, LogState>) -> u64
    ensures { result ≡ min (entry_count (there_of places.now.entries)) (2 ^ 64 - 1) }
{
    let mut sum: u64 = 0;
    'logs: for (_, state) in places {
        sum = sum.saturating_add(entries_there(state));
    }
    sum
}

/// How many entries a log has, where it is there.
fn entries_there(state: &LogState) -> u64
    ensures { result ≡ entries_there state.now }
{
    if state.is_there() {
        count_entries(state.entries().places())
    } else {
        0
    }
}

/// How many logs are there.
pub(crate) fn count_logs(places: &BTreeMap<u32, LogState>) -> u64
    ensures { result ≡ length (there_of places.now.entries) }
{
    let _ = places.len();
    let mut count: u64 = 0;
    'logs: for (_, state) in places {
        count += u64::from(state.is_there());
    }
    count
}

/// How many summaries there are.
pub(crate) fn count_summaries(places: &BTreeMap<u32, Option<Summary>>) -> u64
    ensures { result ≡ length (filled places.now.entries) }
{
    let _ = places.len();
    let mut count: u64 = 0;
    'summaries: for (_, place) in places {
        count += u64::from(place.is_some());
    }
    count
}

/// How many last known good offsets there are.
pub(crate) fn count_lngs(places: &BTreeMap<u32, Option<u32>>) -> u64
    ensures { result ≡ length (filled places.now.entries) }
{
    let _ = places.len();
    let mut count: u64 = 0;
    'lngs: for (_, place) in places {
        count += u64::from(place.is_some());
    }
    count
}

/// How many entries there are.
pub(crate) fn count_entries(places: &BTreeMap<u64, Option<Pointed>>) -> u64
    ensures { result ≡ length (filled places.now.entries) }
{
    let _ = places.len();
    let mut count: u64 = 0;
    'entries: for (_, place) in places {
        count += u64::from(place.is_some());
    }
    count
}

/// Lists where the payloads of the logs that are there begin.
fn add_all_starts(out: &mut Vec<u64>, places: &BTreeMap<u32, LogState>) -> Result<(), NoMemory>
    ensures { OnOk result (out.new.items ≡ out.old.items ++ payload_starts (there_of places.now.entries)) }
{
    'logs: for (log, state) in places {
        add_starts_there(out, *log, state)?;
    }
    Ok(())
}

/// Lists where a log's payloads begin, where it is there.
fn add_starts_there(out: &mut Vec<u64>, log: u32, state: &LogState) -> Result<(), NoMemory>
    ensures { OnOk result (out.new.items ≡ out.old.items ++ payload_starts (there_of ((log, state.now) ∷ []))) }
{
    if state.is_there() {
        add_starts(out, state)
    } else {
        Ok(())
    }
}

/// Lists where a log's payloads begin.
fn add_starts(out: &mut Vec<u64>, state: &LogState) -> Result<(), NoMemory>
    ensures { OnOk result (out.new.items ≡ out.old.items ++ entry_starts state.now.log.entries) }
{
    add_each_start(out, state.entries().places())
}

/// Lists where the payloads of the entries begin.
fn add_each_start(
    out: &mut Vec<u64>,
    places: &BTreeMap<u64, Option<Pointed>>,
) -> Result<(), NoMemory>
    ensures { OnOk result (out.new.items ≡ out.old.items ++ entry_starts (filled places.now.entries)) }
{
    'entries: for (number, place) in places {
        add_start_there(out, *number, place)?;
    }
    Ok(())
}

/// Lists where an entry's payload begins, where there is one.
fn add_start_there(out: &mut Vec<u64>, number: u64, place: &Option<Pointed>) -> Result<(), NoMemory>
    ensures { OnOk result (out.new.items ≡ out.old.items ++ entry_starts (filled ((number, place.now) ∷ []))) }
{
    match place {
        Some(entry) => add_start(out, entry.held()),
        None => Ok(()),
    }
}

/// Lists where a payload begins that has bytes.
fn add_start(out: &mut Vec<u64>, held: Held) -> Result<(), NoMemory>
    ensures { OnOk result (out.new.items ≡ out.old.items ++ start_of (seen_what held)) }
{
    match held {
        Held::Rec(place) => add_place(out, place),
        Held::Hole => Ok(()),
        Held::Bridge => Ok(()),
        Held::Plug => Ok(()),
        Held::Withheld => Ok(()),
    }
}

/// Lists the offset of a payload that has bytes.
fn add_place(out: &mut Vec<u64>, place: Place) -> Result<(), NoMemory>
    ensures { OnOk result (out.new.items ≡ out.old.items ++ first_of (numbers_from place.at place.len)) }
{
    if place.len == 0 {
        return Ok(());
    }
    out.push(place.at)?;
    Ok(())
}
