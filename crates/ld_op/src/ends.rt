// Whether the payloads of an index lie within an end of the disk.
ghost use Rattle.std.specs.Prelude.{◌≡◌};
ghost use Rattle.ld_table.specs.Words.{numbers_from};
ghost use Rattle.ld_op.specs.Places.{filled};
ghost use Rattle.ld_op.specs.Pointed.{seen_what};
ghost use Rattle.ld_op.specs.Room.{there_of};
ghost use Rattle.ld_op.specs.Within.{places_within, what_within, entries_within, logs_within, entry_within, log_within};

use crate::Plain;
use crate::log::LogState;
use crate::pointed::{Held, Place, Pointed};
use std::collections::BTreeMap;

impl Plain {
    /// Whether each payload ends at an offset or before it. It takes time in the number of entries.
    pub fn lies_within(&self, end: u64) -> bool
        ensures { result ≡ logs_within end self.now.state.logs }
    {
        logs_lie_within(self.logs().all(), end)
    }
}

/// Whether each payload of the logs that are there ends at an offset or before it.
fn logs_lie_within(places: &BTreeMap<u32, LogState>, end: u64) -> bool
    ensures { result ≡ logs_within end (there_of places.now.entries) }
{
    'logs: for (_, state) in places {
        if !log_lies_within(state, end) {
            return false;
        }
    }
    true
}

/// Whether each payload of a log does, where it is there.
fn log_lies_within(state: &LogState, end: u64) -> bool
    ensures { result ≡ log_within end state.now }
{
    if state.is_there() {
        entries_lie_within(state.entries().places(), end)
    } else {
        true
    }
}

/// Whether each payload of the entries does.
fn entries_lie_within(places: &BTreeMap<u64, Option<Pointed>>, end: u64) -> bool
    ensures { result ≡ entries_within end (filled places.now.entries) }
{
    'entries: for (_, place) in places {
        if !entry_lies_within(place, end) {
            return false;
        }
    }
    true
}

/// Whether the payload of an entry does, where there is one.
fn entry_lies_within(place: &Option<Pointed>, end: u64) -> bool
    ensures { result ≡ entry_within end place.now }
{
    match place {
        Some(entry) => held_lies_within(entry.held(), end),
        None => true,
    }
}

/// Whether the payload of what stands under a number does.
fn held_lies_within(held: Held, end: u64) -> bool
    ensures { result ≡ what_within end (seen_what held) }
{
    match held {
        Held::Rec(place) => place_lies_within(place, end),
        Held::Hole => true,
        Held::Bridge => true,
        Held::Plug => true,
        Held::Withheld => true,
    }
}

/// Whether a payload does. One without bytes stands nowhere.
fn place_lies_within(place: Place, end: u64) -> bool
    ensures { result ≡ places_within end (numbers_from place.at place.len) }
{
    place.len == 0 || (place.at <= end && place.len <= end - place.at)
}
