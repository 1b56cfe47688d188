//! How a journal's segments lie on their disk: areas, where the next one lies, and which segment is full.
#![tactic(auto)]

mod areas;
mod base;
mod layout;
mod listed;
mod segment;

pub use areas::{least_place, least_places_are_free};
pub use base::{Based, bases_are_judged, decode_base, encode_base};
pub use layout::{
    bases_are_so_long, layouts_stay_within, live_areas_stay_apart, records_keep_payloads,
    switches_keep_payloads,
};
pub use listed::{Areas, used};
pub use segment::{
    FULL_OPS, Growth, LEAST_ROOM, LIMIT, Layout, Segment, WIDE_BASES, WIDE_OPS, WIDE_ROOM,
    base_kind, base_length, full_ops, growth_told, least_room,
};
