//! A journal in segments: where each lies, what a crash leaves of its writes, and which one counts.
#![tactic(auto)]

mod body;
mod find;
mod found;
mod group;
mod later;
mod law;
mod lies;
mod plan;
mod read;
mod ready;
mod record;
mod safe;
mod slots;
mod switch;
mod write;

pub use find::read_current;
pub use found::Found;
pub use group::{open_group, stage_next, stage_op};
pub use later::{Later, read_later, segments_are_read};
pub use law::{
    groups_are_there_or_not, groups_grow, heads_are_there_or_not, records_are_there_or_not,
    segments_stay, slots_are_read, slots_tell_the_segment,
};
pub use lies::{
    bytes_lie_in_one_way, bytes_stand_for_one_state, journals_stand_as_before,
    kept_ops_are_durable, kept_ops_or_not, marks_change_no_state, picture_decides_the_layout,
    plans_are_rows,
};
pub use plan::{Plan, first_slots, head};
pub use read::read_slot;
pub use record::append_record;
pub use slots::{Slot, current, says, second_counts};
pub use switch::{switch_first, switch_later};
pub use write::write_op;
