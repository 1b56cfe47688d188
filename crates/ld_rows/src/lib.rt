//! Runs of the written machine that are known line by line, and runs that aren't safe.
#![tactic(auto)]

mod rows;
mod sanity;

pub use rows::{
    a_full_segment_is_switched, a_hole_stands_between, a_log_moves, a_record_is_cut_off,
    a_record_is_half_stored, a_register_fault_is_passed, a_torn_rebuild_is_found_lost_later,
    a_torn_rebuild_is_lost_still, a_torn_record_is_there_or_not, a_torn_switch_is_there_or_not,
    copies_are_lost, copies_are_rebuilt, made_schedules_are_known, one_record_is_read,
    records_are_trimmed, two_recoveries_agree,
};
pub use sanity::{
    a_false_item_is_not_safe, a_false_number_is_not_safe, a_false_run_is_not_safe,
    a_loss_is_confirmed, a_loss_is_confirmed_once, losses_are_told,
};
