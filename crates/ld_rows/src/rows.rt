// Runs that are known line by line: each law is the value of its run.
ghost use Rattle.std.specs.Prelude.{◌≡◌, codes, [], ◌∷◌, true, false};
ghost use Rattle.ld_schedule.specs.declared.event.Picture.TheVariants as pictures;
ghost use Rattle.ld_machine.specs.Run.{transcript};
ghost use Rattle.ld_maker.specs.Draw.{drawn, value_of};
ghost use Rattle.ld_rows.specs.Schedules.{three_nodes, five_nodes, four_nodes, one_append, moved, half_stored, cut_off, trimmed, rebuilt, lost, hole_between, two_recoveries, register_fault, torn_rebuild, torn_rebuild_asked, torn_rebuild_heard, torn_later, torn_later_asked};
ghost use Rattle.ld_rows.specs.Texts.{one_append_text, moved_text, half_stored_text, cut_off_text, trimmed_text, rebuilt_text, lost_text, hole_between_text, two_recoveries_text, register_fault_text, torn_rebuild_text};
ghost use Rattle.ld_rows.specs.Told.{told_text, made_summary, has_loss, kept_by_call, lost_states, found_lost, asks_again, has_failed, switched_by};

/// A record goes to two of three nodes, is acknowledged and released, and a reader gets it behind the bridge of
/// epoch 0: the whole transcript.
pub fn one_record_is_read()
    ensures { transcript three_nodes one_append ≡ one_append_text }
{}

/// A log moves to other nodes: the record of its first epoch is on nodes of the first set, the one of its second epoch
/// on those of the second set, its recovery asks the first set, and a reader asks of each epoch the set that is its own:
/// the whole transcript.
pub fn a_log_moves()
    ensures { transcript four_nodes moved ≡ moved_text }
{}

/// A record that one node of two stored is not acknowledged, and a reader waits.
pub fn a_record_is_half_stored()
    ensures { told_text three_nodes half_stored ≡ half_stored_text }
{}

/// A record that no page of the digest has is cut off by the plan's bridge.
pub fn a_record_is_cut_off()
    ensures { told_text five_nodes cut_off ≡ cut_off_text }
{}

/// Of two records that were never acknowledged the digest finds the second: the first one's number is a hole.
pub fn a_hole_stands_between()
    ensures { told_text five_nodes hole_between ≡ hole_between_text }
{}

/// Two sequencers recover one epoch at once: one closes it, the other one finds it closed and goes on.
pub fn two_recoveries_agree()
    ensures { told_text three_nodes two_recoveries ≡ two_recoveries_text }
{}

/// A register call that failed may have been made, and a retry asks again.
pub fn a_register_fault_is_passed()
    ensures { told_text three_nodes register_fault ≡ register_fault_text }
{}

/// Of a crash in the k-th of a record's four writing calls the picture decides: the record is there where the gate
/// was written and the picture shows it open.
pub fn a_torn_record_is_there_or_not()
    ensures old { kept_by_call pictures.Old ≡ false ∷ false ∷ false ∷ false ∷ [] }
    ensures new { kept_by_call pictures.New ≡ false ∷ false ∷ true ∷ true ∷ [] }
    ensures digits { kept_by_call (pictures.Byte 7) ≡ false ∷ false ∷ false ∷ false ∷ [] }
{}

/// The record behind the 64th op record comes after a switch of segments, so its writing calls are ten: where the tenth
/// is to fail the node fails, and an eleventh isn't made.
pub fn a_full_segment_is_switched()
    ensures tenth { has_failed 10 ≡ true }
    ensures eleventh { has_failed 11 ≡ false }
{}

/// Of a crash in the last of a switch's calls the picture decides whether the new segment is there, without the record;
/// of one in the last of the record's whether the record is.
pub fn a_torn_switch_is_there_or_not()
    ensures old { switched_by 6 pictures.Old ≡ (false, false) }
    ensures new { switched_by 6 pictures.New ≡ (true, false) }
    ensures unkept { switched_by 10 pictures.Old ≡ (true, false) }
    ensures kept { switched_by 10 pictures.New ≡ (true, true) }
{}

/// A recovery takes a trim that only one node of its digest has, and readers get it after that node was wiped.
pub fn records_are_trimmed()
    ensures { told_text three_nodes trimmed ≡ trimmed_text }
{}

/// A node that was wiped refills, and the record outlives the wipe of the other node that had it.
pub fn copies_are_rebuilt()
    ensures { told_text three_nodes rebuilt ≡ rebuilt_text }
{}

/// Both nodes that had a record are wiped: the reader is told that it is lost, and gets the next one.
pub fn copies_are_lost()
    ensures { told_text three_nodes lost ≡ lost_text }
{}

/// The first draw of seed 1, and the summary lines of its schedules of no event and of one.
pub fn made_schedules_are_known()
    ensures state { drawn 1 ≡ 7806831264735756412 }
    ensures value { value_of (drawn 1) ≡ 908834774 }
    ensures none { made_summary 1 0 ≡ codes "events 7 appended 0 acked 0 record 0 trim 0 hole 0 bridge 0 dataloss 0\n" }
    ensures one { made_summary 1 1 ≡ codes "events 8 appended 0 acked 0 record 0 trim 0 hole 0 bridge 0 dataloss 0\n" }
{}

/// A reader asks nodes 1 and 3 once more for a number that it then calls lost. In the state at that ask node 3 crashed in
/// the record that it is rebuilt, and is lost for the number's epoch in the first of its two states alone, which it is
/// found in.
pub fn a_torn_rebuild_is_lost_still()
    ensures told { told_text three_nodes torn_rebuild ≡ torn_rebuild_text }
    ensures before { asks_again torn_rebuild_heard ≡ [] }
    ensures asked { asks_again torn_rebuild_asked ≡ 2 ∷ [] }
    ensures first { lost_states 1 1 torn_rebuild_asked ≡ true ∷ [] }
    ensures second { lost_states 1 2 torn_rebuild_asked ≡ false ∷ [] }
    ensures third { lost_states 1 3 torn_rebuild_asked ≡ true ∷ false ∷ [] }
{}

/// A reader asks nodes 1 and 3 once more for a number that it then calls lost. In the state at that ask node 3 crashed in
/// the record that it is rebuilt, and a load would find this record, so that the node isn't lost. It crashes once more, in
/// the load, and is found lost: in the first of its two states, in which it was lost at the ask.
pub fn a_torn_rebuild_is_found_lost_later()
    ensures told { has_loss three_nodes torn_later ≡ true }
    ensures asked { asks_again torn_later_asked ≡ 2 ∷ [] }
    ensures first { found_lost 1 1 torn_later_asked ≡ true }
    ensures third { found_lost 1 3 torn_later_asked ≡ false }
    ensures states { lost_states 1 3 torn_later_asked ≡ true ∷ false ∷ [] }
{}
