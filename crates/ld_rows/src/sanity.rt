// What a safe run can't be.
ghost use Rattle.std.specs.Prelude.{◌≡◌, [], true, false};
ghost use Rattle.ld_lsn.specs.Number.{numbered};
ghost use Rattle.ld_machine.specs.Losses.{EndsAsLoss};
ghost use Rattle.ld_machine.specs.Safe.{Safe};
ghost use Rattle.ld_rows.specs.ByHand.{acked_for_nothing, bridge_over, early_hole, early_record, early_trim, lost_afterwards, message_of_record, one_lost, one_number_twice, other_epoch, other_log, other_reader, past_until, record_of_messages, released_by_nobody, released_for_nothing, released_past, two_lines, two_logs, two_numbers};
ghost use Rattle.ld_rows.specs.Confirmed.{one, delivered, before_asks, asks, after_asks, gives};
ghost use Rattle.ld_rows.specs.Schedules.{one_node, three_nodes, one_append, two_appends, one_batch, rebuilt, lost, reader_r};
ghost use Rattle.ld_rows.specs.Tampered.{tampered_run, another_payload, a_hole, a_loss, a_trim, a_message, rewritten_run, without_gap, from_the_end, second_first, without_second};
ghost use Rattle.ld_rows.specs.Told.{has_loss};

/// A run isn't safe where a reader got another payload than was appended, or, in place of an acknowledged record, a
/// hole, a trim gap without a trim point, a loss while no node was lost, or a message though the record is no batch;
/// where it wasn't given the gap in front of its record; where it was given the two messages of a batch in the other
/// order, or the first one alone; or where the numbers of a sequencer's appends fall.
pub fn a_false_run_is_not_safe()
    ensures payload { Safe three_nodes (tampered_run another_payload three_nodes one_append) → ⊥ }
    ensures hole { Safe three_nodes (tampered_run a_hole three_nodes one_append) → ⊥ }
    ensures trim { Safe three_nodes (tampered_run a_trim three_nodes one_append) → ⊥ }
    ensures loss { Safe three_nodes (tampered_run a_loss three_nodes one_append) → ⊥ }
    ensures message { Safe three_nodes (tampered_run a_message three_nodes one_append) → ⊥ }
    ensures space { Safe three_nodes (rewritten_run without_gap three_nodes one_append) → ⊥ }
    ensures order { Safe three_nodes (rewritten_run second_first three_nodes one_batch) → ⊥ }
    ensures missing { Safe three_nodes (rewritten_run without_second three_nodes one_batch) → ⊥ }
    ensures fall { Safe three_nodes (rewritten_run from_the_end three_nodes two_appends) → ⊥ }
{}

/// Nor is one where a number is called lost while one node of two is lost, or before the second one is; where a reader gets
/// a hole before its number is acknowledged, a bridge over an acknowledged number, or a hole where another reader got the
/// record, also where its open wrote two lines; a record before it is appended; a trim gap before its point is issued, or
/// where it was issued for another log; an item past the last number that it asked for; a message though it reads records,
/// or a batch as a record though it reads messages.
pub fn a_false_item_is_not_safe()
    ensures one_lost { Safe three_nodes one_lost → ⊥ }
    ensures lost_afterwards { Safe three_nodes lost_afterwards → ⊥ }
    ensures early_hole { Safe three_nodes early_hole → ⊥ }
    ensures bridge_over { Safe three_nodes bridge_over → ⊥ }
    ensures other_reader { Safe three_nodes other_reader → ⊥ }
    ensures early_record { Safe three_nodes early_record → ⊥ }
    ensures early_trim { Safe three_nodes early_trim → ⊥ }
    ensures other_log { Safe two_logs other_log → ⊥ }
    ensures past_until { Safe three_nodes past_until → ⊥ }
    ensures two_lines { Safe three_nodes two_lines → ⊥ }
    ensures message_of_record { Safe three_nodes message_of_record → ⊥ }
    ensures record_of_messages { Safe three_nodes record_of_messages → ⊥ }
{}

/// Nor is one where two sequencers of a log append under one number, one step appends two, a number has another epoch than
/// its sequencer; where a number is acknowledged or released that wasn't appended, one past the epoch is released, or
/// a sequencer releases that wasn't active.
pub fn a_false_number_is_not_safe()
    ensures one_number_twice { Safe three_nodes one_number_twice → ⊥ }
    ensures two_numbers { Safe three_nodes two_numbers → ⊥ }
    ensures other_epoch { Safe three_nodes other_epoch → ⊥ }
    ensures acked_for_nothing { Safe three_nodes acked_for_nothing → ⊥ }
    ensures released_for_nothing { Safe three_nodes released_for_nothing → ⊥ }
    ensures released_past { Safe three_nodes released_past → ⊥ }
    ensures released_by_nobody { Safe three_nodes released_by_nobody → ⊥ }
{}

/// In a run whose one copy is lost a reader asks the lost node once more, in its second round, and calls the number lost
/// where it has answered: what is said of a number that was confirmed is said of this one.
pub fn a_loss_is_confirmed()
    ensures { EndsAsLoss one_node reader_r 1 one 2 before_asks asks after_asks gives }
{}

/// It isn't so of the round before, in which the reader had been already, nor of a later one; of another number or log; or
/// where the step delivers the ask, which doesn't complete the confirmation.
pub fn a_loss_is_confirmed_once()
    ensures same_round { EndsAsLoss one_node reader_r 1 one 1 before_asks asks after_asks gives → ⊥ }
    ensures other_round { EndsAsLoss one_node reader_r 1 one 3 before_asks asks after_asks gives → ⊥ }
    ensures other_number { EndsAsLoss one_node reader_r 1 (numbered 1 2) 2 before_asks asks after_asks gives → ⊥ }
    ensures other_log { EndsAsLoss one_node reader_r 2 one 2 before_asks asks after_asks gives → ⊥ }
    ensures too_soon { EndsAsLoss one_node reader_r 1 one 2 before_asks asks [] (delivered 13) → ⊥ }
{}

/// A number is called lost in the run whose copies are lost, and none in the run whose copies are rebuilt.
pub fn losses_are_told()
    ensures told { has_loss three_nodes lost ≡ true }
    ensures none { has_loss three_nodes rebuilt ≡ false }
{}
