//! What a calm is for: what is proved of a cluster that is well before it.
#![tactic(auto)]

ghost use Rattle.ld_served.specs.Served.{CalmServes, CalmServesAfter, CalmSettles, ClosedIsClean, WellStays};

/// In every state of every run: where each node is up, not lost and without a fault, nothing is armed at the register, and no log's last sequencer is dropped or preempted, all that holds after a calm too, unless the calm meets a limit.
pub fn what_is_well_stays_well()
    ensures { WellStays }
{}

/// And each epoch that was closed before the calm is clean on every node after it.
pub fn what_was_closed_is_clean()
    ensures { ClosedIsClean }
{}

/// And no append of a log's last sequencer waits after it, and each epoch before the sequencer's own is closed, and clean on every node.
pub fn what_waits_is_settled()
    ensures { CalmSettles }
{}

/// So each log is served: beside that, each of its readers is finished, or past what its last sequencer released. So it is after any steps too.
pub fn each_log_is_served()
    ensures of_a_run { CalmServes }
    ensures after_steps { CalmServesAfter }
{}
