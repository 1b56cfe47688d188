//! What a node keeps of a close and of a trim.
#![tactic(auto)]

ghost use Rattle.std.specs.Prelude.{◌≡◌};
ghost use Rattle.ld_op.specs.Plain.{log_of};
ghost use Rattle.ld_op.specs.Answers.{on_clean, on_trim};

use ld_ids::LogId;
use ld_lsn::Lsn;
use ld_msg::Summary;
use ld_op::{Op, Plain};

/// The op that a close of an epoch leads to: none exactly where the epoch is clean here, so that nothing would change.
#[tactic(auto, unfolding(ld_op::specs::Answers::on_clean))]
pub fn clean(plain: &Plain, log: LogId, epoch: u32, summary: &Summary) -> Option<Op>
    ensures { result ≡ (on_clean (log_of plain.now.state log) log epoch summary.now).op }
{
    match plain.summary(log, epoch) {
        Some(_) => None,
        None => Some(Op::Clean {
            log,
            epoch,
            summary: *summary,
        }),
    }
}

/// The op that a trim leads to: none exactly where the log is trimmed so far, so that nothing would change.
#[tactic(auto, unfolding(ld_op::specs::Answers::on_trim))]
pub fn trim(plain: &Plain, log: LogId, lsn: Lsn) -> Option<Op>
    ensures { result ≡ (on_trim (log_of plain.now.state log) log lsn).op }
{
    if plain.trim(log).value() < lsn.value() {
        Some(Op::Trim { log, trim: lsn })
    } else {
        None
    }
}
