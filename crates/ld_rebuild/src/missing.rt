// Whether a lost node lacks anything.
ghost use Rattle.std.specs.Prelude.{◌≡◌, ◌-◌, ◌^◌, Some};
ghost use Rattle.ld_table.specs.Table.{find};
ghost use Rattle.ld_msg.specs.declared.msg.Summary.{Summary as Closing};
ghost use Rattle.ld_op.specs.Plain.{log_of};
ghost use Rattle.ld_op.specs.Ticks.{lowest_unclean, is_full};

use ld_ids::LogId;
use ld_op::Plain;

/// Whether nothing is missing any more: exactly where all epochs of the log from one up to the one up to which it was
/// lost are clean here, and each number above the trim and below the end of such an epoch has an entry. It takes
/// logarithmic time.
pub fn is_full(plain: &Plain, log: LogId) -> bool
    ensures { result ≡ is_full (log_of plain.now.state log) }
{
    u64::from(plain.lost_to(log)) < plain.lowest_unclean(log) && plain.first_missing(log).is_none()
}

/// The lowest epoch of the log, from one on, that isn't clean here. It takes time in the logarithm of the number of
/// clean epochs, and of the number of logs.
pub fn lowest_unclean(plain: &Plain, log: LogId) -> u32
    requires { (y : Closing) → find (2 ^ 32 - 1) (log_of plain.now.state log).summaries ≡ Some y → ⊥ }
    ensures { result ≡ lowest_unclean (log_of plain.now.state log) }
{
    plain.lowest_unclean(log) as u32
}
