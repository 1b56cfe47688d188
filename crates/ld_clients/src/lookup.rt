// What the configuration says of a log.
ghost use Rattle.std.specs.Prelude.{◌≡◌, true, false, IfSome, IfNone};
ghost use Rattle.ld_machine.specs.Config.{spec_in, has_log};

use ld_config::Config;
use ld_ids::{LogId, Spec};

/// What is said of the log, where it is one of the configuration's.
pub fn find_spec(config: &Config, log: LogId) -> Option<Spec>
    ensures found { IfSome result (λ spec. (spec ≡ spec_in log config.now.logs) × (has_log config.now log ≡ true)) }
    ensures none { IfNone result (has_log config.now log ≡ false) }
{
    let specs = config.logs.as_slice();
    for spec in specs {
        if spec.log == log {
            return Some(*spec);
        }
    }
    None
}
