// Which logs the configuration has.
ghost use Rattle.std.specs.Prelude.{◌≡◌};
ghost use Rattle.ld_machine.specs.Config.{has_log};

use ld_config::Config;
use ld_ids::LogId;

/// Whether the log is one of the configuration's.
pub(crate) fn knows(config: &Config, log: LogId) -> bool
    ensures { result ≡ has_log config.now log }
{
    let specs = config.logs.as_slice();
    for spec in specs {
        if spec.log == log {
            return true;
        }
    }
    false
}
