// What the configuration says of a log.
ghost use Rattle.std.specs.Prelude.{◌≡◌};
ghost use Rattle.ld_machine.specs.Config.{spec_in, has_log};

use ld_clients::find_spec;
use ld_config::Config;
use ld_ids::{LogId, NodeSet, Spec};

/// Whether the log is one of the configuration's.
pub(crate) fn has_log(config: &Config, log: LogId) -> bool
    ensures { result ≡ has_log config.now log }
{
    find_spec(config, log).is_some()
}

/// What is said of the log. One that is none of the configuration's has no nodes.
pub(crate) fn spec_for(config: &Config, log: LogId) -> Spec
    ensures { result ≡ spec_in log config.now.logs }
{
    match find_spec(config, log) {
        Some(spec) => spec,
        None => Spec {
            log,
            set: NodeSet::empty(),
            r: 0,
            extras: 0,
        },
    }
}
