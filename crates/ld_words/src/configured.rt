// The node or the log that the arguments say, and the configuration.
ghost use Rattle.std.specs.Prelude.{ℕ, MatchResult, IfOk};
ghost use Rattle.clap.specs.Words.{rows_of, found_of};
ghost use Rattle.ld_config.specs.Bounds.{IsInBounds};
ghost use Rattle.ld_config.specs.declared.config.Config.{Config as Configuration};
ghost use Rattle.ld_words.specs.Meaning.{IsNodeOf, IsKnownLog};
ghost use Rattle.ld_words.specs.Refuses.{Refuses};

use crate::arguments::{config, log_of, member, number, text};
use crate::refusal::Refusal;
use clap::ArgMatches;
use ld_config::Config;
use ld_ids::{LogId, NodeId};
use std::alloc::Global;

/// The node that the arguments say, and the configuration, of which it is a node.
pub fn node_of(alloc: Global, matches: &ArgMatches<'_>) -> Result<(NodeId, Config), Refusal>
    ensures says { MatchResult result
        (λ r. IsNodeOf (rows_of (found_of matches.now)) r.0 r.1)
        (Refuses ((n : ℕ) (c : Configuration) → IsNodeOf (rows_of (found_of matches.now)) n c → ⊥)) }
    ensures bounds { IfOk result (λ r. IsInBounds r.1) }
{
    let id = number(matches, "id", 1, 16)?;
    let config = config(alloc, text(matches, "config")?)?;
    match member("id", id, &config) {
        Ok(id) => Ok((id, config)),
        Err(refusal) => {
            drop(config);
            Err(refusal)
        }
    }
}

/// The log that the arguments say, and the configuration, of which it is a log.
pub fn known_log(alloc: Global, matches: &ArgMatches<'_>) -> Result<(LogId, Config), Refusal>
    ensures says { MatchResult result
        (λ r. IsKnownLog (rows_of (found_of matches.now)) r.0 r.1)
        (Refuses ((l : ℕ) (c : Configuration) → IsKnownLog (rows_of (found_of matches.now)) l c → ⊥)) }
    ensures bounds { IfOk result (λ r. IsInBounds r.1) }
{
    let log = number(matches, "log", 1, 65_535)?;
    let config = config(alloc, text(matches, "config")?)?;
    match log_of(log, &config) {
        Ok(log) => Ok((log, config)),
        Err(refusal) => {
            drop(config);
            Err(refusal)
        }
    }
}
