// The commands over the store of a stopped node.
ghost use Rattle.std.specs.Prelude.{◌≡◌, ℕ, MatchResult, IfOk};
ghost use Rattle.clap.specs.Words.{rows_of, found_of};
ghost use Rattle.ld_words.specs.declared.command.MendWords.{MendWords as Learning};
ghost use Rattle.ld_words.specs.declared.stopped.AskWords.{AskWords as Asking};
ghost use Rattle.ld_words.specs.declared.command.ReplaceWords.{ReplaceWords as Replacing};
ghost use Rattle.ld_words.specs.declared.command.ShowWords.{ShowWords as Showing};
ghost use Rattle.ld_words.specs.Meaning.{IsPlaceFor, IsMendWords, IsReplaceWords, IsShowWords};
ghost use Rattle.ld_words.specs.Parts.{IsAskWords, IsAskInBounds};
ghost use Rattle.ld_words.specs.Refuses.{Refuses};
ghost use Rattle.ld_words.specs.Bounds.{IsMendInBounds, IsReplaceInBounds, IsShowInBounds};

use crate::arguments::{file_name, files, flag, log_of, member, number, number_or};
use crate::configured::node_of;
use crate::reach::reach;
use crate::refusal::Refusal;
use crate::{MendWords, Reach, ReplaceWords, ShowWords};
use clap::ArgMatches;
use ld_config::Config;
use ld_ids::{LogId, NodeId};
use std::alloc::Global;

/// A stopped node that asks the others, where they are, and how long it asks them.
#[derive(Drop)]
struct AskWords {
    id: NodeId,
    config: Config,
    reach: Reach,
    rounds: u32,
    limit: u32,
}

/// What the arguments say of a stopped node that asks the others, but for its files.
fn ask_words(alloc: Global, matches: &ArgMatches<'_>) -> Result<AskWords, Refusal>
    ensures says { MatchResult result
        (IsAskWords (rows_of (found_of matches.now)))
        (Refuses ((m : Asking) → IsAskWords (rows_of (found_of matches.now)) m → ⊥)) }
    ensures bounds { IfOk result IsAskInBounds }
{
    let rounds = number(matches, "rounds", 1, 1_000_000)?;
    let limit = number_or(matches, "limit", 100, 60_000, 10_000)?;
    let (id, config) = node_of(alloc, matches)?;
    match reach(alloc, matches, &config.nodes) {
        Ok(reach) => Ok(AskWords {
            id,
            config,
            reach,
            rounds: rounds as u32,
            limit: limit as u32,
        }),
        Err(refusal) => {
            drop(config);
            Err(refusal)
        }
    }
}

/// What the arguments say of a stopped node that learns what it missed.
pub fn mend_words(alloc: Global, matches: &ArgMatches<'_>) -> Result<MendWords, Refusal>
    ensures says { MatchResult result
        (IsMendWords (rows_of (found_of matches.now)))
        (Refuses ((m : Learning) → IsMendWords (rows_of (found_of matches.now)) m → ⊥)) }
    ensures bounds { IfOk result IsMendInBounds }
{
    let (store, register) = files(alloc, matches)?;
    match ask_words(alloc, matches) {
        Ok(mending) => Ok(MendWords {
            id: mending.id,
            config: mending.config,
            store,
            register,
            reach: mending.reach,
            rounds: mending.rounds,
            limit: mending.limit,
        }),
        Err(refusal) => {
            drop(store);
            drop(register);
            Err(refusal)
        }
    }
}

/// Whose place the node of this number takes, and in which log of the configuration.
fn place_for(
    matches: &ArgMatches<'_>,
    id: NodeId,
    config: &Config,
) -> Result<(NodeId, LogId), Refusal>
    ensures { MatchResult result
        (λ r. IsPlaceFor (rows_of (found_of matches.now)) id config.now r.0 r.1)
        (Refuses ((other log : ℕ) → IsPlaceFor (rows_of (found_of matches.now)) id config.now other log → ⊥)) }
{
    let of = number(matches, "of", 1, 16)?;
    let of = member("of", of, config)?;
    if id == of {
        return Err(Refusal::OneNode);
    }
    let log = number(matches, "log", 1, 65_535)?;
    let log = log_of(log, config)?;
    Ok((of, log))
}

/// What the arguments say of a stopped node that takes another one's place.
pub fn replace_words(alloc: Global, matches: &ArgMatches<'_>) -> Result<ReplaceWords, Refusal>
    ensures says { MatchResult result
        (IsReplaceWords (rows_of (found_of matches.now)))
        (Refuses ((r : Replacing) → IsReplaceWords (rows_of (found_of matches.now)) r → ⊥)) }
    ensures bounds { IfOk result IsReplaceInBounds }
{
    let (store, register) = files(alloc, matches)?;
    let (id, config) = match node_of(alloc, matches) {
        Ok(node) => node,
        Err(refusal) => {
            drop(store);
            drop(register);
            return Err(refusal);
        }
    };
    match place_for(matches, id, &config) {
        Ok(place) => {
            let (of, log) = place;
            Ok(ReplaceWords {
                id,
                of,
                config,
                log,
                store,
                register,
            })
        }
        Err(refusal) => {
            drop(config);
            drop(store);
            drop(register);
            Err(refusal)
        }
    }
}

/// What the arguments say of a stopped node whose store is shown.
pub fn show_words(alloc: Global, matches: &ArgMatches<'_>) -> Result<ShowWords, Refusal>
    ensures says { MatchResult result
        (IsShowWords (rows_of (found_of matches.now)))
        (Refuses ((s : Showing) → IsShowWords (rows_of (found_of matches.now)) s → ⊥)) }
    ensures bounds { IfOk result IsShowInBounds }
{
    let store = file_name(alloc, matches, "store")?;
    match node_of(alloc, matches) {
        Ok((id, config)) => Ok(ShowWords {
            id,
            config,
            store,
            json: flag(matches, "json"),
        }),
        Err(refusal) => {
            drop(store);
            Err(refusal)
        }
    }
}
