// How long a command over a log goes on.
ghost use Rattle.std.specs.Prelude.{◌≡◌, ℕ, MatchResult};
ghost use Rattle.clap.specs.Words.{rows_of, found_of};
ghost use Rattle.ld_words.specs.Meaning.{IsRounds, IsUntil, IsPause, follows};
ghost use Rattle.ld_words.specs.Refuses.{Refuses};

use crate::argument::Argument;
use crate::arguments::{flag, lsn, number, number_or};
use crate::reach::is_given;
use crate::refusal::Refusal;
use clap::ArgMatches;
use ld_lsn::Lsn;

/// Whether a reader follows the log.
fn is_following(matches: &ArgMatches<'_>) -> bool
    ensures { result ≡ follows (rows_of (found_of matches.now)) }
{
    flag(matches, "follow")
}

/// After how many rounds the command gives up.
pub fn rounds(matches: &ArgMatches<'_>) -> Result<u64, Refusal>
    ensures { MatchResult result
        (IsRounds (rows_of (found_of matches.now)))
        (Refuses ((n : ℕ) → IsRounds (rows_of (found_of matches.now)) n → ⊥)) }
{
    if is_following(matches) {
        number_or(matches, "rounds", 1, 1_000_000, u64::MAX)
    } else {
        number(matches, "rounds", 1, 1_000_000)
    }
}

/// The last number that is read.
pub fn until(matches: &ArgMatches<'_>) -> Result<Lsn, Refusal>
    ensures { MatchResult result
        (IsUntil (rows_of (found_of matches.now)))
        (Refuses ((n : ℕ) → IsUntil (rows_of (found_of matches.now)) n → ⊥)) }
{
    if !is_following(matches) {
        return lsn(matches, "until");
    }
    if is_given(matches, "until") {
        return Err(Refusal::Both {
            one: Argument::of("until"),
            other: Argument::of("follow"),
        });
    }
    Ok(Lsn::from_u64(u64::MAX))
}

/// How many milliseconds a reader rests at most between two rounds.
pub fn pause(matches: &ArgMatches<'_>) -> Result<u32, Refusal>
    ensures { MatchResult result
        (IsPause (rows_of (found_of matches.now)))
        (Refuses ((n : ℕ) → IsPause (rows_of (found_of matches.now)) n → ⊥)) }
{
    if is_following(matches) {
        return Ok(number_or(matches, "pause", 1, 60_000, 1_000)? as u32);
    }
    if is_given(matches, "pause") {
        return Err(Refusal::Without {
            name: Argument::of("pause"),
            other: Argument::of("follow"),
        });
    }
    Ok(0)
}
