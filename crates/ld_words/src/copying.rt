// The command that copies a register.
ghost use Rattle.std.specs.Prelude.{◌≡◌, MatchResult};
ghost use Rattle.clap.specs.Words.{rows_of, found_of};
ghost use Rattle.ld_words.specs.declared.command.CopyWords.{CopyWords as Copying};
ghost use Rattle.ld_words.specs.Meaning.{IsAlone, IsCopyWords};
ghost use Rattle.ld_words.specs.Refuses.{Refuses};

use crate::CopyWords;
use crate::argument::Argument;
use crate::arguments::{file_name, flag};
use crate::reach::is_given;
use crate::refusal::Refusal;
use clap::ArgMatches;
use std::alloc::Global;

/// The refusal of an argument that is given beside the register that is copied.
fn beside(other: &'static str) -> Refusal {
    Refusal::Both {
        one: Argument::of("copy"),
        other: Argument::of(other),
    }
}

/// Nothing, where the arguments say nothing of a log.
fn alone(matches: &ArgMatches<'_>) -> Result<(), Refusal>
    ensures { MatchResult result
        (λ _. IsAlone (rows_of (found_of matches.now)))
        (Refuses (IsAlone (rows_of (found_of matches.now)) → ⊥)) }
{
    if is_given(matches, "config") {
        return Err(beside("config"));
    }
    if is_given(matches, "log") {
        return Err(beside("log"));
    }
    if is_given(matches, "from") {
        return Err(beside("from"));
    }
    if flag(matches, "json") {
        return Err(beside("json"));
    }
    Ok(())
}

/// What the arguments say of a register that is copied.
pub fn copy_words(alloc: Global, matches: &ArgMatches<'_>) -> Result<CopyWords, Refusal>
    ensures { MatchResult result
        (IsCopyWords (rows_of (found_of matches.now)))
        (Refuses ((c : Copying) → IsCopyWords (rows_of (found_of matches.now)) c → ⊥)) }
{
    alone(matches)?;
    let from = file_name(alloc, matches, "copy")?;
    let register = match file_name(alloc, matches, "register") {
        Ok(register) => register,
        Err(refusal) => {
            drop(from);
            return Err(refusal);
        }
    };
    if from.as_str() == register.as_str() {
        drop(from);
        drop(register);
        return Err(Refusal::OneFile {
            name: Argument::of("copy"),
        });
    }
    Ok(CopyWords { from, register })
}
