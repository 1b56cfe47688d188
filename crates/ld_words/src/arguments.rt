// The arguments of a command.
ghost use Rattle.std.specs.Prelude.{◌≡◌, ℕ, true, None, Some, MatchResult, IfOk, option_map};
ghost use Rattle.clap.specs.Walk.{Text};
ghost use Rattle.clap.specs.Words.{rows_of, found_of, first_of};
ghost use Rattle.ld_ids.specs.Set.{has_node};
ghost use Rattle.ld_config.specs.Bounds.{IsInBounds};
ghost use Rattle.ld_config.specs.declared.config.Config.{Config as Configuration};
ghost use Rattle.ld_words.specs.Meaning.{AreFiles, IsNumber, IsNumberOr, IsLsn, IsMember, IsLogOf, Says, has_log, is_true};
ghost use Rattle.ld_words.specs.Refuses.{Refuses};

use crate::FileName;
use crate::argument::Argument;
use crate::number::spelt;
use crate::refusal::Refusal;
use clap::ArgMatches;
use ld_config::{Config, ConfigFault};
use ld_ids::{LogId, NodeId};
use ld_lsn::Lsn;
use std::alloc::Global;

/// The value of an argument, as it stands in the arguments.
pub fn value<'a>(matches: &ArgMatches<'a>, name: &str) -> Option<&'a str>
    ensures { option_map (λ s. s.now) result ≡ first_of name.now (rows_of (found_of matches.now)) }
{
    matches.get_str(name)
}

/// The text that an argument is.
pub fn text<'a>(matches: &ArgMatches<'a>, name: &'static str) -> Result<&'a str, Refusal>
    ensures { MatchResult result
        (λ s. first_of name.now (rows_of (found_of matches.now)) ≡ Some s.now)
        (Refuses (first_of name.now (rows_of (found_of matches.now)) ≡ None)) }
{
    match value(matches, name) {
        Some(text) => Ok(text),
        None => Err(Refusal::Missing {
            name: Argument::of(name),
        }),
    }
}

/// The name of a file that an argument is.
pub fn file_name(
    alloc: Global,
    matches: &ArgMatches<'_>,
    name: &'static str,
) -> Result<FileName, Refusal>
    ensures { MatchResult result
        (λ file. first_of name.now (rows_of (found_of matches.now)) ≡ Some file)
        (Refuses (first_of name.now (rows_of (found_of matches.now)) ≡ None)) }
{
    let text = text(matches, name)?;
    Ok(FileName::new(String::from_str(alloc, text)?))
}

/// The names of the store's and the register's file that the arguments are, which differ.
pub fn files(alloc: Global, matches: &ArgMatches<'_>) -> Result<(FileName, FileName), Refusal>
    ensures { MatchResult result
        (λ f. AreFiles (rows_of (found_of matches.now)) f.0 f.1)
        (Refuses ((store register : Text) → AreFiles (rows_of (found_of matches.now)) store register → ⊥)) }
{
    let store = file_name(alloc, matches, "store")?;
    let register = match file_name(alloc, matches, "register") {
        Ok(register) => register,
        Err(refusal) => {
            drop(store);
            return Err(refusal);
        }
    };
    if store.as_str() == register.as_str() {
        drop(store);
        drop(register);
        return Err(Refusal::OneFile {
            name: Argument::of("store"),
        });
    }
    Ok((store, register))
}

/// The number that an argument is, within bounds.
pub fn number(
    matches: &ArgMatches<'_>,
    name: &'static str,
    least: u64,
    most: u64,
) -> Result<u64, Refusal>
    ensures { MatchResult result
        (IsNumber name.now (rows_of (found_of matches.now)) least most)
        (Refuses ((n : ℕ) → IsNumber name.now (rows_of (found_of matches.now)) least most n → ⊥)) }
{
    let text = text(matches, name)?;
    match spelt(text, least, most) {
        Some(number) => Ok(number),
        None => Err(Refusal::Number {
            name: Argument::of(name),
            least,
            most,
        }),
    }
}

/// The number that an argument is, within bounds; where the argument isn't given, the number `otherwise`.
pub fn number_or(
    matches: &ArgMatches<'_>,
    name: &'static str,
    least: u64,
    most: u64,
    otherwise: u64,
) -> Result<u64, Refusal>
    ensures { MatchResult result
        (IsNumberOr name.now (rows_of (found_of matches.now)) least most otherwise)
        (Refuses ((n : ℕ) → IsNumberOr name.now (rows_of (found_of matches.now)) least most otherwise n → ⊥)) }
{
    match value(matches, name) {
        None => Ok(otherwise),
        Some(text) => match spelt(text, least, most) {
            Some(number) => Ok(number),
            None => Err(Refusal::Number {
                name: Argument::of(name),
                least,
                most,
            }),
        },
    }
}

/// The log sequence number that an argument is.
pub fn lsn(matches: &ArgMatches<'_>, name: &'static str) -> Result<Lsn, Refusal>
    ensures { MatchResult result
        (IsLsn name.now (rows_of (found_of matches.now)))
        (Refuses ((n : ℕ) → IsLsn name.now (rows_of (found_of matches.now)) n → ⊥)) }
{
    let text = text(matches, name)?;
    match Lsn::parse(text.as_bytes()) {
        Some(lsn) => Ok(lsn),
        None => Err(Refusal::Lsn {
            name: Argument::of(name),
        }),
    }
}

/// Whether a flag is given.
pub fn flag(matches: &ArgMatches<'_>, name: &str) -> bool
    ensures { result ≡ is_true (first_of name.now (rows_of (found_of matches.now))) }
{
    match value(matches, name) {
        Some(text) => text == "true",
        None => false,
    }
}

/// The configuration that a text says.
pub fn config(alloc: Global, text: &str) -> Result<Config, Refusal>
    ensures says { MatchResult result (Says text.now) (Refuses ((c : Configuration) → Says text.now c → ⊥)) }
    ensures bounds { IfOk result IsInBounds }
{
    match Config::read(alloc, text.as_bytes()) {
        Ok(config) => Ok(config),
        Err(fault) => {
            if fault == ConfigFault::NoMemory {
                return Err(Refusal::NoMemory);
            }
            Err(Refusal::Config(fault))
        }
    }
}

/// The node of this number, among the configuration's nodes.
pub fn member(name: &'static str, number: u64, config: &Config) -> Result<NodeId, Refusal>
    ensures { MatchResult result (λ node. (node ≡ number) × IsMember number config.now) (Refuses (IsMember number config.now → ⊥)) }
{
    if number < 1 || number > 16 {
        return Err(Refusal::Number {
            name: Argument::of(name),
            least: 1,
            most: 16,
        });
    }
    let Some(node) = NodeId::new(number as u8) else {
        unreachable!();
    };
    if config.nodes.has(node) {
        Ok(node)
    } else {
        Err(Refusal::Stranger {
            name: Argument::of(name),
            node,
        })
    }
}

/// The log of this number, among the configuration's logs.
pub fn log_of(number: u64, config: &Config) -> Result<LogId, Refusal>
    ensures { MatchResult result (λ log. (log ≡ number) × IsLogOf number config.now) (Refuses (IsLogOf number config.now → ⊥)) }
{
    if number < 1 || number > 65_535 {
        return Err(Refusal::Number {
            name: Argument::of("log"),
            least: 1,
            most: 65_535,
        });
    }
    let Some(log) = LogId::new(number as u32) else {
        unreachable!();
    };
    if has(config, log) {
        Ok(log)
    } else {
        Err(Refusal::StrangeLog(log))
    }
}

/// Whether the log is one of the configuration's.
fn has(config: &Config, log: LogId) -> bool
    ensures { result ≡ has_log config.now log }
{
    for spec in config.logs.as_slice() {
        if spec.log == log {
            return true;
        }
    }
    false
}
