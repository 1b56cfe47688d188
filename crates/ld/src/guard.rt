// An `append` or a `trim` whose configuration would move its log.
use ld_cli::{Status, Which};
use ld_config::Config;
use ld_ids::{LogId, Spec};
use ld_operate::{LookStop, moved_from};
use ld_register::Register;
use ld_words::{Command, LogWords, read};
use std::alloc::Global;

/// What the configuration says of the log, if it has it.
fn wanted_of(config: &Config, log: LogId) -> Option<Spec> {
    for spec in config.logs.as_slice() {
        if spec.log == log {
            return Some(*spec);
        }
    }
    None
}

/// Looks whether the log's greatest epoch has the nodes, the replication factor and the extras of the configuration. A status
/// where it hasn't, or where the look failed.
fn hold<G: Register>(alloc: Global, words: &LogWords, reg: &mut G) -> Option<Status> {
    let to = wanted_of(&words.config, words.log)?;
    match moved_from(alloc, &to, reg) {
        Ok(None) => None,
        Ok(Some(from)) => Some(Status::Moves { from, to }),
        Err(LookStop::Register) => Some(Status::Register),
        Err(LookStop::Damaged(place)) => Some(Status::Damaged {
            which: Which::Register,
            place,
        }),
        Err(LookStop::Write) => Some(Status::Write),
        Err(LookStop::NoMemory) => Some(Status::NoMemory),
    }
}

/// Looks whether a `trim` that the arguments ask for, or an `append` without `--move`, would move its log: both take the log
/// over, with an epoch of what the configuration says. A status where it isn't to be begun. The look changes nothing of the
/// register.
pub fn held_back<G: Register>(alloc: Global, words: &[String], reg: &mut G) -> Option<Status> {
    match read(alloc, words) {
        Ok(Some(Command::Append(append))) if !append.moves => hold(alloc, &append.of, reg),
        Ok(Some(Command::Trim(trim))) => hold(alloc, &trim.of, reg),
        Ok(_) => None,
        Err(_) => Some(Status::NoMemory),
    }
}
