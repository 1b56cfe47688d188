// The commands and their arguments, as clap has them.
ghost use Rattle.std.specs.Prelude.{◌≡◌, [], ◌∷◌, ◌++◌, IfOk, MatchResult, false, map, string_bytes};
ghost use Rattle.clap.specs.Walk.{Rule};
ghost use Rattle.clap.specs.Words.{app_of, rule_of, subcommand_rows_of};
ghost use Rattle.clap.specs.Simple.{App, Shape, with_subcommand};
ghost use Rattle.ld_words.specs.Grammar.{part_rule, exercise_shape, files_shape, node_shape, log_shape, append_shape, tail_shape, register_shape, status_shape, mend_shape, replace_shape, show_shape, trim_shape, ld_app, found, IsCommand};
ghost use Rattle.ld_words.specs.Meaning.{IsNoCommand};
ghost use Rattle.ld_words.specs.Refuses.{Refuses};

use crate::refusal::Refusal;
use clap::error::ErrorKind;
use clap::{Arg, ArgAction, ArgMatches, Command};
use std::alloc::{AllocError, Global};

/// An argument of a command, by its name.
#[derive(Clone, Copy)]
enum Part<'a> {
    /// An option with a value, which has to be given.
    Needed(&'a str),
    /// An option with a value, which may be left out.
    Choice(&'a str),
    /// An option with no value, which may be left out.
    Flag(&'a str),
}

/// The argument, as clap has it.
fn argument<'a>(alloc: Global, part: Part<'a>) -> Arg<'a>
    ensures rule { rule_of result ≡ part_rule part.entry }
    ensures own { result.global ≡ false }
{
    match part {
        Part::Needed(name) => Arg::new(alloc, name).long(name).required(true),
        Part::Choice(name) => Arg::new(alloc, name).long(name),
        Part::Flag(name) => Arg::new(alloc, name).long(name).action(ArgAction::SetTrue),
    }
}

/// The command with one argument more, where it could be made.
#[tactic(auto, using(crate::proofs::Commands::with_one))]
fn with<'a>(made: Result<Command<'a>, AllocError>, more: Arg<'a>) -> Result<Command<'a>, AllocError>
    ensures { (shape : Shape) (rule : Rule) → IfOk made.entry (IsCommand shape) → rule_of more.entry ≡ rule → more.entry.global ≡ false → IfOk result (IsCommand (record shape { rules = shape.rules ++ rule ∷ [] })) }
{
    match made {
        Ok(made) => made.arg(more),
        Err(error) => {
            drop(more);
            Err(error)
        }
    }
}

/// The command with these arguments more, where it could be made.
fn with_parts<'a>(
    made: Result<Command<'a>, AllocError>,
    alloc: Global,
    parts: &[Part<'a>],
) -> Result<Command<'a>, AllocError>
    ensures { (shape : Shape) → IfOk made.entry (IsCommand shape) → IfOk result (IsCommand (record shape { rules = shape.rules ++ map part_rule parts.now })) }
{
    let mut longer = made;
    for part in parts {
        longer = with(longer, argument(alloc, *part));
    }
    longer
}

/// The command that runs a made schedule.
fn exercise_command<'a>(alloc: Global) -> Result<Command<'a>, AllocError>
    ensures { IfOk result (IsCommand exercise_shape) }
{
    with_parts(
        Ok(Command::new(alloc, "exercise")),
        alloc,
        &[Part::Needed("seed"), Part::Needed("events")],
    )
}

/// A command of this name over a node's files.
fn files_command<'a>(alloc: Global, name: &'a str) -> Result<Command<'a>, AllocError>
    ensures { IfOk result (IsCommand (files_shape name.now)) }
{
    with_parts(
        Ok(Command::new(alloc, name)),
        alloc,
        &[
            Part::Needed("id"),
            Part::Needed("config"),
            Part::Needed("store"),
            Part::Needed("register"),
        ],
    )
}

/// The command that serves a node.
fn node_command<'a>(alloc: Global) -> Result<Command<'a>, AllocError>
    ensures { IfOk result (IsCommand node_shape) }
{
    with_parts(
        files_command(alloc, "node"),
        alloc,
        &[
            Part::Choice("port"),
            Part::Choice("listen"),
            Part::Choice("turns"),
            Part::Choice("peers"),
            Part::Choice("idle"),
            Part::Flag("format"),
            Part::Flag("quiet"),
        ],
    )
}

/// A command of this name over a log.
fn log_command<'a>(alloc: Global, name: &'a str) -> Result<Command<'a>, AllocError>
    ensures { IfOk result (IsCommand (log_shape name.now)) }
{
    with_parts(
        Ok(Command::new(alloc, name)),
        alloc,
        &[
            Part::Needed("config"),
            Part::Needed("log"),
            Part::Needed("register"),
            Part::Choice("port"),
            Part::Choice("at"),
            Part::Choice("limit"),
        ],
    )
}

/// The command that appends to a log.
fn append_command<'a>(alloc: Global) -> Result<Command<'a>, AllocError>
    ensures { IfOk result (IsCommand append_shape) }
{
    with_parts(
        log_command(alloc, "append"),
        alloc,
        &[
            Part::Needed("rounds"),
            Part::Choice("in-flight"),
            Part::Flag("batches"),
            Part::Flag("move"),
            Part::Flag("text"),
        ],
    )
}

/// The command that reads a log.
fn tail_command<'a>(alloc: Global) -> Result<Command<'a>, AllocError>
    ensures { IfOk result (IsCommand tail_shape) }
{
    with_parts(
        log_command(alloc, "tail"),
        alloc,
        &[
            Part::Choice("rounds"),
            Part::Needed("from"),
            Part::Choice("until"),
            Part::Choice("pause"),
            Part::Flag("follow"),
            Part::Flag("one-copy"),
            Part::Flag("messages"),
            Part::Flag("text"),
            Part::Flag("json"),
        ],
    )
}

/// The command that tells what the register says of a log, or that copies it.
fn register_command<'a>(alloc: Global) -> Result<Command<'a>, AllocError>
    ensures { IfOk result (IsCommand register_shape) }
{
    with_parts(
        Ok(Command::new(alloc, "register")),
        alloc,
        &[
            Part::Needed("register"),
            Part::Choice("config"),
            Part::Choice("log"),
            Part::Choice("from"),
            Part::Flag("json"),
            Part::Choice("copy"),
        ],
    )
}

/// The command that tells what the register and each node say of a log.
fn status_command<'a>(alloc: Global) -> Result<Command<'a>, AllocError>
    ensures { IfOk result (IsCommand status_shape) }
{
    with_parts(
        log_command(alloc, "status"),
        alloc,
        &[Part::Choice("epochs"), Part::Flag("json")],
    )
}

/// The command by which a stopped node learns what it missed.
fn mend_command<'a>(alloc: Global) -> Result<Command<'a>, AllocError>
    ensures { IfOk result (IsCommand mend_shape) }
{
    with_parts(
        files_command(alloc, "mend"),
        alloc,
        &[
            Part::Choice("port"),
            Part::Choice("at"),
            Part::Needed("rounds"),
            Part::Choice("limit"),
        ],
    )
}

/// The command by which a stopped node takes another one's place.
fn replace_command<'a>(alloc: Global) -> Result<Command<'a>, AllocError>
    ensures { IfOk result (IsCommand replace_shape) }
{
    with_parts(
        files_command(alloc, "replace"),
        alloc,
        &[Part::Needed("of"), Part::Needed("log")],
    )
}

/// The command that shows the store of a stopped node.
fn show_command<'a>(alloc: Global) -> Result<Command<'a>, AllocError>
    ensures { IfOk result (IsCommand show_shape) }
{
    with_parts(
        Ok(Command::new(alloc, "show")),
        alloc,
        &[
            Part::Needed("id"),
            Part::Needed("config"),
            Part::Needed("store"),
            Part::Flag("json"),
        ],
    )
}

/// The command that trims a log.
fn trim_command<'a>(alloc: Global) -> Result<Command<'a>, AllocError>
    ensures { IfOk result (IsCommand trim_shape) }
{
    with_parts(
        log_command(alloc, "trim"),
        alloc,
        &[Part::Needed("rounds"), Part::Needed("upto")],
    )
}

/// The commands with one more, where both could be made.
#[tactic(auto, using(crate::proofs::Commands::added))]
fn add<'a>(
    ld: Result<Command<'a>, AllocError>,
    more: Result<Command<'a>, AllocError>,
) -> Result<Command<'a>, AllocError>
    ensures { (app : App) (shape : Shape) → IfOk ld.entry (λ l. app_of l ≡ app) → IfOk more.entry (IsCommand shape) → IfOk result (λ l. app_of l ≡ with_subcommand app shape) }
{
    match ld {
        Ok(ld) => match more {
            Ok(more) => ld.subcommand(more),
            Err(error) => {
                drop(ld);
                Err(error)
            }
        },
        Err(error) => {
            drop(more);
            Err(error)
        }
    }
}

/// The commands, with no help and no version.
fn ld_command<'a>(alloc: Global) -> Result<Command<'a>, AllocError>
    ensures { IfOk result (λ command. app_of command ≡ ld_app) }
{
    let ld = Command::new(alloc, "ld")
        .no_binary_name(true)
        .disable_help_flag(true)
        .disable_help_subcommand(true)
        .subcommand_required(true);
    let with_replay = add(Ok(ld), Ok(Command::new(alloc, "replay")));
    let with_exercise = add(with_replay, exercise_command(alloc));
    let with_node = add(with_exercise, node_command(alloc));
    let with_append = add(with_node, append_command(alloc));
    let with_tail = add(with_append, tail_command(alloc));
    let with_register = add(with_tail, register_command(alloc));
    let with_status = add(with_register, status_command(alloc));
    let with_mend = add(with_status, mend_command(alloc));
    let with_replace = add(with_mend, replace_command(alloc));
    let with_show = add(with_replace, show_command(alloc));
    add(with_show, trim_command(alloc))
}

/// What clap finds in the arguments.
pub fn matches<'a>(alloc: Global, words: &'a [String]) -> Result<ArgMatches<'a>, Refusal>
    ensures { MatchResult result (λ m. found (map string_bytes words.now) ≡ subcommand_rows_of m) (Refuses (IsNoCommand (map string_bytes words.now))) }
{
    let command = ld_command(alloc)?;
    match command.try_get_matches_from(words) {
        Ok(matches) => Ok(matches),
        Err(error) => {
            if error.kind() == ErrorKind::OutOfMemory {
                return Err(Refusal::NoMemory);
            }
            Err(Refusal::Form(error))
        }
    }
}
