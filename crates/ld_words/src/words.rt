// The command that the arguments ask for.
ghost use Rattle.std.specs.Prelude.{◌≡◌, ◌≤◌, ℕ, [], false, None, Some, IfOk, MatchOption, MatchResult, IfSome, codes, map, string_bytes};
ghost use Rattle.clap.specs.Walk.{Text};
ghost use Rattle.clap.specs.Words.{rows_of, found_of, first_of, subcommand_rows_of};
ghost use Rattle.ld_config.specs.Bounds.{IsInBounds};
ghost use Rattle.ld_words.specs.declared.command.NodeWords.{NodeWords as Node};
ghost use Rattle.ld_words.specs.declared.command.LogWords.{LogWords as Log};
ghost use Rattle.ld_words.specs.declared.command.AppendWords.{AppendWords as Appending};
ghost use Rattle.ld_words.specs.declared.command.TailWords.{TailWords as Tail};
ghost use Rattle.ld_words.specs.declared.command.RegisterWords.{RegisterWords as Looking};
ghost use Rattle.ld_words.specs.declared.command.StatusWords.{StatusWords as Asking};
ghost use Rattle.ld_words.specs.declared.command.TrimWords.{TrimWords as Trimming};
ghost use Rattle.ld_words.specs.declared.command.Command.{Command as Choice};
ghost use Rattle.ld_words.specs.Meaning.{IsExercise, IsTurns, IsNodeWords, IsLsn, IsLogWords, IsAppendWords, IsRange, IsTailWords, IsRegisterWords, IsStatusWords, IsTrimWords, is_true, style_of, shown_of, IsNamed, IsFound, Asks, IsNoCommand, ArePlacesOf, ArePlacesOfNode, ArePlacesOfLog, AreFilesAlone, HasNoPlaces, AskForPlaces, AskForNoPlaces};
ghost use Rattle.ld_words.specs.declared.words.ServeWords.{ServeWords as Serving};
ghost use Rattle.ld_words.specs.declared.words.ReachWords.{ReachWords as Reached};
ghost use Rattle.ld_words.specs.declared.words.ReadWords.{ReadWords as Reading};
ghost use Rattle.ld_words.specs.Parts.{IsServeWords, IsReachWords, IsReachInBounds, IsPace, IsReadWords, IsRegisterFrom, IsDepth};
ghost use Rattle.ld_words.specs.Refuses.{Refuses};
ghost use Rattle.ld_words.specs.Bounds.{IsLogInBounds, IsAppendInBounds, IsTailInBounds, IsRegisterInBounds, IsStatusInBounds, IsTrimInBounds, HasBounds};

use crate::argument::Argument;
use crate::arguments::{file_name, files, flag, lsn, number, number_or};
use crate::configured::{known_log, node_of};
use crate::copying::copy_words;
use crate::following::{pause, rounds, until};
use crate::grammar::matches;
use crate::reach::{is_given, listen, reach};
use crate::refusal::Refusal;
use crate::stopped::{mend_words, replace_words, show_words};
use crate::{
    AppendWords, Command, Company, CrowdWords, FileName, Listen, LogWords, NodeWords, Places,
    Reach, RegisterWords, Shown, StatusWords, TailWords, TrimWords,
};
use clap::ArgMatches;
use ld_config::Config;
use ld_ids::{LogId, NoMemory};
use ld_lsn::Lsn;
use ld_msg::Style;
use std::alloc::Global;

/// After how many turns a node ends.
fn turns(matches: &ArgMatches<'_>) -> Result<u64, Refusal>
    ensures { MatchResult result
        (IsTurns (rows_of (found_of matches.now)))
        (Refuses ((n : ℕ) → IsTurns (rows_of (found_of matches.now)) n → ⊥)) }
{
    match (is_given(matches, "turns"), is_given(matches, "peers")) {
        (_, true) => number_or(matches, "turns", 1, 1_000_000_000, u64::MAX),
        (true, false) => number(matches, "turns", 1, 1_000_000_000),
        (false, false) => Err(Refusal::Neither {
            one: Argument::of("turns"),
            other: Argument::of("peers"),
        }),
    }
}

/// The files of a node, where it listens, and after how many turns it ends.
#[derive(Drop)]
struct ServeWords {
    store: FileName,
    register: FileName,
    listen: Listen,
    turns: u64,
}

/// What the arguments say of a node, but for its number and its configuration.
fn serve_words(alloc: Global, matches: &ArgMatches<'_>) -> Result<ServeWords, Refusal>
    ensures { MatchResult result
        (IsServeWords (rows_of (found_of matches.now)))
        (Refuses ((s : Serving) → IsServeWords (rows_of (found_of matches.now)) s → ⊥)) }
{
    let (store, register) = files(alloc, matches)?;
    let listen = match listen(alloc, matches) {
        Ok(listen) => listen,
        Err(refusal) => {
            drop(store);
            drop(register);
            return Err(refusal);
        }
    };
    match turns(matches) {
        Ok(turns) => Ok(ServeWords {
            store,
            register,
            listen,
            turns,
        }),
        Err(refusal) => {
            drop(store);
            drop(register);
            drop(listen);
            Err(refusal)
        }
    }
}

/// What the arguments say of a node.
fn node_words(alloc: Global, matches: &ArgMatches<'_>) -> Result<NodeWords, Refusal>
    ensures says { MatchResult result
        (IsNodeWords (rows_of (found_of matches.now)))
        (Refuses ((n : Node) → IsNodeWords (rows_of (found_of matches.now)) n → ⊥)) }
    ensures bounds { IfOk result (λ n. IsInBounds n.config) }
{
    let (id, config) = node_of(alloc, matches)?;
    match serve_words(alloc, matches) {
        Ok(serving) => Ok(NodeWords {
            id,
            config,
            store: serving.store,
            register: serving.register,
            listen: serving.listen,
            turns: serving.turns,
            format: flag(matches, "format"),
            quiet: flag(matches, "quiet"),
        }),
        Err(refusal) => {
            drop(config);
            Err(refusal)
        }
    }
}

/// The command that serves a node: its peers one after the other, or several at once where the arguments say how many.
fn node_command(alloc: Global, matches: &ArgMatches<'_>) -> Result<Command, Refusal>
    ensures means { MatchResult result
        (IsNamed (codes "node") (rows_of (found_of matches.now)))
        (Refuses ((c : Choice) → IsNamed (codes "node") (rows_of (found_of matches.now)) c → ⊥)) }
    ensures bounds { IfOk result HasBounds }
{
    let node = node_words(alloc, matches)?;
    if !is_given(matches, "peers") {
        if is_given(matches, "idle") {
            drop(node);
            return Err(Refusal::Without {
                name: Argument::of("idle"),
                other: Argument::of("peers"),
            });
        }
        return Ok(Command::Node(node));
    }
    let peers = match number(matches, "peers", 2, 1_000) {
        Ok(peers) => peers,
        Err(refusal) => {
            drop(node);
            return Err(refusal);
        }
    };
    let idle = match number_or(matches, "idle", 1, 86_400, 60) {
        Ok(idle) => idle,
        Err(refusal) => {
            drop(node);
            return Err(refusal);
        }
    };
    Ok(Command::Crowd(CrowdWords {
        node,
        company: Company {
            peers: peers as u32,
            idle: idle as u32,
        },
    }))
}

/// A log of a configuration, the file of its register, and where the configuration's nodes are.
#[derive(Drop)]
struct ReachWords {
    config: Config,
    log: LogId,
    register: FileName,
    reach: Reach,
}

/// What the arguments say of a log and of how it is reached.
fn reach_words(alloc: Global, matches: &ArgMatches<'_>) -> Result<ReachWords, Refusal>
    ensures says { MatchResult result
        (IsReachWords (rows_of (found_of matches.now)))
        (Refuses ((r : Reached) → IsReachWords (rows_of (found_of matches.now)) r → ⊥)) }
    ensures bounds { IfOk result IsReachInBounds }
{
    let (log, config) = known_log(alloc, matches)?;
    let register = match file_name(alloc, matches, "register") {
        Ok(register) => register,
        Err(refusal) => {
            drop(config);
            return Err(refusal);
        }
    };
    match reach(alloc, matches, &config.nodes) {
        Ok(reach) => Ok(ReachWords {
            config,
            log,
            register,
            reach,
        }),
        Err(refusal) => {
            drop(config);
            drop(register);
            Err(refusal)
        }
    }
}

/// After how many rounds a command over a log gives up, and how long it waits for a node.
fn pace(matches: &ArgMatches<'_>) -> Result<(u64, u32), Refusal>
    ensures { MatchResult result
        (λ p. IsPace (rows_of (found_of matches.now)) p.0 p.1)
        (Refuses ((many most : ℕ) → IsPace (rows_of (found_of matches.now)) many most → ⊥)) }
{
    let rounds = rounds(matches)?;
    let limit = number_or(matches, "limit", 100, 60_000, 10_000)?;
    Ok((rounds, limit as u32))
}

/// What the arguments say of a log.
fn log_words(alloc: Global, matches: &ArgMatches<'_>) -> Result<LogWords, Refusal>
    ensures says { MatchResult result
        (IsLogWords (rows_of (found_of matches.now)))
        (Refuses ((w : Log) → IsLogWords (rows_of (found_of matches.now)) w → ⊥)) }
    ensures bounds { IfOk result IsLogInBounds }
{
    let reached = reach_words(alloc, matches)?;
    match pace(matches) {
        Ok((rounds, limit)) => Ok(LogWords {
            config: reached.config,
            log: reached.log,
            register: reached.register,
            reach: reached.reach,
            rounds,
            limit,
        }),
        Err(refusal) => {
            drop(reached);
            Err(refusal)
        }
    }
}

/// What the arguments say of a log that is appended to.
fn append_words(alloc: Global, matches: &ArgMatches<'_>) -> Result<AppendWords, Refusal>
    ensures says { MatchResult result
        (IsAppendWords (rows_of (found_of matches.now)))
        (Refuses ((w : Appending) → IsAppendWords (rows_of (found_of matches.now)) w → ⊥)) }
    ensures bounds { IfOk result IsAppendInBounds }
{
    let of = log_words(alloc, matches)?;
    let in_flight = match number_or(matches, "in-flight", 1, 128, 1) {
        Ok(in_flight) => in_flight,
        Err(refusal) => {
            drop(of);
            return Err(refusal);
        }
    };
    Ok(AppendWords {
        of,
        in_flight: in_flight as u32,
        batches: flag(matches, "batches"),
        moves: flag(matches, "move"),
        text: flag(matches, "text"),
    })
}

/// The number up to which a log is trimmed.
fn upto(matches: &ArgMatches<'_>) -> Result<Lsn, Refusal>
    ensures { MatchResult result
        (λ last. IsLsn (codes "upto") (rows_of (found_of matches.now)) last × (1 ≤ last))
        (Refuses ((last : ℕ) → IsLsn (codes "upto") (rows_of (found_of matches.now)) last → 1 ≤ last → ⊥)) }
{
    let upto = lsn(matches, "upto")?;
    if upto.value() < 1 {
        return Err(Refusal::NoTrim);
    }
    Ok(upto)
}

/// What the arguments say of a log that is trimmed.
fn trim_words(alloc: Global, matches: &ArgMatches<'_>) -> Result<TrimWords, Refusal>
    ensures says { MatchResult result
        (IsTrimWords (rows_of (found_of matches.now)))
        (Refuses ((t : Trimming) → IsTrimWords (rows_of (found_of matches.now)) t → ⊥)) }
    ensures bounds { IfOk result IsTrimInBounds }
{
    let upto = upto(matches)?;
    match log_words(alloc, matches) {
        Ok(of) => Ok(TrimWords { of, upto }),
        Err(refusal) => Err(refusal),
    }
}

/// How payloads come, and are written.
fn style(matches: &ArgMatches<'_>) -> Result<Style, Refusal>
    ensures { MatchResult result
        (λ style. style_of (is_true (first_of (codes "one-copy") (rows_of (found_of matches.now)))) (is_true (first_of (codes "messages") (rows_of (found_of matches.now)))) ≡ Some style)
        (Refuses (style_of (is_true (first_of (codes "one-copy") (rows_of (found_of matches.now)))) (is_true (first_of (codes "messages") (rows_of (found_of matches.now)))) ≡ None)) }
{
    match (flag(matches, "one-copy"), flag(matches, "messages")) {
        (false, false) => Ok(Style::EachCopy),
        (true, false) => Ok(Style::OneCopy),
        (false, true) => Ok(Style::OfMessages),
        (true, true) => Err(Refusal::Styles),
    }
}

/// How what a reader gets is written.
fn form(matches: &ArgMatches<'_>) -> Result<Shown, Refusal>
    ensures { MatchResult result
        (λ shown. shown_of (is_true (first_of (codes "text") (rows_of (found_of matches.now)))) (is_true (first_of (codes "json") (rows_of (found_of matches.now)))) ≡ Some shown)
        (Refuses (shown_of (is_true (first_of (codes "text") (rows_of (found_of matches.now)))) (is_true (first_of (codes "json") (rows_of (found_of matches.now)))) ≡ None)) }
{
    match (flag(matches, "text"), flag(matches, "json")) {
        (false, false) => Ok(Shown::Lines),
        (true, false) => Ok(Shown::Text),
        (false, true) => Ok(Shown::Json),
        (true, true) => Err(Refusal::Both {
            one: Argument::of("text"),
            other: Argument::of("json"),
        }),
    }
}

/// The first and the last number that the arguments say.
#[tactic(auto, using(crate::proofs::OneCommand::first_of_range, crate::proofs::OneCommand::last_of_range))]
fn range(matches: &ArgMatches<'_>) -> Result<(Lsn, Lsn), Refusal>
    ensures { MatchResult result
        (λ r. IsRange (rows_of (found_of matches.now)) r.0 r.1)
        (Refuses ((first last : ℕ) → IsRange (rows_of (found_of matches.now)) first last → ⊥)) }
{
    let from = lsn(matches, "from")?;
    let until = until(matches)?;
    if from.value() == 0 || until.value() < from.value() {
        return Err(Refusal::Order);
    }
    Ok((from, until))
}

/// Which numbers of a log are read, and how.
#[derive(Clone, Copy)]
struct ReadWords {
    from: Lsn,
    until: Lsn,
    style: Style,
    pause: u32,
    shown: Shown,
}

/// What the arguments say of how a log is read.
fn read_words(matches: &ArgMatches<'_>) -> Result<ReadWords, Refusal>
    ensures { MatchResult result
        (IsReadWords (rows_of (found_of matches.now)))
        (Refuses ((r : Reading) → IsReadWords (rows_of (found_of matches.now)) r → ⊥)) }
{
    let (from, until) = range(matches)?;
    let style = style(matches)?;
    let pause = pause(matches)?;
    let shown = form(matches)?;
    Ok(ReadWords {
        from,
        until,
        style,
        pause,
        shown,
    })
}

/// What the arguments say of a log that is read.
fn tail_words(alloc: Global, matches: &ArgMatches<'_>) -> Result<TailWords, Refusal>
    ensures says { MatchResult result
        (IsTailWords (rows_of (found_of matches.now)))
        (Refuses ((t : Tail) → IsTailWords (rows_of (found_of matches.now)) t → ⊥)) }
    ensures bounds { IfOk result IsTailInBounds }
{
    let of = log_words(alloc, matches)?;
    match read_words(matches) {
        Ok(reading) => Ok(TailWords {
            of,
            from: reading.from,
            until: reading.until,
            style: reading.style,
            pause: reading.pause,
            shown: reading.shown,
        }),
        Err(refusal) => {
            drop(of);
            Err(refusal)
        }
    }
}

/// The file of the register that is asked, and the first epoch that is told.
fn register_from(alloc: Global, matches: &ArgMatches<'_>) -> Result<(FileName, u32), Refusal>
    ensures { MatchResult result
        (λ r. IsRegisterFrom (rows_of (found_of matches.now)) r.0 r.1)
        (Refuses ((kept : Text) (first : ℕ) → IsRegisterFrom (rows_of (found_of matches.now)) kept first → ⊥)) }
{
    let register = file_name(alloc, matches, "register")?;
    match number_or(matches, "from", 1, 4_294_967_295, 1) {
        Ok(from) => Ok((register, from as u32)),
        Err(refusal) => {
            drop(register);
            Err(refusal)
        }
    }
}

/// What the arguments say of a log of which the register is asked.
fn register_words(alloc: Global, matches: &ArgMatches<'_>) -> Result<RegisterWords, Refusal>
    ensures says { MatchResult result
        (IsRegisterWords (rows_of (found_of matches.now)))
        (Refuses ((r : Looking) → IsRegisterWords (rows_of (found_of matches.now)) r → ⊥)) }
    ensures bounds { IfOk result IsRegisterInBounds }
{
    let (log, config) = known_log(alloc, matches)?;
    match register_from(alloc, matches) {
        Ok((register, from)) => Ok(RegisterWords {
            config,
            log,
            register,
            from,
            json: flag(matches, "json"),
        }),
        Err(refusal) => {
            drop(config);
            Err(refusal)
        }
    }
}

/// How long a command waits for a node, and how many epochs it tells.
fn depth(matches: &ArgMatches<'_>) -> Result<(u32, u32), Refusal>
    ensures { MatchResult result
        (λ d. IsDepth (rows_of (found_of matches.now)) d.0 d.1)
        (Refuses ((most many : ℕ) → IsDepth (rows_of (found_of matches.now)) most many → ⊥)) }
{
    let limit = number_or(matches, "limit", 100, 60_000, 10_000)?;
    let epochs = number_or(matches, "epochs", 1, 1_000_000, 16)?;
    Ok((limit as u32, epochs as u32))
}

/// What the arguments say of a log of which the register and the nodes are asked.
fn status_words(alloc: Global, matches: &ArgMatches<'_>) -> Result<StatusWords, Refusal>
    ensures says { MatchResult result
        (IsStatusWords (rows_of (found_of matches.now)))
        (Refuses ((s : Asking) → IsStatusWords (rows_of (found_of matches.now)) s → ⊥)) }
    ensures bounds { IfOk result IsStatusInBounds }
{
    let reached = reach_words(alloc, matches)?;
    match depth(matches) {
        Ok((limit, epochs)) => Ok(StatusWords {
            config: reached.config,
            log: reached.log,
            register: reached.register,
            reach: reached.reach,
            limit,
            epochs,
            json: flag(matches, "json"),
        }),
        Err(refusal) => {
            drop(reached);
            Err(refusal)
        }
    }
}

/// The seed and the number of events that the arguments say.
fn exercise(matches: &ArgMatches<'_>) -> Result<(u64, u32), Refusal>
    ensures { MatchResult result
        (λ e. IsExercise (rows_of (found_of matches.now)) e.0 e.1)
        (Refuses ((seed events : ℕ) → IsExercise (rows_of (found_of matches.now)) seed events → ⊥)) }
{
    let seed = number(matches, "seed", 0, u64::MAX)?;
    let events = number(matches, "events", 0, 100_000)?;
    Ok((seed, events as u32))
}

/// The command that tells what the register says of a log, or that copies it where the arguments say from where.
fn register_command(alloc: Global, matches: &ArgMatches<'_>) -> Result<Command, Refusal>
    ensures means { MatchResult result
        (IsNamed (codes "register") (rows_of (found_of matches.now)))
        (Refuses ((c : Choice) → IsNamed (codes "register") (rows_of (found_of matches.now)) c → ⊥)) }
    ensures bounds { IfOk result HasBounds }
{
    if is_given(matches, "copy") {
        return Ok(Command::Copy(copy_words(alloc, matches)?));
    }
    Ok(Command::Register(register_words(alloc, matches)?))
}

/// The command that runs a made schedule.
fn exercise_command(matches: &ArgMatches<'_>) -> Result<Command, Refusal>
    ensures means { MatchResult result
        (IsNamed (codes "exercise") (rows_of (found_of matches.now)))
        (Refuses ((c : Choice) → IsNamed (codes "exercise") (rows_of (found_of matches.now)) c → ⊥)) }
    ensures bounds { IfOk result HasBounds }
{
    let (seed, events) = exercise(matches)?;
    Ok(Command::Exercise { seed, events })
}

/// The command that appends to a log.
fn append_command(alloc: Global, matches: &ArgMatches<'_>) -> Result<Command, Refusal>
    ensures means { MatchResult result
        (IsNamed (codes "append") (rows_of (found_of matches.now)))
        (Refuses ((c : Choice) → IsNamed (codes "append") (rows_of (found_of matches.now)) c → ⊥)) }
    ensures bounds { IfOk result HasBounds }
{
    Ok(Command::Append(append_words(alloc, matches)?))
}

/// The command that reads a log.
fn tail_command(alloc: Global, matches: &ArgMatches<'_>) -> Result<Command, Refusal>
    ensures means { MatchResult result
        (IsNamed (codes "tail") (rows_of (found_of matches.now)))
        (Refuses ((c : Choice) → IsNamed (codes "tail") (rows_of (found_of matches.now)) c → ⊥)) }
    ensures bounds { IfOk result HasBounds }
{
    Ok(Command::Tail(tail_words(alloc, matches)?))
}

/// The command that tells what the register and each node say of a log.
fn status_command(alloc: Global, matches: &ArgMatches<'_>) -> Result<Command, Refusal>
    ensures means { MatchResult result
        (IsNamed (codes "status") (rows_of (found_of matches.now)))
        (Refuses ((c : Choice) → IsNamed (codes "status") (rows_of (found_of matches.now)) c → ⊥)) }
    ensures bounds { IfOk result HasBounds }
{
    Ok(Command::Status(status_words(alloc, matches)?))
}

/// The command by which a stopped node learns what it missed.
fn mend_command(alloc: Global, matches: &ArgMatches<'_>) -> Result<Command, Refusal>
    ensures means { MatchResult result
        (IsNamed (codes "mend") (rows_of (found_of matches.now)))
        (Refuses ((c : Choice) → IsNamed (codes "mend") (rows_of (found_of matches.now)) c → ⊥)) }
    ensures bounds { IfOk result HasBounds }
{
    Ok(Command::Mend(mend_words(alloc, matches)?))
}

/// The command by which a stopped node takes another one's place.
fn replace_command(alloc: Global, matches: &ArgMatches<'_>) -> Result<Command, Refusal>
    ensures means { MatchResult result
        (IsNamed (codes "replace") (rows_of (found_of matches.now)))
        (Refuses ((c : Choice) → IsNamed (codes "replace") (rows_of (found_of matches.now)) c → ⊥)) }
    ensures bounds { IfOk result HasBounds }
{
    Ok(Command::Replace(replace_words(alloc, matches)?))
}

/// The command that shows the store of a stopped node.
fn show_command(alloc: Global, matches: &ArgMatches<'_>) -> Result<Command, Refusal>
    ensures means { MatchResult result
        (IsNamed (codes "show") (rows_of (found_of matches.now)))
        (Refuses ((c : Choice) → IsNamed (codes "show") (rows_of (found_of matches.now)) c → ⊥)) }
    ensures bounds { IfOk result HasBounds }
{
    Ok(Command::Show(show_words(alloc, matches)?))
}

/// The command that trims a log.
fn trim_command(alloc: Global, matches: &ArgMatches<'_>) -> Result<Command, Refusal>
    ensures means { MatchResult result
        (IsNamed (codes "trim") (rows_of (found_of matches.now)))
        (Refuses ((c : Choice) → IsNamed (codes "trim") (rows_of (found_of matches.now)) c → ⊥)) }
    ensures bounds { IfOk result HasBounds }
{
    Ok(Command::Trim(trim_words(alloc, matches)?))
}

/// The command of this name, with these arguments.
fn named(alloc: Global, name: &str, matches: &ArgMatches<'_>) -> Result<Command, Refusal>
    ensures means { MatchResult result
        (IsNamed name.now (rows_of (found_of matches.now)))
        (Refuses ((c : Choice) → IsNamed name.now (rows_of (found_of matches.now)) c → ⊥)) }
    ensures bounds { IfOk result HasBounds }
{
    if name == "replay" {
        return Ok(Command::Replay);
    }
    if name == "exercise" {
        return exercise_command(matches);
    }
    if name == "node" {
        return node_command(alloc, matches);
    }
    if name == "append" {
        return append_command(alloc, matches);
    }
    if name == "tail" {
        return tail_command(alloc, matches);
    }
    if name == "register" {
        return register_command(alloc, matches);
    }
    if name == "status" {
        return status_command(alloc, matches);
    }
    if name == "mend" {
        return mend_command(alloc, matches);
    }
    if name == "replace" {
        return replace_command(alloc, matches);
    }
    if name == "show" {
        return show_command(alloc, matches);
    }
    if name == "trim" {
        return trim_command(alloc, matches);
    }
    Err(Refusal::Unknown)
}

/// The command that was found.
fn command(alloc: Global, matches: &ArgMatches<'_>) -> Result<Command, Refusal>
    ensures means { MatchResult result
        (IsFound (subcommand_rows_of matches.now))
        (Refuses ((c : Choice) → IsFound (subcommand_rows_of matches.now) c → ⊥)) }
    ensures bounds { IfOk result HasBounds }
{
    match matches.subcommand() {
        Some((name, inner)) => named(alloc, name, inner),
        None => Err(Refusal::Unknown),
    }
}

/// The command that the arguments ask for, or why there is none.
fn try_read(alloc: Global, words: &[String]) -> Result<Command, Refusal>
    ensures asks { MatchResult result (Asks (map string_bytes words.now)) (Refuses (IsNoCommand (map string_bytes words.now))) }
    ensures bounds { IfOk result HasBounds }
{
    let matches = matches(alloc, words)?;
    command(alloc, &matches)
}

/// Reads the command-line arguments, which are without the program's name. None exactly where they ask for no command;
/// `NoMemory` is the one fault.
pub fn read(alloc: Global, words: &[String]) -> Result<Option<Command>, NoMemory>
    ensures asks { IfOk result (λ command. MatchOption command (IsNoCommand (map string_bytes words.now)) (Asks (map string_bytes words.now))) }
    ensures bounds { IfOk result (λ command. IfSome command HasBounds) }
{
    match try_read(alloc, words) {
        Ok(command) => Ok(Some(command)),
        Err(refusal) => {
            if refusal.is_memory() {
                return Err(NoMemory);
            }
            Ok(None)
        }
    }
}

/// The files of a command that has some, and where it listens or dials.
fn places_of(alloc: Global, command: Command) -> Option<Places>
    ensures { MatchOption result (HasNoPlaces command) (ArePlacesOf command) }
{
    match command {
        Command::Replay | Command::Exercise { .. } => None,
        Command::Node(node) => Some(node_places(node, None)),
        Command::Crowd(words) => Some(node_places(words.node, Some(words.company))),
        Command::Append(words) => Some(log_places(words.of)),
        Command::Tail(words) => Some(log_places(words.of)),
        Command::Register(words) => Some(files_alone(None, words.register, None)),
        Command::Status(words) => Some(dialing(None, words.register, words.reach, words.limit)),
        Command::Mend(words) => Some(dialing(
            Some(words.store),
            words.register,
            words.reach,
            words.limit,
        )),
        Command::Replace(words) => Some(files_alone(Some(words.store), words.register, None)),
        Command::Show(words) => Some(files_alone(Some(words.store), no_file(alloc), None)),
        Command::Trim(words) => Some(log_places(words.of)),
        Command::Copy(words) => Some(files_alone(None, words.register, Some(words.from))),
    }
}

/// The name that is empty.
fn no_file(alloc: Global) -> FileName
    ensures { result ≡ [] }
{
    FileName::new(String::new(alloc))
}

/// The files of a node, where it listens, its peers, where it serves several at once, and whether it is quiet.
fn node_places(node: NodeWords, company: Option<Company>) -> Places
    ensures places { ArePlacesOfNode node result }
    ensures company { result.company ≡ company }
{
    Places {
        store: Some(node.store),
        register: node.register,
        copied: None,
        listen: node.listen,
        reach: Reach::Above(0),
        limit: 10_000,
        company,
        quiet: node.quiet,
    }
}

/// The file of a command over a log, which has no store, and where its nodes are.
fn log_places(words: LogWords) -> Places
    ensures { ArePlacesOfLog words result }
{
    dialing(None, words.register, words.reach, words.limit)
}

/// The files of a command that dials nodes, and where they are.
fn dialing(store: Option<FileName>, register: FileName, reach: Reach, limit: u32) -> Places
    ensures store { result.store ≡ store }
    ensures register { result.register ≡ register }
    ensures copied { result.copied ≡ None }
    ensures reach { result.reach ≡ reach }
    ensures limit { result.limit ≡ limit }
    ensures quiet { result.quiet ≡ false }
{
    Places {
        store,
        register,
        copied: None,
        listen: Listen::Port(0),
        reach,
        limit,
        company: None,
        quiet: false,
    }
}

/// The files of a command that neither listens nor dials.
fn files_alone(store: Option<FileName>, register: FileName, copied: Option<FileName>) -> Places
    ensures { AreFilesAlone store register copied result }
{
    Places {
        store,
        register,
        copied,
        listen: Listen::Port(0),
        reach: Reach::Above(0),
        limit: 10_000,
        company: None,
        quiet: false,
    }
}

/// The files that the arguments name, and where their command listens or dials. None exactly where they ask for no command that
/// has places; `NoMemory` is the one fault.
pub fn places(alloc: Global, words: &[String]) -> Result<Option<Places>, NoMemory>
    ensures { IfOk result (λ places. MatchOption places (AskForNoPlaces (map string_bytes words.now)) (AskForPlaces (map string_bytes words.now))) }
{
    match read(alloc, words)? {
        Some(command) => Ok(places_of(alloc, command)),
        None => Ok(None),
    }
}

/// The text of a refusal.
fn told(alloc: Global, refusal: Refusal) -> Result<String, NoMemory> {
    let text = refusal.text(alloc);
    drop(refusal);
    Ok(text?)
}

/// A text for a person that says why the arguments ask for no command. It is empty where they ask for one.
pub fn reason(alloc: Global, words: &[String]) -> Result<String, NoMemory> {
    match try_read(alloc, words) {
        Ok(command) => {
            drop(command);
            Ok(String::new(alloc))
        }
        Err(refusal) => told(alloc, refusal),
    }
}
