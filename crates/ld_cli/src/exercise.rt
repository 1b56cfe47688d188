// A made schedule is played, and its transcript summed up.
ghost use Rattle.std.specs.Prelude.{◌≡◌, ◌+◌, ◌*◌, ◌^◌, ℕ, [], Some, OnOk, IfOk, IfErr};
ghost use Rattle.ld_machine.specs.Run.{step};
ghost use Rattle.ld_cluster.specs.Standing.{config_of, state_of, IsReached};
ghost use Rattle.ld_cluster.specs.Steps.{Counts};
ghost use Rattle.ld_maker.specs.Made.{first_events};
ghost use Rattle.ld_maker.specs.Tally.{HasRoom, more_lines, tally};
ghost use Rattle.ld_cli.specs.Step.{IsTaken};
ghost use Rattle.ld_cli.specs.Causes.{IsWriteStop};
ghost use Rattle.ld_cli.specs.Exercise.{made_lines, IsExercised, StopsExercise, EndsExercise, HasPlayed};
ghost use Rattle.ld_cli.specs.Ends.{IsOfReplay};
ghost use Rattle.ld_io.specs.Causes.{Rose};

use crate::status::{Status, Stop};
use ld_cluster::Cluster;
use ld_ids::NoMemory;
use ld_io::Sink;
use ld_maker::{Maker, Tally, configuration, first_events, summary_line};
use ld_rounds::write_all;
use ld_schedule::Event;
use ld_transcript::Lines;
use std::alloc::Global;

/// A cluster of the made configuration, and the counts of the lines of its steps.
#[derive(Drop)]
struct Play {
    cluster: Cluster,
    tally: Tally,
}

/// Plays the made schedule, and writes its summary.
pub(crate) fn exercised<O: Sink>(alloc: Global, seed: u64, events: u32, out: &mut O) -> Status
    ensures ends { EndsExercise seed events (Some (O.written out.old)) (Some (O.written out.new)) result }
    ensures write { result ≡ Status.Write → Rose (O.faults out.old) (O.faults out.new) }
    ensures replays { IsOfReplay result }
{
    match exercise(alloc, seed, events, out) {
        Ok(()) => Status::Ok,
        Err(Stop::BadSchedule { line, place }) => Status::BadSchedule { line, place },
        Err(Stop::NoMemory) => Status::NoMemory,
        Err(Stop::Read) => Status::Read,
        Err(Stop::Write) => Status::Write,
    }
}

/// Plays the made schedule of this seed, with so many events behind its first seven, and writes the summary of its
/// transcript. Memory doesn't grow with the transcript, whose lines are counted and let go.
///
/// Without memory nothing is written, and where the sink fails a part of the summary.
fn exercise<O: Sink>(alloc: Global, seed: u64, events: u32, out: &mut O) -> Result<(), Stop>
    ensures exercised { OnOk result (IsExercised seed events (Some (O.written out.old)) (Some (O.written out.new))) }
    ensures stopped { IfErr result (StopsExercise seed events (Some (O.written out.old)) (Some (O.written out.new))) }
    ensures cause { IfErr result (IsWriteStop (O.faults out.old) (O.faults out.new)) }
{
    let tally = play_made(alloc, seed, events)?;
    let line = summary_line(alloc, u64::from(events) + 7, &tally)?;
    match write_all(out, &line) {
        Ok(()) => Ok(()),
        Err(_) => Err(Stop::Write),
    }
}

/// Plays the made schedule, and answers the counts of its lines.
fn play_made(alloc: Global, seed: u64, events: u32) -> Result<Tally, NoMemory>
    ensures { IfOk result (λ counts. counts ≡ tally (made_lines seed events)) }
{
    let mut play = begin(alloc)?;
    let played = play_events(alloc, &mut play, seed, events);
    let counts = play.tally;
    drop(play);
    match played {
        Ok(()) => Ok(counts),
        Err(failed) => Err(failed),
    }
}

/// Plays the events of the made schedule behind its first ones.
fn play_events(alloc: Global, play: &mut Play, seed: u64, events: u32) -> Result<(), NoMemory>
    requires { HasPlayed play.old.cluster play.old.tally first_events (2 ^ 32) }
    ensures { OnOk result (play.new.tally ≡ tally (made_lines seed events)) }
{
    let mut maker = Maker::new(seed);
    'events: for _ in 0..events {
        let event = maker.next_event(alloc)?;
        take(alloc, play, &event)?;
    }
    Ok(())
}

/// Plays the first events.
fn begin(alloc: Global) -> Result<Play, NoMemory>
    ensures { IfOk result (λ play. HasPlayed play.cluster play.tally first_events (2 ^ 32)) }
{
    let mut play = new_play(alloc)?;
    match play_first(alloc, &mut play) {
        Ok(()) => Ok(play),
        Err(failed) => {
            drop(play);
            Err(failed)
        }
    }
}

/// Plays no event yet.
fn new_play(alloc: Global) -> Result<Play, NoMemory>
    ensures { IfOk result (λ play. HasPlayed play.cluster play.tally [] (2 ^ 32 + 7)) }
{
    let config = configuration(alloc)?;
    let cluster = Cluster::new(alloc, config)?;
    Ok(Play {
        cluster,
        tally: Tally::new(),
    })
}

/// Plays the first events on a cluster that has played none.
fn play_first(alloc: Global, play: &mut Play) -> Result<(), NoMemory>
    requires { HasPlayed play.old.cluster play.old.tally [] (2 ^ 32 + 7) }
    ensures { OnOk result (HasPlayed play.new.cluster play.new.tally first_events (2 ^ 32)) }
{
    let events = first_events(alloc)?;
    for event in &events {
        take(alloc, play, event)?;
    }
    Ok(())
}

/// Takes an event, and counts its lines.
fn take(alloc: Global, play: &mut Play, event: &Event) -> Result<(), NoMemory>
    requires reached { IsReached play.old.cluster }
    requires counts { Counts event.now }
    requires room { HasRoom play.old.tally (2 ^ 64) }
    ensures step { OnOk result (IsTaken play.old.cluster event.now play.new.cluster) }
    ensures counted { OnOk result (play.new.tally ≡ more_lines play.old.tally (step (config_of play.old.cluster) (state_of play.old.cluster) event.now).lines) }
    ensures room { OnOk result ((n : ℕ) → HasRoom play.old.tally (n + 2 ^ 64) → HasRoom play.new.tally n) }
{
    let mut lines = Lines::new(alloc);
    play.cluster.step(alloc, event, &mut lines)?;
    play.tally.add(lines.as_slice());
    Ok(())
}
