// A schedule is replayed.
ghost use Rattle.std.specs.Prelude.{◌≡◌, ◌≤◌, ◌+◌, ◌^◌, List, [], ℕ, length, drop, Some, OnOk, IfErr, MatchResult};
ghost use Rattle.std.specs.Io.KnownBytes.{prepend_known};
ghost use Rattle.ld_io.specs.Causes.{Rose};
ghost use Rattle.ld_io.specs.Input.{left_in};
ghost use Rattle.ld_cluster.specs.Standing.{config_of, past_of, IsReached};
ghost use Rattle.ld_cli.specs.Causes.{IsStop};
ghost use Rattle.ld_cli.specs.Input.{budget};
ghost use Rattle.ld_cli.specs.NextEvent.{TakesConfig};
ghost use Rattle.ld_cli.specs.Ends.{StopsBy, IsReplayed, EndsBy, IsSchedule, Completes, IsOfReplay};

use crate::events::{First, Next, begin, next_event};
use crate::input::Buffer;
use crate::perform::perform;
use crate::status::{Status, Stop};
use ld_cluster::Cluster;
use ld_io::{Sink, Source};
use std::alloc::Global;

/// Replays the schedule of the input.
pub(crate) fn replayed<I: Source, O: Sink>(alloc: Global, input: &mut I, out: &mut O) -> Status
    ensures ends { (all : List ℕ) → I.may_be input.new all → EndsBy (drop (length (I.gave input.old)) all) (Some (O.written out.old)) (Some (O.written out.new)) result }
    ensures fed { (all : List ℕ) → I.may_be input.new all → I.may_be input.old all }
    ensures read_to_end { result ≡ Status.Ok → (all : List ℕ) → I.may_be input.new all → all ≡ I.gave input.new }
    ensures transcribed { result ≡ Status.Ok → IsReplayed (drop (length (I.gave input.old)) (I.gave input.new)) (Some (O.written out.old)) (Some (O.written out.new)) }
    ensures read { result ≡ Status.Read → Rose (I.faults input.old) (I.faults input.new) }
    ensures write { result ≡ Status.Write → Rose (O.faults out.old) (O.faults out.new) }
    ensures complete { (all : List ℕ) → I.may_be input.new all → IsSchedule (drop (length (I.gave input.old)) all) → Completes (Rose (I.faults input.old) (I.faults input.new)) (Rose (O.faults out.old) (O.faults out.new)) result }
    ensures replays { IsOfReplay result }
{
    match replay(alloc, input, out) {
        Ok(()) => Status::Ok,
        Err(Stop::BadSchedule { line, place }) => Status::BadSchedule { line, place },
        Err(Stop::NoMemory) => Status::NoMemory,
        Err(Stop::Read) => Status::Read,
        Err(Stop::Write) => Status::Write,
    }
}

/// Plays the schedule of the input.
fn replay<I: Source, O: Sink>(alloc: Global, input: &mut I, out: &mut O) -> Result<(), Stop>
    ensures ends { (all : List ℕ) → I.may_be input.new all
        → MatchResult result (λ _. IsReplayed (drop (length (I.gave input.old)) all) (Some (O.written out.old)) (Some (O.written out.new))) (StopsBy (drop (length (I.gave input.old)) all) (Some (O.written out.old)) (Some (O.written out.new))) }
    ensures fed { (all : List ℕ) → I.may_be input.new all → I.may_be input.old all }
    ensures read_to_end { OnOk result ((all : List ℕ) → I.may_be input.new all → all ≡ I.gave input.new) }
    ensures cause { IfErr result (IsStop (I.faults input.old) (I.faults input.new) (O.faults out.old) (O.faults out.new)) }
{
    let mut buffer = Buffer::new(alloc)?;
    let mut line = Vec::new(alloc);
    let config = match begin(alloc, &mut buffer, input, &mut line)? {
        First::Taken { config } => config,
        First::Off { place } => return Err(Stop::BadSchedule { line: 1, place }),
    };
    let mut cluster = Cluster::new(alloc, config)?;
    let played = play(alloc, &mut cluster, &mut buffer, &mut line, input, out);
    drop(cluster);
    played
}

/// Plays the events of the input on a new cluster, of whose configuration the first line was.
fn play<I: Source, O: Sink>(
    alloc: Global,
    cluster: &mut Cluster,
    buffer: &mut Buffer,
    line: &mut Vec<u8>,
    input: &mut I,
    out: &mut O,
) -> Result<(), Stop>
    requires reached { IsReached cluster.old }
    requires past { past_of cluster.old ≡ [] }
    requires fits { budget buffer.old (length (I.gave input.old)) ≤ 2 ^ 63 }
    ensures ends { (all bytes : List ℕ) → I.may_be input.new all → TakesConfig (Some bytes) (prepend_known buffer.old (left_in all (I.gave input.old))) (config_of cluster.old)
        → MatchResult result (λ _. IsReplayed bytes (Some (O.written out.old)) (Some (O.written out.new))) (StopsBy bytes (Some (O.written out.old)) (Some (O.written out.new))) }
    ensures fed { (all : List ℕ) → I.may_be input.new all → I.may_be input.old all }
    ensures read_to_end { OnOk result ((all : List ℕ) → I.may_be input.new all → all ≡ I.gave input.new) }
    ensures read_later { I.faults input.old ≤ I.faults input.new }
    ensures cause { IfErr result (IsStop (I.faults input.old) (I.faults input.new) (O.faults out.old) (O.faults out.new)) }
{
    let mut number = 2;
    'events: loop {
        match next_event(alloc, buffer, input, line)? {
            Next::Taken { event } => perform(alloc, cluster, &event, out)?,
            Next::End => return Ok(()),
            Next::Off { place } => {
                return Err(Stop::BadSchedule {
                    line: number,
                    place,
                });
            }
        }
        number += 1;
    }
}
