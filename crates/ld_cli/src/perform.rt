// One event: a step of the cluster, and its lines.
ghost use Rattle.std.specs.Prelude.{◌≡◌, ◌≤◌, ◌++◌, Some, OnOk, IfErr, MatchResult};
ghost use Rattle.std.specs.Io.KnownBytes.{Appends};
ghost use Rattle.ld_transcript.specs.Text.{text};
ghost use Rattle.ld_machine.specs.Run.{step};
ghost use Rattle.ld_cluster.specs.Standing.{config_of, state_of, IsReached};
ghost use Rattle.ld_cluster.specs.Steps.{Counts};
ghost use Rattle.ld_cli.specs.Step.{IsTaken};
ghost use Rattle.ld_rounds.specs.Output.{AppendsPart};
ghost use Rattle.ld_cli.specs.Causes.{IsWriteStop};

use crate::status::Stop;
use ld_cluster::Cluster;
use ld_io::Sink;
use ld_rounds::write_all;
use ld_schedule::Event;
use ld_transcript::Lines;
use std::alloc::Global;

/// Takes an event, and writes its lines.
pub fn perform<O: Sink>(
    alloc: Global,
    cluster: &mut Cluster,
    event: &Event,
    out: &mut O,
) -> Result<(), Stop>
    requires reached { IsReached cluster.old }
    requires counts { Counts event.now }
    ensures step { OnOk result (IsTaken cluster.old event.now cluster.new) }
    ensures written { MatchResult result
        (λ _. Appends (Some (O.written out.old)) (Some (O.written out.new)) (text (step (config_of cluster.old) (state_of cluster.old) event.now).lines))
        (λ _. AppendsPart (Some (O.written out.old)) (Some (O.written out.new)) (text (step (config_of cluster.old) (state_of cluster.old) event.now).lines)) }
    ensures later { O.faults out.old ≤ O.faults out.new }
    ensures cause { IfErr result (IsWriteStop (O.faults out.old) (O.faults out.new)) }
{
    let mut lines = Lines::new(alloc);
    cluster.step(alloc, event, &mut lines)?;
    let mut bytes = Vec::new(alloc);
    lines.write(alloc, &mut bytes)?;
    match write_all(out, &bytes) {
        Ok(()) => Ok(()),
        Err(_) => Err(Stop::Write),
    }
}
