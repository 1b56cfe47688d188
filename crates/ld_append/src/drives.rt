// A sequencer is activated, and driven over payloads and trims.
ghost use Rattle.std.specs.Prelude.{◌≡◌, ◌⊎◌, ℕ, List, Option, true, false, None, IfErr, OnOk, Some};
ghost use Rattle.ld_config.specs.Bounds.{IsInBounds};
ghost use Rattle.ld_schedule.specs.declared.event.Event.{Event};
ghost use Rattle.ld_schedule.specs.declared.event.Event.TheVariants.{Activate};
ghost use Rattle.ld_machine.specs.State.{State};
ghost use Rattle.ld_wire.specs.declared.fault.WireFault.{WireFault as FrameFault};
ghost use Rattle.ld_dial.specs.Far.{Far};
ghost use Rattle.ld_rounds.specs.Drives.{Holds, GoesOn, IsBroken, counted};
ghost use Rattle.ld_rounds.specs.Endings.{IsLater, IsOffAs, EndsOff, IsEndedOff};
ghost use Rattle.ld_register.specs.Bounds.{IsSpec};
ghost use Rattle.ld_append.specs.Acting.{Serves, IsSpecOf, IsUnset, MayCrowd, Leaves, IsOfLog, HasBegun, HoldsSome, LacksRoom};
ghost use Rattle.ld_rounds.specs.Reaching.{Begins};
ghost use Rattle.ld_rounds.specs.Onward.{reached, EndsRun};
ghost use Rattle.ld_rounds.specs.Rounds.{IsOne, IsBegun};
ghost use Rattle.ld_append.specs.Appends.{HasNone, sequencing, IsAppended, DroveAppend, IsStartEnding, IsDriveEnding, IsEndOfAppend, IsRefused, taken_end};

use crate::Acting;
use crate::refusing::round_end;
use ld_config::Config;
use ld_dial::Nodes;
use ld_ids::{Name, Spec};
use ld_io::Sink;
use ld_register::Register;
use ld_rounds::{Ended, Payloads, Queues, tell};
use std::alloc::Global;

/// Activates the sequencer: its messages wait for their nodes, and its line is written.
fn start<G: Register, O: Sink>(
    alloc: Global,
    config: &Config,
    spec: &Spec,
    acting: &mut Acting<G>,
    queues: &mut Queues,
    out: &mut O,
) -> Result<(), Ended>
    requires { IsSpec spec.now }
    ensures started { acting.old.sequencer ≡ None → (first : ℕ) (s : State) (far : Far) → IsInBounds config.now → IsSpecOf config.now spec.now → IsUnset config.now s spec.now → Holds (Serves acting.old.name None (G.tells acting.old.register)) config.now first s far queues.old
        → GoesOn (sequencing acting.old.name) ⊥ (IsOne (Activate acting.old.name spec.now.log)) (λ e. IsBegun (Activate acting.old.name spec.now.log)) (Serves acting.new.name acting.new.sequencer (G.tells acting.new.register)) (λ now. now ≡ far) config.now first s queues.new (Some (O.written out.old)) (Some (O.written out.new)) result }
    ensures name { acting.new.name ≡ acting.old.name }
    ensures leaves { Leaves spec.now.log (G.told acting.old.register) (G.told acting.new.register) (G.may_hold acting.old.register) (G.may_hold acting.new.register) }
    ensures itself { G.identity acting.new.register ≡ G.identity acting.old.register }
    ensures active { acting.old.sequencer ≡ None → IsOfLog spec.now.log acting.new.sequencer }
    ensures shut { acting.new.is_shut ≡ acting.old.is_shut }
    ensures cause { IfErr result (IsStartEnding (G.told acting.old.register → MayCrowd (G.may_hold acting.old.register) spec.now.log) (λ place. G.told acting.old.register → G.damaged acting.old.register place) (O.faults out.old) (O.faults out.new) (Some (O.written out.old)) (Some (O.written out.new))) }
    ensures off { (off : Option FrameFault) → IfErr result (IsOffAs off) }
    ensures refused { IfErr result (IsRefused (λ place. G.told acting.old.register → G.damaged acting.old.register place) (G.told acting.old.register → HoldsSome (G.holds acting.old.register) × LacksRoom (G.holds acting.new.register)) (G.faults acting.old.register) (G.faults acting.new.register)) }
    ensures on { acting.old.end ≡ None → HasBegun acting.new.end (G.told acting.old.register) (G.holds acting.old.register) (G.holds acting.new.register) (G.faults acting.old.register) (G.faults acting.new.register) }
    ensures later { IsLater (O.faults out.old) (O.faults out.new) (Some (O.written out.old)) (Some (O.written out.new)) }
{
    let Ok(heard) = acting.activate(alloc, config, spec) else {
        return Err(Ended::NoMemory);
    };
    tell(alloc, heard, queues, out)
}

/// Activates the sequencer and drives it. True where it is done.
fn drive<G: Register, N: Nodes, P: Payloads, O: Sink>(
    alloc: Global,
    config: &Config,
    spec: &Spec,
    name: &Name,
    rounds: u64,
    in_flight: u32,
    acting: &mut Acting<G>,
    nodes: &mut N,
    input: &mut P,
    out: &mut O,
) -> Result<bool, Ended>
    requires named { acting.old.name ≡ name.now }
    requires bounds { IsSpec spec.now }
    ensures drove { acting.old.sequencer ≡ None → (s : State) (far : Far) → IsInBounds config.now → IsSpecOf config.now spec.now → IsUnset config.now s spec.now → N.tells nodes.old config.now far → Begins (HasNone name.now (G.tells acting.old.register)) config.now s far
        → (N.silent nodes.new ≡ true) ⊎ DroveAppend name.now spec.now.log (counted (N.faults nodes.old) (N.faults nodes.new) (N.endings nodes.old) (N.endings nodes.new)) (P.coming input.old) rounds (N.tells nodes.new) (G.tells acting.new.register) config.now s (Some (O.written out.old)) (Some (O.written out.new)) result }
    ensures shut { acting.old.sequencer ≡ None → acting.old.is_shut ≡ false → OnOk result (acting.new.is_shut ≡ true → G.told acting.old.register → MayCrowd (G.may_hold acting.old.register) spec.now.log) }
    ensures leaves { acting.old.sequencer ≡ None → Leaves spec.now.log (G.told acting.old.register) (G.told acting.new.register) (G.may_hold acting.old.register) (G.may_hold acting.new.register) }
    ensures register { G.identity acting.new.register ≡ G.identity acting.old.register }
    ensures itself { P.identity input.new ≡ P.identity input.old }
    ensures cause { IfErr result (IsDriveEnding (G.told acting.old.register → MayCrowd (G.may_hold acting.old.register) spec.now.log) (λ place. G.told acting.old.register → G.damaged acting.old.register place) (P.coming input.old) (P.faults input.old) (P.faults input.new) (O.faults out.old) (O.faults out.new) (Some (O.written out.old)) (Some (O.written out.new))) }
    ensures off { IfErr result (IsOffAs (N.off nodes.new)) }
    ensures ended { N.off nodes.old ≡ None → EndsOff (N.off nodes.new) result }
    ensures output { IsLater (O.faults out.old) (O.faults out.new) (Some (O.written out.old)) (Some (O.written out.new)) }
    ensures refused { acting.old.end ≡ None → IfErr result (IsRefused (λ place. G.told acting.old.register → G.damaged acting.old.register place) (G.told acting.old.register → HoldsSome (G.holds acting.old.register) × LacksRoom (G.holds acting.new.register)) (G.faults acting.old.register) (G.faults acting.new.register)) }
{
    let Ok(mut queues) = Queues::new(alloc, in_flight) else {
        return Err(Ended::NoMemory);
    };
    start(alloc, config, spec, acting, &mut queues, out)?;
    let driven = ld_rounds::append(
        alloc,
        &config.nodes,
        name,
        rounds,
        input,
        acting,
        nodes,
        &mut queues,
        out,
    );
    round_end(acting.end(), driven)
}

/// Appends payloads to a log, and trims it: a new sequencer of the name is activated, of the log's next epoch with the nodes,
/// factor and extras of `spec`, and so many rounds over the configuration's nodes are driven, in each of which payloads are
/// appended. A trim waits until every append before it is acknowledged and every epoch before the sequencer's own is closed, and
/// is sent to each node of the configuration once: one that can't be reached then isn't told of it. A visit of a node sends up to
/// `in_flight` messages, 1 to 128, before it takes their answers. Its lines are written as they come. The register is given back.
///
/// It ends with `Done` where the input has ended, every append is acknowledged, every epoch before its own is closed and no
/// message waits, with `Rounds` where all rounds were taken and it isn't done, and with `LogLimit` where the register holds as
/// many other logs as may be: then nothing was written, or all rounds were taken. It ends with `Preempted`, `EpochLimit`,
/// `EpochFull` or `Register` where a line says so, `Register` as well where a look failed behind word that an epoch is closed;
/// but with a damaged register without a line at the activation; with `BadFrame` where what a node sent begins no frame, with
/// `BadLine` at the first line of the input with a syntax error, with `Read` where the input failed, with `Write` where the
/// output failed, and when out of memory.
pub fn append<G: Register, N: Nodes, P: Payloads, O: Sink>(
    alloc: Global,
    config: &Config,
    spec: &Spec,
    name: Name,
    rounds: u64,
    in_flight: u32,
    register: G,
    nodes: &mut N,
    input: &mut P,
    out: &mut O,
) -> (Ended, G)
    requires { IsSpec spec.now }
    // Where the nodes and the register tell what stands there: all that was done are steps of the written machine from any state
    // with no sequencer of the name, whatever others it has, and with nothing else set for the log's next activation, that they
    // represent: the activation of the log, and then round by round what is sent again, but in the first, appends and trims, and
    // visits of the configuration's nodes. A trim is made only where the sequencer has every append acknowledged and every epoch
    // before its own closed. The requests that the machine took are the first ones that came, in their order; they are all where
    // it is done, and where it comes to a line with a syntax error. The lines that were written are the sequencer's lines of
    // those steps. In a visit messages and answers are taken each once, and in the order in which it waits. A message to a node
    // is lost only in a visit of it in which a call of the nodes failed or a node had ended, and an answer only where the
    // sequencer doesn't take it. It never ends with `BadFrame`.
    ensures appended { (s : State) (far : Far) → IsInBounds config.now → IsSpecOf config.now spec.now → IsUnset config.now s spec.now → N.tells nodes.old config.now far → Begins (HasNone name (G.tells register)) config.now s far
        → (N.silent nodes.new ≡ true) ⊎ IsAppended name spec.now.log (counted (N.faults nodes.old) (N.faults nodes.new) (N.endings nodes.old) (N.endings nodes.new)) (P.coming input.old) rounds (N.tells nodes.new) (G.tells result.1) config.now s (Some (O.written out.old)) (Some (O.written out.new)) result.0 }
    // Where a run of the written machine leads to such a state, that run goes on by these steps, and is safe as a whole.
    ensures safe { (before : List Event) (far : Far) → IsInBounds config.now → IsSpecOf config.now spec.now → IsUnset config.now (reached config.now before) spec.now → N.tells nodes.old config.now far → Begins (HasNone name (G.tells register)) config.now (reached config.now before) far
        → (N.silent nodes.new ≡ true) ⊎ EndsRun (sequencing name) (IsBroken (N.faults nodes.old) (N.faults nodes.new) (N.endings nodes.old) (N.endings nodes.new)) config.now before (Some (O.written out.old)) (Some (O.written out.new)) result.0 }
    // The register is the same one. Where it tells what it holds it does so then, and it may hold as many other logs as may be
    // only where it might before.
    ensures register { G.identity result.1 ≡ G.identity register }
    ensures leaves { Leaves spec.now.log (G.told register) (G.told result.1) (G.may_hold register) (G.may_hold result.1) }
    ensures itself { P.identity input.new ≡ P.identity input.old }
    ensures cause { IsEndOfAppend (G.told register → MayCrowd (G.may_hold register) spec.now.log) (λ place. G.told register → G.damaged register place) (P.coming input.old) (P.faults input.old) (P.faults input.new) (O.faults out.old) (O.faults out.new) (Some (O.written out.old)) (Some (O.written out.new)) result.0 }
    // It ends with `BadFrame` only by the fault that the nodes tell, and where they tell one it ends by that.
    ensures off { IsOffAs (N.off nodes.new) result.0 }
    ensures ended { IsEndedOff (N.off nodes.old) (N.off nodes.new) result.0 }
    ensures output { IsLater (O.faults out.old) (O.faults out.new) (Some (O.written out.old)) (Some (O.written out.new)) }
    // It ends with `Register` and `Failed` only where a call of the register failed. Where none failed and the register tells what
    // it holds, it ends with `Register` and `Damaged` only where that was damaged from that offset on, and with `Register` and
    // `Full` only where it wasn't, and where what it holds then leaves no room for an activation or a close.
    ensures refused { IsRefused (λ place. G.told register → G.damaged register place) (G.told register → HoldsSome (G.holds register) × LacksRoom (G.holds result.1)) (G.faults register) (G.faults result.1) result.0 }
{
    let Ok(its_name) = name.copy(alloc) else {
        return (Ended::NoMemory, register);
    };
    let mut acting = Acting::new(its_name, spec.log, register);
    let ended = match drive(
        alloc,
        config,
        spec,
        &name,
        rounds,
        in_flight,
        &mut acting,
        nodes,
        input,
        out,
    ) {
        Ok(true) => Ended::Done,
        Ok(false) => rounds_taken(acting.is_shut()),
        Err(ended) => ended,
    };
    (ended, acting.into_register())
}

/// How it ends where all rounds were taken: whether the register refused a close since it holds as many other logs as may be.
fn rounds_taken(is_shut: bool) -> Ended
    ensures { result ≡ taken_end is_shut }
{
    if is_shut {
        Ended::LogLimit
    } else {
        Ended::Rounds
    }
}
