// A reader is opened, and driven until it is finished.
ghost use Rattle.std.specs.Prelude.{◌≡◌, ◌≤◌, ◌⊎◌, ℕ, List, [], None, Some, true, IfErr};
ghost use Rattle.ld_config.specs.Bounds.{IsInBounds};
ghost use Rattle.ld_schedule.specs.declared.event.Event.{Event};
ghost use Rattle.ld_msg.specs.Reader.{is_single};
ghost use Rattle.ld_msg.specs.Register.{Register as Contents};
ghost use Rattle.ld_machine.specs.State.{State};
ghost use Rattle.ld_dial.specs.Far.{Far};
ghost use Rattle.ld_rounds.specs.Drives.{IsBroken, counted};
ghost use Rattle.ld_rounds.specs.Endings.{IsEnding, IsOffAs, EndsOff, IsEndedOff};
ghost use Rattle.ld_rounds.specs.Reaching.{Begins};
ghost use Rattle.ld_rounds.specs.Onward.{reached};
ghost use Rattle.ld_tail.specs.Looking.{HasLooked};
ghost use Rattle.ld_tail.specs.Tails.{HasNone, IsTailed, IsTailEnd, DroveTail, EndsTail, end_of};

use crate::Reading;
use crate::looking::why_of;
use ld_config::Config;
use ld_dial::Nodes;
use ld_ids::{LogId, Name};
use ld_io::Sink;
use ld_lsn::Lsn;
use ld_msg::Style;
use ld_register::Register;
use ld_rounds::{Ended, Queues, Refusal, read, tell};
use std::alloc::Global;

/// Whether a reader of this style reads one copy of each payload.
fn is_single(style: Style) -> bool
    ensures { result ≡ is_single style }
{
    match style {
        Style::OneCopy => true,
        Style::EachCopy | Style::OfMessages => false,
    }
}

/// Looks at the register, opens the reader and drives it. True where it is finished.
fn drive<G: Register, N: Nodes, O: Sink>(
    alloc: Global,
    config: &Config,
    name: &Name,
    from: Lsn,
    until: Lsn,
    style: Style,
    rounds: u64,
    pause: u32,
    reading: &mut Reading<G>,
    nodes: &mut N,
    out: &mut O,
) -> Result<bool, Ended>
    requires bounds { IsInBounds config.now }
    requires name { reading.old.name ≡ name.now }
    requires none { reading.old.readers ≡ [] }
    requires on { reading.old.end ≡ None }
    ensures drove { (s : State) (far : Far) → N.tells nodes.old config.now far → Begins (HasNone (G.tells reading.old.register)) config.now s far
        → (N.silent nodes.new ≡ true) ⊎ DroveTail (record { name = name.now; log = reading.old.log; from = from; until = until; style = style }) (counted (N.faults nodes.old) (N.faults nodes.new) (N.endings nodes.old) (N.endings nodes.new)) rounds (N.tells nodes.new) (G.tells reading.new.register) config.now s (Some (O.written out.old)) (Some (O.written out.new)) result }
    ensures looked { HasLooked None reading.new.end (G.told reading.old.register) (G.told reading.new.register) (G.holds reading.old.register) (G.holds reading.new.register) (G.may_hold reading.old.register) (G.may_hold reading.new.register) (G.faults reading.old.register) (G.faults reading.new.register) (G.identity reading.old.register) (G.identity reading.new.register) }
    ensures damaged { (place : ℕ) → reading.new.end ≡ Some (Ended.Register (Refusal.Damaged place)) → G.told reading.old.register → G.damaged reading.old.register place }
    ensures cause { IfErr result (IsEnding (O.faults out.old) (O.faults out.new) (Some (O.written out.old)) (Some (O.written out.new))) }
    ensures off { IfErr result (IsOffAs (N.off nodes.new)) }
    ensures ended { N.off nodes.old ≡ None → EndsOff (N.off nodes.new) result }
{
    let Ok(_) = reading.look(alloc, from.epoch()) else {
        return Err(Ended::NoMemory);
    };
    let Ok(mut queues) = Queues::new(alloc, 1) else {
        return Err(Ended::NoMemory);
    };
    let Ok(heard) = reading.open(alloc, config, from, until, style) else {
        return Err(Ended::NoMemory);
    };
    tell(alloc, heard, &mut queues, out)?;
    read(
        alloc,
        &config.nodes,
        name,
        is_single(style),
        rounds,
        pause,
        reading,
        nodes,
        &mut queues,
        out,
    )
}

/// How the drive ends, where this is why the reader can't go on.
fn end_of(driven: Result<bool, Ended>, why: Ended) -> Ended
    ensures { result ≡ end_of driven why }
{
    match driven {
        Ok(true) => Ended::Done,
        Ok(false) => Ended::Rounds,
        Err(Ended::BadFrame(fault)) => Ended::BadFrame(fault),
        Err(Ended::Write) => Ended::Write,
        Err(_) => why,
    }
}

/// Tails a log: the register is looked at, a new reader of the name is opened from a number to another, both included, that
/// reads in this style, and so many rounds over the configuration's nodes are driven. It polls before each of them; a reader
/// of one copy polls only before a round at whose start no message waits for a node, since what waits is sent in that round
/// anyhow, and a poll would have the same pages sent once more. Its lines are written as they come. Between two rounds of which
/// the first gave nothing it rests, with no node present: 100 milliseconds, and after each further such round twice as long, up
/// to `pause`; not at all where that is 0. The register is given back.
///
/// A node may have missed that an epoch was closed, and then it tells the reader to wait for numbers of that epoch, though it
/// has them. So a node that tells the reader to wait for a number of a closed epoch is told at once what the register says of
/// the log's epochs, from the first one to the last closed one: a look and a frame for each, and one look more, once for each
/// such node; for a number of an epoch that isn't closed it is one look for each such answer.
///
/// It ends with `Done` where the reader is past its last number, with `Rounds` where all rounds were taken and it isn't, with
/// `BadFrame` where what a node sent begins no frame, with `Write` where the output failed, and when out of memory. It ends
/// with `Register` where a look at the register failed, and no line says so: with `Damaged` and a place where its bytes are
/// no journal from there on, and else with `Failed`, only where its count of faults rose.
pub fn tail<G: Register, N: Nodes, O: Sink>(
    alloc: Global,
    config: &Config,
    name: Name,
    log: LogId,
    from: Lsn,
    until: Lsn,
    style: Style,
    rounds: u64,
    pause: u32,
    register: G,
    nodes: &mut N,
    out: &mut O,
) -> (Ended, G)
    requires { IsInBounds config.now }
    // Where the nodes and the register tell what stands there: all that was done are steps of the written machine from any state
    // without readers that they represent: the reader is opened, and then round by round it polls, where it reads one copy only
    // if no message that is new waits for a node, and the configuration's nodes are visited one after the other. The lines that
    // were written are the reader's lines of those steps. In a visit messages and answers are taken each once, and in the order
    // in which it waits. A message to a node is lost only in a visit of it in which a call of the nodes failed or a node had
    // ended, and an answer only where the reader doesn't take it. A node may be ticked for the log in its visit, right behind
    // an answer by which it tells the reader to wait. It never ends with `BadFrame`.
    ensures tailed { (s : State) (far : Far) → N.tells nodes.old config.now far → Begins (HasNone (G.tells register)) config.now s far
        → (N.silent nodes.new ≡ true) ⊎ IsTailed (record { name = name; log = log; from = from; until = until; style = style }) (counted (N.faults nodes.old) (N.faults nodes.new) (N.endings nodes.old) (N.endings nodes.new)) rounds (N.tells nodes.new) (G.tells result.1) config.now s (Some (O.written out.old)) (Some (O.written out.new)) result.0 }
    // Where a run of the written machine leads to such a state, that run goes on by these steps, and is safe as a whole.
    ensures safe { (before : List Event) (far : Far) → N.tells nodes.old config.now far → Begins (HasNone (G.tells register)) config.now (reached config.now before) far
        → (N.silent nodes.new ≡ true) ⊎ EndsTail (record { name = name; log = log; from = from; until = until; style = style }) (IsBroken (N.faults nodes.old) (N.faults nodes.new) (N.endings nodes.old) (N.endings nodes.new)) config.now before (Some (O.written out.old)) (Some (O.written out.new)) result.0 }
    ensures cause { IsTailEnd (λ place. G.told register → G.damaged register place) (G.faults register) (G.faults result.1) (O.faults out.old) (O.faults out.new) result.0 }
    // It ends with `BadFrame` only by the fault that the nodes tell, and where they tell one it ends by that.
    ensures off { IsOffAs (N.off nodes.new) result.0 }
    ensures ended { IsEndedOff (N.off nodes.old) (N.off nodes.new) result.0 }
    // Looks change nothing of the register.
    ensures told { G.told register → G.told result.1 }
    ensures same { (c : Contents) → G.may_hold result.1 c → G.may_hold register c }
    ensures itself { G.identity result.1 ≡ G.identity register }
    ensures counts { G.faults register ≤ G.faults result.1 }
{
    let Ok(its_name) = name.copy(alloc) else {
        return (Ended::NoMemory, register);
    };
    let mut reading = Reading::new(alloc, its_name, log, register);
    let driven = drive(
        alloc,
        config,
        &name,
        from,
        until,
        style,
        rounds,
        pause,
        &mut reading,
        nodes,
        out,
    );
    let ended = end_of(driven, why_of(reading.end()));
    (ended, reading.into_register())
}
