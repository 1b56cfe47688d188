// A reader is driven until it is finished.
ghost use Rattle.std.specs.Prelude.{◌≡◌, ◌<◌, ◌⊎◌, ℕ, List, [], Option, Bool, true, false, IfOk, IfErr, IfSome, OnOk, None, Some};
ghost use Rattle.ld_ids.specs.Set.{members};
ghost use Rattle.ld_config.specs.declared.config.Config.{Config};
ghost use Rattle.ld_config.specs.Bounds.{IsInBounds};
ghost use Rattle.ld_schedule.specs.declared.event.Event.TheVariants.{Poll};
ghost use Rattle.ld_node_bounds.specs.Messages.{AreMessages};
ghost use Rattle.ld_machine.specs.State.{State};
ghost use Rattle.ld_machine.specs.Step.{happens};
ghost use Rattle.ld_bounds.specs.Sound.{IsSound};
ghost use Rattle.ld_wire.specs.declared.fault.WireFault.{WireFault as FrameFault};
ghost use Rattle.ld_dial.specs.Far.{Far};
ghost use Rattle.ld_rounds.specs.Ends.{IsSaid};
ghost use Rattle.ld_rounds.specs.Acts.{IsActed, Own, driver};
ghost use Rattle.ld_rounds.specs.Drives.{AreOfConfig, Holds, GoesOn, AllTaken, IsBroken, AreLater, counted};
ghost use Rattle.ld_rounds.specs.Rounds.{IsOne, IsBegun, IsPolled, IsReadRound, IsReadPart};
ghost use Rattle.ld_rounds.specs.Taking.{TookReads};
ghost use Rattle.ld_rounds.specs.Endings.{IsEnding, IsLater, IsOffAs, EndsOff};
ghost use Rattle.ld_rounds.specs.Pace.{next_wait};

use crate::pace::{Pace, is_same};
use crate::{Actor, Ended, Heard, Queues, round, tell};
use ld_dial::Nodes;
use ld_ids::{Name, NoMemory, NodeSet};
use ld_io::Sink;
use std::alloc::Global;

/// A reader that is driven.
pub trait Reads: Actor {
    /// The one of the name is past its last number.
    ghost finished: { Self → List ℕ → Bool };

    /// The reader of the name asks all nodes for its next number. It ends the drive where it says so in a line. After running
    /// out of memory it is of no use.
    fn poll(&mut self, alloc: Global, name: &Name) -> Result<Heard, NoMemory>
        ensures messages { IfOk result (λ heard. AreMessages heard.sends) }
        ensures polled { IfOk result (λ heard. (c : Config) (s : State) → IsInBounds c → IsSound c s → Self.stands self.old c s
            → IsActed (Self.stands self.new c) s heard.lines.items heard.sends (happens c s (Poll name.now))) }
        ensures said { IfOk result (λ heard. IfSome heard.end (IsSaid heard.lines.items)) }
        ensures itself { Self.own self.new ≡ Self.own self.old }
        ensures since { Self.since self.old self.new };

    /// Whether the one of the name is past its last number.
    fn is_finished(&self, name: &Name) -> bool
        ensures { result ≡ finished self.now name.now };

    /// The next number of the one of the name, which rises as it writes what it read. None where it isn't there.
    ghost next: { Self → List ℕ → Option ℕ };

    /// The next number of the one of the name, and the one behind its last where it is finished. None where it isn't there.
    fn next_of(&self, name: &Name) -> Option<u128>
        ensures { result ≡ next self.now name.now };
}

/// The reader asks: its messages wait for their nodes.
fn ask<R: Reads, O: Sink>(
    alloc: Global,
    name: &Name,
    reader: &mut R,
    queues: &mut Queues,
    out: &mut O,
) -> Result<(), Ended>
    ensures held { (own : Own) (c : Config) (first : ℕ) (s : State) (far : Far) → IsInBounds c → Holds (R.stands reader.old) c first s far queues.old
        → GoesOn (driver name.now own) ⊥ (IsOne (Poll name.now)) (λ e. IsBegun (Poll name.now)) (R.stands reader.new) (λ now. now ≡ far) c first s queues.new (Some (O.written out.old)) (Some (O.written out.new)) result }
    ensures itself { R.own reader.new ≡ R.own reader.old }
    ensures since { R.since reader.old reader.new }
    ensures cause { IfErr result (IsEnding (O.faults out.old) (O.faults out.new) (Some (O.written out.old)) (Some (O.written out.new))) }
    ensures off { (off : Option FrameFault) → IfErr result (IsOffAs off) }
    ensures later { IsLater (O.faults out.old) (O.faults out.new) (Some (O.written out.old)) (Some (O.written out.new)) }
{
    let Ok(heard) = reader.poll(alloc, name) else {
        return Err(Ended::NoMemory);
    };
    tell(alloc, heard, queues, out)
}

/// Before a round over the nodes of a set the reader asks, but one that is sparing only where no message waits for a node of
/// the set.
fn begin<R: Reads, O: Sink>(
    alloc: Global,
    set: &NodeSet,
    name: &Name,
    is_sparing: bool,
    reader: &mut R,
    queues: &mut Queues,
    out: &mut O,
) -> Result<(), Ended>
    ensures held { (own : Own) (c : Config) (first : ℕ) (s : State) (far : Far) → IsInBounds c → AreOfConfig c (members set.now) → Holds (R.stands reader.old) c first s far queues.old
        → GoesOn (driver name.now own) ⊥ (IsPolled is_sparing name.now first (members set.now)) (λ e t es. (es ≡ []) ⊎ IsPolled is_sparing name.now first (members set.now) t es) (R.stands reader.new) (λ now. now ≡ far) c first s queues.new (Some (O.written out.old)) (Some (O.written out.new)) result }
    ensures itself { R.own reader.new ≡ R.own reader.old }
    ensures since { R.since reader.old reader.new }
    ensures cause { IfErr result (IsEnding (O.faults out.old) (O.faults out.new) (Some (O.written out.old)) (Some (O.written out.new))) }
    ensures off { (off : Option FrameFault) → IfErr result (IsOffAs off) }
    ensures later { IsLater (O.faults out.old) (O.faults out.new) (Some (O.written out.old)) (Some (O.written out.new)) }
{
    if is_sparing && queues.any(set) {
        return Ok(());
    }
    ask(alloc, name, reader, queues, out)
}

/// One round: the reader asks, where it is to, and the nodes are visited.
fn read_round<R: Reads, N: Nodes, O: Sink>(
    alloc: Global,
    set: &NodeSet,
    name: &Name,
    is_sparing: bool,
    reader: &mut R,
    nodes: &mut N,
    queues: &mut Queues,
    out: &mut O,
) -> Result<(), Ended>
    ensures held { (own : Own) → R.own reader.old ≡ own → (c : Config) (first : ℕ) (s : State) (far : Far) → IsInBounds c → AreOfConfig c (members set.now)
        → AllTaken (N.tells nodes.old c) far → Holds (R.stands reader.old) c first s far queues.old
        → (N.silent nodes.new ≡ true) ⊎ GoesOn (driver name.now own) (IsBroken (N.faults nodes.old) (N.faults nodes.new) (N.endings nodes.old) (N.endings nodes.new)) (IsReadRound is_sparing name.now c first (members set.now) (counted (N.faults nodes.old) (N.faults nodes.new) (N.endings nodes.old) (N.endings nodes.new))) (λ e. IsReadPart is_sparing name.now c first (members set.now) (counted (N.faults nodes.old) (N.faults nodes.new) (N.endings nodes.old) (N.endings nodes.new))) (R.stands reader.new) (AllTaken (N.tells nodes.new c)) c first s queues.new (Some (O.written out.old)) (Some (O.written out.new)) result }
    ensures silent { N.silent nodes.old ≡ true → N.silent nodes.new ≡ true }
    ensures itself { R.own reader.new ≡ R.own reader.old }
    ensures since { R.since reader.old reader.new }
    ensures cause { IfErr result (IsEnding (O.faults out.old) (O.faults out.new) (Some (O.written out.old)) (Some (O.written out.new))) }
    ensures off { IfErr result (IsOffAs (N.off nodes.new)) }
    ensures ended { N.off nodes.old ≡ None → EndsOff (N.off nodes.new) result }
    ensures later { IsLater (O.faults out.old) (O.faults out.new) (Some (O.written out.old)) (Some (O.written out.new)) }
    ensures counts { AreLater (N.faults nodes.old) (N.faults nodes.new) (N.endings nodes.old) (N.endings nodes.new) }
{
    begin(alloc, set, name, is_sparing, reader, queues, out)?;
    round(alloc, set, reader, nodes, queues, out)
}

/// One round, before which it is rested where the one before gave nothing.
fn read_turn<R: Reads, N: Nodes, O: Sink>(
    alloc: Global,
    set: &NodeSet,
    name: &Name,
    is_sparing: bool,
    pace: &mut Pace,
    reader: &mut R,
    nodes: &mut N,
    queues: &mut Queues,
    out: &mut O,
) -> Result<(), Ended>
    ensures held { (own : Own) → R.own reader.old ≡ own → (c : Config) (first : ℕ) (s : State) (far : Far) → IsInBounds c → AreOfConfig c (members set.now)
        → AllTaken (N.tells nodes.old c) far → Holds (R.stands reader.old) c first s far queues.old
        → (N.silent nodes.new ≡ true) ⊎ GoesOn (driver name.now own) (IsBroken (N.faults nodes.old) (N.faults nodes.new) (N.endings nodes.old) (N.endings nodes.new)) (IsReadRound is_sparing name.now c first (members set.now) (counted (N.faults nodes.old) (N.faults nodes.new) (N.endings nodes.old) (N.endings nodes.new))) (λ e. IsReadPart is_sparing name.now c first (members set.now) (counted (N.faults nodes.old) (N.faults nodes.new) (N.endings nodes.old) (N.endings nodes.new))) (R.stands reader.new) (AllTaken (N.tells nodes.new c)) c first s queues.new (Some (O.written out.old)) (Some (O.written out.new)) result }
    ensures silent { N.silent nodes.old ≡ true → N.silent nodes.new ≡ true }
    ensures itself { R.own reader.new ≡ R.own reader.old }
    ensures since { R.since reader.old reader.new }
    ensures cause { IfErr result (IsEnding (O.faults out.old) (O.faults out.new) (Some (O.written out.old)) (Some (O.written out.new))) }
    ensures off { IfErr result (IsOffAs (N.off nodes.new)) }
    ensures ended { N.off nodes.old ≡ None → EndsOff (N.off nodes.new) result }
    ensures later { IsLater (O.faults out.old) (O.faults out.new) (Some (O.written out.old)) (Some (O.written out.new)) }
    ensures counts { AreLater (N.faults nodes.old) (N.faults nodes.new) (N.endings nodes.old) (N.endings nodes.new) }
    ensures pace { (pace.new.wait ≡ next_wait pace.old.is_idle pace.old.wait pace.old.longest) × (pace.new.longest ≡ pace.old.longest) }
    ensures idle { OnOk result (pace.new.is_idle ≡ true → R.next reader.new name.now ≡ R.next reader.old name.now) }
{
    pace.rest(nodes);
    let before = reader.next_of(name);
    read_round(alloc, set, name, is_sparing, reader, nodes, queues, out)?;
    pace.is_idle = is_same(before, reader.next_of(name));
    Ok(())
}

/// Drives a reader: before each of so many rounds over the nodes of a set it polls, and after each it is seen whether it is
/// finished. One that is sparing polls only before a round at whose start no message waits for a node of the set: what it
/// asked at its last answer then still waits for nodes that had been visited before. True where it was finished; its lines
/// are written as they come. Between two rounds of which the first gave nothing it rests, with no node present: 100
/// milliseconds, and after each further such round twice as long, up to `pause`; not at all where that is 0. It ends with
/// `BadFrame` where what a node sent begins no frame, with `Write` where the output failed, and when out of memory.
pub fn read<R: Reads, N: Nodes, O: Sink>(
    alloc: Global,
    set: &NodeSet,
    name: &Name,
    is_sparing: bool,
    rounds: u64,
    pause: u32,
    reader: &mut R,
    nodes: &mut N,
    queues: &mut Queues,
    out: &mut O,
) -> Result<bool, Ended>
    // Where the nodes tell what stands there: all that was done are steps of the written machine from any state that the
    // drive represents, round by round: it polls, but one that is sparing just where no message that is new from the first
    // place on waits for a node of the set, and the set's nodes are visited one after the other. The lines that were written
    // are the reader's lines of those steps. Each message that is delivered or lost in a visit is to its node or an answer of
    // it, and is so once and in its turn. A message to a node is lost only in a visit of it in which a call of the nodes failed
    // or a node had ended: what failed in one visit allows no loss in another. An answer is lost only where the reader doesn't
    // take it. In its visit a node may be ticked, right behind an answer by which it tells the reader to wait, where the reader
    // tells nodes of a log's closed epochs; it never ends with `BadFrame`.
    ensures held { (c : Config) (first : ℕ) (s : State) (far : Far) → IsInBounds c → AreOfConfig c (members set.now)
        → AllTaken (N.tells nodes.old c) far → Holds (R.stands reader.old) c first s far queues.old
        → (N.silent nodes.new ≡ true) ⊎ TookReads is_sparing (driver name.now (R.own reader.old)) (counted (N.faults nodes.old) (N.faults nodes.new) (N.endings nodes.old) (N.endings nodes.new)) (members set.now) rounds (R.stands reader.new) (AllTaken (N.tells nodes.new c)) c first s queues.new (Some (O.written out.old)) (Some (O.written out.new)) result }
    ensures finished { IfOk result (λ done. done ≡ true → R.finished reader.new name.now ≡ true) }
    ensures unfinished { IfOk result (λ done. 0 < rounds → done ≡ false → R.finished reader.new name.now ≡ false) }
    ensures itself { R.own reader.new ≡ R.own reader.old }
    ensures since { R.since reader.old reader.new }
    ensures cause { IfErr result (IsEnding (O.faults out.old) (O.faults out.new) (Some (O.written out.old)) (Some (O.written out.new))) }
    ensures off { IfErr result (IsOffAs (N.off nodes.new)) }
    ensures ended { N.off nodes.old ≡ None → EndsOff (N.off nodes.new) result }
    ensures later { IsLater (O.faults out.old) (O.faults out.new) (Some (O.written out.old)) (Some (O.written out.new)) }
{
    let mut pace = Pace::new(pause);
    'rounds: for number in 0..rounds {
        read_turn(
            alloc, set, name, is_sparing, &mut pace, reader, nodes, queues, out,
        )?;
        let is_done = reader.is_finished(name);
        if is_done {
            return Ok(true);
        }
    }
    Ok(false)
}
