// A calm: steps one after the other, each found from the state, until nothing is left to do.
ghost use Rattle.std.specs.Prelude.{◌≡◌, ◌⊎◌, ◌∷◌, [], if◌then◌else◌, IfOk, OnErr, OnOk};
ghost use Rattle.ld_schedule.specs.declared.event.Event.TheVariants.{Calm, Poll as Polls};
ghost use Rattle.ld_machine.specs.Calm.{Announces as TheAnnounces, Reads as TheReads, Again as TheAgain, Ticks as TheTicks, Drains as TheDrains, Takes as ByEvent, calm_moves, calms, moved};
ghost use Rattle.ld_machine.specs.Run.{step};
ghost use Rattle.ld_cluster.specs.Calming.{AreOf, Begins, HasCalmed, IsCut, IsDelivering, IsOf, MayTake, as_left, left_in};
ghost use Rattle.ld_cluster.specs.Outcomes.{IsSame};
ghost use Rattle.ld_cluster.specs.Served.{HasServed};
ghost use Rattle.ld_cluster.specs.Standing.{config_of, state_of, IsReached};
ghost use Rattle.ld_cluster.specs.Steps.{IsStep, IsStepInPart, steps_of};

use crate::cluster::Cluster;
use crate::finish::add_none;
use crate::part::Part;
use crate::past::Step;
use ld_ids::{LogId, Name, NoMemory, NodeId};
use ld_schedule::Event;
use ld_transcript::Lines;
use std::alloc::Global;

impl Cluster {
    /// Takes the steps of a calm, and adds their lines, and `none` where there is none.
    pub(crate) fn calm(&mut self, alloc: Global, lines: &mut Lines) -> Result<(), NoMemory>
        requires reached { IsReached self.old }
        ensures whole { OnOk result (IsStep self.old self.new lines.old lines.new (step (config_of self.old) (state_of self.old) Calm) (steps_of (config_of self.old) (state_of self.old) Calm)) }
        ensures served { OnOk result (HasServed self.old self.new) }
        ensures part { OnErr result (IsStepInPart self.old self.new lines.old lines.new (step (config_of self.old) (state_of self.old) Calm) (steps_of (config_of self.old) (state_of self.old) Calm)) }
    {
        let before = lines.len();
        self.calm_down(alloc, lines)?;
        add_none(before, lines)?;
        Ok(())
    }

    /// Takes the steps of a calm. There is no memory for 2^64-1 of them.
    fn calm_down(&mut self, alloc: Global, lines: &mut Lines) -> Result<(), NoMemory>
        requires reached { IsReached self.old }
        ensures whole { OnOk result (HasCalmed self.old lines.old self.new lines.new) }
        ensures part { OnErr result (IsStepInPart self.old self.new lines.old lines.new (calms (config_of self.old) (state_of self.old)) (calm_moves (config_of self.old) (state_of self.old))) }
    {
        let mut left = self.all_parts(alloc)?;
        'steps: for turn in 0..u64::MAX {
            let more = self.calm_step(alloc, &mut left, lines)?;
            if !more {
                return Ok(());
            }
        }
        Err(NoMemory)
    }

    /// Takes the next step of a calm. Answers false where nothing is left to do.
    fn calm_step(
        &mut self,
        alloc: Global,
        left: &mut Vec<Part>,
        lines: &mut Lines,
    ) -> Result<bool, NoMemory>
        requires reached { IsReached self.old }
        requires of { AreOf (config_of self.old) (left_in left.old.items) }
        ensures took { IfOk result (λ more. MayTake more self.old lines.old (left_in left.old.items) self.new lines.new (left_in left.new.items)) }
        ensures of { OnOk result (AreOf (config_of self.old) (left_in left.new.items)) }
        ensures part { OnErr result (IsCut self.old lines.old (left_in left.old.items) self.new lines.new) }
    {
        'parts: while let Some(part) = left.pop() {
            let begun = self.begin(alloc, part, left, lines)?;
            if begun {
                return Ok(true);
            }
        }
        Ok(false)
    }

    /// Takes the first step of a part, where it has one, and adds what is left of it then.
    fn begin(
        &mut self,
        alloc: Global,
        part: Part,
        left: &mut Vec<Part>,
        lines: &mut Lines,
    ) -> Result<bool, NoMemory>
        requires reached { IsReached self.old }
        requires own { IsOf (config_of self.old) (as_left part) }
        requires of { AreOf (config_of self.old) (left_in left.old.items) }
        ensures begins { IfOk result (λ begun. Begins begun self.old lines.old (as_left part ∷ left_in left.old.items) (left_in left.old.items) self.new lines.new (left_in left.new.items)) }
        ensures of { OnOk result (AreOf (config_of self.old) (left_in left.new.items)) }
        ensures part { OnErr result (IsCut self.old lines.old (as_left part ∷ left_in left.old.items) self.new lines.new) }
    {
        match part {
            Part::Announces(log) => self.announce_for(alloc, log, left, lines),
            Part::Settles(log) => self.deliver_in(alloc, Part::Settles(log), left, lines),
            Part::Ticks(log, node) => self.tick_in(alloc, log, node, left, lines),
            Part::Reads(name) => self.read_in(alloc, name, left, lines),
            Part::Drains => self.deliver_in(alloc, Part::Drains, left, lines),
            Part::Again(name, next) => self.ask_again(alloc, name, next, left, lines),
        }
    }

    /// The log's last sequencer, where it wasn't dropped, retries and tells its released number again.
    fn announce_for(
        &mut self,
        alloc: Global,
        log: LogId,
        left: &mut Vec<Part>,
        lines: &mut Lines,
    ) -> Result<bool, NoMemory>
        requires reached { IsReached self.old }
        requires of { AreOf (config_of self.old) (left_in left.old.items) }
        ensures begins { IfOk result (λ begun. Begins begun self.old lines.old (TheAnnounces log ∷ left_in left.old.items) (left_in left.old.items) self.new lines.new (left_in left.new.items)) }
        ensures of { OnOk result (AreOf (config_of self.old) (left_in left.new.items)) }
        ensures part { OnErr result (IsCut self.old lines.old (TheAnnounces log ∷ left_in left.old.items) self.new lines.new) }
    {
        let _ = left.len();
        let Some(found) = self.sequencers.last_of(log) else {
            return Ok(false);
        };
        let name = found.copy(alloc)?;
        let outcome = self.announce(alloc, &name)?;
        self.note(alloc, Step::Calms(name), outcome, lines)?;
        Ok(true)
    }

    /// The oldest new message is delivered, where there is one, and the part goes on.
    fn deliver_in(
        &mut self,
        alloc: Global,
        part: Part,
        left: &mut Vec<Part>,
        lines: &mut Lines,
    ) -> Result<bool, NoMemory>
        requires reached { IsReached self.old }
        requires delivers { IsDelivering (as_left part) }
        requires of { AreOf (config_of self.old) (left_in left.old.items) }
        ensures begins { IfOk result (λ begun. Begins begun self.old lines.old (as_left part ∷ left_in left.old.items) (left_in left.old.items) self.new lines.new (left_in left.new.items)) }
        ensures of { OnOk result (AreOf (config_of self.old) (left_in left.new.items)) }
        ensures part { OnErr result (IsCut self.old lines.old (as_left part ∷ left_in left.old.items) self.new lines.new) }
    {
        let Some(message) = self.network.oldest_new() else {
            return Ok(false);
        };
        left.push(part)?;
        let event = Event::Deliver { message };
        self.take(alloc, &event, lines)?;
        Ok(true)
    }

    /// The node ticks, and again where that cleaned an epoch.
    fn tick_in(
        &mut self,
        alloc: Global,
        log: LogId,
        node: NodeId,
        left: &mut Vec<Part>,
        lines: &mut Lines,
    ) -> Result<bool, NoMemory>
        requires reached { IsReached self.old }
        requires own { IsOf (config_of self.old) (TheTicks log node) }
        requires of { AreOf (config_of self.old) (left_in left.old.items) }
        ensures begins { IfOk result (λ begun. Begins begun self.old lines.old (TheTicks log node ∷ left_in left.old.items) (left_in left.old.items) self.new lines.new (left_in left.new.items)) }
        ensures of { OnOk result (AreOf (config_of self.old) (left_in left.new.items)) }
        ensures part { OnErr result (IsCut self.old lines.old (TheTicks log node ∷ left_in left.old.items) self.new lines.new) }
    {
        let (outcome, cleaned) = self.look(alloc, node, log)?;
        tick_again(cleaned, log, node, left)?;
        let step = Step::Takes(Event::Tick { node, log });
        self.note(alloc, step, outcome, lines)?;
        Ok(true)
    }

    /// The reader asks, where it is there and not finished.
    fn read_in(
        &mut self,
        alloc: Global,
        name: Name,
        left: &mut Vec<Part>,
        lines: &mut Lines,
    ) -> Result<bool, NoMemory>
        requires reached { IsReached self.old }
        requires of { AreOf (config_of self.old) (left_in left.old.items) }
        ensures begins { IfOk result (λ begun. Begins begun self.old lines.old (TheReads name ∷ left_in left.old.items) (left_in left.old.items) self.new lines.new (left_in left.new.items)) }
        ensures of { OnOk result (AreOf (config_of self.old) (left_in left.new.items)) }
        ensures part { OnErr result (IsCut self.old lines.old (TheReads name ∷ left_in left.old.items) self.new lines.new) }
    {
        let Some(next) = self.readers.next_of(&name) else {
            return Ok(false);
        };
        if self.readers.is_finished(&name) {
            return Ok(false);
        }
        self.poll_in(alloc, name, next, left, lines)?;
        Ok(true)
    }

    /// The reader asks again, where it is there and its next number isn't this one.
    fn ask_again(
        &mut self,
        alloc: Global,
        name: Name,
        next: u128,
        left: &mut Vec<Part>,
        lines: &mut Lines,
    ) -> Result<bool, NoMemory>
        requires reached { IsReached self.old }
        requires of { AreOf (config_of self.old) (left_in left.old.items) }
        ensures begins { IfOk result (λ begun. Begins begun self.old lines.old (TheAgain name next ∷ left_in left.old.items) (left_in left.old.items) self.new lines.new (left_in left.new.items)) }
        ensures of { OnOk result (AreOf (config_of self.old) (left_in left.new.items)) }
        ensures part { OnErr result (IsCut self.old lines.old (TheAgain name next ∷ left_in left.old.items) self.new lines.new) }
    {
        let Some(now) = self.readers.next_of(&name) else {
            return Ok(false);
        };
        if now == next {
            return Ok(false);
        }
        self.poll_in(alloc, name, now, left, lines)?;
        Ok(true)
    }

    /// The reader asks; then all messages are delivered, and perhaps it asks again.
    fn poll_in(
        &mut self,
        alloc: Global,
        name: Name,
        next: u128,
        left: &mut Vec<Part>,
        lines: &mut Lines,
    ) -> Result<(), NoMemory>
        requires reached { IsReached self.old }
        ensures step { OnOk result (IsStep self.old self.new lines.old lines.new (moved (config_of self.old) (state_of self.old) (ByEvent (Polls name))) (ByEvent (Polls name) ∷ [])) }
        ensures left { OnOk result (left_in left.new.items ≡ TheDrains ∷ TheAgain name next ∷ left_in left.old.items) }
        ensures part { OnErr result ((IsSame self.old self.new × (lines.new ≡ lines.old))
            ⊎ IsStepInPart self.old self.new lines.old lines.new (moved (config_of self.old) (state_of self.old) (ByEvent (Polls name))) (ByEvent (Polls name) ∷ [])) }
    {
        let again = name.copy(alloc)?;
        left.push(Part::Again(again, next))?;
        left.push(Part::Drains)?;
        let event = Event::Poll { name };
        self.take(alloc, &event, lines)?;
        Ok(())
    }
}

/// Adds the node's tick once more, where it cleaned an epoch.
fn tick_again(cleaned: bool, log: LogId, node: NodeId, left: &mut Vec<Part>) -> Result<(), NoMemory>
    ensures { OnOk result (left_in left.new.items ≡ (if cleaned then TheTicks log node ∷ left_in left.old.items else left_in left.old.items)) }
{
    if cleaned {
        left.push(Part::Ticks(log, node))?;
    }
    Ok(())
}
