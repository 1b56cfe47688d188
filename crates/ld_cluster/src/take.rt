// An event that is one step.
ghost use Rattle.std.specs.Prelude.{◌≡◌, ◌∷◌, [], false, IfOk, OnErr, OnOk};
ghost use Rattle.ld_schedule.specs.declared.event.Event.TheVariants.{Lose};
ghost use Rattle.ld_machine.specs.Step.{happens};
ghost use Rattle.ld_machine.specs.Run.{step};
ghost use Rattle.ld_machine.specs.Calm.{event_of, moved, moves};
ghost use Rattle.ld_bounds.specs.Sound.{IsEvent};
ghost use Rattle.ld_cluster.specs.declared.cluster.Cluster.{Cluster as Seen};
ghost use Rattle.ld_cluster.specs.Standing.{as_move, config_of, state_of, IsReached};
ghost use Rattle.ld_cluster.specs.Steps.{IsStep, IsStepInPart, Counts, steps_of, is_flow};
ghost use Rattle.ld_cluster.specs.Outcomes.{IsSame, IsDone};

use crate::cluster::Cluster;
use crate::copy::copy_of;
use crate::past::Step;
use ld_bounds::laws::events_are_events;
use ld_clients::Outcome;
use ld_ids::NoMemory;
use ld_msg::Style;
use ld_schedule::Event;
use ld_transcript::Lines;
use std::alloc::Global;

impl Cluster {
    /// An event that is one step.
    pub(crate) fn take(
        &mut self,
        alloc: Global,
        event: &Event,
        lines: &mut Lines,
    ) -> Result<(), NoMemory>
        requires reached { IsReached self.old }
        requires counts { Counts event.now }
        requires one { is_flow event.now ≡ false }
        ensures whole { OnOk result (IsStep self.old self.new lines.old lines.new (step (config_of self.old) (state_of self.old) event.now) (steps_of (config_of self.old) (state_of self.old) event.now)) }
        ensures part { OnErr result (IsStepInPart self.old self.new lines.old lines.new (step (config_of self.old) (state_of self.old) event.now) (steps_of (config_of self.old) (state_of self.old) event.now)) }
    {
        events_are_events(event);
        let copy = copy_of(alloc, event)?;
        let outcome = self.happen(alloc, event)?;
        self.note(alloc, Step::Takes(copy), outcome, lines)?;
        Ok(())
    }

    /// A step that was done is finished: its messages are sent, its lines added, and it is one of the steps that were taken.
    pub(crate) fn note(
        &mut self,
        alloc: Global,
        step: Step,
        outcome: Outcome,
        lines: &mut Lines,
    ) -> Result<(), NoMemory>
        ensures whole { (k : Seen) → IsReached k → IsEvent (event_of (as_move step)) → IsDone k self.old outcome (moves (config_of k) (state_of k) (as_move step))
            → OnOk result (IsStep k self.new lines.old lines.new (moved (config_of k) (state_of k) (as_move step)) (as_move step ∷ [])) }
        ensures part { (k : Seen) → IsDone k self.old outcome (moves (config_of k) (state_of k) (as_move step))
            → OnErr result (IsStepInPart k self.new lines.old lines.new (moved (config_of k) (state_of k) (as_move step)) (as_move step ∷ [])) }
    {
        self.finish(alloc, outcome, lines)?;
        self.past.push(step)?;
        Ok(())
    }

    /// What an event does. A flow and a calm are several.
    fn happen(&mut self, alloc: Global, event: &Event) -> Result<Outcome, NoMemory>
        requires reached { IsReached self.old }
        requires counts { Counts event.now }
        ensures same { OnErr result (IsSame self.old self.new) }
        ensures done { IfOk result (λ outcome. IsDone self.old self.new outcome (happens (config_of self.old) (state_of self.old) event.now)) }
    {
        match event {
            Event::Format { node } => self.format(alloc, *node),
            Event::Activate { name, log } => self.activate(alloc, name, *log),
            Event::Append { name, payload } => self.append(alloc, name, payload),
            Event::Batch { name, messages } => self.batch(alloc, name, messages),
            Event::Trim { name, point } => self.trim(alloc, name, *point),
            Event::Retry { name } => self.retry(alloc, name),
            Event::Drop { name } => self.retire(alloc, name),
            Event::Deliver { message } => self.deliver(alloc, *message),
            Event::Lose { message } => Ok(self.lose(alloc, *message)),
            Event::Flow { .. } => Ok(Outcome::nothing(alloc)),
            Event::Calm => Ok(Outcome::nothing(alloc)),
            Event::Open {
                name,
                log,
                from,
                until,
            } => self.open(alloc, name, *log, *from, *until, Style::EachCopy),
            Event::OpenOne {
                name,
                log,
                from,
                until,
            } => self.open(alloc, name, *log, *from, *until, Style::OneCopy),
            Event::OpenMessages {
                name,
                log,
                from,
                until,
            } => self.open(alloc, name, *log, *from, *until, Style::OfMessages),
            Event::Poll { name } => self.poll(alloc, name),
            Event::Tick { node, log } => self.tick(alloc, *node, *log),
            Event::Down { node } => self.down(alloc, *node),
            Event::Up { node } => self.up(alloc, *node),
            Event::Wipe { node } => self.wipe(alloc, *node),
            Event::Fail { node, call } => self.fail(alloc, *node, *call),
            Event::Tear {
                node,
                call,
                picture,
            } => self.tear(alloc, *node, *call, *picture),
            Event::Set {
                log,
                r,
                extras,
                set,
            } => self.set(alloc, *log, *r, *extras, *set),
            Event::Replace { node, other, log } => self.replace(alloc, *node, *other, *log),
            Event::RegFail { call, done } => Ok(self.fail_register(alloc, *call, *done)),
        }
    }

    /// The message is lost: it is no longer new.
    fn lose(&mut self, alloc: Global, message: u64) -> Outcome
        requires reached { IsReached self.old }
        ensures { IsDone self.old self.new result (happens (config_of self.old) (state_of self.old) (Lose message)) }
    {
        self.network.mark(message);
        Outcome::nothing(alloc)
    }
}
