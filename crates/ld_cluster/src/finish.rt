// How a step ends: its messages are sent, and its lines written.
ghost use Rattle.std.specs.Prelude.{◌≡◌, ◌==◌, ◌∷◌, [], ◌++◌, length, if◌then◌else◌, IfOk, OnOk, OnErr, option_copied};
ghost use Rattle.ld_transcript.specs.declared.line.Line.TheVariants.{Nothing};
ghost use Rattle.ld_machine.specs.State.{State, actor_of, message_line, message_lines};
ghost use Rattle.ld_cluster.specs.Standing.{Parts};
ghost use Rattle.ld_cluster.specs.Outcomes.{IsSame, IsFinished, IsSent, AddsFirst, ended, name_or_empty};

use crate::cluster::Cluster;
use crate::kinds::{kind_of, shown};
use ld_clients::Outcome;
use ld_ids::{LogId, Name, NoMemory};
use ld_msg::{Msg, Outbox, Who};
use ld_transcript::{Actor, Line, Lines};
use std::alloc::Global;

impl Cluster {
    /// Sends the messages, and writes the lines: those of the outcome, one for each message, and `none` where there is
    /// no other.
    pub(crate) fn finish(
        &mut self,
        alloc: Global,
        outcome: Outcome,
        lines: &mut Lines,
    ) -> Result<(), NoMemory>
        ensures done { (s : State) → Parts self.old s → OnOk result (IsFinished self.old self.new lines.old lines.new (ended s outcome)) }
        ensures same { IsSame self.old self.new }
        ensures part { (s : State) → Parts self.old s → OnErr result (AddsFirst lines.old lines.new (ended s outcome).lines) }
    {
        let before = lines.len();
        add_all(outcome.lines, lines)?;
        self.send_each(alloc, outcome.sends, lines)?;
        add_none(before, lines)?;
        Ok(())
    }

    /// Sends messages, and adds their lines.
    fn send_each(&mut self, alloc: Global, sends: Outbox, lines: &mut Lines) -> Result<(), NoMemory>
        ensures done { (s : State) → Parts self.old s → OnOk result (IsSent self.old self.new lines.old lines.new s sends) }
        ensures same { IsSame self.old self.new }
        ensures part { (s : State) → Parts self.old s → OnErr result (AddsFirst lines.old lines.new (message_lines s s.network.count sends)) }
    {
        for msg in sends.into_vec() {
            self.send(alloc, msg, lines)?;
        }
        Ok(())
    }

    /// Sends a message, and adds its line.
    fn send(&mut self, alloc: Global, msg: Msg, lines: &mut Lines) -> Result<(), NoMemory>
        ensures done { (s : State) → Parts self.old s → OnOk result (IsSent self.old self.new lines.old lines.new s (msg ∷ [])) }
        ensures same { IsSame self.old self.new }
        ensures part { (s : State) → Parts self.old s → OnErr result (AddsFirst lines.old lines.new (message_line s s.network.count msg ∷ [])) }
    {
        let line = self.message_line(alloc, &msg)?;
        lines.push(line)?;
        self.network.send(msg)?;
        Ok(())
    }

    /// The line of the next message.
    fn message_line(&self, alloc: Global, msg: &Msg) -> Result<Line, NoMemory>
        ensures { (s : State) → Parts self.now s → IfOk result (λ line. line ≡ message_line s s.network.count msg.now) }
    {
        let from = self.actor(alloc, msg.log, &msg.from)?;
        let to = self.actor(alloc, msg.log, &msg.to)?;
        Ok(Line::Message {
            message: self.network.count(),
            from,
            to,
            kind: kind_of(&msg.body),
            number: shown(&msg.body),
        })
    }

    /// An end of a message of a log.
    fn actor(&self, alloc: Global, log: LogId, who: &Who) -> Result<Actor, NoMemory>
        ensures { (s : State) → Parts self.now s → IfOk result (λ actor. actor ≡ actor_of s log who.now) }
    {
        match who {
            Who::Node(node) => Ok(Actor::Node(*node)),
            Who::Sequencer(epoch) => {
                let name = copy_or_empty(alloc, self.sequencers.name_of(log, *epoch))?;
                Ok(Actor::Sequencer(name))
            }
            Who::Reader(number) => {
                let name = copy_or_empty(alloc, self.readers.name_of(*number))?;
                Ok(Actor::Reader(name))
            }
        }
    }
}

/// The name once more, and an empty one where there is none.
fn copy_or_empty(alloc: Global, name: Option<&Name>) -> Result<Name, NoMemory>
    ensures { IfOk result (λ copy. copy ≡ name_or_empty (option_copied name.entry)) }
{
    match name {
        Some(name) => name.copy(alloc),
        None => Ok(Name::new(Vec::new(alloc))),
    }
}

/// Adds lines.
fn add_all(more: Vec<Line>, lines: &mut Lines) -> Result<(), NoMemory>
    ensures all { OnOk result (lines.new ≡ lines.old ++ more.items) }
    ensures part { OnErr result (AddsFirst lines.old lines.new more.items) }
{
    for line in more {
        lines.push(line)?;
    }
    Ok(())
}

/// Adds `none`, where there are only so many lines as before.
pub(crate) fn add_none(before: usize, lines: &mut Lines) -> Result<(), NoMemory>
    ensures all { OnOk result (lines.new ≡ (if length lines.old == before then lines.old ++ Nothing ∷ [] else lines.old)) }
    ensures none { OnErr result (lines.new ≡ lines.old) }
{
    if lines.len() != before {
        return Ok(());
    }
    lines.push(Line::Nothing)
}
