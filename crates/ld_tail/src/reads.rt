// A reader that is driven.
ghost use Rattle.std.specs.Prelude.{◌≡◌, ℕ, nat_le, [], None, Some, IfOk, OnOk, if◌then◌else◌};
ghost use Rattle.ld_table.specs.Named.{find_named};
ghost use Rattle.ld_config.specs.Bounds.{IsInBounds};
ghost use Rattle.ld_msg.specs.Register.{Register as Contents};
ghost use Rattle.ld_node_bounds.specs.Messages.{AreMessages};
ghost use Rattle.ld_machine.specs.State.{State};
ghost use Rattle.ld_machine.specs.Step.{happens};
ghost use Rattle.ld_clients.specs.Finished.{finished_in};
ghost use Rattle.ld_clients.specs.Reads.{opening};
ghost use Rattle.ld_register.specs.Calls.{looked, IsView};
ghost use Rattle.ld_rounds.specs.Acts.{IsActed};
ghost use Rattle.ld_rounds.specs.Reminding.{waited, closing};
ghost use Rattle.ld_tail.specs.Looking.{HasLooked};
ghost use Rattle.ld_tail.specs.Readers.{Follows, IsOf, takes};

use crate::looking::{look_end, register_end};
use ld_clients::{Outcome, Readers};
use ld_config::Config;
use ld_ids::{LogId, Name, NoMemory};
use ld_lsn::Lsn;
use ld_msg::{Body, Msg, Style, Who};
use ld_register::{Register, View};
use ld_rounds::{Actor, Ended, Heard, Reads, Refusal};
use std::alloc::Global;

/// A reader of a log, the first one, with its register.
#[derive(Drop)]
pub struct Reading<G: Register> {
    name: Name,
    log: LogId,
    readers: Readers,
    register: G,
    /// Why it can't go on, where it can't. Then no call does anything more.
    end: Option<Ended>,
}

/// What a reader's call writes and sends. It never ends the drive.
fn told(outcome: Outcome) -> Heard
    ensures lines { result.lines.items ≡ outcome.lines.items }
    ensures sends { result.sends ≡ outcome.sends }
    ensures end { result.end ≡ None }
{
    let Outcome { lines, sends } = outcome;
    Heard {
        lines,
        sends,
        end: None,
    }
}

/// The epoch of the number for which a message tells the reader to wait.
fn waited(message: &Msg) -> Option<u32>
    ensures { result ≡ waited message.now.body }
{
    match &message.body {
        Body::ReadWait { from, .. } => Some(from.home().0),
        _ => None,
    }
}

/// The close of an epoch of a log, from the sequencer that closed it, as a look at the epoch shows it; none where it isn't
/// closed, or where that one isn't, for a number of which the reader waits.
fn closed(log: LogId, home: u32, epoch: u32, to: Who, view: &View) -> Option<Msg>
    ensures { result ≡ (if nat_le home view.now.lce then closing log epoch to view.now.summary else None) }
{
    if home > view.lce {
        return None;
    }
    match &view.summary {
        Some(summary) => Some(Msg {
            from: Who::Sequencer(summary.ballot),
            to,
            log,
            body: Body::Clean {
                epoch,
                summary: *summary,
            },
        }),
        None => None,
    }
}

impl<G: Register> Reading<G> {
    /// No readers, of which one may be opened.
    pub fn new(alloc: Global, name: Name, log: LogId, register: G) -> Reading<G>
        ensures name { result.name ≡ name }
        ensures log { result.log ≡ log }
        ensures none { result.readers ≡ [] }
        ensures register { result.register ≡ register }
        ensures end { result.end ≡ None }
    {
        Reading {
            name,
            log,
            readers: Readers::new(alloc),
            register,
            end: None,
        }
    }

    /// The register.
    pub fn into_register(self) -> G
        ensures { result ≡ self.register }
    {
        let Reading { register, .. } = self;
        register
    }

    /// Why it can't go on, where it can't.
    pub fn end(&self) -> Option<Ended>
        ensures { result ≡ self.now.end }
    {
        self.end
    }

    /// Looks at an epoch of the log. Where the register doesn't answer, the reader can't go on.
    pub fn look(&mut self, alloc: Global, epoch: u32) -> Result<View, NoMemory>
        ensures name { self.new.name ≡ self.old.name }
        ensures log { self.new.log ≡ self.old.log }
        ensures readers { self.new.readers ≡ self.old.readers }
        ensures on { OnOk result (self.new.end ≡ self.old.end) }
        ensures looked { self.old.end ≡ None → HasLooked None self.new.end (G.told self.old.register) (G.told self.new.register) (G.holds self.old.register) (G.holds self.new.register) (G.may_hold self.old.register) (G.may_hold self.new.register) (G.faults self.old.register) (G.faults self.new.register) (G.identity self.old.register) (G.identity self.new.register) }
        ensures whole { G.told self.old.register → OnOk result ((c : Contents) × G.holds self.new.register c) }
        ensures exact { (c : Contents) → G.tells self.old.register c → OnOk result (G.tells self.new.register c) }
        ensures shown { (c : Contents) → G.tells self.old.register c → IfOk result (λ view. view ≡ looked c self.old.log epoch) }
        ensures bounds { IfOk result (IsView self.old.log epoch) }
        ensures damaged { self.old.end ≡ None → (place : ℕ) → self.new.end ≡ Some (Ended.Register (Refusal.Damaged place)) → G.told self.old.register → G.damaged self.old.register place }
    {
        match self.register.look(alloc, self.log, epoch) {
            Ok(view) => Ok(view),
            Err(fault) => {
                self.end = Some(register_end(&fault));
                Err(NoMemory)
            }
        }
    }

    /// Opens a reader of the log from a number to another, both included, that reads in this style. Nothing comes of it where
    /// the log is none of the configuration's, and it is refused with a line `range` where the first number is 0 or above the
    /// last: then it is never finished.
    pub fn open(
        &mut self,
        alloc: Global,
        config: &Config,
        from: Lsn,
        until: Lsn,
        style: Style,
    ) -> Result<Heard, NoMemory>
        requires { IsInBounds config.now }
        ensures name { self.new.name ≡ self.old.name }
        ensures log { self.new.log ≡ self.old.log }
        ensures register { self.new.register ≡ self.old.register }
        ensures end { self.new.end ≡ self.old.end }
        ensures opened { self.old.readers ≡ [] → IfOk result (λ heard. (s : State) → Follows [] (G.tells self.old.register) config.now s
            → IsActed (Follows self.new.readers (G.tells self.new.register) config.now) s heard.lines.items heard.sends (happens config.now s (opening style self.old.name self.old.log from until))) }
        ensures messages { self.old.readers ≡ [] → IfOk result (λ heard. AreMessages heard.sends) }
        ensures goes_on { IfOk result (λ heard. heard.end ≡ None) }
    {
        let outcome = self
            .readers
            .open(alloc, config, &self.name, self.log, from, until, style)?;
        Ok(told(outcome))
    }
}

impl<G: Register> Actor for Reading<G> {
    ghost use Rattle.std.specs.Prelude.{false};
    ghost use Rattle.ld_tail.specs.Looking.{looked_here, looked_on};

    ghost stands = { λ a c s. Follows a.readers (G.tells a.register) c s };

    ghost stands_apart = { λ a c s nodes network is. record { readers = record { readers = is.readers.readers; logs = is.readers.logs }; register = is.register } };

    ghost own = { λ a. record { name = a.name; log = a.log; takes = takes a.log; ticks = Some a.log } };

    ghost since = { λ a b. HasLooked a.end b.end (G.told a.register) (G.told b.register) (G.holds a.register) (G.holds b.register) (G.may_hold a.register) (G.may_hold b.register) (G.faults a.register) (G.faults b.register) (G.identity a.register) (G.identity b.register) };

    ghost since_here = { λ a. looked_here a.end (G.told a.register) (G.holds a.register) (G.may_hold a.register) (G.faults a.register) (G.identity a.register) };

    ghost since_on = { λ a b c p q. looked_on a.end b.end c.end (G.told a.register) (G.told b.register) (G.told c.register) (G.holds a.register) (G.holds b.register) (G.holds c.register) (G.may_hold a.register) (G.may_hold b.register) (G.may_hold c.register) (G.faults a.register) (G.faults b.register) (G.faults c.register) (G.identity a.register) (G.identity b.register) (G.identity c.register) p q };

    ghost hears = { λ a m. IsOf a.log m };

    ghost finals = { λ _. false };

    fn is_for(&self, message: &Msg) -> bool {
        let is_here = match &message.to {
            Who::Reader(number) => *number == 0,
            _ => false,
        };
        is_here && message.log == self.log
    }

    fn hear(&mut self, alloc: Global, message: &Msg) -> Result<Heard, NoMemory> {
        let Who::Reader(number) = &message.to else {
            unreachable!();
        };
        let None = self.end else {
            return Err(NoMemory);
        };
        match self
            .readers
            .on_reply(alloc, *number, message, &mut self.register)
        {
            Ok(outcome) => Ok(told(outcome)),
            Err(fault) => {
                self.end = Some(look_end(&fault));
                Err(NoMemory)
            }
        }
    }

    fn reminder(
        &mut self,
        alloc: Global,
        message: &Msg,
        epoch: u32,
    ) -> Result<Option<Msg>, NoMemory> {
        let Some(home) = waited(message) else {
            return Ok(None);
        };
        let None = self.end else {
            return Err(NoMemory);
        };
        let _ = self.log.number();
        let view = self.look(alloc, epoch)?;
        Ok(closed(self.log, home, epoch, message.from, &view))
    }
}

impl<G: Register> Reads for Reading<G> {
    ghost use Rattle.std.specs.Prelude.{option_map};

    ghost finished = { λ a name. finished_in (find_named name a.readers) };

    ghost next = { λ a name. option_map (λ f. f.reader.next) (find_named name a.readers) };

    fn poll(&mut self, alloc: Global, name: &Name) -> Result<Heard, NoMemory> {
        let None = self.end else {
            return Err(NoMemory);
        };
        match self.readers.poll(alloc, name, &mut self.register) {
            Ok(outcome) => Ok(told(outcome)),
            Err(fault) => {
                self.end = Some(look_end(&fault));
                Err(NoMemory)
            }
        }
    }

    fn is_finished(&self, name: &Name) -> bool {
        self.readers.is_finished(name)
    }

    fn next_of(&self, name: &Name) -> Option<u128> {
        self.readers.next_of(name)
    }
}
