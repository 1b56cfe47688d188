// What the calls of readers write and send.
ghost use Rattle.std.specs.Prelude.{◌≡◌, ◌≤◌, ◌⊎◌, ◌==◌, ◌||◌, ℕ, List, nat_lt, IfOk, IfErr, OnErr, IsErrOf};
ghost use Rattle.ld_io.specs.Causes.{Rose};
ghost use Rattle.ld_config.specs.declared.config.Config.{Config as Contents};
ghost use Rattle.ld_schedule.specs.declared.event.Event.TheVariants.{Poll};
ghost use Rattle.ld_msg.specs.declared.msg.Who.TheVariants.{Reader as OfReader};
ghost use Rattle.ld_msg.specs.Bounds.{IsMessage};
ghost use Rattle.ld_msg.specs.Register.{Register as Registered};
ghost use Rattle.ld_node_bounds.specs.Messages.{AreMessages};
ghost use Rattle.ld_register.specs.Calls.{Keeps};
ghost use Rattle.ld_register.specs.declared.fault.RegisterFault.TheVariants as registers;
ghost use Rattle.ld_reader.specs.Faults.{IsOfLook};
ghost use Rattle.ld_machine.specs.State.{State, reader_of};
ghost use Rattle.ld_machine.specs.Step.{happens, to_reader};
ghost use Rattle.ld_clients.specs.Acting.{Stays};
ghost use Rattle.ld_clients.specs.Followers.{KnowTheirLogs};
ghost use Rattle.ld_clients.specs.Reads.{AreReaders, IsRead, opening};

use crate::Outcome;
use crate::lines::add_items;
use crate::lookup::find_spec;
use crate::readers::Readers;
use ld_config::Config;
use ld_ids::{LogId, Name, NoMemory};
use ld_lsn::Lsn;
use ld_msg::{Msg, Outbox, Style};
use ld_reader::{Reader, ReaderFault};
use ld_register::Register;
use ld_transcript::Line;
use std::alloc::Global;

/// How many readers a run has at most.
const READER_LIMIT: usize = 1_000;

impl Readers {
    /// Opens a reader of a log from a number to another, both included, that reads in this style. Where the register shows no nodes, it asks those that
    /// the configuration gives the log. Nothing comes of it where the name is taken or the log is none of the configuration's.
    /// It is refused with a line `range` where the first number is 0 or above the last, and then with a line `full` where
    /// there are 1,000 readers.
    pub fn open(
        &mut self,
        alloc: Global,
        config: &Config,
        name: &Name,
        log: LogId,
        from: Lsn,
        until: Lsn,
        style: Style,
    ) -> Result<Outcome, NoMemory>
        ensures done { IfOk result (λ outcome. (s : State) → AreReaders config.now s self.old
            → IsRead s self.new outcome (Stays s) (happens config.now s (opening style name.now log from until))) }
        ensures logs { KnowTheirLogs config.now self.old → KnowTheirLogs config.now self.new }
    {
        if self.has(name) {
            return Ok(Outcome::nothing(alloc));
        }
        let Some(first) = find_spec(config, log) else {
            return Ok(Outcome::nothing(alloc));
        };
        let number = self.len();
        let name = name.copy(alloc)?;
        if is_no_range(from, until) {
            let outcome = Outcome::line(alloc, Line::RefusedRange { name })?;
            return Ok(outcome);
        }
        if READER_LIMIT <= number {
            let outcome = Outcome::line(alloc, Line::RefusedFull { name })?;
            return Ok(outcome);
        }
        let reader = Reader::start(alloc, &first, number as u32, from, until, style)?;
        self.add(name, reader)?;
        Ok(Outcome::nothing(alloc))
    }

    /// The reader of the name looks at the epoch of its next number, and asks the nodes that the register shows for that
    /// number. One that isn't there or is finished does nothing. It is refused with `Register`, and `Failed` or `Damaged`,
    /// as the look is, and when out of memory. Then all readers are as they were. A look changes nothing of the register.
    pub fn poll<G: Register>(
        &mut self,
        alloc: Global,
        name: &Name,
        reg: &mut G,
    ) -> Result<Outcome, ReaderFault>
        ensures done { IfOk result (λ outcome. (c : Contents) (s : State) → AreReaders c s self.old → G.tells reg.old s.register
            → IsRead s self.new outcome (G.tells reg.new) (happens c s (Poll name.now))) }
        ensures foretold { (c : Registered) → G.tells reg.old c → IfErr result (λ fault. fault ≡ ReaderFault.NoMemory) }
        ensures err { OnErr result (self.new ≡ self.old) }
        ensures logs { (c : Contents) → KnowTheirLogs c self.old → KnowTheirLogs c self.new }
        ensures told { G.told reg.old → G.told reg.new }
        ensures same { (c : Registered) → G.may_hold reg.new c → G.may_hold reg.old c }
        ensures survives { (cs : List Registered) → G.told reg.old → G.leaves reg.old cs → G.leaves reg.new cs }
        ensures keeps { IsErrOf result (ReaderFault.Register registers.Failed) ⊎ Keeps (G.holds reg.old) (G.holds reg.new) (G.may_hold reg.old) (G.may_hold reg.new) }
        ensures failed { IsErrOf result (ReaderFault.Register registers.Failed) → Rose (G.faults reg.old) (G.faults reg.new) }
        ensures steady { IsErrOf result (ReaderFault.Register registers.Failed) ⊎ (G.faults reg.new ≡ G.faults reg.old) }
        ensures damaged { (place : ℕ) → IsErrOf result (ReaderFault.Register (registers.Damaged place)) → G.told reg.old → G.damaged reg.old place }
        ensures refused { IfErr result IsOfLook }
        ensures counts { G.faults reg.old ≤ G.faults reg.new }
        ensures itself { G.identity reg.new ≡ G.identity reg.old }
        ensures messages { IfOk result (λ outcome. AreMessages outcome.sends) }
    {
        let mut sends = Outbox::empty(alloc);
        self.ask(alloc, name, reg, &mut sends)?;
        Ok(Outcome {
            lines: Vec::new(alloc),
            sends,
        })
    }

    /// The reader of a number gets the message, writes the items that follow and sends its asks. One that isn't there or is
    /// finished does nothing. Where a round begins, it looks first at the epoch of its next number. It is refused with
    /// `Register`, and `Failed` or `Damaged`, as the look is: then all readers are as they were. A look changes nothing of the
    /// register. After running out of memory the readers are of no use.
    pub fn on_reply<G: Register>(
        &mut self,
        alloc: Global,
        number: u32,
        msg: &Msg,
        reg: &mut G,
    ) -> Result<Outcome, ReaderFault>
        requires message { IsMessage msg.now }
        requires to { msg.now.to ≡ OfReader number }
        ensures done { IfOk result (λ outcome. (c : Contents) (s : State) → AreReaders c s self.old → G.tells reg.old s.register
            → IsRead s self.new outcome (G.tells reg.new) (to_reader c s msg.now (reader_of number s.readers))) }
        ensures foretold { (c : Registered) → G.tells reg.old c → IfErr result (λ fault. fault ≡ ReaderFault.NoMemory) }
        ensures err { IfErr result (λ fault. (fault ≡ ReaderFault.NoMemory) ⊎ (self.new ≡ self.old)) }
        ensures logs { (c : Contents) → KnowTheirLogs c self.old → KnowTheirLogs c self.new }
        ensures told { G.told reg.old → G.told reg.new }
        ensures same { (c : Registered) → G.may_hold reg.new c → G.may_hold reg.old c }
        ensures survives { (cs : List Registered) → G.told reg.old → G.leaves reg.old cs → G.leaves reg.new cs }
        ensures keeps { IsErrOf result (ReaderFault.Register registers.Failed) ⊎ Keeps (G.holds reg.old) (G.holds reg.new) (G.may_hold reg.old) (G.may_hold reg.new) }
        ensures failed { IsErrOf result (ReaderFault.Register registers.Failed) → Rose (G.faults reg.old) (G.faults reg.new) }
        ensures steady { IsErrOf result (ReaderFault.Register registers.Failed) ⊎ (G.faults reg.new ≡ G.faults reg.old) }
        ensures damaged { (place : ℕ) → IsErrOf result (ReaderFault.Register (registers.Damaged place)) → G.told reg.old → G.damaged reg.old place }
        ensures refused { IfErr result IsOfLook }
        ensures counts { G.faults reg.old ≤ G.faults reg.new }
        ensures itself { G.identity reg.new ≡ G.identity reg.old }
        ensures messages { IfOk result (λ outcome. AreMessages outcome.sends) }
    {
        let Some(found) = self.name_of(number) else {
            return Ok(Outcome::nothing(alloc));
        };
        let name = found.copy(alloc)?;
        let style = self.style_of(&name);
        let mut sends = Outbox::empty(alloc);
        let items = self.hear(alloc, &name, msg, reg, &mut sends)?;
        let mut lines = Vec::new(alloc);
        add_items(alloc, style, &name, items.as_slice(), &mut lines)?;
        Ok(Outcome { lines, sends })
    }
}

/// Whether no number stands from the first to the last, or the first is 0.
fn is_no_range(from: Lsn, until: Lsn) -> bool
    ensures { result ≡ ((from == 0) || nat_lt until from) }
{
    from.value() == 0 || until.value() < from.value()
}
