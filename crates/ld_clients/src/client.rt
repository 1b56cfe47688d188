// One sequencer of a run, or what is left of it.
ghost use Rattle.std.specs.Prelude.{◌≡◌, true, false, Some, IfOk, OnOk};
ghost use Rattle.ld_config.specs.declared.config.Config.{Config as Contents};
ghost use Rattle.ld_msg.specs.Bounds.{IsMessage};
ghost use Rattle.ld_msg.specs.Register.{is_crowded};
ghost use Rattle.ld_msg.specs.Sequencer.{appending, on_retry};
ghost use Rattle.ld_machine.specs.Calm.{calms_acts};
ghost use Rattle.ld_machine.specs.Config.{looks_at};
ghost use Rattle.ld_machine.specs.State.{State};
ghost use Rattle.ld_machine.specs.Step.{on_live, append_done, trim_done, acted, to_live};
ghost use Rattle.ld_clients.specs.declared.client.Client.TheVariants.{Gone};
ghost use Rattle.ld_clients.specs.Acting.{IsNamed, HasActed, Stays};
ghost use Rattle.ld_clients.specs.Serving.{shown, log_in, epoch_in, IsWholeIn, GoesOn};

use crate::Outcome;
use crate::report::{refused, told};
use ld_ids::{LogId, Name, NoMemory, Payload};
use ld_lsn::Lsn;
use ld_msg::{Msg, Outbox};
use ld_register::Register;
use ld_sequencer::Sequencer;
use ld_transcript::Line;
use std::alloc::Global;

/// A sequencer, or what is left of one that was dropped, which does nothing more.
#[derive(Drop)]
pub(crate) enum Client {
    /// It is at work.
    Live(Sequencer),
    /// It was dropped, and what it held was given back.
    Gone {
        /// The log that it was a sequencer of.
        log: LogId,
        /// The epoch that it was the sequencer of.
        epoch: u32,
    },
}

impl Client {
    /// The log that it is or was a sequencer of.
    pub(crate) fn log(&self) -> LogId
        requires { IsWholeIn self.now }
        ensures { result ≡ log_in self.now }
    {
        match self {
            Client::Live(sequencer) => sequencer.spec().log,
            Client::Gone { log, .. } => *log,
        }
    }

    /// Whether it was dropped.
    #[tactic(auto, using(crate::proofs::Latest::gone_rules))]
    pub(crate) fn is_gone(&self) -> bool
        requires { IsWholeIn self.now }
        ensures { result ≡ (shown self.now).gone }
    {
        match self {
            Client::Live(_) => false,
            Client::Gone { .. } => true,
        }
    }

    /// The epoch that it is or was the sequencer of.
    pub(crate) fn epoch(&self) -> u32
        ensures { result ≡ epoch_in self.now }
    {
        match self {
            Client::Live(sequencer) => sequencer.epoch(),
            Client::Gone { epoch, .. } => *epoch,
        }
    }

    /// It is dropped, or was so before: what it holds is given back.
    pub(crate) fn retire(&mut self)
        requires { IsWholeIn self.old }
        ensures { self.new ≡ Gone (log_in self.old) (epoch_in self.old) }
    {
        let (log, epoch) = (self.log(), self.epoch());
        *self = Client::Gone { log, epoch };
    }

    /// Numbers the payload and sends it, or writes why not.
    pub(crate) fn append(
        &mut self,
        alloc: Global,
        name: &Name,
        payload: &Payload,
    ) -> Result<Outcome, NoMemory>
        requires { IsWholeIn self.old }
        ensures done { IfOk result (λ outcome. (c : Contents) (s : State) → IsNamed c s name.now self.old
            → HasActed s name.now self.new outcome (Stays s)
            (on_live s (Some (shown self.old)) (λ q. append_done s name.now q payload.now (appending q payload.now)))) }
        ensures goes_on { GoesOn self.old self.new }
    {
        let Client::Live(sequencer) = self else {
            return Ok(Outcome::nothing(alloc));
        };
        let mut sends = Outbox::empty(alloc);
        let copy = payload.copy(alloc)?;
        match sequencer.append(alloc, copy, &mut sends) {
            Ok(number) => {
                let name = name.copy(alloc)?;
                let outcome = Outcome::sent(alloc, Line::Appended { name, number }, sends)?;
                Ok(outcome)
            }
            Err(fault) => {
                let outcome = refused(alloc, name, fault, sends)?;
                Ok(outcome)
            }
        }
    }

    /// Tells all nodes of the configuration that all up to the point may go, or writes why not.
    pub(crate) fn trim(&self, alloc: Global, name: &Name, point: Lsn) -> Result<Outcome, NoMemory>
        requires { IsWholeIn self.now }
        ensures { IfOk result (λ outcome. (c : Contents) (s : State) → IsNamed c s name.now self.now
            → HasActed s name.now self.now outcome (Stays s)
            (on_live s (Some (shown self.now)) (λ q. trim_done c s name.now q point))) }
    {
        let Client::Live(sequencer) = self else {
            return Ok(Outcome::nothing(alloc));
        };
        let mut sends = Outbox::empty(alloc);
        match sequencer.trim(point, &mut sends) {
            Ok(()) => {
                let name = name.copy(alloc)?;
                let outcome = Outcome::sent(alloc, Line::Trimmed { name, point }, sends)?;
                Ok(outcome)
            }
            Err(fault) => {
                let outcome = refused(alloc, name, fault, sends)?;
                Ok(outcome)
            }
        }
    }

    /// Sends again what is still wanted, looks again where no look succeeded at an epoch whose nodes have told all that they
    /// can, and tries its close again. After running out of memory it is of no use.
    pub(crate) fn retry<G: Register>(
        &mut self,
        alloc: Global,
        name: &Name,
        reg: &mut G,
    ) -> Result<Outcome, NoMemory>
        requires { IsWholeIn self.old }
        ensures done { IfOk result (λ outcome. (c : Contents) (s : State) → IsNamed c s name.now self.old
            → G.tells reg.old s.register → is_crowded s.register (log_in self.old) ≡ false
            → HasActed s name.now self.new outcome (G.tells reg.new)
            (on_live s (Some (shown self.old)) (λ q. acted c s name.now q (on_retry (looks_at c s.register q.log) q)))) }
        ensures goes_on { OnOk result (GoesOn self.old self.new) }
    {
        let Client::Live(sequencer) = self else {
            return Ok(Outcome::nothing(alloc));
        };
        let mut sends = Outbox::empty(alloc);
        let answer = sequencer.retry(alloc, reg, &mut sends);
        let outcome = told(alloc, name, answer, sends)?;
        Ok(outcome)
    }

    /// Does what a retry does, and tells the released number once more. After running out of memory it is of no use.
    pub(crate) fn calm<G: Register>(
        &mut self,
        alloc: Global,
        name: &Name,
        reg: &mut G,
    ) -> Result<Outcome, NoMemory>
        requires { IsWholeIn self.old }
        ensures done { IfOk result (λ outcome. (c : Contents) (s : State) → IsNamed c s name.now self.old
            → G.tells reg.old s.register → is_crowded s.register (log_in self.old) ≡ false
            → HasActed s name.now self.new outcome (G.tells reg.new)
            (on_live s (Some (shown self.old)) (λ q. calms_acts c s name.now q (on_retry (looks_at c s.register q.log) q)))) }
        ensures goes_on { OnOk result (GoesOn self.old self.new) }
    {
        let Client::Live(sequencer) = self else {
            return Ok(Outcome::nothing(alloc));
        };
        let mut sends = Outbox::empty(alloc);
        let answer = sequencer.retry(alloc, reg, &mut sends);
        let sends = sequencer.announce(sends)?;
        let outcome = told(alloc, name, answer, sends)?;
        Ok(outcome)
    }

    /// Takes the message. After running out of memory it is of no use.
    pub(crate) fn on_reply<G: Register>(
        &mut self,
        alloc: Global,
        name: &Name,
        msg: &Msg,
        reg: &mut G,
    ) -> Result<Outcome, NoMemory>
        requires whole { IsWholeIn self.old }
        requires message { IsMessage msg.now }
        ensures done { IfOk result (λ outcome. (c : Contents) (s : State) → IsNamed c s name.now self.old
            → G.tells reg.old s.register → is_crowded s.register (log_in self.old) ≡ false
            → HasActed s name.now self.new outcome (G.tells reg.new) (to_live c s name.now (shown self.old) msg.now)) }
        ensures goes_on { OnOk result (GoesOn self.old self.new) }
    {
        let Client::Live(sequencer) = self else {
            return Ok(Outcome::nothing(alloc));
        };
        let mut sends = Outbox::empty(alloc);
        let answer = sequencer.on_reply(alloc, msg, reg, &mut sends);
        let outcome = told(alloc, name, answer, sends)?;
        Ok(outcome)
    }
}
