// A sequencer that is driven.
ghost use Rattle.std.specs.Prelude.{ℕ, ◌≡◌, ◌==◌, ◌&&◌, ◌≢◌, ◌⊎◌, [], ◌∷◌, true, false, None, Some, IfOk, IfSome, OnOk};
ghost use Rattle.ld_config.specs.declared.config.Config.{Config as Contents};
ghost use Rattle.ld_config.specs.Bounds.{IsInBounds};
ghost use Rattle.ld_register.specs.Bounds.{IsSpec};
ghost use Rattle.ld_schedule.specs.declared.event.Event.TheVariants.{Activate, Append, Retry, Trim};
ghost use Rattle.ld_machine.specs.State.{State};
ghost use Rattle.ld_machine.specs.Step.{happens};
ghost use Rattle.ld_bounds.specs.Sound.{IsSound};
ghost use Rattle.ld_rounds.specs.Acts.{IsActed};
ghost use Rattle.ld_node_bounds.specs.Messages.{AreMessages};
ghost use Rattle.ld_rounds.specs.Ends.{IsSaid, is_final, tells_by};
ghost use Rattle.ld_rounds.specs.Rounds.{tells_full};
ghost use Rattle.ld_append.specs.Acting.{Serves, IsTo, is_to, IsSpecOf, IsUnset, settled_in, MayCrowd, Leaves, IsSince, IsOfLog, HasBegun, HasKept, HoldsSome, LacksRoom};
ghost use Rattle.ld_append.specs.Refusing.{fault_end, start_lines, going, IsTold, IsStartTold};
ghost use Rattle.ld_append.specs.Appends.{IsRefused};

use crate::refusing::{heard, is_window};
use ld_config::Config;
use ld_ids::{LogId, Name, NoMemory, Payload, Spec};
use ld_lsn::Lsn;
use ld_msg::{Msg, Outbox, Who};
use ld_register::{Register, RegisterFault};
use ld_rounds::{Actor, Appended, Appends, Ended, Heard, Refusal, Request};
use ld_sequencer::{Sequencer, SequencerFault};
use ld_transcript::Line;
use std::alloc::Global;

/// A sequencer of a log, once it is active and as long as it is of use, with its register.
#[derive(Drop)]
pub struct Acting<G: Register> {
    name: Name,
    log: LogId,
    sequencer: Option<Sequencer>,
    register: G,
    /// The register has refused a close in a round, since it holds as many other logs as may be.
    is_shut: bool,
    /// How the drive ends by a call that met the register, where it does. Then no call does anything more.
    end: Option<Ended>,
}

/// No line and no message.
fn nothing(alloc: Global) -> Heard
    ensures lines { result.lines.items ≡ [] }
    ensures sends { result.sends ≡ [] }
    ensures end { result.end ≡ None }
{
    Heard {
        lines: Vec::new(alloc),
        sends: Outbox::empty(alloc),
        end: None,
    }
}

/// One line, and these messages.
fn with_line(alloc: Global, line: Line, sends: Outbox) -> Result<Heard, NoMemory>
    ensures lines { IfOk result (λ heard. heard.lines.items ≡ line ∷ []) }
    ensures sends { IfOk result (λ heard. heard.sends ≡ sends) }
    ensures end { IfOk result (λ heard. heard.end ≡ None) }
{
    let mut lines = Vec::new(alloc);
    lines.push(line)?;
    Ok(Heard {
        lines,
        sends,
        end: None,
    })
}

/// Whether the message is for the sequencer, by the epoch and the log.
fn is_to(sequencer: &Sequencer, message: &Msg) -> bool
    ensures to { result ≡ true → IsTo (Some sequencer.now) message.now }
    ensures taken { result ≡ (is_to sequencer.now.sequencer.epoch message.now.to && (message.now.log == sequencer.now.sequencer.spec.log)) }
{
    let is_here = match &message.to {
        Who::Sequencer(epoch) => *epoch == sequencer.epoch(),
        _ => false,
    };
    is_here && message.log == sequencer.spec().log
}

/// The drive goes on where the register holds as many other logs as may be: then this is told beside.
fn goes_on(heard: Heard) -> (Heard, bool)
    requires { IfSome heard.end (IsTold heard.lines.items) }
    ensures lines { result.0.lines.items ≡ heard.lines.items }
    ensures sends { result.0.sends ≡ heard.sends }
    ensures said { IfSome result.0.end (IsSaid result.0.lines.items) }
    ensures end { result.0.end ≡ going heard.end }
    ensures shut { result.1 ≡ true → heard.end ≡ Some Ended.LogLimit }
{
    let Heard { lines, sends, end } = heard;
    match end {
        Some(Ended::LogLimit) => (
            Heard {
                lines,
                sends,
                end: None,
            },
            true,
        ),
        _ => (Heard { lines, sends, end }, false),
    }
}

/// Why an activation was refused. A register that is damaged has no line either.
fn refused(
    alloc: Global,
    name: &Name,
    fault: SequencerFault,
    sends: Outbox,
) -> Result<Heard, NoMemory>
    ensures lines { IfOk result (λ heard. heard.lines.items ≡ start_lines name.now fault) }
    ensures sends { IfOk result (λ heard. heard.sends ≡ sends) }
    ensures end { IfOk result (λ heard. heard.end ≡ fault_end fault) }
    ensures told { IfOk result (λ heard. IfSome heard.end (IsStartTold heard.lines.items)) }
    ensures memory { OnOk result (fault ≢ SequencerFault.NoMemory) }
{
    match fault {
        SequencerFault::Register(RegisterFault::Damaged(place)) => Ok(Heard {
            lines: Vec::new(alloc),
            sends,
            end: Some(Ended::Register(Refusal::Damaged(place))),
        }),
        _ => heard(alloc, name, Err(fault), sends),
    }
}

impl<G: Register> Acting<G> {
    /// No sequencer of the log is active.
    pub fn new(name: Name, log: LogId, register: G) -> Acting<G>
        ensures name { result.name ≡ name }
        ensures log { result.log ≡ log }
        ensures none { result.sequencer ≡ None }
        ensures unshut { result.is_shut ≡ false }
        ensures register { result.register ≡ register }
        ensures end { result.end ≡ None }
    {
        Acting {
            name,
            log,
            sequencer: None,
            register,
            is_shut: false,
            end: None,
        }
    }

    /// The register.
    pub fn into_register(self) -> G
        ensures { result ≡ self.register }
    {
        let Acting { register, .. } = self;
        register
    }

    /// Activates a sequencer of the log's next epoch, with these nodes, factor and extras, which asks for what stands in the
    /// epochs before it that aren't closed. They count as well for an epoch for which the register shows none.
    pub fn activate(
        &mut self,
        alloc: Global,
        config: &Config,
        spec: &Spec,
    ) -> Result<Heard, NoMemory>
        requires { IsSpec spec.now }
        ensures name { self.new.name ≡ self.old.name }
        ensures log { self.new.log ≡ self.old.log }
        ensures activated { self.old.sequencer ≡ None → IfOk result (λ heard. (s : State) → IsInBounds config.now → IsSpecOf config.now spec.now → IsUnset config.now s spec.now → IsSound config.now s → Serves self.old.name None (G.tells self.old.register) config.now s
            → IsActed (Serves self.new.name self.new.sequencer (G.tells self.new.register) config.now) s heard.lines.items heard.sends (happens config.now s (Activate self.old.name spec.now.log))) }
        ensures messages { IfOk result (λ heard. AreMessages heard.sends) }
        ensures told { IfOk result (λ heard. IfSome heard.end (IsStartTold heard.lines.items)) }
        ensures ends { IfOk result (λ heard. heard.end ≡ None → tells_by is_final heard.lines.items ≡ false) }
        ensures leaves { Leaves spec.now.log (G.told self.old.register) (G.told self.new.register) (G.may_hold self.old.register) (G.may_hold self.new.register) }
        ensures itself { G.identity self.new.register ≡ G.identity self.old.register }
        ensures active { self.old.sequencer ≡ None → IsOfLog spec.now.log self.new.sequencer }
        ensures shut { self.new.is_shut ≡ self.old.is_shut }
        ensures crowded { IfOk result (λ heard. heard.end ≡ Some Ended.LogLimit → G.told self.old.register → MayCrowd (G.may_hold self.old.register) spec.now.log) }
        ensures damaged { IfOk result (λ heard. (place : ℕ) → heard.end ≡ Some (Ended.Register (Refusal.Damaged place)) → G.told self.old.register → G.damaged self.old.register place) }
        ensures refused { IfOk result (λ heard. IfSome heard.end (IsRefused (λ place. G.told self.old.register → G.damaged self.old.register place) (G.told self.old.register → HoldsSome (G.holds self.old.register) × LacksRoom (G.holds self.new.register)) (G.faults self.old.register) (G.faults self.new.register))) }
        // Where it is active no call of the register failed, and one that tells holds something, before and then.
        ensures on { self.old.end ≡ None → HasBegun self.new.end (G.told self.old.register) (G.holds self.old.register) (G.holds self.new.register) (G.faults self.old.register) (G.faults self.new.register) }
    {
        let mut sends = Outbox::empty(alloc);
        match Sequencer::activate(
            alloc,
            &config.nodes,
            spec,
            spec,
            &mut self.register,
            &mut sends,
        ) {
            Ok(sequencer) => {
                let line = Line::Active {
                    name: self.name.copy(alloc)?,
                    epoch: sequencer.epoch(),
                };
                let heard = with_line(alloc, line, sends)?;
                self.sequencer = Some(sequencer);
                Ok(heard)
            }
            Err(fault) => {
                self.end = Some(Ended::NoMemory);
                refused(alloc, &self.name, fault, sends)
            }
        }
    }

    /// Numbers the payload and sends it, or writes why not.
    fn add(&mut self, alloc: Global, payload: &Payload) -> Result<Appended, NoMemory>
        ensures name { self.new.name ≡ self.old.name }
        ensures log { self.new.log ≡ self.old.log }
        ensures appended { IfOk result (λ appended. (c : Contents) (s : State) → Serves self.old.name self.old.sequencer (G.tells self.old.register) c s
            → IsActed (Serves self.new.name self.new.sequencer (G.tells self.new.register) c) s appended.heard.lines.items appended.heard.sends (happens c s (Append self.old.name payload.now))) }
        ensures messages { IfOk result (λ appended. AreMessages appended.heard.sends) }
        ensures since { IsSince self.old.sequencer self.new.sequencer (G.told self.old.register) (G.told self.new.register) (G.may_hold self.old.register) (G.may_hold self.new.register) self.old.is_shut self.new.is_shut }
        ensures itself { G.identity self.new.register ≡ G.identity self.old.register }
        ensures kept { HasKept self.old.end self.new.end (G.holds self.old.register) (G.holds self.new.register) (G.faults self.old.register) (G.faults self.new.register) }
        ensures full { IfOk result (λ appended. appended.is_full ≡ tells_full appended.heard.lines.items) }
        ensures said { IfOk result (λ appended. IfSome appended.heard.end (IsSaid appended.heard.lines.items)) }
        ensures ends { IfOk result (λ appended. appended.heard.end ≡ None → tells_by is_final appended.heard.lines.items ≡ false) }
    {
        let Some(sequencer) = &mut self.sequencer else {
            return Ok(Appended {
                heard: nothing(alloc),
                is_full: false,
            });
        };
        let mut sends = Outbox::empty(alloc);
        let copy = payload.copy(alloc)?;
        match sequencer.append(alloc, copy, &mut sends) {
            Ok(number) => {
                let line = Line::Appended {
                    name: self.name.copy(alloc)?,
                    number,
                };
                let heard = with_line(alloc, line, sends)?;
                Ok(Appended {
                    heard,
                    is_full: false,
                })
            }
            Err(fault) => {
                let is_full = is_window(&fault);
                let heard = heard(alloc, &self.name, Err(fault), sends)?;
                Ok(Appended { heard, is_full })
            }
        }
    }

    /// Tells all nodes of the configuration that all up to the number may go, or writes why not.
    fn trim(&self, alloc: Global, point: Lsn) -> Result<Appended, NoMemory>
        ensures trimmed { IfOk result (λ appended. (c : Contents) (s : State) → Serves self.now.name self.now.sequencer (G.tells self.now.register) c s
            → IsActed (Serves self.now.name self.now.sequencer (G.tells self.now.register) c) s appended.heard.lines.items appended.heard.sends (happens c s (Trim self.now.name point))) }
        ensures messages { IfOk result (λ appended. AreMessages appended.heard.sends) }
        ensures full { IfOk result (λ appended. appended.is_full ≡ tells_full appended.heard.lines.items) }
        ensures said { IfOk result (λ appended. IfSome appended.heard.end (IsSaid appended.heard.lines.items)) }
        ensures ends { IfOk result (λ appended. appended.heard.end ≡ None → tells_by is_final appended.heard.lines.items ≡ false) }
    {
        let Some(sequencer) = &self.sequencer else {
            return Ok(Appended {
                heard: nothing(alloc),
                is_full: false,
            });
        };
        let mut sends = Outbox::empty(alloc);
        match sequencer.trim(point, &mut sends) {
            Ok(()) => {
                let line = Line::Trimmed {
                    name: self.name.copy(alloc)?,
                    point,
                };
                let heard = with_line(alloc, line, sends)?;
                Ok(Appended {
                    heard,
                    is_full: false,
                })
            }
            Err(fault) => {
                let heard = heard(alloc, &self.name, Err(fault), sends)?;
                Ok(Appended {
                    heard,
                    is_full: false,
                })
            }
        }
    }

    /// Sends again what is still wanted, looks again where no look succeeded at an epoch whose nodes have told all that they
    /// can, and tries its close again.
    fn again(&mut self, alloc: Global) -> Result<Heard, NoMemory>
        ensures name { self.new.name ≡ self.old.name }
        ensures log { self.new.log ≡ self.old.log }
        ensures retried { IfOk result (λ heard. (c : Contents) (s : State) → IsInBounds c → IsSound c s → Serves self.old.name self.old.sequencer (G.tells self.old.register) c s
            → IsActed (Serves self.new.name self.new.sequencer (G.tells self.new.register) c) s heard.lines.items heard.sends (happens c s (Retry self.old.name))) }
        ensures since { IsSince self.old.sequencer self.new.sequencer (G.told self.old.register) (G.told self.new.register) (G.may_hold self.old.register) (G.may_hold self.new.register) self.old.is_shut self.new.is_shut }
        ensures itself { G.identity self.new.register ≡ G.identity self.old.register }
        ensures kept { HasKept self.old.end self.new.end (G.holds self.old.register) (G.holds self.new.register) (G.faults self.old.register) (G.faults self.new.register) }
        ensures messages { IfOk result (λ heard. AreMessages heard.sends) }
        ensures said { IfOk result (λ heard. IfSome heard.end (IsSaid heard.lines.items)) }
        ensures ends { IfOk result (λ heard. heard.end ≡ None → tells_by is_final heard.lines.items ≡ false) }
    {
        if self.end.is_some() {
            return Err(NoMemory);
        }
        let Some(sequencer) = &mut self.sequencer else {
            return Ok(nothing(alloc));
        };
        let mut sends = Outbox::empty(alloc);
        let answer = sequencer.retry(alloc, &mut self.register, &mut sends);
        match heard(alloc, &self.name, answer, sends) {
            Ok(heard) => Ok(self.go_on(heard)),
            Err(refused) => {
                self.sequencer = None;
                self.end = Some(Ended::NoMemory);
                Err(refused)
            }
        }
    }

    /// The drive goes on where the register holds as many other logs as may be: then that is kept, and else how it ends.
    fn go_on(&mut self, heard: Heard) -> Heard
        requires { IfSome heard.end (IsTold heard.lines.items) }
        ensures name { self.new.name ≡ self.old.name }
        ensures log { self.new.log ≡ self.old.log }
        ensures sequencer { self.new.sequencer ≡ self.old.sequencer }
        ensures register { self.new.register ≡ self.old.register }
        ensures shut { self.new.is_shut ≡ true → (self.old.is_shut ≡ true) ⊎ (heard.end ≡ Some Ended.LogLimit) }
        ensures end { self.new.end ≡ going heard.end }
        ensures ends { result.end ≡ going heard.end }
        ensures lines { result.lines.items ≡ heard.lines.items }
        ensures sends { result.sends ≡ heard.sends }
        ensures said { IfSome result.end (IsSaid result.lines.items) }
    {
        let (heard, is_shut) = goes_on(heard);
        if is_shut {
            self.is_shut = true;
        }
        self.end = heard.end;
        heard
    }

    /// How the drive ends by a call that met the register, where it does.
    pub fn end(&self) -> Option<Ended>
        ensures { result ≡ self.now.end }
    {
        self.end
    }

    /// Whether the register has refused a close in a round, since it holds as many other logs as may be.
    pub fn is_shut(&self) -> bool
        ensures { result ≡ self.now.is_shut }
    {
        self.is_shut
    }

    /// Whether each append is acknowledged, and all epochs before its own are closed.
    pub fn has_settled(&self) -> bool
        ensures { result ≡ settled_in self.now.sequencer }
    {
        match &self.sequencer {
            Some(sequencer) => sequencer.settled(),
            None => false,
        }
    }
}

impl<G: Register> Actor for Acting<G> {
    ghost use Rattle.std.proofs.Common.{refl, ◌∙◌};
    ghost use Rattle.ld_rounds.specs.Ends.{is_final};
    ghost use Rattle.ld_append.specs.Acting.{is_here, goes_on, takes, kept_here, kept_on};

    ghost stands = { λ a c s. Serves a.name a.sequencer (G.tells a.register) c s };

    ghost stands_apart = { λ a c s nodes network h. record { sequencer = h.sequencer; register = h.register } };

    ghost own = { λ a. record { name = a.name; log = a.log; takes = takes a.name; ticks = None } };

    ghost since = { λ a b. IsSince a.sequencer b.sequencer (G.told a.register) (G.told b.register) (G.may_hold a.register) (G.may_hold b.register) a.is_shut b.is_shut × (G.identity b.register ≡ G.identity a.register) × HasKept a.end b.end (G.holds a.register) (G.holds b.register) (G.faults a.register) (G.faults b.register) };

    ghost since_here = { λ a. (is_here a.sequencer (G.told a.register) (G.may_hold a.register) a.is_shut, refl, kept_here a.end (G.holds a.register) (G.faults a.register)) };

    ghost since_on = { λ a b c p q. (goes_on a.sequencer b.sequencer c.sequencer (G.told a.register) (G.told b.register) (G.told c.register) (G.may_hold a.register) (G.may_hold b.register) (G.may_hold c.register) a.is_shut b.is_shut c.is_shut p.0 q.0, q.1 ∙ p.1, kept_on a.end b.end c.end (G.holds a.register) (G.holds b.register) (G.holds c.register) (G.faults a.register) (G.faults b.register) (G.faults c.register) p.2 q.2) };

    ghost hears = { λ a m. IsTo a.sequencer m };

    ghost finals = { is_final };

    fn is_for(&self, message: &Msg) -> bool {
        match &self.sequencer {
            Some(sequencer) => is_to(sequencer, message),
            None => false,
        }
    }

    fn hear(&mut self, alloc: Global, message: &Msg) -> Result<Heard, NoMemory> {
        if self.end.is_some() {
            return Err(NoMemory);
        }
        let Some(sequencer) = &mut self.sequencer else {
            unreachable!();
        };
        let mut sends = Outbox::empty(alloc);
        let answer = sequencer.on_reply(alloc, message, &mut self.register, &mut sends);
        match heard(alloc, &self.name, answer, sends) {
            Ok(heard) => Ok(self.go_on(heard)),
            Err(refused) => {
                self.sequencer = None;
                self.end = Some(Ended::NoMemory);
                Err(refused)
            }
        }
    }

    fn reminder(&mut self, _: Global, _: &Msg, _: u32) -> Result<Option<Msg>, NoMemory> {
        Ok(None)
    }
}

impl<G: Register> Appends for Acting<G> {
    ghost use Rattle.ld_append.specs.Settled.{settled_so};

    ghost settled = { λ a. settled_in a.sequencer };

    ghost settled_there = { λ a c s h settled. settled_so c s a.name a.sequencer (G.tells a.register) h settled };

    fn append(
        &mut self,
        alloc: Global,
        name: &Name,
        request: &Request,
    ) -> Result<Appended, NoMemory> {
        match request {
            Request::Append(payload) => self.add(alloc, payload),
            Request::Trim(point) => self.trim(alloc, *point),
        }
    }

    fn retry(&mut self, alloc: Global, name: &Name) -> Result<Heard, NoMemory> {
        self.again(alloc)
    }

    fn is_settled(&self) -> bool {
        self.has_settled()
    }
}
