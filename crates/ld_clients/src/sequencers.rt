// The sequencers by name, in the order of their activation.
ghost use Rattle.std.specs.Prelude.{◌≡◌, ◌<◌, is_some, ℕ, List, [], ◌∷◌, length, Some, None, true, false, IfOk, OnOk, OnErr, option_copied, option_map};
ghost use Rattle.ld_config.specs.declared.config.Config.{Config as Contents};
ghost use Rattle.ld_config.specs.Bounds.{IsInBounds};
ghost use Rattle.ld_schedule.specs.declared.event.Event.TheVariants.{Activate, Append, Batch, Trim, Retry, Drop as Drops};
ghost use Rattle.ld_transcript.specs.declared.line.Line.TheVariants.{Active};
ghost use Rattle.ld_table.specs.Named.{find_named, put_named};
ghost use Rattle.ld_msg.specs.Bounds.{IsMessage};
ghost use Rattle.ld_machine.specs.Calm.{Calms, last_in, moves};
ghost use Rattle.ld_machine.specs.State.{State, sequencer_of};
ghost use Rattle.ld_machine.specs.Config.{has_log};
ghost use Rattle.ld_machine.specs.Step.{happens, spec_set, to_sequencer, to_live};
ghost use Rattle.ld_register.specs.Bounds.{IsSpecFor};
ghost use Rattle.ld_clients.specs.declared.client.Client.{Client as Seen};
ghost use Rattle.ld_clients.specs.declared.client.Client.TheVariants.{Live};
ghost use Rattle.ld_clients.specs.Acting.{AreSequencers, IsActed, Stays};
ghost use Rattle.ld_clients.specs.Latest.{client_at, last_client, later_at, live_of};
ghost use Rattle.ld_clients.specs.Serving.{serving_in, KnowTheirLogs, HasRoom, IsWhole, IsWholeIn, shown, sequencers_of};

use crate::Outcome;
use crate::client::Client;
use crate::lookup::find_spec;
use crate::places::Places;
use crate::report::refused;
use indexmap::IndexMap;
use ld_batch::Messages;
use ld_config::Config;
use ld_ids::{LogId, Name, NoMemory, Payload, Spec};
use ld_lsn::Lsn;
use ld_msg::{Msg, Outbox};
use ld_register::Register;
use ld_sequencer::Sequencer;
use ld_transcript::Line;
use std::alloc::Global;
use std::marker::Model;

/// How many bytes a payload has at most.
const PAYLOAD_LIMIT: usize = 65_535;

/// Sequencers by name. Of one that was dropped only the name, the log and the epoch are kept. After running out of memory in
/// a call they are of no use.
#[derive(Drop)]
pub struct Sequencers {
    map: IndexMap<Name, Client>,
    places: Places,
}

impl Model for Sequencers {
    ghost use Rattle.std.specs.Prelude.{List, ℕ};
    ghost use Rattle.ld_clients.specs.declared.client.Client.{Client};
    ghost use Rattle.ld_clients.specs.Places.{AreServed};

    ghost Value = { List (List ℕ × Client) };

    ghost view = { λ a. a.map.entries };

    ghost invariant = { λ a. AreServed a.map.entries a.places };
}

impl Sequencers {
    /// None.
    pub fn new(alloc: Global) -> Sequencers
        ensures { result ≡ [] }
    {
        Sequencers {
            map: IndexMap::new(alloc),
            places: Places::new(alloc),
        }
    }

    /// Whether the name is taken.
    #[tactic(auto, unfolding(ld_table::specs::Named::find_named, ld_table::specs::Named::same))]
    pub fn has(&self, name: &Name) -> bool
        ensures { result ≡ is_some (find_named name.now self.now) }
    {
        self.map.contains_key(name)
    }

    /// The name of the sequencer of an epoch of a log, dropped or not.
    pub fn name_of(&self, log: LogId, epoch: u32) -> Option<&Name>
        ensures actor { option_copied result ≡ option_map (λ e. e.0) (sequencer_of log epoch (sequencers_of self.now)) }
        ensures name { option_copied result ≡ option_map (λ e. e.0) (serving_in log epoch self.now) }
        ensures unique { (e : List ℕ × Seen) → serving_in log epoch self.now ≡ Some e → find_named e.0 self.now ≡ Some e.1 }
    {
        let Some(place) = self.places.get(log, epoch) else {
            return None;
        };
        let Some((name, _)) = self.map.get_index(place) else {
            return None;
        };
        Some(name)
    }

    /// Activates a sequencer of the log's next epoch, for which these nodes, factor and extras are fixed. It asks for what
    /// stands in the first epoch before it that isn't closed. Nothing comes of it where the name is taken or the log is none
    /// of the configuration's. It is refused with a line `epochlimit` where the log's epochs are used up, and with a line
    /// `register` where the register refuses otherwise.
    pub fn activate<G: Register>(
        &mut self,
        alloc: Global,
        config: &Config,
        name: &Name,
        log: LogId,
        spec: &Spec,
        reg: &mut G,
    ) -> Result<Outcome, NoMemory>
        requires config { IsInBounds config.now }
        requires spec { has_log config.now log ≡ true → IsSpecFor log spec.now }
        ensures done { IfOk result (λ outcome. (s : State) → AreSequencers config.now s self.old → G.tells reg.old s.register → HasRoom config.now s.register
            → spec.now ≡ spec_set config.now s log
            → IsActed s self.new outcome (G.tells reg.new) (happens config.now s (Activate name.now log))) }
        ensures logs { KnowTheirLogs config.now self.old → KnowTheirLogs config.now self.new }
    {
        if self.has(name) {
            return Ok(Outcome::nothing(alloc));
        }
        let Some(first) = find_spec(config, log) else {
            return Ok(Outcome::nothing(alloc));
        };
        let mut sends = Outbox::empty(alloc);
        match Sequencer::activate(alloc, &config.nodes, &first, spec, reg, &mut sends) {
            Ok(sequencer) => {
                let outcome = self.begin(alloc, name, sequencer, sends)?;
                Ok(outcome)
            }
            Err(fault) => {
                let outcome = refused(alloc, name, fault, sends)?;
                Ok(outcome)
            }
        }
    }

    /// The sequencer of the name numbers the payload and sends it. It is refused with a line `long` above 65,535 bytes, then
    /// with `preempted` where a sequencer of a greater epoch is at work, then with `epochfull` where the epoch's places are
    /// used up, and then with `windowfull` where 128 appends wait. One that isn't there or was dropped does nothing.
    pub fn append(
        &mut self,
        alloc: Global,
        name: &Name,
        payload: &Payload,
    ) -> Result<Outcome, NoMemory>
        ensures done { IfOk result (λ outcome. (c : Contents) (s : State) → AreSequencers c s self.old
            → IsActed s self.new outcome (Stays s) (happens c s (Append name.now payload.now))) }
        ensures logs { (c : Contents) → KnowTheirLogs c self.old → KnowTheirLogs c self.new }
    {
        let Some(client) = self.map.get_mut(name) else {
            return Ok(Outcome::nothing(alloc));
        };
        client.append(alloc, name, payload)
    }

    /// The sequencer of the name appends the batch of the messages, as one payload. It is refused as an append of that payload
    /// would be, and with a line `long` too where the batch would have more bytes than a payload may have.
    pub fn batch(
        &mut self,
        alloc: Global,
        name: &Name,
        messages: &Messages,
    ) -> Result<Outcome, NoMemory>
        ensures done { IfOk result (λ outcome. (c : Contents) (s : State) → AreSequencers c s self.old
            → IsActed s self.new outcome (Stays s) (happens c s (Batch name.now messages.now))) }
        ensures logs { (c : Contents) → KnowTheirLogs c self.old → KnowTheirLogs c self.new }
    {
        let bytes = messages.packed_len();
        if PAYLOAD_LIMIT < bytes {
            return self.refuse_long(alloc, name, bytes);
        }
        let payload = messages.payload(alloc)?;
        self.append(alloc, name, &payload)
    }

    /// The sequencer of the name refuses a payload of so many bytes, more than one may have. One that isn't there or was
    /// dropped does nothing.
    fn refuse_long(&self, alloc: Global, name: &Name, bytes: usize) -> Result<Outcome, NoMemory>
        requires { 65535 < bytes }
        ensures { IfOk result (λ outcome. (c : Contents) (s : State) (payload : List ℕ) → AreSequencers c s self.now → length payload ≡ bytes
            → IsActed s self.now outcome (Stays s) (happens c s (Append name.now payload))) }
    {
        let Some(client) = self.map.get(name) else {
            return Ok(Outcome::nothing(alloc));
        };
        let Client::Live(_) = client else {
            return Ok(Outcome::nothing(alloc));
        };
        let line = Line::RefusedLong {
            name: name.copy(alloc)?,
            bytes: bytes as u64,
        };
        let outcome = Outcome::line(alloc, line)?;
        Ok(outcome)
    }

    /// The sequencer of the name tells all nodes of the configuration that all up to the point may go. It is refused with a line
    /// `past` where the point is above the released number. One that isn't there or was dropped does nothing.
    pub fn trim(&self, alloc: Global, name: &Name, point: Lsn) -> Result<Outcome, NoMemory>
        ensures { IfOk result (λ outcome. (c : Contents) (s : State) → AreSequencers c s self.now
            → IsActed s self.now outcome (Stays s) (happens c s (Trim name.now point))) }
    {
        let Some(client) = self.map.get(name) else {
            return Ok(Outcome::nothing(alloc));
        };
        client.trim(alloc, name, point)
    }

    /// The sequencer of the name sends again what is still wanted, looks again where no look succeeded at an epoch whose nodes
    /// have told all that they can, and tries its close again. One that isn't there or was dropped does nothing.
    pub fn retry<G: Register>(
        &mut self,
        alloc: Global,
        name: &Name,
        reg: &mut G,
    ) -> Result<Outcome, NoMemory>
        ensures done { IfOk result (λ outcome. (c : Contents) (s : State) → AreSequencers c s self.old → G.tells reg.old s.register → HasRoom c s.register
            → IsActed s self.new outcome (G.tells reg.new) (happens c s (Retry name.now))) }
        ensures logs { (c : Contents) → KnowTheirLogs c self.old → KnowTheirLogs c self.new }
    {
        let Some(client) = self.map.get_mut(name) else {
            return Ok(Outcome::nothing(alloc));
        };
        match client.retry(alloc, name, reg) {
            Ok(outcome) => Ok(outcome),
            Err(refused) => {
                self.map.clear();
                self.places.clear();
                Err(refused)
            }
        }
    }

    /// The sequencer of the name does what a retry does, and tells the released number once more. One that isn't there or was
    /// dropped does nothing.
    pub fn calm<G: Register>(
        &mut self,
        alloc: Global,
        name: &Name,
        reg: &mut G,
    ) -> Result<Outcome, NoMemory>
        ensures done { IfOk result (λ outcome. (c : Contents) (s : State) → AreSequencers c s self.old → G.tells reg.old s.register → HasRoom c s.register
            → IsActed s self.new outcome (G.tells reg.new) (moves c s (Calms name.now))) }
        ensures logs { (c : Contents) → KnowTheirLogs c self.old → KnowTheirLogs c self.new }
    {
        let Some(client) = self.map.get_mut(name) else {
            return Ok(Outcome::nothing(alloc));
        };
        match client.calm(alloc, name, reg) {
            Ok(outcome) => Ok(outcome),
            Err(refused) => {
                self.map.clear();
                self.places.clear();
                Err(refused)
            }
        }
    }

    /// The name of the log's sequencer of the greatest epoch, where that one wasn't dropped.
    pub fn last_of(&self, log: LogId) -> Option<&Name>
        ensures { option_copied result ≡ live_of (last_in log None (sequencers_of self.now)) }
    {
        let Some((place, _)) = self.last_place(log) else {
            return None;
        };
        let Some((name, client)) = self.map.get_index(place) else {
            return None;
        };
        if client.is_gone() {
            return None;
        }
        Some(name)
    }

    /// The place of the log's sequencer of the greatest epoch, dropped or not, in the order of activation, and that epoch.
    fn last_place(&self, log: LogId) -> Option<(usize, u32)>
        ensures { client_at result self.now ≡ last_client log None self.now }
    {
        let mut last = None;
        'clients: for place in 0..self.map.len() {
            let Some((_, client)) = self.map.get_index(place) else {
                return last;
            };
            last = later(client, log, place, last);
        }
        last
    }

    /// The sequencer of the name is gone: it gives back what it held, and from now on it does nothing, but its name stays taken.
    pub fn drop(&mut self, alloc: Global, name: &Name) -> Outcome
        ensures done { (c : Contents) (s : State) → AreSequencers c s self.old
            → IsActed s self.new result (Stays s) (happens c s (Drops name.now)) }
        ensures logs { (c : Contents) → KnowTheirLogs c self.old → KnowTheirLogs c self.new }
    {
        let Some(client) = self.map.get_mut(name) else {
            return Outcome::nothing(alloc);
        };
        client.retire();
        Outcome::nothing(alloc)
    }

    /// The sequencer of an epoch of the message's log gets the message. What it did is written in this order: what
    /// preempted it, the register's failure, what was acknowledged, the end of the epoch that was closed, and the released
    /// number, where it rose. One that isn't there or was dropped does nothing.
    pub fn on_reply<G: Register>(
        &mut self,
        alloc: Global,
        epoch: u32,
        msg: &Msg,
        reg: &mut G,
    ) -> Result<Outcome, NoMemory>
        requires { IsMessage msg.now }
        ensures done { IfOk result (λ outcome. (c : Contents) (s : State) → AreSequencers c s self.old → G.tells reg.old s.register → HasRoom c s.register
            → IsActed s self.new outcome (G.tells reg.new) (to_sequencer c s msg.now (sequencer_of msg.now.log epoch s.sequencers))) }
        ensures logs { (c : Contents) → KnowTheirLogs c self.old → KnowTheirLogs c self.new }
    {
        let Some(found) = self.name_of(msg.log, epoch) else {
            return Ok(Outcome::nothing(alloc));
        };
        let name = found.copy(alloc)?;
        self.hear(alloc, &name, msg, reg)
    }

    /// A new sequencer under a new name. Without memory nothing changes.
    fn begin(
        &mut self,
        alloc: Global,
        name: &Name,
        sequencer: Sequencer,
        sends: Outbox,
    ) -> Result<Outcome, NoMemory>
        requires whole { IsWhole sequencer }
        requires new { find_named name.now self.old ≡ None }
        ensures sequencers { OnOk result (self.new ≡ put_named name.now (Live sequencer) self.old) }
        ensures lines { IfOk result (λ outcome. outcome.lines.items ≡ Active name.now sequencer.sequencer.epoch ∷ []) }
        ensures sends { IfOk result (λ outcome. outcome.sends ≡ sends) }
        ensures err { OnErr result (self.new ≡ self.old) }
    {
        let line = Line::Active {
            name: name.copy(alloc)?,
            epoch: sequencer.epoch(),
        };
        let outcome = Outcome::sent(alloc, line, sends)?;
        let taken = name.copy(alloc)?;
        self.add(taken, Client::Live(sequencer))?;
        Ok(outcome)
    }

    /// A sequencer under a new name, the last in the order of activation. Without memory nothing changes.
    #[tactic(auto, unfolding(ld_table::specs::Named::put_named, ld_table::specs::Named::same))]
    fn add(&mut self, name: Name, client: Client) -> Result<(), NoMemory>
        requires whole { IsWholeIn client }
        requires new { find_named name self.old ≡ None }
        ensures ok { OnOk result (self.new ≡ put_named name client self.old) }
        ensures err { OnErr result (self.new ≡ self.old) }
    {
        let place = self.map.len();
        self.map.reserve(1)?;
        self.places.note(client.log(), client.epoch(), place)?;
        self.map.insert(name, client)?;
        Ok(())
    }

    /// The sequencer of the name gets the message. Without memory all sequencers are forgotten.
    fn hear<G: Register>(
        &mut self,
        alloc: Global,
        name: &Name,
        msg: &Msg,
        reg: &mut G,
    ) -> Result<Outcome, NoMemory>
        requires { IsMessage msg.now }
        ensures done { IfOk result (λ outcome. (k : Seen) → find_named name.now self.old ≡ Some k
            → (c : Contents) (s : State) → AreSequencers c s self.old → G.tells reg.old s.register → HasRoom c s.register
            → IsActed s self.new outcome (G.tells reg.new) (to_live c s name.now (shown k) msg.now)) }
        ensures logs { (c : Contents) → KnowTheirLogs c self.old → KnowTheirLogs c self.new }
    {
        let Some(client) = self.map.get_mut(name) else {
            return Ok(Outcome::nothing(alloc));
        };
        match client.on_reply(alloc, name, msg, reg) {
            Ok(outcome) => Ok(outcome),
            Err(refused) => {
                self.map.clear();
                self.places.clear();
                Err(refused)
            }
        }
    }
}

/// The place and the epoch of the one of the greater epoch, where this one is of the log.
fn later(
    client: &Client,
    log: LogId,
    place: usize,
    last: Option<(usize, u32)>,
) -> Option<(usize, u32)>
    requires { IsWholeIn client.now }
    ensures { result ≡ later_at log last place client.now }
{
    if client.log() != log {
        return last;
    }
    let epoch = client.epoch();
    let Some((_, greatest)) = last else {
        return Some((place, epoch));
    };
    if greatest < epoch {
        return Some((place, epoch));
    }
    last
}
