// A crowd in memory, whose calls come in an order that is given, and fail where it is told to.
ghost use Rattle.std.specs.Prelude.{◌≡◌, ◌≤◌, ◌<◌, ◌∷◌, [], length, map, Some, Ok, true, false, IfOk, IfNone, OnOk, OnErr, is_ok, MatchOption, MatchResult};
ghost use Rattle.std.specs.List.{slice_get};
ghost use Rattle.std.specs.Option.{option_map};
ghost use Rattle.ld_io.specs.Causes.{HasCause};
ghost use Rattle.ld_io.specs.Memory.{is_listed, one_more};
ghost use Rattle.ld_crowd.specs.Calls.{noted, after_turn, after_read, after_say, turned, finished, dismissed, Names, IsNamed, IsWithin, HeardAtMost};
ghost use Rattle.ld_crowd.specs.Left.{Gives, Hears};
ghost use Rattle.ld_crowd.specs.Memory.{call_succeeds, lefts, at_seat, allowed, told_more, turn_of, seats_after, heard_at, heard_of, TakesStep};

use crate::seat::MemPeer;
use crate::{Crowd, Heard, News, Turn};
use ld_io::{Failed, NoMemory};
use ld_past::Past;
use std::alloc::Global;
use std::marker::Model;

/// What a turn of a crowd in memory makes of it.
#[derive(Clone, Copy, PartialEq, Eq)]
pub enum Step {
    /// The next peer comes.
    Comes,
    /// So many further bytes of this peer are there. Once none is left, a read of it is told that it has ended.
    Has(u64, usize),
    /// This peer is dismissed for its silence.
    Silent(u64),
}

/// A crowd whose peers are given, each with the bytes that it sends, and the steps in which they come, have bytes and
/// are dismissed: each turn takes one, and behind the last one there is nobody. A step of a peer that isn't there makes
/// it that peer's turn, in which there is nothing to read. What is said to a peer is kept. The calls of `turn` and
/// `read` whose numbers are listed fail.
#[derive(Drop)]
pub struct MemCrowd {
    seats: Vec<MemPeer>,
    present: usize,
    steps: Vec<Step>,
    at: usize,
    did: Past,
    calls: u64,
    fails: Vec<u64>,
    faults: u64,
}

impl Model for MemCrowd {
    ghost use Rattle.std.specs.Prelude.{◌≡◌, ◌≤◌, length, drop};
    ghost use Rattle.ld_crowd.specs.Memory.{CrowdState};
    ghost use Rattle.ld_crowd.specs.Calls.{arrivals};

    ghost Value = { CrowdState };

    ghost view = { λ c. record { did = c.did.events; seats = c.seats.items; present = c.present; steps = drop c.at c.steps.items; calls = c.calls; fails = c.fails.items; faults = c.faults } };

    ghost invariant = { λ c. (c.at ≤ length c.steps.items) × (c.present ≤ length c.seats.items) × (c.present ≡ arrivals c.did.events) };
}

impl MemCrowd {
    /// A crowd of these peers, of which none has come, and these steps. The calls with these numbers, from 0 on, are to
    /// fail.
    pub fn new(
        alloc: Global,
        peers: Vec<Vec<u8>>,
        steps: Vec<Step>,
        fails: Vec<u64>,
    ) -> Result<MemCrowd, NoMemory>
        ensures left { IfOk result (λ crowd. lefts crowd.seats ≡ map (λ p. p.items) peers.items) }
        ensures did { IfOk result (λ crowd. crowd.did ≡ []) }
        ensures steps { IfOk result (λ crowd. crowd.steps ≡ steps.items) }
        ensures counts { IfOk result (λ crowd. (crowd.present ≡ 0) × (crowd.calls ≡ 0) × (crowd.fails ≡ fails.items) × (crowd.faults ≡ 0)) }
    {
        Ok(MemCrowd {
            seats: seats_of(alloc, peers)?,
            present: 0,
            steps,
            at: 0,
            did: Past::new(),
            calls: 0,
            fails,
            faults: 0,
        })
    }

    /// What was said to the peer of this number, from 0 on. None where there is no such peer.
    pub fn told(&self, peer: usize) -> Option<&[u8]>
        ensures { option_map (λ s. s.now) result ≡ option_map (λ s. s.told) (slice_get self.now.seats peer) }
    {
        if peer >= self.seats.len() {
            return None;
        }
        let seat = &self.seats[peer];
        Some(seat.told())
    }

    /// Counts a call, and says whether it is one of those that fail.
    fn is_next_to_fail(&mut self) -> bool
        ensures listed { result ≡ is_listed self.old.calls self.old.fails }
        ensures counted { self.new ≡ record self.old { calls = one_more self.old.calls } }
    {
        let fails_now = self.fails.contains(&self.calls);
        self.calls = self.calls.saturating_add(1);
        fails_now
    }

    /// The next step, where there is one.
    fn next_step(&mut self) -> Option<Step>
        ensures step { MatchOption result (self.old.steps ≡ []) (λ step. self.old.steps ≡ step ∷ self.new.steps) }
        ensures none { IfNone result (self.new ≡ self.old) }
        ensures same { self.new ≡ record self.old { steps = self.new.steps } }
    {
        if self.at >= self.steps.len() {
            return None;
        }
        let step = self.steps[self.at];
        self.at += 1;
        Some(step)
    }

    /// The next peer comes, where one is left.
    fn comes(&mut self) -> Turn
        ensures turn { result ≡ turn_of Step.Comes self.old.present (length self.old.seats) }
        ensures did { self.new.did ≡ noted result true self.old.did }
        ensures named { Names result self.old.did }
        ensures same { self.new ≡ record self.old { did = self.new.did; present = self.new.present } }
    {
        let peer = self.present;
        if peer < self.seats.len() {
            self.present += 1;
            self.did.note(&[0], &[]);
            return Turn::Came(peer as u64);
        }
        self.did.note(&[2, peer as u64], &[]);
        Turn::Of(peer as u64)
    }

    /// So many further bytes of this peer are there, where it came.
    fn has(&mut self, peer: u64, count: usize) -> Turn
        ensures turn { result ≡ Turn.Of peer }
        ensures left { lefts self.new.seats ≡ lefts self.old.seats }
        ensures did { self.new.did ≡ turned peer ∷ self.old.did }
        ensures seats { self.new.seats ≡ seats_after (Step.Has peer count) self.old.present self.old.seats }
        ensures same { self.new ≡ record self.old { did = self.new.did; seats = self.new.seats } }
    {
        if peer < self.present as u64 {
            allow(&mut self.seats, peer as usize, count);
        }
        self.did.note(&[2, peer], &[]);
        Turn::Of(peer)
    }

    /// This peer is dismissed for its silence, where it came.
    fn is_silent(&mut self, peer: u64) -> Turn
        ensures turn { result ≡ turn_of (Step.Silent peer) self.old.present (length self.old.seats) }
        ensures did { self.new.did ≡ noted result true self.old.did }
        ensures named { Names result self.old.did }
        ensures same { self.new ≡ record self.old { did = self.new.did } }
    {
        if peer < self.present as u64 {
            self.did.note(&[1, peer], &[]);
            return Turn::Silent(peer);
        }
        self.did.note(&[2, peer], &[]);
        Turn::Of(peer)
    }
}

/// So many further bytes of the peer at this place are there.
fn allow(seats: &mut [MemPeer], peer: usize, count: usize)
    requires { peer < length seats.old }
    ensures seats { seats.new ≡ at_seat peer (allowed count) seats.old }
    ensures left { lefts seats.new ≡ lefts seats.old }
    ensures size { length seats.new ≡ length seats.old }
{
    let seat = &mut seats[peer];
    seat.allow(count);
}

/// Reads of the peer at this place.
fn hear(seats: &mut [MemPeer], peer: usize, buf: &mut [u8]) -> Heard
    requires { peer < length seats.old }
    ensures heard { result ≡ heard_at peer seats.old (length buf.new) }
    ensures len { length buf.new ≡ length buf.old }
    ensures bound { IsWithin result (length buf.new) }
    ensures bytes { Gives (lefts seats.old) (Some (lefts seats.new)) peer buf.new result }
    ensures size { length seats.new ≡ length seats.old }
{
    let seat = &mut seats[peer];
    if seat.is_at_end() {
        return Heard::End;
    }
    match seat.read(buf) {
        0 => Heard::Later,
        count => Heard::Some(count),
    }
}

/// These bytes are said to the peer of this number, where there is one. Without memory nothing changes.
fn say_to(seats: &mut [MemPeer], peer: u64, bytes: &[u8]) -> Result<(), NoMemory>
    ensures seats { MatchResult result (λ _. seats.new ≡ at_seat peer (told_more bytes.now) seats.old) (λ _. seats.new ≡ seats.old) }
    ensures left { lefts seats.new ≡ lefts seats.old }
    ensures size { length seats.new ≡ length seats.old }
{
    if peer >= seats.len() as u64 {
        return Ok(());
    }
    let seat = &mut seats[peer as usize];
    seat.say(bytes)?;
    Ok(())
}

/// Counts a fault, and answers it.
fn count_fault(faults: &mut u64) -> Failed
    ensures counted { faults.new ≡ one_more faults.old }
    ensures later { faults.old ≤ faults.new }
{
    *faults = faults.saturating_add(1);
    Failed
}

/// The peers with their bytes.
fn seats_of(alloc: Global, peers: Vec<Vec<u8>>) -> Result<Vec<MemPeer>, NoMemory>
    ensures { IfOk result (λ seats. lefts seats.items ≡ map (λ p. p.items) peers.items) }
{
    let mut seats = Vec::with_capacity(alloc, peers.len())?;
    'peers: for bytes in peers {
        seats.push(MemPeer::new(alloc, bytes))?;
    }
    Ok(seats)
}

impl Crowd for MemCrowd {
    ghost left = { λ c. Some (lefts c.seats) };

    ghost did = { λ c. c.did };

    ghost faults = { λ c. c.faults };

    /// Takes the next step, exactly where the call isn't listed.
    fn turn(&mut self, may_wait: bool) -> Result<Turn, Failed>
        ensures did { self.new.did ≡ after_turn result may_wait self.old.did }
        ensures named { IsNamed result self.old.did }
        ensures left { Some (lefts self.new.seats) ≡ Some (lefts self.old.seats) }
        ensures cause { HasCause self.old.faults self.new.faults result }
        ensures told { is_ok result ≡ call_succeeds self.old }
        ensures step { IfOk result (TakesStep self.old self.new) }
        ensures calls { (self.new.calls ≡ one_more self.old.calls) × (self.new.fails ≡ self.old.fails) }
    {
        if self.is_next_to_fail() {
            return Err(count_fault(&mut self.faults));
        }
        let turn = match self.next_step() {
            Some(Step::Comes) => self.comes(),
            Some(Step::Has(peer, count)) => self.has(peer, count),
            Some(Step::Silent(peer)) => self.is_silent(peer),
            None => {
                self.did.note(&[3, u64::from(may_wait)], &[]);
                Turn::Nobody
            }
        };
        Ok(turn)
    }

    /// Gives as much as is there of a peer that came and as the buffer takes, exactly where the call isn't listed.
    fn read(&mut self, peer: u64, buf: &mut [u8]) -> Result<Heard, Failed>
        ensures bound { HeardAtMost result (length buf.new) }
        ensures len { length buf.new ≡ length buf.old }
        ensures did { self.new.did ≡ after_read result peer buf.new self.old.did }
        ensures bytes { Hears (lefts self.old.seats) (Some (lefts self.new.seats)) peer buf.new result }
        ensures cause { HasCause self.old.faults self.new.faults result }
        ensures told { is_ok result ≡ call_succeeds self.old }
        ensures all { IfOk result (λ heard. heard ≡ heard_of peer self.old.present self.old.seats (length buf.new)) }
        ensures calls { (self.new.calls ≡ one_more self.old.calls) × (self.new.fails ≡ self.old.fails) }
        ensures rest { (self.new.present ≡ self.old.present) × (self.new.steps ≡ self.old.steps) }
    {
        if self.is_next_to_fail() {
            return Err(count_fault(&mut self.faults));
        }
        if peer >= self.present as u64 {
            return Ok(Heard::Later);
        }
        let heard = hear(&mut self.seats, peer as usize, buf);
        match heard {
            Heard::Some(count) => self.did.note(&[4, peer], &buf[..count]),
            Heard::End => self.did.note(&[5, peer], &[]),
            Heard::Later => {}
        }
        Ok(heard)
    }

    /// Keeps what is said to a peer that there is; what is said to any other goes nowhere.
    fn say(&mut self, peer: u64, bytes: &[u8]) -> Result<(), NoMemory>
        ensures did { self.new.did ≡ after_say result peer bytes.now self.old.did }
        ensures left { Some (lefts self.new.seats) ≡ Some (lefts self.old.seats) }
        ensures faults { self.new.faults ≡ self.old.faults }
        ensures seats { MatchResult result (λ _. self.new.seats ≡ at_seat peer (told_more bytes.now) self.old.seats) (λ _. self.new.seats ≡ self.old.seats) }
        ensures rest { (self.new.present ≡ self.old.present) × (self.new.steps ≡ self.old.steps) × (self.new.calls ≡ self.old.calls) × (self.new.fails ≡ self.old.fails) }
    {
        say_to(&mut self.seats, peer, bytes)?;
        self.did.note(&[6, peer], bytes);
        Ok(())
    }

    /// Never: what is said is kept.
    fn is_full(&self, _peer: u64) -> bool
        ensures { result ≡ false }
    {
        false
    }

    fn finish(&mut self, peer: u64)
        ensures did { self.new.did ≡ finished peer ∷ self.old.did }
        ensures left { Some (lefts self.new.seats) ≡ Some (lefts self.old.seats) }
        ensures faults { self.new.faults ≡ self.old.faults }
        ensures same { self.new ≡ record self.old { did = self.new.did } }
    {
        self.did.note(&[7, peer], &[]);
    }

    fn dismiss(&mut self, peer: u64)
        ensures did { self.new.did ≡ dismissed peer ∷ self.old.did }
        ensures left { Some (lefts self.new.seats) ≡ Some (lefts self.old.seats) }
        ensures faults { self.new.faults ≡ self.old.faults }
        ensures same { self.new ≡ record self.old { did = self.new.did } }
    {
        self.did.note(&[8, peer], &[]);
    }

    /// Keeps nothing: there is nobody to tell.
    fn note(&mut self, _news: News)
        ensures same { self.new ≡ self.old }
    {}
}
