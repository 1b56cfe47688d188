// A sequencer is driven over payloads and trims.
ghost use Rattle.std.specs.Prelude.{◌≡◌, ◌≤◌, ◌<◌, ◌⊎◌, ◌&&◌, ℕ, List, [], ◌∷◌, Bool, true, false, Option, None, IfOk, IfErr, IfSome, MatchOption, OnOk, OnErr, if◌then◌else◌, Some};
ghost use Rattle.ld_ids.specs.Set.{members};
ghost use Rattle.ld_config.specs.declared.config.Config.{Config};
ghost use Rattle.ld_config.specs.Bounds.{IsInBounds};
ghost use Rattle.ld_schedule.specs.declared.event.Event.TheVariants.{Retry};
ghost use Rattle.ld_node_bounds.specs.Messages.{AreMessages};
ghost use Rattle.ld_machine.specs.State.{State};
ghost use Rattle.ld_machine.specs.Step.{happens};
ghost use Rattle.ld_bounds.specs.Sound.{IsSound};
ghost use Rattle.ld_wire.specs.declared.fault.WireFault.{WireFault as FrameFault};
ghost use Rattle.ld_dial.specs.Far.{Far};
ghost use Rattle.ld_rounds.specs.Ends.{IsSaid, is_final, tells_by};
ghost use Rattle.ld_rounds.specs.Acts.{IsActed, Own, driver};
ghost use Rattle.ld_rounds.specs.Drives.{AreOfConfig, Holds, GoesOn, AllTaken, IsBroken, AreLater, counted};
ghost use Rattle.ld_rounds.specs.Requests.{request_event, settled_at, has_to_wait, is_waiting};
ghost use Rattle.ld_rounds.specs.Rounds.{IsAsked, IsAsking, IsRetry, MayRetry, Adds, AddsUntil, Prepares, PreparesUntil, Rounds, RoundsUntil, IsDry, finds_full, finds_final, taken_of, tells_full};
ghost use Rattle.ld_rounds.specs.Taking.{TookAppends};
ghost use Rattle.ld_rounds.specs.Endings.{IsEnding, IsLater, IsOffAs, EndsOff};
ghost use Rattle.ld_rounds.specs.Feeding.{IsInputEnding, IsAppendEnding, upcoming, WasOver, NextIs, SameBehind, StaysAs, HasCome};
ghost use Rattle.ld_rounds.specs.Input.{Input};
ghost use Rattle.ld_rounds.specs.Queued.{are_empty};

use crate::{Actor, Ended, Heard, InputFault, Payloads, Queues, Request, round, tell};
use ld_dial::Nodes;
use ld_ids::{Name, NoMemory, NodeSet};
use ld_io::Sink;
use std::alloc::Global;

/// What a request wrote and sent, and whether it is an append that found the window full.
#[derive(Drop)]
pub struct Appended {
    pub heard: Heard,
    pub is_full: bool,
}

/// A sequencer that is driven.
pub trait Appends: Actor {
    /// Every append is acknowledged, and every epoch before its own is closed.
    ghost settled: { Self → Bool };

    /// The sequencer of the name numbers the payload and sends it, or tells all nodes of the configuration that all up to the
    /// number may go; or it writes why not. It ends the drive where it says so in a line, and where a line tells that it was
    /// preempted, or that its numbers or the log's epochs are used up. After running out of memory it is of no use.
    fn append(
        &mut self,
        alloc: Global,
        name: &Name,
        request: &Request,
    ) -> Result<Appended, NoMemory>
        requires named { name.now ≡ (Self.own self.old).name }
        ensures messages { IfOk result (λ appended. AreMessages appended.heard.sends) }
        ensures appended { IfOk result (λ appended. (c : Config) (s : State) → IsInBounds c → IsSound c s → Self.stands self.old c s
            → IsActed (Self.stands self.new c) s appended.heard.lines.items appended.heard.sends (happens c s (request_event name.now request.now))) }
        ensures full { IfOk result (λ appended. appended.is_full ≡ tells_full appended.heard.lines.items) }
        ensures said { IfOk result (λ appended. IfSome appended.heard.end (IsSaid appended.heard.lines.items)) }
        ensures ends { IfOk result (λ appended. appended.heard.end ≡ None → tells_by is_final appended.heard.lines.items ≡ false) }
        ensures itself { Self.own self.new ≡ Self.own self.old }
        ensures since { Self.since self.old self.new };

    /// The sequencer of the name sends again what is still wanted, looks again where no look succeeded at an epoch whose nodes
    /// have told all that they can, and tries its close again. It ends the drive where it says so in a line. After running out
    /// of memory it is of no use.
    fn retry(&mut self, alloc: Global, name: &Name) -> Result<Heard, NoMemory>
        requires named { name.now ≡ (Self.own self.old).name }
        ensures messages { IfOk result (λ heard. AreMessages heard.sends) }
        ensures retried { IfOk result (λ heard. (c : Config) (s : State) → IsInBounds c → IsSound c s → Self.stands self.old c s
            → IsActed (Self.stands self.new c) s heard.lines.items heard.sends (happens c s (Retry name.now))) }
        ensures said { IfOk result (λ heard. IfSome heard.end (IsSaid heard.lines.items)) }
        ensures ends { IfOk result (λ heard. heard.end ≡ None → tells_by is_final heard.lines.items ≡ false) }
        ensures itself { Self.own self.new ≡ Self.own self.old }
        ensures since { Self.since self.old self.new };

    /// Whether every append is acknowledged, and every epoch before its own is closed.
    fn is_settled(&self) -> bool
        ensures { result ≡ settled self.now };

    /// Where it is so the sequencer of its name has settled too, in each state that it represents its part of.
    ghost settled_there: { (actor : Self) (c : Config) (s : State) → Self.Actor.stands actor c s → settled actor ≡ true → settled_at (Self.Actor.own actor).name s ≡ true };
}

/// Whether the request is a trim that has to wait: some append isn't acknowledged, or some epoch before the sequencer's own
/// isn't closed.
fn has_to_wait<A: Appends>(request: &Request, sequencer: &A) -> bool
    ensures { result ≡ has_to_wait request.now (A.settled sequencer.now) }
{
    match request {
        Request::Append(_) => false,
        Request::Trim(_) => !sequencer.is_settled(),
    }
}

/// One request that doesn't have to wait: its messages wait for their nodes. True where it is an append, and the window is
/// full.
fn add<A: Appends, O: Sink>(
    alloc: Global,
    name: &Name,
    request: &Request,
    sequencer: &mut A,
    queues: &mut Queues,
    out: &mut O,
) -> Result<bool, Ended>
    requires named { name.now ≡ (A.own sequencer.old).name }
    requires now { has_to_wait request.now (A.settled sequencer.old) ≡ false }
    ensures held { (own : Own) (c : Config) (first : ℕ) (s : State) (far : Far) → IsInBounds c → Holds (A.stands sequencer.old) c first s far queues.old
        → GoesOn (driver name.now own) ⊥ (λ t es. IsAsked name.now request.now t es × IfOk result (λ full. (taken_of c t es ≡ (if full then [] else request.now ∷ [])) × (full ≡ finds_full c t (request_event name.now request.now)) × (finds_final c t (request_event name.now request.now) ≡ false))) (λ e. IsAsking name.now request.now) (A.stands sequencer.new) (λ now. now ≡ far) c first s queues.new (Some (O.written out.old)) (Some (O.written out.new)) result }
    ensures itself { A.own sequencer.new ≡ A.own sequencer.old }
    ensures since { A.since sequencer.old sequencer.new }
    ensures cause { IfErr result (IsEnding (O.faults out.old) (O.faults out.new) (Some (O.written out.old)) (Some (O.written out.new))) }
    ensures off { (off : Option FrameFault) → IfErr result (IsOffAs off) }
    ensures later { IsLater (O.faults out.old) (O.faults out.new) (Some (O.written out.old)) (Some (O.written out.new)) }
{
    let Ok(appended) = sequencer.append(alloc, name, request) else {
        return Err(Ended::NoMemory);
    };
    let Appended { heard, is_full } = appended;
    tell(alloc, heard, queues, out)?;
    Ok(is_full)
}

/// What is still wanted is sent again: its messages wait for their nodes.
fn again<A: Appends, O: Sink>(
    alloc: Global,
    name: &Name,
    sequencer: &mut A,
    queues: &mut Queues,
    out: &mut O,
) -> Result<(), Ended>
    requires named { name.now ≡ (A.own sequencer.old).name }
    ensures held { (own : Own) (c : Config) (first : ℕ) (s : State) (far : Far) → IsInBounds c → Holds (A.stands sequencer.old) c first s far queues.old
        → GoesOn (driver name.now own) ⊥ (IsRetry name.now false) (λ e. MayRetry name.now false) (A.stands sequencer.new) (λ now. now ≡ far) c first s queues.new (Some (O.written out.old)) (Some (O.written out.new)) result }
    ensures itself { A.own sequencer.new ≡ A.own sequencer.old }
    ensures since { A.since sequencer.old sequencer.new }
    ensures cause { IfErr result (IsEnding (O.faults out.old) (O.faults out.new) (Some (O.written out.old)) (Some (O.written out.new))) }
    ensures off { (off : Option FrameFault) → IfErr result (IsOffAs off) }
    ensures later { IsLater (O.faults out.old) (O.faults out.new) (Some (O.written out.old)) (Some (O.written out.new)) }
{
    let Ok(heard) = sequencer.retry(alloc, name) else {
        return Err(Ended::NoMemory);
    };
    tell(alloc, heard, queues, out)
}

/// The requests that are still to be made: a payload that found the window full, or a trim that has to wait, is held, and comes
/// first.
#[derive(Drop)]
pub struct Feed {
    held: Option<Request>,
    is_over: bool,
}

impl Feed {
    /// None is held, and the input hasn't ended.
    pub fn new() -> Feed
        ensures held { result.held ≡ None }
        ensures on { result.is_over ≡ false }
    {
        Feed {
            held: None,
            is_over: false,
        }
    }

    /// Takes the next request; none is at the end of the input, where it is over.
    fn next<P: Payloads>(&mut self, alloc: Global, input: &mut P) -> Result<Option<Request>, Ended>
        ensures gives { NextIs (upcoming self.old.held (P.coming input.old)) (upcoming self.new.held (P.coming input.new)) result }
        ensures none { IfOk result (λ next. self.new.held ≡ None) }
        ensures on { IfOk result (λ next. MatchOption next (self.new.is_over ≡ true) (λ request. self.new.is_over ≡ self.old.is_over)) }
        ensures stopped { OnErr result (self.new.is_over ≡ self.old.is_over) }
        ensures cause { IfErr result (IsInputEnding (upcoming self.old.held (P.coming input.old)) (P.faults input.old) (P.faults input.new)) }
        ensures later { P.faults input.old ≤ P.faults input.new }
        ensures itself { P.identity input.new ≡ P.identity input.old }
    {
        if let Some(request) = self.held.take() {
            return Ok(Some(request));
        }
        match input.next(alloc) {
            Ok(Some(request)) => Ok(Some(request)),
            Ok(None) => {
                self.is_over = true;
                Ok(None)
            }
            Err(InputFault::BadLine { line, place }) => Err(Ended::BadLine { line, place }),
            Err(InputFault::Read) => Err(Ended::Read),
            Err(InputFault::NoMemory) => Err(Ended::NoMemory),
        }
    }

    /// Waits for the next request and holds it, unless one is held already or the input has ended.
    fn fill<P: Payloads>(&mut self, alloc: Global, input: &mut P) -> Result<(), Ended>
        ensures stays { OnOk result (StaysAs (upcoming self.old.held (P.coming input.old)) (upcoming self.new.held (P.coming input.new))) }
        ensures refused { IfErr result (λ ended. NextIs (upcoming self.old.held (P.coming input.old)) (upcoming self.new.held (P.coming input.new)) (Err ended)) }
        ensures over { (origin : Option Input) → SameBehind origin (upcoming self.old.held (P.coming input.old)) → WasOver origin self.old.is_over (upcoming self.old.held (P.coming input.old)) → WasOver origin self.new.is_over (upcoming self.new.held (P.coming input.new)) }
        ensures filled { OnOk result (self.new.held ≡ None → self.new.is_over ≡ true) }
        ensures cause { IfErr result (IsInputEnding (upcoming self.old.held (P.coming input.old)) (P.faults input.old) (P.faults input.new)) }
        ensures later { P.faults input.old ≤ P.faults input.new }
        ensures itself { P.identity input.new ≡ P.identity input.old }
    {
        if self.is_over {
            return Ok(());
        }
        if self.held.is_some() {
            return Ok(());
        }
        let next = self.next(alloc, input)?;
        self.held = next;
        Ok(())
    }

    /// Whether the next request is had without a wait: it is held, or the input is ready.
    fn is_ready<P: Payloads>(&self, input: &P) -> bool
        ensures ready { P.ready input.now ≡ Some true → result ≡ true }
        ensures unready { self.now.held ≡ None → P.ready input.now ≡ Some false → result ≡ false }
    {
        if self.held.is_some() {
            return true;
        }
        input.is_ready()
    }
}

/// Makes requests, until an append finds the window full, a trim has to wait, none is ready, or the input has ended. Where that
/// was before, none is asked for. So a trim comes behind all appends before it, once these are acknowledged, and what follows
/// it waits for it. Once it is made it is done with, refused or not.
fn add_all<A: Appends, P: Payloads, O: Sink>(
    alloc: Global,
    name: &Name,
    feed: &mut Feed,
    input: &mut P,
    sequencer: &mut A,
    queues: &mut Queues,
    out: &mut O,
) -> Result<(), Ended>
    requires named { name.now ≡ (A.own sequencer.old).name }
    ensures held { (own : Own) (c : Config) (first : ℕ) (s : State) (far : Far) → IsInBounds c → Holds (A.stands sequencer.old) c first s far queues.old
        → GoesOn (driver name.now own) ⊥ (Adds name.now c (IsDry feed.new.is_over (P.ready input.new) feed.new.held (A.settled sequencer.new)) (upcoming feed.old.held (P.coming input.old)) (upcoming feed.new.held (P.coming input.new))) (AddsUntil name.now c (upcoming feed.old.held (P.coming input.old))) (A.stands sequencer.new) (λ now. now ≡ far) c first s queues.new (Some (O.written out.old)) (Some (O.written out.new)) result }
    ensures over { (origin : Option Input) → SameBehind origin (upcoming feed.old.held (P.coming input.old)) → WasOver origin feed.old.is_over (upcoming feed.old.held (P.coming input.old)) → WasOver origin feed.new.is_over (upcoming feed.new.held (P.coming input.new)) }
    ensures behind { OnOk result (SameBehind (upcoming feed.old.held (P.coming input.old)) (upcoming feed.new.held (P.coming input.new))) }
    ensures waits { feed.old.held ≡ None → P.ready input.old ≡ Some false → input.new ≡ input.old }
    ensures actor { A.own sequencer.new ≡ A.own sequencer.old }
    ensures since { A.since sequencer.old sequencer.new }
    ensures cause { IfErr result (IsAppendEnding (upcoming feed.old.held (P.coming input.old)) (P.faults input.old) (P.faults input.new) (O.faults out.old) (O.faults out.new) (Some (O.written out.old)) (Some (O.written out.new))) }
    ensures off { (off : Option FrameFault) → IfErr result (IsOffAs off) }
    ensures input_later { P.faults input.old ≤ P.faults input.new }
    ensures itself { P.identity input.new ≡ P.identity input.old }
    ensures later { IsLater (O.faults out.old) (O.faults out.new) (Some (O.written out.old)) (Some (O.written out.new)) }
{
    if feed.is_over {
        return Ok(());
    }
    'requests: for _ in 0..u64::MAX {
        if !feed.is_ready(input) {
            return Ok(());
        }
        let Some(request) = feed.next(alloc, input)? else {
            return Ok(());
        };
        if has_to_wait(&request, sequencer) {
            let trim = request;
            feed.held = Some(trim);
            return Ok(());
        }
        if add(alloc, name, &request, sequencer, queues, out)? {
            feed.held = Some(request);
            return Ok(());
        }
    }
    // So many are more than any window holds.
    Err(Ended::NoMemory)
}

/// Waits for the first request; then requests are made.
fn add_first<A: Appends, P: Payloads, O: Sink>(
    alloc: Global,
    name: &Name,
    feed: &mut Feed,
    input: &mut P,
    sequencer: &mut A,
    queues: &mut Queues,
    out: &mut O,
) -> Result<(), Ended>
    requires named { name.now ≡ (A.own sequencer.old).name }
    ensures held { (own : Own) (c : Config) (first : ℕ) (s : State) (far : Far) → IsInBounds c → Holds (A.stands sequencer.old) c first s far queues.old
        → GoesOn (driver name.now own) ⊥ (Adds name.now c (IsDry feed.new.is_over (P.ready input.new) feed.new.held (A.settled sequencer.new)) (upcoming feed.old.held (P.coming input.old)) (upcoming feed.new.held (P.coming input.new))) (AddsUntil name.now c (upcoming feed.old.held (P.coming input.old))) (A.stands sequencer.new) (λ now. now ≡ far) c first s queues.new (Some (O.written out.old)) (Some (O.written out.new)) result }
    ensures over { (origin : Option Input) → SameBehind origin (upcoming feed.old.held (P.coming input.old)) → WasOver origin feed.old.is_over (upcoming feed.old.held (P.coming input.old)) → WasOver origin feed.new.is_over (upcoming feed.new.held (P.coming input.new)) }
    ensures behind { OnOk result (SameBehind (upcoming feed.old.held (P.coming input.old)) (upcoming feed.new.held (P.coming input.new))) }
    ensures actor { A.own sequencer.new ≡ A.own sequencer.old }
    ensures since { A.since sequencer.old sequencer.new }
    ensures cause { IfErr result (IsAppendEnding (upcoming feed.old.held (P.coming input.old)) (P.faults input.old) (P.faults input.new) (O.faults out.old) (O.faults out.new) (Some (O.written out.old)) (Some (O.written out.new))) }
    ensures off { (off : Option FrameFault) → IfErr result (IsOffAs off) }
    ensures input_later { P.faults input.old ≤ P.faults input.new }
    ensures itself { P.identity input.new ≡ P.identity input.old }
    ensures later { IsLater (O.faults out.old) (O.faults out.new) (Some (O.written out.old)) (Some (O.written out.new)) }
{
    feed.fill(alloc, input)?;
    add_all(alloc, name, feed, input, sequencer, queues, out)
}

/// Before the first round a request is waited for, and before each other one what is still wanted is sent again; then requests
/// are made.
fn prepare<A: Appends, P: Payloads, O: Sink>(
    alloc: Global,
    name: &Name,
    is_first: bool,
    feed: &mut Feed,
    input: &mut P,
    sequencer: &mut A,
    queues: &mut Queues,
    out: &mut O,
) -> Result<(), Ended>
    requires named { name.now ≡ (A.own sequencer.old).name }
    ensures held { (own : Own) (c : Config) (first : ℕ) (s : State) (far : Far) → IsInBounds c → Holds (A.stands sequencer.old) c first s far queues.old
        → GoesOn (driver name.now own) ⊥ (Prepares name.now c (IsDry feed.new.is_over (P.ready input.new) feed.new.held (A.settled sequencer.new)) is_first (upcoming feed.old.held (P.coming input.old)) (upcoming feed.new.held (P.coming input.new))) (PreparesUntil name.now c is_first (upcoming feed.old.held (P.coming input.old))) (A.stands sequencer.new) (λ now. now ≡ far) c first s queues.new (Some (O.written out.old)) (Some (O.written out.new)) result }
    ensures over { (origin : Option Input) → SameBehind origin (upcoming feed.old.held (P.coming input.old)) → WasOver origin feed.old.is_over (upcoming feed.old.held (P.coming input.old)) → WasOver origin feed.new.is_over (upcoming feed.new.held (P.coming input.new)) }
    ensures behind { OnOk result (SameBehind (upcoming feed.old.held (P.coming input.old)) (upcoming feed.new.held (P.coming input.new))) }
    ensures waits { is_first ≡ false → feed.old.held ≡ None → P.ready input.old ≡ Some false → input.new ≡ input.old }
    ensures actor { A.own sequencer.new ≡ A.own sequencer.old }
    ensures since { A.since sequencer.old sequencer.new }
    ensures cause { IfErr result (IsAppendEnding (upcoming feed.old.held (P.coming input.old)) (P.faults input.old) (P.faults input.new) (O.faults out.old) (O.faults out.new) (Some (O.written out.old)) (Some (O.written out.new))) }
    ensures off { (off : Option FrameFault) → IfErr result (IsOffAs off) }
    ensures input_later { P.faults input.old ≤ P.faults input.new }
    ensures itself { P.identity input.new ≡ P.identity input.old }
    ensures later { IsLater (O.faults out.old) (O.faults out.new) (Some (O.written out.old)) (Some (O.written out.new)) }
{
    if is_first {
        return add_first(alloc, name, feed, input, sequencer, queues, out);
    }
    again(alloc, name, sequencer, queues, out)?;
    add_all(alloc, name, feed, input, sequencer, queues, out)
}

/// One round: what is to be sent is prepared, and the nodes are visited.
fn append_round<A: Appends, N: Nodes, P: Payloads, O: Sink>(
    alloc: Global,
    set: &NodeSet,
    name: &Name,
    is_first: bool,
    feed: &mut Feed,
    input: &mut P,
    sequencer: &mut A,
    nodes: &mut N,
    queues: &mut Queues,
    out: &mut O,
) -> Result<(), Ended>
    requires named { name.now ≡ (A.own sequencer.old).name }
    ensures held { (own : Own) → A.own sequencer.old ≡ own → (c : Config) (first : ℕ) (s : State) (far : Far) → IsInBounds c → AreOfConfig c (members set.now)
        → AllTaken (N.tells nodes.old c) far → Holds (A.stands sequencer.old) c first s far queues.old
        → (N.silent nodes.new ≡ true) ⊎ GoesOn (driver name.now own) (IsBroken (N.faults nodes.old) (N.faults nodes.new) (N.endings nodes.old) (N.endings nodes.new)) (Rounds name.now c (IsDry feed.new.is_over (P.ready input.new) feed.new.held false) first (members set.now) is_first (counted (N.faults nodes.old) (N.faults nodes.new) (N.endings nodes.old) (N.endings nodes.new)) (upcoming feed.old.held (P.coming input.old)) (upcoming feed.new.held (P.coming input.new))) (RoundsUntil name.now c first (members set.now) is_first (counted (N.faults nodes.old) (N.faults nodes.new) (N.endings nodes.old) (N.endings nodes.new)) (upcoming feed.old.held (P.coming input.old))) (A.stands sequencer.new) (AllTaken (N.tells nodes.new c)) c first s queues.new (Some (O.written out.old)) (Some (O.written out.new)) result }
    ensures silent { N.silent nodes.old ≡ true → N.silent nodes.new ≡ true }
    ensures over { (origin : Option Input) → SameBehind origin (upcoming feed.old.held (P.coming input.old)) → WasOver origin feed.old.is_over (upcoming feed.old.held (P.coming input.old)) → WasOver origin feed.new.is_over (upcoming feed.new.held (P.coming input.new)) }
    ensures behind { OnOk result (SameBehind (upcoming feed.old.held (P.coming input.old)) (upcoming feed.new.held (P.coming input.new))) }
    ensures waits { is_first ≡ false → feed.old.held ≡ None → P.ready input.old ≡ Some false → input.new ≡ input.old }
    ensures actor { A.own sequencer.new ≡ A.own sequencer.old }
    ensures since { A.since sequencer.old sequencer.new }
    ensures cause { IfErr result (IsAppendEnding (upcoming feed.old.held (P.coming input.old)) (P.faults input.old) (P.faults input.new) (O.faults out.old) (O.faults out.new) (Some (O.written out.old)) (Some (O.written out.new))) }
    ensures off { IfErr result (IsOffAs (N.off nodes.new)) }
    ensures ended { N.off nodes.old ≡ None → EndsOff (N.off nodes.new) result }
    ensures input_later { P.faults input.old ≤ P.faults input.new }
    ensures itself { P.identity input.new ≡ P.identity input.old }
    ensures later { IsLater (O.faults out.old) (O.faults out.new) (Some (O.written out.old)) (Some (O.written out.new)) }
    ensures counts { AreLater (N.faults nodes.old) (N.faults nodes.new) (N.endings nodes.old) (N.endings nodes.new) }
{
    prepare(alloc, name, is_first, feed, input, sequencer, queues, out)?;
    round(alloc, set, sequencer, nodes, queues, out)
}

/// Before a request is waited for the present node is let go, so that nobody waits for a client that waits itself.
fn let_go<P: Payloads, N: Nodes>(feed: &Feed, input: &P, nodes: &mut N)
    ensures rested { (c : Config) (far : Far) → N.tells nodes.old c far → N.tells nodes.new c far }
    ensures silent { N.silent nodes.new ≡ N.silent nodes.old }
    ensures off { N.off nodes.new ≡ N.off nodes.old }
    ensures faults { N.faults nodes.new ≡ N.faults nodes.old }
    ensures endings { N.endings nodes.new ≡ N.endings nodes.old }
{
    if !feed.is_ready(input) {
        nodes.rest(0);
    }
}

/// Whether it is done: every append is acknowledged, every epoch before its own is closed, no message waits, so that each trim
/// went to all nodes that were reached, and the input has ended. Where it is so but for the input, the next request is waited
/// for and held.
fn is_done<A: Appends, N: Nodes, P: Payloads>(
    alloc: Global,
    feed: &mut Feed,
    input: &mut P,
    sequencer: &A,
    nodes: &mut N,
    queues: &Queues,
) -> Result<bool, Ended>
    ensures done { IfOk result (λ done. done ≡ (A.settled sequencer.now && (are_empty queues.now && feed.new.is_over))) }
    // Where all but the input is so, the input has ended then or a request is held.
    ensures asked { OnOk result ((A.settled sequencer.now && are_empty queues.now) ≡ true → feed.new.held ≡ None → feed.new.is_over ≡ true) }
    ensures stays { OnOk result (StaysAs (upcoming feed.old.held (P.coming input.old)) (upcoming feed.new.held (P.coming input.new))) }
    ensures refused { IfErr result (λ ended. NextIs (upcoming feed.old.held (P.coming input.old)) (upcoming feed.new.held (P.coming input.new)) (Err ended)) }
    ensures over { (origin : Option Input) → SameBehind origin (upcoming feed.old.held (P.coming input.old)) → WasOver origin feed.old.is_over (upcoming feed.old.held (P.coming input.old)) → WasOver origin feed.new.is_over (upcoming feed.new.held (P.coming input.new)) }
    // While something waits nothing is asked of the input.
    ensures waits { (A.settled sequencer.now && are_empty queues.now) ≡ false → input.new ≡ input.old }
    ensures cause { IfErr result (IsInputEnding (upcoming feed.old.held (P.coming input.old)) (P.faults input.old) (P.faults input.new)) }
    ensures input_later { P.faults input.old ≤ P.faults input.new }
    ensures itself { P.identity input.new ≡ P.identity input.old }
    ensures rested { (c : Config) (far : Far) → N.tells nodes.old c far → N.tells nodes.new c far }
    ensures silent { N.silent nodes.new ≡ N.silent nodes.old }
    ensures off { N.off nodes.new ≡ N.off nodes.old }
    ensures faults { N.faults nodes.new ≡ N.faults nodes.old }
    ensures endings { N.endings nodes.new ≡ N.endings nodes.old }
{
    if !sequencer.is_settled() {
        return Ok(false);
    }
    if !queues.are_empty() {
        return Ok(false);
    }
    let_go(feed, input, nodes);
    feed.fill(alloc, input)?;
    Ok(feed.is_over)
}

/// One round, and whether it is done then.
fn turn<A: Appends, N: Nodes, P: Payloads, O: Sink>(
    alloc: Global,
    set: &NodeSet,
    name: &Name,
    is_first: bool,
    feed: &mut Feed,
    input: &mut P,
    sequencer: &mut A,
    nodes: &mut N,
    queues: &mut Queues,
    out: &mut O,
) -> Result<bool, Ended>
    requires named { name.now ≡ (A.own sequencer.old).name }
    ensures held { (own : Own) → A.own sequencer.old ≡ own → (c : Config) (first : ℕ) (s : State) (far : Far) → IsInBounds c → AreOfConfig c (members set.now)
        → AllTaken (N.tells nodes.old c) far → Holds (A.stands sequencer.old) c first s far queues.old
        → (N.silent nodes.new ≡ true) ⊎ GoesOn (driver name.now own) (IsBroken (N.faults nodes.old) (N.faults nodes.new) (N.endings nodes.old) (N.endings nodes.new)) (Rounds name.now c (Unit {0}) first (members set.now) is_first (counted (N.faults nodes.old) (N.faults nodes.new) (N.endings nodes.old) (N.endings nodes.new)) (upcoming feed.old.held (P.coming input.old)) (upcoming feed.new.held (P.coming input.new))) (RoundsUntil name.now c first (members set.now) is_first (counted (N.faults nodes.old) (N.faults nodes.new) (N.endings nodes.old) (N.endings nodes.new)) (upcoming feed.old.held (P.coming input.old))) (A.stands sequencer.new) (AllTaken (N.tells nodes.new c)) c first s queues.new (Some (O.written out.old)) (Some (O.written out.new)) result }
    ensures done { IfOk result (λ done. done ≡ (A.settled sequencer.new && (are_empty queues.new && feed.new.is_over))) }
    ensures asked { OnOk result ((A.settled sequencer.new && are_empty queues.new) ≡ true → feed.new.held ≡ None → feed.new.is_over ≡ true) }
    ensures silent { N.silent nodes.old ≡ true → N.silent nodes.new ≡ true }
    ensures over { (origin : Option Input) → SameBehind origin (upcoming feed.old.held (P.coming input.old)) → WasOver origin feed.old.is_over (upcoming feed.old.held (P.coming input.old)) → WasOver origin feed.new.is_over (upcoming feed.new.held (P.coming input.new)) }
    ensures behind { OnOk result (SameBehind (upcoming feed.old.held (P.coming input.old)) (upcoming feed.new.held (P.coming input.new))) }
    // Where none is ready as it begins, and something waits as it ends, nothing is asked of the input.
    ensures waits { is_first ≡ false → feed.old.held ≡ None → P.ready input.old ≡ Some false → (A.settled sequencer.new && are_empty queues.new) ≡ false → input.new ≡ input.old }
    ensures actor { A.own sequencer.new ≡ A.own sequencer.old }
    ensures since { A.since sequencer.old sequencer.new }
    ensures cause { IfErr result (IsAppendEnding (upcoming feed.old.held (P.coming input.old)) (P.faults input.old) (P.faults input.new) (O.faults out.old) (O.faults out.new) (Some (O.written out.old)) (Some (O.written out.new))) }
    ensures off { IfErr result (IsOffAs (N.off nodes.new)) }
    ensures ended { N.off nodes.old ≡ None → EndsOff (N.off nodes.new) result }
    ensures input_later { P.faults input.old ≤ P.faults input.new }
    ensures itself { P.identity input.new ≡ P.identity input.old }
    ensures later { IsLater (O.faults out.old) (O.faults out.new) (Some (O.written out.old)) (Some (O.written out.new)) }
    ensures counts { AreLater (N.faults nodes.old) (N.faults nodes.new) (N.endings nodes.old) (N.endings nodes.new) }
{
    append_round(
        alloc, set, name, is_first, feed, input, sequencer, nodes, queues, out,
    )?;
    is_done(alloc, feed, input, sequencer, nodes, queues)
}

/// Drives a sequencer over payloads and trims. Before each of so many rounds over the nodes of a set but the first, what is
/// still wanted is sent again, and then requests are made until an append finds the window full or a trim has to wait, which is
/// the next round's first, none is ready, or the input has ended. A trim waits until every append is acknowledged and every
/// epoch before the sequencer's own is closed, since only so much is released as is acknowledged and closed. A request is
/// waited for only before the first round, and after a round by which every append is acknowledged, every epoch before its own
/// is closed, and no message waits: no node is present meanwhile, and it is done where the input has ended. True where it was.
///
/// It ends with `Preempted`, `EpochFull` or `Register` where a line says so, with `BadFrame` where what a node sent begins no
/// frame, with `BadLine` at the first line with a syntax error, with `Read` where the input failed, with `Write` where the
/// output failed, and when out of memory.
pub fn append<A: Appends, N: Nodes, P: Payloads, O: Sink>(
    alloc: Global,
    set: &NodeSet,
    name: &Name,
    rounds: u64,
    input: &mut P,
    sequencer: &mut A,
    nodes: &mut N,
    queues: &mut Queues,
    out: &mut O,
) -> Result<bool, Ended>
    requires named { name.now ≡ (A.own sequencer.old).name }
    // Where the nodes tell what stands there: all that was done are steps of the written machine from any state that the drive
    // represents, round by round: it sends again, but not in the first, requests are made, and the set's nodes are visited
    // one after the other. A trim is made only where the sequencer has every append acknowledged and every epoch before its own
    // closed. The requests that the machine took are the first ones that came, in their order; they are all where it is done,
    // and where it comes to a line with a syntax error. The lines that were written are the sequencer's lines of those steps.
    // Each message that is delivered or lost in a visit is to its node or an answer of it, and is so once and in its turn. A
    // message to a node is lost only in a visit of it in which a call of the nodes failed or a node had ended: what failed in
    // one visit allows no loss in another. An answer is lost only where the sequencer doesn't take it; it never ends with
    // `BadFrame`.
    ensures held { (c : Config) (first : ℕ) (s : State) (far : Far) → IsInBounds c → AreOfConfig c (members set.now)
        → AllTaken (N.tells nodes.old c) far → Holds (A.stands sequencer.old) c first s far queues.old
        → (N.silent nodes.new ≡ true) ⊎ TookAppends (driver name.now (A.own sequencer.old)) (counted (N.faults nodes.old) (N.faults nodes.new) (N.endings nodes.old) (N.endings nodes.new)) (members set.now) (P.coming input.old) rounds (A.stands sequencer.new) (AllTaken (N.tells nodes.new c)) c first s queues.new (Some (O.written out.old)) (Some (O.written out.new)) result }
    ensures settled { IfOk result (λ done. done ≡ true → (A.settled sequencer.new ≡ true) × (are_empty queues.new ≡ true)) }
    // Where all rounds were taken and all but the input is done, the input held a request.
    ensures undone { IfOk result (λ done. 0 < rounds → done ≡ false → (A.settled sequencer.new && are_empty queues.new) ≡ true → HasCome (P.coming input.old)) }
    ensures itself { P.identity input.new ≡ P.identity input.old }
    ensures actor { A.own sequencer.new ≡ A.own sequencer.old }
    ensures since { A.since sequencer.old sequencer.new }
    ensures cause { IfErr result (IsAppendEnding (P.coming input.old) (P.faults input.old) (P.faults input.new) (O.faults out.old) (O.faults out.new) (Some (O.written out.old)) (Some (O.written out.new))) }
    ensures off { IfErr result (IsOffAs (N.off nodes.new)) }
    ensures ended { N.off nodes.old ≡ None → EndsOff (N.off nodes.new) result }
    ensures later { IsLater (O.faults out.old) (O.faults out.new) (Some (O.written out.old)) (Some (O.written out.new)) }
{
    let mut feed = Feed::new();
    'rounds: for number in 0..rounds {
        if turn(
            alloc,
            set,
            name,
            number == 0,
            &mut feed,
            input,
            sequencer,
            nodes,
            queues,
            out,
        )? {
            return Ok(true);
        }
    }
    Ok(false)
}
