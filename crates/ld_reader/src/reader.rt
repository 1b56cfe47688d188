// A reader of a log.
ghost use Rattle.std.specs.Prelude.{◌≡◌, ◌≢◌, ◌≤◌, ◌<◌, ◌+◌, ◌-◌, ◌^◌, ◌⊎◌, [], true, false, nat_lt, Some, None, Ok, IsOk, IfOk, IfErr, OnOk, OnErr, IsErrOf, All, ℕ, List};
ghost use Rattle.ld_io.specs.Causes.{Rose};
ghost use Rattle.ld_lsn.specs.Number.{home_epoch};
ghost use Rattle.ld_msg.specs.Bounds.{IsMessage, last_reader};
ghost use Rattle.ld_msg.specs.Register.{Register as Contents, View as Shown};
ghost use Rattle.ld_msg.specs.declared.msg.Who.TheVariants as whos;
ghost use Rattle.ld_msg.specs.Reader.{opened, is_finished, is_single, round_of as round_told, heard as hears};
ghost use Rattle.ld_register.specs.Calls.{Keeps};
ghost use Rattle.ld_register.specs.declared.fault.RegisterFault.{RegisterFault};
ghost use Rattle.ld_register.specs.declared.fault.RegisterFault.TheVariants as registers;
ghost use Rattle.ld_reader.specs.Course.{lasting, unnoted, unmissed, unheard};
ghost use Rattle.ld_reader.specs.Faults.{IsOfLook};
ghost use Rattle.ld_reader.specs.Following.{asked as asks, noted as notes, missed as misses, replied, confirms_next, with_reader, HasDone};
ghost use Rattle.ld_reader.specs.Looks.{looks_of, IsLook, AreLooks, WasMade, WasShown};
ghost use Rattle.ld_reader.specs.Place.{is_past};
ghost use Rattle.ld_reader.specs.Tiling.{Tiles};

use crate::asked::{Asked, contains};
use crate::missing::{Missed, Missing, lost_epoch};
use crate::place::Place;
use crate::seen::Seen;
use crate::senders::Senders;
use crate::{Items, ReaderFault};
use ld_gap::{Held, Replaced, round_of};
use ld_ids::{LogId, NoMemory, NodeId, Spec};
use ld_lsn::Lsn;
use ld_msg::{Body, Msg, Outbox, Style, Who};
use ld_register::Register;
use std::alloc::Global;
use std::marker::Model;

// The last round that a reader asks under.
pub(crate) const LAST_ROUND: u32 = u32::MAX;

/// A reader of a log: it has given all items below its next number, and holds what the nodes have
/// answered, and what its last look showed.
///
/// Answers of rounds below `least` aren't taken any more. `senders` are those of the present round,
/// where one node sends each payload. `polled` is the next number as it was polled last, 0 before the
/// first poll. `missing` is kept by readers of single copies alone.
#[derive(Drop)]
pub struct Reader {
    pub(crate) first: Spec,
    pub(crate) number: u32,
    pub(crate) style: Style,
    pub(crate) place: Place,
    pub(crate) round: u32,
    pub(crate) least: u32,
    pub(crate) held: Held,
    pub(crate) asked: Option<Asked>,
    pub(crate) told: Vec<NodeId>,
    pub(crate) seen: Option<Seen>,
    pub(crate) senders: Option<Senders>,
    polled: Lsn,
    pub(crate) missing: Missing,
}

impl Model for Reader {
    ghost use Rattle.std.specs.Prelude.{◌≤◌};
    ghost use Rattle.ld_msg.specs.Bounds.{last_reader};
    ghost use Rattle.ld_reader.specs.Following.{Following};
    ghost use Rattle.ld_reader.specs.Shown.{shown_confirming};

    ghost Value = { Following };

    ghost view = { λ a. record {
      first = a.first;
      reader = record {
        log = a.first.log;
        number = a.number;
        next = a.place.next;
        until = a.place.until;
        round = a.round;
        held = a.held;
        confirming = shown_confirming a.asked a.told.items;
        seen = a.seen;
        least = a.least;
        style = a.style;
        senders = a.senders;
        polled = a.polled;
        missing = a.missing;
      };
    } };

    ghost invariant = { λ a. a.number ≤ last_reader };
}

/// What an answer did to a confirmation: whether it lasts, and how many nodes had told before that
/// they are lost still.
#[derive(Drop)]
pub struct Noted {
    lasts: bool,
    told: usize,
}

/// What an answer did before any item followed from it.
#[derive(Drop)]
pub struct Heard {
    noted: Noted,
    missed: Option<Missed>,
    replaced: Option<Replaced>,
}

impl Reader {
    /// A reader of the log from a number to another, both included; `number` is its position in the
    /// order of opening, at most 999. The nodes of `first` are asked where the register shows none.
    /// By its style each node sends each payload, or one node does.
    pub fn start(
        alloc: Global,
        first: &Spec,
        number: u32,
        from: Lsn,
        until: Lsn,
        style: Style,
    ) -> Result<Reader, NoMemory>
        requires number { number ≤ last_reader }
        requires first { 1 ≤ from }
        requires last { from ≤ until }
        ensures first { IfOk result (λ reader. reader.first ≡ first.now) }
        ensures reader { IfOk result (λ reader. reader.reader ≡ opened style first.now.log number from until) }
    {
        let told = Vec::with_capacity(alloc, 16)?;
        Ok(Reader {
            first: *first,
            number,
            style,
            place: Place::new(from, until),
            round: 0,
            least: 0,
            held: Held::nothing(),
            asked: None,
            told,
            seen: None,
            senders: None,
            polled: Lsn::from_u64(0),
            missing: Missing::nobody(),
        })
    }

    /// Whether it has given all items.
    pub fn finished(&self) -> bool
        ensures finished { result ≡ is_finished self.now.reader }
        ensures next { 0 < self.now.reader.next }
        ensures within { self.now.reader.next ≤ self.now.reader.until + 1 }
    {
        self.place.is_past()
    }

    /// The log that it reads.
    pub fn log(&self) -> LogId
        ensures { result ≡ self.now.reader.log }
    {
        self.first.log
    }

    /// Its next number, and the one behind its last where it is finished.
    pub fn next_number(&self) -> u128
        ensures { result ≡ self.now.reader.next }
    {
        self.place.next_number()
    }

    /// How it reads.
    pub fn style(&self) -> Style
        ensures { result ≡ self.now.reader.style }
    {
        self.style
    }

    // Looks at the epoch of the next number of a place, unless a look at it was made before in the same
    // call.
    pub(crate) fn look<G: Register>(
        &self,
        alloc: Global,
        place: &Place,
        made: &Option<Seen>,
        reg: &mut G,
    ) -> Result<Seen, ReaderFault>
        requires { is_past place.now ≡ false }
        ensures exact { (c : Contents) → G.tells reg.old c → WasMade (looks_of self.now c) made.now
            → IfOk result (λ seen. (seen ≡ looks_of self.now c (home_epoch place.now.next)) × G.tells reg.new c) }
        ensures foretold { (c : Contents) → G.tells reg.old c → IfErr result (λ fault. (fault ≡ ReaderFault.NoMemory) × G.tells reg.new c) }
        ensures held { (c : Contents) → G.holds reg.old c → WasMade (looks_of self.now c) made.now
            → IfOk result (λ seen. (seen ≡ looks_of self.now c (home_epoch place.now.next)) × G.holds reg.new c) }
        ensures tells { (c : Contents) → G.tells reg.old c → G.tells reg.new c }
        ensures shown { WasShown self.now made.now → IfOk result (IsLook self.now.first self.now.reader.log (home_epoch place.now.next)) }
        ensures again { (w : Shown) → made.now ≡ Some w → w.at ≡ home_epoch place.now.next → IfOk result (λ seen. seen ≡ w) }
        ensures whole { made.now ≡ None → G.told reg.old → OnOk result ((c : Contents) × G.holds reg.old c) }
        ensures told { G.told reg.old → G.told reg.new }
        ensures same { (c : Contents) → G.may_hold reg.new c → G.may_hold reg.old c }
        ensures survives { (cs : List Contents) → G.told reg.old → G.leaves reg.old cs → G.leaves reg.new cs }
        ensures keeps { IsErrOf result (ReaderFault.Register registers.Failed) ⊎ Keeps (G.holds reg.old) (G.holds reg.new) (G.may_hold reg.old) (G.may_hold reg.new) }
        ensures failed { IsErrOf result (ReaderFault.Register registers.Failed) → Rose (G.faults reg.old) (G.faults reg.new) }
        ensures steady { IsErrOf result (ReaderFault.Register registers.Failed) ⊎ (G.faults reg.new ≡ G.faults reg.old) }
        ensures damaged { (place : ℕ) → IsErrOf result (ReaderFault.Register (registers.Damaged place)) → G.told reg.old → G.damaged reg.old place }
        ensures refused { IfErr result IsOfLook }
        ensures counts { G.faults reg.old ≤ G.faults reg.new }
        ensures itself { G.identity reg.new ≡ G.identity reg.old }
    {
        let epoch = place.epoch();
        if let Some(seen) = made
            && seen.is_at(epoch)
        {
            return Ok(*seen);
        }
        let view = reg.look(alloc, self.first.log, epoch)?;
        Ok(Seen::new(&self.first, epoch, &view))
    }

    /// Looks at the epoch that the next number belongs to, and asks the nodes that the register
    /// shows for the next number, under a new round; after the last round nothing more is sent, and
    /// no look is made. This ends a confirmation. A reader that is finished looks at nothing and
    /// asks nothing. Each ask is a message that a frame can carry.
    ///
    /// Where the look shows another count of swaps than the last one, all that is held is dropped,
    /// and answers of the rounds before are not taken any more.
    ///
    /// For a reader of single copies one node alone is to send each payload, among those that didn't
    /// answer last that they are lost for this epoch; each node is to send each where none of these
    /// is left, or where the next number is the one that was polled last.
    ///
    /// It is refused with `Register` and `Failed` or `Damaged` exactly as the look is, where one is
    /// made, and when out of memory. Then nothing is sent, and the reader is as it was. A look changes
    /// nothing of the register.
    pub fn ask<G: Register>(
        &mut self,
        alloc: Global,
        reg: &mut G,
        out: &mut Outbox,
    ) -> Result<(), ReaderFault>
        ensures exact { (c : Contents) → G.tells reg.old c
            → OnOk result (HasDone self.old self.new [] out.old out.new (asks (looks_of self.old c) self.old.reader) × G.tells reg.new c) }
        ensures foretold { (c : Contents) → G.tells reg.old c → IfErr result (λ fault. (fault ≡ ReaderFault.NoMemory) × G.tells reg.new c) }
        ensures held { (c : Contents) → G.holds reg.old c
            → OnOk result (HasDone self.old self.new [] out.old out.new (asks (looks_of self.old c) self.old.reader) × G.holds reg.new c) }
        ensures acted { OnOk result ((looks : ℕ → Shown) × AreLooks self.old looks × HasDone self.old self.new [] out.old out.new (asks looks self.old.reader)) }
        ensures reader_err { OnErr result (self.new ≡ self.old) }
        ensures sent_err { OnErr result (out.new ≡ out.old) }
        ensures idle { (is_finished self.old.reader ≡ true) ⊎ (self.old.reader.round ≡ 2 ^ 32 - 1) → (result ≡ Ok tt) × (reg.new ≡ reg.old) }
        ensures whole { G.told reg.old → OnOk result (((self.new.reader.round ≡ self.old.reader.round) × (self.new.reader.seen ≡ self.old.reader.seen)) ⊎ ((c : Contents) × G.holds reg.old c)) }
        ensures told { G.told reg.old → G.told reg.new }
        ensures same { (c : Contents) → G.may_hold reg.new c → G.may_hold reg.old c }
        ensures survives { (cs : List Contents) → G.told reg.old → G.leaves reg.old cs → G.leaves reg.new cs }
        ensures keeps { IsErrOf result (ReaderFault.Register registers.Failed) ⊎ Keeps (G.holds reg.old) (G.holds reg.new) (G.may_hold reg.old) (G.may_hold reg.new) }
        ensures failed { IsErrOf result (ReaderFault.Register registers.Failed) → Rose (G.faults reg.old) (G.faults reg.new) }
        ensures steady { IsErrOf result (ReaderFault.Register registers.Failed) ⊎ (G.faults reg.new ≡ G.faults reg.old) }
        ensures damaged { (place : ℕ) → IsErrOf result (ReaderFault.Register (registers.Damaged place)) → G.told reg.old → G.damaged reg.old place }
        ensures refused { IfErr result IsOfLook }
        ensures counts { G.faults reg.old ≤ G.faults reg.new }
        ensures itself { G.identity reg.new ≡ G.identity reg.old }
        ensures messages { All IsMessage out.old → All IsMessage out.new }
    {
        let Some(next) = self.place.next() else {
            return Ok(());
        };
        if self.round == LAST_ROUND {
            self.asked = None;
            self.polled = next;
            return Ok(());
        }
        let place = self.place.copy();
        let full = self.polled == next;
        let seen = self.look(alloc, &place, &None, reg)?;
        self.begin_over(alloc, place, seen, full, false, out)?;
        self.polled = next;
        Ok(())
    }

    // Whether the answer is of a round whose answers are not taken any more.
    fn is_stale(&self, body: &Body) -> bool
        ensures { result ≡ nat_lt (round_told body.now) self.now.reader.least }
    {
        round_of(body) < self.least
    }

    // What the answer does to a confirmation, and how that is taken back.
    fn note(&mut self, node: NodeId, body: &Body) -> Result<Noted, NoMemory>
        ensures noted { IfOk result (λ noted. with_reader self.new (lasting noted.lasts self.new.reader) ≡ with_reader self.old (notes self.old.reader node body.now)) }
        ensures back { IfOk result (λ noted. unnoted noted self.new ≡ self.old) }
        ensures err { OnErr result (self.new ≡ self.old) }
    {
        let told = self.told.len();
        let lasts = match &self.asked {
            Some(asked) if round_of(body) == asked.round => asked.confirms(node, body),
            _ => return Ok(Noted { lasts: true, told }),
        };
        if lasts && !contains(&self.told, node) {
            self.told.push(node)?;
        }
        Ok(Noted { lasts, told })
    }

    // Notes whether the node is lost for the epoch that was asked, where one node sends each payload
    // and the answer is to be held, and tells how that is taken back.
    fn miss(&mut self, node: NodeId, body: &Body) -> Option<Missed>
        ensures missed { self.new ≡ with_reader self.old (misses self.old.reader node body.now) }
        ensures back { with_reader self.new (record self.new.reader { missing = unmissed result self.new.reader.missing }) ≡ self.old }
    {
        if !self.is_single() || !self.held.is_newer(node, round_of(body)) {
            return None;
        }
        let epoch = self.missing.exchange(node, lost_epoch(body));
        Some(Missed { node, epoch })
    }

    // Whether one node is to send each payload.
    pub(crate) fn is_single(&self) -> bool
        ensures { result ≡ is_single self.now.reader.style }
    {
        match self.style {
            Style::OneCopy => true,
            Style::EachCopy | Style::OfMessages => false,
        }
    }

    // Holds the answer, and tells how that is taken back.
    fn hear(&mut self, node: NodeId, body: Body) -> Result<Heard, NoMemory>
        ensures heard { IfOk result (λ heard. with_reader self.new (lasting heard.noted.lasts self.new.reader) ≡ with_reader self.old (hears self.old.reader node body)) }
        ensures back { IfOk result (λ heard. unheard heard self.new ≡ self.old) }
        ensures err { OnErr result (self.new ≡ self.old) }
    {
        let noted = self.note(node, &body)?;
        let missed = self.miss(node, &body);
        let replaced = self.held.hold(node, body);
        Ok(Heard {
            noted,
            missed,
            replaced,
        })
    }

    // Takes back what was heard.
    fn unhear(&mut self, heard: Heard)
        ensures { self.new ≡ unheard heard self.old }
    {
        self.held.restore(heard.replaced);
        if let Some(Missed { node, epoch }) = heard.missed {
            self.missing.exchange(node, epoch);
        }
        self.told.truncate(heard.noted.told);
    }

    /// Takes a node's answer, and answers the items that follow from all answers that are held:
    /// first the loss of the next number, where this answer confirms it, then each item that a row
    /// of the table gives. Then the lost nodes are asked once more, where the table says so; or all
    /// nodes are asked anew, where it says that; or else the nodes are asked under a new round, where
    /// there was an item, the reader isn't finished, no confirmation lasts, and no page that is held
    /// reaches the next number. Each such round begins with a look at the epoch that the next number
    /// belongs to, and asks the nodes that the register shows.
    ///
    /// Before a loss that is confirmed there is a look too. A look that shows another count of swaps
    /// than the last one drops all that is held, and answers of the rounds before it are not taken any
    /// more: where it comes before a loss, a round over all nodes begins, and no item is given; and
    /// where lost nodes were to be asked once more, all nodes are asked instead, under two rounds where
    /// an item came before and two are left. One call makes at most one look at each epoch.
    ///
    /// A message does nothing to a reader that is finished, where it comes from no node, or where its
    /// round is one whose answers are not taken any more; then no look is made. Each ask is a message
    /// that a frame can carry.
    ///
    /// It is refused with `Register` and `Failed` or `Damaged` exactly as the look is, and only where
    /// one was due: before a loss that is confirmed, or with a round, which would have begun whatever
    /// the look showed. It is refused when out of memory too. Then no item is given, nothing is sent,
    /// and the reader is as it was: it doesn't hold the answer. A look changes nothing of the register.
    pub fn on_reply<G: Register>(
        &mut self,
        alloc: Global,
        msg: &Msg,
        reg: &mut G,
        out: &mut Outbox,
    ) -> Result<Items, ReaderFault>
        ensures exact { (c : Contents) → G.tells reg.old c
            → IfOk result (λ items. HasDone self.old self.new items out.old out.new (replied (looks_of self.old c) self.old msg.now) × G.tells reg.new c) }
        ensures foretold { (c : Contents) → G.tells reg.old c → IfErr result (λ fault. (fault ≡ ReaderFault.NoMemory) × G.tells reg.new c) }
        ensures held { (c : Contents) → G.holds reg.old c
            → IfOk result (λ items. HasDone self.old self.new items out.old out.new (replied (looks_of self.old c) self.old msg.now) × G.holds reg.new c) }
        ensures acted { IfOk result (λ items. (looks : ℕ → Shown) × AreLooks self.old looks × HasDone self.old self.new items out.old out.new (replied looks self.old msg.now)) }
        ensures tiles { IfOk result (λ items. Tiles self.old.reader.next items self.new.reader.next) }
        ensures within { OnOk result (self.new.reader.next ≤ self.old.reader.until + 1) }
        ensures reader_err { OnErr result (self.new ≡ self.old) }
        ensures sent_err { OnErr result (out.new ≡ out.old) }
        ensures idle { (is_finished self.old.reader ≡ true) ⊎ ((node : ℕ) → msg.now.from ≢ whos.Node node) ⊎ (nat_lt (round_told msg.now.body) self.old.reader.least ≡ true)
            → IsOk result × (reg.new ≡ reg.old) }
        ensures due { (fault : RegisterFault) → IsErrOf result (ReaderFault.Register fault)
            → (confirms_next self.old msg.now ≡ true) ⊎ ((looks : ℕ → Shown) → self.old.reader.round < (replied looks self.old msg.now).reader.round) }
        ensures looked { confirms_next self.old msg.now ≡ true → G.told reg.old → OnOk result ((c : Contents) × G.holds reg.old c) }
        ensures whole { G.told reg.old → OnOk result (((self.new.reader.round ≡ self.old.reader.round) × (self.new.reader.seen ≡ self.old.reader.seen)) ⊎ ((c : Contents) × G.holds reg.old c)) }
        ensures told { G.told reg.old → G.told reg.new }
        ensures same { (c : Contents) → G.may_hold reg.new c → G.may_hold reg.old c }
        ensures survives { (cs : List Contents) → G.told reg.old → G.leaves reg.old cs → G.leaves reg.new cs }
        ensures keeps { IsErrOf result (ReaderFault.Register registers.Failed) ⊎ Keeps (G.holds reg.old) (G.holds reg.new) (G.may_hold reg.old) (G.may_hold reg.new) }
        ensures failed { IsErrOf result (ReaderFault.Register registers.Failed) → Rose (G.faults reg.old) (G.faults reg.new) }
        ensures steady { IsErrOf result (ReaderFault.Register registers.Failed) ⊎ (G.faults reg.new ≡ G.faults reg.old) }
        ensures damaged { (place : ℕ) → IsErrOf result (ReaderFault.Register (registers.Damaged place)) → G.told reg.old → G.damaged reg.old place }
        ensures refused { IfErr result IsOfLook }
        ensures counts { G.faults reg.old ≤ G.faults reg.new }
        ensures itself { G.identity reg.new ≡ G.identity reg.old }
        ensures messages { All IsMessage out.old → All IsMessage out.new }
    {
        if self.finished() {
            return Ok(Items::empty(alloc));
        }
        let Who::Node(node) = msg.from else {
            return Ok(Items::empty(alloc));
        };
        if self.is_stale(&msg.body) {
            return Ok(Items::empty(alloc));
        }
        let body = msg.body.copy(alloc)?;
        let heard = self.hear(node, body)?;
        match self.react(alloc, heard.noted.lasts, reg, out) {
            Ok(items) => Ok(items),
            Err(refused) => {
                self.unhear(heard);
                Err(refused)
            }
        }
    }
}
