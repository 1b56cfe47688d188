// Rounds that a reader begins.
ghost use Rattle.std.specs.Prelude.{◌≡◌, ◌≤◌, ◌<◌, ◌+◌, ◌-◌, ◌++◌, false, OnOk, OnErr, All};
ghost use Rattle.ld_ids.specs.Set.{members};
ghost use Rattle.ld_msg.specs.Bounds.{IsMessage};
ghost use Rattle.ld_msg.specs.Reader.{senders_of, last_round, is_finished};
ghost use Rattle.ld_reader.specs.Course.{placed};
ghost use Rattle.ld_reader.specs.Following.{messages_from, with_reader};
ghost use Rattle.ld_reader.specs.Place.{is_past};
ghost use Rattle.ld_reader.specs.Rounds.{round_on, round_of, asks_twice, begun, begun_over, begun_again, begun_asks, begun_anew, anew_asks};

use crate::Reader;
use crate::asked::Asked;
use crate::asks::Ask;
use crate::place::Place;
use crate::reader::LAST_ROUND;
use crate::round::Round;
use crate::seen::{Seen, sees_swap};
use crate::senders::Senders;
use ld_gap::{Held, Lost};
use ld_ids::{NoMemory, NodeSet};
use ld_msg::Outbox;
use std::alloc::Global;

impl Reader {
    // Who is to send each payload in a round that begins at an offset with this look, where one node is
    // to: none where all nodes are to send (`full`).
    fn senders_at(&self, place: &Place, seen: &Seen, full: bool) -> Option<Senders>
        requires { is_past place.now ≡ false }
        ensures { result ≡ senders_of full seen.now (placed self.now.reader place.now false) }
    {
        if full || !self.is_single() {
            return None;
        }
        self.missing.senders(&seen.nodes(), place.epoch())
    }

    // Asks the nodes for the next number of a place, in the next round, and where it is `twice` in the
    // one after it too. Without memory nothing is sent.
    fn send(
        &self,
        alloc: Global,
        place: &Place,
        nodes: &NodeSet,
        senders: Option<Senders>,
        twice: bool,
        out: &mut Outbox,
    ) -> Result<(), NoMemory>
        requires unfinished { is_past place.now ≡ false }
        requires round { round_on twice self.now.reader.round ≤ last_round }
        ensures ok { OnOk result (out.new ≡ out.old ++ messages_from self.now.reader.number self.now.reader.log
            (asks_twice twice senders (self.now.reader.round + 1) place.now.next (members nodes.now))) }
        ensures err { OnErr result (out.new ≡ out.old) }
        ensures messages { All IsMessage out.old → All IsMessage out.new }
    {
        if let Some(from) = place.next() {
            let ask = Ask {
                reader: self.number,
                log: self.first.log,
                from,
                senders,
            };
            ask.send_each(alloc, nodes, self.round + 1, twice, out)?;
        }
        Ok(())
    }

    // Begins a round over all nodes that a look showed, at the place where it was made. Where it shows
    // that sets have changed, nothing is held any more. Without memory nothing is sent, and the reader
    // is as it was.
    pub(crate) fn begin_over(
        &mut self,
        alloc: Global,
        place: Place,
        seen: Seen,
        full: bool,
        twice: bool,
        out: &mut Outbox,
    ) -> Result<(), NoMemory>
        requires unfinished { is_past place ≡ false }
        requires round { round_on twice self.old.reader.round ≤ last_round }
        ensures reader { OnOk result (self.new ≡ with_reader self.old (begun_over seen full twice (placed self.old.reader place false))) }
        ensures sent { OnOk result (out.new ≡ out.old ++ messages_from self.old.reader.number self.old.reader.log
            (asks_twice twice (senders_of full seen (placed self.old.reader place false)) (self.old.reader.round + 1) place.next (members seen.spec.set))) }
        ensures reader_err { OnErr result (self.new ≡ self.old) }
        ensures sent_err { OnErr result (out.new ≡ out.old) }
        ensures messages { All IsMessage out.old → All IsMessage out.new }
    {
        let senders = self.senders_at(&place, &seen, full);
        self.send(alloc, &place, &seen.nodes(), senders, twice, out)?;
        if sees_swap(&self.seen, &seen) {
            self.held = Held::nothing();
            self.least = self.round + 1;
        }
        self.round += if twice { 2 } else { 1 };
        self.place = place;
        self.asked = None;
        self.seen = Some(seen);
        self.senders = senders;
        Ok(())
    }

    // Begins a round over lost nodes, which are asked once more. Without memory nothing is sent, and
    // the reader is as it was.
    fn begin_again(
        &mut self,
        alloc: Global,
        place: Place,
        seen: Seen,
        lost: Lost,
        out: &mut Outbox,
    ) -> Result<(), NoMemory>
        requires unfinished { is_past place ≡ false }
        requires round { self.old.reader.round < last_round }
        ensures reader { OnOk result (self.new ≡ with_reader self.old (begun_again seen lost (placed self.old.reader place false))) }
        ensures sent { OnOk result (out.new ≡ out.old ++ messages_from self.old.reader.number self.old.reader.log
            (begun_asks seen (Round.Again lost) (placed self.old.reader place false))) }
        ensures reader_err { OnErr result (self.new ≡ self.old) }
        ensures sent_err { OnErr result (out.new ≡ out.old) }
        ensures messages { All IsMessage out.old → All IsMessage out.new }
    {
        self.send(alloc, &place, &lost.nodes(), None, false, out)?;
        self.round += 1;
        self.place = place;
        self.told.clear();
        self.asked = Some(Asked {
            round: self.round,
            lost,
        });
        self.seen = Some(seen);
        self.senders = None;
        Ok(())
    }

    // Begins a round at the place where its look was made. Without memory nothing is sent, and the
    // reader is as it was.
    pub(crate) fn begin(
        &mut self,
        alloc: Global,
        place: Place,
        seen: Seen,
        round: Round,
        out: &mut Outbox,
    ) -> Result<(), NoMemory>
        requires unfinished { is_past place ≡ false }
        requires round { round_of round self.old.reader.round ≤ last_round }
        ensures reader { OnOk result (self.new ≡ with_reader self.old (begun seen round (placed self.old.reader place false))) }
        ensures sent { OnOk result (out.new ≡ out.old ++ messages_from self.old.reader.number self.old.reader.log
            (begun_asks seen round (placed self.old.reader place false))) }
        ensures reader_err { OnErr result (self.new ≡ self.old) }
        ensures sent_err { OnErr result (out.new ≡ out.old) }
        ensures messages { All IsMessage out.old → All IsMessage out.new }
    {
        match round {
            Round::Over { full, twice } => self.begin_over(alloc, place, seen, full, twice, out),
            Round::Again(lost) => self.begin_again(alloc, place, seen, lost, out),
        }
    }

    // Begins a round over all nodes that a look at the next number's epoch showed, unless none is left.
    // This ends a confirmation. Without memory nothing is sent, and the reader is as it was.
    pub(crate) fn begin_anew(
        &mut self,
        alloc: Global,
        seen: Seen,
        out: &mut Outbox,
    ) -> Result<(), NoMemory>
        requires { is_finished self.old.reader ≡ false }
        ensures reader { OnOk result (self.new ≡ with_reader self.old (begun_anew seen self.old.reader)) }
        ensures sent { OnOk result (out.new ≡ out.old ++ messages_from self.old.reader.number self.old.reader.log (anew_asks seen self.old.reader)) }
        ensures reader_err { OnErr result (self.new ≡ self.old) }
        ensures sent_err { OnErr result (out.new ≡ out.old) }
        ensures messages { All IsMessage out.old → All IsMessage out.new }
    {
        if self.round == LAST_ROUND {
            self.asked = None;
            return Ok(());
        }
        let place = self.place.copy();
        self.begin_over(alloc, place, seen, false, false, out)
    }
}
