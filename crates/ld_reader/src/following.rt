// What follows from the answers that a reader holds.
ghost use Rattle.std.specs.Prelude.{◌≡◌, ◌≤◌, ◌<◌, ◌++◌, ◌⊎◌, ◌&&◌, not, true, false, IfOk, IfErr, OnOk, OnErr, IsErrOf, All, ℕ, List};
ghost use Rattle.ld_io.specs.Causes.{Rose};
ghost use Rattle.ld_table.specs.Words.{any_of};
ghost use Rattle.ld_msg.specs.Bounds.{IsMessage};
ghost use Rattle.ld_msg.specs.Register.{Register as Contents, View as Shown};
ghost use Rattle.ld_msg.specs.Reader.{is_finished, is_confirmed as all_told, verdict, may_confirm as may_confirm_in, is_confirming, reaches, misses, heard_on};
ghost use Rattle.ld_register.specs.Calls.{Keeps};
ghost use Rattle.ld_register.specs.declared.fault.RegisterFault.{RegisterFault};
ghost use Rattle.ld_register.specs.declared.fault.RegisterFault.TheVariants as registers;
ghost use Rattle.ld_reader.specs.Clipped.{all_clipped, clipped_verdict};
ghost use Rattle.ld_reader.specs.Course.{lasting, on_course, sets_out, followed};
ghost use Rattle.ld_reader.specs.Faults.{IsOfLook};
ghost use Rattle.ld_reader.specs.Following.{read_so_far, with_reader, HasDone};
ghost use Rattle.ld_reader.specs.Given.{given, after};
ghost use Rattle.ld_reader.specs.Looks.{looks_of, AreLooks, WasMade, WasShown};
ghost use Rattle.ld_reader.specs.Place.{is_past};
ghost use Rattle.ld_reader.specs.Rounds.{ended, begins as begins_round, stayed, round_after};
ghost use Rattle.ld_reader.specs.Shown.{shown_step};

use crate::course::Course;
use crate::item::Step;
use crate::reader::LAST_ROUND;
use crate::round::{Ending, Round};
use crate::seen::{Seen, has_seen, seen_nodes, sees_swap};
use crate::{Item, Items, Reader, ReaderFault};
use ld_gap::{Verdict, decide};
use ld_ids::NoMemory;
use ld_lsn::Lsn;
use ld_msg::Outbox;
use ld_register::Register;
use std::alloc::Global;
use std::mem;

impl Reader {
    // Whether all nodes that were asked once more are lost still.
    fn is_confirmed(&self) -> bool
        ensures { result ≡ all_told self.now.reader.confirming }
    {
        match &self.asked {
            Some(asked) => asked.are_all_in(&self.told),
            None => false,
        }
    }

    // Whether the loss of the next number is confirmed, where the confirmation `lasts`.
    fn confirms_loss(&self, lasts: bool) -> bool
        ensures { result ≡ all_told (lasting lasts self.now.reader).confirming }
    {
        lasts && self.is_confirmed()
    }

    // Takes this as what the last look showed, and gives back what did before.
    fn see(&mut self, seen: Option<Seen>) -> Option<Seen>
        ensures now { self.new ≡ with_reader self.old (record self.old.reader { seen = seen }) }
        ensures before { result ≡ self.old.reader.seen }
    {
        mem::replace(&mut self.seen, seen)
    }

    // The way begins with the loss of the next number, where it is confirmed.
    fn set_out(&self, alloc: Global, lasts: bool) -> Result<Course, NoMemory>
        requires { is_finished self.now.reader ≡ false }
        ensures reader { IfOk result (λ course. on_course self.now.reader course ≡ (sets_out (lasting lasts self.now.reader)).reader) }
        ensures items { IfOk result (λ course. course.items ≡ all_clipped self.now.reader.until (sets_out (lasting lasts self.now.reader)).items) }
        ensures next { 0 < self.now.reader.next }
    {
        let mut course = Course {
            place: self.place.copy(),
            confirming: lasts,
            items: Items::empty(alloc),
        };
        if self.confirms_loss(lasts) {
            course.give(Item::Loss)?;
        }
        Ok(course)
    }

    // Whether a confirmation lasts there.
    fn confirms_on(&self, course: &Course) -> bool
        ensures { result ≡ is_confirming (on_course self.now.reader course.now).confirming }
    {
        course.confirming && self.asked.is_some()
    }

    // Whether lost nodes may be asked once more there.
    fn may_confirm(&self, course: &Course) -> bool
        requires { is_past course.now.place ≡ false }
        ensures { result ≡ may_confirm_in (on_course self.now.reader course.now) }
    {
        !self.confirms_on(course)
            && self.round < LAST_ROUND
            && has_seen(&self.seen, course.place.epoch())
    }

    // Whether the node that is to send the number in this round lacks it.
    fn misses(&self, number: Lsn) -> bool
        ensures { result ≡ misses (record self.now.reader { next = number }) self.now.reader.senders }
    {
        match &self.senders {
            Some(senders) => self
                .held
                .lacks_copy(self.round, number, senders.sender(number)),
            None => false,
        }
    }

    // What follows there from the answers that are held.
    fn step(&self, alloc: Global, course: &Course) -> Result<Step, NoMemory>
        ensures step { IfOk result (λ step. shown_step step ≡ clipped_verdict course.now.place.until
            (verdict (on_course self.now.reader course.now))) }
        ensures next { 0 < course.now.place.next }
    {
        let Some(next) = course.place.next() else {
            return Ok(Step::Ends(Ending::NotYet));
        };
        let misses = self.misses(next);
        let may_confirm = self.may_confirm(course);
        match decide(
            next,
            misses,
            may_confirm,
            &seen_nodes(&self.seen),
            &self.held,
        ) {
            Verdict::Gives(item) => Ok(Step::Gives(Item::owned(
                alloc,
                item,
                course.place.until(),
            )?)),
            Verdict::Confirms(lost) => Ok(Step::Ends(Ending::Confirms(lost))),
            Verdict::AsksAll => Ok(Step::Ends(Ending::AsksAll)),
            Verdict::NotYet => Ok(Step::Ends(Ending::NotYet)),
        }
    }

    // Gives items while a row of the table gives one, and answers what follows then.
    fn give_all(&self, alloc: Global, course: &mut Course) -> Result<Ending, NoMemory>
        ensures reader { OnOk result (on_course self.now.reader course.new ≡ after (on_course self.now.reader course.old)) }
        ensures items { OnOk result (course.new.items ≡ course.old.items
            ++ all_clipped course.old.place.until (given (on_course self.now.reader course.old))) }
        ensures ending { IfOk result (λ ending. verdict (after (on_course self.now.reader course.old)) ≡ ended ending) }
    {
        'rows: loop {
            match self.step(alloc, course)? {
                Step::Gives(item) => course.give(item)?,
                Step::Ends(ending) => return Ok(ending),
            }
        }
    }

    // Whether a number is left there, no confirmation lasts, and no page that is held reaches it.
    fn lacks_pages(&self, course: &Course) -> bool
        ensures { result ≡ (not (is_finished (on_course self.now.reader course.now)) && (not (is_confirming (on_course self.now.reader course.now).confirming)
            && not (any_of (λ h. reaches course.now.place.next h.1.body) self.now.reader.held))) }
    {
        match course.place.next() {
            Some(next) => !self.confirms_on(course) && !self.held.reaches(next),
            None => false,
        }
    }

    // Whether a round begins there.
    fn begins(&self, course: &Course, ending: &Ending) -> bool
        ensures { result ≡ begins_round ending.now (read_so_far (on_course self.now.reader course.now) course.now.items) }
    {
        match ending {
            Ending::Confirms(_) => true,
            Ending::AsksAll => self.round < LAST_ROUND,
            Ending::NotYet => {
                !course.items.is_empty() && self.lacks_pages(course) && self.round < LAST_ROUND
            }
        }
    }

    // Goes there without a round.
    fn settle(&mut self, course: &Course, ending: &Ending)
        ensures { self.new ≡ with_reader self.old (stayed ending.now (on_course self.old.reader course.now)) }
    {
        self.place = course.place.copy();
        let ends = match ending {
            Ending::AsksAll => true,
            Ending::Confirms(_) | Ending::NotYet => !course.confirming,
        };
        if ends {
            self.asked = None;
        }
    }

    // The round that begins, by its look and whether an item came before.
    fn round_after(&self, ending: Ending, seen: &Seen, gave: bool) -> Round
        ensures { result ≡ round_after ending seen.now gave self.now.reader }
    {
        match ending {
            Ending::Confirms(lost) => {
                if sees_swap(&self.seen, seen) {
                    Round::Over {
                        full: false,
                        twice: gave && self.round < LAST_ROUND - 1,
                    }
                } else {
                    Round::Again(lost)
                }
            }
            Ending::AsksAll => Round::Over {
                full: true,
                twice: false,
            },
            Ending::NotYet => Round::Over {
                full: false,
                twice: false,
            },
        }
    }

    // Gives what follows from an answer that was heard, and begins the round that it needs. A look
    // that was made before in the same call is the last one.
    fn follow<G: Register>(
        &mut self,
        alloc: Global,
        lasts: bool,
        made: &Option<Seen>,
        reg: &mut G,
        out: &mut Outbox,
    ) -> Result<Items, ReaderFault>
        requires { is_finished self.old.reader ≡ false }
        ensures exact { (c : Contents) → G.tells reg.old c → WasMade (looks_of self.old c) made.now
            → IfOk result (λ items. HasDone self.old self.new items out.old out.new (followed (looks_of self.old c) (lasting lasts self.old.reader)) × G.tells reg.new c) }
        ensures foretold { (c : Contents) → G.tells reg.old c → IfErr result (λ fault. (fault ≡ ReaderFault.NoMemory) × G.tells reg.new c) }
        ensures held { (c : Contents) → G.holds reg.old c → WasMade (looks_of self.old c) made.now
            → IfOk result (λ items. HasDone self.old self.new items out.old out.new (followed (looks_of self.old c) (lasting lasts self.old.reader)) × G.holds reg.new c) }
        ensures acted { WasShown self.old made.now
            → IfOk result (λ items. (looks : ℕ → Shown) × AreLooks self.old looks × WasMade looks made.now × HasDone self.old self.new items out.old out.new (followed looks (lasting lasts self.old.reader))) }
        ensures reader_err { OnErr result (self.new ≡ self.old) }
        ensures sent_err { OnErr result (out.new ≡ out.old) }
        ensures due { (fault : RegisterFault) → IsErrOf result (ReaderFault.Register fault)
            → (looks : ℕ → Shown) → self.old.reader.round < (followed looks (lasting lasts self.old.reader)).reader.round }
        ensures whole { made.now ≡ None → G.told reg.old
            → OnOk result (((self.new.reader.round ≡ self.old.reader.round) × (self.new.reader.seen ≡ self.old.reader.seen)) ⊎ ((c : Contents) × G.holds reg.old c)) }
        ensures told { G.told reg.old → G.told reg.new }
        ensures same { (c : Contents) → G.may_hold reg.new c → G.may_hold reg.old c }
        ensures survives { (cs : List Contents) → G.told reg.old → G.leaves reg.old cs → G.leaves reg.new cs }
        ensures keeps { IsErrOf result (ReaderFault.Register registers.Failed) ⊎ Keeps (G.holds reg.old) (G.holds reg.new) (G.may_hold reg.old) (G.may_hold reg.new) }
        ensures failed { IsErrOf result (ReaderFault.Register registers.Failed) → Rose (G.faults reg.old) (G.faults reg.new) }
        ensures steady { IsErrOf result (ReaderFault.Register registers.Failed) ⊎ (G.faults reg.new ≡ G.faults reg.old) }
        ensures damaged { (place : ℕ) → IsErrOf result (ReaderFault.Register (registers.Damaged place)) → G.told reg.old → G.damaged reg.old place }
        ensures refused { IfErr result IsOfLook }
        ensures counts { G.faults reg.old ≤ G.faults reg.new }
        ensures itself { G.identity reg.new ≡ G.identity reg.old }
        ensures messages { All IsMessage out.old → All IsMessage out.new }
    {
        let mut course = self.set_out(alloc, lasts)?;
        let ending = self.give_all(alloc, &mut course)?;
        if !self.begins(&course, &ending) {
            self.settle(&course, &ending);
            return Ok(course.items);
        }
        let seen = self.look(alloc, &course.place, made, reg)?;
        let round = self.round_after(ending, &seen, !course.items.is_empty());
        self.begin(alloc, course.place, seen, round, out)?;
        Ok(course.items)
    }

    // Gives what follows from an answer that was heard. Where it confirms a loss, there is one more
    // look; and where that shows that sets have changed, a round over all nodes begins instead.
    pub(crate) fn react<G: Register>(
        &mut self,
        alloc: Global,
        lasts: bool,
        reg: &mut G,
        out: &mut Outbox,
    ) -> Result<Items, ReaderFault>
        requires { is_finished self.old.reader ≡ false }
        ensures exact { (c : Contents) → G.tells reg.old c
            → IfOk result (λ items. HasDone self.old self.new items out.old out.new (heard_on (looks_of self.old c) (lasting lasts self.old.reader)) × G.tells reg.new c) }
        ensures foretold { (c : Contents) → G.tells reg.old c → IfErr result (λ fault. (fault ≡ ReaderFault.NoMemory) × G.tells reg.new c) }
        ensures held { (c : Contents) → G.holds reg.old c
            → IfOk result (λ items. HasDone self.old self.new items out.old out.new (heard_on (looks_of self.old c) (lasting lasts self.old.reader)) × G.holds reg.new c) }
        ensures acted { IfOk result (λ items. (looks : ℕ → Shown) × AreLooks self.old looks × HasDone self.old self.new items out.old out.new (heard_on looks (lasting lasts self.old.reader))) }
        ensures reader_err { OnErr result (self.new ≡ self.old) }
        ensures sent_err { OnErr result (out.new ≡ out.old) }
        ensures due { (fault : RegisterFault) → IsErrOf result (ReaderFault.Register fault)
            → (all_told (lasting lasts self.old.reader).confirming ≡ true) ⊎ ((looks : ℕ → Shown) → self.old.reader.round < (heard_on looks (lasting lasts self.old.reader)).reader.round) }
        ensures looked { all_told (lasting lasts self.old.reader).confirming ≡ true → G.told reg.old → OnOk result ((c : Contents) × G.holds reg.old c) }
        ensures whole { G.told reg.old
            → OnOk result (((self.new.reader.round ≡ self.old.reader.round) × (self.new.reader.seen ≡ self.old.reader.seen)) ⊎ ((c : Contents) × G.holds reg.old c)) }
        ensures told { G.told reg.old → G.told reg.new }
        ensures same { (c : Contents) → G.may_hold reg.new c → G.may_hold reg.old c }
        ensures survives { (cs : List Contents) → G.told reg.old → G.leaves reg.old cs → G.leaves reg.new cs }
        ensures keeps { IsErrOf result (ReaderFault.Register registers.Failed) ⊎ Keeps (G.holds reg.old) (G.holds reg.new) (G.may_hold reg.old) (G.may_hold reg.new) }
        ensures failed { IsErrOf result (ReaderFault.Register registers.Failed) → Rose (G.faults reg.old) (G.faults reg.new) }
        ensures steady { IsErrOf result (ReaderFault.Register registers.Failed) ⊎ (G.faults reg.new ≡ G.faults reg.old) }
        ensures damaged { (place : ℕ) → IsErrOf result (ReaderFault.Register (registers.Damaged place)) → G.told reg.old → G.damaged reg.old place }
        ensures refused { IfErr result IsOfLook }
        ensures counts { G.faults reg.old ≤ G.faults reg.new }
        ensures itself { G.identity reg.new ≡ G.identity reg.old }
        ensures messages { All IsMessage out.old → All IsMessage out.new }
    {
        if !self.confirms_loss(lasts) {
            return self.follow(alloc, lasts, &None, reg, out);
        }
        let place = self.place.copy();
        let seen = self.look(alloc, &place, &None, reg)?;
        if sees_swap(&self.seen, &seen) {
            self.begin_anew(alloc, seen, out)?;
            return Ok(Items::empty(alloc));
        }
        let before = self.see(Some(seen));
        match self.follow(alloc, lasts, &Some(seen), reg, out) {
            Ok(items) => Ok(items),
            Err(refused) => {
                self.see(before);
                Err(refused)
            }
        }
    }
}
