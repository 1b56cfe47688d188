// One node's answer.
ghost use Rattle.std.specs.Prelude.{◌≡◌, ◌&&◌, not, is_some, nat_le, option_copied, Option};
ghost use Rattle.ld_lsn.specs.Number.{home_epoch};
ghost use Rattle.ld_msg.specs.Reading.{trim_told, page_at, entry_at, record_of, is_hole, is_plug, is_withheld, sends_nothing, end_shown, lacks, is_lost_for, knows_end_above};
ghost use Rattle.ld_msg.specs.Reader.{round_of, reaches};
ghost use Rattle.ld_gap.specs.Slots.{generation_told};

use ld_ids::Payload;
use ld_lsn::Lsn;
use ld_msg::{Body, Entries, What};
use std::marker::Model;

/// A node's answer, and the round that it is of.
#[derive(Drop)]
pub struct Answer {
    round: u32,
    body: Body,
}

impl Model for Answer {
    ghost use Rattle.ld_msg.specs.Reading.{Held};

    ghost Value = { Held };

    ghost view = { λ answer. record { round = answer.round; body = answer.body } };
}

// What the first entry of this number says.
fn entry_at(number: Lsn, entries: &Entries) -> Option<&What>
    ensures { option_copied result ≡ entry_at number entries.now }
{
    for entry in entries.as_slice() {
        if entry.number == number {
            return Some(&entry.what);
        }
    }
    None
}

// Whether a page from a number to another, with these entries, covers the number and lacks it.
fn passes_over(number: Lsn, from: Lsn, upto: Lsn, entries: &Entries) -> bool
    ensures { result ≡ ((nat_le from number && nat_le number upto) && not (is_some (entry_at number entries.now))) }
{
    from <= number && number <= upto && entry_at(number, entries).is_none()
}

/// The round of an answer to a reader, 0 for any other body.
pub fn round_of(body: &Body) -> u32
    ensures { result ≡ round_of body.now }
{
    match body {
        Body::LostHere { round, .. }
        | Body::ReadPage { round, .. }
        | Body::ReadEnded { round, .. }
        | Body::ReadTrim { round, .. }
        | Body::ReadWait { round, .. } => *round,
        _ => 0,
    }
}

impl Answer {
    /// This answer, of the round that it names.
    pub fn new(body: Body) -> Answer
        ensures { result ≡ record { round = round_of body; body = body } }
    {
        let round = round_of(&body);
        Answer { round, body }
    }

    /// The round.
    pub fn round(&self) -> u32
        ensures { result ≡ self.now.round }
    {
        self.round
    }

    /// The trim that it tells, 0 where it tells none.
    pub fn trim(&self) -> Lsn
        ensures { result ≡ trim_told self.now.body }
    {
        match &self.body {
            Body::ReadTrim { trim, .. } => *trim,
            _ => Lsn::from_u64(0),
        }
    }

    // What its page says of the number.
    fn page_at(&self, number: Lsn) -> Option<&What>
        ensures { option_copied result ≡ page_at number self.now.body }
    {
        match &self.body {
            Body::ReadPage { entries, .. } => entry_at(number, entries),
            _ => None,
        }
    }

    /// The record that its page has under the number.
    pub fn record_at(&self, number: Lsn) -> Option<&Payload>
        ensures { option_copied result ≡ record_of (page_at number self.now.body) }
    {
        match self.page_at(number) {
            Some(What::Rec(payload)) => Some(payload),
            _ => None,
        }
    }

    /// Whether its page has a hole under the number.
    pub fn has_hole_at(&self, number: Lsn) -> bool
        ensures { result ≡ is_hole (page_at number self.now.body) }
    {
        match self.page_at(number) {
            Some(What::Hole) => true,
            _ => false,
        }
    }

    /// Whether its page has a plug under the number.
    pub fn has_plug_at(&self, number: Lsn) -> bool
        ensures { result ≡ is_plug (page_at number self.now.body) }
    {
        match self.page_at(number) {
            Some(What::Plug) => true,
            _ => false,
        }
    }

    /// Whether its page withholds a record under the number.
    pub fn withholds(&self, number: Lsn) -> bool
        ensures { result ≡ is_withheld (page_at number self.now.body) }
    {
        match self.page_at(number) {
            Some(What::Withheld) => true,
            _ => false,
        }
    }

    /// Whether what follows the end of the number's epoch is lost, where it says that the epoch ends
    /// at the number or before it.
    pub fn end_shown(&self, number: Lsn) -> Option<bool>
        ensures { result ≡ end_shown number self.now.body }
    {
        match &self.body {
            Body::ReadEnded { end, loss, .. }
                if end.home().0 == number.home().0 && *end <= number => { Some(*loss) }
            _ => None,
        }
    }

    /// Whether it is a clean page that covers the number and lacks it.
    pub fn lacks(&self, number: Lsn) -> bool
        ensures { result ≡ lacks number self.now.body }
    {
        match &self.body {
            Body::ReadPage {
                from,
                upto,
                clean,
                entries,
                ..
            } => *clean && passes_over(number, *from, *upto, entries),
            _ => false,
        }
    }

    /// Whether its node sends nothing of the number: it is a page, clean or not, that covers the
    /// number and lacks it, or says that the node is lost.
    pub fn sends_nothing(&self, number: Lsn) -> bool
        ensures { result ≡ sends_nothing number self.now.body }
    {
        match &self.body {
            Body::ReadPage {
                from,
                upto,
                entries,
                ..
            } => passes_over(number, *from, *upto, entries),
            Body::LostHere { .. } => true,
            _ => false,
        }
    }

    /// The generation under which the node is lost for the number's epoch.
    pub fn lost_for(&self, number: Lsn) -> Option<u32>
        ensures { result ≡ generation_told number self.now.body }
    {
        match &self.body {
            Body::LostHere {
                number: lost,
                generation,
                ..
            } if lost.home().0 == number.home().0 => Some(*generation),
            _ => None,
        }
    }

    /// Whether it is a page whose range holds the number.
    pub fn reaches(&self, number: Lsn) -> bool
        ensures { result ≡ reaches number self.now.body }
    {
        match &self.body {
            Body::ReadPage { from, upto, .. } => *from <= number && number <= *upto,
            _ => false,
        }
    }

    /// Whether it shows that the number's epoch ends above the number.
    pub fn knows_end_above(&self, number: Lsn) -> bool
        ensures { result ≡ knows_end_above number self.now.body }
    {
        match &self.body {
            Body::LostHere {
                number: lost,
                end,
                ..
            } => lost.home().0 == number.home().0 && number < *end,
            _ => self.lacks(number),
        }
    }
}
