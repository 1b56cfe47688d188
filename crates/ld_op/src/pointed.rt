// Entries of an index.
ghost use Rattle.std.specs.Prelude.{◌≡◌, ◌<◌, ◌+◌, ◌^◌, ◌-◌, ◌==◌, length, if◌then◌else◌, false, IfSome, IfNone};
ghost use Rattle.ld_msg.specs.Digest.{is_bridge};
ghost use Rattle.ld_op.specs.Plain.{entry_length, what_length};
ghost use Rattle.ld_op.specs.Answers.{same_what};
ghost use Rattle.ld_table.specs.Words.{numbers_from};
ghost use Rattle.ld_msg.specs.declared.msg.What.TheVariants.{Rec};
ghost use Rattle.ld_op.specs.Cells.{placed_entry, placed_what, is_rec, filled_what};
ghost use Rattle.ld_op.specs.Pointed.{seen_what};
ghost use Rattle.ld_op.specs.Picks.{carried};

use ld_ids::Payload;
use ld_lsn::Lsn;
use ld_msg::{Entry, What};
use std::marker::Model;

/// Where a payload stands on a disk: the offset of its first byte, and how many bytes it has.
#[derive(Clone, Copy)]
pub struct Place {
    pub at: u64,
    pub len: u64,
}

/// What stands under a number.
#[derive(Clone, Copy)]
pub(crate) enum Held {
    /// A record, whose payload stands there.
    Rec(Place),
    /// No record.
    Hole,
    /// No record from here to the end of the epoch.
    Bridge,
    /// Its record is lost, if it had one.
    Plug,
    /// A record that another node sends.
    Withheld,
}

/// What an index holds under a number, and the epoch of the sequencer that sent it. Contracts see it as an entry whose
/// payload is the offsets of its bytes.
#[derive(Drop)]
pub struct Pointed {
    number: Lsn,
    ballot: u32,
    what: Held,
}

impl Model for Pointed {
    ghost use Rattle.ld_msg.specs.declared.msg.Entry.{Entry};
    ghost use Rattle.ld_op.specs.Pointed.{seen_entry};

    ghost Value = { Entry };

    ghost view = { seen_entry };
}

impl Pointed {
    /// An entry whose bytes stand from this offset of a disk on.
    pub fn at(entry: &Entry, at: u64) -> Pointed
        requires { at + entry_length entry.now < 2 ^ 64 }
        ensures { result ≡ placed_entry at entry.now }
    {
        Pointed {
            number: entry.number,
            ballot: entry.ballot,
            what: held_at(&entry.what, at),
        }
    }

    /// An entry with this.
    pub(crate) fn new(number: Lsn, ballot: u32, what: Held) -> Pointed
        ensures { result ≡ record { number = number; ballot = ballot; what = seen_what what } }
    {
        Pointed {
            number,
            ballot,
            what,
        }
    }

    /// What stands under the number.
    pub(crate) fn held(&self) -> Held
        ensures { seen_what result ≡ self.now.what }
    {
        self.what
    }

    /// The number.
    pub fn number(&self) -> Lsn
        ensures { result ≡ self.now.number }
    {
        self.number
    }

    /// The epoch of the sequencer that sent it.
    pub fn ballot(&self) -> u32
        ensures { result ≡ self.now.ballot }
    {
        self.ballot
    }

    /// Where its payload stands, where it is a record.
    pub fn place(&self) -> Option<Place>
        ensures record { IfSome result (λ p. self.now.what ≡ Rec (numbers_from p.at p.len)) }
        ensures other { IfNone result (is_rec self.now.what ≡ false) }
    {
        match self.what {
            Held::Rec(place) => Some(place),
            Held::Hole => None,
            Held::Bridge => None,
            Held::Plug => None,
            Held::Withheld => None,
        }
    }

    /// The entry with this payload, where it is a record.
    pub fn with_payload(&self, payload: Payload) -> Entry
        ensures { result ≡ record { number = self.now.number; ballot = self.now.ballot; what = filled_what payload self.now.what } }
    {
        let what = match self.what {
            Held::Rec(_) => What::Rec(payload),
            Held::Hole => What::Hole,
            Held::Bridge => What::Bridge,
            Held::Plug => What::Plug,
            Held::Withheld => What::Withheld,
        };
        Entry {
            number: self.number,
            ballot: self.ballot,
            what,
        }
    }

    /// Whether it holds this, which is no record.
    pub fn holds(&self, what: &What) -> bool
        requires { is_rec what.now ≡ false }
        ensures { result ≡ same_what self.now.what what.now }
    {
        match (what, self.what) {
            (What::Hole, Held::Hole) => true,
            (What::Bridge, Held::Bridge) => true,
            (What::Plug, Held::Plug) => true,
            _ => false,
        }
    }

    /// Whether it is a bridge.
    pub fn is_bridge(&self) -> bool
        ensures { result ≡ is_bridge self.now.what }
    {
        match self.what {
            Held::Rec(_) => false,
            Held::Hole => false,
            Held::Bridge => true,
            Held::Plug => false,
            Held::Withheld => false,
        }
    }

    /// The same without the place of its payload, where it is a record.
    pub fn withheld(&self) -> Pointed
        ensures { result ≡ carried false self.now }
    {
        let what = match self.what {
            Held::Rec(_) => Held::Withheld,
            other => other,
        };
        Pointed {
            number: self.number,
            ballot: self.ballot,
            what,
        }
    }

    /// The same once more.
    pub fn copy(&self) -> Pointed
        ensures { result ≡ self.now }
    {
        Pointed {
            number: self.number,
            ballot: self.ballot,
            what: self.what,
        }
    }
}

/// What stands under a number, its bytes from this offset of a disk on: thirteen of the entry before it, and two of a
/// payload's length.
fn held_at(what: &What, at: u64) -> Held
    requires { at + 13 + what_length what.now < 2 ^ 64 }
    ensures { seen_what result ≡ placed_what (at + 13) what.now }
{
    match what {
        What::Rec(payload) => Held::Rec(Place {
            at: at + 15,
            len: payload.len() as u64,
        }),
        What::Hole => Held::Hole,
        What::Bridge => Held::Bridge,
        What::Plug => Held::Plug,
        What::Withheld => Held::Withheld,
    }
}

/// How many bytes an entry takes in a record.
pub(crate) fn entry_length(entry: &Entry) -> u64
    requires { entry_length entry.now < 2 ^ 64 }
    ensures { result ≡ entry_length entry.now }
{
    match &entry.what {
        What::Rec(payload) => payload.len() as u64 + 15,
        What::Hole => 13,
        What::Bridge => 13,
        What::Plug => 13,
        What::Withheld => 13,
    }
}
