// Where a reader stands.
ghost use Rattle.std.specs.Prelude.{◌≡◌, ◌≤◌, ◌<◌, ◌+◌, min, false, IfSome, is_some, not};
ghost use Rattle.ld_lsn.specs.Number.{home_epoch};
ghost use Rattle.ld_reader.specs.Place.{is_past};

use ld_lsn::Lsn;
use std::marker::Model;

/// A reader's next number, where one is left, and its last one.
#[derive(Drop)]
pub struct Place {
    next: Option<Lsn>,
    until: Lsn,
}

impl Model for Place {
    ghost use Rattle.std.specs.Prelude.{◌≤◌};
    ghost use Rattle.std.specs.Option.{ForSome};
    ghost use Rattle.ld_reader.specs.Place.{Place, shown_next};

    ghost Value = { Place };

    ghost view = { λ a. record { next = shown_next a.next a.until; until = a.until } };

    ghost invariant = { λ a. ForSome a.next (λ next. (1 ≤ next) × (next ≤ a.until)) };
}

impl Place {
    /// At the first number.
    pub fn new(from: Lsn, until: Lsn) -> Place
        requires first { 1 ≤ from }
        requires last { from ≤ until }
        ensures { result ≡ record { next = from; until = until } }
    {
        Place {
            next: Some(from),
            until,
        }
    }

    /// The same offset.
    pub fn copy(&self) -> Place
        ensures same { result ≡ self.now }
        ensures first { 0 < self.now.next }
    {
        Place {
            next: self.next,
            until: self.until,
        }
    }

    /// The last number.
    pub fn until(&self) -> Lsn
        ensures { result ≡ self.now.until }
    {
        self.until
    }

    /// The next number, where one is left.
    pub fn next(&self) -> Option<Lsn>
        ensures left { is_some result ≡ not (is_past self.now) }
        ensures next { IfSome result (λ next. next ≡ self.now.next) }
        ensures first { 0 < self.now.next }
        ensures last { self.now.next ≤ self.now.until + 1 }
    {
        self.next
    }

    /// The next number, and the one behind the last where none is left.
    pub fn next_number(&self) -> u128
        ensures { result ≡ self.now.next }
    {
        match self.next {
            Some(next) => u128::from(next.value()),
            None => u128::from(self.until.value()) + 1,
        }
    }

    /// Whether none is left.
    pub fn is_past(&self) -> bool
        ensures past { result ≡ is_past self.now }
        ensures first { 0 < self.now.next }
        ensures last { self.now.next ≤ self.now.until + 1 }
    {
        self.next.is_none()
    }

    /// The epoch that the next number belongs to.
    pub fn epoch(&self) -> u32
        requires { is_past self.now ≡ false }
        ensures { result ≡ home_epoch self.now.next }
    {
        match self.next {
            Some(next) => next.home().0,
            None => 0,
        }
    }

    /// Goes behind a number.
    pub fn pass(&mut self, number: Lsn)
        ensures { self.new ≡ record { next = min number self.old.until + 1; until = self.old.until } }
    {
        self.next = if number < self.until {
            number.next()
        } else {
            None
        };
    }
}
