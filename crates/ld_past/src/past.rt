// A list of calls that only clauses read.
ghost use Rattle.std.specs.Prelude.{◌≡◌, List, [], ◌∷◌};
ghost use Rattle.std.specs.Borrow.{ftrue};
ghost use Rattle.ld_past.specs.Events.{Event, event_of};

use std::marker::{Model, PhantomData};

/// The calls on an object of the environment with their answers, the newest first. No memory holds it.
#[derive(Drop)]
pub struct Past {
    marker: PhantomData<u8>,
    pub ghost events: { List Event },
}

impl Model for Past {
    ghost also_owns = { λ _. ftrue };
}

impl Past {
    /// No call yet.
    pub fn new() -> Past
        ensures { result.events ≡ [] }
    {
        Past {
            marker: PhantomData,
        }
    }

    /// One call more: its numbers and its bytes.
    pub fn note(&mut self, _numbers: &[u64], _bytes: &[u8])
        ensures { self.new.events ≡ event_of _numbers.now _bytes.now ∷ self.old.events }
    {}
}
