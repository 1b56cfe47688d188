// The maker.
ghost use Rattle.std.specs.Prelude.{◌≡◌, IfOk, OnOk, OnErr};
ghost use Rattle.ld_schedule.specs.Grammar.{IsNamed};
ghost use Rattle.ld_maker.specs.Made.{begin, next_event, next_maker};

use crate::draw::{drawn, value_of};
use crate::event::event_of;
use ld_ids::NoMemory;
use ld_schedule::Event;
use std::alloc::Global;

/// What makes the events behind the first seven, one at a time.
#[derive(Clone, Copy)]
pub struct Maker {
    /// The state that the next draw begins with.
    state: u64,
    /// How many sequencers were activated so far; it stands still at its type's end.
    activations: u32,
}

impl Maker {
    /// The maker of this seed, behind the first seven events.
    pub fn new(seed: u64) -> Maker
        ensures { result ≡ begin seed }
    {
        Maker {
            state: seed,
            activations: 1,
        }
    }

    /// Makes the next event. Without memory nothing is made, and the maker stays as it was.
    pub fn next_event(&mut self, alloc: Global) -> Result<Event, NoMemory>
        ensures event { IfOk result (λ event. event ≡ next_event self.old) }
        ensures named { IfOk result IsNamed }
        ensures next { OnOk result (self.new ≡ next_maker self.old) }
        ensures unchanged { OnErr result (self.new ≡ self.old) }
    {
        let first = drawn(self.state);
        let second = drawn(first);
        let kind = value_of(first) % 100;
        let event = event_of(alloc, kind, value_of(second), self.activations)?;
        self.state = second;
        if 87 <= kind && kind < 89 {
            self.activations = self.activations.saturating_add(1);
        }
        Ok(event)
    }
}
