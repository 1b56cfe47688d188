// How far a reader comes by one answer.
ghost use Rattle.std.specs.Prelude.{◌≡◌, false, OnOk};
ghost use Rattle.ld_reader.specs.Course.{with_item};
ghost use Rattle.ld_reader.specs.Place.{is_past};
ghost use Rattle.ld_reader.specs.Shown.{shown_item};

use crate::place::Place;
use crate::{Item, Items};
use ld_ids::NoMemory;

/// Where a reader comes to, whether its confirmation lasts there, and the items on the way.
#[derive(Drop)]
pub struct Course {
    pub place: Place,
    pub confirming: bool,
    pub items: Items,
}

impl Course {
    /// Gives an item, which ends a confirmation.
    pub fn give(&mut self, item: Item) -> Result<(), NoMemory>
        requires { is_past self.old.place ≡ false }
        ensures { OnOk result (self.new ≡ with_item self.old (shown_item item)) }
    {
        if let Some(from) = self.place.next() {
            let last = item.last(from);
            self.items.push(from, item)?;
            self.place.pass(last);
            self.confirming = false;
        }
        Ok(())
    }
}
