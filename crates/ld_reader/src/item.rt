// Items.
ghost use Rattle.std.specs.Prelude.{◌≡◌, ◌++◌, ◌∷◌, ◌==◌, [], OnOk, OnErr, IfOk, length};
ghost use Rattle.ld_lsn.specs.Number.{epoch_end};
ghost use Rattle.ld_msg.specs.Reader.{item_end};
ghost use Rattle.ld_gap.specs.Shown.{shown_item as given_item};
ghost use Rattle.ld_reader.specs.Clipped.{clip, clipped};
ghost use Rattle.ld_reader.specs.Shown.{shown_item};

use crate::round::Ending;
use ld_ids::{NoMemory, Payload};
use ld_lsn::Lsn;
use std::alloc::Global;
use std::marker::Model;

/// What stands at a number of a log, or from a number on.
#[derive(Drop)]
pub enum Item {
    /// All up to this number is trimmed.
    Trim(Lsn),
    /// A record.
    Record(Payload),
    /// No record.
    Hole,
    /// No record up to this number, past the last one of an epoch.
    Bridge(Lsn),
    /// Nobody has the number's record any more, if there was one.
    Loss,
    /// Nobody has a record any more up to this number, past the last one that is known of an epoch,
    /// if there were any.
    LossTo(Lsn),
}

// The last number of an epoch, or `until` where the epoch goes past it.
fn last_within(epoch: u32, until: Lsn) -> Lsn
    ensures { result ≡ clip until (epoch_end epoch) }
{
    if epoch < until.epoch() {
        Lsn::epoch_end(epoch)
    } else {
        until
    }
}

impl Item {
    /// The item, with a record's payload of its own, and no further than `until`.
    pub fn owned(alloc: Global, item: ld_gap::Item, until: Lsn) -> Result<Item, NoMemory>
        ensures { IfOk result (λ owned. shown_item owned ≡ clipped until (given_item item.entry)) }
    {
        match item {
            ld_gap::Item::Trim(last) => Ok(Item::Trim(last.min(until))),
            ld_gap::Item::Record(payload) => Ok(Item::Record(payload.copy(alloc)?)),
            ld_gap::Item::Hole => Ok(Item::Hole),
            ld_gap::Item::Bridge(epoch) => Ok(Item::Bridge(last_within(epoch, until))),
            ld_gap::Item::Loss => Ok(Item::Loss),
            ld_gap::Item::LossTo(epoch) => Ok(Item::LossTo(last_within(epoch, until))),
        }
    }

    /// The last number of the item, where it stands from this number on.
    pub fn last(&self, from: Lsn) -> Lsn
        ensures { result ≡ item_end from (shown_item self.now) }
    {
        match self {
            Item::Trim(last) | Item::Bridge(last) | Item::LossTo(last) => *last,
            Item::Record(_) | Item::Hole | Item::Loss => from,
        }
    }
}

/// What follows from the answers that a reader holds.
#[derive(Drop)]
pub enum Step {
    /// The next item.
    Gives(Item),
    /// No item.
    Ends(Ending),
}

/// An item, and the number from which it stands.
#[derive(Drop)]
pub struct Given {
    pub from: Lsn,
    pub item: Item,
}

impl Model for Given {
    ghost use Rattle.std.specs.Prelude.{ℕ};
    ghost use Rattle.ld_msg.specs.Reading.{Item};
    ghost use Rattle.ld_reader.specs.Shown.{shown_item};

    ghost Value = { ℕ × Item };

    ghost view = { λ given. (given.from, shown_item given.item) };
}

/// Items in the order of their numbers. None passes the last number that its reader wants.
#[derive(Drop)]
pub struct Items {
    list: Vec<Given>,
}

impl Model for Items {
    ghost use Rattle.std.specs.Prelude.{List, ℕ};
    ghost use Rattle.ld_msg.specs.Reading.{Item};

    ghost Value = { List (ℕ × Item) };

    ghost view = { λ items. items.list.items };
}

impl Items {
    /// None.
    pub fn empty(alloc: Global) -> Items
        ensures { result ≡ [] }
    {
        Items {
            list: Vec::new(alloc),
        }
    }

    /// All of them, in order.
    pub fn as_slice(&self) -> &[Given]
        ensures { result.now ≡ self.now }
    {
        &self.list
    }

    /// The same as a vector, without taking memory.
    pub fn into_vec(self) -> Vec<Given>
        ensures { result.items ≡ self }
    {
        self.list
    }

    /// How many there are.
    pub fn len(&self) -> usize
        ensures { result ≡ length self.now }
    {
        self.list.len()
    }

    /// Whether there are none.
    pub fn is_empty(&self) -> bool
        ensures { result ≡ (length self.now == 0) }
    {
        self.list.is_empty()
    }

    /// Adds one at the end. Without memory nothing changes.
    pub fn push(&mut self, from: Lsn, item: Item) -> Result<(), NoMemory>
        ensures ok { OnOk result (self.new ≡ self.old ++ (from, shown_item item) ∷ []) }
        ensures err { OnErr result (self.new ≡ self.old) }
    {
        self.list.push(Given { from, item })?;
        Ok(())
    }
}
