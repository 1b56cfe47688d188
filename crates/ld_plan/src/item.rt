// Plans.
ghost use Rattle.std.specs.Prelude.{◌≡◌, ◌++◌, ◌∷◌, [], OnOk, OnErr, length};

use ld_ids::NoMemory;
use ld_lsn::Lsn;
use ld_msg::What;
use std::alloc::Global;
use std::marker::Model;

/// What is to stand under a number.
#[derive(Drop)]
pub struct Item {
    pub number: Lsn,
    pub what: What,
}

impl Model for Item {
    ghost use Rattle.ld_msg.specs.Digest.{Item};

    ghost Value = { Item };

    ghost view = { λ item. record { number = item.number; what = item.what } };
}

/// What is to stand under the numbers of a plan, in their order.
#[derive(Drop)]
pub struct Items {
    list: Vec<Item>,
}

impl Model for Items {
    ghost use Rattle.std.specs.Prelude.{List};
    ghost use Rattle.ld_msg.specs.Digest.{Item};

    ghost Value = { List Item };

    ghost view = { λ items. items.list.items };
}

impl Items {
    /// None.
    pub fn empty(alloc: Global) -> Items
        ensures { result ≡ [] }
    {
        Items {
            list: Vec::new(alloc),
        }
    }

    /// All of them, in order.
    pub fn as_slice(&self) -> &[Item]
        ensures { result.now ≡ self.now }
    {
        &self.list
    }

    /// The same as a vector, without taking memory.
    pub fn into_vec(self) -> Vec<Item>
        ensures { result.items ≡ self }
    {
        self.list
    }

    /// How many there are.
    pub fn len(&self) -> usize
        ensures { result ≡ length self.now }
    {
        self.list.len()
    }

    /// Adds one at the end. Without memory nothing changes.
    pub fn push(&mut self, number: Lsn, what: What) -> Result<(), NoMemory>
        ensures ok { OnOk result (self.new ≡ self.old ++ record { number = number; what = what } ∷ []) }
        ensures err { OnErr result (self.new ≡ self.old) }
    {
        self.list.push(Item { number, what })?;
        Ok(())
    }
}

/// How an epoch is to be closed: its trim as it was found, its last known good offset, the offset of its
/// bridge, whether it says what is lost, and what is to stand under each number above the first two, the bridge last.
#[derive(Drop)]
pub struct Plan {
    pub trim: Lsn,
    pub lng: u32,
    pub end: u32,
    pub loss: bool,
    pub items: Items,
}

impl Model for Plan {
    ghost use Rattle.ld_msg.specs.Digest.{Plan};

    ghost Value = { Plan };

    ghost view = { λ plan. record { trim = plan.trim; lng = plan.lng; end = plan.end; loss = plan.loss; items = plan.items } };
}
