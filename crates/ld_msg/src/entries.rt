// Lists of entries.
ghost use Rattle.std.specs.Prelude.{◌≡◌, ◌↔◌, ◌++◌, ◌∷◌, [], IfOk, OnOk, OnErr, IsTrue, length};

use crate::Entry;
use ld_ids::NoMemory;
use std::alloc::Global;
use std::marker::Model;

/// The entries of a page, their numbers rising.
#[derive(Drop)]
pub struct Entries {
    list: Vec<Entry>,
}

impl Model for Entries {
    ghost use Rattle.std.specs.Prelude.{List};
    ghost use Rattle.ld_msg.specs.declared.msg.Entry.{Entry};

    ghost Value = { List Entry };

    ghost view = { λ entries. entries.list.items };
}

impl Entries {
    /// None.
    pub fn empty(alloc: Global) -> Entries
        ensures { result ≡ [] }
    {
        Entries {
            list: Vec::new(alloc),
        }
    }

    /// These.
    pub fn new(list: Vec<Entry>) -> Entries
        ensures { result ≡ list.items }
    {
        Entries { list }
    }

    /// The same as a vector, without taking memory.
    pub fn into_vec(self) -> Vec<Entry>
        ensures { result.items ≡ self }
    {
        self.list
    }

    /// How many there are.
    pub fn len(&self) -> usize
        ensures { result ≡ length self.now }
    {
        self.list.len()
    }

    /// Whether there are none.
    pub fn is_empty(&self) -> bool
        ensures { IsTrue result ↔ (self.now ≡ []) }
    {
        self.list.is_empty()
    }

    /// All of them, in order.
    pub fn as_slice(&self) -> &[Entry]
        ensures { result.now ≡ self.now }
    {
        &self.list
    }

    /// Adds one at the end. Without memory nothing changes.
    pub fn push(&mut self, one: Entry) -> Result<(), NoMemory>
        ensures ok { OnOk result (self.new ≡ self.old ++ one ∷ []) }
        ensures err { OnErr result (self.new ≡ self.old) }
    {
        self.list.push(one)?;
        Ok(())
    }

    /// The same list once more.
    pub fn copy(&self, alloc: Global) -> Result<Entries, NoMemory>
        ensures { IfOk result (λ copy. copy ≡ self.now) }
    {
        let mut list = Vec::new(alloc);
        for one in &self.list {
            list.push(one.copy(alloc)?)?;
        }
        Ok(Entries { list })
    }
}
