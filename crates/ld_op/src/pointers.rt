// Lists of an index's entries.
ghost use Rattle.std.specs.Prelude.{◌≡◌, ◌++◌, ◌∷◌, [], OnOk, OnErr, length};

use crate::pointed::Pointed;
use ld_ids::NoMemory;
use std::alloc::Global;
use std::marker::Model;

/// The entries of a page, their numbers rising, with the places of payloads in place of their bytes.
#[derive(Drop)]
pub struct Pointers {
    list: Vec<Pointed>,
}

impl Model for Pointers {
    ghost use Rattle.std.specs.Prelude.{List};
    ghost use Rattle.ld_msg.specs.declared.msg.Entry.{Entry};

    ghost Value = { List Entry };

    ghost view = { λ pointers. pointers.list.items };
}

impl Pointers {
    /// None.
    pub fn empty(alloc: Global) -> Pointers
        ensures { result ≡ [] }
    {
        Pointers {
            list: Vec::new(alloc),
        }
    }

    /// How many there are.
    pub fn len(&self) -> usize
        ensures { result ≡ length self.now }
    {
        self.list.len()
    }

    /// The same as a slice.
    pub fn as_slice(&self) -> &[Pointed]
        ensures { result.now ≡ self.now }
    {
        &self.list
    }

    /// Adds one at the end. Without memory nothing changes.
    pub fn push(&mut self, one: Pointed) -> Result<(), NoMemory>
        ensures ok { OnOk result (self.new ≡ self.old ++ one ∷ []) }
        ensures err { OnErr result (self.new ≡ self.old) }
    {
        self.list.push(one)?;
        Ok(())
    }
}
