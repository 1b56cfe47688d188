// Lists of messages.
ghost use Rattle.std.specs.Prelude.{◌≡◌, ◌↔◌, ◌++◌, ◌∷◌, [], IfOk, OnOk, OnErr, IsTrue, length, take};

use crate::Msg;
use ld_ids::NoMemory;
use std::alloc::Global;
use std::marker::Model;

/// What a sequencer or a reader sends, in the order of sending.
#[derive(Drop)]
pub struct Outbox {
    list: Vec<Msg>,
}

impl Model for Outbox {
    ghost use Rattle.std.specs.Prelude.{List};
    ghost use Rattle.ld_msg.specs.declared.msg.Msg.{Msg};

    ghost Value = { List Msg };

    ghost view = { λ outbox. outbox.list.items };
}

impl Outbox {
    /// None.
    pub fn empty(alloc: Global) -> Outbox
        ensures { result ≡ [] }
    {
        Outbox {
            list: Vec::new(alloc),
        }
    }

    /// These.
    pub fn new(list: Vec<Msg>) -> Outbox
        ensures { result ≡ list.items }
    {
        Outbox { list }
    }

    /// The same as a vector, without taking memory.
    pub fn into_vec(self) -> Vec<Msg>
        ensures { result.items ≡ self }
    {
        self.list
    }

    /// How many there are.
    pub fn len(&self) -> usize
        ensures { result ≡ length self.now }
    {
        self.list.len()
    }

    /// Whether there are none.
    pub fn is_empty(&self) -> bool
        ensures { IsTrue result ↔ (self.now ≡ []) }
    {
        self.list.is_empty()
    }

    /// All of them, in order.
    pub fn as_slice(&self) -> &[Msg]
        ensures { result.now ≡ self.now }
    {
        &self.list
    }

    /// Adds one at the end. Without memory nothing changes.
    pub fn push(&mut self, one: Msg) -> Result<(), NoMemory>
        ensures ok { OnOk result (self.new ≡ self.old ++ one ∷ []) }
        ensures err { OnErr result (self.new ≡ self.old) }
    {
        self.list.push(one)?;
        Ok(())
    }

    /// Keeps so many, from the first one on.
    pub fn truncate(&mut self, count: usize)
        ensures { self.new ≡ take count self.old }
    {
        self.list.truncate(count);
    }

    /// The same list once more.
    pub fn copy(&self, alloc: Global) -> Result<Outbox, NoMemory>
        ensures { IfOk result (λ copy. copy ≡ self.now) }
    {
        let mut list = Vec::new(alloc);
        for one in &self.list {
            list.push(one.copy(alloc)?)?;
        }
        Ok(Outbox { list })
    }
}

/// What a node answers, in the order of sending.
#[derive(Drop)]
pub struct Replies {
    list: Vec<Msg>,
}

impl Model for Replies {
    ghost use Rattle.std.specs.Prelude.{List};
    ghost use Rattle.ld_msg.specs.declared.msg.Msg.{Msg};

    ghost Value = { List Msg };

    ghost view = { λ replies. replies.list.items };
}

impl Replies {
    /// None.
    pub fn empty(alloc: Global) -> Replies
        ensures { result ≡ [] }
    {
        Replies {
            list: Vec::new(alloc),
        }
    }

    /// These.
    pub fn new(list: Vec<Msg>) -> Replies
        ensures { result ≡ list.items }
    {
        Replies { list }
    }

    /// The same as a vector, without taking memory.
    pub fn into_vec(self) -> Vec<Msg>
        ensures { result.items ≡ self }
    {
        self.list
    }

    /// How many there are.
    pub fn len(&self) -> usize
        ensures { result ≡ length self.now }
    {
        self.list.len()
    }

    /// Whether there are none.
    pub fn is_empty(&self) -> bool
        ensures { IsTrue result ↔ (self.now ≡ []) }
    {
        self.list.is_empty()
    }

    /// All of them, in order.
    pub fn as_slice(&self) -> &[Msg]
        ensures { result.now ≡ self.now }
    {
        &self.list
    }

    /// Adds one at the end. Without memory nothing changes.
    pub fn push(&mut self, one: Msg) -> Result<(), NoMemory>
        ensures ok { OnOk result (self.new ≡ self.old ++ one ∷ []) }
        ensures err { OnErr result (self.new ≡ self.old) }
    {
        self.list.push(one)?;
        Ok(())
    }

    /// The same list once more.
    pub fn copy(&self, alloc: Global) -> Result<Replies, NoMemory>
        ensures { IfOk result (λ copy. copy ≡ self.now) }
    {
        let mut list = Vec::new(alloc);
        for one in &self.list {
            list.push(one.copy(alloc)?)?;
        }
        Ok(Replies { list })
    }
}
