// The messages of a batch.
ghost use Rattle.std.specs.Prelude.{◌≡◌, ◌≤◌, ◌<◌, ◌+◌, ◌^◌, ◌++◌, ◌∷◌, [], List, ℕ, IfOk, OnOk, OnErr, length};
ghost use Rattle.std.specs.List.{All};
ghost use Rattle.ld_ids.specs.Bytes.{AreBytes};
ghost use Rattle.ld_batch.specs.Batch.{packed};

use crate::pack::{add_message, add_two_bytes};
use ld_ids::{NoMemory, Payload};
use std::alloc::Global;
use std::marker::Model;

/// Messages, in order: any number of them, each of any length.
#[derive(Drop)]
pub struct Messages {
    list: Vec<Payload>,
    /// How many bytes their batch has.
    packed_len: usize,
}

impl Model for Messages {
    ghost use Rattle.std.specs.Prelude.{◌≡◌, List, ℕ, length};
    ghost use Rattle.std.specs.List.{All};
    ghost use Rattle.ld_ids.specs.Bytes.{AreBytes};
    ghost use Rattle.ld_batch.specs.Batch.{packed};

    ghost Value = { List (List ℕ) };

    ghost view = { λ messages. messages.list.items };

    ghost invariant = { λ messages. record { bytes : All AreBytes messages.list.items; packed_len : messages.packed_len ≡ length (packed messages.list.items) } };
}

impl Messages {
    /// None.
    pub fn empty(alloc: Global) -> Messages
        ensures { result ≡ [] }
    {
        Messages {
            list: Vec::new(alloc),
            packed_len: 2,
        }
    }

    /// How many there are.
    pub fn len(&self) -> usize
        ensures { result ≡ length self.now }
    {
        self.list.len()
    }

    /// All of them, in order.
    pub fn as_slice(&self) -> &[Payload]
        ensures value { result.now ≡ self.now }
        ensures bytes { All AreBytes self.now }
    {
        &self.list
    }

    /// How many bytes their batch has, or would have where it is longer than a payload may be.
    pub fn packed_len(&self) -> usize
        ensures { result ≡ length (packed self.now) }
    {
        self.packed_len
    }

    /// Adds one at the end. Without memory nothing changes.
    pub fn push(&mut self, one: Payload) -> Result<(), NoMemory>
        requires { length (packed (self.old ++ one ∷ [])) < 2 ^ 64 }
        ensures ok { OnOk result (self.new ≡ self.old ++ one ∷ []) }
        ensures err { OnErr result (self.new ≡ self.old) }
    {
        let more = one.bytes().len() + 2;
        self.list.push(one)?;
        self.packed_len += more;
        Ok(())
    }

    /// Adds one in front of all others. Without memory nothing changes.
    pub fn push_front(&mut self, one: Payload) -> Result<(), NoMemory>
        requires { length (packed (one ∷ self.old)) < 2 ^ 64 }
        ensures ok { OnOk result (self.new ≡ one ∷ self.old) }
        ensures err { OnErr result (self.new ≡ self.old) }
    {
        let more = one.bytes().len() + 2;
        self.list.insert(0, one)?;
        self.packed_len += more;
        Ok(())
    }

    /// The payload of their batch: how many there are, and the length and the bytes of each.
    pub fn payload(&self, alloc: Global) -> Result<Payload, NoMemory>
        requires { length (packed self.now) ≤ 65535 }
        ensures { IfOk result (λ payload. payload ≡ packed self.now) }
    {
        let mut bytes = Vec::new(alloc);
        add_two_bytes(&mut bytes, self.list.len() as u16)?;
        for message in &self.list {
            add_message(&mut bytes, message.bytes())?;
        }
        Ok(Payload::new(bytes))
    }

    /// The same messages once more.
    pub fn copy(&self, alloc: Global) -> Result<Messages, NoMemory>
        ensures { IfOk result (λ copy. copy ≡ self.now) }
    {
        let mut list = Vec::new(alloc);
        for message in &self.list {
            list.push(message.copy(alloc)?)?;
        }
        Ok(Messages {
            list,
            packed_len: self.packed_len,
        })
    }
}
