// A batch that grows.
ghost use Rattle.std.specs.Prelude.{◌≡◌, ◌≤◌, ◌<◌, ◌++◌, ◌∷◌, [], length, IfOk, IfErr, OnOk, OnErr};
ghost use Rattle.ld_batch.specs.Batch.{packed, batch_limit};
ghost use Rattle.ld_batch.specs.Faults.{IsRefused};

use crate::fault::PushFault;
use crate::pack::{add_message, add_two_bytes};
use crate::read::number_at;
use ld_ids::NoMemory;
use std::alloc::Global;
use std::marker::Model;

/// Messages that go into one record, up to 1,024 of them and 65,535 bytes.
#[derive(Drop)]
pub struct Batch {
    /// Their count, and the length and the bytes of each.
    bytes: Vec<u8>,
}

impl Model for Batch {
    ghost use Rattle.std.specs.Prelude.{◌≡◌, ◌≤◌, List, ℕ, length};
    ghost use Rattle.ld_batch.specs.Batch.{packed, messages_in, batch_limit};

    ghost Value = { List (List ℕ) };

    ghost view = { λ batch. messages_in batch.bytes.items };

    ghost invariant = { λ batch. record { is : batch.bytes.items ≡ packed (messages_in batch.bytes.items); most : length (messages_in batch.bytes.items) ≤ batch_limit; short : length batch.bytes.items ≤ 65535 } };
}

impl Batch {
    /// No messages yet.
    pub fn new(alloc: Global) -> Result<Batch, NoMemory>
        ensures { IfOk result (λ batch. batch ≡ []) }
    {
        let mut bytes = Vec::new(alloc);
        add_two_bytes(&mut bytes, 0)?;
        Ok(Batch { bytes })
    }

    /// How many messages there are.
    pub fn len(&self) -> usize
        ensures { result ≡ length self.now }
    {
        match number_at(&self.bytes, 0) {
            Some(count) => usize::from(count),
            None => unreachable!(),
        }
    }

    /// Adds a message at the end. It is refused with `TooLong` and the length that the payload would have exactly where
    /// that is above 65,535 bytes, then with `Full` exactly where there are 1,024 messages, and then when out of memory. A
    /// refused message changes nothing.
    pub fn push(&mut self, message: &[u8]) -> Result<(), PushFault>
        ensures ok { OnOk result (self.new ≡ self.old ++ message.now ∷ []) }
        ensures fits { OnOk result (length (packed self.new) ≤ 65535) }
        ensures most { OnOk result (length self.new ≤ batch_limit) }
        ensures refused { IfErr result (λ fault. IsRefused (length (packed (self.old ++ message.now ∷ []))) (length self.old) fault) }
        ensures same { OnErr result (self.new ≡ self.old) }
    {
        let long = self.bytes.len() + 2 + message.len();
        if long > 65_535 {
            return Err(PushFault::TooLong(long));
        }
        let count = self.len();
        if count == 1_024 {
            return Err(PushFault::Full);
        }
        add_message(&mut self.bytes, message)?;
        let more = count + 1;
        self.bytes[0] = (more / 256) as u8;
        self.bytes[1] = (more % 256) as u8;
        Ok(())
    }

    /// The payload of the record: how many messages there are, and the length and the bytes of each.
    pub fn payload(&self) -> &[u8]
        requires { 1 ≤ length self.now }
        ensures { result.now ≡ packed self.now }
    {
        &self.bytes
    }
}
