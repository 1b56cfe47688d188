// Frames.
ghost use Rattle.std.specs.Prelude.{◌≡◌, length};
ghost use Rattle.ld_ids.specs.Bytes.{AreBytes};

use std::marker::Model;

/// The bytes of one message.
#[derive(Drop)]
pub struct Frame {
    bytes: Vec<u8>,
}

impl Model for Frame {
    ghost use Rattle.std.specs.Prelude.{List, ℕ};
    ghost use Rattle.ld_ids.specs.Bytes.{AreBytes};

    ghost Value = { List ℕ };

    ghost view = { λ frame. frame.bytes.items };

    ghost invariant = { λ frame. AreBytes frame.bytes.items };
}

impl Frame {
    /// These bytes.
    pub fn new(bytes: Vec<u8>) -> Frame
        ensures { result ≡ bytes.items }
    {
        Frame { bytes }
    }

    /// The bytes.
    pub fn bytes(&self) -> &[u8]
        ensures value { result.now ≡ self.now }
        ensures bytes { AreBytes self.now }
    {
        &self.bytes
    }

    /// How many bytes there are.
    pub fn len(&self) -> usize
        ensures { result ≡ length self.now }
    {
        self.bytes.len()
    }

    /// The bytes, given back as they were moved in.
    pub fn into_bytes(self) -> Vec<u8>
        ensures { result.items ≡ self }
    {
        self.bytes
    }
}
