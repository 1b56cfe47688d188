//! Links: peers that come or are dialed, one after the other, each with bytes in and out, and the faults of a link's calls.
#![tactic(auto)]

ghost use Rattle.std.specs.Prelude.{◌≡◌, ◌<◌, ◌≤◌, ℕ, List, length, IfOk, IfSome, Option};
ghost use Rattle.std.specs.Io.{ReadsAtMost, WritesAtMost};
ghost use Rattle.ld_io.specs.Causes.{HasCause};
ghost use Rattle.ld_past.specs.Events.{Event};
ghost use Rattle.ld_link.specs.Calls.{after_next, after_read, after_write, after_dial};
ghost use Rattle.ld_link.specs.Peers.{Peers, Turns, Reads, Writes, Reaches};

mod borrowed;
mod memory;
mod talk;

use ld_io::Failed;
pub use memory::MemLink;

/// Peers that come one after the other: before the first `next_peer` none is there. A call fails only where the link's
/// own count of faults rose in it, and any other answer leaves that count.
pub trait Link {
    /// What was read of each peer so far and written to it, what is left of each, and which peers are still to come,
    /// where the link tells.
    ghost peers: { Self → Option Peers };

    /// The calls that answered, each with what passed in it, the newest first. Every link tells them.
    ghost did: { Self → List Event };

    /// How often a call has failed, up to the greatest 64-bit number.
    ghost faults: { Self → ℕ };

    /// Makes the next peer the present one, whatever the one before has left to say. It answers false exactly where
    /// there is no next peer, and then the present one stays. A failed call changes no peer.
    fn next_peer(&mut self) -> Result<bool, Failed>
        ensures did { did self.new ≡ after_next result (did self.old) }
        ensures peer { IfSome (peers self.old) (λ old. Turns old (peers self.new) result) }
        ensures cause { HasCause (faults self.old) (faults self.new) result };

    /// Takes the next bytes of the present peer, and says how many. None for a buffer that isn't empty is that peer's
    /// end, or says that none has come. A failed call takes nothing.
    fn read(&mut self, buf: &mut [u8]) -> Result<usize, Failed>
        ensures bound { ReadsAtMost result buf.new }
        ensures did { did self.new ≡ after_read result buf.new (did self.old) }
        ensures bytes { IfSome (peers self.old) (λ old. Reads old (peers self.new) buf.new result) }
        ensures cause { HasCause (faults self.old) (faults self.new) result };

    /// Writes some of the bytes from the front to the present peer, and says how many. To take none of a piece that
    /// isn't empty is a fault. A failed call writes nothing.
    fn write(&mut self, piece: &[u8]) -> Result<usize, Failed>
        ensures bound { WritesAtMost result piece.now }
        ensures some { IfOk result (λ n. 0 < length piece.now → 0 < n) }
        ensures did { did self.new ≡ after_write result piece.now (did self.old) }
        ensures bytes { IfSome (peers self.old) (λ old. Writes old (peers self.new) piece.now result) }
        ensures cause { HasCause (faults self.old) (faults self.new) result };
}

/// A link whose peers can be dialed too, each under a number.
pub trait Dial: Link {
    /// Makes the node of this number the present peer, beside those that are still to come. The one before is past,
    /// whatever it has left to say. A failed call changes no peer.
    fn dial(&mut self, node: u8) -> Result<(), Failed>
        ensures did { Self.did self.new ≡ after_dial result node (Self.did self.old) }
        ensures peer { IfSome (Self.peers self.old) (λ old. Reaches old (Self.peers self.new) result) }
        ensures cause { HasCause (Self.faults self.old) (Self.faults self.new) result };

    /// Waits for so many milliseconds, none for 0. A link over connections ends that of the present peer first, so that
    /// nobody waits for it meanwhile. No byte passes, and before the next read or write a node has to be dialed.
    fn rest(&mut self, milliseconds: u32)
        ensures did { Self.did self.new ≡ Self.did self.old }
        ensures peers { Self.peers self.new ≡ Self.peers self.old }
        ensures faults { Self.faults self.new ≡ Self.faults self.old };

    /// How often a call has failed, up to the greatest 64-bit number.
    fn failures(&self) -> u64
        ensures { result ≡ Self.faults self.now };
}
