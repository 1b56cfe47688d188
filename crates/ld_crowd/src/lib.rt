//! Crowds: peers that are there at once, each with bytes in and out.
#![tactic(auto)]

ghost use Rattle.std.specs.Prelude.{◌≡◌, ◌∷◌, ℕ, List, length, IfSome, Option};
ghost use Rattle.ld_io.specs.Causes.{HasCause};
ghost use Rattle.ld_past.specs.Events.{Event};
ghost use Rattle.ld_crowd.specs.Calls.{after_turn, after_read, after_say, IsNamed, HeardAtMost, finished, dismissed};
ghost use Rattle.ld_crowd.specs.Left.{Hears};

mod borrowed;
mod laws;
mod memory;
mod news;
mod seat;

pub use laws::{one_after_the_other, one_frame_more};
use ld_io::{Failed, NoMemory};
pub use memory::{MemCrowd, Step};
pub use news::News;

/// Whose turn it is.
#[derive(Clone, Copy, PartialEq, Eq)]
pub enum Turn {
    /// This peer came.
    Came(u64),
    /// There may be something to read of this peer.
    Of(u64),
    /// This peer was silent for too long, and was dismissed for it.
    Silent(u64),
    /// Nobody's: for now, or for good where the crowd was free to wait.
    Nobody,
}

/// What a read of a peer gave.
#[derive(Clone, Copy, PartialEq, Eq)]
pub enum Heard {
    /// So many bytes, at least one.
    Some(usize),
    /// None yet.
    Later,
    /// It has ended: nothing more will come of it.
    End,
}

/// Peers of which several are there at once. The number of each is its place in the order of coming, so none is used
/// twice. A call fails only where the crowd's own count of faults rose in it, and any other answer leaves that count.
pub trait Crowd {
    /// What each peer has yet to say by its number, those who are still to come among them, where the crowd tells.
    ghost left: { Self → Option (List (List ℕ)) };

    /// The calls that answered, each with what passed in it, the newest first. Every crowd tells them.
    ghost did: { Self → List Event };

    /// How often a call has failed, up to the greatest 64-bit number.
    ghost faults: { Self → ℕ };

    /// Whose turn it is: one came, there may be something to read of one, or one is dismissed for its silence, which
    /// nothing else than this call does by itself. Where there is no such peer it waits for one, if it may. A peer
    /// that was let go or dismissed may still be named.
    fn turn(&mut self, may_wait: bool) -> Result<Turn, Failed>
        ensures did { did self.new ≡ after_turn result may_wait (did self.old) }
        ensures named { IsNamed result (did self.old) }
        ensures left { left self.new ≡ left self.old }
        ensures cause { HasCause (faults self.old) (faults self.new) result };

    /// Takes the next bytes of a peer. A failed call takes nothing.
    fn read(&mut self, peer: u64, buf: &mut [u8]) -> Result<Heard, Failed>
        ensures bound { HeardAtMost result (length buf.new) }
        ensures len { length buf.new ≡ length buf.old }
        ensures did { did self.new ≡ after_read result peer buf.new (did self.old) }
        ensures bytes { IfSome (left self.old) (λ old. Hears old (left self.new) peer buf.new result) }
        ensures cause { HasCause (faults self.old) (faults self.new) result };

    /// Says all of these bytes to a peer, behind what was said to it before, whether it is still there or not. It never
    /// waits for the peer to take them. Without memory nothing is said.
    fn say(&mut self, peer: u64, bytes: &[u8]) -> Result<(), NoMemory>
        ensures did { did self.new ≡ after_say result peer bytes.now (did self.old) }
        ensures left { left self.new ≡ left self.old }
        ensures faults { faults self.new ≡ faults self.old };

    /// Whether so much that was said waits for the peer to take it that nothing more should be read of it. Once it took
    /// enough it has a turn.
    fn is_full(&self, peer: u64) -> bool;

    /// Lets a peer go that has ended, once it took all that was said to it or was silent for too long.
    fn finish(&mut self, peer: u64)
        ensures did { did self.new ≡ finished peer ∷ did self.old }
        ensures left { left self.new ≡ left self.old }
        ensures faults { faults self.new ≡ faults self.old };

    /// Dismisses a peer at once.
    fn dismiss(&mut self, peer: u64)
        ensures did { did self.new ≡ dismissed peer ∷ did self.old }
        ensures left { left self.new ≡ left self.old }
        ensures faults { faults self.new ≡ faults self.old };

    /// Tells whoever runs the node what became of it. It is no call of a peer, and changes nothing of the crowd.
    fn note(&mut self, news: News)
        ensures did { did self.new ≡ did self.old }
        ensures left { left self.new ≡ left self.old }
        ensures faults { faults self.new ≡ faults self.old };
}
