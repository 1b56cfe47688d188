// Dials that are left out, of nodes that kept the link waiting.
ghost use Rattle.std.specs.Prelude.{◌≡◌, ◌-◌, ◌*◌, min, max, nat_lt};

use std::io::ErrorKind;

/// How many dials are left out first.
const FIRST: u8 = 2;

/// How many dials are left out in a row at most.
const MOST: u8 = 64;

/// The number of nodes, and the place of none: each is at the place of its number.
const PLACES: usize = 17;

/// What is left out of one node.
#[derive(Clone, Copy)]
struct Left {
    /// How many of the next dials.
    count: u8,
    /// How many there were the last time; 0 where the node answered since.
    width: u8,
}

/// Which dials of a link are left out. A node that kept the link waiting for its limit isn't dialed the next 2 times, and each
/// further time that it did so twice as many, up to 64, until it answers. Any other failure takes no time, and leaves out none.
/// A node of a number above 16 is always dialed.
#[derive(Drop)]
pub(crate) struct Backoff {
    of: [Left; PLACES],
    present: u8,
}

/// How many dials are left out behind so many.
fn next_width(width: u8) -> u8
    ensures { result ≡ min (max (2 * width) 2) 64 }
{
    width.saturating_mul(2).max(FIRST).min(MOST)
}

impl Left {
    /// Whether the next dial is left out. Then there is one less.
    fn takes(&mut self) -> bool
        ensures told { result ≡ nat_lt 0 self.old.count }
        ensures count { self.new.count ≡ self.old.count - 1 }
        ensures width { self.new.width ≡ self.old.width }
    {
        if self.count == 0 {
            return false;
        }
        self.count -= 1;
        true
    }

    /// More dials are left out than the last time.
    fn widen(&mut self)
        ensures width { self.new.width ≡ min (max (2 * self.old.width) 2) 64 }
        ensures count { self.new.count ≡ self.new.width }
    {
        self.width = next_width(self.width);
        self.count = self.width;
    }
}

/// The node kept the link waiting for its limit.
fn is_of_the_limit(kind: ErrorKind) -> bool {
    matches!(kind, ErrorKind::TimedOut | ErrorKind::WouldBlock)
}

impl Backoff {
    /// No node kept the link waiting yet.
    pub(crate) fn new() -> Backoff {
        Backoff {
            of: [Left { count: 0, width: 0 }; PLACES],
            present: 0,
        }
    }

    /// Whether this dial of a node, which is the present one from now on, is left out.
    pub(crate) fn is_left_out(&mut self, node: u8) -> bool {
        self.present = node;
        match self.of.get_mut(usize::from(node)) {
            Some(left) => left.takes(),
            None => false,
        }
    }

    /// A call of the present node failed: a dial that was made, a read or a write.
    pub(crate) fn fails(&mut self, cause: ErrorKind) {
        if !is_of_the_limit(cause) {
            return;
        }
        if let Some(left) = self.of.get_mut(usize::from(self.present)) {
            left.widen();
        }
    }

    /// The present node has sent something.
    pub(crate) fn answered(&mut self) {
        if let Some(left) = self.of.get_mut(usize::from(self.present)) {
            *left = Left { count: 0, width: 0 };
        }
    }
}
