//! Sources that can say whether a read would wait.
#![tactic(auto)]

ghost use Rattle.std.specs.Prelude.{◌≡◌, Option, Bool, IfSome};

mod memory;
mod paced;

use ld_io::Source;
pub use paced::PacedSource;

/// A source that can say whether a read would wait.
pub trait Ready: Source {
    /// What it says, where it is known.
    ghost ready: { Self → Option Bool };

    /// Whether the next read gives bytes, the end or a fault at once, as far as the source knows. One that doesn't know
    /// says so: then a read may wait.
    fn is_ready(&self) -> bool
        ensures { IfSome (ready self.now) (λ r. result ≡ r) };
}
