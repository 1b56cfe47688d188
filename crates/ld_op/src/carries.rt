// The records whose payloads a page carries.
ghost use Rattle.std.specs.Prelude.{◌≡◌, true};

use ld_lsn::Lsn;

/// Which records' payloads a page carries. Of each other record it says only that there is one, and its payload isn't copied.
pub trait Carries {
    ghost use Rattle.std.specs.Prelude.{◌≡◌, ℕ, Bool};

    /// Whether it carries the payload of the record under a number.
    ghost carries: { Self → ℕ → Bool };

    /// Whether the page carries the payload of the record under this number.
    fn carries(&self, number: Lsn) -> bool
        ensures { result ≡ carries self.now number };
}

/// A page carries all payloads.
pub(crate) struct All;

impl Carries for All {
    ghost use Rattle.std.specs.Prelude.{true};

    ghost carries = { λ all number. true };

    fn carries(&self, _: Lsn) -> bool {
        true
    }
}
