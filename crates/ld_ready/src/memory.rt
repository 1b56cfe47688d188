// A source in memory never waits.
ghost use Rattle.std.specs.Prelude.{◌≡◌, Some, true};

use crate::Ready;
use ld_io::MemSource;

impl Ready for MemSource {
    ghost ready = { λ _. Some true };

    fn is_ready(&self) -> bool
        ensures { result ≡ true }
    {
        true
    }
}
