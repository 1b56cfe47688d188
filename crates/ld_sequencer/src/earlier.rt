// What speaks of an earlier epoch.
ghost use Rattle.std.specs.Prelude.{◌≡◌};
ghost use Rattle.ld_sequencer.specs.Whole.{is_of_earlier};

use ld_msg::Body;

/// Whether a message speaks of an epoch before this one, and not of it.
pub(crate) fn is_of_earlier(epoch: u32, body: &Body) -> bool
    ensures { result ≡ is_of_earlier epoch body.now }
{
    match body {
        Body::Stored { number } => number.epoch() != epoch,
        Body::LostHere { number, .. } => number.home().0 != epoch,
        Body::CleanHere { number, .. } => number.home().0 != epoch,
        Body::TrimmedHere { .. } => true,
        Body::DigestPage { .. } => true,
        _ => false,
    }
}
