// How the drive ends by a look at the register that failed.
ghost use Rattle.std.specs.Prelude.{◌≡◌};
ghost use Rattle.ld_tail.specs.Looking.{look_end, register_end, why_of};

use ld_reader::ReaderFault;
use ld_register::RegisterFault;
use ld_rounds::{Ended, Refusal};

/// How the drive ends by a refusal of the register.
pub(crate) fn register_end(fault: &RegisterFault) -> Ended
    ensures { result ≡ register_end fault.now }
{
    match fault {
        RegisterFault::NoMemory => Ended::NoMemory,
        RegisterFault::Damaged(place) => Ended::Register(Refusal::Damaged(*place)),
        _ => Ended::Register(Refusal::Failed),
    }
}

/// How the drive ends by a refusal of a reader.
pub(crate) fn look_end(fault: &ReaderFault) -> Ended
    ensures { result ≡ look_end fault.now }
{
    match fault {
        ReaderFault::Register(refusal) => register_end(refusal),
        ReaderFault::NoMemory => Ended::NoMemory,
    }
}

/// Why a reader can't go on: when out of memory, where no other cause is kept.
pub(crate) fn why_of(end: Option<Ended>) -> Ended
    ensures { result ≡ why_of end }
{
    match end {
        Some(end) => end,
        None => Ended::NoMemory,
    }
}
