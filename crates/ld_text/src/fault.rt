// Why a line is the text of no payload.
ghost use Rattle.std.specs.Prelude.{◌≡◌};

use ld_ids::NoMemory;
use std::alloc::AllocError;
use thiserror::Error;

/// Why a line is the text of no payload.
#[derive(Debug, Clone, Copy, PartialEq, Eq, Drop, Error)]
pub enum TextFault {
    /// The first byte offset at which it differs from the text of the bytes that it spells.
    #[error("no payload's text goes on so at byte {0}")]
    Bad(usize),
    /// Out of memory.
    #[error("out of memory")]
    NoMemory,
}

impl From<AllocError> for TextFault {
    fn from(_: AllocError) -> TextFault
        ensures { result ≡ TextFault.NoMemory }
    {
        TextFault::NoMemory
    }
}

impl From<NoMemory> for TextFault {
    fn from(_: NoMemory) -> TextFault
        ensures { result ≡ TextFault.NoMemory }
    {
        TextFault::NoMemory
    }
}
