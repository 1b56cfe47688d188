// Why bytes are no record.
use thiserror::Error;

/// Why bytes were not read as a record.
#[derive(Clone, Copy, Debug, PartialEq, Eq, Error)]
pub enum OpFault {
    /// The first field that is cut off or out of its range begins at this offset, or else the first byte that is too
    /// many stands there.
    #[error("no record at byte {0}")]
    Bad(u64),
    /// There is no memory left.
    #[error("out of memory")]
    NoMemory,
}
