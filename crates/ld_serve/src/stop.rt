// Why a node stops serving.
use ld_wire::WireFault;
use thiserror::Error;

/// One of the two journals: a node's store, or the register.
#[derive(Clone, Copy, Debug, PartialEq, Eq)]
pub enum Which {
    Store,
    Register,
}

/// Why a node stops serving before its turns are taken.
#[derive(Clone, Copy, Debug, PartialEq, Eq, Error)]
pub enum Stop {
    /// There is no memory left.
    #[error("out of memory")]
    NoMemory,
    /// A call of the store's disk failed.
    #[error("the disk failed")]
    Disk,
    /// A call of the register failed.
    #[error("the register failed")]
    Register,
    /// A call of the link failed.
    #[error("the link failed")]
    Link,
    /// The bytes of the present peer begin no frame.
    #[error("the peer sent no frame: {0}")]
    BadFrame(WireFault),
    /// From this place on that journal can't be read.
    #[error("damaged at byte {1}")]
    Damaged(Which, u64),
    /// The store isn't formatted, and no format was asked for.
    #[error("the store is not formatted")]
    Blank,
    /// A record, or the segment that it needs, would make that journal longer than 2^40 bytes.
    #[error("a journal is full")]
    Full(Which),
    /// The greatest generation of the node has been handed out.
    #[error("no generation is left")]
    GenLimit,
}
