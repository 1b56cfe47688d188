// Why no frame is taken.
use ld_wire::WireFault;
use thiserror::Error;

/// Why no frame of a peer is taken.
#[derive(Clone, Copy, Debug, PartialEq, Eq, Error)]
pub enum Unread {
    /// There is no memory left.
    #[error("out of memory")]
    NoMemory,
    /// A call of the link failed.
    #[error("the link failed")]
    Link,
    /// The bytes of the peer begin no frame.
    #[error("the peer sent no frame: {0}")]
    BadFrame(WireFault),
}
