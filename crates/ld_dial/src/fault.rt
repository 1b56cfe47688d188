// Why a message isn't sent or taken.
ghost use Rattle.std.specs.Prelude.{◌≡◌};
ghost use Rattle.ld_dial.specs.declared.fault.Fault.TheVariants.{NoMemory as Memory};

use ld_ids::NoMemory;
use ld_wire::WireFault;
use thiserror::Error;

/// Why a message wasn't sent to a node, or taken of it.
#[derive(Clone, Copy, Debug, PartialEq, Eq, Error)]
pub enum Fault {
    /// A call of the link failed.
    #[error("the link failed")]
    Link,
    /// What the node sent begins no frame.
    #[error("the node sent no frame: {0}")]
    BadFrame(WireFault),
    /// There is no memory left.
    #[error("out of memory")]
    NoMemory,
}

impl From<NoMemory> for Fault {
    ghost from_gives = { λ _ fault. fault ≡ Memory };

    fn from(_: NoMemory) -> Fault {
        Fault::NoMemory
    }
}
