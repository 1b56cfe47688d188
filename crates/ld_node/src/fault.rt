// Why a node refuses.
use ld_register::RegisterFault;
use ld_store::StoreFault;
use thiserror::Error;

/// Why a node refuses a call.
#[derive(Clone, Copy, Debug, PartialEq, Eq, Error)]
pub enum NodeFault {
    /// A call of the disk failed. The node has to be loaded again.
    #[error("the disk failed")]
    Disk,
    /// The record whose gate is at this offset is cut short by the disk's end, or its body is no record that may stand there,
    /// or the segment or the payload that begins there isn't within its bounds.
    #[error("the store is damaged")]
    Damaged(u64),
    /// A record, or the segment that it needs, would pass the journal's limit.
    #[error("the store is full")]
    Full,
    /// An earlier call answered `Disk`.
    #[error("the node has to be loaded again")]
    NeedsLoad,
    /// The register refused.
    #[error("the register refused: {0}")]
    Register(RegisterFault),
    /// There is no memory left.
    #[error("out of memory")]
    NoMemory,
}

impl From<ld_ids::NoMemory> for NodeFault {
    ghost use Rattle.std.specs.Prelude.{◌≡◌};
    ghost use Rattle.ld_node.specs.declared.fault.NodeFault.TheVariants as faults;

    ghost from_gives = { λ _ e. e ≡ faults.NoMemory };

    fn from(_: ld_ids::NoMemory) -> NodeFault {
        NodeFault::NoMemory
    }
}

impl From<StoreFault> for NodeFault {
    ghost use Rattle.std.specs.Prelude.{◌≡◌};
    ghost use Rattle.ld_node.specs.Faults.{of_store};

    ghost from_gives = { λ fault e. e ≡ of_store fault };

    fn from(fault: StoreFault) -> NodeFault {
        match fault {
            StoreFault::Disk => NodeFault::Disk,
            StoreFault::Damaged(place) => NodeFault::Damaged(place),
            StoreFault::Full => NodeFault::Full,
            StoreFault::NeedsLoad => NodeFault::NeedsLoad,
            StoreFault::NoMemory => NodeFault::NoMemory,
        }
    }
}

impl From<RegisterFault> for NodeFault {
    ghost use Rattle.std.specs.Prelude.{◌≡◌};
    ghost use Rattle.ld_node.specs.Faults.{of_register};

    ghost from_gives = { λ fault e. e ≡ of_register fault };

    fn from(fault: RegisterFault) -> NodeFault {
        match fault {
            RegisterFault::NoMemory => NodeFault::NoMemory,
            _ => NodeFault::Register(fault),
        }
    }
}
