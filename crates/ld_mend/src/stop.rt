// Why a node isn't mended to the end.
ghost use Rattle.std.specs.Prelude.{◌≡◌};
ghost use Rattle.ld_mend.specs.Stops.{stop_of, look_stop};
ghost use Rattle.ld_mend.specs.declared.stop.Stop.TheVariants.{NoMemory as Memory};

use ld_ids::NoMemory;
use ld_node::NodeFault;
use ld_register::RegisterFault;
use ld_wire::WireFault;

/// Why a node isn't mended to the end.
#[derive(Clone, Copy, PartialEq, Eq)]
pub enum Stop {
    /// A call of the node's disk failed. What was to be kept last is there or not, which the next load tells.
    Disk,
    /// The disk ends before the payload that stands at this offset does.
    Damaged(u64),
    /// A record, or the segment that it needs, would make the node's store longer than 2^40 bytes.
    Full,
    /// A call of the register failed.
    Register,
    /// From this place on the register's bytes are no journal of its changes.
    RegisterDamaged(u64),
    /// What a node sent begins no frame.
    BadFrame(WireFault),
    /// The output failed.
    Write,
    /// There is no memory left.
    NoMemory,
}

impl From<NoMemory> for Stop {
    ghost from_gives = { λ _ stop. stop ≡ Memory };

    fn from(_: NoMemory) -> Stop {
        Stop::NoMemory
    }
}

/// What a refused look at the register stops by.
pub(crate) fn look_stop(fault: &RegisterFault) -> Stop
    ensures { result ≡ look_stop fault.now }
{
    match fault {
        RegisterFault::NoMemory => Stop::NoMemory,
        RegisterFault::Damaged(place) => Stop::RegisterDamaged(*place),
        _ => Stop::Register,
    }
}

/// What a call that the node refused stops by.
pub(crate) fn stop_of(fault: &NodeFault) -> Stop
    ensures { result ≡ stop_of fault.now }
{
    match fault {
        NodeFault::Disk => Stop::Disk,
        NodeFault::NeedsLoad => Stop::Disk,
        NodeFault::Damaged(place) => Stop::Damaged(*place),
        NodeFault::Full => Stop::Full,
        NodeFault::Register(fault) => look_stop(fault),
        NodeFault::NoMemory => Stop::NoMemory,
    }
}
