// Why lines aren't written.
ghost use Rattle.std.specs.Prelude.{◌≡◌};
ghost use Rattle.ld_operate.specs.Looking.{stop_of};
ghost use Rattle.ld_operate.specs.declared.stop.LookStop.TheVariants.{NoMemory as Memory};
ghost use Rattle.ld_operate.specs.declared.stop.StatusStop.TheVariants.{Look as Looking};

use ld_ids::NoMemory;
use ld_register::RegisterFault;
use ld_wire::WireFault;

/// Why the lines of a register aren't written whole.
#[derive(Clone, Copy, PartialEq, Eq)]
pub enum LookStop {
    /// A look at the register failed.
    Register,
    /// From this place on the register's bytes are no journal of its changes.
    Damaged(u64),
    /// The output failed.
    Write,
    /// There is no memory left.
    NoMemory,
}

impl From<NoMemory> for LookStop {
    ghost from_gives = { λ _ stop. stop ≡ Memory };

    fn from(_: NoMemory) -> LookStop {
        LookStop::NoMemory
    }
}

/// Why the lines of a register and of nodes aren't written whole.
#[derive(Clone, Copy, PartialEq, Eq)]
pub enum StatusStop {
    /// As of a register alone.
    Look(LookStop),
    /// What a node sent begins no frame.
    BadFrame(WireFault),
}

impl From<NoMemory> for StatusStop {
    ghost from_gives = { λ _ stop. stop ≡ Looking Memory };

    fn from(_: NoMemory) -> StatusStop {
        StatusStop::Look(LookStop::NoMemory)
    }
}

impl From<LookStop> for StatusStop {
    ghost from_gives = { λ stop status. status ≡ Looking stop };

    fn from(stop: LookStop) -> StatusStop {
        StatusStop::Look(stop)
    }
}

/// What a refused look stops by.
pub(crate) fn stop_of(fault: &RegisterFault) -> LookStop
    ensures { result ≡ stop_of fault.now }
{
    match fault {
        RegisterFault::NoMemory => LookStop::NoMemory,
        RegisterFault::Damaged(place) => LookStop::Damaged(*place),
        _ => LookStop::Register,
    }
}
