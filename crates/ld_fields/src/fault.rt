// Why a field was not read.
ghost use Rattle.std.specs.Prelude.{◌≡◌};

use ld_ids::NoMemory;

/// Why a field was not read.
#[derive(Clone, Copy)]
pub enum FieldFault {
    /// The first field that is cut off or out of its range begins at this offset, or else the first byte that is too
    /// many stands there.
    Bad(u64),
    /// There is no memory left.
    NoMemory,
}

impl From<NoMemory> for FieldFault {
    ghost use Rattle.std.specs.Prelude.{◌≡◌};
    ghost use Rattle.ld_fields.specs.declared.fault.FieldFault.TheVariants as faults;

    ghost from_gives = { λ e f. f ≡ faults.NoMemory };

    fn from(_: NoMemory) -> FieldFault {
        FieldFault::NoMemory
    }
}
