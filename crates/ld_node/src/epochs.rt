// Epochs once more.
ghost use Rattle.std.specs.Prelude.{◌≡◌, IfOk};

use ld_ids::NoMemory;
use ld_op::Epochs;
use std::alloc::Global;

/// The same epochs once more.
pub(crate) fn copy(alloc: Global, epochs: &Epochs) -> Result<Epochs, NoMemory>
    ensures { IfOk result (λ copy. copy ≡ epochs.now) }
{
    let list = Vec::from_slice(alloc, epochs.as_slice())?;
    Ok(Epochs::new(list))
}
