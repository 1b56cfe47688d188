// A call of a register as a value.
ghost use Rattle.std.specs.Prelude.{◌≡◌, None};
ghost use Rattle.std.specs.declared.result.Result.{Result as Outcome};
ghost use Rattle.ld_msg.specs.Register.{Register as Contents};
ghost use Rattle.ld_register.specs.Calls.{IsFree};
ghost use Rattle.ld_register.specs.Held.{Meets};
ghost use Rattle.ld_register.specs.declared.fault.RegisterFault.{RegisterFault as Refusal};

use ld_disk::MemDisk;
use ld_register::{DiskRegister, RegisterFault};
use std::alloc::Global;

/// A register in memory with the records that are known.
pub(crate) type Copy = DiskRegister<MemDisk>;

/// A call of a register, whose answer is a `T`.
pub(crate) trait Question<T> {
    /// It may be asked.
    ghost is_valid: { Self → Type 0 };

    /// What a register answers by its contents.
    ghost answer: { Self → Contents → Outcome T Refusal };

    /// What it makes of its contents.
    ghost after: { Self → Contents → Contents };

    /// What holds of each answer, whatever the register holds.
    ghost fits: { Self → Outcome T Refusal → Type 0 };

    /// Asks a register in memory.
    fn ask(&self, alloc: Global, copy: &mut Copy) -> Result<T, RegisterFault>
        requires { is_valid self.now }
        ensures meets { Meets copy.old copy.new result (answer self.now) (after self.now) }
        ensures fits { fits self.now result };

    /// A refusal that may come at any point fits.
    ghost free_fits: { (q : Self) (r : Outcome T Refusal) → IsFree r → fits q r };

    /// What contents with no armed fault answer is no refusal that may come at any point.
    ghost is_told: { (q : Self) (c : Contents) → c.armed ≡ None → IsFree (answer q c) → ⊥ };
}
