// The logs of a configuration.
ghost use Rattle.std.specs.Prelude.{◌≡◌, ◌++◌, ◌∷◌, [], length, OnOk, OnErr};

use ld_ids::{NoMemory, Spec};
use std::alloc::Global;
use std::marker::Model;

/// What is said of each log, in the order of the text.
#[derive(Drop)]
pub struct Specs {
    specs: Vec<Spec>,
}

impl Model for Specs {
    ghost use Rattle.std.specs.Prelude.{List};
    ghost use Rattle.ld_ids.specs.declared.set.Spec.{Spec};

    ghost Value = { List Spec };

    ghost view = { λ a. a.specs.items };
}

impl Specs {
    /// No logs.
    pub fn new(alloc: Global) -> Specs
        ensures { result ≡ [] }
    {
        Specs {
            specs: Vec::new(alloc),
        }
    }

    /// The logs.
    pub fn as_slice(&self) -> &[Spec]
        ensures { result.now ≡ self.now }
    {
        &self.specs
    }

    /// How many logs there are.
    pub fn len(&self) -> usize
        ensures { result ≡ length self.now }
    {
        self.specs.len()
    }

    /// One log more, at the end. Without memory nothing changes.
    pub fn push(&mut self, spec: Spec) -> Result<(), NoMemory>
        ensures ok { OnOk result (self.new ≡ self.old ++ spec ∷ []) }
        ensures err { OnErr result (self.new ≡ self.old) }
    {
        match self.specs.push(spec) {
            Ok(()) => Ok(()),
            Err(_) => Err(NoMemory),
        }
    }
}
