// Records in memory to which a second user appends, and whose answers get lost.
use crate::kept::{append_to, read_from};
use crate::{Appended, Records, RecordsFault};
use std::alloc::Global;

/// What happens in one call.
#[derive(Drop)]
pub enum Step {
    /// Nothing else.
    Alone,
    /// Another user appends a record with this value first.
    Comes(Vec<u8>),
    /// The call fails, and nothing is done.
    Lost,
    /// The call is carried out, and its answer is lost.
    Unheard,
    /// The call fails, and an append is held back.
    Held,
    /// An append that was held back arrives first.
    Arrives,
}

/// Records in memory, to which another user appends, and whose calls fail as it is told beforehand: each call takes the next
/// step, and where none is left nothing else happens.
#[derive(Drop)]
pub struct BusyRecords {
    values: Vec<Vec<u8>>,
    steps: Vec<Step>,
    held: Option<(u64, Vec<u8>)>,
}

impl BusyRecords {
    ghost use Rattle.std.specs.Prelude.{◌≡◌, map, []};
    ghost use Rattle.ld_records.specs.Memory.{values_of};
    ghost use Rattle.ld_records.specs.Growth.{Grows};

    /// No record yet, and these steps.
    pub fn new(alloc: Global, steps: Vec<Step>) -> BusyRecords
        ensures { values_of result ≡ [] }
    {
        BusyRecords {
            values: Vec::new(alloc),
            steps,
            held: None,
        }
    }

    /// The values, in order.
    pub fn values(&self) -> &[Vec<u8>]
        ensures { map (λ v. v.items) result.now ≡ values_of self.now }
    {
        &self.values
    }

    /// The step of this call. What comes first in it is done, where there is memory for it.
    fn step(&mut self, alloc: Global) -> Step
        ensures grows { Grows (values_of self.old) (values_of self.new) }
    {
        if self.steps.is_empty() {
            return Step::Alone;
        }
        match self.steps.remove(0) {
            Step::Comes(value) => {
                let number = self.values.len() as u64;
                let _ = append_to(&mut self.values, alloc, number, &value);
                Step::Alone
            }
            Step::Arrives => {
                self.arrive(alloc);
                Step::Alone
            }
            step => step,
        }
    }

    /// The append that was held back arrives.
    fn arrive(&mut self, alloc: Global)
        ensures grows { Grows (values_of self.old) (values_of self.new) }
    {
        if let Some((number, value)) = self.held.take() {
            let _ = append_to(&mut self.values, alloc, number, &value);
        }
    }
}

impl Records for BusyRecords {
    ghost use Rattle.ld_records.specs.Memory.{values_of};

    ghost list = { λ r. values_of r };

    ghost sole = { λ _. ⊥ };

    fn read(
        &mut self,
        alloc: Global,
        number: u64,
        value: &mut Vec<u8>,
    ) -> Result<bool, RecordsFault> {
        match self.step(alloc) {
            Step::Alone => read_from(&self.values, number, value),
            _ => Err(RecordsFault::Failed),
        }
    }

    fn append(
        &mut self,
        alloc: Global,
        number: u64,
        value: &[u8],
    ) -> Result<Appended, RecordsFault> {
        match self.step(alloc) {
            Step::Alone => append_to(&mut self.values, alloc, number, value),
            Step::Unheard => {
                let _ = append_to(&mut self.values, alloc, number, value);
                Err(RecordsFault::Failed)
            }
            Step::Held => {
                self.held = Some((number, Vec::from_slice(alloc, value)?));
                Err(RecordsFault::Failed)
            }
            _ => Err(RecordsFault::Failed),
        }
    }
}
