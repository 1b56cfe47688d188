// The steps that a cluster took.
use ld_ids::Name;
use ld_schedule::Event;

/// One step.
#[derive(Drop)]
pub(crate) enum Step {
    /// An event; of a flow each delivery is one.
    Takes(Event),
    /// In a calm, the retry of a sequencer that tells its released number again.
    Calms(Name),
}
