// What a call of a sequencer did.
ghost use Rattle.std.specs.Prelude.{◌≡◌, None};
ghost use Rattle.ld_sequencer.specs.Whole.{lacks_memory};

use crate::fault::{CloseFault, SequencerFault};
use ld_lsn::Lsn;

/// What a call of a sequencer did.
#[derive(Clone, Copy, PartialEq, Eq)]
pub struct Report {
    /// The append that was acknowledged.
    pub acked: Option<Lsn>,
    /// The end of the epoch that was closed.
    pub closed: Option<Lsn>,
    /// The epoch of the sequencer that preempts this one.
    pub preempted: Option<u32>,
    /// Why a close that was tried isn't known to be made, where it isn't. All else of the call is done, and a retry tries the
    /// close again.
    pub register: Option<CloseFault>,
    /// The released number, where it rose.
    pub released: Option<Lsn>,
}

impl Report {
    /// Nothing.
    pub fn nothing() -> Report
        ensures acked { result.acked ≡ None }
        ensures closed { result.closed ≡ None }
        ensures preempted { result.preempted ≡ None }
        ensures failed { result.register ≡ None }
        ensures released { result.released ≡ None }
    {
        Report {
            acked: None,
            closed: None,
            preempted: None,
            register: None,
            released: None,
        }
    }
}

/// Whether a call was refused when out of memory.
pub(crate) fn lacks_memory(answer: &Result<Report, SequencerFault>) -> bool
    ensures { result ≡ lacks_memory answer.now }
{
    match answer {
        Ok(_) => false,
        Err(fault) => match fault {
            SequencerFault::NoMemory => true,
            _ => false,
        },
    }
}
