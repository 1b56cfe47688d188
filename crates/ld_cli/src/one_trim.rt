// One trim that is asked for.
ghost use Rattle.std.specs.Prelude.{◌≡◌, Some};

use ld_lsn::Lsn;
use ld_rounds::{InputFault, Payloads, Request};
use std::alloc::Global;

/// The trim up to one number, which is all that is asked for. No call of it fails.
#[derive(Drop)]
pub(crate) struct OneTrim {
    /// The number, until it was taken.
    upto: Option<Lsn>,
}

impl OneTrim {
    /// The trim up to this number.
    pub(crate) fn new(upto: Lsn) -> OneTrim
        ensures { result.upto ≡ Some upto }
    {
        OneTrim { upto: Some(upto) }
    }
}

impl Payloads for OneTrim {
    ghost use Rattle.std.specs.Prelude.{Some, true};
    ghost use Rattle.ld_cli.specs.Trims.{trim_coming};

    ghost coming = { λ t. Some (trim_coming t.upto) };

    ghost faults = { λ _. 0 };

    ghost identity = { λ _. 0 };

    ghost ready = { λ _. Some true };

    fn next(&mut self, _alloc: Global) -> Result<Option<Request>, InputFault> {
        let Some(upto) = self.upto else {
            return Ok(None);
        };
        self.upto = None;
        Ok(Some(Request::Trim(upto)))
    }

    fn is_ready(&self) -> bool {
        true
    }
}
