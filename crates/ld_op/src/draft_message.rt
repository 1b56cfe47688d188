// Messages whose payloads are still to be read.
ghost use Rattle.std.specs.Prelude.{◌≡◌};

use crate::draft::DraftBody;
use ld_ids::LogId;
use ld_msg::Who;
use std::marker::Model;

/// A message, with the places of payloads in place of their bytes.
#[derive(Drop)]
pub struct Draft {
    from: Who,
    to: Who,
    log: LogId,
    body: DraftBody,
}

impl Model for Draft {
    ghost use Rattle.ld_msg.specs.declared.msg.Msg.{Msg as Sent};
    ghost use Rattle.ld_op.specs.DraftMessages.{seen_draft};

    ghost Value = { Sent };

    ghost view = { seen_draft };
}

impl Draft {
    /// A draft of what one says to another.
    pub fn new(from: Who, to: Who, log: LogId, body: DraftBody) -> Draft
        ensures { result ≡ record { from = from; to = to; log = log; body = body } }
    {
        Draft {
            from,
            to,
            log,
            body,
        }
    }

    /// Who says it.
    pub fn from(&self) -> Who
        ensures { result ≡ self.now.from }
    {
        self.from
    }

    /// To whom.
    pub fn to(&self) -> Who
        ensures { result ≡ self.now.to }
    {
        self.to
    }

    /// Of which log.
    pub fn log(&self) -> LogId
        ensures { result ≡ self.now.log }
    {
        self.log
    }

    /// What it says.
    pub fn body(&self) -> &DraftBody
        ensures { result.now ≡ self.now.body }
    {
        &self.body
    }

    /// What it says, given back as it was moved in.
    pub fn into_body(self) -> DraftBody
        ensures { result ≡ self.body }
    {
        self.body
    }
}
