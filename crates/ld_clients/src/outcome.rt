// What a call writes and sends.
ghost use Rattle.std.specs.Prelude.{◌≡◌, [], ◌∷◌, IfOk};

use ld_ids::NoMemory;
use ld_msg::Outbox;
use ld_transcript::Line;
use std::alloc::Global;

/// What a call writes and sends, beside what it changes.
#[derive(Drop)]
pub struct Outcome {
    /// Its lines of the transcript, in their order. None of them is a message's.
    pub lines: Vec<Line>,
    /// Its messages, in the order of sending.
    pub sends: Outbox,
}

impl Outcome {
    /// No line and no message.
    pub fn nothing(alloc: Global) -> Outcome
        ensures lines { result.lines.items ≡ [] }
        ensures sends { result.sends ≡ [] }
    {
        Outcome {
            lines: Vec::new(alloc),
            sends: Outbox::empty(alloc),
        }
    }

    /// One line and no message.
    pub fn line(alloc: Global, line: Line) -> Result<Outcome, NoMemory>
        ensures lines { IfOk result (λ outcome. outcome.lines.items ≡ line ∷ []) }
        ensures sends { IfOk result (λ outcome. outcome.sends ≡ []) }
    {
        let sends = Outbox::empty(alloc);
        Outcome::sent(alloc, line, sends)
    }

    /// One line and these messages.
    pub fn sent(alloc: Global, line: Line, sends: Outbox) -> Result<Outcome, NoMemory>
        ensures lines { IfOk result (λ outcome. outcome.lines.items ≡ line ∷ []) }
        ensures sends { IfOk result (λ outcome. outcome.sends ≡ sends) }
    {
        let mut lines = Vec::new(alloc);
        lines.push(line)?;
        Ok(Outcome { lines, sends })
    }
}
