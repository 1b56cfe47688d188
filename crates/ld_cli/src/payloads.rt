// The payloads and trims that the lines of the input spell.
ghost use Rattle.std.specs.Prelude.{◌≡◌, ◌≤◌, ◌<◌, ◌^◌, [], true, false, IfOk, IfErr, IfSome, MatchResult};
ghost use Rattle.std.specs.Io.KnownBytes.{prepend_known};
ghost use Rattle.ld_io.specs.Input.{left_of};
ghost use Rattle.ld_ids.specs.Bytes.{AreBytes, hex_text};
ghost use Rattle.ld_lsn.specs.Number.{lsn_text};
ghost use Rattle.ld_schedule.specs.Reading.{IsText};
ghost use Rattle.ld_schedule.specs.Grammar.{IsBatch, messages_text};
ghost use Rattle.ld_rounds.specs.Input.{Gives, IsReadFault};
ghost use Rattle.ld_cli.specs.Payloads.{batch_payload, IsBatchLine, SpellsPayload, Spells, IsUnspeltPayload, IsUnspeltTrim, IsUnspelt, input_after, line_ready};

use crate::input::Buffer;
use crate::lines::{Ending, LONGEST, next_line};
use crate::status::Stop;
use ld_batch::Messages;
use ld_ids::{NoMemory, Payload};
use ld_io::Source;
use ld_lsn::Lsn;
use ld_lsn::text::after;
use ld_ready::Ready;
use ld_rounds::{InputFault, Payloads, Request};
use ld_schedule::{LineFault, parse_messages, parse_payload};
use std::alloc::Global;

/// How many bytes a payload has at most.
const PAYLOAD_LIMIT: usize = 65_535;

/// How many bytes `trim ` has.
const TRIM_LENGTH: u64 = 5;

/// What was read of an input and not taken, its last line, and how many lines were begun.
#[derive(Drop)]
pub(crate) struct Held {
    /// Whether each line is the messages of a batch, and not one payload.
    batches: bool,
    buffer: Buffer,
    line: Vec<u8>,
    number: u64,
}

/// The lines of an input, each of which is to spell a payload, or the messages of a batch; or a trim. It owns no memory, so that the input
/// is seen to come back.
#[derive(Drop)]
pub(crate) struct PayloadLines<'a, I: Ready> {
    pub(crate) held: &'a mut Held,
    pub(crate) input: &'a mut I,
}

/// The payload that a line of this number spells, or the byte offset of its syntax error.
fn spelt_payload(alloc: Global, line: &[u8], number: u64) -> Result<Payload, InputFault>
    ensures { MatchResult result (IsText AreBytes hex_text line.now) (IsUnspeltPayload false number line.now) }
{
    match parse_payload(alloc, line) {
        Ok(payload) => Ok(payload),
        Err(fault) => match fault {
            LineFault::Bad { place } => Err(InputFault::BadLine {
                line: number,
                place: place as u64,
            }),
            LineFault::NoMemory => Err(InputFault::NoMemory),
        },
    }
}

/// The messages that a line of this number spells, or the byte offset of its syntax error.
fn spelt_messages(alloc: Global, line: &[u8], number: u64) -> Result<Messages, InputFault>
    ensures { MatchResult result (IsText IsBatch messages_text line.now) (IsUnspeltPayload true number line.now) }
{
    match parse_messages(alloc, line) {
        Ok(messages) => Ok(messages),
        Err(fault) => match fault {
            LineFault::Bad { place } => Err(InputFault::BadLine {
                line: number,
                place: place as u64,
            }),
            LineFault::NoMemory => Err(InputFault::NoMemory),
        },
    }
}

/// The payload of the batch of these messages. An append of one that is longer than a payload may be is refused, and told by
/// its length alone: in its place come so many bytes 0.
fn batch_payload(alloc: Global, messages: &Messages) -> Result<Payload, NoMemory>
    ensures { IfOk result (λ payload. payload ≡ batch_payload messages.now) }
{
    let length = messages.packed_len();
    if length <= PAYLOAD_LIMIT {
        return messages.payload(alloc);
    }
    let bytes = vec![in alloc; 0u8; length]?;
    Ok(Payload::new(bytes))
}

/// The payload of the batch whose messages a line of this number spells, or the byte offset of its syntax error.
fn spelt_batch(alloc: Global, line: &[u8], number: u64) -> Result<Payload, InputFault>
    ensures { MatchResult result (IsBatchLine line.now) (IsUnspeltPayload true number line.now) }
{
    let messages = spelt_messages(alloc, line, number)?;
    match batch_payload(alloc, &messages) {
        Ok(payload) => Ok(payload),
        Err(_) => Err(InputFault::NoMemory),
    }
}

/// The number that a line of this number spells behind `trim `, or the byte offset of its syntax error.
fn spelt_trim(behind: &[u8], number: u64) -> Result<Lsn, InputFault>
    ensures { MatchResult result (λ point. (point < 2 ^ 64) × (behind.now ≡ lsn_text point)) (IsUnspeltTrim number behind.now) }
{
    let Some(point) = Lsn::parse(behind) else {
        return Err(InputFault::BadLine {
            line: number,
            place: TRIM_LENGTH,
        });
    };
    let _ = point.value();
    Ok(point)
}

impl Held {
    /// Nothing was read yet of lines that are each a payload, or each the messages of a batch.
    pub(crate) fn new(alloc: Global, batches: bool) -> Result<Held, NoMemory>
        ensures batches { IfOk result (λ held. held.batches ≡ batches) }
        ensures buffer { IfOk result (λ held. held.buffer ≡ []) }
        ensures number { IfOk result (λ held. held.number ≡ 0) }
    {
        let Ok(buffer) = Buffer::new(alloc) else {
            return Err(NoMemory);
        };
        Ok(Held {
            batches,
            buffer,
            line: Vec::new(alloc),
            number: 0,
        })
    }

    /// The payload that the last line spells, or the byte offset of its syntax error.
    fn payload(&self, alloc: Global) -> Result<Payload, InputFault>
        ensures { MatchResult result (SpellsPayload self.now.batches self.now.line.items) (IsUnspeltPayload self.now.batches self.now.number self.now.line.items) }
    {
        if self.batches {
            spelt_batch(alloc, &self.line, self.number)
        } else {
            spelt_payload(alloc, &self.line, self.number)
        }
    }

    /// What the last line asks for, or the byte offset of its syntax error.
    fn spelt(&self, alloc: Global) -> Result<Request, InputFault>
        ensures { MatchResult result (Spells self.now.batches self.now.line.items) (IsUnspelt self.now.batches self.now.number self.now.line.items) }
    {
        match after(&self.line, b"trim ") {
            Some(behind) => match spelt_trim(behind, self.number) {
                Ok(point) => Ok(Request::Trim(point)),
                Err(fault) => Err(fault),
            },
            None => match self.payload(alloc) {
                Ok(payload) => Ok(Request::Append(payload)),
                Err(fault) => Err(fault),
            },
        }
    }

    /// Takes the next request of the input; none is at its end.
    fn next<I: Source>(
        &mut self,
        alloc: Global,
        input: &mut I,
    ) -> Result<Option<Request>, InputFault>
        ensures gives { Gives (input_after self.old.batches self.old.number (prepend_known self.old.buffer (left_of (I.known input.old) (I.gave input.old)))) (input_after self.new.batches self.new.number (prepend_known self.new.buffer (left_of (I.known input.new) (I.gave input.new)))) result }
        ensures later { I.faults input.old ≤ I.faults input.new }
        ensures cause { IfErr result (IsReadFault (I.faults input.old) (I.faults input.new)) }
    {
        self.number = self.number.saturating_add(1);
        match next_line(&mut self.buffer, input, &mut self.line) {
            Ok(Ending::Line) => {
                let request = self.spelt(alloc)?;
                Ok(Some(request))
            }
            Ok(Ending::End) => Ok(None),
            Ok(Ending::Cut) => Err(InputFault::BadLine {
                line: self.number,
                place: self.line.len() as u64,
            }),
            Ok(Ending::Long) => Err(InputFault::BadLine {
                line: self.number,
                place: LONGEST as u64,
            }),
            Err(Stop::Read) => Err(InputFault::Read),
            Err(_) => Err(InputFault::NoMemory),
        }
    }

    /// Whether a whole line is held, or the next read wouldn't wait. One that is begun is waited for.
    fn is_ready<I: Ready>(&self, input: &I) -> bool
        ensures { IfSome (line_ready self.now.buffer (I.ready input.now)) (λ is_ready. result ≡ is_ready) }
    {
        if self.buffer.holds(b'\n') {
            return true;
        }
        input.is_ready()
    }
}

impl<'a, I: Ready> Payloads for PayloadLines<'a, I> {
    ghost use Rattle.std.specs.Io.KnownBytes.{prepend_known};
    ghost use Rattle.ld_io.specs.Input.{left_of};
    ghost use Rattle.ld_cli.specs.Payloads.{input_after, line_ready};

    ghost coming = { λ p. input_after p.held.now.batches p.held.now.number (prepend_known p.held.now.buffer (left_of (I.known p.input.now) (I.gave p.input.now))) };

    ghost faults = { λ p. I.faults p.input.now };

    ghost identity = { λ p. p.input.ghost_name };

    ghost ready = { λ p. line_ready p.held.now.buffer (I.ready p.input.now) };

    fn next(&mut self, alloc: Global) -> Result<Option<Request>, InputFault> {
        self.held.next(alloc, self.input)
    }

    fn is_ready(&self) -> bool {
        self.held.is_ready(&*self.input)
    }
}
