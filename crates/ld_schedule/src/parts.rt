// The messages of a batch, with commas between them.
ghost use Rattle.std.specs.Prelude.{◌≡◌, ◌≤◌, ◌+◌, ◌<◌, ◌^◌, [], ◌∷◌, length, IfOk, IfErr};
ghost use Rattle.ld_schedule.specs.Reading.{IsRead};
ghost use Rattle.ld_schedule.specs.Grammar.{AreParts, IsBatch, messages_text};
ghost use Rattle.ld_schedule.specs.WordLaws as laws;

use crate::digits::parse_payload;
use crate::fault::LineFault;
use crate::field::Field;
use ld_batch::Messages;
use ld_ids::{NoMemory, Payload};
use ld_lsn::text::split_at_byte;
use std::alloc::Global;

/// This message alone.
fn only(alloc: Global, message: Payload) -> Result<Messages, NoMemory>
    requires { length message + 4 < 2 ^ 64 }
    ensures { IfOk result (λ messages. messages ≡ message ∷ []) }
{
    let mut messages = Messages::empty(alloc);
    messages.push(message)?;
    Ok(messages)
}

/// The messages that the line spells, at most so many.
fn parts(alloc: Global, line: &[u8], most: usize) -> Result<Messages, LineFault>
    requires { (1 ≤ most) × (most ≤ 1024) }
    ensures { IsRead (AreParts most) messages_text line.now result }
{
    let Some((front, rest)) = split_at_byte(line, b',') else {
        let message = match parse_payload(alloc, line) {
            Ok(message) => message,
            Err(fault) => return Err(fault),
        };
        return Ok(only(alloc, message)?);
    };
    let message = match parse_payload(alloc, front) {
        Ok(message) => message,
        Err(fault) => return Err(fault),
    };
    if most == 1 {
        return Err(LineFault::Bad { place: front.len() });
    }
    match parts(alloc, rest, most - 1) {
        Ok(others) => {
            let mut messages = others;
            messages.push_front(message)?;
            Ok(messages)
        }
        Err(fault) => Err(fault.further(front.len() + 1)),
    }
}

impl Field for Messages {
    ghost named = { IsBatch };

    ghost text = { messages_text };

    ghost inhabited = { ([] ∷ [], laws.some_batch) };

    fn read(alloc: Global, line: &[u8]) -> Result<Messages, LineFault> {
        parts(alloc, line, 1024)
    }
}

/// The messages of the batch that a line spells, without the byte 10 that ends it: 1 to 1,024 payloads, with commas between
/// them. A line that spells none is `Bad` at the length of its longest prefix with which some such line begins.
pub fn parse_messages(alloc: Global, line: &[u8]) -> Result<Messages, LineFault>
    ensures { IsRead IsBatch messages_text line.now result }
{
    Messages::read(alloc, line)
}
