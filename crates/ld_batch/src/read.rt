// Reads a batch.
ghost use Rattle.std.specs.Prelude.{◌≡◌, ◌≤◌, ◌<◌, ◌+◌, length, IfOk, IfErr, MatchOption};
ghost use Rattle.ld_batch.specs.Batch.{number_at, IsCutAt, IsMessageAt, unpacked, Messages as Unpacks};
ghost use Rattle.ld_batch.specs.Faults.{IsNoBatch};

use crate::fault::UnpackFault;
use crate::messages::Messages;
use ld_ids::Payload;
use std::alloc::Global;

/// The number of two bytes at the offset, where they are there.
pub fn number_at(bytes: &[u8], at: usize) -> Option<u16>
    requires { at ≤ length bytes.now }
    ensures { MatchOption result (length bytes.now < at + 2) (λ number. (at + 2 ≤ length bytes.now) × (number ≡ number_at bytes.now at)) }
{
    if bytes.len() - at < 2 {
        return None;
    }
    Some(u16::from(bytes[at]) * 256 + u16::from(bytes[at + 1]))
}

/// The message at the offset, where its length and its bytes are there.
fn message_at(bytes: &[u8], at: usize) -> Option<&[u8]>
    requires { at ≤ length bytes.now }
    ensures { MatchOption result (IsCutAt bytes.now at) (λ message. IsMessageAt bytes.now at message.now) }
{
    let length = usize::from(number_at(bytes, at)?);
    let begin = at + 2;
    if bytes.len() - begin < length {
        return None;
    }
    Some(&bytes[begin..begin + length])
}

/// The messages of a batch, in order.
pub fn unpack(alloc: Global, bytes: &[u8]) -> Result<Messages, UnpackFault>
    ensures ok { IfOk result (λ messages. unpacked bytes.now ≡ Unpacks messages) }
    ensures bad { IfErr result (λ fault. IsNoBatch (unpacked bytes.now) fault) }
{
    let count = match number_at(bytes, 0) {
        Some(count) => count,
        None => return Err(UnpackFault::BadBatch(0)),
    };
    if count < 1 || count > 1_024 {
        return Err(UnpackFault::BadBatch(0));
    }
    let mut messages = Messages::empty(alloc);
    let mut at = 2;
    'messages: for _ in 0..count {
        let Some(message) = message_at(bytes, at) else {
            return Err(UnpackFault::BadBatch(at));
        };
        at += 2 + message.len();
        messages.push(Payload::new(Vec::from_slice(alloc, message)?))?;
    }
    if at < bytes.len() {
        return Err(UnpackFault::BadBatch(at));
    }
    Ok(messages)
}
