// Logs, summaries and entries.
ghost use Rattle.std.specs.Prelude.{◌≡◌, ◌≤◌, ◌+◌, true, length, IfOk, IfErr};
ghost use Rattle.ld_fields.specs.Fields.{Got};
ghost use Rattle.ld_fields.specs.Faults.{IsOff};
ghost use Rattle.ld_fields.specs.Items.{is_number, is_tag, may_stand, tagged, read_entry, read_older_summary, read_flag, read_summary, read_log};

use crate::bounds::{GREATEST_EPOCH, GREATEST_LNG};
use crate::field::{check, read_number, read_u8, read_u16, read_u32};
use crate::{Beside, FieldFault};
use ld_ids::{LogId, NoMemory, Payload};
use ld_lsn::Lsn;
use ld_msg::{Entry, Summary, What};
use std::alloc::Global;

/// The log at an offset.
pub fn read_log(bytes: &[u8], at: usize) -> Result<(LogId, usize), FieldFault>
    requires { at ≤ length bytes.now }
    ensures ok { IfOk result (λ p. read_log bytes.now at ≡ Got p.0 p.1) }
    ensures next { IfOk result (λ p. p.1 ≤ length bytes.now) }
    ensures off { IfErr result (IsOff (read_log bytes.now at)) }
{
    let (log, next) = read_u32(bytes, at)?;
    match LogId::new(log) {
        Some(log) => Ok((log, next)),
        None => Err(FieldFault::Bad(at as u64)),
    }
}

/// The summary of the epoch at an offset, in its older form, which says nothing of a loss.
#[tactic(auto, unfolding(crate::specs::Items::read_older_summary))]
pub fn read_older_summary(
    bytes: &[u8],
    epoch: u32,
    at: usize,
) -> Result<(Summary, usize), FieldFault>
    requires { at ≤ length bytes.now }
    ensures ok { IfOk result (λ p. read_older_summary bytes.now epoch at ≡ Got p.0 p.1) }
    ensures next { IfOk result (λ p. p.1 ≤ length bytes.now) }
    ensures off { IfErr result (IsOff (read_older_summary bytes.now epoch at)) }
{
    let (ballot, at_lng) = read_u32(bytes, at)?;
    check(epoch < ballot && ballot <= GREATEST_EPOCH, at)?;
    let (lng, at_trim) = read_u32(bytes, at_lng)?;
    check(lng <= GREATEST_LNG, at_lng)?;
    let (trim, at_end) = read_number(bytes, at_trim)?;
    let (end, next) = read_u32(bytes, at_end)?;
    check(1 <= end, at_end)?;
    Ok((
        Summary {
            ballot,
            lng,
            trim,
            end,
            loss: false,
        },
        next,
    ))
}

/// The summary of the epoch at an offset.
#[tactic(auto, unfolding(crate::specs::Items::read_summary))]
pub fn read_summary(bytes: &[u8], epoch: u32, at: usize) -> Result<(Summary, usize), FieldFault>
    requires { at ≤ length bytes.now }
    ensures ok { IfOk result (λ p. read_summary bytes.now epoch at ≡ Got p.0 p.1) }
    ensures next { IfOk result (λ p. p.1 ≤ length bytes.now) }
    ensures off { IfErr result (IsOff (read_summary bytes.now epoch at)) }
{
    let (summary, at_loss) = read_older_summary(bytes, epoch, at)?;
    let (loss, next) = read_flag(bytes, at_loss)?;
    Ok((Summary { loss, ..summary }, next))
}

/// The byte at an offset, 1 for true and 0 for false.
pub fn read_flag(bytes: &[u8], at: usize) -> Result<(bool, usize), FieldFault>
    requires { at ≤ length bytes.now }
    ensures ok { IfOk result (λ p. read_flag bytes.now at ≡ Got p.0 p.1) }
    ensures next { IfOk result (λ p. p.1 ≤ length bytes.now) }
    ensures off { IfErr result (IsOff (read_flag bytes.now at)) }
{
    let (byte, next) = read_u8(bytes, at)?;
    check(byte <= 1, at)?;
    Ok((byte == 1, next))
}

/// The entry at an offset, its number between two others, and what may stand beside records, holes and plugs.
#[tactic(auto, unfolding(crate::specs::Items::read_entry))]
pub fn read_entry(
    alloc: Global,
    bytes: &[u8],
    beside: Beside,
    most: Lsn,
    least: u64,
    at: usize,
) -> Result<(Entry, usize), FieldFault>
    requires { at ≤ length bytes.now }
    ensures ok { IfOk result (λ p. read_entry bytes.now beside most least at ≡ Got p.0 p.1) }
    ensures next { IfOk result (λ p. p.1 ≤ length bytes.now) }
    ensures off { IfErr result (IsOff (read_entry bytes.now beside most least at)) }
    ensures number { IfOk result (λ p. is_number p.0.number ≡ true) }
{
    let (number, at_ballot) = read_number(bytes, at)?;
    check(
        is_number(number) && least <= number.value() && number.value() <= most.value(),
        at,
    )?;
    let (ballot, at_tag) = read_u32(bytes, at_ballot)?;
    check(
        number.epoch() <= ballot && ballot <= GREATEST_EPOCH,
        at_ballot,
    )?;
    let (tag, at_what) = read_u8(bytes, at_tag)?;
    check(is_tag(number, tag) && may_stand(beside, tag), at_tag)?;
    let (what, next) = read_what(alloc, bytes, at_what, tag)?;
    Ok((
        Entry {
            number,
            ballot,
            what,
        },
        next,
    ))
}

/// Whether what has the tag may stand there.
pub fn may_stand(beside: Beside, tag: u8) -> bool
    ensures { result ≡ may_stand beside tag }
{
    match beside {
        Beside::Bridges => tag != 4,
        Beside::Nothing => tag != 2 && tag != 4,
        Beside::Withheld => tag != 2,
    }
}

/// Whether an entry may have the number.
pub fn is_number(number: Lsn) -> bool
    ensures { result ≡ is_number number }
{
    1 <= number.epoch() && number.epoch() <= GREATEST_EPOCH && 1 <= number.esn()
}

/// Whether an entry of the number may have the tag.
pub fn is_tag(number: Lsn, tag: u8) -> bool
    ensures { result ≡ is_tag number tag }
{
    tag <= 4 && (number.esn() < u32::MAX || tag == 2)
}

/// What stands behind a tag at an offset.
pub fn read_what(
    alloc: Global,
    bytes: &[u8],
    at: usize,
    tag: u8,
) -> Result<(What, usize), FieldFault>
    requires place { at ≤ length bytes.now }
    requires tag { tag ≤ 4 }
    ensures ok { IfOk result (λ p. tagged bytes.now at tag ≡ Got p.0 p.1) }
    ensures next { IfOk result (λ p. p.1 ≤ length bytes.now) }
    ensures off { IfErr result (IsOff (tagged bytes.now at tag)) }
{
    if tag == 1 {
        return Ok((What::Hole, at));
    }
    if tag == 2 {
        return Ok((What::Bridge, at));
    }
    if tag == 3 {
        return Ok((What::Plug, at));
    }
    if tag == 4 {
        return Ok((What::Withheld, at));
    }
    let (size, from) = read_u16(bytes, at)?;
    let size = usize::from(size);
    check(size <= bytes.len() - from, at)?;
    let payload = copy(alloc, &bytes[from..from + size])?;
    Ok((What::Rec(payload), from + size))
}

fn copy(alloc: Global, bytes: &[u8]) -> Result<Payload, NoMemory>
    ensures { IfOk result (λ payload. payload ≡ bytes.now) }
{
    Ok(Payload::new(Vec::from_slice(alloc, bytes)?))
}
