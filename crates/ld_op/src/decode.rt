// Reading records.
ghost use Rattle.std.specs.Prelude.{◌≡◌, ◌≤◌, ◌-◌, ◌^◌, ◌++◌, ◌∷◌, [], length, IfOk, IfErr, OnOk};
ghost use Rattle.ld_ids.specs.Bytes.{AreBytes};
ghost use Rattle.ld_fields.specs.Fields.{Got};
ghost use Rattle.ld_fields.specs.Faults.{IsOff};
ghost use Rattle.ld_op.specs.Judged.{IsRefused};
ghost use Rattle.ld_op.specs.Bytes.{read_version, read_epoch, read_epochs, read_format, read_accept, read_seal, read_either, read_clean, read_refill, read_fields, read_op, recorded, read_body, is_kind, judge, record_bytes};
ghost use Rattle.ld_op.specs.Bounds.{IsRecord};

use crate::{Epochs, Op, OpFault, Record};
use ld_fields::{
    Beside, FieldFault, GREATEST_EPOCH, GREATEST_LNG, check, read_entries, read_entry, read_log,
    read_number, read_older_summary, read_summary, read_u8, read_u16, read_u32,
};
use ld_ids::{LogId, NoMemory};
use ld_lsn::Lsn;
use ld_msg::Summary;
use std::alloc::Global;

impl Record {
    /// The record that the bytes are. They are refused exactly where they are no record's, with the first byte of the
    /// first field that is cut off or out of its range, or else the first byte that is too many.
    pub fn decode(alloc: Global, bytes: &[u8]) -> Result<Record, OpFault>
        ensures bytes { IfOk result (λ v. bytes.now ≡ record_bytes v) }
        ensures op { IfOk result IsRecord }
        ensures bad { IfErr result (IsRefused (judge bytes.now)) }
        ensures none { IfErr result (λ fault. (v : Record) → IsRecord v → bytes.now ≡ record_bytes v → fault ≡ OpFault.NoMemory) }
    {
        judged(alloc, bytes)
    }
}

fn judged(alloc: Global, bytes: &[u8]) -> Result<Record, OpFault>
    ensures ok { IfOk result (λ v. judge bytes.now ≡ Got v (length bytes.now)) }
    ensures bad { IfErr result (IsRefused (judge bytes.now)) }
    ensures bytes { AreBytes bytes.now }
{
    match read_record(alloc, bytes) {
        Ok(found) => Ok(found),
        Err(FieldFault::Bad(place)) => Err(OpFault::Bad(place)),
        Err(FieldFault::NoMemory) => Err(OpFault::NoMemory),
    }
}

#[tactic(auto, unfolding(crate::specs::Bytes::judge))]
fn read_record(alloc: Global, bytes: &[u8]) -> Result<Record, FieldFault>
    ensures ok { IfOk result (λ v. judge bytes.now ≡ Got v (length bytes.now)) }
    ensures off { IfErr result (IsOff (judge bytes.now)) }
{
    let (kind, at) = read_u8(bytes, 0)?;
    check(is_kind(kind), 0)?;
    let (found, next) = read_body(alloc, bytes, kind, at)?;
    check(bytes.len() <= next, next)?;
    Ok(found)
}

/// Whether a record may begin with the byte.
fn is_kind(kind: u8) -> bool
    ensures { result ≡ is_kind kind }
{
    (1 <= kind && kind <= 7) || (10 <= kind && kind <= 12)
}

#[tactic(auto, unfolding(crate::specs::Bytes::read_body))]
fn read_body(
    alloc: Global,
    bytes: &[u8],
    kind: u8,
    at: usize,
) -> Result<(Record, usize), FieldFault>
    requires { at ≤ length bytes.now }
    ensures ok { IfOk result (λ p. read_body bytes.now kind at ≡ Got p.0 p.1) }
    ensures next { IfOk result (λ p. p.1 ≤ length bytes.now) }
    ensures off { IfErr result (IsOff (read_body bytes.now kind at)) }
{
    if kind == 11 {
        let (_, next) = read_version(bytes, at)?;
        return Ok((Record::Mark, next));
    }
    let (op, next) = read_op(alloc, bytes, kind, at)?;
    Ok((recorded(kind, op), next))
}

/// The record of an op that was read behind a first byte.
fn recorded(kind: u8, op: Op) -> Record
    ensures { result ≡ recorded kind op }
{
    if kind == 1 || kind == 4 {
        Record::Before(op)
    } else {
        Record::Now(op)
    }
}

/// The byte that tells the second version.
#[tactic(auto, unfolding(crate::specs::Bytes::read_version))]
fn read_version(bytes: &[u8], at: usize) -> Result<(u8, usize), FieldFault>
    requires { at ≤ length bytes.now }
    ensures ok { IfOk result (λ p. read_version bytes.now at ≡ Got p.0 p.1) }
    ensures next { IfOk result (λ p. p.1 ≤ length bytes.now) }
    ensures off { IfErr result (IsOff (read_version bytes.now at)) }
{
    let (byte, next) = read_u8(bytes, at)?;
    check(byte == 2, at)?;
    Ok((byte, next))
}

#[tactic(auto, unfolding(crate::specs::Bytes::read_op))]
fn read_op(alloc: Global, bytes: &[u8], kind: u8, at: usize) -> Result<(Op, usize), FieldFault>
    requires { at ≤ length bytes.now }
    ensures ok { IfOk result (λ p. read_op bytes.now kind at ≡ Got p.0 p.1) }
    ensures next { IfOk result (λ p. p.1 ≤ length bytes.now) }
    ensures off { IfErr result (IsOff (read_op bytes.now kind at)) }
{
    if kind == 1 {
        return read_format(alloc, bytes, at);
    }
    if kind == 10 {
        let (_, next) = read_version(bytes, at)?;
        return read_format(alloc, bytes, next);
    }
    let (log, next) = read_log(bytes, at)?;
    read_fields(alloc, bytes, kind, log, next)
}

#[tactic(auto, unfolding(crate::specs::Bytes::read_fields))]
fn read_fields(
    alloc: Global,
    bytes: &[u8],
    kind: u8,
    log: LogId,
    at: usize,
) -> Result<(Op, usize), FieldFault>
    requires { at ≤ length bytes.now }
    ensures ok { IfOk result (λ p. read_fields bytes.now kind log at ≡ Got p.0 p.1) }
    ensures next { IfOk result (λ p. p.1 ≤ length bytes.now) }
    ensures off { IfErr result (IsOff (read_fields bytes.now kind log at)) }
{
    if kind == 2 {
        return read_accept(alloc, bytes, log, at);
    }
    if kind == 3 {
        return read_seal(bytes, log, at);
    }
    if kind == 4 {
        return read_clean(true, bytes, log, at);
    }
    if kind == 5 {
        let (trim, next) = read_number(bytes, at)?;
        return Ok((Op::Trim { log, trim }, next));
    }
    if kind == 6 {
        return read_refill(alloc, bytes, log, at);
    }
    if kind == 7 {
        return Ok((Op::Refilled { log }, at));
    }
    read_clean(false, bytes, log, at)
}

#[tactic(auto, unfolding(crate::specs::Bytes::read_accept))]
fn read_accept(
    alloc: Global,
    bytes: &[u8],
    log: LogId,
    at: usize,
) -> Result<(Op, usize), FieldFault>
    requires { at ≤ length bytes.now }
    ensures ok { IfOk result (λ p. read_accept bytes.now log at ≡ Got p.0 p.1) }
    ensures next { IfOk result (λ p. p.1 ≤ length bytes.now) }
    ensures off { IfErr result (IsOff (read_accept bytes.now log at)) }
{
    let (lng, at_entry) = read_u32(bytes, at)?;
    check(lng <= GREATEST_LNG, at)?;
    let (entry, next) = read_entry(alloc, bytes, Beside::Bridges, greatest(), 0, at_entry)?;
    Ok((Op::Accept { log, lng, entry }, next))
}

#[tactic(auto, unfolding(crate::specs::Bytes::read_seal))]
fn read_seal(bytes: &[u8], log: LogId, at: usize) -> Result<(Op, usize), FieldFault>
    requires { at ≤ length bytes.now }
    ensures ok { IfOk result (λ p. read_seal bytes.now log at ≡ Got p.0 p.1) }
    ensures next { IfOk result (λ p. p.1 ≤ length bytes.now) }
    ensures off { IfErr result (IsOff (read_seal bytes.now log at)) }
{
    let (ballot, next) = read_u32(bytes, at)?;
    check(1 <= ballot && ballot <= GREATEST_EPOCH, at)?;
    Ok((Op::Seal { log, ballot }, next))
}

#[tactic(auto, unfolding(crate::specs::Bytes::read_clean))]
fn read_clean(older: bool, bytes: &[u8], log: LogId, at: usize) -> Result<(Op, usize), FieldFault>
    requires { at ≤ length bytes.now }
    ensures ok { IfOk result (λ p. read_clean older bytes.now log at ≡ Got p.0 p.1) }
    ensures next { IfOk result (λ p. p.1 ≤ length bytes.now) }
    ensures off { IfErr result (IsOff (read_clean older bytes.now log at)) }
{
    let (epoch, at_summary) = read_u32(bytes, at)?;
    check(1 <= epoch && epoch <= GREATEST_EPOCH, at)?;
    let (summary, next) = read_either(older, bytes, epoch, at_summary)?;
    Ok((
        Op::Clean {
            log,
            epoch,
            summary,
        },
        next,
    ))
}

/// The summary of the epoch, in its older form or its present one.
fn read_either(
    older: bool,
    bytes: &[u8],
    epoch: u32,
    at: usize,
) -> Result<(Summary, usize), FieldFault>
    requires { at ≤ length bytes.now }
    ensures ok { IfOk result (λ p. read_either older bytes.now epoch at ≡ Got p.0 p.1) }
    ensures next { IfOk result (λ p. p.1 ≤ length bytes.now) }
    ensures off { IfErr result (IsOff (read_either older bytes.now epoch at)) }
{
    if older {
        return read_older_summary(bytes, epoch, at);
    }
    read_summary(bytes, epoch, at)
}

#[tactic(auto, unfolding(crate::specs::Bytes::read_refill))]
fn read_refill(
    alloc: Global,
    bytes: &[u8],
    log: LogId,
    at: usize,
) -> Result<(Op, usize), FieldFault>
    requires { at ≤ length bytes.now }
    ensures ok { IfOk result (λ p. read_refill bytes.now log at ≡ Got p.0 p.1) }
    ensures next { IfOk result (λ p. p.1 ≤ length bytes.now) }
    ensures off { IfErr result (IsOff (read_refill bytes.now log at)) }
{
    let (count, at_entries) = read_u16(bytes, at)?;
    check(1 <= count && count <= 64, at)?;
    let first = Lsn::from_u64(0);
    let (entries, next) = read_entries(
        alloc,
        bytes,
        Beside::Bridges,
        greatest(),
        count,
        first,
        at_entries,
    )?;
    Ok((Op::Refill { log, entries }, next))
}

/// The greatest number.
fn greatest() -> Lsn
    ensures { result ≡ 2 ^ 64 - 1 }
{
    Lsn::from_u64(u64::MAX)
}

#[tactic(auto, unfolding(crate::specs::Bytes::read_format))]
fn read_format(alloc: Global, bytes: &[u8], at: usize) -> Result<(Op, usize), FieldFault>
    requires { at ≤ length bytes.now }
    ensures ok { IfOk result (λ p. read_format bytes.now at ≡ Got p.0 p.1) }
    ensures next { IfOk result (λ p. p.1 ≤ length bytes.now) }
    ensures off { IfErr result (IsOff (read_format bytes.now at)) }
{
    let (generation, at_count) = read_u32(bytes, at)?;
    let (count, at_epochs) = read_u8(bytes, at_count)?;
    let (epochs, next) = read_epochs(alloc, bytes, count, at_epochs)?;
    Ok((Op::Format { generation, epochs }, next))
}

#[tactic(auto, unfolding(crate::specs::Bytes::read_epoch))]
fn read_epoch(bytes: &[u8], least: u32, at: usize) -> Result<((LogId, u32), usize), FieldFault>
    requires place { at ≤ length bytes.now }
    requires least { 1 ≤ least }
    ensures ok { IfOk result (λ p. read_epoch bytes.now least at ≡ Got (p.0.0, p.0.1) p.1) }
    ensures next { IfOk result (λ p. p.1 ≤ length bytes.now) }
    ensures off { IfErr result (IsOff (read_epoch bytes.now least at)) }
    ensures log { IfOk result (λ p. p.0.0 ≤ 65535) }
{
    let (log, at_epoch) = read_u32(bytes, at)?;
    check(least <= log && log <= 65_535, at)?;
    let Some(id) = LogId::new(log) else {
        return Err(FieldFault::NoMemory);
    };
    let (epoch, next) = read_u32(bytes, at_epoch)?;
    check(1 <= epoch, at_epoch)?;
    Ok(((id, epoch), next))
}

fn read_epochs(
    alloc: Global,
    bytes: &[u8],
    count: u8,
    at: usize,
) -> Result<(Epochs, usize), FieldFault>
    requires { at ≤ length bytes.now }
    ensures ok { IfOk result (λ p. read_epochs bytes.now count 1 at ≡ Got p.0 p.1) }
    ensures next { IfOk result (λ p. p.1 ≤ length bytes.now) }
    ensures off { IfErr result (IsOff (read_epochs bytes.now count 1 at)) }
{
    let mut list = Vec::new(alloc);
    let mut next = at;
    let mut least: u32 = 1;
    'epochs: for _ in 0..count {
        let (epoch, behind) = read_epoch(bytes, least, next)?;
        least = epoch.0.number() + 1;
        next = behind;
        push(&mut list, epoch)?;
    }
    Ok((Epochs::new(list), next))
}

fn push(list: &mut Vec<(LogId, u32)>, epoch: (LogId, u32)) -> Result<(), NoMemory>
    ensures { OnOk result (list.new.items ≡ list.old.items ++ epoch ∷ []) }
{
    list.push(epoch)?;
    Ok(())
}
