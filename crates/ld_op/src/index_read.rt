// Reading an index from its bytes.
ghost use Rattle.std.specs.Prelude.{◌≡◌, ◌≤◌, ◌+◌, ◌-◌, ◌^◌, true, length, max, nat_le, IfOk, IfErr, OnOk};
ghost use Rattle.ld_table.specs.Table.{put};
ghost use Rattle.ld_table.specs.Words.{numbers_from};
ghost use Rattle.ld_msg.specs.declared.msg.What.TheVariants.{Rec};
ghost use Rattle.ld_fields.specs.Fields.{Got, within};
ghost use Rattle.ld_fields.specs.Faults.{IsOff};
ghost use Rattle.ld_fields.specs.Items.{is_number, greatest_epoch};
ghost use Rattle.ld_op.specs.Judged.{IsRefused};
ghost use Rattle.ld_op.specs.Places.{filled};
ghost use Rattle.ld_op.specs.Pointed.{seen_what};
ghost use Rattle.ld_op.specs.Room.{there_of};
ghost use Rattle.ld_op.specs.Marked.{marked};
ghost use Rattle.ld_op.specs.Indexed.{read_place, read_held, read_rising, read_table, read_based_entry, read_based_summary, read_based_lng, read_tables, read_based_log, read_index};

use crate::entries::EntryMap;
use crate::known_good::KnownGood;
use crate::log::LogState;
use crate::logs::LogMap;
use crate::pointed::{Held, Place, Pointed};
use crate::summaries::SummaryMap;
use crate::{OpFault, Plain};
use ld_fields::{
    FieldFault, GREATEST_EPOCH, GREATEST_LNG, check, is_number, is_tag, read_flag, read_number,
    read_summary, read_u8, read_u16, read_u32, read_u64,
};
use ld_ids::{LogId, NoMemory};
use ld_lsn::Lsn;
use ld_msg::Summary;
use std::alloc::Global;

/// What a log has beside its tables.
#[derive(Clone, Copy)]
pub(crate) struct Marks {
    sealed: u32,
    trim: Lsn,
    lost: bool,
    lost_to: u32,
}

impl Plain {
    /// The index that stands in the bytes from an offset on, and the offset behind it. In an older one no epoch was closed
    /// with a loss. The bytes are refused exactly where they are none, with the first byte of the first field that is cut
    /// off or out of its range.
    pub fn decode_index(
        alloc: Global,
        bytes: &[u8],
        older: bool,
        at: usize,
    ) -> Result<(Plain, usize), OpFault>
        requires { at ≤ length bytes.now }
        ensures ok { IfOk result (λ d. read_index bytes.now older at ≡ Got d.0.state d.1) }
        ensures next { IfOk result (λ d. d.1 ≤ length bytes.now) }
        ensures bad { IfErr result (IsRefused (read_index bytes.now older at)) }
    {
        match read_index(alloc, bytes, older, at) {
            Ok(found) => Ok(found),
            Err(FieldFault::Bad(place)) => Err(OpFault::Bad(place)),
            Err(FieldFault::NoMemory) => Err(OpFault::NoMemory),
        }
    }
}

#[tactic(auto, unfolding(crate::specs::Indexed::read_index))]
fn read_index(
    alloc: Global,
    bytes: &[u8],
    older: bool,
    at: usize,
) -> Result<(Plain, usize), FieldFault>
    requires { at ≤ length bytes.now }
    ensures ok { IfOk result (λ p. read_index bytes.now older at ≡ Got p.0.state p.1) }
    ensures next { IfOk result (λ p. p.1 ≤ length bytes.now) }
    ensures off { IfErr result (IsOff (read_index bytes.now older at)) }
{
    let (generation, at_logs) = read_u32(bytes, at)?;
    let (count, at_log) = read_u16(bytes, at_logs)?;
    let (logs, next) = read_logs(alloc, bytes, older, count, at_log)?;
    Ok((Plain::with(alloc, generation, logs), next))
}

/// So many logs, their numbers rising.
fn read_logs(
    alloc: Global,
    bytes: &[u8],
    older: bool,
    count: u16,
    at: usize,
) -> Result<(LogMap, usize), FieldFault>
    requires { at ≤ length bytes.now }
    ensures ok { IfOk result (λ p. read_rising (read_based_log bytes.now older) count 0 at ≡ Got (there_of p.0) p.1) }
    ensures next { IfOk result (λ p. p.1 ≤ length bytes.now) }
    ensures off { IfErr result (IsOff (read_rising (read_based_log bytes.now older) count 0 at)) }
{
    let mut logs = LogMap::new(alloc);
    let mut next = at;
    let mut least: u32 = 0;
    'logs: for _ in 0..count {
        let (found, behind) = read_based_log(alloc, bytes, older, least, next)?;
        least = after_log(found.0);
        next = behind;
        logs.add(found.0, found.1)?;
    }
    Ok((logs, next))
}

fn after_log(log: LogId) -> u32
    ensures { result ≡ log + 1 }
{
    log.number() + 1
}

/// A log, its number at least the least.
#[tactic(auto, unfolding(crate::specs::Indexed::read_based_log))]
fn read_based_log(
    alloc: Global,
    bytes: &[u8],
    older: bool,
    least: u32,
    at: usize,
) -> Result<((LogId, LogState), usize), FieldFault>
    requires { at ≤ length bytes.now }
    ensures ok { IfOk result (λ p. read_based_log bytes.now older least at ≡ Got (p.0.0, p.0.1.log) p.1) }
    ensures next { IfOk result (λ p. p.1 ≤ length bytes.now) }
    ensures off { IfErr result (IsOff (read_based_log bytes.now older least at)) }
    ensures there { IfOk result (λ p. p.0.1.there ≡ true) }
    ensures least { IfOk result (λ p. least ≤ p.0.0) }
{
    let (log, at_sealed) = read_u32(bytes, at)?;
    check(least.max(1) <= log && log <= 65_535, at)?;
    let Some(id) = LogId::new(log) else {
        return Err(FieldFault::NoMemory);
    };
    let (sealed, at_trim) = read_u32(bytes, at_sealed)?;
    let (trim, at_lost) = read_number(bytes, at_trim)?;
    let (lost, at_lost_to) = read_flag(bytes, at_lost)?;
    let (lost_to, at_tables) = read_u32(bytes, at_lost_to)?;
    let marks = Marks {
        sealed,
        trim,
        lost,
        lost_to,
    };
    let (state, next) = read_tables(alloc, bytes, older, marks, at_tables)?;
    Ok(((id, state), next))
}

/// A log's summaries, last known good offsets and entries.
#[tactic(auto, unfolding(crate::specs::Indexed::read_tables))]
fn read_tables(
    alloc: Global,
    bytes: &[u8],
    older: bool,
    marks: Marks,
    at: usize,
) -> Result<(LogState, usize), FieldFault>
    requires { at ≤ length bytes.now }
    ensures ok { IfOk result (λ p. read_tables bytes.now older (marked marks) at ≡ Got p.0.log p.1) }
    ensures next { IfOk result (λ p. p.1 ≤ length bytes.now) }
    ensures off { IfErr result (IsOff (read_tables bytes.now older (marked marks) at)) }
    ensures there { IfOk result (λ p. p.0.there ≡ true) }
{
    let (summaries, at_lngs) = read_summaries(alloc, bytes, older, at)?;
    let (lngs, at_entries) = read_lngs(alloc, bytes, at_lngs)?;
    let (entries, next) = read_entries(alloc, bytes, at_entries)?;
    let state = LogState::with(
        marks.sealed,
        marks.trim,
        marks.lost,
        marks.lost_to,
        summaries,
        lngs,
        entries,
    );
    Ok((state, next))
}

/// A count, and so many summaries.
fn read_summaries(
    alloc: Global,
    bytes: &[u8],
    older: bool,
    at: usize,
) -> Result<(SummaryMap, usize), FieldFault>
    requires { at ≤ length bytes.now }
    ensures ok { IfOk result (λ p. read_table bytes.now (read_based_summary bytes.now older) at ≡ Got (filled p.0) p.1) }
    ensures next { IfOk result (λ p. p.1 ≤ length bytes.now) }
    ensures off { IfErr result (IsOff (read_table bytes.now (read_based_summary bytes.now older) at)) }
{
    let (count, next) = read_u32(bytes, at)?;
    read_so_many_summaries(alloc, bytes, older, count, next)
}

fn read_so_many_summaries(
    alloc: Global,
    bytes: &[u8],
    older: bool,
    count: u32,
    at: usize,
) -> Result<(SummaryMap, usize), FieldFault>
    requires { at ≤ length bytes.now }
    ensures ok { IfOk result (λ p. read_rising (read_based_summary bytes.now older) count 0 at ≡ Got (filled p.0) p.1) }
    ensures next { IfOk result (λ p. p.1 ≤ length bytes.now) }
    ensures off { IfErr result (IsOff (read_rising (read_based_summary bytes.now older) count 0 at)) }
{
    let mut summaries = SummaryMap::new(alloc);
    let mut next = at;
    let mut least: u64 = 0;
    'summaries: for _ in 0..count {
        let (closed, behind) = read_based_summary(bytes, older, least, next)?;
        least = after_epoch(closed.0);
        next = behind;
        add_summary(&mut summaries, closed.0, closed.1)?;
    }
    Ok((summaries, next))
}

fn after_epoch(epoch: u32) -> u64
    ensures { result ≡ epoch + 1 }
{
    u64::from(epoch) + 1
}

/// Keeps the summary of the epoch.
fn add_summary(summaries: &mut SummaryMap, epoch: u32, summary: Summary) -> Result<(), NoMemory>
    ensures { OnOk result (filled summaries.new ≡ put epoch summary (filled summaries.old)) }
{
    summaries.reserve(epoch)?;
    summaries.put(epoch, summary);
    Ok(())
}

/// An epoch, at least the least, and its summary.
#[tactic(auto, unfolding(crate::specs::Indexed::read_based_summary))]
fn read_based_summary(
    bytes: &[u8],
    older: bool,
    least: u64,
    at: usize,
) -> Result<((u32, Summary), usize), FieldFault>
    requires { at ≤ length bytes.now }
    ensures ok { IfOk result (λ p. read_based_summary bytes.now older least at ≡ Got (p.0.0, p.0.1) p.1) }
    ensures next { IfOk result (λ p. p.1 ≤ length bytes.now) }
    ensures off { IfErr result (IsOff (read_based_summary bytes.now older least at)) }
    ensures least { IfOk result (λ p. least ≤ p.0.0) }
{
    let (epoch, at_summary) = read_u32(bytes, at)?;
    check(is_epoch(least, epoch), at)?;
    let (summary, next) = read_summary(bytes, epoch, at_summary)?;
    check(!(older && summary.loss), next - 1)?;
    Ok(((epoch, summary), next))
}

/// Whether it is an epoch, at least the least.
fn is_epoch(least: u64, epoch: u32) -> bool
    ensures { result ≡ within (max 1 least) greatest_epoch epoch }
{
    least.max(1) <= u64::from(epoch) && epoch <= GREATEST_EPOCH
}

/// A count, and so many last known good offsets.
fn read_lngs(alloc: Global, bytes: &[u8], at: usize) -> Result<(KnownGood, usize), FieldFault>
    requires { at ≤ length bytes.now }
    ensures ok { IfOk result (λ p. read_table bytes.now (read_based_lng bytes.now) at ≡ Got (filled p.0) p.1) }
    ensures next { IfOk result (λ p. p.1 ≤ length bytes.now) }
    ensures off { IfErr result (IsOff (read_table bytes.now (read_based_lng bytes.now) at)) }
{
    let (count, next) = read_u32(bytes, at)?;
    read_so_many_lngs(alloc, bytes, count, next)
}

fn read_so_many_lngs(
    alloc: Global,
    bytes: &[u8],
    count: u32,
    at: usize,
) -> Result<(KnownGood, usize), FieldFault>
    requires { at ≤ length bytes.now }
    ensures ok { IfOk result (λ p. read_rising (read_based_lng bytes.now) count 0 at ≡ Got (filled p.0) p.1) }
    ensures next { IfOk result (λ p. p.1 ≤ length bytes.now) }
    ensures off { IfErr result (IsOff (read_rising (read_based_lng bytes.now) count 0 at)) }
{
    let mut lngs = KnownGood::new(alloc);
    let mut next = at;
    let mut least: u64 = 0;
    'lngs: for _ in 0..count {
        let (told, behind) = read_based_lng(bytes, least, next)?;
        least = after_epoch(told.0);
        next = behind;
        add_lng(&mut lngs, told.0, told.1)?;
    }
    Ok((lngs, next))
}

/// Keeps the last known good offset of the epoch.
fn add_lng(lngs: &mut KnownGood, epoch: u32, lng: u32) -> Result<(), NoMemory>
    ensures { OnOk result (filled lngs.new ≡ put epoch lng (filled lngs.old)) }
{
    lngs.reserve(epoch)?;
    lngs.put(epoch, lng);
    Ok(())
}

/// An epoch, at least the least, and the last known good offset that was told of it. One that is 0 is read.
#[tactic(auto, unfolding(crate::specs::Indexed::read_based_lng))]
fn read_based_lng(bytes: &[u8], least: u64, at: usize) -> Result<((u32, u32), usize), FieldFault>
    requires { at ≤ length bytes.now }
    ensures ok { IfOk result (λ p. read_based_lng bytes.now least at ≡ Got (p.0.0, p.0.1) p.1) }
    ensures next { IfOk result (λ p. p.1 ≤ length bytes.now) }
    ensures off { IfErr result (IsOff (read_based_lng bytes.now least at)) }
    ensures least { IfOk result (λ p. least ≤ p.0.0) }
{
    let (epoch, at_lng) = read_u32(bytes, at)?;
    check(is_epoch(least, epoch), at)?;
    let (lng, next) = read_u32(bytes, at_lng)?;
    check(lng <= GREATEST_LNG, at_lng)?;
    Ok(((epoch, lng), next))
}

/// A count, and so many entries.
fn read_entries(alloc: Global, bytes: &[u8], at: usize) -> Result<(EntryMap, usize), FieldFault>
    requires { at ≤ length bytes.now }
    ensures ok { IfOk result (λ p. read_table bytes.now (read_based_entry bytes.now) at ≡ Got (filled p.0) p.1) }
    ensures next { IfOk result (λ p. p.1 ≤ length bytes.now) }
    ensures off { IfErr result (IsOff (read_table bytes.now (read_based_entry bytes.now) at)) }
{
    let (count, next) = read_u32(bytes, at)?;
    read_so_many_entries(alloc, bytes, count, next)
}

fn read_so_many_entries(
    alloc: Global,
    bytes: &[u8],
    count: u32,
    at: usize,
) -> Result<(EntryMap, usize), FieldFault>
    requires { at ≤ length bytes.now }
    ensures ok { IfOk result (λ p. read_rising (read_based_entry bytes.now) count 0 at ≡ Got (filled p.0) p.1) }
    ensures next { IfOk result (λ p. p.1 ≤ length bytes.now) }
    ensures off { IfErr result (IsOff (read_rising (read_based_entry bytes.now) count 0 at)) }
{
    let mut entries = EntryMap::new(alloc);
    let mut next = at;
    let mut least: u64 = 0;
    'entries: for _ in 0..count {
        let (entry, behind) = read_based_entry(bytes, least, next)?;
        least = after_number(entry.number());
        next = behind;
        add_entry(&mut entries, entry)?;
    }
    Ok((entries, next))
}

fn after_number(number: Lsn) -> u64
    requires { is_number number ≡ true }
    ensures { result ≡ number + 1 }
{
    number.value() + 1
}

/// Keeps the entry under its number.
fn add_entry(entries: &mut EntryMap, entry: Pointed) -> Result<(), NoMemory>
    ensures { OnOk result (filled entries.new ≡ put entry.number entry (filled entries.old)) }
{
    entries.reserve(entry.number().value())?;
    entries.put(entry);
    Ok(())
}

/// An entry, its number at least the least. No record stands there without its payload.
#[tactic(auto, unfolding(crate::specs::Indexed::read_based_entry))]
fn read_based_entry(bytes: &[u8], least: u64, at: usize) -> Result<(Pointed, usize), FieldFault>
    requires { at ≤ length bytes.now }
    ensures ok { IfOk result (λ p. read_based_entry bytes.now least at ≡ Got (p.0.number, p.0) p.1) }
    ensures next { IfOk result (λ p. p.1 ≤ length bytes.now) }
    ensures off { IfErr result (IsOff (read_based_entry bytes.now least at)) }
    ensures least { IfOk result (λ p. least ≤ p.0.number) }
    ensures number { IfOk result (λ p. is_number p.0.number ≡ true) }
{
    let (number, at_ballot) = read_number(bytes, at)?;
    check(is_number(number) && least <= number.value(), at)?;
    let (ballot, at_tag) = read_u32(bytes, at_ballot)?;
    check(
        number.epoch() <= ballot && ballot <= GREATEST_EPOCH,
        at_ballot,
    )?;
    let (tag, at_held) = read_u8(bytes, at_tag)?;
    check(is_tag(number, tag) && tag <= 3, at_tag)?;
    let (what, next) = read_held(bytes, at_held, tag)?;
    Ok((Pointed::new(number, ballot, what), next))
}

/// What stands behind a tag.
fn read_held(bytes: &[u8], at: usize, tag: u8) -> Result<(Held, usize), FieldFault>
    requires place { at ≤ length bytes.now }
    requires tag { tag ≤ 3 }
    ensures ok { IfOk result (λ p. read_held bytes.now at tag ≡ Got (seen_what p.0) p.1) }
    ensures next { IfOk result (λ p. p.1 ≤ length bytes.now) }
    ensures off { IfErr result (IsOff (read_held bytes.now at tag)) }
{
    if tag == 1 {
        return Ok((Held::Hole, at));
    }
    if tag == 2 {
        return Ok((Held::Bridge, at));
    }
    if tag == 3 {
        return Ok((Held::Plug, at));
    }
    let (place, next) = read_place(bytes, at)?;
    Ok((Held::Rec(place), next))
}

/// Where a payload stands, and how long it is. The offsets of its bytes are numbers of 64 bits.
fn read_place(bytes: &[u8], at: usize) -> Result<(Place, usize), FieldFault>
    requires { at ≤ length bytes.now }
    ensures ok { IfOk result (λ p. read_place bytes.now at ≡ Got (Rec (numbers_from p.0.at p.0.len)) p.1) }
    ensures next { IfOk result (λ p. p.1 ≤ length bytes.now) }
    ensures off { IfErr result (IsOff (read_place bytes.now at)) }
{
    let (place, at_length) = read_u64(bytes, at)?;
    let (len, next) = read_u16(bytes, at_length)?;
    let len = u64::from(len);
    check(is_place(place, len), at)?;
    Ok((Place { at: place, len }, next))
}

/// Whether so many bytes from the offset on stand at numbers of 64 bits.
fn is_place(at: u64, len: u64) -> bool
    ensures { result ≡ nat_le (at + len) (2 ^ 64 - 1) }
{
    len <= u64::MAX - at
}
