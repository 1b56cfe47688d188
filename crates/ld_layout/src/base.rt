// The body with which a later segment begins.
ghost use Rattle.std.specs.Prelude.{◌≡◌, ◌≤◌, ◌<◌, ◌+◌, ◌||◌, ◌==◌, ◌++◌, ℕ, List, true, length, IfOk, IfErr, OnOk};
ghost use Rattle.ld_fields.specs.Fields.{Got};
ghost use Rattle.ld_fields.specs.Faults.{IsOff};
ghost use Rattle.ld_op.specs.Judged.{IsRefused};
ghost use Rattle.byteorder.specs.Endian.{big_bytes};
ghost use Rattle.ld_op.specs.Indexed.{read_index, read_rising, read_table, IsBased, IsBasedTable};
ghost use Rattle.ld_op.specs.Plain.{Plain as State};
ghost use Rattle.ld_layout.specs.Base.{areas_based, base_bytes, read_area, is_base_kind, judge_base, IsBasedArea};
ghost use Rattle.ld_layout.specs.LaidOut.{base_of};

use crate::Areas;
use ld_fields::{FieldFault, check, put_number, put_u8, put_u32, read_u8, read_u32, read_u64};
use ld_ids::NoMemory;
use ld_lsn::Lsn;
use ld_op::{OpFault, Plain};
use std::alloc::Global;
use std::collections::BTreeMap;

/// An index, and the areas in which its payloads stand. The kind is its first byte: 13, or 14 where the room of its segment
/// grows with it, 15 where that is also wide, or 9 in a journal of the first version.
#[derive(Drop)]
pub struct Based {
    pub kind: u8,
    pub index: Plain,
    pub areas: Areas,
}

/// The bytes of a Base are read as that Base.
pub fn bases_are_judged()
    ensures { (kind : ℕ) (p : State) (areas : List (ℕ × ℕ)) → kind < 256 → is_base_kind kind ≡ true → IsBased (kind == 9) p → IsBasedTable IsBasedArea areas
        → judge_base (base_bytes kind p areas) ≡ Got (record { kind = kind; index = p; areas = areas }) (length (base_bytes kind p areas)) }
{}

/// Writes a Base's bytes behind those that are there. Without memory a part of them may be written.
#[tactic(auto, unfolding(crate::specs::Base::base_bytes))]
pub fn encode_base(
    out: &mut Vec<u8>,
    kind: u8,
    index: &Plain,
    areas: &Areas,
) -> Result<(), NoMemory>
    ensures { OnOk result (out.new.items ≡ out.old.items ++ base_bytes kind index.now.state areas.now) }
{
    put_u8(out, kind)?;
    index.encode_index(out)?;
    put_areas(out, areas)
}

/// Writes a count and the areas.
fn put_areas(out: &mut Vec<u8>, areas: &Areas) -> Result<(), NoMemory>
    ensures { OnOk result (out.new.items ≡ out.old.items ++ (big_bytes 4 (length areas.now) ++ areas_based areas.now)) }
{
    put_count(out, areas.count() as u64)?;
    put_each_area(out, areas.all())
}

/// Writes the lowest four bytes of a count.
fn put_count(out: &mut Vec<u8>, count: u64) -> Result<(), NoMemory>
    ensures { OnOk result (out.new.items ≡ out.old.items ++ big_bytes 4 count) }
{
    put_u32(out, (count % 0x1_0000_0000) as u32)
}

/// Writes the areas.
fn put_each_area(out: &mut Vec<u8>, areas: &BTreeMap<u64, u64>) -> Result<(), NoMemory>
    ensures { OnOk result (out.new.items ≡ out.old.items ++ areas_based areas.now.entries) }
{
    'areas: for (place, length) in areas {
        put_area(out, *place, *length)?;
    }
    Ok(())
}

/// Writes an area.
fn put_area(out: &mut Vec<u8>, place: u64, length: u64) -> Result<(), NoMemory>
    ensures { OnOk result (out.new.items ≡ out.old.items ++ (big_bytes 8 place ++ big_bytes 8 length)) }
{
    put_number(out, Lsn::from_u64(place))?;
    put_number(out, Lsn::from_u64(length))
}

/// The Base that the bytes are. They are refused exactly where they are none, with the first byte of the first field that
/// is cut off or out of its range, or else the first byte that is too many.
pub fn decode_base(alloc: Global, bytes: &[u8]) -> Result<Based, OpFault>
    ensures ok { IfOk result (λ b. judge_base bytes.now ≡ Got (base_of b) (length bytes.now)) }
    ensures bad { IfErr result (IsRefused (judge_base bytes.now)) }
{
    match read_base(alloc, bytes) {
        Ok(base) => Ok(base),
        Err(FieldFault::Bad(place)) => Err(OpFault::Bad(place)),
        Err(FieldFault::NoMemory) => Err(OpFault::NoMemory),
    }
}

#[tactic(auto, unfolding(crate::specs::Base::judge_base))]
fn read_base(alloc: Global, bytes: &[u8]) -> Result<Based, FieldFault>
    ensures ok { IfOk result (λ b. judge_base bytes.now ≡ Got (base_of b) (length bytes.now)) }
    ensures off { IfErr result (IsOff (judge_base bytes.now)) }
{
    let (kind, at) = read_u8(bytes, 0)?;
    check(is_kind(kind), 0)?;
    let (index, at_areas) = read_index(alloc, bytes, kind == 9, at)?;
    let (areas, next) = read_areas(alloc, bytes, at_areas)?;
    check(bytes.len() <= next, next)?;
    Ok(Based { kind, index, areas })
}

/// Whether a Base may begin with the byte.
fn is_kind(kind: u8) -> bool
    ensures { result ≡ is_base_kind kind }
{
    kind == 9 || kind == 13 || kind == 14 || kind == 15
}

fn read_index(
    alloc: Global,
    bytes: &[u8],
    older: bool,
    at: usize,
) -> Result<(Plain, usize), FieldFault>
    requires { at ≤ length bytes.now }
    ensures ok { IfOk result (λ p. read_index bytes.now older at ≡ Got p.0.state p.1) }
    ensures next { IfOk result (λ p. p.1 ≤ length bytes.now) }
    ensures off { IfErr result (IsOff (read_index bytes.now older at)) }
{
    match Plain::decode_index(alloc, bytes, older, at) {
        Ok(found) => Ok(found),
        Err(OpFault::Bad(place)) => Err(FieldFault::Bad(place)),
        Err(OpFault::NoMemory) => Err(FieldFault::NoMemory),
    }
}

/// A count, and so many areas.
fn read_areas(alloc: Global, bytes: &[u8], at: usize) -> Result<(Areas, usize), FieldFault>
    requires { at ≤ length bytes.now }
    ensures ok { IfOk result (λ p. read_table bytes.now (read_area bytes.now) at ≡ Got p.0 p.1) }
    ensures next { IfOk result (λ p. p.1 ≤ length bytes.now) }
    ensures off { IfErr result (IsOff (read_table bytes.now (read_area bytes.now) at)) }
{
    let (count, next) = read_u32(bytes, at)?;
    read_so_many_areas(alloc, bytes, count, next)
}

fn read_so_many_areas(
    alloc: Global,
    bytes: &[u8],
    count: u32,
    at: usize,
) -> Result<(Areas, usize), FieldFault>
    requires { at ≤ length bytes.now }
    ensures ok { IfOk result (λ p. read_rising (read_area bytes.now) count 0 at ≡ Got p.0 p.1) }
    ensures next { IfOk result (λ p. p.1 ≤ length bytes.now) }
    ensures off { IfErr result (IsOff (read_rising (read_area bytes.now) count 0 at)) }
{
    let mut areas = Areas::new(alloc);
    let mut next = at;
    let mut least: u128 = 0;
    'areas: for _ in 0..count {
        let (area, behind) = read_area(bytes, least, next)?;
        least = after_place(area.0);
        next = behind;
        areas.add(area.0, area.1)?;
    }
    Ok((areas, next))
}

fn after_place(place: u64) -> u128
    ensures { result ≡ place + 1 }
{
    u128::from(place) + 1
}

/// An area, its offset at least the least.
#[tactic(auto, unfolding(crate::specs::Base::read_area))]
fn read_area(bytes: &[u8], least: u128, at: usize) -> Result<((u64, u64), usize), FieldFault>
    requires { at ≤ length bytes.now }
    ensures ok { IfOk result (λ p. read_area bytes.now least at ≡ Got (p.0.0, p.0.1) p.1) }
    ensures next { IfOk result (λ p. p.1 ≤ length bytes.now) }
    ensures off { IfErr result (IsOff (read_area bytes.now least at)) }
    ensures least { IfOk result (λ p. least ≤ p.0.0) }
{
    let (place, at_length) = read_u64(bytes, at)?;
    check(least <= u128::from(place), at)?;
    let (length, next) = read_u64(bytes, at_length)?;
    Ok(((place, length), next))
}
