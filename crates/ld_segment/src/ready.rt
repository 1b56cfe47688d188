// The plan of a record, from what is known of its journal.
ghost use Rattle.std.specs.Prelude.{◌≡◌, ◌<◌, ◌≤◌, ◌+◌, ◌^◌, ◌++◌, ◌∷◌, [], length, IfOk, OnOk, IfSome, IfNone, is_some, true, false};
ghost use Rattle.ld_journal.specs.Format.{framed};
ghost use Rattle.ld_layout.specs.Base.{base_bytes};
ghost use Rattle.ld_layout.specs.Layout.{switches, base_length};
ghost use Rattle.ld_layout.specs.LaidOut.{laid_out, later_of, segment_of, gate_behind, is_past};
ghost use Rattle.ld_segment.specs.Lies.{Slots, segment_for, base_record, first_slots, gate_in};
ghost use Rattle.ld_segment.specs.Plans.{IsReady, seen_plan, planned, before_by};
ghost use Rattle.ld_segment.specs.Slots.{says_bytes};

use crate::plan::{Plan, first_slots};
use ld_ids::NoMemory;
use ld_layout::{Areas, Layout, Segment, base_length, encode_base};
use ld_op::Plain;
use std::alloc::Global;

const OPEN: u8 = 1;

impl Plan {
    /// The plan of a record of this body, and the new segment that it needs, where there is one; none where that would pass
    /// the limit, or its Base or its number would be too long. A Base begins with `kind`. `other` is the offset of the slot
    /// that doesn't count, which may be open.
    pub fn of(
        alloc: Global,
        layout: &Layout,
        index: &Plain,
        other: u64,
        is_open: bool,
        kind: u8,
        body: Vec<u8>,
    ) -> Result<Option<(Plan, Option<Segment>)>, NoMemory>
        requires gate { gate_behind layout.now.end layout.now.later + 1 < 2 ^ 64 }
        requires first { layout.now.end ≤ 2 ^ 40 }
        requires fits { length body.items < 2 ^ 32 }
        ensures ready { IfOk result (λ found. IfSome found (λ p. IsReady p.0)) }
        ensures next { IfOk result (λ found. IfSome found (λ p. IfSome p.1 (λ g. segment_of g ≡ segment_for (laid_out layout.now index.now.state) (length body.items)))) }
        ensures stays { IfOk result (λ found. IfSome found (λ p. is_some p.1 ≡ switches (laid_out layout.now index.now.state) (length body.items))) }
        ensures within { IfOk result (λ found. IfSome found (λ p. IfSome p.1 (λ g. is_past index.now.state (segment_of g) ≡ false))) }
        ensures plan { (z : Slots) → z.other ≡ other → z.is_open ≡ is_open
            → IfOk result (λ found. IfSome found (λ p. seen_plan p.0 ≡ planned kind (laid_out layout.now index.now.state) z body.items)) }
        ensures none { IfOk result (λ found. IfNone found ((switches (laid_out layout.now index.now.state) (length body.items) ≡ true)
            × (is_past index.now.state (segment_for (laid_out layout.now index.now.state) (length body.items)) ≡ true))) }
    {
        let size = body.len() as u64;
        if !layout.switches(size) {
            let plan = Plan::stay(alloc, gate(layout), body)?;
            return Ok(Some((plan, None)));
        }
        match layout.new_segment(alloc, index, 5 + size)? {
            Some(next) => {
                let plan = Plan::switched(alloc, layout, index, other, is_open, kind, &next, body)?;
                Ok(Some((plan, Some(next))))
            }
            None => Ok(None),
        }
    }

    /// The plan of a record behind a switch to this segment.
    fn switched(
        alloc: Global,
        layout: &Layout,
        index: &Plain,
        other: u64,
        is_open: bool,
        kind: u8,
        next: &Segment,
        body: Vec<u8>,
    ) -> Result<Plan, NoMemory>
        requires long { base_length index.now.state next.now.areas < 2 ^ 32 }
        requires first { layout.now.end ≤ 2 ^ 40 }
        requires fits { length body.items < 2 ^ 32 }
        ensures ready { IfOk result (λ p. IsReady p) }
        ensures plan { (z : Slots) → z.other ≡ other → z.is_open ≡ is_open
            → IfOk result (λ p. seen_plan p ≡ record {
              before = before_by kind (laid_out layout.now index.now.state) z (segment_of next.now) (later_of layout.now.later);
              gate = next.now.end;
              body = body.items;
            }) }
    {
        match &layout.later {
            Some(_) => {
                let base = base_record(alloc, kind, index, &next.areas)?;
                Plan::later(
                    alloc,
                    next.place,
                    base,
                    other,
                    is_open,
                    next.number,
                    next.end,
                    body,
                )
            }
            None => {
                let slots = slots_and_base(alloc, next.place, kind, index, &next.areas)?;
                Plan::first(alloc, layout.end, slots, next.end, body)
            }
        }
    }
}

/// The gate behind the last record.
fn gate(layout: &Layout) -> u64
    ensures { result ≡ gate_behind layout.now.end layout.now.later }
{
    match &layout.later {
        Some(segment) => segment.end,
        None => layout.end,
    }
}

/// A Base's record, and a shut gate behind it.
fn base_record(alloc: Global, kind: u8, index: &Plain, areas: &Areas) -> Result<Vec<u8>, NoMemory>
    requires { base_length index.now.state areas.now < 2 ^ 32 }
    ensures { IfOk result (λ base. base.items ≡ framed (base_bytes kind index.now.state areas.now) ++ 0 ∷ []) }
{
    let mut base = Vec::new(alloc);
    put_base(&mut base, kind, index, areas)?;
    Ok(base)
}

/// Both slots as the first switch writes them, and behind them the Base's record and a shut gate.
fn slots_and_base(
    alloc: Global,
    place: u64,
    kind: u8,
    index: &Plain,
    areas: &Areas,
) -> Result<Vec<u8>, NoMemory>
    requires { base_length index.now.state areas.now < 2 ^ 32 }
    ensures { IfOk result (λ slots. slots.items ≡ 1 ∷ (says_bytes 1 place ++ (0 ∷ (says_bytes 0 0 ++ (framed (base_bytes kind index.now.state areas.now) ++ 0 ∷ []))))) }
{
    let mut slots = Vec::from_slice(alloc, &first_slots(place))?;
    put_base(&mut slots, kind, index, areas)?;
    Ok(slots)
}

/// Writes a Base's record and a shut gate behind what is there, for which room is made at once. Without memory a part of
/// them may be written.
fn put_base(out: &mut Vec<u8>, kind: u8, index: &Plain, areas: &Areas) -> Result<(), NoMemory>
    requires { base_length index.now.state areas.now < 2 ^ 32 }
    ensures { OnOk result (out.new.items ≡ out.old.items ++ (framed (base_bytes kind index.now.state areas.now) ++ 0 ∷ [])) }
{
    let length = base_length(index, areas);
    out.reserve(length as usize + 6)?;
    out.push(OPEN)?;
    out.extend_from_slice(&(length as u32).to_be_bytes())?;
    encode_base(out, kind, index, areas)?;
    out.push(0)?;
    Ok(())
}
