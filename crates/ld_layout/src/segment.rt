// How a journal's segments lie on their disk, beside its index.
ghost use Rattle.std.specs.Prelude.{◌≡◌, ◌≤◌, ◌<◌, ◌+◌, ◌-◌, ◌^◌, ◌∷◌, [], ℕ, Bool, min, nat_le, true, false, None, Some, OnOk, IfOk, IfSome, IfNone, is_none};
ghost use Rattle.ld_table.specs.Table.{put};
ghost use Rattle.ld_msg.specs.Register.{record_length, journal_limit};
ghost use Rattle.ld_op.specs.declared.op.Op.{Op as Kind};
ghost use Rattle.ld_op.specs.Plain.{Plain as State, apply, op_length};
ghost use Rattle.ld_op.specs.Cells.{placed};
ghost use Rattle.ld_layout.specs.Layout.{switches, is_full_later, closed_areas, live_areas, used, least_for, full_for, room_for, kind_by, growth_told, switch_number, segment_at, new_segment, switched_to, base_length, passes_limit, with_record};
ghost use Rattle.ld_layout.specs.Areas.{least_place};
ghost use Rattle.ld_layout.specs.LaidOut.{segment_of, later_of, laid_out, gate_behind, ops_behind, is_past, passes_first, recorded};

use crate::listed::least_place_among;
use crate::{Areas, used};
use ld_ids::NoMemory;
use ld_op::Plain;
use std::alloc::Global;

/// The least number of op records in a full segment. A later segment is full at the number of entries of its Base where that
/// is greater.
pub const FULL_OPS: u64 = 64;

/// The least space for records in a later segment, in bytes; in one that grows, also the length of its Base. The record that
/// began the segment has room even where it is longer.
pub const LEAST_ROOM: u64 = 131_072;

/// The least number of op records in a full segment that is wide.
pub const WIDE_OPS: u64 = 4_096;

/// The least space for records in a later segment that is wide, in bytes.
pub const WIDE_ROOM: u64 = 4_194_304;

/// How many times the length of its Base the space for records in a wide segment is at least.
pub const WIDE_BASES: u64 = 16;

/// The limit of a journal: no record and no area passes this offset of its disk, in bytes.
pub const LIMIT: u64 = 1 << 40;

/// How much room for records a later segment has behind its Base: the least room, no less than the Base takes, or no less
/// than 16 Bases take and the room of a wide one.
#[derive(Clone, Copy, Debug, PartialEq, Eq)]
pub enum Growth {
    Still,
    Based,
    Wide,
}

/// A later segment: its offset, the entries of its Base, the op records behind it, its ending gate, the offset behind its
/// area, the older areas in which payloads of its entries stand, how many switches there were, and how its room grew.
#[derive(Drop)]
pub struct Segment {
    pub place: u64,
    pub based: u64,
    pub ops: u64,
    pub end: u64,
    pub limit: u64,
    pub areas: Areas,
    pub number: u64,
    pub grows: Growth,
}

impl Segment {
    /// Whether a switch comes before a record of so many bytes.
    fn is_full(&self, body: u64) -> bool
        ensures { result ≡ is_full_later body (Some (segment_of self.now)) }
    {
        full_ops(self.grows).max(self.based) <= self.ops || self.ends_by(body)
    }

    /// Whether the area ends before the gate behind a record of so many bytes.
    fn ends_by(&self, body: u64) -> bool
        ensures { result ≡ nat_le self.now.limit (self.now.end + record_length body) }
    {
        self.limit <= self.end.saturating_add(body).saturating_add(5)
    }
}

/// The op records of the first segment and its ending gate, the current later segment, and how the room of the next one
/// grows.
#[derive(Drop)]
pub struct Layout {
    pub ops: u64,
    pub end: u64,
    pub later: Option<Segment>,
    pub grows: Growth,
}

impl Layout {
    /// Whether a switch comes before a record of so many bytes.
    #[tactic(auto, unfolding(crate::specs::Layout::switches))]
    pub fn switches(&self, body: u64) -> bool
        ensures { (index : State) → result ≡ switches (laid_out self.now index) body }
    {
        match &self.later {
            Some(segment) => segment.is_full(body),
            None => FULL_OPS <= self.ops,
        }
    }

    /// The areas of closed segments in which payloads may stand, once the current one is closed.
    pub fn closed_areas(&self, alloc: Global) -> Result<Areas, NoMemory>
        requires { gate_behind self.now.end self.now.later + 1 < 2 ^ 64 }
        ensures { (index : State) → IfOk result (λ areas. areas ≡ closed_areas (laid_out self.now index) (later_of self.now.later)) }
    {
        match &self.later {
            Some(segment) => {
                let length = (segment.end + 1).saturating_sub(segment.place);
                with_area(alloc, &segment.areas, segment.place, length)
            }
            None => one_area(alloc, 0, self.end + 1),
        }
    }

    /// The areas that no new segment may overlap.
    pub fn live_areas(&self, alloc: Global) -> Result<Areas, NoMemory>
        requires { self.now.end + 49 < 2 ^ 64 }
        ensures { (index : State) → IfOk result (λ areas. areas ≡ live_areas (laid_out self.now index) (later_of self.now.later)) }
    {
        match &self.later {
            Some(segment) => {
                let length = segment.limit.saturating_sub(segment.place);
                with_two(alloc, &segment.areas, self.end + 49, segment.place, length)
            }
            None => one_area(alloc, 0, self.end + 49),
        }
    }
}

/// One area.
fn one_area(alloc: Global, place: u64, length: u64) -> Result<Areas, NoMemory>
    ensures { IfOk result (λ areas. areas ≡ (place, length) ∷ []) }
{
    let mut areas = Areas::new(alloc);
    areas.add(place, length)?;
    Ok(areas)
}

/// These areas and another one.
fn with_area(alloc: Global, areas: &Areas, place: u64, length: u64) -> Result<Areas, NoMemory>
    ensures { IfOk result (λ more. more ≡ put place length areas.now) }
{
    let mut more = areas.copy(alloc)?;
    more.add(place, length)?;
    Ok(more)
}

/// These areas, the first one's length and another one.
fn with_two(
    alloc: Global,
    areas: &Areas,
    first: u64,
    place: u64,
    length: u64,
) -> Result<Areas, NoMemory>
    ensures { IfOk result (λ more. more ≡ put place length (put 0 first areas.now)) }
{
    let mut more = with_area(alloc, areas, 0, first)?;
    more.add(place, length)?;
    Ok(more)
}

/// How many bytes a Base takes, or the greatest number where it takes more.
pub fn base_length(index: &Plain, areas: &Areas) -> u64
    ensures { result ≡ min (base_length index.now.state areas.now) (2 ^ 64 - 1) }
{
    let listed = (areas.count() as u64).saturating_mul(16);
    index
        .index_length()
        .saturating_add(listed)
        .saturating_add(5)
}

/// The least number of op records in a full later segment.
pub fn full_ops(grows: Growth) -> u64
    ensures { result ≡ full_for grows }
{
    match grows {
        Growth::Still | Growth::Based => FULL_OPS,
        Growth::Wide => WIDE_OPS,
    }
}

/// The least space for records behind a Base of so many bytes.
pub fn least_room(grows: Growth, base: u64) -> u64
    requires { base < 2 ^ 32 }
    ensures value { result ≡ least_for grows base }
    ensures fits { result < 2 ^ 42 }
{
    match grows {
        Growth::Still => LEAST_ROOM,
        Growth::Based => base.max(LEAST_ROOM),
        Growth::Wide => (WIDE_BASES * base).max(WIDE_ROOM),
    }
}

/// The first byte of a Base of the second version.
pub fn base_kind(grows: Growth) -> u8
    ensures { result ≡ kind_by grows }
{
    match grows {
        Growth::Still => 13,
        Growth::Based => 14,
        Growth::Wide => 15,
    }
}

/// How the room of a segment grew whose Base has this first byte.
pub fn growth_told(kind: u8) -> Growth
    ensures { result ≡ growth_told kind }
{
    match kind {
        14 => Growth::Based,
        15 => Growth::Wide,
        _ => Growth::Still,
    }
}

/// The least offset for a segment with a Base and room for a record of so many bytes each, and the offset behind its area,
/// where that isn't past the limit.
fn placed(base: u64, least: u64, cause: u64, live: &Areas) -> Option<(u64, u64)>
    requires base { base < 2 ^ 32 }
    requires least { least < 2 ^ 42 }
    requires cause { cause < 2 ^ 62 }
    ensures place { IfSome result (λ p. p.0 ≡ least_place (base + 6 + room_for least cause) 0 live.now) }
    ensures limit { IfSome result (λ p. p.1 ≡ p.0 + 6 + base + room_for least cause) }
    ensures within { IfSome result (λ p. p.1 ≤ journal_limit) }
    ensures past { IfNone result (journal_limit < least_place (base + 6 + room_for least cause) 0 live.now + 6 + base + room_for least cause) }
{
    let room = cause.max(least);
    match least_place_among(base + 6 + room, live) {
        Some(place) => {
            if place <= LIMIT && place + 6 + base + room <= LIMIT {
                Some((place, place + 6 + base + room))
            } else {
                None
            }
        }
        None => None,
    }
}

impl Segment {
    /// The segment at an offset behind whose Base, of so many bytes, no op record is read yet, and whose area has room for a
    /// first record of so many bytes; none where that would be past the limit.
    pub fn behind_base(
        place: u64,
        base: u64,
        based: u64,
        areas: Areas,
        number: u64,
        grows: Growth,
        first: u64,
    ) -> Option<Segment>
        requires base { base < 2 ^ 32 }
        requires first { first < 2 ^ 62 }
        ensures some { IfSome result (λ g. segment_of g ≡ segment_at place base based (room_for (least_for grows base) first) areas number grows) }
        ensures within { IfSome result (λ g. g.limit ≤ journal_limit) }
        ensures past { IfNone result (journal_limit < place + 6 + base + room_for (least_for grows base) first) }
    {
        let room = first.max(least_room(grows, base));
        if LIMIT < place || LIMIT < place + 6 + base + room {
            return None;
        }
        Some(Segment {
            place,
            based,
            ops: 0,
            end: place + 5 + base,
            limit: place + 6 + base + room,
            areas,
            number,
            grows,
        })
    }
}

/// Whether there is no segment.
fn is_missing(next: &Option<Segment>) -> bool
    ensures { result ≡ is_none next.now }
{
    match next {
        Some(_) => false,
        None => true,
    }
}

/// Whether a Base of so many bytes is too long.
fn is_long(base: u64) -> bool
    ensures { result ≡ nat_le (2 ^ 32) base }
{
    0x1_0000_0000 <= base
}

impl Layout {
    /// The number of the next switch, where it is one of 64 bits.
    fn next_number(&self) -> Option<u64>
        ensures some { IfSome result (λ n. n ≡ switch_number (later_of self.now.later) + 1) }
        ensures none { IfNone result (2 ^ 64 ≤ switch_number (later_of self.now.later) + 1) }
    {
        match &self.later {
            Some(segment) => segment.number.checked_add(1),
            None => Some(1),
        }
    }

    /// The segment that a switch begins for a record of so many bytes, or none where it would pass the limit, or its Base or
    /// its number would be too long.
    pub fn new_segment(
        &self,
        alloc: Global,
        index: &Plain,
        cause: u64,
    ) -> Result<Option<Segment>, NoMemory>
        requires gate { gate_behind self.now.end self.now.later + 1 < 2 ^ 64 }
        requires first { self.now.end + 49 < 2 ^ 64 }
        requires cause { cause < 2 ^ 62 }
        ensures some { IfOk result (λ found. IfSome found (λ g. segment_of g ≡ new_segment (laid_out self.now index.now.state) cause cause)) }
        ensures within { IfOk result (λ found. IfSome found (λ g. is_past index.now.state (segment_of g) ≡ false)) }
        ensures past { IfOk result (λ found. IfNone found (is_past index.now.state (new_segment (laid_out self.now index.now.state) cause cause) ≡ true)) }
    {
        let closed = self.closed_areas(alloc)?;
        let areas = used(alloc, index, &closed)?;
        let live = self.live_areas(alloc)?;
        Ok(self.segment_with(index, cause, areas, &live))
    }

    /// The same with the areas that stay used, and those that are live.
    fn segment_with(&self, index: &Plain, cause: u64, areas: Areas, live: &Areas) -> Option<Segment>
        requires areas { areas ≡ used index.now.state (closed_areas (laid_out self.now index.now.state) (later_of self.now.later)) }
        requires live { live.now ≡ live_areas (laid_out self.now index.now.state) (later_of self.now.later) }
        requires cause { cause < 2 ^ 62 }
        ensures some { IfSome result (λ g. segment_of g ≡ new_segment (laid_out self.now index.now.state) cause cause) }
        ensures within { IfSome result (λ g. is_past index.now.state (segment_of g) ≡ false) }
        ensures past { IfNone result (is_past index.now.state (new_segment (laid_out self.now index.now.state) cause cause) ≡ true) }
    {
        let base = base_length(index, &areas);
        if is_long(base) {
            return None;
        }
        match self.next_number() {
            Some(number) => self.first_free(index, cause, areas, live, base, number),
            None => None,
        }
    }

    /// The same with the length of its Base, which isn't too long, and its number.
    fn first_free(
        &self,
        index: &Plain,
        cause: u64,
        areas: Areas,
        live: &Areas,
        base: u64,
        number: u64,
    ) -> Option<Segment>
        requires areas { areas ≡ used index.now.state (closed_areas (laid_out self.now index.now.state) (later_of self.now.later)) }
        requires live { live.now ≡ live_areas (laid_out self.now index.now.state) (later_of self.now.later) }
        requires cause { cause < 2 ^ 62 }
        requires base { base ≡ base_length index.now.state (used index.now.state (closed_areas (laid_out self.now index.now.state) (later_of self.now.later))) }
        requires long { base < 2 ^ 32 }
        requires number { number ≡ switch_number (later_of self.now.later) + 1 }
        ensures some { IfSome result (λ g. segment_of g ≡ new_segment (laid_out self.now index.now.state) cause cause) }
        ensures within { IfSome result (λ g. is_past index.now.state (segment_of g) ≡ false) }
        ensures past { IfNone result (is_past index.now.state (new_segment (laid_out self.now index.now.state) cause cause) ≡ true) }
    {
        let based = index.entry_count();
        match placed(base, least_room(self.grows, base), cause, live) {
            Some(found) => Some(Segment {
                place: found.0,
                based,
                ops: 0,
                end: found.0 + 5 + base,
                limit: found.1,
                areas,
                number,
                grows: self.grows,
            }),
            None => None,
        }
    }

    /// Whether a record of so many bytes, or an area that it needs, would pass the limit, or a Base or the count of switches
    /// would be too long.
    #[tactic(auto, unfolding(crate::specs::Layout::passes_limit))]
    pub fn passes_limit(&self, alloc: Global, index: &Plain, body: u64) -> Result<bool, NoMemory>
        requires gate { gate_behind self.now.end self.now.later + 1 < 2 ^ 64 }
        requires first { self.now.end + 49 < 2 ^ 64 }
        requires body { body < 2 ^ 32 }
        ensures { (o : Kind) → op_length o ≡ body → IfOk result (λ past. past ≡ passes_limit (laid_out self.now index.now.state) o) }
    {
        if self.switches(body) {
            let next = self.new_segment(alloc, index, 5 + body)?;
            return Ok(is_missing(&next));
        }
        Ok(self.passes_here(body))
    }

    /// Whether a record of so many bytes in the first segment would pass the limit. In a later one it stays within the area.
    pub fn passes_here(&self, body: u64) -> bool
        requires { self.now.end + 49 < 2 ^ 64 }
        ensures { result ≡ passes_first self.now.end body self.now.later }
    {
        match &self.later {
            Some(_) => false,
            None => LIMIT < self.end.saturating_add(body).saturating_add(6),
        }
    }

    /// The gate behind the last record.
    pub fn gate(&self) -> u64
        ensures { result ≡ gate_behind self.now.end self.now.later }
    {
        match &self.later {
            Some(segment) => segment.end,
            None => self.end,
        }
    }

    /// The layout once this segment is the current one.
    pub fn switched(self, next: Segment) -> Layout
        ensures value { result ≡ record self { later = Some next } }
        ensures switch { (index : State) (cause room : ℕ) → segment_of next ≡ new_segment (laid_out self index) cause room → laid_out result index ≡ switched_to (laid_out self index) cause room }
    {
        let Layout {
            ops,
            end,
            later: _,
            grows,
        } = self;
        Layout {
            ops,
            end,
            later: Some(next),
            grows,
        }
    }

    /// The layout with a record of so many bytes more, which is an op's or a mark's.
    pub fn with_record(self, body: u64, is_op: bool) -> Layout
        requires end { gate_behind self.end self.later + record_length body < 2 ^ 64 }
        requires ops { ops_behind self.ops self.later + 1 < 2 ^ 64 }
        ensures value { result ≡ recorded self body is_op }
        ensures op { is_op ≡ true → (index : State) (o : Kind) → op_length o ≡ body → laid_out result (apply index (placed (gate_behind self.end self.later + 5) o)) ≡ with_record (laid_out self index) o }
    {
        let more = u64::from(is_op);
        let Layout {
            ops,
            end,
            later,
            grows,
        } = self;
        match later {
            Some(segment) => Layout {
                ops,
                end,
                later: Some(Segment {
                    place: segment.place,
                    based: segment.based,
                    ops: segment.ops + more,
                    end: segment.end + 5 + body,
                    limit: segment.limit,
                    areas: segment.areas,
                    number: segment.number,
                    grows: segment.grows,
                }),
                grows,
            },
            None => Layout {
                ops: ops + more,
                end: end + 5 + body,
                later: None,
                grows,
            },
        }
    }
}
