// The writing calls of a record, and of the switch before it, made ready before the first of them.
ghost use Rattle.std.specs.Prelude.{◌≡◌, ◌<◌, ◌≤◌, ◌+◌, ◌^◌, ◌-◌, ◌++◌, ◌∷◌, [], length, min, IfOk};
ghost use Rattle.ld_journal.specs.Format.{behind};
ghost use Rattle.ld_segment.specs.Slots.{head_bytes, says_bytes};
ghost use Rattle.ld_segment.specs.Plans.{seen_switch, end_before};

use crate::says;
use byteorder::{BigEndian, ByteOrder};
use ld_ids::NoMemory;
use std::alloc::{AllocError, Global};

const HEAD: u8 = 8;

/// What comes before a record.
#[derive(Drop)]
pub(crate) enum Switch {
    /// Nothing: it goes into the segment as it is.
    Stay,
    /// Both slots and the Base behind the first segment, and the head's record there.
    First {
        gate_at: u64,
        slots_at: u64,
        slots: Vec<u8>,
        head: [u8; 9],
        piece: [u8; 14],
    },
    /// The Base at its offset, and what the other slot says, which may be open.
    Later {
        base_at: u64,
        base: Vec<u8>,
        slot_at: u64,
        is_open: bool,
        says: [u8; 16],
    },
}

/// A record behind a gate, and what comes before it.
#[derive(Drop)]
pub struct Plan {
    pub(crate) switch: Switch,
    pub(crate) gate: u64,
    pub(crate) body: Vec<u8>,
    pub(crate) piece: Vec<u8>,
}

impl Plan {
    ghost use Rattle.ld_segment.specs.Left.{Switching, FirstSwitch};
    ghost use Rattle.ld_segment.specs.Lies.{shut_over};
    ghost use Rattle.ld_segment.specs.Plans.{Stays, First, Later, Planned, seen_plan, IsReady, planned_count, planned_end};

    /// A record in the segment as it is.
    pub fn stay(alloc: Global, gate: u64, body: Vec<u8>) -> Result<Plan, NoMemory>
        requires fits { length body.items < 2 ^ 32 }
        ensures ready { IfOk result (λ p. IsReady p) }
        ensures plan { IfOk result (λ p. seen_plan p ≡ record { before = Stays; gate = gate; body = body.items }) }
    {
        let piece = piece_of(alloc, &body)?;
        Ok(Plan {
            switch: Switch::Stay,
            gate,
            body,
            piece,
        })
    }

    /// A record behind the first switch: the head goes behind the gate that ends the first segment, and behind it both
    /// slots and the Base, which are given.
    pub fn first(
        alloc: Global,
        end: u64,
        slots: Vec<u8>,
        gate: u64,
        body: Vec<u8>,
    ) -> Result<Plan, NoMemory>
        requires place { end ≤ 2 ^ 40 }
        requires fits { length body.items < 2 ^ 32 }
        ensures ready { IfOk result (λ p. IsReady p) }
        ensures plan { IfOk result (λ p. seen_plan p ≡ record {
          before = First (record { gate_at = end; slots_at = end + 15; slots = slots.items; head = head_bytes (end + 15) });
          gate = gate;
          body = body.items;
        }) }
    {
        let piece = piece_of(alloc, &body)?;
        let head = head(end + 15);
        let head_piece = head_piece(&head);
        Ok(Plan {
            switch: Switch::First {
                gate_at: end,
                slots_at: end + 15,
                slots,
                head,
                piece: head_piece,
            },
            gate,
            body,
            piece,
        })
    }

    /// A record behind a later switch: the Base's record, which is given with a gate behind it, goes to its offset, and
    /// the slot that doesn't count is to say this number and that offset.
    pub fn later(
        alloc: Global,
        base_at: u64,
        base: Vec<u8>,
        slot_at: u64,
        is_open: bool,
        number: u64,
        gate: u64,
        body: Vec<u8>,
    ) -> Result<Plan, NoMemory>
        requires fits { length body.items < 2 ^ 32 }
        ensures ready { IfOk result (λ p. IsReady p) }
        ensures plan { IfOk result (λ p. seen_plan p ≡ record {
          before = Later (record { base_at = base_at; base = base.items; slot_at = slot_at; shut = shut_over is_open; says = says_bytes number base_at });
          gate = gate;
          body = body.items;
        }) }
    {
        let piece = piece_of(alloc, &body)?;
        Ok(Plan {
            switch: Switch::Later {
                base_at,
                base,
                slot_at,
                is_open,
                says: says(number, base_at),
            },
            gate,
            body,
            piece,
        })
    }

    /// How many writing calls it makes.
    pub fn calls(&self) -> u64
        ensures { result ≡ planned_count (seen_plan self.now) }
    {
        match &self.switch {
            Switch::Stay => 4,
            Switch::First { .. } => 10,
            Switch::Later { .. } => 11,
        }
    }

    /// The offset behind all that it writes, or the greatest number where that is more.
    pub fn end(&self) -> u64
        ensures { result ≡ min (planned_end (seen_plan self.now)) (2 ^ 64 - 1) }
    {
        let record = self.gate.saturating_add(self.body.len() as u64);
        switch_end(&self.switch).max(record.saturating_add(6))
    }
}

/// The offset behind all that a switch writes, or the greatest number where that is more.
fn switch_end(switch: &Switch) -> u64
    ensures { result ≡ min (end_before (seen_switch switch.now)) (2 ^ 64 - 1) }
{
    match switch {
        Switch::Stay => 0,
        Switch::First {
            gate_at,
            slots_at,
            slots,
            head,
            ..
        } => slots_at
            .saturating_add(slots.len() as u64)
            .max(gate_at.saturating_add(count(head)).saturating_add(6)),
        Switch::Later {
            base_at,
            base,
            slot_at,
            says,
            ..
        } => base_at
            .saturating_add(base.len() as u64)
            .max(slot_at.saturating_add(count(says)).saturating_add(1)),
    }
}

/// How many bytes there are.
fn count(bytes: &[u8]) -> u64
    ensures { result ≡ length bytes.now }
{
    bytes.len() as u64
}

/// What is written behind a gate: the body's length, the body, and the next gate, which isn't open.
fn piece_of(alloc: Global, body: &[u8]) -> Result<Vec<u8>, AllocError>
    requires { length body.now < 2 ^ 32 }
    ensures { IfOk result (λ piece. piece.items ≡ behind body.now) }
{
    let mut piece = Vec::from_slice(alloc, &(body.len() as u32).to_be_bytes())?;
    piece.extend_from_slice(body)?;
    piece.push(0)?;
    Ok(piece)
}

/// The body of the head, which holds the offset of the slots.
pub fn head(place: u64) -> [u8; 9]
    ensures { result ≡ head_bytes place }
{
    let mut bytes = [0; 9];
    bytes[0] = HEAD;
    BigEndian::write_u64(&mut bytes[1..], place);
    bytes
}

/// What is written behind its gate.
fn head_piece(head: &[u8; 9]) -> [u8; 14]
    ensures { result ≡ behind head.now }
{
    let mut bytes = [0; 14];
    bytes[3] = 9;
    bytes[4..13].copy_from_slice(head);
    bytes
}

/// Both slots as the first switch writes them: the first is open, and says that the first later segment has this offset.
pub fn first_slots(place: u64) -> [u8; 34]
    ensures { result ≡ 1 ∷ (says_bytes 1 place ++ (0 ∷ says_bytes 0 0)) }
{
    let mut bytes = [0; 34];
    bytes[0] = 1;
    bytes[1..17].copy_from_slice(&says(1, place));
    bytes
}
