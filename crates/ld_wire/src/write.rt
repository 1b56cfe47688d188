// Writing messages as frames.
ghost use Rattle.std.specs.Prelude.{◌≡◌, ◌≤◌, ◌++◌, length, OnOk, IfOk};
ghost use Rattle.byteorder.specs.Endian.{big_bytes};
ghost use Rattle.ld_msg.specs.Bounds.{IsMessage, IsShort, AreEntries};
ghost use Rattle.ld_fields.specs.Items.{what_bytes, summary_bytes, flag};
ghost use Rattle.ld_ids.specs.Set.{set_bits};
ghost use Rattle.ld_wire.specs.Frames.{who_bytes, page_bytes, kind_of, body_bytes, msg_bytes, frame_of, CanCarry};

use crate::Frame;
use ld_fields::{
    put_entries, put_flag, put_number, put_summary, put_u8, put_u16, put_u32, put_what,
};
use ld_ids::{NoMemory, NodeSet};
use ld_lsn::Lsn;
use ld_msg::{Body, Entry, Msg, Summary, What, Who};
use std::alloc::Global;

/// The frame of a message, which holds what a frame can carry.
#[tactic(auto, using(crate::proofs::Sizes::msg_many), unfolding(crate::specs::Frames::frame_of))]
pub fn encode(alloc: Global, message: &Msg) -> Result<Frame, NoMemory>
    requires { IsMessage message.now }
    ensures { IfOk result (λ frame. frame ≡ frame_of message.now) }
{
    let bytes = to_bytes(alloc, message)?;
    with_length(alloc, &bytes)
}

/// A length, and the bytes that it counts.
fn with_length(alloc: Global, bytes: &[u8]) -> Result<Frame, NoMemory>
    requires { length bytes.now ≤ 8388608 }
    ensures { IfOk result (λ frame. frame ≡ big_bytes 4 (length bytes.now) ++ bytes.now) }
{
    let mut out = Vec::with_capacity(alloc, bytes.len() + 4)?;
    put_u32(&mut out, bytes.len() as u32)?;
    out.extend_from_slice(bytes)?;
    Ok(Frame::new(out))
}

/// What stands behind the length.
#[tactic(auto, unfolding(crate::specs::Frames::msg_bytes))]
fn to_bytes(alloc: Global, message: &Msg) -> Result<Vec<u8>, NoMemory>
    requires { IsMessage message.now }
    ensures value { IfOk result (λ bytes. bytes.items ≡ msg_bytes message.now) }
{
    let mut out = Vec::new(alloc);
    put_u8(&mut out, kind(&message.body))?;
    put_who(&mut out, &message.from)?;
    put_who(&mut out, &message.to)?;
    put_u32(&mut out, message.log.number())?;
    put_body(&mut out, &message.body)?;
    Ok(out)
}

/// The kind of a message.
#[tactic(auto, unfolding(crate::specs::Frames::kind_of))]
fn kind(body: &Body) -> u8
    ensures { result ≡ kind_of body.now }
{
    match body {
        Body::Store { .. } => 1,
        Body::Stored { .. } => 2,
        Body::SealedHere { .. } => 3,
        Body::LostHere { .. } => 4,
        Body::CleanHere { .. } => 17,
        Body::TrimmedHere { .. } => 6,
        Body::DigestAsk { .. } => 7,
        Body::DigestPage { .. } => 8,
        Body::Clean { .. } => 18,
        Body::Release { .. } => 10,
        Body::Trim { .. } => 11,
        Body::ReadAsk { .. } => 12,
        Body::ReadPage { .. } => 13,
        Body::ReadEnded { .. } => 19,
        Body::ReadTrim { .. } => 15,
        Body::ReadWait { .. } => 16,
        Body::ReadOne { .. } => 20,
    }
}

fn put_who(out: &mut Vec<u8>, who: &Who) -> Result<(), NoMemory>
    ensures { OnOk result (out.new.items ≡ out.old.items ++ who_bytes who.now) }
{
    match who {
        Who::Node(node) => {
            put_u8(out, 0)?;
            put_u32(out, u32::from(node.number()))
        }
        Who::Sequencer(epoch) => {
            put_u8(out, 1)?;
            put_u32(out, *epoch)
        }
        Who::Reader(place) => {
            put_u8(out, 2)?;
            put_u32(out, *place)
        }
    }
}

fn put_page(out: &mut Vec<u8>, entries: &[Entry]) -> Result<(), NoMemory>
    requires few { length entries.now ≤ 64 }
    requires entries { AreEntries entries.now }
    ensures { OnOk result (out.new.items ≡ out.old.items ++ page_bytes entries.now) }
{
    put_u16(out, entries.len() as u16)?;
    put_entries(out, entries)
}

/// The fields of a message.
#[tactic(auto, unfolding(crate::specs::Frames::body_bytes))]
fn put_body(out: &mut Vec<u8>, body: &Body) -> Result<(), NoMemory>
    requires { CanCarry body.now }
    ensures { OnOk result (out.new.items ≡ out.old.items ++ body_bytes body.now) }
{
    match body {
        Body::Store { number, lng, what } => put_store(out, *number, *lng, what),
        Body::Stored { number } => put_number(out, *number),
        Body::SealedHere { number, sealed } => put_sealed(out, *number, *sealed),
        Body::LostHere {
            number,
            round,
            generation,
            end,
        } => put_lost(out, *number, *round, *generation, *end),
        Body::CleanHere { number, summary } => put_clean_here(out, *number, summary),
        Body::TrimmedHere { number, trim } => put_two(out, *number, *trim),
        Body::DigestAsk { from } => put_number(out, *from),
        Body::DigestPage {
            from,
            upto,
            trim,
            lng,
            entries,
        } => put_digest_page(out, *from, *upto, *trim, *lng, entries.as_slice()),
        Body::Clean { epoch, summary } => put_clean(out, *epoch, summary),
        Body::Release { released } => put_number(out, *released),
        Body::Trim { trim } => put_number(out, *trim),
        Body::ReadAsk { round, from } => put_asked(out, *round, *from),
        Body::ReadPage {
            round,
            from,
            upto,
            clean,
            entries,
        } => put_read_page(out, *round, *from, *upto, *clean, entries.as_slice()),
        Body::ReadEnded {
            round,
            from,
            end,
            loss,
        } => put_ended(out, *round, *from, *end, *loss),
        Body::ReadTrim { round, from, trim } => put_answer(out, *round, *from, *trim),
        Body::ReadWait {
            round,
            from,
            released,
        } => put_answer(out, *round, *from, *released),
        Body::ReadOne {
            round,
            from,
            set,
            excluded,
        } => put_read_one(out, *round, *from, set, excluded),
    }
}

fn put_store(out: &mut Vec<u8>, number: Lsn, lng: u32, what: &What) -> Result<(), NoMemory>
    requires { IsShort what.now }
    ensures { OnOk result (out.new.items ≡ out.old.items ++ (big_bytes 8 number ++ (big_bytes 4 lng ++ what_bytes what.now))) }
{
    put_number(out, number)?;
    put_u32(out, lng)?;
    put_what(out, what)
}

fn put_sealed(out: &mut Vec<u8>, number: Lsn, sealed: u32) -> Result<(), NoMemory>
    ensures { OnOk result (out.new.items ≡ out.old.items ++ (big_bytes 8 number ++ big_bytes 4 sealed)) }
{
    put_number(out, number)?;
    put_u32(out, sealed)
}

fn put_lost(
    out: &mut Vec<u8>,
    number: Lsn,
    round: u32,
    generation: u32,
    end: Lsn,
) -> Result<(), NoMemory>
    ensures { OnOk result (out.new.items ≡ out.old.items ++ (big_bytes 8 number ++ (big_bytes 4 round ++ (big_bytes 4 generation ++ big_bytes 8 end)))) }
{
    put_number(out, number)?;
    put_u32(out, round)?;
    put_u32(out, generation)?;
    put_number(out, end)
}

fn put_clean_here(out: &mut Vec<u8>, number: Lsn, summary: &Summary) -> Result<(), NoMemory>
    ensures { OnOk result (out.new.items ≡ out.old.items ++ (big_bytes 8 number ++ summary_bytes summary.now)) }
{
    put_number(out, number)?;
    put_summary(out, summary)
}

fn put_clean(out: &mut Vec<u8>, epoch: u32, summary: &Summary) -> Result<(), NoMemory>
    ensures { OnOk result (out.new.items ≡ out.old.items ++ (big_bytes 4 epoch ++ summary_bytes summary.now)) }
{
    put_u32(out, epoch)?;
    put_summary(out, summary)
}

fn put_digest_page(
    out: &mut Vec<u8>,
    from: Lsn,
    upto: Lsn,
    trim: Lsn,
    lng: u32,
    entries: &[Entry],
) -> Result<(), NoMemory>
    requires few { length entries.now ≤ 64 }
    requires entries { AreEntries entries.now }
    ensures { OnOk result (out.new.items ≡ out.old.items ++ (big_bytes 8 from ++ (big_bytes 8 upto ++ (big_bytes 8 trim ++ (big_bytes 4 lng ++ page_bytes entries.now))))) }
{
    put_number(out, from)?;
    put_number(out, upto)?;
    put_entries_from(out, trim, lng, entries)
}

fn put_entries_from(
    out: &mut Vec<u8>,
    trim: Lsn,
    lng: u32,
    entries: &[Entry],
) -> Result<(), NoMemory>
    requires few { length entries.now ≤ 64 }
    requires entries { AreEntries entries.now }
    ensures { OnOk result (out.new.items ≡ out.old.items ++ (big_bytes 8 trim ++ (big_bytes 4 lng ++ page_bytes entries.now))) }
{
    put_number(out, trim)?;
    put_u32(out, lng)?;
    put_page(out, entries)
}

fn put_read_page(
    out: &mut Vec<u8>,
    round: u32,
    from: Lsn,
    upto: Lsn,
    clean: bool,
    entries: &[Entry],
) -> Result<(), NoMemory>
    requires few { length entries.now ≤ 64 }
    requires entries { AreEntries entries.now }
    ensures { OnOk result (out.new.items ≡ out.old.items ++ (big_bytes 4 round ++ (big_bytes 8 from ++ (big_bytes 8 upto ++ (big_bytes 1 (flag clean) ++ page_bytes entries.now))))) }
{
    put_u32(out, round)?;
    put_number(out, from)?;
    put_entries_upto(out, upto, clean, entries)
}

fn put_entries_upto(
    out: &mut Vec<u8>,
    upto: Lsn,
    clean: bool,
    entries: &[Entry],
) -> Result<(), NoMemory>
    requires few { length entries.now ≤ 64 }
    requires entries { AreEntries entries.now }
    ensures { OnOk result (out.new.items ≡ out.old.items ++ (big_bytes 8 upto ++ (big_bytes 1 (flag clean) ++ page_bytes entries.now))) }
{
    put_number(out, upto)?;
    put_flag(out, clean)?;
    put_page(out, entries)
}

fn put_two(out: &mut Vec<u8>, first: Lsn, second: Lsn) -> Result<(), NoMemory>
    ensures { OnOk result (out.new.items ≡ out.old.items ++ (big_bytes 8 first ++ big_bytes 8 second)) }
{
    put_number(out, first)?;
    put_number(out, second)
}

fn put_asked(out: &mut Vec<u8>, round: u32, from: Lsn) -> Result<(), NoMemory>
    ensures { OnOk result (out.new.items ≡ out.old.items ++ (big_bytes 4 round ++ big_bytes 8 from)) }
{
    put_u32(out, round)?;
    put_number(out, from)
}

fn put_read_one(
    out: &mut Vec<u8>,
    round: u32,
    from: Lsn,
    set: &NodeSet,
    excluded: &NodeSet,
) -> Result<(), NoMemory>
    ensures { OnOk result (out.new.items ≡ out.old.items ++ (big_bytes 4 round ++ (big_bytes 8 from ++ (big_bytes 2 (set_bits set.now) ++ big_bytes 2 (set_bits excluded.now))))) }
{
    put_asked(out, round, from)?;
    put_u16(out, set.bits())?;
    put_u16(out, excluded.bits())
}

fn put_ended(out: &mut Vec<u8>, round: u32, from: Lsn, end: Lsn, loss: bool) -> Result<(), NoMemory>
    ensures { OnOk result (out.new.items ≡ out.old.items ++ (big_bytes 4 round ++ (big_bytes 8 from ++ (big_bytes 8 end ++ big_bytes 1 (flag loss))))) }
{
    put_asked(out, round, from)?;
    put_number(out, end)?;
    put_flag(out, loss)
}

fn put_answer(out: &mut Vec<u8>, round: u32, from: Lsn, number: Lsn) -> Result<(), NoMemory>
    ensures { OnOk result (out.new.items ≡ out.old.items ++ (big_bytes 4 round ++ (big_bytes 8 from ++ big_bytes 8 number))) }
{
    put_asked(out, round, from)?;
    put_number(out, number)
}
