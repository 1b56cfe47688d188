// Frames at the front of bytes.
ghost use Rattle.std.specs.Prelude.{◌≡◌, ◌≤◌, ◌<◌, ◌+◌, ◌^◌, ◌++◌, ℕ, length, drop, IfOk, IfErr, IfSome, IfNone};
ghost use Rattle.ld_ids.specs.Bytes.{AreBytes};
ghost use Rattle.ld_msg.specs.Bounds.{IsMessage};
ghost use Rattle.ld_fields.specs.Fields.{Got};
ghost use Rattle.ld_wire.specs.Frames.{frame_of};
ghost use Rattle.ld_fields.specs.Faults.{IsOff};
ghost use Rattle.ld_wire.specs.Faults.{IsRefused, IsOffIn};
ghost use Rattle.ld_wire.specs.Judging.{Complete, Waits, judge, behind, is_kind, read_msg};

use crate::WireFault;
use crate::actor::read_who;
use crate::fields::read_body;
use crate::role::{receiver, sender};
use byteorder::{BigEndian, ByteOrder};
use ld_fields::{FieldFault, check, read_log};
use ld_msg::Msg;
use std::alloc::Global;

/// The greatest length of a frame, which counts the bytes behind it.
const LONGEST: u32 = 8_388_608;

/// The message that the bytes begin with, and how many bytes its frame has; None where less than a frame is there.
#[tactic(auto, using(crate::proofs::Judges::read_back))]
pub(crate) fn read_frame(alloc: Global, bytes: &[u8]) -> Result<Option<(Msg, usize)>, WireFault>
    ensures none { IfOk result (λ o. IfNone o (judge bytes.now ≡ Waits)) }
    ensures some { IfOk result (λ o. IfSome o (λ p. judge bytes.now ≡ Complete p.0 (drop p.1 bytes.now))) }
    ensures size { IfOk result (λ o. IfSome o (λ p. p.1 ≤ length bytes.now)) }
    ensures off { IfErr result (IsRefused (judge bytes.now)) }
    ensures message { IfOk result (λ o. IfSome o (λ p. IsMessage p.0)) }
    ensures frame { IfOk result (λ o. IfSome o (λ p. bytes.now ≡ frame_of p.0 ++ drop p.1 bytes.now)) }
{
    judged(alloc, bytes)
}

fn judged(alloc: Global, bytes: &[u8]) -> Result<Option<(Msg, usize)>, WireFault>
    ensures none { IfOk result (λ o. IfNone o (judge bytes.now ≡ Waits)) }
    ensures some { IfOk result (λ o. IfSome o (λ p. judge bytes.now ≡ Complete p.0 (drop p.1 bytes.now))) }
    ensures size { IfOk result (λ o. IfSome o (λ p. p.1 ≤ length bytes.now)) }
    ensures off { IfErr result (IsRefused (judge bytes.now)) }
    ensures bytes { AreBytes bytes.now }
{
    let Some(size) = read_size(bytes)? else {
        return Ok(None);
    };
    let Some(message) = read_behind(alloc, &bytes[4..], size)? else {
        return Ok(None);
    };
    Ok(Some((message, 4 + size)))
}

/// The length that the bytes begin with, where it is there.
#[tactic(auto, unfolding(crate::specs::Judging::judge, crate::specs::Judging::sized))]
fn read_size(bytes: &[u8]) -> Result<Option<usize>, WireFault>
    ensures none { IfOk result (λ o. IfNone o (judge bytes.now ≡ Waits)) }
    ensures some { IfOk result (λ o. IfSome o (λ n. judge bytes.now ≡ behind n (drop 4 bytes.now))) }
    ensures bounds { IfOk result (λ o. IfSome o (λ n. (1 ≤ n) × (n < 2 ^ 32) × (4 ≤ length bytes.now))) }
    ensures off { IfErr result (IsRefused (judge bytes.now)) }
{
    if bytes.len() < 4 {
        return Ok(None);
    }
    let size = BigEndian::read_u32(bytes);
    if size > LONGEST {
        return Err(WireFault::TooLong(size));
    }
    if size == 0 {
        return Err(WireFault::BadField(0, 0));
    }
    Ok(Some(size as usize))
}

/// The message behind a length, where all of it is there.
#[tactic(auto, unfolding(crate::specs::Judging::behind, crate::specs::Judging::of_kind))]
fn read_behind(alloc: Global, bytes: &[u8], size: usize) -> Result<Option<Msg>, WireFault>
    requires { 1 ≤ size }
    ensures none { IfOk result (λ o. IfNone o (behind size bytes.now ≡ Waits)) }
    ensures some { IfOk result (λ o. IfSome o (λ m. behind size bytes.now ≡ Complete m (drop size bytes.now))) }
    ensures size { IfOk result (λ o. IfSome o (λ m. size ≤ length bytes.now)) }
    ensures off { IfErr result (IsRefused (behind size bytes.now)) }
{
    if bytes.is_empty() {
        return Ok(None);
    }
    let kind = bytes[0];
    if !is_kind(kind) {
        return Err(WireFault::BadKind(kind));
    }
    if bytes.len() < size {
        return Ok(None);
    }
    let message = read_msg(alloc, &bytes[..size], kind)?;
    Ok(Some(message))
}

/// Whether messages have the kind; 5, 9 and 14 were those of the first version's closes and ends.
fn is_kind(kind: u8) -> bool
    ensures { result ≡ is_kind kind }
{
    1 <= kind && kind <= 20 && !(kind == 5 || kind == 9 || kind == 14)
}

/// The message of the kind that the bytes of a frame are, the kind among them.
fn read_msg(alloc: Global, bytes: &[u8], kind: u8) -> Result<Msg, WireFault>
    requires { 1 ≤ length bytes.now }
    ensures ok { IfOk result (λ m. read_msg kind bytes.now ≡ Got m (length bytes.now)) }
    ensures off { IfErr result (IsOffIn kind (read_msg kind bytes.now)) }
{
    match read_fields(alloc, bytes, kind) {
        Ok(message) => Ok(message),
        Err(fault) => Err(in_kind(kind, fault)),
    }
}

fn in_kind(kind: u8, fault: FieldFault) -> WireFault
    ensures bad { (place : ℕ) → fault ≡ FieldFault.Bad place → result ≡ WireFault.BadField kind place }
    ensures none { fault ≡ FieldFault.NoMemory → result ≡ WireFault.NoMemory }
{
    match fault {
        FieldFault::Bad(place) => WireFault::BadField(kind, place),
        FieldFault::NoMemory => WireFault::NoMemory,
    }
}

#[tactic(auto, unfolding(crate::specs::Judging::read_msg))]
fn read_fields(alloc: Global, bytes: &[u8], kind: u8) -> Result<Msg, FieldFault>
    requires { 1 ≤ length bytes.now }
    ensures ok { IfOk result (λ m. read_msg kind bytes.now ≡ Got m (length bytes.now)) }
    ensures off { IfErr result (IsOff (read_msg kind bytes.now)) }
{
    let (from, at_to) = read_who(bytes, sender(kind), 1)?;
    let (to, at_log) = read_who(bytes, receiver(kind), at_to)?;
    let (log, at_body) = read_log(bytes, at_log)?;
    let (body, next) = read_body(alloc, bytes, kind, &from, &to, at_body)?;
    check(bytes.len() <= next, next)?;
    Ok(Msg {
        from,
        to,
        log,
        body,
    })
}
