// Fields of bytes.
ghost use Rattle.std.specs.Prelude.{◌≡◌, ◌≤◌, true, false, length, drop, IfOk, IfErr, OnOk};
ghost use Rattle.ld_fields.specs.Fields.{Got, field};
ghost use Rattle.ld_fields.specs.Faults.{IsOff};

use crate::FieldFault;
use byteorder::{BigEndian, ByteOrder};
use ld_lsn::Lsn;

/// The byte at an offset, and the offset behind it.
#[tactic(auto, using(crate::proofs::There::field_got, crate::proofs::There::field_off, crate::proofs::There::byte_is))]
pub fn read_u8(bytes: &[u8], at: usize) -> Result<(u8, usize), FieldFault>
    requires { at ≤ length bytes.now }
    ensures ok { IfOk result (λ p. field 1 bytes.now at ≡ Got p.0 p.1) }
    ensures next { IfOk result (λ p. p.1 ≤ length bytes.now) }
    ensures off { IfErr result (IsOff (field 1 bytes.now at)) }
{
    if bytes.len() - at < 1 {
        return Err(FieldFault::Bad(at as u64));
    }
    Ok((bytes[at], at + 1))
}

/// The number of two bytes at an offset, and the offset behind it.
#[tactic(auto, using(crate::proofs::There::field_got, crate::proofs::There::field_off))]
pub fn read_u16(bytes: &[u8], at: usize) -> Result<(u16, usize), FieldFault>
    requires { at ≤ length bytes.now }
    ensures ok { IfOk result (λ p. field 2 bytes.now at ≡ Got p.0 p.1) }
    ensures next { IfOk result (λ p. p.1 ≤ length bytes.now) }
    ensures off { IfErr result (IsOff (field 2 bytes.now at)) }
{
    if bytes.len() - at < 2 {
        return Err(FieldFault::Bad(at as u64));
    }
    Ok((BigEndian::read_u16(rest(bytes, at)), at + 2))
}

/// The number of four bytes at an offset, and the offset behind it.
#[tactic(auto, using(crate::proofs::There::field_got, crate::proofs::There::field_off))]
pub fn read_u32(bytes: &[u8], at: usize) -> Result<(u32, usize), FieldFault>
    requires { at ≤ length bytes.now }
    ensures ok { IfOk result (λ p. field 4 bytes.now at ≡ Got p.0 p.1) }
    ensures next { IfOk result (λ p. p.1 ≤ length bytes.now) }
    ensures off { IfErr result (IsOff (field 4 bytes.now at)) }
{
    if bytes.len() - at < 4 {
        return Err(FieldFault::Bad(at as u64));
    }
    Ok((BigEndian::read_u32(rest(bytes, at)), at + 4))
}

/// The number of eight bytes at an offset, and the offset behind it.
#[tactic(auto, using(crate::proofs::There::field_got, crate::proofs::There::field_off))]
pub fn read_u64(bytes: &[u8], at: usize) -> Result<(u64, usize), FieldFault>
    requires { at ≤ length bytes.now }
    ensures ok { IfOk result (λ p. field 8 bytes.now at ≡ Got p.0 p.1) }
    ensures next { IfOk result (λ p. p.1 ≤ length bytes.now) }
    ensures off { IfErr result (IsOff (field 8 bytes.now at)) }
{
    if bytes.len() - at < 8 {
        return Err(FieldFault::Bad(at as u64));
    }
    Ok((BigEndian::read_u64(rest(bytes, at)), at + 8))
}

/// The number of an entry at an offset, and the offset behind it.
pub fn read_number(bytes: &[u8], at: usize) -> Result<(Lsn, usize), FieldFault>
    requires { at ≤ length bytes.now }
    ensures ok { IfOk result (λ p. field 8 bytes.now at ≡ Got p.0 p.1) }
    ensures next { IfOk result (λ p. p.1 ≤ length bytes.now) }
    ensures off { IfErr result (IsOff (field 8 bytes.now at)) }
{
    let (number, next) = read_u64(bytes, at)?;
    Ok((Lsn::from_u64(number), next))
}

/// Charges a field that is out of its range to its offset.
pub fn check(ok: bool, at: usize) -> Result<(), FieldFault>
    ensures ok { OnOk result (ok ≡ true) }
    ensures off { IfErr result (λ e. (ok ≡ false) × (e ≡ FieldFault.Bad at)) }
{
    if ok {
        Ok(())
    } else {
        Err(FieldFault::Bad(at as u64))
    }
}

/// What stands from an offset on.
fn rest(bytes: &[u8], at: usize) -> &[u8]
    requires { at ≤ length bytes.now }
    ensures { result.now ≡ drop at bytes.now }
{
    &bytes[at..]
}
