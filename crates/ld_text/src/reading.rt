// The payload of a text.
ghost use Rattle.std.specs.Prelude.{◌≡◌, ◌+◌, ◌*◌, ◌++◌, ◌∷◌, [], MatchResult};
ghost use Rattle.ld_text.specs.declared.reading.At.TheVariants.{Plain};
ghost use Rattle.ld_text.specs.Text.{value, text_of, bytes_in};
ghost use Rattle.ld_text.specs.Reading.{IsByteOf, IsStep, IsNoText, escaped};

use crate::TextFault;
use crate::spelling::spell;
use std::alloc::Global;

/// What stands before the next byte of a text.
#[derive(Clone, Copy, Drop)]
pub enum At {
    /// Nothing that it belongs to.
    Plain,
    /// A `\`.
    Escape,
    /// A `\x`.
    High,
    /// A `\x` and a digit.
    Low(u8),
}

/// The value of a small hexadecimal digit.
fn value(digit: u8) -> u8
    ensures { result ≡ value digit }
{
    if digit < 58 {
        digit.saturating_sub(48)
    } else {
        digit.saturating_sub(87)
    }
}

/// The byte of two digits; none where they are no digits and make more than a byte.
fn byte_of(high: u8, low: u8) -> Option<u8>
    ensures { IsByteOf (16 * value high + value low) result }
{
    let byte = 16 * u32::from(value(high)) + u32::from(value(low));
    if byte < 256 { Some(byte as u8) } else { None }
}

/// Takes the next byte of a text, at this offset.
fn step(at: At, byte: u8, place: usize, out: &mut Vec<u8>) -> Result<At, TextFault>
    ensures { IsStep at byte out.old.items out.new.items result }
{
    match at {
        At::Plain if byte == b'\\' => Ok(At::Escape),
        At::Plain => put(out, byte),
        At::Escape if byte == b'x' => Ok(At::High),
        At::Escape => put(out, escaped(byte)),
        At::High => Ok(At::Low(byte)),
        At::Low(high) => match byte_of(high, byte) {
            Some(byte) => put(out, byte),
            None => Err(TextFault::Bad(place)),
        },
    }
}

/// The byte that a `\` and this one stand for.
fn escaped(byte: u8) -> u8
    ensures { result ≡ escaped byte }
{
    match byte {
        b'n' => b'\n',
        b'r' => b'\r',
        _ => b'\\',
    }
}

/// Puts a byte behind the others. Then nothing stands before the next one.
fn put(out: &mut Vec<u8>, byte: u8) -> Result<At, TextFault>
    ensures { MatchResult result (λ at. (at ≡ Plain) × (out.new.items ≡ out.old.items ++ byte ∷ [])) (λ fault. fault ≡ TextFault.NoMemory) }
{
    match out.push(byte) {
        Ok(()) => Ok(At::Plain),
        Err(_) => Err(TextFault::NoMemory),
    }
}

/// The bytes that a text spells, where it is one of some payload.
fn bytes_of(alloc: Global, line: &[u8]) -> Result<Vec<u8>, TextFault>
    ensures { MatchResult result (λ bytes. bytes.items ≡ bytes_in line.now) (IsNoText line.now) }
{
    let Ok(mut bytes) = Vec::with_capacity(alloc, line.len()) else {
        return Err(TextFault::NoMemory);
    };
    let mut at = At::Plain;
    let mut place = 0;
    'bytes: for byte in line {
        match step(at, *byte, place, &mut bytes) {
            Ok(next) => at = next,
            Err(fault) => return Err(fault),
        }
        place += 1;
    }
    Ok(bytes)
}

/// The payload whose text a line is, without the byte that ends it. Each payload has one text (`spell`).
///
/// It refuses with `Bad` a line that is the text of none, with the offset of its first byte that differs from the text of the
/// bytes that it spells, and when out of memory.
pub fn payload_of(alloc: Global, line: &[u8]) -> Result<Vec<u8>, TextFault>
    ensures { MatchResult result (λ bytes. line.now ≡ text_of bytes.items) (IsNoText line.now) }
{
    let bytes = bytes_of(alloc, line)?;
    let mut text = Vec::new(alloc);
    match spell(&bytes, &mut text) {
        Ok(()) => {}
        Err(_) => return Err(TextFault::NoMemory),
    }
    if text.as_slice() == line {
        return Ok(bytes);
    }
    Err(TextFault::Bad(first_difference(line, &text)))
}

/// The first offset at which two texts differ, or one ends.
fn first_difference(line: &[u8], text: &[u8]) -> usize {
    let shorter = line.len().min(text.len());
    'places: for place in 0..shorter {
        if line[place] != text[place] {
            return place;
        }
    }
    shorter
}
