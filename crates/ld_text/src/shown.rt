// The lines of a reader, as text or as JSON.
use crate::spell;
use base64::engine::general_purpose::STANDARD;
use ld_ids::NoMemory;
use std::alloc::Global;

/// How the records and gaps that a reader gets are shown.
#[derive(Debug, Clone, Copy, PartialEq, Eq, Drop)]
pub enum Form {
    /// As the lines of a transcript.
    Line,
    /// A record or a message as the text of its payload, and a gap as `\gap KIND LO HI`, which is no payload's text.
    Text,
    /// An object a line, payloads in base64.
    Json,
}

/// The field of this number of a line, from 0 on; nothing where there is none. Fields are between single spaces.
fn field(line: &[u8], number: usize) -> &[u8] {
    let mut at = 0;
    for part in line.split(|byte| *byte == b' ') {
        if at == number {
            return part;
        }
        at = at.saturating_add(1);
    }
    b""
}

/// The payload that hexadecimal digits spell, none for a dash. None where they spell none.
fn payload_in(alloc: Global, digits: &[u8]) -> Option<Vec<u8>> {
    if digits == b"-".as_slice() {
        return Some(Vec::new(alloc));
    }
    hex::decode(alloc, digits).ok()
}

/// Puts bytes behind the others.
fn put(bytes: &[u8], out: &mut Vec<u8>) -> Result<(), NoMemory> {
    out.extend_from_slice(bytes)?;
    Ok(())
}

/// Puts a payload in base64 behind the others.
fn put_base64(alloc: Global, payload: &[u8], out: &mut Vec<u8>) -> Result<(), NoMemory> {
    let text = STANDARD.encode(alloc, payload)?;
    put(text.as_bytes(), out)
}

/// Puts the object of a record, or of a message of a batch, behind the others.
fn put_object(
    alloc: Global,
    kind: &[u8],
    line: &[u8],
    payload: &[u8],
    out: &mut Vec<u8>,
) -> Result<(), NoMemory> {
    put(b"{\"", out)?;
    put(kind, out)?;
    put(b"\":\"", out)?;
    put(field(line, 2), out)?;
    if kind == b"message".as_slice() {
        put(b"\",\"index\":", out)?;
        put(field(line, 3), out)?;
        put(b",\"payload\":\"", out)?;
    } else {
        put(b"\",\"payload\":\"", out)?;
    }
    put_base64(alloc, payload, out)?;
    put(b"\"}\n", out)
}

/// Puts the object of a gap behind the others.
fn put_gap(line: &[u8], out: &mut Vec<u8>) -> Result<(), NoMemory> {
    put(b"{\"gap\":\"", out)?;
    put(field(line, 2), out)?;
    put(b"\",\"from\":\"", out)?;
    put(field(line, 3), out)?;
    put(b"\",\"to\":\"", out)?;
    put(field(line, 4), out)?;
    put(b"\"}\n", out)
}

/// Puts a line of a reader behind the others as it is shown, with the byte 10 that ends it.
pub(crate) fn show(
    alloc: Global,
    form: Form,
    line: &[u8],
    out: &mut Vec<u8>,
) -> Result<(), NoMemory> {
    let kind = field(line, 0);
    let payload = match kind {
        b"record" => payload_in(alloc, field(line, 3)),
        b"message" => payload_in(alloc, field(line, 4)),
        _ => None,
    };
    match (form, payload) {
        (Form::Text, Some(payload)) => {
            spell(&payload, out)?;
            put(b"\n", out)
        }
        (Form::Json, Some(payload)) => put_object(alloc, kind, line, &payload, out),
        (Form::Text, None) if kind == b"gap".as_slice() => {
            put(b"\\gap ", out)?;
            put(field(line, 2), out)?;
            put(b" ", out)?;
            put(field(line, 3), out)?;
            put(b" ", out)?;
            put(field(line, 4), out)?;
            put(b"\n", out)
        }
        (Form::Json, None) if kind == b"gap".as_slice() => put_gap(line, out),
        _ => {
            put(line, out)?;
            put(b"\n", out)
        }
    }
}
