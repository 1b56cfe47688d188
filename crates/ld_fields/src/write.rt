// Writing fields behind bytes. Without memory a part of a field may be written.
ghost use Rattle.std.specs.Prelude.{◌≡◌, ◌++◌, OnOk};
ghost use Rattle.byteorder.specs.Endian.{big_bytes};
ghost use Rattle.ld_msg.specs.Bounds.{IsShort, AreEntries};
ghost use Rattle.ld_fields.specs.Items.{what_bytes, entry_bytes, entries_bytes, older_summary_bytes, summary_bytes, flag as flag_number};

use byteorder::{BigEndian, ByteOrder};
use ld_ids::NoMemory;
use ld_lsn::Lsn;
use ld_msg::{Entry, Summary, What};

/// Writes a byte.
pub fn put_u8(out: &mut Vec<u8>, number: u8) -> Result<(), NoMemory>
    ensures { OnOk result (out.new.items ≡ out.old.items ++ big_bytes 1 number) }
{
    out.push(number)?;
    Ok(())
}

/// Writes a number of two bytes.
pub fn put_u16(out: &mut Vec<u8>, number: u16) -> Result<(), NoMemory>
    ensures { OnOk result (out.new.items ≡ out.old.items ++ big_bytes 2 number) }
{
    let mut bytes = [0; 2];
    BigEndian::write_u16(&mut bytes, number);
    out.extend_from_slice(&bytes)?;
    Ok(())
}

/// Writes a number of four bytes.
pub fn put_u32(out: &mut Vec<u8>, number: u32) -> Result<(), NoMemory>
    ensures { OnOk result (out.new.items ≡ out.old.items ++ big_bytes 4 number) }
{
    let mut bytes = [0; 4];
    BigEndian::write_u32(&mut bytes, number);
    out.extend_from_slice(&bytes)?;
    Ok(())
}

/// Writes the number of an entry.
pub fn put_number(out: &mut Vec<u8>, number: Lsn) -> Result<(), NoMemory>
    ensures { OnOk result (out.new.items ≡ out.old.items ++ big_bytes 8 number) }
{
    let mut bytes = [0; 8];
    BigEndian::write_u64(&mut bytes, number.value());
    out.extend_from_slice(&bytes)?;
    Ok(())
}

/// Writes the summary of an epoch.
pub fn put_summary(out: &mut Vec<u8>, summary: &Summary) -> Result<(), NoMemory>
    ensures { OnOk result (out.new.items ≡ out.old.items ++ summary_bytes summary.now) }
{
    put_older_summary(out, summary)?;
    put_flag(out, summary.loss)
}

/// Writes what a summary has in its older form.
fn put_older_summary(out: &mut Vec<u8>, summary: &Summary) -> Result<(), NoMemory>
    ensures { OnOk result (out.new.items ≡ out.old.items ++ older_summary_bytes summary.now) }
{
    put_u32(out, summary.ballot)?;
    put_u32(out, summary.lng)?;
    put_number(out, summary.trim)?;
    put_u32(out, summary.end)
}

/// Writes a byte, 1 for true and 0 for false.
pub fn put_flag(out: &mut Vec<u8>, flag: bool) -> Result<(), NoMemory>
    ensures { OnOk result (out.new.items ≡ out.old.items ++ big_bytes 1 (flag_number flag)) }
{
    put_u8(out, u8::from(flag))
}

/// Writes entries, one behind the other.
pub fn put_entries(out: &mut Vec<u8>, entries: &[Entry]) -> Result<(), NoMemory>
    requires { AreEntries entries.now }
    ensures { OnOk result (out.new.items ≡ out.old.items ++ entries_bytes entries.now) }
{
    for entry in entries {
        put_entry(out, entry)?;
    }
    Ok(())
}

/// Writes an entry.
pub fn put_entry(out: &mut Vec<u8>, entry: &Entry) -> Result<(), NoMemory>
    requires { IsShort entry.now.what }
    ensures { OnOk result (out.new.items ≡ out.old.items ++ entry_bytes entry.now) }
{
    put_number(out, entry.number)?;
    put_u32(out, entry.ballot)?;
    put_what(out, &entry.what)
}

/// Writes what an entry is: a tag, and behind a record's its length and its payload.
pub fn put_what(out: &mut Vec<u8>, what: &What) -> Result<(), NoMemory>
    requires { IsShort what.now }
    ensures { OnOk result (out.new.items ≡ out.old.items ++ what_bytes what.now) }
{
    match what {
        What::Rec(payload) => {
            let bytes = payload.bytes();
            put_u8(out, 0)?;
            put_u16(out, bytes.len() as u16)?;
            out.extend_from_slice(bytes)?;
            Ok(())
        }
        What::Hole => put_u8(out, 1),
        What::Bridge => put_u8(out, 2),
        What::Plug => put_u8(out, 3),
        What::Withheld => put_u8(out, 4),
    }
}
