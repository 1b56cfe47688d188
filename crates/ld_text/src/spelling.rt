// The text of a payload.
ghost use Rattle.std.specs.Prelude.{◌≡◌, ◌<◌, ◌++◌, OnOk};
ghost use Rattle.ld_text.specs.Text.{digit, odd, odd_byte, plain, plain_byte, text_of};

use ld_ids::NoMemory;

/// A small hexadecimal digit.
fn digit(value: u8) -> u8
    requires { value < 16 }
    ensures { result ≡ digit value }
{
    if value < 10 {
        b'0' + value
    } else {
        b'a' + (value - 10)
    }
}

/// Puts a byte that is no part of a character behind the others, as `\xHH`.
fn put_odd_byte(byte: u8, out: &mut Vec<u8>) -> Result<(), NoMemory>
    ensures { OnOk result (out.new.items ≡ out.old.items ++ odd_byte byte) }
{
    out.push(b'\\')?;
    out.push(b'x')?;
    out.push(digit(byte / 16))?;
    out.push(digit(byte % 16))?;
    Ok(())
}

/// Puts bytes that are no part of a character behind the others.
fn put_odd(bytes: &[u8], out: &mut Vec<u8>) -> Result<(), NoMemory>
    ensures { OnOk result (out.new.items ≡ out.old.items ++ odd bytes.now) }
{
    'bytes: for byte in bytes {
        put_odd_byte(*byte, out)?;
    }
    Ok(())
}

/// Puts a byte of a character behind the others.
fn put_plain_byte(byte: u8, out: &mut Vec<u8>) -> Result<(), NoMemory>
    ensures { OnOk result (out.new.items ≡ out.old.items ++ plain_byte byte) }
{
    let escaped = match byte {
        b'\n' => b'n',
        b'\r' => b'r',
        b'\\' => b'\\',
        _ => {
            out.push(byte)?;
            return Ok(());
        }
    };
    out.push(b'\\')?;
    out.push(escaped)?;
    Ok(())
}

/// Puts bytes of characters behind the others.
fn put_plain(bytes: &[u8], out: &mut Vec<u8>) -> Result<(), NoMemory>
    ensures { OnOk result (out.new.items ≡ out.old.items ++ plain bytes.now) }
{
    'bytes: for byte in bytes {
        put_plain_byte(*byte, out)?;
    }
    Ok(())
}

/// Puts the text of a payload behind the others: the bytes 10, 13 and 92 as `\n`, `\r` and `\\`, those that are no part of a
/// UTF-8 character as `\xHH`, and each other byte as it is. When out of memory a part of it may be there.
pub fn spell(payload: &[u8], out: &mut Vec<u8>) -> Result<(), NoMemory>
    ensures { OnOk result (out.new.items ≡ out.old.items ++ text_of payload.now) }
{
    let mut chunks = payload.utf8_chunks();
    'chunks: for _ in 0..payload.len() {
        let Some(chunk) = chunks.next() else {
            return Ok(());
        };
        put_plain(chunk.valid().as_bytes(), out)?;
        put_odd(chunk.invalid(), out)?;
    }
    Ok(())
}
