// The bytes of a batch's payload.
ghost use Rattle.std.specs.Prelude.{◌≡◌, ◌≤◌, ◌++◌, length, take, OnOk, OnErr};
ghost use Rattle.ld_batch.specs.Batch.{two_bytes, packed_message};

use ld_ids::NoMemory;

/// Adds a number of two bytes, the high one first. Without memory the text is what it was before.
pub fn add_two_bytes(out: &mut Vec<u8>, number: u16) -> Result<(), NoMemory>
    ensures ok { OnOk result (out.new.items ≡ out.old.items ++ two_bytes number) }
    ensures same { OnErr result (out.new.items ≡ out.old.items) }
{
    out.extend_from_slice(&number.to_be_bytes())?;
    Ok(())
}

/// Adds a message: its length and its bytes. Without memory the text is what it was before.
pub fn add_message(out: &mut Vec<u8>, message: &[u8]) -> Result<(), NoMemory>
    requires { length message.now ≤ 65535 }
    ensures ok { OnOk result (out.new.items ≡ out.old.items ++ packed_message message.now) }
    ensures same { OnErr result (out.new.items ≡ out.old.items) }
{
    let before = out.len();
    add_two_bytes(out, message.len() as u16)?;
    if out.extend_from_slice(message).is_err() {
        out.truncate(before);
        return Err(NoMemory);
    }
    Ok(())
}
