// The parts of a line. Each is added at the end of the text.
ghost use Rattle.std.specs.Prelude.{◌≡◌, ◌++◌, decimal, OnOk};
ghost use Rattle.ld_lsn.specs.Number.{lsn_text};
ghost use Rattle.ld_ids.specs.Set.{members, numbers_text};
ghost use Rattle.ld_operate.specs.Shown.{labelled, labelled_lsn};

use itoa::Buffer;
use ld_ids::{NoMemory, NodeSet};
use ld_lsn::Lsn;

/// Adds a word.
pub(crate) fn word(out: &mut Vec<u8>, word: &[u8]) -> Result<(), NoMemory>
    ensures { OnOk result (out.new.items ≡ out.old.items ++ word.now) }
{
    out.extend_from_slice(word)?;
    Ok(())
}

/// Adds a decimal number.
pub(crate) fn number(out: &mut Vec<u8>, number: u32) -> Result<(), NoMemory>
    ensures { OnOk result (out.new.items ≡ out.old.items ++ decimal number) }
{
    let mut buffer = Buffer::new();
    out.extend_from_slice(buffer.format(number).as_bytes())?;
    Ok(())
}

/// Adds a log sequence number.
pub(crate) fn lsn(out: &mut Vec<u8>, lsn: Lsn) -> Result<(), NoMemory>
    ensures { OnOk result (out.new.items ≡ out.old.items ++ lsn_text lsn) }
{
    let mut text = [0u8; 22];
    let len = lsn.write_text(&mut text);
    out.extend_from_slice(&text[..len])?;
    Ok(())
}

/// Adds a word and a number.
pub(crate) fn labelled(out: &mut Vec<u8>, label: &[u8], value: u32) -> Result<(), NoMemory>
    ensures { OnOk result (out.new.items ≡ out.old.items ++ labelled label.now value) }
{
    word(out, label)?;
    number(out, value)
}

/// Adds a word and a log sequence number.
pub(crate) fn labelled_lsn(out: &mut Vec<u8>, label: &[u8], value: Lsn) -> Result<(), NoMemory>
    ensures { OnOk result (out.new.items ≡ out.old.items ++ labelled_lsn label.now value) }
{
    word(out, label)?;
    lsn(out, value)
}

/// Adds the numbers of the nodes of a set, rising, with commas between them.
pub(crate) fn nodes(out: &mut Vec<u8>, set: &NodeSet) -> Result<(), NoMemory>
    ensures { OnOk result (out.new.items ≡ out.old.items ++ numbers_text (members set.now)) }
{
    for place in 0..set.len() {
        let Some(node) = set.nth(place) else {
            unreachable!();
        };
        if place > 0 {
            word(out, b",")?;
        }
        number(out, u32::from(node.number()))?;
    }
    Ok(())
}
