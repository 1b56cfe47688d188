// Lists of entries.
ghost use Rattle.std.specs.Prelude.{◌≡◌, ◌≤◌, ◌+◌, true, length, IfOk, IfErr};
ghost use Rattle.ld_fields.specs.Fields.{Got};
ghost use Rattle.ld_fields.specs.Faults.{IsOff};
ghost use Rattle.ld_fields.specs.Items.{is_number, read_entries};

use crate::item::read_entry;
use crate::{Beside, FieldFault};
use ld_lsn::Lsn;
use ld_msg::Entries;
use std::alloc::Global;

/// So many entries at an offset, their numbers rising from one to another, and what may stand beside records, holes and plugs.
pub fn read_entries(
    alloc: Global,
    bytes: &[u8],
    beside: Beside,
    upto: Lsn,
    count: u16,
    from: Lsn,
    at: usize,
) -> Result<(Entries, usize), FieldFault>
    requires { at ≤ length bytes.now }
    ensures ok { IfOk result (λ p. read_entries bytes.now beside upto count from at ≡ Got p.0 p.1) }
    ensures next { IfOk result (λ p. p.1 ≤ length bytes.now) }
    ensures off { IfErr result (IsOff (read_entries bytes.now beside upto count from at)) }
{
    let mut entries = Entries::empty(alloc);
    let mut next = at;
    let mut least: u64 = from.value();
    'entries: for _ in 0..count {
        let (entry, behind) = read_entry(alloc, bytes, beside, upto, least, next)?;
        least = after(entry.number);
        next = behind;
        entries.push(entry)?;
    }
    Ok((entries, next))
}

fn after(number: Lsn) -> u64
    requires { is_number number ≡ true }
    ensures { result ≡ number + 1 }
{
    number.value() + 1
}
