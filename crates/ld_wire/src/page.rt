// Pages.
ghost use Rattle.std.specs.Prelude.{◌≡◌, ◌≤◌, length, IfOk, IfErr};
ghost use Rattle.ld_fields.specs.Fields.{Got};
ghost use Rattle.ld_fields.specs.Faults.{IsOff};
ghost use Rattle.ld_lsn.specs.Number.{home_epoch};
ghost use Rattle.ld_wire.specs.Judging.{page_beside, read_page, read_upto};

use ld_fields::{Beside, FieldFault, check, read_entries, read_number, read_u16};
use ld_lsn::Lsn;
use ld_msg::{Entries, Who};
use std::alloc::Global;

/// The greatest count of entries in a page.
const MOST_ENTRIES: u16 = 64;

/// The last number of a page at an offset, from its first number on and in the same home epoch.
#[tactic(auto, unfolding(crate::specs::Judging::read_upto))]
pub(crate) fn read_upto(bytes: &[u8], from: Lsn, at: usize) -> Result<(Lsn, usize), FieldFault>
    requires { at ≤ length bytes.now }
    ensures ok { IfOk result (λ p. read_upto bytes.now from at ≡ Got p.0 p.1) }
    ensures next { IfOk result (λ p. p.1 ≤ length bytes.now) }
    ensures off { IfErr result (IsOff (read_upto bytes.now from at)) }
{
    let (upto, next) = read_number(bytes, at)?;
    check(
        from.value() <= upto.value() && home_epoch(from) == home_epoch(upto),
        at,
    )?;
    Ok((upto, next))
}

fn home_epoch(number: Lsn) -> u32
    ensures { result ≡ home_epoch number }
{
    let (epoch, _) = number.home();
    epoch
}

/// What may stand beside records, holes and plugs in a page to an asker.
pub(crate) fn page_beside(to: &Who) -> Beside
    ensures { result ≡ page_beside to.now }
{
    match to {
        Who::Node(_) => Beside::Nothing,
        Who::Sequencer(_) => Beside::Nothing,
        Who::Reader(_) => Beside::Withheld,
    }
}

/// The count of a page at an offset, and its entries, among them what may stand beside records, holes and plugs.
#[tactic(auto, unfolding(crate::specs::Judging::read_page))]
pub(crate) fn read_page(
    alloc: Global,
    bytes: &[u8],
    beside: Beside,
    from: Lsn,
    upto: Lsn,
    at: usize,
) -> Result<(Entries, usize), FieldFault>
    requires { at ≤ length bytes.now }
    ensures ok { IfOk result (λ p. read_page bytes.now beside from upto at ≡ Got p.0 p.1) }
    ensures next { IfOk result (λ p. p.1 ≤ length bytes.now) }
    ensures off { IfErr result (IsOff (read_page bytes.now beside from upto at)) }
{
    let (count, at_entries) = read_u16(bytes, at)?;
    check(count <= MOST_ENTRIES, at)?;
    read_entries(alloc, bytes, beside, upto, count, from, at_entries)
}
