// The entries that a page carries.
ghost use Rattle.std.specs.Prelude.{◌≡◌, ◌<◌, ◌≤◌, ℕ, Bool, [], ◌∷◌, None, IfOk, option_copied, map, take, length};
ghost use Rattle.ld_msg.specs.Digest.{is_bridge};
ghost use Rattle.ld_op.specs.Answers.{page_limit, page_upto, last_number};
ghost use Rattle.ld_op.specs.Places.{filled};
ghost use Rattle.ld_op.specs.Picks.{picked, picked_one, carried};

use crate::carries::Carries;
use crate::entries::EntryMap;
use crate::pointed::Pointed;
use crate::pointers::Pointers;
use ld_ids::NoMemory;
use ld_lsn::Lsn;
use std::alloc::Global;

/// How many entries a page has at most.
const LIMIT: usize = 64;

/// Some entries of a log, with the places of their payloads, and the number up to which there are no others.
#[derive(Drop)]
pub struct Excerpt {
    pub entries: Pointers,
    pub upto: Lsn,
}

impl EntryMap {
    /// The first entries from one number to another, with or without bridges, and the payloads of those records that are
    /// carried. Takes time in what it gives and leaves out, not in all entries of the log.
    pub(crate) fn excerpt<C: Carries>(
        &self,
        alloc: Global,
        from: u64,
        last: u64,
        bridges: bool,
        carries: &C,
    ) -> Result<Excerpt, NoMemory>
        ensures entries { IfOk result (λ page. page.entries ≡ map (λ e. carried (C.carries carries.now e.number) e) (take page_limit (picked bridges (filled self.now) from last))) }
        ensures upto { IfOk result (λ page. page.upto ≡ page_upto (picked bridges (filled self.now) from last) last) }
    {
        let mut entries = Pointers::empty(alloc);
        if last < from {
            return Ok(Excerpt {
                entries,
                upto: Lsn::from_u64(last),
            });
        }
        'places: for (_, place) in self.map.range(from..=last) {
            if let Some(entry) = pick(bridges, place) {
                if entries.len() >= LIMIT {
                    let upto = last_number(entries.as_slice());
                    return Ok(Excerpt { entries, upto });
                }
                entries.push(copy(entry, carries))?;
            }
        }
        Ok(Excerpt {
            entries,
            upto: Lsn::from_u64(last),
        })
    }
}

/// The entry once more; of a record that isn't carried no payload.
fn copy<C: Carries>(entry: &Pointed, carries: &C) -> Pointed
    ensures { result ≡ carried (C.carries carries.now entry.now.number) entry.now }
{
    if carries.carries(entry.number()) {
        entry.copy()
    } else {
        entry.withheld()
    }
}

/// What stands in a place, where the page picks it.
fn pick(bridges: bool, place: &Option<Pointed>) -> Option<&Pointed>
    ensures { option_copied result ≡ picked_one bridges place.now }
{
    match place {
        Some(entry) => {
            if bridges || !entry.is_bridge() {
                Some(entry)
            } else {
                None
            }
        }
        None => None,
    }
}

/// The number of the last entry, 0 where there is none.
fn last_number(entries: &[Pointed]) -> Lsn
    ensures { result ≡ last_number entries.now }
{
    if entries.is_empty() {
        return Lsn::from_u64(0);
    }
    entries[entries.len() - 1].number()
}
