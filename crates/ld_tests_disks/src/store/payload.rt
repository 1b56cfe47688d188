// Payloads: read where they stand, compared, and lost with a read that fails.
ghost use Rattle.std.specs.Prelude.{◌≡◌, ◌≤◌, ◌<◌, ◌-◌, ◌^◌, IfOk, length, false};
ghost use Rattle.ld_lsn.specs.Number.{numbered};
ghost use Rattle.ld_msg.specs.Bounds.{IsEntry, IsKept};
ghost use Rattle.ld_op.specs.Bounds.{IsOp};
ghost use Rattle.ld_store.specs.Ops.{is_format};

use crate::store::{accept, first_log, formatted, keep, loaded};
use ld_disk::{Disk, Fault, MemDisk};
use ld_ids::{LogId, NoMemory, Payload};
use ld_lsn::Lsn;
use ld_msg::{Body, Entries, Entry, What, Who};
use ld_op::{Draft, DraftBody, Op, Place, Plain};
use ld_store::{Store, StoreFault};
use std::alloc::Global;
use std::test::Fail;

/// An entry under an offset of epoch 1, with this payload.
fn entry(alloc: Global, esn: u32, bytes: &[u8]) -> Result<Entry, NoMemory>
    requires esn { (1 ≤ esn) × (esn < 2 ^ 32 - 1) }
    requires short { length bytes.now ≤ 65_535 }
    ensures number { IfOk result (λ entry. entry.number ≡ numbered 1 esn) }
    ensures kept { IfOk result (λ entry. IsEntry entry × IsKept entry.what) }
{
    Ok(Entry {
        number: Lsn::new(1, esn),
        ballot: 1,
        what: What::Rec(Payload::new(Vec::from_slice(alloc, bytes)?)),
    })
}

/// The op that puts the entries of offsets 2 and 3 in again.
fn refill_two(alloc: Global, log: LogId) -> Result<Op, NoMemory>
    ensures { IfOk result (λ op. IsOp op × (is_format op ≡ false)) }
{
    let mut list = Vec::new(alloc);
    list.push(entry(alloc, 2, &[1, 2])?)?;
    list.push(entry(alloc, 3, &[3, 4, 5])?)?;
    Ok(Op::Refill {
        log,
        entries: Entries::new(list),
    })
}

/// A store that has accepted a record of one byte, 9, and got two back.
fn stored(alloc: Global) -> Result<Store<MemDisk>, StoreFault> {
    let mut store = formatted(alloc)?;
    let log = first_log()?;
    let op = accept(alloc, log, 1)?;
    keep(alloc, &mut store, op)?;
    let op = refill_two(alloc, log)?;
    keep(alloc, &mut store, op)?;
    Ok(store)
}

/// A page of all entries of the log.
fn page(alloc: Global, plain: &Plain) -> Result<Draft, StoreFault> {
    let log = first_log()?;
    let first = Lsn::new(1, 1);
    let page = plain.excerpt(alloc, log, first, Lsn::new(1, 9), false)?;
    let body = DraftBody::page(1, first, page.upto, false, page.entries);
    Ok(Draft::new(Who::Reader(1), Who::Reader(1), log, body))
}

/// The payloads of entries, one behind the other.
fn joined(alloc: Global, entries: &[Entry]) -> Result<Vec<u8>, NoMemory> {
    let mut bytes = Vec::new(alloc);
    for entry in entries {
        if let What::Rec(payload) = &entry.what {
            bytes.extend_from_slice(payload.bytes())?;
        }
    }
    Ok(bytes)
}

/// The payloads of the page that a store reads.
pub(crate) fn read<D: Disk>(alloc: Global, store: &mut Store<D>) -> Result<Vec<u8>, StoreFault> {
    let draft = page(alloc, store.index())?;
    let msg = store.fill(alloc, draft)?;
    match &msg.body {
        Body::ReadPage { entries, .. } => Ok(joined(alloc, entries.as_slice())?),
        _ => Err(StoreFault::Full),
    }
}

/// Whether the payloads of the page that a store reads are those that were kept.
fn reads<D: Disk>(alloc: Global, store: &mut Store<D>) -> Result<bool, StoreFault> {
    let bytes = read(alloc, store)?;
    Ok(&bytes[..] == [9, 1, 2, 3, 4, 5].as_slice())
}

/// Whether a store reads what it kept, and does once it is loaded again.
fn reads_twice(alloc: Global) -> Result<[bool; 2], StoreFault> {
    let mut store = stored(alloc)?;
    let before = reads(alloc, &mut store)?;
    let mut again = loaded(alloc, store.into_disk())?;
    Ok([before, reads(alloc, &mut again)?])
}

#[test]
fn what_is_filled_is_what_was_kept(rt: HostRuntime) -> Result<(), Fail> {
    assert_eq!(rt; reads_twice(rt.alloc())?, [true, true]);
    Ok(())
}

/// The faults of a page whose read fails, of the next one, and of one once the store is loaded again.
fn faults_of_reads(alloc: Global) -> Result<[Option<StoreFault>; 3], StoreFault> {
    let mut store = stored(alloc)?;
    store.arm(Fault::FailReadAt(2));
    let failed = reads(alloc, &mut store).err();
    let next = reads(alloc, &mut store).err();
    let mut again = loaded(alloc, store.into_disk())?;
    Ok([failed, next, reads(alloc, &mut again).err()])
}

#[test]
fn a_read_that_fails_has_to_be_loaded_again(rt: HostRuntime) -> Result<(), Fail> {
    assert_eq!(rt;
        faults_of_reads(rt.alloc())?,
        [Some(StoreFault::Disk), Some(StoreFault::NeedsLoad), None]
    );
    Ok(())
}

/// Where the payload of the log's offset 3 stands.
fn third(plain: &Plain) -> Result<Place, StoreFault> {
    let log = first_log()?;
    let place = match plain.entry(log, Lsn::new(1, 3)) {
        Some(pointed) => pointed.place(),
        None => None,
    };
    place.ok_or(StoreFault::Full)
}

/// Whether these bytes stand where the payload of the log's offset 3 does.
fn stands<D: Disk>(alloc: Global, store: &mut Store<D>, bytes: &[u8]) -> Result<bool, StoreFault> {
    let place = third(store.index())?;
    let payload = payload(alloc, bytes)?;
    store.has_payload(alloc, place, &payload)
}

fn payload(alloc: Global, bytes: &[u8]) -> Result<Payload, NoMemory> {
    Ok(Payload::new(Vec::from_slice(alloc, bytes)?))
}

/// Whether the payload of offset 3, another of its length and a shorter one stand there.
fn which_stand(alloc: Global) -> Result<[bool; 3], StoreFault> {
    let mut store = stored(alloc)?;
    Ok([
        stands(alloc, &mut store, &[3, 4, 5])?,
        stands(alloc, &mut store, &[3, 4, 6])?,
        stands(alloc, &mut store, &[3, 4])?,
    ])
}

#[test]
fn a_payload_is_there_or_is_not(rt: HostRuntime) -> Result<(), Fail> {
    assert_eq!(rt; which_stand(rt.alloc())?, [true, false, false]);
    Ok(())
}
