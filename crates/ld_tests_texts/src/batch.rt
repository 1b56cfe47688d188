// Batches and their bytes.
use ld_batch::{Batch, PushFault, UnpackFault, unpack};
use std::alloc::Global;
use std::test::Fail;

/// Whether the payload of a byte and of nothing, as two messages, is these bytes.
fn packs(alloc: Global, bytes: &[u8]) -> Result<bool, PushFault> {
    let mut batch = Batch::new(alloc)?;
    batch.push(&[1])?;
    batch.push(b"")?;
    Ok(batch.len() == 2 && batch.payload() == bytes)
}

/// Whether the bytes are messages of 7 bytes, and those bytes again.
fn unpacks(alloc: Global, bytes: &[u8]) -> Result<bool, Fail> {
    let messages = unpack(alloc, bytes)?;
    if messages.packed_len() != 7 {
        return Ok(false);
    }
    let payload = messages.payload(alloc)?;
    Ok(payload.bytes() == bytes)
}

#[test]
fn two_messages_are_packed(rt: HostRuntime) -> Result<(), Fail> {
    assert!(rt; packs(rt.alloc(), &[0, 2, 0, 1, 1, 0, 0])?);
    assert!(rt; unpacks(rt.alloc(), &[0, 2, 0, 1, 1, 0, 0])?);
    Ok(())
}

/// Where the bytes are off, 100 where they are a batch.
fn off(alloc: Global, bytes: &[u8]) -> usize {
    match unpack(alloc, bytes) {
        Err(UnpackFault::BadBatch(place)) => place,
        _ => 100,
    }
}

#[test]
fn what_is_no_batch_is_refused(rt: HostRuntime) -> Result<(), Fail> {
    let alloc = rt.alloc();
    let off = [
        off(alloc, &[0, 0]),
        off(alloc, &[0, 1, 0, 2, 0xaa]),
        off(alloc, &[0, 1, 0, 0, 0]),
    ];
    assert_eq!(rt; off, [0, 2, 4]);
    Ok(())
}
