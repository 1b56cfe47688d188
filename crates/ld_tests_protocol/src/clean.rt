// Closes and trims as tables: what a node has, what comes, what it keeps of it.
use crate::kept::{keep_close, keep_trim};
use ld_clean::{clean, trim};
use ld_ids::{LogId, NoMemory};
use ld_lsn::Lsn;
use ld_msg::Summary;
use ld_op::{Op, Plain};
use std::alloc::Global;
use std::test::Fail;

// The epoch whose close is kept, 0 where none is.
fn closes(plain: &Plain, log: LogId, epoch: u32) -> u32 {
    let summary = Summary {
        ballot: 3,
        lng: 0,
        trim: Lsn::from_u64(0),
        end: 4,
        loss: false,
    };
    match &clean(plain, log, epoch, &summary) {
        Some(Op::Clean { epoch, .. }) => *epoch,
        _ => 0,
    }
}

// The offset of epoch 1 to which a trim is kept, 0 where none is.
fn trims(plain: &Plain, log: LogId, esn: u32) -> u32 {
    match &trim(plain, log, Lsn::new(1, esn)) {
        Some(Op::Trim { trim, .. }) => trim.esn(),
        _ => 0,
    }
}

// What is kept of a close of epoch 1 and of a trim to its offset 3, at first and once both are kept; then of a close of epoch 2, and
// of a trim to the offset 4.
fn kept(alloc: Global, log: LogId) -> Result<[u32; 6], NoMemory> {
    let mut plain = Plain::new(alloc);
    let first = (closes(&plain, log, 1), trims(&plain, log, 3));
    keep_close(alloc, &mut plain, log, 1, 4, false)?;
    keep_trim(alloc, &mut plain, log, 3)?;
    Ok([
        first.0,
        first.1,
        closes(&plain, log, 1),
        trims(&plain, log, 3),
        closes(&plain, log, 2),
        trims(&plain, log, 4),
    ])
}

#[test]
fn an_epoch_is_cleaned_once_and_a_trim_only_rises(rt: HostRuntime) -> Result<(), Fail> {
    let log = LogId::new(1).expect(&rt, "a log");
    assert_eq!(rt; kept(rt.alloc(), log)?, [1, 3, 0, 0, 2, 4]);
    Ok(())
}
