// What the nodes of the tests keep of a log.
#![tactic(auto, unfolding(ld_op::specs::Plain::op_length))]

ghost use Rattle.std.specs.Prelude.{◌+◌, ◌<◌, ◌^◌};
ghost use Rattle.ld_op.specs.Plain.{op_length, what_length};
ghost use Rattle.ld_op.specs.Rising.{IsRising};

use ld_ids::{LogId, NoMemory};
use ld_lsn::Lsn;
use ld_msg::{Entry, Summary, What};
use ld_op::{Op, Plain};
use std::alloc::Global;

/// An op, which stands from an offset of the disk on.
pub fn keep(alloc: Global, plain: &mut Plain, op: Op, at: u32) -> Result<(), NoMemory>
    requires rises { IsRising op }
    requires fits { at + op_length op < 2 ^ 64 }
{
    plain.room(alloc, &op)?;
    plain.apply(op, u64::from(at));
    Ok(())
}

/// Anything at an offset of epoch 1, of ballot 2, whose op stands from an offset of the disk on.
pub fn keep_entry(
    alloc: Global,
    plain: &mut Plain,
    log: LogId,
    esn: u32,
    what: What,
    at: u32,
) -> Result<(), NoMemory>
    requires { what_length what < 2 ^ 32 }
{
    let entry = Entry {
        number: Lsn::new(1, esn),
        ballot: 2,
        what,
    };
    keep(alloc, plain, Op::Accept { log, lng: 0, entry }, at)
}

/// An epoch is closed under ballot 2, without a trim, with its bridge at an offset and with or without a loss behind it.
pub fn keep_close(
    alloc: Global,
    plain: &mut Plain,
    log: LogId,
    epoch: u32,
    end: u32,
    loss: bool,
) -> Result<(), NoMemory> {
    let summary = Summary {
        ballot: 2,
        lng: 0,
        trim: Lsn::from_u64(0),
        end,
        loss,
    };
    keep(
        alloc,
        plain,
        Op::Clean {
            log,
            epoch,
            summary,
        },
        0,
    )
}

/// All up to an offset of epoch 1 is trimmed.
pub fn keep_trim(alloc: Global, plain: &mut Plain, log: LogId, esn: u32) -> Result<(), NoMemory> {
    let trim = Lsn::new(1, esn);
    keep(alloc, plain, Op::Trim { log, trim }, 0)
}
