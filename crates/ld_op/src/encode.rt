// Writing ops.
ghost use Rattle.std.specs.Prelude.{◌≡◌, ◌≤◌, ◌++◌, length, OnOk, OnErr, IfOk};
ghost use Rattle.byteorder.specs.Endian.{big_bytes};
ghost use Rattle.ld_op.specs.Bounds.{IsOp};
ghost use Rattle.ld_op.specs.Bytes.{epochs_bytes, format_bytes, op_bytes};

use crate::Op;
use ld_fields::{put_entries, put_entry, put_number, put_summary, put_u8, put_u16, put_u32};
use ld_ids::{LogId, NoMemory};
use std::alloc::Global;

impl Op {
    /// Writes the op's bytes behind those that are there. Without memory nothing is written. The op is one that a
    /// journal's body can carry.
    pub fn encode(&self, alloc: Global, out: &mut Vec<u8>) -> Result<(), NoMemory>
        requires { IsOp self.now }
        ensures ok { OnOk result (out.new.items ≡ out.old.items ++ op_bytes self.now) }
        ensures err { OnErr result (out.new.items ≡ out.old.items) }
    {
        let bytes = self.to_bytes(alloc)?;
        out.extend_from_slice(&bytes)?;
        Ok(())
    }

    /// The op's bytes.
    fn to_bytes(&self, alloc: Global) -> Result<Vec<u8>, NoMemory>
        requires { IsOp self.now }
        ensures { IfOk result (λ bytes. bytes.items ≡ op_bytes self.now) }
    {
        let mut out = Vec::new(alloc);
        self.put(&mut out)?;
        Ok(out)
    }

    #[tactic(auto, unfolding(crate::specs::Bytes::op_bytes))]
    fn put(&self, out: &mut Vec<u8>) -> Result<(), NoMemory>
        requires { IsOp self.now }
        ensures { OnOk result (out.new.items ≡ out.old.items ++ op_bytes self.now) }
    {
        match self {
            Op::Format { generation, epochs } => put_format(out, *generation, epochs.as_slice()),
            Op::Accept { log, lng, entry } => {
                put_head(out, 2, *log)?;
                put_u32(out, *lng)?;
                put_entry(out, entry)
            }
            Op::Seal { log, ballot } => {
                put_head(out, 3, *log)?;
                put_u32(out, *ballot)
            }
            Op::Clean {
                log,
                epoch,
                summary,
            } => {
                put_head(out, 12, *log)?;
                put_u32(out, *epoch)?;
                put_summary(out, summary)
            }
            Op::Trim { log, trim } => {
                put_head(out, 5, *log)?;
                put_number(out, *trim)
            }
            Op::Refill { log, entries } => {
                put_head(out, 6, *log)?;
                put_u16(out, entries.len() as u16)?;
                put_entries(out, entries.as_slice())
            }
            Op::Refilled { log } => put_head(out, 7, *log),
        }
    }
}

/// A format, which tells the second version.
fn put_format(out: &mut Vec<u8>, generation: u32, epochs: &[(LogId, u32)]) -> Result<(), NoMemory>
    requires { length epochs.now ≤ 255 }
    ensures { OnOk result (out.new.items ≡ out.old.items ++ (big_bytes 1 10 ++ (big_bytes 1 2 ++ format_bytes generation epochs.now))) }
{
    put_u8(out, 10)?;
    put_u8(out, 2)?;
    put_u32(out, generation)?;
    put_u8(out, epochs.len() as u8)?;
    put_epochs(out, epochs)
}

/// The first byte of an op, and its log.
fn put_head(out: &mut Vec<u8>, kind: u8, log: LogId) -> Result<(), NoMemory>
    ensures { OnOk result (out.new.items ≡ (out.old.items ++ big_bytes 1 kind) ++ big_bytes 4 log) }
{
    put_u8(out, kind)?;
    put_u32(out, log.number())
}

fn put_epochs(out: &mut Vec<u8>, epochs: &[(LogId, u32)]) -> Result<(), NoMemory>
    ensures { OnOk result (out.new.items ≡ out.old.items ++ epochs_bytes epochs.now) }
{
    for (log, epoch) in epochs {
        put_u32(out, log.number())?;
        put_u32(out, *epoch)?;
    }
    Ok(())
}
