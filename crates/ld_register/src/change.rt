// The changes of a register, and the bodies of their records.
ghost use Rattle.std.specs.Prelude.{◌≡◌, ◌≤◌, ◌+◌, ◌++◌, ◌∷◌, [], ℕ, length, take, drop, get_or, true, false, IfOk, OnOk, IfSome, IfNone};
ghost use Rattle.std.specs.Int.{w16, w32, w64, to_be_bytes};
ghost use Rattle.ld_ids.specs.Id.{IsLog};
ghost use Rattle.ld_msg.specs.declared.msg.Summary.{Summary as Closing};
ghost use Rattle.ld_msg.specs.Bounds.{IsEpoch, IsSummary};
ghost use Rattle.ld_register.specs.Bounds.{IsSpec};
ghost use Rattle.ld_register.specs.Changes.{change_bytes, closing_bytes, summary_bytes, spec_bytes, IsBody, IsNoBody};

use ld_ids::{LogId, NoMemory, NodeId, NodeSet, Spec};
use ld_lsn::Lsn;
use ld_msg::Summary;
use std::alloc::Global;

const UNFIXED: u8 = 16;

const LOSSLESS: u8 = 17;

const DRAW: u8 = 18;

const ACTIVATE: u8 = 19;

const CLOSE: u8 = 20;

const SWAP: u8 = 21;

/// The greatest epoch of a log.
pub(crate) const GREATEST_EPOCH: u32 = u32::MAX - 1;

/// How many nodes at most are asked beyond the factor.
const MOST_EXTRAS: u8 = 3;

// The greatest last known good offset of an epoch.
const GREATEST_LNG: u32 = u32::MAX - 1;

/// A change of a register, as one record of its journal.
#[derive(Clone, Copy)]
pub(crate) enum Change {
    /// The log's next epoch is handed out, with what is fixed for it.
    Activate {
        epoch: u32,
        spec: Spec,
    },
    /// The log's next epoch is handed out, and nothing is fixed for it. It is read and never written.
    Unfixed {
        log: LogId,
        epoch: u32,
    },
    /// The log's epoch is closed.
    Close {
        log: LogId,
        epoch: u32,
        summary: Summary,
    },
    /// The log's epoch is closed with a summary that says nothing of a loss. It is read and never written.
    Lossless {
        log: LogId,
        epoch: u32,
        summary: Summary,
    },
    /// The node's next generation is handed out.
    Draw {
        node: NodeId,
        generation: u32,
    },
    /// The spare takes the place of the member in each closed epoch of the log up to this one that has the member and lacks
    /// the spare. There is such an epoch.
    Swap {
        log: LogId,
        upto: u32,
        member: NodeId,
        spare: NodeId,
    },
}

impl Change {
    /// The body of the change's record.
    #[tactic(auto, unfolding(crate::specs::Changes::change_bytes))]
    pub(crate) fn to_bytes(&self, alloc: Global) -> Result<Vec<u8>, NoMemory>
        ensures { IfOk result (λ bytes. bytes.items ≡ change_bytes self.now) }
    {
        match self {
            Change::Activate { epoch, spec } => {
                let mut out = begun(alloc, ACTIVATE)?;
                put_word(&mut out, spec.log.number())?;
                put_word(&mut out, *epoch)?;
                put_spec(&mut out, spec)?;
                Ok(out)
            }
            Change::Unfixed { log, epoch } => {
                let mut out = begun(alloc, UNFIXED)?;
                put_word(&mut out, log.number())?;
                put_word(&mut out, *epoch)?;
                Ok(out)
            }
            Change::Close {
                log,
                epoch,
                summary,
            } => {
                let mut out = begun(alloc, CLOSE)?;
                put_closing(&mut out, *log, *epoch, summary)?;
                out.push(u8::from(summary.loss))?;
                Ok(out)
            }
            Change::Lossless {
                log,
                epoch,
                summary,
            } => {
                let mut out = begun(alloc, LOSSLESS)?;
                put_closing(&mut out, *log, *epoch, summary)?;
                Ok(out)
            }
            Change::Draw { node, generation } => {
                let mut out = begun(alloc, DRAW)?;
                out.push(node.number())?;
                put_word(&mut out, *generation)?;
                Ok(out)
            }
            Change::Swap {
                log,
                upto,
                member,
                spare,
            } => {
                let mut out = begun(alloc, SWAP)?;
                put_word(&mut out, log.number())?;
                put_word(&mut out, *upto)?;
                out.push(member.number())?;
                out.push(spare.number())?;
                Ok(out)
            }
        }
    }

    /// The change that a body is, where it is one's.
    pub(crate) fn read(body: &[u8]) -> Option<Change>
        ensures some { IfSome result (IsBody body.now) }
        ensures none { IfNone result (IsNoBody body.now) }
    {
        if body.len() == 13 && body[0] == ACTIVATE {
            return read_activation(body);
        }
        if body.len() == 9 && body[0] == UNFIXED {
            return read_unfixed(body);
        }
        if body.len() == 30 && body[0] == CLOSE {
            return read_close(body);
        }
        if body.len() == 29 && body[0] == LOSSLESS {
            return read_lossless(body);
        }
        if body.len() == 6 && body[0] == DRAW {
            return read_draw(body);
        }
        if body.len() == 11 && body[0] == SWAP {
            return read_swap(body);
        }
        None
    }
}

/// The first byte of a body.
fn begun(alloc: Global, kind: u8) -> Result<Vec<u8>, NoMemory>
    ensures { IfOk result (λ out. out.items ≡ kind ∷ []) }
{
    Ok(Vec::from_slice(alloc, &[kind])?)
}

fn put_word(out: &mut Vec<u8>, number: u32) -> Result<(), NoMemory>
    ensures { OnOk result (out.new.items ≡ out.old.items ++ to_be_bytes w32 number) }
{
    out.extend_from_slice(&number.to_be_bytes())?;
    Ok(())
}

fn put_closing(out: &mut Vec<u8>, log: LogId, epoch: u32, summary: &Summary) -> Result<(), NoMemory>
    ensures { OnOk result (out.new.items ≡ out.old.items ++ closing_bytes log epoch summary.now) }
{
    put_word(out, log.number())?;
    put_word(out, epoch)?;
    put_summary(out, summary)
}

fn put_summary(out: &mut Vec<u8>, summary: &Summary) -> Result<(), NoMemory>
    ensures { OnOk result (out.new.items ≡ out.old.items ++ summary_bytes summary.now) }
{
    put_word(out, summary.ballot)?;
    put_word(out, summary.lng)?;
    out.extend_from_slice(&summary.trim.value().to_be_bytes())?;
    put_word(out, summary.end)
}

fn put_spec(out: &mut Vec<u8>, spec: &Spec) -> Result<(), NoMemory>
    ensures { OnOk result (out.new.items ≡ out.old.items ++ spec_bytes spec.now) }
{
    out.extend_from_slice(&spec.set.bits().to_be_bytes())?;
    out.push(spec.r)?;
    out.push(spec.extras)?;
    Ok(())
}

/// The number in the two bytes at an offset.
fn half_word(body: &[u8], at: usize) -> u16
    requires { at + 2 ≤ length body.now }
    ensures { to_be_bytes w16 result ≡ take 2 (drop at body.now) }
{
    u16::from_be_bytes([body[at], body[at + 1]])
}

/// The number in the four bytes at an offset.
fn word(body: &[u8], at: usize) -> u32
    requires { at + 4 ≤ length body.now }
    ensures { to_be_bytes w32 result ≡ take 4 (drop at body.now) }
{
    u32::from_be_bytes([body[at], body[at + 1], body[at + 2], body[at + 3]])
}

/// The number in the eight bytes at an offset.
fn long_word(body: &[u8], at: usize) -> u64
    requires { at + 8 ≤ length body.now }
    ensures { to_be_bytes w64 result ≡ take 8 (drop at body.now) }
{
    u64::from_be_bytes([
        body[at],
        body[at + 1],
        body[at + 2],
        body[at + 3],
        body[at + 4],
        body[at + 5],
        body[at + 6],
        body[at + 7],
    ])
}

fn read_activation(body: &[u8]) -> Option<Change>
    requires len { length body.now ≡ 13 }
    requires kind { get_or body.now 0 0 ≡ 19 }
    ensures some { IfSome result (IsBody body.now) }
    ensures none { IfNone result (IsNoBody body.now) }
{
    let number = word(body, 1);
    let epoch = word(body, 5);
    let set = NodeSet::from_bits(half_word(body, 9));
    let r = body[11];
    let extras = body[12];
    let Some(log) = LogId::new(number) else {
        return None;
    };
    if epoch == 0 || GREATEST_EPOCH < epoch {
        return None;
    }
    let spec = Spec {
        log,
        set,
        r,
        extras,
    };
    if !may_be_fixed(&spec) {
        return None;
    }
    Some(Change::Activate { epoch, spec })
}

/// Whether a log's nodes, factor and extras are in their bounds.
fn may_be_fixed(spec: &Spec) -> bool
    ensures yes { result ≡ true → IsSpec spec.now }
    ensures no { result ≡ false → IsSpec spec.now → ⊥ }
{
    let _ = spec.log.number();
    let nodes = spec.set.len();
    1 <= spec.r && usize::from(spec.r) <= nodes && spec.extras <= MOST_EXTRAS
}

fn read_unfixed(body: &[u8]) -> Option<Change>
    requires len { length body.now ≡ 9 }
    requires kind { get_or body.now 0 0 ≡ 16 }
    ensures some { IfSome result (IsBody body.now) }
    ensures none { IfNone result (IsNoBody body.now) }
{
    let number = word(body, 1);
    let epoch = word(body, 5);
    let Some(log) = LogId::new(number) else {
        return None;
    };
    let _ = log.number();
    if epoch == 0 || GREATEST_EPOCH < epoch {
        return None;
    }
    Some(Change::Unfixed { log, epoch })
}

fn read_close(body: &[u8]) -> Option<Change>
    requires len { length body.now ≡ 30 }
    requires kind { get_or body.now 0 0 ≡ 20 }
    ensures some { IfSome result (IsBody body.now) }
    ensures none { IfNone result (IsNoBody body.now) }
{
    let loss = body[29];
    let Some(read) = read_closing(body, loss == 1) else {
        return None;
    };
    if 1 < loss {
        return None;
    }
    let (log, epoch, summary) = read;
    Some(Change::Close {
        log,
        epoch,
        summary,
    })
}

fn read_lossless(body: &[u8]) -> Option<Change>
    requires len { length body.now ≡ 29 }
    requires kind { get_or body.now 0 0 ≡ 17 }
    ensures some { IfSome result (IsBody body.now) }
    ensures none { IfNone result (IsNoBody body.now) }
{
    let Some(read) = read_closing(body, false) else {
        return None;
    };
    let (log, epoch, summary) = read;
    Some(Change::Lossless {
        log,
        epoch,
        summary,
    })
}

/// The log, the epoch and the summary behind the first byte, where it is so whether anything is lost.
fn read_closing(body: &[u8], loss: bool) -> Option<(LogId, u32, Summary)>
    requires { 29 ≤ length body.now }
    ensures bytes { IfSome result (λ read. body.now ≡ get_or body.now 0 0 ∷ (closing_bytes read.0 read.1 read.2 ++ drop 29 body.now)) }
    ensures is { IfSome result (λ read. IsLog read.0 × IsEpoch read.1 × IsSummary read.1 read.2 × (read.2.loss ≡ loss)) }
    ensures none { IfNone result ((l e : ℕ) (y : Closing) → IsLog l → IsEpoch e → IsSummary e y → body.now ≡ get_or body.now 0 0 ∷ (closing_bytes l e y ++ drop 29 body.now) → ⊥) }
{
    let number = word(body, 1);
    let epoch = word(body, 5);
    let summary = Summary {
        ballot: word(body, 9),
        lng: word(body, 13),
        trim: Lsn::from_u64(long_word(body, 17)),
        end: word(body, 25),
        loss,
    };
    let Some(log) = LogId::new(number) else {
        return None;
    };
    let _ = log.number();
    if epoch == 0 || summary.ballot <= epoch {
        return None;
    }
    if GREATEST_EPOCH < summary.ballot || summary.end == 0 || GREATEST_LNG < summary.lng {
        return None;
    }
    Some((log, epoch, summary))
}

fn read_draw(body: &[u8]) -> Option<Change>
    requires len { length body.now ≡ 6 }
    requires kind { get_or body.now 0 0 ≡ 18 }
    ensures some { IfSome result (IsBody body.now) }
    ensures none { IfNone result (IsNoBody body.now) }
{
    let generation = word(body, 2);
    let Some(node) = NodeId::new(body[1]) else {
        return None;
    };
    let _ = node.number();
    Some(Change::Draw { node, generation })
}

fn read_swap(body: &[u8]) -> Option<Change>
    requires len { length body.now ≡ 11 }
    requires kind { get_or body.now 0 0 ≡ 21 }
    ensures some { IfSome result (IsBody body.now) }
    ensures none { IfNone result (IsNoBody body.now) }
{
    let number = word(body, 1);
    let upto = word(body, 5);
    let Some(log) = LogId::new(number) else {
        return None;
    };
    let Some(member) = NodeId::new(body[9]) else {
        return None;
    };
    let Some(spare) = NodeId::new(body[10]) else {
        return None;
    };
    let _ = (log.number(), member.number(), spare.number());
    Some(Change::Swap {
        log,
        upto,
        member,
        spare,
    })
}
