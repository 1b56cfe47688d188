// What a node makes of a message.
ghost use Rattle.std.specs.Prelude.{◌≡◌, ℕ, IfOk};
ghost use Rattle.ld_msg.specs.Bounds.{ballot_of};
ghost use Rattle.ld_op.specs.Plain.{log_of};
ghost use Rattle.ld_op.specs.Cells.{each_log, each_plain};
ghost use Rattle.ld_op.specs.Handles.{handled_by};
ghost use Rattle.ld_seal.specs.Decided.{IsStore};
ghost use Rattle.ld_readnode.specs.Answered.{IsDigestAsk, digest_answered};
ghost use Rattle.ld_node.specs.declared.handled.Reply.TheVariants.{Page};
ghost use Rattle.ld_store.specs.Open.{within};
ghost use Rattle.ld_node.specs.Handling.{IsHandledWith, Stays, op_if, accept_of, seal_of, number_of, store_reply, digest_reply, asked_from};

use ld_ids::{NoMemory, NodeId};
use ld_lsn::Lsn;
use ld_msg::{Body, Entry, Msg};
use ld_op::{Draft, Op, Place, Plain};
use ld_seal::Decision;
use std::alloc::Global;

/// The answer to a message, whose payloads are still to be read.
#[derive(Drop)]
pub enum Reply {
    /// None.
    Nothing,
    /// This, in which no payload is missing.
    Whole(Body),
    /// This, once its payloads are read.
    Page(Draft),
    /// That what a store holds is kept. It is there already where its payload stands at this offset, and else it is
    /// taken.
    Compare(Place),
}

/// The op that a node keeps, and then its answer.
#[derive(Drop)]
pub struct Handled {
    pub op: Option<Op>,
    pub answer: Reply,
}

/// What the node of this number makes of a message, where readers may have all up to the released number.
pub(crate) fn handle(
    alloc: Global,
    id: NodeId,
    plain: &Plain,
    released: Lsn,
    msg: &Msg,
) -> Result<Handled, NoMemory>
    ensures handled { (f : ℕ → ℕ) → IfOk result (λ done. IsHandledWith f msg.now done (handled_by id plain.now.state.generation (each_log f (log_of plain.now.state msg.now.log)) msg.now.log (ballot_of msg.now.from) released msg.now.body)) }

    // Where each offset of the index is before an end, so is each that is read.
    ensures stays { (count : ℕ) → each_plain (within count) plain.now.state ≡ plain.now.state → IfOk result (λ done. Stays (within count) done.answer) }
{
    match &msg.body {
        Body::Store { .. } => {
            let handled = on_store(alloc, plain, msg)?;
            Ok(handled)
        }
        Body::DigestAsk { .. } => {
            let handled = on_digest_ask(alloc, plain, msg)?;
            Ok(handled)
        }
        Body::ReadAsk { .. } => {
            let page = ld_readnode::answer(alloc, plain, released, msg)?;
            Ok(Handled {
                op: None,
                answer: Reply::Page(page),
            })
        }
        Body::ReadOne { .. } => {
            let share = ld_readnode::answer_one(alloc, plain, id, released, msg)?;
            Ok(Handled {
                op: None,
                answer: Reply::Page(share),
            })
        }
        Body::Clean { epoch, summary } => Ok(Handled {
            op: ld_clean::clean(plain, msg.log, *epoch, summary),
            answer: Reply::Nothing,
        }),
        Body::Trim { trim } => Ok(Handled {
            op: ld_clean::trim(plain, msg.log, *trim),
            answer: Reply::Nothing,
        }),
        _ => {
            let op = ld_rebuild::on_page(alloc, plain, msg)?;
            Ok(Handled {
                op,
                answer: Reply::Nothing,
            })
        }
    }
}

/// What a node makes of a store.
fn on_store(alloc: Global, plain: &Plain, msg: &Msg) -> Result<Handled, NoMemory>
    requires { IsStore msg.now.body }
    ensures handled { (f : ℕ → ℕ) (id released : ℕ) → IfOk result (λ done. IsHandledWith f msg.now done (handled_by id plain.now.state.generation (each_log f (log_of plain.now.state msg.now.log)) msg.now.log (ballot_of msg.now.from) released msg.now.body)) }
    ensures stays { (count : ℕ) → each_plain (within count) plain.now.state ≡ plain.now.state → IfOk result (λ done. Stays (within count) done.answer) }
{
    let decision = ld_seal::on_store(plain, msg);
    let op = accepted(alloc, msg, &decision)?;
    Ok(Handled {
        op,
        answer: reply_to_store(number_stored(&msg.body), &decision),
    })
}

/// The op of a store that is taken.
fn accepted(alloc: Global, msg: &Msg, decision: &Decision) -> Result<Option<Op>, NoMemory>
    ensures { IfOk result (λ op. op ≡ op_if (accept_of msg.now.log (ballot_of msg.now.from) msg.now.body) decision.now) }
{
    match decision {
        Decision::Take => accept(alloc, msg),
        _ => Ok(None),
    }
}

/// The op of a store.
pub(crate) fn accept(alloc: Global, msg: &Msg) -> Result<Option<Op>, NoMemory>
    ensures { IfOk result (λ op. op ≡ accept_of msg.now.log (ballot_of msg.now.from) msg.now.body) }
{
    match &msg.body {
        Body::Store { number, lng, what } => Ok(Some(Op::Accept {
            log: msg.log,
            lng: *lng,
            entry: Entry {
                number: *number,
                ballot: msg.from.ballot(),
                what: what.copy(alloc)?,
            },
        })),
        _ => Ok(None),
    }
}

/// The number of a store.
pub(crate) fn number_stored(body: &Body) -> Lsn
    ensures { result ≡ number_of body.now }
{
    match body {
        Body::Store { number, .. } => *number,
        _ => Lsn::from_u64(0),
    }
}

/// The answer to a store.
fn reply_to_store(number: Lsn, decision: &Decision) -> Reply
    ensures { result ≡ store_reply number decision.now }
{
    match decision {
        Decision::Lost(generation, end) => Reply::Whole(Body::LostHere {
            number,
            round: 0,
            generation: *generation,
            end: *end,
        }),
        Decision::Clean(summary) => Reply::Whole(Body::CleanHere {
            number,
            summary: *summary,
        }),
        Decision::Trimmed(trim) => Reply::Whole(Body::TrimmedHere {
            number,
            trim: *trim,
        }),
        Decision::Sealed(sealed) => Reply::Whole(Body::SealedHere {
            number,
            sealed: *sealed,
        }),
        Decision::Same => Reply::Whole(Body::Stored { number }),
        Decision::Take => Reply::Whole(Body::Stored { number }),
        Decision::Compare(place) => Reply::Compare(*place),
    }
}

/// What a node makes of an ask for a digest: it is sealed by its ballot, where it isn't yet.
fn on_digest_ask(alloc: Global, plain: &Plain, msg: &Msg) -> Result<Handled, NoMemory>
    requires { IsDigestAsk msg.now.body }
    ensures handled { (f : ℕ → ℕ) (id released : ℕ) → IfOk result (λ done. IsHandledWith f msg.now done (handled_by id plain.now.state.generation (each_log f (log_of plain.now.state msg.now.log)) msg.now.log (ballot_of msg.now.from) released msg.now.body)) }
    ensures stays { (count : ℕ) → each_plain (within count) plain.now.state ≡ plain.now.state → IfOk result (λ done. Stays (within count) done.answer) }
{
    let decision = ld_seal::on_digest(plain, msg);
    let answer = reply_to_digest(alloc, plain, msg, &decision)?;
    Ok(Handled {
        op: seal(msg, &decision),
        answer,
    })
}

/// The op of a seal that rises.
fn seal(msg: &Msg, decision: &Decision) -> Option<Op>
    ensures { result ≡ op_if (seal_of msg.now.log (ballot_of msg.now.from)) decision.now }
{
    match decision {
        Decision::Take => Some(Op::Seal {
            log: msg.log,
            ballot: msg.from.ballot(),
        }),
        _ => None,
    }
}

/// The answer to an ask for a digest: a page, where it isn't refused.
fn reply_to_digest(
    alloc: Global,
    plain: &Plain,
    msg: &Msg,
    decision: &Decision,
) -> Result<Reply, NoMemory>
    requires { IsDigestAsk msg.now.body }
    ensures { IfOk result (λ reply. reply ≡ digest_reply (asked_from msg.now.body) (digest_answered plain.now.state msg.now) decision.now) }
{
    let number = number_asked(&msg.body);
    match decision {
        Decision::Lost(generation, end) => Ok(Reply::Whole(Body::LostHere {
            number,
            round: 0,
            generation: *generation,
            end: *end,
        })),
        Decision::Clean(summary) => Ok(Reply::Whole(Body::CleanHere {
            number,
            summary: *summary,
        })),
        Decision::Trimmed(trim) => Ok(Reply::Whole(Body::TrimmedHere {
            number,
            trim: *trim,
        })),
        Decision::Sealed(sealed) => Ok(Reply::Whole(Body::SealedHere {
            number,
            sealed: *sealed,
        })),
        _ => page(alloc, plain, msg),
    }
}

/// The number from which a digest is asked for.
fn number_asked(body: &Body) -> Lsn
    ensures { result ≡ asked_from body.now }
{
    match body {
        Body::DigestAsk { from } => *from,
        _ => Lsn::from_u64(0),
    }
}

/// A page of a digest.
fn page(alloc: Global, plain: &Plain, msg: &Msg) -> Result<Reply, NoMemory>
    requires { IsDigestAsk msg.now.body }
    ensures { IfOk result (λ reply. reply ≡ Page (digest_answered plain.now.state msg.now)) }
{
    let page = ld_readnode::digest(alloc, plain, msg)?;
    Ok(Reply::Page(page))
}
