// The read answer and the digest page.
ghost use Rattle.std.specs.Prelude.{◌≡◌, ℕ, Bool, List, None, IfOk};
ghost use Rattle.ld_lsn.specs.Number.{home_epoch, home_esn};
ghost use Rattle.ld_op.specs.Plain.{log_of};
ghost use Rattle.ld_msg.specs.declared.msg.Body.TheVariants.{ReadOne};
ghost use Rattle.ld_op.specs.Answers.{read_answer, epoch_answer, read_page, readable};
ghost use Rattle.ld_readnode.specs.Answered.{IsReadAsk, IsReadOne, IsDigestAsk, read_answered, one_answered, digest_answered, ended_answer, lost_here, carried_in, entries_read, AreSentBy};
ghost use Rattle.ld_readnode.specs.Payloads.{carries_of};

use crate::payloads::Payloads;
use ld_ids::{LogId, NoMemory, NodeId};
use ld_lsn::Lsn;
use ld_msg::{Body, Msg, Summary};
use ld_op::{Draft, DraftBody, Plain};
use std::alloc::Global;

/// An ask of a reader, or of a node that refills, and the payloads that the answer carries.
#[derive(Clone, Copy)]
struct Ask {
    log: LogId,
    round: u32,
    from: Lsn,
    payloads: Payloads,
}

/// The answer to an ask for what stands at a number and behind it. The message is a ReadAsk, and `released` the
/// log's released number as this node knows it. A page has at most 64 entries; it takes time in what it gives,
/// and in the bridges and unused offsets that it passes, not in all entries of the log.
pub fn answer(alloc: Global, plain: &Plain, released: Lsn, msg: &Msg) -> Result<Draft, NoMemory>
    requires { IsReadAsk msg.now.body }
    ensures { IfOk result (λ answer. answer ≡ read_answered plain.now.state released msg.now) }
{
    match &msg.body {
        Body::ReadAsk { round, from } => {
            let ask = Ask {
                log: msg.log,
                round: *round,
                from: *from,
                payloads: Payloads::All,
            };
            let body = read_body(alloc, plain, released, ask)?;
            Ok(Draft::new(msg.to, msg.from, msg.log, body))
        }
        _ => Err(NoMemory),
    }
}

/// The answer of a node to an ask for one copy of each record: the same, but of a record that another node sends the page
/// says only that there is one, and its payload isn't copied. The message is a ReadOne.
pub fn answer_one(
    alloc: Global,
    plain: &Plain,
    node: NodeId,
    released: Lsn,
    msg: &Msg,
) -> Result<Draft, NoMemory>
    requires { IsReadOne msg.now.body }
    ensures answer { IfOk result (λ answer. answer ≡ one_answered node plain.now.state released msg.now) }

    // A payload stands in the page only where this node is the one that sends it.
    ensures senders { (round from : ℕ) (set excluded : List Bool) → msg.now.body ≡ ReadOne round from set excluded → IfOk result (λ answer. AreSentBy node set excluded (entries_read answer.body)) }
{
    match &msg.body {
        Body::ReadOne {
            round,
            from,
            set,
            excluded,
        } => {
            let ask = Ask {
                log: msg.log,
                round: *round,
                from: *from,
                payloads: Payloads::Share {
                    node,
                    set: *set,
                    excluded: *excluded,
                },
            };
            let body = read_body(alloc, plain, released, ask)?;
            Ok(Draft::new(msg.to, msg.from, msg.log, body))
        }
        _ => Err(NoMemory),
    }
}

/// The page that answers an ask for a digest which isn't refused. The message is a DigestAsk.
pub fn digest(alloc: Global, plain: &Plain, msg: &Msg) -> Result<Draft, NoMemory>
    requires { IsDigestAsk msg.now.body }
    ensures { IfOk result (λ answer. answer ≡ digest_answered plain.now.state msg.now) }
{
    match &msg.body {
        Body::DigestAsk { from } => {
            let end = Lsn::new(from.epoch(), u32::MAX);
            let page = plain.excerpt(alloc, msg.log, *from, end, true)?;
            let body = DraftBody::digest(
                *from,
                page.upto,
                plain.trim(msg.log),
                plain.lng(msg.log, from.epoch()),
                page.entries,
            );
            Ok(Draft::new(msg.to, msg.from, msg.log, body))
        }
        _ => Err(NoMemory),
    }
}

/// The answer with the payloads of those records that are carried.
#[tactic(auto, unfolding(ld_op::specs::Answers::read_answer))]
fn read_body(alloc: Global, plain: &Plain, released: Lsn, ask: Ask) -> Result<DraftBody, NoMemory>
    ensures { IfOk result (λ body. body ≡ carried_in (carries_of ask.payloads) (read_answer plain.now.state.generation (log_of plain.now.state ask.log) released ask.round ask.from)) }
{
    let trim = plain.trim(ask.log);
    if ask.from.value() <= trim.value() {
        return Ok(DraftBody::whole(Body::ReadTrim {
            round: ask.round,
            from: ask.from,
            trim,
        }));
    }
    let (epoch, esn) = ask.from.home();
    match plain.summary(ask.log, epoch) {
        Some(summary) => ended_body(alloc, plain, ask, epoch, esn, summary),
        None => open_body(alloc, plain, released, ask, epoch),
    }
}

/// The answer where the epoch is clean here.
fn ended_body(
    alloc: Global,
    plain: &Plain,
    ask: Ask,
    epoch: u32,
    esn: u64,
    summary: Summary,
) -> Result<DraftBody, NoMemory>
    requires epoch { epoch ≡ home_epoch ask.from }
    requires esn { esn ≡ home_esn ask.from }
    ensures { IfOk result (λ body. body ≡ carried_in (carries_of ask.payloads) (ended_answer plain.now.state.generation (log_of plain.now.state ask.log) ask.round ask.from summary)) }
{
    if u64::from(summary.end) <= esn {
        return Ok(DraftBody::whole(Body::ReadEnded {
            round: ask.round,
            from: ask.from,
            end: Lsn::new(epoch, summary.end),
            loss: summary.loss,
        }));
    }
    if plain.is_lost_in(ask.log, epoch) {
        return Ok(lost_body(plain, ask, Lsn::new(epoch, summary.end)));
    }
    let last = Lsn::new(epoch, summary.end.saturating_sub(1));
    read_page(alloc, plain, ask, last, true)
}

/// The answer where the epoch isn't clean here.
fn open_body(
    alloc: Global,
    plain: &Plain,
    released: Lsn,
    ask: Ask,
    epoch: u32,
) -> Result<DraftBody, NoMemory>
    requires { epoch ≡ home_epoch ask.from }
    ensures { IfOk result (λ body. body ≡ carried_in (carries_of ask.payloads) (epoch_answer plain.now.state.generation (log_of plain.now.state ask.log) released ask.round ask.from None)) }
{
    if plain.is_lost_in(ask.log, epoch) {
        return Ok(lost_body(plain, ask, Lsn::from_u64(0)));
    }
    if 0 < released.esn() && released.epoch() == epoch && ask.from.value() <= released.value() {
        return read_page(alloc, plain, ask, released, false);
    }
    Ok(DraftBody::whole(Body::ReadWait {
        round: ask.round,
        from: ask.from,
        released,
    }))
}

/// The answer where the epoch is lost here.
fn lost_body(plain: &Plain, ask: Ask, end: Lsn) -> DraftBody
    ensures { result ≡ lost_here plain.now.state.generation ask.round ask.from end }
{
    DraftBody::whole(Body::LostHere {
        number: ask.from,
        round: ask.round,
        generation: plain.generation(),
        end,
    })
}

/// A page of the entries up to a number, without bridges.
fn read_page(
    alloc: Global,
    plain: &Plain,
    ask: Ask,
    last: Lsn,
    clean: bool,
) -> Result<DraftBody, NoMemory>
    ensures { IfOk result (λ body. body ≡ carried_in (carries_of ask.payloads) (read_page ask.round ask.from clean last (readable (log_of plain.now.state ask.log) ask.from last))) }
{
    let page = plain.excerpt_of(alloc, ask.log, ask.from, last, false, &ask.payloads)?;
    Ok(DraftBody::page(ask.round, ask.from, page.upto, clean, page.entries))
}
