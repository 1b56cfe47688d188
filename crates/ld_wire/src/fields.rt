// The fields of each kind of message.
ghost use Rattle.std.specs.Prelude.{◌≡◌, ◌≤◌, length, IfOk, IfErr};
ghost use Rattle.ld_fields.specs.Fields.{Got};
ghost use Rattle.ld_fields.specs.Faults.{IsOff};
ghost use Rattle.ld_wire.specs.Judging.{asks_in, answers_in, may_store, page_beside, answer, read_store, read_sealed, read_lost, read_clean_here, read_trimmed, read_digest_ask, read_digest_page, read_clean, read_read_ask, read_asked, read_read_page, read_ended, read_read_one, read_answer, read_stored, read_told, read_late, read_body};

use crate::asked::may_share;
use crate::page::{page_beside, read_page, read_upto};
use ld_fields::{
    Beside, FieldFault, GREATEST_EPOCH, GREATEST_LNG, check, is_number, is_tag, may_stand,
    read_flag, read_number, read_summary, read_u8, read_u16, read_u32, read_what,
};
use ld_ids::NodeSet;
use ld_lsn::Lsn;
use ld_msg::{Body, Who};
use std::alloc::Global;

/// The fields of a message of the kind behind its log.
#[tactic(auto, unfolding(crate::specs::Judging::read_body))]
pub(crate) fn read_body(
    alloc: Global,
    bytes: &[u8],
    kind: u8,
    from: &Who,
    to: &Who,
    at: usize,
) -> Result<(Body, usize), FieldFault>
    requires { at ≤ length bytes.now }
    ensures ok { IfOk result (λ p. read_body kind from.now to.now bytes.now at ≡ Got p.0 p.1) }
    ensures next { IfOk result (λ p. p.1 ≤ length bytes.now) }
    ensures off { IfErr result (IsOff (read_body kind from.now to.now bytes.now at)) }
{
    if kind <= 6 {
        return read_stored(alloc, bytes, kind, from, to, at);
    }
    if kind <= 11 {
        return read_told(alloc, bytes, kind, from, at);
    }
    if kind == 12 {
        return read_read_ask(bytes, from, at);
    }
    if kind == 13 {
        return read_read_page(alloc, bytes, to, at);
    }
    read_late(bytes, kind, at)
}

#[tactic(auto, unfolding(crate::specs::Judging::read_late))]
fn read_late(bytes: &[u8], kind: u8, at: usize) -> Result<(Body, usize), FieldFault>
    requires { at ≤ length bytes.now }
    ensures ok { IfOk result (λ p. read_late kind bytes.now at ≡ Got p.0 p.1) }
    ensures next { IfOk result (λ p. p.1 ≤ length bytes.now) }
    ensures off { IfErr result (IsOff (read_late kind bytes.now at)) }
{
    if kind == 17 {
        return read_clean_here(bytes, at);
    }
    if kind == 18 {
        return read_clean(bytes, at);
    }
    if kind == 19 {
        return read_ended(bytes, at);
    }
    if kind == 20 {
        return read_read_one(bytes, at);
    }
    read_answer(bytes, kind, at)
}

#[tactic(auto, unfolding(crate::specs::Judging::read_stored))]
fn read_stored(
    alloc: Global,
    bytes: &[u8],
    kind: u8,
    from: &Who,
    to: &Who,
    at: usize,
) -> Result<(Body, usize), FieldFault>
    requires { at ≤ length bytes.now }
    ensures ok { IfOk result (λ p. read_stored kind from.now to.now bytes.now at ≡ Got p.0 p.1) }
    ensures next { IfOk result (λ p. p.1 ≤ length bytes.now) }
    ensures off { IfErr result (IsOff (read_stored kind from.now to.now bytes.now at)) }
{
    if kind == 1 {
        return read_store(alloc, bytes, from.ballot(), at);
    }
    if kind == 2 {
        let (number, next) = read_number(bytes, at)?;
        return Ok((Body::Stored { number }, next));
    }
    if kind == 3 {
        return read_sealed(bytes, at);
    }
    if kind == 4 {
        return read_lost(bytes, to, at);
    }
    read_trimmed(bytes, at)
}

#[tactic(auto, unfolding(crate::specs::Judging::read_told))]
fn read_told(
    alloc: Global,
    bytes: &[u8],
    kind: u8,
    from: &Who,
    at: usize,
) -> Result<(Body, usize), FieldFault>
    requires { at ≤ length bytes.now }
    ensures ok { IfOk result (λ p. read_told kind from.now bytes.now at ≡ Got p.0 p.1) }
    ensures next { IfOk result (λ p. p.1 ≤ length bytes.now) }
    ensures off { IfErr result (IsOff (read_told kind from.now bytes.now at)) }
{
    if kind == 7 {
        return read_digest_ask(bytes, from.ballot(), at);
    }
    if kind == 8 {
        return read_digest_page(alloc, bytes, at);
    }
    if kind == 10 {
        let (released, next) = read_number(bytes, at)?;
        return Ok((Body::Release { released }, next));
    }
    let (trim, next) = read_number(bytes, at)?;
    Ok((Body::Trim { trim }, next))
}

#[tactic(auto, unfolding(crate::specs::Judging::read_store))]
fn read_store(
    alloc: Global,
    bytes: &[u8],
    ballot: u32,
    at: usize,
) -> Result<(Body, usize), FieldFault>
    requires { at ≤ length bytes.now }
    ensures ok { IfOk result (λ p. read_store ballot bytes.now at ≡ Got p.0 p.1) }
    ensures next { IfOk result (λ p. p.1 ≤ length bytes.now) }
    ensures off { IfErr result (IsOff (read_store ballot bytes.now at)) }
{
    let (number, at_lng) = read_number(bytes, at)?;
    check(is_number(number) && number.epoch() <= ballot, at)?;
    let (lng, at_tag) = read_u32(bytes, at_lng)?;
    check(lng <= GREATEST_LNG, at_lng)?;
    let (tag, at_what) = read_u8(bytes, at_tag)?;
    check(may_store(ballot, number, tag), at_tag)?;
    let (what, next) = read_what(alloc, bytes, at_what, tag)?;
    Ok((Body::Store { number, lng, what }, next))
}

fn may_store(ballot: u32, number: Lsn, tag: u8) -> bool
    ensures { result ≡ may_store ballot number tag }
{
    is_tag(number, tag) && may_stand(Beside::Bridges, tag) && (number.epoch() != ballot || tag == 0)
}

#[tactic(auto, unfolding(crate::specs::Judging::read_sealed))]
fn read_sealed(bytes: &[u8], at: usize) -> Result<(Body, usize), FieldFault>
    requires { at ≤ length bytes.now }
    ensures ok { IfOk result (λ p. read_sealed bytes.now at ≡ Got p.0 p.1) }
    ensures next { IfOk result (λ p. p.1 ≤ length bytes.now) }
    ensures off { IfErr result (IsOff (read_sealed bytes.now at)) }
{
    let (number, at_sealed) = read_number(bytes, at)?;
    let (sealed, next) = read_u32(bytes, at_sealed)?;
    Ok((Body::SealedHere { number, sealed }, next))
}

#[tactic(auto, unfolding(crate::specs::Judging::read_lost))]
fn read_lost(bytes: &[u8], to: &Who, at: usize) -> Result<(Body, usize), FieldFault>
    requires { at ≤ length bytes.now }
    ensures ok { IfOk result (λ p. read_lost to.now bytes.now at ≡ Got p.0 p.1) }
    ensures next { IfOk result (λ p. p.1 ≤ length bytes.now) }
    ensures off { IfErr result (IsOff (read_lost to.now bytes.now at)) }
{
    let (number, at_round) = read_number(bytes, at)?;
    check(1 <= number.value(), at)?;
    let (round, at_generation) = read_u32(bytes, at_round)?;
    check(answers_in(to, round), at_round)?;
    let (generation, at_end) = read_u32(bytes, at_generation)?;
    let (end, next) = read_number(bytes, at_end)?;
    Ok((
        Body::LostHere {
            number,
            round,
            generation,
            end,
        },
        next,
    ))
}

fn answers_in(to: &Who, round: u32) -> bool
    ensures { result ≡ answers_in to.now round }
{
    match to {
        Who::Node(_) => true,
        Who::Sequencer(_) => round == 0,
        Who::Reader(_) => true,
    }
}

#[tactic(auto, unfolding(crate::specs::Judging::read_clean_here))]
fn read_clean_here(bytes: &[u8], at: usize) -> Result<(Body, usize), FieldFault>
    requires { at ≤ length bytes.now }
    ensures ok { IfOk result (λ p. read_clean_here bytes.now at ≡ Got p.0 p.1) }
    ensures next { IfOk result (λ p. p.1 ≤ length bytes.now) }
    ensures off { IfErr result (IsOff (read_clean_here bytes.now at)) }
{
    let (number, at_summary) = read_number(bytes, at)?;
    let (summary, next) = read_summary(bytes, number.epoch(), at_summary)?;
    Ok((Body::CleanHere { number, summary }, next))
}

#[tactic(auto, unfolding(crate::specs::Judging::read_trimmed))]
fn read_trimmed(bytes: &[u8], at: usize) -> Result<(Body, usize), FieldFault>
    requires { at ≤ length bytes.now }
    ensures ok { IfOk result (λ p. read_trimmed bytes.now at ≡ Got p.0 p.1) }
    ensures next { IfOk result (λ p. p.1 ≤ length bytes.now) }
    ensures off { IfErr result (IsOff (read_trimmed bytes.now at)) }
{
    let (number, at_trim) = read_number(bytes, at)?;
    let (trim, next) = read_number(bytes, at_trim)?;
    Ok((Body::TrimmedHere { number, trim }, next))
}

#[tactic(auto, unfolding(crate::specs::Judging::read_digest_ask))]
fn read_digest_ask(bytes: &[u8], ballot: u32, at: usize) -> Result<(Body, usize), FieldFault>
    requires { at ≤ length bytes.now }
    ensures ok { IfOk result (λ p. read_digest_ask ballot bytes.now at ≡ Got p.0 p.1) }
    ensures next { IfOk result (λ p. p.1 ≤ length bytes.now) }
    ensures off { IfErr result (IsOff (read_digest_ask ballot bytes.now at)) }
{
    let (from, next) = read_number(bytes, at)?;
    check(
        1 <= from.epoch() && from.epoch() < ballot && 1 <= from.esn(),
        at,
    )?;
    Ok((Body::DigestAsk { from }, next))
}

#[tactic(auto, unfolding(crate::specs::Judging::read_digest_page))]
fn read_digest_page(alloc: Global, bytes: &[u8], at: usize) -> Result<(Body, usize), FieldFault>
    requires { at ≤ length bytes.now }
    ensures ok { IfOk result (λ p. read_digest_page bytes.now at ≡ Got p.0 p.1) }
    ensures next { IfOk result (λ p. p.1 ≤ length bytes.now) }
    ensures off { IfErr result (IsOff (read_digest_page bytes.now at)) }
{
    let (from, at_upto) = read_number(bytes, at)?;
    let (upto, at_trim) = read_upto(bytes, from, at_upto)?;
    let (trim, at_lng) = read_number(bytes, at_trim)?;
    let (lng, at_page) = read_u32(bytes, at_lng)?;
    check(lng <= GREATEST_LNG, at_lng)?;
    let (entries, next) = read_page(alloc, bytes, Beside::Bridges, from, upto, at_page)?;
    Ok((
        Body::DigestPage {
            from,
            upto,
            trim,
            lng,
            entries,
        },
        next,
    ))
}

#[tactic(auto, unfolding(crate::specs::Judging::read_clean))]
fn read_clean(bytes: &[u8], at: usize) -> Result<(Body, usize), FieldFault>
    requires { at ≤ length bytes.now }
    ensures ok { IfOk result (λ p. read_clean bytes.now at ≡ Got p.0 p.1) }
    ensures next { IfOk result (λ p. p.1 ≤ length bytes.now) }
    ensures off { IfErr result (IsOff (read_clean bytes.now at)) }
{
    let (epoch, at_summary) = read_u32(bytes, at)?;
    check(1 <= epoch && epoch <= GREATEST_EPOCH, at)?;
    let (summary, next) = read_summary(bytes, epoch, at_summary)?;
    Ok((Body::Clean { epoch, summary }, next))
}

#[tactic(auto, unfolding(crate::specs::Judging::read_read_ask))]
fn read_read_ask(bytes: &[u8], from: &Who, at: usize) -> Result<(Body, usize), FieldFault>
    requires { at ≤ length bytes.now }
    ensures ok { IfOk result (λ p. read_read_ask from.now bytes.now at ≡ Got p.0 p.1) }
    ensures next { IfOk result (λ p. p.1 ≤ length bytes.now) }
    ensures off { IfErr result (IsOff (read_read_ask from.now bytes.now at)) }
{
    let (round, at_number) = read_u32(bytes, at)?;
    check(asks_in(from, round), at)?;
    let (number, next) = read_number(bytes, at_number)?;
    check(1 <= number.value(), at_number)?;
    Ok((
        Body::ReadAsk {
            round,
            from: number,
        },
        next,
    ))
}

fn asks_in(from: &Who, round: u32) -> bool
    ensures { result ≡ asks_in from.now round }
{
    match from {
        Who::Node(_) => round == 0,
        Who::Sequencer(_) => true,
        Who::Reader(_) => true,
    }
}

#[tactic(auto, unfolding(crate::specs::Judging::read_read_page))]
fn read_read_page(
    alloc: Global,
    bytes: &[u8],
    to: &Who,
    at: usize,
) -> Result<(Body, usize), FieldFault>
    requires { at ≤ length bytes.now }
    ensures ok { IfOk result (λ p. read_read_page to.now bytes.now at ≡ Got p.0 p.1) }
    ensures next { IfOk result (λ p. p.1 ≤ length bytes.now) }
    ensures off { IfErr result (IsOff (read_read_page to.now bytes.now at)) }
{
    let ((round, from), at_upto) = read_asked(bytes, at)?;
    let (upto, at_clean) = read_upto(bytes, from, at_upto)?;
    let (clean, at_page) = read_flag(bytes, at_clean)?;
    let (entries, next) = read_page(alloc, bytes, page_beside(to), from, upto, at_page)?;
    Ok((
        Body::ReadPage {
            round,
            from,
            upto,
            clean,
            entries,
        },
        next,
    ))
}

#[tactic(auto, unfolding(crate::specs::Judging::read_ended))]
fn read_ended(bytes: &[u8], at: usize) -> Result<(Body, usize), FieldFault>
    requires { at ≤ length bytes.now }
    ensures ok { IfOk result (λ p. read_ended bytes.now at ≡ Got p.0 p.1) }
    ensures next { IfOk result (λ p. p.1 ≤ length bytes.now) }
    ensures off { IfErr result (IsOff (read_ended bytes.now at)) }
{
    let ((round, from), at_end) = read_asked(bytes, at)?;
    let (end, at_loss) = read_number(bytes, at_end)?;
    let (loss, next) = read_flag(bytes, at_loss)?;
    Ok((
        Body::ReadEnded {
            round,
            from,
            end,
            loss,
        },
        next,
    ))
}

#[tactic(auto, unfolding(crate::specs::Judging::read_read_one))]
fn read_read_one(bytes: &[u8], at: usize) -> Result<(Body, usize), FieldFault>
    requires { at ≤ length bytes.now }
    ensures ok { IfOk result (λ p. read_read_one bytes.now at ≡ Got p.0 p.1) }
    ensures next { IfOk result (λ p. p.1 ≤ length bytes.now) }
    ensures off { IfErr result (IsOff (read_read_one bytes.now at)) }
{
    let ((round, from), at_set) = read_asked(bytes, at)?;
    let (set, at_excluded) = read_u16(bytes, at_set)?;
    let (excluded, next) = read_u16(bytes, at_excluded)?;
    let set = NodeSet::from_bits(set);
    let excluded = NodeSet::from_bits(excluded);
    check(may_share(&excluded, &set), at_excluded)?;
    Ok((
        Body::ReadOne {
            round,
            from,
            set,
            excluded,
        },
        next,
    ))
}

/// The round and the number that a reader asked for.
#[tactic(auto, unfolding(crate::specs::Judging::read_asked))]
fn read_asked(bytes: &[u8], at: usize) -> Result<((u32, Lsn), usize), FieldFault>
    requires { at ≤ length bytes.now }
    ensures ok { IfOk result (λ p. read_asked bytes.now at ≡ Got (p.0.0, p.0.1) p.1) }
    ensures next { IfOk result (λ p. p.1 ≤ length bytes.now) }
    ensures off { IfErr result (IsOff (read_asked bytes.now at)) }
{
    let (round, at_number) = read_u32(bytes, at)?;
    let (number, next) = read_number(bytes, at_number)?;
    check(1 <= number.value(), at_number)?;
    Ok(((round, number), next))
}

#[tactic(auto, unfolding(crate::specs::Judging::read_answer))]
fn read_answer(bytes: &[u8], kind: u8, at: usize) -> Result<(Body, usize), FieldFault>
    requires { at ≤ length bytes.now }
    ensures ok { IfOk result (λ p. read_answer kind bytes.now at ≡ Got p.0 p.1) }
    ensures next { IfOk result (λ p. p.1 ≤ length bytes.now) }
    ensures off { IfErr result (IsOff (read_answer kind bytes.now at)) }
{
    let ((round, from), at_number) = read_asked(bytes, at)?;
    let (number, next) = read_number(bytes, at_number)?;
    Ok((answer(kind, round, from, number), next))
}

fn answer(kind: u8, round: u32, from: Lsn, number: Lsn) -> Body
    ensures { result ≡ answer kind round from number }
{
    if kind == 15 {
        return Body::ReadTrim {
            round,
            from,
            trim: number,
        };
    }
    Body::ReadWait {
        round,
        from,
        released: number,
    }
}
