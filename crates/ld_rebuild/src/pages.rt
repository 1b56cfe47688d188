// What a lost node takes from the pages of others.
ghost use Rattle.std.specs.Prelude.{◌≡◌, IfOk};
ghost use Rattle.ld_op.specs.Plain.{log_of};
ghost use Rattle.ld_op.specs.Ticks.{on_page, lacking, refill_op};
ghost use Rattle.ld_rebuild.specs.Lacks.{closing_of, trim_op};

use ld_ids::{LogId, NoMemory};
use ld_lsn::Lsn;
use ld_msg::{Body, Entries, Entry, Msg, Summary};
use ld_op::{Op, Plain};
use std::alloc::Global;

/// The op that an answer to an ask leads to, on a node that is lost for the log. Of a page that is marked clean it takes
/// the entries that are missing, each with the ballot of its epoch's summary; a trim above the log's raises that. None
/// exactly where the node isn't lost, or neither a clean page has a missing entry nor a trim is above the log's. It takes
/// time in the entries of the page, and for each in the logarithm of those of the log.
#[tactic(auto, unfolding(ld_op::specs::Ticks::on_page))]
pub fn on_page(alloc: Global, plain: &Plain, msg: &Msg) -> Result<Option<Op>, NoMemory>
    ensures { IfOk result (λ op. op ≡ (on_page (log_of plain.now.state msg.now.log) msg.now.log msg.now.body).op) }
{
    if !plain.is_lost(msg.log) {
        return Ok(None);
    }
    match &msg.body {
        Body::ReadPage { clean, entries, .. } => {
            if *clean {
                refill(alloc, plain, msg.log, entries)
            } else {
                Ok(None)
            }
        }
        Body::ReadTrim { trim, .. } => Ok(raise(plain, msg.log, *trim)),
        _ => Ok(None),
    }
}

/// The op that takes the missing entries of a clean page.
fn refill(
    alloc: Global,
    plain: &Plain,
    log: LogId,
    entries: &Entries,
) -> Result<Option<Op>, NoMemory>
    ensures { IfOk result (λ op. op ≡ refill_op log (lacking (log_of plain.now.state log) entries.now)) }
{
    let entries = missing_of(alloc, plain, log, entries.as_slice())?;
    if entries.is_empty() {
        return Ok(None);
    }
    Ok(Some(Op::Refill {
        log,
        entries: Entries::new(entries),
    }))
}

/// The missing ones of a clean page's entries, each with its summary's ballot.
fn missing_of(
    alloc: Global,
    plain: &Plain,
    log: LogId,
    entries: &[Entry],
) -> Result<Vec<Entry>, NoMemory>
    ensures { IfOk result (λ missing. missing.items ≡ lacking (log_of plain.now.state log) entries.now) }
{
    let mut missing = Vec::new(alloc);
    for entry in entries {
        if let Some(summary) = closing_of(plain, log, entry.number) {
            missing.push(Entry {
                number: entry.number,
                ballot: summary.ballot,
                what: entry.what.copy(alloc)?,
            })?;
        }
    }
    Ok(missing)
}

/// The summary of a missing number's epoch; none where the number isn't missing.
#[tactic(auto, unfolding(ld_op::specs::Ticks::is_missing))]
fn closing_of(plain: &Plain, log: LogId, number: Lsn) -> Option<Summary>
    ensures { result ≡ closing_of (log_of plain.now.state log) number }
{
    if number.value() <= plain.trim(log).value() || plain.lost_to(log) < number.epoch() {
        return None;
    }
    match plain.kept_summary(log, number.epoch()) {
        Some(summary) => {
            if number.esn() < summary.end && plain.entry(log, number).is_none() {
                Some(summary)
            } else {
                None
            }
        }
        None => None,
    }
}

/// The op of a trim that is above the log's.
fn raise(plain: &Plain, log: LogId, trim: Lsn) -> Option<Op>
    ensures { result ≡ trim_op (log_of plain.now.state log) log trim }
{
    if plain.trim(log).value() < trim.value() {
        Some(Op::Trim { log, trim })
    } else {
        None
    }
}
