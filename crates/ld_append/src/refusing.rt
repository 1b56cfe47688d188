// What is written of a sequencer's call, and how the drive ends by it.
ghost use Rattle.std.specs.Prelude.{◌≡◌, ◌≢◌, true, false, Err, IfOk, IfSome, OnOk};
ghost use Rattle.ld_register.specs.declared.fault.RegisterFault.TheVariants.{LogLimit};
ghost use Rattle.ld_append.specs.Refusing.{close_end, report_end, register_end, fault_end, end_by, kept_end, round_end, is_window, is_log_limit, lines_by, IsTold};

use ld_clients::told;
use ld_ids::{Name, NoMemory};
use ld_msg::Outbox;
use ld_register::RegisterFault;
use ld_rounds::{Ended, Heard, Refusal};
use ld_sequencer::{CloseFault, Report, SequencerFault};
use std::alloc::Global;

/// How the drive ends where a close isn't known to be made.
fn close_end(fault: Option<CloseFault>) -> Option<Ended>
    ensures { result ≡ close_end fault }
{
    match fault {
        Some(CloseFault::Failed) => Some(Ended::Register(Refusal::Failed)),
        Some(CloseFault::Full) => Some(Ended::Register(Refusal::Full)),
        None => None,
    }
}

/// How the drive ends by a report, where it does.
fn report_end(report: &Report) -> Option<Ended>
    ensures { result ≡ report_end report.now.preempted report.now.register }
{
    match report.preempted {
        Some(by) => Some(Ended::Preempted(by)),
        None => close_end(report.register),
    }
}

/// How the drive ends by a refusal of the register. Those that no call of a sequencer is refused with end nothing.
fn register_end(fault: &RegisterFault) -> Option<Ended>
    ensures { result ≡ register_end fault.now }
{
    match fault {
        RegisterFault::LogLimit => Some(Ended::LogLimit),
        RegisterFault::EpochLimit => Some(Ended::EpochLimit),
        RegisterFault::Full => Some(Ended::Register(Refusal::Full)),
        RegisterFault::Damaged(place) => Some(Ended::Register(Refusal::Damaged(*place))),
        RegisterFault::Failed => Some(Ended::Register(Refusal::Failed)),
        _ => None,
    }
}

/// How the drive ends by a refusal, where it does.
fn fault_end(fault: &SequencerFault) -> Option<Ended>
    ensures { result ≡ fault_end fault.now }
{
    match fault {
        SequencerFault::Preempted(by) => Some(Ended::Preempted(*by)),
        SequencerFault::EpochFull => Some(Ended::EpochFull),
        SequencerFault::Register(refusal) => register_end(refusal),
        _ => None,
    }
}

/// How the drive ends by what a call answered, where it does.
fn end_by(answer: &Result<Report, SequencerFault>) -> Option<Ended>
    ensures { result ≡ end_by answer.now }
{
    match answer {
        Ok(report) => report_end(report),
        Err(fault) => fault_end(fault),
    }
}

/// Why the register refused, where that is kept; else it is when out of memory.
fn kept_end(kept: Option<Ended>) -> Ended
    ensures { result ≡ kept_end kept }
{
    match kept {
        Some(Ended::Register(refusal)) => Ended::Register(refusal),
        _ => Ended::NoMemory,
    }
}

/// How the rounds went: where one ended since the register refused, it is told why, as it is kept.
pub(crate) fn round_end(kept: Option<Ended>, driven: Result<bool, Ended>) -> Result<bool, Ended>
    ensures { result ≡ round_end kept driven }
{
    match driven {
        Err(Ended::Register(_)) => Err(kept_end(kept)),
        driven => driven,
    }
}

/// Whether the window is full.
pub(crate) fn is_window(fault: &SequencerFault) -> bool
    ensures { result ≡ is_window fault.now }
{
    match fault {
        SequencerFault::WindowFull => true,
        _ => false,
    }
}

/// Whether the register holds as many other logs as may be.
fn is_crowded(answer: &Result<Report, SequencerFault>) -> bool
    ensures crowded { result ≡ true → answer.now ≡ Err (SequencerFault.Register LogLimit) }
    ensures other { result ≡ false → answer.now ≢ Err (SequencerFault.Register LogLimit) }
{
    match answer {
        Err(SequencerFault::Register(refusal)) => is_log_limit(refusal),
        _ => false,
    }
}

/// Whether it is so full.
fn is_log_limit(refusal: &RegisterFault) -> bool
    ensures { result ≡ is_log_limit refusal.now }
{
    match refusal {
        RegisterFault::LogLimit => true,
        _ => false,
    }
}

/// What a call of a sequencer writes and sends, and how the drive ends by it. Where the register holds as many other logs
/// as may be, no line is written.
pub(crate) fn heard(
    alloc: Global,
    name: &Name,
    answer: Result<Report, SequencerFault>,
    sends: Outbox,
) -> Result<Heard, NoMemory>
    ensures lines { IfOk result (λ heard. heard.lines.items ≡ lines_by name.now answer) }
    ensures sends { IfOk result (λ heard. heard.sends ≡ sends) }
    ensures end { IfOk result (λ heard. heard.end ≡ end_by answer) }
    ensures told { IfOk result (λ heard. IfSome heard.end (IsTold heard.lines.items)) }
    ensures memory { OnOk result (answer ≢ Err SequencerFault.NoMemory) }
{
    let end = end_by(&answer);
    if is_crowded(&answer) {
        return Ok(Heard {
            lines: Vec::new(alloc),
            sends,
            end,
        });
    }
    let outcome = told(alloc, name, answer, sends)?;
    Ok(Heard {
        lines: outcome.lines,
        sends: outcome.sends,
        end,
    })
}
