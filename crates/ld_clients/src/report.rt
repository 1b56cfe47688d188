// The lines of what a sequencer did, or of why it refused.
ghost use Rattle.std.specs.Prelude.{◌≡◌, ◌≢◌, ◌++◌, ◌∷◌, [], is_some, IfOk, OnOk, IfSome, IfNone, Err};
ghost use Rattle.ld_transcript.specs.declared.line.Line.TheVariants.{RefusedRegister, RefusedPreempted, Acked, Clean, Released};
ghost use Rattle.ld_machine.specs.Step.{numbered_lines, when};
ghost use Rattle.ld_sequencer.specs.Own.{listed};
ghost use Rattle.ld_clients.specs.Acting.{report_lines};
ghost use Rattle.ld_clients.specs.Refusing.{fault_lines, told_lines};

use crate::Outcome;
use ld_ids::{Name, NoMemory};
use ld_msg::Outbox;
use ld_register::RegisterFault;
use ld_sequencer::{Report, SequencerFault};
use ld_transcript::Line;
use std::alloc::Global;

/// What a call of a sequencer writes and sends, by its report or its refusal.
pub fn told(
    alloc: Global,
    name: &Name,
    answer: Result<Report, SequencerFault>,
    sends: Outbox,
) -> Result<Outcome, NoMemory>
    ensures lines { IfOk result (λ outcome. outcome.lines.items ≡ told_lines name.now answer) }
    ensures sends { IfOk result (λ outcome. outcome.sends ≡ sends) }
    ensures memory { OnOk result (answer ≢ Err SequencerFault.NoMemory) }
{
    match answer {
        Ok(report) => {
            let lines = report_lines(alloc, name, &report)?;
            Ok(Outcome { lines, sends })
        }
        Err(fault) => {
            let outcome = refused(alloc, name, fault, sends)?;
            Ok(outcome)
        }
    }
}

/// The line of a refusal, beside what was sent.
pub fn refused(
    alloc: Global,
    name: &Name,
    fault: SequencerFault,
    sends: Outbox,
) -> Result<Outcome, NoMemory>
    ensures lines { IfOk result (λ outcome. outcome.lines.items ≡ fault_lines name.now fault) }
    ensures sends { IfOk result (λ outcome. outcome.sends ≡ sends) }
    ensures memory { OnOk result (fault ≢ SequencerFault.NoMemory) }
{
    let name = name.copy(alloc)?;
    let Some(line) = refusal(name, &fault) else {
        return Err(NoMemory);
    };
    let outcome = Outcome::sent(alloc, line, sends)?;
    Ok(outcome)
}

/// The line of a refusal that isn't when out of memory.
fn refusal(name: Name, fault: &SequencerFault) -> Option<Line>
    ensures some { IfSome result (λ line. (line ∷ [] ≡ fault_lines name fault.now) × (fault.now ≢ SequencerFault.NoMemory)) }
    ensures none { IfNone result (fault.now ≡ SequencerFault.NoMemory) }
{
    match fault {
        SequencerFault::PayloadTooLong(bytes) => Some(Line::RefusedLong {
            name,
            bytes: *bytes as u64,
        }),
        SequencerFault::Preempted(by) => Some(Line::RefusedPreempted { name, by: *by }),
        SequencerFault::EpochFull => Some(Line::RefusedEpochFull { name }),
        SequencerFault::WindowFull => Some(Line::RefusedWindowFull { name }),
        SequencerFault::PastReleased(released) => Some(Line::RefusedPast {
            name,
            released: *released,
        }),
        SequencerFault::Register(refusal) => Some(register_refusal(name, refusal)),
        SequencerFault::NoMemory => None,
    }
}

/// The line of the register's refusal: used-up epochs have one of their own.
fn register_refusal(name: Name, refusal: &RegisterFault) -> Line
    ensures { result ∷ [] ≡ fault_lines name (SequencerFault.Register refusal.now) }
{
    match refusal {
        RegisterFault::EpochLimit => Line::RefusedEpochLimit { name },
        _ => Line::RefusedRegister { name },
    }
}

/// The lines of a report: the preemption, the register's failure, what was acknowledged, the epoch's end that was closed, and
/// what is released.
fn report_lines(alloc: Global, name: &Name, report: &Report) -> Result<Vec<Line>, NoMemory>
    ensures { IfOk result (λ lines. lines.items ≡ report_lines name.now report.now) }
{
    let mut lines = Vec::new(alloc);
    add_refusals(alloc, name, report, &mut lines)?;
    add_numbers(alloc, name, report, &mut lines)?;
    Ok(lines)
}

/// Adds the lines of a preemption and of the register's failure.
fn add_refusals(
    alloc: Global,
    name: &Name,
    report: &Report,
    lines: &mut Vec<Line>,
) -> Result<(), NoMemory>
    ensures { OnOk result (lines.new.items ≡ lines.old.items
        ++ (numbered_lines (RefusedPreempted name.now) (listed report.now.preempted) ++ when (is_some report.now.register) (RefusedRegister name.now))) }
{
    if let Some(by) = report.preempted {
        let name = name.copy(alloc)?;
        lines.push(Line::RefusedPreempted { name, by })?;
    }
    if report.register.is_some() {
        let name = name.copy(alloc)?;
        lines.push(Line::RefusedRegister { name })?;
    }
    Ok(())
}

/// Adds the lines of the numbers that were acknowledged, closed and released.
fn add_numbers(
    alloc: Global,
    name: &Name,
    report: &Report,
    lines: &mut Vec<Line>,
) -> Result<(), NoMemory>
    ensures { OnOk result (lines.new.items ≡ lines.old.items
        ++ (numbered_lines (Acked name.now) (listed report.now.acked)
        ++ (numbered_lines (Clean name.now) (listed report.now.closed) ++ numbered_lines (Released name.now) (listed report.now.released)))) }
{
    if let Some(number) = report.acked {
        let name = name.copy(alloc)?;
        lines.push(Line::Acked { name, number })?;
    }
    if let Some(end) = report.closed {
        let name = name.copy(alloc)?;
        lines.push(Line::Clean { name, end })?;
    }
    if let Some(number) = report.released {
        let name = name.copy(alloc)?;
        lines.push(Line::Released { name, number })?;
    }
    Ok(())
}
