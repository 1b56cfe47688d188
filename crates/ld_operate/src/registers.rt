// What a register says of a log, epoch by epoch.
ghost use Rattle.std.specs.Prelude.{◌≡◌, ◌≤◌, ◌+◌, ◌-◌, ◌^◌, ◌++◌, ◌⊎◌, ℕ, IfOk, IfErr, IsErrOf, OnOk, OnErr};
ghost use Rattle.ld_msg.specs.Register.{Register as Contents, epochs_of};
ghost use Rattle.ld_register.specs.Calls.{looked};
ghost use Rattle.ld_operate.specs.Looking.{OnlyLooks, IsStop};
ghost use Rattle.ld_operate.specs.Output.{WritesPart};
ghost use Rattle.ld_operate.specs.Shown.{log_line, epoch_line, epoch_lines, register_text};
ghost use Rattle.ld_operate.specs.Views.{ShowsLog, ShowsEpoch, ShowsEpochs, ShowsRegister};

use crate::lines::{epoch_line, log_line};
use crate::looking::look;
use crate::output::write_all;
use crate::stop::LookStop;
use ld_ids::LogId;
use ld_io::Sink;
use ld_register::Register;
use std::alloc::Global;

/// Looks at a log and writes its line. Says the log's epoch.
pub(crate) fn show_log<G: Register, O: Sink>(
    alloc: Global,
    json: bool,
    log: LogId,
    reg: &mut G,
    out: &mut O,
) -> Result<u32, LookStop>
    ensures view { IfOk result (ShowsLog json log (O.written out.old) (O.written out.new)) }
    ensures last { (c : Contents) → G.holds reg.old c → IfOk result (λ last. last ≡ (epochs_of c log).epoch) }
    ensures text { (c : Contents) → G.holds reg.old c → OnOk result (O.written out.new ≡ O.written out.old ++ log_line json log (looked c log 0)) }
    ensures part { (c : Contents) → G.holds reg.old c → OnErr result (WritesPart (O.written out.old) (O.written out.new) (log_line json log (looked c log 0))) }
    ensures kept { (c : Contents) → G.holds reg.old c → IsErrOf result LookStop.Register ⊎ G.holds reg.new c }
    ensures whole { G.told reg.old → OnOk result ((c : Contents) × G.holds reg.old c) }
    ensures bounds { IfOk result (λ last. last ≤ 2 ^ 32 - 2) }
    ensures cause { IfErr result (IsStop (λ place. G.told reg.old → G.damaged reg.old place) (G.faults reg.old) (G.faults reg.new) (O.faults out.old) (O.faults out.new)) }
    ensures looks { OnlyLooks (G.told reg.old) (G.told reg.new) (G.may_hold reg.old) (G.may_hold reg.new) (G.tells reg.old) (G.tells reg.new) (G.faults reg.old) (G.faults reg.new) (G.identity reg.old) (G.identity reg.new) }
    ensures later { O.faults out.old ≤ O.faults out.new }
{
    let view = look(alloc, log, 0, reg)?;
    let mut line = Vec::new(alloc);
    log_line(&mut line, json, log, &view)?;
    match write_all(out, &line) {
        Ok(()) => Ok(view.epoch),
        Err(_) => Err(LookStop::Write),
    }
}

/// Looks at an epoch of a log and writes its line.
fn show_epoch<G: Register, O: Sink>(
    alloc: Global,
    json: bool,
    log: LogId,
    epoch: u32,
    reg: &mut G,
    out: &mut O,
) -> Result<(), LookStop>
    ensures view { OnOk result (ShowsEpoch json log epoch (O.written out.old) (O.written out.new)) }
    ensures text { (c : Contents) → G.holds reg.old c → OnOk result (O.written out.new ≡ O.written out.old ++ epoch_line json epoch (looked c log epoch)) }
    ensures part { (c : Contents) → G.holds reg.old c → OnErr result (WritesPart (O.written out.old) (O.written out.new) (epoch_line json epoch (looked c log epoch))) }
    ensures kept { (c : Contents) → G.holds reg.old c → IsErrOf result LookStop.Register ⊎ G.holds reg.new c }
    ensures cause { IfErr result (IsStop (λ place. G.told reg.old → G.damaged reg.old place) (G.faults reg.old) (G.faults reg.new) (O.faults out.old) (O.faults out.new)) }
    ensures looks { OnlyLooks (G.told reg.old) (G.told reg.new) (G.may_hold reg.old) (G.may_hold reg.new) (G.tells reg.old) (G.tells reg.new) (G.faults reg.old) (G.faults reg.new) (G.identity reg.old) (G.identity reg.new) }
    ensures later { O.faults out.old ≤ O.faults out.new }
{
    let view = look(alloc, log, epoch, reg)?;
    let mut line = Vec::new(alloc);
    epoch_line(&mut line, json, epoch, &view)?;
    match write_all(out, &line) {
        Ok(()) => Ok(()),
        Err(_) => Err(LookStop::Write),
    }
}

/// Looks at each epoch of a log from one to another, both included, and writes its line. None where the first one is above
/// the last. It never ends with `Damaged` where the register holds something.
pub(crate) fn show_epochs<G: Register, O: Sink>(
    alloc: Global,
    json: bool,
    log: LogId,
    from: u32,
    last: u32,
    reg: &mut G,
    out: &mut O,
) -> Result<(), LookStop>
    requires { last ≤ 2 ^ 32 - 2 }
    ensures views { OnOk result (ShowsEpochs json log from (last + 1 - from) (O.written out.old) (O.written out.new)) }
    ensures text { (c : Contents) → G.holds reg.old c → OnOk result (O.written out.new ≡ O.written out.old ++ epoch_lines json c log from (last + 1 - from)) }
    ensures part { (c : Contents) → G.holds reg.old c → OnErr result (WritesPart (O.written out.old) (O.written out.new) (epoch_lines json c log from (last + 1 - from))) }
    ensures kept { (c : Contents) → G.holds reg.old c → IsErrOf result LookStop.Register ⊎ G.holds reg.new c }
    ensures cause { IfErr result (IsStop (λ _. (c : Contents) → G.holds reg.old c → ⊥) (G.faults reg.old) (G.faults reg.new) (O.faults out.old) (O.faults out.new)) }
    ensures looks { OnlyLooks (G.told reg.old) (G.told reg.new) (G.may_hold reg.old) (G.may_hold reg.new) (G.tells reg.old) (G.tells reg.new) (G.faults reg.old) (G.faults reg.new) (G.identity reg.old) (G.identity reg.new) }
    ensures later { O.faults out.old ≤ O.faults out.new }
{
    for epoch in from..last + 1 {
        show_epoch(alloc, json, log, epoch, reg, out)?;
    }
    Ok(())
}

/// Writes what a register says of a log: a line for the log, then one for each of its epochs from `from`, 1 to 2^32-1, to the
/// greatest one. The register is looked at once for each line; each is written as soon as it was looked at. With `json` each line
/// is an object, which tells the same.
///
/// It ends with `Register` where a look failed, only where the register's count of faults rose; with `Damaged` and a place
/// where its bytes are no journal from there on; with `Write` where the output failed; and when out of memory. What was written
/// then are the first bytes of those lines.
pub fn register_lines<G: Register, O: Sink>(
    alloc: Global,
    log: LogId,
    from: u32,
    json: bool,
    reg: &mut G,
    out: &mut O,
) -> Result<(), LookStop>
    requires { 1 ≤ from }
    // What is written is the text of what the register holds, or, at an error, a part of it from the front.
    ensures text { (c : Contents) → G.holds reg.old c → OnOk result (O.written out.new ≡ O.written out.old ++ register_text json c log from) }
    ensures part { (c : Contents) → G.holds reg.old c → OnErr result (WritesPart (O.written out.old) (O.written out.new) (register_text json c log from)) }
    // Whatever register it is, that is the text of a view of the log and of one of each of its epochs.
    ensures views { OnOk result ((last : ℕ) × ShowsRegister json log from last (O.written out.old) (O.written out.new)) }
    // Where the register tells what it holds, it held something.
    ensures whole { G.told reg.old → OnOk result ((c : Contents) × G.holds reg.old c) }
    // Why it ends with an error.
    ensures cause { IfErr result (IsStop (λ place. G.told reg.old → G.damaged reg.old place) (G.faults reg.old) (G.faults reg.new) (O.faults out.old) (O.faults out.new)) }
    // Looks change nothing of the register.
    ensures kept { (c : Contents) → G.holds reg.old c → IsErrOf result LookStop.Register ⊎ G.holds reg.new c }
    ensures told { G.told reg.old → G.told reg.new }
    ensures same { (c : Contents) → G.may_hold reg.new c → G.may_hold reg.old c }
    ensures exact { (c : Contents) → G.tells reg.old c → G.tells reg.new c }
    ensures itself { G.identity reg.new ≡ G.identity reg.old }
    ensures counts { G.faults reg.old ≤ G.faults reg.new }
    ensures later { O.faults out.old ≤ O.faults out.new }
{
    let last = show_log(alloc, json, log, reg, out)?;
    show_epochs(alloc, json, log, from, last, reg, out)
}
