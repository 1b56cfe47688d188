// What the register says of a log is written, and what its nodes say.
ghost use Rattle.std.specs.Prelude.{◌≡◌, ℕ};
ghost use Rattle.ld_io.specs.Causes.{Rose};
ghost use Rattle.ld_words.specs.Bounds.{IsRegisterInBounds, IsStatusInBounds};
ghost use Rattle.ld_cli.specs.Clients.{OnlyLooks};
ghost use Rattle.ld_operate.specs.Heard.{IsBroken, IsStatusStop};
ghost use Rattle.ld_operate.specs.Status.{HasStatus};
ghost use Rattle.ld_cli.specs.Looks.{status_of as told, status_of_nodes as told_of_nodes, EndsRegister, EndsStatus};
ghost use Rattle.ld_cli.specs.Serving.{DiskFaults};

use crate::status::Status;
use ld_dial::Nodes;
use ld_io::Sink;
use ld_operate::{LookStop, StatusStop, register_lines, status_lines};
use ld_register::Register;
use ld_serve::Which;
use ld_words::{RegisterWords, StatusWords};
use std::alloc::Global;

/// The status of a stop.
fn status_of(stop: LookStop) -> Status
    ensures { result ≡ told stop }
{
    match stop {
        LookStop::NoMemory => Status::NoMemory,
        LookStop::Register => Status::Register,
        LookStop::Write => Status::Write,
        LookStop::Damaged(place) => Status::Damaged {
            which: Which::Register,
            place,
        },
    }
}

/// The status of a stop, where nodes are asked.
pub(crate) fn status_of_nodes(stop: StatusStop) -> Status
    ensures { result ≡ told_of_nodes stop }
{
    match stop {
        StatusStop::Look(stop) => status_of(stop),
        StatusStop::BadFrame(fault) => Status::BadFrame(fault),
    }
}

/// Writes what the register says of the log that the arguments name.
pub(crate) fn registered<O: Sink, G: Register>(
    alloc: Global,
    words: &RegisterWords,
    out: &mut O,
    reg: &mut G,
) -> Status
    requires bounds { IsRegisterInBounds words.now }
    ensures shown { EndsRegister (G.told reg.old) (G.damaged reg.old) (G.faults reg.old) (G.faults reg.new) (O.faults out.old) (O.faults out.new) (G.holds reg.old) (O.written out.old) (O.written out.new) words.now result }
    ensures only_looks { OnlyLooks (G.told reg.old) (G.told reg.new) (G.may_hold reg.old) (G.may_hold reg.new) }
    ensures usage { result ≡ Status.Usage → ⊥ }
    ensures read { result ≡ Status.Read → ⊥ }
    ensures write { result ≡ Status.Write → Rose (O.faults out.old) (O.faults out.new) }
    ensures disk { (n : ℕ) → DiskFaults n n result }
{
    match register_lines(alloc, words.log, words.from, words.json, reg, out) {
        Ok(()) => Status::Ok,
        Err(stop) => status_of(stop),
    }
}

/// Writes what the register and the nodes say of the log that the arguments name.
pub(crate) fn asked<O: Sink, G: Register, N: Nodes>(
    alloc: Global,
    words: &StatusWords,
    out: &mut O,
    reg: &mut G,
    nodes: &mut N,
) -> Status
    requires bounds { IsStatusInBounds words.now }
    ensures shown { EndsStatus (HasStatus words.now.json (G.holds reg.old) (N.tells nodes.old) (N.tells nodes.new) (N.silent nodes.new) words.now.config words.now.log words.now.epochs (O.written out.old) (O.written out.new))
        (IsBroken (N.faults nodes.old) (N.faults nodes.new) (N.endings nodes.old) (N.endings nodes.new))
        (IsStatusStop (λ place. G.told reg.old → G.damaged reg.old place) (G.faults reg.old) (G.faults reg.new) (O.faults out.old) (O.faults out.new) (N.off nodes.new)) result }
    ensures only_looks { OnlyLooks (G.told reg.old) (G.told reg.new) (G.may_hold reg.old) (G.may_hold reg.new) }
    ensures usage { result ≡ Status.Usage → ⊥ }
    ensures read { result ≡ Status.Read → ⊥ }
    ensures write { result ≡ Status.Write → Rose (O.faults out.old) (O.faults out.new) }
    ensures disk { (n : ℕ) → DiskFaults n n result }
{
    match status_lines(
        alloc,
        &words.config,
        words.log,
        words.epochs,
        words.json,
        reg,
        nodes,
        out,
    ) {
        Ok(true) => Status::Ok,
        Ok(false) => Status::Link,
        Err(stop) => status_of_nodes(stop),
    }
}
