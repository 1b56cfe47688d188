// What a register and its nodes say of a log.
ghost use Rattle.std.specs.Prelude.{◌≡◌, ◌≤◌, ◌-◌, ◌^◌, ◌⊎◌, true, false, IfOk, IfErr, IsErrOf};
ghost use Rattle.ld_msg.specs.Register.{Register as Contents};
ghost use Rattle.ld_operate.specs.Asked.{first_of_last};
ghost use Rattle.ld_operate.specs.Heard.{IsBroken, AreLater, IsStatusStop};
ghost use Rattle.ld_operate.specs.Status.{HasStatus};

use crate::nodes::show_nodes;
use crate::registers::{show_epochs, show_log};
use crate::stop::{LookStop, StatusStop};
use ld_config::Config;
use ld_dial::Nodes;
use ld_ids::LogId;
use ld_io::Sink;
use ld_register::Register;
use std::alloc::Global;

/// The first one of the last epochs, so many of them.
fn first_of_last(count: u32, last: u32) -> u32
    requires { last ≤ 2 ^ 32 - 2 }
    ensures { result ≡ first_of_last count last }
{
    (last + 1).saturating_sub(count).max(1)
}

/// Writes what a register and its nodes say of a log: the lines of the register for the last epochs, so many of them, 1 to
/// 1,000,000; then for each node of the configuration, rising, a line of its trim point and its released number, and one for each
/// of those epochs that it hasn't trimmed whole. Each node is dialed once, and a line is written as soon as it was answered. Where a
/// call of a node fails, or it has ended, its last line says that it is silent, and the next node is asked. With `json` each line
/// is an object, which tells the same. True where none was silent.
///
/// It ends with `BadFrame` where what a node sent begins no frame, and else as `register_lines` does.
pub fn status_lines<G: Register, N: Nodes, O: Sink>(
    alloc: Global,
    config: &Config,
    log: LogId,
    epochs: u32,
    json: bool,
    reg: &mut G,
    nodes: &mut N,
    out: &mut O,
) -> Result<bool, StatusStop>
    requires { 1 ≤ epochs }
    // What is written is the text of what the register holds, and of what each node answered. Where the nodes tell what stands
    // there, and of a log of the configuration, those are the answers of the written machine's nodes, and they stand as before.
    ensures status { IfOk result (HasStatus json (G.holds reg.old) (N.tells nodes.old) (N.tells nodes.new) (N.silent nodes.new) config.now log epochs (O.written out.old) (O.written out.new)) }
    // A node is silent only where a call of it failed, or it had ended.
    ensures broken { IfOk result (λ whole. whole ≡ false → IsBroken (N.faults nodes.old) (N.faults nodes.new) (N.endings nodes.old) (N.endings nodes.new)) }
    // Why it ends with an error.
    ensures cause { IfErr result (IsStatusStop (λ place. G.told reg.old → G.damaged reg.old place) (G.faults reg.old) (G.faults reg.new) (O.faults out.old) (O.faults out.new) (N.off nodes.new)) }
    // Looks change nothing of the register.
    ensures kept { (c : Contents) → G.holds reg.old c → IsErrOf result (StatusStop.Look LookStop.Register) ⊎ G.holds reg.new c }
    ensures told { G.told reg.old → G.told reg.new }
    ensures same { (c : Contents) → G.may_hold reg.new c → G.may_hold reg.old c }
    ensures exact { (c : Contents) → G.tells reg.old c → G.tells reg.new c }
    ensures itself { G.identity reg.new ≡ G.identity reg.old }
    ensures counts { G.faults reg.old ≤ G.faults reg.new }
    ensures quiet { N.silent nodes.old ≡ true → N.silent nodes.new ≡ true }
    ensures later { AreLater (N.faults nodes.old) (N.faults nodes.new) (N.endings nodes.old) (N.endings nodes.new) }
    ensures output { O.faults out.old ≤ O.faults out.new }
{
    let last = show_log(alloc, json, log, reg, out)?;
    let first = first_of_last(epochs, last);
    show_epochs(alloc, json, log, first, last, reg, out)?;
    show_nodes(alloc, json, &config.nodes, log, first, last, nodes, out)
}
