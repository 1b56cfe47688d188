// A log is trimmed, over its nodes.
ghost use Rattle.std.specs.Prelude.{◌≡◌, ◌≤◌, ◌⊎◌, ℕ, nat_lt, true, Some};
ghost use Rattle.ld_io.specs.Causes.{Rose};
ghost use Rattle.ld_config.specs.Bounds.{IsInBounds};
ghost use Rattle.ld_register.specs.Bounds.{IsSpec};
ghost use Rattle.ld_machine.specs.State.{State};
ghost use Rattle.ld_dial.specs.Far.{Far};
ghost use Rattle.ld_words.specs.Bounds.{IsTrimInBounds};
ghost use Rattle.ld_rounds.specs.Drives.{counted};
ghost use Rattle.ld_rounds.specs.Endings.{IsOffAs, IsEndedOff};
ghost use Rattle.ld_rounds.specs.Reaching.{Begins};
ghost use Rattle.ld_append.specs.Acting.{HoldsSome, LacksRoom, IsSpecOf, IsUnset, MayCrowd};
ghost use Rattle.ld_append.specs.Appends.{HasNone as HasNoSequencers, IsAppended, IsEndOfAppend, IsRefused};
ghost use Rattle.ld_cli.specs.Serving.{DiskFaults};
ghost use Rattle.ld_cli.specs.Trims.{trim_coming, status_told, IsOffTrim, HasDriven, IsTrimmed};

use crate::clients::{name_of, status_of};
use crate::looks::status_of_nodes;
use crate::one_trim::OneTrim;
use crate::status::Status;
use ld_append::append;
use ld_clients::find_spec;
use ld_dial::Nodes;
use ld_ids::{Name, Spec};
use ld_io::Sink;
use ld_operate::{StatusStop, tell_trims};
use ld_register::Register;
use ld_rounds::Ended;
use ld_words::{LogWords, TrimWords};
use std::alloc::Global;

/// Trims the log of this spec as it is asked for, and says how that ended. A trim is one message to each node, so none waits
/// behind another one.
fn trim_log<O: Sink, G: Register, N: Nodes>(
    alloc: Global,
    words: &LogWords,
    spec: &Spec,
    name: Name,
    asked: &mut OneTrim,
    out: &mut O,
    reg: &mut G,
    nodes: &mut N,
) -> Ended
    requires { IsSpec spec.now }
    ensures appended { (s : State) (far : Far) → IsInBounds words.now.config → IsSpecOf words.now.config spec.now → IsUnset words.now.config s spec.now → N.tells nodes.old words.now.config far → Begins (HasNoSequencers name (G.tells reg.old)) words.now.config s far
        → (N.silent nodes.new ≡ true) ⊎ IsAppended name spec.now.log (counted (N.faults nodes.old) (N.faults nodes.new) (N.endings nodes.old) (N.endings nodes.new)) (Some (trim_coming asked.old.upto)) words.now.rounds (N.tells nodes.new) (G.tells reg.new) words.now.config s (Some (O.written out.old)) (Some (O.written out.new)) result }
    ensures ends { IsEndOfAppend (G.told reg.old → MayCrowd (G.may_hold reg.old) spec.now.log) (λ place. G.told reg.old → G.damaged reg.old place) (Some (trim_coming asked.old.upto)) 0 0 (O.faults out.old) (O.faults out.new) (Some (O.written out.old)) (Some (O.written out.new)) result }
    ensures refused { IsRefused (λ place. G.told reg.old → G.damaged reg.old place) (G.told reg.old → HoldsSome (G.holds reg.old) × LacksRoom (G.holds reg.new)) (G.faults reg.old) (G.faults reg.new) result }
    ensures off { IsOffAs (N.off nodes.new) result }
    ensures ended { IsEndedOff (N.off nodes.old) (N.off nodes.new) result }
    ensures later { O.faults out.old ≤ O.faults out.new }
{
    let (ended, _) = append(
        alloc,
        &words.config,
        spec,
        name,
        words.rounds,
        1,
        &mut *reg,
        nodes,
        asked,
        out,
    );
    ended
}

/// The status of what was told of the nodes, by their count of failures before and now.
fn status_of_told(told: Result<bool, StatusStop>, before: u64, now: u64) -> Status
    ensures { result ≡ status_told told (nat_lt before now) }
{
    match told {
        Ok(true) => Status::Ok,
        Ok(false) => {
            if before < now {
                Status::Link
            } else {
                Status::NotDone
            }
        }
        Err(stop) => status_of_nodes(stop),
    }
}

/// Drives a sequencer of the log that the arguments name by the one trim, and says how that ended.
fn drive<O: Sink, G: Register, N: Nodes>(
    alloc: Global,
    words: &TrimWords,
    out: &mut O,
    reg: &mut G,
    nodes: &mut N,
) -> Ended
    requires bounds { IsTrimInBounds words.now }
    ensures { HasDriven N.faults N.endings N.tells N.silent N.off G.faults G.told G.damaged G.holds G.may_hold G.tells O.faults O.written nodes.old nodes.new reg.old reg.new out.old out.new words.now result }
{
    let Ok(name) = name_of(alloc, b's') else {
        return Ended::NoMemory;
    };
    let Some(spec) = find_spec(&words.of.config, words.of.log) else {
        unreachable!();
    };
    let mut asked = OneTrim::new(words.upto);
    trim_log(alloc, &words.of, &spec, name, &mut asked, out, reg, nodes)
}

/// Trims the log that the arguments name, and writes how far each node has trimmed it then.
pub(crate) fn trimmed<O: Sink, G: Register, N: Nodes>(
    alloc: Global,
    words: &TrimWords,
    out: &mut O,
    reg: &mut G,
    nodes: &mut N,
) -> Status
    requires bounds { IsTrimInBounds words.now }
    ensures trimmed { IsTrimmed N.faults N.endings N.tells N.silent N.off G.faults G.told G.damaged G.holds G.may_hold G.tells O.faults O.written nodes.old nodes.new reg.old reg.new out.old out.new words.now result }
    ensures usage { result ≡ Status.Usage → ⊥ }
    ensures read { result ≡ Status.Read → ⊥ }
    ensures write { result ≡ Status.Write → Rose (O.faults out.old) (O.faults out.new) }
    ensures off { IsOffTrim (N.off nodes.new) result }
    ensures disk { (n : ℕ) → DiskFaults n n result }
{
    let before = nodes.failures();
    match drive(alloc, words, out, reg, nodes) {
        Ended::Done => {
            let told = tell_trims(
                alloc,
                &words.of.config,
                words.of.log,
                words.upto,
                nodes,
                out,
            );
            let now = nodes.failures();
            status_of_told(told, before, now)
        }
        ended => {
            let now = nodes.failures();
            status_of(ended, before, now)
        }
    }
}
