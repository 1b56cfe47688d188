// A log is appended to or read, over its nodes.
ghost use Rattle.std.specs.Prelude.{◌≡◌, ◌⊎◌, [], ◌∷◌, nat_lt, true, codes, Some, IfOk};
ghost use Rattle.ld_config.specs.Bounds.{IsInBounds};
ghost use Rattle.ld_io.specs.Input.{left_of};
ghost use Rattle.ld_register.specs.Bounds.{IsSpec};
ghost use Rattle.ld_machine.specs.Config.{first_spec};
ghost use Rattle.ld_machine.specs.State.{State};
ghost use Rattle.ld_machine.specs.Step.{spec_set};
ghost use Rattle.ld_dial.specs.Far.{Far};
ghost use Rattle.ld_words.specs.Bounds.{IsTailInBounds, IsAppendInBounds};
ghost use Rattle.ld_rounds.specs.Drives.{counted};
ghost use Rattle.ld_rounds.specs.Endings.{IsOffAs, IsEndedOff};
ghost use Rattle.ld_append.specs.Acting.{HoldsSome, LacksRoom, IsSpecOf, IsUnset, MayCrowd};
ghost use Rattle.std.specs.Io.KnownBytes.{prepend_known};
ghost use Rattle.ld_rounds.specs.Reaching.{Begins};
ghost use Rattle.ld_append.specs.Appends.{HasNone as HasNoSequencers, IsAppended, IsEndOfAppend, IsRefused};
ghost use Rattle.ld_tail.specs.Tails.{HasNone as HasNoReaders, IsTailed, IsTailEnd};
ghost use Rattle.ld_cli.specs.Payloads.{input_after, payloads_in};
ghost use Rattle.ld_cli.specs.Clients.{status_of as told, EndsDrive, OnlyLooks};

use crate::payloads::{Held, PayloadLines};
use crate::status::Status;
use ld_append::append;
use ld_clients::find_spec;
use ld_dial::Nodes;
use ld_ids::{Name, NoMemory, Spec};
use ld_io::Sink;
use ld_ready::Ready;
use ld_register::Register;
use ld_rounds::{Ended, Refusal};
use ld_serve::Which;
use ld_tail::tail;
use ld_words::{AppendWords, LogWords, TailWords};
use std::alloc::Global;

/// The name of this one byte.
pub(crate) fn name_of(alloc: Global, byte: u8) -> Result<Name, NoMemory>
    ensures { IfOk result (λ name. name ≡ byte ∷ []) }
{
    let mut bytes = Vec::new(alloc);
    bytes.push(byte)?;
    Ok(Name::new(bytes))
}

/// The status of an end, by the nodes' count of failures before and now.
pub(crate) fn status_of(ended: Ended, before: u64, now: u64) -> Status
    ensures { result ≡ told ended (nat_lt before now) }
{
    match ended {
        Ended::Done => Status::Ok,
        Ended::Rounds => {
            if before < now {
                Status::Link
            } else {
                Status::NotDone
            }
        }
        Ended::Preempted(by) => Status::Preempted(by),
        Ended::LogLimit => Status::LogLimit,
        Ended::EpochLimit => Status::EpochLimit,
        Ended::EpochFull => Status::EpochFull,
        Ended::Register(refusal) => match refusal {
            Refusal::Failed => Status::Register,
            Refusal::Full => Status::JournalFull(Which::Register),
            Refusal::Damaged(place) => Status::Damaged {
                which: Which::Register,
                place,
            },
        },
        Ended::BadFrame(fault) => Status::BadFrame(fault),
        Ended::BadLine { line, place } => Status::BadSchedule { line, place },
        Ended::Read => Status::Read,
        Ended::Write => Status::Write,
        Ended::NoMemory => Status::NoMemory,
    }
}

/// Appends the payloads of the lines to the log of this spec, trims it as the lines say, and says how that ended.
fn append_lines<I: Ready, O: Sink, G: Register, N: Nodes>(
    alloc: Global,
    words: &LogWords,
    in_flight: u32,
    spec: &Spec,
    name: Name,
    lines: &mut PayloadLines<I>,
    out: &mut O,
    reg: &mut G,
    nodes: &mut N,
) -> Status
    requires { IsSpec spec.now }
    ensures appended { (s : State) (far : Far) → IsInBounds words.now.config → IsSpecOf words.now.config spec.now → IsUnset words.now.config s spec.now → N.tells nodes.old words.now.config far → Begins (HasNoSequencers name (G.tells reg.old)) words.now.config s far
        → (N.silent nodes.new ≡ true) ⊎ EndsDrive (N.faults nodes.old) (N.faults nodes.new)
        (IsAppended name spec.now.log (counted (N.faults nodes.old) (N.faults nodes.new) (N.endings nodes.old) (N.endings nodes.new)) (input_after lines.old.held.now.batches lines.old.held.now.number (prepend_known lines.old.held.now.buffer (left_of (I.known lines.old.input.now) (I.gave lines.old.input.now)))) words.now.rounds (N.tells nodes.new) (G.tells reg.new) words.now.config s (Some (O.written out.old)) (Some (O.written out.new))) result }
    ensures itself { lines.new.input.ghost_name ≡ lines.old.input.ghost_name }
    ensures ends { EndsDrive (N.faults nodes.old) (N.faults nodes.new)
        (IsEndOfAppend (G.told reg.old → MayCrowd (G.may_hold reg.old) spec.now.log) (λ place. G.told reg.old → G.damaged reg.old place) (input_after lines.old.held.now.batches lines.old.held.now.number (prepend_known lines.old.held.now.buffer (left_of (I.known lines.old.input.now) (I.gave lines.old.input.now)))) (I.faults lines.old.input.now) (I.faults lines.new.input.now) (O.faults out.old) (O.faults out.new) (Some (O.written out.old)) (Some (O.written out.new))) result }
    ensures refused { EndsDrive (N.faults nodes.old) (N.faults nodes.new)
        (IsRefused (λ place. G.told reg.old → G.damaged reg.old place) (G.told reg.old → HoldsSome (G.holds reg.old) × LacksRoom (G.holds reg.new)) (G.faults reg.old) (G.faults reg.new)) result }
    ensures off { EndsDrive (N.faults nodes.old) (N.faults nodes.new) (IsOffAs (N.off nodes.new)) result }
    ensures ended { EndsDrive (N.faults nodes.old) (N.faults nodes.new) (IsEndedOff (N.off nodes.old) (N.off nodes.new)) result }
{
    let before = nodes.failures();
    let (ended, _) = append(
        alloc,
        &words.config,
        spec,
        name,
        words.rounds,
        in_flight,
        &mut *reg,
        nodes,
        lines,
        out,
    );
    let now = nodes.failures();
    status_of(ended, before, now)
}

/// Appends the payloads of the input, or the batches of its messages, to the log that the arguments name, and trims it as the
/// input says.
pub(crate) fn appended<I: Ready, O: Sink, G: Register, N: Nodes>(
    alloc: Global,
    words: &AppendWords,
    input: &mut I,
    out: &mut O,
    reg: &mut G,
    nodes: &mut N,
) -> Status
    requires bounds { IsAppendInBounds words.now }
    ensures appended { (s : State) (far : Far) → N.tells nodes.old words.now.of.config far → Begins (HasNoSequencers (codes "s") (G.tells reg.old)) words.now.of.config s far → spec_set words.now.of.config s words.now.of.log ≡ first_spec words.now.of.config words.now.of.log
        → (N.silent nodes.new ≡ true) ⊎ EndsDrive (N.faults nodes.old) (N.faults nodes.new)
        (IsAppended (codes "s") words.now.of.log (counted (N.faults nodes.old) (N.faults nodes.new) (N.endings nodes.old) (N.endings nodes.new)) (payloads_in words.now.batches (left_of (I.known input.old) (I.gave input.old))) words.now.of.rounds (N.tells nodes.new) (G.tells reg.new) words.now.of.config s (Some (O.written out.old)) (Some (O.written out.new))) result }
    ensures ends { EndsDrive (N.faults nodes.old) (N.faults nodes.new)
        (IsEndOfAppend (G.told reg.old → MayCrowd (G.may_hold reg.old) words.now.of.log) (λ place. G.told reg.old → G.damaged reg.old place) (payloads_in words.now.batches (left_of (I.known input.old) (I.gave input.old))) (I.faults input.old) (I.faults input.new) (O.faults out.old) (O.faults out.new) (Some (O.written out.old)) (Some (O.written out.new))) result }
    ensures refused { EndsDrive (N.faults nodes.old) (N.faults nodes.new)
        (IsRefused (λ place. G.told reg.old → G.damaged reg.old place) (G.told reg.old → HoldsSome (G.holds reg.old) × LacksRoom (G.holds reg.new)) (G.faults reg.old) (G.faults reg.new)) result }
    ensures off { EndsDrive (N.faults nodes.old) (N.faults nodes.new) (IsOffAs (N.off nodes.new)) result }
    ensures ended { EndsDrive (N.faults nodes.old) (N.faults nodes.new) (IsEndedOff (N.off nodes.old) (N.off nodes.new)) result }
{
    let Ok(name) = name_of(alloc, b's') else {
        return Status::NoMemory;
    };
    let Some(spec) = find_spec(&words.of.config, words.of.log) else {
        unreachable!();
    };
    let Ok(mut held) = Held::new(alloc, words.batches) else {
        return Status::NoMemory;
    };
    let mut lines = PayloadLines {
        held: &mut held,
        input,
    };
    append_lines(
        alloc,
        &words.of,
        words.in_flight,
        &spec,
        name,
        &mut lines,
        out,
        reg,
        nodes,
    )
}

/// Reads the log that the arguments name.
pub(crate) fn tailed<O: Sink, G: Register, N: Nodes>(
    alloc: Global,
    words: &TailWords,
    out: &mut O,
    reg: &mut G,
    nodes: &mut N,
) -> Status
    requires bounds { IsTailInBounds words.now }
    ensures tailed { (s : State) (far : Far) → N.tells nodes.old words.now.of.config far → Begins (HasNoReaders (G.tells reg.old)) words.now.of.config s far
        → (N.silent nodes.new ≡ true) ⊎ EndsDrive (N.faults nodes.old) (N.faults nodes.new)
        (IsTailed (record { name = codes "r"; log = words.now.of.log; from = words.now.from; until = words.now.until; style = words.now.style }) (counted (N.faults nodes.old) (N.faults nodes.new) (N.endings nodes.old) (N.endings nodes.new)) words.now.of.rounds (N.tells nodes.new) (G.tells reg.new) words.now.of.config s (Some (O.written out.old)) (Some (O.written out.new))) result }
    ensures ends { EndsDrive (N.faults nodes.old) (N.faults nodes.new)
        (IsTailEnd (λ place. G.told reg.old → G.damaged reg.old place) (G.faults reg.old) (G.faults reg.new) (O.faults out.old) (O.faults out.new)) result }
    ensures only_looks { OnlyLooks (G.told reg.old) (G.told reg.new) (G.may_hold reg.old) (G.may_hold reg.new) }
    ensures off { EndsDrive (N.faults nodes.old) (N.faults nodes.new) (IsOffAs (N.off nodes.new)) result }
    ensures ended { EndsDrive (N.faults nodes.old) (N.faults nodes.new) (IsEndedOff (N.off nodes.old) (N.off nodes.new)) result }
{
    let Ok(name) = name_of(alloc, b'r') else {
        return Status::NoMemory;
    };
    let before = nodes.failures();
    let (ended, _) = tail(
        alloc,
        &words.of.config,
        name,
        words.of.log,
        words.from,
        words.until,
        words.style,
        words.of.rounds,
        words.pause,
        &mut *reg,
        nodes,
        out,
    );
    let now = nodes.failures();
    status_of(ended, before, now)
}
