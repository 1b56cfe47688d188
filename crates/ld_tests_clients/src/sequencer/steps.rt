// What happens to sequencers in tests, of a log that stores on two of three nodes, over a register on a disk in memory.
ghost use Rattle.std.specs.Prelude.{IfOk};
ghost use Rattle.ld_msg.specs.Bounds.{IsMessage, IsSummary};
ghost use Rattle.ld_recovery.specs.Recovering.{IsReplyTo};
ghost use Rattle.ld_register.specs.Bounds.{IsSpec};

use crate::sequencer::samples::{one_byte, set_of};
use ld_disk::{Fault, MemDisk};
use ld_ids::{LogId, NoMemory, NodeId, NodeSet, Spec};
use ld_lsn::Lsn;
use ld_msg::{Body, Entries, Msg, Outbox, Summary, Who};
use ld_register::{DiskRegister, Register};
use ld_sequencer::{Report, Sequencer, SequencerFault};
use std::alloc::Global;

// The greatest offset of an epoch.
const LAST: u32 = 4_294_967_295;

// The log.
fn log() -> Result<LogId, NoMemory> {
    match LogId::new(1) {
        Some(log) => Ok(log),
        None => Err(NoMemory),
    }
}

// These three nodes, with each record on two of them.
fn on_nodes(numbers: [u8; 3]) -> Result<Spec, NoMemory>
    ensures { IfOk result IsSpec }
{
    let set = set_of(&numbers);
    let log = log()?;
    let _ = log.number();
    if set.len() < 2 {
        return Err(NoMemory);
    }
    Ok(Spec {
        log,
        set,
        r: 2,
        extras: 0,
    })
}

// All nodes: those from 1 to 6.
fn all_nodes() -> NodeSet {
    set_of(&[1, 2, 3, 4, 5, 6])
}

// A register on an empty disk.
fn new_register(alloc: Global) -> Result<DiskRegister<MemDisk>, NoMemory> {
    match MemDisk::new(alloc) {
        Ok(disk) => Ok(DiskRegister::new(alloc, disk)),
        Err(_) => Err(NoMemory),
    }
}

// The sequencer of the next epoch, with these nodes fixed for it.
fn next_on(
    alloc: Global,
    numbers: [u8; 3],
    reg: &mut DiskRegister<MemDisk>,
    out: &mut Outbox,
) -> Result<Sequencer, SequencerFault> {
    let spec = on_nodes(numbers)?;
    Sequencer::activate(alloc, &all_nodes(), &spec, &spec, reg, out)
}

// A sequencer with its register, and what was sent.
#[derive(Drop)]
pub(crate) struct Run {
    pub(crate) reg: DiskRegister<MemDisk>,
    pub(crate) out: Outbox,
    pub(crate) sequencer: Sequencer,
}

// The last one of these sequencers, each with its nodes.
fn last_of(alloc: Global, first: [u8; 3], others: &[[u8; 3]]) -> Result<Run, SequencerFault> {
    let mut reg = new_register(alloc)?;
    let mut out = Outbox::empty(alloc);
    let mut sequencer = next_on(alloc, first, &mut reg, &mut out)?;
    for numbers in others {
        sequencer = next_on(alloc, *numbers, &mut reg, &mut out)?;
    }
    Ok(Run {
        reg,
        out,
        sequencer,
    })
}

// The last one of these sequencers, each with its nodes.
pub(crate) fn run_on(alloc: Global, first: [u8; 3], others: &[[u8; 3]]) -> Result<Run, NoMemory> {
    match last_of(alloc, first, others) {
        Ok(run) => Ok(run),
        Err(_) => Err(NoMemory),
    }
}

// The register, loaded anew from its disk, whose first read fails.
pub(crate) fn unread(alloc: Global, run: Run) -> Run {
    let Run {
        reg,
        out,
        sequencer,
    } = run;
    let mut disk = reg.into_disk();
    disk.fail_read_at(1);
    Run {
        reg: DiskRegister::new(alloc, disk),
        out,
        sequencer,
    }
}

// How epoch 1 is closed.
fn summary() -> Summary
    ensures { IsSummary 1 result }
{
    Summary {
        ballot: 2,
        lng: 0,
        trim: Lsn::from_u64(0),
        end: 1,
        loss: false,
    }
}

// Epoch 1 is closed.
fn closed() -> Body
    ensures { IsReplyTo 2 result }
{
    Body::CleanHere {
        number: Lsn::new(1, 1),
        summary: summary(),
    }
}

// A node is lost for epoch 1.
fn lost() -> Body
    ensures { IsReplyTo 2 result }
{
    Body::LostHere {
        number: Lsn::new(1, 1),
        round: 0,
        generation: 1,
        end: Lsn::from_u64(0),
    }
}

// A node's reply.
fn reply(node: u8, body: Body) -> Result<Msg, NoMemory>
    requires { IsReplyTo 2 body }
    ensures { IfOk result IsMessage }
{
    if let (Some(log), Some(node)) = (LogId::new(1), NodeId::new(node)) {
        let _ = (log.number(), node.number());
        return Ok(Msg {
            from: Who::Node(node),
            to: Who::Sequencer(2),
            log,
            body,
        });
    }
    Err(NoMemory)
}

// A node's reply comes.
fn comes(alloc: Global, run: &mut Run, node: u8, body: Body) -> Result<Report, SequencerFault>
    requires { IsReplyTo 2 body }
{
    let msg = reply(node, body)?;
    run.sequencer
        .on_reply(alloc, &msg, &mut run.reg, &mut run.out)
}

// The node stored what has the first offset of epoch 1.
fn stores(alloc: Global, run: &mut Run, node: u8) -> Result<Report, SequencerFault> {
    let number = Lsn::new(1, 1);
    comes(alloc, run, node, Body::Stored { number })
}

// The node has nothing of epoch 1.
fn has_nothing(alloc: Global, run: &mut Run, node: u8) -> Result<Report, SequencerFault> {
    let body = Body::DigestPage {
        from: Lsn::new(1, 1),
        upto: Lsn::new(1, LAST),
        trim: Lsn::from_u64(0),
        lng: 0,
        entries: Entries::empty(alloc),
    };
    comes(alloc, run, node, body)
}

// One byte is appended.
fn appends(alloc: Global, run: &mut Run) -> Result<Report, SequencerFault> {
    let payload = one_byte(alloc)?;
    match run.sequencer.append(alloc, payload, &mut run.out) {
        Ok(_) => Ok(Report::nothing()),
        Err(fault) => Err(fault),
    }
}

// The next sequencer of the log is activated.
fn activates(alloc: Global, run: &mut Run) -> Result<Report, SequencerFault> {
    let mut out = Outbox::empty(alloc);
    let _ = next_on(alloc, [1, 2, 3], &mut run.reg, &mut out)?;
    Ok(Report::nothing())
}

// Epoch 1 is closed in the register.
fn closes(alloc: Global, run: &mut Run) -> Result<Report, SequencerFault> {
    let _ = run.reg.close(alloc, log()?, 1, &summary(), false)?;
    Ok(Report::nothing())
}

// The register's next writing call will fail.
fn fails(run: &mut Run) -> Report {
    run.reg.arm(Fault::FailAt(1));
    Report::nothing()
}

// What happens to a sequencer, its register and the first offsets of epoch 1.
#[derive(Clone, Copy)]
pub(crate) enum Step {
    // One byte is appended.
    Appends,
    // The node stored what has the first offset.
    Stores(u8),
    // The node has nothing of the epoch.
    HasNothing(u8),
    // The node is lost for the epoch.
    Loses(u8),
    // A node says that the epoch is closed.
    Closed,
    // All that is wanted is sent again.
    Retries,
    // The next sequencer of the log is activated, on the first nodes.
    Next,
    // The next sequencer closes the epoch in the register.
    Closes,
    // The register's next writing call will fail.
    Fails,
}

// What a step does.
fn take(alloc: Global, run: &mut Run, step: Step) -> Result<Report, SequencerFault> {
    match step {
        Step::Appends => appends(alloc, run),
        Step::Stores(node) => stores(alloc, run, node),
        Step::HasNothing(node) => has_nothing(alloc, run, node),
        Step::Loses(node) => comes(alloc, run, node, lost()),
        Step::Closed => comes(alloc, run, 1, closed()),
        Step::Retries => run.sequencer.retry(alloc, &mut run.reg, &mut run.out),
        Step::Next => activates(alloc, run),
        Step::Closes => closes(alloc, run),
        Step::Fails => Ok(fails(run)),
    }
}

// What the last of these steps does.
pub(crate) fn play(alloc: Global, run: &mut Run, steps: &[Step]) -> Result<Report, SequencerFault> {
    let mut last = Report::nothing();
    for step in steps {
        match take(alloc, run, *step) {
            Ok(report) => last = report,
            Err(fault) => return Err(fault),
        }
    }
    Ok(last)
}
