// Sequencers and readers of a log with each record on two nodes, and what their calls do. The configuration has the nodes 1 to 4,
// and gives the log the first three. What a call wrote is compared as the text of its lines, and what it sent as a letter and a
// node for each message: `s` stores, `r` releases, `t` trims, `c` tells that an epoch is closed, `d` asks for a digest, `a` asks
// for what may be read, `o` asks for one copy of it.
ghost use Rattle.std.specs.Prelude.{◌≡◌, IfOk};
ghost use Rattle.ld_config.specs.Bounds.{IsInBounds};
ghost use Rattle.ld_msg.specs.declared.msg.Who.TheVariants.{Reader as OfReader};
ghost use Rattle.ld_msg.specs.Bounds.{IsMessage};
ghost use Rattle.ld_register.specs.Bounds.{IsSpec};

use ld_batch::Messages;
use ld_clients::{Outcome, Readers, Sequencers};
use ld_config::Config;
use ld_disk::MemDisk;
use ld_ids::{LogId, Name, NoMemory, NodeId, NodeSet, Payload, Spec};
use ld_lsn::Lsn;
use ld_msg::{Body, Msg, Outbox, Style, Who};
use ld_register::{DiskRegister, Register};
use ld_transcript::{Line, write};
use std::alloc::Global;

const CONFIG: &[u8] = br#"{"nodes":[1,2,3,4],"logs":[{"id":7,"set":[1,2,3],"r":2,"extras":0}]}"#;

// The first three nodes, and two others: bit n - 1 represents node n.
pub(crate) const FIRST: u16 = 0b0111;

pub(crate) const OTHERS: u16 = 0b1010;

// The log's configuration.
pub(crate) fn four_nodes(alloc: Global) -> Result<Config, NoMemory>
    ensures { IfOk result IsInBounds }
{
    match Config::read(alloc, CONFIG) {
        Ok(config) => Ok(config),
        Err(_) => Err(NoMemory),
    }
}

// A register on an empty disk.
fn new_register(alloc: Global) -> Result<DiskRegister<MemDisk>, NoMemory> {
    match MemDisk::new(alloc) {
        Ok(disk) => Ok(DiskRegister::new(alloc, disk)),
        Err(_) => Err(NoMemory),
    }
}

fn named(alloc: Global, text: &[u8]) -> Result<Name, NoMemory> {
    Ok(Name::new(Vec::from_slice(alloc, text)?))
}

pub(crate) fn log(number: u32) -> Result<LogId, NoMemory> {
    match LogId::new(number) {
        Some(log) => Ok(log),
        None => Err(NoMemory),
    }
}

// The log on these nodes.
fn spec_on(nodes: u16) -> Result<Spec, NoMemory>
    ensures { IfOk result IsSpec }
{
    let Some(log) = LogId::new(7) else {
        return Err(NoMemory);
    };
    let _ = log.number();
    let set = NodeSet::from_bits(nodes);
    if set.len() < 2 {
        return Err(NoMemory);
    }
    Ok(Spec {
        log,
        set,
        r: 2,
        extras: 0,
    })
}

// The letter of a message.
fn letter(body: &Body) -> u8 {
    match body {
        Body::Store { .. } => b's',
        Body::Release { .. } => b'r',
        Body::Trim { .. } => b't',
        Body::Clean { .. } => b'c',
        Body::DigestAsk { .. } => b'd',
        Body::ReadAsk { .. } => b'a',
        Body::ReadOne { .. } => b'o',
        _ => b'?',
    }
}

// The node that a message goes to, as a digit.
fn digit(to: &Who) -> u8 {
    match to {
        Who::Node(node) => match node.number() {
            1 => b'1',
            2 => b'2',
            3 => b'3',
            4 => b'4',
            _ => b'?',
        },
        _ => b'?',
    }
}

// The messages, a letter and a digit each.
fn sent(alloc: Global, sends: &Outbox) -> Result<Vec<u8>, NoMemory> {
    let mut text = Vec::new(alloc);
    for msg in sends.as_slice() {
        text.push(letter(&msg.body))?;
        text.push(digit(&msg.to))?;
    }
    Ok(text)
}

// The text of the lines.
fn written(alloc: Global, lines: &[Line]) -> Result<Vec<u8>, NoMemory> {
    let mut text = Vec::new(alloc);
    for line in lines {
        write(alloc, line, &mut text)?;
    }
    Ok(text)
}

// ---- each call alone ----

fn activate<G: Register>(
    alloc: Global,
    sequencers: &mut Sequencers,
    config: &Config,
    name: &Name,
    spec: &Spec,
    reg: &mut G,
) -> Result<Outcome, NoMemory>
    requires config { IsInBounds config.now }
    requires spec { IsSpec spec.now }
{
    sequencers.activate(alloc, config, name, spec.log, spec, reg)
}

fn append(
    alloc: Global,
    sequencers: &mut Sequencers,
    name: &Name,
    payload: &Payload,
) -> Result<Outcome, NoMemory> {
    sequencers.append(alloc, name, payload)
}

fn batch(
    alloc: Global,
    sequencers: &mut Sequencers,
    name: &Name,
    messages: &Messages,
) -> Result<Outcome, NoMemory> {
    sequencers.batch(alloc, name, messages)
}

fn trim(alloc: Global, sequencers: &Sequencers, name: &Name) -> Result<Outcome, NoMemory> {
    sequencers.trim(alloc, name, Lsn::new(1, 0))
}

fn retry<G: Register>(
    alloc: Global,
    sequencers: &mut Sequencers,
    name: &Name,
    reg: &mut G,
) -> Result<Outcome, NoMemory> {
    sequencers.retry(alloc, name, reg)
}

fn calm<G: Register>(
    alloc: Global,
    sequencers: &mut Sequencers,
    name: &Name,
    reg: &mut G,
) -> Result<Outcome, NoMemory> {
    sequencers.calm(alloc, name, reg)
}

fn hear<G: Register>(
    alloc: Global,
    sequencers: &mut Sequencers,
    msg: &Msg,
    reg: &mut G,
) -> Result<Outcome, NoMemory>
    requires { IsMessage msg.now }
{
    sequencers.on_reply(alloc, 1, msg, reg)
}

fn open(
    alloc: Global,
    readers: &mut Readers,
    config: &Config,
    name: &Name,
    log: LogId,
    style: Style,
) -> Result<Outcome, NoMemory> {
    readers.open(
        alloc,
        config,
        name,
        log,
        Lsn::new(1, 1),
        Lsn::new(1, 4),
        style,
    )
}

fn poll<G: Register>(
    alloc: Global,
    readers: &mut Readers,
    name: &Name,
    reg: &mut G,
) -> Result<Outcome, NoMemory> {
    match readers.poll(alloc, name, reg) {
        Ok(outcome) => Ok(outcome),
        Err(_) => Err(NoMemory),
    }
}

fn read<G: Register>(
    alloc: Global,
    readers: &mut Readers,
    msg: &Msg,
    reg: &mut G,
) -> Result<Outcome, NoMemory>
    requires message { IsMessage msg.now }
    requires to { msg.now.to ≡ OfReader 0 }
{
    match readers.on_reply(alloc, 0, msg, reg) {
        Ok(outcome) => Ok(outcome),
        Err(_) => Err(NoMemory),
    }
}

// A node stored what has the first offset of epoch 1.
fn stored(node: u8) -> Result<Msg, NoMemory>
    ensures { IfOk result IsMessage }
{
    if let (Some(log), Some(node)) = (LogId::new(7), NodeId::new(node)) {
        let _ = (log.number(), node.number());
        return Ok(Msg {
            from: Who::Node(node),
            to: Who::Sequencer(1),
            log,
            body: Body::Stored {
                number: Lsn::new(1, 1),
            },
        });
    }
    Err(NoMemory)
}

// What a node says of the first offset of epoch 1: all up to the offset 9 is trimmed, or the epoch ends there, and what follows
// is lost or isn't.
#[derive(Clone, Copy)]
pub(crate) enum Says {
    Trimmed,
    Ended { loss: bool },
}

// The first node says so to the first reader.
fn said(says: Says) -> Result<Msg, NoMemory>
    ensures message { IfOk result IsMessage }
    ensures to { IfOk result (λ msg. msg.to ≡ OfReader 0) }
{
    if let (Some(log), Some(node)) = (LogId::new(7), NodeId::new(1)) {
        let _ = (log.number(), node.number());
        let from = Lsn::new(1, 1);
        let body = match says {
            Says::Trimmed => Body::ReadTrim {
                round: 1,
                from,
                trim: Lsn::new(1, 9),
            },
            Says::Ended { loss } => Body::ReadEnded {
                round: 1,
                from,
                end: from,
                loss,
            },
        };
        return Ok(Msg {
            from: Who::Node(node),
            to: Who::Reader(0),
            log,
            body,
        });
    }
    Err(NoMemory)
}

// ---- steps ----

// Sequencers and readers on one register.
#[derive(Drop)]
pub(crate) struct Scene {
    pub(crate) sequencers: Sequencers,
    readers: Readers,
    reg: DiskRegister<MemDisk>,
}

// What is done.
#[derive(Clone, Copy)]
pub(crate) enum Does {
    // A sequencer of the name of this letter is activated with these nodes.
    Activate(u8, u16),
    // `s` numbers three bytes.
    Append,
    // `s` numbers the batch of one message of so many bytes.
    Batch(usize),
    // `s` trims up to the offset 0 of epoch 1.
    Trim,
    Retry,
    // `s` retries, and tells its released number once more.
    Calm,
    Drop,
    // This node tells `s` that it stored what has the first offset.
    Stored(u8),
    // `d` is opened on the offsets 1 to 4 of epoch 1.
    Open(Style),
    Poll,
    // The first node says this to `d`.
    Say(Says),
}

// A step: what is done, the lines that it writes, and the messages that it sends.
pub(crate) type Step = (Does, &'static [u8], &'static [u8]);

pub(crate) fn begin(alloc: Global) -> Result<Scene, NoMemory> {
    Ok(Scene {
        sequencers: Sequencers::new(alloc),
        readers: Readers::new(alloc),
        reg: new_register(alloc)?,
    })
}

pub(crate) fn activates(
    alloc: Global,
    scene: &mut Scene,
    letter: u8,
    nodes: u16,
) -> Result<Outcome, NoMemory> {
    let config = four_nodes(alloc)?;
    let name = named(alloc, &[letter])?;
    let spec = spec_on(nodes)?;
    activate(
        alloc,
        &mut scene.sequencers,
        &config,
        &name,
        &spec,
        &mut scene.reg,
    )
}

fn appends(alloc: Global, scene: &mut Scene, name: &Name) -> Result<Outcome, NoMemory> {
    let payload = Payload::new(Vec::from_elem(alloc, 7, 3)?);
    append(alloc, &mut scene.sequencers, name, &payload)
}

fn batches(
    alloc: Global,
    scene: &mut Scene,
    name: &Name,
    bytes: usize,
) -> Result<Outcome, NoMemory> {
    let mut messages = Messages::empty(alloc);
    if bytes < 100_000 {
        messages.push(Payload::new(Vec::from_elem(alloc, 7, bytes)?))?;
    }
    batch(alloc, &mut scene.sequencers, name, &messages)
}

fn opens(alloc: Global, scene: &mut Scene, name: &Name, style: Style) -> Result<Outcome, NoMemory> {
    let config = four_nodes(alloc)?;
    open(alloc, &mut scene.readers, &config, name, log(7)?, style)
}

// How many readers a log has, once `d` is opened on log 7.
pub(crate) fn readers_of(alloc: Global, number: u32) -> Result<usize, NoMemory> {
    let mut scene = begin(alloc)?;
    let name = named(alloc, b"d")?;
    opens(alloc, &mut scene, &name, Style::EachCopy)?;
    Ok(scene.readers.names(alloc, log(number)?)?.len())
}

fn hears(alloc: Global, scene: &mut Scene, node: u8) -> Result<Outcome, NoMemory> {
    let msg = stored(node)?;
    hear(alloc, &mut scene.sequencers, &msg, &mut scene.reg)
}

fn reads(alloc: Global, scene: &mut Scene, says: Says) -> Result<Outcome, NoMemory> {
    let msg = said(says)?;
    read(alloc, &mut scene.readers, &msg, &mut scene.reg)
}

// What is done writes and sends this.
fn outcome(alloc: Global, scene: &mut Scene, does: Does) -> Result<Outcome, NoMemory> {
    let writer = named(alloc, b"s")?;
    let reader = named(alloc, b"d")?;
    match does {
        Does::Activate(letter, nodes) => activates(alloc, scene, letter, nodes),
        Does::Append => appends(alloc, scene, &writer),
        Does::Batch(bytes) => batches(alloc, scene, &writer, bytes),
        Does::Trim => trim(alloc, &scene.sequencers, &writer),
        Does::Retry => retry(alloc, &mut scene.sequencers, &writer, &mut scene.reg),
        Does::Calm => calm(alloc, &mut scene.sequencers, &writer, &mut scene.reg),
        Does::Drop => Ok(scene.sequencers.drop(alloc, &writer)),
        Does::Stored(node) => hears(alloc, scene, node),
        Does::Open(style) => opens(alloc, scene, &reader, style),
        Does::Poll => poll(alloc, &mut scene.readers, &reader, &mut scene.reg),
        Does::Say(says) => reads(alloc, scene, says),
    }
}

// Whether what is done writes these lines and sends these messages.
fn shows(
    alloc: Global,
    scene: &mut Scene,
    does: Does,
    lines: &[u8],
    sends: &[u8],
) -> Result<bool, NoMemory> {
    let outcome = outcome(alloc, scene, does)?;
    let written = written(alloc, outcome.lines.as_slice())?;
    let sent = sent(alloc, &outcome.sends)?;
    Ok(written.as_slice() == lines && sent.as_slice() == sends)
}

// How many steps, from the first one on, write their lines and send their messages.
pub(crate) fn as_told(alloc: Global, steps: &[Step]) -> Result<usize, NoMemory> {
    let mut scene = begin(alloc)?;
    for (place, step) in steps.iter().enumerate() {
        let (does, lines, sends) = *step;
        let shown = shows(alloc, &mut scene, does, lines, sends)?;
        if !shown {
            return Ok(place);
        }
    }
    Ok(steps.len())
}
