// What a node tells of itself that serves a crowd.
ghost use Rattle.std.specs.Prelude.{◌≡◌, [], IfOk};

use crate::serve::{config, new_disk};
use ld_crowd::{Crowd, Heard, MemCrowd, News, Step, Turn};
use ld_disk::{Disk, Fault, MemDisk};
use ld_ids::{NoMemory, NodeId};
use ld_io::{Failed, NoMemory as Failure};
use ld_register::DiskRegister;
use ld_serve::{Stop, serve_many};
use std::alloc::Global;
use std::test::Fail;

/// The sequencer of epoch 2 tells node 1 that epoch 1 of log 1 is closed, and has no record.
const CLOSED: [u8; 44] = [
    0, 0, 0, 40, 18, 1, 0, 0, 0, 2, 0, 0, 0, 0, 1, 0, 0, 0, 1, 0, 0, 0, 1, 0, 0, 0, 2, 0, 0, 0, 0,
    0, 0, 0, 0, 0, 0, 0, 0, 0, 0, 0, 1, 0,
];

/// A crowd that keeps the news which it is told.
#[derive(Drop)]
struct Told<C: Crowd + Drop> {
    crowd: C,
    news: Vec<News>,
}

impl<C: Crowd + Drop> Crowd for Told<C> {
    ghost left = { λ c. C.left c.crowd };

    ghost did = { λ c. C.did c.crowd };

    ghost faults = { λ c. C.faults c.crowd };

    fn turn(&mut self, may_wait: bool) -> Result<Turn, Failed> {
        self.crowd.turn(may_wait)
    }

    fn read(&mut self, peer: u64, buf: &mut [u8]) -> Result<Heard, Failed> {
        self.crowd.read(peer, buf)
    }

    fn say(&mut self, peer: u64, bytes: &[u8]) -> Result<(), Failure> {
        self.crowd.say(peer, bytes)
    }

    fn is_full(&self, peer: u64) -> bool {
        self.crowd.is_full(peer)
    }

    fn finish(&mut self, peer: u64) {
        self.crowd.finish(peer)
    }

    fn dismiss(&mut self, peer: u64) {
        self.crowd.dismiss(peer)
    }

    fn note(&mut self, news: News) {
        let _ = self.news.push(news);
    }
}

/// A crowd of one peer, who tells twice that the epoch is closed.
fn closing(alloc: Global) -> Result<MemCrowd, NoMemory>
    ensures { IfOk result (λ crowd. crowd.did ≡ []) }
{
    let mut bytes = Vec::new(alloc);
    bytes.extend_from_slice(&CLOSED)?;
    bytes.extend_from_slice(&CLOSED)?;
    let mut peers = Vec::new(alloc);
    peers.push(bytes)?;
    let mut steps = Vec::new(alloc);
    steps.extend_from_slice(&[Step::Comes, Step::Has(0, 88)])?;
    match MemCrowd::new(alloc, peers, steps, Vec::new(alloc)) {
        Ok(crowd) => Ok(crowd),
        Err(_) => Err(NoMemory),
    }
}

/// How node 1 ends that serves this peer on a disk, and whether it told these news.
fn tells(
    alloc: Global,
    format: bool,
    disk: &mut MemDisk,
    news: &[News],
) -> Result<(Result<(), Stop>, bool), NoMemory> {
    let (Ok(config), Ok(register), Some(node)) = (config(alloc), new_disk(alloc), NodeId::new(1))
    else {
        return Err(NoMemory);
    };
    let mut reg = DiskRegister::new(alloc, register);
    let mut told = Told {
        crowd: closing(alloc)?,
        news: Vec::new(alloc),
    };
    let end = serve_many(alloc, node, &config, format, 9, disk, &mut reg, &mut told);
    Ok((end, told.news.as_slice() == news))
}

/// What it tells on a blank disk, and then once more.
fn told_twice(alloc: Global) -> Result<[(Result<(), Stop>, bool); 2], NoMemory> {
    let mut disk = new_disk(alloc)?;
    let formatted = News::Formatted { generation: 1 };
    let closed = News::Closed { log: 1, epoch: 1 };
    let first = tells(alloc, true, &mut disk, &[formatted, closed])?;
    Ok([first, tells(alloc, true, &mut disk, &[])?])
}

#[test]
fn a_node_tells_once_what_became_of_it(rt: HostRuntime) -> Result<(), Fail> {
    assert_eq!(rt; told_twice(rt.alloc())?, [(Ok(()), true), (Ok(()), true)]);
    Ok(())
}

/// What it tells where the call of this count fails that writes, behind those of the load and the format.
fn told_where_it_fails(alloc: Global, call: u64) -> Result<(Result<(), Stop>, bool), NoMemory> {
    let mut disk = new_disk(alloc)?;
    disk.arm(Fault::FailAt(call));
    tells(alloc, true, &mut disk, &[News::Formatted { generation: 1 }])
}

#[test]
fn what_is_not_durable_is_not_told(rt: HostRuntime) -> Result<(), Fail> {
    // the load's sync and the format's four calls come before the four of the epoch's record
    for call in [6, 7, 8, 9] {
        let told = told_where_it_fails(rt.alloc(), call)?;
        assert_eq!(rt; told, (Err(Stop::Disk), true));
    }
    Ok(())
}
