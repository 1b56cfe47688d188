// A node that has taken a trim only when it is asked again.
ghost use Rattle.std.specs.Prelude.{◌≡◌, ◌≢◌, Err, IfOk, IfSome};
ghost use Rattle.ld_io.specs.Causes.{HasCause};
ghost use Rattle.ld_msg.specs.Bounds.{IsMessage};
ghost use Rattle.ld_wire.specs.declared.fault.WireFault.{WireFault as FrameFault};
ghost use Rattle.ld_dial.specs.Far.{CountsFault, CountsEnding, KeepsFrame};

use crate::filling::{log_one, node_of, sink};
use crate::status::config;
use ld_dial::{Fault, Nodes};
use ld_ids::{NoMemory, NodeId};
use ld_io::Failed;
use ld_lsn::Lsn;
use ld_msg::{Body, Msg, Who};
use ld_operate::tell_trims;
use std::alloc::Global;
use std::test::Fail;

/// A node whose answers are given: each is a trim point of epoch 1, the first one first, and behind the last one it has ended.
/// What stands there isn't told. It counts how often it is dialed, and the milliseconds of all rests.
#[derive(Drop)]
struct Late {
    trims: Vec<u32>,
    asked: usize,
    dials: u64,
    rested: u32,
    endings: u64,
}

/// That log 1 is trimmed up to a number of epoch 1.
fn answer(esn: u32) -> Result<Msg, NoMemory>
    ensures { IfOk result IsMessage }
{
    let log = log_one()?;
    let node = node_of(1)?;
    let _ = log.number();
    let _ = node.number();
    let from = Lsn::new(0, 1);
    let trim = Lsn::new(1, esn);
    let _ = from.value();
    let _ = trim.value();
    Ok(Msg {
        from: Who::Node(node),
        to: Who::Reader(0),
        log,
        body: Body::ReadTrim {
            round: 1,
            from,
            trim,
        },
    })
}

impl Nodes for Late {
    ghost use Rattle.std.specs.Prelude.{false, None};

    ghost tells = { λ _ _ _. ⊥ };

    ghost silent = { λ _. false };

    ghost faults = { λ _. 0 };

    ghost endings = { λ l. l.endings };

    ghost off = { λ _. None };

    fn dial(&mut self, _node: NodeId) -> Result<(), Failed>
        ensures cause { HasCause 0 0 result }
        ensures endings { self.new.endings ≡ self.old.endings }
    {
        self.dials = self.dials.saturating_add(1);
        Ok(())
    }

    fn send(&mut self, _alloc: Global, _message: &Msg) -> Result<(), Fault>
        requires { IsMessage _message.now }
        ensures counts { CountsFault 0 0 result }
        ensures endings { self.new.endings ≡ self.old.endings }
        ensures unheard { (fault : FrameFault) → result ≢ Err (Fault.BadFrame fault) }
    {
        Ok(())
    }

    fn receive(&mut self, _alloc: Global) -> Result<Option<Msg>, Fault>
        ensures message { IfOk result (λ next. IfSome next IsMessage) }
        ensures counts { CountsFault 0 0 result }
        ensures ended { CountsEnding self.old.endings self.new.endings result }
        ensures off { KeepsFrame None None result }
    {
        let Some(esn) = self.trims.get(self.asked) else {
            self.endings = self.endings.saturating_add(1);
            return Ok(None);
        };
        self.asked += 1;
        Ok(Some(answer(*esn)?))
    }

    fn rest(&mut self, milliseconds: u32)
        ensures endings { self.new.endings ≡ self.old.endings }
    {
        self.rested = self.rested.saturating_add(milliseconds);
    }

    fn failures(&self) -> u64 {
        0
    }

    fn endings(&self) -> u64 {
        self.endings
    }
}

/// A node that answers so.
fn answering(alloc: Global, trims: &[u32]) -> Result<Late, NoMemory> {
    let mut given = Vec::new(alloc);
    for esn in trims {
        given.push(*esn)?;
    }
    Ok(Late {
        trims: given,
        asked: 0,
        dials: 0,
        rested: 0,
        endings: 0,
    })
}

/// Whether a node that answers so is told to have trimmed up to e1n5, and with this line; how often it was dialed, and how many
/// milliseconds were waited.
fn told(alloc: Global, trims: &[u32], line: &[u8]) -> Result<(bool, bool, u64, u32), NoMemory> {
    let config = config(alloc, br#"{"nodes":[1],"logs":[{"id":1,"set":[1],"r":1}]}"#)?;
    let mut nodes = answering(alloc, trims)?;
    let mut out = sink(alloc, 1000, 100)?;
    let done = tell_trims(
        alloc,
        &config,
        log_one()?,
        Lsn::new(1, 5),
        &mut nodes,
        &mut out,
    );
    Ok((
        done == Ok(true),
        out.bytes() == line,
        nodes.dials,
        nodes.rested,
    ))
}

#[test]
fn a_node_is_asked_again_until_it_has_trimmed(rt: HostRuntime) -> Result<(), Fail> {
    assert_eq!(rt;
        told(rt.alloc(), &[5], b"node 1 trim e1n5\n")?,
        (true, true, 1, 0)
    );
    assert_eq!(rt;
        told(rt.alloc(), &[2, 5], b"node 1 trim e1n5\n")?,
        (true, true, 2, 20)
    );
    assert_eq!(rt;
        told(rt.alloc(), &[2, 2, 6], b"node 1 trim e1n6\n")?,
        (true, true, 3, 420)
    );
    Ok(())
}

#[test]
fn three_times_and_no_more(rt: HostRuntime) -> Result<(), Fail> {
    assert_eq!(rt;
        told(rt.alloc(), &[2, 3, 4, 5], b"node 1 trim e1n4\n")?,
        (false, true, 3, 420)
    );
    assert_eq!(rt;
        told(rt.alloc(), &[2], b"node 1 silent\n")?,
        (false, true, 2, 20)
    );
    Ok(())
}
