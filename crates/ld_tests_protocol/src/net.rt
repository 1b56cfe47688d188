// Messages in their order, delivered and lost.
use ld_ids::{LogId, NoMemory, NodeId};
use ld_lsn::Lsn;
use ld_msg::{Body, Msg, Who};
use ld_net::Net;
use std::alloc::Global;
use std::test::Fail;

/// An acknowledgement of a place of epoch 1.
fn stored(node: NodeId, log: LogId, esn: u32) -> Msg {
    Msg {
        from: Who::Node(node),
        to: Who::Sequencer(1),
        log,
        body: Body::Stored {
            number: Lsn::new(1, esn),
        },
    }
}

/// The last one's place and the oldest new messages, one after the other, of three of which the second is lost.
fn one_lost(
    alloc: Global,
    node: NodeId,
    log: LogId,
) -> Result<(u64, Option<u64>, Option<u64>), NoMemory> {
    let mut net = Net::new(alloc);
    net.send(stored(node, log, 1))?;
    net.send(stored(node, log, 2))?;
    let last = net.send(stored(node, log, 3))?;
    net.mark(1);
    net.mark(0);
    let oldest = net.oldest_new();
    net.mark(2);
    Ok((last, oldest, net.oldest_new()))
}

#[test]
fn lost_messages_are_passed_over(rt: HostRuntime) -> Result<(), Fail> {
    let node = NodeId::new(3).expect(&rt, "a node");
    let log = LogId::new(1).expect(&rt, "a log");
    assert_eq!(rt; one_lost(rt.alloc(), node, log)?, (2, Some(2), None));
    Ok(())
}
