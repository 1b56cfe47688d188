// What became of a node, which whoever runs it is told.
ghost use Rattle.std.specs.Prelude.{◌≡◌};

use ld_config::Config;
use ld_crowd::{Crowd, News};
use ld_disk::Disk;
use ld_msg::{Body, Msg};
use ld_node::Node;
use ld_op::Plain;

/// How a node stands in what a message may change, and of which news are told: how many segments were begun, and the epoch
/// that the message says is closed, where it is closed here.
#[derive(Clone, Copy)]
pub(crate) struct Standing {
    segment: u64,
    closed: Option<u32>,
}

impl Standing {
    /// How the node stands before or behind a message. It takes time in the logarithm of the log's closed epochs.
    pub(crate) fn of<D: Disk>(node: &Node<D>, message: &Msg) -> Standing {
        Standing {
            segment: node.segment(),
            closed: closed(node.index(), message),
        }
    }
}

/// The epoch that a message says is closed, where it is closed here.
fn closed(index: &Plain, message: &Msg) -> Option<u32> {
    match &message.body {
        Body::Clean { epoch, .. } => index.summary(message.log, *epoch).map(|_| *epoch),
        _ => None,
    }
}

/// Adds the news of a message to others. Those for which there is no memory aren't told.
pub(crate) fn add_news(news: &mut Vec<News>, before: Standing, now: Standing, message: &Msg) {
    if now.segment != before.segment {
        let _ = news.push(News::Switched { count: now.segment });
    }
    if let (None, Some(epoch)) = (before.closed, now.closed) {
        let _ = news.push(News::Closed {
            log: message.log.number(),
            epoch,
        });
    }
}

/// Tells these news.
pub(crate) fn note_all<C: Crowd>(crowd: &mut C, news: &[News])
    ensures did { C.did crowd.new ≡ C.did crowd.old }
    ensures faults { C.faults crowd.new ≡ C.faults crowd.old }
{
    for told in news {
        crowd.note(*told);
    }
}

/// Tells that a node was formatted as it was opened, and which logs of the configuration it had lost and has again.
pub(crate) fn note_opened<D: Disk, C: Crowd>(node: &Node<D>, config: &Config, crowd: &mut C)
    ensures did { C.did crowd.new ≡ C.did crowd.old }
    ensures faults { C.faults crowd.new ≡ C.faults crowd.old }
{
    let index = node.index();
    if node.is_new() {
        crowd.note(News::Formatted {
            generation: index.generation(),
        });
    }
    for spec in config.logs.as_slice() {
        let epoch = index.lost_to(spec.log);
        if epoch > 0 && !index.is_lost(spec.log) {
            crowd.note(News::Rebuilt {
                log: spec.log.number(),
                epoch,
            });
        }
    }
}
