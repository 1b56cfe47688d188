// A message to a node in memory, and its answers.
ghost use Rattle.std.specs.Prelude.{◌≡◌, ◌≤◌, ◌++◌, ℕ, List, true, OnOk};
ghost use Rattle.ld_io.specs.Memory.{one_more};
ghost use Rattle.ld_config.specs.Bounds.{IsInBounds};
ghost use Rattle.ld_config.specs.declared.config.Config.{Config as Settings};
ghost use Rattle.ld_msg.specs.Bounds.{IsMessage};
ghost use Rattle.ld_msg.specs.declared.msg.Who.TheVariants as whos;
ghost use Rattle.ld_machine.specs.Disk.{Node};
ghost use Rattle.ld_host.specs.Standing.{AreHosts};
ghost use Rattle.ld_dial.specs.Far.{handed, is_up_in};

use crate::answers::Answers;
use crate::knows::knows;
use ld_config::Config;
use ld_host::{Hosts, Status};
use ld_ids::{NoMemory, NodeId};
use ld_msg::Msg;
use std::alloc::Global;

/// Whether a node runs on it.
pub(crate) fn runs(hosts: &Hosts, node: NodeId) -> bool
    ensures { (c : Settings) (nodes : List (ℕ × Node)) → AreHosts c hosts.now nodes → result ≡ is_up_in nodes node }
{
    match hosts.status(node) {
        Status::Up => true,
        Status::Down => false,
        Status::Blank => false,
        Status::Failed => false,
    }
}

/// Counts one more, a fault or an ending.
pub(crate) fn count_one(count: &mut u64)
    ensures counted { count.new ≡ one_more count.old }
    ensures later { count.old ≤ count.new }
{
    *count = count.saturating_add(1);
}

/// Hands a message to a node that is up. Where the configuration has the message's log its answers come behind the
/// others; else nothing happens.
pub(crate) fn hand(
    alloc: Global,
    config: &Config,
    hosts: &mut Hosts,
    answers: &mut Answers,
    node: NodeId,
    message: &Msg,
) -> Result<(), NoMemory>
    requires message { IsMessage message.now }
    ensures { (nodes : List (ℕ × Node)) → IsInBounds config.now → AreHosts config.now hosts.old nodes → is_up_in nodes node ≡ true → message.now.to ≡ whos.Node node
        → OnOk result (AreHosts config.now hosts.new (handed config.now nodes node message.now).state.nodes × (answers.new ≡ answers.old ++ (handed config.now nodes node message.now).sends)) }
{
    if !knows(config, message.log) {
        return Ok(());
    }
    let (_, sends) = hosts.on_msg(alloc, node, message)?;
    answers.put_behind(sends)?;
    Ok(())
}
