// What is asked of a node before an event of it is taken.
ghost use Rattle.std.specs.Prelude.{◌≡◌, ◌&&◌, ◌||◌};
ghost use Rattle.ld_machine.specs.Config.{has_node, has_log};
ghost use Rattle.ld_machine.specs.Disk.{is_up, is_blank, is_down, is_failed};
ghost use Rattle.ld_machine.specs.State.{State, node_at};
ghost use Rattle.ld_cluster.specs.Standing.{config_of, Parts};

use crate::cluster::Cluster;
use crate::lookup::has_log;
use ld_host::Status;
use ld_ids::{LogId, NodeId};

impl Cluster {
    /// Whether the node is one of the configuration's, and blank.
    pub(crate) fn is_blank(&self, node: NodeId) -> bool
        ensures { (s : State) → Parts self.now s → result ≡ (has_node (config_of self.now) node && is_blank (node_at s node).status) }
    {
        match self.hosts.status(node) {
            Status::Blank => self.config.nodes.has(node),
            Status::Up => false,
            Status::Down => false,
            Status::Failed => false,
        }
    }

    /// Whether the node is one of the configuration's, and down.
    pub(crate) fn is_down(&self, node: NodeId) -> bool
        ensures { (s : State) → Parts self.now s → result ≡ (has_node (config_of self.now) node && is_down (node_at s node).status) }
    {
        match self.hosts.status(node) {
            Status::Down => self.config.nodes.has(node),
            Status::Up => false,
            Status::Blank => false,
            Status::Failed => false,
        }
    }

    /// Whether the node is one of the configuration's, and is up or has failed.
    pub(crate) fn can_stop(&self, node: NodeId) -> bool
        ensures { (s : State) → Parts self.now s → result ≡ (has_node (config_of self.now) node && (is_up (node_at s node).status || is_failed (node_at s node).status)) }
    {
        match self.hosts.status(node) {
            Status::Up => self.config.nodes.has(node),
            Status::Failed => self.config.nodes.has(node),
            Status::Blank => false,
            Status::Down => false,
        }
    }

    /// Whether the node is up, and the log is one of the configuration's.
    pub(crate) fn serves(&self, node: NodeId, log: LogId) -> bool
        ensures { (s : State) → Parts self.now s → result ≡ (is_up (node_at s node).status && has_log (config_of self.now) log) }
    {
        match self.hosts.status(node) {
            Status::Up => has_log(&self.config, log),
            Status::Down => false,
            Status::Blank => false,
            Status::Failed => false,
        }
    }
}
