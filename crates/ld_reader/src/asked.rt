// Lost nodes that are asked once more.
ghost use Rattle.std.specs.Prelude.{◌≡◌};
ghost use Rattle.ld_table.specs.Words.{all_of, is_in};
ghost use Rattle.ld_msg.specs.Reader.{confirms_loss};

use ld_gap::Lost;
use ld_ids::NodeId;
use ld_msg::Body;

/// The lost nodes that are asked once more, and the round of these asks.
#[derive(Drop)]
pub struct Asked {
    pub round: u32,
    pub lost: Lost,
}

impl Asked {
    /// Whether the node is lost still, under the generation that was held for it.
    pub fn confirms(&self, node: NodeId, body: &Body) -> bool
        ensures { result ≡ confirms_loss self.now.lost node body.now }
    {
        match body {
            Body::LostHere { generation, .. } => self.lost.generation(node) == Some(*generation),
            _ => false,
        }
    }

    /// Whether each of the nodes is among these.
    pub fn are_all_in(&self, told: &[NodeId]) -> bool
        ensures { result ≡ all_of (λ k. is_in k.0 told.now) self.now.lost }
    {
        let nodes = self.lost.nodes();
        for place in 0..nodes.len() {
            if let Some(node) = nodes.nth(place) {
                if !contains(told, node) {
                    return false;
                }
            }
        }
        true
    }
}

/// Whether the node is one of these.
pub fn contains(nodes: &[NodeId], node: NodeId) -> bool
    ensures { result ≡ is_in node nodes.now }
{
    for one in nodes {
        if *one == node {
            return true;
        }
    }
    false
}
