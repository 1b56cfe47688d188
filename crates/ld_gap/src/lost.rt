// Nodes that are lost.
ghost use Rattle.std.specs.Prelude.{◌≡◌};
ghost use Rattle.ld_table.specs.Table.{find};
ghost use Rattle.ld_ids.specs.Set.{members};
ghost use Rattle.ld_msg.specs.Reader.{keys};
ghost use Rattle.ld_gap.specs.Slots.{filled};

use ld_ids::{NodeId, NodeSet};
use std::marker::Model;

/// Lost nodes, each with the generation under which it is lost. It is seen as a table by node.
#[derive(Drop)]
pub struct Lost {
    generations: [Option<u32>; 16],
}

impl Model for Lost {
    ghost use Rattle.std.specs.Prelude.{List, ℕ, length, ◌≡◌};
    ghost use Rattle.ld_gap.specs.Slots.{filled};

    ghost Value = { List (ℕ × ℕ) };

    ghost view = { λ lost. filled lost.generations };

    ghost invariant = { λ lost. length lost.generations ≡ 16 };
}

impl Lost {
    /// The nodes whose slots have a generation, the first slot for node 1.
    pub fn of(generations: [Option<u32>; 16]) -> Lost
        ensures { result ≡ filled generations }
    {
        Lost { generations }
    }

    /// The generation under which the node is lost.
    pub fn generation(&self, node: NodeId) -> Option<u32>
        ensures { result ≡ find node self.now }
    {
        self.generations[usize::from(node.number()) - 1]
    }

    /// The nodes.
    pub fn nodes(&self) -> NodeSet
        ensures { members result ≡ keys self.now }
    {
        let mut nodes = NodeSet::empty();
        for (place, slot) in self.generations.iter().enumerate() {
            if slot.is_some()
                && let Some(node) = NodeId::new(place as u8 + 1)
            {
                nodes = nodes.with(node);
            }
        }
        nodes
    }
}
