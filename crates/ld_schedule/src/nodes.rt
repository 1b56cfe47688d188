// The nodes of a log, rising and with commas between them, its replication factor and its extras.
ghost use Rattle.std.specs.Prelude.{◌≡◌, ◌≤◌, ◌<◌, ◌+◌, List, [], ◌∷◌, ◌++◌, ℕ, decimal};
ghost use Rattle.ld_schedule.specs.Reading.{IsRead, AllLack};
ghost use Rattle.ld_schedule.specs.Grammar.{IsFactor, AreExtras, IsNodes, nodes_text};
ghost use Rattle.ld_schedule.specs.Rising.{IsAbove, AreAbove};
ghost use Rattle.ld_schedule.specs.WordLaws as laws;

use crate::fault::LineFault;
use crate::field::{Field, Word, common};
use crate::number::{Bounds, number};
use itoa::Buffer;
use ld_ids::{NodeId, NodeSet};
use ld_lsn::text::{same, split_at_byte};
use std::alloc::Global;

/// A replication factor, 1 to 16.
#[derive(Clone, Copy)]
pub struct Factor {
    pub r: u8,
}

impl Field for Factor {
    ghost named = { λ f. IsFactor f.r };

    ghost text = { λ f. decimal f.r };

    ghost inhabited = { (record { r = 1 }, laws.some_factor) };

    fn read(_alloc: Global, line: &[u8]) -> Result<Factor, LineFault> {
        let r = number(line, Bounds { least: 1, most: 16 })?;
        Ok(Factor { r: r as u8 })
    }
}

impl Word for Factor {
    ghost lacks_blank = { λ f. laws.factor_lacks f.r };
}

/// A number of extras, 0 to 3.
#[derive(Clone, Copy)]
pub struct Extras {
    pub extras: u8,
}

impl Field for Extras {
    ghost named = { λ e. AreExtras e.extras };

    ghost text = { λ e. decimal e.extras };

    ghost inhabited = { (record { extras = 0 }, laws.some_extras) };

    fn read(_alloc: Global, line: &[u8]) -> Result<Extras, LineFault> {
        let extras = number(line, Bounds { least: 0, most: 3 })?;
        Ok(Extras {
            extras: extras as u8,
        })
    }
}

impl Word for Extras {
    ghost lacks_blank = { λ e. laws.extras_lack e.extras };
}

/// The node above this number that the line spells.
fn node_above(line: &[u8], low: u8) -> Result<NodeId, LineFault>
    requires { low < 16 }
    ensures { IsRead (IsAbove low) decimal line.now result }
{
    let number = low + 1;
    let mut buffer = Buffer::new();
    let word = buffer.format(number).as_bytes();
    if same(line, word) {
        let Some(node) = NodeId::new(number) else {
            unreachable!();
        };
        return Ok(node);
    }
    let fault = LineFault::Bad {
        place: common(line, word),
    };
    if number == 16 {
        return Err(fault);
    }
    match node_above(line, number) {
        Ok(node) => Ok(node),
        Err(other) => Err(other.furthest(fault)),
    }
}

/// The nodes above this number that the line spells.
fn nodes_above(line: &[u8], low: u8) -> Result<NodeSet, LineFault>
    requires { low < 16 }
    ensures { IsRead (AreAbove low) nodes_text line.now result }
{
    let Some((front, rest)) = split_at_byte(line, b',') else {
        return match node_above(line, low) {
            Ok(node) => Ok(NodeSet::empty().with(node)),
            Err(fault) => Err(fault),
        };
    };
    let node = match node_above(front, low) {
        Ok(node) => node,
        Err(fault) => return Err(fault),
    };
    if node.number() == 16 {
        return Err(LineFault::Bad { place: front.len() });
    }
    match nodes_above(rest, node.number()) {
        Ok(set) => Ok(set.with(node)),
        Err(fault) => Err(fault.further(front.len() + 1)),
    }
}

impl Field for NodeSet {
    ghost named = { IsNodes };

    ghost text = { nodes_text };

    ghost inhabited = { laws.some_nodes };

    fn read(_alloc: Global, line: &[u8]) -> Result<NodeSet, LineFault> {
        nodes_above(line, 0)
    }
}
