// The names and the nodes of made events.
ghost use Rattle.std.specs.Prelude.{◌≡◌, IfOk};
ghost use Rattle.ld_ids.specs.Id.{IsNode, IsLog};
ghost use Rattle.ld_schedule.specs.Grammar.{IsName};
ghost use Rattle.ld_maker.specs.Event.{sequencer_name, reader_name, node_of};

use itoa::Buffer;
use ld_ids::{LogId, Name, NoMemory, NodeId};
use std::alloc::Global;

/// The name of the sequencer of this number, counted from 0 in the order of the activations: `s` and the number's
/// decimal digits.
#[tactic(auto, using(crate::proofs::Names::sequencer_is_named))]
pub fn sequencer_name(alloc: Global, number: u32) -> Result<Name, NoMemory>
    ensures value { IfOk result (λ name. name ≡ sequencer_name number) }
    ensures named { IfOk result IsName }
{
    let mut digits = Buffer::new();
    let mut bytes = Vec::from_slice(alloc, b"s")?;
    bytes.extend_from_slice(digits.format(number).as_bytes())?;
    Ok(Name::new(bytes))
}

/// The name of the one reader.
pub fn reader_name(alloc: Global) -> Result<Name, NoMemory>
    ensures { IfOk result (λ name. name ≡ reader_name) }
{
    let bytes = Vec::from_slice(alloc, b"r0")?;
    Ok(Name::new(bytes))
}

/// The node that a value names, 1 to 5.
pub fn node_of(value: u32) -> NodeId
    ensures node { result ≡ node_of value }
    ensures named { IsNode result }
{
    let Some(node) = NodeId::new((1 + value % 5) as u8) else {
        unreachable!();
    };
    node
}

/// The one log.
pub fn the_log() -> LogId
    ensures { result ≡ 1 }
{
    let Some(log) = LogId::new(1) else {
        unreachable!();
    };
    log
}
