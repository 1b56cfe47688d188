// The event of two draws.
ghost use Rattle.std.specs.Prelude.{◌≡◌, ◌-◌, IfOk};
ghost use Rattle.std.specs.Int.{w32, to_be_bytes};
ghost use Rattle.ld_ids.specs.Id.{IsNode};
ghost use Rattle.ld_schedule.specs.declared.event.Event.TheVariants.{Append};
ghost use Rattle.ld_schedule.specs.Grammar.{IsNamed};
ghost use Rattle.ld_maker.specs.Event.{event_of, sequencer_event, node_event, sequencer_name};

use crate::named::{node_of, reader_name, sequencer_name, the_log};
use ld_ids::{NoMemory, NodeId, Payload};
use ld_lsn::Lsn;
use ld_schedule::Event;
use std::alloc::Global;

/// The event of the first draw's value modulo 100, the second draw's value, and how many activations there were before.
#[tactic(auto, unfolding(crate::specs::Event::event_of))]
pub fn event_of(alloc: Global, kind: u32, value: u32, activations: u32) -> Result<Event, NoMemory>
    ensures event { IfOk result (λ event. event ≡ event_of kind value activations) }
    ensures named { IfOk result IsNamed }
{
    if kind < 30 {
        append(alloc, value, activations)
    } else if kind < 70 {
        Ok(Event::Flow {
            most: 1 + value % 12,
        })
    } else if kind < 78 {
        Ok(Event::Deliver {
            message: u64::from(value % 1000),
        })
    } else if kind < 82 {
        let name = reader_name(alloc)?;
        Ok(Event::Poll { name })
    } else if kind < 89 {
        sequencer_event(alloc, kind, value, activations)
    } else {
        Ok(node_event(kind, node_of(value)))
    }
}

/// The latest sequencer appends the four bytes of the value, the highest first.
fn append(alloc: Global, value: u32, activations: u32) -> Result<Event, NoMemory>
    ensures event { IfOk result (λ event. event ≡ Append (sequencer_name (activations - 1)) (to_be_bytes w32 value)) }
    ensures named { IfOk result IsNamed }
{
    let name = sequencer_name(alloc, activations.saturating_sub(1))?;
    let bytes = Vec::from_slice(alloc, &value.to_be_bytes())?;
    Ok(Event::Append {
        name,
        payload: Payload::new(bytes),
    })
}

/// What the latest sequencer does, or the activation of the next one.
fn sequencer_event(
    alloc: Global,
    kind: u32,
    value: u32,
    activations: u32,
) -> Result<Event, NoMemory>
    ensures event { IfOk result (λ event. event ≡ sequencer_event kind value activations) }
    ensures named { IfOk result IsNamed }
{
    if kind < 85 {
        let name = sequencer_name(alloc, activations.saturating_sub(1))?;
        Ok(Event::Retry { name })
    } else if kind < 87 {
        let name = sequencer_name(alloc, activations.saturating_sub(1))?;
        Ok(Event::Trim {
            name,
            point: Lsn::new(activations, value % 8),
        })
    } else {
        let name = sequencer_name(alloc, activations)?;
        Ok(Event::Activate {
            name,
            log: the_log(),
        })
    }
}

/// What happens to the node.
fn node_event(kind: u32, node: NodeId) -> Event
    requires { IsNode node }
    ensures event { result ≡ node_event kind node }
    ensures named { IsNamed result }
{
    if kind < 91 {
        Event::Down { node }
    } else if kind < 95 {
        Event::Up { node }
    } else if kind < 96 {
        Event::Wipe { node }
    } else if kind < 98 {
        Event::Format { node }
    } else {
        Event::Tick {
            node,
            log: the_log(),
        }
    }
}
