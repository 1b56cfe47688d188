// What a made schedule begins with.
ghost use Rattle.std.specs.Prelude.{◌≡◌, IfOk};
ghost use Rattle.ld_config.specs.Bounds.{IsInBounds};
ghost use Rattle.ld_schedule.specs.declared.event.Event.TheVariants.{Format};
ghost use Rattle.ld_maker.specs.Event.{node_of};
ghost use Rattle.ld_maker.specs.Made.{five_nodes, made_config, first_activation, opening, first_events};

use crate::named::{node_of, reader_name, sequencer_name, the_log};
use ld_config::{Config, Specs};
use ld_ids::{NoMemory, NodeSet, Spec};
use ld_lsn::Lsn;
use ld_schedule::Event;
use std::alloc::Global;

/// The configuration: the nodes 1 to 5, and one log, number 1, on all of them, whose records are stored three times and
/// whose stores ask one node more.
#[tactic(auto, using(crate::proofs::Bounds::made_in_bounds))]
pub fn configuration(alloc: Global) -> Result<Config, NoMemory>
    ensures config { IfOk result (λ config. config ≡ made_config) }
    ensures bounds { IfOk result IsInBounds }
{
    let nodes = five_nodes();
    let mut logs = Specs::new(alloc);
    logs.push(Spec {
        log: the_log(),
        set: nodes,
        r: 3,
        extras: 1,
    })?;
    Ok(Config { nodes, logs })
}

/// The nodes 1 to 5.
fn five_nodes() -> NodeSet
    ensures { result ≡ five_nodes }
{
    NodeSet::empty()
        .with(node_of(0))
        .with(node_of(1))
        .with(node_of(2))
        .with(node_of(3))
        .with(node_of(4))
}

/// The first seven events: each node is formatted, and the first sequencer and the one reader begin. The reader reads
/// all numbers from the first to the last.
pub fn first_events(alloc: Global) -> Result<Vec<Event>, NoMemory>
    ensures events { IfOk result (λ events. events.items ≡ first_events) }
{
    let mut events = Vec::new(alloc);
    events.push(format(0))?;
    events.push(format(1))?;
    events.push(format(2))?;
    events.push(format(3))?;
    events.push(format(4))?;
    events.push(first_activation(alloc)?)?;
    events.push(opening(alloc)?)?;
    Ok(events)
}

/// The node that this value names is formatted.
fn format(value: u32) -> Event
    ensures { result ≡ Format (node_of value) }
{
    Event::Format {
        node: node_of(value),
    }
}

/// The first sequencer is activated.
fn first_activation(alloc: Global) -> Result<Event, NoMemory>
    ensures { IfOk result (λ event. event ≡ first_activation) }
{
    let name = sequencer_name(alloc, 0)?;
    Ok(Event::Activate {
        name,
        log: the_log(),
    })
}

/// The one reader begins.
fn opening(alloc: Global) -> Result<Event, NoMemory>
    ensures { IfOk result (λ event. event ≡ opening) }
{
    let name = reader_name(alloc)?;
    Ok(Event::Open {
        name,
        log: the_log(),
        from: Lsn::new(0, 1),
        until: Lsn::new(u32::MAX, u32::MAX),
    })
}
