// Copies of events.
ghost use Rattle.std.specs.Prelude.{◌≡◌, IfOk};

use ld_ids::NoMemory;
use ld_schedule::Event;
use std::alloc::Global;

/// The same event once more.
pub fn copy_of(alloc: Global, event: &Event) -> Result<Event, NoMemory>
    ensures { IfOk result (λ copy. copy ≡ event.now) }
{
    match event {
        Event::Format { node } => Ok(Event::Format { node: *node }),
        Event::Activate { name, log } => Ok(Event::Activate {
            name: name.copy(alloc)?,
            log: *log,
        }),
        Event::Append { name, payload } => Ok(Event::Append {
            name: name.copy(alloc)?,
            payload: payload.copy(alloc)?,
        }),
        Event::Batch { name, messages } => Ok(Event::Batch {
            name: name.copy(alloc)?,
            messages: messages.copy(alloc)?,
        }),
        Event::Trim { name, point } => Ok(Event::Trim {
            name: name.copy(alloc)?,
            point: *point,
        }),
        Event::Retry { name } => Ok(Event::Retry {
            name: name.copy(alloc)?,
        }),
        Event::Drop { name } => Ok(Event::Drop {
            name: name.copy(alloc)?,
        }),
        Event::Deliver { message } => Ok(Event::Deliver { message: *message }),
        Event::Lose { message } => Ok(Event::Lose { message: *message }),
        Event::Flow { most } => Ok(Event::Flow { most: *most }),
        Event::Calm => Ok(Event::Calm),
        Event::Open {
            name,
            log,
            from,
            until,
        } => Ok(Event::Open {
            name: name.copy(alloc)?,
            log: *log,
            from: *from,
            until: *until,
        }),
        Event::OpenOne {
            name,
            log,
            from,
            until,
        } => Ok(Event::OpenOne {
            name: name.copy(alloc)?,
            log: *log,
            from: *from,
            until: *until,
        }),
        Event::OpenMessages {
            name,
            log,
            from,
            until,
        } => Ok(Event::OpenMessages {
            name: name.copy(alloc)?,
            log: *log,
            from: *from,
            until: *until,
        }),
        Event::Poll { name } => Ok(Event::Poll {
            name: name.copy(alloc)?,
        }),
        Event::Tick { node, log } => Ok(Event::Tick {
            node: *node,
            log: *log,
        }),
        Event::Down { node } => Ok(Event::Down { node: *node }),
        Event::Up { node } => Ok(Event::Up { node: *node }),
        Event::Wipe { node } => Ok(Event::Wipe { node: *node }),
        Event::Fail { node, call } => Ok(Event::Fail {
            node: *node,
            call: *call,
        }),
        Event::Tear {
            node,
            call,
            picture,
        } => Ok(Event::Tear {
            node: *node,
            call: *call,
            picture: *picture,
        }),
        Event::Set {
            log,
            r,
            extras,
            set,
        } => Ok(Event::Set {
            log: *log,
            r: *r,
            extras: *extras,
            set: *set,
        }),
        Event::Replace { node, other, log } => Ok(Event::Replace {
            node: *node,
            other: *other,
            log: *log,
        }),
        Event::RegFail { call, done } => Ok(Event::RegFail {
            call: *call,
            done: *done,
        }),
    }
}
