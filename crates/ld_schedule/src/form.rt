// The forms of a line, by its first word.
ghost use Rattle.std.specs.Prelude.{◌≡◌};
ghost use Rattle.ld_schedule.specs.Reading.{IsRead};
ghost use Rattle.ld_schedule.specs.Grammar.{event_text};
ghost use Rattle.ld_schedule.specs.declared.form.Form.TheVariants as forms;
ghost use Rattle.ld_schedule.specs.Form.{IsOfForm};

use crate::digits::Done;
use crate::event::{Event, Picture};
use crate::fault::LineFault;
use crate::field::{behind, common};
use crate::nodes::{Extras, Factor};
use crate::words::{Count, Place};
use ld_batch::Messages;
use ld_ids::{LogId, Name, NodeId, NodeSet, Payload};
use ld_lsn::Lsn;
use ld_lsn::text::same;
use std::alloc::Global;

/// The first word of a line that names a node.
#[derive(Clone, Copy)]
pub enum NodeForm {
    Format,
    Tick,
    Down,
    Up,
    Wipe,
    Fail,
    Tear,
    Replace,
}

/// The first word of a line that names a sequencer or a reader.
#[derive(Clone, Copy)]
pub enum NameForm {
    Activate,
    Append,
    Trim,
    Retry,
    Drop,
    Open,
    Poll,
    Batch,
    OpenOne,
    OpenMessages,
}

/// The first word of a line that begins with the place of a message, a count or a log.
#[derive(Clone, Copy)]
pub enum CountForm {
    Deliver,
    Lose,
    Flow,
    Set,
    RegFail,
}

/// The first word of a line.
#[derive(Clone, Copy)]
pub enum Form {
    Node(NodeForm),
    Name(NameForm),
    Count(CountForm),
    Calm,
}

/// The event of this form that the line spells, or how far the line goes with the form.
pub fn read(form: Form, alloc: Global, line: &[u8]) -> Result<Event, LineFault>
    ensures { IsRead (IsOfForm form) event_text line.now result }
{
    match form {
        Form::Node(form) => read_of_node(form, alloc, line),
        Form::Name(form) => read_of_name(form, alloc, line),
        Form::Count(form) => read_of_count(form, alloc, line),
        Form::Calm => read_calm(line),
    }
}

/// The event of this form, of a node.
fn read_of_node(form: NodeForm, alloc: Global, line: &[u8]) -> Result<Event, LineFault>
    ensures { IsRead (IsOfForm (forms.Node form)) event_text line.now result }
{
    match form {
        NodeForm::Format => match behind::<NodeId>(alloc, line, b"format ") {
            Ok(node) => Ok(Event::Format { node }),
            Err(fault) => Err(fault),
        },
        NodeForm::Tick => match behind::<(NodeId, LogId)>(alloc, line, b"tick ") {
            Ok((node, log)) => Ok(Event::Tick { node, log }),
            Err(fault) => Err(fault),
        },
        NodeForm::Down => match behind::<NodeId>(alloc, line, b"down ") {
            Ok(node) => Ok(Event::Down { node }),
            Err(fault) => Err(fault),
        },
        NodeForm::Up => match behind::<NodeId>(alloc, line, b"up ") {
            Ok(node) => Ok(Event::Up { node }),
            Err(fault) => Err(fault),
        },
        NodeForm::Wipe => match behind::<NodeId>(alloc, line, b"wipe ") {
            Ok(node) => Ok(Event::Wipe { node }),
            Err(fault) => Err(fault),
        },
        NodeForm::Fail => match behind::<(NodeId, Count)>(alloc, line, b"fail ") {
            Ok((node, call)) => Ok(Event::Fail {
                node,
                call: call.count,
            }),
            Err(fault) => Err(fault),
        },
        NodeForm::Tear => match behind::<(NodeId, (Count, Picture))>(alloc, line, b"tear ") {
            Ok((node, (call, picture))) => Ok(Event::Tear {
                node,
                call: call.count,
                picture,
            }),
            Err(fault) => Err(fault),
        },
        NodeForm::Replace => match behind::<(NodeId, (NodeId, LogId))>(alloc, line, b"replace ") {
            Ok((node, (other, log))) => Ok(Event::Replace { node, other, log }),
            Err(fault) => Err(fault),
        },
    }
}

/// The event of this form, of a sequencer or a reader.
fn read_of_name(form: NameForm, alloc: Global, line: &[u8]) -> Result<Event, LineFault>
    ensures { IsRead (IsOfForm (forms.Name form)) event_text line.now result }
{
    match form {
        NameForm::Activate => match behind::<(Name, LogId)>(alloc, line, b"activate ") {
            Ok((name, log)) => Ok(Event::Activate { name, log }),
            Err(fault) => Err(fault),
        },
        NameForm::Append => match behind::<(Name, Payload)>(alloc, line, b"append ") {
            Ok((name, payload)) => Ok(Event::Append { name, payload }),
            Err(fault) => Err(fault),
        },
        NameForm::Trim => match behind::<(Name, Lsn)>(alloc, line, b"trim ") {
            Ok((name, point)) => Ok(Event::Trim { name, point }),
            Err(fault) => Err(fault),
        },
        NameForm::Retry => match behind::<Name>(alloc, line, b"retry ") {
            Ok(name) => Ok(Event::Retry { name }),
            Err(fault) => Err(fault),
        },
        NameForm::Drop => match behind::<Name>(alloc, line, b"drop ") {
            Ok(name) => Ok(Event::Drop { name }),
            Err(fault) => Err(fault),
        },
        NameForm::Open => match behind::<(Name, (LogId, (Lsn, Lsn)))>(alloc, line, b"open ") {
            Ok((name, (log, (from, until)))) => Ok(Event::Open {
                name,
                log,
                from,
                until,
            }),
            Err(fault) => Err(fault),
        },
        NameForm::Poll => match behind::<Name>(alloc, line, b"poll ") {
            Ok(name) => Ok(Event::Poll { name }),
            Err(fault) => Err(fault),
        },
        NameForm::Batch => match behind::<(Name, Messages)>(alloc, line, b"batch ") {
            Ok((name, messages)) => Ok(Event::Batch { name, messages }),
            Err(fault) => Err(fault),
        },
        NameForm::OpenOne => match behind::<(Name, (LogId, (Lsn, Lsn)))>(alloc, line, b"openone ") {
            Ok((name, (log, (from, until)))) => Ok(Event::OpenOne {
                name,
                log,
                from,
                until,
            }),
            Err(fault) => Err(fault),
        },
        NameForm::OpenMessages => match behind::<(Name, (LogId, (Lsn, Lsn)))>(
            alloc,
            line,
            b"openmsgs ",
        ) {
            Ok((name, (log, (from, until)))) => Ok(Event::OpenMessages {
                name,
                log,
                from,
                until,
            }),
            Err(fault) => Err(fault),
        },
    }
}

/// The event of this form, of messages, a log or the register.
fn read_of_count(form: CountForm, alloc: Global, line: &[u8]) -> Result<Event, LineFault>
    ensures { IsRead (IsOfForm (forms.Count form)) event_text line.now result }
{
    match form {
        CountForm::Deliver => match behind::<Place>(alloc, line, b"deliver ") {
            Ok(place) => Ok(Event::Deliver {
                message: place.message,
            }),
            Err(fault) => Err(fault),
        },
        CountForm::Lose => match behind::<Place>(alloc, line, b"lose ") {
            Ok(place) => Ok(Event::Lose {
                message: place.message,
            }),
            Err(fault) => Err(fault),
        },
        CountForm::Flow => match behind::<Count>(alloc, line, b"flow ") {
            Ok(most) => Ok(Event::Flow { most: most.count }),
            Err(fault) => Err(fault),
        },
        CountForm::Set => match behind::<(LogId, (Factor, (Extras, NodeSet)))>(
            alloc, line, b"set ",
        ) {
            Ok((log, (factor, (extras, set)))) => Ok(Event::Set {
                log,
                r: factor.r,
                extras: extras.extras,
                set,
            }),
            Err(fault) => Err(fault),
        },
        CountForm::RegFail => match behind::<(Count, Done)>(alloc, line, b"regfail ") {
            Ok((call, done)) => Ok(Event::RegFail {
                call: call.count,
                done: done.done,
            }),
            Err(fault) => Err(fault),
        },
    }
}

/// The event whose line is its word alone.
fn read_calm(line: &[u8]) -> Result<Event, LineFault>
    ensures { IsRead (IsOfForm forms.Calm) event_text line.now result }
{
    if same(line, b"calm") {
        return Ok(Event::Calm);
    }
    Err(LineFault::Bad {
        place: common(line, b"calm"),
    })
}
