// Reads one line.
ghost use Rattle.std.specs.Prelude.{◌≡◌, ◌≢◌, List, ℕ, Option};
ghost use Rattle.ld_schedule.specs.Reading.{IsRead};
ghost use Rattle.ld_schedule.specs.Grammar.{IsNamed, event_text};

use crate::event::Event;
use crate::fault::LineFault;
use crate::form::{CountForm, Form, NameForm, NodeForm, read};
use std::alloc::Global;

/// The words that a line can begin with.
const FORMS: [Form; 24] = [
    Form::Node(NodeForm::Format),
    Form::Name(NameForm::Activate),
    Form::Name(NameForm::Append),
    Form::Name(NameForm::Trim),
    Form::Name(NameForm::Retry),
    Form::Name(NameForm::Drop),
    Form::Count(CountForm::Deliver),
    Form::Count(CountForm::Lose),
    Form::Count(CountForm::Flow),
    Form::Name(NameForm::Open),
    Form::Name(NameForm::Poll),
    Form::Node(NodeForm::Tick),
    Form::Node(NodeForm::Down),
    Form::Node(NodeForm::Up),
    Form::Node(NodeForm::Wipe),
    Form::Node(NodeForm::Fail),
    Form::Node(NodeForm::Tear),
    Form::Count(CountForm::Set),
    Form::Node(NodeForm::Replace),
    Form::Count(CountForm::RegFail),
    Form::Name(NameForm::Batch),
    Form::Name(NameForm::OpenOne),
    Form::Name(NameForm::OpenMessages),
    Form::Calm,
];

/// The event that a line spells, without the byte 10 that ends it. A line that spells none is
/// `Bad` at the length of its longest prefix with which the line of some event begins.
pub fn parse_line(alloc: Global, line: &[u8]) -> Result<Event, LineFault>
    ensures { IsRead IsNamed event_text line.now result }
{
    let mut furthest = LineFault::Bad { place: 0 };
    for form in &FORMS {
        match read(*form, alloc, line) {
            Ok(event) => return Ok(event),
            Err(fault) => furthest = furthest.furthest(fault),
        }
    }
    Err(furthest)
}
