// The input, an event at a time.
ghost use Rattle.std.specs.Prelude.{◌≡◌, ◌+◌, ◌≤◌, List, ℕ, length, IfOk, IfErr, IfSome};
ghost use Rattle.std.specs.Io.KnownBytes.{prepend_known};
ghost use Rattle.ld_config.specs.Bounds.{IsInBounds};
ghost use Rattle.ld_io.specs.Input.{left_in};
ghost use Rattle.ld_cli.specs.Input.{budget};
ghost use Rattle.ld_cli.specs.NextEvent.{TakesFirst, OnFirst, AllowsFirst, TakesNext, OnTaken};
ghost use Rattle.ld_cli.specs.Causes.{IsReadStop};

use crate::input::Buffer;
use crate::lines::{Ending, LONGEST, next_line};
use crate::status::Stop;
use ld_config::{Config, ConfigFault};
use ld_io::Source;
use ld_schedule::{Event, LineFault, parse_line};
use std::alloc::Global;

/// What the first line of the input is.
pub enum First {
    /// The line of a configuration.
    Taken { config: Config },
    /// Another one, and the byte offset of its syntax error.
    Off { place: u64 },
}

/// What comes next in the input.
pub enum Next {
    /// The line of an event.
    Taken { event: Event },
    /// The end of the input.
    End,
    /// Another line, and the byte offset of its syntax error.
    Off { place: u64 },
}

/// Takes the first line.
pub fn begin<I: Source>(
    alloc: Global,
    buffer: &mut Buffer,
    input: &mut I,
    line: &mut Vec<u8>,
) -> Result<First, Stop>
    ensures taken { (all : List ℕ) → I.may_be input.new all → IfOk result (TakesFirst (prepend_known buffer.old (left_in all (I.gave input.old))) (prepend_known buffer.new (left_in all (I.gave input.new)))) }
    ensures fed { (all : List ℕ) → I.may_be input.new all → I.may_be input.old all }
    ensures bounds { IfOk result (AllowsFirst IsInBounds) }
    ensures budget { IfOk result (OnFirst (budget buffer.new (length (I.gave input.new)) + 1 ≤ budget buffer.old (length (I.gave input.old)))) }
    ensures later { I.faults input.old ≤ I.faults input.new }
    ensures cause { IfErr result (IsReadStop (I.faults input.old) (I.faults input.new)) }
{
    match next_line(buffer, input, line)? {
        Ending::Line => {}
        Ending::End => return Ok(First::Off { place: 0 }),
        Ending::Cut => {
            return Ok(First::Off {
                place: line.len() as u64,
            });
        }
        Ending::Long => {
            return Ok(First::Off {
                place: LONGEST as u64,
            });
        }
    }
    match Config::read(alloc, line) {
        Ok(config) => Ok(First::Taken { config }),
        Err(fault) => {
            if fault == ConfigFault::NoMemory {
                Err(Stop::NoMemory)
            } else {
                Ok(First::Off { place: 0 })
            }
        }
    }
}

/// Takes the next line.
pub fn next_event<I: Source>(
    alloc: Global,
    buffer: &mut Buffer,
    input: &mut I,
    line: &mut Vec<u8>,
) -> Result<Next, Stop>
    ensures taken { (all : List ℕ) → I.may_be input.new all → IfOk result (TakesNext (prepend_known buffer.old (left_in all (I.gave input.old))) (prepend_known buffer.new (left_in all (I.gave input.new)))) }
    ensures fed { (all : List ℕ) → I.may_be input.new all → I.may_be input.old all }
    ensures budget { IfOk result (OnTaken (budget buffer.new (length (I.gave input.new)) + 1 ≤ budget buffer.old (length (I.gave input.old)))) }
    ensures later { I.faults input.old ≤ I.faults input.new }
    ensures cause { IfErr result (IsReadStop (I.faults input.old) (I.faults input.new)) }
{
    match next_line(buffer, input, line)? {
        Ending::Line => {}
        Ending::End => return Ok(Next::End),
        Ending::Cut => {
            return Ok(Next::Off {
                place: line.len() as u64,
            });
        }
        Ending::Long => {
            return Ok(Next::Off {
                place: LONGEST as u64,
            });
        }
    }
    match parse_line(alloc, line) {
        Ok(event) => Ok(Next::Taken { event }),
        Err(fault) => match fault {
            LineFault::Bad { place } => Ok(Next::Off {
                place: place as u64,
            }),
            LineFault::NoMemory => Err(Stop::NoMemory),
        },
    }
}
