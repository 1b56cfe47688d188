// The input, a line at a time.
ghost use Rattle.std.specs.Prelude.{◌≡◌, ◌+◌, ◌<◌, ◌≤◌, List, ℕ, length, IfOk, IfErr, MatchResult};
ghost use Rattle.std.specs.Io.KnownBytes.{prepend_known};
ghost use Rattle.ld_io.specs.Causes.{Rose};
ghost use Rattle.ld_io.specs.Input.{left_in};
ghost use Rattle.ld_cli.specs.Input.{budget};
ghost use Rattle.ld_cli.specs.Lines.{TakesLine, OnLine};
ghost use Rattle.ld_cli.specs.declared.status.Stop.TheVariants.{NoMemory, Read};
ghost use Rattle.ld_cli.specs.Causes.{IsReadStop};

use crate::input::Buffer;
use crate::status::Stop;
use ld_io::Source;

/// How many bytes a line has at most, without the byte that ends it.
pub const LONGEST: usize = 200_000;

/// How a line ends.
#[derive(Clone, Copy)]
pub enum Ending {
    /// With the byte that ends a line.
    Line,
    /// There is no further line.
    End,
    /// The input ends in it.
    Cut,
    /// It goes on where it has to have ended.
    Long,
}

/// Takes the next line of the input, or as much of it as there may be.
pub fn next_line<I: Source>(
    buffer: &mut Buffer,
    input: &mut I,
    line: &mut Vec<u8>,
) -> Result<Ending, Stop>
    ensures taken { (all : List ℕ) → I.may_be input.new all → IfOk result (TakesLine (prepend_known buffer.old (left_in all (I.gave input.old))) (prepend_known buffer.new (left_in all (I.gave input.new))) line.new.items) }
    ensures fed { (all : List ℕ) → I.may_be input.new all → I.may_be input.old all }
    ensures steady { I.known input.new ≡ I.known input.old }
    ensures budget { IfOk result (OnLine (budget buffer.new (length (I.gave input.new)) + 1 ≤ budget buffer.old (length (I.gave input.old)))) }
    ensures later { I.faults input.old ≤ I.faults input.new }
    ensures cause { IfErr result (IsReadStop (I.faults input.old) (I.faults input.new)) }
{
    line.clear();
    for _ in 0..LONGEST + 1 {
        let Ok(found) = buffer.next_byte(input) else {
            return Err(Stop::Read);
        };
        match found {
            Some(b'\n') => return Ok(Ending::Line),
            Some(byte) => line.push(byte)?,
            None if line.is_empty() => return Ok(Ending::End),
            None => return Ok(Ending::Cut),
        }
    }
    Ok(Ending::Long)
}
