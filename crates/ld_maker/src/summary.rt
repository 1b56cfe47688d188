// The summary of a run.
ghost use Rattle.std.specs.Prelude.{◌≡◌, ◌++◌, IfOk, OnOk};
ghost use Rattle.ld_maker.specs.Tally.{counted, summary};

use crate::tally::Tally;
use itoa::Buffer;
use ld_ids::NoMemory;
use std::alloc::Global;

/// The one line of the summary, with the byte 10 that ends it: how many events there were, and then the counts of the
/// lines, each behind its word.
pub fn summary_line(alloc: Global, events: u64, tally: &Tally) -> Result<Vec<u8>, NoMemory>
    ensures { IfOk result (λ line. line.items ≡ summary events tally.now) }
{
    let mut line = Vec::new(alloc);
    count(&mut line, b"events ", u128::from(events))?;
    count(&mut line, b" appended ", tally.appended)?;
    count(&mut line, b" acked ", tally.acked)?;
    count(&mut line, b" record ", tally.records)?;
    count(&mut line, b" trim ", tally.trims)?;
    count(&mut line, b" hole ", tally.holes)?;
    count(&mut line, b" bridge ", tally.bridges)?;
    count(&mut line, b" dataloss ", tally.data_losses)?;
    line.push(b'\n')?;
    Ok(line)
}

/// Adds a word and its count. Without memory a part of it may be there.
fn count(line: &mut Vec<u8>, word: &[u8], count: u128) -> Result<(), NoMemory>
    ensures { OnOk result (line.new.items ≡ line.old.items ++ counted word.now count) }
{
    let mut digits = Buffer::new();
    line.extend_from_slice(word)?;
    line.extend_from_slice(digits.format(count).as_bytes())?;
    Ok(())
}
