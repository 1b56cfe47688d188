// The lines of nodes.
ghost use Rattle.std.specs.Prelude.{◌≡◌, ◌++◌, ◌∷◌, [], IfOk, OnOk};
ghost use Rattle.ld_host.specs.Done.{shown_kept};
ghost use Rattle.ld_machine.specs.Step.{kept_lines, lost_line};
ghost use Rattle.ld_cluster.specs.Formats.{epoch_among, drawn_lines};

use ld_config::Config;
use ld_host::Kept;
use ld_ids::{LogId, NoMemory, NodeId, Spec};
use ld_op::Epochs;
use ld_register::Drawn;
use ld_transcript::Line;
use std::alloc::Global;

/// One line.
pub(crate) fn one_line(alloc: Global, line: Line) -> Result<Vec<Line>, NoMemory>
    ensures { IfOk result (λ lines. lines.items ≡ line ∷ []) }
{
    let mut lines = Vec::new(alloc);
    lines.push(line)?;
    Ok(lines)
}

/// The line of a record that wasn't kept, and the given ones of one that was.
pub(crate) fn kept(
    alloc: Global,
    node: NodeId,
    end: Kept,
    written: Vec<Line>,
) -> Result<Vec<Line>, NoMemory>
    ensures { IfOk result (λ lines. lines.items ≡ kept_lines node written.items (shown_kept end)) }
{
    match end {
        Kept::Written => Ok(written),
        Kept::Failed => {
            let lines = one_line(alloc, Line::NodeFailed { node })?;
            Ok(lines)
        }
        Kept::Crashed => {
            let lines = one_line(alloc, Line::NodeDown { node })?;
            Ok(lines)
        }
        Kept::Full => {
            let lines = one_line(alloc, Line::NodeFull { node })?;
            Ok(lines)
        }
    }
}

/// The lines of a formatted node: its generation, and the logs for which it is lost.
pub(crate) fn format_lines(
    alloc: Global,
    config: &Config,
    node: NodeId,
    drawn: &Drawn,
) -> Result<Vec<Line>, NoMemory>
    ensures { IfOk result (λ lines. lines.items ≡ drawn_lines config.now node drawn.now) }
{
    let mut lines = Vec::new(alloc);
    lines.push(Line::NodeFormatted {
        node,
        generation: drawn.gen_,
    })?;
    let specs = config.logs.as_slice();
    for spec in specs {
        add_lost(node, &drawn.epochs, spec, &mut lines)?;
    }
    Ok(lines)
}

/// Adds the line of a log for which the node is lost, where it is.
fn add_lost(
    node: NodeId,
    epochs: &Epochs,
    spec: &Spec,
    lines: &mut Vec<Line>,
) -> Result<(), NoMemory>
    ensures { OnOk result (lines.new.items ≡ lines.old.items ++ lost_line node (epoch_among spec.now.log epochs.now) spec.now) }
{
    let epoch = epoch_in(epochs, spec.log);
    if 0 < epoch {
        lines.push(Line::NodeLost {
            node,
            log: spec.log,
            epoch,
        })?;
    }
    Ok(())
}

/// The epoch of the log, 0 where it has none.
fn epoch_in(epochs: &Epochs, log: LogId) -> u32
    ensures { result ≡ epoch_among log epochs.now }
{
    for (other, epoch) in epochs.as_slice() {
        if *other == log {
            return *epoch;
        }
    }
    0
}
