// The lines of what a look shows. Each is added at the end of the text, where wanted as a JSON object.
ghost use Rattle.std.specs.Prelude.{◌≡◌, ◌++◌, OnOk};
ghost use Rattle.ld_operate.specs.Shown.{log_line, epoch_line, set_text, close_text, yes_or_no, true_or_false};

use crate::members::{first_member, lsn_member, member, nodes_member, plain_member};
use crate::parts::{labelled, labelled_lsn, nodes, word};
use ld_ids::{LogId, NoMemory, Spec};
use ld_lsn::Lsn;
use ld_msg::Summary;
use ld_register::View;

/// The line of a log: its epoch, its last closed one, and how many swaps there were.
#[tactic(auto, unfolding(crate::specs::Shown::log_line))]
pub(crate) fn log_line(
    out: &mut Vec<u8>,
    json: bool,
    log: LogId,
    view: &View,
) -> Result<(), NoMemory>
    ensures { OnOk result (out.new.items ≡ out.old.items ++ log_line json log view.now) }
{
    if json {
        first_member(out, b"log", log.number())?;
        member(out, b"epoch", view.epoch)?;
        member(out, b"closed", view.lce)?;
        member(out, b"swaps", view.swaps)?;
        return word(out, b"}\n");
    }
    labelled(out, b"log ", log.number())?;
    labelled(out, b" epoch ", view.epoch)?;
    labelled(out, b" closed ", view.lce)?;
    labelled(out, b" swaps ", view.swaps)?;
    word(out, b"\n")
}

/// The line of an epoch that was looked at.
#[tactic(auto, unfolding(crate::specs::Shown::epoch_line))]
pub(crate) fn epoch_line(
    out: &mut Vec<u8>,
    json: bool,
    epoch: u32,
    view: &View,
) -> Result<(), NoMemory>
    ensures { OnOk result (out.new.items ≡ out.old.items ++ epoch_line json epoch view.now) }
{
    if json {
        first_member(out, b"epoch", epoch)?;
        set(out, true, &view.spec)?;
        close(out, true, epoch, &view.summary)?;
        return word(out, b"}\n");
    }
    labelled(out, b"epoch ", epoch)?;
    set(out, false, &view.spec)?;
    close(out, false, epoch, &view.summary)?;
    word(out, b"\n")
}

/// The nodes, factor and extras of an epoch, where they are fixed.
#[tactic(auto, unfolding(crate::specs::Shown::set_text))]
fn set(out: &mut Vec<u8>, json: bool, fixed: &Option<Spec>) -> Result<(), NoMemory>
    ensures { OnOk result (out.new.items ≡ out.old.items ++ set_text json fixed.now) }
{
    let Some(spec) = fixed else {
        return if json {
            plain_member(out, b"set", b"null")
        } else {
            word(out, b" set none")
        };
    };
    if json {
        nodes_member(out, b"set", &spec.set)?;
        member(out, b"r", u32::from(spec.r))?;
        return member(out, b"extras", u32::from(spec.extras));
    }
    word(out, b" set ")?;
    nodes(out, &spec.set)?;
    labelled(out, b" r ", u32::from(spec.r))?;
    labelled(out, b" extras ", u32::from(spec.extras))
}

/// How an epoch was closed, where it is.
#[tactic(auto, unfolding(crate::specs::Shown::close_text))]
fn close(
    out: &mut Vec<u8>,
    json: bool,
    epoch: u32,
    closed: &Option<Summary>,
) -> Result<(), NoMemory>
    ensures { OnOk result (out.new.items ≡ out.old.items ++ close_text json epoch closed.now) }
{
    let Some(summary) = closed else {
        return if json {
            plain_member(out, b"closed", b"null")
        } else {
            word(out, b" open")
        };
    };
    if json {
        lsn_member(out, b"closed", Lsn::new(epoch, summary.end))?;
        member(out, b"by", summary.ballot)?;
        member(out, b"good", summary.lng)?;
        lsn_member(out, b"trim", summary.trim)?;
        return plain_member(out, b"loss", true_or_false(summary.loss));
    }
    labelled_lsn(out, b" closed ", Lsn::new(epoch, summary.end))?;
    labelled(out, b" by ", summary.ballot)?;
    labelled(out, b" good ", summary.lng)?;
    labelled_lsn(out, b" trim ", summary.trim)?;
    word(out, b" loss ")?;
    word(out, yes_or_no(summary.loss))
}

fn yes_or_no(is: bool) -> &'static [u8]
    ensures { result.now ≡ yes_or_no is }
{
    if is { b"yes" } else { b"no" }
}

fn true_or_false(is: bool) -> &'static [u8]
    ensures { result.now ≡ true_or_false is }
{
    if is { b"true" } else { b"false" }
}
