// The lines of what a node answers. Each is added at the end of the text, where wanted as a JSON object.
ghost use Rattle.std.specs.Prelude.{◌≡◌, ◌++◌, true, false, OnOk};
ghost use Rattle.ld_msg.specs.Reading.{trim_told};
ghost use Rattle.ld_operate.specs.Asked.{points_line, state_line, silent_line, state_text, released_told};

use crate::members::{first_member, lsn_member, member, word_member};
use crate::parts::{labelled, labelled_lsn, word};
use ld_ids::{NoMemory, NodeId};
use ld_lsn::Lsn;
use ld_msg::Body;

/// The trim point that an answer tells, and 0 where it tells none.
pub(crate) fn trim_told(answer: &Body) -> Lsn
    ensures { result ≡ trim_told answer.now }
{
    match answer {
        Body::ReadTrim { trim, .. } => *trim,
        _ => Lsn::from_u64(0),
    }
}

/// The released number that an answer tells, and 0 where it tells none.
fn released_told(answer: &Body) -> Lsn
    ensures { result ≡ released_told answer.now }
{
    match answer {
        Body::ReadWait { released, .. } => *released,
        _ => Lsn::from_u64(0),
    }
}

/// The line of a node's trim point and released number, by its answers to an ask from the first number on and to one from a
/// number above all epochs.
#[tactic(auto, unfolding(crate::specs::Asked::points_line))]
pub(crate) fn points_line(
    out: &mut Vec<u8>,
    json: bool,
    node: NodeId,
    first: &Body,
    second: &Body,
) -> Result<(), NoMemory>
    ensures { OnOk result (out.new.items ≡ out.old.items ++ points_line json node first.now second.now) }
{
    if json {
        first_member(out, b"node", u32::from(node.number()))?;
        lsn_member(out, b"trim", trim_told(first))?;
        lsn_member(out, b"released", released_told(second))?;
        return word(out, b"}\n");
    }
    labelled(out, b"node ", u32::from(node.number()))?;
    labelled_lsn(out, b" trim ", trim_told(first))?;
    labelled_lsn(out, b" released ", released_told(second))?;
    word(out, b"\n")
}

/// The line of how an epoch stands at a node, by its answer to an ask for the last number of the epoch.
#[tactic(auto, unfolding(crate::specs::Asked::state_line))]
pub(crate) fn state_line(
    out: &mut Vec<u8>,
    json: bool,
    node: NodeId,
    epoch: u32,
    answer: &Body,
) -> Result<(), NoMemory>
    ensures { OnOk result (out.new.items ≡ out.old.items ++ state_line json node epoch answer.now) }
{
    if json {
        first_member(out, b"node", u32::from(node.number()))?;
        member(out, b"epoch", epoch)?;
        state_members(out, answer)?;
        return word(out, b"}\n");
    }
    labelled(out, b"node ", u32::from(node.number()))?;
    labelled(out, b" epoch ", epoch)?;
    state(out, answer)?;
    word(out, b"\n")
}

/// How an epoch stands at a node.
#[tactic(auto, unfolding(crate::specs::Asked::state_text))]
fn state(out: &mut Vec<u8>, answer: &Body) -> Result<(), NoMemory>
    ensures { OnOk result (out.new.items ≡ out.old.items ++ state_text false answer.now) }
{
    match answer {
        Body::ReadEnded { end, .. } => labelled_lsn(out, b" clean ", *end),
        Body::LostHere { generation, .. } => labelled(out, b" lost ", *generation),
        Body::ReadTrim { .. } => word(out, b" trimmed"),
        _ => word(out, b" open"),
    }
}

/// The same as members of an object.
#[tactic(auto, unfolding(crate::specs::Asked::state_text))]
fn state_members(out: &mut Vec<u8>, answer: &Body) -> Result<(), NoMemory>
    ensures { OnOk result (out.new.items ≡ out.old.items ++ state_text true answer.now) }
{
    match answer {
        Body::ReadEnded { end, .. } => {
            word_member(out, b"state", b"clean")?;
            lsn_member(out, b"end", *end)
        }
        Body::LostHere { generation, .. } => {
            word_member(out, b"state", b"lost")?;
            member(out, b"generation", *generation)
        }
        Body::ReadTrim { .. } => word_member(out, b"state", b"trimmed"),
        _ => word_member(out, b"state", b"open"),
    }
}

/// The line of a node that is silent.
#[tactic(auto, unfolding(crate::specs::Asked::silent_line))]
pub(crate) fn silent_line(out: &mut Vec<u8>, json: bool, node: NodeId) -> Result<(), NoMemory>
    ensures { OnOk result (out.new.items ≡ out.old.items ++ silent_line json node) }
{
    if json {
        first_member(out, b"node", u32::from(node.number()))?;
        word_member(out, b"state", b"silent")?;
        return word(out, b"}\n");
    }
    labelled(out, b"node ", u32::from(node.number()))?;
    word(out, b" silent\n")
}
