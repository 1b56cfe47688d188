// The members of a JSON object. Each is added at the end of the text.
ghost use Rattle.std.specs.Prelude.{◌≡◌, ◌++◌, OnOk};
ghost use Rattle.ld_ids.specs.Set.{members};
ghost use Rattle.ld_operate.specs.Members.{first_member, member, lsn_member, numbers_member, word_member, plain_member};

use crate::parts::{lsn, nodes, number, word};
use ld_ids::{NoMemory, NodeSet};
use ld_lsn::Lsn;

/// Begins an object, with a number.
#[tactic(auto, unfolding(crate::specs::Members::first_member))]
pub(crate) fn first_member(out: &mut Vec<u8>, name: &[u8], value: u32) -> Result<(), NoMemory>
    ensures { OnOk result (out.new.items ≡ out.old.items ++ first_member name.now value) }
{
    word(out, b"{\"")?;
    word(out, name)?;
    word(out, b"\":")?;
    number(out, value)
}

/// Adds a number.
#[tactic(auto, unfolding(crate::specs::Members::member))]
pub(crate) fn member(out: &mut Vec<u8>, name: &[u8], value: u32) -> Result<(), NoMemory>
    ensures { OnOk result (out.new.items ≡ out.old.items ++ member name.now value) }
{
    word(out, b",\"")?;
    word(out, name)?;
    word(out, b"\":")?;
    number(out, value)
}

/// Adds a log sequence number, as a string.
#[tactic(auto, unfolding(crate::specs::Members::lsn_member))]
pub(crate) fn lsn_member(out: &mut Vec<u8>, name: &[u8], value: Lsn) -> Result<(), NoMemory>
    ensures { OnOk result (out.new.items ≡ out.old.items ++ lsn_member name.now value) }
{
    word(out, b",\"")?;
    word(out, name)?;
    word(out, b"\":\"")?;
    lsn(out, value)?;
    word(out, b"\"")
}

/// Adds the numbers of the nodes of a set, rising, as an array.
#[tactic(auto, unfolding(crate::specs::Members::numbers_member))]
pub(crate) fn nodes_member(out: &mut Vec<u8>, name: &[u8], set: &NodeSet) -> Result<(), NoMemory>
    ensures { OnOk result (out.new.items ≡ out.old.items ++ numbers_member name.now (members set.now)) }
{
    word(out, b",\"")?;
    word(out, name)?;
    word(out, b"\":[")?;
    nodes(out, set)?;
    word(out, b"]")
}

/// Adds a word that needs no escapes, as a string.
#[tactic(auto, unfolding(crate::specs::Members::word_member))]
pub(crate) fn word_member(out: &mut Vec<u8>, name: &[u8], value: &[u8]) -> Result<(), NoMemory>
    ensures { OnOk result (out.new.items ≡ out.old.items ++ word_member name.now value.now) }
{
    word(out, b",\"")?;
    word(out, name)?;
    word(out, b"\":\"")?;
    word(out, value)?;
    word(out, b"\"")
}

/// Adds one of the words `null`, `true` and `false`, as it is.
#[tactic(auto, unfolding(crate::specs::Members::plain_member))]
pub(crate) fn plain_member(out: &mut Vec<u8>, name: &[u8], value: &[u8]) -> Result<(), NoMemory>
    ensures { OnOk result (out.new.items ≡ out.old.items ++ plain_member name.now value.now) }
{
    word(out, b",\"")?;
    word(out, name)?;
    word(out, b"\":")?;
    word(out, value)
}
