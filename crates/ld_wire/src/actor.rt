// Actors.
ghost use Rattle.std.specs.Prelude.{◌≡◌, ◌≤◌, true, false, length, IfOk, IfErr};
ghost use Rattle.ld_fields.specs.Fields.{Got};
ghost use Rattle.ld_fields.specs.Faults.{IsOff};
ghost use Rattle.ld_wire.specs.Judging.{is_actor, actor, read_who};

use crate::role::Role;
use ld_fields::{FieldFault, GREATEST_EPOCH, check, read_u8, read_u32};
use ld_ids::NodeId;
use ld_msg::Who;

/// The greatest offset of a reader in the order of opening.
const LAST_READER: u32 = 999;

/// The actor at an offset, where it is of the role: a tag and a number.
#[tactic(auto, unfolding(crate::specs::Judging::read_who))]
pub(crate) fn read_who(bytes: &[u8], role: Role, at: usize) -> Result<(Who, usize), FieldFault>
    requires { at ≤ length bytes.now }
    ensures ok { IfOk result (λ p. read_who role bytes.now at ≡ Got p.0 p.1) }
    ensures next { IfOk result (λ p. p.1 ≤ length bytes.now) }
    ensures off { IfErr result (IsOff (read_who role bytes.now at)) }
{
    let (tag, at_number) = read_u8(bytes, at)?;
    check(role.may_be(tag), at)?;
    let (number, next) = read_u32(bytes, at_number)?;
    let who = actor(tag, number, at_number)?;
    Ok((who, next))
}

fn actor(tag: u8, number: u32, at: usize) -> Result<Who, FieldFault>
    ensures is { IfOk result (λ who. is_actor tag number ≡ true) }
    ensures ok { IfOk result (λ who. who ≡ actor tag number) }
    ensures off { IfErr result (λ e. (is_actor tag number ≡ false) × (e ≡ FieldFault.Bad at)) }
{
    if tag == 0 {
        return node(number, at);
    }
    if tag == 1 {
        check(1 <= number && number <= GREATEST_EPOCH, at)?;
        return Ok(Who::Sequencer(number));
    }
    check(number <= LAST_READER, at)?;
    Ok(Who::Reader(number))
}

fn node(number: u32, at: usize) -> Result<Who, FieldFault>
    ensures is { IfOk result (λ who. is_actor 0 number ≡ true) }
    ensures ok { IfOk result (λ who. who ≡ actor 0 number) }
    ensures off { IfErr result (λ e. (is_actor 0 number ≡ false) × (e ≡ FieldFault.Bad at)) }
{
    check(1 <= number && number <= 16, at)?;
    match NodeId::new(number as u8) {
        Some(node) => Ok(Who::Node(node)),
        None => Err(FieldFault::Bad(at as u64)),
    }
}
