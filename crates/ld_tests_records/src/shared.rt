// A register over records in memory.
ghost use Rattle.std.specs.Prelude.{IfSome};
ghost use Rattle.ld_register.specs.Bounds.{IsSpec};

use ld_ids::{LogId, NodeId, NodeSet, Spec};
use ld_records::{BusyRecords, MemRecords, Records, Step};
use ld_register::{Register, RegisterFault};
use ld_shared::{Mark, SharedRegister};
use std::alloc::Global;
use std::test::Fail;

/// Log 1 on the nodes 1 to 3, two copies of each record.
fn spec() -> Option<Spec>
    ensures { IfSome result IsSpec }
{
    let log = LogId::new(1)?;
    let _ = log.number();
    let set = NodeSet::from_bits(0b0111);
    if set.len() < 2 {
        return None;
    }
    Some(Spec {
        log,
        set,
        r: 2,
        extras: 0,
    })
}

/// What a call answers whose outcome isn't known.
const FAILED: Result<u32, RegisterFault> = Err(RegisterFault::Failed);

/// What a call answers where the record of number 1 is none.
const DAMAGED: Result<u32, RegisterFault> = Err(RegisterFault::Damaged(1));

/// What an activation of log 1 answers: the epoch.
fn activates<R: Register>(alloc: Global, register: &mut R) -> Result<u32, RegisterFault> {
    let Some(spec) = spec() else {
        return Err(RegisterFault::NoMemory);
    };
    let grant = register.activate(alloc, &spec)?;
    Ok(grant.epoch)
}

/// What a draw of node 1 answers: the generation.
fn draws<R: Register>(alloc: Global, register: &mut R) -> Result<u32, RegisterFault> {
    let Some(node) = NodeId::new(1) else {
        return Err(RegisterFault::NoMemory);
    };
    let drawn = register.draw(alloc, node)?;
    Ok(drawn.gen_)
}

/// What a look at log 1 answers: its epoch.
fn looks<R: Register>(alloc: Global, register: &mut R) -> Result<u32, RegisterFault> {
    let Some(log) = LogId::new(1) else {
        return Err(RegisterFault::NoMemory);
    };
    let view = register.look(alloc, log, 1)?;
    Ok(view.epoch)
}

/// Another user's record of log 1's epoch 1, as bytes from outside: a mark, and the body of an activation.
const OTHER: [u8; 37] = [
    9, 9, 9, 9, 9, 9, 9, 9, 9, 9, 9, 9, 9, 9, 9, 9, 9, 9, 9, 9, 9, 9, 9, 9, 19, 0, 0, 0, 1, 0, 0,
    0, 1, 0, 7, 2, 0,
];

/// The value that another user appends.
fn comes(alloc: Global, bytes: &[u8]) -> Option<Step> {
    Some(Step::Comes(Vec::from_slice(alloc, bytes).ok()?))
}

/// What two activations answer over records where this happens in the calls, and how many records there are then.
fn two_activations(
    alloc: Global,
    steps: Vec<Step>,
) -> (
    Result<u32, RegisterFault>,
    Result<u32, RegisterFault>,
    usize,
) {
    let mut register = SharedRegister::new(BusyRecords::new(alloc, steps), Mark::new(1, 2));
    let first = activates(alloc, &mut register);
    let second = activates(alloc, &mut register);
    (first, second, register.records().values().len())
}

/// The steps of two activations where this happens in the first append, and that in the one behind it.
fn happens(alloc: Global, first: Step, second: Step) -> Option<Vec<Step>> {
    let mut steps = Vec::new(alloc);
    steps.push(Step::Alone).ok()?;
    steps.push(first).ok()?;
    steps.push(second).ok()?;
    Some(steps)
}

#[test]
fn a_sole_user_gets_one_number_after_the_other(rt: HostRuntime) -> Result<(), Fail> {
    let alloc = rt.alloc();
    let records = MemRecords::new(Vec::new(alloc));
    let mut register = SharedRegister::new(records, Mark::new(1, 2));
    assert!(rt; activates(alloc, &mut register) == Ok(1));
    assert!(rt; draws(alloc, &mut register) == Ok(1));
    assert!(rt; activates(alloc, &mut register) == Ok(2));
    assert!(rt; looks(alloc, &mut register) == Ok(2));
    assert!(rt; register.records().values().len() == 3);
    Ok(())
}

/// Where another user is quicker.
fn is_second(
    alloc: Global,
) -> Option<
    (
        Result<u32, RegisterFault>,
        Result<u32, RegisterFault>,
        usize,
    ),
> {
    let steps = happens(alloc, comes(alloc, &OTHER)?, Step::Alone)?;
    Some(two_activations(alloc, steps))
}

#[test]
fn another_users_epoch_is_not_its_own(rt: HostRuntime) -> Result<(), Fail> {
    let alloc = rt.alloc();
    assert!(rt; is_second(alloc) == Some((Ok(2), Ok(3), 3)));
    Ok(())
}

/// Where the first append fails like this, and that happens in the one that settles it.
fn fails(
    alloc: Global,
    first: Step,
    second: Step,
) -> Option<
    (
        Result<u32, RegisterFault>,
        Result<u32, RegisterFault>,
        usize,
    ),
> {
    Some(two_activations(alloc, happens(alloc, first, second)?))
}

#[test]
fn an_append_whose_outcome_is_not_known_is_settled_first(rt: HostRuntime) -> Result<(), Fail> {
    let alloc = rt.alloc();
    assert!(rt; fails(alloc, Step::Unheard, Step::Alone) == Some((FAILED, Ok(2), 2)));
    assert!(rt; fails(alloc, Step::Lost, Step::Alone) == Some((FAILED, Ok(2), 2)));
    assert!(rt; fails(alloc, Step::Held, Step::Arrives) == Some((FAILED, Ok(2), 2)));
    assert!(rt; fails(alloc, Step::Lost, Step::Lost) == Some((FAILED, FAILED, 0)));
    Ok(())
}

/// Where another user's record came meanwhile.
fn is_overtaken(
    alloc: Global,
) -> Option<
    (
        Result<u32, RegisterFault>,
        Result<u32, RegisterFault>,
        usize,
    ),
> {
    fails(alloc, Step::Held, comes(alloc, &OTHER)?)
}

#[test]
fn an_append_that_is_late_makes_nothing_where_another_came(rt: HostRuntime) -> Result<(), Fail> {
    let alloc = rt.alloc();
    assert!(rt; is_overtaken(alloc) == Some((Err(RegisterFault::Failed), Ok(2), 2)));
    Ok(())
}

/// Where another user's record is none.
fn finds_junk(
    alloc: Global,
) -> Option<
    (
        Result<u32, RegisterFault>,
        Result<u32, RegisterFault>,
        usize,
    ),
> {
    let mut steps = Vec::new(alloc);
    steps.push(comes(alloc, &OTHER)?).ok()?;
    steps.push(comes(alloc, &[1, 2, 3])?).ok()?;
    Some(two_activations(alloc, steps))
}

#[test]
fn a_record_that_is_none_is_told_by_its_number(rt: HostRuntime) -> Result<(), Fail> {
    let alloc = rt.alloc();
    assert!(rt; finds_junk(alloc) == Some((DAMAGED, DAMAGED, 2)));
    Ok(())
}
