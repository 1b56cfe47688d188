// What a register says of a log.
use crate::filling::{fill, log_one, new_register, sink};
use ld_ids::NoMemory;
use ld_operate::{LookStop, register_lines};
use ld_register::Register;
use std::alloc::Global;
use std::test::Fail;

/// Of the fourth and the fifth epoch.
const FROM_FOUR: &[u8] = b"log 1 epoch 5 closed 4 swaps 1
epoch 4 set 1,3,4 r 2 extras 0 closed e4n1 by 5 good 0 trim e0n0 loss no
epoch 5 set 1,2,3 r 2 extras 0 open
";

/// The same as JSON.
const FROM_FOUR_AS_JSON: &[u8] = br#"{"log":1,"epoch":5,"closed":4,"swaps":1}
{"epoch":4,"set":[1,3,4],"r":2,"extras":0,"closed":"e4n1","by":5,"good":0,"trim":"e0n0","loss":false}
{"epoch":5,"set":[1,2,3],"r":2,"extras":0,"closed":null}
"#;

/// How it ends, and whether these bytes are written, where the call of this number fails.
fn says<G: Register>(
    alloc: Global,
    reg: &mut G,
    from: u32,
    json: bool,
    fails: u64,
    expected: &[u8],
) -> Result<(Result<(), LookStop>, bool), NoMemory> {
    let mut out = sink(alloc, 1000, fails)?;
    let from = if from == 0 { 1 } else { from };
    let done = register_lines(alloc, log_one()?, from, json, reg, &mut out);
    Ok((done, out.bytes() == expected))
}

/// Whether a register that is filled so is told so.
fn says_filled(alloc: Global, from: u32, json: bool, expected: &[u8]) -> Result<bool, NoMemory> {
    let mut reg = new_register(alloc)?;
    fill(alloc, &mut reg)?;
    let said = says(alloc, &mut reg, from, json, 100, expected)?;
    Ok(said.0 == Ok(()) && said.1)
}

#[test]
fn an_epoch_that_is_closed_and_one_that_is_open(rt: HostRuntime) -> Result<(), Fail> {
    assert_eq!(rt; says_filled(rt.alloc(), 4, false, FROM_FOUR)?, true);
    Ok(())
}

#[test]
fn the_same_as_json(rt: HostRuntime) -> Result<(), Fail> {
    assert_eq!(rt; says_filled(rt.alloc(), 4, true, FROM_FOUR_AS_JSON)?, true);
    Ok(())
}
