// The choice of one number.
use crate::nodes::nodes;
use ld_copyset::{TooFew, choose, sender};
use ld_ids::NodeId;
use ld_lsn::Lsn;
use std::test::Fail;

/// A node's number, 0 for none.
fn number(node: Option<NodeId>) -> u8 {
    match node {
        Some(node) => node.number(),
        None => 0,
    }
}

/// How many nodes of five are chosen for e1n2 and the first five of them, where those from a number up to another are excluded.
fn chosen(first: u8, last: u8) -> Result<(usize, [u8; 5]), TooFew> {
    let choice = choose(&nodes(1, 5), 3, 1, Lsn::new(1, 2), 0, &nodes(first, last))?;
    let mut numbers = [0; 5];
    for place in 0..5 {
        numbers[place] = number(choice.nth(place));
    }
    Ok((choice.len(), numbers))
}

/// The number of the node of three that sends e1n1, where those from a number up to another are excluded.
fn sends(first: u8, last: u8) -> u8 {
    number(sender(&nodes(1, 3), &nodes(first, last), Lsn::new(1, 1)))
}

#[test]
fn the_choice_goes_round_the_ring(rt: HostRuntime) -> Result<(), Fail> {
    assert!(rt; chosen(5, 5) == Ok((4, [4, 1, 2, 3, 0])));
    Ok(())
}

#[test]
fn two_are_too_few_for_three(rt: HostRuntime) -> Result<(), Fail> {
    assert!(rt; chosen(1, 3) == Err(TooFew(2)));
    Ok(())
}

#[test]
fn one_node_sends_a_number(rt: HostRuntime) -> Result<(), Fail> {
    assert_eq!(rt; [sends(1, 0), sends(3, 3), sends(1, 3)], [3, 1, 0]);
    Ok(())
}
