// Verdicts on held answers.
use crate::nodes::nodes;
use ld_gap::{Held, Item, Verdict, decide};
use ld_ids::{NoMemory, NodeId, NodeSet, Payload};
use ld_lsn::Lsn;
use ld_msg::{Body, Entries, Entry, What};
use std::alloc::Global;
use std::test::Fail;

// What the answers that are held show of e1n1, as one letter, where a loss may be confirmed, and node 1 is to send the
// payload in round 1.
fn letter(set: &NodeSet, held: &Held) -> u8 {
    let next = Lsn::new(1, 1);
    let misses = held.lacks_copy(1, next, NodeId::new(1));
    match decide(next, misses, true, set, held) {
        Verdict::Gives(Item::Trim(_)) => b't',
        Verdict::Gives(Item::Record(_)) => b'r',
        Verdict::Gives(Item::Hole) => b'h',
        Verdict::Gives(Item::Bridge(_)) => b'b',
        Verdict::Gives(Item::Loss) => b'l',
        Verdict::Gives(Item::LossTo(_)) => b'L',
        Verdict::Confirms(_) => b'c',
        Verdict::AsksAll => b'a',
        Verdict::NotYet => b'n',
    }
}

// A page of e1n1 to e1n9 with these entries.
fn page(clean: bool, entries: Entries) -> Body {
    Body::ReadPage {
        round: 1,
        from: Lsn::new(1, 1),
        upto: Lsn::new(1, 9),
        clean,
        entries,
    }
}

// A clean page with this at e1n1.
fn page_with(alloc: Global, what: What) -> Result<Body, NoMemory> {
    let mut entries = Entries::empty(alloc);
    entries.push(Entry {
        number: Lsn::new(1, 1),
        ballot: 1,
        what,
    })?;
    Ok(page(true, entries))
}

// Epoch 1 ends at its first number.
fn ended(loss: bool) -> Body {
    Body::ReadEnded {
        round: 1,
        from: Lsn::new(1, 1),
        end: Lsn::new(1, 1),
        loss,
    }
}

// A node says that it lost epoch 1.
fn lost() -> Body {
    Body::LostHere {
        number: Lsn::new(1, 1),
        round: 1,
        generation: 2,
        end: Lsn::from_u64(0),
    }
}

// The trim of a round up to an offset of epoch 1.
fn trimmed(round: u32, esn: u32) -> Body {
    Body::ReadTrim {
        round,
        from: Lsn::new(1, 1),
        trim: Lsn::new(1, esn),
    }
}

// The answer that has this letter where no other is held, and these besides: `w` for a record withheld, `e` for a clean page without
// entries, `u` for one that isn't clean, `x` for a lost epoch, and a trim to the offset 0 in round 2 for `0`, to the offset 1 in
// round 1 for `1` and in round 2 for `2`.
fn answer(alloc: Global, letter: u8) -> Result<Body, NoMemory> {
    match letter {
        b'b' => Ok(ended(false)),
        b'L' => Ok(ended(true)),
        b'h' => page_with(alloc, What::Hole),
        b'l' => page_with(alloc, What::Plug),
        b'w' => page_with(alloc, What::Withheld),
        b'e' => Ok(page(true, Entries::empty(alloc))),
        b'u' => Ok(page(false, Entries::empty(alloc))),
        b'x' => Ok(lost()),
        b'0' => Ok(trimmed(2, 0)),
        b'1' => Ok(trimmed(1, 1)),
        b'2' => Ok(trimmed(2, 1)),
        _ => page_with(alloc, What::Rec(Payload::new(Vec::new(alloc)))),
    }
}

// What is shown after each answer of a node, given by its number, to a reader of the nodes from 1 up to another.
fn shown(alloc: Global, last: u8, answers: &[(u8, u8)]) -> Result<Vec<u8>, NoMemory> {
    let set = nodes(1, last);
    let mut held = Held::nothing();
    let mut all = Vec::new(alloc);
    for (number, given) in answers {
        if let Some(node) = NodeId::new(*number) {
            held.hold(node, answer(alloc, *given)?);
        }
        all.push(letter(&set, &held))?;
    }
    Ok(all)
}

#[test]
fn records_come_before_holes_holes_before_plugs_and_these_before_copies_to_ask_and_the_lowest_end(
    rt: HostRuntime,
) -> Result<(), Fail> {
    let alloc = rt.alloc();
    for (lower, higher, given) in [
        (b'l', b'l', b'l'),
        (b'l', b'h', b'h'),
        (b'h', b'l', b'h'),
        (b'l', b'r', b'r'),
        (b'r', b'l', b'r'),
        (b'h', b'r', b'r'),
        (b'L', b'l', b'l'),
        (b'L', b'b', b'L'),
        (b'b', b'L', b'b'),
        (b'w', b'w', b'n'),
        (b'e', b'w', b'a'),
        (b'e', b'h', b'h'),
    ] {
        let all = shown(alloc, 2, &[(2, higher), (1, lower)])?;
        assert!(rt; all.as_slice().last() == Some(&given));
    }
    Ok(())
}

#[test]
fn only_clean_pages_and_lost_nodes_together_are_a_loss(rt: HostRuntime) -> Result<(), Fail> {
    let all = shown(rt.alloc(), 2, &[(1, b'e'), (2, b'e'), (2, b'x'), (1, b'u')])?;
    assert!(rt; all.as_slice() == b"nncn".as_slice());
    Ok(())
}

#[test]
fn a_lost_node_outside_the_set_makes_no_loss(rt: HostRuntime) -> Result<(), Fail> {
    let all = shown(rt.alloc(), 1, &[(1, b'e'), (2, b'x')])?;
    assert!(rt; all.as_slice() == b"nn".as_slice());
    Ok(())
}

#[test]
fn an_answer_of_an_equal_round_replaces_one_of_a_greater_round_stays(
    rt: HostRuntime,
) -> Result<(), Fail> {
    let all = shown(rt.alloc(), 1, &[(1, b'0'), (1, b'1'), (1, b'2')])?;
    assert!(rt; all.as_slice() == b"nnt".as_slice());
    Ok(())
}
