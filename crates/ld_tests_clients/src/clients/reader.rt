// What a reader's calls write and send.
use crate::clients::scene::{Does, FIRST, OTHERS, Says, Step, as_told, readers_of};
use ld_msg::Style;
use std::test::Fail;

const OPENED: Step = (Does::Open(Style::EachCopy), b"", b"");

const POLLED: Step = (Does::Poll, b"", b"a1a2a3");

// A reader that is finished asks nobody.
const FINISHED: Step = (Does::Poll, b"", b"");

// The first poll of a number asks for one copy of it, the second for all.
const ONE_COPY: &[Step] = &[
    (Does::Open(Style::OneCopy), b"", b""),
    (Does::Poll, b"", b"o1o2o3"),
    (Does::Poll, b"", b"a1a2a3"),
];

#[test]
fn one_copy_is_asked_for_first(rt: HostRuntime) -> Result<(), Fail> {
    let alloc = rt.alloc();
    assert_eq!(rt; as_told(alloc, ONE_COPY)?, ONE_COPY.len());
    Ok(())
}

#[test]
fn readers_are_found_by_their_log(rt: HostRuntime) -> Result<(), Fail> {
    let alloc = rt.alloc();
    assert!(rt; readers_of(alloc, 7)? == 1);
    assert!(rt; readers_of(alloc, 8)? == 0);
    Ok(())
}

const TRIM: &[Step] = &[
    OPENED,
    POLLED,
    (Does::Say(Says::Trimmed), b"gap d trim e1n1 e1n4\n", b""),
    FINISHED,
];

const BRIDGE: &[Step] = &[
    OPENED,
    POLLED,
    (
        Does::Say(Says::Ended { loss: false }),
        b"gap d bridge e1n1 e1n4\n",
        b"",
    ),
    FINISHED,
];

const LOSS: &[Step] = &[
    OPENED,
    POLLED,
    (
        Does::Say(Says::Ended { loss: true }),
        b"gap d dataloss e1n1 e1n4\n",
        b"",
    ),
    FINISHED,
];

#[test]
fn a_gap_ends_at_the_last_number_that_is_wanted(rt: HostRuntime) -> Result<(), Fail> {
    for steps in [TRIM, BRIDGE, LOSS] {
        assert_eq!(rt; as_told(rt.alloc(), steps)?, steps.len());
    }
    Ok(())
}

// The next epoch's sequencer asks the nodes of the one before, whatever its own are.
const ELSEWHERE: &[Step] = &[
    (Does::Activate(b's', OTHERS), b"active s 1\n", b""),
    (Does::Append, b"appended s e1n1\n", b"s2s4"),
    OPENED,
    (Does::Poll, b"", b"a2a4"),
    (Does::Activate(b't', FIRST), b"active t 2\n", b"d2d4"),
];

#[test]
fn an_epoch_is_written_and_read_on_the_nodes_that_were_fixed_for_it(
    rt: HostRuntime,
) -> Result<(), Fail> {
    let alloc = rt.alloc();
    assert_eq!(rt; as_told(alloc, ELSEWHERE)?, ELSEWHERE.len());
    Ok(())
}
