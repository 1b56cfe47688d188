// Readers against answers as nodes give them. Each reads the offsets 1 and 2 of epoch 1 of a log whose first nodes are three.
use ld_disk::{Fault, MemDisk};
use ld_ids::{LogId, NoMemory, NodeId, NodeSet, Payload, Spec};
use ld_lsn::Lsn;
use ld_msg::{Body, Entries, Entry, Msg, Outbox, Style, Summary, What, Who};
use ld_reader::{Item, Items, Reader, ReaderFault};
use ld_register::{DiskRegister, Register, RegisterFault};
use std::alloc::Global;
use std::test::Fail;

// ---- registers ----

// The log on the nodes from 1 to this one.
fn nodes_to(last: u8) -> Result<Spec, ReaderFault> {
    let Some(log) = LogId::new(1) else {
        return Err(ReaderFault::NoMemory);
    };
    let mut set = NodeSet::empty();
    for number in 1..4 {
        if let Some(node) = NodeId::new(number)
            && number <= last
        {
            set = set.with(node);
        }
    }
    Ok(Spec {
        log,
        set,
        r: 2,
        extras: 0,
    })
}

// A register on an empty disk.
fn new_register(alloc: Global) -> Result<DiskRegister<MemDisk>, ReaderFault> {
    match MemDisk::new(alloc) {
        Ok(disk) => Ok(DiskRegister::new(alloc, disk)),
        Err(_) => Err(ReaderFault::NoMemory),
    }
}

// A register whose first read fails.
fn failing_register(alloc: Global) -> Result<DiskRegister<MemDisk>, ReaderFault> {
    let mut reg = new_register(alloc)?;
    reg.arm(Fault::FailReadAt(1));
    Ok(reg)
}

// Fixes these nodes, factor and extras for the log's next epoch.
fn fix<G: Register>(alloc: Global, reg: &mut G, spec: &Spec) -> Result<(), ReaderFault> {
    let _log = spec.log.number();
    if spec.r == 0 || spec.set.len() < usize::from(spec.r) || spec.extras > 3 {
        return Err(ReaderFault::NoMemory);
    }
    reg.activate(alloc, spec)?;
    Ok(())
}

// Hands out the next epoch of the log on the nodes from 1 to this one.
fn hand_out<G: Register>(alloc: Global, reg: &mut G, last: u8) -> Result<(), ReaderFault> {
    fix(alloc, reg, &nodes_to(last)?)
}

// A register that has handed out the first epoch on the nodes from 1 to this one.
fn first_epoch(alloc: Global, last: u8) -> Result<DiskRegister<MemDisk>, ReaderFault> {
    let mut reg = new_register(alloc)?;
    hand_out(alloc, &mut reg, last)?;
    Ok(reg)
}

// Closes the log's first epoch.
fn close_first<G: Register>(alloc: Global, reg: &mut G) -> Result<(), ReaderFault> {
    let Some(log) = LogId::new(1) else {
        return Err(ReaderFault::NoMemory);
    };
    let summary = Summary {
        ballot: 2,
        lng: 0,
        trim: Lsn::from_u64(0),
        end: 3,
        loss: false,
    };
    reg.close(alloc, log, 1, &summary, false)?;
    Ok(())
}

// Puts node 4 in the place of node 3, which changes so many epochs.
fn swap<G: Register>(alloc: Global, reg: &mut G) -> Result<u32, ReaderFault> {
    let (Some(log), Some(member), Some(spare)) = (LogId::new(1), NodeId::new(3), NodeId::new(4))
    else {
        return Err(ReaderFault::NoMemory);
    };
    Ok(reg.swap(alloc, log, 1, member, spare)?)
}

// ---- answers ----

// What stands at an offset.
#[derive(Clone, Copy)]
enum Stands {
    Record,
    Withheld,
    Hole,
    Plug,
}

// What a node says: it is lost for epoch 1 under generation 2, the epoch ends at the offset 2, or a clean page of the offsets
// from 1 to `last` has something at one of them.
#[derive(Clone, Copy)]
enum Says {
    Lost,
    Ended { loss: bool },
    Page { last: u32, esn: u32, stands: Stands },
}

fn what(alloc: Global, stands: Stands) -> Result<What, NoMemory> {
    match stands {
        Stands::Record => Ok(What::Rec(Payload::new(Vec::from_slice(alloc, &[7])?))),
        Stands::Withheld => Ok(What::Withheld),
        Stands::Hole => Ok(What::Hole),
        Stands::Plug => Ok(What::Plug),
    }
}

fn entries(alloc: Global, esn: u32, stands: Stands) -> Result<Entries, NoMemory> {
    let mut entries = Entries::empty(alloc);
    entries.push(Entry {
        number: Lsn::new(1, esn),
        ballot: 1,
        what: what(alloc, stands)?,
    })?;
    Ok(entries)
}

fn answer(alloc: Global, round: u32, says: Says) -> Result<Body, NoMemory> {
    match says {
        Says::Lost => Ok(Body::LostHere {
            number: Lsn::new(1, 1),
            round,
            generation: 2,
            end: Lsn::from_u64(0),
        }),
        Says::Ended { loss } => Ok(Body::ReadEnded {
            round,
            from: Lsn::new(1, 2),
            end: Lsn::new(1, 2),
            loss,
        }),
        Says::Page { last, esn, stands } => Ok(Body::ReadPage {
            round,
            from: Lsn::new(1, 1),
            upto: Lsn::new(1, last),
            clean: true,
            entries: entries(alloc, esn, stands)?,
        }),
    }
}

// ---- readers ----

// A reader, and all that it has sent.
#[derive(Drop)]
struct Scene {
    reader: Reader,
    out: Outbox,
}

fn start(alloc: Global, first: &Spec, style: Style) -> Result<Reader, NoMemory> {
    Reader::start(alloc, first, 0, Lsn::new(1, 1), Lsn::new(1, 2), style)
}

// It asks, and has then sent so many messages.
fn asks<G: Register>(alloc: Global, scene: &mut Scene, reg: &mut G) -> Result<usize, ReaderFault> {
    scene.reader.ask(alloc, reg, &mut scene.out)?;
    Ok(scene.out.len())
}

// One that has asked.
fn begin<G: Register>(alloc: Global, reg: &mut G, style: Style) -> Result<Scene, ReaderFault> {
    let mut scene = Scene {
        reader: start(alloc, &nodes_to(3)?, style)?,
        out: Outbox::empty(alloc),
    };
    asks(alloc, &mut scene, reg)?;
    Ok(scene)
}

// What a node's answer gives.
fn gives<G: Register>(
    alloc: Global,
    scene: &mut Scene,
    reg: &mut G,
    number: u8,
    body: Body,
) -> Result<Items, ReaderFault> {
    let (Some(node), Some(log)) = (NodeId::new(number), LogId::new(1)) else {
        return Err(ReaderFault::NoMemory);
    };
    let msg = Msg {
        from: Who::Node(node),
        to: Who::Reader(0),
        log,
        body,
    };
    scene.reader.on_reply(alloc, &msg, reg, &mut scene.out)
}

// What a node's answer gives: the first two items as letters, and how many messages were sent until then.
type Given = (u8, u8, usize);

// A node, the round that it answers, what it says, and what that gives.
type Row = (u8, u32, Says, Given);

// What a node's answer gives.
fn hears<G: Register>(
    alloc: Global,
    scene: &mut Scene,
    reg: &mut G,
    number: u8,
    round: u32,
    says: Says,
) -> Result<Given, ReaderFault> {
    let body = answer(alloc, round, says)?;
    let items = gives(alloc, scene, reg, number, body)?;
    Ok((letter(&items, 0), letter(&items, 1), scene.out.len()))
}

// How many of these answers, from the first one on, give what is told.
fn as_told<G: Register>(
    alloc: Global,
    scene: &mut Scene,
    reg: &mut G,
    rows: &[Row],
) -> Result<usize, ReaderFault> {
    let mut count = 0usize;
    for (number, round, says, given) in rows {
        if hears(alloc, scene, reg, *number, *round, *says)? != *given {
            return Ok(count);
        }
        count = count.saturating_add(1);
    }
    Ok(count)
}

// The same of a reader that has asked the nodes of the first epoch, and whether it is finished then.
fn reads(alloc: Global, style: Style, rows: &[Row]) -> Result<(usize, bool), ReaderFault> {
    let mut reg = first_epoch(alloc, 3)?;
    let mut scene = begin(alloc, &mut reg, style)?;
    let count = as_told(alloc, &mut scene, &mut reg, rows)?;
    Ok((count, scene.reader.finished()))
}

// The item at an offset, as one letter, with a dot where there is none.
fn letter(items: &Items, place: usize) -> u8 {
    match items.as_slice().get(place) {
        Some(given) => match &given.item {
            Item::Trim(_) => b't',
            Item::Record(_) => b'r',
            Item::Hole => b'h',
            Item::Bridge(_) => b'b',
            Item::Loss => b'l',
            Item::LossTo(_) => b'L',
        },
        None => b'.',
    }
}

// Whether the message at an offset asks for one copy.
fn asks_one(out: &Outbox, place: usize) -> bool {
    match out.as_slice().get(place) {
        Some(msg) => match &msg.body {
            Body::ReadOne { .. } => true,
            _ => false,
        },
        None => false,
    }
}

// A record at the offset 2, on a page of both offsets.
const SECOND: Says = Says::Page {
    last: 2,
    esn: 2,
    stands: Stands::Record,
};

// A record at the offset 1, on a page of both offsets.
const FIRST: Says = Says::Page {
    last: 2,
    esn: 1,
    stands: Stands::Record,
};

// A record at the offset 1, on a page of that offset alone.
const ONLY: Says = Says::Page {
    last: 1,
    esn: 1,
    stands: Stands::Record,
};

// What stands at the offset 1, and an end behind which nothing is lost, or something.
const HOLE: Says = Says::Page {
    last: 2,
    esn: 1,
    stands: Stands::Hole,
};

const PLUG: Says = Says::Page {
    last: 2,
    esn: 1,
    stands: Stands::Plug,
};

const END: Says = Says::Ended { loss: false };

const LOSING_END: Says = Says::Ended { loss: true };

#[test]
fn a_page_and_an_end_give_all_items_in_order(rt: HostRuntime) -> Result<(), Fail> {
    let alloc = rt.alloc();
    let hole = [(1, 1, HOLE, (b'h', b'.', 3)), (1, 1, END, (b'b', b'.', 3))];
    assert!(rt; reads(alloc, Style::EachCopy, &hole) == Ok((2, true)));
    let plug = [
        (1, 1, PLUG, (b'l', b'.', 3)),
        (1, 1, LOSING_END, (b'L', b'.', 3)),
    ];
    assert!(rt; reads(alloc, Style::EachCopy, &plug) == Ok((2, true)));
    Ok(())
}

#[test]
fn a_loss_is_confirmed_before_it_is_given(rt: HostRuntime) -> Result<(), Fail> {
    // the nodes 1 and 3 are lost, and are asked once more; an answer to the first ask is none to the second
    let rows = [
        (2, 1, SECOND, (b'.', b'.', 3)),
        (1, 1, Says::Lost, (b'.', b'.', 3)),
        (3, 1, Says::Lost, (b'.', b'.', 5)),
        (1, 2, Says::Lost, (b'.', b'.', 5)),
        (3, 1, Says::Lost, (b'.', b'.', 5)),
        (3, 2, Says::Lost, (b'l', b'r', 5)),
    ];
    assert!(rt; reads(rt.alloc(), Style::EachCopy, &rows) == Ok((6, true)));
    Ok(())
}

#[test]
fn a_rebuilt_node_ends_the_confirmation_with_the_record(rt: HostRuntime) -> Result<(), Fail> {
    let rows = [
        (1, 1, SECOND, (b'.', b'.', 3)),
        (2, 1, Says::Lost, (b'.', b'.', 3)),
        (3, 1, Says::Lost, (b'.', b'.', 5)),
        (2, 2, FIRST, (b'r', b'r', 5)),
    ];
    assert!(rt; reads(rt.alloc(), Style::EachCopy, &rows) == Ok((4, true)));
    Ok(())
}

// How many of the first and then of the second answers give what is told, where the set changes between them in so many epochs.
fn swaps_between(
    alloc: Global,
    first: &[Row],
    second: &[Row],
) -> Result<(usize, u32, usize), ReaderFault> {
    let mut reg = first_epoch(alloc, 3)?;
    let mut scene = begin(alloc, &mut reg, Style::EachCopy)?;
    let before = as_told(alloc, &mut scene, &mut reg, first)?;
    close_first(alloc, &mut reg)?;
    let epochs = swap(alloc, &mut reg)?;
    Ok((
        before,
        epochs,
        as_told(alloc, &mut scene, &mut reg, second)?,
    ))
}

#[test]
fn where_sets_have_changed_a_round_begins_in_place_of_a_loss(rt: HostRuntime) -> Result<(), Fail> {
    let first = [
        (2, 1, SECOND, (b'.', b'.', 3)),
        (1, 1, Says::Lost, (b'.', b'.', 3)),
        (3, 1, Says::Lost, (b'.', b'.', 5)),
        (1, 2, Says::Lost, (b'.', b'.', 5)),
    ];
    // an answer of a round before the new one is not taken any more
    let second = [
        (3, 2, Says::Lost, (b'.', b'.', 8)),
        (2, 1, FIRST, (b'.', b'.', 8)),
        (4, 3, FIRST, (b'r', b'.', 8)),
    ];
    assert!(rt; swaps_between(rt.alloc(), &first, &second) == Ok((4, 1, 3)));
    Ok(())
}

// A record at the offset 1 that another node is to send, on a page of that offset alone.
const WITHHELD: Says = Says::Page {
    last: 1,
    esn: 1,
    stands: Stands::Withheld,
};

// How many of these answers give a reader what is told that wants one copy, and whether it asks for one in the message before them, and in the first behind them.
fn spares(alloc: Global, rows: &[Row]) -> Result<(usize, bool, bool), ReaderFault> {
    let mut reg = first_epoch(alloc, 3)?;
    let mut scene = begin(alloc, &mut reg, Style::OneCopy)?;
    let count = as_told(alloc, &mut scene, &mut reg, rows)?;
    Ok((count, asks_one(&scene.out, 2), asks_one(&scene.out, 3)))
}

#[test]
fn a_record_that_its_sender_lacks_is_asked_of_all(rt: HostRuntime) -> Result<(), Fail> {
    // node 3 is to send the record at the offset 1
    let rows = [
        (1, 1, WITHHELD, (b'.', b'.', 3)),
        (3, 1, SECOND, (b'.', b'.', 6)),
        (1, 2, ONLY, (b'r', b'r', 6)),
    ];
    assert!(rt; spares(rt.alloc(), &rows) == Ok((3, true, false)));
    Ok(())
}

// A hole at the offset 1, on a page of that offset alone.
const LONE_HOLE: Says = Says::Page {
    last: 1,
    esn: 1,
    stands: Stands::Hole,
};

// What a reader comes to whose look fails, how many messages it has sent then, and how many of the answers that come behind it give what is told.
fn looks_again(
    alloc: Global,
    rows: &[Row],
) -> Result<(Result<Given, ReaderFault>, usize, usize), ReaderFault> {
    let mut reg = first_epoch(alloc, 3)?;
    let mut scene = begin(alloc, &mut reg, Style::EachCopy)?;
    let mut failing = failing_register(alloc)?;
    let failed = hears(alloc, &mut scene, &mut failing, 1, 1, ONLY);
    let sent = scene.out.len();
    Ok((failed, sent, as_told(alloc, &mut scene, &mut reg, rows)?))
}

#[test]
fn a_failed_look_leaves_the_reader_as_it_was(rt: HostRuntime) -> Result<(), Fail> {
    // an answer of the round before it doesn't come too late, as no answer is held
    let rows = [(1, 0, LONE_HOLE, (b'h', b'.', 6))];
    let failed = Err(ReaderFault::Register(RegisterFault::Failed));
    assert!(rt; looks_again(rt.alloc(), &rows) == Ok((failed, 3, 1)));
    Ok(())
}

// How many nodes a reader asks that the register shows, what a record gives, and how many it has asked where it then shows none.
fn asks_the_shown(alloc: Global) -> Result<(usize, Given, usize), ReaderFault> {
    let mut reg = first_epoch(alloc, 2)?;
    let mut scene = begin(alloc, &mut reg, Style::EachCopy)?;
    let sent = scene.out.len();
    let given = hears(alloc, &mut scene, &mut reg, 1, 1, ONLY)?;
    let mut empty = new_register(alloc)?;
    Ok((sent, given, asks(alloc, &mut scene, &mut empty)?))
}

#[test]
fn a_reader_asks_the_nodes_that_the_register_shows(rt: HostRuntime) -> Result<(), Fail> {
    // where it shows none, the first nodes of the log
    assert!(rt; asks_the_shown(rt.alloc()) == Ok((2, (b'r', b'.', 4), 7)));
    Ok(())
}

// How many of the answers give what is told to a reader that looked before its epoch was handed out, how many messages it has sent at its next ask, and
// how many of the answers behind that do.
fn looks_early(
    alloc: Global,
    first: &[Row],
    second: &[Row],
) -> Result<(usize, usize, usize), ReaderFault> {
    let mut reg = new_register(alloc)?;
    let mut scene = begin(alloc, &mut reg, Style::EachCopy)?;
    hand_out(alloc, &mut reg, 2)?;
    let before = as_told(alloc, &mut scene, &mut reg, first)?;
    let sent = asks(alloc, &mut scene, &mut reg)?;
    Ok((before, sent, as_told(alloc, &mut scene, &mut reg, second)?))
}

#[test]
fn a_look_before_its_epoch_gives_no_loss(rt: HostRuntime) -> Result<(), Fail> {
    let first = [
        (2, 1, SECOND, (b'.', b'.', 3)),
        (1, 1, Says::Lost, (b'.', b'.', 3)),
        (3, 1, Says::Lost, (b'.', b'.', 3)),
    ];
    // after the next look the lost node of the epoch is asked once more
    let second = [
        (1, 2, Says::Lost, (b'.', b'.', 6)),
        (1, 3, Says::Lost, (b'l', b'r', 6)),
    ];
    assert!(rt; looks_early(rt.alloc(), &first, &second) == Ok((3, 5, 2)));
    Ok(())
}
