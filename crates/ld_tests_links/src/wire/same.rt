// Whether two messages say the same.
use ld_lsn::Lsn;
use ld_msg::{Body, Entry, Msg, Summary, What, Who};

/// Whether two messages have the same addressees and say the same.
pub fn is_same(one: &Msg, other: &Msg) -> bool {
    who(one.from) == who(other.from)
        && who(one.to) == who(other.to)
        && one.log == other.log
        && is_same_body(&one.body, &other.body)
}

fn is_same_body(one: &Body, other: &Body) -> bool {
    numbers(one) == numbers(other)
        && is_same_store(stored(one), stored(other))
        && are_same(entries(one), entries(other))
}

/// Which kind of actor it is, and its number.
fn who(who: Who) -> (u8, u32) {
    match who {
        Who::Node(node) => (1, node.number() as u32),
        Who::Sequencer(epoch) => (2, epoch),
        Who::Reader(number) => (3, number),
    }
}

/// Which kind of body it is, and its numbers.
fn numbers(body: &Body) -> [u64; 6] {
    match body {
        Body::Store { number, lng, .. } => [1, number.value(), *lng as u64, 0, 0, 0],
        Body::Stored { number } => [2, number.value(), 0, 0, 0, 0],
        Body::SealedHere { number, sealed } => [3, number.value(), *sealed as u64, 0, 0, 0],
        Body::LostHere {
            number,
            round,
            generation,
            end,
        } => [
            4,
            number.value(),
            *round as u64,
            *generation as u64,
            end.value(),
            0,
        ],
        Body::CleanHere { number, summary } => closed(5, number.value(), summary),
        Body::TrimmedHere { number, trim } => [6, number.value(), trim.value(), 0, 0, 0],
        Body::DigestAsk { from } => [7, from.value(), 0, 0, 0, 0],
        Body::DigestPage {
            from,
            upto,
            trim,
            lng,
            ..
        } => [8, from.value(), upto.value(), trim.value(), *lng as u64, 0],
        Body::Clean { epoch, summary } => closed(9, *epoch as u64, summary),
        Body::Release { released } => [10, released.value(), 0, 0, 0, 0],
        Body::Trim { trim } => [11, trim.value(), 0, 0, 0, 0],
        Body::ReadAsk { round, from } => [12, *round as u64, from.value(), 0, 0, 0],
        Body::ReadPage {
            round,
            from,
            upto,
            clean,
            ..
        } => [
            13,
            *round as u64,
            from.value(),
            upto.value(),
            *clean as u64,
            0,
        ],
        Body::ReadEnded {
            round,
            from,
            end,
            loss,
        } => [
            14,
            *round as u64,
            from.value(),
            end.value(),
            *loss as u64,
            0,
        ],
        Body::ReadTrim { round, from, trim } => [
            15,
            *round as u64,
            from.value(),
            trim.value(),
            0,
            0,
        ],
        Body::ReadWait {
            round,
            from,
            released,
        } => [16, *round as u64, from.value(), released.value(), 0, 0],
        Body::ReadOne {
            round,
            from,
            set,
            excluded,
        } => [
            17,
            *round as u64,
            from.value(),
            set.bits() as u64,
            excluded.bits() as u64,
            0,
        ],
    }
}

/// The numbers of a body that says how an epoch was closed.
fn closed(kind: u64, of: u64, summary: &Summary) -> [u64; 6] {
    let lengths = Lsn::new(summary.lng, summary.end);
    [
        kind,
        of,
        summary.ballot as u64,
        summary.trim.value(),
        lengths.value(),
        summary.loss as u64,
    ]
}

/// What a body has stored.
fn stored(body: &Body) -> Option<&What> {
    match body {
        Body::Store { what, .. } => Some(what),
        _ => None,
    }
}

fn is_same_store(one: Option<&What>, other: Option<&What>) -> bool {
    match (one, other) {
        (Some(what), Some(other)) => is_same_what(what, other),
        (None, None) => true,
        _ => false,
    }
}

/// The entries of a page.
fn entries(body: &Body) -> &[Entry] {
    match body {
        Body::DigestPage { entries, .. } => entries.as_slice(),
        Body::ReadPage { entries, .. } => entries.as_slice(),
        _ => &[],
    }
}

fn is_same_what(one: &What, other: &What) -> bool {
    match (one, other) {
        (What::Rec(payload), What::Rec(other)) => payload.bytes() == other.bytes(),
        (What::Hole, What::Hole) => true,
        (What::Bridge, What::Bridge) => true,
        (What::Plug, What::Plug) => true,
        (What::Withheld, What::Withheld) => true,
        _ => false,
    }
}

fn are_same(some: &[Entry], others: &[Entry]) -> bool {
    let mut is = some.len() == others.len();
    for (one, other) in some.iter().zip(others) {
        is = is
            && one.number == other.number
            && one.ballot == other.ballot
            && is_same_what(&one.what, &other.what);
    }
    is
}
