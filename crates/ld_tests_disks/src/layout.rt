// Where the next area lies, what a switch makes of a layout, and Bases as bytes.
ghost use Rattle.std.specs.Prelude.{◌<◌, ◌^◌};

use ld_ids::NoMemory;
use ld_layout::{
    Areas, Based, Growth, Layout, Segment, base_length, decode_base, encode_base, least_place, used,
};
use ld_op::{OpFault, Plain};
use std::alloc::Global;
use std::test::Fail;

// An index of log 1, where at e1n2 stands a record of two bytes from offset 300 on and at e1n3 a hole, and two areas.
const BASE: &[u8] = &[
    13, // kind
    0, 0, 0, 1, 0, 1, // generation, logs
    0, 0, 0, 1, 0, 0, 0, 2, 0, 0, 0, 1, 0, 0, 0, 1, 1, 0, 0, 0, 3, // log, sealed, trim, lost
    0, 0, 0, 0, // summaries
    0, 0, 0, 0, // last known good places
    0, 0, 0, 2, // entries
    0, 0, 0, 1, 0, 0, 0, 2, 0, 0, 0, 1, 0, 0, 0, 0, 0, 0, 0, 1, 44, 0, 2, // a record
    0, 0, 0, 1, 0, 0, 0, 3, 0, 0, 0, 2, 1, // a hole
    0, 0, 0, 2, // areas
    0, 0, 0, 0, 0, 0, 0, 0, 0, 0, 0, 0, 0, 0, 1, 144, // the first, of 400 bytes
    0, 0, 0, 0, 0, 0, 3, 232, 0, 0, 0, 0, 0, 0, 0, 200, // one from place 1000 on
];

// Whether the Base is written as the bytes, and as long.
fn is_written_as(alloc: Global, base: &Based, bytes: &[u8]) -> bool {
    let mut out = Vec::new(alloc);
    encode_base(&mut out, base.kind, &base.index, &base.areas).is_ok()
        && out.as_slice() == bytes
        && base_length(&base.index, &base.areas) == bytes.len() as u64
}

// Whether the bytes are a Base, and written as they were.
fn is_same_again(alloc: Global, bytes: &[u8]) -> bool {
    match decode_base(alloc, bytes) {
        Ok(base) => is_written_as(alloc, &base, bytes),
        Err(_) => false,
    }
}

// Whether the bytes are refused at the offset.
fn is_off_at(alloc: Global, place: u64, bytes: &[u8]) -> bool {
    match decode_base(alloc, bytes) {
        Ok(_) => false,
        Err(fault) => fault == OpFault::Bad(place),
    }
}

// The offset, the ending gate, the offset behind the area and the number of a segment, and zeros where there is none.
fn told(found: Result<Option<Segment>, NoMemory>) -> [u64; 4] {
    match found {
        Ok(Some(next)) => [next.place, next.end, next.limit, next.number],
        _ => [0; 4],
    }
}

// What is told of the segment behind a full first one that ends at offset 1000, for a record of so many bytes.
fn second(alloc: Global, cause: u32) -> [u64; 4] {
    let layout = Layout {
        ops: 64,
        end: 1000,
        later: None,
        grows: Growth::Still,
    };
    told(layout.new_segment(alloc, &Plain::new(alloc), u64::from(cause)))
}

// What is told of the segment behind a full one from an offset on, where the first one ends at offset 1000.
fn behind(alloc: Global, place: u32, limit: u64) -> [u64; 4] {
    let place = u64::from(place);
    let layout = Layout {
        ops: 64,
        end: 1000,
        later: Some(Segment {
            place,
            based: 0,
            ops: 64,
            end: place + 500,
            limit,
            areas: Areas::new(alloc),
            number: 7,
            grows: Growth::Still,
        }),
        grows: Growth::Still,
    };
    told(layout.new_segment(alloc, &Plain::new(alloc), 100))
}

// What is told of a segment whose Base is read, of 11 bytes; the limit is 2^40.
fn read_at(alloc: Global, place: u64, first: u32) -> [u64; 4] {
    read_behind(alloc, place, 11, Growth::Still, first)
}

// The same of a Base of so many bytes, whose segment's room grew in this way.
fn read_behind(alloc: Global, place: u64, base: u32, grows: Growth, first: u32) -> [u64; 4] {
    let areas = Areas::new(alloc);
    told(Ok(Segment::behind_base(place, u64::from(base), 0, areas, 1, grows, u64::from(first))))
}

// In how many areas of a Base its payloads stand, and 9 where there is no such Base.
fn count_used(alloc: Global, bytes: &[u8]) -> usize {
    match decode_base(alloc, bytes) {
        Ok(base) => match used(alloc, &base.index, &base.areas) {
            Ok(areas) => areas.count(),
            Err(_) => 9,
        },
        Err(_) => 9,
    }
}

// Whether a segment is full that has so many op records behind a Base of so many entries.
fn is_full(alloc: Global, grows: Growth, based: u32, ops: u32) -> bool {
    let layout = Layout {
        ops: 64,
        end: 1000,
        later: Some(Segment {
            place: 1049,
            based: u64::from(based),
            ops: u64::from(ops),
            end: 2000,
            limit: 1 << 40,
            areas: Areas::new(alloc),
            number: 1,
            grows,
        }),
        grows,
    };
    layout.switches(100)
}

// Whether a record of so many bytes passes the limit behind a first segment that ends twenty bytes before it.
fn passes(alloc: Global, body: u32) -> Result<bool, NoMemory> {
    let layout = Layout {
        ops: 1,
        end: (1 << 40) - 20,
        later: None,
        grows: Growth::Still,
    };
    layout.passes_limit(alloc, &Plain::new(alloc), u64::from(body))
}

#[test]
fn the_least_place_overlaps_no_area(rt: HostRuntime) -> Result<(), Fail> {
    let places = [
        least_place(5, &[]),
        least_place(5, &[(0, 10)]),
        least_place(5, &[(0, 10), (15, 1)]),
        least_place(6, &[(0, 10), (15, 1)]),
        least_place(6, &[(0, 10), (12, 1), (19, 7)]),
    ];
    assert_eq!(rt; places, [0, 10, 10, 16, 13]);
    Ok(())
}

#[test]
fn the_second_segment_lies_behind_the_head(rt: HostRuntime) -> Result<(), Fail> {
    for (cause, limit) in [(100, 132_138), (200_000, 201_066)] {
        assert_eq!(rt; second(rt.alloc(), cause), [1049, 1065, limit, 1]);
    }
    Ok(())
}

#[test]
fn a_later_segment_lies_where_there_is_room(rt: HostRuntime) -> Result<(), Fail> {
    let rows = [
        // There is no room before the current one.
        (1_049, 132_138, 132_138),
        // There is just enough.
        (132_138, 263_227, 1_049),
        // There is a byte less.
        (132_137, 263_226, 263_226),
    ];
    for (place, limit, expected) in rows {
        let [found, _, _, number] = behind(rt.alloc(), place, limit);
        assert_eq!(rt; (found, number), (expected, 8));
    }
    Ok(())
}

#[test]
fn a_read_segment_has_room_for_its_first_record(rt: HostRuntime) -> Result<(), Fail> {
    let rows = [
        (1_049, 100, [1_049, 1_065, 132_138, 1]),
        (1_049, 200_000, [1_049, 1_065, 201_066, 1]),
        // It ends at the limit, and a byte behind it.
        (
            (1 << 40) - 131_089,
            0,
            [(1 << 40) - 131_089, (1 << 40) - 131_073, 1 << 40, 1],
        ),
        ((1 << 40) - 131_088, 0, [0; 4]),
    ];
    for (place, first, expected) in rows {
        assert_eq!(rt; read_at(rt.alloc(), place, first), expected);
    }
    Ok(())
}

#[test]
fn a_growing_segment_has_room_for_as_much_as_its_base(rt: HostRuntime) -> Result<(), Fail> {
    let rows = [
        // It doesn't grow.
        (200_000, Growth::Still, 100, 332_127),
        (200_000, Growth::Based, 100, 401_055),
        // Its first record is longer than the Base.
        (200_000, Growth::Based, 300_000, 501_055),
        // The least room is more.
        (11, Growth::Based, 100, 132_138),
        (131_073, Growth::Based, 100, 263_201),
        // It is wide: 16 Bases are less, or more, or the first record is longer.
        (11, Growth::Wide, 100, 4_195_370),
        (200_000, Growth::Wide, 100, 4_395_359),
        (300_000, Growth::Wide, 100, 5_101_055),
        (5_000_000, Growth::Wide, 100, 85_001_055),
        (11, Growth::Wide, 5_000_000, 5_001_066),
    ];
    for (base, grows, first, limit) in rows {
        let [_, _, found, _] = read_behind(rt.alloc(), 1_049, base, grows, first);
        assert_eq!(rt; found, limit);
    }
    Ok(())
}

#[test]
fn a_wide_segment_takes_more_records(rt: HostRuntime) -> Result<(), Fail> {
    let rows = [
        (Growth::Still, 0, 63, false),
        (Growth::Still, 0, 64, true),
        (Growth::Based, 64, 64, true),
        (Growth::Based, 65, 64, false),
        (Growth::Wide, 0, 64, false),
        (Growth::Wide, 4_096, 4_095, false),
        (Growth::Wide, 4_096, 4_096, true),
        (Growth::Wide, 4_097, 4_096, false),
        (Growth::Wide, 4_097, 4_097, true),
    ];
    for (grows, based, ops, expected) in rows {
        assert_eq!(rt; is_full(rt.alloc(), grows, based, ops), expected);
    }
    Ok(())
}

#[test]
fn areas_without_payloads_are_free(rt: HostRuntime) -> Result<(), Fail> {
    assert_eq!(rt; count_used(rt.alloc(), BASE), 1);
    Ok(())
}

#[test]
fn no_record_passes_the_limit(rt: HostRuntime) -> Result<(), Fail> {
    for (body, expected) in [(14, false), (15, true)] {
        assert_eq!(rt; passes(rt.alloc(), body)?, expected);
    }
    Ok(())
}

#[test]
fn a_base_is_written_as_it_is_read(rt: HostRuntime) -> Result<(), Fail> {
    assert!(rt; is_same_again(rt.alloc(), BASE));
    // The Base of a segment that grows, and of one that is wide.
    let mut growing = Vec::from_slice(rt.alloc(), BASE)?;
    for told in [14, 15] {
        if let Some(kind) = growing.first_mut() {
            *kind = told;
        }
        assert!(rt; is_same_again(rt.alloc(), &growing));
    }
    Ok(())
}

#[test]
fn other_bytes_are_no_base(rt: HostRuntime) -> Result<(), Fail> {
    let alloc = rt.alloc();
    let off = [
        // A body of another kind.
        is_off_at(alloc, 0, &[12]),
        is_off_at(alloc, 0, &[16]),
        // No body.
        is_off_at(alloc, 0, &[]),
        // The generation is cut off.
        is_off_at(alloc, 1, &[13, 0, 0]),
        // The count of areas.
        is_off_at(alloc, 7, &[13, 0, 0, 0, 1, 0, 0, 0]),
        // A byte too many.
        is_off_at(alloc, 11, &[13, 0, 0, 0, 1, 0, 0, 0, 0, 0, 0, 0]),
        // Areas that don't rise.
        is_off_at(
            alloc,
            27,
            &[
                13, 0, 0, 0, 1, 0, 0, 0, 0, 0, 2, 0, 0, 0, 0, 0, 0, 0, 9, 0, 0, 0, 0, 0, 0, 0, 1,
                0, 0, 0, 0, 0, 0, 0, 9, 0, 0, 0, 0, 0, 0, 0, 1,
            ],
        ),
    ];
    assert_eq!(rt; off, [true; 7]);
    Ok(())
}
