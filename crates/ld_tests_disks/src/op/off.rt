// Where bytes are off that are no record: heads, versions, formats, entries, last known good offsets, closes, trims and refills.
use crate::op::is_off_at;
use std::test::Fail;

#[test]
fn heads_versions_and_formats_are_judged(rt: HostRuntime) -> Result<(), Fail> {
    let alloc = rt.alloc();
    let off = [
        // Nothing.
        is_off_at(alloc, 0, &[]),
        // A kind below the first.
        is_off_at(alloc, 0, &[0]),
        // Kinds between.
        is_off_at(alloc, 0, &[8, 0, 0, 0, 1]),
        is_off_at(alloc, 0, &[9, 2]),
        // A kind above the last.
        is_off_at(alloc, 0, &[13, 0, 0, 0, 1]),
        // Log 0.
        is_off_at(alloc, 1, &[7, 0, 0, 0, 0]),
        // A log above 65535.
        is_off_at(alloc, 1, &[7, 0, 1, 0, 0]),
        // A log that is cut off.
        is_off_at(alloc, 1, &[7, 0, 0, 0]),
        // A byte too many.
        is_off_at(alloc, 5, &[7, 0, 0, 0, 1, 0]),
        // A ballot that is cut off.
        is_off_at(alloc, 5, &[3, 0, 0, 0, 1, 0, 0, 0]),
        // A format of another version.
        is_off_at(alloc, 1, &[10, 3, 0, 0, 0, 1, 0]),
        // A format's version that is cut off.
        is_off_at(alloc, 1, &[10]),
        // Its generation.
        is_off_at(alloc, 2, &[10, 2, 0, 0, 0]),
        // A mark of another version.
        is_off_at(alloc, 1, &[11, 1]),
        // A mark's version that is cut off.
        is_off_at(alloc, 1, &[11]),
        // A byte too many behind a mark.
        is_off_at(alloc, 2, &[11, 2, 0]),
        // A generation that is cut off.
        is_off_at(alloc, 1, &[1, 0, 0, 0]),
        // Logs that are missing.
        is_off_at(alloc, 6, &[1, 0, 0, 0, 2, 1]),
        // A log twice.
        is_off_at(
            alloc,
            14,
            &[
                1, 0, 0, 0, 2, 2, 0, 0, 0, 1, 0, 0, 0, 3, 0, 0, 0, 1, 0, 0, 0, 3,
            ],
        ),
        // An epoch of 0.
        is_off_at(alloc, 10, &[1, 0, 0, 0, 2, 1, 0, 0, 0, 1, 0, 0, 0, 0]),
    ];
    assert_eq!(rt; off, [true; 20]);
    Ok(())
}

#[test]
fn entries_closes_trims_and_refills_are_judged(rt: HostRuntime) -> Result<(), Fail> {
    let alloc = rt.alloc();
    let off = [
        // An entry of epoch 0.
        is_off_at(
            alloc,
            9,
            &[
                2, 0, 0, 0, 1, 0, 0, 0, 0, 0, 0, 0, 0, 0, 0, 0, 1, 0, 0, 0, 1, 1,
            ],
        ),
        // An entry at offset 0.
        is_off_at(
            alloc,
            9,
            &[
                2, 0, 0, 0, 1, 0, 0, 0, 0, 0, 0, 0, 1, 0, 0, 0, 0, 0, 0, 0, 1, 1,
            ],
        ),
        // An entry of no epoch.
        is_off_at(
            alloc,
            9,
            &[
                2, 0, 0, 0, 1, 0, 0, 0, 0, 255, 255, 255, 255, 0, 0, 0, 1, 255, 255, 255, 255, 1,
            ],
        ),
        // A ballot below the epoch.
        is_off_at(
            alloc,
            17,
            &[
                2, 0, 0, 0, 1, 0, 0, 0, 0, 0, 0, 0, 3, 0, 0, 0, 1, 0, 0, 0, 2, 1,
            ],
        ),
        // A ballot of no epoch.
        is_off_at(
            alloc,
            17,
            &[
                2, 0, 0, 0, 1, 0, 0, 0, 0, 0, 0, 0, 3, 0, 0, 0, 1, 255, 255, 255, 255, 1,
            ],
        ),
        // A record that another node sends.
        is_off_at(
            alloc,
            21,
            &[
                2, 0, 0, 0, 1, 0, 0, 0, 0, 0, 0, 0, 1, 0, 0, 0, 1, 0, 0, 0, 1, 4,
            ],
        ),
        // A plug at an epoch's last offset.
        is_off_at(
            alloc,
            21,
            &[
                2, 0, 0, 0, 1, 0, 0, 0, 0, 0, 0, 0, 1, 255, 255, 255, 255, 0, 0, 0, 2, 3,
            ],
        ),
        // A record at an epoch's last offset.
        is_off_at(
            alloc,
            21,
            &[
                2, 0, 0, 0, 1, 0, 0, 0, 0, 0, 0, 0, 1, 255, 255, 255, 255, 0, 0, 0, 1, 0, 0, 0,
            ],
        ),
        // A payload that is cut off.
        is_off_at(
            alloc,
            22,
            &[
                2, 0, 0, 0, 1, 0, 0, 0, 0, 0, 0, 0, 1, 0, 0, 0, 1, 0, 0, 0, 1, 0, 0, 2, 104,
            ],
        ),
        // The greatest offset of an epoch as the last known good one, in an accepted store.
        is_off_at(
            alloc,
            5,
            &[
                2, 0, 0, 0, 1, 255, 255, 255, 255, 0, 0, 0, 1, 0, 0, 0, 2, 0, 0, 0, 2, 1,
            ],
        ),
        // The same, in a close.
        is_off_at(
            alloc,
            13,
            &[
                4, 0, 0, 0, 1, 0, 0, 0, 1, 0, 0, 0, 2, 255, 255, 255, 255, 0, 0, 0, 0, 0, 0, 0, 0,
                0, 0, 0, 4,
            ],
        ),
        // A close of epoch 0.
        is_off_at(
            alloc,
            5,
            &[
                4, 0, 0, 0, 1, 0, 0, 0, 0, 0, 0, 0, 2, 0, 0, 0, 0, 0, 0, 0, 0, 0, 0, 0, 0, 0, 0, 0,
                4,
            ],
        ),
        // A close by the epoch itself.
        is_off_at(
            alloc,
            9,
            &[
                4, 0, 0, 0, 1, 0, 0, 0, 1, 0, 0, 0, 1, 0, 0, 0, 0, 0, 0, 0, 0, 0, 0, 0, 0, 0, 0, 0,
                4,
            ],
        ),
        // An end at offset 0.
        is_off_at(
            alloc,
            25,
            &[
                4, 0, 0, 0, 1, 0, 0, 0, 1, 0, 0, 0, 2, 0, 0, 0, 0, 0, 0, 0, 0, 0, 0, 0, 0, 0, 0, 0,
                0,
            ],
        ),
        // A loss of 2.
        is_off_at(
            alloc,
            29,
            &[
                12, 0, 0, 0, 1, 0, 0, 0, 1, 0, 0, 0, 2, 0, 0, 0, 0, 0, 0, 0, 0, 0, 0, 0, 0, 0, 0,
                0, 4, 2,
            ],
        ),
        // A loss that is cut off.
        is_off_at(
            alloc,
            29,
            &[
                12, 0, 0, 0, 1, 0, 0, 0, 1, 0, 0, 0, 2, 0, 0, 0, 0, 0, 0, 0, 0, 0, 0, 0, 0, 0, 0,
                0, 4,
            ],
        ),
        // A loss in the older form.
        is_off_at(
            alloc,
            29,
            &[
                4, 0, 0, 0, 1, 0, 0, 0, 1, 0, 0, 0, 2, 0, 0, 0, 0, 0, 0, 0, 0, 0, 0, 0, 0, 0, 0, 0,
                4, 0,
            ],
        ),
        // A trim that is cut off.
        is_off_at(alloc, 5, &[5, 0, 0, 0, 1, 0, 0, 0, 1, 0, 0, 0]),
        // A refill of nothing.
        is_off_at(alloc, 5, &[6, 0, 0, 0, 1, 0, 0]),
        // A refill of 65.
        is_off_at(
            alloc,
            5,
            &[6, 0, 0, 0, 1, 0, 65, 0, 0, 0, 1, 0, 0, 0, 1, 0, 0, 0, 2, 1],
        ),
        // Entries that don't rise.
        is_off_at(
            alloc,
            20,
            &[
                6, 0, 0, 0, 1, 0, 2, 0, 0, 0, 1, 0, 0, 0, 2, 0, 0, 0, 2, 1, 0, 0, 0, 1, 0, 0, 0, 2,
                0, 0, 0, 2, 1,
            ],
        ),
        // A second entry that is missing.
        is_off_at(
            alloc,
            20,
            &[6, 0, 0, 0, 1, 0, 2, 0, 0, 0, 1, 0, 0, 0, 2, 0, 0, 0, 2, 1],
        ),
    ];
    assert_eq!(rt; off, [true; 22]);
    Ok(())
}
