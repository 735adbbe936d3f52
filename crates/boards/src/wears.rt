// Wear: a detour, both routes of a tie, discs that stay, 60 discs, entries beyond the discs, and faulty calls.
use crate::boards::{DETOUR, SIX, TIE, detour_task, tower_task};
use crate::lines;
use std::io;

fn small(rt: &impl Print) -> io::Result<()> {
    let cases: [(&str, &[u8], u64, usize); 11] = [
        ("[1, 1, 0] to [0, 0, 1], 3 entries", DETOUR, 0, 3),
        ("[1, 1, 0] to [0, 0, 1], 5 entries", DETOUR, 0, 5),
        ("tie, route 0, 2 entries", TIE, 0, 2),
        ("tie, route 1, 2 entries", TIE, 1, 2),
        ("[0] to [2], 1 entry", b"\x00\x02", 0, 1),
        (
            "[0, 0, 0] to [2, 2, 2], 3 entries",
            b"\x00\x00\x00\x02\x02\x02",
            0,
            3,
        ),
        (
            "[1, 1, 0] to [1, 2, 0], 4 entries",
            b"\x01\x01\x00\x01\x02\x00",
            0,
            4,
        ),
        ("six discs, 6 entries", SIX, 0, 6),
        (
            "still, 3 discs, 4 entries",
            b"\x01\x02\x00\x01\x02\x00",
            0,
            4,
        ),
        ("no discs, no entries", b"", 0, 0),
        ("no discs, 1 entry", b"", 0, 1),
    ];
    for (name, task, route, room) in cases {
        lines::wear(rt, name, task, route, room)?;
    }
    Ok(())
}

fn tall(rt: &impl Print, tower: &[u8], detour: &[u8]) -> io::Result<()> {
    lines::wear(rt, "60 discs, all 0 to all 2, 60 entries", tower, 0, 60)?;
    lines::wear(rt, "60 discs, a detour, 62 entries", detour, 0, 62)?;
    lines::wear(rt, "60 discs, all 0 to all 2, 59 entries", tower, 0, 59)
}

// 4; 6; and task faults, which come first.
fn refused(rt: &impl Print) -> io::Result<()> {
    let cases: [(&str, &[u8], u64, usize); 12] = [
        ("tie, route 2, 2 entries", TIE, 2, 2),
        ("tie, route 2^64 - 1, 3 entries", TIE, u64::MAX, 3),
        ("tie, route 1, 1 entry", TIE, 1, 1),
        ("tie, route 0, no entries", TIE, 0, 0),
        ("tie, route 2, 1 entry", TIE, 2, 1),
        ("[0] to [2], route 1, 1 entry", b"\x00\x02", 1, 1),
        ("no discs, route 1, no entries", b"", 1, 0),
        (
            "odd length, byte 3, route 2, no entries",
            b"\x00\x00\x03",
            2,
            0,
        ),
        ("61 discs, byte 3, route 2, no entries", &[3; 122], 2, 0),
        ("61 discs, 62 entries", &[0; 122], 0, 62),
        ("byte 3, route 2, no entries", b"\x00\x03", 2, 0),
        ("byte 255, 2 entries", b"\xff\x00", 0, 2),
    ];
    for (name, task, route, room) in cases {
        lines::wear(rt, name, task, route, room)?;
    }
    Ok(())
}

pub fn all(rt: &impl Print) -> io::Result<()> {
    small(rt)?;
    tall(rt, &tower_task(), &detour_task())?;
    refused(rt)
}
