// Move's parts and Parts: a tie, a detour, the edges of a route, 60 discs, and faulty calls.
use crate::boards::{DETOUR, SIX, TIE, tower_task};
use crate::lines;
use std::io;

// Both routes of a tie, part of one, from its end, and refused.
fn tie(rt: &impl Print) -> io::Result<()> {
    for (name, route, first, room) in [
        ("tie, route 0 from 0, 5 bytes", 0, 0, 5),
        ("tie, route 1 from 0, 5 bytes", 1, 0, 5),
        ("tie, route 0 from 1, 1 byte", 0, 1, 1),
        ("tie, route 0 from 3, 2 bytes", 0, 3, 2),
        ("tie, route 0 from 3, no buffer", 0, 3, 0),
        ("tie, route 0 from 0, no buffer", 0, 0, 0),
        ("tie, route 0 from 2, no buffer", 0, 2, 0),
        ("tie, route 0 from 4, no buffer", 0, 4, 0),
        ("tie, route 2 from 9, no buffer", 2, 9, 0),
        ("tie, route 0 from 2^64 - 1, 8 bytes", 0, u64::MAX, 8),
    ] {
        lines::parts(rt, name, TIE, route, first, room)?;
    }
    Ok(())
}

// Task faults come first.
fn task_refused(rt: &impl Print) -> io::Result<()> {
    let tasks: [(&str, &[u8]); 3] = [
        ("odd length, byte 3, route 2 from 9", b"\x00\x00\x03"),
        ("61 discs, byte 3, route 2 from 9", &[3; 122]),
        ("byte 3, route 2 from 9", b"\x00\x03"),
    ];
    for (name, task) in tasks {
        lines::parts(rt, name, task, 2, 9, 0)?;
    }
    Ok(())
}

// A detour without gathering or spreading, and its moves.
fn detour(rt: &impl Print) -> io::Result<()> {
    lines::parts(rt, "[1, 1, 0] to [0, 0, 1]", DETOUR, 0, 0, 6)?;
    for (name, index) in [
        ("[1, 1, 0] to [0, 0, 1], index 0", 0),
        ("[1, 1, 0] to [0, 0, 1], index 1", 1),
        ("[1, 1, 0] to [0, 0, 1], index 4", 4),
    ] {
        lines::move_at(rt, name, DETOUR, 0, index)?;
    }
    Ok(())
}

// A direct route of one move, one of a disc that is not the largest, and still tasks.
fn direct(rt: &impl Print) -> io::Result<()> {
    let tasks: [(&str, &[u8], usize); 4] = [
        ("[0] to [2]", b"\x00\x02", 3),
        ("[1, 1, 0] to [1, 2, 0]", b"\x01\x01\x00\x01\x02\x00", 6),
        ("still from 0, 2 bytes", b"\x01\x01", 2),
        ("no discs from 0, no buffer", b"", 0),
    ];
    for (name, task, room) in tasks {
        lines::parts(rt, name, task, 0, 0, room)?;
    }
    Ok(())
}

// The six-disc board: all 43 moves, and about each crossing.
fn six(rt: &impl Print) -> io::Result<()> {
    lines::parts(rt, "six discs", SIX, 0, 0, 64)?;
    lines::parts(rt, "six discs from 5, 8 bytes", SIX, 0, 5, 8)?;
    lines::parts(rt, "six discs from 36, 8 bytes", SIX, 0, 36, 8)
}

// 60 discs, all 0 to all 2: about the crossing, and the end.
fn tall(rt: &impl Print, tower: &[u8]) -> io::Result<()> {
    for (name, first, room) in [
        ("60 discs from 2^59 - 4, 8 bytes", 576460752303423484, 8),
        ("60 discs, the last 3 moves", 1152921504606846972, 5),
        ("60 discs, past the end", 1152921504606846976, 5),
    ] {
        lines::parts(rt, name, tower, 0, first, room)?;
    }
    Ok(())
}

pub fn all(rt: &impl Print) -> io::Result<()> {
    tie(rt)?;
    task_refused(rt)?;
    detour(rt)?;
    direct(rt)?;
    six(rt)?;
    tall(rt, &tower_task())
}
