// Batch: tasks end to end, a byte above 2, entries beyond the tasks, and faulty calls.
use crate::boards::tower_task;
use crate::lines;
use std::io;

// [0, 0] to [2, 2], [1, 0] to [0, 1], still.
const THREE: &[u8] = b"\x00\x00\x02\x02\x01\x00\x00\x01\x02\x02\x02\x02";

fn tasks(rt: &impl Print) -> io::Result<()> {
    for (name, n, room) in [
        ("2 discs, 3 tasks, 3 entries", 2, 3),
        ("2 discs, 3 tasks, 5 entries", 2, 5),
        ("1 disc, 6 tasks, 6 entries", 1, 6),
        ("3 discs, 2 tasks, 2 entries", 3, 2),
        ("6 discs, 1 task, 2 entries", 6, 2),
    ] {
        lines::batch(rt, name, n, THREE, room)?;
    }
    Ok(())
}

// Only the entry of its own task changes.
fn bytes_above_two(rt: &impl Print) -> io::Result<()> {
    let tasks: [(&str, &[u8], usize); 4] = [
        (
            "byte 3 in the first of 3",
            b"\x03\x00\x02\x02\x01\x00\x00\x01\x02\x02\x02\x02",
            3,
        ),
        (
            "byte 255 in the second of 3",
            b"\x00\x00\x02\x02\x01\x00\x00\xff\x02\x02\x02\x02",
            3,
        ),
        (
            "byte 3 in the last of 3",
            b"\x00\x00\x02\x02\x01\x00\x00\x01\x02\x02\x02\x03",
            3,
        ),
        ("nothing but byte 3", &[3; 12], 4),
    ];
    for (name, tasks, room) in tasks {
        lines::batch(rt, name, 2, tasks, room)?;
    }
    Ok(())
}

// All discs from 0 to 2; nothing moves; and no tasks.
fn others(rt: &impl Print, tower: &[u8]) -> io::Result<()> {
    let cases: [(&str, u64, &[u8], usize); 6] = [
        ("60 discs, 1 task, 2 entries", 60, tower, 2),
        ("60 discs, 2 tasks, 2 entries", 60, &[1; 240], 2),
        ("2 discs, no tasks, no entries", 2, b"", 0),
        ("2 discs, no tasks, 1 entry", 2, b"", 1),
        ("no discs, no bytes, no entries", 0, b"", 0),
        ("no discs, no bytes, 1 entry", 0, b"", 1),
    ];
    for (name, n, tasks, room) in cases {
        lines::batch(rt, name, n, tasks, room)?;
    }
    Ok(())
}

// 2; 13; 6; and several faults.
fn refused(rt: &impl Print) -> io::Result<()> {
    let cases: [(&str, u64, &[u8], usize); 13] = [
        ("61 discs", 61, &[0; 122], 1),
        ("2^63 discs, no bytes", 9223372036854775808, b"", 1),
        (
            "2^63 + 1 discs, 2 bytes",
            9223372036854775809,
            b"\x00\x01",
            1,
        ),
        ("2 discs, 1 byte too few", 2, &[0; 7], 2),
        ("2 discs, 1 byte too many", 2, &[0; 9], 3),
        ("2 discs, half a task too many", 2, &[0; 10], 3),
        ("no discs, 1 byte", 0, &[0; 1], 1),
        ("no discs, 4 bytes", 0, &[0; 4], 1),
        ("2 discs, 2 tasks, 1 entry", 2, &[0; 8], 1),
        ("2 discs, 1 task, no entries", 2, &[0; 4], 0),
        ("61 discs, odd length, byte 3, no entries", 61, &[3; 7], 0),
        ("2 discs, odd length, byte 3, no entries", 2, &[3; 7], 0),
        ("2 discs, byte 3, no entries", 2, &[3; 8], 0),
    ];
    for (name, n, tasks, room) in cases {
        lines::batch(rt, name, n, tasks, room)?;
    }
    Ok(())
}

pub fn all(rt: &impl Print) -> io::Result<()> {
    tasks(rt)?;
    bytes_above_two(rt)?;
    others(rt, &tower_task())?;
    refused(rt)
}
