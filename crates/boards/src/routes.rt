// Move, Place, Run and Locate: a tie, 60 discs, a still task, short buffers, and faulty calls.
use crate::boards::{TIE, tower_task};
use crate::lines;
use std::io;

fn tie_moves(rt: &impl Print) -> io::Result<()> {
    for (name, route, index) in [
        ("tie, route 0, index 0", 0, 0),
        ("tie, route 0, index 2", 0, 2),
        ("tie, route 1, index 0", 1, 0),
        ("tie, route 1, index 3", 1, 3),
        ("tie, route 2, index 0", 2, 0),
        ("tie, route 2, index 9", 2, 9),
    ] {
        lines::move_at(rt, name, TIE, route, index)?;
    }
    Ok(())
}

fn tie_runs(rt: &impl Print) -> io::Result<()> {
    for (name, route, first, room) in [
        ("tie, route 0 from 0, 8 bytes", 0, 0, 8),
        ("tie, route 1 from 0, 8 bytes", 1, 0, 8),
        ("tie, route 0 from 1, 3 bytes", 0, 1, 3),
        ("tie, route 0 from 3, no buffer", 0, 3, 0),
        ("tie, route 0 from 4, 8 bytes", 0, 4, 8),
        ("tie, route 0 from 0, no buffer", 0, 0, 0),
        ("tie, route 0 from 0, 1 byte", 0, 0, 1),
        ("tie, route 0 from 0, 2 bytes", 0, 0, 2),
        ("tie, route 2 from 9, no buffer", 2, 9, 0),
    ] {
        lines::run(rt, name, TIE, route, first, room)?;
    }
    Ok(())
}

fn tie_places(rt: &impl Print) -> io::Result<()> {
    for (name, route, index, room) in [
        ("tie, route 0, index 1, 4 bytes", 0, 1, 4),
        ("tie, route 1, index 1, 2 bytes", 1, 1, 2),
        ("tie, route 0, index 3, 2 bytes", 0, 3, 2),
        ("tie, route 0, index 4, no buffer", 0, 4, 0),
        ("tie, route 0, index 3, 1 byte", 0, 3, 1),
        ("tie, route 2, index 4, no buffer", 2, 4, 0),
    ] {
        lines::place(rt, name, TIE, route, index, room)?;
    }
    Ok(())
}

fn tie_located(rt: &impl Print) -> io::Result<()> {
    let positions: [(&str, &[u8]); 7] = [
        ("tie, [2, 0]", b"\x02\x00"),
        ("tie, [1, 2]", b"\x01\x02"),
        ("tie, [0, 0]", b"\x00\x00"),
        ("tie, [1, 0]", b"\x01\x00"),
        ("tie, [0, 1]", b"\x00\x01"),
        ("tie, 3 bytes", b"\x03\x00\x00"),
        ("tie, byte 3", b"\x00\x03"),
    ];
    for (name, position) in positions {
        lines::locate(rt, name, TIE, position)?;
    }
    lines::locate(rt, "odd task", b"\x00\x00\x00", b"\x00")
}

// 60 discs, all 0 to all 2: 2^60 - 1 moves, the largest disc's at index 2^59 - 1.
fn tall_moves(rt: &impl Print, tower: &[u8]) -> io::Result<()> {
    for (name, index) in [
        ("60 discs, index 0", 0),
        ("60 discs, index 2^59 - 1", 576460752303423487),
        ("60 discs, index 2^59", 576460752303423488),
        ("60 discs, last index", 1152921504606846974),
        ("60 discs, index past the last", 1152921504606846975),
    ] {
        lines::move_at(rt, name, tower, 0, index)?;
    }
    Ok(())
}

fn tall_places(rt: &impl Print, tower: &[u8]) -> io::Result<()> {
    for (name, index, room) in [
        ("60 discs, index 0", 0, 60),
        ("60 discs, index 2^59 - 1", 576460752303423487, 60),
        ("60 discs, index 2^59", 576460752303423488, 60),
        ("60 discs, last index", 1152921504606846974, 60),
        ("60 discs, at the end", 1152921504606846975, 64),
    ] {
        lines::place(rt, name, tower, 0, index, room)?;
    }
    Ok(())
}

fn tall_runs(rt: &impl Print, tower: &[u8]) -> io::Result<()> {
    for (name, first) in [
        ("60 discs from 2^59, 64 bytes", 576460752303423488),
        ("60 discs, the last 32 moves", 1152921504606846943),
        ("60 discs from the end", 1152921504606846975),
    ] {
        lines::run(rt, name, tower, 0, first, 64)?;
    }
    Ok(())
}

// Nothing moves.
fn still(rt: &impl Print) -> io::Result<()> {
    lines::move_at(rt, "still, index 0", b"\x01\x01", 0, 0)?;
    lines::place(rt, "still, index 0", b"\x01\x01", 0, 0, 1)?;
    lines::run(rt, "still from 0, 2 bytes", b"\x01\x01", 0, 0, 2)
}

fn no_discs(rt: &impl Print) -> io::Result<()> {
    lines::move_at(rt, "no discs, index 0", b"", 0, 0)?;
    lines::place(rt, "no discs, index 0", b"", 0, 0, 0)?;
    lines::run(rt, "no discs from 0, no buffer", b"", 0, 0, 0)?;
    lines::locate(rt, "no discs, no discs", b"", b"")
}

pub fn all(rt: &impl Print) -> io::Result<()> {
    tie_moves(rt)?;
    tie_runs(rt)?;
    tie_places(rt)?;
    tie_located(rt)?;
    let tower = tower_task();
    tall_moves(rt, &tower)?;
    tall_places(rt, &tower)?;
    tall_runs(rt, &tower)?;
    still(rt)?;
    no_discs(rt)
}
