// The boards of the lines, and Gather and Plan on them.
use crate::lines;
use std::io;

// [1, 0] to [0, 1], a tie of two routes of three moves.
pub const TIE: &[u8] = b"\x01\x00\x00\x01";

// [1, 1, 0] to [0, 0, 1], a detour without gathering or spreading.
pub const DETOUR: &[u8] = b"\x01\x01\x00\x00\x00\x01";

// [0, 1, 2, 0, 0, 1] to [1, 2, 0, 1, 1, 0], a detour of 43 moves.
pub const SIX: &[u8] = b"\x00\x01\x02\x00\x00\x01\x01\x02\x00\x01\x01\x00";

// 60 discs, all on peg 0, to all on peg 2.
pub fn tower_task() -> [u8; 120] {
    let mut task = [0; 120];
    task[60..].fill(2);
    task
}

// Disc 60 goes from peg 0 to 1, and the smaller ones from 1 to 0.
pub fn detour_task() -> [u8; 120] {
    let mut task = [1; 120];
    task[59] = 0;
    task[60..119].fill(0);
    task
}

fn plans(rt: &impl Print) -> io::Result<()> {
    let tower = tower_task();
    let plans: [(&str, &[u8]); 8] = [
        ("[] to []", b""),
        ("[0] to [2]", b"\x00\x02"),
        ("[0, 0] to [2, 2]", b"\x00\x00\x02\x02"),
        ("[1, 0] to [0, 1]", TIE),
        ("[1, 1, 0] to [0, 0, 1]", DETOUR),
        ("[1, 1, 0] to [2, 2, 1]", b"\x01\x01\x00\x02\x02\x01"),
        ("[0, 1, 2, 0, 0, 1] to [1, 2, 0, 1, 1, 0]", SIX),
        ("60 discs, all 0 to all 2", &tower),
    ];
    for (name, task) in plans {
        lines::plan(rt, name, task)?;
    }
    Ok(())
}

fn gathers(rt: &impl Print) -> io::Result<()> {
    let gathers: [(&str, &[u8], u8); 3] = [
        (
            "[2, 1, 1, 2, 2, 1] to peg 1",
            b"\x02\x01\x01\x02\x02\x01",
            1,
        ),
        ("[] to peg 0", b"", 0),
        ("60 discs, all 0, to peg 2", &[0; 60], 2),
    ];
    for (name, position, peg) in gathers {
        lines::gather(rt, name, position, peg)?;
    }
    Ok(())
}

pub fn all(rt: &impl Print) -> io::Result<()> {
    plans(rt)?;
    gathers(rt)
}
