// Faulty calls, one fault at a time and then several: the first in the order of the checks is answered.
ghost use Rattle.std.specs.Prelude.{◌<◌};

use crate::lines;
use std::io;

// A task of 60 discs on peg 0, with another byte in one place.
fn byte_at(place: usize, byte: u8) -> [u8; 120]
    requires { place < 120 }
{
    let mut task = [0; 120];
    task[place] = byte;
    task
}

fn tasks(rt: &impl Print) -> io::Result<()> {
    let tasks: [(&str, &[u8]); 8] = [
        ("odd length", &[0; 119]),
        ("61 discs", &[0; 122]),
        ("byte 3, first", &byte_at(0, 3)),
        ("byte 255, first", &byte_at(0, 255)),
        ("byte 3, last", &byte_at(119, 3)),
        ("byte 255, last", &byte_at(119, 255)),
        ("odd length, 61 discs, byte 3", &[3; 123]),
        ("61 discs, byte 3", &[3; 122]),
    ];
    for (name, task) in tasks {
        lines::plan(rt, name, task)?;
    }
    Ok(())
}

fn positions(rt: &impl Print) -> io::Result<()> {
    let positions: [(&str, &[u8], u8); 8] = [
        ("61 discs", &[0; 61], 0),
        ("byte 3, first", b"\x03\x00\x00", 0),
        ("byte 255, first", b"\xff\x00\x00", 0),
        ("byte 3, last", b"\x00\x00\x03", 0),
        ("byte 255, last", b"\x00\x00\xff", 0),
        ("peg 3", b"\x00\x00\x00", 3),
        ("peg 255", b"\x00\x00\x00", 255),
        ("61 discs, byte 3, peg 3", &[3; 61], 3),
    ];
    for (name, position, peg) in positions {
        lines::gather(rt, name, position, peg)?;
    }
    Ok(())
}

pub fn all(rt: &impl Print) -> io::Result<()> {
    tasks(rt)?;
    positions(rt)
}
