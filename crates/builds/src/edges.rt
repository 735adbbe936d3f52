// Each refusal at its edge: 19, 3 and 2, and 10 before them.
use crate::say;
use crate::sixty::changes;
use builder::{Builder, add, empty};
use std::io;

// Where no disc is there.
fn none(rt: &impl Print) -> io::Result<()> {
    println!(rt; "on no discs")?;
    let b = empty();
    say::remove(rt, b)?;
    say::add(rt, b, 3)?;
    say::add(rt, b, 255)?;
    let mut damaged = b;
    damaged.lengths[0] = 1;
    say::remove(rt, damaged)?;
    say::add(rt, damaged, 3)?;
    Ok(())
}

// One disc below the limit: a peg above 2, and the last disc that there is room for.
fn last(rt: &impl Print) -> io::Result<Builder> {
    println!(rt; "on 59 discs")?;
    let digits = b"11020120110121200012121200221000020220110120101200010012111";
    let b = changes(rt, empty(), digits, |b, peg| add(b, peg))?;
    say::add(rt, b, 3)?;
    say::add(rt, b, 2)
}

// A full tower: 2 for a peg and for none, and a disc taken out of it.
fn full(rt: &impl Print, b: Builder) -> io::Result<()> {
    println!(rt; "on 60 discs")?;
    say::add(rt, b, 0)?;
    say::add(rt, b, 3)?;
    let mut damaged = b;
    damaged.lengths[2] = 0;
    say::add(rt, damaged, 3)?;
    say::remove(rt, b)?;
    Ok(())
}

pub fn refusals(rt: &impl Print) -> io::Result<()> {
    none(rt)?;
    full(rt, last(rt)?)
}
