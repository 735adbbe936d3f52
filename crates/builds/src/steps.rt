// A tower built by hand: discs slid under it and taken out again, with refused changes in between.
use crate::say;
use builder::{Builder, empty};
use std::io;

// Discs on A, B and C; one is taken out and put elsewhere.
fn built(rt: &impl Print) -> io::Result<Builder> {
    let one = say::add(rt, empty(), 0)?;
    let refused = say::add(rt, one, 3)?;
    let two = say::add(rt, refused, 1)?;
    let three = say::add(rt, two, 2)?;
    let back = say::remove(rt, three)?;
    let which = if back == two { "the same" } else { "another" };
    println!(rt; "a disc added and removed: {which} builder")?;
    say::add(rt, back, 1)
}

// From no discs up to three, and down to none and once more.
pub fn shown(rt: &impl Print) -> io::Result<()> {
    println!(rt; "from no discs")?;
    let mut tower = built(rt)?;
    for _ in 0..4 {
        tower = say::remove(rt, tower)?;
    }
    Ok(())
}
