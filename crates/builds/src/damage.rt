// A sound builder, and damaged ones that no list of changes leaves: Add and Remove refuse these, and leave them as they were.
use crate::say;
use builder::{Builder, add, empty};
use std::io;

// Damages a builder, and shows an addition and a removal, each accepted where the builder is sound.
fn damaged<F: FnOnce(&mut Builder)>(
    rt: &impl Print,
    mut b: Builder,
    name: &str,
    damage: F,
) -> io::Result<()>
    requires { F.IsAlwaysCallable damage }
{
    damage(&mut b);
    println!(rt; "{name}")?;
    say::add(rt, b, 0)?;
    say::remove(rt, b)?;
    Ok(())
}

// A damaged position: a used byte set to 3, an unused byte to 1, the first and the last, and a disc on another peg.
fn positions(rt: &impl Print, b: Builder) -> io::Result<()> {
    damaged(rt, b, "a used byte is 3", |b| b.position[1] = 3)?;
    damaged(rt, b, "the first unused byte is 1", |b| b.position[2] = 1)?;
    damaged(rt, b, "the last unused byte is 1", |b| b.position[59] = 1)?;
    damaged(rt, b, "disc 1 is on another peg", |b| b.position[0] = 1)
}

// A damaged n: one less, one more, 61, and as large as can be.
fn discs(rt: &impl Print, b: Builder) -> io::Result<()> {
    damaged(rt, b, "n is one less", |b| b.n = 1)?;
    damaged(rt, b, "n is one more", |b| b.n = 3)?;
    damaged(rt, b, "n is 61", |b| b.n = 61)?;
    damaged(rt, b, "n is 2^64 - 1", |b| b.n = usize::MAX)
}

// Each length one more; and two exchanged, with the same sum.
fn lengths(rt: &impl Print, b: Builder) -> io::Result<()> {
    damaged(rt, b, "the length for A is one more", |b| b.lengths[0] = 3)?;
    damaged(rt, b, "the length for B is one more", |b| b.lengths[1] = 2)?;
    damaged(rt, b, "the length for C is one more", |b| b.lengths[2] = 4)?;
    damaged(rt, b, "the lengths for A and C are exchanged", |b| {
        b.lengths.swap(0, 2);
    })
}

// The builder of [2, 1], sound and then damaged in each field.
pub fn builders(rt: &impl Print) -> io::Result<()> {
    let one = add(empty(), 2).builder;
    let b = add(one, 1).builder;
    damaged(rt, b, "a sound builder of [2, 1]", |_| {})?;
    positions(rt, b)?;
    discs(rt, b)?;
    lengths(rt, b)
}
