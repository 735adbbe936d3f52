// Towers of 60 discs: after each disc added and after each removed the lengths are compared with Gather's.
use crate::gathers::as_gather;
use crate::say::Shown;
use builder::{Builder, Built, add, empty, remove};
use std::io;

// Makes a change for each digit, whose last two bits are a peg, and writes how many they are, and after how many of them the lengths are
// Gather's.
pub fn changes<F: Fn(Builder, u8) -> Built + Drop>(
    rt: &impl Print,
    b: Builder,
    digits: &[u8],
    change: F,
) -> io::Result<Builder>
    requires { F.IsAlwaysCallable change }
{
    let mut held = b;
    let mut times = 0u64;
    for digit in digits {
        held = change(held, digit & 3).builder;
        if as_gather(&held) {
            times += 1;
        }
    }
    println!(rt; "changes {}, as Gather {times}", digits.len())?;
    Ok(held)
}

// Up from no discs, and down again.
fn tower(rt: &impl Print, digits: &[u8]) -> io::Result<()> {
    let whole = changes(rt, empty(), digits, |b, peg| add(b, peg))?;
    println!(rt; "{}", Shown(&whole))?;
    let none = changes(rt, whole, digits, |b, _| remove(b))?;
    println!(rt; "{}", Shown(&none))
}

// All discs on C; round the pegs; and anywhere.
pub fn towers(rt: &impl Print) -> io::Result<()> {
    tower(
        rt,
        b"222222222222222222222222222222222222222222222222222222222222",
    )?;
    tower(
        rt,
        b"012012012012012012012012012012012012012012012012012012012012",
    )?;
    tower(
        rt,
        b"110201201101212000121212002210000202201101201012000100121110",
    )
}
