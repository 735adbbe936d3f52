// A line for each change to a builder.
use crate::gathers::as_gather;
use board::Letter;
use builder::{Builder, Built};
use show::held;
use std::{fmt, io};

// A builder in print: its number of discs, its position, and its length for each peg.
#[derive(Clone, Copy)]
pub struct Shown<'a>(pub &'a Builder);

impl fmt::Display for Shown<'_> {
    fn fmt<W: fmt::Write>(&self, f: &mut fmt::Formatter<W>) -> fmt::Result {
        let n = self.0.n;
        let position = held(n, &self.0.position);
        let [on_a, on_b, on_c] = self.0.lengths;
        write!(
            f,
            "n {n}, position {position}, A {on_a}, B {on_b}, C {on_c}"
        )
    }
}

// The answer to a change and what it left. Answers the builder after it.
fn change(rt: &impl Print, before: Builder, built: Built) -> io::Result<Builder> {
    let after = built.builder;
    let verdict = show::verdict(built.verdict);
    if after == before {
        println!(rt; "{verdict}, unchanged")?;
    } else {
        let which = if as_gather(&after) { "as" } else { "not as" };
        println!(rt; "{verdict}, {}, {which} Gather", Shown(&after))?;
    }
    Ok(after)
}

// Adds a disc, and writes the answer.
pub fn add(rt: &impl Print, b: Builder, peg: u8) -> io::Result<Builder> {
    print!(rt; "add {}: ", Letter(peg))?;
    change(rt, b, builder::add(b, peg))
}

// Removes a disc, and writes the answer.
pub fn remove(rt: &impl Print, b: Builder) -> io::Result<Builder> {
    print!(rt; "remove: ")?;
    change(rt, b, builder::remove(b))
}
