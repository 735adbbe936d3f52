// Marks that are not toward the goal.
use crate::say;
use session::begin;
use std::io;

// Makes the first play of a task, and writes its mark.
fn first(rt: &impl Print, name: &str, task: &[u8], from: u8, to: u8) -> io::Result<()> {
    print!(rt; "on {name}, ")?;
    let mut session = begin(task).session;
    say::play(rt, &mut session, from, to)
}

// A play that is level, and a play away from a start that is the goal.
pub fn marks(rt: &impl Print) -> io::Result<()> {
    first(rt, "[1, 0] to [0, 1]", b"\x01\x00\x00\x01", 1, 0)?;
    first(rt, "[0] to [0]", b"\x00\x00", 0, 1)
}
