// A session along a whole shortest route, with refused plays in between, and one play past the goal.
use crate::say;
use session::{Session, begin, replay};
use std::io;

// The plays on [1, 0] to [0, 1]: BC, AB and CA, and between them a peg above 2, a from that equals the to, a larger disc onto a smaller
// one and an empty peg.
const PLAYS: [(u8, u8); 8] = [
    (3, 0),
    (0, 3),
    (1, 2),
    (0, 0),
    (0, 2),
    (0, 1),
    (0, 2),
    (2, 0),
];

// The same plays in one call, with a last byte by itself.
fn replayed(rt: &impl Print, first: &Session, after: &Session) -> io::Result<()> {
    let plays = b"\x03\x00\x00\x03\x01\x02\x00\x00\x00\x02\x00\x01\x00\x02\x02\x00\x01";
    let same = replay(*first, plays) == *after;
    let which = if same { "the same" } else { "another" };
    println!(rt; "replayed: {which} record")
}

// The whole route, its report, and a play past the goal.
pub fn route(rt: &impl Print) -> io::Result<()> {
    println!(rt; "a session on [1, 0] to [0, 1]")?;
    let first = begin(b"\x01\x00\x00\x01").session;
    let mut session = first;
    say::report(rt, &session)?;
    say::plays(rt, &mut session, &PLAYS)?;
    say::report(rt, &session)?;
    replayed(rt, &first, &session)?;
    say::play(rt, &mut session, 0, 2)?;
    say::report(rt, &session)
}
