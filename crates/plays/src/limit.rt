// The most plays and the most fumbles that a record counts: 1,000,000 of each.
use crate::say;
use session::{PLAY_LIMIT, Session, begin, play};
use std::io;

// The record after as many plays on [0] to [1], from a list of them over and over.
fn played_out(plays: &[(u8, u8)]) -> Session {
    let mut session = begin(b"\x00\x01").session;
    for &(from, to) in plays.iter().cycle().take(PLAY_LIMIT as usize) {
        let _ = play(&mut session, from, to);
    }
    session
}

// One disc from A to B. Round the pegs a play is toward, away and level in turn, so 1,000,000 plays are 333,334 toward, and 333,333 each
// of the others, and they end on B. No play is taken after them, and the report stays.
pub fn plays(rt: &impl Print) -> io::Result<()> {
    println!(rt; "after 1000000 plays on [0] to [1]")?;
    let mut session = played_out(&[(0, 1), (1, 2), (2, 0)]);
    say::report(rt, &session)?;
    say::plays(rt, &mut session, &[(1, 2), (3, 0)])?;
    say::report(rt, &session)
}

// After as many fumbles, each from A to A, no play is taken, legal or not, and the report stays.
pub fn fumbles(rt: &impl Print) -> io::Result<()> {
    println!(rt; "after 1000000 fumbles on [0] to [1]")?;
    let mut session = played_out(&[(0, 0)]);
    say::record(rt, &session)?;
    say::plays(rt, &mut session, &[(0, 1), (0, 0)])?;
    say::record(rt, &session)?;
    say::report(rt, &session)
}
