// Each refusal of a play, with the record before it and after it.
use crate::say;
use session::{PLAY_LIMIT, Session, begin, play_on};
use std::io;

// Writes the record, makes a play, and writes the record again.
fn around(rt: &impl Print, mut session: Session, from: u8, to: u8) -> io::Result<()> {
    say::record(rt, &session)?;
    say::play(rt, &mut session, from, to)?;
    say::record(rt, &session)
}

// The refusals of a move: 3; 8 for a from that equals the to and for an empty peg; 9. Then a move that is taken.
fn moves(rt: &impl Print, session: Session) -> io::Result<()> {
    for (from, to) in [(0, 3), (0, 0), (1, 0), (0, 2), (0, 1)] {
        around(rt, session, from, to)?;
    }
    Ok(())
}

// A legal move and one that would be refused with 9, on a record that is first damaged.
fn damaged<F: FnOnce(&mut Session)>(
    rt: &impl Print,
    mut session: Session,
    damage: F,
) -> io::Result<()>
    requires { F.IsAlwaysCallable damage }
{
    damage(&mut session);
    around(rt, session, 0, 1)?;
    around(rt, session, 0, 2)
}

// The refusals of a record: 10 for what remains and for the fumbles, 11 for the plays made and for the fumbles.
fn records(rt: &impl Print, session: Session) -> io::Result<()> {
    damaged(rt, session, |s| s.remaining = 1)?;
    damaged(rt, session, |s| s.fumbles = PLAY_LIMIT + 1)?;
    damaged(rt, session, |s| {
        s.counts.made = PLAY_LIMIT;
        s.counts.level = PLAY_LIMIT - 1;
    })?;
    damaged(rt, session, |s| s.fumbles = PLAY_LIMIT)
}

// On [1, 0] to [0, 1] after B to C.
pub fn refusals(rt: &impl Print) -> io::Result<()> {
    println!(rt; "each refusal on [1, 0] to [0, 1] after B to C")?;
    let session = play_on(begin(b"\x01\x00\x00\x01").session, 1, 2).session;
    moves(rt, session)?;
    records(rt, session)
}
