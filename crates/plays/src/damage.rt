// Records that no list of plays leaves: Play and Report refuse them, and Play leaves them as they were.
use crate::say;
use session::{PLAY_LIMIT, Session, begin, play_on};
use std::io;

// Damages a record, and shows a play on it, which is legal where the record is sound, and the report of it without that play.
fn damaged<F: FnOnce(&mut Session)>(
    rt: &impl Print,
    mut session: Session,
    name: &str,
    damage: F,
) -> io::Result<()>
    requires { F.IsAlwaysCallable damage }
{
    damage(&mut session);
    println!(rt; "{name}")?;
    let mut played = session;
    say::play(rt, &mut played, 0, 1)?;
    say::report(rt, &session)
}

// Damaged positions: an unused byte of each set to 1, and a used byte set to 3.
fn positions(rt: &impl Print, session: Session) -> io::Result<()> {
    damaged(rt, session, "an unused byte of start is 1", |s| {
        s.start[59] = 1;
    })?;
    damaged(rt, session, "an unused byte of goal is 1", |s| {
        s.goal[59] = 1;
    })?;
    damaged(rt, session, "an unused byte of current is 1", |s| {
        s.current[59] = 1;
    })?;
    damaged(rt, session, "a used byte of current is 3", |s| {
        s.current[0] = 3;
    })
}

// A damaged n, and damaged counts: n is 61, or one of the counts is one more.
fn numbers(rt: &impl Print, session: Session) -> io::Result<()> {
    damaged(rt, session, "n is 61", |s| s.n = 61)?;
    damaged(rt, session, "made is one more", |s| s.counts.made = 2)?;
    damaged(rt, session, "toward is one more", |s| s.counts.toward = 2)?;
    damaged(rt, session, "level is one more", |s| s.counts.level = 1)?;
    damaged(rt, session, "away is one more", |s| s.counts.away = 1)
}

// What remains is one more or one less than the fewest, and there are more fumbles than a record counts.
fn fumbles_and_remaining(rt: &impl Print, session: Session) -> io::Result<()> {
    damaged(rt, session, "remaining is one more", |s| s.remaining = 3)?;
    damaged(rt, session, "remaining is one less", |s| s.remaining = 1)?;
    damaged(rt, session, "fumbles are 1000001", |s| {
        s.fumbles = PLAY_LIMIT + 1;
    })
}

// Counts that add up, and yet no plays lead to them: one toward too many for the position, and more plays than a record counts.
fn sums(rt: &impl Print, session: Session) -> io::Result<()> {
    damaged(rt, session, "made and toward are one more", |s| {
        s.counts.made = 2;
        s.counts.toward = 2;
    })?;
    damaged(rt, session, "made is 1000001 and level is 1000000", |s| {
        s.counts.made = PLAY_LIMIT + 1;
        s.counts.level = PLAY_LIMIT;
    })
}

// The record of [1, 0] to [0, 1] after B to C, sound and then damaged in each field.
pub fn records(rt: &impl Print) -> io::Result<()> {
    let session = play_on(begin(b"\x01\x00\x00\x01").session, 1, 2).session;
    damaged(rt, session, "a sound record", |_| {})?;
    positions(rt, session)?;
    numbers(rt, session)?;
    fumbles_and_remaining(rt, session)?;
    sums(rt, session)
}
