// A line for each play, each report and each record.
use board::Letter;
use session::Session;
use show::{Answer, Record};
use std::io;

// Whether a play left the record as it was, in every field, or in every field but its fumbles, which are one more.
fn difference(before: &Session, after: &Session) -> &'static str {
    if after == before {
        return "unchanged";
    }
    let fumbles = before.fumbles.saturating_add(1);
    let more = Session { fumbles, ..*before };
    if *after == more {
        "one fumble more"
    } else {
        "changed"
    }
}

// Makes a play and writes its answer.
pub fn play(rt: &impl Print, session: &mut Session, from: u8, to: u8) -> io::Result<()> {
    let before = *session;
    let mark = Answer(session::play(session, from, to));
    let difference = difference(&before, session);
    println!(rt;
        "play {} to {}: {mark}, {difference}",
        Letter(from),
        Letter(to)
    )
}

// Makes a list of plays, each a from and a to.
pub fn plays(rt: &impl Print, session: &mut Session, plays: &[(u8, u8)]) -> io::Result<()> {
    for &(from, to) in plays {
        play(rt, session, from, to)?;
    }
    Ok(())
}

// Writes Report's answer.
pub fn report(rt: &impl Print, session: &Session) -> io::Result<()> {
    println!(rt; "report: {}", Answer(session::report(*session)))
}

// Writes a record.
pub fn record(rt: &impl Print, session: &Session) -> io::Result<()> {
    println!(rt; "record: {}", Record(session))
}
