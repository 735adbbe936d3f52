// A subject who gives up, and one who goes on to the goal.
use crate::say;
use session::{Session, begin, play};
use std::io;

// Four plays of the smallest disc that end where they began.
const WASTED: [(u8, u8); 4] = [(0, 1), (1, 2), (2, 1), (1, 0)];

// Makes the first 40 moves of a task's route 0.
fn along(session: &mut Session, task: &[u8]) {
    for index in 0..40 {
        if let Ok((disc_move, _)) = route::move_at(task, 0, index) {
            let _ = play(session, disc_move.from, disc_move.to);
        }
    }
}

// A task of 40 moves: the report at first, after four wasted plays, and at the goal after them and the whole route.
pub fn reports(rt: &impl Print) -> io::Result<()> {
    println!(rt; "on [0, 0, 0, 0, 0, 0] to [0, 0, 0, 1, 2, 1]")?;
    let task = b"\x00\x00\x00\x00\x00\x00\x00\x00\x00\x01\x02\x01";
    let mut session = begin(task).session;
    say::report(rt, &session)?;
    say::plays(rt, &mut session, &WASTED)?;
    say::report(rt, &session)?;
    println!(rt; "and then along route 0")?;
    along(&mut session, task);
    say::report(rt, &session)
}
