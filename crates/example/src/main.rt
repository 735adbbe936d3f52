// A first session: the fewest moves of a task, two plays, and the report.
#![tactic(auto)]

mod own;

use board::Refusal;
use session::{Mark, Session};
use show::Answer;
use std::io;

fn main(rt: HostRuntime) -> io::Result<()> {
    let task = b"\x01\x00\x00\x01"; // [1, 0] to [0, 1]: the start's pegs, smallest disc first, then the goal's
    fewest(&rt, task)?;
    session_on(&rt, task)?;
    let odd = b"\x01\x00\x00";
    session_on(&rt, odd)?;
    overlooked(&rt, odd)?;
    proved(&rt, task)
}

// The fewest moves, and how many shortest routes there are.
fn fewest(rt: &impl Print, task: &[u8]) -> io::Result<()> {
    match plan::plan(task) {
        Ok(plan) => println!(rt; "fewest {}, routes {}", plan.shortest(), plan.routes()),
        Err(why) => println!(rt; "{why}"),
    }
}

// A session on a task, or the number of its fault.
fn session_on(rt: &impl Print, task: &[u8]) -> io::Result<()> {
    let begun = session::begin(task);
    match begun.verdict {
        Ok(()) => plays(rt, begun.session),
        Err(why) => println!(rt; "{why}"),
    }
}

// The subject moves a disc from B to C, and then tries to move one from B, which is empty.
fn plays(rt: &impl Print, mut record: Session) -> io::Result<()> {
    answer(rt, session::play(&mut record, 1, 2))?;
    answer(rt, session::play(&mut record, 1, 0))?;
    report(rt, record)
}

// Toward, level or away, or refused with 8 where the peg is empty.
fn answer(rt: &impl Print, mark: Result<Mark, Refusal>) -> io::Result<()> {
    println!(rt; "{}", Answer(mark))
}

fn report(rt: &impl Print, record: Session) -> io::Result<()> {
    match session::report(record) {
        Ok(figures) => println!(rt;
            "remaining {}, excess {}, fumbles {}",
            figures.remaining, figures.excess, record.fumbles
        ),
        Err(why) => println!(rt; "{why}"),
    }
}

// Who overlooks that Begin refused holds a record that is not sound, and gets 10.
fn overlooked(rt: &impl Print, task: &[u8]) -> io::Result<()> {
    let begun = session::begin(task);
    report(rt, begun.session)
}

// Functions of one's own, with contracts that follow from the library's laws.
fn proved(rt: &impl Print, task: &[u8]) -> io::Result<()> {
    println!(rt; "fewest of {}", own::fewest_of(task))?;
    println!(rt;
        "remaining after {}",
        own::remaining_after(task, b"\x01\x02")
    )?;
    if own::leads_back(task, 1, 2) {
        println!(rt; "leads back")?;
    }
    Ok(())
}
