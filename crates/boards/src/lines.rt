// One line for each call: its name, the board's, and what it answers.
ghost use Rattle.std.specs.Prelude.{◌≤◌};

use board::Refusal;
use show::{Answer, Digits, Found, Moved, Written};
use std::{fmt, io};

// The most bytes or entries of a buffer.
// Stays: that a room is at most this, as a clause of each line: a type for the numbers of the tables would be no plainer.
const ROOM: usize = 64;

// What an entry holds before the call, which no call writes.
// Stays: a number and no `Option`, which would be no plainer, since the calls write numbers into what is lent.
const UNWRITTEN: u64 = 9223372036854775808;

// The entries of a buffer, each after a space, with a dot for one that was not written.
#[derive(Clone, Copy)]
struct Entries<'a>(&'a [u64]);

impl fmt::Display for Entries<'_> {
    fn fmt<W: fmt::Write>(&self, f: &mut fmt::Formatter<W>) -> fmt::Result {
        for entry in self.0 {
            match *entry {
                UNWRITTEN => write!(f, " .")?,
                number => write!(f, " {number}")?,
            }
        }
        Ok(())
    }
}

// The answer of Plan.
pub fn plan(rt: &impl Print, name: &str, task: &[u8]) -> io::Result<()> {
    println!(rt; "plan {name}: {}", Answer(plan::plan(task)))
}

// The answer of Gather.
pub fn gather(rt: &impl Print, name: &str, position: &[u8], peg: u8) -> io::Result<()> {
    println!(rt; "gather {name}: {}", Answer(plan::gather(position, peg)))
}

// The answer of Move.
pub fn move_at(rt: &impl Print, name: &str, task: &[u8], route: u64, index: u64) -> io::Result<()> {
    let moved = route::move_at(task, route, index).map(Moved);
    println!(rt; "move {name}: {}", Answer(moved))
}

// The answer of Place, and its buffer of so many bytes, which comes filled with dots.
pub fn place(
    rt: &impl Print,
    name: &str,
    task: &[u8],
    route: u64,
    index: u64,
    room: usize,
) -> io::Result<()>
    requires { room ≤ 64 }
{
    let buffer = &mut [b'.'; ROOM][..room];
    let placed = route::place(task, route, index, buffer).map(|()| Digits(buffer));
    println!(rt; "place {name}: {}", Answer(placed))
}

// The answer of a call that writes moves, and its buffer of so many bytes, which comes filled with dots.
fn written<F: FnOnce(&mut [u8]) -> Result<usize, Refusal>>(
    rt: &impl Print,
    call: &str,
    name: &str,
    room: usize,
    write: F,
) -> io::Result<()>
    requires room { room ≤ 64 }
    requires write { F.IsAlwaysCallable write }
{
    let buffer = &mut [b'.'; ROOM][..room];
    let written = write(buffer).map(|count| Written(count, buffer));
    println!(rt; "{call} {name}: {}", Answer(written))
}

// The answer of Run, and its buffer.
pub fn run(
    rt: &impl Print,
    name: &str,
    task: &[u8],
    route: u64,
    first: u64,
    room: usize,
) -> io::Result<()>
    requires { room ≤ 64 }
{
    written(rt, "run", name, room, |out| {
        run::run(task, route, first, out)
    })
}

// The answer of Parts, and its buffer.
pub fn parts(
    rt: &impl Print,
    name: &str,
    task: &[u8],
    route: u64,
    first: u64,
    room: usize,
) -> io::Result<()>
    requires { room ≤ 64 }
{
    written(rt, "parts", name, room, |out| {
        parts::parts(task, route, first, out)
    })
}

// The answer of Locate.
pub fn locate(rt: &impl Print, name: &str, task: &[u8], position: &[u8]) -> io::Result<()> {
    let located = route::locate(task, position).map(Found);
    println!(rt; "locate {name}: {}", Answer(located))
}

// The answer of Batch, and its buffer of so many entries, of a refused call too.
pub fn batch(rt: &impl Print, name: &str, n: u64, tasks: &[u8], room: usize) -> io::Result<()>
    requires { room ≤ 64 }
{
    let entries = &mut [UNWRITTEN; ROOM][..room];
    let count = Answer(batch::batch(n, tasks, entries));
    println!(rt; "batch {name}: {count}:{}", Entries(entries))
}

// The answer of Wear, and its buffer, of a refused call too.
pub fn wear(rt: &impl Print, name: &str, task: &[u8], route: u64, room: usize) -> io::Result<()>
    requires { room ≤ 64 }
{
    let entries = &mut [UNWRITTEN; ROOM][..room];
    let verdict = show::verdict(wear::wear(task, route, entries));
    println!(rt; "wear {name}: {verdict}:{}", Entries(entries))
}

// The answer of the checker.
pub fn check(rt: &impl Print, name: &str, task: &[u8], letters: &[u8]) -> io::Result<()> {
    match checker::check_route(task, letters) {
        Ok(route) => println!(rt; "check {name}: route {route}"),
        Err(why) => println!(rt; "check {name}: {why}"),
    }
}

// Its answer to what Run writes of a route of at most 64 moves.
#[tactic(auto, using(crate::proofs::Runs::run_letters))]
pub fn check_run(rt: &impl Print, name: &str, task: &[u8], route: u64) -> io::Result<()> {
    let mut letters = [0; 128];
    match run::run(task, route, 0, &mut letters) {
        Ok(count) => check(rt, name, task, &letters[..2 * count]),
        Err(_) => println!(rt; "check {name}: not written"),
    }
}
