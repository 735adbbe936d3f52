// Prints what the library answers on the boards and on faulty calls.
#![tactic(auto)]

mod batches;
mod boards;
mod checks;
mod faults;
mod letters;
mod lines;
mod routes;
mod wears;

use std::io;

fn main(rt: HostRuntime) -> io::Result<()> {
    boards::all(&rt)?;
    faults::all(&rt)?;
    routes::all(&rt)?;
    letters::all(&rt)?;
    batches::all(&rt)?;
    wears::all(&rt)?;
    checks::all(&rt)
}
