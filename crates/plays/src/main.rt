// Sessions played through Begin, Play and Report: a line for each fact.
#![tactic(auto)]

mod boards;
mod damage;
mod excess;
mod fumbles;
mod limit;
mod say;
mod tasks;
mod whole;

use std::io;

fn main(rt: HostRuntime) -> io::Result<()> {
    boards::marks(&rt)?;
    whole::route(&rt)?;
    excess::reports(&rt)?;
    tasks::verdicts(&rt)?;
    fumbles::refusals(&rt)?;
    damage::records(&rt)?;
    limit::plays(&rt)?;
    limit::fumbles(&rt)
}
