// Builders through Add and Remove: a line for each fact.
#![tactic(auto)]

mod damage;
mod edges;
mod gathers;
mod say;
mod sixty;
mod steps;

use std::io;

fn main(rt: HostRuntime) -> io::Result<()> {
    steps::shown(&rt)?;
    sixty::towers(&rt)?;
    edges::refusals(&rt)?;
    damage::builders(&rt)
}
