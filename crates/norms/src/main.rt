// The totals of whole boards: a line for each size from 0 to 17 discs, and one for the largest number of 64 bits. Above 15 discs it is
// the refusal.
#![tactic(auto)]

use show::Answer;
use std::io;

fn main(rt: HostRuntime) -> io::Result<()> {
    for n in 0..18 {
        line(&rt, n)?;
    }
    line(&rt, u64::MAX)
}

// The line of a size.
fn line(rt: &impl Print, n: u64) -> io::Result<()> {
    println!(rt; "{n} discs: {}", Answer(averages::totals(n)))
}
