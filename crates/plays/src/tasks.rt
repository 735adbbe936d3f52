// Tasks that Begin takes, and tasks that it refuses.
use session::begin;
use std::io;

// Writes Begin's verdict on a task.
fn verdict(rt: &impl Print, name: &str, task: &[u8]) -> io::Result<()> {
    println!(rt; "begin on {name}: {}", show::verdict(begin(task).verdict))
}

// The longest task, and one byte more, two bytes more, and a byte that is no peg.
pub fn verdicts(rt: &impl Print) -> io::Result<()> {
    let zeros = [0; 122];
    verdict(rt, "60 discs", &zeros[..120])?;
    verdict(rt, "an odd length", &zeros[..121])?;
    verdict(rt, "61 discs", &zeros)?;
    verdict(rt, "a byte 3", b"\x03\x00")
}
